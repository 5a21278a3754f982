// When a plan covers a point, by what it costs there.
ghost use Rattle.std.specs.Prelude.{◌≡◌, ◌+◌, ◌*◌, ◌<◌, ◌≤◌, nat_le};
ghost use Rattle.sql_values.specs.Limits.{cost_bound, max_threshold};

/// Whether a plan of this cost covers a point with this optimal cost, both in units of work: it costs at most so many
/// percent more.
pub fn is_covered(cost: u128, optimal: u128, threshold: u32) -> bool
    requires cost { cost < cost_bound }
    requires optimal { optimal < cost_bound }
    requires threshold { threshold ≤ max_threshold }
    ensures { result ≡ nat_le (100 * cost) ((100 + threshold) * optimal) }
{
    100 * cost <= u128::from(100 + threshold) * optimal
}
