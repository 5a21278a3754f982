// Numbers of rows, scaled by a selectivity.
ghost use Rattle.std.specs.Prelude.{◌≡◌, ◌^◌, ◌≤◌};
ghost use Rattle.std.specs.Int.{div_ceil};
ghost use Rattle.sql_values.specs.Limits.{max_product};
ghost use Rattle.ess_grid.specs.Levels.{full_selectivity};
ghost use Rattle.cost_model.specs.AtPoint.{scaled};

// The whole of a selectivity.
const FULL_SELECTIVITY: u128 = 16777216;

/// A number of rows times a selectivity, rounded up.
pub(crate) fn scaled(rows: u128, selectivity: u32) -> u128
    requires rows { rows ≤ max_product }
    requires part { selectivity ≤ full_selectivity }
    ensures scaled { result ≡ scaled rows selectivity }
    ensures few { result ≤ rows }
{
    (rows * u128::from(selectivity)).div_ceil(FULL_SELECTIVITY)
}

/// A number of rows, halved so often, rounded up. A number within the limit of combinations is at most 1 after 100 times.
pub(crate) fn halved(rows: u128, halvings: u8) -> u128
    requires { rows ≤ max_product }
    ensures halved { result ≡ div_ceil rows (2 ^ halvings) }
{
    let times = halvings.min(100);
    (rows + ((1 << times) - 1)) >> times
}
