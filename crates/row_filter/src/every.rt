// Marks of all rows.
ghost use Rattle.std.specs.Prelude.{◌≡◌, ◌+◌, ◌^◌, ◌≤◌};

/// Marks of so many rows, of which there are at most 64.
pub(crate) fn every_row(count: usize) -> u64
    requires { count ≤ 64 }
    ensures { result + 1 ≡ 2 ^ count }
{
    if count == 64 {
        return u64::MAX;
    }
    (1 << count) - 1
}
