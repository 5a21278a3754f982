// The marks of rows that follow one another, as the bits of one number: which row is the first that is marked, and the marks
// of those behind it.
ghost use Rattle.std.specs.Prelude.{◌≡◌, ◌+◌, ◌<◌, Bool, List, drop};
ghost use Rattle.narrow_columns.specs.Marks.{marks_of};
ghost use Rattle.exec_scan.specs.NextMarks.{IsFirstMarked};

/// The marks of the next rows of a page, up to the slot where they end. Bit k, counted from the least, is that of the row
/// behind k others.
#[derive(Clone, Copy)]
pub(crate) struct NextMarks {
    pub(crate) marks: u64,
    pub(crate) end: usize,
}

/// Those of no rows.
pub(crate) const NO_MARKS: NextMarks = NextMarks { marks: 0, end: 0 };

/// How many rows come before the first that is marked.
pub(crate) fn first_marked(marks: u64) -> usize
    requires { 0 < marks }
    ensures first { (rows : List Bool) → marks ≡ marks_of rows → IsFirstMarked rows result }
    ensures few { result < 64 }
{
    marks.trailing_zeros() as usize
}

/// The marks of the rows behind this one, which has so many before it.
pub(crate) fn marks_behind(marks: u64, before: usize) -> u64
    requires { before < 64 }
    ensures { (rows : List Bool) → marks ≡ marks_of rows
        → result ≡ marks_of (drop (before + 1) rows) }
{
    // Two shifts, since one by 64 isn't allowed.
    marks >> before >> 1
}
