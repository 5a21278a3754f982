// The rows of the entries that a cursor comes to next, brought near. Memory answers several looks that don't wait for one
// another in about the time of one, so these rows are looked at together, before the first of them is read for pay. It relies
// on the index for rows that are there. Nothing that it sees is told to anybody, and nothing but time comes of it.
ghost use Rattle.std.specs.Prelude.{◌<◌, All, length};
ghost use Rattle.btree_index.specs.Entries.{IndexEntry};

use btree_index::Cursor;
use heap_pages::Heap;
use std::cell::Cell;

// How many rows are looked at together.
const NEAR_ROWS: usize = 16;

/// Looks at rows that are read soon.
#[derive(Drop)]
pub(crate) struct Near {
    // What the looks have seen, in one number, so that none of them is compiled away. Nobody reads it.
    seen: Cell<i64>,
}

/// How many of the entries from a cursor on are looked at next: those up to the next place that `NEAR_ROWS` divides.
pub(crate) fn near_entries(cursor: &Cursor) -> usize {
    NEAR_ROWS - cursor.next % NEAR_ROWS
}

/// Whether a cursor stands where the next rows are looked at.
pub(crate) fn is_at_first(cursor: &Cursor) -> bool {
    cursor.next % NEAR_ROWS == 0
}

// One number of both ends of a row, which may lie on two cache lines.
fn ends_of(row: &[i64]) -> i64 {
    match row {
        [first, .., last] => first ^ last,
        [word] => *word,
        [] => 0,
    }
}

impl Near {
    /// It has looked at nothing yet.
    pub(crate) fn new() -> Near {
        Near { seen: Cell::new(0) }
    }

    /// Looks at the rows of these entries of a table. Of one entry alone there is nothing to gain.
    pub(crate) fn look_at(&self, heap: &Heap, entries: &[(i64, u64)])
        requires { All (λ (e : IndexEntry). e.1 < length heap.now.rows) entries.now }
    {
        if entries.len() < 2 {
            return;
        }
        let mut seen = self.seen.get();
        for entry in entries {
            seen ^= ends_of(heap.get(entry.1));
        }
        self.seen.set(seen);
    }
}
