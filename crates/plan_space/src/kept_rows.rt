// The entries of all sets at points of a grid, a row a point. A row is kept once it is found, and read by the place of its point.
ghost use Rattle.std.specs.Prelude.{◌≡◌, ◌<◌, [], IfOk, None, OnErr, OnOk, Some, length, replicate, slice_set};
ghost use Rattle.std.specs.Option.{option_map};
ghost use Rattle.plan_space.specs.KeptRows.{kept_row_at};

use crate::entry::Entry;
use std::alloc::{AllocError, Global};
use std::marker::Model;

/// The rows that are kept, of which each is that of the point at one place.
#[derive(Drop)]
pub(crate) struct KeptRows {
    // The number of the row at each place, if one is kept.
    numbers: Vec<Option<usize>>,
    // The rows, in the order in which they were found.
    rows: Vec<[Entry; 64]>,
}

impl Model for KeptRows {
    ghost use Rattle.std.specs.Prelude.{List, Option};
    ghost use Rattle.plan_space.specs.declared.entry.Entry.{Entry};
    ghost use Rattle.plan_space.specs.KeptRows.{AreRowNumbers, rows_by_places};

    ghost Value = { List (Option (List Entry)) };

    ghost view = { λ kept. rows_by_places kept.rows.items kept.numbers.items };

    ghost invariant = { λ kept. AreRowNumbers kept.rows.items kept.numbers.items };
}

impl KeptRows {
    /// No rows, and no places for any. It takes no memory.
    pub(crate) fn none(alloc: Global) -> KeptRows
        ensures { result ≡ [] }
    {
        KeptRows {
            numbers: Vec::new(alloc),
            rows: Vec::new(alloc),
        }
    }

    /// So many places without a row, and room for all rows: what no row is written to takes no memory of the machine. The only
    /// error is out of memory.
    pub(crate) fn with_places(alloc: Global, places: usize) -> Result<KeptRows, AllocError>
        ensures { IfOk result (λ kept. kept ≡ replicate places None) }
    {
        Ok(KeptRows {
            numbers: vec![in alloc; None; places]?,
            rows: Vec::with_capacity(alloc, places)?,
        })
    }

    /// The row at this place, if one is kept.
    pub(crate) fn row(&self, place: usize) -> Option<&[Entry; 64]>
        ensures { option_map (λ row. row.now) result ≡ kept_row_at self.now place }
    {
        match self.numbers.get(place) {
            Some(Some(number)) => Some(&self.rows.as_slice()[*number]),
            _ => None,
        }
    }

    /// Keeps a row at this place. The only error is out of memory.
    pub(crate) fn keep(&mut self, place: usize, row: &[Entry; 64]) -> Result<(), AllocError>
        requires { place < length self.old }
        ensures kept { OnOk result (self.new ≡ slice_set self.old place (Some row.now)) }
        ensures same { OnErr result (self.new ≡ self.old) }
    {
        let number = self.rows.len();
        self.rows.extend_from_slice(std::slice::from_ref(row))?;
        self.numbers[place] = Some(number);
        Ok(())
    }
}
