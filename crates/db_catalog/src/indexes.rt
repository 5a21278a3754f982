// The indexes of one table: the columns that are indexed, in the order in which that was asked, and beside each its
// index. It relies on btree_index for order and search, and never drops an index.
ghost use Rattle.std.specs.Prelude.{ℕ, ◌≡◌, ◌<◌, [], ◌∷◌, ◌++◌, length, Contains};
ghost use Rattle.std.specs.Prelude.{slice_index_or, vec_capacity};
ghost use Rattle.std.specs.List.Sorted.{IsPermutation};
ghost use Rattle.heap_pages.specs.Changes.{Becomes};
ghost use Rattle.btree_index.specs.Entries.{IsInOrder};
ghost use Rattle.db_catalog.specs.Database.{DatabaseState};
ghost use Rattle.db_catalog.specs.Indexes.{column_entries, index_at};

use crate::room::push_within;
use btree_index::Index;
use std::alloc::{AllocError, Global};
use std::marker::Model;

// Indexes of different columns.
#[derive(Drop)]
pub(crate) struct Indexes {
    columns: Vec<u8>,
    entries: Vec<Index>,
}

impl Model for Indexes {
    ghost use Rattle.db_catalog.specs.Indexes.{IndexesState};

    ghost Value = { IndexesState };

    ghost view = { λ x. record { columns = x.columns.items; entries = x.entries.items } };
}

// Where a column stands among others.
pub(crate) fn place_of(columns: &[u8], column: u8) -> usize
    requires { Contains columns.now column }
    ensures within { result < length columns.now }
    ensures there { slice_index_or columns.now result 0 ≡ column }
{
    for place in 0..columns.len() {
        if columns[place] == column {
            return place;
        }
    }
    unreachable!()
}

impl Indexes {
    // No index. It takes no memory.
    pub(crate) fn new(alloc: Global) -> Indexes
        ensures { result ≡ record { columns = []; entries = [] } }
    {
        Indexes {
            columns: Vec::new(alloc),
            entries: Vec::new(alloc),
        }
    }

    // The columns that are indexed.
    pub(crate) fn columns(&self) -> &[u8]
        ensures { result.now ≡ self.now.columns }
    {
        &self.columns
    }

    // The index of each.
    pub(crate) fn entries(&self) -> &[Index]
        ensures { result.now ≡ self.now.entries }
    {
        &self.entries
    }

    // An index more, behind the others. A refusal changes nothing.
    pub(crate) fn add(&mut self, column: u8, index: Index) -> Result<(), AllocError>
        ensures { let columns = self.old.columns ++ column ∷ [] in
            let entries = self.old.entries ++ index ∷ [] in
            Becomes (record { columns = columns; entries = entries }) self.old self.new result }
    {
        self.columns.reserve(1)?;
        self.entries.push(index)?;
        push_within(&mut self.columns, column);
        Ok(())
    }

    // Puts other indexes of the same columns into the place of these.
    pub(crate) fn replace(&mut self, entries: Vec<Index>)
        ensures { self.new ≡ record self.old { entries = entries.items } }
    {
        self.entries = entries;
    }
}

/// A law: the index of a column has exactly the column's entries, and has them in order.
pub fn an_index_is_its_column_in_order()
    ensures same { (database : DatabaseState) (number column : ℕ)
        → IsPermutation (column_entries database number column) (index_at database number column) }
    ensures order { (database : DatabaseState) (number column : ℕ)
        → IsInOrder (index_at database number column) }
{}
