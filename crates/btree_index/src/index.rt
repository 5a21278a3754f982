// The index: a long run of entries, and a few newer ones in a run of their own. Both are in order, and read as one list.
// More entries are merged with the few, and with all where these become many, so that an entry costs no more than about the
// square root of how many there are. The long run is shared by the indexes that have it. A descent is paid by its levels.
// It relies on the ledger for each paid read, and never changes what it was built of.
ghost use Rattle.std.specs.Prelude.{◌≡◌, ◌+◌, ◌*◌, ◌^◌, ◌<◌, ◌≤◌, ◌++◌, All, Contains, filter, length, IfOk};
ghost use Rattle.std.specs.List.Sorted.{IsPermutation};
ghost use Rattle.work_ledger.specs.Account.{Pays};
ghost use Rattle.work_ledger.specs.Charges.{node_charge};
ghost use Rattle.btree_index.specs.Height.{height_of};
ghost use Rattle.btree_index.specs.Entries.{HaveWords, IsInOrder, IsOn, entries_left, is_within, next_charge, ordered};
ghost use Rattle.btree_index.specs.Cursors.{IsOnRange, MovesOn};
ghost use Rattle.btree_index.specs.Nodes.{nodes_of, nodes_up_to};
ghost use Rattle.btree_index.specs.Runs.{IsRowOfPlace};

use crate::both::entry_at;
use crate::node::NODE_ENTRIES;
use crate::ordering::put_in_order;
use crate::run::{Run, height_for};
use std::alloc::{AllocError, Global};
use std::marker::Model;
use std::rc::Rc;
use work_ledger::{Exhausted, Ledger, charge};

/// A place in an index: the entries from `next` up to `end`, which it excludes, are left.
#[derive(Clone, Copy)]
pub struct Cursor {
    /// The place of the next entry, from 0.
    pub next: usize,
    /// The place past the last entry.
    pub end: usize,
    /// How many of the entries before the next one stand in the long run. Any other number costs time, and nothing else.
    pub older: usize,
}

/// Entries of an index, lent: those of its long run, and newer ones. Each of the two are in order.
#[derive(Clone, Copy)]
pub struct Found<'i> {
    /// Those of the long run.
    pub older: &'i [(i64, u64)],
    /// Newer ones.
    pub newer: &'i [(i64, u64)],
}

/// The index of one column.
#[derive(Drop)]
pub struct Index {
    older: Rc<Run>,
    // Few, if there are many older ones.
    newer: Run,
    height: u32,
}

impl Model for Index {
    ghost use Rattle.std.specs.Prelude.{List, ◌++◌};
    ghost use Rattle.btree_index.specs.Entries.{IndexEntry, ordered};
    ghost use Rattle.btree_index.specs.Runs.{AreRuns};

    ghost Value = { List IndexEntry };

    ghost view = { λ x. ordered (x.older.value ++ x.newer) };

    ghost invariant = { λ x. AreRuns x.older.value x.newer x.height };
}

// Whether so many newer entries are few beside so many older ones.
fn are_few(newer: usize, older: usize) -> bool {
    newer <= NODE_ENTRIES || newer as u128 * newer as u128 <= older as u128
}

// How many nodes an index of so many entries has.
fn nodes_for(entries: u64) -> u64
    ensures { result ≡ nodes_of entries }
{
    let height = height_for(entries);
    let mut level_nodes = entries;
    let mut below_root = 0;
    for _level in 1..height {
        level_nodes = level_nodes.div_ceil(NODE_ENTRIES as u64);
        below_root += level_nodes;
    }
    below_root + 1
}

#[tactic(auto, using(crate::proofs::OfCursors::of_cursors))]
impl Index {
    /// The index of these entries, each a word and the number of its row.
    pub fn build(alloc: Global, entries: &[(i64, u64)]) -> Result<Index, AllocError>
        ensures same { IfOk result (λ index. IsPermutation entries.now index) }
        ensures order { IfOk result (λ index. IsInOrder index) }
    {
        let copied = Vec::from_slice(alloc, entries)?;
        Index::from_entries(alloc, copied)
    }

    /// The same of entries that are given away, which aren't copied.
    pub fn from_entries(alloc: Global, entries: Vec<(i64, u64)>) -> Result<Index, AllocError>
        ensures same { IfOk result (λ index. IsPermutation entries.items index) }
        ensures order { IfOk result (λ index. IsInOrder index) }
    {
        let mut sorted = entries;
        put_in_order(alloc, &mut sorted)?;
        sorted.shrink_to_fit();
        Index::of_one_run(alloc, sorted)
    }

    /// The index of its entries and more of them. It costs time of these and of the newer entries alone, but for once in as many
    /// entries as are few.
    pub fn merged(&self, alloc: Global, more: &[(i64, u64)]) -> Result<Index, AllocError>
        ensures same { IfOk result (λ index. IsPermutation (self.now ++ more.now) index) }
        ensures order { IfOk result (λ index. IsInOrder index) }
    {
        let newer = self.newer.entries();
        if are_few(newer.len().saturating_add(more.len()), self.older.len()) {
            let older = self.older.clone()?;
            let mut sorted = Vec::from_slice(alloc, newer)?;
            sorted.extend_from_slice(more)?;
            sorted.sort()?;
            return Ok(Index::of_runs(older, Run::of_sorted(alloc, sorted)?));
        }
        let mut sorted = Vec::from_slice(alloc, self.older.entries())?;
        sorted.extend_from_slice(newer)?;
        sorted.extend_from_slice(more)?;
        sorted.sort()?;
        Index::of_one_run(alloc, sorted)
    }

    // The index of a run that has these entries, which are in order.
    fn of_one_run(alloc: Global, entries: Vec<(i64, u64)>) -> Result<Index, AllocError>
        requires { IsInOrder entries.items }
        ensures { IfOk result (λ index. index ≡ ordered entries.items) }
    {
        let run = Run::of_sorted(alloc, entries)?;
        let newer = Run::of_sorted(alloc, Vec::new(alloc))?;
        match Rc::new(alloc, run) {
            Ok(older) => Ok(Index::of_runs(older, newer)),
            Err(_refused) => Err(AllocError),
        }
    }

    // The index of both.
    fn of_runs(older: Rc<Run>, newer: Run) -> Index
        ensures { result ≡ ordered (older.value ++ newer) }
    {
        let long = older.entries();
        let few = newer.entries();
        let height = height_for(long.len() as u64 + few.len() as u64);
        Index {
            older,
            newer,
            height,
        }
    }

    /// How many entries there are.
    pub fn entries(&self) -> u64
        ensures { result ≡ length self.now }
    {
        self.older.len() as u64 + self.newer.len() as u64
    }

    /// How many levels a descent has.
    pub fn height(&self) -> u32
        ensures { result ≡ height_of (length self.now) }
    {
        self.height
    }

    /// How many nodes there are.
    pub fn nodes(&self) -> u64
        ensures { result ≡ nodes_of (length self.now) }
    {
        nodes_for(self.entries())
    }

    // What the runs' types say of the word of each entry is known after it. It does nothing.
    fn know_words(&self)
        ensures { HaveWords self.now }
    {
        let _newer = &self.newer;
    }

    /// The place of the entries with words from `from` to `to`, both included. There are none where `from` is greater than
    /// `to`. It isn't paid, and takes as long as two descents at most, in each run.
    pub fn place(&self, from: i64, to: i64) -> Cursor
        ensures range { IsOnRange self.now from to result }
        ensures words { HaveWords self.now }
    {
        self.know_words();
        if to < from {
            return Cursor {
                next: 0,
                end: 0,
                older: 0,
            };
        }
        let older = self.older.stretch(from, to);
        let newer = self.newer.stretch(from, to);
        Cursor {
            next: older.begin + newer.begin,
            end: older.end + newer.end,
            older: older.begin,
        }
    }

    /// These entries. They aren't paid.
    pub fn within(&self, from: i64, to: i64) -> Found<'_>
        ensures entries { IsPermutation (filter (is_within from to) self.now)
            (result.older.now ++ result.newer.now) }
        ensures words { HaveWords self.now }
    {
        let older = self.older.within(from, to);
        let newer = self.newer.within(from, to);
        Found { older, newer }
    }

    /// Descends to these entries, which pays for each level.
    pub fn seek(&self, from: i64, to: i64, ledger: &mut Ledger) -> Result<Cursor, Exhausted>
        ensures range { IfOk result (IsOnRange self.now from to) }
        ensures words { HaveWords self.now }
        ensures pays { Pays (node_charge * height_of (length self.now)) ledger.old ledger.new result }
    {
        self.know_words();
        ledger.pay(charge::NODE * self.height() as u128)?;
        Ok(self.place(from, to))
    }

    /// The row of the cursor's next entry, which pays for the entry and moves the cursor past it. Past the last entry
    /// there is none, and nothing is paid.
    pub fn next(&self, cursor: &mut Cursor, ledger: &mut Ledger) -> Result<Option<u64>, Exhausted>
        requires { IsOn self.now cursor.old }
        ensures moves { MovesOn self.now cursor.old cursor.new result }
        ensures pays { Pays (next_charge (entries_left self.now cursor.old))
            ledger.old ledger.new result }
    {
        if cursor.next >= cursor.end {
            // A payment of nothing is one too, so that one clause says what each call pays.
            ledger.pay(0)?;
            return Ok(None);
        }
        ledger.pay(charge::ENTRY)?;
        let (row, older) = self.row_at(cursor.next, cursor.older);
        cursor.next += 1;
        cursor.older = older;
        Ok(Some(row))
    }

    // The row of the entry at a place, and how many of the entries up to it stand in the long run. How many of those before
    // it do is guessed.
    fn row_at(&self, place: usize, guess: usize) -> (u64, usize)
        requires { place < length self.now }
        ensures { IsRowOfPlace self.now place result.0 }
    {
        let (entry, older) = entry_at(self.older.entries(), self.newer.entries(), place, guess);
        (entry.1, older)
    }

    /// Entries that stand near the cursor in the long run, at most `most` of them and no more than it has left, lent. They
    /// aren't paid, and no cursor moves: it is for looking at rows that will be read soon.
    pub fn near(&self, cursor: &Cursor, most: usize) -> &[(i64, u64)]
        ensures { All (Contains self.now) result.now }
    {
        let entries = self.older.entries();
        let from = cursor.older.min(entries.len());
        let left = cursor.end.saturating_sub(cursor.next);
        let count = left.min(most).min(entries.len() - from);
        &entries[from..from + count]
    }
}
