// How many rows sets of relations are known to have, at the least, and how many entries edges find for these rows, by the
// numbers of the sets and the edges. And how much work may go into listing more.
ghost use Rattle.std.specs.Prelude.{◌≡◌};
ghost use Rattle.known_rows.specs.Known.{allowed, known_entries, known_rows_of, learned, learned_entries, listed_units, nothing_known};

use plan_tree::Subset;
use sql_values::MAX_AXES;
use std::marker::Model;

/// How many rows sets of at most six relations are known to have, and how many entries each edge of a block is known to find
/// for these rows, at the least. Place s is of the set that is seen as the number s.
#[derive(Drop)]
pub struct KnownRows {
    rows: [u64; 64],
    entries: [[u64; 64]; MAX_AXES],
    // Units of work: those of executions that were made in vain, without those that listing took.
    allowance: u128,
}

impl Model for KnownRows {
    ghost use Rattle.known_rows.specs.Known.{KnownState};

    ghost Value = { KnownState };

    ghost view = { λ k. record {
      rows = k.rows;
      entries = k.entries;
      allowance = k.allowance;
    } };
}

impl KnownRows {
    /// Nothing is known: 0 of each set. Nothing may be listed.
    pub fn new() -> KnownRows
        ensures { result ≡ nothing_known }
    {
        KnownRows {
            rows: [0; 64],
            entries: [[0; 64]; MAX_AXES],
            allowance: 0,
        }
    }

    /// An execution was made and exhausted, and paid so many units of work: as many more may go into listing.
    pub fn allow(&mut self, units: u128)
        ensures { self.new ≡ allowed self.old units }
    {
        self.allowance = self.allowance.saturating_add(units);
    }

    /// How many units of work may go into listing: as many as exhausted executions that were made have paid, without those that
    /// it took.
    pub fn allowance(&self) -> u128
        ensures { result ≡ self.now.allowance }
    {
        self.allowance
    }

    /// So many units of work went into listing.
    pub fn note_listed(&mut self, units: u128)
        ensures { self.new ≡ listed_units self.old units }
    {
        self.allowance = self.allowance.saturating_sub(units);
    }

    /// A set has at least so many rows. Of a set with a relation above 5 nothing is learned.
    pub fn learn(&mut self, set: Subset, rows: u64)
        ensures { self.new ≡ learned self.old set rows }
    {
        let place = set.number() as usize;
        if place < self.rows.len() {
            self.rows[place] = self.rows[place].max(rows);
        }
    }

    /// An edge, by its number in the block, finds at least so many entries for the rows of a set. Of an edge above 5, and of a
    /// set with a relation above 5, nothing is learned.
    pub fn learn_entries(&mut self, edge: u8, set: Subset, entries: u64)
        ensures { self.new ≡ learned_entries self.old edge set entries }
    {
        let edge = edge as usize;
        let place = set.number() as usize;
        if edge < self.entries.len() && place < self.entries[edge].len() {
            self.entries[edge][place] = self.entries[edge][place].max(entries);
        }
    }

    /// How many rows a set is known to have.
    pub(crate) fn rows(&self, set: Subset) -> u64
        ensures { result ≡ known_rows_of self.now set }
    {
        let place = set.number() as usize;
        if place < self.rows.len() {
            self.rows[place]
        } else {
            0
        }
    }

    /// How many entries an edge is known to find for the rows of a set, at the least.
    pub fn entries(&self, edge: u8, set: Subset) -> u64
        ensures { result ≡ known_entries self.now edge set }
    {
        let edge = edge as usize;
        let place = set.number() as usize;
        if edge < self.entries.len() && place < self.entries[edge].len() {
            self.entries[edge][place]
        } else {
            0
        }
    }
}
