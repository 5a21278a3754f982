// A column: the codes of its words, the base above which they are, and the room that was made for more.
ghost use Rattle.std.specs.Prelude.{◌≡◌, ℕ, ℤ, ◌+◌, ◌-◌, ◌≤◌, ◌<◌, ◌^◌, [], ◌++◌, length, take, drop, map, count_by, All, OnOk, OnErr, IfOk};
ghost use Rattle.narrow_columns.specs.Codes.{IsWithin, word_of_code, word_of_rank};
ghost use Rattle.narrow_columns.specs.Kept.{ColumnState, IsTaken, codes_in, top_code, codes_held};
ghost use Rattle.narrow_columns.specs.Marks.{is_among, marks_of};
ghost use Rattle.narrow_columns.specs.Rows.{column_words, IsInRows};

use crate::codes::Codes;
use crate::extent::Extent;
use crate::ranks::{Span, code_range, ranks_of, reaches};
use crate::rows::ColumnPlace;
use std::alloc::{AllocError, Global};
use std::marker::Model;

/// The words of one column of a table, in order.
#[derive(Drop)]
pub struct Column {
    alloc: Global,
    // The rank of the word below that of code 1.
    base: u64,
    codes: Codes,
    // How many words may still be appended.
    room: usize,
}

impl Model for Column {
    ghost use Rattle.narrow_columns.specs.Kept.{ColumnState, IsNarrow, column_state};

    ghost Value = { ColumnState };

    ghost view = { λ column. column_state column.base column.codes column.room };

    ghost invariant = { λ column. IsNarrow column.base column.codes column.room };
}

// The ranks that wider codes have to reach: these, and those of the codes that are there.
fn all_ranks(base: u64, codes: &Codes, ranks: Span) -> Span
    requires fits { base + top_code codes.now < 2 ^ 64 }
    requires some { 1 ≤ ranks.least }
    ensures some { 1 ≤ result.least }
    ensures least { result.least ≤ ranks.least }
    ensures greatest { ranks.greatest ≤ result.greatest }
    ensures own { 0 < length (codes_in codes.now)
        → (result.least ≤ base + 1) × (base + top_code codes.now ≤ result.greatest) }
{
    if codes.len() == 0 {
        return ranks;
    }
    Span {
        least: ranks.least.min(base + 1),
        greatest: ranks.greatest.max(base + codes.top_code()),
    }
}

// A column of the same words in codes that reach these ranks too, with room for `n` words more.
fn remade(
    alloc: Global,
    base: u64,
    codes: &Codes,
    ranks: Span,
    n: usize,
) -> Result<Column, AllocError>
    requires fits { base + top_code codes.now < 2 ^ 64 }
    requires some { 1 ≤ ranks.least }
    requires any { ranks.least ≤ ranks.greatest }
    ensures words { IfOk result (λ wide. wide.words
        ≡ map (word_of_code base) (codes_in codes.now)) }
    ensures room { IfOk result (λ wide. n ≤ wide.room) }
    ensures taken { IfOk result (λ wide. (word : ℤ)
        → IsWithin (word_of_rank ranks.least) (word_of_rank ranks.greatest) word
        → IsTaken wide word) }
{
    let ranks = all_ranks(base, codes, ranks);
    let Some(room) = codes.len().checked_add(n) else {
        return Err(AllocError);
    };
    let below = ranks.least - 1;
    let mut wide = Codes::with_room(alloc, ranks.greatest - below, room)?;
    let low = below.min(u64::MAX - wide.top_code());
    if codes.len() > 0 {
        wide.append(low, codes, base);
    }
    Ok(Column {
        alloc,
        base: low,
        codes: wide,
        room: n,
    })
}

impl Column {
    /// No words, and no room for any.
    pub fn new(alloc: Global) -> Column
        ensures words { result.words ≡ [] }
        ensures room { result.room ≡ 0 }
    {
        Column {
            alloc,
            base: 0,
            codes: Codes::Bytes(Vec::new(alloc)),
            room: 0,
        }
    }

    /// How many words there are.
    pub fn len(&self) -> usize
        ensures { result ≡ length self.now.words }
    {
        self.codes.len()
    }

    /// How many words are from `from` to `to`, both included.
    pub fn count_in_range(&self, from: i64, to: i64) -> u64
        ensures { result ≡ count_by (is_among from to) self.now.words }
    {
        self.codes.count(code_range(self.base, from, to))
    }

    /// Which of `count` words, at most 64, from place `first` on are from `from` to `to`, both included: bit k is that
    /// of the word at place `first + k`, and no other bit is set.
    pub fn marks(&self, from: i64, to: i64, first: usize, count: usize) -> u64
        requires few { count ≤ 64 }
        requires there { first + count ≤ length self.now.words }
        ensures { result ≡ marks_of (map (is_among from to)
            (take count (drop first self.now.words))) }
    {
        self.codes
            .marks(code_range(self.base, from, to), first, count)
    }

    /// Makes room for `n` more words of this extent, and for NULL: all memory is taken here. A refusal leaves the
    /// column as it was.
    pub fn make_room(&mut self, extent: Extent, n: usize) -> Result<(), AllocError>
        ensures words { self.new.words ≡ self.old.words }
        ensures room { OnOk result (n ≤ self.new.room) }
        ensures taken { OnOk result ((word : ℤ) → IsWithin extent.least extent.greatest word
            → IsTaken self.new word) }
        ensures refused { OnErr result (self.new ≡ self.old) }
    {
        let ranks = ranks_of(extent);
        if reaches(self.base, self.codes.top_code(), ranks) {
            self.codes.make_room(n)?;
            self.room = n;
            return Ok(());
        }
        *self = remade(self.alloc, self.base, &self.codes, ranks, n)?;
        Ok(())
    }

    /// Appends the words of one column of some rows. There is room for them, so that it can't fail.
    pub fn push(&mut self, rows: &[i64], at: ColumnPlace)
        requires there { IsInRows at rows.now }
        requires room { at.count ≤ self.old.room }
        requires taken { All (IsTaken self.old) (column_words at rows.now) }
        ensures { self.new ≡ record self.old {
          words = self.old.words ++ column_words at rows.now;
          room = self.old.room - at.count;
        } }
    {
        self.codes.push(self.base, rows, at);
        self.room -= at.count;
    }
}
