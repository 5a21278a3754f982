// The codes of a column, whichever of the four widths they have. Each call chooses the width once.
ghost use Rattle.std.specs.Prelude.{◌≡◌, ℕ, ◌+◌, ◌≤◌, ◌<◌, ◌^◌, [], ◌++◌, length, take, drop, map, count_by, All, OnOk, OnErr, IfOk};
ghost use Rattle.narrow_columns.specs.Codes.{IsWithin, is_code_among, word_of_code, word_of_rank};
ghost use Rattle.narrow_columns.specs.Kept.{codes_in, top_code, codes_held};
ghost use Rattle.narrow_columns.specs.Marks.{marks_of};
ghost use Rattle.narrow_columns.specs.Rows.{column_words, IsInRows};

use crate::codes::{CodeList, Codes};
use crate::ranks::Span;
use crate::rows::ColumnPlace;
use crate::scan::{count_codes, mark_codes, push_codes, push_rows};
use std::alloc::{AllocError, Global};

// Appends codes, above another base, for the words of these codes.
fn append_to<C: CodeList>(to: &mut C, base: u64, codes: &Codes, old_base: u64)
    requires fits { old_base + top_code codes.now < 2 ^ 64 }
    requires room { length (C.codes to.old) + length (codes_in codes.now) ≤ C.held to.old }
    requires above { base ≤ old_base }
    requires below { old_base + top_code codes.now ≤ base + C.top }
    ensures words { map (word_of_code base) (C.codes to.new)
        ≡ map (word_of_code base) (C.codes to.old)
        ++ map (word_of_code old_base) (codes_in codes.now) }
    ensures len { length (C.codes to.new) ≡ length (C.codes to.old) + length (codes_in codes.now) }
    ensures held { C.held to.new ≡ C.held to.old }
{
    match codes {
        Codes::Bytes(codes) => push_codes(to, base, codes, old_base),
        Codes::Pairs(codes) => push_codes(to, base, codes, old_base),
        Codes::Quads(codes) => push_codes(to, base, codes, old_base),
        Codes::Words(codes) => push_codes(to, base, codes, old_base),
    }
}

impl Codes {
    /// No codes, of the least width that has a code `top`, with memory for `n`.
    pub(crate) fn with_room(alloc: Global, top: u64, n: usize) -> Result<Codes, AllocError>
        ensures none { IfOk result (λ codes. codes_in codes ≡ []) }
        ensures wide { IfOk result (λ codes. top ≤ top_code codes) }
        ensures room { IfOk result (λ codes. n ≤ codes_held codes) }
    {
        if top <= u8::MAX as u64 {
            return Ok(Codes::Bytes(Vec::with_capacity(alloc, n)?));
        }
        if top <= u16::MAX as u64 {
            return Ok(Codes::Pairs(Vec::with_capacity(alloc, n)?));
        }
        if top <= u32::MAX as u64 {
            return Ok(Codes::Quads(Vec::with_capacity(alloc, n)?));
        }
        Ok(Codes::Words(Vec::with_capacity(alloc, n)?))
    }

    /// How many codes there are.
    pub(crate) fn len(&self) -> usize
        ensures { result ≡ length (codes_in self.now) }
    {
        match self {
            Codes::Bytes(codes) => codes.len(),
            Codes::Pairs(codes) => codes.len(),
            Codes::Quads(codes) => codes.len(),
            Codes::Words(codes) => codes.len(),
        }
    }

    /// The greatest code of the width.
    pub(crate) fn top_code(&self) -> u64
        ensures { result ≡ top_code self.now }
    {
        match self {
            Codes::Bytes(_) => u8::MAX as u64,
            Codes::Pairs(_) => u16::MAX as u64,
            Codes::Quads(_) => u32::MAX as u64,
            Codes::Words(_) => u64::MAX,
        }
    }

    /// How many of the codes are in the range.
    pub(crate) fn count(&self, range: Span) -> u64
        ensures { result ≡ count_by (is_code_among range.least range.greatest) (codes_in self.now) }
    {
        match self {
            Codes::Bytes(codes) => count_codes(codes, range),
            Codes::Pairs(codes) => count_codes(codes, range),
            Codes::Quads(codes) => count_codes(codes, range),
            Codes::Words(codes) => count_codes(codes, range),
        }
    }

    /// Which of `count` codes from place `first` on are in the range.
    pub(crate) fn marks(&self, range: Span, first: usize, count: usize) -> u64
        requires few { count ≤ 64 }
        requires there { first + count ≤ length (codes_in self.now) }
        ensures { result ≡ marks_of (map (is_code_among range.least range.greatest)
            (take count (drop first (codes_in self.now)))) }
    {
        match self {
            Codes::Bytes(codes) => mark_codes(codes, range, first, count),
            Codes::Pairs(codes) => mark_codes(codes, range, first, count),
            Codes::Quads(codes) => mark_codes(codes, range, first, count),
            Codes::Words(codes) => mark_codes(codes, range, first, count),
        }
    }

    /// Takes memory for `n` codes more.
    pub(crate) fn make_room(&mut self, n: usize) -> Result<(), AllocError>
        ensures codes { codes_in self.new ≡ codes_in self.old }
        ensures width { top_code self.new ≡ top_code self.old }
        ensures room { OnOk result (length (codes_in self.new) + n ≤ codes_held self.new) }
        ensures refused { OnErr result (codes_held self.new ≡ codes_held self.old) }
    {
        match self {
            Codes::Bytes(codes) => codes.make_room(n),
            Codes::Pairs(codes) => codes.make_room(n),
            Codes::Quads(codes) => codes.make_room(n),
            Codes::Words(codes) => codes.make_room(n),
        }
    }

    /// Appends codes, above another base, for the words of these codes.
    pub(crate) fn append(&mut self, base: u64, codes: &Codes, old_base: u64)
        requires fits { old_base + top_code codes.now < 2 ^ 64 }
        requires room { length (codes_in self.old) + length (codes_in codes.now)
            ≤ codes_held self.old }
        requires above { base ≤ old_base }
        requires below { old_base + top_code codes.now ≤ base + top_code self.old }
        ensures words { map (word_of_code base) (codes_in self.new)
            ≡ map (word_of_code base) (codes_in self.old)
            ++ map (word_of_code old_base) (codes_in codes.now) }
        ensures len { length (codes_in self.new)
            ≡ length (codes_in self.old) + length (codes_in codes.now) }
        ensures width { top_code self.new ≡ top_code self.old }
        ensures held { codes_held self.new ≡ codes_held self.old }
    {
        match self {
            Codes::Bytes(to) => append_to(to, base, codes, old_base),
            Codes::Pairs(to) => append_to(to, base, codes, old_base),
            Codes::Quads(to) => append_to(to, base, codes, old_base),
            Codes::Words(to) => append_to(to, base, codes, old_base),
        }
    }

    /// Appends the codes of the words of one column of some rows.
    pub(crate) fn push(&mut self, base: u64, rows: &[i64], at: ColumnPlace)
        requires there { IsInRows at rows.now }
        requires room { length (codes_in self.old) + at.count ≤ codes_held self.old }
        requires taken { All (IsWithin (word_of_rank (base + 1)) (word_of_rank (base + top_code self.old)))
            (column_words at rows.now) }
        ensures words { map (word_of_code base) (codes_in self.new)
            ≡ map (word_of_code base) (codes_in self.old) ++ column_words at rows.now }
        ensures len { length (codes_in self.new) ≡ length (codes_in self.old) + at.count }
        ensures width { top_code self.new ≡ top_code self.old }
        ensures held { codes_held self.new ≡ codes_held self.old }
    {
        match self {
            Codes::Bytes(codes) => push_rows(codes, base, rows, at),
            Codes::Pairs(codes) => push_rows(codes, base, rows, at),
            Codes::Quads(codes) => push_rows(codes, base, rows, at),
            Codes::Words(codes) => push_rows(codes, base, rows, at),
        }
    }
}
