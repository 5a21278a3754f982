// Codes of one width in a vector, and the four widths that there are.
ghost use Rattle.std.specs.Prelude.{◌≡◌, ℕ, ◌+◌, ◌-◌, ◌<◌, ◌≤◌, ◌^◌, List, [], ◌∷◌, ◌++◌, length, take, drop, map, All, slice_index, OnOk, OnErr, IfOk};
ghost use Rattle.narrow_columns.specs.Codes.{is_code_among};
ghost use Rattle.narrow_columns.specs.Marks.{marks_of};

use crate::ranks::Span;
use std::alloc::AllocError;
use std::simd::prelude::*;

/// The codes of a column, by their width: 1, 2, 4 or 8 bytes.
#[derive(Drop)]
pub(crate) enum Codes {
    Bytes(Vec<u8>),
    Pairs(Vec<u16>),
    Quads(Vec<u32>),
    Words(Vec<u64>),
}

/// Codes of one width.
pub(crate) trait CodeList: Drop {
    /// The codes in order.
    ghost codes: { Self → List ℕ };

    /// For how many codes there is memory.
    ghost held: { Self → ℕ };

    /// The greatest code of the width.
    ghost top: { ℕ };

    fn top_code() -> u64
        ensures top { result ≡ top }
        ensures some { 1 ≤ top };

    fn len(&self) -> usize
        ensures len { result ≡ length (codes self.now) }
        ensures fit { All (λ code. code ≤ top) (codes self.now) };

    fn code(&self, place: usize) -> u64
        requires { place < length (codes self.now) }
        ensures code { result ≡ slice_index (codes self.now) place }
        ensures fits { result ≤ top };

    /// Which of 64 codes from place `first` on are in the range.
    fn block(&self, first: usize, range: Span) -> u64
        requires there { first + 64 ≤ length (codes self.now) }
        requires least { range.least ≤ top }
        requires greatest { range.greatest ≤ top }
        ensures { result ≡ marks_of (map (is_code_among range.least range.greatest)
            (take 64 (drop first (codes self.now)))) };

    fn push(&mut self, code: u64)
        requires fits { code ≤ top }
        requires room { length (codes self.old) < held self.old }
        ensures codes { codes self.new ≡ codes self.old ++ code ∷ [] }
        ensures held { held self.new ≡ held self.old };

    fn make_room(&mut self, n: usize) -> Result<(), AllocError>
        ensures codes { codes self.new ≡ codes self.old }
        ensures room { OnOk result (length (codes self.new) + n ≤ held self.new) }
        ensures refused { OnErr result (held self.new ≡ held self.old) };
}

impl CodeList for Vec<u8> {
    ghost codes = { λ list. list.items };

    ghost held = { λ list. list.cap };

    ghost top = { 2 ^ 8 - 1 };

    fn top_code() -> u64 {
        u8::MAX as u64
    }

    fn len(&self) -> usize {
        Vec::len(self)
    }

    fn code(&self, place: usize) -> u64 {
        self[place] as u64
    }

    fn block(&self, first: usize, range: Span) -> u64 {
        let codes = Simd::<u8, 64>::from_slice(&self[first..]);
        let least = codes.simd_ge(Simd::splat(range.least as u8));
        (least & codes.simd_le(Simd::splat(range.greatest as u8))).to_bitmask()
    }

    fn push(&mut self, code: u64) {
        self.push_reserved(code as u8);
    }

    fn make_room(&mut self, n: usize) -> Result<(), AllocError> {
        self.reserve(n)
    }
}

impl CodeList for Vec<u16> {
    ghost codes = { λ list. list.items };

    ghost held = { λ list. list.cap };

    ghost top = { 2 ^ 16 - 1 };

    fn top_code() -> u64 {
        u16::MAX as u64
    }

    fn len(&self) -> usize {
        Vec::len(self)
    }

    fn code(&self, place: usize) -> u64 {
        self[place] as u64
    }

    fn block(&self, first: usize, range: Span) -> u64 {
        let codes = Simd::<u16, 64>::from_slice(&self[first..]);
        let least = codes.simd_ge(Simd::splat(range.least as u16));
        (least & codes.simd_le(Simd::splat(range.greatest as u16))).to_bitmask()
    }

    fn push(&mut self, code: u64) {
        self.push_reserved(code as u16);
    }

    fn make_room(&mut self, n: usize) -> Result<(), AllocError> {
        self.reserve(n)
    }
}

impl CodeList for Vec<u32> {
    ghost codes = { λ list. list.items };

    ghost held = { λ list. list.cap };

    ghost top = { 2 ^ 32 - 1 };

    fn top_code() -> u64 {
        u32::MAX as u64
    }

    fn len(&self) -> usize {
        Vec::len(self)
    }

    fn code(&self, place: usize) -> u64 {
        self[place] as u64
    }

    fn block(&self, first: usize, range: Span) -> u64 {
        let codes = Simd::<u32, 64>::from_slice(&self[first..]);
        let least = codes.simd_ge(Simd::splat(range.least as u32));
        (least & codes.simd_le(Simd::splat(range.greatest as u32))).to_bitmask()
    }

    fn push(&mut self, code: u64) {
        self.push_reserved(code as u32);
    }

    fn make_room(&mut self, n: usize) -> Result<(), AllocError> {
        self.reserve(n)
    }
}

impl CodeList for Vec<u64> {
    ghost codes = { λ list. list.items };

    ghost held = { λ list. list.cap };

    ghost top = { 2 ^ 64 - 1 };

    fn top_code() -> u64 {
        u64::MAX as u64
    }

    fn len(&self) -> usize {
        Vec::len(self)
    }

    fn code(&self, place: usize) -> u64 {
        self[place] as u64
    }

    fn block(&self, first: usize, range: Span) -> u64 {
        let codes = Simd::<u64, 64>::from_slice(&self[first..]);
        let least = codes.simd_ge(Simd::splat(range.least as u64));
        (least & codes.simd_le(Simd::splat(range.greatest as u64))).to_bitmask()
    }

    fn push(&mut self, code: u64) {
        self.push_reserved(code as u64);
    }

    fn make_room(&mut self, n: usize) -> Result<(), AllocError> {
        self.reserve(n)
    }
}
