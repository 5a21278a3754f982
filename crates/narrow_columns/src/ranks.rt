// Ranks: how many words are below a word. NULL's rank is 0, since its word is the least.
ghost use Rattle.std.specs.Prelude.{◌≡◌, ℕ, ℤ, ◌+◌, ◌-◌, ◌<◌, ◌≤◌, ◌^◌, IsTrue};
ghost use Rattle.std.specs.Bool.{OnTrue, OnFalse};
ghost use Rattle.narrow_columns.specs.Codes.{IsWithin, word_of_rank, word_of_code, rank_of_code, is_code_among};
ghost use Rattle.narrow_columns.specs.Marks.{is_among};

use crate::extent::Extent;

/// Codes, or ranks, from one up to another, both included; none where the least is greater.
#[derive(Clone, Copy)]
pub(crate) struct Span {
    pub(crate) least: u64,
    pub(crate) greatest: u64,
}

impl Span {
    /// Whether the code is one of these.
    pub(crate) fn contains(self, code: u64) -> bool
        ensures { result ≡ is_code_among self.least self.greatest code }
    {
        self.least <= code && code <= self.greatest
    }
}

/// The rank of a word.
pub(crate) fn rank_of(word: i64) -> u64
    ensures { word_of_rank result ≡ word }
{
    word.cast_unsigned().wrapping_add(1 << 63)
}

/// The rank of the word that a code stands for.
pub(crate) fn rank_at(base: u64, code: u64) -> u64
    requires { base + code < 2 ^ 64 }
    ensures { result ≡ rank_of_code base code }
{
    if code == 0 { 0 } else { base + code }
}

/// The codes of the words from one up to another, both included.
pub(crate) fn code_range(base: u64, from: i64, to: i64) -> Span
    ensures { (code : ℕ) → is_among from to (word_of_code base code)
        ≡ is_code_among result.least result.greatest code }
{
    range_above(base, rank_of(from), rank_of(to))
}

// The codes of the words whose ranks are from one up to another.
fn range_above(base: u64, from: u64, to: u64) -> Span
    ensures { (code : ℕ) → is_code_among from to (rank_of_code base code)
        ≡ is_code_among result.least result.greatest code }
{
    let least = if from == 0 {
        0
    } else {
        from.saturating_sub(base).max(1)
    };
    Span {
        least,
        greatest: to.saturating_sub(base),
    }
}

/// The same codes as far as they are no greater than `top`.
pub(crate) fn narrowed(range: Span, top: u64) -> Span
    requires { 1 ≤ top }
    ensures codes { (code : ℕ) → code ≤ top → is_code_among range.least range.greatest code
        ≡ is_code_among result.least result.greatest code }
    ensures least { result.least ≤ top }
    ensures greatest { result.greatest ≤ top }
{
    if range.least > top {
        return Span {
            least: 1,
            greatest: 0,
        };
    }
    Span {
        least: range.least,
        greatest: range.greatest.min(top),
    }
}

/// The ranks of an extent's words, that of NULL left out.
pub(crate) fn ranks_of(extent: Extent) -> Span
    ensures some { 1 ≤ result.least }
    ensures words { (word : ℤ) → IsWithin extent.least extent.greatest word
        → IsWithin (word_of_rank result.least) (word_of_rank result.greatest) word }
{
    Span {
        least: rank_of(extent.least).max(1),
        greatest: rank_of(extent.greatest),
    }
}

/// Whether codes above a base, up to `top`, stand for all of these ranks.
pub(crate) fn reaches(base: u64, top: u64, ranks: Span) -> bool
    requires { base + top < 2 ^ 64 }
    ensures all { OnTrue result (ranks.least ≤ ranks.greatest
        → (base < ranks.least) × (ranks.greatest ≤ base + top)) }
    ensures some { OnFalse result (ranks.least ≤ ranks.greatest) }
{
    ranks.least > ranks.greatest || base < ranks.least && ranks.greatest <= base + top
}
