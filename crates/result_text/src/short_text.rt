// Texts that are lent, in the order of their bytes.
ghost use Rattle.std.specs.Prelude.{◌≡◌, ◌↔◌, ◌+◌, ◌*◌, ◌<◌, slice_index, false, IfOk, IfSome, IsSome, IsTrue, OnOk, Some, []};
ghost use Rattle.std.proofs.Common.{rules};
ghost use Rattle.std.specs.Cmp.{partial_order_from_own_ties, eq_by_cmp_equiv};
ghost use Rattle.std.specs.Cmp.Rules.{comparing};
ghost use Rattle.std.specs.Cmp.Lexicographic.{slice_cmp};
ghost use Rattle.std.specs.Ordering.{nat_cmp, as_partial_cmp, eq_by_cmp, is_gt};
ghost use Rattle.sql_values.specs.Dictionary.{text_of, Begins};
ghost use Rattle.result_text.specs.Ranks.{AreAscending};
ghost use Rattle.result_text.specs.FirstBytes.{first_bytes};
ghost use Rattle.result_text.specs.Lists.{last_of};

use crate::texts::TextList;
use std::alloc::{AllocError, Global};
use std::cmp::Ordering;
use std::marker::Model;

/// A text that is lent, seen as its bytes. Its first eight stand beside it as one number, so that most comparisons are one,
/// and need not go to the text.
#[derive(Drop)]
pub(crate) struct ShortText<'a> {
    first: u64,
    text: &'a [u8],
}

impl<'a> Model for ShortText<'a> {
    ghost use Rattle.std.specs.Prelude.{ℕ, List};

    ghost Value = { List ℕ };

    ghost view = { λ s. s.text.now };

    ghost use Rattle.result_text.specs.FirstBytes.{IsFirst};

    ghost invariant = { λ s. IsFirst s.first s.text.now };
}

// The number that one more byte makes of that of the bytes before it. Behind the text's end the bytes are 0.
fn with_byte(first: u64, text: &[u8], place: usize) -> u64
    requires { first < 72057594037927936 }
    ensures number { result ≡ first * 256 + slice_index text.now place }
    ensures byte { slice_index text.now place < 256 }
{
    let byte = match text.get(place) {
        Some(byte) => *byte,
        None => 0,
    };
    first * 256 + u64::from(byte)
}

// The first eight bytes as one number.
fn first_bytes(text: &[u8]) -> u64
    ensures { result ≡ first_bytes 8 text.now }
{
    let two = with_byte(with_byte(0, text, 0), text, 1);
    let four = with_byte(with_byte(two, text, 2), text, 3);
    let six = with_byte(with_byte(four, text, 4), text, 5);
    with_byte(with_byte(six, text, 6), text, 7)
}

impl<'a> ShortText<'a> {
    pub(crate) fn new(text: &'a [u8]) -> ShortText<'a>
        ensures { result ≡ text.now }
    {
        ShortText {
            first: first_bytes(text),
            text,
        }
    }

    pub(crate) fn bytes(&self) -> &'a [u8]
        ensures { result.now ≡ self.now }
    {
        self.text
    }
}

impl PartialEq for ShortText<'_> {
    ghost eq = { eq_by_cmp (slice_cmp nat_cmp) };

    ghost laws = { Prim.search (comparing, rules) };

    fn eq(&self, other: &Self) -> bool {
        self.cmp(other) == Ordering::Equal
    }
}

impl Eq for ShortText<'_> {
    ghost laws = { Prim.search (comparing, rules) };
}

impl PartialOrd for ShortText<'_> {
    ghost partial_cmp = { as_partial_cmp (slice_cmp nat_cmp) };

    ghost laws = { partial_order_from_own_ties
        (Prim.search (comparing, rules)) (Prim.search (comparing, rules)) };

    fn partial_cmp(&self, other: &Self) -> Option<Ordering> {
        Some(self.cmp(other))
    }
}

impl Ord for ShortText<'_> {
    ghost cmp = { slice_cmp nat_cmp };

    ghost total = { Prim.search (comparing, rules) };

    ghost matches_partial_cmp = { Prim.search (comparing, rules) };

    ghost matches_eq = { Prim.search (comparing, rules) };

    #[inline]
    fn cmp(&self, other: &Self) -> Ordering {
        match self.first.cmp(&other.first) {
            Ordering::Equal => self.text.cmp(other.text),
            unequal => unequal,
        }
    }
}

/// Texts in ascending order, each with its place, from 0.
#[derive(Drop)]
pub(crate) struct SortedTexts<'a> {
    texts: Vec<ShortText<'a>>,
}

impl<'a> Model for SortedTexts<'a> {
    ghost use Rattle.std.specs.Prelude.{ℕ, List};

    ghost Value = { List (List ℕ) };

    ghost view = { λ s. s.texts.items };
}

impl<'a> SortedTexts<'a> {
    /// No texts yet, and room for so many.
    pub(crate) fn with_capacity(alloc: Global, count: usize) -> Result<Self, AllocError>
        ensures { IfOk result (λ texts. texts ≡ []) }
    {
        let texts = Vec::with_capacity(alloc, count)?;
        Ok(SortedTexts { texts })
    }

    // Whether this is the last text.
    fn ends_with(&self, text: &ShortText<'_>) -> bool
        ensures { IsTrue result ↔ (last_of self.now ≡ Some text.now) }
    {
        match self.texts.last() {
            Some(last) => *last == *text,
            None => false,
        }
    }

    // The place of the last text.
    fn last_place(&self) -> i64
        requires { IsSome (last_of self.now) }
        ensures { text_of self.now result ≡ last_of self.now }
    {
        (self.texts.len() - 1) as i64
    }

    /// The place of this text, which comes to the end where it doesn't stand there.
    pub(crate) fn place_of_last(&mut self, text: ShortText<'a>) -> Result<i64, AllocError>
        requires ascending { AreAscending self.old }
        requires not_less { IfSome (last_of self.old)
            (λ last. is_gt (slice_cmp nat_cmp last text) ≡ false) }
        ensures ascending { OnOk result (AreAscending self.new) }
        ensures begins { OnOk result (Begins self.old self.new) }
        ensures last { OnOk result (last_of self.new ≡ Some text.entry) }
        ensures place { IfOk result (λ place. text_of self.new place ≡ Some text.entry) }
    {
        if self.ends_with(&text) {
            return Ok(self.last_place());
        }
        self.texts.push(text)?;
        Ok(self.last_place())
    }
}

impl TextList for SortedTexts<'_> {
    ghost texts = { λ t. t };

    fn text_at(&self, place: i64) -> &[u8] {
        self.texts[place as usize].bytes()
    }
}
