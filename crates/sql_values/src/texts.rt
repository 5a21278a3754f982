// The dictionary: different texts in the order in which they came. It relies on the index set for both look-ups, and
// knows no limit.
ghost use Rattle.std.specs.Prelude.{◌≡◌, ℕ, ◌<◌, ◌≤◌, ◌^◌, List, [], map, take, length, Some, Option, OnOk, OnErr, IfOk};
ghost use Rattle.std.specs.Prelude.{sum_by, IsSome, pos};
ghost use Rattle.indexmap.specs.IndexSet.{index_set_len};
ghost use Rattle.std.specs.List.{IsDistinct};
ghost use Rattle.std.specs.Str.{bytes_eq};
ghost use Rattle.sql_values.specs.Dictionary.{code_of, text_of, with_text, with_texts};
ghost use Rattle.sql_values.specs.Dictionary.{Begins};

use indexmap::IndexSet;
use std::alloc::{AllocError, Global};
use std::hash::RandomState;
use std::marker::Model;

/// Different texts, each with a code: its place, from 0.
#[derive(Drop)]
pub struct Texts {
    texts: IndexSet<Vec<u8>, RandomState>,
    bytes: u64,
}

impl Model for Texts {
    ghost use Rattle.std.specs.Prelude.{◌≡◌, ℕ, List, map, length, sum_by};
    ghost use Rattle.std.specs.List.{IsDistinct};
    ghost use Rattle.std.specs.Str.{bytes_eq};
    ghost use Rattle.std.specs.HashSet.{keys};

    ghost Value = { List (List ℕ) };

    ghost view = { λ t. map (λ text. text.items) (keys t.texts) };

    ghost invariant = { λ t.
        (t.bytes ≡ sum_by (λ text. length text.items) (keys t.texts)) };
}

// The code of a place in a set, of which there are fewer than 2^63.
fn code_at(texts: &IndexSet<Vec<u8>, RandomState>, place: usize) -> i64
    requires { place < index_set_len texts.now }
    ensures { result ≡ pos place }
{
    prove!(place < texts.len());
    place as i64
}

// How many bytes texts have together.
fn bytes_of(texts: &[Vec<u8>]) -> u64
    requires { sum_by (λ text. length text.items) texts.now < 2 ^ 64 }
    ensures { result ≡ sum_by (λ text. length text.items) texts.now }
{
    texts.iter().map(|text| text.len() as u64).sum()
}

#[tactic(auto, using(crate::proofs::Dictionary::of_texts))]
impl Texts {
    /// No texts. They are hashed by `key`, on which nothing that is seen of them depends.
    pub fn new(alloc: Global, key: RandomState) -> Texts
        ensures { result ≡ [] }
    {
        Texts {
            texts: IndexSet::with_hasher(alloc, key),
            bytes: 0,
        }
    }

    /// How many texts there are.
    pub fn len(&self) -> usize
        ensures count { result ≡ length self.now }
        ensures small { result < 2 ^ 63 }
        ensures distinct { IsDistinct bytes_eq self.now }
    {
        self.texts.len()
    }

    /// How many bytes they have together.
    pub fn bytes(&self) -> u64
        ensures { result ≡ sum_by length self.now }
    {
        self.bytes
    }

    /// The code of this text, if it is there.
    pub fn code_of(&self, text: &[u8]) -> Option<i64>
        ensures { result ≡ code_of self.now text.now }
    {
        let place = self.texts.get_index_of(text)?;
        Some(code_at(&self.texts, place))
    }

    /// The text of this code.
    pub fn text_of(&self, code: i64) -> &[u8]
        requires there { IsSome (text_of self.now code) }
        ensures text { text_of self.now code ≡ Some result.now }
    {
        let Some(text) = self.texts.get_index(code as usize) else {
            unreachable!()
        };
        text.as_slice()
    }

    /// The code of this text, which is put at the end where it isn't there yet.
    pub fn add(&mut self, text: &[u8]) -> Result<i64, AllocError>
        ensures texts { OnOk result (self.new ≡ with_text self.old text.now) }
        ensures code { IfOk result (λ code. code_of self.new text.now ≡ Some code) }
        ensures unchanged { OnErr result (self.new ≡ self.old) }
    {
        if let Some(code) = self.code_of(text) {
            return Ok(code);
        }
        let text = Vec::from_slice(*self.texts.allocator(), text)?;
        self.put(text)
    }

    // The same of a text that is given away.
    fn put(&mut self, text: Vec<u8>) -> Result<i64, AllocError>
        ensures texts { OnOk result (self.new ≡ with_text self.old text.items) }
        ensures code { IfOk result (λ code. code_of self.new text.items ≡ Some code) }
        ensures unchanged { OnErr result (self.new ≡ self.old) }
    {
        let Some(bytes) = self.bytes.checked_add(text.len() as u64) else {
            return Err(AllocError);
        };
        let (place, added) = self.texts.insert_full(text)?;
        let all = if added { bytes } else { self.bytes };
        self.bytes = all;
        Ok(code_at(&self.texts, place))
    }

    /// Takes in the texts of another dictionary, and returns the code of each here, in their order.
    pub fn merge(&mut self, more: Texts) -> Result<Vec<i64>, AllocError>
        ensures texts { OnOk result (self.new ≡ with_texts self.old more) }
        ensures codes { IfOk result (λ codes. map Some codes.items ≡ map (code_of self.new) more) }
        ensures unchanged { OnErr result (self.new ≡ self.old) }
    {
        let before = self.len();
        let codes = self.put_all(more);
        if codes.is_err() {
            self.cut(before);
        }
        codes
    }

    // The same, where a refusal leaves the texts that came before it.
    fn put_all(&mut self, more: Texts) -> Result<Vec<i64>, AllocError>
        ensures texts { OnOk result (self.new ≡ with_texts self.old more) }
        ensures codes { IfOk result (λ codes. map Some codes.items ≡ map (code_of self.new) more) }
        ensures begins { Begins self.old self.new }
    {
        let Texts { texts, bytes: _ } = more;
        let mut codes = Vec::with_capacity(*self.texts.allocator(), texts.len())?;
        for text in texts {
            codes.push(self.put(text)?)?;
        }
        Ok(codes)
    }

    /// Keeps the first `len` texts. This takes no memory.
    pub fn cut(&mut self, len: usize)
        requires { len ≤ length self.old }
        ensures { self.new ≡ take len self.old }
    {
        self.bytes = bytes_of(&self.texts.as_slice()[..len]);
        self.texts.truncate(len);
    }
}
