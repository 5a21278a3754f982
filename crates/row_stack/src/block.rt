// A block of raw memory for words, and its owner. The words are written from the start on, and what lies after them is
// not initialised.
ghost use Rattle.std.specs.Prelude.{◌≡◌, ℤ, ◌+◌, ◌*◌, ◌^◌, ◌<◌, ◌≤◌, List, [], ◌++◌, take, drop, length, if◌then◌else◌, IfOk, OnOk, OnErr};
ghost use base.Fml.{Share};
ghost use types.Logic.{sem};
ghost use Rattle.row_stack.specs.Memory.{block_owns, block_lends, words_and_room, words_twice};

use std::alloc::{AllocError, Allocator, Global};
use std::marker::Model;

// The bytes of a word.
const WORD: usize = 8;

// A block has fewer words, since 63 bits count its bytes.
pub(crate) const WORD_LIMIT: usize = 1 << 60;

// A block with room for `capacity` words, of which the first are written.
pub(crate) struct WordBlock {
    start: *mut i64,
    pub(crate) capacity: usize,
    alloc: Global,
    pub(crate) ghost words: { List ℤ },
    ghost fits: { (length words ≤ capacity) × (capacity * 8 < 2 ^ 63) },
}

impl Model for WordBlock {
    ghost also_owns = { λ b. block_owns b.alloc b.start b.capacity b.words };

    ghost also_shares = { λ b _ κ. block_lends b.start b.words κ };
}

impl Drop for WordBlock {
    fn drop(self) {
        let WordBlock {
            start,
            capacity,
            alloc,
        } = self;
        unsafe { alloc.deallocate(start as *mut u8, capacity * WORD, WORD) }
    }
}

impl WordBlock {
    ghost use Rattle.row_stack.specs.Packed.{block_words, block_capacity};

    // Makes a block of `capacity` words, with the first `count` words of the one that was there in it. Out of memory the
    // one that was there keeps those.
    pub(crate) fn make_room(
        block: &mut Option<WordBlock>,
        alloc: Global,
        count: usize,
        capacity: usize,
    ) -> Result<(), AllocError>
        requires written { count ≤ length (block_words block.old) }
        requires larger { block_capacity block.old ≤ capacity }
        requires small { capacity * 8 < 2 ^ 63 }
        ensures words { block_words block.new ≡ take count (block_words block.old) }
        ensures capacity { OnOk result (block_capacity block.new ≡ capacity) }
        ensures refused { OnErr result (block_capacity block.new ≡ block_capacity block.old) }
    {
        if let Some(block) = block {
            if !block.grow(count, capacity) {
                return Err(AllocError);
            }
        } else {
            *block = Some(WordBlock::take(alloc, capacity)?);
        }
        Ok(())
    }

    // A block of which no word is written.
    fn take(alloc: Global, capacity: usize) -> Result<WordBlock, AllocError>
        requires { capacity * 8 < 2 ^ 63 }
        ensures words { IfOk result (λ b. b.words ≡ []) }
        ensures capacity { IfOk result (λ b. b.capacity ≡ capacity) }
    {
        match alloc.allocate(capacity * WORD, WORD) {
            Ok(block) => {
                let start = block as *mut i64;
                Ok(WordBlock {
                    start,
                    capacity,
                    alloc,
                })
            }
            Err(error) => Err(error),
        }
    }

    // Makes the block larger, with its first `count` words in it, and tells whether it could. The others are written no
    // more.
    fn grow(&mut self, count: usize, capacity: usize) -> bool
        requires written { count ≤ length self.old.words }
        requires larger { self.old.capacity ≤ capacity }
        requires small { capacity * 8 < 2 ^ 63 }
        ensures words { self.new.words ≡ take count self.old.words }
        ensures capacity { self.new.capacity ≡ (if result then capacity else self.old.capacity) }
    {
        let alloc = self.alloc;
        match unsafe { alloc.grow(self.start, count, self.capacity, capacity) } {
            Ok(start) => {
                self.start = start;
                self.capacity = capacity;
                true
            }
            Err(_) => false,
        }
    }

    // Writes a row after the first `at` words. What was written after them is written no more.
    pub(crate) fn put(&mut self, at: usize, row: &[i64])
        requires written { at ≤ length self.old.words }
        requires room { at + length row.now ≤ self.old.capacity }
        ensures words { self.new.words ≡ take at self.old.words ++ row.now }
        ensures capacity { self.new.capacity ≡ self.old.capacity }
    {
        unsafe { copy_words(row.as_ptr(), self.start.add(at), row.len()) }
    }

    // The `count` words from `from` on.
    pub(crate) fn words(&self, from: usize, count: usize) -> &[i64]
        requires { from + count ≤ length self.now.words }
        ensures { result.now ≡ take count (drop from self.now.words) }
    {
        unsafe { std::slice::from_raw_parts(self.start.add(from), count) }
    }
}

// Copies words to where none are written. A share of the words that are read is enough.
// Those that a multiple of four leaves over are copied one by one, and the rest by fours. A four is read before it is
// written, so the compiler makes of it two reads and two writes of 16 bytes, with no test of whether the places overlap.
unsafe fn copy_words(from: *const i64, to: *mut i64, count: usize)
    ghost g: { Share × List ℤ }
    requires size { (count ≡ length g.1) × (count * 8 < 2 ^ 63) }
    requires* memory { sem 𝓛 (words_and_room g.0 g.1 from to) }
    ensures* memory { sem 𝓛 (words_twice g.0 g.1 from to) }
{
    let over = count % 4;
    let mut i = 0;
    while i < over {
        unsafe { to.add(i).write(from.add(i).read()) };
        i += 1;
    }
    while i < count {
        unsafe {
            let first = from.add(i).read();
            let second = from.add(i + 1).read();
            let third = from.add(i + 2).read();
            let fourth = from.add(i + 3).read();
            to.add(i).write(first);
            to.add(i + 1).write(second);
            to.add(i + 2).write(third);
            to.add(i + 3).write(fourth);
        }
        i += 4;
    }
}
