// The stack: the words of all rows in one block, which is kept when rows are released.
ghost use Rattle.std.specs.Prelude.{max, ◌≡◌, ◌-◌, ◌*◌, ◌<◌, ◌≤◌, [], ◌∷◌, ◌++◌, length, nat_lt, None, Some, slice_get, if◌then◌else◌, IsOk, OnOk, OnErr};
ghost use Rattle.row_stack.specs.Bounds.{IsWidth, word_limit};
ghost use Rattle.row_stack.specs.Stack.{room_of, new_stack, IsRowStack};
ghost use Rattle.row_stack.specs.Changes.{Pushes, released_to};

use crate::block::{WORD_LIMIT, WordBlock};
use std::alloc::{AllocError, Global};
use std::marker::Model;

// How many rows the first growth makes room for.
const FIRST_ROWS: u64 = 16;

// How many words rows take, where a stack can have so many.
fn words_of_rows(width: usize, rows: u64) -> Option<usize>
    ensures { result ≡ (if nat_lt (rows * width) word_limit then Some (rows * width) else None) }
{
    let words = (rows as usize).checked_mul(width)?;
    if words < WORD_LIMIT {
        Some(words)
    } else {
        None
    }
}

/// Rows of one width.
#[derive(Drop)]
pub struct RowStack {
    width: usize,
    rows: u64,
    room: u64,
    alloc: Global,
    block: Option<WordBlock>,
}

impl Model for RowStack {
    ghost use Rattle.std.specs.Prelude.{◌-◌, length};
    ghost use Rattle.row_stack.specs.Stack.{RowStackState};
    ghost use Rattle.row_stack.specs.Packed.{rows_among, block_words, block_capacity, IsPacked};

    ghost Value = { RowStackState };

    ghost view = { λ s. record {
      width = s.width;
      rows = rows_among s.width s.rows (block_words s.block);
      spare = s.room - s.rows;
    } };

    ghost invariant = { λ s.
        IsPacked s.width s.rows s.room (length (block_words s.block)) (block_capacity s.block) };
}

#[tactic(auto, using(crate::proofs::RowsAmong::of_rows))]
impl RowStack {
    /// A stack without rows, of rows of `width` words, 1 to 192. It takes no memory.
    pub fn new(alloc: Global, width: usize) -> RowStack
        requires { IsWidth width }
        ensures { result ≡ new_stack width }
    {
        RowStack {
            width,
            rows: 0,
            room: 0,
            alloc,
            block: None,
        }
    }

    /// How many rows there are.
    pub fn len(&self) -> u64
        ensures count { result ≡ length self.now.rows }
        ensures stack { IsRowStack self.now }
    {
        self.rows
    }

    /// How many rows can be pushed without taking memory.
    pub fn spare(&self) -> u64
        ensures { result ≡ self.now.spare }
    {
        self.room - self.rows
    }

    /// Row `i`, from 0, the first pushed.
    pub fn row(&self, i: u64) -> &[i64]
        requires { i < length self.now.rows }
        ensures row { slice_get self.now.rows i ≡ Some result.now }
        ensures width { length result.now ≡ self.now.width }
    {
        let Some(block) = &self.block else {
            unreachable!()
        };
        block.words(i as usize * self.width, self.width)
    }

    /// Puts a row at the end and returns its place, from 0. Where a row is spare it takes no memory and can't fail.
    /// Else it takes memory for as many rows as there are, at least 16. Out of memory the stack is as it was.
    pub fn push(&mut self, row: &[i64]) -> Result<u64, AllocError>
        requires { length row.now ≡ self.old.width }
        ensures { Pushes row.now self.old self.new result }
    {
        if self.rows == self.room {
            self.grow()?;
        }
        Ok(self.put(row))
    }

    // Puts a row at the end, where one is spare.
    fn put(&mut self, row: &[i64]) -> u64
        requires room { 0 < self.old.spare }
        requires width { length row.now ≡ self.old.width }
        ensures place { result ≡ length self.old.rows }
        ensures stack { self.new ≡ record self.old {
          rows = self.old.rows ++ row.now ∷ [];
          spare = self.old.spare - 1;
        } }
    {
        let Some(block) = &mut self.block else {
            unreachable!()
        };
        block.put(self.rows as usize * self.width, row);
        let place = self.rows;
        self.rows += 1;
        place
    }

    // Makes room for as many rows more as there are. It stands apart, so that what is inlined of a push stays small.
    #[cold]
    #[inline(never)]
    fn grow(&mut self) -> Result<(), AllocError>
        requires { self.old.spare ≡ 0 }
        ensures grown { OnOk result
            (self.new ≡ record self.old { spare = max (length self.old.rows) 16 }) }
        ensures unchanged { OnErr result (self.new ≡ self.old) }
    {
        self.reserve(self.rows.max(FIRST_ROWS))
    }

    /// Makes sure that `n` rows can be pushed without taking memory. Where so many are spare it takes none and can't
    /// fail, else it takes memory for no more than that. Out of memory the stack is as it was.
    pub fn reserve(&mut self, n: u64) -> Result<(), AllocError>
        ensures reserved { OnOk result
            (self.new ≡ record self.old { spare = max n self.old.spare }) }
        ensures succeeds { n ≤ self.old.spare → IsOk result }
        ensures unchanged { OnErr result (self.new ≡ self.old) }
    {
        if n <= self.room - self.rows {
            return Ok(());
        }
        let room = self.rows.checked_add(n).ok_or(AllocError)?;
        self.move_to(room)
    }

    // Moves the rows to a block with room for `room` rows. Out of memory they stay where they are.
    fn move_to(&mut self, room: u64) -> Result<(), AllocError>
        requires { room_of self.old ≤ room }
        ensures moved { OnOk result
            (self.new ≡ record self.old { spare = room - length self.old.rows }) }
        ensures unchanged { OnErr result (self.new ≡ self.old) }
    {
        let words = self.rows as usize * self.width;
        let capacity = words_of_rows(self.width, room).ok_or(AllocError)?;
        WordBlock::make_room(&mut self.block, self.alloc, words, capacity)?;
        self.room = room;
        Ok(())
    }

    /// Keeps the first `to` rows. The memory of the others is spare from then on. It takes no memory.
    pub fn release(&mut self, to: u64)
        requires { to ≤ length self.old.rows }
        ensures { self.new ≡ released_to to self.old }
    {
        self.rows = to;
    }
}
