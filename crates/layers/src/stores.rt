// What a stack of rows, an index and a heap hold after calls that take memory.
ghost use Rattle.std.specs.Prelude.{◌≡◌, ◌≤◌, length};

use crate::line::numbers_text;
use btree_index::Index;
use heap_pages::{Heap, HeapFault};
use row_stack::RowStack;
use sql_values::MAX_COLUMNS;
use std::alloc::Global;

// How many rows each word has in an index.
const ROWS_OF_A_WORD: u32 = 3;

// Makes room in a stack for so many rows, pushes so many, and leaves so many.
fn change(stack: &mut RowStack, row: &[i64], reserved: u32, pushed: u32, left: u32) -> Option<()>
    requires { length row.now ≡ stack.old.width }
{
    stack.reserve(u64::from(reserved)).ok()?;
    for _ in 0..pushed {
        stack.push(row).ok()?;
    }
    if u64::from(left) > stack.len() {
        return None;
    }
    stack.release(u64::from(left));
    Some(())
}

// A stack of a width after such calls: how many rows there are, and how many are spare.
pub(crate) fn stack(alloc: Global, asked: &[u32]) -> Option<String> {
    let [width, reserved, pushed, left] = asked else {
        return None;
    };
    let width = *width as usize;
    if width == 0 || width > 192 {
        return None;
    }
    let row = [7; 192];
    let mut stack = RowStack::new(alloc, width);
    change(&mut stack, &row[..width], *reserved, *pushed, *left)?;
    numbers_text(alloc, &[stack.len(), stack.spare()])
}

// The index of so many rows, some of which have one word.
fn index_of(alloc: Global, rows: u32) -> Option<Index> {
    let mut entries = Vec::new(alloc);
    for row in 0..rows {
        let word = i64::from(row / ROWS_OF_A_WORD);
        entries.push((word, u64::from(row))).ok()?;
    }
    Index::build(alloc, &entries).ok()
}

// An index of so many entries: its nodes, its height, and how many entries it has for all its words.
pub(crate) fn index(alloc: Global, asked: &[u32]) -> Option<String> {
    let index = index_of(alloc, *asked.first()?)?;
    let found = index.within(0, i64::MAX);
    numbers_text(
        alloc,
        &[
            index.nodes(),
            u64::from(index.height()),
            found.older.len() as u64 + found.newer.len() as u64,
        ],
    )
}

// Appends so many rows to a heap that has room for them, each with its number in every column.
fn append_rows(heap: &mut Heap, columns: usize, rows: u32)
    requires some { 1 ≤ columns }
    requires few { columns ≤ 32 }
    requires columns { columns ≡ heap.old.columns }
    requires room { rows ≤ heap.old.spare }
{
    for number in 0..rows {
        heap.append(&[i64::from(number); MAX_COLUMNS][..columns]);
    }
}

// The sum of the numbers in the first column.
fn sum_of(heap: &Heap) -> u64 {
    let mut sum = 0u64;
    for i in 0..heap.rows() {
        let first = heap.get(i).first().copied().unwrap_or(0);
        sum = sum.saturating_add(first.unsigned_abs());
    }
    sum
}

// A heap of so many columns, for which room is made for so many rows, and so many are appended: how many rows there are, the
// pages that they take, and the sum of their numbers. Room past the limit is refused with the rows that it is for.
pub(crate) fn heap(alloc: Global, asked: &[u32]) -> Option<String> {
    let [columns, reserved, appended] = asked else {
        return None;
    };
    let columns = *columns as usize;
    if columns == 0 || columns > MAX_COLUMNS || appended > reserved {
        return None;
    }
    let mut heap = Heap::new(alloc, columns);
    match heap.reserve(u64::from(*reserved)) {
        Ok(()) => {
            append_rows(&mut heap, columns, *appended);
            numbers_text(alloc, &[heap.rows(), heap.pages(), sum_of(&heap)])
        }
        Err(HeapFault::RowLimit { value }) => format!(in alloc; "refused {value}").ok(),
        Err(HeapFault::NoMemory) => None,
    }
}
