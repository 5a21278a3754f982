// The entries of a column in rows of words. All memory is taken before the first row is read.
ghost use Rattle.std.specs.Prelude.{◌≡◌, ◌+◌, ◌*◌, ◌^◌, ◌<◌, ◌≤◌, ◌++◌, All, length, IfOk, OnOk};
ghost use Rattle.heap_pages.specs.Rows.{cut_rows};
ghost use Rattle.db_catalog.specs.Indexes.{word_entry, word_entries};

use heap_pages::Heap;
use sql_values::NULL_WORD;
use std::alloc::{AllocError, Global};

// Puts the entry of a word behind others, if it has one.
fn push_entry(entries: &mut Vec<(i64, u64)>, word: i64, row: u64) -> Result<(), AllocError>
    ensures { OnOk result (entries.new.items ≡ entries.old.items ++ word_entry row word) }
{
    if word != NULL_WORD {
        entries.push((word, row))?;
    }
    Ok(())
}

// The entries of a column in the rows of a heap.
pub(crate) fn entries_in(
    alloc: Global,
    heap: &Heap,
    column: usize,
) -> Result<Vec<(i64, u64)>, AllocError>
    requires wide { All (λ words. length words ≡ heap.now.columns) heap.now.rows }
    requires there { column < heap.now.columns }
    ensures { IfOk result (λ entries. entries.items ≡ word_entries column 0 heap.now.rows) }
{
    let mut entries = Vec::with_capacity(alloc, heap.rows() as usize)?;
    for i in 0..heap.rows() {
        push_entry(&mut entries, heap.get(i)[column], i)?;
    }
    Ok(entries)
}

// Rows whose words follow one another, of which the first has the number `first`.
#[derive(Clone, Copy)]
pub(crate) struct FlatRows<'w> {
    pub(crate) words: &'w [i64],
    pub(crate) rows: usize,
    pub(crate) width: usize,
    pub(crate) first: u64,
}

// The entries of a column in such rows.
pub(crate) fn entries_among(
    alloc: Global,
    flat: &FlatRows<'_>,
    column: usize,
) -> Result<Vec<(i64, u64)>, AllocError>
    requires filled { length flat.now.words.now ≡ flat.now.rows * flat.now.width }
    requires there { column < flat.now.width }
    requires few { flat.now.first ≤ 2 ^ 62 }
    ensures { IfOk result (λ entries. entries.items ≡ word_entries column flat.now.first
        (cut_rows flat.now.width flat.now.rows flat.now.words.now)) }
{
    let FlatRows {
        words,
        rows,
        width,
        first,
    } = *flat;
    let mut entries = Vec::with_capacity(alloc, rows)?;
    for i in 0..rows {
        let row = &words[i * width..i * width + width];
        push_entry(&mut entries, row[column], first + i as u64)?;
    }
    Ok(entries)
}
