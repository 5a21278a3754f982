// The words of a table's columns, each column narrow and by itself, beside the rows. They are there for a table whose rows
// came by whole loads. It relies on narrow_columns, and takes all memory before a word is put anywhere.
ghost use Rattle.std.specs.Prelude.{◌≡◌, ℕ, ℤ, slice_index_or, ◌+◌, ◌*◌, ◌<◌, ◌≤◌, [], ◌++◌, All, FitsSigned, IfOk, IfSome, List, OnOk, Some, length, slice_get, vec_len};
ghost use Rattle.std.specs.Int.{w64};
ghost use Rattle.narrow_columns.specs.Kept.{ColumnState};
ghost use Rattle.narrow_columns.specs.Rows.{words_of_column};
ghost use Rattle.narrow_columns.specs.declared.extent.Extent.{Extent};
ghost use Rattle.heap_pages.specs.Columns.{AreColumnsOf, AreExtents, HaveRoomFor, IsWiderThan, with_words};
ghost use Rattle.heap_pages.specs.Limits.{max_columns};

use narrow_columns::{Column, ColumnPlace, Extent, NO_WORDS, extent_of};
use sql_values::MAX_COLUMNS;
use std::alloc::{AllocError, Global};
use std::marker::Model;

/// How many rows are gone through column by column before the next ones, so that their words stay near.
const BLOCK_ROWS: usize = 512;

/// Rows that come behind others of the same width.
#[derive(Clone, Copy)]
pub(crate) struct Growth {
    /// How many words a row has.
    pub(crate) width: usize,
    /// How many rows there are.
    pub(crate) before: u64,
    /// How many come.
    pub(crate) more: usize,
}

/// Columns of words.
#[derive(Drop)]
pub(crate) struct Columns {
    alloc: Global,
    columns: Vec<Column>,
}

impl Model for Columns {
    ghost use Rattle.std.specs.Prelude.{List};
    ghost use Rattle.narrow_columns.specs.Kept.{ColumnState};

    ghost Value = { List ColumnState };

    ghost view = { λ c. c.columns.items };
}

/// What the type of words says of each is known of all after it. It does nothing.
pub(crate) fn know_words(words: &[i64])
    ensures { All (FitsSigned w64) words.now }
{
    for place in 0..words.len() {
        let _word = words[place];
    }
}

// So many columns without words.
fn empty_columns(alloc: Global, count: usize) -> Result<Vec<Column>, AllocError>
    ensures count { IfOk result (λ columns. length columns.items ≡ count) }
    ensures empty { IfOk result (λ columns. All (λ column. column.words ≡ []) columns.items) }
{
    let mut columns = Vec::with_capacity(alloc, count)?;
    for _number in 0..count {
        columns.push(Column::new(alloc))?;
    }
    Ok(columns)
}

// Widens the extent of each column by its words of `count` rows.
fn widen(extents: &mut [Extent; MAX_COLUMNS], rows: &[i64], width: usize, count: usize)
    requires few { width ≤ max_columns }
    requires there { count * width ≤ length rows.now }
    ensures within { AreExtents width count rows.now extents.new }
    ensures wider { (number : ℕ) → (d : Extent) → number < width
        → IsWiderThan (slice_index_or extents.old number d) (slice_index_or extents.new number d) }
{
    for place in 0..width {
        let at = ColumnPlace {
            width,
            place,
            count,
        };
        extents[place] = extent_of(extents[place], rows, at);
    }
}

// The extent of each column in more rows.
fn extents_of(words: &[i64], growth: Growth) -> [Extent; MAX_COLUMNS]
    requires few { growth.width ≤ max_columns }
    requires there { growth.more * growth.width ≤ length words.now }
    ensures { AreExtents growth.width growth.more words.now result }
{
    let mut extents = [NO_WORDS; MAX_COLUMNS];
    let mut done = 0;
    while done < growth.more {
        let count = BLOCK_ROWS.min(growth.more - done);
        let rest = &words[done * growth.width..];
        widen(&mut extents, rest, growth.width, count);
        done += count;
    }
    extents
}

// Makes room for the words of more rows. No word changes, also where memory runs out.
fn make_room_in(columns: &mut Vec<Column>, words: &[i64], growth: Growth) -> Result<(), AllocError>
    requires few { vec_len columns.old ≤ growth.width }
    requires limit { growth.width ≤ max_columns }
    requires there { growth.more * growth.width ≤ length words.now }
    ensures kept { (rows : List ℤ) → AreColumnsOf growth.width growth.before rows columns.old.items
        → AreColumnsOf growth.width growth.before rows columns.new.items }
    ensures room { OnOk result (HaveRoomFor growth.width growth.more words.now columns.new.items) }
{
    let extents = extents_of(words, growth);
    for number in 0..columns.len() {
        columns[number].make_room(extents[number], growth.more)?;
    }
    Ok(())
}

// Puts the words of `count` rows behind those of each column.
fn push_block(columns: &mut Vec<Column>, rows: &[i64], width: usize, count: usize)
    requires few { vec_len columns.old ≤ width }
    requires there { count * width ≤ length rows.now }
    requires room { HaveRoomFor width count rows.now columns.old.items }
    ensures pushed { (number : ℕ) → (d : ColumnState) → number < vec_len columns.old
        → slice_index_or columns.new.items number d
        ≡ with_words (words_of_column width number count rows.now)
        (slice_index_or columns.old.items number d) }
    ensures count { vec_len columns.new ≡ vec_len columns.old }
{
    for place in 0..columns.len() {
        let at = ColumnPlace {
            width,
            place,
            count,
        };
        columns[place].push(rows, at);
    }
}

// Puts the words of more rows behind those of each column.
fn push_in(columns: &mut Vec<Column>, words: &[i64], growth: Growth)
    requires few { vec_len columns.old ≤ growth.width }
    requires there { growth.more * growth.width ≤ length words.now }
    requires room { HaveRoomFor growth.width growth.more words.now columns.old.items }
    ensures { (rows : List ℤ) → AreColumnsOf growth.width growth.before rows columns.old.items
        → length rows ≡ growth.before * growth.width
        → AreColumnsOf growth.width (growth.before + growth.more)
        (rows ++ words.now) columns.new.items }
{
    let mut done = 0;
    while done < growth.more {
        let count = BLOCK_ROWS.min(growth.more - done);
        let rest = &words[done * growth.width..];
        push_block(columns, rest, growth.width, count);
        done += count;
    }
}

impl Columns {
    /// No columns. It takes no memory.
    pub(crate) fn new(alloc: Global) -> Columns
        ensures { result ≡ [] }
    {
        Columns {
            alloc,
            columns: Vec::new(alloc),
        }
    }

    /// The column of this number, from 0, if it is there.
    pub(crate) fn column(&self, number: usize) -> Option<&Column>
        ensures { IfSome result (λ column. slice_get self.now number ≡ Some column.now) }
    {
        self.columns.get(number)
    }

    /// Makes room for the words of more rows. Where there are no rows yet, there is a column for each number then. No word
    /// changes, also where memory runs out.
    pub(crate) fn make_room(&mut self, words: &[i64], growth: Growth) -> Result<(), AllocError>
        requires few { length self.old ≤ growth.width }
        requires limit { growth.width ≤ max_columns }
        requires there { growth.more * growth.width ≤ length words.now }
        ensures kept { (rows : List ℤ) → AreColumnsOf growth.width growth.before rows self.old
            → AreColumnsOf growth.width growth.before rows self.new }
        ensures room { OnOk result (HaveRoomFor growth.width growth.more words.now self.new) }
    {
        self.begin(growth)?;
        make_room_in(&mut self.columns, words, growth)
    }

    // Where there are no rows yet, there is a column for each number then.
    fn begin(&mut self, growth: Growth) -> Result<(), AllocError>
        requires { length self.old ≤ growth.width }
        ensures few { length self.new ≤ growth.width }
        ensures kept { (rows : List ℤ) → AreColumnsOf growth.width growth.before rows self.old
            → AreColumnsOf growth.width growth.before rows self.new }
    {
        if growth.before == 0 {
            self.columns = empty_columns(self.alloc, growth.width)?;
        }
        Ok(())
    }

    /// Puts the words of more rows behind those that are there. There is room for them.
    pub(crate) fn append(&mut self, words: &[i64], growth: Growth)
        requires few { length self.old ≤ growth.width }
        requires there { growth.more * growth.width ≤ length words.now }
        requires room { HaveRoomFor growth.width growth.more words.now self.old }
        ensures { (rows : List ℤ) → AreColumnsOf growth.width growth.before rows self.old
            → length rows ≡ growth.before * growth.width
            → AreColumnsOf growth.width (growth.before + growth.more) (rows ++ words.now) self.new }
    {
        push_in(&mut self.columns, words, growth);
    }

    /// Gives the columns up.
    pub(crate) fn clear(&mut self)
        ensures { self.new ≡ [] }
    {
        self.columns.clear();
    }
}
