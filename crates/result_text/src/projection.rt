// The rows of a result as its block's projection asks for them. Where it asks for every column in its place the rows
// are lent from the stack. Else each projected word is copied once, into one vector for all rows, and they are lent
// from there.
ghost use Rattle.std.specs.Prelude.{◌≡◌, ◌<◌, ◌++◌, ◌↔◌, All, IfOk, IsTrue, OnOk, length, map};
ghost use Rattle.std.specs.List.{range_with_len};
ghost use Rattle.query_block.specs.Blocks.{relation_tree, block_tree, IsBlock, IsPlace, kind_of, width_of};
ghost use Rattle.query_block.specs.Combined.{AreCombinedWords, word_place};
ghost use Rattle.result_text.specs.Rows.{words_of};
ghost use Rattle.result_text.specs.Combined.{printed_rows, words_at};
ghost use Rattle.result_text.specs.Printed.{table_text};

use crate::row::LentRow;
use crate::table::table_text;
use query_block::{Block, ColumnAt, Relation};
use row_stack::RowStack;
use sql_values::{ColumnType, Text, Texts};
use std::alloc::{AllocError, Global};

// What the column at a place holds.
fn kind_of(relations: &[Relation], at: ColumnAt) -> ColumnType
    requires { IsPlace (map relation_tree relations.now) at }
    ensures { result ≡ kind_of (map relation_tree relations.now) at }
{
    relations[at.relation as usize].columns.as_slice()[at.column as usize]
}

// What the projected columns hold.
fn projected_kinds(alloc: Global, block: &Block) -> Result<Vec<ColumnType>, AllocError>
    ensures block { IsBlock (block_tree block.now) }
    ensures kinds { IfOk result (λ kinds. kinds.items
        ≡ map (kind_of (block_tree block.now).relations) block.now.projection) }
{
    let relations = block.relations();
    let projection = block.projection();
    let mut kinds = Vec::with_capacity(alloc, projection.len())?;
    for at in projection {
        kinds.push(kind_of(relations, *at))?;
    }
    Ok(kinds)
}

// Where the words of the projected columns stand in a row of all relations.
fn projected_places(alloc: Global, block: &Block) -> Result<Vec<usize>, AllocError>
    ensures { IfOk result (λ places. places.items
        ≡ map (word_place (block_tree block.now)) block.now.projection) }
{
    let projection = block.projection();
    let mut places = Vec::with_capacity(alloc, projection.len())?;
    for at in projection {
        places.push(block.offset(at.relation) + at.column as usize)?;
    }
    Ok(places)
}

// Whether these are the places of all columns, in their order.
fn are_in_place(places: &[usize], width: usize) -> bool
    ensures { IsTrue result ↔ (places.now ≡ range_with_len 0 width) }
{
    if places.len() != width {
        return false;
    }
    for (column, place) in places.iter().enumerate() {
        if *place != column {
            return false;
        }
    }
    true
}

// Lends the rows of the stack as they stand.
fn whole_rows(alloc: Global, rows: &RowStack) -> Result<Vec<LentRow<'_>>, AllocError>
    ensures rows { IfOk result (λ lent. lent.items ≡ rows.now.rows) }
    ensures wide { All (λ row. length row ≡ rows.now.width) rows.now.rows }
{
    let mut lent = Vec::with_capacity(alloc, rows.len() as usize)?;
    for number in 0..rows.len() {
        lent.push(LentRow::new(rows.row(number)))?;
    }
    Ok(lent)
}

// Adds the words of a row in these places.
fn push_words(words: &mut Vec<i64>, row: &[i64], places: &[usize]) -> Result<(), AllocError>
    requires { All (λ place. place < length row.now) places.now }
    ensures { OnOk result (words.new.items ≡ words.old.items ++ words_at places.now row.now) }
{
    for place in places {
        words.push(row[*place])?;
    }
    Ok(())
}

// The words of all rows in these places, one row after the other.
fn projected_words(alloc: Global, rows: &RowStack, places: &[usize]) -> Result<Vec<i64>, AllocError>
    requires { All (λ place. place < rows.now.width) places.now }
    ensures { IfOk result (λ words. words.items
        ≡ words_of (map (words_at places.now) rows.now.rows)) }
{
    let count = (rows.len() as usize)
        .checked_mul(places.len())
        .ok_or(AllocError)?;
    let mut words = Vec::with_capacity(alloc, count)?;
    for i in 0..rows.len() {
        push_words(&mut words, rows.row(i), places)?;
    }
    Ok(words)
}

// Lends the rows of these words.
fn projected_rows<'a>(
    alloc: Global,
    rows: &RowStack,
    places: &[usize],
    words: &'a [i64],
) -> Result<Vec<LentRow<'a>>, AllocError>
    requires { words.now ≡ words_of (map (words_at places.now) rows.now.rows) }
    ensures { IfOk result (λ lent. lent.items ≡ map (words_at places.now) rows.now.rows) }
{
    let mut lent = Vec::with_capacity(alloc, rows.len() as usize)?;
    let mut left = words;
    for _ in 0..rows.len() {
        let (first, rest) = left.split_at(places.len());
        lent.push(LentRow::new(first))?;
        left = rest;
    }
    Ok(lent)
}

/// The CSV text (RFC 4180) of a header and of the projection of these rows, in ascending order: the leftmost column
/// first, and in it NULL, then numbers by value, then texts by their bytes. A row of the stack has the words of all
/// relations, those of each after those of the one before, and is printed as often as it stands there. The only error is
/// out of memory: the csv writer refuses a record that isn't as wide as the header, and with one name a projected column
/// (`named`) none is.
pub fn print_rows(
    alloc: Global,
    texts: &Texts,
    block: &Block,
    names: &[Text],
    rows: &RowStack,
) -> Result<Vec<u8>, AllocError>
    requires named { length names.now ≡ length block.now.projection }
    requires wide { rows.now.width ≡ width_of (block_tree block.now) }
    requires words { All (AreCombinedWords texts.now (block_tree block.now).relations)
        rows.now.rows }
    ensures { IfOk result (λ text. text.items
        ≡ table_text names.now (printed_rows texts.now (block_tree block.now) rows.now.rows)) }
{
    let kinds = projected_kinds(alloc, block)?;
    let places = projected_places(alloc, block)?;
    if are_in_place(&places, block.width()) {
        let lent = whole_rows(alloc, rows)?;
        return table_text(alloc, texts, &kinds, names, &lent);
    }
    let words = projected_words(alloc, rows, &places)?;
    let lent = projected_rows(alloc, rows, &places, &words)?;
    table_text(alloc, texts, &kinds, names, &lent)
}
