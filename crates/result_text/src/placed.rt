// Rows of words in which each text's word is its place among texts that ascend: their words compare as their values do.
ghost use Rattle.std.specs.Prelude.{◌≡◌, ◌++◌, ℤ, List, All, Contains, IfOk, IfSome, IsSorted, OnOk, length};
ghost use Rattle.result_text.specs.Placing as spec;
ghost use Rattle.result_text.specs.Ranks.{AreAscending};
ghost use Rattle.result_text.specs.Rows.{WordRow, words_of};
ghost use Rattle.std.specs.List.{AllZip};
ghost use Rattle.sql_values.specs.Stored.{AreWordsOf};

use crate::places::{Placed, Places, places_in};
use crate::ranked::RankedTexts;
use crate::row::LentRow;
use sql_values::{ColumnType, NULL_WORD, Texts};
use std::alloc::{AllocError, Global};

/// Rows one after the other, in which the word of a text is its place among texts that ascend behind others.
#[derive(Drop)]
pub(crate) struct PlacedRows<'a> {
    pub(crate) texts: RankedTexts<'a>,
    pub(crate) words: Vec<i64>,
}

// The place of this code, if it stands as far behind the first code as it is greater. Where all codes from the least one to
// the greatest are there, as those of a table that was loaded alone, each does.
fn place_in_turn(placed: &[Placed], code: i64) -> Option<i64>
    ensures { IfSome result (λ place. Contains placed.now (record { code = code; place = place })) }
{
    let first = placed.first()?;
    let one = placed.get(code.wrapping_sub(first.code).cast_unsigned() as usize)?;
    if one.code == code {
        Some(one.place)
    } else {
        None
    }
}

// The place of this code.
fn place_of(placed: &[Placed], code: i64) -> i64
    requires sorted { IsSorted spec.placed_cmp placed.now }
    requires there { Contains (spec.codes_of placed.now) code }
    ensures { Contains placed.now (record { code = code; place = result }) }
{
    if let Some(place) = place_in_turn(placed, code) {
        return place;
    }
    match placed.binary_search_by_key(&code, |one| one.code) {
        Ok(at) => placed[at].place,
        Err(_) => unreachable!(),
    }
}

// The word over sorted texts that means what this word means.
fn placed_word(placed: &[Placed], kind: ColumnType, word: i64) -> i64
    requires sorted { IsSorted spec.placed_cmp placed.now }
    requires there { (code : ℤ) → Contains (spec.text_code kind word) code
        → Contains (spec.codes_of placed.now) code }
    ensures { spec.IsPlacedWord placed.now kind word result }
{
    match kind {
        ColumnType::Integer => word,
        ColumnType::Varchar(_) => {
            if word == NULL_WORD {
                word
            } else {
                place_of(placed, word)
            }
        }
    }
}

// Adds the words over sorted texts that mean what a row's words mean.
fn push_placed(
    placed: &[Placed],
    kinds: &[ColumnType],
    row: &[i64],
    words: &mut Vec<i64>,
) -> Result<(), AllocError>
    requires sorted { IsSorted spec.placed_cmp placed.now }
    requires wide { length row.now ≡ length kinds.now }
    requires there { spec.HavePlaces placed.now kinds.now row.now }
    ensures { OnOk result ((added : WordRow) × (words.new.items ≡ words.old.items ++ added)
        × spec.IsPlacedRow placed.now kinds.now row.now added) }
{
    for (place, kind) in kinds.iter().enumerate() {
        words.push(placed_word(placed, *kind, row[place]))?;
    }
    Ok(())
}

// The words over sorted texts that mean what the words of rows mean, one row after the other.
fn placed_words(
    alloc: Global,
    placed: &[Placed],
    kinds: &[ColumnType],
    rows: &[LentRow<'_>],
) -> Result<Vec<i64>, AllocError>
    requires sorted { IsSorted spec.placed_cmp placed.now }
    requires wide { All (λ row. length row ≡ length kinds.now) rows.now }
    requires there { All (spec.HavePlaces placed.now kinds.now) rows.now }
    ensures { IfOk result (λ words. (new : List WordRow) × (words.items ≡ words_of new)
        × AllZip (spec.IsPlacedRow placed.now kinds.now) rows.now new) }
{
    let mut words = Vec::with_capacity(alloc, rows.len().saturating_mul(kinds.len()))?;
    for row in rows {
        push_placed(placed, kinds, row.words(), &mut words)?;
    }
    Ok(words)
}

/// Rows with the places of their texts, which ascend as the texts do.
pub(crate) fn place_rows<'a>(
    alloc: Global,
    texts: &'a Texts,
    kinds: &[ColumnType],
    rows: &[LentRow<'_>],
) -> Result<PlacedRows<'a>, AllocError>
    requires { All (AreWordsOf texts.now kinds.now) rows.now }
    ensures known { IfOk result (λ placed. placed.texts.known.now ≡ texts.now) }
    ensures ascending { IfOk result (λ placed. AreAscending placed.texts.sorted) }
    ensures placed { IfOk result (λ placed. (new : List WordRow)
        × (placed.words.items ≡ words_of new)
        × spec.ArePlaced texts.now placed.texts.sorted kinds.now rows.now new) }
{
    let Places { texts, placed } = places_in(alloc, texts, kinds, rows)?;
    let words = placed_words(alloc, &placed, kinds, rows)?;
    Ok(PlacedRows { texts, words })
}
