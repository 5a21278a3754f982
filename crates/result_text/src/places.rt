// The texts that stand in rows, in ascending order behind those of the dictionary, and the place there of each of their
// codes. It looks at no other text of the dictionary, which may have many more.
ghost use Rattle.std.specs.Prelude.{◌≡◌, ◌++◌, false, ℤ, List, All, Contains, IfOk, IfSome, IsSome, IsSorted, OnOk, flat_map, length, map};
ghost use Rattle.std.specs.List.{AllZip};
ghost use Rattle.std.specs.Cmp.Lexicographic.{slice_cmp};
ghost use Rattle.std.specs.Ordering.{nat_cmp, int_cmp};
ghost use Rattle.sql_values.specs.Dictionary.{text_of};
ghost use Rattle.result_text.specs.Placing as spec;
ghost use Rattle.result_text.specs.Ranks.{AreAscending};
ghost use Rattle.result_text.specs.Rows.{WordRow, words_of};
ghost use Rattle.sql_values.specs.Stored.{AreWordsOf};

use crate::ranked::RankedTexts;
use crate::row::LentRow;
use crate::short_text::{ShortText, SortedTexts};
use sql_values::{ColumnType, NULL_WORD, Texts};
use std::alloc::{AllocError, Global};

/// A text of a dictionary, and its code there.
#[derive(Drop, PartialEq, Eq, PartialOrd, Ord)]
pub(crate) struct CodedText<'a> {
    text: ShortText<'a>,
    code: i64,
}

/// A code of a dictionary, and the place of its text among sorted ones.
#[derive(Clone, Copy, Drop, PartialEq, Eq, PartialOrd, Ord)]
pub(crate) struct Placed {
    pub(crate) code: i64,
    pub(crate) place: i64,
}

/// Texts in ascending order behind others, and the places of codes there, sorted by code.
#[derive(Drop)]
pub(crate) struct Places<'a> {
    pub(crate) texts: RankedTexts<'a>,
    pub(crate) placed: Vec<Placed>,
}

// Adds the code of a word's text, if it stands for one.
fn push_code(kind: ColumnType, word: i64, codes: &mut Vec<i64>) -> Result<(), AllocError>
    ensures { OnOk result (codes.new.items ≡ codes.old.items ++ spec.text_code kind word) }
{
    match kind {
        ColumnType::Integer => Ok(()),
        ColumnType::Varchar(_) => {
            if word != NULL_WORD {
                codes.push(word)?;
            }
            Ok(())
        }
    }
}

// Adds the codes of a row's texts.
fn push_codes(kinds: &[ColumnType], row: &[i64], codes: &mut Vec<i64>) -> Result<(), AllocError>
    requires { length row.now ≡ length kinds.now }
    ensures { OnOk result (codes.new.items ≡ codes.old.items ++ spec.text_codes kinds.now row.now) }
{
    for (place, kind) in kinds.iter().enumerate() {
        push_code(*kind, row[place], codes)?;
    }
    Ok(())
}

// The codes of the texts in rows.
fn codes_in(
    alloc: Global,
    kinds: &[ColumnType],
    rows: &[LentRow<'_>],
) -> Result<Vec<i64>, AllocError>
    requires { All (λ row. length row ≡ length kinds.now) rows.now }
    ensures { IfOk result (λ codes. codes.items ≡ flat_map (spec.text_codes kinds.now) rows.now) }
{
    let mut codes = Vec::new(alloc);
    for row in rows {
        push_codes(kinds, row.words(), &mut codes)?;
    }
    Ok(codes)
}

// Each code with its text.
fn coded_texts<'a>(
    alloc: Global,
    texts: &'a Texts,
    codes: &[i64],
) -> Result<Vec<CodedText<'a>>, AllocError>
    requires { All (λ code. IsSome (text_of texts.now code)) codes.now }
    ensures codes { IfOk result (λ coded. map (λ one. one.code) coded.items ≡ codes.now) }
    ensures texts { IfOk result (λ coded. All (spec.IsCodedText texts.now) coded.items) }
{
    let mut coded = Vec::with_capacity(alloc, codes.len())?;
    for code in codes {
        let text = ShortText::new(texts.text_of(*code));
        coded.push(CodedText { text, code: *code })?;
    }
    Ok(coded)
}

// The place of each code behind the known texts, where texts come in ascending order.
fn place_all<'a>(
    alloc: Global,
    known: &'a Texts,
    coded: &[CodedText<'a>],
) -> Result<Places<'a>, AllocError>
    requires { IsSorted (λ a b. slice_cmp nat_cmp a.text b.text) coded.now }
    ensures known { IfOk result (λ places. places.texts.known.now ≡ known.now) }
    ensures ascending { IfOk result (λ places. AreAscending places.texts.sorted) }
    ensures placed { IfOk result (λ places.
        AllZip (spec.HasPlace known.now places.texts.sorted) coded.now places.placed.items) }
{
    let count = known.len() as i64;
    let mut sorted = SortedTexts::with_capacity(alloc, coded.len())?;
    let mut placed = Vec::with_capacity(alloc, coded.len())?;
    for one in coded {
        let place = sorted.place_of_last(ShortText::new(one.text.bytes()))?;
        let Some(place) = count.checked_add(place) else {
            return Err(AllocError);
        };
        placed.push(Placed {
            code: one.code,
            place,
        })?;
    }
    let texts = RankedTexts { known, sorted };
    Ok(Places { texts, placed })
}

/// The texts that stand in rows, and the place of each of their codes.
pub(crate) fn places_in<'a>(
    alloc: Global,
    texts: &'a Texts,
    kinds: &[ColumnType],
    rows: &[LentRow<'_>],
) -> Result<Places<'a>, AllocError>
    requires { All (AreWordsOf texts.now kinds.now) rows.now }
    ensures known { IfOk result (λ places. places.texts.known.now ≡ texts.now) }
    ensures ascending { IfOk result (λ places. AreAscending places.texts.sorted) }
    ensures sorted { IfOk result (λ places. IsSorted spec.placed_cmp places.placed.items) }
    ensures same { IfOk result (λ places.
        All (spec.IsPlaced texts.now places.texts.sorted) places.placed.items) }
    ensures all { IfOk result (λ places.
        All (spec.HavePlaces places.placed.items kinds.now) rows.now) }
{
    let mut codes = codes_in(alloc, kinds, rows)?;
    codes.sort_unstable();
    codes.dedup();
    let mut coded = coded_texts(alloc, texts, &codes)?;
    coded.sort_unstable();
    let mut places = place_all(alloc, texts, &coded)?;
    places.placed.sort_unstable();
    Ok(places)
}
