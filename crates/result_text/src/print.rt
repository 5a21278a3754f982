// Prints rows as CSV (RFC 4180), as the csv crate writes it. Each error of the csv crate is out of memory, since nothing
// else can fail where a vector is written to and each row is as wide as the header.
ghost use Rattle.std.specs.Prelude.{◌≡◌, ℕ, List, [], ◌∷◌, ◌++◌, All, IfOk, OnOk};
ghost use Rattle.csv.specs.Writing.{row_text, default_writer};
ghost use Rattle.sql_values.specs.Words.{value_of, IsWord};
ghost use Rattle.result_text.specs.Rows.{words_of};
ghost use Rattle.sql_values.specs.Stored.{AreWordsOf, values_of};
ghost use Rattle.result_text.specs.Printed.{field_of, record_of, records_of, text_in_turn};
ghost use Rattle.result_text.specs.TextWriter.{HasWritten, WritesFields, WritesText};

use crate::sort::SortedRow;
use crate::texts::TextList;
use csv::Writer;
use itoa::Buffer;
use sql_values::{ColumnType, NULL_WORD, Text};
use std::alloc::{AllocError, Global};

// How many rows are gathered before they are written.
const BATCH_ROWS: usize = 64;

// What a number and a text mostly take at the most, in bytes, with what ends the field.
const LIKELY_NUMBER: usize = 12;

const LIKELY_TEXT: usize = 22;

// The most bytes that are taken before they are needed.
const MOST_RESERVED: usize = 67108864;

type TextWriter = Writer<Vec<u8>>;

fn write_field(writer: &mut TextWriter, field: &[u8]) -> Result<(), AllocError>
    ensures { OnOk result (WritesFields (field.now ∷ []) writer.old writer.new) }
{
    match writer.write_field(field) {
        Ok(()) => Ok(()),
        Err(_) => Err(AllocError),
    }
}

fn end_record(writer: &mut TextWriter) -> Result<(), AllocError>
    ensures { OnOk result ((text : List ℕ) (fields : List (List ℕ))
        → HasWritten text fields writer.old
        → HasWritten (text ++ row_text default_writer fields) [] writer.new) }
{
    match writer.end_record() {
        Ok(()) => Ok(()),
        Err(_) => Err(AllocError),
    }
}

fn write_header(writer: &mut TextWriter, names: &[Text]) -> Result<(), AllocError>
    ensures { OnOk result (WritesText (row_text default_writer names.now) writer.old writer.new) }
{
    for name in names {
        write_field(writer, name.bytes())?;
    }
    end_record(writer)
}

// Writes the value of a word as a field.
fn write_value<L: TextList>(
    writer: &mut TextWriter,
    texts: &L,
    kind: ColumnType,
    word: i64,
) -> Result<(), AllocError>
    requires { IsWord (L.texts texts.now) kind word }
    ensures { OnOk result
        (WritesFields (field_of (value_of (L.texts texts.now) kind word) ∷ []) writer.old writer.new) }
{
    if word == NULL_WORD {
        return write_field(writer, b"");
    }
    match kind {
        ColumnType::Integer => write_field(writer, Buffer::new().format(word).as_bytes()),
        ColumnType::Varchar(_) => write_field(writer, texts.text_at(word)),
    }
}

// Writes the values of a row as a record.
fn write_row<L: TextList>(
    writer: &mut TextWriter,
    texts: &L,
    kinds: &[ColumnType],
    row: &[i64],
) -> Result<(), AllocError>
    requires { AreWordsOf (L.texts texts.now) kinds.now row.now }
    ensures { OnOk result (WritesText
        (record_of (values_of (L.texts texts.now) kinds.now row.now)) writer.old writer.new) }
{
    for (place, kind) in kinds.iter().enumerate() {
        write_value(writer, texts, *kind, row[place])?;
    }
    end_record(writer)
}

// The words of rows, one row after the other.
fn gather(rows: &[SortedRow<'_>], words: &mut Vec<i64>) -> Result<(), AllocError>
    ensures { OnOk result (words.new.items ≡ words_of rows.now) }
{
    words.clear();
    for row in rows {
        words.extend_from_slice(row.row())?;
    }
    Ok(())
}

// Writes rows whose words are gathered.
fn write_gathered<L: TextList>(
    writer: &mut TextWriter,
    texts: &L,
    kinds: &[ColumnType],
    rows: &[SortedRow<'_>],
    words: &[i64],
) -> Result<(), AllocError>
    requires allowed { All (AreWordsOf (L.texts texts.now) kinds.now) rows.now }
    requires gathered { words.now ≡ words_of rows.now }
    ensures { OnOk result (WritesText
        (records_of (L.texts texts.now) kinds.now rows.now) writer.old writer.new) }
{
    let mut left = words;
    for row in rows {
        let (first, rest) = left.split_at(row.row().len());
        write_row(writer, texts, kinds, first)?;
        left = rest;
    }
    Ok(())
}

// Writes rows, some at a time. Their words lie all over the table, and gathered first they come from memory together.
fn write_rows<L: TextList>(
    alloc: Global,
    writer: &mut TextWriter,
    texts: &L,
    kinds: &[ColumnType],
    rows: &[SortedRow<'_>],
) -> Result<(), AllocError>
    requires { All (AreWordsOf (L.texts texts.now) kinds.now) rows.now }
    ensures { OnOk result (WritesText
        (records_of (L.texts texts.now) kinds.now rows.now) writer.old writer.new) }
{
    let mut words = Vec::new(alloc);
    let mut from = 0;
    while from < rows.len() {
        let upto = rows.len().min(from + BATCH_ROWS);
        gather(&rows[from..upto], &mut words)?;
        write_gathered(writer, texts, kinds, &rows[from..upto], &words)?;
        from = upto;
    }
    Ok(())
}

// How many bytes a field of a column mostly takes at the most, with what ends it.
fn likely_field(kind: ColumnType) -> usize {
    match kind {
        ColumnType::Integer => LIKELY_NUMBER,
        ColumnType::Varchar(most) => {
            if most < LIKELY_TEXT as u64 {
                most as usize
            } else {
                LIKELY_TEXT
            }
        }
    }
}

// How many bytes so many rows mostly take. Memory that is taken before it is needed grows less often, and what isn't written
// to is never touched.
fn likely_bytes(kinds: &[ColumnType], rows: usize) -> usize {
    let mut fields = 0usize;
    for kind in kinds {
        fields = fields.saturating_add(likely_field(*kind));
    }
    rows.saturating_mul(fields).min(MOST_RESERVED)
}

/// The text of a header and of these rows as they stand.
pub(crate) fn text_in_turn<L: TextList>(
    alloc: Global,
    texts: &L,
    kinds: &[ColumnType],
    names: &[Text],
    rows: &[SortedRow<'_>],
) -> Result<Vec<u8>, AllocError>
    requires { All (AreWordsOf (L.texts texts.now) kinds.now) rows.now }
    ensures { IfOk result
        (λ text. text.items ≡ text_in_turn (L.texts texts.now) kinds.now names.now rows.now) }
{
    let likely = likely_bytes(kinds, rows.len());
    let mut writer = Writer::from_writer(Vec::with_capacity(alloc, likely)?);
    write_header(&mut writer, names)?;
    write_rows(alloc, &mut writer, texts, kinds, rows)?;
    match writer.into_inner() {
        Ok(text) => Ok(text),
        Err(_) => Err(AllocError),
    }
}
