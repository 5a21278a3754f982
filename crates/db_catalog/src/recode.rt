// The words of a batch, once its texts have codes in the dictionary of the database. Nothing here takes memory.
ghost use Rattle.std.specs.Prelude.{◌≡◌, ◌*◌, length, map};
ghost use Rattle.heap_pages.specs.Rows.{cut_rows};
ghost use Rattle.db_catalog.specs.Recoded.{code_at, recoded, recoded_row};

use sql_values::{ColumnDef, ColumnType};

// The new code of an old one. NULL's word is none.
fn new_code(codes: &[i64], word: i64) -> i64
    ensures { result ≡ code_at codes.now word }
{
    match usize::try_from(word) {
        Ok(place) => codes.get(place).copied().unwrap_or(word),
        Err(_) => word,
    }
}

// Gives a word its new code, if it is one of a text.
fn recode_word(word: &mut i64, kind: ColumnType, codes: &[i64])
    ensures { word.new ≡ recoded codes.now kind word.old }
{
    if let ColumnType::Varchar(_) = kind {
        *word = new_code(codes, *word);
    }
}

// Gives the texts of a row their new codes.
fn recode_row(row: &mut [i64], columns: &[ColumnDef], codes: &[i64])
    requires { length row.old ≡ length columns.now }
    ensures { row.new ≡ recoded_row codes.now columns.now row.old }
{
    for i in 0..columns.len() {
        recode_word(&mut row[i], columns[i].kind, codes);
    }
}

// Gives the texts of all rows their new codes.
pub(crate) fn recode(words: &mut [i64], columns: &[ColumnDef], codes: &[i64], rows: usize)
    requires { length words.old ≡ rows * length columns.now }
    ensures { cut_rows (length columns.now) rows words.new
        ≡ map (recoded_row codes.now columns.now) (cut_rows (length columns.now) rows words.old) }
{
    let width = columns.len();
    for i in 0..rows {
        recode_row(&mut words[i * width..i * width + width], columns, codes);
    }
}
