// From which word to which the words of a column lie.
ghost use Rattle.std.specs.Prelude.{◌≡◌, ◌≤ℤ◌, All, fold};
ghost use Rattle.std.specs.Int.{int_max};
ghost use Rattle.narrow_columns.specs.Codes.{IsWithin};
ghost use Rattle.narrow_columns.specs.Rows.{column_words, IsInRows, least_word};

use crate::rows::ColumnPlace;
use sql_values::NULL_WORD;

/// The least and the greatest of some words, NULL left out. Where there is none, the least is the greater.
#[derive(Clone, Copy)]
pub struct Extent {
    /// The least word.
    pub least: i64,
    /// The greatest word.
    pub greatest: i64,
}

/// The extent of no words.
pub const NO_WORDS: Extent = Extent {
    least: i64::MAX,
    greatest: NULL_WORD,
};

/// The extent of the words that were seen so far and those of a column of some rows more.
pub fn extent_of(so_far: Extent, rows: &[i64], at: ColumnPlace) -> Extent
    requires { IsInRows at rows.now }
    ensures within { All (IsWithin result.least result.greatest) (column_words at rows.now) }
    ensures least { result.least ≡ fold least_word so_far.least (column_words at rows.now) }
    ensures greatest { result.greatest ≡ fold int_max so_far.greatest (column_words at rows.now) }
    ensures wider { (result.least ≤ℤ so_far.least) × (so_far.greatest ≤ℤ result.greatest) }
{
    let mut extent = so_far;
    for row in 0..at.count {
        extent = with_word(extent, rows[row * at.width + at.place]);
    }
    extent
}

// The extent of one word more.
fn with_word(so_far: Extent, word: i64) -> Extent
    ensures least { result.least ≡ least_word so_far.least word }
    ensures greatest { result.greatest ≡ int_max so_far.greatest word }
    ensures within { IsWithin result.least result.greatest word }
    ensures wider { (result.least ≤ℤ so_far.least) × (so_far.greatest ≤ℤ result.greatest) }
{
    let known = if word == NULL_WORD {
        so_far.least
    } else {
        word
    };
    Extent {
        least: so_far.least.min(known),
        greatest: so_far.greatest.max(word),
    }
}
