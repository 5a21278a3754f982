// The INTEGER that a text is. Nothing here looks at a column.
ghost use Rattle.std.specs.Prelude.{◌≡◌, ◌≢◌, ◌≤◌, ◌<◌, length, true, false, IfOk, IfSome, IfNone, OnSome, is_some};
ghost use Rattle.std.specs.Str.Parse.{digits_value, signed_digits_value, without_leading_sign, starts_with_minus};
ghost use Rattle.sql_values.specs.Words.{null_word};
ghost use Rattle.sql_values.specs.declared.column.ColumnType.TheVariants.{Integer};
ghost use Rattle.csv_load.specs.Field.{greatest_integer, are_digits, text_fault};
ghost use Rattle.csv_load.specs.Fault.{GivesFault};

use crate::fault::LoadFault;
use crate::place::Place;
use crate::text::is_utf8;

const GREATEST: u64 = 9223372036854775807;

// A number past the greatest INTEGER, which stands for all of them.
const PAST: u64 = GREATEST + 1;

// The number of digits, or one past the greatest INTEGER where it is past that.
#[tactic(auto, using(crate::proofs::Digits::of_digits))]
fn magnitude_of(digits: &[u8]) -> Option<u64>
    ensures digits { is_some result ≡ are_digits digits.now }
    ensures number { IfSome result (λ n. n ≤ greatest_integer → digits_value 10 digits.now ≡ n) }
    ensures past { IfSome result (λ n.
        greatest_integer < n → greatest_integer < digits_value 10 digits.now) }
{
    if digits.is_empty() {
        return None;
    }
    let mut value = 0u64;
    for digit in digits {
        if !digit.is_ascii_digit() {
            return None;
        }
        value = if value > GREATEST / 10 {
            PAST
        } else {
            value * 10 + u64::from(*digit - b'0')
        };
    }
    Some(value)
}

// The digits after a sign, which may be left out.
fn digits_of(text: &[u8]) -> &[u8]
    ensures { result.now ≡ without_leading_sign text.now }
{
    match text {
        [b'-' | b'+', digits @ ..] => digits,
        digits => digits,
    }
}

fn is_negative(text: &[u8]) -> bool
    ensures { result ≡ starts_with_minus text.now }
{
    matches!(text, [b'-', ..])
}

/// The INTEGER that a text at this place is.
#[tactic(auto, using(crate::proofs::Integers::of_integers))]
pub(crate) fn integer_of(text: &[u8], place: Place) -> Result<i64, LoadFault>
    ensures number { IfOk result (λ number. number ≡ signed_digits_value 10 text.now) }
    ensures not_null { IfOk result (λ number. number ≢ null_word) }
    ensures fault { GivesFault (text_fault place Integer text.now) result }
{
    let Place { entry, field } = place;
    let Some(magnitude) = magnitude_of(digits_of(text)) else {
        return Err(if is_utf8(text) {
            LoadFault::NotInteger { entry, field }
        } else {
            LoadFault::NotUtf8 { entry, field }
        });
    };
    if magnitude > GREATEST {
        return Err(LoadFault::OutOfRange { entry, field });
    }
    let magnitude = magnitude as i64;
    Ok(if is_negative(text) {
        -magnitude
    } else {
        magnitude
    })
}
