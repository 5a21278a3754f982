// The text that a VARCHAR column may hold. Nothing here looks at a column.
ghost use Rattle.std.specs.Prelude.{◌≡◌};
ghost use Rattle.std.specs.Str.{is_utf8};
ghost use Rattle.sql_values.specs.Stored.{characters};
ghost use Rattle.sql_values.specs.declared.column.ColumnType.TheVariants.{Varchar};
ghost use Rattle.csv_load.specs.Field.{text_fault};
ghost use Rattle.csv_load.specs.Fault.{GivesFault};

use crate::fault::LoadFault;
use crate::place::Place;

/// Whether bytes are UTF-8 (RFC 3629).
#[tactic(auto, using(crate::proofs::Texts::of_utf8))]
pub(crate) fn is_utf8(bytes: &[u8]) -> bool
    ensures { result ≡ is_utf8 bytes.now }
{
    str::from_utf8(bytes).is_ok()
}

// How many characters a text has: a byte of 128 to 191 goes on with one.
fn characters(text: &[u8]) -> usize
    ensures { result ≡ characters text.now }
{
    text.iter()
        .filter(|byte| !(128 <= **byte && **byte <= 191))
        .count()
}

/// Whether a text at this place is UTF-8 of at most so many characters.
#[tactic(auto, using(crate::proofs::Texts::of_lengths), unfolding(crate::specs::Field::text_fault))]
pub(crate) fn check_text(text: &[u8], most: u64, place: Place) -> Result<(), LoadFault>
    ensures fault { GivesFault (text_fault place (Varchar most) text.now) result }
{
    let Place { entry, field } = place;
    if !is_utf8(text) {
        return Err(LoadFault::NotUtf8 { entry, field });
    }
    if text.len() as u64 > most && characters(text) as u64 > most {
        return Err(LoadFault::TooLong { entry, field });
    }
    Ok(())
}
