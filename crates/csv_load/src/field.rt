// The value of a field, into the next column of a batch.
ghost use Rattle.std.specs.Prelude.{◌≡◌, length, Some, OnOk, slice_get};
ghost use Rattle.db_catalog.specs.Batch.{with_value};
ghost use Rattle.csv_load.specs.Field.{field_fault, field_value};
ghost use Rattle.csv_load.specs.Fault.{GivesFault};

use crate::fault::LoadFault;
use crate::integer::integer_of;
use crate::place::Place;
use crate::text::check_text;
use db_catalog::Batch;
use sql_values::{ColumnDef, ColumnType};

/// Puts the value of a field into the batch's next column, which is this one.
#[tactic(auto, using(crate::proofs::Fields::of_fields))]
pub(crate) fn put_field(
    batch: &mut Batch,
    column: &ColumnDef,
    field: &[u8],
    place: Place,
) -> Result<(), LoadFault>
    requires next { slice_get batch.old.columns (length batch.old.row) ≡ Some column.now }
    ensures put { OnOk result
        (batch.new ≡ with_value batch.old (field_value column.now field.now)) }
    ensures fault { GivesFault (field_fault place column.now field.now) result }
{
    if field.is_empty() {
        if column.not_null {
            let Place { entry, field } = place;
            return Err(LoadFault::NullInNotNull { entry, field });
        }
        batch.put_null();
        return Ok(());
    }
    match column.kind {
        ColumnType::Integer => batch.put_int(integer_of(field, place)?),
        ColumnType::Varchar(most) => {
            check_text(field, most, place)?;
            batch.put_text(field)?;
        }
    }
    Ok(())
}
