// The header of a file.
ghost use Rattle.std.specs.Prelude.{◌≡◌, ◌<◌, ◌^◌, length};
ghost use Rattle.csv.specs.Records.{fields_of};
ghost use Rattle.csv_load.specs.Header.{names_of, agreeing, header_fault};
ghost use Rattle.csv_load.specs.Fault.{GivesFault};

use crate::fault::LoadFault;
use csv::ByteRecord;
use sql_values::{ColumnDef, is_word};

// How many fields, from the left, are the names of the columns at their places.
#[tactic(auto, using(crate::proofs::Headers::of_headers))]
fn agreeing(entry: &ByteRecord, columns: &[ColumnDef]) -> usize
    ensures { result ≡ agreeing (names_of columns.now) (fields_of entry.now) }
{
    for (i, column) in columns.iter().enumerate() {
        let Some(field) = entry.get(i) else {
            return i;
        };
        if !is_word(field, column.name.bytes()) {
            return i;
        }
    }
    columns.len()
}

/// Whether an entry is the header of a table with these columns.
#[tactic(auto, using(crate::proofs::Headers::of_lengths))]
pub(crate) fn check_header(entry: &ByteRecord, columns: &[ColumnDef]) -> Result<(), LoadFault>
    requires few { length columns.now < 2 ^ 31 }
    ensures fault { GivesFault (header_fault columns.now (fields_of entry.now)) result }
{
    let agreeing = agreeing(entry, columns);
    if agreeing == columns.len() && agreeing == entry.len() {
        return Ok(());
    }
    Err(LoadFault::Header {
        field: agreeing as u32 + 1,
    })
}
