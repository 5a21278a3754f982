// A file's bytes as entries, one after another, as the csv crate reads them.
ghost use Rattle.std.specs.Prelude.{◌≡◌, [], ◌∷◌, IfOk, OnOk, IfErr, if◌then◌else◌};
ghost use Rattle.csv.specs.Reading.{error_kind};
ghost use Rattle.csv.specs.Records.{fields_of};
ghost use Rattle.csv_load.specs.Load.{entries_of};
ghost use Rattle.csv_load.specs.Entries.{records_left, GivesEntries, MayStop};

use crate::fault::LoadFault;
use csv::{ByteRecord, Error, ErrorKind, Reader, ReaderBuilder};
use std::alloc::Global;
use std::io::Read;

// What stopped the reader. A slice has no faults, though the reader's contract leaves a fault of its source open: so memory
// ran out. An entry of another length never stops it.
fn want_of_memory(error: &Error) -> LoadFault
    requires { MayStop (error_kind error.now) }
    ensures { result ≡ LoadFault.NoMemory }
{
    match error.kind() {
        ErrorKind::Io(_) | ErrorKind::OutOfMemory => LoadFault::NoMemory,
        _ => unreachable!(),
    }
}

/// Reads the next entry, if there is one.
pub(crate) fn next_entry<R: Read>(
    reader: &mut Reader<R>,
    entry: &mut ByteRecord,
) -> Result<bool, LoadFault>
    requires { GivesEntries R.remaining reader.old }
    ensures goes_on { OnOk result (GivesEntries R.remaining reader.new) }
    ensures entry { IfOk result (λ found. records_left R.remaining reader.old
        ≡ (if found then fields_of entry.new ∷ records_left R.remaining reader.new else [])) }
    ensures fault { IfErr result (λ fault. fault ≡ LoadFault.NoMemory) }
{
    match reader.read_byte_record(entry) {
        Ok(found) => Ok(found),
        Err(error) => Err(want_of_memory(&error)),
    }
}

/// A reader of a file's entries, the header among them.
#[tactic(auto, unfolding(crate::specs::Entries::records_left))]
pub(crate) fn reader_of<'a>(alloc: Global, bytes: &'a [u8]) -> Reader<&'a [u8]>
    ensures fresh { GivesEntries ⟦<&'a [u8] as Read>⟧.remaining result }
    ensures entries { records_left ⟦<&'a [u8] as Read>⟧.remaining result
        ≡ entries_of bytes.now }
{
    ReaderBuilder::new()
        .has_headers(false)
        .flexible(true)
        .from_reader(alloc, bytes)
}
