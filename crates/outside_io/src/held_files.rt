// The files of a folder in memory, as a tree of bytes by the bytes of their names. Both folders in memory read and write it
// here; nothing here counts or fails unless memory runs out.
ghost use Rattle.std.specs.Prelude.{◌≡◌, OnOk, OnErr, IfErr, IsErrOf, option_map};
ghost use Rattle.outside_io.specs.Files.{IsReadAnswer, KeepsFileLimit, held_file, with_file};
ghost use Rattle.outside_io.specs.Memory.{named_files};

use crate::FileFault;
use crate::folder::check_len;
use std::alloc::{AllocError, Global};
use std::collections::BTreeMap;

/// Puts the bytes under the name.
pub(crate) fn put_file(
    alloc: Global,
    files: &mut BTreeMap<Vec<u8>, Vec<u8>>,
    name: &str,
    bytes: &[u8],
) -> Result<(), AllocError>
    ensures put { OnOk result (named_files files.new.entries
        ≡ with_file (named_files files.old.entries) name.now bytes.now) }
    ensures kept { OnErr result (named_files files.new.entries ≡ named_files files.old.entries) }
{
    let key = Vec::from_slice(alloc, name.as_bytes())?;
    let value = Vec::from_slice(alloc, bytes)?;
    files.insert(key, value)?;
    Ok(())
}

/// Lends the bytes under the name.
pub(crate) fn lend_file<'a>(files: &'a BTreeMap<Vec<u8>, Vec<u8>>, name: &str) -> Option<&'a [u8]>
    ensures { option_map (λ bytes. bytes.now) result
        ≡ held_file (named_files files.now.entries) name.now }
{
    match files.get(name.as_bytes()) {
        Some(bytes) => Some(bytes.as_slice()),
        None => None,
    }
}

/// Puts the bytes under the name, in a write.
pub(crate) fn write_file(
    alloc: Global,
    files: &mut BTreeMap<Vec<u8>, Vec<u8>>,
    name: &str,
    bytes: &[u8],
) -> Result<(), FileFault>
    ensures put { OnOk result (named_files files.new.entries
        ≡ with_file (named_files files.old.entries) name.now bytes.now) }
    ensures kept { OnErr result (named_files files.new.entries ≡ named_files files.old.entries) }
    ensures kinds { IfErr result (λ e. e ≡ FileFault.NoMemory) }
{
    put_file(alloc, files, name, bytes)?;
    Ok(())
}

/// A copy of the file's bytes, or why a read doesn't give them.
pub(crate) fn read_file(
    alloc: Global,
    files: &BTreeMap<Vec<u8>, Vec<u8>>,
    name: &str,
) -> Result<Vec<u8>, FileFault>
    ensures known { IsReadAnswer (named_files files.now.entries) name.now result }
    ensures within { KeepsFileLimit result }
    ensures failed { IsErrOf result FileFault.Failed → ⊥ }
{
    let Some(bytes) = lend_file(files, name) else {
        return Err(FileFault::Absent);
    };
    check_len(bytes.len() as u64)?;
    Ok(Vec::from_slice(alloc, bytes)?)
}
