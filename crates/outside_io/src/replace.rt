// Writing a file by way of a new one, which lies beside it and then takes its place. So a write that
// fails, and a program that ends in the middle of one, leave the old file whole, as far as the
// system moves a name as a whole. It never takes the place of a file that is neither empty nor a
// bouquet's, but for one that another process puts there after the look and before the move.
ghost use Rattle.std.specs.Prelude.{◌≡◌, ◌⊎◌, IfErr, IfOk, IfSome, bit_and, option_map, string_bytes};
ghost use Rattle.std.specs.Fs.{permissions_mode};
ghost use Rattle.outside_io.specs.Names.{IsPartName};
ghost use Rattle.outside_io.specs.Rights.{NeverRuns, read_and_write};

use crate::FileFault;
use crate::filled::{Moved, fill};
use crate::part::{is_part_name, new_beside};
use crate::regular::check_regular;
use crate::signature::{Replaceable, check_replaceable};
use std::fs::{OpenFile, OpenOptions, Permissions};
use std::io::ErrorKind;
use std::os::unix::fs::PermissionsExt;
use std::path::PathBuf;
use std::rt::Files;
use std::{fs, io};

// The bits of a mode that say who may read and write a file. What was written is never to be run.
const RIGHTS: u32 = 0o666;

// A new file under a name of its own, the place that it is to take, and the rights that it is to
// have, where a file stands in that place.
#[derive(Drop)]
struct Part<R: Files + Alloc> {
    file: R::File,
    path: PathBuf<R::A>,
    place: String<R::A>,
    rights: Option<Rights>,
}

// The rights of a file that was looked at, and may be replaced.
#[derive(Drop)]
struct Rights {
    permissions: Permissions,
    checked: Replaceable,
}

// The permissions of rights, if there are some.
fn permissions_of(rights: Option<Rights>) -> Option<Permissions>
    ensures { result ≡ option_map (λ rights. rights.permissions) rights }
{
    match rights {
        Some(rights) => Some(rights.permissions),
        None => None,
    }
}

// Whether a link stands under the name. Where that can't be told, nothing may be put in its place.
fn is_link<R: Files>(files: &R, name: &str) -> io::Result<bool> {
    match fs::symlink_metadata(files, name) {
        Ok(found) => Ok(found.is_symlink()),
        Err(error) if error.kind() == ErrorKind::NotFound => Ok(false),
        Err(error) => Err(error),
    }
}

// The name of what is to be replaced: where a link stands, of what that leads to.
fn place_of<R: Files + Alloc>(rt: &R, name: &str) -> io::Result<String<R::A>> {
    if is_link(rt, name)? {
        return Ok(fs::canonicalize(rt, name)?.into_string());
    }
    Ok(String::from_str(rt.alloc(), name)?)
}

// Some rights without those to run a file.
fn without_running(rights: &Permissions) -> Permissions
    ensures rights { permissions_mode result ≡ bit_and (permissions_mode rights.now) read_and_write }
    ensures never { NeverRuns (permissions_mode result) }
{
    Permissions::from_mode(rights.mode() & RIGHTS)
}

// The rights of a regular file, which has to be one that may be read, written and replaced. They
// are without those to run it.
fn rights_of<R: Files + Alloc>(rt: &R, name: &str) -> io::Result<Rights>
    ensures { IfOk result (λ rights. NeverRuns (permissions_mode rights.permissions)) }
{
    let file = OpenOptions::new().read(true).write(true).open(rt, name)?;
    let found = file.metadata()?;
    check_regular(&found)?;
    let checked = check_replaceable(rt.alloc(), file)?;
    Ok(Rights {
        permissions: without_running(&found.permissions()),
        checked,
    })
}

// The rights of the file that stands in the place, or none where nothing stands there.
fn rights_at<R: Files + Alloc>(rt: &R, place: &str) -> io::Result<Option<Rights>>
    ensures { IfOk result (λ found.
        IfSome found (λ rights. NeverRuns (permissions_mode rights.permissions))) }
{
    match fs::metadata(rt, place) {
        Ok(found) => {
            check_regular(&found)?;
            Ok(Some(rights_of(rt, place)?))
        }
        Err(error) if error.kind() == ErrorKind::NotFound => Ok(None),
        Err(error) => Err(error),
    }
}

// All that is done before a byte is written. Where it fails, no file is there that wasn't before.
fn begin_part<R: Files + Alloc>(rt: &R, process: u32, name: &str) -> io::Result<Part<R>>
    ensures name { IfOk result (λ part. ¬ (IsPartName (string_bytes part.place))) }
    ensures rights { IfOk result (λ part.
        IfSome part.rights (λ rights. NeverRuns (permissions_mode rights.permissions))) }
{
    let place = place_of(rt, name)?;
    if is_part_name(place.as_str()) {
        return Err(io::Error::from(ErrorKind::InvalidInput));
    }
    let rights = rights_at(rt, place.as_str())?;
    let (file, path) = new_beside(rt, process, place.as_str())?;
    Ok(Part {
        file,
        path,
        place,
        rights,
    })
}

// Fills the new file and moves it to its place, or removes it.
fn finish_part<R: Files + Alloc>(rt: &R, part: Part<R>, bytes: &[u8]) -> io::Result<Moved>
    requires name { ¬ (IsPartName (string_bytes part.place)) }
    requires rights { IfSome part.rights (λ rights. NeverRuns (permissions_mode rights.permissions)) }
{
    let Part {
        file,
        path,
        place,
        rights,
    } = part;
    let outcome = match fill(file, permissions_of(rights), bytes) {
        Ok(filled) => filled.move_to(rt, path.as_str(), place.as_str()),
        Err(error) => Err(error),
    };
    if outcome.is_err() {
        let _ = fs::remove_file(rt, path.as_str());
    }
    outcome
}

// What a write returns where the system has an error before a byte is written.
fn fault_before(error: &io::Error) -> FileFault
    ensures { (result ≡ FileFault.Failed) ⊎ (result ≡ FileFault.NoMemory) }
{
    if error.kind() == ErrorKind::OutOfMemory {
        return FileFault::NoMemory;
    }
    FileFault::Failed
}

/// Puts the bytes into the place of the regular file of this name, which has to be empty or a
/// bouquet's, or where nothing stands.
pub(crate) fn replace_file<R: Files + Alloc>(
    rt: &R,
    process: u32,
    name: &str,
    bytes: &[u8],
) -> Result<Moved, FileFault>
    ensures { IfErr result (λ e. (e ≡ FileFault.Failed) ⊎ (e ≡ FileFault.NoMemory)) }
{
    let part = match begin_part(rt, process, name) {
        Ok(part) => part,
        Err(error) => return Err(fault_before(&error)),
    };
    match finish_part(rt, part, bytes) {
        Ok(moved) => Ok(moved),
        Err(_) => Err(FileFault::Failed),
    }
}
