// The folder of the working directory's files. It relies on the system, of whose files nothing is
// known. It looks at regular files alone, never where a name leads out, and it never reads more of
// a file than the limit and one byte.
ghost use Rattle.std.specs.Prelude.{◌≡◌, ◌⊎◌, [], None, IfOk, IfErr, IfSome, OnOk, IsErrOf};
ghost use Rattle.std.specs.Prelude.{option_map};
ghost use Rattle.outside_io.specs.Files.{IsReadAnswer, KeepsFileLimit, KeepsOthers};
ghost use Rattle.outside_io.specs.Files.{OnlyReads, OnlyWrites, with_file};
ghost use Rattle.outside_io.specs.Names.{IsInside};

use crate::filled::Moved;
use crate::folder::check_len;
use crate::folder_counts::FolderCounts;
use crate::name::is_inside;
use crate::reader_source::read_all;
use crate::regular::check_regular;
use crate::replace::replace_file;
use crate::{FileFault, Folder, MAX_FILE_BYTES};
use std::alloc::Global;
use std::fs;
use std::fs::OpenFile;
use std::io::Read;
use std::marker::Model;
use std::rt::Files;

/// The folder of a directory's files: a name is looked up where the program runs.
///
/// A name that leads out of the directory is a failure: one that begins with '/', that has the
/// component '..' between its slashes, or that has a byte 0. So is what is no regular file. A link
/// in the directory is followed, wherever it leads.
///
/// A write replaces nothing but a bouquet's file or an empty one; where another file has the name,
/// it is a failure.
#[derive(Drop)]
pub struct DirFolder<'a, R: Files + Alloc> {
    rt: &'a R,
    process: u32,
    counts: FolderCounts,
}

impl<'a, R: Files + Alloc> Model for DirFolder<'a, R> {
    ghost use Rattle.std.specs.Prelude.{None};
    ghost use Rattle.outside_io.specs.Files.{FolderState};
    ghost use Rattle.outside_io.specs.Codes.{files_code};
    ghost use Rattle.std.specs.Coded.{codes};

    ghost Value = { FolderState };

    ghost coded = { Prim.hlevel (codes, files_code) };

    ghost view = { λ f. record {
      files = None;
      read_faults = f.counts.read_faults;
      write_faults = f.counts.write_faults;
      misses = f.counts.misses;
    } };
}

// The bytes of an opened file. Since its name was looked at another file may have taken its place,
// so it is asked itself whether it is a regular one. Its length is asked first, so that a file past
// the limit isn't read. A file may have more bytes than the system says, so up to one past the
// limit are read.
fn read_whole<F: OpenFile + Read + Drop>(alloc: Global, file: F) -> Result<Vec<u8>, FileFault>
    ensures within { KeepsFileLimit result }
    ensures whole { IfOk result (λ bytes. IfSome (F.remaining file) (λ held. bytes.items ≡ held)) }
{
    let found = file.metadata()?;
    check_regular(&found)?;
    let len = found.len();
    check_len(len)?;
    let bytes = read_all(alloc, file.take(MAX_FILE_BYTES + 1), len + 1)?;
    check_len(bytes.len() as u64)?;
    Ok(bytes)
}

// Only a regular file is opened: opening a pipe would wait for its other end.
fn read_named<R: Files>(files: &R, alloc: Global, name: &str) -> Result<Vec<u8>, FileFault>
    ensures within { KeepsFileLimit result }
    ensures inside { IfOk result (λ _. IsInside name.now) }
    ensures outside { ¬ (IsInside name.now) → IsErrOf result FileFault.Failed }
{
    if !is_inside(name) {
        return Err(FileFault::Failed);
    }
    check_regular(&fs::metadata(files, name)?)?;
    read_whole(alloc, fs::open(files, name)?)
}

fn write_named<R: Files + Alloc>(
    rt: &R,
    process: u32,
    name: &str,
    bytes: &[u8],
) -> Result<Moved, FileFault>
    ensures kinds { IfErr result (λ e. (e ≡ FileFault.Failed) ⊎ (e ≡ FileFault.NoMemory)) }
    ensures outside { ¬ (IsInside name.now) → IsErrOf result FileFault.Failed }
    ensures no_name { name.now ≡ [] → IsErrOf result FileFault.Failed }
{
    if name.is_empty() || !is_inside(name) {
        return Err(FileFault::Failed);
    }
    replace_file(rt, process, name, bytes)
}

impl<'a, R: Files + Alloc> DirFolder<'a, R> {
    /// The files of the working directory. The number of the process is part of the names of the
    /// files in the making, so that those of two processes differ.
    pub fn new(rt: &'a R, process: u32) -> DirFolder<'a, R>
        ensures { result
            ≡ record { files = None; read_faults = 0; write_faults = 0; misses = 0 } }
    {
        DirFolder {
            rt,
            process,
            counts: FolderCounts::new(),
        }
    }
}

impl<'a, R: Files + Alloc> Folder for DirFolder<'a, R> {
    ghost state = { λ f. f };

    fn read(&mut self, alloc: Global, name: &str) -> Result<Vec<u8>, FileFault>
        ensures known { IfSome self.old.files (λ files. IsReadAnswer files name.now result) }
        ensures within { KeepsFileLimit result }
        ensures reads { OnlyReads result self.old self.new }

        // No name leads out.
        ensures outside { ¬ (IsInside name.now) → IsErrOf result FileFault.Failed }
    {
        let outcome = read_named(self.rt, alloc, name);
        self.counts.count_read(&outcome);
        outcome
    }

    /// The bytes are put into a new file, which then takes the place of the old one, so that a write
    /// which fails, or is killed, leaves that whole. The old one has to be empty, or to begin as a
    /// bouquet's file does.
    fn write(&mut self, name: &str, bytes: &[u8]) -> Result<(), FileFault>
        ensures written { OnOk result (self.new.files
            ≡ option_map (λ files. with_file files name.now bytes.now) self.old.files) }
        ensures others { IsErrOf result FileFault.Failed →
            KeepsOthers name.now self.old.files self.new.files }
        ensures nothing { IsErrOf result FileFault.NoMemory → self.new.files ≡ self.old.files }
        ensures kinds { IfErr result (λ e. (e ≡ FileFault.Failed) ⊎ (e ≡ FileFault.NoMemory)) }
        ensures writes { OnlyWrites result self.old self.new }

        // No name leads out, and there has to be one.
        ensures outside { ¬ (IsInside name.now) → IsErrOf result FileFault.Failed }
        ensures no_name { name.now ≡ [] → IsErrOf result FileFault.Failed }
    {
        let outcome = match write_named(self.rt, self.process, name, bytes) {
            Ok(_moved) => Ok(()),
            Err(fault) => Err(fault),
        };
        self.counts.count_write(&outcome);
        outcome
    }
}
