// A folder in memory, whose files are known. It fails at the calls whose numbers it was given, and
// never at another; one that fails changes nothing.
ghost use Rattle.std.specs.Prelude.{◌≡◌, ◌⊎◌, ◌↔◌, OnOk, OnErr, IfErr, IsErrOf};
ghost use Rattle.std.specs.Prelude.{IsTrue, option_map};
ghost use Rattle.std.specs.FinMap as finite;
ghost use Rattle.outside_io.specs.Files.{IsReadAnswer, KeepsFileLimit, OnlyReads};
ghost use Rattle.outside_io.specs.Files.{OnlyWrites, held_file, with_file};
ghost use Rattle.outside_io.specs.Calls.{no_calls, fails_next, after_call};
ghost use Rattle.outside_io.specs.Memory.{named_files, folder_state_of};

use crate::failing::FailingCalls;
use crate::folder_counts::FolderCounts;
use crate::held_files::{lend_file, put_file, read_file, write_file};
use crate::{FileFault, Folder};
use std::alloc::{AllocError, Global};
use std::collections::BTreeMap;
use std::marker::Model;

/// A folder in memory, whose calls fail by their numbers.
#[derive(Drop)]
pub struct MemoryFolder {
    alloc: Global,
    files: BTreeMap<Vec<u8>, Vec<u8>>,
    calls: FailingCalls,
    counts: FolderCounts,
}

impl Model for MemoryFolder {
    ghost use Rattle.outside_io.specs.Memory.{MemoryFolderState, named_files};
    ghost use Rattle.outside_io.specs.Codes.{files_code};
    ghost use Rattle.std.specs.Coded.{codes};

    ghost Value = { MemoryFolderState };

    ghost coded = { Prim.hlevel (codes, files_code) };

    ghost view = { λ f. record {
      files = named_files f.files.entries;
      calls = f.calls;
      read_faults = f.counts.read_faults;
      write_faults = f.counts.write_faults;
      misses = f.counts.misses;
    } };
}

impl MemoryFolder {
    /// A folder without files. `fails` has the numbers, from 1, of the calls that are to fail;
    /// reads and writes are counted together.
    pub fn new(alloc: Global, fails: Vec<u64>) -> MemoryFolder
        ensures files { result.files ≡ finite.empty }
        ensures calls { result.calls ≡ no_calls fails.items }
        ensures counts { result.read_faults ≡ 0 × result.write_faults ≡ 0 × result.misses ≡ 0 }
    {
        MemoryFolder {
            alloc,
            files: BTreeMap::new(alloc),
            calls: FailingCalls::new(fails),
            counts: FolderCounts::new(),
        }
    }

    /// Puts the bytes under the name, in the place of what was there. This is none of the counted
    /// calls, and it has no limit.
    pub fn add(&mut self, name: &str, bytes: &[u8]) -> Result<(), AllocError>
        ensures added { OnOk result (self.new.files ≡ with_file self.old.files name.now bytes.now) }
        ensures kept { OnErr result (self.new.files ≡ self.old.files) }
        ensures calls { self.new.calls ≡ self.old.calls }
        ensures counts { self.new.read_faults ≡ self.old.read_faults
            × self.new.write_faults ≡ self.old.write_faults
            × self.new.misses ≡ self.old.misses }
    {
        put_file(self.alloc, &mut self.files, name, bytes)
    }

    /// The bytes under the name. This is none of the counted calls.
    pub fn get(&self, name: &str) -> Option<&[u8]>
        ensures { option_map (λ bytes. bytes.now) result ≡ held_file self.now.files name.now }
    {
        lend_file(&self.files, name)
    }
}

impl Folder for MemoryFolder {
    ghost state = { folder_state_of };

    fn read(&mut self, alloc: Global, name: &str) -> Result<Vec<u8>, FileFault>
        ensures known { IsReadAnswer self.old.files name.now result }
        ensures within { KeepsFileLimit result }
        ensures reads { OnlyReads result (folder_state_of self.old) (folder_state_of self.new) }

        // The calls that are to fail do, and no others.
        ensures fails { IsErrOf result FileFault.Failed ↔ IsTrue (fails_next self.old.calls) }
        ensures counted { self.new.calls ≡ after_call self.old.calls }
    {
        let outcome = if self.calls.next_fails() {
            Err(FileFault::Failed)
        } else {
            read_file(alloc, &self.files, name)
        };
        self.counts.count_read(&outcome);
        outcome
    }

    fn write(&mut self, name: &str, bytes: &[u8]) -> Result<(), FileFault>
        ensures written { OnOk result (
            self.new.files ≡ with_file self.old.files name.now bytes.now) }
        ensures kept { OnErr result (self.new.files ≡ self.old.files) }
        ensures kinds { IfErr result (λ e. (e ≡ FileFault.Failed) ⊎ (e ≡ FileFault.NoMemory)) }
        ensures writes { OnlyWrites result (folder_state_of self.old) (folder_state_of self.new) }

        // The calls that are to fail do, and no others.
        ensures fails { IsErrOf result FileFault.Failed ↔ IsTrue (fails_next self.old.calls) }
        ensures counted { self.new.calls ≡ after_call self.old.calls }
    {
        let outcome = if self.calls.next_fails() {
            Err(FileFault::Failed)
        } else {
            write_file(self.alloc, &mut self.files, name, bytes)
        };
        self.counts.count_write(&outcome);
        outcome
    }
}
