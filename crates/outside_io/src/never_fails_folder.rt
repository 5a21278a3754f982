// A folder in memory that never fails. Its files are known; a write that finds no memory changes nothing.
ghost use Rattle.std.specs.Prelude.{◌≡◌, OnOk, OnErr, IfErr, IsErrOf, option_map};
ghost use Rattle.std.specs.FinMap as finite;
ghost use Rattle.outside_io.specs.Files.{IsReadAnswer, KeepsFileLimit, OnlyReads};
ghost use Rattle.outside_io.specs.Files.{OnlyWrites, held_file, with_file};
ghost use Rattle.outside_io.specs.Memory.{never_fails_state};

use crate::folder_counts::FolderCounts;
use crate::held_files::{lend_file, put_file, read_file, write_file};
use crate::{FileFault, Folder};
use std::alloc::{AllocError, Global};
use std::collections::BTreeMap;
use std::marker::Model;

/// A folder in memory whose calls fail only if memory runs out.
#[derive(Drop)]
pub struct NeverFailsFolder {
    alloc: Global,
    files: BTreeMap<Vec<u8>, Vec<u8>>,
    counts: FolderCounts,
}

impl Model for NeverFailsFolder {
    ghost use Rattle.outside_io.specs.Memory.{NeverFailsFolderState, named_files};
    ghost use Rattle.outside_io.specs.Codes.{files_code};
    ghost use Rattle.std.specs.Coded.{codes};

    ghost Value = { NeverFailsFolderState };

    ghost coded = { Prim.hlevel (codes, files_code) };

    ghost view = { λ f. record { files = named_files f.files.entries; misses = f.counts.misses } };
}

impl NeverFailsFolder {
    /// A folder without files.
    pub fn new(alloc: Global) -> NeverFailsFolder
        ensures files { result.files ≡ finite.empty }
        ensures misses { result.misses ≡ 0 }
    {
        NeverFailsFolder {
            alloc,
            files: BTreeMap::new(alloc),
            counts: FolderCounts::new(),
        }
    }

    /// Puts the bytes under the name, in the place of what was there. It has no limit.
    pub fn add(&mut self, name: &str, bytes: &[u8]) -> Result<(), AllocError>
        ensures added { OnOk result (self.new.files ≡ with_file self.old.files name.now bytes.now) }
        ensures kept { OnErr result (self.new.files ≡ self.old.files) }
        ensures misses { self.new.misses ≡ self.old.misses }
    {
        put_file(self.alloc, &mut self.files, name, bytes)
    }

    /// The bytes under the name.
    pub fn get(&self, name: &str) -> Option<&[u8]>
        ensures { option_map (λ bytes. bytes.now) result ≡ held_file self.now.files name.now }
    {
        lend_file(&self.files, name)
    }
}

impl Folder for NeverFailsFolder {
    ghost state = { never_fails_state };

    fn read(&mut self, alloc: Global, name: &str) -> Result<Vec<u8>, FileFault>
        ensures known { IsReadAnswer self.old.files name.now result }
        ensures within { KeepsFileLimit result }
        ensures reads { OnlyReads result (never_fails_state self.old) (never_fails_state self.new) }

        // No call fails.
        ensures never { ¬ (IsErrOf result FileFault.Failed) }
    {
        let outcome = read_file(alloc, &self.files, name);
        self.counts.count_read(&outcome);
        outcome
    }

    fn write(&mut self, name: &str, bytes: &[u8]) -> Result<(), FileFault>
        ensures written { OnOk result (
            self.new.files ≡ with_file self.old.files name.now bytes.now) }
        ensures kept { OnErr result (self.new.files ≡ self.old.files) }
        ensures writes { OnlyWrites result (never_fails_state self.old) (never_fails_state self.new) }

        // No call fails.
        ensures never { IfErr result (λ fault. fault ≡ FileFault.NoMemory) }
    {
        write_file(self.alloc, &mut self.files, name, bytes)
    }
}
