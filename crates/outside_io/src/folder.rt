// Where the files lie: the trait of every folder. It never says what a file's bytes mean.
ghost use Rattle.std.specs.Prelude.{◌≡◌, ◌≤◌, ◌↔◌, ◌⊎◌, IsOk, OnOk, IfErr, IfSome};
ghost use Rattle.std.specs.Prelude.{IsErrOf, option_map};
ghost use Rattle.outside_io.specs.Limits.{max_file_bytes};
ghost use Rattle.outside_io.specs.Files.{FolderState, IsReadAnswer, KeepsFileLimit};
ghost use Rattle.outside_io.specs.Files.{KeepsOthers, OnlyReads, OnlyWrites, with_file};

use crate::FileFault;
use sql_values::MAX_FILE_BYTES;
use std::alloc::Global;

/// Refuses a file that is longer than the limit.
pub(crate) fn check_len(len: u64) -> Result<(), FileFault>
    ensures fits { IsOk result ↔ (len ≤ max_file_bytes) }
    ensures too_long { IfErr result (λ fault. fault ≡ FileFault.TooLong len) }
{
    if len > MAX_FILE_BYTES {
        return Err(FileFault::TooLong { len });
    }
    Ok(())
}

/// A folder of files, each under its name.
pub trait Folder {
    /// What is known of it: its files, where they are known, and how often a read failed, a write
    /// failed, and a file that was to be read wasn't there or was too long. A count ends at
    /// 2^64 - 1.
    ghost state: { Self → FolderState };

    /// Returns the bytes of the named file. Whatever it returns, the folder holds what it held.
    ///
    /// `Absent`: there is no such file. `TooLong`: it has more than 268435456 bytes. `Failed`: the
    /// folder failed. `NoMemory`: out of memory.
    fn read(&mut self, alloc: Global, name: &str) -> Result<Vec<u8>, FileFault>
        ensures known { IfSome (state self.old).files
            (λ files. IsReadAnswer files name.now result) }
        ensures within { KeepsFileLimit result }
        ensures reads { OnlyReads result (state self.old) (state self.new) };

    /// Puts the bytes under the name, in the place of what was there, and leaves the other names
    /// alone. There is no limit.
    ///
    /// `Failed`: the folder failed, and that name may hold anything. `NoMemory`: out of memory, and
    /// the folder holds what it held.
    fn write(&mut self, name: &str, bytes: &[u8]) -> Result<(), FileFault>
        ensures written { OnOk result ((state self.new).files
            ≡ option_map (λ files. with_file files name.now bytes.now) (state self.old).files) }
        ensures others { IsErrOf result FileFault.Failed →
            KeepsOthers name.now (state self.old).files (state self.new).files }
        ensures nothing { IsErrOf result FileFault.NoMemory →
            (state self.new).files ≡ (state self.old).files }
        ensures kinds { IfErr result (λ e. (e ≡ FileFault.Failed) ⊎ (e ≡ FileFault.NoMemory)) }
        ensures writes { OnlyWrites result (state self.old) (state self.new) };
}
