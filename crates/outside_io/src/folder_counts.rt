// The three counts of a folder. The implementations here hand it what each call returns, and
// nothing else moves a count.
ghost use Rattle.std.specs.Prelude.{◌≡◌, IsErrOf, IsErrAnd};
ghost use Rattle.outside_io.specs.Count.{CountsEach};
ghost use Rattle.outside_io.specs.Files.{IsMiss};

use crate::FileFault;

/// How often a read failed, how often a write failed, and how often a file that was to be read
/// wasn't there or was too long.
#[derive(Drop)]
pub(crate) struct FolderCounts {
    pub(crate) read_faults: u64,
    pub(crate) write_faults: u64,
    pub(crate) misses: u64,
}

impl FolderCounts {
    pub(crate) fn new() -> FolderCounts
        ensures { result.read_faults ≡ 0 × result.write_faults ≡ 0 × result.misses ≡ 0 }
    {
        FolderCounts {
            read_faults: 0,
            write_faults: 0,
            misses: 0,
        }
    }

    /// Counts what a read returns.
    pub(crate) fn count_read(&mut self, outcome: &Result<Vec<u8>, FileFault>)
        ensures read_faults { CountsEach (IsErrOf outcome.now FileFault.Failed)
            self.old.read_faults self.new.read_faults }
        ensures misses { CountsEach (IsErrAnd outcome.now IsMiss) self.old.misses self.new.misses }
        ensures write_faults { self.new.write_faults ≡ self.old.write_faults }
    {
        match outcome {
            Err(FileFault::Failed) => self.read_faults = self.read_faults.saturating_add(1),
            Err(FileFault::Absent | FileFault::TooLong { .. }) => {
                self.misses = self.misses.saturating_add(1);
            }
            Ok(_) | Err(FileFault::NoMemory) => {}
        }
    }

    /// Counts what a write returns.
    pub(crate) fn count_write(&mut self, outcome: &Result<(), FileFault>)
        ensures write_faults { CountsEach (IsErrOf outcome.now FileFault.Failed)
            self.old.write_faults self.new.write_faults }
        ensures read_faults { self.new.read_faults ≡ self.old.read_faults }
        ensures misses { self.new.misses ≡ self.old.misses }
    {
        if let Err(FileFault::Failed) = outcome {
            self.write_faults = self.write_faults.saturating_add(1);
        }
    }
}
