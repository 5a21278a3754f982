// Files of which one thing goes wrong. All else is done by the files that they stand over.
use std::alloc::Allocator;
use std::fs::{Metadata, OpenFile, OpenOptions, Permissions};
use std::io;
use std::io::{ErrorKind, Read, Seek, SeekFrom, Write};
use std::path::PathBuf;
use std::rt::Files;

/// What goes wrong.
#[derive(Clone, Copy, PartialEq, Eq)]
pub(crate) enum Wrong {
    /// Nothing can be read of a file.
    Read,
    /// A write takes the first byte, and the next one fails.
    Write,
    /// The rights of a file can't be set.
    Rights,
    /// What was written doesn't reach the disk.
    Sync,
    /// No file can be moved.
    Rename,
    /// Whatever is looked at by its name is said to be a regular file.
    Look,
    /// It can't be told whether a link stands under a name.
    Link,
    /// The system is out of memory where a file is opened.
    Open,
}

fn failure() -> io::Error {
    io::Error::from(ErrorKind::StorageFull)
}

/// Files of which one thing goes wrong. Where that is the end of the process, nothing is removed behind it, so the files
/// are left as by one that was killed there.
#[derive(Drop)]
pub(crate) struct FailingFiles<'a, R: Files> {
    pub(crate) files: &'a R,
    pub(crate) wrong: Wrong,
    pub(crate) killed: bool,
}

/// A file of these.
#[derive(Drop)]
pub(crate) struct FailingFile<F: Drop> {
    file: F,
    wrong: Wrong,
    written: bool,
}

impl<F: Drop> FailingFile<F> {
    fn check(&self, wrong: Wrong) -> io::Result<()> {
        if self.wrong == wrong {
            return Err(failure());
        }
        Ok(())
    }
}

impl<F: Read + Drop> Read for FailingFile<F> {
    fn read(&mut self, buf: &mut [u8]) -> io::Result<usize> {
        self.check(Wrong::Read)?;
        self.file.read(buf)
    }
}

impl<F: Write + Drop> Write for FailingFile<F> {
    fn write(&mut self, buf: &[u8]) -> io::Result<usize> {
        if self.wrong != Wrong::Write {
            return self.file.write(buf);
        }
        if self.written || buf.is_empty() {
            return Err(failure());
        }
        self.written = true;
        self.file.write(&buf[..1])
    }

    fn flush(&mut self) -> io::Result<()> {
        self.file.flush()
    }
}

impl<F: Seek + Drop> Seek for FailingFile<F> {
    fn seek(&mut self, to: SeekFrom) -> io::Result<u64> {
        self.file.seek(to)
    }
}

impl<F: OpenFile + Drop> OpenFile for FailingFile<F> {
    fn metadata(&self) -> io::Result<Metadata> {
        self.file.metadata()
    }

    fn set_len(&self, size: u64) -> io::Result<()> {
        self.file.set_len(size)
    }

    fn sync_all(&self) -> io::Result<()> {
        self.check(Wrong::Sync)?;
        self.file.sync_all()
    }

    fn sync_data(&self) -> io::Result<()> {
        self.check(Wrong::Sync)?;
        self.file.sync_data()
    }

    fn set_permissions(&self, rights: Permissions) -> io::Result<()> {
        self.check(Wrong::Rights)?;
        self.file.set_permissions(rights)
    }
}

impl<'a, R: Files> Files for FailingFiles<'a, R> {
    type File = FailingFile<R::File>;

    type Dir = R::Dir;

    fn open_file(&self, how: &OpenOptions, path: &str) -> io::Result<FailingFile<R::File>> {
        if self.wrong == Wrong::Open {
            return Err(io::Error::from(ErrorKind::OutOfMemory));
        }
        Ok(FailingFile {
            file: self.files.open_file(how, path)?,
            wrong: self.wrong,
            written: false,
        })
    }

    fn open_dir(&self, path: &str) -> io::Result<R::Dir> {
        self.files.open_dir(path)
    }

    fn metadata(&self, path: &str) -> io::Result<Metadata> {
        if self.wrong == Wrong::Look {
            return Ok(Metadata::of_file(0));
        }
        self.files.metadata(path)
    }

    fn symlink_metadata(&self, path: &str) -> io::Result<Metadata> {
        match self.wrong {
            Wrong::Look => Ok(Metadata::of_file(0)),
            Wrong::Link => Err(failure()),
            _ => self.files.symlink_metadata(path),
        }
    }

    fn copy(&self, from: &str, to: &str) -> io::Result<u64> {
        self.files.copy(from, to)
    }

    fn rename(&self, from: &str, to: &str) -> io::Result<()> {
        if self.wrong == Wrong::Rename {
            return Err(failure());
        }
        self.files.rename(from, to)
    }

    fn remove_file(&self, path: &str) -> io::Result<()> {
        if self.killed {
            return Err(failure());
        }
        self.files.remove_file(path)
    }

    fn create_dir(&self, path: &str) -> io::Result<()> {
        self.files.create_dir(path)
    }

    fn remove_dir(&self, path: &str) -> io::Result<()> {
        self.files.remove_dir(path)
    }

    fn remove_dir_all<B: Allocator>(&self, alloc: B, path: &str) -> io::Result<()> {
        self.files.remove_dir_all(alloc, path)
    }

    fn canonicalize<B: Allocator>(&self, alloc: B, path: &str) -> io::Result<PathBuf<B>> {
        self.files.canonicalize(alloc, path)
    }
}
