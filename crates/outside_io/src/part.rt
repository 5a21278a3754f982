// Files in the making. Each lies beside the place that it is to take, under a name that no other
// file has. Such names can't run out, and what a killed run left under one stays where it is.
ghost use Rattle.std.specs.Prelude.{◌≡◌, ◌↔◌, ◌-◌, IsTrue, drop, length, take};
ghost use Rattle.outside_io.specs.Names.{IsPartName};

use std::alloc::AllocError;
use std::fs::File;
use std::io;
use std::io::ErrorKind;
use std::path::{Path, PathBuf};
use std::rt::Files;

// The names of files in the making: `bouquet-PROCESS-COUNT.part`.
const START: &str = "bouquet-";

const END: &str = ".part";

// Whether a text begins so.
fn begins_so(text: &str, start: &str) -> bool
    ensures { IsTrue result ↔ (take (length start.now) text.now ≡ start.now) }
{
    text.as_bytes().starts_with(start.as_bytes())
}

// Whether a text ends so.
fn ends_so(text: &str, end: &str) -> bool
    ensures { IsTrue result ↔ (drop (length text.now - length end.now) text.now ≡ end.now) }
{
    text.as_bytes().ends_with(end.as_bytes())
}

/// Whether the last component of a name is one that files in the making have.
pub(crate) fn is_part_name(name: &str) -> bool
    ensures { IsTrue result ↔ IsPartName name.now }
{
    match Path::new(name).file_name() {
        Some(last) => begins_so(last, START) && ends_so(last, END),
        None => false,
    }
}

// The name beside the place that has this count.
fn part_path<R: Alloc>(
    rt: &R,
    process: u32,
    count: u64,
    place: &str,
) -> Result<PathBuf<R::A>, AllocError> {
    let name = format!(in rt.alloc(); "{START}{process}-{count}{END}")?;
    Path::new(place).with_file_name(rt.alloc(), &name)
}

/// A new file beside the place, and its name: the first of this process's with which nothing is
/// there.
pub(crate) fn new_beside<R: Files + Alloc>(
    rt: &R,
    process: u32,
    place: &str,
) -> io::Result<(R::File, PathBuf<R::A>)> {
    for count in 1..u64::MAX {
        let path = part_path(rt, process, count, place)?;
        match File::create_new(rt, path.as_str()) {
            Ok(file) => return Ok((file, path)),
            Err(error) if error.kind() == ErrorKind::AlreadyExists => {}
            Err(error) => return Err(error),
        }
    }
    Err(io::Error::from(ErrorKind::AlreadyExists))
}
