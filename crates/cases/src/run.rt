// Runs a case in memory, and says what differs.
use crate::case::{Case, File, name_of};
use crate::content::put_lines;
use bouquet_run::Book;
use outside_io::{MemoryFolder, MemorySink, MemorySource};
use shell::{Status, serve};
use std::alloc::{AllocError, Global};
use std::hash::RandomState;

fn put_status(out: &mut String, found: Status, wanted: Status) -> Result<(), AllocError> {
    if found.number() == wanted.number() {
        return Ok(());
    }
    let found = name_of(found);
    let wanted = name_of(wanted);
    writeln!(out, "status {found}, and not {wanted}")
}

// The bytes that were found, and those that were wanted, where these differ.
fn put_text(out: &mut String, about: &str, found: &[u8], wanted: &[u8]) -> Result<(), AllocError> {
    if found == wanted {
        return Ok(());
    }
    writeln!(out, "{about}")?;
    put_lines(out, found)?;
    writeln!(out, "and not")?;
    put_lines(out, wanted)
}

fn put_file(out: &mut String, folder: &MemoryFolder, wanted: &File) -> Result<(), AllocError> {
    let name = wanted.name.as_str();
    match folder.get(name) {
        Some(found) => {
            if found != wanted.bytes.as_slice() {
                writeln!(out, "folder {name}")?;
                put_text(out, "holds", found, &wanted.bytes)?;
            }
            Ok(())
        }
        None => writeln!(out, "folder {name} isn't there"),
    }
}

fn is_told(files: &[File], name: &str) -> bool {
    files.iter().any(|file| file.name.as_str() == name)
}

fn put_folder(out: &mut String, folder: &MemoryFolder, case: &Case) -> Result<(), AllocError> {
    for file in &case.files {
        if !is_told(&case.afterwards, file.name.as_str()) {
            put_file(out, folder, file)?;
        }
    }
    for file in &case.afterwards {
        put_file(out, folder, file)?;
    }
    Ok(())
}

/// What differs from what the case wants: nothing where all is as it wants.
pub(crate) fn differences_of(
    alloc: Global,
    key: RandomState,
    case: &Case,
) -> Result<String, AllocError> {
    let mut source = MemorySource::new(
        Vec::from_slice(alloc, &case.script)?,
        Vec::from_slice(alloc, &case.takes)?,
    );
    let mut folder = MemoryFolder::new(alloc, Vec::from_slice(alloc, &case.reads)?);
    for file in &case.files {
        folder.add(file.name.as_str(), &file.bytes)?;
    }
    let mut sink = MemorySink::new(alloc, Vec::from_slice(alloc, &case.puts)?);
    let mut book = Book::new();
    let status = serve(
        alloc,
        key,
        &case.words,
        &mut source,
        &mut folder,
        &mut sink,
        &mut book,
    );
    let mut out = String::new(alloc);
    put_status(&mut out, status, case.status)?;
    put_text(&mut out, "prints", sink.bytes(), &case.prints)?;
    put_folder(&mut out, &folder, case)?;
    Ok(out)
}
