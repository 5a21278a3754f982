//! `bouquet`: a script on standard input, the files of the working directory, answers on standard output.
//! It gathers the arguments and a random number, makes the adapters and an empty book and calls `serve`, whose status is
//! the one that it ends with. From status 2 on a line on standard error says what failed. It never looks at a byte of a
//! script, a file or an answer.
#![tactic(auto)]

ghost use Rattle.std.specs.Prelude.{◌≡◌, ◌≤◌, ◌↔◌, IsSome};
ghost use Rattle.std.specs.Process.{exit_status};
ghost use Rattle.shell.specs.Serve.{exit_number};

use bouquet_run::Book;
use outside_io::{DirFolder, StdSink, StdSource};
use shell::{Status, serve};
use std::alloc::Global;
use std::hash::RandomState;
use std::io::ErrorKind;
use std::process::ExitCode;
use std::{env, io, process};

// The status where the system doesn't give what the program begins with: its arguments, as where one isn't UTF-8, or the
// random number by which it hashes.
const NO_START: u8 = 6;

fn words_of(rt: &HostRuntime, alloc: Global) -> io::Result<Vec<String>> {
    let mut words = Vec::new(alloc);
    for word in env::args(rt)?.skip(1) {
        words.push(word)?;
    }
    Ok(words)
}

fn exit_code(status: Status) -> ExitCode
    ensures { exit_status result ≡ exit_number status }
{
    ExitCode::from(status.number())
}

// What failed, in words, where a run ends with a status from 2 on.
fn failure_of<P: Print>(
    status: Status,
    source: &StdSource,
    sink: &StdSink<'_, P>,
) -> Option<&'static str>
    ensures { IsSome result ↔ (2 ≤ exit_number status) }
{
    match status {
        Status::Done | Status::Refused => None,
        Status::BadWords => Some("the arguments are not a command line"),
        Status::ReadFault if source.has_failed() => Some("standard input could not be read"),
        Status::ReadFault => Some("a file could not be read"),
        Status::WriteFault if sink.has_failed() => Some("standard output could not be written"),
        Status::WriteFault => Some("a file could not be written"),
        Status::NoMemory => Some("out of memory"),
    }
}

// The line for people. Whatever comes of it, the status stays.
fn tell(rt: &HostRuntime, failure: &str, number: u8) {
    let _ = eprintln!(rt; "bouquet: {failure} (docs/ERRORS.md#status-{number})");
}

// What the program ends with where it can't begin.
fn not_begun(rt: &HostRuntime, failure: &str, error: &io::Error) -> ExitCode {
    if error.kind() == ErrorKind::OutOfMemory {
        tell(rt, "out of memory", Status::NoMemory.number());
        return exit_code(Status::NoMemory);
    }
    tell(rt, failure, NO_START);
    ExitCode::from(NO_START)
}

fn main(rt: HostRuntime) -> ExitCode {
    let words = match words_of(&rt, rt.alloc()) {
        Ok(words) => words,
        Err(error) => return not_begun(&rt, "the arguments could not be read", &error),
    };
    let key = match RandomState::new(&rt) {
        Ok(key) => key,
        Err(error) => return not_begun(&rt, "the system gave no random number", &error),
    };
    let mut source = StdSource::new(rt.reader());
    let mut folder = DirFolder::new(&rt, process::id(rt.process()));
    let mut sink = StdSink::new(io::writer(&rt));
    let mut book = Book::new();
    let status = serve(
        rt.alloc(),
        key,
        &words,
        &mut source,
        &mut folder,
        &mut sink,
        &mut book,
    );
    if let Some(failure) = failure_of(status, &source, &sink) {
        tell(&rt, failure, status.number());
    }
    exit_code(status)
}
