// What the adapters of streams reach of the system: that a sink flushes and tells the failures of a writer, and that a
// source tells those of a reader; and that a sink in memory finds memory.
use outside_io::{
    Failed, NeverFailsSink, PutFault, ReaderSource, Sink, Source, StdSink, StdSource, WriterSink,
};
use std::alloc::Global;
use std::io;
use std::io::{ErrorKind, Read, Write};
use std::test::Fail;

// What a reader or a writer does when it is called next: it moves up to so many bytes, or has an error of this kind.
#[derive(Clone, Copy)]
enum Turn {
    Moves(usize),
    Errs(ErrorKind),
}

// The next turn. After the last one there is no limit.
fn next_turn(turns: &mut &[Turn]) -> io::Result<usize> {
    let all: &[Turn] = *turns;
    match all.split_first() {
        Some((turn, rest)) => {
            *turns = rest;
            match *turn {
                Turn::Moves(most) => Ok(most),
                Turn::Errs(kind) => Err(io::Error::from(kind)),
            }
        }
        None => Ok(usize::MAX),
    }
}

#[derive(Drop)]
struct TurnReader<'a> {
    turns: &'a [Turn],
    bytes: &'a [u8],
}

impl<'a> Read for TurnReader<'a> {
    fn read(&mut self, buf: &mut [u8]) -> io::Result<usize> {
        let most = next_turn(&mut self.turns)?.min(buf.len());
        self.bytes.read(&mut buf[..most])
    }
}

// It keeps the bytes, and how many of them were flushed.
#[derive(Drop)]
struct TurnWriter<'a> {
    turns: &'a [Turn],
    bytes: Vec<u8>,
    flushed: usize,
}

impl<'a> Write for TurnWriter<'a> {
    fn write(&mut self, buf: &[u8]) -> io::Result<usize> {
        let most = next_turn(&mut self.turns)?.min(buf.len());
        self.bytes.extend_from_slice(&buf[..most])?;
        Ok(most)
    }

    fn flush(&mut self) -> io::Result<()> {
        next_turn(&mut self.turns)?;
        self.flushed = self.bytes.len();
        Ok(())
    }
}

const INTERRUPTED: Turn = Turn::Errs(ErrorKind::Interrupted);

const BROKEN: Turn = Turn::Errs(ErrorKind::BrokenPipe);

// All in one write; in parts, with a signal between; a part, and then a failure; a part, and then nothing; all, but the flush
// fails.
static WRITES: [&[Turn]; 5] = [
    &[],
    &[Turn::Moves(1), INTERRUPTED, Turn::Moves(1)],
    &[Turn::Moves(1), BROKEN],
    &[Turn::Moves(2), Turn::Moves(0)],
    &[Turn::Moves(3), BROKEN],
];

// What a put of three bytes answers, what bytes were written and how many of them flushed, and whether the sink says that
// it failed.
fn put_line(alloc: Global, turns: &[Turn]) -> Result<String, Fail> {
    let mut writer = TurnWriter {
        turns,
        bytes: Vec::new(alloc),
        flushed: 0,
    };
    let mut sink = WriterSink::new(&mut writer);
    let answer = match sink.put(b"abc") {
        Ok(()) => "done",
        Err(PutFault::Failed) => "failed",
        Err(PutFault::NoMemory) => "no memory",
    };
    let failed = sink.has_failed();
    drop(sink);
    let written = str::from_utf8(&writer.bytes)?;
    Ok(format!(in alloc; "{answer} {written} {} {failed}\n", writer.flushed)?)
}

#[test]
fn a_sink_over_a_writer_appends_flushes_and_fails(rt: HostRuntime) -> Result<(), Fail> {
    let alloc = rt.alloc();
    let mut found = String::new(alloc);
    for turns in &WRITES {
        found.push_str(&put_line(alloc, turns)?)?;
    }
    assert_eq!(rt;
        found.as_str(),
        "done abc 3 false\ndone abc 3 false\nfailed a 0 true\nfailed ab 0 true\n\
         failed abc 0 true\n"
    );
    Ok(())
}

// How many bytes a source gives into a room of two, and the room then.
fn take_line<S: Source>(alloc: Global, source: &mut S, room: &mut [u8; 2]) -> Result<String, Fail> {
    let line = match source.take(room) {
        Ok(count) => format!(in alloc; "{count} {} {}\n", room[0], room[1])?,
        Err(Failed) => format!(in alloc; "failed {} {}\n", room[0], room[1])?,
    };
    Ok(line)
}

#[test]
fn a_source_over_a_reader_gives_bytes_and_failures(rt: HostRuntime) -> Result<(), Fail> {
    let alloc = rt.alloc();
    let mut source = ReaderSource::new(TurnReader {
        turns: &[
            INTERRUPTED,
            Turn::Moves(1),
            BROKEN,
            INTERRUPTED,
            INTERRUPTED,
        ],
        bytes: b"abcd",
    });
    let before = source.has_failed();
    let mut room = [0u8; 2];
    let mut found = String::new(alloc);
    for _ in 0..5 {
        found.push_str(&take_line(alloc, &mut source, &mut room)?)?;
    }
    assert_eq!(rt;
        found.as_str(),
        "1 97 0\nfailed 97 0\n2 98 99\n1 100 99\n0 100 99\n"
    );
    assert!(rt; !before && source.has_failed());
    Ok(())
}

#[test]
fn standard_input_and_output_have_adapters(rt: HostRuntime) {
    let taken = StdSource::new(rt.reader()).take(&mut []);
    let put = StdSink::new(io::writer(&rt)).put(b"");
    assert!(rt; matches!(taken, Ok(0)) && put.is_ok());
}

#[test]
fn a_sink_that_never_fails_appends(rt: HostRuntime) {
    let mut sink = NeverFailsSink::new(rt.alloc());
    let (one, two) = (sink.put(b"one"), sink.put(b" two"));
    assert!(rt; one.is_ok() && two.is_ok() && sink.bytes() == "one two".as_bytes());
}
