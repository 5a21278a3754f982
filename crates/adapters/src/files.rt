// What a folder's files answer: those of the system, in a directory of the test's own, and those in memory.
use crate::failing_files::{FailingFiles, Wrong};
use outside_io::{DirFolder, FileFault, Folder, MemoryFolder, NeverFailsFolder};
use std::alloc::Global;
use std::fs::{OpenFile, Permissions};
use std::os::unix::fs::{PermissionsExt, symlink};
use std::test::Fail;
use std::{env, fs, process};

// The files of two bouquets, as far as a folder looks at them.
const OLD: &str = "{\"bouquet\":\"old\"}";

const NEWER: &str = "{\"bouquet\":\"newer\"}";

// The number of the process in names of files in the making.
const PROCESS: u32 = 7;

// A directory of this test's own, in which it goes on. A test is a process of its own.
fn enter_directory(rt: &HostRuntime) -> Result<String, Fail> {
    let path = format!(in rt.alloc(); "/tmp/adapters-{}", process::id(rt.process()))?;
    fs::create_dir(rt, &path)?;
    env::set_current_dir(rt, &path)?;
    Ok(path)
}

// The files, directories and links that the names of the tables below lead to.
fn make_files(rt: &HostRuntime) -> Result<(), Fail> {
    fs::create_dir(rt, "sub")?;
    for name in &["t.csv", "sub/t.csv", "a..b", "..."] {
        fs::write(rt, *name, OLD)?;
    }
    symlink(rt, "t.csv", "link")?;
    symlink(rt, "nothing", "lost")?;
    symlink(rt, "sub", "down")?;
    symlink(rt, "/dev/zero", "zero")?;
    Ok(())
}

fn fault_text(fault: FileFault) -> &'static str {
    match fault {
        FileFault::Absent => "absent",
        FileFault::TooLong { .. } => "too long",
        FileFault::Failed => "failed",
        FileFault::NoMemory => "no memory",
    }
}

// Which of the two bouquets a text is, or else the text.
fn bouquet_name(text: &str) -> &str {
    if text == OLD {
        "old"
    } else if text == NEWER {
        "newer"
    } else {
        text
    }
}

// The text of a file, or why there is none.
fn read_text<F: Folder>(alloc: Global, folder: &mut F, name: &str) -> Result<String, Fail> {
    match folder.read(alloc, name) {
        Ok(bytes) => Ok(String::from_str(alloc, bouquet_name(str::from_utf8(&bytes)?))?),
        Err(fault) => Ok(String::from_str(alloc, fault_text(fault))?),
    }
}

// Writes the newer bouquet.
fn write_newer<F: Folder>(folder: &mut F, name: &str) -> Result<(), FileFault> {
    folder.write(name, NEWER.as_bytes())
}

// What a write answered.
fn written_text(written: Result<(), FileFault>) -> &'static str {
    match written {
        Ok(()) => "done",
        Err(fault) => fault_text(fault),
    }
}

// What a write answers, and the text that stands under another name then.
fn write_line<F: Folder>(
    alloc: Global,
    folder: &mut F,
    name: &str,
    other: &str,
) -> Result<String, Fail> {
    let written = written_text(write_newer(folder, name));
    let found = read_text(alloc, folder, other)?;
    Ok(format!(in alloc; "{written}, {found}\n")?)
}

// How many names the directory has.
fn count_names(rt: &HostRuntime) -> Result<usize, Fail> {
    Ok(fs::read_dir(rt, ".")?.count())
}

// A name, and what a read of it answers.
static READS: [(&str, &str); 22] = [
    ("", "absent"),
    ("t.csv", "old"),
    ("sub/t.csv", "old"),
    ("./sub//t.csv", "old"),
    ("a..b", "old"),
    ("...", "old"),
    ("link", "old"),
    ("down/t.csv", "old"),
    ("nothing", "absent"),
    ("sub/nothing", "absent"),
    ("lost", "absent"),
    ("/etc/passwd", "failed"),
    ("..", "failed"),
    ("../t.csv", "failed"),
    ("sub/../t.csv", "failed"),
    ("sub/..", "failed"),
    ("t.csv\0", "failed"),
    ("\0", "failed"),
    ("sub", "failed"),
    ("down", "failed"),
    ("t.csv/a", "failed"),
    ("zero", "failed"),
];

#[test]
fn names_of_regular_files_are_read(rt: HostRuntime) -> Result<(), Fail> {
    let directory = enter_directory(&rt)?;
    make_files(&rt)?;
    let mut folder = DirFolder::new(&rt, PROCESS);
    for &(name, want) in &READS {
        let found = read_text(rt.alloc(), &mut folder, name)?;
        assert_eq!(rt; found.as_str(), want, "at {name}");
    }
    fs::remove_dir_all(&rt, &directory)?;
    Ok(())
}

// A name that is written, another one, and what a write answers and what stands under the other name then.
static WRITES: [(&str, &str, &str); 26] = [
    ("", "", "failed, absent\n"),
    ("t.csv\0", "t.csv", "failed, old\n"),
    ("sub/../t.csv", "t.csv", "failed, old\n"),
    ("link", "t.csv", "done, newer\n"),
    ("link", "bouquet-7-1.part", "done, absent\n"),
    ("bouquet-7-1.part", "bouquet-7-1.part", "failed, absent\n"),
    ("sub/bouquet-.part", "sub/bouquet-.part", "failed, absent\n"),
    ("bouquet-7-1.parts", "bouquet-7-1.parts", "done, newer\n"),
    ("sub/t.csv", "sub/t.csv", "done, newer\n"),
    ("a..b", "a..b", "done, newer\n"),
    ("...", "...", "done, newer\n"),
    ("new.csv", "new.csv", "done, newer\n"),
    ("down/new.csv", "sub/new.csv", "done, newer\n"),
    ("lost", "nothing", "failed, absent\n"),
    ("no/t.csv", "no/t.csv", "failed, absent\n"),
    ("new/", "new", "failed, absent\n"),
    ("/tmp/adapters-out", "", "failed, absent\n"),
    ("..", "", "failed, absent\n"),
    ("../adapters-out", "", "failed, absent\n"),
    ("sub/..", "", "failed, absent\n"),
    ("\0", "", "failed, absent\n"),
    ("sub", "bouquet-7-1.part", "failed, absent\n"),
    ("down", "sub/bouquet-7-1.part", "failed, absent\n"),
    ("t.csv/a", "t.csv", "failed, newer\n"),
    ("t.csv/", "t.csv", "failed, newer\n"),
    ("zero", "zero", "failed, failed\n"),
];

#[test]
fn names_of_regular_files_are_written(rt: HostRuntime) -> Result<(), Fail> {
    let directory = enter_directory(&rt)?;
    make_files(&rt)?;
    let mut folder = DirFolder::new(&rt, PROCESS);
    for &(name, other, want) in &WRITES {
        let line = write_line(rt.alloc(), &mut folder, name, other)?;
        assert_eq!(rt; line.as_str(), want, "at {name}");
    }
    assert!(rt; fs::symlink_metadata(&rt, "link")?.is_symlink());
    fs::remove_dir_all(&rt, &directory)?;
    Ok(())
}

// A text that is there, and what a write in its place answers and what is there then.
static REPLACED: [(&str, &str); 13] = [
    ("", "done, newer\n"),
    ("{\"bouquet\":", "done, newer\n"),
    ("{\"bouquet\":1}", "done, newer\n"),
    ("{\"bouquet\"", "failed, {\"bouquet\"\n"),
    ("{", "failed, {\n"),
    ("{\"bouquet\" :1}", "failed, {\"bouquet\" :1}\n"),
    (" {\"bouquet\":1}", "failed,  {\"bouquet\":1}\n"),
    ("{\"Bouquet\":1}", "failed, {\"Bouquet\":1}\n"),
    ("{\"bouquets\":1}", "failed, {\"bouquets\":1}\n"),
    (
        "\u{feff}{\"bouquet\":1}",
        "failed, \u{feff}{\"bouquet\":1}\n",
    ),
    ("A,B\n1,2\n", "failed, A,B\n1,2\n\n"),
    ("#!/bin/sh\n", "failed, #!/bin/sh\n\n"),
    ("\n", "failed, \n\n"),
];

#[test]
fn a_write_replaces_bouquets_alone(rt: HostRuntime) -> Result<(), Fail> {
    let directory = enter_directory(&rt)?;
    symlink(&rt, "t", "link")?;
    let mut folder = DirFolder::new(&rt, PROCESS);
    for name in &["t", "link"] {
        for &(text, want) in &REPLACED {
            fs::write(&rt, "t", text)?;
            let line = write_line(rt.alloc(), &mut folder, name, "t")?;
            assert_eq!(rt; line.as_str(), want, "at {text}");
        }
    }
    let names = count_names(&rt)?;
    fs::remove_dir_all(&rt, &directory)?;
    assert_eq!(rt; names, 2);
    Ok(())
}

// The rights of a file before a write and after it. None is left that lets a program run, its owner's among them.
static RIGHTS: [(u32, u32); 5] = [
    (0o4640, 0o640),
    (0o6755, 0o644),
    (0o1777, 0o666),
    (0o600, 0o600),
    (0o711, 0o600),
];

// The rights of t.csv after a write.
fn rights_after(rt: &HostRuntime) -> Result<u32, Fail> {
    let written = written_text(write_newer(&mut DirFolder::new(rt, PROCESS), "t.csv"));
    let mode = fs::metadata(rt, "t.csv")?.permissions().mode() & 0o7777;
    Ok(if written == "done" { mode } else { 0 })
}

#[test]
fn a_file_keeps_its_rights_but_for_running(rt: HostRuntime) -> Result<(), Fail> {
    let directory = enter_directory(&rt)?;
    let of_new = rights_after(&rt)?;
    for &(before, after) in &RIGHTS {
        fs::set_permissions(&rt, "t.csv", Permissions::from_mode(before))?;
        let found = rights_after(&rt)?;
        assert_eq!(rt; found, after);
    }
    fs::remove_dir_all(&rt, &directory)?;
    assert!(rt; of_new & 0o600 == 0o600 && of_new & 0o111 == 0);
    Ok(())
}

// Takes the first twelve names that files in the making have: ten by files, one by a directory, one by a link to nothing.
fn take_names(rt: &HostRuntime) -> Result<(), Fail> {
    for count in 1..11 {
        fs::write(rt, format!(in rt.alloc(); "bouquet-7-{count}.part")?, "own")?;
    }
    fs::create_dir(rt, "bouquet-7-11.part")?;
    symlink(rt, "nothing", "bouquet-7-12.part")?;
    Ok(())
}

// The texts under the first ten of these names.
fn taken_texts(rt: &HostRuntime) -> Result<String, Fail> {
    let mut folder = DirFolder::new(rt, PROCESS);
    let mut texts = String::new(rt.alloc());
    for count in 1..11 {
        let name = format!(in rt.alloc(); "bouquet-7-{count}.part")?;
        texts.push_str(&read_text(rt.alloc(), &mut folder, &name)?)?;
    }
    Ok(texts)
}

#[test]
fn a_write_takes_no_name_that_is_there(rt: HostRuntime) -> Result<(), Fail> {
    let directory = enter_directory(&rt)?;
    take_names(&rt)?;
    let mut folder = DirFolder::new(&rt, PROCESS);
    let mut lines = write_line(rt.alloc(), &mut folder, "t.csv", "t.csv")?;
    lines.push_str(&write_line(rt.alloc(), &mut folder, "t.csv", "nothing")?)?;
    lines.push_str(&taken_texts(&rt)?)?;
    let names = count_names(&rt)?;
    fs::remove_dir_all(&rt, &directory)?;
    assert_eq!(rt; names, 13);
    assert_eq!(rt;
        lines.as_str(),
        "done, newer\ndone, absent\nownownownownownownownownownown"
    );
    Ok(())
}

// Where a write is killed, its name, and what it answers and what stands there then.
static KILLED: [(Wrong, &str, &str); 7] = [
    (Wrong::Rights, "t.csv", "failed, old\n"),
    (Wrong::Write, "t.csv", "failed, old\n"),
    (Wrong::Sync, "t.csv", "failed, old\n"),
    (Wrong::Rename, "t.csv", "failed, old\n"),
    (Wrong::Write, "new.csv", "failed, absent\n"),
    (Wrong::Sync, "new.csv", "failed, absent\n"),
    (Wrong::Rename, "new.csv", "failed, absent\n"),
];

// Each leaves a file in the making; the numbers of the processes are the same.
fn kill_writes(rt: &HostRuntime) -> Result<(), Fail> {
    for &(wrong, name, want) in &KILLED {
        let killed = true;
        let files = rt;
        let failing = (
            FailingFiles {
                files,
                wrong,
                killed,
            },
            rt.alloc(),
        );
        let line = write_line(
            rt.alloc(),
            &mut DirFolder::new(&failing, PROCESS),
            name,
            name,
        )?;
        if line.as_str() != want {
            return Err(Fail::new(line));
        }
    }
    Ok(())
}

#[test]
fn a_write_that_is_killed_leaves_the_old_file_and_blocks_no_name(
    rt: HostRuntime,
) -> Result<(), Fail> {
    let directory = enter_directory(&rt)?;
    fs::write(&rt, "t.csv", OLD)?;
    for _ in 0..3 {
        kill_writes(&rt)?;
    }
    let mut folder = DirFolder::new(&rt, PROCESS);
    let mut lines = write_line(rt.alloc(), &mut folder, "t.csv", "t.csv")?;
    lines.push_str(&write_line(rt.alloc(), &mut folder, "new.csv", "new.csv")?)?;
    let names = count_names(&rt)?;
    fs::remove_dir_all(&rt, &directory)?;
    assert_eq!(rt; names, 23);
    assert_eq!(rt; lines.as_str(), "done, newer\ndone, newer\n");
    Ok(())
}

// What goes wrong, a name that is written then, and what that answers and what stands there then. What is no regular file
// isn't even opened; where another file takes the place of a regular one before it is opened, as with `Look`, it is closed
// again.
static FAILING: [(Wrong, &str, &str); 10] = [
    (Wrong::Open, "t.csv", "no memory, old\n"),
    (Wrong::Open, "null", "failed, failed\n"),
    (Wrong::Look, "null", "failed, failed\n"),
    (Wrong::Read, "t.csv", "failed, old\n"),
    (Wrong::Rights, "t.csv", "failed, old\n"),
    (Wrong::Write, "t.csv", "failed, old\n"),
    (Wrong::Sync, "t.csv", "failed, old\n"),
    (Wrong::Rename, "t.csv", "failed, old\n"),
    (Wrong::Rename, "new.csv", "failed, absent\n"),
    (Wrong::Link, "link", "failed, old\n"),
];

// What a write answers where something goes wrong, and the text that stands there then.
fn failing_line(rt: &HostRuntime, wrong: Wrong, name: &str) -> Result<String, Fail> {
    let killed = false;
    let files = rt;
    let failing = (
        FailingFiles {
            files,
            wrong,
            killed,
        },
        rt.alloc(),
    );
    let written = written_text(write_newer(&mut DirFolder::new(&failing, PROCESS), name));
    let found = read_text(rt.alloc(), &mut DirFolder::new(rt, PROCESS), name)?;
    Ok(format!(in rt.alloc(); "{written}, {found}\n")?)
}

#[test]
fn a_write_that_fails_leaves_the_old_file(rt: HostRuntime) -> Result<(), Fail> {
    let directory = enter_directory(&rt)?;
    fs::write(&rt, "t.csv", OLD)?;
    symlink(&rt, "/dev/null", "null")?;
    symlink(&rt, "t.csv", "link")?;
    for &(wrong, name, want) in &FAILING {
        let line = failing_line(&rt, wrong, name)?;
        assert_eq!(rt; line.as_str(), want, "at {name}");
    }
    let names = count_names(&rt)?;
    fs::remove_dir_all(&rt, &directory)?;
    assert_eq!(rt; names, 3);
    Ok(())
}

// The longest name that the system takes leaves room for the file beside it, whose name is another.
#[test]
fn a_long_name_is_written(rt: HostRuntime) -> Result<(), Fail> {
    let directory = enter_directory(&rt)?;
    let mut folder = DirFolder::new(&rt, PROCESS);
    let mut lines = String::new(rt.alloc());
    for len in [255, 256] {
        let name = "a".repeat(rt.alloc(), len)?;
        lines.push_str(&write_line(rt.alloc(), &mut folder, &name, &name)?)?;
    }
    fs::remove_dir_all(&rt, &directory)?;
    assert_eq!(rt; lines.as_str(), "done, newer\nfailed, failed\n");
    Ok(())
}

// How long a file of this length is read, or why it isn't.
fn length_line(rt: &HostRuntime, len: u64) -> Result<String, Fail> {
    fs::create(rt, "long.csv")?.set_len(len)?;
    let line = match DirFolder::new(rt, PROCESS).read(rt.alloc(), "long.csv") {
        Ok(bytes) => format!(in rt.alloc(); "{}\n", bytes.len())?,
        Err(FileFault::TooLong { len }) => format!(in rt.alloc(); "too long {len}\n")?,
        Err(fault) => String::from_str(rt.alloc(), fault_text(fault))?,
    };
    Ok(line)
}

#[test]
fn a_file_is_read_up_to_the_limit(rt: HostRuntime) -> Result<(), Fail> {
    let directory = enter_directory(&rt)?;
    let mut found = String::new(rt.alloc());
    for len in [268435456, 268435457, 300000000] {
        found.push_str(&length_line(&rt, len)?)?;
    }
    fs::remove_dir_all(&rt, &directory)?;
    assert_eq!(rt;
        found.as_str(),
        "268435456\ntoo long 268435457\ntoo long 300000000\n"
    );
    Ok(())
}

#[test]
fn a_folder_in_memory_keeps_what_was_written(rt: HostRuntime) -> Result<(), Fail> {
    let alloc = rt.alloc();
    let mut folder = MemoryFolder::new(alloc, Vec::new(alloc));
    folder.add("a", b"old")?;
    let found = write_line(alloc, &mut folder, "a", "a")?;
    assert_eq!(rt; found.as_str(), "done, newer\n");
    Ok(())
}

#[test]
fn a_folder_that_never_fails_keeps_what_was_written(rt: HostRuntime) -> Result<(), Fail> {
    let alloc = rt.alloc();
    let mut folder = NeverFailsFolder::new(alloc);
    folder.add("a", b"old")?;
    let found = write_line(alloc, &mut folder, "b", "a")?;
    assert_eq!(rt; found.as_str(), "done, old\n");
    Ok(())
}
