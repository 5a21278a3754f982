//! Runs the case files that `cases.txt` names: each case gives `serve` a script, files, arguments and failing calls, in
//! memory, and says what has to be printed, the status, and what the folder then holds.
//! It prints the cases that differ, with both texts, and how many agree; where one differs, or a line can't be read, its
//! status is 1. It never writes a file.
#![tactic(auto)]

mod case;
mod content;
mod reader;
mod run;

use case::Case;
use reader::{CaseFault, read_cases};
use run::differences_of;
use std::alloc::Global;
use std::hash::RandomState;
use std::process::ExitCode;
use std::{fs, io};

// The list of the case files, a name a line.
const LIST: &str = "cases.txt";

// How many cases agree, how many don't, and how many files have none since they can't be read.
#[derive(Clone, Copy)]
struct Count {
    agree: u64,
    differ: u64,
    unread: u64,
}

fn count_case(rt: &HostRuntime, file: &str, case: &Case, count: &mut Count) -> io::Result<()> {
    let differences = differences_of(rt.alloc(), RandomState::new(rt)?, case)?;
    if differences.is_empty() {
        count.agree = count.agree.saturating_add(1);
        return Ok(());
    }
    count.differ = count.differ.saturating_add(1);
    let name = case.name.as_str();
    println!(rt; "{file}: {name}")?;
    rt.print(differences.as_str())
}

fn count_file(rt: &HostRuntime, file: &str, count: &mut Count) -> io::Result<()> {
    let Ok(text) = fs::read_to_string(rt, file) else {
        count.unread = count.unread.saturating_add(1);
        return println!(rt; "{file} can't be read");
    };
    match read_cases(rt.alloc(), text.as_str()) {
        Ok(cases) => {
            for case in &cases {
                count_case(rt, file, case, count)?;
            }
            Ok(())
        }
        Err(CaseFault::Line(number)) => {
            count.unread = count.unread.saturating_add(1);
            println!(rt; "{file}: line {number} can't be read")
        }
        Err(CaseFault::NoMemory(error)) => Err(io::Error::from(error)),
    }
}

fn count_all(rt: &HostRuntime, count: &mut Count) -> io::Result<()> {
    let list = fs::read_to_string(rt, LIST)?;
    for file in list.as_str().lines() {
        count_file(rt, file, count)?;
    }
    let agree = count.agree;
    let differ = count.differ;
    println!(rt; "cases: {agree} agree, {differ} differ")
}

fn main(rt: HostRuntime) -> io::Result<ExitCode> {
    let mut count = Count {
        agree: 0,
        differ: 0,
        unread: 0,
    };
    count_all(&rt, &mut count)?;
    if count.differ == 0 && count.unread == 0 {
        Ok(ExitCode::SUCCESS)
    } else {
        Ok(ExitCode::FAILURE)
    }
}
