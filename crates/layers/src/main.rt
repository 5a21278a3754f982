//! Calls that no script reaches, with what has to come of them: a line of a file of `data/` has what is asked and the answer,
//! and the program works the answer out by the crates' own calls, over databases that scripts make.
//! It prints the lines whose answer is another, and how many agree; where one differs, or can't be worked out, its status
//! is 1. No crate uses it.
#![tactic(auto)]

mod bouquets;
mod line;
mod runs;
mod scripts;
mod stores;
mod tables;

use db_catalog::Database;
use line::{Line, line_of, numbers_of};
use std::alloc::Global;
use std::hash::RandomState;
use std::process::ExitCode;
use std::{fs, io};

const FILES: [&str; 4] = ["statements.txt", "stores.txt", "runs.txt", "bouquets.txt"];

// How many lines agree, and how many don't.
#[derive(Clone, Copy)]
struct Count {
    agree: u64,
    differ: u64,
}

// The answer to a line that asks by numbers.
fn answer_by_numbers(alloc: Global, db: &Database, line: &Line<'_>) -> Option<String> {
    let numbers = numbers_of(alloc, line.asked)?;
    match line.question {
        "stack" => stores::stack(alloc, &numbers),
        "index" => stores::index(alloc, &numbers),
        "heap" => stores::heap(alloc, &numbers),
        "read" => tables::read(alloc, db, line.from, &numbers),
        "best" => bouquets::best_at(alloc, db, line.from, &numbers),
        "jobs" => bouquets::jobs(alloc, db, line.from, &numbers),
        _ => None,
    }
}

// The answer to a line; of a script it is empty. None: it can't be worked out.
fn answer_to(alloc: Global, db: &mut Database, line: &Line<'_>) -> Option<String> {
    match line.question {
        ">" => scripts::begin(alloc, db, line.asked),
        "+" => scripts::extend(alloc, db, line.asked),
        "canonical" => scripts::canonical(alloc, line.asked),
        "run" => runs::run(alloc, db, line.from, line.asked),
        "append" => tables::append(alloc, db, line.from, line.asked),
        _ => answer_by_numbers(alloc, db, line),
    }
}

// Whether a line has its answer; else both are printed.
fn agrees(rt: &HostRuntime, db: &mut Database, text: &str) -> io::Result<bool> {
    let line = line_of(text);
    let found = answer_to(rt.alloc(), db, &line);
    let found = found.as_deref().unwrap_or("none");
    if found == line.answer {
        return Ok(true);
    }
    println!(rt; "{text}")?;
    println!(rt; "has to be {found}")?;
    Ok(false)
}

fn count_lines(
    rt: &HostRuntime,
    db: &mut Database,
    text: &str,
    count: &mut Count,
) -> io::Result<()> {
    for line in text.lines() {
        if line.is_empty() || line.starts_with('#') {
            continue;
        }
        if agrees(rt, db, line)? {
            count.agree = count.agree.saturating_add(1);
        } else {
            count.differ = count.differ.saturating_add(1);
        }
    }
    Ok(())
}

fn count_file(rt: &HostRuntime, file: &str, count: &mut Count) -> io::Result<()> {
    let mut db = Database::new(rt.alloc(), RandomState::new(rt)?);
    let text = fs::read_to_string(rt, file)?;
    count_lines(rt, &mut db, text.as_str(), count)
}

fn main(rt: HostRuntime) -> io::Result<ExitCode> {
    let mut count = Count {
        agree: 0,
        differ: 0,
    };
    for file in FILES {
        count_file(&rt, file, &mut count)?;
    }
    let agree = count.agree;
    let differ = count.differ;
    println!(rt; "layers: {agree} lines agree, {differ} differ")?;
    if differ == 0 {
        Ok(ExitCode::SUCCESS)
    } else {
        Ok(ExitCode::FAILURE)
    }
}
