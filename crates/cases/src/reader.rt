// Reads the cases of a file, line by line.
use crate::case::{Case, empty_file, status_of};
use crate::content::bytes_of;
use std::alloc::{AllocError, Global};
use std::mem;

/// Why a file has no cases.
#[derive(Drop)]
pub(crate) enum CaseFault {
    /// The line of this number, from 1, can't be read.
    Line(usize),
    /// Out of memory.
    NoMemory(AllocError),
}

impl From<AllocError> for CaseFault {
    fn from(error: AllocError) -> CaseFault {
        CaseFault::NoMemory(error)
    }
}

// What lines of content belong to.
#[derive(Clone, Copy)]
enum Place {
    Nowhere,
    Script,
    File,
    Prints,
    Folder,
}

// The cases that were read, and the one that is being read. Before the first `case` that is the beginning of each.
#[derive(Drop)]
struct Reader {
    alloc: Global,
    beginning: Option<Case>,
    cases: Vec<Case>,
    case: Case,
    place: Place,
}

impl Reader {
    // Appends so many copies of what a text stands for. False: the text or the place is none.
    fn put(&mut self, copies: usize, text: &str, end: &[u8]) -> Result<bool, AllocError> {
        let Some(mut bytes) = bytes_of(self.alloc, text)? else {
            return Ok(false);
        };
        bytes.extend_from_slice(end)?;
        for _ in 0..copies {
            if !put_bytes(&mut self.case, self.place, &bytes)? {
                return Ok(false);
            }
        }
        Ok(true)
    }

    fn put_copies(&mut self, line: &str) -> Result<bool, AllocError> {
        let Some((count, text)) = line.split_once(' ') else {
            return Ok(false);
        };
        match count.parse::<usize>() {
            Ok(count) => self.put(count, text, b""),
            Err(_) => Ok(false),
        }
    }

    // Ends the case before, and begins the next as each begins.
    fn begin(&mut self, name: &str) -> Result<bool, AllocError> {
        let mut next = match &self.beginning {
            Some(beginning) => beginning.clone()?,
            None => self.case.clone()?,
        };
        next.name = String::from_str(self.alloc, name)?;
        let before = mem::replace(&mut self.case, next);
        if self.beginning.is_some() {
            self.cases.push(before)?;
        } else {
            self.beginning = Some(before);
        }
        self.place = Place::Nowhere;
        Ok(!name.is_empty())
    }

    // A line that isn't content. False: it is none.
    fn put_word(&mut self, word: &str, rest: &str) -> Result<bool, AllocError> {
        match word {
            "case" => return self.begin(rest),
            "arg" => self.case.words.push(String::from_str(self.alloc, rest)?)?,
            "fail" => return put_failing(&mut self.case, rest),
            "status" => match status_of(rest) {
                Some(status) => self.case.status = status,
                None => return Ok(false),
            },
            "script" => self.place = Place::Script,
            "prints" => self.place = Place::Prints,
            "file" => {
                self.place = Place::File;
                self.case.files.push(empty_file(self.alloc, rest)?)?;
            }
            "folder" => {
                self.place = Place::Folder;
                self.case.afterwards.push(empty_file(self.alloc, rest)?)?;
            }
            _ => return Ok(false),
        }
        Ok(true)
    }

    // False: the line can't be read.
    fn put_line(&mut self, line: &str) -> Result<bool, AllocError> {
        if line.is_empty() || line.starts_with('#') {
            return Ok(true);
        }
        if let Some(text) = line.strip_prefix('|') {
            return self.put(1, text, b"\n");
        }
        if let Some(text) = line.strip_prefix('+') {
            return self.put(1, text, b"");
        }
        if let Some(text) = line.strip_prefix('*') {
            return self.put_copies(text);
        }
        let (word, rest) = line.split_once(' ').unwrap_or((line, ""));
        self.put_word(word, rest)
    }
}

// Appends bytes where they belong. False: they belong nowhere.
fn put_bytes(case: &mut Case, place: Place, bytes: &[u8]) -> Result<bool, AllocError> {
    match place {
        Place::Nowhere => return Ok(false),
        Place::Script => case.script.extend_from_slice(bytes)?,
        Place::Prints => case.prints.extend_from_slice(bytes)?,
        Place::File => match case.files.last_mut() {
            Some(file) => file.bytes.extend_from_slice(bytes)?,
            None => return Ok(false),
        },
        Place::Folder => match case.afterwards.last_mut() {
            Some(file) => file.bytes.extend_from_slice(bytes)?,
            None => return Ok(false),
        },
    }
    Ok(true)
}

// Notes a call that fails, as `put 2`.
fn put_failing(case: &mut Case, text: &str) -> Result<bool, AllocError> {
    let Some((word, number)) = text.split_once(' ') else {
        return Ok(false);
    };
    let Ok(number) = number.parse::<u64>() else {
        return Ok(false);
    };
    match word {
        "take" => case.takes.push(number)?,
        "read" => case.reads.push(number)?,
        "put" => case.puts.push(number)?,
        _ => return Ok(false),
    }
    Ok(true)
}

// The cases, with the last one.
fn cases_of(reader: Reader) -> Result<Vec<Case>, AllocError> {
    let Reader {
        beginning,
        mut cases,
        case,
        ..
    } = reader;
    if beginning.is_some() {
        cases.push(case)?;
    }
    Ok(cases)
}

/// The cases of a file.
pub(crate) fn read_cases(alloc: Global, text: &str) -> Result<Vec<Case>, CaseFault> {
    let mut reader = Reader {
        alloc,
        beginning: None,
        cases: Vec::new(alloc),
        case: Case::new(alloc),
        place: Place::Nowhere,
    };
    for (number, line) in text.lines().enumerate() {
        if !reader.put_line(line)? {
            return Err(CaseFault::Line(number.saturating_add(1)));
        }
    }
    Ok(cases_of(reader)?)
}
