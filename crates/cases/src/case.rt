// A case: what a run is given, and what has to come of it.
use shell::Status;
use std::alloc::{AllocError, Global};

/// A file of a folder.
#[derive(Clone, Drop)]
pub(crate) struct File {
    pub(crate) name: String,
    pub(crate) bytes: Vec<u8>,
}

/// A case. Calls are numbered from 1, each kind apart.
#[derive(Clone, Drop)]
pub(crate) struct Case {
    pub(crate) name: String,
    /// The calls of the source that fail.
    pub(crate) takes: Vec<u64>,
    /// The calls of the folder that fail.
    pub(crate) reads: Vec<u64>,
    /// The calls of the sink that fail.
    pub(crate) puts: Vec<u64>,
    /// The arguments.
    pub(crate) words: Vec<String>,
    pub(crate) script: Vec<u8>,
    /// What the folder holds before.
    pub(crate) files: Vec<File>,
    /// What has to be printed.
    pub(crate) prints: Vec<u8>,
    /// What the folder has to hold afterwards; a file that isn't here has to be as it was.
    pub(crate) afterwards: Vec<File>,
    pub(crate) status: Status,
}

impl Case {
    /// An empty script, of which nothing comes.
    pub(crate) fn new(alloc: Global) -> Case {
        Case {
            name: String::new(alloc),
            takes: Vec::new(alloc),
            reads: Vec::new(alloc),
            puts: Vec::new(alloc),
            words: Vec::new(alloc),
            script: Vec::new(alloc),
            files: Vec::new(alloc),
            prints: Vec::new(alloc),
            afterwards: Vec::new(alloc),
            status: Status::Done,
        }
    }
}

/// A file without bytes.
pub(crate) fn empty_file(alloc: Global, name: &str) -> Result<File, AllocError> {
    let name = String::from_str(alloc, name)?;
    Ok(File {
        name,
        bytes: Vec::new(alloc),
    })
}

/// The status of this name.
pub(crate) fn status_of(word: &str) -> Option<Status> {
    match word {
        "Done" => Some(Status::Done),
        "Refused" => Some(Status::Refused),
        "BadWords" => Some(Status::BadWords),
        "ReadFault" => Some(Status::ReadFault),
        "WriteFault" => Some(Status::WriteFault),
        "NoMemory" => Some(Status::NoMemory),
        _ => None,
    }
}

/// The name of a status.
pub(crate) fn name_of(status: Status) -> &'static str {
    match status {
        Status::Done => "Done",
        Status::Refused => "Refused",
        Status::BadWords => "BadWords",
        Status::ReadFault => "ReadFault",
        Status::WriteFault => "WriteFault",
        Status::NoMemory => "NoMemory",
    }
}
