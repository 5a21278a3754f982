// What comes of a statement at first: what it prints, what it saves, or the file that it asks for.
use cost_model::Stats;
use query_block::Block;
use sql_parse::Name;
use sql_values::Text;

/// What comes of a statement at first.
#[derive(Drop)]
pub enum Begun {
    /// It prints this text, and is done.
    Prints(Vec<u8>),
    /// It is done, and prints nothing, where these bytes are written into the file of this name.
    Saves(Text, Vec<u8>),
    /// It asks for a file.
    Asks(Asked),
}

/// A file that a statement asks for, and what is to be done with its bytes.
#[derive(Drop)]
pub struct Asked {
    /// The name of the file.
    pub name: Text,
    pub(crate) pending: Pending,
}

/// What is to be done with the bytes of a file.
#[derive(Drop)]
pub(crate) enum Pending {
    /// Its rows are appended to the table of this number.
    Load(u32),
    /// Its bouquet is kept.
    Open(Opening),
}

/// What a bouquet of a file is opened with: the name that it gets, and of its query the canonical text, the block and the
/// counts.
#[derive(Drop)]
pub(crate) struct Opening {
    pub(crate) name: Name,
    pub(crate) query: Vec<u8>,
    pub(crate) block: Block,
    pub(crate) stats: Stats,
}

/// A file as a folder gives it.
#[derive(Drop)]
pub enum GivenFile {
    /// Its bytes, at most 268435456.
    Bytes(Vec<u8>),
    /// There is none of the name.
    Absent,
    /// It has so many bytes, which are too many.
    TooLong(u64),
}
