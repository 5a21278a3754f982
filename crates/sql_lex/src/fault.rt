// What is wrong with a script that has no tokens. It never names more than the first fault.

/// Why a script has no tokens.
#[derive(Clone, Copy)]
pub enum LexKind {
    /// No token, white space or comment begins with this byte.
    Byte,
    /// A text with no closing quote.
    OpenText,
    /// A number above `MAX_NUMBER`.
    Number,
    /// A word of more than `MAX_WORD_BYTES` bytes.
    Name,
    /// A text whose value isn't UTF-8.
    Utf8,
    /// Out of memory for the list of tokens.
    NoMemory,
}

/// The first fault of a script.
#[derive(Clone, Copy)]
pub struct LexFault {
    /// The place of its first byte, from 0. Out of memory, no clause says which place this is.
    pub place: usize,
    pub kind: LexKind,
}
