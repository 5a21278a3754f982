//! The outside as the program sees it: a source of bytes, a sink for bytes, and a folder of files,
//! each a trait that counts what went wrong. Implementations in memory, whose contents are known,
//! fail at the calls whose numbers they were given, or never. A source and a sink over any reader and writer
//! adapt standard input and output, and a folder adapts the files of the working directory.
//! To the layers above the traits promise exact bytes where contents are known, and a failure only
//! where a count rose. No call here looks at what the bytes mean.
#![tactic(auto)]

mod dir_folder;
mod failing;
mod fault;
mod filled;
mod folder;
mod folder_counts;
mod held_files;
mod memory_folder;
mod memory_sink;
mod memory_source;
mod name;
mod never_fails_folder;
mod never_fails_sink;
mod never_fails_source;
mod part;
mod reader_source;
mod regular;
mod replace;
mod signature;
mod sink;
mod source;
mod writer_sink;

pub use dir_folder::DirFolder;
pub use fault::{Failed, FileFault, PutFault};
pub use folder::Folder;
pub use memory_folder::MemoryFolder;
pub use memory_sink::MemorySink;
pub use memory_source::MemorySource;
pub use never_fails_folder::NeverFailsFolder;
pub use never_fails_sink::NeverFailsSink;
pub use never_fails_source::NeverFailsSource;
pub use reader_source::{ReaderSource, StdSource};
pub use sink::Sink;
pub use source::Source;
pub use sql_values::MAX_FILE_BYTES;
pub use writer_sink::{StdSink, WriterSink};
