//! Bouquets as files: JSON that is written of a bouquet, and the bouquet of JSON that is read, whoever wrote it.
//! To the layers above it promises that `to_bytes` writes exactly the text of a bouquet's value, which is opened as the same
//! bouquet; that `from_bytes` opens exactly what can be a bouquet of the query, whatever costs and plans it claims, and else
//! names the first fault; and that `path_text` says where that is.
//! It never compiles, counts or runs anything, and asks no file of a folder.
#![tactic(auto)]

mod contours;
mod fault;
mod head;
mod opened;
mod parts;
mod path;
mod relations;
mod values;
mod written;

pub use fault::{FieldPath, OpenFault};
pub use opened::from_bytes;
pub use path::path_text;
pub use written::to_bytes;
