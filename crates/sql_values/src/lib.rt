//! The values of SQL as every layer above passes them: texts, values and their order, the columns of a table, the
//! operators that compare values, three-valued truth, and the dictionary in which a text is a place. The limits of the
//! whole product stand here too, each figure once, under their names.
//! It promises that a `Text` is exactly the bytes that it was made from, that `order` is total and finds only the same
//! value equal, and that a dictionary is a list of different texts, which a refusal leaves as it was.
//! It never looks at what the bytes of a text mean (they need not be UTF-8), never knows a table by name, and never tests
//! a number against a limit.
#![tactic(auto)]

mod column;
mod limit;
mod op;
mod sequence;
mod text;
mod texts;
mod truth;
mod value;
mod value_order;
mod word;

pub use column::{ColumnDef, ColumnType};
pub use limit::{
    DEFAULT_THRESHOLD, LimitName, MAX_AXES, MAX_COLUMNS, MAX_CONTOUR_COST, MAX_CONTOURS,
    MAX_FILE_BYTES, MAX_JOBS, MAX_LENGTH, MAX_LEVELS, MAX_PARAMETERS, MAX_PLANS, MAX_POINTS,
    MAX_PRODUCT, MAX_PROJECTION, MAX_RELATIONS, MAX_ROWS, MAX_SCRIPT_BYTES, MAX_TABLES,
    MAX_TEXT_BYTES, MAX_TEXTS, MAX_THRESHOLD, MAX_WORDS, MIN_LENGTH, MIN_LEVELS,
    limits_are_as_stated,
};
pub use op::Op;
pub use sequence::Sequence;
pub use text::Text;
pub use texts::Texts;
pub use truth::{Truth, and, certain, compare, holds, not, or};
pub use value::{NULL_WORD, Value, null_word_is_as_stated};
pub use value_order::{order, order_is_total};
pub use word::is_word;
