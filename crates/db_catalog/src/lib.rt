//! The database: tables of typed columns under their names, their rows and indexes, the dictionary of their texts, and the
//! meter through which alone a row is read.
//! To the layers above a database is a list of tables of values. Earlier rows stay where they are, an index has exactly
//! the entries of its column, a refusal names the first check that fails and changes nothing, and each row that the meter
//! lends is paid, or lies on a page that was paid with all its rows: the meter asks for the key to it, which only that
//! payment makes. It tells whether a block still stands over its tables.
//! It never reads a file or a statement, and never changes or drops a row.
#![tactic(auto)]

mod batch;
mod check;
mod column_range;
mod columns;
mod database;
mod entries;
mod fault;
mod fits;
mod indexes;
mod marks;
mod metered;
mod near;
mod opened_page;
mod page_marks;
mod plain;
mod recode;
mod room;
mod table;

pub use batch::Batch;
pub use column_range::{ColumnRange, row_in};
pub use database::Database;
pub use fault::DbFault;
pub use fits::blocks_fit_as_a_database_grows;
pub use heap_pages::RowSpan;
pub use indexes::an_index_is_its_column_in_order;
pub use marks::RowMarks;
pub use metered::Metered;
pub use opened_page::OpenedPage;
pub use page_marks::PageMarks;
