// Whether a block still stands over the tables that it was bound to. Nothing here takes memory or changes anything.
ghost use Rattle.std.specs.Prelude.{◌≡◌, ◌↔◌, ℕ, All, Contains, List, IsTrue, map};
ghost use Rattle.sql_values.specs.Stored.{StoredTable, ValueRow};
ghost use Rattle.query_block.specs.Blocks.{BlockTree, block_tree, relation_tree};
ghost use Rattle.db_catalog.specs.Database.{DatabaseState, with_rows, with_table, with_index};
ghost use Rattle.db_catalog.specs.Fits.{Fits, FitsTable};

use crate::database::Database;
use query_block::{Block, Relation};
use sql_values::{ColumnDef, ColumnType};

// Whether these columns hold exactly these kinds, in this order.
fn hold_kinds(columns: &[ColumnDef], kinds: &[ColumnType]) -> bool
    ensures { IsTrue result ↔ (kinds.now ≡ map (λ column. column.kind) columns.now) }
{
    if columns.len() != kinds.len() {
        return false;
    }
    for i in 0..kinds.len() {
        if kinds[i] != columns[i].kind {
            return false;
        }
    }
    true
}

// Whether a column is among the indexed ones.
fn is_indexed(indexed: &[u8], column: u8) -> bool
    ensures { IsTrue result ↔ Contains indexed.now column }
{
    indexed.contains(&column)
}

// Whether each of these columns is.
fn are_indexed(indexed: &[u8], columns: &[u8]) -> bool
    ensures { IsTrue result ↔ All (λ column. Contains indexed.now column) columns.now }
{
    for column in columns {
        if !is_indexed(indexed, *column) {
            return false;
        }
    }
    true
}

impl Database {
    // Whether a relation's table is there, with its columns and its indexes.
    fn fits_table(&self, relation: &Relation) -> bool
        ensures { IsTrue result ↔ FitsTable self.now (relation_tree relation.now) }
    {
        if relation.table >= self.tables() {
            return false;
        }
        hold_kinds(self.columns(relation.table), relation.columns.as_slice())
            && are_indexed(self.indexes(relation.table), relation.indexes.as_slice())
    }

    /// Whether each table of a block is there, with the block's columns and their types, and each of its indexed columns
    /// is indexed. It takes no memory.
    pub fn fits(&self, block: &Block) -> bool
        ensures { IsTrue result ↔ Fits self.now (block_tree block.now) }
    {
        for relation in block.relations() {
            if !self.fits_table(relation) {
                return false;
            }
        }
        true
    }
}

/// A law: a block that fits a database fits it too once there are more rows in it, a table more, or an index more.
pub fn blocks_fit_as_a_database_grows()
    ensures rows { (database : DatabaseState) (number : ℕ) (rows : List ValueRow) (block : BlockTree)
        → Fits database block → Fits (with_rows database number rows) block }
    ensures table { (database : DatabaseState) (table : StoredTable) (block : BlockTree)
        → Fits database block → Fits (with_table database table) block }
    ensures index { (database : DatabaseState) (name : List ℕ) (number column : ℕ) (block : BlockTree)
        → Fits database block → Fits (with_index database name number column) block }
{}
