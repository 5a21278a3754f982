// The names under which the columns of an answer stand.
ghost use Rattle.std.specs.Prelude.{◌≡◌, All, IfOk, map};
ghost use Rattle.query_block.specs.Blocks.{block_tree, relation_tree, IsPlace};
ghost use Rattle.db_catalog.specs.Fits.{Fits, FitsTable};
ghost use Rattle.workspace.specs.Printed.{column_name, header_of};

use db_catalog::Database;
use query_block::{Block, ColumnAt, Relation};
use sql_values::Text;
use std::alloc::{AllocError, Global};

// The name of a column, as its table has it.
fn column_name(
    database: &Database,
    relations: &[Relation],
    at: ColumnAt,
) -> Result<Text, AllocError>
    requires place { IsPlace (map relation_tree relations.now) at }
    requires fits { All (FitsTable database.now) (map relation_tree relations.now) }
    ensures { IfOk result
        (λ name. name ≡ column_name database.now (map relation_tree relations.now) at) }
{
    let relation = &relations[at.relation as usize];
    database.columns(relation.table)[at.column as usize]
        .name
        .clone()
}

/// The names of the columns that a block asks for, in its order. A column has no alias.
pub fn header_of(alloc: Global, database: &Database, block: &Block) -> Result<Vec<Text>, AllocError>
    requires { Fits database.now (block_tree block.now) }
    ensures { IfOk result (λ names. names.items ≡ header_of database.now (block_tree block.now)) }
{
    let relations = block.relations();
    let projection = block.projection();
    let mut names = Vec::with_capacity(alloc, projection.len())?;
    for at in projection {
        names.push(column_name(database, relations, *at)?)?;
    }
    Ok(names)
}
