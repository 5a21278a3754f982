// CREATE INDEX.

ghost use Rattle.sql_parse.specs.Reading.{GivesStatement};
ghost use Rattle.sql_parse.specs.Trees.{CreateIndex};
ghost use Rattle.sql_parse.specs.Statements.{statement_parts};
ghost use Rattle.sql_parse.specs.Printing.{PutsParts};
ghost use Rattle.sql_parse.specs.Statements.CreateIndex.{create_index_at};

use crate::fault::ReadFault;
use crate::mark::Mark;
use crate::piece::Piece;
use crate::statement::Statement;
use crate::tree::IndexDef;
use crate::writer::Writer;
use std::alloc::{AllocError, Global};

// From the name of the index on.
#[tactic(auto, unfolding(crate::specs::Statements::CreateIndex::create_index_at, crate::specs::Reading::in_parentheses_at))]
pub(crate) fn create_index<'s>(
    alloc: Global,
    piece: Piece<'s>,
) -> Result<(Statement, Piece<'s>), ReadFault>
    ensures { GivesStatement result (create_index_at piece.entry) }
{
    let (name, rest) = piece.name(alloc)?;
    let rest = rest.expect(Mark::On)?;
    let (table, rest) = rest.name(alloc)?;
    let rest = rest.expect(Mark::OpenParen)?;
    let (column, rest) = rest.name(alloc)?;
    let rest = rest.expect(Mark::CloseParen)?;
    let index = IndexDef {
        name,
        table,
        column,
    };
    Ok((Statement::CreateIndex(index), rest))
}

pub(crate) fn print_create_index(writer: &mut Writer, index: &IndexDef) -> Result<(), AllocError>
    ensures { PutsParts result writer.old writer.new (statement_parts (CreateIndex index.now)) }
{
    writer.keyword(b"CREATE")?;
    writer.keyword(b"INDEX")?;
    writer.name(&index.name)?;
    writer.mark(Mark::On)?;
    writer.name(&index.table)?;
    writer.mark(Mark::OpenParen)?;
    writer.name(&index.column)?;
    writer.mark(Mark::CloseParen)
}
