// LOAD.

ghost use Rattle.sql_parse.specs.Reading.{GivesStatement};
ghost use Rattle.sql_parse.specs.Trees.{Load};
ghost use Rattle.sql_parse.specs.Statements.{statement_parts};
ghost use Rattle.sql_parse.specs.Printing.{PutsParts};
ghost use Rattle.sql_parse.specs.Statements.Load.{load_at};

use crate::fault::ReadFault;
use crate::mark::Mark;
use crate::piece::Piece;
use crate::statement::Statement;
use crate::tree::LoadDef;
use crate::writer::Writer;
use std::alloc::{AllocError, Global};

// From the name of the file on.
#[tactic(auto, unfolding(crate::specs::Statements::Load::load_at))]
pub(crate) fn load<'s>(alloc: Global, piece: Piece<'s>) -> Result<(Statement, Piece<'s>), ReadFault>
    ensures { GivesStatement result (load_at piece.entry) }
{
    let (file, rest) = piece.text(alloc)?;
    let rest = rest.expect(Mark::Into)?;
    let (table, rest) = rest.name(alloc)?;
    Ok((Statement::Load(LoadDef { file, table }), rest))
}

pub(crate) fn print_load(writer: &mut Writer, load: &LoadDef) -> Result<(), AllocError>
    ensures { PutsParts result writer.old writer.new (statement_parts (Load load.now)) }
{
    writer.keyword(b"LOAD")?;
    writer.text(&load.file)?;
    writer.mark(Mark::Into)?;
    writer.name(&load.table)
}
