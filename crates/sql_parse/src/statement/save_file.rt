// SAVE.

ghost use Rattle.sql_parse.specs.Reading.{GivesStatement};
ghost use Rattle.sql_parse.specs.Trees.{SaveFile};
ghost use Rattle.sql_parse.specs.Statements.{statement_parts};
ghost use Rattle.sql_parse.specs.Printing.{PutsParts};
ghost use Rattle.sql_parse.specs.Statements.SaveFile.{save_file_at};

use crate::fault::ReadFault;
use crate::mark::Mark;
use crate::piece::Piece;
use crate::statement::Statement;
use crate::tree::FileDef;
use crate::writer::Writer;
use std::alloc::{AllocError, Global};

// From the name of the bouquet on.
#[tactic(auto, unfolding(crate::specs::Statements::SaveFile::save_file_at))]
pub(crate) fn save_file<'s>(
    alloc: Global,
    piece: Piece<'s>,
) -> Result<(Statement, Piece<'s>), ReadFault>
    ensures { GivesStatement result (save_file_at piece.entry) }
{
    let (name, rest) = piece.name(alloc)?;
    let rest = rest.expect(Mark::To)?;
    let (file, rest) = rest.text(alloc)?;
    Ok((Statement::SaveFile(FileDef { name, file }), rest))
}

pub(crate) fn print_save_file(writer: &mut Writer, save: &FileDef) -> Result<(), AllocError>
    ensures { PutsParts result writer.old writer.new (statement_parts (SaveFile save.now)) }
{
    writer.keyword(b"SAVE")?;
    writer.name(&save.name)?;
    writer.mark(Mark::To)?;
    writer.text(&save.file)
}
