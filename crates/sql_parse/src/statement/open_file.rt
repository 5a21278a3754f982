// OPEN.

ghost use Rattle.sql_parse.specs.Trees.{statement_tree};
ghost use Rattle.sql_parse.specs.declared.statement.Statement.TheVariants as code;
ghost use Rattle.sql_parse.specs.Reading.{GivesStatement};
ghost use Rattle.sql_parse.specs.Printing.{PutsParts};
ghost use Rattle.sql_parse.specs.Statements.{statement_parts};
ghost use Rattle.sql_parse.specs.Statements.OpenFile.{open_file_at};

use crate::canonical::print_select;
use crate::fault::ReadFault;
use crate::mark::Mark;
use crate::piece::Piece;
use crate::query::select;
use crate::statement::Statement;
use crate::tree::OpenDef;
use crate::writer::Writer;
use std::alloc::{AllocError, Global};

// From the name of the bouquet on.
#[tactic(auto, unfolding(crate::specs::Statements::OpenFile::open_file_at))]
pub(crate) fn open_file<'s>(
    alloc: Global,
    piece: Piece<'s>,
) -> Result<(Statement, Piece<'s>), ReadFault>
    ensures { GivesStatement result (open_file_at piece.entry) }
{
    let (name, rest) = piece.name(alloc)?;
    let rest = rest.expect(Mark::From)?;
    let (file, rest) = rest.text(alloc)?;
    let rest = rest.expect(Mark::As)?;
    let (query, rest) = select(alloc, rest)?;
    Ok((Statement::OpenFile(OpenDef { name, file, query }), rest))
}

#[tactic(auto, using(crate::proofs::Written::of_lines))]
pub(crate) fn print_open_file(writer: &mut Writer, opened: &OpenDef) -> Result<(), AllocError>
    ensures { PutsParts result writer.old writer.new
        (statement_parts (statement_tree (code.OpenFile opened.now))) }
{
    writer.keyword(b"OPEN")?;
    writer.name(&opened.name)?;
    writer.mark(Mark::From)?;
    writer.text(&opened.file)?;
    writer.mark(Mark::As)?;
    print_select(writer, &opened.query)
}
