// COMPILE.

ghost use Rattle.sql_parse.specs.Trees.{statement_tree};
ghost use Rattle.sql_parse.specs.declared.statement.Statement.TheVariants as code;
ghost use Rattle.sql_parse.specs.Reading.{GivesValue, GivesStatement};
ghost use Rattle.sql_parse.specs.Printing.{PutsParts};
ghost use Rattle.sql_parse.specs.Statements.{statement_parts};
ghost use Rattle.sql_parse.specs.Statements.Compile.{option_at, compile_at, option_parts};

use crate::canonical::print_select;
use crate::fault::ReadFault;
use crate::mark::Mark;
use crate::piece::Piece;
use crate::query::select;
use crate::statement::Statement;
use crate::tree::CompileDef;
use crate::writer::Writer;
use std::alloc::{AllocError, Global};

// The keyword and a number, where the keyword stands.
#[tactic(auto, unfolding(crate::specs::Statements::Compile::option_at))]
fn option<'s>(piece: Piece<'s>, keyword: &[u8]) -> Result<(Option<u64>, Piece<'s>), ReadFault>
    ensures { GivesValue result (option_at keyword.now piece.entry) }
{
    let Some(after) = piece.after_word(keyword) else {
        return Ok((None, piece));
    };
    let (number, rest) = after.number()?;
    Ok((Some(number), rest))
}

// From the name of the bouquet on.
#[tactic(auto, unfolding(crate::specs::Statements::Compile::compile_at))]
pub(crate) fn compile<'s>(
    alloc: Global,
    piece: Piece<'s>,
) -> Result<(Statement, Piece<'s>), ReadFault>
    ensures { GivesStatement result (compile_at piece.entry) }
{
    let (name, rest) = piece.name(alloc)?;
    let (levels, rest) = option(rest, b"LEVELS")?;
    let (threshold, rest) = option(rest, b"THRESHOLD")?;
    let rest = rest.expect(Mark::As)?;
    let (query, rest) = select(alloc, rest)?;
    let compile = CompileDef {
        name,
        levels,
        threshold,
        query,
    };
    Ok((Statement::Compile(compile), rest))
}

fn print_option(writer: &mut Writer, keyword: &[u8], number: Option<u64>) -> Result<(), AllocError>
    ensures { PutsParts result writer.old writer.new (option_parts keyword.now number) }
{
    if let Some(number) = number {
        writer.keyword(keyword)?;
        writer.number(number)?;
    }
    Ok(())
}

#[tactic(auto, using(crate::proofs::Written::of_lines))]
pub(crate) fn print_compile(writer: &mut Writer, compile: &CompileDef) -> Result<(), AllocError>
    ensures { PutsParts result writer.old writer.new
        (statement_parts (statement_tree (code.Compile compile.now))) }
{
    writer.keyword(b"COMPILE")?;
    writer.name(&compile.name)?;
    print_option(writer, b"LEVELS", compile.levels)?;
    print_option(writer, b"THRESHOLD", compile.threshold)?;
    writer.mark(Mark::As)?;
    print_select(writer, &compile.query)
}
