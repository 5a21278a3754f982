// AUDIT.

ghost use Rattle.sql_parse.specs.Reading.{GivesStatement};
ghost use Rattle.sql_parse.specs.Trees.{Audit};
ghost use Rattle.sql_parse.specs.Statements.{statement_parts};
ghost use Rattle.sql_parse.specs.Printing.{PutsParts};
ghost use Rattle.sql_parse.specs.Statements.Audit.{audit_at};

use super::numbers::{numbers, print_numbers};
use super::using::{print_using, using};
use crate::fault::ReadFault;
use crate::piece::Piece;
use crate::statement::Statement;
use crate::tree::AuditDef;
use crate::writer::Writer;
use std::alloc::{AllocError, Global};

// From the name of the bouquet on.
#[tactic(auto, unfolding(crate::specs::Statements::Audit::audit_at))]
pub(crate) fn audit<'s>(
    alloc: Global,
    piece: Piece<'s>,
) -> Result<(Statement, Piece<'s>), ReadFault>
    ensures { GivesStatement result (audit_at piece.entry) }
{
    let (name, rest) = piece.name(alloc)?;
    let (levels, rest) = numbers(alloc, rest, b"AT")?;
    let (values, rest) = using(alloc, rest)?;
    let audit = AuditDef {
        name,
        levels,
        values,
    };
    Ok((Statement::Audit(audit), rest))
}

#[tactic(auto, using(crate::proofs::Written::of_lines))]
pub(crate) fn print_audit(writer: &mut Writer, audit: &AuditDef) -> Result<(), AllocError>
    ensures { PutsParts result writer.old writer.new (statement_parts (Audit audit.now)) }
{
    writer.keyword(b"AUDIT")?;
    writer.name(&audit.name)?;
    print_numbers(writer, b"AT", audit.levels.as_slice())?;
    print_using(writer, audit.values.as_slice())
}
