// CREATE TABLE.

ghost use Rattle.sql_parse.specs.Reading.{GivesValue, GivesStatement};
ghost use Rattle.sql_parse.specs.Trees.{CreateTable};
ghost use Rattle.sql_parse.specs.Statements.{statement_parts};
ghost use Rattle.sql_parse.specs.Printing.{PutsParts};
ghost use Rattle.sql_parse.specs.Statements.CreateTable.{varchar_at, column_type_at, column_at, create_table_at, type_parts, definition_parts};

use crate::canonical::{Printed, print_in_parentheses};
use crate::fault::ReadFault;
use crate::mark::Mark;
use crate::parse::{Parse, list_in_parentheses};
use crate::piece::Piece;
use crate::statement::Statement;
use crate::tree::TableDef;
use crate::writer::Writer;
use sql_values::{ColumnDef, ColumnType};
use std::alloc::{AllocError, Global};

#[tactic(auto, unfolding(crate::specs::Statements::CreateTable::varchar_at, crate::specs::Reading::in_parentheses_at))]
fn varchar<'s>(piece: Piece<'s>) -> Result<(ColumnType, Piece<'s>), ReadFault>
    ensures { GivesValue result (varchar_at piece.entry) }
{
    let rest = piece.expect(Mark::Varchar)?;
    let rest = rest.expect(Mark::OpenParen)?;
    let (length, rest) = rest.number()?;
    let rest = rest.expect(Mark::CloseParen)?;
    Ok((ColumnType::Varchar(length), rest))
}

#[tactic(auto, unfolding(crate::specs::Statements::CreateTable::column_type_at))]
fn column_type<'s>(piece: Piece<'s>) -> Result<(ColumnType, Piece<'s>), ReadFault>
    ensures { GivesValue result (column_type_at piece.entry) }
{
    if let Some(rest) = piece.after(Mark::Integer) {
        return Ok((ColumnType::Integer, rest));
    }
    if let Some(rest) = piece.after(Mark::Int) {
        return Ok((ColumnType::Integer, rest));
    }
    varchar(piece)
}

impl Parse for ColumnDef {
    ghost reads = { column_at };

    #[tactic(auto, unfolding(crate::specs::Statements::CreateTable::column_at))]
    fn parse<'s>(alloc: Global, piece: Piece<'s>) -> Result<(ColumnDef, Piece<'s>), ReadFault> {
        let (name, rest) = piece.name(alloc)?;
        let (kind, rest) = column_type(rest)?;
        let Some(after) = rest.after(Mark::Not) else {
            let column = ColumnDef {
                name,
                kind,
                not_null: false,
            };
            return Ok((column, rest));
        };
        let rest = after.expect(Mark::Null)?;
        let column = ColumnDef {
            name,
            kind,
            not_null: true,
        };
        Ok((column, rest))
    }
}

// From the name of the table on.
#[tactic(auto, unfolding(crate::specs::Statements::CreateTable::create_table_at))]
pub(crate) fn create_table<'s>(
    alloc: Global,
    piece: Piece<'s>,
) -> Result<(Statement, Piece<'s>), ReadFault>
    ensures { GivesStatement result (create_table_at piece.entry) }
{
    let (name, rest) = piece.name(alloc)?;
    let (columns, rest) = list_in_parentheses(alloc, rest)?;
    Ok((Statement::CreateTable(TableDef { name, columns }), rest))
}

impl Printed for ColumnDef {
    ghost parts = { definition_parts };

    #[tactic(auto, using(crate::proofs::Written::of_lines))]
    fn print_to(&self, writer: &mut Writer) -> Result<(), AllocError> {
        writer.name(&self.name)?;
        print_type(writer, self.kind)?;
        if self.not_null {
            writer.mark(Mark::Not)?;
            writer.mark(Mark::Null)?;
        }
        Ok(())
    }
}

fn print_type(writer: &mut Writer, kind: ColumnType) -> Result<(), AllocError>
    ensures { PutsParts result writer.old writer.new (type_parts kind) }
{
    match kind {
        ColumnType::Integer => writer.mark(Mark::Integer),
        ColumnType::Varchar(most) => {
            writer.mark(Mark::Varchar)?;
            writer.mark(Mark::OpenParen)?;
            writer.number(most)?;
            writer.mark(Mark::CloseParen)
        }
    }
}

#[tactic(auto, using(crate::proofs::Written::of_lines))]
pub(crate) fn print_create_table(writer: &mut Writer, table: &TableDef) -> Result<(), AllocError>
    ensures { PutsParts result writer.old writer.new (statement_parts (CreateTable table.now)) }
{
    writer.keyword(b"CREATE")?;
    writer.mark(Mark::Table)?;
    writer.name(&table.name)?;
    print_in_parentheses(writer, table.columns.as_slice())
}
