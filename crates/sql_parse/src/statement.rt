// The statements of the language. Each has a production, in a file of its name: how it is read and how it is printed.
// Here they are put together: a statement is known by the word that it begins with. Those that are a word and a name, or
// a word and a bouquet with its values, need no production of their own.

ghost use Rattle.std.specs.Prelude.{◌∷◌, Option, Some, None, drop, length, ◌==◌, if◌then◌else◌};
ghost use Rattle.sql_parse.specs.Trees.{statement_tree};
ghost use Rattle.sql_parse.specs.Reading.{Gives, GivesValue, GivesStatement};
ghost use Rattle.sql_parse.specs.Canonical.{Keyword};
ghost use Rattle.sql_parse.specs.Printing.{PutsParts};
ghost use Rattle.sql_parse.specs.Statements.{among, create_at, productions, statement_at, statement_of, statement_parts};

mod audit;
mod bouquet_use;
mod compile;
mod create_index;
mod create_table;
mod load;
mod numbers;
mod open_file;
mod save_file;
mod turns;
mod using;

use crate::canonical::{Printed, print_select};
use crate::fault::ReadFault;
use crate::mark::Mark;
use crate::parse::Parse;
use crate::piece::Piece;
use crate::query::select;
use crate::tree::{
    AuditDef, CompileDef, FileDef, IndexDef, LoadDef, Name, OpenDef, Query, RunDef, TableDef,
    TurnsDef,
};
use crate::writer::Writer;
use audit::{audit, print_audit};
use compile::{compile, print_compile};
use create_index::{create_index, print_create_index};
use create_table::{create_table, print_create_table};
use load::{load, print_load};
use open_file::{open_file, print_open_file};
use save_file::{print_save_file, save_file};
use std::alloc::{AllocError, Global};
use turns::{print_turns, turns};

/// A statement of a script.
#[derive(Drop)]
pub enum Statement {
    CreateTable(TableDef),
    CreateIndex(IndexDef),
    Load(LoadDef),
    Select(Query),
    Compile(CompileDef),
    Run(RunDef),
    /// EXPLAIN of a bouquet.
    Explain(Name),
    SaveFile(FileDef),
    OpenFile(OpenDef),
    Audit(AuditDef),
    /// CHECK of a bouquet.
    Check(Name),
    /// LEARN: a run that learns.
    Learn(RunDef),
    /// TURNS: several bouquets side by side.
    Turns(TurnsDef),
}

// From the word after CREATE on.
#[tactic(auto, unfolding(crate::specs::Statements::create_at))]
fn create<'s>(alloc: Global, piece: Piece<'s>) -> Result<(Statement, Piece<'s>), ReadFault>
    ensures { GivesStatement result (create_at piece.entry) }
{
    if let Some(after) = piece.after(Mark::Table) {
        return create_table(alloc, after);
    }
    let after = piece.expect_word(b"INDEX")?;
    create_index(alloc, after)
}

// A statement that begins with none of the first five keywords.
fn other_statement<'s>(alloc: Global, piece: Piece<'s>) -> Result<(Statement, Piece<'s>), ReadFault>
    ensures { GivesStatement result (among (drop 5 productions) piece.entry) }
{
    if let Some(after) = piece.after_word(b"SAVE") {
        return save_file(alloc, after);
    }
    if let Some(after) = piece.after_word(b"OPEN") {
        return open_file(alloc, after);
    }
    if let Some(after) = piece.after_word(b"AUDIT") {
        return audit(alloc, after);
    }
    if let Some(after) = piece.after_word(b"CHECK") {
        let (name, rest) = after.name(alloc)?;
        return Ok((Statement::Check(name), rest));
    }
    if let Some(after) = piece.after_word(b"LEARN") {
        let (used, rest) = RunDef::parse(alloc, after)?;
        return Ok((Statement::Learn(used), rest));
    }
    if let Some(after) = piece.after_word(b"TURNS") {
        return turns(alloc, after);
    }
    let (query, rest) = select(alloc, piece)?;
    Ok((Statement::Select(query), rest))
}

// A statement at the front of the tokens.
#[tactic(auto, unfolding(crate::specs::Statements::statement_at))]
fn first_statement<'s>(alloc: Global, piece: Piece<'s>) -> Result<(Statement, Piece<'s>), ReadFault>
    ensures { GivesStatement result (statement_at piece.entry) }
{
    if let Some(after) = piece.after_word(b"CREATE") {
        return create(alloc, after);
    }
    if let Some(after) = piece.after_word(b"LOAD") {
        return load(alloc, after);
    }
    if let Some(after) = piece.after_word(b"COMPILE") {
        return compile(alloc, after);
    }
    if let Some(after) = piece.after_word(b"RUN") {
        let (used, rest) = RunDef::parse(alloc, after)?;
        return Ok((Statement::Run(used), rest));
    }
    if let Some(after) = piece.after_word(b"EXPLAIN") {
        let (name, rest) = after.name(alloc)?;
        return Ok((Statement::Explain(name), rest));
    }
    other_statement(alloc, piece)
}

// A value after which no token is left.
fn only<T: Drop>(value: T, rest: Piece) -> Result<T, ReadFault>
    ensures { GivesValue result (if length rest.entry == 0 then Some value else None) }
{
    if rest.len() == 0 {
        Ok(value)
    } else {
        Err(ReadFault::NotAStatement)
    }
}

// The statement of a whole piece.
#[tactic(auto, unfolding(crate::specs::Statements::statement_of))]
pub(crate) fn whole_statement(alloc: Global, piece: Piece) -> Result<Statement, ReadFault>
    ensures { Gives statement_tree result (statement_of piece.entry) }
{
    let (statement, rest) = first_statement(alloc, piece)?;
    only(statement, rest)
}

// Appends a keyword, and what is written after it.
fn print_after<T: Printed>(writer: &mut Writer, keyword: &[u8], value: &T) -> Result<(), AllocError>
    ensures { PutsParts result writer.old writer.new (Keyword keyword.now ∷ T.parts value.now) }
{
    writer.keyword(keyword)?;
    value.print_to(writer)
}

// Appends a statement.
pub(crate) fn print_statement(writer: &mut Writer, statement: &Statement) -> Result<(), AllocError>
    ensures { PutsParts result writer.old writer.new (statement_parts (statement_tree statement.now)) }
{
    match statement {
        Statement::CreateTable(table) => print_create_table(writer, table),
        Statement::CreateIndex(index) => print_create_index(writer, index),
        Statement::Load(load) => print_load(writer, load),
        Statement::Select(query) => print_select(writer, query),
        Statement::Compile(compile) => print_compile(writer, compile),
        Statement::Run(run) => print_after(writer, b"RUN", run),
        Statement::Explain(name) => print_after(writer, b"EXPLAIN", name),
        Statement::SaveFile(save) => print_save_file(writer, save),
        Statement::OpenFile(opened) => print_open_file(writer, opened),
        Statement::Audit(audit) => print_audit(writer, audit),
        Statement::Check(name) => print_after(writer, b"CHECK", name),
        Statement::Learn(run) => print_after(writer, b"LEARN", run),
        Statement::Turns(turns) => print_turns(writer, turns),
    }
}
