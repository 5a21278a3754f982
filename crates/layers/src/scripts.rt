// Databases, blocks and canonical texts from scripts. The file that a LOAD names is its own text, with / for the ends of its lines:
// `LOAD 'A,B/1,7/' INTO T`. `#5 3` stands for rows of the numbers from 0 to 4, each with its rest by 3.
ghost use Rattle.std.specs.Prelude.{◌<◌, All, IfSome, length};
ghost use Rattle.sql_parse.specs.Trees.{statement_tree};
ghost use Rattle.sql_parse.specs.WellFormed.{IsWellFormed, AreWellFormed};
ghost use Rattle.sql_parse.specs.Counts.{HaveUpTo};

use crate::line::numbers_of;
use db_catalog::Database;
use query_block::Block;
use sql_bind::bind;
use sql_lex::lex;
use sql_parse::{IndexDef, LoadDef, Statement, print, read_script};
use std::alloc::Global;

// The statements of a script.
fn statements_of(alloc: Global, script: &str) -> Option<Vec<Statement>>
    ensures well_formed { IfSome result (λ read. AreWellFormed read.items) }
    ensures counted { IfSome result (λ read. HaveUpTo 1000000 read.items) }
{
    let text = script.as_bytes();
    let tokens = lex(alloc, text).ok()?;
    if tokens.len() > 1_000_000 {
        return None;
    }
    read_script(alloc, text, &tokens).ok()
}

// The number of a table.
pub(crate) fn table_of(db: &Database, name: &[u8]) -> Option<u32>
    ensures { IfSome result (λ table. table < length db.now.tables) }
{
    let table = db.table_of(name)?;
    if table < db.tables() {
        Some(table)
    } else {
        None
    }
}

fn create_index(db: &mut Database, index: &IndexDef) -> Option<()> {
    let table = table_of(db, index.table.bytes())?;
    let columns = db.columns(table);
    let place = columns.iter().position(|it| it.name == index.column)?;
    db.create_index(index.name.bytes(), table, place as u8).ok()
}

// So many rows of a number and its rest.
fn counted_rows(alloc: Global, rows: u32, rest: u32) -> Option<Vec<u8>> {
    if rest == 0 {
        return None;
    }
    let mut text = String::from_str(alloc, "A,B\n").ok()?;
    for row in 0..rows {
        writeln!(text, "{row},{}", row % rest).ok()?;
    }
    Some(text.into_bytes())
}

// The file that a text stands for.
fn file_of(alloc: Global, text: &str) -> Option<Vec<u8>> {
    if let Some(numbers) = text.strip_prefix("#") {
        let numbers = numbers_of(alloc, numbers)?;
        let [rows, rest] = numbers.as_slice() else {
            return None;
        };
        return counted_rows(alloc, *rows, *rest);
    }
    let text = text.replace(alloc, "/", "\n").ok()?;
    Some(text.into_bytes())
}

fn load(alloc: Global, db: &mut Database, load: &LoadDef) -> Option<()> {
    let table = table_of(db, load.table.bytes())?;
    let file = file_of(alloc, str::from_utf8(load.file.bytes()).ok()?)?;
    csv_load::load(alloc, db, table, &file).ok()?;
    Some(())
}

// Carries a statement out that makes or fills a table.
fn carry_out(alloc: Global, db: &mut Database, statement: &Statement) -> Option<()>
    requires { IsWellFormed (statement_tree statement.now) }
{
    match statement {
        Statement::CreateTable(table) => {
            db.create_table(table.name.bytes(), table.columns.as_slice())
                .ok()?;
            Some(())
        }
        Statement::CreateIndex(index) => create_index(db, index),
        Statement::Load(file) => load(alloc, db, file),
        _ => None,
    }
}

// Carries a script out over a database. The answer is empty.
pub(crate) fn extend(alloc: Global, db: &mut Database, script: &str) -> Option<String> {
    let statements = statements_of(alloc, script)?;
    for statement in statements.as_slice() {
        carry_out(alloc, db, statement)?;
    }
    Some(String::new(alloc))
}

// Carries a script out over a new database.
pub(crate) fn begin(alloc: Global, db: &mut Database, script: &str) -> Option<String> {
    *db = Database::new(alloc, db.key());
    extend(alloc, db, script)
}

// The block of a query.
pub(crate) fn block_of(alloc: Global, db: &Database, query: &str) -> Option<Block> {
    let statements = statements_of(alloc, query)?;
    match statements.first()? {
        Statement::Select(query) => bind(alloc, db, query).ok(),
        _ => None,
    }
}

// The canonical text of a statement.
pub(crate) fn canonical(alloc: Global, script: &str) -> Option<String> {
    let statements = statements_of(alloc, script)?;
    let text = print(alloc, statements.first()?).ok()?;
    String::from_utf8(text).ok()
}
