// The canonical text of statements and of queries: the one text in which each is written.

ghost use Rattle.std.specs.Prelude.{◌≡◌, ◌∷◌, [], ℕ, List, flat_map, option_map, IfOk};
ghost use Rattle.sql_lex.specs.Once.{AtMostOne};
ghost use Rattle.sql_parse.specs.Script.{SpellsStatement};
ghost use Rattle.sql_parse.specs.Trees.{StatementTree, statement_tree, query_tree, condition_tree};
ghost use Rattle.sql_parse.specs.Canonical.{Fixed, Name as NamePart, listed, in_parentheses, kept_if, column_parts, value_parts, operand_parts, item_parts, selection_parts, where_parts, query_parts, canonical_query};
ghost use Rattle.sql_parse.specs.Statements.{canonical};
ghost use Rattle.sql_parse.specs.Printing.{PutsParts};
ghost use Rattle.sql_parse.specs.declared.mark.Mark.TheVariants as m;

use crate::canonical_condition::condition;
use crate::mark::Mark;
use crate::statement::{Statement, print_statement};
use crate::tree::{ColRef, Cond, Item, Name, Query, Term};
use crate::writer::Writer;
use sql_values::{Sequence, Value};
use std::alloc::{AllocError, Global};

/// A statement's canonical text: keywords and names in upper case, one space between two tokens but at parentheses,
/// commas and points, INTEGER for INT, an alias only where it isn't the table's name, and no more parentheses around
/// conditions than are needed.
pub fn print(alloc: Global, statement: &Statement) -> Result<Vec<u8>, AllocError>
    ensures { IfOk result (λ text. text.items ≡ canonical (statement_tree statement.now)) }
{
    let mut writer = Writer::new(alloc);
    print_statement(&mut writer, statement)?;
    Ok(writer.into_text())
}

/// A query's canonical text.
pub fn print_query(alloc: Global, query: &Query) -> Result<Vec<u8>, AllocError>
    ensures { IfOk result (λ text. text.items ≡ canonical_query (query_tree query.now)) }
{
    let mut writer = Writer::new(alloc);
    print_select(&mut writer, query)?;
    Ok(writer.into_text())
}

/// Canonical text is read as its statement, and as no other: of a statement that has a text at all, the canonical text
/// is one, and two statements that both have one text are the same.
pub fn canonical_text_is_read()
    ensures read { (tree : StatementTree) → (text : List ℕ) × SpellsStatement text tree →
        SpellsStatement (canonical tree) tree }
    ensures once { (text : List ℕ) → AtMostOne (SpellsStatement text) }
{}

// What can be an item of a list.
pub(crate) trait Printed {
    ghost use Rattle.std.specs.Prelude.{List};
    ghost use Rattle.sql_parse.specs.Canonical.{Part};

    ghost parts: { Self → List Part };

    fn print_to(&self, writer: &mut Writer) -> Result<(), AllocError>
        ensures { PutsParts result writer.old writer.new (parts self.now) };
}

// One or more, with a comma between each two.
#[tactic(auto, using(crate::proofs::Written::of_lines))]
pub(crate) fn print_list<T: Printed>(writer: &mut Writer, items: &[T]) -> Result<(), AllocError>
    ensures { PutsParts result writer.old writer.new (listed T.parts items.now) }
{
    let [first, rest @ ..] = items else {
        return Ok(());
    };
    first.print_to(writer)?;
    print_more(writer, rest)
}

// Each item with a comma before it.
#[tactic(auto, using(crate::proofs::Written::of_lines))]
fn print_more<T: Printed>(writer: &mut Writer, items: &[T]) -> Result<(), AllocError>
    ensures { PutsParts result writer.old writer.new
        (flat_map (λ item. Fixed m.Comma ∷ T.parts item) items.now) }
{
    for item in items {
        writer.mark(Mark::Comma)?;
        item.print_to(writer)?;
    }
    Ok(())
}

// A list in parentheses.
#[tactic(auto, using(crate::proofs::Written::of_lines))]
pub(crate) fn print_in_parentheses<T: Printed>(
    writer: &mut Writer,
    items: &[T],
) -> Result<(), AllocError>
    ensures { PutsParts result writer.old writer.new (in_parentheses (listed T.parts items.now)) }
{
    writer.mark(Mark::OpenParen)?;
    print_list(writer, items)?;
    writer.mark(Mark::CloseParen)
}

// Keywords, where they are written.
pub(crate) fn print_if(writer: &mut Writer, kept: bool, keyword: Mark) -> Result<(), AllocError>
    ensures { PutsParts result writer.old writer.new (kept_if kept (keyword ∷ [])) }
{
    if kept {
        writer.mark(keyword)?;
    }
    Ok(())
}

impl Printed for ColRef {
    ghost parts = { column_parts };

    fn print_to(&self, writer: &mut Writer) -> Result<(), AllocError> {
        if let Some(alias) = &self.alias {
            writer.name(alias)?;
            writer.mark(Mark::Dot)?;
        }
        writer.name(&self.column)
    }
}

impl Printed for Name {
    ghost parts = { λ name. NamePart name ∷ [] };

    fn print_to(&self, writer: &mut Writer) -> Result<(), AllocError> {
        writer.name(self)
    }
}

impl Printed for Value {
    ghost parts = { value_parts };

    fn print_to(&self, writer: &mut Writer) -> Result<(), AllocError> {
        match self {
            Value::Int(number) => writer.integer(*number),
            Value::Text(text) => writer.text(text),
            Value::Null => writer.mark(Mark::Null),
        }
    }
}

impl Printed for Term {
    ghost parts = { operand_parts };

    fn print_to(&self, writer: &mut Writer) -> Result<(), AllocError> {
        match self {
            Term::Column(column) => column.print_to(writer),
            Term::Literal(literal) => literal.print_to(writer),
            Term::Parameter(number) => writer.parameter(*number),
        }
    }
}

impl Printed for Item {
    ghost parts = { item_parts };

    fn print_to(&self, writer: &mut Writer) -> Result<(), AllocError> {
        writer.name(&self.table)?;
        if self.alias.bytes() != self.table.bytes() {
            writer.mark(Mark::As)?;
            writer.name(&self.alias)?;
        }
        Ok(())
    }
}

fn print_selection(
    writer: &mut Writer,
    columns: &Option<Sequence<ColRef>>,
) -> Result<(), AllocError>
    ensures { PutsParts result writer.old writer.new (selection_parts columns.now) }
{
    match columns {
        None => writer.mark(Mark::Star),
        Some(columns) => print_list(writer, columns.as_slice()),
    }
}

fn print_where(writer: &mut Writer, tree: &Option<Cond>) -> Result<(), AllocError>
    ensures { PutsParts result writer.old writer.new
        (where_parts (option_map condition_tree tree.now)) }
{
    if let Some(tree) = tree {
        writer.mark(Mark::Where)?;
        condition(writer, tree)?;
    }
    Ok(())
}

#[tactic(auto, using(crate::proofs::Written::of_lines))]
pub(crate) fn print_select(writer: &mut Writer, query: &Query) -> Result<(), AllocError>
    ensures { PutsParts result writer.old writer.new (query_parts (query_tree query.now)) }
{
    writer.mark(Mark::Select)?;
    print_selection(writer, &query.columns)?;
    writer.mark(Mark::From)?;
    print_list(writer, query.from.as_slice())?;
    print_where(writer, &query.condition)
}
