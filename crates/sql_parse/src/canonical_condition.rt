// The canonical text of conditions.

ghost use Rattle.std.specs.Prelude.{◌≡◌, map};
ghost use Rattle.sql_parse.specs.Trees.{condition_tree, operands, Compare, Between, OneOf, IsNull};
ghost use Rattle.sql_parse.specs.Canonical.{is_or, is_chain, is_no_predicate, grouped_if, condition_parts, chain_parts};
ghost use Rattle.sql_parse.specs.Reading.{separator_of};
ghost use Rattle.sql_parse.specs.Printing.{PutsParts, between, is_group_in};

use crate::canonical::{Printed, print_if, print_in_parentheses};
use crate::condition::Connective;
use crate::mark::Mark;
use crate::tree::{ColRef, Cond, Term};
use crate::writer::Writer;
use sql_values::Op;
use std::alloc::AllocError;

// Appends a condition.
#[cycle(condition)]
#[tactic(auto, using(crate::proofs::Written::of_lines))]
pub(crate) fn condition(writer: &mut Writer, tree: &Cond) -> Result<(), AllocError>
    ensures { PutsParts result writer.old writer.new (condition_parts (condition_tree tree.now)) }
{
    match tree {
        Cond::Compare(op, left, right) => print_compare(writer, *op, left, right),
        Cond::Between(negated, of, low, high) => print_range(writer, *negated, of, low, high),
        Cond::OneOf(negated, of, terms) => print_one_of(writer, *negated, of, terms.as_slice()),
        Cond::IsNull(negated, column) => print_null_test(writer, *negated, column),
        Cond::Not(inner) => {
            writer.mark(Mark::Not)?;
            grouped(writer, is_no_predicate(inner), inner)
        }
        Cond::And(parts) => chain(writer, Connective::And, parts.as_slice()),
        Cond::Or(parts) => chain(writer, Connective::Or, parts.as_slice()),
    }
}

#[tactic(auto, using(crate::proofs::Written::of_lines))]
fn print_compare(writer: &mut Writer, op: Op, left: &Term, right: &Term) -> Result<(), AllocError>
    ensures { PutsParts result writer.old writer.new (condition_parts (Compare op left.now right.now)) }
{
    left.print_to(writer)?;
    writer.operator(op)?;
    right.print_to(writer)
}

#[tactic(auto, using(crate::proofs::Written::of_lines))]
fn print_range(
    writer: &mut Writer,
    negated: bool,
    of: &Term,
    low: &Term,
    high: &Term,
) -> Result<(), AllocError>
    ensures { PutsParts result writer.old writer.new
        (condition_parts (Between negated of.now low.now high.now)) }
{
    of.print_to(writer)?;
    print_if(writer, negated, Mark::Not)?;
    writer.mark(Mark::Between)?;
    low.print_to(writer)?;
    writer.mark(Mark::And)?;
    high.print_to(writer)
}

#[tactic(auto, using(crate::proofs::Written::of_lines))]
fn print_one_of(
    writer: &mut Writer,
    negated: bool,
    of: &Term,
    terms: &[Term],
) -> Result<(), AllocError>
    ensures { PutsParts result writer.old writer.new
        (condition_parts (OneOf negated of.now terms.now)) }
{
    of.print_to(writer)?;
    print_if(writer, negated, Mark::Not)?;
    writer.mark(Mark::In)?;
    print_in_parentheses(writer, terms)
}

#[tactic(auto, using(crate::proofs::Written::of_lines))]
fn print_null_test(writer: &mut Writer, negated: bool, column: &ColRef) -> Result<(), AllocError>
    ensures { PutsParts result writer.old writer.new (condition_parts (IsNull negated column.now)) }
{
    column.print_to(writer)?;
    writer.mark(Mark::Is)?;
    print_if(writer, negated, Mark::Not)?;
    writer.mark(Mark::Null)
}

// Appends a condition, in parentheses where it is to be a group.
#[cycle(condition)]
#[tactic(auto, using(crate::proofs::Written::of_lines))]
fn grouped(writer: &mut Writer, is_group: bool, tree: &Cond) -> Result<(), AllocError>
    ensures { PutsParts result writer.old writer.new
        (grouped_if is_group (condition_parts (condition_tree tree.now))) }
{
    if !is_group {
        return condition(writer, tree);
    }
    writer.mark(Mark::OpenParen)?;
    condition(writer, tree)?;
    writer.mark(Mark::CloseParen)
}

// Appends the operands of a chain.
#[cycle(condition)]
#[tactic(auto, using(crate::proofs::Written::of_lines))]
fn chain(writer: &mut Writer, connective: Connective, parts: &[Cond]) -> Result<(), AllocError>
    ensures { PutsParts result writer.old writer.new (chain_parts (separator_of connective)
        (is_group_in connective) (operands (map condition_tree parts.now))) }
{
    let keyword = connective.separator();
    for (i, part) in parts.iter().enumerate() {
        print_between(writer, i, keyword)?;
        grouped(writer, is_group_in(connective, part), part)?;
    }
    Ok(())
}

// Appends the keyword before an operand that isn't the first.
fn print_between(writer: &mut Writer, place: usize, keyword: Mark) -> Result<(), AllocError>
    ensures { PutsParts result writer.old writer.new (between place keyword) }
{
    if place > 0 {
        writer.mark(keyword)?;
    }
    Ok(())
}

// Whether a condition is to be a group as an operand of such a chain.
fn is_group_in(connective: Connective, tree: &Cond) -> bool
    ensures { result ≡ is_group_in connective (condition_tree tree.now) }
{
    match connective {
        Connective::And => is_chain(tree),
        Connective::Or => is_or(tree),
    }
}

fn is_or(tree: &Cond) -> bool
    ensures { result ≡ is_or (condition_tree tree.now) }
{
    match tree {
        Cond::Or(_) => true,
        _ => false,
    }
}

fn is_chain(tree: &Cond) -> bool
    ensures { result ≡ is_chain (condition_tree tree.now) }
{
    match tree {
        Cond::And(_) | Cond::Or(_) => true,
        _ => false,
    }
}

fn is_no_predicate(tree: &Cond) -> bool
    ensures { result ≡ is_no_predicate (condition_tree tree.now) }
{
    match tree {
        Cond::Not(_) | Cond::And(_) | Cond::Or(_) => true,
        _ => false,
    }
}
