// Operands and predicates.

ghost use Rattle.std.specs.Prelude.{◌≡◌, ◌<◌, ◌^◌, IfOk};
ghost use Rattle.sql_parse.specs.Trees.{condition_tree};
ghost use Rattle.sql_parse.specs.Reading.{GivesValue, GivesCondition, unsigned_at, integer_at, literal_at, operand_at, negation_at, null_test_of, between_of, range_or_list_of, predicate_at};

use crate::fault::ReadFault;
use crate::mark::Mark;
use crate::parse::{Parse, list_in_parentheses};
use crate::piece::Piece;
use crate::tree::{ColRef, Cond, Term};
use sql_lex::TokenKind;
use sql_values::Value;
use std::alloc::Global;

// A number, with a plus sign or without.
#[tactic(auto, unfolding(crate::specs::Reading::unsigned_at))]
fn unsigned<'s>(piece: Piece<'s>) -> Result<(u64, Piece<'s>), ReadFault>
    ensures value { GivesValue result (unsigned_at piece.entry) }
    ensures limit { IfOk result (λ found. found.0 < 2 ^ 63) }
{
    if let Some(after) = piece.after(Mark::Plus) {
        return after.number();
    }
    piece.number()
}

// A number with its sign.
#[tactic(auto, unfolding(crate::specs::Reading::integer_at))]
fn integer<'s>(piece: Piece<'s>) -> Result<(i64, Piece<'s>), ReadFault>
    ensures { GivesValue result (integer_at piece.entry) }
{
    if let Some(after) = piece.after(Mark::Minus) {
        let (number, rest) = after.number()?;
        return Ok((-(number as i64), rest));
    }
    let (number, rest) = unsigned(piece)?;
    Ok((number as i64, rest))
}

impl Parse for Value {
    ghost reads = { literal_at };

    #[tactic(auto, unfolding(crate::specs::Reading::literal_at))]
    fn parse<'s>(alloc: Global, piece: Piece<'s>) -> Result<(Value, Piece<'s>), ReadFault> {
        match piece.kind() {
            Some(TokenKind::Text) => {
                let (text, rest) = piece.text(alloc)?;
                Ok((Value::Text(text), rest))
            }
            _ => {
                let (number, rest) = integer(piece)?;
                Ok((Value::Int(number), rest))
            }
        }
    }
}

impl Parse for Term {
    ghost reads = { operand_at };

    #[tactic(auto, unfolding(crate::specs::Reading::operand_at))]
    fn parse<'s>(alloc: Global, piece: Piece<'s>) -> Result<(Term, Piece<'s>), ReadFault> {
        if let Some((number, rest)) = piece.parameter() {
            return Ok((Term::Parameter(number), rest));
        }
        match piece.kind() {
            Some(TokenKind::Word) => {
                let (column, rest) = ColRef::parse(alloc, piece)?;
                Ok((Term::Column(column), rest))
            }
            _ => {
                let (literal, rest) = Value::parse(alloc, piece)?;
                Ok((Term::Literal(literal), rest))
            }
        }
    }
}

// Whether NOT stands here, and what follows it.
#[tactic(auto, unfolding(crate::specs::Reading::negation_at))]
fn negation<'s>(piece: Piece<'s>) -> (bool, Piece<'s>)
    ensures { result ≡ negation_at piece.entry }
{
    match piece.after(Mark::Not) {
        Some(after) => (true, after),
        None => (false, piece),
    }
}

// A predicate from the word after IS on.
#[tactic(auto, unfolding(crate::specs::Reading::null_test_of))]
fn null_test<'s>(of: Term, piece: Piece<'s>) -> Result<(Cond, Piece<'s>), ReadFault>
    ensures { GivesCondition result (null_test_of of piece.entry) }
{
    let Term::Column(column) = of else {
        return Err(ReadFault::NotAStatement);
    };
    let (negated, rest) = negation(piece);
    let rest = rest.expect(Mark::Null)?;
    Ok((Cond::IsNull(negated, column), rest))
}

// A predicate from the operand after BETWEEN on.
#[tactic(auto, unfolding(crate::specs::Reading::between_of))]
fn between<'s>(
    alloc: Global,
    negated: bool,
    of: Term,
    piece: Piece<'s>,
) -> Result<(Cond, Piece<'s>), ReadFault>
    ensures { GivesCondition result (between_of negated of piece.entry) }
{
    let (low, rest) = Term::parse(alloc, piece)?;
    let rest = rest.expect(Mark::And)?;
    let (high, rest) = Term::parse(alloc, rest)?;
    Ok((Cond::Between(negated, of, low, high), rest))
}

// A predicate from its own NOT on, or from BETWEEN or IN on.
#[tactic(auto, unfolding(crate::specs::Reading::range_or_list_of))]
fn range_or_list<'s>(
    alloc: Global,
    of: Term,
    piece: Piece<'s>,
) -> Result<(Cond, Piece<'s>), ReadFault>
    ensures { GivesCondition result (range_or_list_of of piece.entry) }
{
    let (negated, rest) = negation(piece);
    if let Some(after) = rest.after(Mark::Between) {
        return between(alloc, negated, of, after);
    }
    let rest = rest.expect(Mark::In)?;
    let (terms, rest) = list_in_parentheses(alloc, rest)?;
    Ok((Cond::OneOf(negated, of, terms), rest))
}

// A predicate (SQL-92, 8.2 to 8.6).
#[tactic(auto, unfolding(crate::specs::Reading::predicate_at, crate::specs::Reading::predicate_of))]
pub(crate) fn predicate<'s>(alloc: Global, piece: Piece<'s>) -> Result<(Cond, Piece<'s>), ReadFault>
    ensures { GivesCondition result (predicate_at piece.entry) }
{
    let (left, rest) = Term::parse(alloc, piece)?;
    if let Some((op, after)) = rest.comparison() {
        let (right, rest) = Term::parse(alloc, after)?;
        return Ok((Cond::Compare(op, left, right), rest));
    }
    if let Some(after) = rest.after(Mark::Is) {
        return null_test(left, after);
    }
    range_or_list(alloc, left, rest)
}
