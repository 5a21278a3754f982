// Conditions: chains of OR and of AND, NOT, and parentheses.

ghost use Rattle.std.specs.Prelude.{◌≡◌, map};
ghost use Rattle.sql_parse.specs.Trees.{condition_tree};
ghost use Rattle.sql_parse.specs.Reading.{Gives, GivesCondition, separator_of, list_with_first, node_of, level_at, part_at, factor_at, plain_factor_at, group_at};
ghost use Rattle.sql_parse.specs.declared.condition.Connective.TheVariants.{Or as OrConnective};

use crate::fault::ReadFault;
use crate::mark::Mark;
use crate::piece::Piece;
use crate::predicate::predicate;
use crate::tree::Cond;
use std::alloc::Global;

/// How deep parentheses around conditions nest at most.
pub(crate) const MAX_NESTING: usize = 32;

// What joins the parts of a chain.
#[derive(Clone, Copy)]
pub(crate) enum Connective {
    And,
    Or,
}

impl Connective {
    pub(crate) fn separator(self) -> Mark
        ensures { result ≡ separator_of self }
    {
        match self {
            Connective::And => Mark::And,
            Connective::Or => Mark::Or,
        }
    }

    // A chain of these parts.
    fn node(self, parts: Vec<Cond>) -> Cond
        ensures { condition_tree result ≡ node_of self (map condition_tree parts.items) }
    {
        match self {
            Connective::And => Cond::And(parts),
            Connective::Or => Cond::Or(parts),
        }
    }
}

// A condition, in which so many parentheses may be opened inside one another.
pub(crate) fn condition<'s>(
    alloc: Global,
    piece: Piece<'s>,
    nesting: usize,
) -> Result<(Cond, Piece<'s>), ReadFault>
    ensures { GivesCondition result
        (level_at OrConnective (group_at nesting) piece.entry) }
{
    chain(alloc, piece, Connective::Or, nesting)
}

// A chain of one or more parts. One part is itself, several are one node.
#[cycle(condition)]
#[tactic(auto, unfolding(crate::specs::Reading::chain_at))]
fn chain<'s>(
    alloc: Global,
    piece: Piece<'s>,
    connective: Connective,
    nesting: usize,
) -> Result<(Cond, Piece<'s>), ReadFault>
    ensures { GivesCondition result (level_at connective (group_at nesting) piece.entry) }
{
    let (first, rest) = part(alloc, piece, connective, nesting)?;
    if rest.after(connective.separator()).is_none() {
        return Ok((first, rest));
    }
    let (parts, rest) = parts(alloc, first, rest, connective, nesting)?;
    Ok((connective.node(parts), rest))
}

// The first part of a chain, and the parts after it.
#[cycle(condition)]
fn parts<'s>(
    alloc: Global,
    first: Cond,
    piece: Piece<'s>,
    connective: Connective,
    nesting: usize,
) -> Result<(Vec<Cond>, Piece<'s>), ReadFault>
    ensures { Gives (λ found. (map condition_tree found.0.items, found.1)) result
        (list_with_first (condition_tree first) (part_at connective (group_at nesting))
        (separator_of connective) piece.entry) }
{
    let separator = connective.separator();
    let mut parts = Vec::new(alloc);
    parts.push(first)?;
    let mut rest = piece;
    for _turn in 0..rest.len() {
        let Some(after) = rest.after(separator) else {
            return Ok((parts, rest));
        };
        let (next, following) = part(alloc, after, connective, nesting)?;
        parts.push(next)?;
        rest = following;
    }
    Ok((parts, rest))
}

// One part of a chain.
#[cycle(condition)]
fn part<'s>(
    alloc: Global,
    piece: Piece<'s>,
    connective: Connective,
    nesting: usize,
) -> Result<(Cond, Piece<'s>), ReadFault>
    ensures { GivesCondition result (part_at connective (group_at nesting) piece.entry) }
{
    match connective {
        Connective::And => factor(alloc, piece, nesting),
        Connective::Or => chain(alloc, piece, Connective::And, nesting),
    }
}

// A predicate or a condition in parentheses, with NOT or without.
#[cycle(condition)]
#[tactic(auto, unfolding(crate::specs::Reading::factor_at))]
fn factor<'s>(
    alloc: Global,
    piece: Piece<'s>,
    nesting: usize,
) -> Result<(Cond, Piece<'s>), ReadFault>
    ensures { GivesCondition result (factor_at (group_at nesting) piece.entry) }
{
    let Some(after) = piece.after(Mark::Not) else {
        return plain_factor(alloc, piece, nesting);
    };
    let (inner, rest) = plain_factor(alloc, after, nesting)?;
    let inner = Box::new(alloc, inner)?;
    Ok((Cond::Not(inner), rest))
}

// A predicate or a condition in parentheses.
#[cycle(condition)]
#[tactic(auto, unfolding(crate::specs::Reading::plain_factor_at))]
fn plain_factor<'s>(
    alloc: Global,
    piece: Piece<'s>,
    nesting: usize,
) -> Result<(Cond, Piece<'s>), ReadFault>
    ensures { GivesCondition result (plain_factor_at (group_at nesting) piece.entry) }
{
    if piece.after(Mark::OpenParen).is_none() {
        return predicate(alloc, piece);
    }
    group(alloc, piece, nesting)
}

// A condition in parentheses.
#[cycle(condition)]
#[tactic(auto, unfolding(crate::specs::Reading::group_at, crate::specs::Reading::in_parentheses_at))]
fn group<'s>(
    alloc: Global,
    piece: Piece<'s>,
    nesting: usize,
) -> Result<(Cond, Piece<'s>), ReadFault>
    ensures { GivesCondition result (group_at nesting piece.entry) }
{
    if nesting == 0 {
        return Err(ReadFault::NotAStatement);
    }
    let inside = piece.expect(Mark::OpenParen)?;
    let (tree, rest) = chain(alloc, inside, Connective::Or, nesting - 1)?;
    let Some(rest) = rest.after(Mark::CloseParen) else {
        drop(tree);
        return Err(ReadFault::NotAStatement);
    };
    Ok((tree, rest))
}
