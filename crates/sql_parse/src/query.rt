// Columns, tables of FROM, and queries.

ghost use Rattle.std.specs.Prelude.{option_map};
ghost use Rattle.sql_parse.specs.Trees.{condition_tree, query_tree};
ghost use Rattle.sql_parse.specs.Reading.{Gives, GivesValue, colref_at, item_at, selection_at, where_at, select_at};

use crate::condition::{MAX_NESTING, condition};
use crate::fault::ReadFault;
use crate::mark::Mark;
use crate::parse::{Parse, list};
use crate::piece::Piece;
use crate::tree::{ColRef, Cond, Item, Query};
use sql_values::Sequence;
use std::alloc::Global;

impl Parse for ColRef {
    ghost reads = { colref_at };

    #[tactic(auto, unfolding(crate::specs::Reading::colref_at))]
    fn parse<'s>(alloc: Global, piece: Piece<'s>) -> Result<(ColRef, Piece<'s>), ReadFault> {
        let (first, rest) = piece.name(alloc)?;
        let Some(after) = rest.after(Mark::Dot) else {
            let column = ColRef {
                alias: None,
                column: first,
            };
            return Ok((column, rest));
        };
        let (column, rest) = after.name(alloc)?;
        let column = ColRef {
            alias: Some(first),
            column,
        };
        Ok((column, rest))
    }
}

impl Parse for Item {
    ghost reads = { item_at };

    #[tactic(auto, unfolding(crate::specs::Reading::item_at))]
    fn parse<'s>(alloc: Global, piece: Piece<'s>) -> Result<(Item, Piece<'s>), ReadFault> {
        let (table, rest) = piece.name(alloc)?;
        if let Some(after) = rest.after(Mark::As) {
            let (alias, rest) = after.name(alloc)?;
            return Ok((Item { table, alias }, rest));
        }
        match rest.name(alloc) {
            Ok((alias, rest)) => Ok((Item { table, alias }, rest)),
            Err(ReadFault::NotAStatement) => {
                let alias = table.clone()?;
                Ok((Item { table, alias }, rest))
            }
            Err(ReadFault::NoMemory) => Err(ReadFault::NoMemory),
        }
    }
}

// `*` or columns.
#[tactic(auto, unfolding(crate::specs::Reading::selection_at))]
fn selection<'s>(
    alloc: Global,
    piece: Piece<'s>,
) -> Result<(Option<Sequence<ColRef>>, Piece<'s>), ReadFault>
    ensures { GivesValue result (selection_at piece.entry) }
{
    if let Some(rest) = piece.after(Mark::Star) {
        return Ok((None, rest));
    }
    let (columns, rest) = list(alloc, piece)?;
    Ok((Some(columns), rest))
}

// The condition after WHERE, if there is one.
#[tactic(auto, unfolding(crate::specs::Reading::where_at))]
fn where_condition<'s>(
    alloc: Global,
    piece: Piece<'s>,
) -> Result<(Option<Cond>, Piece<'s>), ReadFault>
    ensures { Gives (λ found. (option_map condition_tree found.0, found.1)) result
        (where_at piece.entry) }
{
    let Some(after) = piece.after(Mark::Where) else {
        return Ok((None, piece));
    };
    let (tree, rest) = condition(alloc, after, MAX_NESTING)?;
    Ok((Some(tree), rest))
}

// A query, from its SELECT on.
#[tactic(auto, unfolding(crate::specs::Reading::select_at))]
pub(crate) fn select<'s>(alloc: Global, piece: Piece<'s>) -> Result<(Query, Piece<'s>), ReadFault>
    ensures { Gives (λ found. (query_tree found.0, found.1)) result
        (select_at piece.entry) }
{
    let rest = piece.expect(Mark::Select)?;
    let (columns, rest) = selection(alloc, rest)?;
    let rest = rest.expect(Mark::From)?;
    let (from, rest) = list(alloc, rest)?;
    let (condition, rest) = where_condition(alloc, rest)?;
    let query = Query {
        columns,
        from,
        condition,
    };
    Ok((query, rest))
}
