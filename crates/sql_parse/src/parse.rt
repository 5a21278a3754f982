// What can be read from the front of tokens, and lists of it.

ghost use Rattle.std.specs.Prelude.{List};
ghost use Rattle.sql_parse.specs.declared.mark.Mark.{Mark as TheMark};
ghost use Rattle.sql_parse.specs.declared.mark.Mark.TheVariants.{Comma};
ghost use Rattle.sql_parse.specs.Reading.{Reader, GivesValue, list_with_first, list_at, in_parentheses_at};

use crate::fault::ReadFault;
use crate::mark::Mark;
use crate::piece::Piece;
use sql_values::Sequence;
use std::alloc::Global;

// A value that can be read from the front of tokens.
pub(crate) trait Parse: Drop {
    ghost reads: { Reader Self };

    fn parse<'s>(alloc: Global, piece: Piece<'s>) -> Result<(Self, Piece<'s>), ReadFault>
        ensures { GivesValue result (reads piece.entry) };
}

// One or more, with a comma between each two.
#[tactic(auto, unfolding(crate::specs::Reading::list_at))]
pub(crate) fn list<'s, T: Parse>(
    alloc: Global,
    piece: Piece<'s>,
) -> Result<(Sequence<T>, Piece<'s>), ReadFault>
    ensures { GivesValue result (list_at T.reads Comma piece.entry) }
{
    let (first, rest) = T::parse(alloc, piece)?;
    list_with_first(alloc, first, rest)
}

// A list whose first item is read.
fn list_with_first<'s, T: Parse>(
    alloc: Global,
    first: T,
    piece: Piece<'s>,
) -> Result<(Sequence<T>, Piece<'s>), ReadFault>
    ensures { GivesValue result (list_with_first first T.reads Comma piece.entry) }
{
    let mut items = Vec::new(alloc);
    items.push(first)?;
    let mut rest = piece;
    for _turn in 0..rest.len() {
        let Some(after) = rest.after(Mark::Comma) else {
            return Ok((Sequence::from(items), rest));
        };
        let (item, next) = T::parse(alloc, after)?;
        items.push(item)?;
        rest = next;
    }
    Ok((Sequence::from(items), rest))
}

// A list in parentheses.
#[tactic(auto, unfolding(crate::specs::Reading::in_parentheses_at))]
pub(crate) fn list_in_parentheses<'s, T: Parse>(
    alloc: Global,
    piece: Piece<'s>,
) -> Result<(Sequence<T>, Piece<'s>), ReadFault>
    ensures { GivesValue result (in_parentheses_at (list_at T.reads Comma) piece.entry) }
{
    let inside = piece.expect(Mark::OpenParen)?;
    let (items, rest) = list(alloc, inside)?;
    let rest = rest.expect(Mark::CloseParen)?;
    Ok((items, rest))
}
