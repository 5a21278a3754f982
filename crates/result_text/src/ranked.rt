// The texts of a dictionary, and behind them some of them again, in ascending order: so that one list has both the texts
// that were ranked and those that weren't.
ghost use Rattle.std.specs.Prelude.{◌++◌};

use crate::short_text::SortedTexts;
use crate::texts::TextList;
use sql_values::Texts;

/// The texts of a dictionary, and those that stand behind them.
#[derive(Drop)]
pub(crate) struct RankedTexts<'a> {
    pub(crate) known: &'a Texts,
    pub(crate) sorted: SortedTexts<'a>,
}

impl TextList for RankedTexts<'_> {
    ghost texts = { λ t. t.known.now ++ t.sorted };

    fn text_at(&self, place: i64) -> &[u8] {
        let count = self.known.len() as i64;
        if place < count {
            self.known.text_of(place)
        } else {
            self.sorted.text_at(place - count)
        }
    }
}
