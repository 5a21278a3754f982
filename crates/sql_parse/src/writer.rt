// The parts of canonical text, one after another, with the spaces between them.

ghost use Rattle.std.specs.Prelude.{◌≡◌, ◌++◌, ◌||◌, [], ◌∷◌, codes, OnOk, if◌then◌else◌};
ghost use Rattle.sql_lex.specs.Values.{doubled, quoted, comparison_text};
ghost use Rattle.sql_parse.specs.Canonical.{integer_parts, Fixed, Keyword, Name as NamePart, Number, Text as TextPart, Operator, Parameter};
ghost use Rattle.sql_parse.specs.Printing.{PutsParts, put, nothing};

use crate::mark::Mark;
use itoa::Buffer;
use sql_values::{Op, Text};
use std::alloc::{AllocError, Global};
use std::marker::Model;

// A text, and whether no space stands before the next part, whatever it is.
#[derive(Drop)]
pub(crate) struct Writer {
    text: Vec<u8>,
    joined: bool,
}

impl Model for Writer {
    ghost use Rattle.sql_parse.specs.Printing.{Line};

    ghost Value = { Line };

    ghost view = { λ writer. record { text = writer.text.items; joined = writer.joined } };
}

impl Writer {
    pub(crate) fn new(alloc: Global) -> Self
        ensures { result ≡ nothing }
    {
        Writer {
            text: Vec::new(alloc),
            joined: true,
        }
    }

    // The text.
    pub(crate) fn into_text(self) -> Vec<u8>
        ensures { result.items ≡ self.text }
    {
        let Writer { text, joined: _ } = self;
        text
    }

    // Appends a part's bytes, after a space where nothing joins it.
    #[tactic(auto, unfolding(crate::specs::Printing::put))]
    fn put(
        &mut self,
        joins_previous: bool,
        bytes: &[u8],
        joins_next: bool,
    ) -> Result<(), AllocError>
        ensures text { OnOk result (self.new.text ≡ self.old.text
            ++ ((if self.old.joined || joins_previous then [] else codes " ") ++ bytes.now)) }
        ensures joined { OnOk result (self.new.joined ≡ joins_next) }
    {
        if !self.joined && !joins_previous {
            self.text.push(b' ')?;
        }
        self.text.extend_from_slice(bytes)?;
        self.joined = joins_next;
        Ok(())
    }

    #[tactic(auto, unfolding(crate::specs::Printing::put))]
    pub(crate) fn mark(&mut self, mark: Mark) -> Result<(), AllocError>
        ensures { OnOk result (self.new ≡ put self.old (Fixed mark)) }
    {
        let joins_previous = mark.joins_previous();
        self.put(joins_previous, mark.bytes(), mark.joins_next())
    }

    // A keyword, given in upper case.
    #[tactic(auto, unfolding(crate::specs::Printing::put))]
    pub(crate) fn keyword(&mut self, word: &[u8]) -> Result<(), AllocError>
        ensures { OnOk result (self.new ≡ put self.old (Keyword word.now)) }
    {
        self.put(false, word, false)
    }

    #[tactic(auto, unfolding(crate::specs::Printing::put))]
    pub(crate) fn name(&mut self, name: &Text) -> Result<(), AllocError>
        ensures { OnOk result (self.new ≡ put self.old (NamePart name.now)) }
    {
        self.put(false, name.bytes(), false)
    }

    #[tactic(auto, unfolding(crate::specs::Printing::put))]
    pub(crate) fn number(&mut self, number: u64) -> Result<(), AllocError>
        ensures { OnOk result (self.new ≡ put self.old (Number number)) }
    {
        self.put(false, Buffer::new().format(number).as_bytes(), false)
    }

    #[tactic(auto, unfolding(crate::specs::Printing::put))]
    pub(crate) fn operator(&mut self, op: Op) -> Result<(), AllocError>
        ensures { OnOk result (self.new ≡ put self.old (Operator op)) }
    {
        self.put(false, spelling(op), false)
    }

    // A parameter, which is written `?` whatever its number.
    #[tactic(auto, unfolding(crate::specs::Printing::put))]
    pub(crate) fn parameter(&mut self, number: u32) -> Result<(), AllocError>
        ensures { OnOk result (self.new ≡ put self.old (Parameter number)) }
    {
        self.put(false, b"?", false)
    }

    // A number with a minus sign where it is below 0.
    pub(crate) fn integer(&mut self, integer: i64) -> Result<(), AllocError>
        ensures { PutsParts result self.old self.new (integer_parts integer) }
    {
        if integer < 0 {
            self.mark(Mark::Minus)?;
        }
        self.number(integer.unsigned_abs())
    }

    // A text between quotes, each quote inside doubled.
    #[tactic(auto, unfolding(crate::specs::Printing::put))]
    pub(crate) fn text(&mut self, text: &Text) -> Result<(), AllocError>
        ensures { OnOk result (self.new ≡ put self.old (TextPart text.now)) }
    {
        self.put(false, b"'", false)?;
        self.doubled(text.bytes())?;
        self.text.push(b'\'')?;
        Ok(())
    }

    // Appends bytes with each quote doubled.
    fn doubled(&mut self, bytes: &[u8]) -> Result<(), AllocError>
        ensures text { OnOk result (self.new.text ≡ self.old.text ++ doubled bytes.now) }
        ensures joined { OnOk result (self.new.joined ≡ self.old.joined) }
    {
        for byte in bytes {
            if *byte == b'\'' {
                self.text.push(b'\'')?;
            }
            self.text.push(*byte)?;
        }
        Ok(())
    }
}

// How a comparison is spelled (SQL-92, 5.2).
fn spelling(op: Op) -> &'static [u8]
    ensures { result.now ≡ comparison_text op }
{
    match op {
        Op::Eq => b"=",
        Op::Ne => b"<>",
        Op::Lt => b"<",
        Op::Le => b"<=",
        Op::Gt => b">",
        Op::Ge => b">=",
    }
}
