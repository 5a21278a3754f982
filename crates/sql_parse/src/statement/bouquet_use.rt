// A bouquet with the values that its query is given.

ghost use Rattle.sql_parse.specs.Statements.BouquetUse.{bouquet_use_at, bouquet_use_parts};

use super::using::{print_using, using};
use crate::canonical::Printed;
use crate::fault::ReadFault;
use crate::parse::Parse;
use crate::piece::Piece;
use crate::tree::RunDef;
use crate::writer::Writer;
use std::alloc::{AllocError, Global};

impl Parse for RunDef {
    ghost reads = { bouquet_use_at };

    #[tactic(auto, unfolding(crate::specs::Statements::BouquetUse::bouquet_use_at))]
    fn parse<'s>(alloc: Global, piece: Piece<'s>) -> Result<(RunDef, Piece<'s>), ReadFault> {
        let (name, rest) = piece.name(alloc)?;
        let (values, rest) = using(alloc, rest)?;
        Ok((RunDef { name, values }, rest))
    }
}

impl Printed for RunDef {
    ghost parts = { bouquet_use_parts };

    #[tactic(auto, using(crate::proofs::Written::of_lines))]
    fn print_to(&self, writer: &mut Writer) -> Result<(), AllocError> {
        writer.name(&self.name)?;
        print_using(writer, self.values.as_slice())
    }
}
