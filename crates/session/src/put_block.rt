// The block that is executed. Where a statement has no values it is the bouquet's own, and nothing is copied.
ghost use Rattle.std.specs.Prelude.{◌≡◌, IfOk};
ghost use Rattle.query_block.specs.Blocks.{block_tree, put_of};
ghost use Rattle.query_block.specs.Values.{FitValues};

use query_block::Block;
use sql_values::Value;
use std::alloc::{AllocError, Global};
use std::marker::Model;

/// A block with values in the places of its parameters, of which none is left: a block's own where there are none.
#[derive(Drop)]
pub(crate) struct PutBlock<'s> {
    own: &'s Block,
    put: Option<Block>,
}

impl<'s> Model for PutBlock<'s> {
    ghost use Rattle.query_block.specs.Shape.{BlockShape};
    ghost use Rattle.query_block.specs.contracts.condition.Condition as condition;
    ghost use Rattle.std.specs.Coded.{codes};
    ghost use Rattle.std.specs.Option.{option_map_or};

    ghost Value = { BlockShape };

    ghost coded = { Prim.hlevel (codes, condition.the_row.coded) };

    ghost view = { λ b. option_map_or (λ put. put) b.put b.own.now };
}

impl<'s> PutBlock<'s> {
    /// A block with these values, which fit. It takes memory only where there are some.
    pub(crate) fn new(
        alloc: Global,
        own: &'s Block,
        values: &[Value],
    ) -> Result<PutBlock<'s>, AllocError>
        requires { FitValues own.now.parameters values.now }
        ensures { IfOk result
            (λ block. block_tree block ≡ put_of values.now (block_tree own.now)) }
    {
        if values.is_empty() {
            own.relations();
            return Ok(PutBlock { own, put: None });
        }
        let put = own.put(alloc, values)?;
        Ok(PutBlock {
            own,
            put: Some(put),
        })
    }

    /// The block.
    pub(crate) fn block(&self) -> &Block
        ensures { result.now ≡ self.now }
    {
        match &self.put {
            Some(put) => put,
            None => self.own,
        }
    }
}
