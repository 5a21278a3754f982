// A bouquet with values: its counts are looked at, then whether the values fit, before a row is read. Of a statement that names
// several each is looked up before the next.
ghost use Rattle.std.specs.Prelude.{◌++◌, ◌∷◌, [], IfOk, OnOk, ℕ, ◌≡◌, map};
ghost use Rattle.query_block.specs.Blocks.{block_tree};
ghost use Rattle.bouquet_type.specs.Trees.{bouquet_tree};
ghost use Rattle.workspace.specs.Bouquets.{GivesDue};
ghost use Rattle.workspace.specs.States.{world_of};
ghost use Rattle.session.specs.Answered.{used_due};
ghost use Rattle.session.specs.Turns.{tasks_due};
ghost use Rattle.session.specs.Uses.{AreUsedOf, IsUsedOf, task_of_use};

use crate::put_block::PutBlock;
use crate::session::Session;
use bouquet_type::Bouquet;
use db_catalog::Database;
use sql_parse::RunDef;
use std::alloc::{AllocError, Global};
use workspace::Stop;

/// A bouquet, and the block that is executed: its own, with some values in place of its parameters.
#[derive(Drop)]
pub(crate) struct Used<'s> {
    pub(crate) bouquet: &'s Bouquet,
    pub(crate) block: PutBlock<'s>,
}

/// What is asked of several jobs: the queries of bouquets over a database, each for at most so many units of work.
#[derive(Clone, Copy)]
pub(crate) struct Asked<'s> {
    pub(crate) max_work: u64,
    pub(crate) database: &'s Database,
    pub(crate) all: &'s [Used<'s>],
}

// Puts one behind others.
fn push_used<'s>(all: &mut Vec<Used<'s>>, used: Used<'s>) -> Result<(), AllocError>
    ensures { OnOk result (all.new.items ≡ all.old.items ++ used.entry ∷ []) }
{
    all.push(used)?;
    Ok(())
}

impl Session {
    /// The bouquet of this name, whose counts are those of the tables, with the values of a use, which fit.
    pub(crate) fn used(&self, alloc: Global, run: &RunDef) -> Result<Used<'_>, Stop>
        ensures due { GivesDue (λ used. (bouquet_tree used.bouquet.now, block_tree used.block))
            (used_due (world_of self.now) run.now.name run.now.values) result }
        ensures used { IfOk result (IsUsedOf (world_of self.now) run.now) }
    {
        let bouquet = self.workspace.present(&run.name)?;
        let values = run.values.as_slice();
        bouquet.block().fits_values(values)?;
        let block = PutBlock::new(alloc, bouquet.block(), values)?;
        Ok(Used { bouquet, block })
    }

    /// Those of all uses, in order.
    pub(crate) fn all_used(&self, alloc: Global, runs: &[RunDef]) -> Result<Vec<Used<'_>>, Stop>
        ensures due { (max_work : ℕ) → GivesDue
            (λ all. map (task_of_use max_work self.now.database) all.items)
            (tasks_due max_work (world_of self.now) runs.now) result }
        ensures used { IfOk result (λ all. AreUsedOf (world_of self.now) runs.now all.items) }
    {
        let mut all = Vec::new(alloc);
        for run in runs {
            let used = self.used(alloc, run)?;
            push_used(&mut all, used)?;
        }
        Ok(all)
    }
}
