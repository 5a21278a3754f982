// LEARN: the bouquet of a name answers with values, by a run that learns. No book takes in what the run spends.
ghost use Rattle.std.specs.Prelude.{◌≡◌, All, IfOk, OnOk, length};
ghost use Rattle.query_block.specs.Blocks.{block_tree, width_of};
ghost use Rattle.query_block.specs.Meaning.{meaning_of};
ghost use Rattle.db_catalog.specs.Fits.{Fits};
ghost use Rattle.exec_pipe.specs.Executions.{AreRowsOf};
ghost use Rattle.bouquet_type.specs.Trees.{bouquet_tree};
ghost use Rattle.bouquet_type.specs.Reports.{told_end};
ghost use Rattle.learned_run.specs.Skips.{IsSkipOf};
ghost use Rattle.sql_parse.specs.Trees.{Learn};
ghost use Rattle.workspace.specs.Returns.{ReturnsFree};
ghost use Rattle.workspace.specs.States.{world_of};
ghost use Rattle.session.specs.Bounds.{IsAnsweredWithin};
ghost use Rattle.session.specs.Learn.{learn_outcome, learned_block_answer};
ghost use Rattle.session.specs.Printed.{learned_text};
ghost use Rattle.session.specs.Uses.{IsExecutable};

use crate::answers::{rows_text, stop_of_run};
use crate::lines;
use crate::session::Session;
use crate::uses::Used;
use db_catalog::{Database, Metered};
use learned_run::{Learned, learn};
use row_stack::{RowStack, Space};
use sql_parse::RunDef;
use std::alloc::{AllocError, Global};
use workspace::{Stop, Workspace};

// What the block of a use prints, whose rows a run of its bouquet left, which learned and of which this is told.
fn print_learned(
    alloc: Global,
    database: &Database,
    used: &Used<'_>,
    rows: &RowStack,
    learned: &Learned,
) -> Result<Vec<u8>, AllocError>
    requires fits { Fits database.now (block_tree used.now.block) }
    requires rows { AreRowsOf database.now (block_tree used.now.block) rows.now.rows }
    requires wide { rows.now.width ≡ width_of (block_tree used.now.block) }
    requires count { learned.now.report.rows
        ≡ length (meaning_of database.now.tables (block_tree used.now.block)) }
    requires skips { All (IsSkipOf (bouquet_tree used.now.bouquet.now)) learned.now.skips.items }
    ensures { IfOk result (λ text. text.items ≡ learned_text database.now
        (bouquet_tree used.now.bouquet.now) (block_tree used.now.block)
        learned.now.skips.items (told_end learned.now.report)) }
{
    let mut text = rows_text(alloc, database, used.block.block(), rows)?;
    lines::push_skips(alloc, &mut text, used.bouquet, learned.skips.as_slice())?;
    lines::push_report(alloc, &mut text, &learned.report)?;
    Ok(text)
}

// What the block of a use prints, by a run of its bouquet that learns, which may spend `max_work` units.
fn learned_answer(
    alloc: Global,
    max_work: u64,
    workspace: &Workspace,
    used: &Used<'_>,
) -> Result<Vec<u8>, Stop>
    requires { IsExecutable workspace.now.database used.now }
    ensures { ReturnsFree (learned_block_answer max_work (world_of workspace.now)
        (bouquet_tree used.now.bouquet.now) (block_tree used.now.block))
        result (world_of workspace.now) }
{
    let database = workspace.database();
    let block = used.block.block();
    block.relations();
    let mut space = Space::new(alloc, block.width());
    let mut meter = Metered::new(database);
    match learn(alloc, used.bouquet, block, &mut meter, &mut space, max_work) {
        Ok(learned) => Ok(print_learned(alloc, database, used, &space.result, &learned)?),
        Err(fault) => Err(stop_of_run(fault, false)),
    }
}

impl Session {
    /// Answers the query of the bouquet of this name with the statement's values, by a run that learns.
    pub(crate) fn learn(&self, alloc: Global, max_work: u64, run: &RunDef) -> Result<Vec<u8>, Stop>
        ensures due { ReturnsFree (learn_outcome max_work (world_of self.now) run.now)
            result (world_of self.now) }
        ensures bounded { OnOk result (IsAnsweredWithin (world_of self.now) (Learn run.now)) }
    {
        let used = self.used(alloc, run)?;
        learned_answer(alloc, max_work, &self.workspace, &used)
    }
}
