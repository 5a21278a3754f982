// The answer of a bouquet: its run over the tables, with its rows sorted and printed, and how it ended. It reaches rows by
// the meter of the run alone, and never prints a work that its meter didn't pay. Any ladder may give it the contours.
ghost use Rattle.std.specs.Prelude.{◌≡◌, ◌+◌, ◌≤◌, IfOk, length};
ghost use Rattle.work_ledger.specs.Account.{max_account};
ghost use Rattle.query_block.specs.Blocks.{block_tree, IsPutOf, width_of};
ghost use Rattle.query_block.specs.Meaning.{meaning_of};
ghost use Rattle.db_catalog.specs.Fits.{Fits};
ghost use Rattle.exec_pipe.specs.Executions.{AreRowsOf};
ghost use Rattle.bouquet_type.specs.Ladders.{StandsAtFoot};
ghost use Rattle.bouquet_type.specs.Reports.{told_end};
ghost use Rattle.result_text.specs.Combined.{printed};
ghost use Rattle.workspace.specs.Printed.{header_of};
ghost use Rattle.workspace.specs.States.{world_of};
ghost use Rattle.session.specs.Answered.{block_answer, stop_of_run};
ghost use Rattle.session.specs.Printed.{answer_text};
ghost use Rattle.session.specs.Returns.{PaysAtMost, ReturnsDue};

use crate::lines;
use bouquet_run::{Book, run_ladder};
use bouquet_type::{Ladder, Report, RunFault};
use db_catalog::{Database, Metered};
use query_block::Block;
use result_text::print_rows;
use row_stack::{RowStack, Space};
use std::alloc::{AllocError, Global};
use workspace::{Refusal, Stop, Workspace, header_of};

/// Why a run stops that ends with this fault, by whether a book has its work.
pub(crate) fn stop_of_run(fault: RunFault, entered: bool) -> Stop
    ensures { result ≡ stop_of_run entered fault }
{
    match fault {
        RunFault::WorkLimit { spent } => Stop::Refused(Refusal::PastWork { spent, entered }),
        RunFault::NoMemory => Stop::NoMemory,
    }
}

/// The rows of a block under the names of its columns, as a run left them.
pub(crate) fn rows_text(
    alloc: Global,
    database: &Database,
    block: &Block,
    rows: &RowStack,
) -> Result<Vec<u8>, AllocError>
    requires fits { Fits database.now (block_tree block.now) }
    requires rows { AreRowsOf database.now (block_tree block.now) rows.now.rows }
    requires wide { rows.now.width ≡ width_of (block_tree block.now) }
    ensures { IfOk result (λ text. text.items ≡ printed
        (header_of database.now (block_tree block.now)) database.now.tables (block_tree block.now)) }
{
    let names = header_of(alloc, database, block)?;
    let text = print_rows(alloc, database.texts(), block, &names, rows)?;
    Ok(text)
}

/// What a block prints, whose rows a run left that ended as the report tells.
pub(crate) fn print_answer(
    alloc: Global,
    database: &Database,
    block: &Block,
    rows: &RowStack,
    report: &Report,
) -> Result<Vec<u8>, AllocError>
    requires fits { Fits database.now (block_tree block.now) }
    requires rows { AreRowsOf database.now (block_tree block.now) rows.now.rows }
    requires wide { rows.now.width ≡ width_of (block_tree block.now) }
    requires count { report.now.rows
        ≡ length (meaning_of database.now.tables (block_tree block.now)) }
    ensures { IfOk result (λ text. text.items
        ≡ answer_text database.now (block_tree block.now) (told_end report.now)) }
{
    let mut text = rows_text(alloc, database, block, rows)?;
    lines::push_report(alloc, &mut text, report)?;
    Ok(text)
}

/// What a block prints, by a run of the bouquet whose contours a ladder gives, which stands at its foot. The block is the
/// bouquet's own, with some values in place of its parameters. The run may spend `max_work` units, and what it paid is
/// entered in the book, whatever the answer.
pub(crate) fn block_answer<L: Ladder + Drop>(
    alloc: Global,
    max_work: u64,
    workspace: &Workspace,
    ladder: L,
    block: &Block,
    book: &mut Book,
) -> Result<Vec<u8>, Stop>
    requires foot { StandsAtFoot (L.state ladder) }
    requires put { IsPutOf (L.state ladder).whole.costing.block (block_tree block.now) }
    requires fits { Fits workspace.now.database (block_tree block.now) }
    requires room { book.old + max_work ≤ max_account }
    ensures due { ReturnsDue
        (block_answer max_work (world_of workspace.now) (L.state ladder).whole (block_tree block.now))
        result (world_of workspace.now) book.old book.new }
    ensures pays { PaysAtMost max_work book.old book.new }
{
    let database = workspace.database();
    block.relations();
    let mut space = Space::new(alloc, block.width());
    let mut meter = Metered::new(database);
    match run_ladder(alloc, ladder, block, &mut meter, &mut space, book, max_work) {
        Ok(report) => Ok(print_answer(alloc, database, block, &space.result, &report)?),
        Err(fault) => Err(stop_of_run(fault, true)),
    }
}
