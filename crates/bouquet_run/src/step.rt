// The step. It relies on the execution for rows and work; what it adds is what is told of it.
ghost use Rattle.std.specs.Prelude.{◌≡◌, All};
ghost use Rattle.query_block.specs.Blocks.{block_tree};
ghost use Rattle.plan_tree.specs.Plans.{plan_tree};
ghost use Rattle.plan_tree.specs.Enumerated.{IsPlan};
ghost use Rattle.exec_pipe.specs.Engines.{KeepsEngine, MayExecute};
ghost use Rattle.exec_pipe.specs.Runs.{OnlyRuns};
ghost use Rattle.bouquet_run.specs.Coming.{TellsEnd};
ghost use Rattle.bouquet_run.specs.Running.{TellsExecution};

use bouquet_type::{Attempt, Report, RunFault};
use db_catalog::Metered;
use exec_pipe::{Engine, Outcome, RunStop};
use plan_tree::copy;
use row_stack::Space;
use std::alloc::Global;

// The fault of a run one of whose executions stopped.
fn fault_of(stop: RunStop, max_work: u64) -> RunFault
    ensures limit { stop ≡ RunStop.WorkLimit → result ≡ RunFault.WorkLimit max_work }
    ensures memory { stop ≡ RunStop.NoMemory → result ≡ RunFault.NoMemory }
{
    match stop {
        RunStop::WorkLimit => RunFault::WorkLimit {
            spent: u128::from(max_work),
        },
        RunStop::NoMemory => RunFault::NoMemory,
    }
}

// What is told of a run that this execution ended, the last of so many; out of memory its rows are given back.
fn report(
    alloc: Global,
    attempt: Attempt<'_>,
    runs: u32,
    meter: &Metered<'_>,
    space: &mut Space,
) -> Result<Report, RunFault>
    ensures tells { TellsEnd (record {
      plan = plan_tree attempt.entry.plan.now;
      total = meter.now.account.spent;
      runs = runs;
      contour = attempt.entry.contour;
    }) space.old space.new result }
    ensures leaves { OnlyRuns meter.now meter.now space.old space.new }
{
    let rows = space.result.len();
    match copy(alloc, attempt.plan) {
        Ok(plan) => Ok(Report::new(plan, rows, meter.spent(), runs, attempt.contour)),
        Err(_) => {
            space.result.release(0);
            Err(RunFault::NoMemory)
        }
    }
}

/// Executes a plan as the execution of this number, from 1, where all executions together may spend at most as much as the
/// engine may. A report tells how the run ends if the plan is done; None says that it was stopped at its budget, and left no
/// row.
///
/// The errors: WorkLimit only where what the executions spend is more than the engine may, and all of that is spent then;
/// NoMemory. After either there is no row of the result.
pub fn execute(
    alloc: Global,
    engine: &mut Engine<'_, '_>,
    attempt: Attempt<'_>,
    runs: u32,
) -> Result<Option<Report>, RunFault>
    requires executes { MayExecute engine.old attempt.plan.now }
    requires coming { All (λ p. IsPlan (block_tree engine.old.block.now) (plan_tree p))
        attempt.coming.now }
    ensures tells { TellsExecution engine.old engine.new runs attempt.entry result }
    ensures keeps { KeepsEngine engine.old engine.new }
{
    match engine.execute(alloc, attempt.plan, attempt.coming, attempt.budget) {
        Ok(Outcome::Done) => Ok(Some(report(alloc, attempt, runs, engine.meter, engine.space)?)),
        Ok(Outcome::Exhausted) => Ok(None),
        Err(stop) => Err(fault_of(stop, engine.max_work)),
    }
}
