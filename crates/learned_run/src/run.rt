// The run that learns. It relies on a schedule for the order and the budgets, on the steps for rows, work and what is told, and
// on the frontiers for what is skipped.
ghost use Rattle.std.specs.Prelude.{◌≡◌, ◌<◌, ◌≤◌, ◌^◌, ◌++◌, [], ◌∷◌, MatchResult, OnOk, Ok, Err};
ghost use Rattle.query_block.specs.Blocks.{block_tree, IsPutOf};
ghost use Rattle.exec_pipe.specs.Scenes.{IsEmptyContext};
ghost use Rattle.exec_pipe.specs.Engines.{IsEngine, KeepsEngine};
ghost use Rattle.exec_pipe.specs.Runs.{OnlyRuns};
ghost use Rattle.bouquet_type.specs.Trees.{bouquet_tree};
ghost use Rattle.learned_run.specs.Outcomes.{AnswersLearned};

use crate::frontiers::Frontiers;
use crate::learned::{Learned, Skip};
use crate::lesson::Lesson;
use bouquet_run::execute;
use bouquet_type::{Attempt, Bouquet, Kept, Report, RunFault, Schedule};
use db_catalog::Metered;
use ess_grid::Point;
use exec_pipe::Engine;
use known_rows::KnownRows;
use query_block::Block;
use row_stack::Space;
use std::alloc::{AllocError, Global};

// Adds the skip of an execution by this point. Fails only if memory runs out.
fn note(skips: &mut Vec<Skip>, step: Attempt<'_>, point: Point) -> Result<(), AllocError>
    requires { step.place < 2 ^ 32 }
    ensures { OnOk result (skips.new.items ≡ skips.old.items ++ record {
      contour = step.entry.contour;
      plan = step.entry.place;
      point = point;
    } ∷ []) }
{
    skips.push(Skip {
        contour: step.contour,
        plan: step.place as u32,
        point,
    })?;
    Ok(())
}

// Executes what is due, one execution after another, but for those that are ruled out, which become skips. No skip is there
// before it.
fn execute_unskipped(
    alloc: Global,
    b: &Bouquet,
    frontiers: &mut Frontiers<'_>,
    skips: &mut Vec<Skip>,
    engine: &mut Engine<'_, '_>,
) -> Result<Report, RunFault>
    requires block { IsPutOf (block_tree b.now.block) (block_tree engine.old.block.now) }
    requires frontiers { frontiers.old.bouquet ≡ b.now }
    requires skips { skips.old.items ≡ [] }
    requires engine { IsEngine engine.old }
    requires context { IsEmptyContext engine.old.meter.now (block_tree engine.old.block.now)
        engine.old.space.now }
    requires unspent { engine.old.meter.now.account.spent ≡ 0 }
    ensures answers { MatchResult result
        (λ report. AnswersLearned (bouquet_tree b.now) (block_tree engine.old.block.now)
        engine.old.meter.now.database engine.old.max_work engine.new.meter.now.account.spent
        engine.new.space.now.result.rows (Ok (record { report = report; skips = skips.new })))
        (λ fault. AnswersLearned (bouquet_tree b.now) (block_tree engine.old.block.now)
        engine.old.meter.now.database engine.old.max_work engine.new.meter.now.account.spent
        engine.new.space.now.result.rows (Err fault)) }
    ensures keeps { KeepsEngine engine.old engine.new }
{
    b.block();
    let costing = b.costing();
    let costs = b.optimal_costs();
    let mut lesson = Lesson::new(&costing);
    let mut schedule = Schedule::new(Kept::new(b));
    let mut runs = 0;
    'steps: loop {
        schedule.next(alloc)?;
        let step = schedule.attempt();
        if let Some(point) = frontiers.skip_point(alloc, step, lesson.point())? {
            note(skips, step, point)?;
            continue;
        }
        runs += 1;
        match execute(alloc, engine, step, runs) {
            Ok(Some(report)) => return Ok(report),
            Ok(None) => lesson.learn(&costing, costs, step),
            Err(fault) => return Err(fault),
        }
    }
}

/// Answers the query of a bouquet as a run does that skips what its exhausted executions have ruled out. An execution of a plan
/// that was exhausted shows that the plan's work is above its budget. Where works are at most costs, each point of the grid is
/// ruled out then at which the plan costs at most the budget. The learned point has on each axis the least level of the points
/// that are left. Where there is one, an execution is skipped if its plan covers no point of its contour's frontier at or above
/// the learned point. The last execution, without a budget, is never skipped. All executions together spend at most `max_work`
/// units; what costs are evaluated for isn't counted. They are on `block`: the bouquet's own, with some values that fit in place
/// of its parameters.
///
/// The meter has spent nothing before, and the space is empty. The errors: WorkLimit only where all executions together would
/// spend more than `max_work`, which those of an answer never do; NoMemory. After either there is no row of the result.
pub fn learn(
    alloc: Global,
    b: &Bouquet,
    block: &Block,
    meter: &mut Metered<'_>,
    space: &mut Space,
    max_work: u64,
) -> Result<Learned, RunFault>
    requires block { IsPutOf (block_tree b.now.block) (block_tree block.now) }
    requires context { IsEmptyContext meter.old (block_tree block.now) space.old }
    requires unspent { meter.old.account.spent ≡ 0 }
    ensures answers { AnswersLearned (bouquet_tree b.now) (block_tree block.now) meter.old.database
        max_work meter.new.account.spent space.new.result.rows result }
    ensures within { meter.new.account.spent ≤ max_work }
    ensures leaves { OnlyRuns meter.old meter.new space.old space.new }
{
    let costing = b.costing();
    let mut frontiers = Frontiers::new(alloc, b, &costing);
    let mut skips = Vec::new(alloc);
    let mut known = KnownRows::new();
    let mut engine = Engine {
        block,
        meter,
        space,
        known: &mut known,
        max_work,
    };
    match execute_unskipped(alloc, b, &mut frontiers, &mut skips, &mut engine) {
        Ok(report) => Ok(Learned { report, skips }),
        Err(fault) => Err(fault),
    }
}
