// A job: a query that is answered by turns. It has a meter, two stacks and what its executions learned of its own.
ghost use Rattle.std.specs.Prelude.{◌≡◌, ◌≤◌, All, false, option_map};
ghost use Rattle.query_block.specs.Blocks.{block_tree, IsPutOf};
ghost use Rattle.plan_tree.specs.Plans.{plan_tree};
ghost use Rattle.plan_tree.specs.Enumerated.{IsPlan};
ghost use Rattle.db_catalog.specs.Fits.{Fits};
ghost use Rattle.known_rows.specs.Remembering.{Remembers};
ghost use Rattle.exec_pipe.specs.Counting.{Knows};
ghost use Rattle.exec_pipe.specs.Runs.{OnlyRunsWithin};
ghost use Rattle.exec_pipe.specs.Scenes.{MayRun};
ghost use Rattle.exec_pipe.specs.Starting.{plan_work};
ghost use Rattle.bouquet_type.specs.Cursor.{attempt_tree};
ghost use Rattle.bouquet_type.specs.Trees.{bouquet_tree};
ghost use Rattle.bouquet_run.specs.Coming.{TellsStep, coming};
ghost use Rattle.turns.specs.Standing.{fresh_job};
ghost use Rattle.turns.specs.Jobs.{IsJob, job_tree, report_of, job_state_of, task_of};
ghost use Rattle.turns.specs.Taking.{TakesTurn, is_running};
ghost use Rattle.turns.specs.declared.progress.Progress.TheVariants.{Running};

use crate::progress::{Progress, progress_by};
use crate::state::JobState;
use crate::turn::Turn;
use bouquet_run::execute;
use bouquet_type::{Attempt, Bouquet, Kept, Report, RunFault, Schedule};
use db_catalog::{Database, Metered};
use exec_pipe::Engine;
use known_rows::KnownRows;
use query_block::Block;
use row_stack::{RowStack, Space};
use std::alloc::{AllocError, Global};
use std::marker::Model;

// What a job lends its executions, besides its rows.
#[derive(Drop)]
struct Executor<'e, 'd> {
    block: &'e Block,
    most: u64,
    meter: &'e mut Metered<'d>,
    known: &'e mut KnownRows,
}

// Executes a plan over what a job lends, as the execution of this number.
fn execute_over(
    alloc: Global,
    executor: &mut Executor<'_, '_>,
    space: &mut Space,
    attempt: Attempt<'_>,
    runs: u32,
) -> Result<Option<Report>, RunFault>
    requires runs { MayRun executor.old.meter.now executor.old.block.now attempt.plan.now space.old }
    requires coming { All (λ p. IsPlan (block_tree executor.old.block.now) (plan_tree p))
        attempt.coming.now }
    requires known { Knows executor.old.meter.now executor.old.block.now executor.old.known.now }
    requires left { executor.old.meter.now.account.spent ≤ executor.old.most }
    ensures tells { TellsStep executor.old.meter.now.database (block_tree executor.old.block.now)
        executor.old.most
        (coming executor.old.most executor.old.meter.now.account.spent runs
        (plan_work executor.old.meter.now executor.old.block.now attempt.entry.plan.now)
        (attempt_tree attempt.entry))
        executor.new.meter.now.account.spent space.new.result.rows result }
    ensures leaves { OnlyRunsWithin executor.old.most executor.old.meter.now executor.new.meter.now
        space.old space.new }
    ensures known { Knows executor.old.meter.now executor.old.block.now executor.new.known.now }
    ensures remembers { Remembers executor.old.known.now executor.new.known.now }
    ensures lent { (executor.new.meter.ghost_name ≡ executor.old.meter.ghost_name)
        × (executor.new.known.ghost_name ≡ executor.old.known.ghost_name) }
{
    let mut engine = Engine {
        block: executor.block,
        meter: executor.meter,
        space,
        known: executor.known,
        max_work: executor.most,
    };
    execute(alloc, &mut engine, attempt, runs)
}

/// A query that is answered by turns: the run of a bouquet, which may stop after each execution and go on later.
#[derive(Drop)]
pub struct Job<'d> {
    block: &'d Block,
    max_work: u64,
    schedule: Schedule<Kept<'d>>,
    meter: Metered<'d>,
    space: Space,
    known: KnownRows,
    progress: Progress,
}

impl<'d> Model for Job<'d> {
    ghost use Rattle.query_block.specs.contracts.condition.Condition as condition;
    ghost use Rattle.plan_tree.specs.contracts.plan.Plan as plan;
    ghost use Rattle.std.specs.Coded.{codes};
    ghost use Rattle.exec_pipe.specs.Counting.{Knows};
    ghost use Rattle.turns.specs.Jobs.{IsJob, JobShape};

    ghost Value = { JobShape };

    ghost coded = { Prim.hlevel (codes, condition.the_row.coded, plan.the_row.coded) };

    ghost view = { λ j. record {
      meter = j.meter;
      space = j.space;
      known = j.known;
      ladder = j.schedule.ladder;
      given = j.schedule.given;
      budget = j.schedule.budget;
      number = j.schedule.number;
      block = j.block.now;
      most = j.max_work;
      progress = j.progress;
    } };

    ghost invariant = { λ j. IsJob (record {
      meter = j.meter;
      space = j.space;
      known = j.known;
      ladder = j.schedule.ladder;
      given = j.schedule.given;
      budget = j.schedule.budget;
      number = j.schedule.number;
      block = j.block.now;
      most = j.max_work;
      progress = j.progress;
    }) × Knows j.meter j.block.now j.known };
}

impl<'d> Job<'d> {
    /// A job before its first turn: the query of a bouquet over a database, on `block`, which is the bouquet's own with some
    /// values that fit in place of its parameters. All its executions together spend at most `max_work` units. It takes no
    /// memory.
    pub fn new(
        alloc: Global,
        db: &'d Database,
        b: &'d Bouquet,
        block: &'d Block,
        max_work: u64,
    ) -> Job<'d>
        requires block { IsPutOf (block_tree b.now.block) (block_tree block.now) }
        requires fits { Fits db.now (block_tree block.now) }
        ensures task { task_of result ≡ record {
          database = db.now;
          bouquet = bouquet_tree b.now;
          block = block_tree block.now;
          most = max_work;
        } }
        ensures fresh { (job_tree result).standing ≡ fresh_job (task_of result) }
    {
        block.relations();
        Job {
            block,
            max_work,
            schedule: Schedule::new(Kept::new(b)),
            meter: Metered::new(db),
            space: Space::new(alloc, block.width()),
            known: KnownRows::new(),
            progress: Progress::Running { place: 0 },
        }
    }

    /// How it stands.
    pub fn state(&self) -> JobState
        ensures state { result ≡ job_state_of self.now.progress }
        ensures job { IsJob self.now }
    {
        self.progress.state()
    }

    /// How its query was answered. None where it isn't answered.
    pub fn report(&self) -> Option<&Report>
        ensures { option_map (λ report. report.now) result ≡ report_of self.now.progress }
    {
        self.progress.report()
    }

    /// The rows of its answer, in no order. There are none where it isn't answered.
    pub fn rows(&self) -> &RowStack
        ensures rows { result.now ≡ self.now.space.result }
        ensures job { IsJob self.now }
    {
        &self.space.result
    }

    /// What all its executions have spent, in units of work.
    pub fn spent(&self) -> u128
        ensures { result ≡ self.now.meter.account.spent }
    {
        self.meter.spent()
    }

    // Whether it takes further turns.
    pub(crate) fn is_running(&self) -> bool
        ensures { result ≡ is_running (job_tree self.now).standing }
    {
        matches!(self.progress, Progress::Running { place: _ })
    }

    // A turn of it, which has this number among jobs: the next execution, where it runs. Out of memory nothing changed, or it
    // is broken. Where it doesn't run, nothing changes at all, and only a broken one answers an error.
    pub(crate) fn turn(&mut self, alloc: Global, number: u32) -> Result<Option<Turn>, AllocError>
        ensures takes { TakesTurn number (job_tree self.old) (job_tree self.new) result }
        ensures remembers { Remembers self.old.known self.new.known }
        ensures idle { is_running (job_tree self.old).standing ≡ false → self.new ≡ self.old }
    {
        match self.progress {
            Progress::Running { place } => self.step(alloc, number, place),
            Progress::Broken => Err(AllocError),
            _ => Ok(None),
        }
    }

    // The next execution of a job that has taken so many turns. Nothing that it knew is forgotten.
    fn step(&mut self, alloc: Global, number: u32, place: u32) -> Result<Option<Turn>, AllocError>
        requires { self.old.progress ≡ Running place }
        ensures takes { TakesTurn number (job_tree self.old) (job_tree self.new) result }
        ensures remembers { Remembers self.old.known self.new.known }
    {
        self.schedule.next(alloc)?;
        let attempt = self.schedule.attempt();
        let contour = attempt.contour;
        let mut executor = Executor {
            block: self.block,
            most: self.max_work,
            meter: &mut self.meter,
            known: &mut self.known,
        };
        let made = execute_over(alloc, &mut executor, &mut self.space, attempt, place + 1);
        self.progress = progress_by(made, place + 1);
        if let Progress::Broken = self.progress {
            return Err(AllocError);
        }
        Ok(Some(Turn {
            job: number,
            contour,
            place: place + 1,
            spent: self.meter.spent(),
        }))
    }
}
