// TURNS: every use is looked up, and every number of BY, before a row is read. No book takes in what the jobs spend.
ghost use Rattle.std.specs.Prelude.{◌≡◌, ◌<◌, ◌≤◌, ℕ, List, None, All, IfOk, OnOk, length, map};
ghost use Rattle.std.specs.List.{list_any};
ghost use Rattle.sql_values.specs.Limits.{max_jobs};
ghost use Rattle.sql_parse.specs.Trees.{Turns};
ghost use Rattle.turns.specs.Jobs.{job_tree};
ghost use Rattle.workspace.specs.Outcome.{RefusesFound};
ghost use Rattle.workspace.specs.Returns.{ReturnsFree};
ghost use Rattle.workspace.specs.States.{world_of};
ghost use Rattle.workspace.specs.World.{World};
ghost use Rattle.session.specs.Bounds.{IsAnsweredWithin};
ghost use Rattle.session.specs.Turns.{fresh_jobs, is_past, jobs_refusal, numbers_from_0, turn_refusal, turns_answer, turns_outcome};
ghost use Rattle.session.specs.Uses.{IsExecutable, task_of_use};

use crate::session::Session;
use crate::turn_lines::turns_text;
use crate::uses::{Asked, Used};
use sql_parse::TurnsDef;
use sql_values::MAX_JOBS;
use std::alloc::{AllocError, Global};
use turns::{Job, JobState, finish_turns, take_turns};
use workspace::{Refusal, Stop, Workspace};

// Refuses more bouquets than may take turns.
fn check_jobs(count: usize) -> Result<(), Refusal>
    ensures { RefusesFound (jobs_refusal count) result }
{
    if count > MAX_JOBS {
        return Err(Refusal::TooManyJobs(count));
    }
    Ok(())
}

// Refuses the first of these numbers that isn't that of one of so many jobs, from 1.
fn check_turns(count: usize, by: &[u64]) -> Result<(), Refusal>
    ensures { RefusesFound (turn_refusal count by.now) result }
{
    for number in by {
        if *number == 0 || *number > count as u64 {
            return Err(Refusal::NoTurn(*number));
        }
    }
    Ok(())
}

// These numbers, each of which is that of one of so many jobs, from 0.
fn numbers_from_0(alloc: Global, count: usize, by: &[u64]) -> Result<Vec<u32>, AllocError>
    requires few { count ≤ max_jobs }
    requires right { turn_refusal count by.now ≡ None }
    ensures numbers { IfOk result (λ numbers. numbers.items ≡ numbers_from_0 by.now) }
    ensures there { IfOk result (λ numbers. All (λ number. number < count) numbers.items) }
{
    let mut numbers = Vec::new(alloc);
    for number in by {
        numbers.push(*number as u32 - 1)?;
    }
    Ok(numbers)
}

// The jobs of which this is asked, before their first turns.
fn jobs_of<'u>(alloc: Global, asked: &Asked<'u>) -> Result<Vec<Job<'u>>, AllocError>
    requires { All (IsExecutable asked.now.database.now) asked.now.all.now }
    ensures { IfOk result (λ jobs. map job_tree jobs.items ≡ fresh_jobs
        (map (task_of_use asked.now.max_work asked.now.database.now) asked.now.all.now)) }
{
    let database = asked.database;
    let all = asked.all;
    let mut jobs = Vec::new(alloc);
    for used in all {
        jobs.push(Job::new(
            alloc,
            database,
            used.bouquet,
            used.block.block(),
            asked.max_work,
        ))?;
    }
    Ok(jobs)
}

// Whether a job is past the most work.
fn any_past(jobs: &[Job<'_>]) -> bool
    ensures { result ≡ list_any is_past (map job_tree jobs.now) }
{
    for job in jobs {
        if matches!(job.state(), JobState::Limited) {
            return true;
        }
    }
    false
}

// What jobs print of which this is asked and that take turns by these numbers, from 0, and then round by round.
// They change no world.
fn jobs_answer(
    alloc: Global,
    asked: &Asked<'_>,
    numbers: &[u32],
    jobs: &mut [Job<'_>],
) -> Result<Vec<u8>, Stop>
    requires usable { All (IsExecutable asked.now.database.now) asked.now.all.now }
    requires few { length asked.now.all.now ≤ max_jobs }
    requires fresh { map job_tree jobs.old ≡ fresh_jobs
        (map (task_of_use asked.now.max_work asked.now.database.now) asked.now.all.now) }
    requires there { All (λ number. number < length asked.now.all.now) numbers.now }
    ensures { (by : List ℕ) (world : World) → numbers.now ≡ numbers_from_0 by → ReturnsFree
        (turns_answer asked.now.max_work world by
        (map (task_of_use asked.now.max_work asked.now.database.now) asked.now.all.now))
        result world }
{
    let first = take_turns(alloc, jobs, numbers)?;
    let others = finish_turns(alloc, jobs)?;
    if any_past(jobs) {
        return Err(Stop::Refused(Refusal::PastWork {
            spent: u128::from(asked.max_work),
            entered: false,
        }));
    }
    Ok(turns_text(alloc, asked, &first, &others, jobs)?)
}

// What the jobs of bouquets print that take turns by these numbers, from 1, and then round by round. Each may spend `max_work`
// units.
fn turns_answer(
    alloc: Global,
    max_work: u64,
    workspace: &Workspace,
    all: &[Used<'_>],
    by: &[u64],
) -> Result<Vec<u8>, Stop>
    requires usable { All (IsExecutable workspace.now.database) all.now }
    requires few { length all.now ≤ max_jobs }
    requires right { turn_refusal (length all.now) by.now ≡ None }
    ensures { ReturnsFree (turns_answer max_work (world_of workspace.now) by.now
        (map (task_of_use max_work workspace.now.database) all.now))
        result (world_of workspace.now) }
{
    let numbers = numbers_from_0(alloc, all.len(), by)?;
    let database = workspace.database();
    let asked = Asked {
        max_work,
        database,
        all,
    };
    let mut jobs = jobs_of(alloc, &asked)?;
    jobs_answer(alloc, &asked, &numbers, &mut jobs)
}

impl Session {
    /// Answers the queries of several bouquets, each with its values, by turns. They are refused together.
    pub(crate) fn turns(
        &self,
        alloc: Global,
        max_work: u64,
        turns: &TurnsDef,
    ) -> Result<Vec<u8>, Stop>
        ensures due { ReturnsFree (turns_outcome max_work (world_of self.now) turns.now)
            result (world_of self.now) }
        ensures bounded { OnOk result (IsAnsweredWithin (world_of self.now) (Turns turns.now)) }
    {
        let runs = turns.uses.as_slice();
        let by = turns.by.as_slice();
        check_jobs(runs.len())?;
        let all = self.all_used(alloc, runs)?;
        check_turns(runs.len(), by)?;
        turns_answer(alloc, max_work, &self.workspace, &all, by)
    }
}
