// The turns of several jobs. It relies on each job for what its turn does; what it adds is whose turn it is, and what is told.
ghost use Rattle.std.specs.Prelude.{◌≡◌, ◌^◌, ◌<◌, ◌≤◌, ◌++◌, true, false, [], ◌∷◌, All, IfOk, IfSome, OnErr, OnOk, length, map, option_to_list};
ghost use Rattle.std.specs.Vec.{vec_capacity};
ghost use Rattle.turns.specs.Jobs.{job_tree, task_of};
ghost use Rattle.turns.specs.Taking.{EachStands, IdleStay, NamesNoLost, StopsAmong, TakesAll, TakesRunning, is_running};
ghost use Rattle.turns.specs.Taking.{jobs_turned, running_at, numbers_running, numbers_told, numbers_to_end, rounds_left, turns_told};

use crate::job::Job;
use crate::turn::Turn;
use std::alloc::{AllocError, Global};

// Puts a turn behind others, where there is room for it.
fn push_within(taken: &mut Vec<Turn>, turn: Turn)
    requires { length taken.old.items < vec_capacity taken.old }
    ensures { taken.new.items ≡ taken.old.items ++ turn ∷ [] }
{
    let Ok(()) = taken.push(turn) else {
        unreachable!()
    };
}

// Puts a turn behind others, if there is one.
fn push_taken(taken: &mut Vec<Turn>, turn: Option<Turn>)
    requires { IfSome turn (λ _. length taken.old.items < vec_capacity taken.old) }
    ensures { taken.new.items ≡ taken.old.items ++ option_to_list turn }
{
    if let Some(turn) = turn {
        push_within(taken, turn);
    }
}

// Makes room for what is told of a job's turn, if it runs.
fn make_room(taken: &mut Vec<Turn>, job: &Job<'_>) -> Result<(), AllocError>
    ensures same { taken.new.items ≡ taken.old.items }
    ensures room { OnOk result (is_running (job_tree job.now).standing ≡ true →
        length taken.new.items < vec_capacity taken.new) }
    ensures runs { OnErr result (is_running (job_tree job.now).standing ≡ true) }
{
    if job.is_running() {
        taken.reserve(1)?;
    }
    Ok(())
}

// The turn of one job. The room for what is told of it is there before it is taken.
fn take_turn(
    alloc: Global,
    jobs: &mut [Job<'_>],
    number: u32,
    taken: &mut Vec<Turn>,
) -> Result<(), AllocError>
    requires { number < length jobs.old }
    ensures takes { OnOk result (TakesAll (number ∷ []) (map job_tree jobs.old) (map job_tree jobs.new)
        taken.old.items taken.new.items) }
    ensures stops { OnErr result
        (StopsAmong (number ∷ []) (map job_tree jobs.old) (map job_tree jobs.new)) }
    ensures idle { IdleStay jobs.old jobs.new }
{
    let job = &mut jobs[number as usize];
    make_room(taken, job)?;
    let turn = job.turn(alloc, number)?;
    push_taken(taken, turn);
    Ok(())
}

/// Takes turns of jobs in the order of these numbers, each below the number of jobs: a turn is the next execution of the job of
/// that number. A job that is answered or limited takes none, and its turn needs no memory. The turns that were taken are told,
/// in order.
///
/// The error is want of memory. Then the turns of the numbers before were taken; the job whose turn it was is broken, or as it
/// was; and the others are as their turns left them. A broken job ends each call in which it is named so. Whatever is answered,
/// a job that doesn't run stays as it is, to what it spent and to its rows.
pub fn take_turns(
    alloc: Global,
    jobs: &mut [Job<'_>],
    turns: &[u32],
) -> Result<Vec<Turn>, AllocError>
    requires { All (λ number. number < length jobs.old) turns.now }
    ensures turned { OnOk result
        (map job_tree jobs.new ≡ jobs_turned turns.now 0 (map job_tree jobs.old)) }
    ensures each { OnOk result
        (EachStands turns.now (map job_tree jobs.old) (map job_tree jobs.new)) }
    ensures taken { IfOk result (λ taken.
        taken.items ≡ turns_told turns.now (map job_tree jobs.old)) }
    ensures unbroken { OnOk result (NamesNoLost turns.now (map job_tree jobs.old)) }
    ensures stopped { OnErr result
        (StopsAmong turns.now (map job_tree jobs.old) (map job_tree jobs.new)) }
    ensures idle { IdleStay jobs.old jobs.new }
    ensures whole { map task_of jobs.new ≡ map task_of jobs.old }
{
    let mut taken = Vec::new(alloc);
    for &number in turns {
        take_turn(alloc, jobs, number, &mut taken)?;
    }
    Ok(taken)
}

// Whether a job runs.
fn any_running(jobs: &[Job<'_>]) -> bool
    ensures some { result ≡ true → 1 ≤ rounds_left (map job_tree jobs.now) }
    ensures none { result ≡ false → rounds_left (map job_tree jobs.now) ≡ 0 }
{
    for job in jobs {
        if job.is_running() {
            return true;
        }
    }
    false
}

// The turn of one job of a round: it takes one if it runs.
fn take_turn_of_round(
    alloc: Global,
    jobs: &mut [Job<'_>],
    number: u32,
    taken: &mut Vec<Turn>,
) -> Result<(), AllocError>
    requires { number < length jobs.old }
    ensures takes { OnOk result (TakesRunning (running_at number (map job_tree jobs.old))
        (map job_tree jobs.old) (map job_tree jobs.new) taken.old.items taken.new.items) }
    ensures stops { OnErr result (StopsAmong (running_at number (map job_tree jobs.old))
        (map job_tree jobs.old) (map job_tree jobs.new)) }
    ensures idle { IdleStay jobs.old jobs.new }
{
    let job = &jobs[number as usize];
    if job.is_running() {
        take_turn(alloc, jobs, number, taken)
    } else {
        Ok(())
    }
}

// One round: each job that runs takes a turn, in order.
fn take_round(alloc: Global, jobs: &mut [Job<'_>], taken: &mut Vec<Turn>) -> Result<(), AllocError>
    requires { length jobs.old < 2 ^ 32 }
    ensures takes { OnOk result (TakesRunning (numbers_running 0 (map job_tree jobs.old))
        (map job_tree jobs.old) (map job_tree jobs.new) taken.old.items taken.new.items) }
    ensures stops { OnErr result (StopsAmong (numbers_running 0 (map job_tree jobs.old))
        (map job_tree jobs.old) (map job_tree jobs.new)) }
    ensures idle { IdleStay jobs.old jobs.new }
{
    for number in 0..jobs.len() {
        take_turn_of_round(alloc, jobs, number as u32, taken)?;
    }
    Ok(())
}

/// Takes turns until no job runs: again and again, each job that runs takes one, from the first on. There are fewer than 2^32
/// jobs. The turns that were taken are told, in order.
///
/// The error is want of memory. Then the turns before were taken; the job whose turn it was is broken, or as it was; and the
/// others are as their turns left them. A job that didn't run before takes no turn, and stays as it is.
pub fn finish_turns(alloc: Global, jobs: &mut [Job<'_>]) -> Result<Vec<Turn>, AllocError>
    requires { length jobs.old < 2 ^ 32 }
    ensures turned { OnOk result (map job_tree jobs.new
        ≡ jobs_turned (numbers_to_end (map job_tree jobs.old)) 0 (map job_tree jobs.old)) }
    ensures each { IfOk result (λ taken.
        EachStands (numbers_told taken.items) (map job_tree jobs.old) (map job_tree jobs.new)) }
    ensures taken { IfOk result (λ taken. taken.items
        ≡ turns_told (numbers_to_end (map job_tree jobs.old)) (map job_tree jobs.old)) }
    ensures ended { OnOk result (All (λ job. is_running job.standing ≡ false) (map job_tree jobs.new)) }
    ensures stopped { OnErr result (StopsAmong (numbers_to_end (map job_tree jobs.old))
        (map job_tree jobs.old) (map job_tree jobs.new)) }
    ensures idle { IdleStay jobs.old jobs.new }
    ensures whole { map task_of jobs.new ≡ map task_of jobs.old }
{
    let mut taken = Vec::new(alloc);
    'rounds: while any_running(jobs) {
        take_round(alloc, jobs, &mut taken)?;
    }
    Ok(taken)
}
