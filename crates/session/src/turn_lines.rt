// What turns print: a line for each, then the answer of each job.
ghost use Rattle.std.specs.Prelude.{◌≡◌, ◌<◌, ◌≤◌, ◌++◌, All, IfOk, OnOk, length, map};
ghost use Rattle.std.specs.List.{flat_map};
ghost use Rattle.plan_tree.specs.Plans.{plan_tree};
ghost use Rattle.bouquet_type.specs.Trees.{bouquet_tree};
ghost use Rattle.turns.specs.Jobs.{job_tree, task_of};
ghost use Rattle.session.specs.Printed.{executed_plan, job_text, turn_line};
ghost use Rattle.session.specs.Uses.{IsTurnOf, IsExecutable, bouquets_of, task_of_use};

use crate::answers::print_answer;
use crate::uses::{Asked, Used};
use bouquet_type::Bouquet;
use db_catalog::Database;
use plan_tree::Plan;
use std::alloc::{AllocError, Global};
use turns::{Job, Turn};
use workspace::{push_labelled, push_plan};

// The plan of the execution at this place of a bouquet's schedule, from 1.
fn executed_plan(b: &Bouquet, place: u32) -> &Plan
    requires { 1 ≤ place }
    ensures { plan_tree result.now ≡ executed_plan (bouquet_tree b.now) place }
{
    let contours = b.contours();
    let mut before = place as usize - 1;
    for contour in contours {
        if before < contour.plans.len() {
            return &contour.plans[before];
        }
        before -= contour.plans.len();
    }
    let last = &contours[contours.len() - 1].plans;
    &last[last.len() - 1]
}

// Appends the line of a turn.
fn push_turn(
    alloc: Global,
    text: &mut Vec<u8>,
    all: &[Used<'_>],
    turn: &Turn,
) -> Result<(), AllocError>
    requires { IsTurnOf (length all.now) turn.now }
    ensures { OnOk result (text.new.items
        ≡ text.old.items ++ turn_line (bouquets_of all.now) turn.now) }
{
    let bouquet = all[turn.job as usize].bouquet;
    push_labelled(text, "-- turn job=", u128::from(turn.job) + 1)?;
    push_labelled(text, " contour=", u128::from(turn.contour))?;
    text.extend_from_slice(b" plan=")?;
    push_plan(alloc, text, executed_plan(bouquet, turn.place))?;
    push_labelled(text, " spent=", turn.spent)?;
    text.push(b'\n')?;
    Ok(())
}

// Appends a line for each turn that jobs of these bouquets took.
fn push_turns(
    alloc: Global,
    text: &mut Vec<u8>,
    all: &[Used<'_>],
    turns: &[Turn],
) -> Result<(), AllocError>
    requires { All (IsTurnOf (length all.now)) turns.now }
    ensures { OnOk result (text.new.items
        ≡ text.old.items ++ flat_map (turn_line (bouquets_of all.now)) turns.now) }
{
    for turn in turns {
        push_turn(alloc, text, all, turn)?;
    }
    Ok(())
}

// Appends the answer of a job of a bouquet, if it is answered.
fn push_answer(
    alloc: Global,
    text: &mut Vec<u8>,
    database: &Database,
    used: &Used<'_>,
    job: &Job<'_>,
) -> Result<(), AllocError>
    requires usable { IsExecutable database.now used.now }
    requires job { task_of job.now ≡ task_of_use job.now.most database.now used.now }
    ensures { OnOk result (text.new.items ≡ text.old.items ++ job_text (job_tree job.now)) }
{
    let rows = job.rows();
    let Some(report) = job.report() else {
        return Ok(());
    };
    let answer = print_answer(alloc, database, used.block.block(), rows, report)?;
    text.extend_from_slice(&answer)
}

// Appends the answer of each job that is answered, where this was asked of them.
fn push_answers(
    alloc: Global,
    text: &mut Vec<u8>,
    asked: &Asked<'_>,
    jobs: &[Job<'_>],
) -> Result<(), AllocError>
    requires usable { All (IsExecutable asked.now.database.now) asked.now.all.now }
    requires jobs { map task_of jobs.now
        ≡ map (task_of_use asked.now.max_work asked.now.database.now) asked.now.all.now }
    ensures { OnOk result (text.new.items
        ≡ text.old.items ++ flat_map job_text (map job_tree jobs.now)) }
{
    let all = asked.all;
    for (place, job) in jobs.iter().enumerate() {
        push_answer(alloc, text, asked.database, &all[place], job)?;
    }
    Ok(())
}

/// What jobs print of which this was asked and that took turns, first these and then the others.
pub(crate) fn turns_text(
    alloc: Global,
    asked: &Asked<'_>,
    first: &[Turn],
    others: &[Turn],
    jobs: &[Job<'_>],
) -> Result<Vec<u8>, AllocError>
    requires usable { All (IsExecutable asked.now.database.now) asked.now.all.now }
    requires first { All (IsTurnOf (length asked.now.all.now)) first.now }
    requires others { All (IsTurnOf (length asked.now.all.now)) others.now }
    requires jobs { map task_of jobs.now
        ≡ map (task_of_use asked.now.max_work asked.now.database.now) asked.now.all.now }
    ensures { IfOk result (λ text. text.items
        ≡ flat_map (turn_line (bouquets_of asked.now.all.now)) (first.now ++ others.now)
        ++ flat_map job_text (map job_tree jobs.now)) }
{
    let mut text = Vec::new(alloc);
    push_turns(alloc, &mut text, asked.all, first)?;
    push_turns(alloc, &mut text, asked.all, others)?;
    push_answers(alloc, &mut text, asked, jobs)?;
    Ok(text)
}
