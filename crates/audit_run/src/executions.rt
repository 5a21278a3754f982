// The audit: every plan is executed once.
ghost use Rattle.std.specs.Prelude.{◌≡◌, ◌≤◌, IfErr, IfOk};
ghost use Rattle.sql_values.specs.Limits.{max_plans};
ghost use Rattle.ess_grid.specs.Points.{IsPoint};
ghost use Rattle.query_block.specs.Blocks.{block_tree, put_of};
ghost use Rattle.query_block.specs.Values.{FitValues};
ghost use Rattle.db_catalog.specs.Fits.{Fits};
ghost use Rattle.exec_pipe.specs.Engines.{MayExecute};
ghost use Rattle.bouquet_type.specs.Trees.{bouquet_tree};
ghost use Rattle.audit_run.specs.Executed.{AreItsPlans, Audits, MayAudit, MayCost, MeasuresPlan};
ghost use Rattle.audit_run.specs.Audits.{audit_of, told_audit, RefusesAudit};

use crate::figures::{Figures, Measured};
use crate::told::{Audit, AuditFault};
use bouquet_type::Bouquet;
use cost_model::Costing;
use db_catalog::{Database, Metered};
use ess_grid::Point;
use exec_pipe::{Engine, RunStop};
use known_rows::KnownRows;
use plan_tree::{AllFault, Plan, all_plans};
use query_block::Block;
use row_stack::Space;
use sql_values::{MAX_PLANS, Value};
use std::alloc::Global;

// A bouquet on a block, which is the bouquet's with some values put in: its plans are executed over a database, and their works
// held against their costs at a point. All executions together spend at most `max_work` units.
#[derive(Clone, Copy, Drop)]
struct Audited<'a> {
    bouquet: &'a Bouquet,
    block: &'a Block,
    db: &'a Database,
    point: &'a Point,
    max_work: u64,
}

// What a plan costs at a point and works: it is executed where there are no rows, and its rows are given back.
fn measured(
    alloc: Global,
    engine: &mut Engine<'_, '_>,
    costing: &Costing<'_>,
    point: &Point,
    plan: &Plan,
) -> Result<Measured, AuditFault>
    requires executes { MayExecute engine.old plan.now }
    requires costs { MayCost costing.now point.now plan.now }
    ensures { MeasuresPlan costing.now point.now plan.now engine.old engine.new result }
{
    let most = engine.max_work;
    let before = engine.meter.spent();
    match engine.execute(alloc, plan, &[], None) {
        Ok(_) => {
            engine.space.result.release(0);
            let cost = costing.cost(plan, point);
            let work = engine.meter.spent() - before;
            Ok(Measured { cost, work })
        }
        Err(RunStop::WorkLimit) => Err(AuditFault::WorkLimit {
            spent: u128::from(most),
        }),
        Err(RunStop::NoMemory) => Err(AuditFault::NoMemory),
    }
}

// Executes these, which are all plans of the block.
fn audit_plans(alloc: Global, audited: &Audited<'_>, plans: &[Plan]) -> Result<Audit, AuditFault>
    requires audited { MayAudit audited.now }
    requires plans { AreItsPlans (block_tree audited.now.block.now) plans.now }
    ensures { Audits audited.now result }
{
    let costing = audited.bouquet.costing();
    let mut meter = Metered::new(audited.db);
    let mut space = Space::new(alloc, audited.block.width());
    let mut known = KnownRows::new();
    let mut engine = Engine {
        block: audited.block,
        meter: &mut meter,
        space: &mut space,
        known: &mut known,
        max_work: audited.max_work,
    };
    let mut figures = Figures::new();
    for plan in plans {
        match measured(alloc, &mut engine, &costing, audited.point, plan) {
            Ok(measured) => figures = figures.with(measured),
            Err(fault) => return Err(fault),
        }
    }
    Ok(Audit {
        point: *audited.point,
        plans: plans.len() as u64,
        below: figures.below,
        a: figures.worst.cost,
        b: figures.worst.work,
        cheapest: figures.cheapest,
        r: audited.bouquet.most(),
        work: engine.meter.spent(),
    })
}

// Executes every plan of the block.
fn audit_block(alloc: Global, audited: &Audited<'_>) -> Result<Audit, AuditFault>
    requires { MayAudit audited.now }
    ensures { Audits audited.now result }
{
    match all_plans(alloc, audited.block, MAX_PLANS) {
        Ok(plans) => audit_plans(alloc, audited, plans.as_slice()),
        Err(AllFault::TooMany) => Err(AuditFault::PlanLimit),
        Err(AllFault::NoMemory) => Err(AuditFault::NoMemory),
    }
}

/// Executes every plan of a bouquet's block over a database, with these values in place of its parameters, and holds the works
/// against the costs at a point of the bouquet's grid. All executions together spend at most `max_work` units.
pub fn audit(
    alloc: Global,
    db: &Database,
    b: &Bouquet,
    values: &[Value],
    point: &Point,
    max_work: u64,
) -> Result<Audit, AuditFault>
    requires fits { Fits db.now (block_tree b.now.block) }
    requires values { FitValues b.now.block.parameters values.now }
    requires point { IsPoint b.now.grid point.now }
    ensures audit { IfOk result (λ audit. told_audit audit ≡ audit_of (bouquet_tree b.now)
        (put_of values.now (block_tree b.now.block)) db.now point.now) }
    ensures few { IfOk result (λ audit. audit.plans ≤ max_plans) }
    ensures within { IfOk result (λ audit. audit.work ≤ max_work) }
    ensures refuses { IfErr result
        (RefusesAudit (put_of values.now (block_tree b.now.block)) db.now max_work) }
{
    match b.block().put(alloc, values) {
        Ok(block) => audit_block(
            alloc,
            &Audited {
                bouquet: b,
                block: &block,
                db,
                point,
                max_work,
            },
        ),
        Err(_) => Err(AuditFault::NoMemory),
    }
}
