// AUDIT: every plan of a bouquet's block is executed, for what its costs at a point are worth. No book takes in what that
// spends.
ghost use Rattle.std.specs.Prelude.{◌≡◌, IfOk};
ghost use Rattle.ess_grid.specs.Points.{IsPoint};
ghost use Rattle.workspace.specs.Outcome.{RefusesFound};
ghost use Rattle.workspace.specs.Returns.{ReturnsFree};
ghost use Rattle.workspace.specs.States.{world_of};
ghost use Rattle.session.specs.Audit.{audit_outcome, level_refusal, point_refusal, stop_of_audit};

use crate::lines::audit_line;
use crate::session::Session;
use audit_run::AuditFault;
use ess_grid::{Grid, Point};
use sql_parse::AuditDef;
use sql_values::{LimitName, MAX_AXES, MAX_PLANS};
use std::alloc::Global;
use workspace::{Refusal, Stop};

// Refuses the first of these levels that an axis of so many hasn't.
fn check_point(count: usize, levels: &[u64]) -> Result<(), Refusal>
    ensures { RefusesFound (level_refusal count levels.now) result }
{
    for level in levels {
        if *level >= count as u64 {
            return Err(Refusal::PastLimit(LimitName::Level, u128::from(*level)));
        }
    }
    Ok(())
}

// The point of a grid with these levels, one for each axis.
fn point_of(grid: &Grid, levels: &[u64]) -> Result<Point, Refusal>
    ensures point { IfOk result (λ point. point ≡ levels.now) }
    ensures of_grid { IfOk result (IsPoint grid.now) }
    ensures refuses { RefusesFound (point_refusal grid.now levels.now) result }
{
    if levels.len() != grid.axes() {
        return Err(Refusal::PastLimit(LimitName::Coordinates, levels.len() as u128));
    }
    check_point(grid.levels(), levels)?;
    let mut point = [0; MAX_AXES];
    for axis in 0..levels.len() {
        point[axis] = levels[axis] as u8;
    }
    Ok(Point::new(&point[..levels.len()]))
}

// Why an audit stops that ends with this fault.
fn stop_of(fault: AuditFault) -> Stop
    ensures { result ≡ stop_of_audit fault }
{
    match fault {
        AuditFault::PlanLimit => {
            Stop::Refused(Refusal::PastLimit(LimitName::Plans, u128::from(MAX_PLANS) + 1))
        }
        AuditFault::WorkLimit { spent } => Stop::Refused(Refusal::PastWork {
            spent,
            entered: false,
        }),
        AuditFault::NoMemory => Stop::NoMemory,
    }
}

impl Session {
    /// Tells of the bouquet of this name how its plans' works with the statement's values are to their costs at a point. It is
    /// refused where the values don't fit, then where the levels are no point of the bouquet's grid.
    pub(crate) fn audit(
        &self,
        alloc: Global,
        max_work: u64,
        audit: &AuditDef,
    ) -> Result<Vec<u8>, Stop>
        ensures { ReturnsFree (audit_outcome max_work (world_of self.now) audit.now)
            result (world_of self.now) }
    {
        let bouquet = self.workspace.present(&audit.name)?;
        let values = audit.values.as_slice();
        bouquet.block().fits_values(values)?;
        let point = point_of(bouquet.grid(), audit.levels.as_slice())?;
        let database = self.workspace.database();
        match audit_run::audit(alloc, database, bouquet, values, &point, max_work) {
            Ok(told) => Ok(audit_line(alloc, &told)?),
            Err(fault) => Err(stop_of(fault)),
        }
    }
}
