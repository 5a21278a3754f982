// What a run of a bouquet tells, and why one has no answer.
ghost use Rattle.std.specs.Prelude.{◌≡◌};

use plan_tree::Plan;
use std::alloc::AllocError;

/// How a query was answered.
#[derive(Drop)]
pub struct Report {
    /// How many rows the answer has.
    pub rows: u64,
    /// What all executions spent together, in units of work.
    pub work: u128,
    /// How many executions there were, the last one among them: from 1.
    pub runs: u32,
    /// The contour of the execution that was done, from 1; 0 for the last one, which has no budget.
    pub contour: u32,
    /// The plan that was done.
    pub plan: Plan,
}

impl Report {
    /// The report of an answer of so many rows, which this plan ended, the last of so many executions.
    pub fn new(plan: Plan, rows: u64, work: u128, runs: u32, contour: u32) -> Report
        ensures { result ≡ record {
          rows = rows;
          work = work;
          runs = runs;
          contour = contour;
          plan = plan;
        } }
    {
        Report {
            rows,
            work,
            runs,
            contour,
            plan,
        }
    }
}

/// Why a run has no answer.
#[derive(Clone, Copy, Drop)]
pub enum RunFault {
    /// What all executions spend together is more than may be spent at the most. So much is spent.
    WorkLimit {
        /// In units of work.
        spent: u128,
    },
    /// Out of memory.
    NoMemory,
}

impl From<AllocError> for RunFault {
    ghost use Rattle.std.specs.Prelude.{◌≡◌};
    ghost use Rattle.bouquet_type.specs.declared.report.RunFault.TheVariants.{NoMemory};

    ghost from_gives = { λ _ fault. fault ≡ NoMemory };

    fn from(_: AllocError) -> RunFault {
        RunFault::NoMemory
    }
}
