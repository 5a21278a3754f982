// What an audit tells, and why there is none.
use ess_grid::Point;

/// What an audit tells. Costs and works are units of work.
#[derive(Clone, Copy, Drop)]
pub struct Audit {
    /// The point of the grid whose costs were looked at.
    pub point: Point,
    /// How many plans the block has: 1 to 20000.
    pub plans: u64,
    /// Whether no plan's work is above its cost.
    pub below: bool,
    /// The cost of the plan with the greatest quotient of cost by work, the first in plan order of several.
    pub a: u128,
    /// The work of that plan: at least 1.
    pub b: u128,
    /// The least work of a plan.
    pub cheapest: u128,
    /// The most plans that a contour of the bouquet has.
    pub r: u64,
    /// The work of all plans together.
    pub work: u128,
}

/// Why there is no audit.
#[derive(Clone, Copy, Drop)]
pub enum AuditFault {
    /// The block has more than 20000 plans. Nothing was executed.
    PlanLimit,
    /// All plans together work more than they may.
    WorkLimit {
        /// What was spent, all that may be.
        spent: u128,
    },
    /// Want of memory.
    NoMemory,
}
