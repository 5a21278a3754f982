// A point of a contour's frontier, as plain data.
use ess_grid::Point;
use plan_tree::Plan;

/// A point of a contour's frontier, with the best plan there and its cost.
#[derive(Drop)]
pub struct FrontierPoint {
    /// The point.
    pub point: Point,
    /// The best plan there.
    pub plan: Plan,
    /// What that plan costs there, in units of work.
    pub cost: u128,
}
