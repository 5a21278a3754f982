// A contour of a bouquet, as plain data.
use plan_tree::Plan;

/// A contour: the plans that are tried under one budget.
#[derive(Drop)]
pub struct Contour {
    /// What the best plans at the points of the contour cost at the most, in units of work.
    pub cost: u128,
    /// The plans, in the order in which they are tried.
    pub plans: Vec<Plan>,
}
