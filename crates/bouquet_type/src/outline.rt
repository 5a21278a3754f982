// What is known of the points of a bouquet's grid, as plain data.
use ess_grid::Point;

/// The optimal costs of a bouquet's grid, and the frontiers of its contours.
#[derive(Drop)]
pub struct Outline {
    /// The optimal cost at each point of the grid, in the grid's order, in units of work.
    pub costs: Vec<u128>,
    /// For each contour the points of its frontier, in the grid's order.
    pub frontiers: Vec<Vec<Point>>,
}
