// What is told of a run that learns.
use bouquet_type::Report;
use ess_grid::Point;

/// An execution that was skipped.
#[derive(Drop)]
pub struct Skip {
    /// The number of its contour, from 1.
    pub contour: u32,
    /// The place of its plan among those of the contour, from 1.
    pub plan: u32,
    /// The learned point: on each axis the least level that was left. The plan covers no point of the contour's frontier at or
    /// above it.
    pub point: Point,
}

/// How a query was answered by a run that learns.
#[derive(Drop)]
pub struct Learned {
    /// How it was answered. Executions that were skipped aren't counted.
    pub report: Report,
    /// The executions that were skipped, in order.
    pub skips: Vec<Skip>,
}
