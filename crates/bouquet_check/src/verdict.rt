// What is found out about a bouquet, as plain data.
use ess_grid::Point;

/// Whether a bouquet is sound; where it isn't, what it breaks first. Contours are numbered from 1.
#[derive(Drop)]
pub enum Verdict {
    /// The first contour costs more than the best plan at the bottom of the grid.
    First,
    /// A contour doesn't cost twice what the one before does.
    Step {
        /// The contour: from 2.
        contour: u32,
    },
    /// The last contour costs less than the best plan at the top of the grid.
    Last,
    /// At a point of a contour's frontier each of its plans costs more than its budget.
    Uncovered {
        /// The contour.
        contour: u32,
        /// The first such point, in the grid's order.
        point: Point,
    },
    /// The bouquet is sound.
    Sound,
}
