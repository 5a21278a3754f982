use thiserror::Error;

/// Why there is no such grid.
#[derive(Clone, Copy, Debug, Drop, Error)]
pub enum GridFault {
    /// The levels that are given aren't 2 to 25.
    #[error("an axis can't have {given} levels")]
    BadLevels {
        /// The levels that are given.
        given: u64,
    },
    /// The grid would have more than 4096 points.
    #[error("a grid can't have {points} points")]
    TooManyPoints {
        /// The points that it would have: its levels to the power of its axes.
        points: u64,
    },
}
