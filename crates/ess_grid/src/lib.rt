//! The grid of selectivities over which plans are compared: each axis has levels, a level stands for a selectivity, and
//! a point has a level on each axis.
//! To the layers above a grid is its number of axes and of levels, and a point the list of its levels. All points stand
//! in one list, each at one place, the bottom first and the top last; a point is below another one where it is at most
//! that on every axis; selectivities are powers of two that grow with the level.
//! It never knows a query, and never takes memory.
#![tactic(auto)]

mod fault;
mod grid;
mod law;
mod point;

pub use fault::GridFault;
pub use grid::Grid;
pub use law::{
    below_is_a_partial_order, every_point_is_there_once, next_points_are_next,
    points_run_from_bottom_to_top, selectivities_grow_to_the_whole,
};
pub use point::{Point, below};
