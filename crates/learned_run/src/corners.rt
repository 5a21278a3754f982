// Points of a grid by their levels. None of these takes memory.
ghost use Rattle.std.specs.Prelude.{◌≡◌, ◌+◌, ◌<◌, replicate};
ghost use Rattle.ess_grid.specs.Points.{IsPoint};
ghost use Rattle.learned_run.specs.Raising.{corner_of};

use ess_grid::{Grid, Point};
use sql_values::MAX_AXES;

/// The highest level of a grid.
pub(crate) fn highest(grid: &Grid) -> u8
    ensures { result + 1 ≡ grid.now.levels }
{
    (grid.levels() - 1) as u8
}

/// The point with this level on each axis.
pub(crate) fn even(grid: &Grid, level: u8) -> Point
    requires { level < grid.now.levels }
    ensures levels { result ≡ replicate grid.now.axes level }
    ensures of_grid { IsPoint grid.now result }
{
    grid.levels();
    let levels = [level; MAX_AXES];
    Point::new(&levels[..grid.axes()])
}

/// The top of the grid, but with this level on one axis.
pub(crate) fn corner(grid: &Grid, axis: usize, level: u8) -> Point
    requires axis { axis < grid.now.axes }
    requires level { level < grid.now.levels }
    ensures corner { result ≡ corner_of grid.now axis level }
    ensures of_grid { IsPoint grid.now result }
{
    let mut levels = [(grid.levels() - 1) as u8; MAX_AXES];
    levels[axis] = level;
    Point::new(&levels[..grid.axes()])
}
