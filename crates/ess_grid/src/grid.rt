// The grid: its axes and levels, and two numbers that are worked out once. It never takes memory.
ghost use Rattle.std.specs.Prelude.{◌≡◌, ◌↔◌, ◌+◌, ◌^◌, ◌<◌, ◌≤◌, ℕ, length, None, Some, Err, IsNone, IsOk, IfOk, IfSome, slice_index};
ghost use Rattle.sql_values.specs.Limits.{max_axes};
ghost use Rattle.ess_grid.specs.Levels.{full_selectivity, default_levels, levels_of, halvings_of, selectivity_of};
ghost use Rattle.ess_grid.specs.Points.{IsGrid, IsPoint, points_of, point_at};
ghost use Rattle.ess_grid.specs.Order.{next_point};
ghost use Rattle.ess_grid.specs.Refused.{HasBadLevels, HasTooManyPoints};

use crate::fault::GridFault;
use crate::point::Point;
use sql_values::{MAX_AXES, MAX_LEVELS, MAX_POINTS, MIN_LEVELS};
use std::marker::Model;

// The whole has 2^24 parts.
const SELECTIVITY_BITS: u32 = 24;

/// So many axes, each with so many levels.
#[derive(Clone, Copy)]
pub struct Grid {
    axes: usize,
    levels: usize,
    step: u32,
    points: usize,
}

impl Model for Grid {
    ghost use Rattle.std.specs.Prelude.{◌≡◌, ◌^◌};
    ghost use Rattle.std.proofs.Common.{sym};
    ghost use Rattle.ess_grid.specs.Levels.{step_of};
    ghost use Rattle.ess_grid.specs.Points.{GridShape, IsGrid};

    ghost Value = { GridShape };

    ghost view = { λ g. record { axes = g.axes; levels = g.levels } };

    ghost invariant = { λ g. IsGrid (record { axes = g.axes; levels = g.levels })
        × (g.step ≡ step_of g.levels) × (g.points ≡ g.levels ^ g.axes) };

    ghost inverse = { λ grid. record {
      axes = grid.axes;
      levels = grid.levels;
      step = step_of grid.levels;
      points = grid.levels ^ grid.axes;
    } };

    ghost inverse_ok = { λ g h i. record {
      axes = g.axes;
      levels = g.levels;
      step = sym h.1 i;
      points = sym h.2 i;
    } };
}

// The levels of each axis where none are given.
fn levels_by_default(axes: usize) -> u64
    ensures { result ≡ default_levels axes }
{
    match axes {
        0..=2 => 25,
        3 => 13,
        4 => 7,
        5 => 5,
        _ => 4,
    }
}

#[tactic(auto, using(crate::proofs::OfGrids::of_grids))]
impl Grid {
    /// The grid with so many axes, 0 to 6. Levels that are given are those of each axis, 2 to 25; where none are given
    /// the number of axes decides. A grid has at most 4096 points.
    pub fn new(axes: usize, levels: Option<u64>) -> Result<Grid, GridFault>
        requires { axes ≤ max_axes }
        ensures made { IfOk result
            (λ grid. grid ≡ record { axes = axes; levels = levels_of axes levels }) }
        ensures bad_levels { (given : ℕ) →
            (result ≡ Err (GridFault.BadLevels given)) ↔ HasBadLevels levels given }
        ensures too_many_points { (many : ℕ) →
            (result ≡ Err (GridFault.TooManyPoints many)) ↔ HasTooManyPoints axes levels many }
        ensures default { levels ≡ None → IsOk result }
    {
        if let Some(given) = levels
            && !(MIN_LEVELS..=MAX_LEVELS).contains(&given)
        {
            return Err(GridFault::BadLevels { given });
        }
        let levels = levels.unwrap_or(levels_by_default(axes));
        let points = levels.pow(axes as u32);
        if points > MAX_POINTS {
            return Err(GridFault::TooManyPoints { points });
        }
        Ok(Grid {
            axes,
            levels: levels as usize,
            step: SELECTIVITY_BITS / (levels as u32 - 1),
            points: points as usize,
        })
    }

    /// How many axes it has.
    pub fn axes(&self) -> usize
        ensures { result ≡ self.now.axes }
    {
        self.axes
    }

    /// How many levels each axis has.
    pub fn levels(&self) -> usize
        ensures levels { result ≡ self.now.levels }
        ensures grid { IsGrid self.now }
    {
        self.levels
    }

    /// How many points it has: one where it has no axis.
    pub fn points(&self) -> usize
        ensures count { result ≡ length (points_of self.now) }
        ensures power { result ≡ self.now.levels ^ self.now.axes }
        ensures grid { IsGrid self.now }
    {
        self.points
    }

    /// The point at this place, from 0. Axis 0 runs fastest.
    pub fn point(&self, i: usize) -> Point
        requires { i < length (points_of self.now) }
        ensures point { point_at self.now i ≡ Some result }
        ensures of_grid { IsPoint self.now result }
    {
        let mut levels = [0; MAX_AXES];
        let mut rest = i;
        for axis in 0..self.axes {
            levels[axis] = (rest % self.levels) as u8;
            rest /= self.levels;
        }
        Point::new(&levels[..self.axes])
    }

    /// The place of a point, from 0.
    pub fn place_of(&self, p: &Point) -> usize
        requires { IsPoint self.now p.now }
        ensures place { point_at self.now result ≡ Some p.now }
        ensures there { result < length (points_of self.now) }
    {
        let levels = p.levels();
        let mut place = 0;
        for axis in (0..levels.len()).rev() {
            place = place * self.levels + levels[axis] as usize;
        }
        place
    }

    /// How often the whole is halved to come to the selectivity for which this level, from 0, stands.
    pub fn halvings(&self, level: u8) -> u32
        requires { level < self.now.levels }
        ensures { result ≡ halvings_of self.now.levels level }
    {
        self.step * (self.levels as u32 - 1 - u32::from(level))
    }

    /// The selectivity for which this level, from 0, stands, in parts of which the whole has 2^24.
    pub fn selectivity(&self, level: u8) -> u32
        requires { level < self.now.levels }
        ensures selectivity { result ≡ selectivity_of self.now.levels level }
        ensures part { result ≤ full_selectivity }
    {
        1 << (SELECTIVITY_BITS - self.halvings(level))
    }

    /// The point that is one level higher on this axis, from 0.
    pub fn successor(&self, p: &Point, axis: usize) -> Option<Point>
        requires point { IsPoint self.now p.now }
        requires axis { axis < self.now.axes }
        ensures highest { IsNone result ↔ (slice_index p.now axis + 1 ≡ self.now.levels) }
        ensures next { IfSome result (λ next. next ≡ next_point p.now axis) }
        ensures of_grid { IfSome result (IsPoint self.now) }
    {
        let level = p.levels()[axis];
        if level as usize + 1 == self.levels {
            return None;
        }
        Some(p.at(axis, level + 1))
    }
}
