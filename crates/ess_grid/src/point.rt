// A point: the levels of its axes in an array, so that it is copied and never takes memory.
ghost use Rattle.std.specs.Prelude.{◌≡◌, ◌≤◌, ◌↔◌, ◌<◌, length, slice_set, slice_index, EachIndex, IsTrue};
ghost use Rattle.sql_values.specs.Limits.{max_axes};
ghost use Rattle.ess_grid.specs.Order.{PointBelow};

use sql_values::MAX_AXES;
use std::marker::Model;

/// A point of a grid: a level, from 0, on each axis.
#[derive(Clone, Copy)]
pub struct Point {
    axes: usize,
    // Past the axes the levels are 0.
    levels: [u8; MAX_AXES],
}

impl Model for Point {
    ghost use Rattle.std.specs.Prelude.{ℕ, List, length, take};
    ghost use Rattle.ess_grid.specs.Kept.{IsPadded, padded, length-take, padded-take};

    ghost Value = { List ℕ };

    ghost view = { λ p. take p.axes p.levels };

    ghost invariant = { λ p. IsPadded p.axes p.levels };

    ghost inverse = { λ levels. record { axes = length levels; levels = padded levels } };

    ghost inverse_ok = { λ p h i. record {
      axes = length-take p.axes p.levels h i;
      levels = padded-take p.axes p.levels h i;
    } };
}

impl Point {
    /// The point with these levels, axis 0 first.
    pub fn new(levels: &[u8]) -> Point
        requires { length levels.now ≤ max_axes }
        ensures { result ≡ levels.now }
    {
        let mut padded = [0; MAX_AXES];
        padded[..levels.len()].copy_from_slice(levels);
        Point {
            axes: levels.len(),
            levels: padded,
        }
    }

    /// The levels, axis 0 first.
    pub fn levels(&self) -> &[u8]
        ensures levels { result.now ≡ self.now }
        ensures axes { length result.now ≤ max_axes }
    {
        &self.levels[..self.axes]
    }

    // The point with this level on this axis.
    pub(crate) fn at(&self, axis: usize, level: u8) -> Point
        requires { axis < length self.now }
        ensures { result ≡ slice_set self.now axis level }
    {
        let mut levels = self.levels;
        levels[axis] = level;
        Point {
            axes: self.axes,
            levels,
        }
    }
}

// Whether each level is at most the other one on its axis.
fn is_at_most(levels: &[u8], others: &[u8]) -> bool
    requires { length levels.now ≡ length others.now }
    ensures { IsTrue result ↔ EachIndex levels.now
        (λ axis. slice_index levels.now axis ≤ slice_index others.now axis) }
{
    for (level, higher) in levels.iter().zip(others) {
        if level > higher {
            return false;
        }
    }
    true
}

/// Whether `point` is at most `other` on every axis. Points with different numbers of axes aren't below one another.
#[tactic(auto, using(crate::proofs::PointOrder::of_order))]
pub fn below(point: &Point, other: &Point) -> bool
    ensures { IsTrue result ↔ PointBelow point.now other.now }
{
    let levels = point.levels();
    let others = other.levels();
    levels.len() == others.len() && is_at_most(levels, others)
}
