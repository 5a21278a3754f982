// The laws of grids. Each has no body: its clauses speak of the definitions alone, so that whoever cites these can
// rely on them for every grid and every point.
ghost use Rattle.std.specs.Prelude.{sum, ◌≡◌, ◌↔◌, ◌+◌, ◌-◌, ◌*◌, ◌^◌, ◌<◌, ◌≤◌, ◌⊎◌, ℕ, List, length, Some, slice_index};
ghost use Rattle.sql_values.specs.Limits.{min_levels, max_levels};
ghost use Rattle.ess_grid.specs.Levels.{halvings_of, selectivity_of, full_selectivity};
ghost use Rattle.ess_grid.specs.Points.{GridShape, IsGrid, IsPoint, AreThereOnce, points_of, point_at, bottom_of, top_of};
ghost use Rattle.ess_grid.specs.Order.{PointBelow, IsPartialOrder, next_point};

/// The law of points: the list of a grid's points has every point of the grid, each at exactly one place, and nothing
/// else.
pub fn every_point_is_there_once()
    ensures count { (grid : GridShape) → length (points_of grid) ≡ grid.levels ^ grid.axes }
    ensures once { (grid : GridShape) → IsGrid grid → AreThereOnce grid }
{}

/// The law of the order: it is a partial order, and it is 'at most on every axis'.
pub fn below_is_a_partial_order()
    ensures order { IsPartialOrder PointBelow }
    ensures every_axis { (point other : List ℕ) → PointBelow point other ↔
        ((length point ≡ length other) ×
        ((axis : ℕ) → axis < length point → slice_index point axis ≤ slice_index other axis)) }
{}

/// The law of the ends: the first point is the bottom, which is below every point, and the last is the top, which
/// every point is below.
pub fn points_run_from_bottom_to_top()
    ensures first { (grid : GridShape) → IsGrid grid →
        point_at grid 0 ≡ Some (bottom_of grid) }
    ensures last { (grid : GridShape) → IsGrid grid →
        point_at grid (grid.levels ^ grid.axes - 1) ≡ Some (top_of grid) }
    ensures bottom { (grid : GridShape) (point : List ℕ) → IsPoint grid point →
        PointBelow (bottom_of grid) point }
    ensures top { (grid : GridShape) (point : List ℕ) → IsPoint grid point →
        PointBelow point (top_of grid) }
{}

/// The law of the next point on an axis: it is a point of the grid where the level isn't the highest, it is above, and
/// nothing lies between. Each step up makes the sum of the levels greater by one, and the top's sum is the greatest,
/// so steps up come to an end.
pub fn next_points_are_next()
    ensures of_grid { (grid : GridShape) (point : List ℕ) (axis : ℕ) → IsPoint grid point →
        slice_index point axis + 1 < grid.levels → IsPoint grid (next_point point axis) }
    ensures above { (point : List ℕ) (axis : ℕ) → PointBelow point (next_point point axis) }
    ensures adjacent { (point between : List ℕ) (axis : ℕ) →
        PointBelow point between → PointBelow between (next_point point axis) →
        (between ≡ point) ⊎ (between ≡ next_point point axis) }
    ensures one_more { (point : List ℕ) (axis : ℕ) → axis < length point →
        sum (next_point point axis) ≡ sum point + 1 }
    ensures at_most { (grid : GridShape) (point : List ℕ) → IsPoint grid point →
        sum point ≤ grid.axes * (grid.levels - 1) }
{}

/// The law of selectivities: they grow with the level up to the whole, and each is the whole, halved.
pub fn selectivities_grow_to_the_whole()
    ensures grow { (levels lower higher : ℕ) → min_levels ≤ levels → levels ≤ max_levels →
        lower < higher → higher < levels →
        selectivity_of levels lower < selectivity_of levels higher }
    ensures whole { (levels : ℕ) → selectivity_of levels (levels - 1) ≡ full_selectivity }
    ensures halved { (levels level : ℕ) →
        selectivity_of levels level * 2 ^ halvings_of levels level ≡ full_selectivity }
{}
