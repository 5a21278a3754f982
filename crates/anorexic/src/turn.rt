// One turn: the candidate that covers the most of the open points is found, and its points are closed. The row of a point
// in the table has as many tests as there are candidates. Before the first turn one pass over the rows of the points counts
// for all candidates. Each point that is closed is taken from the counts, so no turn counts anew.
ghost use Rattle.std.specs.Prelude.{◌≡◌, ◌+◌, ◌*◌, ◌^◌, ◌<◌, ◌≤◌, ℕ, All, false, filter, length, not};
ghost use Rattle.std.specs.Ordering.{is_gt};
ghost use Rattle.plan_tree.specs.Plans.{plan_tree, FitsSet};
ghost use Rattle.anorexic.specs.Turns.{is_marked, cover_order, turn_order, AreMore, AreCoverCounts, IsCoverCounted, IsCoverRow};

use plan_tree::{Plan, plan_order};
use std::cmp::Ordering;

// The row of the point at a place.
fn row_at<'t>(table: &'t [bool], width: usize, place: usize) -> &'t [bool]
    requires { place * width + width ≤ length table.now }
    ensures { IsCoverRow table.now width place result.now }
{
    let first = place * width;
    &table[first..first + width]
}

// Adds a point to the counts of the candidates that cover it, where this is its row.
fn count_point(counts: &mut [usize], row: &[bool])
    requires row { length row.now ≡ length counts.old }
    requires room { All (λ count. count < 2 ^ 63) counts.old }
    ensures counted { AreMore row.now counts.old counts.new }
    ensures long { length counts.new ≡ length counts.old }
{
    for candidate in 0..row.len() {
        counts[candidate] += if row[candidate] { 1 } else { 0 };
    }
}

// Takes a point from the counts of the candidates that cover it, where this is its row.
fn subtract_point(counts: &mut [usize], row: &[bool])
    requires row { length row.now ≡ length counts.old }
    requires counted { IsCoverCounted row.now counts.old }
    ensures subtracted { AreMore row.now counts.new counts.old }
    ensures long { length counts.new ≡ length counts.old }
{
    for candidate in 0..row.len() {
        counts[candidate] -= if row[candidate] { 1 } else { 0 };
    }
}

/// Counts how many of the open points each candidate covers.
pub(crate) fn count_points(counts: &mut [usize], table: &[bool], uncovered: &[usize])
    requires rows { All (λ place. place * length counts.old + length counts.old
        ≤ length table.now) uncovered.now }
    ensures counted { AreCoverCounts table.now uncovered.now counts.new }
    ensures long { length counts.new ≡ length counts.old }
{
    counts.fill(0);
    for place in uncovered {
        let row = row_at(table, counts.len(), *place);
        count_point(counts, row);
    }
}

// Which of two plans is taken first, where they cover so many open points: the one that covers more, and of equals the
// first in plan order.
fn cover_order(count: usize, p: &Plan, other_count: usize, other: &Plan) -> Ordering
    requires fits { FitsSet (plan_tree p.now) }
    requires other { FitsSet (plan_tree other.now) }
    ensures { result ≡ cover_order count (plan_tree p.now) other_count (plan_tree other.now) }
{
    match other_count.cmp(&count) {
        Ordering::Equal => plan_order(p, other),
        unequal => unequal,
    }
}

/// The candidate that this turn takes, where the candidates cover so many open points.
pub(crate) fn first_candidate(
    candidates: &[Plan],
    table: &[bool],
    uncovered: &[usize],
    counts: &[usize],
) -> usize
    requires fit { All (λ p. FitsSet (plan_tree p)) candidates.now }
    requires some { 0 < length candidates.now }
    requires long { length counts.now ≡ length candidates.now }
    requires counts { AreCoverCounts table.now uncovered.now counts.now }
    ensures candidate { result < length candidates.now }
    ensures first { (other : ℕ) → other < length candidates.now
        → is_gt (turn_order candidates.now table.now uncovered.now result other) ≡ false }
{
    let mut first = 0;
    let mut most = counts[0];
    for candidate in 1..candidates.len() {
        let count = counts[candidate];
        if cover_order(most, &candidates[first], count, &candidates[candidate]).is_gt() {
            first = candidate;
            most = count;
        }
    }
    first
}

/// Keeps the open points that a candidate doesn't cover. The others are no longer counted.
pub(crate) fn close(
    table: &[bool],
    width: usize,
    candidate: usize,
    uncovered: &mut Vec<usize>,
    counts: &mut [usize],
)
    requires candidate { candidate < width }
    requires rows { All (λ place. place * width + width ≤ length table.now) uncovered.old.items }
    requires long { length counts.old ≡ width }
    requires counts { AreCoverCounts table.now uncovered.old.items counts.old }
    ensures uncovered { uncovered.new.items
        ≡ filter (λ place. not (is_marked table.now width candidate place)) uncovered.old.items }
    ensures counts { AreCoverCounts table.now uncovered.new.items counts.new }
    ensures long { length counts.new ≡ width }
{
    let mut kept = 0;
    for i in 0..uncovered.len() {
        let place = uncovered[i];
        let row = row_at(table, width, place);
        if row[candidate] {
            subtract_point(counts, row);
        } else {
            uncovered[kept] = place;
            kept += 1;
        }
    }
    uncovered.truncate(kept);
}
