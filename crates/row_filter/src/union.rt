// Regions of words of which a row has to be in one, so that a condition is met: those of the values of an IN, or of the parts
// of an OR.
ghost use Rattle.std.specs.Prelude.{◌≡◌, ◌&&◌, ◌||◌, ◌<◌, Bool, IfSome, List, count_by, false, map, ℕ};
ghost use Rattle.sql_values.specs.declared.column.ColumnType.{ColumnType};
ghost use Rattle.sql_values.specs.Stored.{ValueRow};
ghost use Rattle.narrow_columns.specs.Marks.{marks_of};
ghost use Rattle.heap_pages.specs.Spans.{rows_of_span};
ghost use Rattle.db_catalog.specs.Database.{table_at};
ghost use Rattle.db_catalog.specs.ColumnRanges.{IsWordsOf};
ghost use Rattle.row_filter.specs.Regions.{IsKnownRegion};
ghost use Rattle.row_filter.specs.Unions.{AddsTest, IsUnionCover, IsUnionIn, IsUnionOf};
ghost use Rattle.row_filter.specs.RowFilters.{IsSpanIn};

use crate::join::{exactly, is_empty, joined};
use crate::known_region::KnownRegion;
use crate::region::{Region, shared};
use db_catalog::{ColumnRange, Database, RowMarks, RowSpan};

/// The most regions of one condition.
pub(crate) const MOST_REGIONS: usize = 16;

/// Regions of words. A row is told where it is in one of them.
#[derive(Clone, Copy)]
pub(crate) struct RangeUnion {
    regions: [Region; MOST_REGIONS],
    count: usize,
    exact: bool,
}

// How many steps one range of a column lies from another: none where they share a word or one is empty, one where they are
// neighbours.
fn steps_between(a: ColumnRange, b: ColumnRange) -> u64 {
    if is_empty(a) || is_empty(b) {
        return 0;
    }
    if a.to < b.from {
        return a.to.abs_diff(b.from);
    }
    if b.to < a.from {
        return b.to.abs_diff(a.from);
    }
    0
}

// How many steps a range lies from a region, so far as that is a range of the same column.
fn steps_from(region: Region, found: ColumnRange) -> u64 {
    match region {
        Region::Range(own) => {
            if own.column == found.column {
                steps_between(own, found)
            } else {
                u64::MAX
            }
        }
        _ => u64::MAX,
    }
}

impl RangeUnion {
    /// No regions: no row is told.
    pub(crate) fn new() -> RangeUnion
        ensures { (texts : List (List ℕ)) → (kinds : List ColumnType)
            → IsUnionCover texts kinds (λ row. false) result }
    {
        RangeUnion {
            regions: [Region::Every; MOST_REGIONS],
            count: 0,
            exact: true,
        }
    }

    // One range: the rows that have a word of it.
    fn of_range(range: ColumnRange) -> RangeUnion
        ensures { (texts : List (List ℕ)) → (kinds : List ColumnType) → (test : ValueRow → Bool)
            → IsWordsOf texts kinds test range → IsUnionOf texts kinds test result }
    {
        RangeUnion {
            regions: [Region::Range(range); MOST_REGIONS],
            count: 1,
            exact: true,
        }
    }

    /// A region more. False where there is no room for it.
    pub(crate) fn push(&mut self, known: KnownRegion) -> bool
        ensures { (texts : List (List ℕ)) → (kinds : List ColumnType) → (test : ValueRow → Bool)
            → IsKnownRegion texts kinds test known
            → AddsTest texts kinds test self.old self.new result }
    {
        if self.count >= MOST_REGIONS {
            return false;
        }
        self.regions[self.count] = known.region;
        self.count += 1;
        self.exact &= known.exact;
        true
    }

    // The place of the range with which another is joined: the nearest of its column. While there is room, only a neighbour
    // is one.
    fn nearest(&self, found: ColumnRange) -> Option<usize>
        ensures there { IfSome result (λ place. place < self.now.count) }
        ensures few { IfSome result (λ place. place < 16) }
    {
        let mut least = if self.count < MOST_REGIONS {
            2
        } else {
            u64::MAX
        };
        let mut nearest = None;
        for place in 0..self.count.min(MOST_REGIONS) {
            let steps = steps_from(self.regions[place], found);
            if steps < least {
                least = steps;
                nearest = Some(place);
            }
        }
        nearest
    }

    // Joins the range at a place with another of its column. False where there is none.
    fn join(&mut self, place: usize, found: ColumnRange) -> bool
        requires there { place < self.old.count }
        requires few { place < 16 }
        ensures { (texts : List (List ℕ)) → (kinds : List ColumnType) → (test : ValueRow → Bool)
            → IsWordsOf texts kinds test found → AddsTest texts kinds test self.old self.new result }
    {
        let Region::Range(own) = self.regions[place] else {
            return false;
        };
        if own.column != found.column {
            return false;
        }
        let known = joined(own, found);
        self.regions[place] = known.region;
        self.exact &= known.exact;
        true
    }

    /// A range more, which neighbours are joined with. Where there is no room, it is joined with the nearest range of its
    /// column, and the words between are told too. False where there is none.
    pub(crate) fn put(&mut self, found: ColumnRange) -> bool
        ensures { (texts : List (List ℕ)) → (kinds : List ColumnType) → (test : ValueRow → Bool)
            → IsWordsOf texts kinds test found → AddsTest texts kinds test self.old self.new result }
    {
        match self.nearest(found) {
            Some(place) => self.join(place, found),
            None => self.push(exactly(found)),
        }
    }

    // The range of which a row has to have a word, where it is one.
    pub(crate) fn single(&self) -> Option<ColumnRange>
        ensures { (texts : List (List ℕ)) → (kinds : List ColumnType) → (test : ValueRow → Bool)
            → IsUnionOf texts kinds test self.now → IfSome result (IsWordsOf texts kinds test) }
    {
        if self.count != 1 {
            return None;
        }
        match self.regions[0] {
            Region::Range(found) => Some(found),
            _ => None,
        }
    }

    /// The rows that have a word of another range too, where this is one of the same column.
    pub(crate) fn narrowed(&self, found: ColumnRange) -> Option<RangeUnion>
        ensures { (texts : List (List ℕ)) → (kinds : List ColumnType) → (test other : ValueRow → Bool)
            → IsUnionOf texts kinds test self.now → IsWordsOf texts kinds other found
            → IfSome result (IsUnionOf texts kinds (λ row. test row && other row)) }
    {
        let own = self.single()?;
        if own.column != found.column {
            return None;
        }
        Some(RangeUnion::of_range(shared(own, found)))
    }

    /// Whether exactly the rows are told that meet the condition.
    pub(crate) fn is_exact(&self) -> bool
        ensures { result ≡ self.now.exact }
    {
        self.exact
    }

    /// How many rows of a table have a word of the ranges, where these are one.
    pub(crate) fn count(&self, db: &Database, table: u32) -> Option<u64>
        requires { (test : ValueRow → Bool) × IsUnionIn db.now table test self.now }
        ensures { (test : ValueRow → Bool) → IsUnionIn db.now table test self.now
            → IfSome result (λ count. count ≡ count_by test (table_at db.now table).rows) }
    {
        match self.single() {
            Some(found) => Some(db.count_in_range(table, found)),
            None => None,
        }
    }

    /// Which rows of a span are in one of the regions.
    pub(crate) fn marks<R: RowMarks>(&self, rows: &R, table: u32, span: RowSpan) -> u64
        requires union { (test : ValueRow → Bool)
            × IsUnionIn (R.database rows.now) table test self.now }
        requires span { IsSpanIn (R.database rows.now) table span }
        requires told { R.tells rows.now table span }
        ensures { (test : ValueRow → Bool) → IsUnionIn (R.database rows.now) table test self.now
            → result ≡ marks_of (map test
            (rows_of_span span (table_at (R.database rows.now) table).rows)) }
    {
        let mut marks = 0;
        for region in &self.regions[..self.count] {
            marks |= region.marks(rows, table, span);
        }
        marks
    }
}
