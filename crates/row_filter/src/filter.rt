// A relation's filter made ready for many rows. What stands in it is asked once, and not for each row.
ghost use Rattle.std.specs.Prelude.{◌≡◌, ◌≤◌, [], ◌∷◌, ◌++◌, All, IfSome, List, count_by, false, length, map};
ghost use Rattle.sql_values.specs.Limits.{max_columns};
ghost use Rattle.query_block.specs.Blocks.{FitsColumns};
ghost use Rattle.query_block.specs.Conditions.{FilterTree, filter_tree};
ghost use Rattle.query_block.specs.Meaning.{meets_filter};
ghost use Rattle.query_block.specs.Parameters.{fixed_of, is_open};
ghost use Rattle.heap_pages.specs.Spans.{rows_of_span};
ghost use Rattle.db_catalog.specs.Database.{table_at};
ghost use Rattle.row_filter.specs.RowFilters.{AreMarks, FilterRanges, IsFilterIn, IsFilterOf, IsNarrower, IsRowFilter, IsSpanIn, PutsUnion};

use crate::every::every_row;
use crate::parts::known_union;
use crate::union::RangeUnion;
use db_catalog::{Database, RowMarks, RowSpan};
use query_block::{Condition, is_open};
use sql_values::{ColumnType, Texts};
use std::alloc::Global;
use std::marker::Model;

/// The most conditions that ranges tell. More of them are asked of each row.
const MOST_CONDITIONS: usize = 4;

/// Of some conditions of a filter the ranges of words that tell which rows meet them.
#[derive(Drop)]
pub struct RowFilter {
    unions: Vec<RangeUnion>,
    exact: bool,
}

impl Model for RowFilter {
    ghost use Rattle.row_filter.specs.RowFilters.{FilterRanges};

    ghost Value = { FilterRanges };

    ghost view = { λ f. record { unions = f.unions.items; exact = f.exact } };
}

// A union that stands at a place, narrowed to the rows of another.
#[derive(Clone, Copy)]
struct Narrowed {
    place: usize,
    union: RangeUnion,
}

impl RowFilter {
    // The first union that is one range of a column of which another is one range too, narrowed to that.
    fn narrowed(&self, union: &RangeUnion) -> Option<Narrowed>
        ensures { IfSome result (IsNarrower union.now self.now) }
    {
        let found = union.single()?;
        for place in 0..self.unions.len() {
            if let Some(both) = self.unions[place].narrowed(found) {
                return Some(Narrowed { place, union: both });
            }
        }
        None
    }

    // Puts the ranges of a condition to the others. Where there is no room, or memory is wanting, the condition isn't told.
    fn put(&mut self, union: RangeUnion)
        ensures { PutsUnion union self.old self.new }
    {
        if let Some(narrowed) = self.narrowed(&union) {
            self.unions[narrowed.place] = narrowed.union;
            return;
        }
        if self.unions.len() >= MOST_CONDITIONS {
            self.exact = false;
            return;
        }
        match self.unions.push(union) {
            Ok(()) => {}
            Err(_) => self.exact = false,
        }
    }

    // Takes in a condition behind the others. One with a parameter is left out.
    fn take_in(&mut self, columns: &[ColumnType], condition: &Condition, texts: &Texts)
        requires few { length columns.now ≤ max_columns }
        requires fits { is_open (filter_tree condition.now) ≡ false
            → FitsColumns [] columns.now (filter_tree condition.now) }
        ensures { (conditions : List FilterTree)
            → IsRowFilter texts.now columns.now conditions self.old
            → IsRowFilter texts.now columns.now
            (conditions ++ filter_tree condition.now ∷ []) self.new }
    {
        if is_open(condition) {
            return;
        }
        match known_union(columns, condition, texts) {
            Some(union) => {
                self.exact &= union.is_exact();
                self.put(union);
            }
            None => self.exact = false,
        }
    }

    /// The filter of these conditions, of which those without a parameter count. Where memory is wanting, it isn't exact.
    pub fn new(
        alloc: Global,
        columns: &[ColumnType],
        conditions: &[Condition],
        texts: &Texts,
    ) -> RowFilter
        requires few { length columns.now ≤ max_columns }
        requires fit { All (FitsColumns [] columns.now)
            (fixed_of (map filter_tree conditions.now)) }
        ensures { IsRowFilter texts.now columns.now (map filter_tree conditions.now) result }
    {
        let mut filter = RowFilter {
            unions: Vec::new(alloc),
            exact: true,
        };
        for condition in conditions {
            filter.take_in(columns, condition, texts);
        }
        filter
    }

    /// Marks of the rows of a span, of at most 64: bit k stands for the row k places behind the first. Each row that meets
    /// every condition without a parameter has one. A filter without ranges marks all of them.
    pub fn marks<R: RowMarks>(&self, rows: &R, table: u32, span: RowSpan) -> u64
        requires filter { IsFilterIn (R.database rows.now) table self.now }
        requires span { IsSpanIn (R.database rows.now) table span }
        requires told { R.tells rows.now table span }
        ensures { (conditions : List FilterTree)
            → IsFilterOf (R.database rows.now) table conditions self.now
            → AreMarks conditions self.now.exact
            (rows_of_span span (table_at (R.database rows.now) table).rows) result }
    {
        let mut marks = every_row(span.count);
        for union in &self.unions {
            marks &= union.marks(rows, table, span);
            if marks == 0 {
                return 0;
            }
        }
        marks
    }

    /// How many rows of a table meet every condition without a parameter, where one range tells which do.
    pub fn count(&self, db: &Database, table: u32) -> Option<u64>
        requires { IsFilterIn db.now table self.now }
        ensures { (conditions : List FilterTree) → IsFilterOf db.now table conditions self.now
            → IfSome result (λ count. count ≡ count_by (meets_filter (fixed_of conditions))
            (table_at db.now table).rows) }
    {
        let unions = self.unions.as_slice();
        if !self.exact || unions.len() != 1 {
            return None;
        }
        unions[0].count(db, table)
    }

    /// Whether the marks are exactly those of the rows that meet each condition without a parameter.
    #[inline]
    pub fn is_exact(&self) -> bool
        ensures { result ≡ self.now.exact }
    {
        self.exact
    }
}
