// How many rows of a relation's table the fixed conjuncts of its filter keep. They are found through a range of an index, or
// among all rows, 64 at a time; both ways lead to one number.
ghost use Rattle.std.specs.Prelude.{◌≡◌, ◌*◌, ◌^◌, ◌<◌, All, false, Contains, IfSome, IsTrue, count_by, length, map};
ghost use Rattle.cost_model.specs.Counts.{relation_stats_of};
ghost use Rattle.heap_pages.specs.Spans.{rows_of_span};
ghost use Rattle.btree_index.specs.Entries.{IndexEntry};
ghost use Rattle.db_catalog.specs.Database.{table_at};
ghost use Rattle.db_catalog.specs.Indexes.{row_of_entry};
ghost use Rattle.row_filter.specs.RowFilters.{AreMarks, IsFilterOf, IsSpanIn};
ghost use Rattle.table_stats.specs.Kept.{IsRowBlock, IsOver};
ghost use Rattle.table_stats.specs.Narrow.{uses_some};
ghost use Rattle.table_stats.specs.Ready.{is_kept, own};

use crate::filter::ReadyFilter;
use db_catalog::{Database, RowSpan};
use plan_tree::range_of;
use row_filter::RowFilter;
use std::alloc::Global;

// How many rows are marked at a time.
const BLOCK: u64 = 64;

// Among the marked rows of a span: the mark of the row that comes next is the lowest bit.
fn kept_of_marked(db: &Database, filter: &ReadyFilter<'_>, span: RowSpan, marks: u64) -> u64
    requires over { IsOver db.now filter.now }
    requires span { IsSpanIn db.now filter.now.relation.now.table span }
    requires marks { AreMarks (own filter.now).filter false
        (rows_of_span span (table_at db.now filter.now.relation.now.table).rows) marks }
    ensures { result ≡ count_by (is_kept filter.now)
        (rows_of_span span (table_at db.now filter.now.relation.now.table).rows) }
{
    let table = filter.relation.table;
    let mut left = marks;
    let mut behind = 0;
    let mut kept = 0;
    while left != 0 {
        let unmarked = left.trailing_zeros();
        let place = behind + u64::from(unmarked);
        let row = db.plain_row(table, span.first + place);
        kept += u64::from(filter.keeps(row));
        left = left >> unmarked >> 1;
        behind = place + 1;
    }
    kept
}

// Among the rows of a span. Where ranges tell the whole filter, these are the marked ones.
fn kept_in_span(db: &Database, filter: &ReadyFilter<'_>, ranges: &RowFilter, span: RowSpan) -> u64
    requires over { IsOver db.now filter.now }
    requires ranges { IsFilterOf db.now filter.now.relation.now.table (own filter.now).filter
        ranges.now }
    requires span { IsSpanIn db.now filter.now.relation.now.table span }
    ensures { result ≡ count_by (is_kept filter.now)
        (rows_of_span span (table_at db.now filter.now.relation.now.table).rows) }
{
    let marks = ranges.marks(db, filter.relation.table, span);
    if ranges.is_exact() {
        return u64::from(marks.count_ones());
    }
    kept_of_marked(db, filter, span, marks)
}

// The rows of a block of 64, of which the last one may have fewer.
fn span_of(rows: u64, block: u64) -> RowSpan
    requires { block * 64 < rows }
    ensures { IsRowBlock rows block result }
{
    let first = block * BLOCK;
    RowSpan {
        first,
        count: (rows - first).min(BLOCK) as usize,
    }
}

// Among all rows, block after block.
fn kept_in_blocks(db: &Database, filter: &ReadyFilter<'_>, ranges: &RowFilter) -> u64
    requires over { IsOver db.now filter.now }
    requires ranges { IsFilterOf db.now filter.now.relation.now.table (own filter.now).filter
        ranges.now }
    ensures { result ≡ (relation_stats_of db.now.tables (own filter.now)).kept }
{
    let rows = db.rows(filter.relation.table);
    let mut kept = 0;
    for block in 0..rows.div_ceil(BLOCK) {
        kept += kept_in_span(db, filter, ranges, span_of(rows, block));
    }
    kept
}

/// Among all rows, by the marks of ranges. Where one range tells the whole filter, its words are counted.
pub(crate) fn kept_by_marks(alloc: Global, db: &Database, filter: &ReadyFilter<'_>) -> u64
    requires { IsOver db.now filter.now }
    ensures { result ≡ (relation_stats_of db.now.tables (own filter.now)).kept }
{
    let relation = filter.relation;
    let ranges = RowFilter::new(
        alloc,
        relation.columns.as_slice(),
        relation.filter.as_slice(),
        filter.texts,
    );
    match ranges.count(db, relation.table) {
        Some(count) => count,
        None => kept_in_blocks(db, filter, &ranges),
    }
}

// Among the rows of these entries.
fn kept_among(db: &Database, filter: &ReadyFilter<'_>, entries: &[(i64, u64)]) -> u64
    requires over { IsOver db.now filter.now }
    requires there { All (λ (entry : IndexEntry).
        entry.1 < length (table_at db.now filter.now.relation.now.table).rows) entries.now }
    ensures count { result ≡ count_by (is_kept filter.now)
        (map (row_of_entry db.now filter.now.relation.now.table) entries.now) }
    ensures few { result < 2 ^ 63 }
{
    let table = filter.relation.table;
    let mut kept = 0;
    for entry in entries {
        let row = db.plain_row(table, entry.1);
        kept += u64::from(filter.keeps(row));
    }
    kept
}

/// Among the rows that meet each fixed conjunct that the index on a column can use: no other row meets all of them.
pub(crate) fn kept_within(db: &Database, filter: &ReadyFilter<'_>, column: u8) -> u64
    requires over { IsOver db.now filter.now }
    requires indexed { Contains filter.now.relation.now.indexes column }
    requires usable { IsTrue (uses_some (own filter.now) column) }
    ensures { result ≡ (relation_stats_of db.now.tables (own filter.now)).kept }
{
    let table = filter.relation.table;
    let range = range_of(column, filter.relation.filter.as_slice(), filter.texts);
    let found = db.entries_within(table, column, range.from, range.to);
    kept_among(db, filter, found.older) + kept_among(db, filter, found.newer)
}
