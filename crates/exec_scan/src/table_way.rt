// The way to the rows of a relation through its whole table. It relies on marks of the relation's filter, which it takes for a
// block of rows at once, and asks the filter itself only of a marked row, where the marks don't tell all.
ghost use Rattle.std.specs.Prelude.{◌≡◌, [], MatchOption, None};
ghost use Rattle.sql_values.specs.Stored.{values_of};
ghost use Rattle.query_block.specs.Blocks.{IsRelation, relation_tree};
ghost use Rattle.query_block.specs.Meaning.{meets_filter};
ghost use Rattle.db_catalog.specs.ColumnRanges.{AreStored};
ghost use Rattle.exec_scan.specs.Reading.{FindsOn, IsFirstRow, IsRecheckOf, IsRelationIn, IsWayTo, LeadsTo, LendsKept, kept_ahead, read_due};
ghost use Rattle.exec_scan.specs.Stepping.{PaysFor};
ghost use Rattle.exec_scan.specs.TableWays.{LooksAtAll, LooksOnPage, MovesOnPage, TakesBlock};
ghost use Rattle.exec_scan.specs.declared.way.Way.TheVariants.{Table};

use crate::marks::{NO_MARKS, NextMarks, first_marked, marks_behind};
use crate::table_reader::TableReader;
use db_catalog::Metered;
use query_block::Relation;
use row_filter::{FilterRecheck, RowFilter};
use std::alloc::Global;
use work_ledger::Exhausted;

/// The most rows whose marks are taken at once.
const BLOCK_ROWS: usize = 64;

/// The reader of a relation's table, the relation's filter made ready, and the marks of rows that come next.
#[derive(Drop)]
pub(crate) struct TableWay {
    reader: TableReader,
    filter: RowFilter,
    next: NextMarks,
}

impl TableWay {
    /// The way through a relation's table. Nothing is read yet.
    pub(crate) fn new(alloc: Global, relation: &Relation, meter: &Metered<'_>) -> TableWay
        requires { IsRelationIn meter.now.database (relation_tree relation.now) }
        ensures { LeadsTo meter.now.database (relation_tree relation.now) None (Table result) }
    {
        TableWay {
            reader: TableReader::new(relation.table, meter),
            filter: RowFilter::new(
                alloc,
                relation.columns.as_slice(),
                relation.filter.as_slice(),
                meter.texts(),
            ),
            next: NO_MARKS,
        }
    }

    /// Whether the marks of rows tell all of the relation's filter, so that no row is asked.
    pub(crate) fn is_exact(&self) -> bool {
        self.filter.is_exact()
    }

    // Looks at the rows whose marks are at hand, none of which is marked, and takes the marks of more. False where all rows of
    // the page are looked at.
    fn next_block(&mut self, relation: &Relation, meter: &Metered<'_>) -> bool
        requires way { IsWayTo meter.now.database (relation_tree relation.now) (Table self.old) }
        requires asked { (relation_tree relation.now).filter ≡ [] → ⊥ }
        requires unmarked { self.old.next.marks ≡ 0 }
        ensures takes { TakesBlock meter.now.database (relation_tree relation.now)
            self.old self.new result }
        ensures moves { MovesOnPage self.old self.new }
        ensures goes_on { IsWayTo meter.now.database (relation_tree relation.now) (Table self.new) }
    {
        self.reader.pass_to(self.next.end);
        let ahead = self.reader.ahead_on_page();
        if ahead == 0 {
            return false;
        }
        let end = self.reader.block_end(BLOCK_ROWS);
        let Some(page) = self.reader.marks(meter) else {
            return false;
        };
        let rows = self.reader.rows_to(end, &page);
        let marks = self.filter.marks(&page, relation.table, rows);
        self.next = NextMarks { marks, end };
        true
    }

    // Looks on, up to the next row of the page that is marked. False where none is.
    fn next_marked(&mut self, relation: &Relation, meter: &Metered<'_>) -> bool
        requires way { IsWayTo meter.now.database (relation_tree relation.now) (Table self.old) }
        requires asked { (relation_tree relation.now).filter ≡ [] → ⊥ }
        ensures looks { LooksOnPage meter.now.database (relation_tree relation.now)
            self.old self.new result }
        ensures moves { MovesOnPage self.old self.new }
        ensures goes_on { IsWayTo meter.now.database (relation_tree relation.now) (Table self.new) }
    {
        while self.next.marks == 0 {
            if !self.next_block(relation, meter) {
                return false;
            }
        }
        let before = first_marked(self.next.marks);
        self.reader.pass(before + 1);
        self.next.marks = marks_behind(self.next.marks, before);
        true
    }

    // Looks on, up to the next row of the page that may meet the relation's filter. False where none may.
    fn next_candidate(&mut self, relation: &Relation, meter: &Metered<'_>) -> bool
        requires way { IsWayTo meter.now.database (relation_tree relation.now) (Table self.old) }
        ensures looks { LooksOnPage meter.now.database (relation_tree relation.now)
            self.old self.new result }
        ensures moves { MovesOnPage self.old self.new }
        ensures goes_on { IsWayTo meter.now.database (relation_tree relation.now) (Table self.new) }
    {
        if !relation.filter.as_slice().is_empty() {
            return self.next_marked(relation, meter);
        }
        if self.reader.ahead_on_page() == 0 {
            return false;
        }
        self.reader.pass(1);
        true
    }

    // Looks on, at the rows of the page that was opened last, for the next one that meets the relation's filter. None where all
    // of them are looked at. They are paid since the page is opened.
    fn find_on_page<'d>(
        &mut self,
        relation: &Relation,
        recheck: &FilterRecheck,
        meter: &Metered<'d>,
    ) -> Option<&'d [i64]>
        requires way { IsWayTo meter.now.database (relation_tree relation.now) (Table self.old) }
        requires recheck { IsRecheckOf meter.now.database (relation_tree relation.now) recheck.now }
        ensures row { let own = relation_tree relation.now in
            MatchOption result (LooksAtAll meter.now.database own self.old.reader self.new.reader)
            (λ lent. IsFirstRow meter.now.database.texts own
            (kept_ahead meter.now.database own self.old.reader)
            (kept_ahead meter.now.database own self.new.reader) lent.now) }
        ensures moves { MovesOnPage self.old self.new }
        ensures goes_on { IsWayTo meter.now.database (relation_tree relation.now) (Table self.new) }
    {
        if self.reader.ahead_on_page() == 0 {
            return None;
        }
        let page = self.reader.page(meter);
        let width = relation.columns.as_slice().len();
        while self.next_candidate(relation, meter) {
            let row = self.reader.last_row(page, width);
            if self.filter.is_exact() || is_met(recheck, relation, row, meter) {
                return Some(row);
            }
        }
        None
    }

    /// Reads on, page after page, to the next row of the relation that meets its filter. None where none is left.
    pub(crate) fn find<'d>(
        &mut self,
        relation: &Relation,
        recheck: &FilterRecheck,
        meter: &mut Metered<'d>,
    ) -> Result<Option<&'d [i64]>, Exhausted>
        requires way { IsWayTo meter.old.database (relation_tree relation.now) (Table self.old) }
        requires recheck { IsRecheckOf meter.old.database (relation_tree relation.now) recheck.now }
        ensures row { LendsKept meter.old (relation_tree relation.now) (Table self.old)
            (Table self.new) result (λ words. words.now) }
        ensures pays { PaysFor (read_due meter.old.database (relation_tree relation.now))
            (Table self.old) (Table self.new) meter.old meter.new result }
        ensures goes_on { FindsOn meter.old.database (relation_tree relation.now)
            (Table self.old) (Table self.new) }
    {
        'pages: loop {
            if let Some(row) = self.find_on_page(relation, recheck, meter) {
                return Ok(Some(row));
            }
            self.next = NO_MARKS;
            if !self.reader.open_next(meter)? {
                return Ok(None);
            }
        }
    }
}

// Whether a row of a relation meets its filter.
fn is_met(recheck: &FilterRecheck, relation: &Relation, row: &[i64], meter: &Metered<'_>) -> bool
    requires relation { IsRelation [] (relation_tree relation.now) }
    requires recheck { IsRecheckOf meter.now.database (relation_tree relation.now) recheck.now }
    requires words { AreStored meter.now.database.texts relation.now.columns row.now }
    ensures { let own = relation_tree relation.now in result
        ≡ meets_filter own.filter (values_of meter.now.database.texts own.columns row.now) }
{
    recheck.meets(
        relation.filter.as_slice(),
        relation.columns.as_slice(),
        row,
        meter.texts(),
    )
}
