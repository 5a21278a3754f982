// The rows of a whole table, page after page. It relies on the meter to open each page for pay, that of all rows on it, which
// gives the key to read them by, and never looks at a row twice.
ghost use Rattle.std.specs.Prelude.{◌≡◌, ◌+◌, ◌-◌, ◌*◌, ◌<◌, ◌≤◌, max, min, IfOk, MatchOption, length};
ghost use Rattle.db_catalog.specs.ColumnRanges.{slot_words};
ghost use Rattle.exec_scan.specs.Stepping.{PaysFor};
ghost use Rattle.exec_scan.specs.TableReading.{ArePageWords, HasTable, IsTableReader, OpensNext, ReadsTableOn, StartsTable, marks_at_hand, table_due};

use db_catalog::{Metered, OpenedPage, PageMarks, RowSpan, row_in};
use std::marker::Model;
use work_ledger::Exhausted;

/// Where a reader of a whole table is.
#[derive(Drop)]
pub(crate) struct TableReader {
    table: u32,
    pages: u64,
    opened: u64,
    // The key to the last page that was opened, and its rows. Before that it has none.
    key: Option<OpenedPage>,
    slots: usize,
    slot: usize,
}

impl Model for TableReader {
    ghost use Rattle.exec_scan.specs.TableReading.{TableReaderState};

    ghost Value = { TableReaderState };

    ghost view = { λ reader. record {
      table = reader.table;
      pages = reader.pages;
      opened = reader.opened;
      key = reader.key;
      slots = reader.slots;
      slot = reader.slot;
    } };
}

impl TableReader {
    /// A reader of a table, of which no page is opened yet.
    pub(crate) fn new(table: u32, meter: &Metered<'_>) -> TableReader
        requires { HasTable meter.now.database table }
        ensures { StartsTable meter.now.database table result }
    {
        TableReader {
            table,
            pages: meter.pages(table),
            opened: 0,
            key: None,
            slots: 0,
            slot: 0,
        }
    }

    /// Opens the next page, once all rows of the one before are looked at, which pays for it and all its rows. False where all
    /// pages are opened.
    pub(crate) fn open_next(&mut self, meter: &mut Metered<'_>) -> Result<bool, Exhausted>
        requires reader { IsTableReader meter.old.database self.old }
        requires looked { self.old.slot ≡ self.old.slots }
        ensures opens { IfOk result (OpensNext meter.old.database self.old self.new) }
        ensures pays { PaysFor (table_due meter.old.database)
            self.old self.new meter.old meter.new result }
        ensures goes_on { ReadsTableOn meter.old.database self.old self.new }
    {
        if self.opened == self.pages {
            return Ok(false);
        }
        let rows = meter.rows_on_page(self.table, self.opened);
        self.key = Some(meter.open_page(self.table, self.opened)?);
        self.opened += 1;
        self.slots = rows;
        self.slot = 0;
        Ok(true)
    }

    /// How many rows of the page at hand aren't looked at yet.
    pub(crate) fn ahead_on_page(&self) -> usize
        requires { self.now.slot ≤ self.now.slots }
        ensures { result ≡ self.now.slots - self.now.slot }
    {
        self.slots - self.slot
    }

    /// The slot where the next block of rows ends, which has so many of them at most.
    pub(crate) fn block_end(&self, most: usize) -> usize
        requires { self.now.slot ≤ self.now.slots }
        ensures { result ≡ min (self.now.slot + most) self.now.slots }
    {
        self.slot + (self.slots - self.slot).min(most)
    }

    /// Whoever marks the rows of the page at hand. None where no page is opened.
    pub(crate) fn marks<'d>(&self, meter: &Metered<'d>) -> Option<PageMarks<'d>>
        requires { IsTableReader meter.now.database self.now }
        ensures { MatchOption result (self.now.slots ≡ 0)
            (λ marks. marks ≡ marks_at_hand meter.now.database self.now) }
    {
        match &self.key {
            Some(key) => Some(meter.opened_marks(key)),
            None => None,
        }
    }

    /// Looks at the next rows of the page, so many of them.
    pub(crate) fn pass(&mut self, count: usize)
        requires { self.old.slot + count ≤ self.old.slots }
        ensures { self.new ≡ record self.old { slot = self.old.slot + count } }
    {
        // No slot is past the last one, so the sum fits.
        let _ = &self.slots;
        self.slot += count;
    }

    /// Looks at the next rows of the page, up to the slot `end`.
    pub(crate) fn pass_to(&mut self, end: usize)
        ensures { self.new ≡ record self.old { slot = max self.old.slot end } }
    {
        self.slot = self.slot.max(end);
    }

    /// The next rows of the page that these marks are of, up to the slot `end`, by their numbers in the table.
    pub(crate) fn rows_to(&self, end: usize, page: &PageMarks<'_>) -> RowSpan
        requires { self.now.slot ≤ end × end ≤ page.now.rows }
        ensures first { result.first ≡ page.now.first + self.now.slot }
        ensures count { result.count ≡ end - self.now.slot }
    {
        page.span(self.slot, end)
    }

    /// The words of the rows on the page at hand, one row after another. They are paid since the page is opened.
    pub(crate) fn page<'d>(&self, meter: &Metered<'d>) -> &'d [i64]
        requires { IsTableReader meter.now.database self.now }
        ensures { ArePageWords meter.now.database self.now result.now }
    {
        match &self.key {
            Some(key) => meter.opened_page(key),
            None => &[],
        }
    }

    /// The row that was looked at last, of this page, whose rows have `width` words each.
    pub(crate) fn last_row<'p>(&self, page: &'p [i64], width: usize) -> &'p [i64]
        requires some { 0 < self.now.slot }
        requires filled { self.now.slot * width ≤ length page.now }
        ensures { result.now ≡ slot_words page.now width (self.now.slot - 1) }
    {
        row_in(page, width, self.slot - 1)
    }
}
