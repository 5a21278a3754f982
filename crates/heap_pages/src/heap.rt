// The heap: rows in packed pages, as many whole rows on each as fit. It relies on the ledger for each paid read, and
// never moves, changes or drops a row.
ghost use Rattle.std.specs.Prelude.{◌≡◌, ℕ, ℤ, List, OnOk, ◌+◌, ◌-◌, ◌*◌, ◌/◌, ◌^◌, ◌<◌, ◌≤◌, [], ◌∷◌, ◌++◌, take, drop, length, max, Some, slice_get, IfOk};
ghost use Rattle.work_ledger.specs.Account.{Pays};
ghost use Rattle.work_ledger.specs.Charges.{page_charge, row_charge, fetch_charge};
ghost use Rattle.heap_pages.specs.Limits.{page_words, max_rows, max_columns};
ghost use Rattle.heap_pages.specs.Refused.{KeepsRowLimit};
ghost use Rattle.heap_pages.specs.Rows.{cut_rows, rows_per_page, pages_of, rows_on_page, row_number, IsSlot};
ghost use Rattle.heap_pages.specs.Changes.{Becomes};
ghost use Rattle.heap_pages.specs.Columns.{AreColumnsOf, HaveRoomFor};

use crate::columns::{Columns, Growth, know_words};
use crate::pages::Pages;
use sql_values::MAX_ROWS;
use std::alloc::{AllocError, Global};
use std::marker::Model;
use work_ledger::{Exhausted, Ledger, charge};

/// How many words stand on a page.
const PAGE_WORDS: usize = 1024;

/// Why a heap took no rows.
#[derive(Clone, Copy)]
pub enum HeapFault {
    /// So many rows would be more than a table may have.
    RowLimit {
        /// The rows that the table would have.
        value: u64,
    },
    /// Out of memory.
    NoMemory,
}

impl From<AllocError> for HeapFault {
    ghost use Rattle.std.specs.Prelude.{◌≡◌};
    ghost use Rattle.heap_pages.specs.declared.heap.HeapFault.TheVariants.{NoMemory};

    ghost from_gives = { λ _ fault. fault ≡ NoMemory };

    fn from(_: AllocError) -> HeapFault {
        HeapFault::NoMemory
    }
}

/// A page of a heap, by its number from 0.
#[derive(Clone, Copy)]
pub struct PageView {
    /// The page's number, from 0.
    pub number: u64,
}

/// The rows of one table.
#[derive(Drop)]
pub struct Heap {
    pub(crate) columns: usize,
    // How many rows a full page has.
    per_page: usize,
    // The parts of 2^40 that a row of a page takes, rounded up: a product with it divides by `per_page`.
    reciprocal: u64,
    pages: Pages,
    rows: u64,
    spare: u64,
    // The words of each column, by columns. None for rows that came one by one.
    pub(crate) narrow: Columns,
}

impl Model for Heap {
    ghost use Rattle.heap_pages.specs.Rows.{HeapState, cut_rows};

    ghost Value = { HeapState };

    ghost view = { λ h. record {
      columns = h.columns;
      rows = cut_rows h.columns h.rows h.pages.words;
      spare = h.spare;
    } };

    ghost use Rattle.heap_pages.specs.Columns.{AreHeapParts};

    ghost invariant = { λ h.
        AreHeapParts h.columns h.per_page h.reciprocal h.rows h.spare h.pages h.narrow };
}

// How many pages so many rows take.
fn pages_for(rows: u64, per_page: usize) -> u64
    requires some { 1 ≤ per_page }
    requires few { per_page ≤ page_words }
    requires limit { rows ≤ max_rows }
    ensures { result ≡ (rows + (per_page - 1)) / per_page }
{
    let per_page = per_page as u64;
    (rows + (per_page - 1)) / per_page
}

// Takes all memory for more rows: until there are `count` pages, and in each column. No word changes, and where memory runs
// out, the pages are as they were.
fn take_memory(
    pages: &mut Pages,
    count: usize,
    narrow: &mut Columns,
    words: &[i64],
    growth: Growth,
) -> Result<(), AllocError>
    requires few { length narrow.old ≤ growth.width }
    requires limit { growth.width ≤ max_columns }
    requires there { growth.more * growth.width ≤ length words.now }
    ensures pages { Becomes (record pages.old { count = max pages.old.count count })
        pages.old pages.new result }
    ensures kept { (rows : List ℤ) → AreColumnsOf growth.width growth.before rows narrow.old
        → AreColumnsOf growth.width growth.before rows narrow.new }
    ensures room { OnOk result (HaveRoomFor growth.width growth.more words.now narrow.new) }
{
    narrow.make_room(words, growth)?;
    pages.reach(count)
}

#[tactic(auto, using(crate::proofs::OfRows::of_rows))]
impl Heap {
    /// A table without rows.
    pub fn new(alloc: Global, columns: usize) -> Heap
        requires some { 1 ≤ columns }
        requires few { columns ≤ max_columns }
        ensures { result ≡ record { columns = columns; rows = []; spare = 0 } }
    {
        let per_page = PAGE_WORDS / columns;
        Heap {
            columns,
            per_page,
            reciprocal: (1 << 40) / per_page as u64 + 1,
            pages: Pages::new(alloc, per_page * columns),
            rows: 0,
            spare: 0,
            narrow: Columns::new(alloc),
        }
    }

    /// How many rows there are.
    pub fn rows(&self) -> u64
        ensures count { result ≡ length self.now.rows }
        ensures limit { result ≤ max_rows }
    {
        self.rows
    }

    /// How many pages the rows take. A page holds at least one row.
    pub fn pages(&self) -> u64
        ensures count { result ≡ pages_of self.now.columns (length self.now.rows) }
        ensures row_fits { 1 ≤ rows_per_page self.now.columns }
    {
        pages_for(self.rows, self.per_page)
    }

    /// How many rows stand on page `no`, from 0.
    pub fn rows_on_page(&self, no: u64) -> usize
        requires { no < pages_of self.now.columns (length self.now.rows) }
        ensures { result ≡ rows_on_page self.now.columns (length self.now.rows) no }
    {
        let per_page = self.per_page;
        per_page.min(self.rows as usize - no as usize * per_page)
    }

    /// The number of the first row on page `no`, both from 0.
    pub fn first_row(&self, no: u64) -> u64
        requires { no < pages_of self.now.columns (length self.now.rows) }
        ensures { result ≡ row_number self.now.columns no 0 }
    {
        no * self.per_page as u64
    }

    /// Row `i`, from 0. This read isn't paid.
    pub fn get(&self, i: u64) -> &[i64]
        requires { i < length self.now.rows }
        ensures { slice_get self.now.rows i ≡ Some result.now }
    {
        let number = self.page_of(i);
        self.row_at(number, i as usize - number * self.per_page)
    }

    /// The words of the rows on page `no`, from 0, one row after another. This read isn't paid.
    pub fn plain_page(&self, no: u64) -> &[i64]
        requires { no < pages_of self.now.columns (length self.now.rows) }
        ensures filled { length result.now
            ≡ rows_on_page self.now.columns (length self.now.rows) no * self.now.columns }
        ensures rows { (slot : ℕ) → slot < rows_on_page self.now.columns (length self.now.rows) no
            → slice_get self.now.rows (row_number self.now.columns no slot)
            ≡ Some (take self.now.columns (drop (slot * self.now.columns) result.now)) }
    {
        let rows = self.rows_on_page(no);
        self.pages.words_at(no as usize, 0, rows * self.columns)
    }

    // The page of row `i`, which may be the next row.
    fn page_of(&self, i: u64) -> usize
        requires { i ≤ length self.now.rows }
        ensures { result ≡ i / rows_per_page self.now.columns }
    {
        (i * self.reciprocal >> 40) as usize
    }

    // The row in this slot of page `number`.
    fn row_at(&self, number: usize, slot: usize) -> &[i64]
        requires { IsSlot self.now.columns (length self.now.rows) number slot }
        ensures { slice_get self.now.rows (row_number self.now.columns number slot) ≡ Some result.now }
    {
        self.pages
            .words_at(number, slot * self.columns, self.columns)
    }

    /// Makes room for `n` more rows. A refusal leaves the rows and the room as they were.
    pub fn reserve(&mut self, n: u64) -> Result<(), HeapFault>
        requires { n ≤ 2 ^ 62 }
        ensures reserved { Becomes (record self.old { spare = max self.old.spare n }) self.old self.new result }
        ensures limit { KeepsRowLimit (length self.old.rows + n) result }
    {
        let value = self.rows + n;
        if value > MAX_ROWS {
            return Err(HeapFault::RowLimit { value });
        }
        if n > self.spare {
            self.pages.reach(pages_for(value, self.per_page) as usize)?;
            self.spare = n;
        }
        Ok(())
    }

    /// Appends a row, for which there is room, and returns its number, from 0.
    pub fn append(&mut self, row: &[i64]) -> u64
        requires room { 0 < self.old.spare }
        requires width { length row.now ≡ self.old.columns }
        ensures place { result ≡ length self.old.rows }
        ensures appended { self.new ≡ record self.old {
          rows = self.old.rows ++ row.now ∷ [];
          spare = self.old.spare - 1;
        } }
    {
        let place = self.rows;
        let number = self.page_of(place);
        know_words(row);
        self.pages.append(number, row);
        self.narrow.clear();
        self.rows += 1;
        self.spare -= 1;
        place
    }

    /// Appends `n` rows whose words follow one another, without use of the spare room, which is given up. A refusal leaves the
    /// rows and the room as they were.
    pub fn append_rows(&mut self, words: Vec<i64>, n: u64) -> Result<(), HeapFault>
        requires some { n ≤ 2 ^ 62 }
        requires filled { length words.items ≡ n * self.old.columns }
        ensures appended { let rows = self.old.rows ++ cut_rows self.old.columns n words.items in
            Becomes (record self.old { rows = rows; spare = 0 }) self.old self.new result }
        ensures limit { KeepsRowLimit (length self.old.rows + n) result }
    {
        if n > MAX_ROWS - self.rows {
            return Err(HeapFault::RowLimit {
                value: self.rows + n,
            });
        }
        let value = self.rows + n;
        let first = self.page_of(self.rows);
        let growth = Growth {
            width: self.columns,
            before: self.rows,
            more: n as usize,
        };
        let pages = pages_for(value, self.per_page) as usize;
        let words = words.as_slice();
        take_memory(&mut self.pages, pages, &mut self.narrow, words, growth)?;
        know_words(words);
        self.pages.append_all(first, words);
        self.narrow.append(words, growth);
        self.rows = value;
        self.spare = 0;
        Ok(())
    }

    /// Opens page `no`, from 0, which pays for it.
    pub fn page(&self, no: u64, ledger: &mut Ledger) -> Result<PageView, Exhausted>
        requires { no < pages_of self.now.columns (length self.now.rows) }
        ensures page { IfOk result (λ view. view.number ≡ no) }
        ensures pays { Pays page_charge ledger.old ledger.new result }
    {
        ledger.pay(charge::PAGE)?;
        Ok(PageView { number: no })
    }

    /// The row in this slot, from 0, of an opened page, which pays for the row.
    pub fn row_of(
        &self,
        view: &PageView,
        slot: usize,
        ledger: &mut Ledger,
    ) -> Result<&[i64], Exhausted>
        requires { IsSlot self.now.columns (length self.now.rows) view.now.number slot }
        ensures row { IfOk result (λ row. slice_get self.now.rows
            (row_number self.now.columns view.now.number slot) ≡ Some row.now) }
        ensures pays { Pays row_charge ledger.old ledger.new result }
    {
        ledger.pay(charge::ROW)?;
        Ok(self.row_at(view.number as usize, slot))
    }

    /// Row `i`, from 0, which pays for the look-up.
    pub fn fetch(&self, i: u64, ledger: &mut Ledger) -> Result<&[i64], Exhausted>
        requires { i < length self.now.rows }
        ensures row { IfOk result (λ row. slice_get self.now.rows i ≡ Some row.now) }
        ensures pays { Pays fetch_charge ledger.old ledger.new result }
    {
        ledger.pay(charge::FETCH)?;
        Ok(self.get(i))
    }
}
