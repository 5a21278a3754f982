// The key to a page. A payment for the page and all its rows makes one, and nothing else does, so who has it may read them.
// It relies on the ledger for the payment, and on the database for how many rows stand on the page.
ghost use Rattle.std.specs.Prelude.{◌≡◌, ◌+◌, ◌*◌, ◌<◌, IfOk};
ghost use Rattle.work_ledger.specs.Account.{Pays};
ghost use Rattle.work_ledger.specs.Charges.{page_charge, row_charge};
ghost use Rattle.db_catalog.specs.Meter.{page_rows, table_pages};

use crate::database::Database;
use std::marker::Model;
use work_ledger::{Exhausted, Ledger, charge};

/// The key to a page of a table: the page is paid with all its rows.
#[derive(Drop)]
pub struct OpenedPage {
    table: u32,
    page: u64,
}

impl Model for OpenedPage {
    ghost use Rattle.db_catalog.specs.Opened.{OpenedPageState};

    ghost Value = { OpenedPageState };

    ghost view = { λ key. record { table = key.table; page = key.page } };
}

impl OpenedPage {
    /// Pays at once for page `no` of a table, from 0, and for each row on it, which makes the key to it.
    pub(crate) fn pay(
        database: &Database,
        table: u32,
        no: u64,
        ledger: &mut Ledger,
    ) -> Result<OpenedPage, Exhausted>
        requires { no < table_pages database.now table }
        ensures key { IfOk result (λ key. key ≡ record { table = table; page = no }) }
        ensures pays { Pays (page_charge + row_charge * page_rows database.now table no)
            ledger.old ledger.new result }
    {
        let rows = database.rows_on_page(table, no);
        ledger.pay(charge::PAGE + charge::ROW * rows as u128)?;
        Ok(OpenedPage { table, page: no })
    }

    /// The table.
    pub(crate) fn table(&self) -> u32
        ensures { result ≡ self.now.table }
    {
        self.table
    }

    /// The number of the page in it, from 0.
    pub(crate) fn page(&self) -> u64
        ensures { result ≡ self.now.page }
    {
        self.page
    }
}
