// SELECT: a query is bound before anything else is asked of it; it has no values, so none of its block's parameters may be
// left; then its compiled bouquet is run, each contour of which is made when the run comes to it.
ghost use Rattle.std.specs.Prelude.{◌+◌, ◌≤◌};
ghost use Rattle.work_ledger.specs.Account.{max_account};
ghost use Rattle.sql_parse.specs.Trees.{Select, query_tree};
ghost use Rattle.workspace.specs.Bouquets.{IsScriptQuery};
ghost use Rattle.workspace.specs.States.{world_of};
ghost use Rattle.session.specs.Bounds.{Answers};

use crate::answers::block_answer;
use crate::session::Session;
use bouquet_run::Book;
use contours::Lazy;
use cost_model::Costing;
use plan_space::Outlook;
use sql_parse::Query;
use sql_values::DEFAULT_THRESHOLD;
use std::alloc::Global;
use workspace::{Stop, block_of, sizes_of};

impl Session {
    /// Answers a query. What it paid is entered in the book, whatever the answer.
    pub(crate) fn select(
        &self,
        alloc: Global,
        max_work: u64,
        query: &Query,
        book: &mut Book,
    ) -> Result<Vec<u8>, Stop>
        requires query { IsScriptQuery (query_tree query.now) }
        requires room { book.old + max_work ≤ max_account }
        ensures { Answers max_work (world_of self.now) (Select (query_tree query.now))
            result book.old book.new }
    {
        let database = self.workspace.database();
        let block = block_of(alloc, database, query)?;
        block.fits_values(&[])?;
        let (grid, stats) = sizes_of(alloc, database, &block, None)?;
        let costing = Costing::new(&block, &stats, &grid);
        let outlook = Outlook::new(alloc, &costing)?;
        let ladder = Lazy::new(outlook, DEFAULT_THRESHOLD as u32);
        block_answer(alloc, max_work, &self.workspace, ladder, &block, book)
    }
}
