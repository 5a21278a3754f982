// RUN: the bouquet of a name answers with values, and the book takes in what the run paid.
ghost use Rattle.std.specs.Prelude.{◌+◌, ◌≤◌};
ghost use Rattle.work_ledger.specs.Account.{max_account};
ghost use Rattle.sql_parse.specs.Trees.{Run};
ghost use Rattle.query_block.specs.Blocks.{block_tree};
ghost use Rattle.bouquet_type.specs.Trees.{bouquet_tree};
ghost use Rattle.workspace.specs.States.{world_of};
ghost use Rattle.session.specs.Answered.{block_answer};
ghost use Rattle.session.specs.Bounds.{Answers};
ghost use Rattle.session.specs.Returns.{PaysAtMost, ReturnsDue};
ghost use Rattle.session.specs.Uses.{IsExecutable};

use crate::answers::block_answer;
use crate::session::Session;
use crate::uses::Used;
use bouquet_run::Book;
use bouquet_type::Kept;
use sql_parse::RunDef;
use std::alloc::Global;
use workspace::Stop;

impl Session {
    // What the block of a use prints, by a run of its bouquet.
    fn answered(
        &self,
        alloc: Global,
        max_work: u64,
        used: &Used<'_>,
        book: &mut Book,
    ) -> Result<Vec<u8>, Stop>
        requires usable { IsExecutable self.now.database used.now }
        requires room { book.old + max_work ≤ max_account }
        ensures due { ReturnsDue (block_answer max_work (world_of self.now)
            (bouquet_tree used.now.bouquet.now) (block_tree used.now.block))
            result (world_of self.now) book.old book.new }
        ensures pays { PaysAtMost max_work book.old book.new }
    {
        let ladder = Kept::new(used.bouquet);
        block_answer(
            alloc,
            max_work,
            &self.workspace,
            ladder,
            used.block.block(),
            book,
        )
    }

    /// Answers the query of the bouquet of this name with the statement's values. What it paid is entered in the book, whatever
    /// the answer.
    pub(crate) fn run(
        &self,
        alloc: Global,
        max_work: u64,
        run: &RunDef,
        book: &mut Book,
    ) -> Result<Vec<u8>, Stop>
        requires room { book.old + max_work ≤ max_account }
        ensures { Answers max_work (world_of self.now) (Run run.now) result book.old book.new }
    {
        let used = self.used(alloc, run)?;
        self.answered(alloc, max_work, &used, book)
    }
}
