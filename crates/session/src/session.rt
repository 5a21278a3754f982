// What the statements so far have made, and what one statement more does. A statement that stops changes nothing.
ghost use Rattle.std.specs.Prelude.{◌≡◌, ◌+◌, ◌≤◌, OnOk, OnErr};
ghost use Rattle.work_ledger.specs.Account.{max_account};
ghost use Rattle.sql_parse.specs.Trees.{statement_tree};
ghost use Rattle.sql_parse.specs.WellFormed.{IsWellFormed};
ghost use Rattle.sql_parse.specs.Counts.{HasUpTo};
ghost use Rattle.sql_values.specs.Limits.{max_script_bytes};
ghost use Rattle.workspace.specs.Begins.{BelongsTo, FinishesAsDue};
ghost use Rattle.workspace.specs.States.{world_of};
ghost use Rattle.workspace.specs.World.{nothing_made};
ghost use Rattle.session.specs.Begins.{BeginsAsDue, begun_with};
ghost use Rattle.session.specs.Bounds.{IsAnsweredWithin};
ghost use Rattle.session.specs.Returns.{PaysAtMost};

use bouquet_run::Book;
use sql_parse::Statement;
use std::alloc::Global;
use std::hash::RandomState;
use std::marker::Model;
use workspace::{Asked, Begun, GivenFile, Stop, Workspace};

/// What the statements of a script so far have made.
#[derive(Drop)]
pub struct Session {
    pub(crate) workspace: Workspace,
}

impl Model for Session {
    ghost use Rattle.query_block.specs.contracts.condition.Condition as condition;
    ghost use Rattle.plan_tree.specs.contracts.plan.Plan as plan;
    ghost use Rattle.std.specs.Coded.{codes};
    ghost use Rattle.workspace.specs.States.{WorkspaceState};

    ghost Value = { WorkspaceState };

    ghost coded = { Prim.hlevel (codes, condition.the_row.coded, plan.the_row.coded) };

    ghost view = { λ s. s.workspace };
}

// What a statement prints, as it begins.
fn prints(returned: Result<Vec<u8>, Stop>) -> Result<Begun, Stop>
    ensures { result ≡ begun_with returned }
{
    match returned {
        Ok(text) => Ok(Begun::Prints(text)),
        Err(stop) => Err(stop),
    }
}

impl Session {
    /// Before the first statement. Texts and names are hashed by `key`.
    pub fn new(alloc: Global, key: RandomState) -> Session
        ensures { world_of result ≡ nothing_made }
    {
        Session {
            workspace: Workspace::new(alloc, key),
        }
    }

    /// Begins a statement: it is carried out to its end, or until it asks for a file. One that stops changes nothing. A query
    /// has a budget of `max_work` units, and what it paid is entered in the book, whatever the answer; an audit and a run that
    /// learns may spend as much, which no book has.
    pub fn begin(
        &mut self,
        alloc: Global,
        max_work: u64,
        statement: &Statement,
        book: &mut Book,
    ) -> Result<Begun, Stop>
        requires well_formed { IsWellFormed (statement_tree statement.now) }
        requires counted { HasUpTo max_script_bytes (statement_tree statement.now) }
        requires room { book.old + max_work ≤ max_account }
        ensures begins { BeginsAsDue max_work (world_of self.old) (statement_tree statement.now)
            result (world_of self.new) book.old book.new }
        ensures unchanged { OnErr result (self.new ≡ self.old) }
        ensures bounded { OnOk result
            (IsAnsweredWithin (world_of self.old) (statement_tree statement.now)) }
        ensures pays { PaysAtMost max_work book.old book.new }
    {
        match statement {
            Statement::CreateTable(table) => prints(self.workspace.create_table(alloc, table)),
            Statement::CreateIndex(index) => prints(self.workspace.create_index(alloc, index)),
            Statement::Load(load) => self.workspace.load(load),
            Statement::Select(query) => prints(self.select(alloc, max_work, query, book)),
            Statement::Compile(compile) => prints(self.workspace.compile(alloc, compile)),
            Statement::Run(run) => prints(self.run(alloc, max_work, run, book)),
            Statement::Explain(name) => prints(self.workspace.explain(alloc, name)),
            Statement::SaveFile(save) => self.workspace.save_file(alloc, save),
            Statement::OpenFile(opened) => self.workspace.open_file(alloc, opened),
            Statement::Audit(audit) => prints(self.audit(alloc, max_work, audit)),
            Statement::Check(name) => prints(self.workspace.check(alloc, name)),
            Statement::Learn(run) => prints(self.learn(alloc, max_work, run)),
            Statement::Turns(turns) => prints(self.turns(alloc, max_work, turns)),
        }
    }
    /// Carries a statement out to its end, with the file that it asked for in this state, and returns what it prints. One that
    /// stops changes nothing.
    pub fn finish(&mut self, alloc: Global, asked: Asked, given: GivenFile) -> Result<Vec<u8>, Stop>
        requires { BelongsTo (world_of self.old) asked.pending }
        ensures due { FinishesAsDue (world_of self.old) asked given result (world_of self.new) }
        ensures unchanged { OnErr result (self.new ≡ self.old) }
    {
        self.workspace.finish(alloc, asked, given)
    }
}
