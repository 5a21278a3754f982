// The fold over the statements of a script: each is carried out and what it prints is put, up to and with the first that is
// refused. It alone reads and writes files, for a statement at most one. It relies on the session for what a statement prints,
// and never looks at what a file or an answer holds.
ghost use Rattle.std.specs.Prelude.{◌≡◌, ◌+◌, ◌≤◌, map, All, IfOk, OnOk};
ghost use Rattle.std.specs.Str.{IsUtf8};
ghost use Rattle.work_ledger.specs.Account.{max_account};
ghost use Rattle.outside_io.specs.Count.{Rose};
ghost use Rattle.sql_values.specs.Limits.{max_script_bytes};
ghost use Rattle.sql_parse.specs.Trees.{statement_tree};
ghost use Rattle.sql_parse.specs.WellFormed.{IsWellFormed};
ghost use Rattle.sql_parse.specs.Counts.{HasUpTo, HaveUpTo};
ghost use Rattle.session.specs.Bounds.{IsAnsweredWithin};
ghost use Rattle.session.specs.Returns.{PaysAtMost};
ghost use Rattle.workspace.specs.States.{world_of};
ghost use Rattle.workspace.specs.World.{nothing_made};
ghost use Rattle.shell.specs.Due.{GivesFile, IsCarriedOut, CarriesAll, CarriesOne, IsUnpaid, KeepsOutlets};

use crate::Status;
use crate::outlets::Outlets;
use crate::sink::{put_refusal, put_text};
use outside_io::{FileFault, Folder, Sink};
use session::{Begun, GivenFile, Session, Stop, file_name};
use sql_parse::Statement;
use sql_values::Text;
use std::alloc::Global;
use std::hash::RandomState;

// The file of this name; or how the run ends.
fn read_file<F: Folder>(alloc: Global, name: &Text, folder: &mut F) -> Result<GivenFile, Status>
    requires { IsUtf8 name.now }
    ensures { GivesFile name.now (F.state folder.old) (F.state folder.new) result }
{
    match folder.read(alloc, file_name(name)) {
        Ok(bytes) => Ok(GivenFile::Bytes(bytes)),
        Err(FileFault::Absent) => Ok(GivenFile::Absent),
        Err(FileFault::TooLong { len }) => Ok(GivenFile::TooLong(len)),
        Err(FileFault::Failed) => Err(Status::ReadFault),
        Err(FileFault::NoMemory) => Err(Status::NoMemory),
    }
}

// Carries a statement out and returns what it returned; or how the run ends in front of it.
fn carry_out<F: Folder, K: Sink>(
    alloc: Global,
    session: &mut Session,
    statement: &Statement,
    outlets: &mut Outlets<'_, F, K>,
) -> Result<Result<Vec<u8>, Stop>, Status>
    requires well_formed { IsWellFormed (statement_tree statement.now) }
    requires counted { HasUpTo max_script_bytes (statement_tree statement.now) }
    requires room { outlets.old.book.now + outlets.old.max_work ≤ max_account }
    ensures carries { IsCarriedOut outlets.old.max_work (statement_tree statement.now)
        (F.state outlets.old.folder.now) (F.state outlets.new.folder.now) (world_of session.old)
        (world_of session.new) outlets.old.book.now outlets.new.book.now result }
    ensures bounded { IfOk result (λ returned. OnOk returned
        (IsAnsweredWithin (world_of session.old) (statement_tree statement.now))) }
    ensures sink { outlets.new.sink ≡ outlets.old.sink }
    ensures lent { KeepsOutlets K.faults outlets.old outlets.new }
    ensures pays { PaysAtMost outlets.old.max_work outlets.old.book.now outlets.new.book.now }
{
    match session.begin(alloc, outlets.max_work, statement, outlets.book) {
        Ok(Begun::Prints(text)) => Ok(Ok(text)),
        Ok(Begun::Saves(name, bytes)) => match outlets.folder.write(file_name(&name), &bytes) {
            Ok(()) => Ok(Ok(Vec::new(alloc))),
            Err(FileFault::Failed) => Err(Status::WriteFault),
            Err(FileFault::NoMemory) => Err(Status::NoMemory),
            Err(FileFault::Absent | FileFault::TooLong { .. }) => unreachable!(),
        },
        Ok(Begun::Asks(asked)) => match read_file(alloc, &asked.name, outlets.folder) {
            Ok(given) => Ok(session.finish(alloc, asked, given)),
            Err(ended) => {
                drop(asked);
                Err(ended)
            }
        },
        Err(stop) => Ok(Err(stop)),
    }
}

// Carries a statement out and puts what it prints; where the run ends there, returns how.
fn carry_out_one<F: Folder, K: Sink>(
    alloc: Global,
    session: &mut Session,
    statement: &Statement,
    outlets: &mut Outlets<'_, F, K>,
) -> Result<(), Status>
    requires well_formed { IsWellFormed (statement_tree statement.now) }
    requires counted { HasUpTo max_script_bytes (statement_tree statement.now) }
    requires room { outlets.old.book.now + outlets.old.max_work ≤ max_account }
    ensures carries { CarriesOne outlets.old.max_work
        (Rose (K.faults outlets.old.sink.now) (K.faults outlets.new.sink.now))
        (statement_tree statement.now) (F.state outlets.old.folder.now)
        (F.state outlets.new.folder.now) (world_of session.old) (world_of session.new)
        outlets.old.book.now outlets.new.book.now result (K.got outlets.old.sink.now)
        (K.got outlets.new.sink.now) }
    ensures within { outlets.new.book.now ≤ outlets.old.book.now + outlets.old.max_work }
    ensures lent { KeepsOutlets K.faults outlets.old outlets.new }
{
    match carry_out(alloc, session, statement, outlets) {
        Ok(Ok(text)) => put_text(outlets.sink, &text),
        Ok(Err(Stop::Refused(refusal))) => {
            let refused = put_refusal(alloc, outlets.sink, &refusal);
            drop(refusal);
            Err(refused)
        }
        Ok(Err(Stop::NoMemory)) => Err(Status::NoMemory),
        Err(ended) => Err(ended),
    }
}

// Carries the statements out on a session in which nothing is made, one after another, up to and with the first that is refused.
fn carry_out_each<F: Folder, K: Sink>(
    alloc: Global,
    session: &mut Session,
    statements: &[Statement],
    outlets: &mut Outlets<'_, F, K>,
) -> Status
    requires new { world_of session.old ≡ nothing_made }
    requires well_formed { All (λ statement.
        IsWellFormed (statement_tree statement)) statements.now }
    requires counted { HaveUpTo max_script_bytes statements.now }
    requires fresh { IsUnpaid outlets.old }
    ensures carries { CarriesAll outlets.old.max_work
        (Rose (K.faults outlets.old.sink.now) (K.faults outlets.new.sink.now))
        (map statement_tree statements.now) (F.state outlets.old.folder.now)
        (F.state outlets.new.folder.now) result (K.got outlets.old.sink.now)
        (K.got outlets.new.sink.now) outlets.new.book.now }
    ensures lent { KeepsOutlets K.faults outlets.old outlets.new }
{
    for statement in statements {
        match carry_out_one(alloc, session, statement, outlets) {
            Ok(()) => {}
            Err(ended) => return ended,
        }
    }
    Status::Done
}

/// Carries the statements out, one after another, up to and with the first that is refused.
pub(crate) fn carry_out_all<F: Folder, K: Sink>(
    alloc: Global,
    key: RandomState,
    statements: &[Statement],
    outlets: &mut Outlets<'_, F, K>,
) -> Status
    requires well_formed { All (λ statement.
        IsWellFormed (statement_tree statement)) statements.now }
    requires counted { HaveUpTo max_script_bytes statements.now }
    requires fresh { IsUnpaid outlets.old }
    ensures carries { CarriesAll outlets.old.max_work
        (Rose (K.faults outlets.old.sink.now) (K.faults outlets.new.sink.now))
        (map statement_tree statements.now) (F.state outlets.old.folder.now)
        (F.state outlets.new.folder.now) result (K.got outlets.old.sink.now)
        (K.got outlets.new.sink.now) outlets.new.book.now }
    ensures lent { KeepsOutlets K.faults outlets.old outlets.new }
{
    let mut session = Session::new(alloc, key);
    carry_out_each(alloc, &mut session, statements, outlets)
}
