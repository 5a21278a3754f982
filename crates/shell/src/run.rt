// A run of the source's script: it is read to its end and carried out. It knows nothing of arguments.
ghost use Rattle.std.specs.Prelude.{◌≡◌, ◌+◌, ◌≤◌, [], length, Some, IfSome};
ghost use Rattle.outside_io.specs.Count.{Rose};
ghost use Rattle.sql_values.specs.Limits.{max_script_bytes};
ghost use Rattle.shell.specs.Due.{IsUnpaid, KeepsOutlets, RunsScript};
ghost use Rattle.shell.specs.Source.{TakesAtMost};

use crate::Status;
use crate::fold::carry_out_all;
use crate::outlets::Outlets;
use crate::script::{ScriptFault, read_script};
use crate::sink::put_refusal;
use crate::source::{SourceFault, read_source};
use outside_io::{Folder, Sink, Source};
use std::alloc::Global;
use std::hash::RandomState;

/// Carries out a script.
pub(crate) fn carry_out_script<F: Folder, K: Sink>(
    alloc: Global,
    key: RandomState,
    script: &[u8],
    outlets: &mut Outlets<'_, F, K>,
) -> Status
    requires { IsUnpaid outlets.old }
    ensures runs { RunsScript outlets.old.max_work ⊥
        (Rose (K.faults outlets.old.sink.now) (K.faults outlets.new.sink.now)) (Some script.now)
        (F.state outlets.old.folder.now) (F.state outlets.new.folder.now) result
        (K.got outlets.old.sink.now) (K.got outlets.new.sink.now) outlets.new.book.now }
    ensures fits { result ≡ Status.Done → length script.now ≤ max_script_bytes }
    ensures lent { KeepsOutlets K.faults outlets.old outlets.new }
{
    match read_script(alloc, script) {
        Ok(statements) => {
            let ended = carry_out_all(alloc, key, &statements, outlets);
            drop(statements);
            ended
        }
        Err(ScriptFault::Refused(refusal)) => {
            let ended = put_refusal(alloc, outlets.sink, &refusal);
            drop(refusal);
            ended
        }
        Err(ScriptFault::NoMemory) => Status::NoMemory,
    }
}

/// Reads the script from the source and carries it out.
pub(crate) fn run_source<S: Source, F: Folder, K: Sink>(
    alloc: Global,
    key: RandomState,
    source: &mut S,
    outlets: &mut Outlets<'_, F, K>,
) -> Status
    requires { IsUnpaid outlets.old }
    ensures runs { RunsScript outlets.old.max_work
        (Rose (S.faults source.old) (S.faults source.new))
        (Rose (K.faults outlets.old.sink.now) (K.faults outlets.new.sink.now)) (S.left source.old)
        (F.state outlets.old.folder.now) (F.state outlets.new.folder.now) result
        (K.got outlets.old.sink.now) (K.got outlets.new.sink.now) outlets.new.book.now }
    ensures emptied { result ≡ Status.Done →
        IfSome (S.left source.old) (λ _. S.left source.new ≡ Some []) }
    ensures bounded { IfSome (S.left source.old)
        (TakesAtMost (max_script_bytes + 1) (S.left source.new)) }
    ensures lent { KeepsOutlets K.faults outlets.old outlets.new }
{
    let script = match read_source(alloc, source) {
        Ok(script) => script,
        Err(SourceFault::Failed) => return Status::ReadFault,
        Err(SourceFault::NoMemory) => return Status::NoMemory,
    };
    carry_out_script(alloc, key, &script, outlets)
}
