// What goes out: a text in one put, the line of a refusal. A text of no bytes isn't put.
ghost use Rattle.std.specs.Prelude.{◌≡◌, ◌≢◌, ◌⊎◌, ℕ, [], take, OnOk, OnErr, IfErr, IsErrOf};
ghost use Rattle.std.specs.Io.KnownBytes.{Appends, Keeps};
ghost use Rattle.outside_io.specs.Count.{HasCause};
ghost use Rattle.workspace.specs.Refusal.{line_of};

use crate::Status;
use outside_io::{PutFault, Sink};
use session::{Refusal, refusal_line};
use std::alloc::Global;

/// Puts a text, where it isn't empty.
pub(crate) fn put_text<K: Sink>(sink: &mut K, text: &[u8]) -> Result<(), Status>
    ensures whole { OnOk result (Appends (K.got sink.old) (K.got sink.new) text.now) }
    ensures part { OnErr result
        ((n : ℕ) × Appends (K.got sink.old) (K.got sink.new) (take n text.now)) }
    ensures nothing { IsErrOf result Status.NoMemory → Keeps (K.got sink.old) (K.got sink.new) }
    ensures untouched { text.now ≡ [] → sink.new ≡ sink.old }
    ensures some { OnErr result (text.now ≢ []) }
    ensures kinds { IfErr result
        (λ ended. (ended ≡ Status.WriteFault) ⊎ (ended ≡ Status.NoMemory)) }
    ensures sink { HasCause (IsErrOf result Status.WriteFault)
        (K.faults sink.old) (K.faults sink.new) }
{
    if text.is_empty() {
        return Ok(());
    }
    match sink.put(text) {
        Ok(()) => Ok(()),
        Err(PutFault::Failed) => Err(Status::WriteFault),
        Err(PutFault::NoMemory) => Err(Status::NoMemory),
    }
}

/// Puts the line of a refusal, and returns how the run ends.
#[tactic(auto, using(crate::proofs::Beginning::whole_begins))]
pub(crate) fn put_refusal<K: Sink>(alloc: Global, sink: &mut K, refusal: &Refusal) -> Status
    ensures whole { result ≡ Status.Refused →
        Appends (K.got sink.old) (K.got sink.new) (line_of refusal.now) }
    ensures part { (n : ℕ)
        × Appends (K.got sink.old) (K.got sink.new) (take n (line_of refusal.now)) }
    ensures nothing { result ≡ Status.NoMemory → Keeps (K.got sink.old) (K.got sink.new) }
    ensures some { result ≡ Status.WriteFault → line_of refusal.now ≢ [] }
    ensures kinds { (result ≡ Status.Refused)
        ⊎ ((result ≡ Status.WriteFault) ⊎ (result ≡ Status.NoMemory)) }
    ensures sink { HasCause (result ≡ Status.WriteFault) (K.faults sink.old) (K.faults sink.new) }
{
    let line = match refusal_line(alloc, refusal) {
        Ok(line) => line,
        Err(_) => return Status::NoMemory,
    };
    match put_text(sink, &line) {
        Ok(()) => Status::Refused,
        Err(ended) => ended,
    }
}
