// A run of the demonstration: its own script over its own folder, in which no call fails.
ghost use Rattle.std.specs.Prelude.{◌≡◌, ◌≢◌, ◌≤◌};
ghost use Rattle.outside_io.specs.Count.{Rose};
ghost use Rattle.demo_data.specs.Demo.{greatest_demo};
ghost use Rattle.shell.specs.Due.{IsUnpaid, KeepsOutlets};
ghost use Rattle.shell.specs.Serve.{Demonstrates};

use crate::Status;
use crate::outlets::Outlets;
use crate::run::carry_out_script;
use outside_io::{Folder, Sink};
use std::alloc::Global;
use std::hash::RandomState;

/// Carries out the script of the demonstration over its folder of this number, from 1 to 2000.
pub(crate) fn run_demonstration<F: Folder, K: Sink>(
    alloc: Global,
    key: RandomState,
    number: u32,
    outlets: &mut Outlets<'_, F, K>,
) -> Status
    requires least { 1 ≤ number }
    requires greatest { number ≤ greatest_demo }
    requires fresh { IsUnpaid outlets.old }
    ensures demonstrates { Demonstrates outlets.old.max_work number
        (Rose (K.faults outlets.old.sink.now) (K.faults outlets.new.sink.now)) result
        (K.got outlets.old.sink.now) (K.got outlets.new.sink.now) outlets.new.book.now }
    ensures kinds { result ≢ Status.BadWords }
    ensures read_fault { result ≢ Status.ReadFault }
    ensures write_fault { result ≡ Status.WriteFault →
        Rose (K.faults outlets.old.sink.now) (K.faults outlets.new.sink.now) }
    ensures folder { outlets.new.folder ≡ outlets.old.folder }
    ensures lent { KeepsOutlets K.faults outlets.old outlets.new }
{
    let mut folder = match demo_data::folder(alloc, number) {
        Ok(folder) => folder,
        Err(_) => return Status::NoMemory,
    };
    let mut own = Outlets {
        max_work: outlets.max_work,
        folder: &mut folder,
        sink: outlets.sink,
        book: outlets.book,
    };
    carry_out_script(alloc, key, demo_data::script(), &mut own)
}
