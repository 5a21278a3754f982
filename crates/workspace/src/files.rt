// A file that a statement has asked for, once it is given.
ghost use Rattle.std.specs.Prelude.{◌≡◌, OnErr};
ghost use Rattle.std.specs.Str.{IsUtf8};
ghost use Rattle.workspace.specs.Begins.{BelongsTo, FinishesAsDue};
ghost use Rattle.workspace.specs.States.{world_of};

use crate::begun::{Asked, GivenFile, Pending};
use crate::refusal::Refusal;
use crate::stop::Stop;
use crate::workspace::Workspace;
use sql_values::{LimitName, Text};
use std::alloc::Global;

/// The name of a file as a text.
pub fn file_name(name: &Text) -> &str
    requires { IsUtf8 name.now }
    ensures { result.now ≡ name.now }
{
    let Ok(text) = str::from_utf8(name.bytes()) else {
        unreachable!()
    };
    text
}

impl Workspace {
    /// Carries a statement out to its end, with the file that it asked for in this state, and returns what it prints. One that
    /// stops changes nothing.
    pub fn finish(&mut self, alloc: Global, asked: Asked, given: GivenFile) -> Result<Vec<u8>, Stop>
        requires { BelongsTo (world_of self.old) asked.pending }
        ensures due { FinishesAsDue (world_of self.old) asked given result (world_of self.new) }
        ensures unchanged { OnErr result (self.new ≡ self.old) }
    {
        let Asked { name, pending } = asked;
        let bytes = match given {
            GivenFile::Bytes(bytes) => bytes,
            GivenFile::Absent => return Err(Stop::Refused(Refusal::AbsentFile(name))),
            GivenFile::TooLong(len) => {
                let value = u128::from(len);
                return Err(Stop::Refused(Refusal::PastLimit(LimitName::File, value)));
            }
        };
        match pending {
            Pending::Load(table) => self.load_bytes(alloc, table, bytes),
            Pending::Open(opening) => self.open_bytes(alloc, opening, &bytes),
        }
    }
}
