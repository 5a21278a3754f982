// How a run ends.
ghost use Rattle.std.specs.Prelude.{◌≡◌};
ghost use Rattle.shell.specs.Serve.{exit_number};

/// How a run ended.
#[derive(Clone, Copy)]
pub enum Status {
    /// All statements were carried out.
    Done,
    /// The script or a statement was refused, and its error line is the last one.
    Refused,
    /// The arguments of the command line aren't well-formed.
    BadWords,
    /// The source failed, or the folder at a read.
    ReadFault,
    /// The sink failed, or the folder at a write.
    WriteFault,
    /// Out of memory.
    NoMemory,
}

impl Status {
    /// The number with which the program ends, from 0 to 5.
    pub fn number(self) -> u8
        ensures { result ≡ exit_number self }
    {
        match self {
            Status::Done => 0,
            Status::Refused => 1,
            Status::BadWords => 2,
            Status::ReadFault => 3,
            Status::WriteFault => 4,
            Status::NoMemory => 5,
        }
    }
}
