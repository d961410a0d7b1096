//! How a run ended.
ghost use Rattle.std.specs.Prelude.{◌≡◌};
ghost use Rattle.script_runner.specs.Codes.{code_of};

use delf_disk::Area;

/// How a run ended.
#[derive(Clone, Copy, PartialEq, Eq, Debug)]
pub enum Status {
    /// The document was read to its end, and every command was made.
    Done,
    /// The words are no command of the program.
    Usage,
    /// What was read is no document; nothing was run. The line is that of the fault, 0 where none is told.
    BadDocument { line: u32 },
    /// The source failed.
    ReadFault,
    /// The sink failed in the lines of the command with this number, from 0; that command was made, and none after it.
    /// It is 0 for a line before the first command, and the number of all commands for the line of the last settling.
    /// A load is one command.
    WriteFault { done: u32 },
    /// Want of memory, after so many commands.
    OutOfMemory { done: u32 },
    /// The disk failed in an opening, where the length is 0, or the store was down at the end, with this length of the
    /// history.
    Down { len: u32 },
    /// The store is not one of the document's schema: the area is bad at this byte.
    BadStore { area: Area, at: u64 },
}

impl Status {
    /// The status with which the program ends.
    pub fn code(&self) -> u8
        ensures { result ≡ code_of self.now }
    {
        match self {
            Status::Done => 0,
            Status::Usage => 1,
            Status::BadDocument { .. } => 2,
            Status::ReadFault => 3,
            Status::WriteFault { .. } => 4,
            Status::OutOfMemory { .. } => 5,
            Status::Down { .. } => 6,
            Status::BadStore { .. } => 7,
        }
    }
}
