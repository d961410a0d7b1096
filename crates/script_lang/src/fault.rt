//! Why a document, or a line of it, was not read.

use delf_model::Bytes;
use std::alloc::AllocError;

/// Why a document was not read.
#[derive(Drop, Debug)]
pub enum DocumentFault {
    /// The first line that is at fault, counted from 1, and what is wrong with it in words. A line that is missing
    /// at the end has the number after the last, and a document that is too long has line 0.
    Bad { line: u32, text: Bytes },
    /// Want of memory.
    OutOfMemory,
}

impl From<AllocError> for DocumentFault {
    ghost use Rattle.std.specs.Prelude.{◌≡◌};
    ghost use Rattle.script_lang.specs.declared.fault.DocumentFault.TheVariants.{OutOfMemory};

    ghost from_gives = { λ _ fault. fault ≡ OutOfMemory };

    fn from(_error: AllocError) -> DocumentFault {
        DocumentFault::OutOfMemory
    }
}

/// What is wrong with a line of a script.
#[derive(Drop, Debug)]
pub enum Wrong {
    /// Its words fit no line at its place.
    Malformed,
    /// They fit one, but a number is outside its limits, a name is too long, or there are too many lanes.
    OutOfRange,
    /// The schema lacks the type or the edge type of this name.
    Unknown(Bytes),
}

/// Why a line of a script was not read.
#[derive(Drop, Debug)]
pub enum LineFault {
    /// Something is wrong with it.
    Bad(Wrong),
    /// Want of memory.
    OutOfMemory,
}

impl From<Wrong> for LineFault {
    ghost use Rattle.std.specs.Prelude.{◌≡◌};
    ghost use Rattle.script_lang.specs.declared.fault.LineFault.TheVariants.{Bad};

    ghost from_gives = { λ wrong fault. fault ≡ Bad wrong };

    fn from(wrong: Wrong) -> LineFault {
        LineFault::Bad(wrong)
    }
}

impl From<AllocError> for LineFault {
    ghost use Rattle.std.specs.Prelude.{◌≡◌};
    ghost use Rattle.script_lang.specs.declared.fault.LineFault.TheVariants.{OutOfMemory};

    ghost from_gives = { λ _ fault. fault ≡ OutOfMemory };

    fn from(_error: AllocError) -> LineFault {
        LineFault::OutOfMemory
    }
}
