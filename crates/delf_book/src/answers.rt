//! What the calls of a book answer.
use delete_step::Claim;
use delf_model::Job;

/// What an accepted call is answered.
#[derive(Clone, Copy, PartialEq, Eq, Debug)]
pub struct Receipt {
    /// The position of the call's entry.
    pub position: u32,
    /// The job that the entry starts.
    pub started: Option<Job>,
    /// The number of items of the job that is restored, 0 where none is.
    pub items: u32,
}

/// What a serial step is answered.
#[derive(Clone, Copy, PartialEq, Eq, Debug)]
pub enum Worked {
    /// A step was made; its entry stands at this position.
    Stepped { position: u32 },
    /// No step is legal at this moment; the history has this length.
    Idle { len: u32 },
}

/// What `begin` is answered.
#[derive(Drop)]
pub enum Begun {
    /// A step was made; its entry stands at this position.
    Stepped { position: u32 },
    /// A row that a Cut or Erase takes is held, and its payload was read.
    Claimed(Claim),
    /// No step is legal at this moment; the history has this length.
    Idle { len: u32 },
    /// Every legal step is among the `n` held claims; the history has this length.
    Held { n: u32, len: u32 },
}

/// Why a step was not made.
#[derive(Clone, Copy, PartialEq, Eq, Debug)]
pub enum StepFault {
    /// A disk fault was answered since this opening, at this length of the history.
    Down {
        len: u32,
    },
    /// Want of memory; the book is unchanged.
    OutOfMemory,
    /// The disk failed in this step; the book is down from here.
    DiskFault {
        len: u32,
    },
    /// The payload of the item that is to be put back has the SHA-256 `found`, and its record holds another one,
    /// `stored`. The step is not made, and a later step meets the item again.
    Damaged {
        item: u32,
        stored: [u8; 32],
        found: [u8; 32],
    },
}

/// Why a payload was not read, or the areas not settled.
#[derive(Clone, Copy, PartialEq, Eq, Debug)]
pub enum BookFault {
    /// A disk fault was answered since this opening, at this length of the history.
    Down { len: u32 },
    /// The disk failed in this call; the book is down from here.
    DiskFault { len: u32 },
}
