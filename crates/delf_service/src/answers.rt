//! What the calls of a seat are answered.
use delf_book::{BookFault, Claim, Receipt, StepFault};
use delf_model::{Job, ObjectRow, Refusal};

/// What a writing call is answered, at the length of the history that it found.
#[derive(Clone, Copy, PartialEq, Eq, Debug)]
pub struct Answer {
    pub at: u32,
    pub reply: Result<Receipt, Refusal>,
}

/// The object with its owner, at the length of the history that was found, and why its payload was not read, or that the
/// book is down where there is no such object.
#[derive(Clone, Copy, PartialEq, Eq, Debug)]
pub struct Asked {
    pub at: u32,
    pub found: Option<(ObjectRow, Option<Job>)>,
    pub fault: Option<BookFault>,
}

/// What a turn of a worker is answered.
#[derive(Clone, Copy, PartialEq, Eq, Debug)]
pub enum Turned {
    /// A step was made; its entry stands at this position.
    Stepped { position: u32 },
    /// No step is legal at this moment; the history has this length.
    Idle { len: u32 },
}

/// What the first half of a turn of a worker is answered.
#[derive(Drop)]
pub(crate) enum Began {
    /// A row that a Cut or Erase takes is claimed.
    Claimed(Claim),
    /// The turn is over: a step was made at once, or none is to be made.
    Over(Result<Turned, StepFault>),
}
