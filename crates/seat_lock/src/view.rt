// What a seat knows. No value of these types is made: they are for the proofs alone.
use std::collections::LinkedList;

/// A state, and its place among all states that the value had.
pub struct Moment<S> {
    pub at: u64,
    pub state: S,
}

/// Where a seat stands, with its ticket, counted without end.
pub enum Stage {
    Idle,
    Waiting(u64),
    Turn(u64),
}

/// `made` has the entries that the seat made. `next` is the number of the next seat, and `joined` has the number and
/// the entries of each seat that was joined: both are the root's alone, and 0 and empty in any other seat.
pub struct View<S, E> {
    pub live: bool,
    pub number: u64,
    pub stage: Stage,
    pub seen: Moment<S>,
    pub remembers: LinkedList<Moment<S>>,
    pub made: LinkedList<E>,
    pub next: u64,
    pub joined: LinkedList<(u64, LinkedList<E>)>,
}
