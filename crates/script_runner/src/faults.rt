//! Why lines were not made.
/// Why lines that tell payloads were not made.
#[derive(Clone, Copy, PartialEq, Eq, Debug)]
pub(crate) enum LineFault {
    /// Want of memory.
    OutOfMemory,
    /// The disk failed; the book is down, with this length of the history.
    Failed { len: u32 },
}
