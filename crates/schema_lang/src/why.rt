//! What is wrong with a line.

/// What is wrong with a line.
#[derive(Clone, Copy, PartialEq, Eq, Debug)]
pub enum Why {
    /// Its words fit no line at its place.
    Malformed,
    /// They fit one, but a number is outside its limits, a name is too long, or there are too many types.
    OutOfRange,
}
