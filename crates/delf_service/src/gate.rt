//! What a service calls between the turns.
ghost use Rattle.std.specs.Prelude.{◌≡◌};

use delf_book::{Claim, Prepared, prepare};

/// What makes the record of a claimed row, and what is told of the entries that were made. Both are called without the
/// turn, so others may take turns meanwhile.
pub trait Gate {
    /// Makes the record that logs the claim, with the SHA-256 of its payload.
    fn between(&self, claim: Claim) -> Prepared
        ensures { result ≡ claim };

    /// The entry at this position was made. Others may have made more.
    fn after(&self, position: u32);
}

/// A gate that makes the record, and does nothing else.
#[derive(Clone, Copy, Debug)]
pub struct OpenGate;

impl Gate for OpenGate {
    fn between(&self, claim: Claim) -> Prepared {
        prepare(claim)
    }

    fn after(&self, _position: u32) {}
}
