//! The digest of a payload.
ghost use Rattle.std.specs.Prelude.{◌≡◌, []};
ghost use Rattle.sha2.specs.Sha256.{sha256};

use sha2::{Digest, Sha256};

/// The SHA-256 of a payload. That of an empty one costs no computation.
pub fn digest_of(payload: &[u8]) -> [u8; 32]
    ensures { result ≡ sha256 payload.now }
{
    if payload.is_empty() {
        return of_nothing();
    }
    Sha256::digest(payload)
}

// The SHA-256 of no bytes.
fn of_nothing() -> [u8; 32]
    ensures { result ≡ sha256 [] }
{
    [
        0xe3, 0xb0, 0xc4, 0x42, 0x98, 0xfc, 0x1c, 0x14, 0x9a, 0xfb, 0xf4, 0xc8, 0x99, 0x6f, 0xb9,
        0x24, 0x27, 0xae, 0x41, 0xe4, 0x64, 0x9b, 0x93, 0x4c, 0xa4, 0x95, 0x99, 0x1b, 0x78, 0x52,
        0xb8, 0x55,
    ]
}
