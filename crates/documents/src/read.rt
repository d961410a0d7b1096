//! Bytes that are read to the end of an input.
ghost use Rattle.std.specs.Prelude.{◌≡◌, ◌++◌, ◌<◌, ◌≤◌, ℕ, List, [], length, IsTrue, IfOk, OnOk, vec_len, Err};
ghost use Rattle.delf_io.specs.Faults.{Rose};

use delf_io::Source;
use std::alloc::Global;

/// The greatest number of bytes that are read of an input: one more than a document has.
pub const READ_LIMIT: usize = 16_777_217;

/// Why the input was not read.
#[derive(Clone, Copy, PartialEq, Eq, Debug)]
pub enum ReadError {
    /// The source failed.
    Failed,
    /// Want of memory.
    OutOfMemory,
}

/// Reads to the end of the input, but at most `limit` bytes. Each turn takes a byte at least, or is the last.
pub fn read_at_most<S: Source>(
    alloc: Global,
    source: &mut S,
    limit: usize,
) -> Result<Vec<u8>, ReadError>
    ensures within { IfOk result (λ read. vec_len read ≤ limit) }
    ensures same_told { S.told source.new ≡ S.told source.old }
    ensures taken { IfOk result (λ read. IsTrue (S.told source.old)
        → S.left source.old ≡ read.items ++ S.left source.new) }
    ensures whole { IfOk result (λ read. IsTrue (S.told source.old)
        → vec_len read < limit → S.left source.new ≡ []) }
    ensures at_most { IsTrue (S.told source.old) → (read : List ℕ) × (length read ≤ limit)
        × (S.left source.old ≡ read ++ S.left source.new) }
    ensures never_falls { S.faults source.old ≤ S.faults source.new }
    ensures ok_stays { OnOk result (S.faults source.new ≡ S.faults source.old) }
    ensures failed_rose { result ≡ Err ReadError.Failed → Rose (S.faults source.old) (S.faults source.new) }
{
    let mut read = Vec::new(alloc);
    let mut piece = [0u8; 4096];
    'turns: while read.len() < limit {
        let room = piece.len().min(limit - read.len());
        let Ok(taken) = source.next(&mut piece[..room]) else {
            return Err(ReadError::Failed);
        };
        if taken == 0 {
            return Ok(read);
        }
        if read.extend_from_slice(&piece[..taken]).is_err() {
            return Err(ReadError::OutOfMemory);
        }
    }
    Ok(read)
}
