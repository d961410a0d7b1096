//! The line of a record, which is written in one go behind a closed gate.
ghost use Rattle.std.specs.Prelude.{◌≡◌, ◌+◌, ◌^◌, ◌<◌, ◌≤◌, [], ◌∷◌, ◌++◌, length, vec_len, vec_capacity};
ghost use Rattle.gate_log.specs.Records.{body, IsBounded};

/// The value of a gate that is written closed.
pub(crate) const CLOSED: u8 = 0;

/// Lays out a record and the closed gate that follows it.
pub(crate) fn lay(line: &mut Vec<u8>, head: &[u8], payload: &[u8])
    requires room { 7 + length head.now + length payload.now ≤ vec_capacity line.old }
    requires bounded { IsBounded head.now payload.now }
    ensures items { line.new.items ≡ body head.now payload.now ++ 0 ∷ [] }
    ensures capacity { vec_capacity line.old ≤ vec_capacity line.new }
{
    line.clear();
    let body_length = 2 + head.len() + payload.len();
    put(line, &(body_length as u32).to_be_bytes());
    put(line, &(head.len() as u16).to_be_bytes());
    put(line, head);
    put(line, payload);
    put(line, &[CLOSED]);
}

fn put(line: &mut Vec<u8>, bytes: &[u8])
    requires { vec_len line.old + length bytes.now ≤ vec_capacity line.old }
    ensures items { line.new.items ≡ line.old.items ++ bytes.now }
    ensures len { vec_len line.new ≡ vec_len line.old + length bytes.now }
    ensures capacity { vec_capacity line.old ≤ vec_capacity line.new }
{
    match line.extend_from_slice(bytes) {
        Ok(()) => {}
        Err(_) => unreachable!(),
    }
}
