//! The two lengths at the front of a record.
ghost use Rattle.std.specs.Prelude.{IfSome, IfNone};
ghost use Rattle.gate_log.specs.Looking.{Told, TellNone};

/// The lengths of a record's head and payload, in bytes.
#[derive(Clone, Copy)]
pub(crate) struct Lengths {
    pub(crate) head: u16,
    pub(crate) payload: u32,
}

/// Reads the lengths from the first six bytes behind a gate, where `room` bytes stand behind it.
/// `None` if they agree with no body, or if the record and the gate after it need more room.
pub(crate) fn lengths_of(start: &[u8; 6], room: u64) -> Option<Lengths>
    ensures some { IfSome result (Told start.now room) }
    ensures none { IfNone result (TellNone start.now room) }
{
    let body = u32::from_be_bytes([start[0], start[1], start[2], start[3]]);
    let head = u16::from_be_bytes([start[4], start[5]]);
    let least = 2 + u32::from(head);
    if body < least || u64::from(body) + 5 > room {
        return None;
    }
    Some(Lengths {
        head,
        payload: body - least,
    })
}
