//! A text that is put whole, or a front of it.
ghost use Rattle.std.specs.Prelude.{◌≡◌, ◌++◌, ◌<◌, ◌≤◌, IsTrue, OnOk, OnErr};
ghost use Rattle.delf_io.specs.Faults.{Rose};
ghost use Rattle.documents.specs.Cuts.{IsCut};

use delf_io::{Failed, Sink};

/// Puts all of `text`, or the front of it before a fault.
pub fn put_all<K: Sink>(sink: &mut K, text: &[u8]) -> Result<(), Failed>
    ensures same_told { K.told sink.new ≡ K.told sink.old }
    ensures all { OnOk result (IsTrue (K.told sink.old) → K.held sink.new ≡ K.held sink.old ++ text.now) }
    ensures front { OnErr result (IsTrue (K.told sink.old) → IsCut (K.held sink.old) (K.held sink.new) text.now) }
    ensures never_falls { K.faults sink.old ≤ K.faults sink.new }
    ensures ok_stays { OnOk result (K.faults sink.new ≡ K.faults sink.old) }
    ensures failed_rose { OnErr result (Rose (K.faults sink.old) (K.faults sink.new)) }
{
    let mut at = 0;
    'turns: while at < text.len() {
        let Ok(taken) = sink.put(&text[at..]) else {
            return Err(Failed);
        };
        if taken == 0 {
            return Err(Failed);
        }
        at += taken;
    }
    Ok(())
}
