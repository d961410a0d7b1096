//! Where bytes go.

ghost use Rattle.std.specs.Prelude.{◌≡◌, ◌++◌, ◌<◌, ◌≤◌, ℕ, Bool, List, length, take, IsTrue, IfOk, OnOk, OnErr};
ghost use Rattle.delf_io.specs.Faults.{Rose};

use crate::source::Failed;

/// A sink of bytes, which adds at its end.
pub trait Sink {
    /// Its bytes are told: `held` are those that it has taken.
    ghost told: { Self → Bool };

    /// The bytes that it holds, where they are told.
    ghost held: { Self → List ℕ };

    /// How many faults there were.
    ghost faults: { Self → ℕ };

    /// Takes bytes from the front of `bytes` and answers how many. 0 for a piece that is not empty
    /// counts as a fault, and the caller is to take it for one.
    fn put(&mut self, bytes: &[u8]) -> Result<usize, Failed>
        ensures within { IfOk result (λ n. (n ≤ length bytes.now) × (n ≡ length (take n bytes.now))) }
        ensures same_told { told self.new ≡ told self.old }

        // What it holds.
        ensures added { IfOk result (λ n. IsTrue (told self.old) → held self.new ≡ held self.old ++ take n bytes.now) }
        ensures failed_adds_nothing { OnErr result (IsTrue (told self.old) → held self.new ≡ held self.old) }

        // The count of faults.
        ensures never_falls { faults self.old ≤ faults self.new }
        ensures failed_rose { OnErr result (Rose (faults self.old) (faults self.new)) }
        ensures none_taken_rose { IfOk result (λ n. n ≡ 0 → 0 < length bytes.now → Rose (faults self.old) (faults self.new)) }
        ensures taken_stays { IfOk result (λ n. 0 < n → faults self.new ≡ faults self.old) }
        ensures empty_stays { length bytes.now ≡ 0 → OnOk result (faults self.new ≡ faults self.old) };
}
