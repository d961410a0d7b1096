//! Where bytes come from.

ghost use Rattle.std.specs.Prelude.{◌≡◌, ◌++◌, ◌<◌, ◌≤◌, ℕ, Bool, [], List, length, take, IsTrue, IfOk, OnOk, OnErr};
ghost use Rattle.delf_io.specs.Faults.{Rose};

/// A call of a source or a sink failed. What stood before it stands.
#[derive(Clone, Copy, Debug, PartialEq, Eq)]
pub struct Failed;

/// A source of bytes, read from its front.
pub trait Source {
    /// Its bytes are told: `left` are those that reads will give.
    ghost told: { Self → Bool };

    /// The bytes that are left, where they are told.
    ghost left: { Self → List ℕ };

    /// How many faults there were.
    ghost faults: { Self → ℕ };

    /// Puts bytes at the front of `buf` and answers how many. 0 for a buffer that is not empty is
    /// the end of the input. What stands behind them in `buf`, and all of it after `Failed`, is open.
    fn next(&mut self, buf: &mut [u8]) -> Result<usize, Failed>
        ensures within { IfOk result (λ n. (n ≤ length buf.new) × (n ≡ length (take n buf.new))) }
        ensures same_told { told self.new ≡ told self.old }

        // What is left.
        ensures given { IfOk result (λ n. IsTrue (told self.old) → left self.old ≡ take n buf.new ++ left self.new) }
        ensures end { IfOk result (λ n. IsTrue (told self.old) → n ≡ 0 → 0 < length buf.new → left self.new ≡ []) }
        ensures failed_leaves { OnErr result (IsTrue (told self.old) → left self.new ≡ left self.old) }

        // The count of faults.
        ensures never_falls { faults self.old ≤ faults self.new }
        ensures failed_rose { OnErr result (Rose (faults self.old) (faults self.new)) }
        ensures ok_stays { OnOk result (faults self.new ≡ faults self.old) };
}
