//! Where moments come from.

ghost use Rattle.std.specs.Prelude.{◌≡◌, ℕ};
ghost use Rattle.delf_io.specs.Faults.{next_count};

/// Whole seconds since 1970 began.
pub type Moment = u64;

/// A clock, which may answer any moment, also an earlier one than before.
pub trait Clock {
    /// What it answered last.
    ghost last_answer: { Self → ℕ };

    /// How often it was asked.
    ghost times_asked: { Self → ℕ };

    /// The moment now.
    fn now(&mut self) -> Moment
        ensures answer { last_answer self.new ≡ result }
        ensures asked { times_asked self.new ≡ next_count (times_asked self.old) };
}
