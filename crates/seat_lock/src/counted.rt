// What the lock asks of the value that it guards.
ghost use Rattle.std.specs.Prelude.{◌≡◌, ◌++◌, ℕ, List, Option, length};

/// A value whose state has a list of entries that only grows, each with the number of the seat that made it, or none.
///
/// An implementation says what the state is, and when a state may come after another, and proves three laws of that.
pub trait Counted {
    /// The state of the value. It is plain data that no code holds, so its lists are `LinkedList`s.
    type State;

    /// One entry of a state's list.
    type Entry;

    ghost state: { Self → Self.State };

    // Any state. It stands for what a seat has seen that was joined into another.
    ghost blank: { Self.State };

    ghost entries: { Self.State → List Self.Entry };

    // The number of the seat that made the entry, or none.
    ghost maker: { Self.Entry → Option ℕ };

    // The first state is the second one or may come after it.
    ghost follows: { Self.State → Self.State → Type 0 };

    /// How many entries there are.
    fn count(&self) -> u32
        ensures { result ≡ length (entries (state self.now)) };

    // A state follows itself.
    ghost itself: { (s : Self.State) → follows s s };

    // Where a first state follows a second and the second a third, the first follows the third.
    ghost chain: { (s t u : Self.State) → follows s t → follows t u → follows s u };

    // Where a state follows another, its list begins with the other's.
    ghost grows: { (s t : Self.State) → follows s t → (rest : List Self.Entry) × (entries s ≡ entries t ++ rest) };
}
