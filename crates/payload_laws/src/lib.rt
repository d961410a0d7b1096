//! The laws of payloads, over every legal history: what each needed payload is, where it is carried, and how one entry moves it. Each law
//! is the contract of a function that does nothing.
#![tactic(auto)]

pub mod examples;

ghost use Rattle.std.specs.Prelude.{◌≡◌, ℕ, true, List, Some, slice_get};
ghost use Rattle.delf_model.specs.declared.entry.Entry.{Entry};
ghost use Rattle.delf_model.specs.RuleSet.{RuleSet};
ghost use Rattle.delf_model.specs.declared.entry.What.TheVariants.{Put};
ghost use Rattle.delf_model.specs.State.{Logged};
ghost use Rattle.delf_model.specs.Step.{after};
ghost use Rattle.delf_model.specs.Legal.{Legal, is_legal};
ghost use Rattle.delf_model.specs.Payloads.{Payloads, is_needed, payload_at, payloads_along, given_at, AreGiven, IsDamaged};
ghost use Rattle.payload_laws.specs.Holders.{PayloadsAreHeld, SealDiffers};

/// Each needed position has one holder, which the last record that carries it serves; an entry brings its own payload, logs that of
/// the row that it takes, or puts one back, and what it leaves unneeded is what it scrubs.
pub fn payloads_are_held()
    ensures { (rules : RuleSet) (history : List Entry) → Legal rules history → PayloadsAreHeld rules history }
{}

/// A needed position has one pair, with the bytes that its call gave, and no other position has any; each item has one seal, the
/// digest of those bytes.
pub fn payloads_are_given()
    ensures { (digest : List ℕ → List ℕ) (given : List (List ℕ)) (rules : RuleSet) (history : List Entry) → Legal rules history →
        AreGiven digest given (after rules history) (payloads_along digest given rules history) }
{}

/// The payload of a needed position is what the call at this position gave, however often the row was taken and put back.
pub fn needed_payloads_are_given()
    ensures { (digest : List ℕ → List ℕ) (given : List (List ℕ)) (rules : RuleSet) (history : List Entry) (p : ℕ) → Legal rules history →
        is_needed (after rules history) p ≡ true → payload_at (payloads_along digest given rules history) p ≡ given_at given p }
{}

/// No item is damaged while the payloads are those that calls gave.
pub fn given_payloads_are_not_damaged()
    ensures { (digest : List ℕ → List ℕ) (given : List (List ℕ)) (rules : RuleSet) (history : List Entry) (i : ℕ) → Legal rules history →
        IsDamaged digest (after rules history) (payloads_along digest given rules history) i → ⊥ }
{}

/// Where an entry may put an item, the item is damaged exactly where its seal is not the digest of its payload.
#[tactic(auto, using(crate::proofs::Damage::damaged_at_put, crate::proofs::Damage::damaged_differs))]
pub fn damage_is_one()
    ensures told { (digest : List ℕ → List ℕ) (rules : RuleSet) (history : List Entry) (e : Payloads) (entry : Entry) (job i : ℕ) (logged : Logged) →
        Legal rules history → is_legal (after rules history) entry ≡ true → entry.what ≡ Put job i →
        slice_get (after rules history).items i ≡ Some logged → SealDiffers digest e i logged → IsDamaged digest (after rules history) e i }
    ensures differs { (digest : List ℕ → List ℕ) (rules : RuleSet) (history : List Entry) (e : Payloads) (i : ℕ) (logged : Logged) →
        slice_get (after rules history).items i ≡ Some logged → IsDamaged digest (after rules history) e i → SealDiffers digest e i logged }
{}
