//! What the laws refuse, by small examples: the contract of each function says what one example gives, and the check
//! computes it or proves it in a few lines.
#![tactic(auto)]

ghost use Rattle.std.specs.Prelude.{◌≡◌, [], ◌∷◌, ◌++◌, Some, None, true, false};
ghost use Rattle.delf_model.specs.declared.call.Refusal.TheVariants.{Full, WrongEnd};
ghost use Rattle.delf_model.specs.declared.entry.What.TheVariants.{Create, Link, Erase, Cut, Put};
ghost use Rattle.delf_model.specs.Graph.{IsGraph};
ghost use Rattle.delf_model.specs.State.{start};
ghost use Rattle.delf_model.specs.Step.{after};
ghost use Rattle.delf_model.specs.Closure.{Calm};
ghost use Rattle.delf_model.specs.Legal.{is_legal_from, is_legal};
ghost use Rattle.delf_model.specs.Reply.{refused};
ghost use Rattle.delf_model.specs.Order.{first_step, is_legal_step};
ghost use Rattle.delf_model.specs.Sound.{TookClosure, EdgesLeave, DoneErasesReached, FirstIsLegal};
ghost use Rattle.delf_model.specs.Worked.{example_rules, user, photo, owning, object, edge};
ghost use Rattle.birth_laws.specs.Made.{ObjectMade};
ghost use Rattle.history_laws.specs.Parts.{tag, at_zero, deleted};
ghost use Rattle.law_examples.specs.Cases.{wrong_target, keys_fall, key_twice, edge_lost, rootless, end_first, with_another, long_state, held_photo, photo_taken, photo_left, stranger_taken};

/// A graph in which a user owns a user is none of rules by which users own photos, and the link that would make it is
/// refused with the type that its target has.
#[tactic(auto, using(crate::proofs::Refused::target))]
pub fn a_target_has_its_type()
    ensures graph { IsGraph example_rules wrong_target → ⊥ }
    ensures refused { refused (after example_rules deleted) 0 (Link (tag 5) owning 9 9 0) ≡ Some (WrongEnd 9 user) }
{}

/// A graph whose keys fall, or in which a key stands twice, is none.
#[tactic(auto, using(crate::proofs::Refused::fall, crate::proofs::Refused::twice))]
pub fn keys_rise()
    ensures fall { IsGraph example_rules keys_fall → ⊥ }
    ensures twice { IsGraph example_rules key_twice → ⊥ }
{}

/// An edge may not leave by the erasure of an object, nor by the cut of a job that owns neither end.
#[tactic(auto, using(crate::proofs::Refused::no_step, crate::proofs::Refused::no_owner))]
pub fn an_edge_leaves_by_its_step()
    ensures no_step { EdgesLeave (after example_rules deleted) (Erase 4 1) edge_lost → ⊥ }
    ensures no_owner { EdgesLeave (after example_rules deleted) (Cut 7 owning 1 2) edge_lost → ⊥ }
{}

/// A job whose root never stood reached nothing, so it is no done job of a legal history.
#[tactic(auto, using(crate::proofs::Refused::root))]
pub fn a_root_was_reached()
    ensures root { DoneErasesReached example_rules rootless → ⊥ }
    ensures illegal { is_legal_from (start example_rules) rootless ≡ false }
{}

/// A row is made by the entry at its birth: not with another type, not at another position.
#[tactic(auto, using(crate::proofs::Refused::kind, crate::proofs::Refused::birth))]
pub fn births_are_places()
    ensures kind { ObjectMade (at_zero (Create (tag 0) user 1 0) ∷ []) (object 1 photo 0 0) → ⊥ }
    ensures birth { ObjectMade (at_zero (Create (tag 0) user 1 0) ∷ []) (object 1 user 1 0) → ⊥ }
{}

/// Where the edge is logged after its end, which no legal history does, the first step of the order is not legal.
#[tactic(auto, using(crate::proofs::Refused::first))]
pub fn ends_are_logged_later()
    ensures first { FirstIsLegal (after example_rules end_first) 0 → ⊥ }
    ensures illegal { is_legal_from (start example_rules) end_first ≡ false }
{}

/// With a new user between, the graph after the restore is not the one after the start, though all rows came back.
pub fn the_inverse_wants_no_other()
    ensures legal { is_legal_from (start example_rules) with_another ≡ true }
    ensures objects { (after example_rules with_another).graph.objects ≡
        object 1 user 0 1 ∷ object 2 photo 1 1 ∷ object 7 user 8 0 ∷ object 9 user 3 1 ∷ [] }
    ensures start { (after example_rules deleted).graph.objects ≡ object 1 user 0 1 ∷ object 2 photo 1 1 ∷ object 9 user 3 1 ∷ [] }
{}

/// An object is created where four places are left, and refused where three are.
pub fn room_is_not_exceeded()
    ensures fits { is_legal (long_state 499996) (at_zero (Create (tag 0) user 1 0)) ≡ true }
    ensures full { refused (long_state 499997) 0 (Create (tag 0) user 1 0) ≡ Some (Full 499997 0) }
    ensures illegal { is_legal (long_state 499997) (at_zero (Create (tag 0) user 1 0)) ≡ false }
{}

/// A calm part with a reference and with an edge of a user who is not deleted: the job takes the album and the photo that
/// it alone holds, and the user stays. One that leaves the photo, or takes the user, did not take the closure.
#[tactic(auto, using(crate::proofs::Reference::calm, crate::proofs::Reference::exact, crate::proofs::Reference::left, crate::proofs::Reference::more))]
pub fn a_reference_is_counted()
    ensures legal { is_legal_from (start example_rules) (held_photo ++ photo_taken) ≡ true }
    ensures calm { Calm example_rules (held_photo ++ photo_taken) 5 5 10 (5 ∷ 3 ∷ 9 ∷ []) }
    ensures exact { TookClosure example_rules (after example_rules held_photo).graph 5 5 (after example_rules (held_photo ++ photo_taken)) }
    ensures objects { (after example_rules (held_photo ++ photo_taken)).graph.objects ≡ object 9 user 2 0 ∷ [] }
    ensures left { TookClosure example_rules (after example_rules held_photo).graph 5 5 (after example_rules photo_left) → ⊥ }
    ensures more { TookClosure example_rules (after example_rules held_photo).graph 5 5 (after example_rules stranger_taken) → ⊥ }
{}
