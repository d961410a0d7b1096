//! What each law refuses, by small examples: the contract of each function says what one example gives, and the check
//! computes it or proves it in a few lines.

ghost use Rattle.std.specs.Prelude.{◌≡◌, ◌<◌, [], ◌∷◌, ◌++◌, ℕ, List, Some, None, true, false};
ghost use Rattle.delf_model.specs.declared.entry.What.TheVariants.{Create, Erase, Put};
ghost use Rattle.delf_model.specs.declared.call.Cause.TheVariants as cause;
ghost use Rattle.delf_model.specs.declared.rows.Item.TheVariants as item;
ghost use Rattle.delf_model.specs.State.{start, owner, owned};
ghost use Rattle.delf_model.specs.Step.{step, after};
ghost use Rattle.delf_model.specs.Puts.{judged};
ghost use Rattle.delf_model.specs.Legal.{Legal, is_legal_from, is_legal};
ghost use Rattle.delf_model.specs.Order.{first_step, is_legal_step};
ghost use Rattle.delf_model.specs.Report.{listed_at};
ghost use Rattle.delf_model.specs.Closure.{Calm, union, items_of_job};
ghost use Rattle.delf_model.specs.Sound.{ObjectsLeave, DoneErasesReached, TookClosure, PutsAreJudged, OnlyPuts, RestoreIsUnion, PutBack, RaisesNot};
ghost use Rattle.delf_model.specs.Worked.{example_rules, user, photo, object, edge, owning};
ghost use Rattle.history_laws.specs.Parts.{tag, at_zero, deleted, alone_history};
ghost use Rattle.history_laws.specs.Examples.{deleted_graph, left_behind, erased, took_too_much, restored, puts, edge_first, put_twice, erased_twice, photo_retaken, user_retaken, logged_edge, other_size, two_deletions, both_cut};

/// A deletion took the closure of its user, who owns a photo. One that leaves the photo did not, and is not done; and one
/// that took another user did not either, which no legal entry does.
#[tactic(auto, using(crate::proofs::Refused::exact, crate::proofs::Refused::left, crate::proofs::Refused::more))]
pub fn closure_is_exact()
    ensures exact { TookClosure example_rules deleted_graph 1 4 (after example_rules alone_history) }
    ensures left { TookClosure example_rules deleted_graph 1 4 (after example_rules left_behind) → ⊥ }
    ensures not_done { owned (after example_rules left_behind) 4 ≡ 1 }
    ensures more { TookClosure example_rules deleted_graph 1 4 (after example_rules took_too_much) → ⊥ }
    ensures unowned { is_legal (after example_rules erased) (at_zero (Erase 4 9)) ≡ false }
{}

/// A restore into a taken id keeps what took it: the union has the new photo, the old one and its edge are listed, and the
/// graph at the end of the puts is that union.
#[tactic(auto, using(crate::proofs::Refused::premises))]
pub fn impostor_is_kept()
    ensures legal { is_legal_from (start example_rules) (photo_retaken ++ puts) ≡ true }
    ensures premises { OnlyPuts example_rules (photo_retaken ++ puts) 4 9 13 }
    ensures objects { (union (after example_rules photo_retaken) (items_of_job 4 (after example_rules photo_retaken).items)).objects ≡
        object 1 user 0 1 ∷ object 2 photo 8 0 ∷ object 9 user 3 1 ∷ [] }
    ensures edges { (union (after example_rules photo_retaken) (items_of_job 4 (after example_rules photo_retaken).items)).edges ≡ [] }
    ensures graph { (after example_rules (photo_retaken ++ puts)).graph ≡
        record { objects = object 1 user 0 1 ∷ object 2 photo 8 0 ∷ object 9 user 3 1 ∷ []; edges = [] } }
    ensures listed { listed_at (after example_rules (photo_retaken ++ puts)) 4 0 ≡
        Some (record { item = 1; row = item.Object 4 (object 2 photo 1 1); cause = cause.Taken 8 }) }
    ensures lost { listed_at (after example_rules (photo_retaken ++ puts)) 4 1 ≡
        Some (record { item = 0; row = logged_edge 0 1; cause = cause.EndMissing 2 }) }
{}

/// An edge goes back only between the births that it had: with another user at its source it is listed as missing that
/// end, and only an edge logged with the birth of this user would be put.
pub fn an_edge_wants_its_births()
    ensures missing { judged (after example_rules user_retaken) (logged_edge 0 1) ≡ Some (cause.EndMissing 1) }
    ensures same_birth { judged (after example_rules user_retaken) (logged_edge 8 1) ≡ None }
    ensures joined { (union (after example_rules user_retaken) (logged_edge 0 1 ∷ [])).edges ≡ [] }
    ensures listed { listed_at (after example_rules (user_retaken ++ at_zero (Put 4 0) ∷ [])) 4 1 ≡
        Some (record { item = 0; row = logged_edge 0 1; cause = cause.EndMissing 1 }) }
{}

/// Two deletions that meet: no part is calm for the second, none that reaches past the start of the second is calm for the
/// first, and the photo stays with the job that condemned it first, whatever the other cuts.
pub fn two_deletions_meet()
    ensures second { (q : ℕ) (ids : List ℕ) → Calm example_rules two_deletions 6 9 q ids → ⊥ }
    ensures first { (q : ℕ) (ids : List ℕ) → 6 < q → Calm example_rules two_deletions 5 1 q ids → ⊥ }
    ensures owner { owner (after example_rules two_deletions) 2 ≡ Some 5 }
    ensures stays { owner (after example_rules both_cut) 2 ≡ Some 5 }
    ensures legal { is_legal_from (start example_rules) both_cut ≡ true }
    ensures not_its_own { is_legal (after example_rules both_cut) (at_zero (Erase 6 2)) ≡ false }
{}

/// An object may not leave by the erasure of a job that is not its owner.
#[tactic(auto, using(crate::proofs::Refused::other))]
pub fn leaving_takes_the_owner()
    ensures other { ObjectsLeave (after example_rules two_deletions) (Erase 5 9) (step (after example_rules two_deletions) (at_zero (Erase 5 9))) → ⊥ }
{}

/// A done job that erased one object twice is refused.
#[tactic(auto, using(crate::proofs::Refused::erased_two))]
pub fn no_second_erasure()
    ensures twice { DoneErasesReached example_rules erased_twice → ⊥ }
    ensures illegal { is_legal_from (start example_rules) erased_twice ≡ false }
{}

/// A second put of one item is refused.
#[tactic(auto, using(crate::proofs::Refused::put_two))]
pub fn no_second_put()
    ensures twice { PutsAreJudged example_rules put_twice → ⊥ }
    ensures illegal { is_legal_from (start example_rules) put_twice ≡ false }
{}

/// Puts that begin with the edge lose it, and give no union; the serial order begins with the object that was erased last.
#[tactic(auto, using(crate::proofs::Refused::lost))]
pub fn ends_come_first()
    ensures lost { RestoreIsUnion example_rules edge_first → ⊥ }
    ensures illegal { is_legal_step (after example_rules restored) 0 (Put 4 0) ≡ false }
    ensures first { first_step (after example_rules restored) 0 ≡ Some (Put 4 2) }
    ensures none { first_step (after example_rules alone_history) 0 ≡ None }
{}

/// A row that is put back with another size was not put back, and where an item is listed not all was.
#[tactic(auto, using(crate::proofs::Refused::size, crate::proofs::Refused::listed))]
pub fn rows_come_back_unchanged()
    ensures size { PutBack deleted_graph other_size (after example_rules alone_history) 4 (1 ∷ 2 ∷ []) → ⊥ }
    ensures listed { PutBack deleted_graph deleted_graph (after example_rules (photo_retaken ++ puts)) 4 (1 ∷ 2 ∷ []) → ⊥ }
{}

/// A put that would leave an object more raises the room, and is refused.
pub fn a_put_raises_no_room()
    ensures raised { RaisesNot (after example_rules restored) (Put 4 2) (after example_rules (restored ++ at_zero (Create (tag 6) user 7 0) ∷ [])) → ⊥ }
{}
