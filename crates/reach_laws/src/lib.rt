//! The laws of reach: what leaves the graph has an owner, a done deletion erased exactly what it reached, in a calm part
//! that is the closure of its root, and the room is never exceeded, over every legal history. Each law is the contract of a function that does nothing.
#![tactic(auto)]

ghost use Rattle.std.specs.Prelude.{◌≡◌, ◌∷◌, [], ℕ, List, true, false};
ghost use Rattle.delf_model.specs.declared.entry.Entry.{Entry};
ghost use Rattle.delf_model.specs.declared.entry.What.TheVariants.{Cut, Erase};
ghost use Rattle.delf_model.specs.RuleSet.{RuleSet};
ghost use Rattle.delf_model.specs.Step.{after};
ghost use Rattle.delf_model.specs.Legal.{Legal, is_legal};
ghost use Rattle.delf_model.specs.Sound.{LeavesByOwner, DoneErasesReached, KeepsRoom, OrderDoesNotMatter};
ghost use Rattle.delf_model.specs.Worked.{played, plain_path, two_jobs, create, link, delete, Work, user, photo, owning};
ghost use Rattle.reach_laws.specs.Laws.{OneMore, EachPart};

/// An object leaves by the erasure of the job that owns it, and an edge by an unlink or by a cut of a job that owns an
/// end of it. An edge is meant by its key and birth, so that no entry puts one over another.
pub fn what_leaves_has_an_owner()
    ensures { (rules : RuleSet) (history : List Entry) → Legal rules history → LeavesByOwner rules history }
{}

/// A job that owns nothing has erased exactly the objects that it reached, each once, its root among them, and owns
/// nothing from then on.
pub fn done_erases_what_it_reached()
    ensures { (rules : RuleSet) (history : List Entry) → Legal rules history → DoneErasesReached rules history }
{}

/// In a calm part a deletion that owns nothing at its end erased exactly the closure of its root in the graph after its
/// start, and cut exactly the edges that touch it, whatever the order of its steps.
pub fn order_does_not_matter()
    ensures { (rules : RuleSet) (history : List Entry) → Legal rules history → OrderDoesNotMatter rules history }
{}

/// The room is within its limit at every length, and no unlink, delete or step raises it.
pub fn room_is_kept()
    ensures { (rules : RuleSet) (history : List Entry) → Legal rules history → KeepsRoom rules history }
{}

/// One legal entry more.
pub fn one_entry_more()
    ensures { (rules : RuleSet) (history : List Entry) (entry : Entry) → Legal rules history →
        is_legal (after rules history) entry ≡ true → OneMore rules history entry }
{}

/// Each part of a legal history.
pub fn each_part_is_legal()
    ensures { (rules : RuleSet) (history : List Entry) (p : ℕ) → Legal rules history → EachPart rules history p }
{}

/// Wrong entries are not legal: an erasure by a job that is not the owner, a cut by a job that owns neither end, and a
/// second erasure of what was logged.
pub fn wrong_entries_are_refused()
    ensures erasure_by_another { is_legal (played 0 two_jobs).state (record { moment = 0; what = Erase 5 9 }) ≡ false }
    ensures cut_by_another { is_legal (played 0 (create 1 user [] ∷ create 2 photo [] ∷ create 9 user [] ∷ link owning 1 2 ∷ delete 9 41 ∷ [])).state
        (record { moment = 0; what = Cut 4 owning 1 2 }) ≡ false }
    ensures logged_twice { is_legal (played 0 plain_path).state (record { moment = 0; what = Erase 3 1 }) ≡ false }
{}
