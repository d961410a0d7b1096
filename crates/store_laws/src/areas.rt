//! How the steps of both logs carry what the areas stand for.
ghost use Rattle.std.specs.Prelude.{◌≡◌, ℕ, true, List, [], ◌∷◌, ◌++◌, Some, None, length, map};
ghost use Rattle.delf_disk.specs.Areas.{Areas};
ghost use Rattle.delf_disk.specs.declared.area.Area.TheVariants as area;
ghost use Rattle.gate_log.specs.Records.{Record, size_of};
ghost use Rattle.gate_log.specs.Logs.{Stands};
ghost use Rattle.gate_log.specs.Steps.{MayAdd, Adds, MayScrub, Scrubs};
ghost use Rattle.delf_model.specs.declared.entry.Entry.{Entry};
ghost use Rattle.delf_model.specs.RuleSet.{RuleSet};
ghost use Rattle.delf_model.specs.State.{State};
ghost use Rattle.delf_model.specs.Step.{after};
ghost use Rattle.delf_model.specs.Legal.{Legal, is_legal};
ghost use Rattle.delf_model.specs.Payloads.{Payloads, payloads_after, Carrier, Journal, Vault};
ghost use Rattle.payload_laws.specs.Holders.{IsLive, position_taken, scrubbed_by};
ghost use Rattle.store_laws.specs.Logged.{IsLog};
ghost use Rattle.store_laws.specs.Stores.{digest, Hold, StandBut, Rest, AreSealed, AreScrubbed, journal_mark, vault_mark, journal_of, vault_of, vault_for};
ghost use Rattle.store_laws.specs.Moves.{IsEntryRecord, AreItemRecords, StandsFor};
ghost use Rattle.store_laws.specs.Steps.{Ahead, IsZeroed, KeepsOthers, AreScrubbedBut};

/// An area that is a log stands for records of the sizes of its own, and of no others.
pub fn logs_stand()
    ensures journal { (c : Areas) → IsLog journal_mark c.journal → Stands area.Journal (map size_of (journal_of c)) c }
    ensures vault { (c : Areas) → IsLog vault_mark c.vault → Stands area.Vault (map size_of (vault_of c)) c }
    ensures journal_sizes { (c : Areas) (sizes : List (ℕ × ℕ)) → Stands area.Journal sizes c → map size_of (journal_of c) ≡ sizes }
    ensures vault_sizes { (c : Areas) (sizes : List (ℕ × ℕ)) → Stands area.Vault sizes c → map size_of (vault_of c) ≡ sizes }
{}

/// Between two calls both areas stand for the history, also where the vault has the record of an entry that was not made.
pub fn rest_stands()
    ensures rest { (rules : RuleSet) (history : List Entry) (e : Payloads) (c : Areas) → Legal rules history → Rest rules history c →
        Hold rules history e (journal_of c) (vault_of c) → StandBut rules history e c }
    ensures ahead { (rules : RuleSet) (history : List Entry) (e : Payloads) (added : Record) (c : Areas) → Legal rules history →
        Ahead rules history e (added ∷ []) c → StandBut rules history e c }
{}

/// The journal record of an entry that logs no item: the areas stand for the history before it or with it, and for the latter once
/// the record is there.
pub fn journal_appends()
    ensures may { (rules : RuleSet) (history : List Entry) (e : Payloads) (entry : Entry) (given : List ℕ) (r : Record) (sizes : List (ℕ × ℕ)) (c d : Areas)
        → Legal rules history → is_legal (after rules history) entry ≡ true → position_taken (after rules history) entry.what ≡ None
        → Rest rules history c → Hold rules history e (journal_of c) (vault_of c)
        → IsEntryRecord (after rules history) (vault_of c) entry given r → map size_of (journal_of c) ≡ sizes
        → MayAdd area.Journal sizes r.head r.payload c d → StandsFor rules history e entry given d }
    ensures adds { (rules : RuleSet) (history : List Entry) (e : Payloads) (entry : Entry) (given : List ℕ) (r : Record) (sizes : List (ℕ × ℕ)) (c d : Areas)
        → Legal rules history → is_legal (after rules history) entry ≡ true → position_taken (after rules history) entry.what ≡ None
        → Rest rules history c → Hold rules history e (journal_of c) (vault_of c)
        → IsEntryRecord (after rules history) (vault_of c) entry given r → map size_of (journal_of c) ≡ sizes
        → Adds area.Journal sizes r.head r.payload c d
        → Rest rules (history ++ entry ∷ []) d ×
        Hold rules (history ++ entry ∷ []) (payloads_after digest (after rules history) entry given e) (journal_of d) (vault_of d) }
{}

/// The vault record of an item whose entry is not made yet: the areas stand for the history as before, and have the record once it
/// is there.
pub fn vault_appends()
    ensures may { (rules : RuleSet) (history : List Entry) (e : Payloads) (added : Record) (sizes : List (ℕ × ℕ)) (c d : Areas)
        → Legal rules history → Rest rules history c → Hold rules history e (journal_of c) (vault_of c) → map size_of (vault_of c) ≡ sizes
        → MayAdd area.Vault sizes added.head added.payload c d → StandBut rules history e d }
    ensures adds { (rules : RuleSet) (history : List Entry) (e : Payloads) (added : Record) (sizes : List (ℕ × ℕ)) (c d : Areas)
        → Legal rules history → Rest rules history c → Hold rules history e (journal_of c) (vault_of c) → map size_of (vault_of c) ≡ sizes
        → Adds area.Vault sizes added.head added.payload c d
        → Ahead rules history e (added ∷ []) d × (journal_of d ≡ journal_of c) × (vault_for rules history d ≡ vault_of c) }
{}

/// The journal record of an entry whose item has its vault record.
pub fn entry_follows()
    ensures may { (rules : RuleSet) (history : List Entry) (e : Payloads) (entry : Entry) (given : List ℕ) (r added : Record) (sizes : List (ℕ × ℕ)) (c d : Areas)
        → Legal rules history → is_legal (after rules history) entry ≡ true → Ahead rules history e (added ∷ []) c
        → IsEntryRecord (after rules history) (vault_for rules history c) entry given r
        → AreItemRecords (after rules history) (journal_of c) (vault_for rules history c) entry.what (added ∷ []) → map size_of (journal_of c) ≡ sizes
        → MayAdd area.Journal sizes r.head r.payload c d → StandsFor rules history e entry given d }
    ensures adds { (rules : RuleSet) (history : List Entry) (e : Payloads) (entry : Entry) (given : List ℕ) (r added : Record) (sizes : List (ℕ × ℕ)) (c d : Areas)
        → Legal rules history → is_legal (after rules history) entry ≡ true → Ahead rules history e (added ∷ []) c
        → IsEntryRecord (after rules history) (vault_for rules history c) entry given r
        → AreItemRecords (after rules history) (journal_of c) (vault_for rules history c) entry.what (added ∷ []) → map size_of (journal_of c) ≡ sizes
        → Adds area.Journal sizes r.head r.payload c d
        → Rest rules (history ++ entry ∷ []) d ×
        Hold rules (history ++ entry ∷ []) (payloads_after digest (after rules history) entry given e) (journal_of d) (vault_of d) }
{}

/// A scrub of a payload that is not needed: the areas hold the same at every moment, and no other payload changes.
pub fn dead_scrubs()
    ensures journal_may { (rules : RuleSet) (history : List Entry) (e : Payloads) (i : ℕ) (sizes : List (ℕ × ℕ)) (c d : Areas)
        → Rest rules history c → Hold rules history e (journal_of c) (vault_of c) → (IsLive (after rules history) (Journal i) → ⊥)
        → map size_of (journal_of c) ≡ sizes → MayScrub area.Journal sizes i c d
        → Rest rules history d × Hold rules history e (journal_of d) (vault_of d) × KeepsOthers (Journal i) c d }
    ensures journal { (rules : RuleSet) (history : List Entry) (e : Payloads) (i : ℕ) (sizes : List (ℕ × ℕ)) (c d : Areas)
        → Rest rules history c → Hold rules history e (journal_of c) (vault_of c) → (IsLive (after rules history) (Journal i) → ⊥)
        → map size_of (journal_of c) ≡ sizes → Scrubs area.Journal sizes i c d
        → Rest rules history d × Hold rules history e (journal_of d) (vault_of d) × IsZeroed (Journal i) c d × KeepsOthers (Journal i) c d }
    ensures vault_may { (rules : RuleSet) (history : List Entry) (e : Payloads) (i : ℕ) (sizes : List (ℕ × ℕ)) (c d : Areas)
        → Rest rules history c → Hold rules history e (journal_of c) (vault_of c) → (IsLive (after rules history) (Vault i) → ⊥)
        → map size_of (vault_of c) ≡ sizes → MayScrub area.Vault sizes i c d
        → Rest rules history d × Hold rules history e (journal_of d) (vault_of d) × KeepsOthers (Vault i) c d }
    ensures vault { (rules : RuleSet) (history : List Entry) (e : Payloads) (i : ℕ) (sizes : List (ℕ × ℕ)) (c d : Areas)
        → Rest rules history c → Hold rules history e (journal_of c) (vault_of c) → (IsLive (after rules history) (Vault i) → ⊥)
        → map size_of (vault_of c) ≡ sizes → Scrubs area.Vault sizes i c d
        → Rest rules history d × Hold rules history e (journal_of d) (vault_of d) × IsZeroed (Vault i) c d × KeepsOthers (Vault i) c d }
{}

/// After an entry zeros stand in every payload that is not needed, but for those that the entry leaves to be scrubbed; each scrub
/// leaves one less.
pub fn scrubs_remain()
    ensures entry { (rules : RuleSet) (history : List Entry) (e : Payloads) (entry : Entry) (given : List ℕ) (journal vault : List Record) (r : Record) (added : List Record)
        → Legal rules history → is_legal (after rules history) entry ≡ true → Hold rules history e journal vault
        → AreScrubbed (after rules history) journal vault
        → IsEntryRecord (after rules history) vault entry given r → AreItemRecords (after rules history) journal vault entry.what added
        → AreScrubbedBut (after rules (history ++ entry ∷ [])) (scrubbed_by (after rules history) entry.what) (journal ++ r ∷ []) (vault ++ added) }
    ensures less { (s : State) (carrier : Carrier) (left : List Carrier) (c d : Areas)
        → AreScrubbedBut s (carrier ∷ left) (journal_of c) (vault_of c) → IsZeroed carrier c d → KeepsOthers carrier c d
        → AreScrubbedBut s left (journal_of d) (vault_of d) }
    ensures none { (s : State) (journal vault : List Record) → AreScrubbedBut s [] journal vault → AreScrubbed s journal vault }
{}

/// Where the restoration log carries what was sealed, it does so after a legal entry.
pub fn seals_carry_on()
    ensures { (rules : RuleSet) (history : List Entry) (e : Payloads) (entry : Entry) (given : List ℕ) (journal vault : List Record)
        → Legal rules history → is_legal (after rules history) entry ≡ true → Hold rules history e journal vault → AreSealed rules history e
        → AreSealed rules (history ++ entry ∷ []) (payloads_after digest (after rules history) entry given e) }
{}
