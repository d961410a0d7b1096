//! What the bytes of both areas stand for, and how the records of one entry carry that on, over every legal history. Each law is the
//! contract of a function that does nothing.
#![tactic(auto)]

pub mod areas;
pub mod examples;

ghost use Rattle.std.specs.Prelude.{◌≡◌, ℕ, true, List, [], ◌∷◌, ◌++◌, length};
ghost use Rattle.gate_log.specs.Records.{Record, payload_of, replaced};
ghost use Rattle.gate_log.specs.Logs.{Log};
ghost use Rattle.delf_model.specs.declared.entry.Entry.{Entry};
ghost use Rattle.delf_model.specs.RuleSet.{RuleSet};
ghost use Rattle.delf_model.specs.Step.{after};
ghost use Rattle.delf_model.specs.Legal.{Legal, is_legal};
ghost use Rattle.delf_model.specs.Payloads.{Payloads, payloads_after, Journal, Vault};
ghost use Rattle.payload_laws.specs.Holders.{IsLive};
ghost use Rattle.store_laws.specs.Logged.{held, IsLog};
ghost use Rattle.store_laws.specs.Stores.{digest, Hold};
ghost use Rattle.store_laws.specs.Moves.{IsEntryRecord, AreItemRecords};

/// An area that stands for records as a log is one by its bytes alone, with these records, and the other way round.
pub fn areas_are_logs()
    ensures told { (mark : List ℕ) (records : List Record) (bytes : List ℕ) → Log mark records bytes → IsLog mark bytes × (held bytes ≡ records) }
    ensures log { (mark bytes : List ℕ) → IsLog mark bytes → Log mark (held bytes) bytes }
{}

/// The records of a legal entry, behind those of its history, hold the longer history and its payloads.
pub fn records_carry_on()
    ensures { (rules : RuleSet) (history : List Entry) (e : Payloads) (entry : Entry) (given : List ℕ) (journal vault : List Record) (r : Record) (added : List Record)
        → Legal rules history → is_legal (after rules history) entry ≡ true → Hold rules history e journal vault
        → IsEntryRecord (after rules history) vault entry given r → AreItemRecords (after rules history) journal vault entry.what added
        → Hold rules (history ++ entry ∷ []) (payloads_after digest (after rules history) entry given e) (journal ++ r ∷ []) (vault ++ added) }
{}

/// Whatever stands in a payload that is not needed, the records hold the same.
pub fn dead_payloads_are_free()
    ensures journal { (rules : RuleSet) (history : List Entry) (e : Payloads) (journal vault : List Record) (i : ℕ) (payload : List ℕ)
        → Hold rules history e journal vault → (IsLive (after rules history) (Journal i) → ⊥) → length payload ≡ length (payload_of journal i)
        → Hold rules history e (replaced journal i payload) vault }
    ensures vault { (rules : RuleSet) (history : List Entry) (e : Payloads) (journal vault : List Record) (i : ℕ) (payload : List ℕ)
        → Hold rules history e journal vault → (IsLive (after rules history) (Vault i) → ⊥) → length payload ≡ length (payload_of vault i)
        → Hold rules history e journal (replaced vault i payload) }
{}
