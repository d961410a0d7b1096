//! What the steps of an opening make of what both areas stand for, over every legal history. Each law is the contract of a
//! function that does nothing.
#![tactic(auto)]

ghost use Rattle.std.specs.Prelude.{◌≡◌, ◌+◌, ◌≤◌, ℕ, List, [], ◌∷◌, length, map, drop, IsTrue};
ghost use Rattle.delf_disk.specs.declared.area.Area.{Area};
ghost use Rattle.delf_disk.specs.declared.area.Area.TheVariants as area;
ghost use Rattle.delf_disk.specs.Areas.{Areas};
ghost use Rattle.delf_disk.specs.Images.{Torn};
ghost use Rattle.gate_log.specs.Records.{Record, size_of};
ghost use Rattle.gate_log.specs.Opening.{Starts};
ghost use Rattle.gate_log.specs.Steps.{MayDrop, Drops, MaySettle, Settles};
ghost use Rattle.delf_model.specs.declared.entry.Entry.{Entry};
ghost use Rattle.delf_model.specs.RuleSet.{RuleSet};
ghost use Rattle.delf_model.specs.Step.{after};
ghost use Rattle.delf_model.specs.Legal.{Legal};
ghost use Rattle.delf_model.specs.Payloads.{Payloads, no_payloads};
ghost use Rattle.store_laws.specs.Logged.{IsLog, behind, are_zeros};
ghost use Rattle.store_laws.specs.Stores.{Hold, StandBut, Rest, Clean, Settled, journal_mark, vault_mark, journal_of, vault_of};
ghost use Rattle.store_laws.specs.Steps.{Ahead};
ghost use Rattle.opening_laws.specs.Entries.{SamePayloads};
ghost use Rattle.opening_laws.specs.Places.{BadPlace};

/// Whatever a crash leaves of the bytes behind a closed gate, the areas hold the same records, history and payloads.
pub fn areas_may_settle()
    ensures journal { (rules : RuleSet) (history : List Entry) (sizes : List (ℕ × ℕ)) (c d : Areas)
        → Rest rules history c → map size_of (journal_of c) ≡ sizes → MaySettle area.Journal sizes c d
        → Rest rules history d × (journal_of d ≡ journal_of c) × (vault_of d ≡ vault_of c) }
    ensures vault { (rules : RuleSet) (history : List Entry) (sizes : List (ℕ × ℕ)) (c d : Areas)
        → Rest rules history c → map size_of (vault_of c) ≡ sizes → MaySettle area.Vault sizes c d
        → Rest rules history d × (journal_of d ≡ journal_of c) × (vault_of d ≡ vault_of c) }
    ensures holds { (rules : RuleSet) (history : List Entry) (e : Payloads) (c d : Areas)
        → Hold rules history e (journal_of c) (vault_of c) → journal_of d ≡ journal_of c → vault_of d ≡ vault_of c
        → Hold rules history e (journal_of d) (vault_of d) }
    ensures done { (it : Area) (sizes : List (ℕ × ℕ)) (c d : Areas) → Settles it sizes c d → MaySettle it sizes c d }
{}

/// Once both areas are settled, first the journal and then the vault, zeros stand behind both closed gates.
pub fn areas_settle()
    ensures journal { (rules : RuleSet) (history : List Entry) (sizes : List (ℕ × ℕ)) (c d : Areas)
        → Clean rules history c → map size_of (journal_of c) ≡ sizes → Settles area.Journal sizes c d
        → Clean rules history d × IsTrue (are_zeros (drop 1 (behind d.journal))) }
    ensures vault { (rules : RuleSet) (history : List Entry) (sizes : List (ℕ × ℕ)) (c d : Areas)
        → Clean rules history c → IsTrue (are_zeros (drop 1 (behind c.journal))) → map size_of (vault_of c) ≡ sizes
        → Settles area.Vault sizes c d → Settled rules history d }
{}

/// Areas that stand for a history and have their marks rest with it, or have one vault record past its items.
pub fn areas_are_ahead_by_one()
    ensures rests { (rules : RuleSet) (history : List Entry) (e : Payloads) (c : Areas)
        → StandBut rules history e c → IsLog journal_mark c.journal → IsLog vault_mark c.vault
        → length (vault_of c) ≡ length (after rules history).items
        → Rest rules history c × Hold rules history e (journal_of c) (vault_of c) }
    ensures ahead { (rules : RuleSet) (history : List Entry) (e : Payloads) (c : Areas)
        → StandBut rules history e c → IsLog journal_mark c.journal → IsLog vault_mark c.vault
        → length (vault_of c) ≡ length (after rules history).items + 1
        → (added : Record) × Ahead rules history e (added ∷ []) c }
{}

/// The vault record of an entry that was not made is dropped: the areas stand for the same at every moment, and rest once it
/// is gone.
pub fn vault_drops()
    ensures may { (rules : RuleSet) (history : List Entry) (e : Payloads) (added : Record) (sizes : List (ℕ × ℕ)) (c d : Areas)
        → Legal rules history → Ahead rules history e (added ∷ []) c → map size_of (vault_of c) ≡ sizes
        → MayDrop area.Vault sizes c d → StandBut rules history e d }
    ensures drops { (rules : RuleSet) (history : List Entry) (e : Payloads) (added : Record) (sizes : List (ℕ × ℕ)) (c d : Areas)
        → Ahead rules history e (added ∷ []) c → map size_of (vault_of c) ≡ sizes
        → Drops area.Vault sizes c d → Rest rules history d × Hold rules history e (journal_of d) (vault_of d) }
{}

/// Areas that were never written whole stand for the blank history. A start of a log changes nothing of what the areas stand
/// for, at any moment, and once it is done its area has the mark.
pub fn areas_start()
    ensures blank { (rules : RuleSet) (c : Areas) → length c.journal ≤ 9 → length c.vault ≤ 9 → StandBut rules [] no_payloads c }
    ensures journal_torn { (rules : RuleSet) (history : List Entry) (e : Payloads) (c d : Areas)
        → StandBut rules history e c → length c.journal ≤ 9 → Torn area.Journal 0 9 c d → StandBut rules history e d }
    ensures vault_torn { (rules : RuleSet) (history : List Entry) (e : Payloads) (c d : Areas)
        → StandBut rules history e c → length c.vault ≤ 9 → Torn area.Vault 0 9 c d → StandBut rules history e d }
    ensures journal { (rules : RuleSet) (history : List Entry) (e : Payloads) (sizes : List (ℕ × ℕ)) (c d : Areas)
        → StandBut rules history e c → Starts area.Journal journal_mark sizes c d
        → StandBut rules history e d × IsLog journal_mark d.journal × (map size_of (journal_of d) ≡ sizes) × (journal_of d ≡ journal_of c) × (d.vault ≡ c.vault) }
    ensures vault { (rules : RuleSet) (history : List Entry) (e : Payloads) (sizes : List (ℕ × ℕ)) (c d : Areas)
        → StandBut rules history e c → Starts area.Vault vault_mark sizes c d
        → StandBut rules history e d × IsLog vault_mark d.vault × (map size_of (vault_of d) ≡ sizes) × (d.journal ≡ c.journal) × (vault_of d ≡ vault_of c) }
{}

/// Areas stand for one history, and with it for one payload at each position and one seal of
/// each item.
pub fn one_history_stands()
    ensures history { (rules : RuleSet) (h g : List Entry) (d e : Payloads) (c : Areas)
        → StandBut rules h d c → StandBut rules g e c → h ≡ g }
    ensures payloads { (rules : RuleSet) (h : List Entry) (d e : Payloads) (c : Areas)
        → StandBut rules h d c → StandBut rules h e c → SamePayloads d e }
{}

/// A store is bad at one place at most.
pub fn one_place_is_bad()
    ensures { (rules : RuleSet) (c : Areas) (x y : Area) (a b : ℕ) → BadPlace rules c x a → BadPlace rules c y b → (x ≡ y) × (a ≡ b) }
{}
