//! What some bytes stand for, and what they do not.
ghost use Rattle.std.specs.Prelude.{◌≡◌, List, [], ◌∷◌, ◌++◌};
ghost use Rattle.gate_log.specs.Records.{Record};
ghost use Rattle.delf_model.specs.RuleSet.{RuleSet};
ghost use Rattle.delf_model.specs.Payloads.{no_payloads};
ghost use Rattle.store_laws.specs.Logged.{held, IsLog};
ghost use Rattle.store_laws.specs.Stores.{journal_mark, vault_mark, Hold};

/// One record with one byte of head and one of payload stands behind the mark; what follows the closed gate does not count.
pub fn one_record()
    ensures one { held (journal_mark ++ 165 ∷ 0 ∷ 0 ∷ 0 ∷ 4 ∷ 0 ∷ 1 ∷ 7 ∷ 9 ∷ 0 ∷ 165 ∷ []) ≡ record { head = 7 ∷ []; payload = 9 ∷ [] } ∷ [] }
    ensures log { IsLog journal_mark (journal_mark ++ 165 ∷ 0 ∷ 0 ∷ 0 ∷ 4 ∷ 0 ∷ 1 ∷ 7 ∷ 9 ∷ 0 ∷ 165 ∷ []) }
    ensures shut { held (journal_mark ++ 0 ∷ 0 ∷ 0 ∷ 0 ∷ 4 ∷ 0 ∷ 1 ∷ 7 ∷ 9 ∷ 0 ∷ 165 ∷ []) ≡ [] }
    ensures other { IsLog vault_mark (journal_mark ++ 165 ∷ 0 ∷ 0 ∷ 0 ∷ 4 ∷ 0 ∷ 1 ∷ 7 ∷ 9 ∷ 0 ∷ 165 ∷ []) → ⊥ }
{}

/// No records hold the empty history, and a record more does not.
pub fn empty_history()
    ensures empty { (rules : RuleSet) → Hold rules [] no_payloads [] [] }
    ensures journal { (rules : RuleSet) (r : Record) → Hold rules [] no_payloads (r ∷ []) [] → ⊥ }
    ensures vault { (rules : RuleSet) (r : Record) → Hold rules [] no_payloads [] (r ∷ []) → ⊥ }
{}
