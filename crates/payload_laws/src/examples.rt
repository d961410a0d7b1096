//! Worked examples: the contract of each function says what one example gives, and the check computes it.
ghost use Rattle.std.specs.Prelude.{◌≡◌, [], ◌∷◌, ◌++◌, true, false};
ghost use Rattle.delf_model.specs.declared.ids.JobName.TheVariants.{Named};
ghost use Rattle.delf_model.specs.declared.entry.What.TheVariants.{Update, Put, Purge};
ghost use Rattle.delf_model.specs.State.{start};
ghost use Rattle.delf_model.specs.Step.{after};
ghost use Rattle.delf_model.specs.Legal.{is_legal_from};
ghost use Rattle.delf_model.specs.Payloads.{Journal, Vault, is_needed, last_carrier, payload_at, payloads_along, given_at};
ghost use Rattle.delf_model.specs.Worked.{Tick, Work, played, example_rules, plain_path, create, update, restore, user, photo};
ghost use Rattle.payload_laws.specs.Holders.{scrubbed_by, record_size};
ghost use Rattle.payload_laws.specs.Emptied.{emptied_along, there_and_back, one_byte};

/// The record that an update leaves behind is scrubbed, and its own record serves the new payload.
pub fn update_scrubs()
    ensures scrubbed { scrubbed_by (played 0 (create 1 user (97 ∷ []) ∷ [])).state (Update (record { seat = 0; k = 1 }) 1 2) ≡ Journal 0 ∷ [] }
    ensures old { is_needed (played 0 (create 1 user (97 ∷ []) ∷ update 1 (98 ∷ 99 ∷ []) ∷ [])).state 0 ≡ false }
    ensures new { last_carrier (played 0 (create 1 user (97 ∷ []) ∷ update 1 (98 ∷ 99 ∷ []) ∷ [])).state 1 ≡ Journal 1 }
{}

/// A photo that is listed, since its id was taken again, keeps its payload in the record of its item until its job is purged.
pub fn listed_keeps()
    ensures needed { is_needed (played 0 (plain_path ++ create 2 photo (110 ∷ []) ∷ restore (Named 40) ∷ Work 10 ∷ [])).state 1 ≡ true }
    ensures carried { last_carrier (played 0 (plain_path ++ create 2 photo (110 ∷ []) ∷ restore (Named 40) ∷ Work 10 ∷ [])).state 1 ≡ Vault 2 }
    ensures scrubbed { scrubbed_by (played 0 (plain_path ++ create 2 photo (110 ∷ []) ∷ restore (Named 40) ∷ Work 10 ∷ [])).state (Purge 3) ≡
        Vault 0 ∷ Vault 2 ∷ [] }
    ensures purged { is_needed (played 0 (plain_path ++ create 2 photo (110 ∷ []) ∷ restore (Named 40) ∷ Work 10 ∷ Tick 101 ∷ Work 10 ∷ [])).state 1 ≡ false }
{}

/// A put back scrubs the record of its item, and the record of the put serves the payload from then on, with its size.
pub fn put_back_serves()
    ensures before { last_carrier (played 0 (plain_path ++ restore (Named 40) ∷ Work 1 ∷ [])).state 0 ≡ Vault 1 }
    ensures scrubbed { scrubbed_by (played 0 (plain_path ++ restore (Named 40) ∷ Work 1 ∷ [])).state (Put 3 1) ≡ Vault 1 ∷ [] }
    ensures sized { record_size (played 0 (plain_path ++ restore (Named 40) ∷ Work 1 ∷ [])).state (Put 3 1) ≡ 1 }
    ensures after { last_carrier (played 0 (plain_path ++ restore (Named 40) ∷ Work 2 ∷ [])).state 0 ≡ Journal 9 }
{}

/// A byte that was given is there again after a deletion and a restore, and was sealed on the way. A fold in which a put empties it
/// gives another payload than the call gave.
pub fn a_put_keeps_the_bytes()
    ensures legal { is_legal_from (start example_rules) there_and_back ≡ true }
    ensures needed { is_needed (after example_rules there_and_back) 0 ≡ true }
    ensures pairs { (payloads_along (λ bytes. bytes) one_byte example_rules there_and_back).bytes ≡ (0, 97 ∷ []) ∷ [] }
    ensures kept { payload_at (payloads_along (λ bytes. bytes) one_byte example_rules there_and_back) 0 ≡ given_at one_byte 0 }
    ensures sealed { (payloads_along (λ bytes. bytes) one_byte example_rules there_and_back).seals ≡ (97 ∷ []) ∷ [] }
    ensures emptied { payload_at (emptied_along (λ bytes. bytes) one_byte example_rules there_and_back) 0 ≡ [] }
    ensures refused { payload_at (emptied_along (λ bytes. bytes) one_byte example_rules there_and_back) 0 ≡ given_at one_byte 0 → ⊥ }
{}
