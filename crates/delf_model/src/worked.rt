//! Worked examples: the contract of each function says what one example gives, and the check computes it.
ghost use Rattle.std.specs.Prelude.{◌≡◌, [], ◌∷◌, ◌++◌, Some, None, true, false, length};
ghost use Rattle.delf_model.specs.declared.call.Refusal.TheVariants.{Absent, Condemned, WrongEnd, NameTaken, EdgeTaken, NoEdge, NotDirect, JobTaken, NoJob, Pending, RestoredBefore, WindowOver};
ghost use Rattle.delf_model.specs.declared.call.Status.TheVariants.{Done, Pending as pending, Restored, Purged};
ghost use Rattle.delf_model.specs.declared.call.Cause.TheVariants as cause;
ghost use Rattle.delf_model.specs.declared.rows.Item.TheVariants as item;
ghost use Rattle.delf_model.specs.declared.ids.JobName.TheVariants.{Named, Expiry};
ghost use Rattle.delf_model.specs.declared.schema.ObjectRule.TheVariants.{ByAny};
ghost use Rattle.delf_model.specs.Legal.{is_legal_from};
ghost use Rattle.delf_model.specs.State.{start};
ghost use Rattle.delf_model.specs.Report.{status, job_at, listed_at};
ghost use Rattle.delf_model.specs.declared.entry.What.TheVariants.{Create};
ghost use Rattle.delf_model.specs.Payloads.{Journal, Vault, is_needed, last_carrier, payloads_after, no_payloads, IsDamaged};
ghost use Rattle.delf_model.specs.Closure.{union, items_of_job};
ghost use Rattle.delf_model.specs.Worked.{Accepted, Refused, Worked, Idle, Tick, Work, played, after_orders, opened, example_rules, page_rules, plain_path, last_reference, deep_over_refcount, two_jobs, restore_meets_link, expiry, refusals_in_turn, own_reference, create, restore, object, edge, user, photo, album, session, owning};

/// A user and a photo that it owns are deleted in three steps.
pub fn plain_deletion()
    ensures answers { (played 0 plain_path).answers ≡
        Accepted 0 ∷ Accepted 1 ∷ Accepted 2 ∷ Accepted 3 ∷ Idle 3 ∷ [] }
    ensures objects { (played 0 plain_path).state.graph.objects ≡ [] }
    ensures edges { (played 0 plain_path).state.graph.edges ≡ [] }
    ensures legal { is_legal_from (start example_rules) (played 0 plain_path).history ≡ true }
    ensures status { status (played 0 plain_path).state (Named 40) ≡ Done 2 1 0 }
{}

/// The deletion is restored within the window: the graph is the one before.
pub fn plain_restore()
    ensures objects { (played 0 (plain_path ++ restore (Named 40) ∷ Work 10 ∷ [])).state.graph.objects ≡
        object 1 user 0 1 ∷ object 2 photo 1 1 ∷ [] }
    ensures edges { (played 0 (plain_path ++ restore (Named 40) ∷ Work 10 ∷ [])).state.graph.edges ≡ edge owning 1 2 2 ∷ [] }
{}

/// An id that was taken again is not overwritten, and the edge of the lost object is listed: its end is missing.
pub fn impostor()
    ensures status { status (played 0 (plain_path ++ create 2 photo (110 ∷ []) ∷ restore (Named 40) ∷ Work 10 ∷ [])).state (Named 40) ≡
        Restored 1 2 }
    ensures first { listed_at (played 0 (plain_path ++ create 2 photo (110 ∷ []) ∷ restore (Named 40) ∷ Work 10 ∷ [])).state 3 0 ≡
        Some (record { item = 2; row = item.Object 3 (object 2 photo 1 1); cause = cause.Taken 7 }) }
    ensures second { listed_at (played 0 (plain_path ++ create 2 photo (110 ∷ []) ∷ restore (Named 40) ∷ Work 10 ∷ [])).state 3 1 ≡
        Some (record { item = 0; row = item.Edge 3 (edge owning 1 2 2) 0 1; cause = cause.EndMissing 2 }) }
    ensures objects { (played 0 (plain_path ++ create 2 photo (110 ∷ []) ∷ restore (Named 40) ∷ Work 10 ∷ [])).state.graph.objects ≡
        object 1 user 0 1 ∷ object 2 photo 7 1 ∷ [] }
{}

/// A refcount target goes with its last reference, and not before.
pub fn last_reference_goes()
    ensures answers { (played 0 last_reference).answers ≡
        Accepted 0 ∷ Accepted 1 ∷ Accepted 2 ∷ Accepted 3 ∷ Accepted 4 ∷ Accepted 5 ∷ Idle 2 ∷ Accepted 8 ∷ Idle 1 ∷ [] }
    ensures objects { (played 0 last_reference).state.graph.objects ≡ object 6 album 1 0 ∷ [] }
{}

/// A deep edge condemns although an album still holds the photo.
pub fn deep_condemns()
    ensures line { job_at (played 0 deep_over_refcount).state 0 ≡
        Some (record { job = 5; name = Named 40; root = 1; erased = 2; cut = 2; status = Done 2 2 0 }) }
    ensures objects { (played 0 deep_over_refcount).state.graph.objects ≡ object 5 album 1 0 ∷ [] }
    ensures edges { (played 0 deep_over_refcount).state.graph.edges ≡ [] }
{}

/// Two deletions meet: what one of them condemned first is its own, and the other leaves it.
pub fn two_jobs_meet()
    ensures first { job_at (played 0 two_jobs).state 0 ≡
        Some (record { job = 5; name = Named 40; root = 1; erased = 2; cut = 2; status = Done 2 2 0 }) }
    ensures second { job_at (played 0 two_jobs).state 1 ≡
        Some (record { job = 6; name = Named 41; root = 9; erased = 0; cut = 0; status = pending 1 }) }
    ensures restored { job_at (played 0 (two_jobs ++ restore (Named 40) ∷ Work 10 ∷ [])).state 0 ≡
        Some (record { job = 5; name = Named 40; root = 1; erased = 2; cut = 2; status = Restored 3 1 }) }
    ensures listed { listed_at (played 0 (two_jobs ++ restore (Named 40) ∷ Work 10 ∷ [])).state 5 0 ≡
        Some (record { item = 2; row = item.Edge 5 (edge owning 9 2 4) 1 2; cause = cause.EndCondemned 9 6 }) }
    ensures other { job_at (played 0 (two_jobs ++ restore (Named 40) ∷ Work 10 ∷ [])).state 1 ≡
        Some (record { job = 6; name = Named 41; root = 9; erased = 1; cut = 0; status = Done 1 0 0 }) }
{}

/// At the last moment of the window a restore is accepted, and no purge is made; a moment later it is over.
pub fn window_ends()
    ensures inside { (played 0 (plain_path ++ Tick 100 ∷ Work 10 ∷ restore (Named 40) ∷ [])).answers ≡
        Accepted 0 ∷ Accepted 1 ∷ Accepted 2 ∷ Accepted 3 ∷ Idle 3 ∷ Idle 0 ∷ Accepted 7 ∷ [] }
    ensures over { (played 0 (plain_path ++ Tick 101 ∷ restore (Named 40) ∷ Work 10 ∷ restore (Named 40) ∷ [])).answers ≡
        Accepted 0 ∷ Accepted 1 ∷ Accepted 2 ∷ Accepted 3 ∷ Idle 3 ∷ Refused 7 (WindowOver 100) ∷ Idle 1 ∷
        Refused 8 (WindowOver 100) ∷ [] }
    ensures purged { status (played 0 (plain_path ++ Tick 101 ∷ Work 10 ∷ [])).state (Named 40) ≡ Purged }
{}

/// A restore waits for the deletion, is made once, and lists the edge whose key was taken by hand.
pub fn restore_is_made_once()
    ensures answers { (played 0 restore_meets_link).answers ≡
        Accepted 0 ∷ Accepted 1 ∷ Accepted 2 ∷ Accepted 3 ∷ Refused 4 (Pending 1) ∷ Worked 1 ∷ Refused 5 (Pending 2) ∷
        Idle 2 ∷ Accepted 7 ∷ Refused 8 (RestoredBefore 7) ∷ Refused 8 NoJob ∷ Worked 2 ∷ Accepted 10 ∷ Idle 1 ∷ [] }
    ensures status { status (played 0 restore_meets_link).state (Named 40) ≡ Restored 2 1 }
    ensures listed { listed_at (played 0 restore_meets_link).state 3 0 ≡
        Some (record { item = 0; row = item.Edge 3 (edge owning 1 2 2) 0 1; cause = cause.KeyTaken 10 }) }
{}

/// A session expires at its due, and again once it was restored.
pub fn session_expires()
    ensures answers { (played 5 expiry).answers ≡ Accepted 0 ∷ Idle 0 ∷ Idle 2 ∷ Accepted 3 ∷ Idle 3 ∷ [] }
    ensures first { job_at (played 5 expiry).state 0 ≡
        Some (record { job = 1; name = Expiry 7; root = 7; erased = 1; cut = 0; status = Restored 1 0 }) }
    ensures second { job_at (played 5 expiry).state 1 ≡
        Some (record { job = 5; name = Expiry 7; root = 7; erased = 1; cut = 0; status = Done 1 0 65 }) }
    ensures legal { is_legal_from (start example_rules) (played 5 expiry).history ≡ true }
{}

/// Refusals come in their order, each with what it keeps.
pub fn refusals_come_in_order()
    ensures answers { (played 0 refusals_in_turn).answers ≡
        Accepted 0 ∷ Accepted 1 ∷ Accepted 2 ∷ Refused 3 (NotDirect ByAny) ∷ Refused 3 (WrongEnd 2 photo) ∷
        Refused 3 (EdgeTaken 2) ∷ Refused 3 NoEdge ∷ Refused 3 (Absent 8) ∷ Accepted 3 ∷ Refused 4 (Condemned 1 3) ∷
        Refused 4 (Condemned 1 3) ∷ Refused 4 (Condemned 1 3) ∷ Refused 4 (NameTaken 1 0) ∷ Accepted 4 ∷
        Refused 5 (JobTaken 40) ∷ [] }
{}

/// An object that refers to itself is held by that reference until it is unlinked.
pub fn own_reference_holds()
    ensures answers { (after_orders (opened page_rules 0) own_reference).answers ≡
        Accepted 0 ∷ Accepted 1 ∷ Accepted 2 ∷ Accepted 3 ∷ Accepted 4 ∷ Accepted 5 ∷ Idle 1 ∷ [] }
    ensures objects { (after_orders (opened page_rules 0) own_reference).state.graph.objects ≡ object 2 0 2 0 ∷ [] }
{}

/// A payload is needed where its row stands or may be put back: live, then as logged, then live again, until it is purged.
pub fn payload_moves()
    ensures live { is_needed (played 0 (create 1 user (97 ∷ []) ∷ [])).state 0 ≡ true }
    ensures logged { last_carrier (played 0 plain_path).state 0 ≡ Vault 1 }
    ensures put_back { last_carrier (played 0 (plain_path ++ restore (Named 40) ∷ Work 10 ∷ [])).state 0 ≡ Journal 9 }
    ensures purged { is_needed (played 0 (plain_path ++ Tick 101 ∷ Work 10 ∷ [])).state 0 ≡ false }
    ensures kept { payloads_after (λ bytes. bytes) (start example_rules)
        (record { moment = 0; what = Create (record { seat = 0; k = 0 }) user 1 1 }) (97 ∷ []) no_payloads ≡
        record { bytes = (0, 97 ∷ []) ∷ []; seals = [] } }
{}

/// The union of a graph and logged rows has each row that fits, and the closure of a user holds its photo.
pub fn rows_join()
    ensures objects { (union (played 0 plain_path).state (items_of_job 3 (played 0 plain_path).state.items)).objects ≡
        object 1 user 0 1 ∷ object 2 photo 1 1 ∷ [] }
    ensures edges { (union (played 0 plain_path).state (items_of_job 3 (played 0 plain_path).state.items)).edges ≡ edge owning 1 2 2 ∷ [] }
    ensures damaged { IsDamaged (λ bytes. bytes) (played 0 plain_path).state
        (record { bytes = (0, 97 ∷ []) ∷ (1, 98 ∷ []) ∷ []; seals = [] ∷ (99 ∷ []) ∷ (98 ∷ []) ∷ [] }) 1 }
{}
