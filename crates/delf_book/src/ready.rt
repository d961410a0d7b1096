//! Room for one entry before its first disk call.
ghost use Rattle.std.specs.Prelude.{◌≡◌, ◌+◌, ◌≤◌, ℕ, length, vec_len, vec_capacity, IsTrue, IfSome, OnOk};
ghost use Rattle.delf_book.specs.Claims.{room_for};
ghost use Rattle.delf_book.specs.Keeping.{HasRoom};
ghost use Rattle.ledger.specs.Ledgers.{is_ready, IsSame};

use crate::logs::Logs;
use delete_step::Claim;
use delf_model::{GraphStore, What};
use ledger::Ledger;
use std::alloc::AllocError;

/// The room for `spare` further steps and these claims, and for one entry. None where that passes what can be counted.
pub(crate) fn room_and_one(spare: u32, claims: usize) -> Option<u32>
    ensures { IfSome result (λ n. n ≡ room_for spare claims + 1) }
{
    let steps = spare as usize + spare as usize;
    let all = steps.checked_add(claims)?.checked_add(1)?;
    u32::try_from(all).ok()
}

/// Makes room for `n` entries more, and for what one of this kind puts into the graph. The only error is want of memory;
/// whatever it answers, no room is lost.
pub(crate) fn make_ready<G: GraphStore>(
    ledger: &mut Ledger<G>,
    logs: &mut Logs,
    what: &What,
    n: u32,
) -> Result<(), AllocError>
    ensures ledger { IsSame ledger.old ledger.new }
    ensures journal_area { logs.new.journal.area ≡ logs.old.journal.area }
    ensures journal_sizes { logs.new.journal.sizes ≡ logs.old.journal.sizes }
    ensures vault_area { logs.new.vault.area ≡ logs.old.vault.area }
    ensures vault_sizes { logs.new.vault.sizes ≡ logs.old.vault.sizes }
    ensures carriers { logs.new.carriers.items ≡ logs.old.carriers.items }
    ensures kept { (m : ℕ) → HasRoom m ledger.old.spare logs.old.journal logs.old.vault (length logs.old.carriers.items) (vec_capacity logs.old.carriers)
        → HasRoom m ledger.new.spare logs.new.journal logs.new.vault (length logs.new.carriers.items) (vec_capacity logs.new.carriers) }
    ensures room { OnOk result (HasRoom n ledger.new.spare logs.new.journal logs.new.vault (length logs.new.carriers.items) (vec_capacity logs.new.carriers)) }
    ensures ready { OnOk result (IsTrue (is_ready (G.is_ready_object ledger.new.store) (G.is_ready_edge ledger.new.store) ledger.new what.now)) }
{
    logs.reserve(n)?;
    ledger.reserve(n)?;
    ledger.make_ready(what)
}

/// Makes room for `n` entries more, but for what they put into the graph. The only error is want of memory; whatever it
/// answers, no room is lost.
pub(crate) fn make_room<G: GraphStore>(
    ledger: &mut Ledger<G>,
    logs: &mut Logs,
    n: u32,
) -> Result<(), AllocError>
    ensures ledger { IsSame ledger.old ledger.new }
    ensures journal_area { logs.new.journal.area ≡ logs.old.journal.area }
    ensures journal_sizes { logs.new.journal.sizes ≡ logs.old.journal.sizes }
    ensures vault_area { logs.new.vault.area ≡ logs.old.vault.area }
    ensures vault_sizes { logs.new.vault.sizes ≡ logs.old.vault.sizes }
    ensures carriers { logs.new.carriers.items ≡ logs.old.carriers.items }
    ensures kept { (m : ℕ) → HasRoom m ledger.old.spare logs.old.journal logs.old.vault (length logs.old.carriers.items) (vec_capacity logs.old.carriers)
        → HasRoom m ledger.new.spare logs.new.journal logs.new.vault (length logs.new.carriers.items) (vec_capacity logs.new.carriers) }
    ensures room { OnOk result (HasRoom n ledger.new.spare logs.new.journal logs.new.vault (length logs.new.carriers.items) (vec_capacity logs.new.carriers)) }
{
    logs.reserve(n)?;
    ledger.reserve(n)
}

/// Makes room for `n` further steps beside these claims, each of which may be claimed first. The only error is want of
/// memory; whatever it answers, no room is lost.
pub(crate) fn make_step_room<G: GraphStore>(
    ledger: &mut Ledger<G>,
    logs: &mut Logs,
    claims: &mut Vec<Claim>,
    n: u32,
) -> Result<(), AllocError>
    ensures ledger { IsSame ledger.old ledger.new }
    ensures journal_area { logs.new.journal.area ≡ logs.old.journal.area }
    ensures journal_sizes { logs.new.journal.sizes ≡ logs.old.journal.sizes }
    ensures vault_area { logs.new.vault.area ≡ logs.old.vault.area }
    ensures vault_sizes { logs.new.vault.sizes ≡ logs.old.vault.sizes }
    ensures carriers { logs.new.carriers.items ≡ logs.old.carriers.items }
    ensures claims { claims.new.items ≡ claims.old.items }
    ensures len { vec_len claims.new ≡ vec_len claims.old }
    ensures capacity { vec_capacity claims.old ≤ vec_capacity claims.new }
    ensures kept { (m : ℕ) → HasRoom m ledger.old.spare logs.old.journal logs.old.vault (length logs.old.carriers.items) (vec_capacity logs.old.carriers)
        → HasRoom m ledger.new.spare logs.new.journal logs.new.vault (length logs.new.carriers.items) (vec_capacity logs.new.carriers) }
    ensures room { OnOk result (HasRoom (room_for n (vec_len claims.old) + 1) ledger.new.spare logs.new.journal logs.new.vault (length logs.new.carriers.items) (vec_capacity logs.new.carriers)) }
    ensures list { OnOk result (vec_len claims.old + n ≤ vec_capacity claims.new) }
{
    let Some(room) = room_and_one(n, claims.len()) else {
        return Err(AllocError);
    };
    claims.reserve(n as usize)?;
    make_room(ledger, logs, room)
}
