//! The claims that a book holds.
ghost use Rattle.std.specs.Prelude.{◌≡◌, ◌↔◌, ◌<◌, [], length, vec_capacity, IsTrue, Contains};
ghost use Rattle.delf_model.specs.Order.{erases_same};
ghost use Rattle.delf_disk.specs.Plain.{Plain};
ghost use Rattle.ledger.specs.Held.{AreHeld};
ghost use Rattle.delf_book.specs.Books.{state_in};
ghost use Rattle.delf_book.specs.Claims.{taken_by as step_taking, step_of, steps_of, without, released, AreLogged, AreRead};
ghost use Rattle.std.specs.List.{position};

use crate::book::Book;
use delete_step::Claim;
use delf_disk::Rig;
use delf_model::{GraphStore, Item, What};
use ledger::Ledger;

impl<G: GraphStore, R: Rig> Book<G, R> {
    /// The number of held claims. Each has the item that its step would log, and the payload that stands.
    pub fn claims(&self) -> u32
        ensures value { result ≡ length self.now.held }
        // Each is on a step that is legal at each moment that may come, and no two are on one row.
        ensures held { AreHeld (state_in self.now) (steps_of self.now.held) }
        ensures logged { AreLogged (state_in self.now) self.now.held }
        ensures read { Plain (R.Disk.told self.now.rig) (R.Disk.honest self.now.rig) → AreRead self.now.payloads self.now.held }
    {
        self.ledger.held()
    }

    /// Whether this claim is held: its item and its payload.
    pub fn holds(&self, claim: &Claim) -> bool
        ensures { IsTrue result ↔ Contains self.now.held claim.now }
    {
        is_among(&self.claims, claim)
    }

    /// Gives a held claim up; all else stays. Takes no memory.
    pub fn release(&mut self, claim: Claim)
        requires { Contains self.old.held claim }
        ensures { self.new ≡ released self.old claim }
    {
        let _held = self.ledger.held();
        let step = taken_by(claim.item());
        self.ledger.give_up(&step);
        leave(&mut self.claims, &claim);
    }

    /// Gives every held claim up; all else stays. Takes no memory.
    pub fn forget(&mut self)
        ensures { self.new ≡ record self.old { held = [] } }
    {
        let _held = self.ledger.held();
        give_all_up(&mut self.ledger, &self.claims);
        self.claims.clear();
    }
}

fn is_among(claims: &[Claim], claim: &Claim) -> bool
    ensures { IsTrue result ↔ Contains claims.now claim.now }
{
    for held in claims {
        if is_same(held, claim) {
            return true;
        }
    }
    false
}

/// Whether two claims have one item and one payload.
fn is_same(a: &Claim, b: &Claim) -> bool
    ensures { IsTrue result ↔ (a.now ≡ b.now) }
{
    a.item() == b.item() && a.payload() == b.payload()
}

/// The step that takes the row of an item.
pub(crate) fn taken_by(item: &Item) -> What
    ensures { result ≡ step_taking item.now }
{
    match item {
        Item::Object { job, row } => What::Erase {
            job: *job,
            id: row.id,
        },
        Item::Edge { job, row, .. } => What::Cut {
            job: *job,
            edge: row.key.edge,
            from: row.key.from,
            to: row.key.to,
        },
    }
}

/// Takes the first claim on the row of this step out of the list. No room is lost.
pub(crate) fn leave(claims: &mut Vec<Claim>, claim: &Claim)
    ensures items { claims.new.items ≡ without claim.now claims.old.items }
    ensures capacity { vec_capacity claims.new ≡ vec_capacity claims.old }
{
    match place(claims, claim) {
        Some(i) => {
            claims.remove(i);
        }
        None => {}
    }
}

fn place(claims: &[Claim], claim: &Claim) -> Option<usize>
    ensures { result ≡ position (λ x. erases_same (step_of claim.now) (step_of x)) claims.now }
{
    claims
        .iter()
        .position(|other| is_same_row(claim.item(), other.item()))
}

/// Whether two items are of one row.
fn is_same_row(a: &Item, b: &Item) -> bool
    ensures { result ≡ erases_same (step_taking a.now) (step_taking b.now) }
{
    match a {
        Item::Object { row, .. } => match b {
            Item::Object { row: other, .. } => row.id.get() == other.id.get(),
            Item::Edge { .. } => false,
        },
        Item::Edge { row, .. } => match b {
            Item::Object { .. } => false,
            Item::Edge { row: other, .. } => {
                row.key.edge.0 == other.key.edge.0
                    && row.key.from.get() == other.key.from.get()
                    && row.key.to.get() == other.key.to.get()
            }
        },
    }
}

/// Gives the steps of all claims up, which are those that the ledger holds.
fn give_all_up<G: GraphStore>(ledger: &mut Ledger<G>, claims: &[Claim])
    requires { ledger.old.held ≡ steps_of claims.now }
    ensures { ledger.new ≡ record ledger.old { held = [] } }
{
    for claim in claims {
        ledger.give_up(&taken_by(claim.item()));
    }
}
