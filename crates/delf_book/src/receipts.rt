//! What an accepted call is told.
ghost use Rattle.std.specs.Prelude.{◌≡◌, length};
ghost use Rattle.delf_book.specs.Books.{given_by, started_by, restored_items, EdgeStands};
ghost use Rattle.ledger.specs.Ledgers.{state_of};

use crate::answers::Receipt;
use delf_model::{Call, EdgeKey, GraphStore, Job, What};
use ledger::Ledger;
use live_writes::starts_job;

/// The bytes that a call brings.
pub(crate) fn payload_of(call: &Call) -> &[u8]
    ensures { result.now ≡ given_by call.now }
{
    match call {
        Call::Create { payload, .. } => payload.as_slice(),
        Call::Update { payload, .. } => payload.as_slice(),
        Call::Link { payload, .. } => payload.as_slice(),
        Call::Unlink { .. } => &[],
        Call::Delete { .. } => &[],
        Call::Restore { .. } => &[],
    }
}

/// The receipt of the entry that is to be made.
pub(crate) fn receipt_of<G: GraphStore>(ledger: &Ledger<G>, what: &What) -> Receipt
    requires { EdgeStands (state_of ledger.now) what.now }
    ensures position { result.position ≡ length ledger.now.history }
    ensures started { result.started ≡ started_by (state_of ledger.now) what.now }
    ensures items { result.items ≡ restored_items (state_of ledger.now) what.now }
{
    let position = ledger.len();
    Receipt {
        position,
        started: started(ledger, what, Job(position)),
        items: restored(ledger, what),
    }
}

/// The job that the entry starts.
fn started<G: GraphStore>(ledger: &Ledger<G>, what: &What, job: Job) -> Option<Job>
    requires stands { EdgeStands (state_of ledger.now) what.now }
    requires job { job ≡ (state_of ledger.now).len }
    ensures { result ≡ started_by (state_of ledger.now) what.now }
{
    match what {
        What::Unlink { edge, from, to, .. } => {
            let key = EdgeKey {
                edge: *edge,
                from: *from,
                to: *to,
            };
            if starts_job(ledger.graph(), ledger.rules(), key) {
                Some(job)
            } else {
                None
            }
        }
        What::Delete { .. } => Some(job),
        What::Expire { .. } => Some(job),
        What::Create { .. } => None,
        What::Update { .. } => None,
        What::Link { .. } => None,
        What::Restore { .. } => None,
        What::Cut { .. } => None,
        What::Erase { .. } => None,
        What::Put { .. } => None,
        What::Purge { .. } => None,
    }
}

/// The number of items of the job that the entry restores.
fn restored<G: GraphStore>(ledger: &Ledger<G>, what: &What) -> u32
    ensures { result ≡ restored_items (state_of ledger.now) what.now }
{
    match what {
        What::Restore { job, .. } => ledger.items(*job),
        What::Create { .. } => 0,
        What::Update { .. } => 0,
        What::Link { .. } => 0,
        What::Unlink { .. } => 0,
        What::Delete { .. } => 0,
        What::Expire { .. } => 0,
        What::Cut { .. } => 0,
        What::Erase { .. } => 0,
        What::Put { .. } => 0,
        What::Purge { .. } => 0,
    }
}
