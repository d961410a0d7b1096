//! Which journal record an entry leaves without a needed payload.
ghost use Rattle.std.specs.Prelude.{◌≡◌, ◌<◌, true, length, IfSome};
ghost use Rattle.delf_model.specs.declared.rows.EdgeKey.{EdgeKey};
ghost use Rattle.delf_model.specs.Graph.{object_at, edge_at};
ghost use Rattle.payload_laws.specs.Holders.{scrubbed_by, carrier_of_object, carrier_of_edge};
ghost use Rattle.delf_book.specs.Keeping.{KeepsCarriers, scrubs_rows};
ghost use Rattle.ledger.specs.Ledgers.{state_of};
ghost use Rattle.delf_book.specs.Writing.{dead_carriers};

use delf_model::{EdgeKey, GraphStore, ObjectId, What};
use ledger::Ledger;

/// The journal record that an entry leaves without a needed payload, of an entry that is neither a put nor a purge.
pub(crate) fn dead_record<G: GraphStore>(
    ledger: &Ledger<G>,
    carriers: &[u32],
    what: &What,
) -> Option<u32>
    requires carriers { KeepsCarriers ledger.now.rules ledger.now.history carriers.now }
    requires rows { scrubs_rows what.now ≡ true }
    ensures dead { dead_carriers result ≡ scrubbed_by (state_of ledger.now) what.now }
    ensures inside { IfSome result (λ i. i < length ledger.now.history) }
{
    match what {
        What::Update { id, .. } => object_record(ledger, carriers, *id),
        What::Erase { id, .. } => object_record(ledger, carriers, *id),
        What::Unlink { edge, from, to, .. } => {
            let key = EdgeKey {
                edge: *edge,
                from: *from,
                to: *to,
            };
            edge_record(ledger, carriers, key)
        }
        What::Cut { edge, from, to, .. } => {
            let key = EdgeKey {
                edge: *edge,
                from: *from,
                to: *to,
            };
            edge_record(ledger, carriers, key)
        }
        What::Create { .. } => None,
        What::Link { .. } => None,
        What::Delete { .. } => None,
        What::Restore { .. } => None,
        What::Expire { .. } => None,
        What::Put { .. } => None,
        What::Purge { .. } => None,
    }
}

/// The journal record that carries the payload of the object.
pub(crate) fn object_record<G: GraphStore>(
    ledger: &Ledger<G>,
    carriers: &[u32],
    id: ObjectId,
) -> Option<u32>
    requires { KeepsCarriers ledger.now.rules ledger.now.history carriers.now }
    ensures carrier { dead_carriers result ≡ carrier_of_object (state_of ledger.now) (object_at (state_of ledger.now).graph id) }
    ensures inside { IfSome result (λ i. i < length ledger.now.history) }
{
    let _len = ledger.len();
    let row = ledger.graph().object(id)?;
    Some(carriers[row.at as usize])
}

/// The journal record that carries the payload of the edge.
pub(crate) fn edge_record<G: GraphStore>(
    ledger: &Ledger<G>,
    carriers: &[u32],
    key: EdgeKey,
) -> Option<u32>
    requires { KeepsCarriers ledger.now.rules ledger.now.history carriers.now }
    ensures carrier { dead_carriers result ≡ carrier_of_edge (state_of ledger.now) (edge_at (state_of ledger.now).graph key) }
    ensures inside { IfSome result (λ i. i < length ledger.now.history) }
{
    let _len = ledger.len();
    let row = ledger.graph().edge(key)?;
    Some(carriers[row.birth as usize])
}
