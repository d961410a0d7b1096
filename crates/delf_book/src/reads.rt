//! Payloads of the graph.
ghost use Rattle.std.specs.Prelude.{◌≡◌, ◌≤◌, false, ℕ, length, take, drop, is_some, IsTrue, IfOk};
ghost use Rattle.delf_disk.specs.Plain.{Plain, SameKind};
ghost use Rattle.delf_disk.specs.Images.{Same};
ghost use Rattle.delf_disk.specs.Moments.{Runs};
ghost use Rattle.delf_model.specs.declared.TheConstants.{LIMIT};
ghost use Rattle.delf_model.specs.Graph.{object_at, edge_at};
ghost use Rattle.delf_model.specs.Payloads.{payload_at};
ghost use Rattle.delf_book.specs.Books.{state_in, ReadAnswers, CountsFault};
ghost use Rattle.delf_book.specs.Reads.{IsObjectAt, IsEdgeAt};

use crate::answers::BookFault;
use crate::book::Book;
use crate::reading::{read_edge_at, read_object_at};
use delf_disk::{Failed, Rig};
use delf_model::{EdgeKey, GraphStore, LIMIT, ObjectId};

impl<G: GraphStore, R: Rig> Book<G, R> {
    /// Reads the payload of the object to the front of `buf`, and gives its size: one disk call, or none where it is empty.
    pub fn read_object(&mut self, id: ObjectId, buf: &mut [u8]) -> Result<u16, BookFault>
        requires there { IsTrue (is_some (object_at (state_in self.old).graph id)) }
        requires room { LIMIT ≤ length buf.old }

        ensures answer { ReadAnswers self.old self.new result }
        ensures size { IfOk result (λ n. (at : ℕ) × IsObjectAt (object_at (state_in self.old).graph id) at n) }
        ensures payload { IfOk result (λ n. Plain (R.Disk.told self.old.rig) (R.Disk.honest self.old.rig) → (at : ℕ)
            → IsObjectAt (object_at (state_in self.old).graph id) at n → take n buf.new ≡ payload_at self.old.payloads at) }
        ensures rest { IfOk result (λ n. drop n buf.new ≡ drop n buf.old) }
        // Nothing is written: the areas read as before, and each image since the start is one of before.
        ensures seen { Plain (R.Disk.told self.old.rig) (R.Disk.honest self.old.rig) → R.Disk.seen self.new.rig ≡ R.Disk.seen self.old.rig }
        ensures images { Plain (R.Disk.told self.old.rig) (R.Disk.honest self.old.rig)
            → Runs R.Disk.moment R.Disk.may_leave R.Disk.left_since Same self.old.rig self.new.rig }
        ensures kind { SameKind R.Disk.told R.Disk.honest R.Disk.order R.Disk.orders self.old.rig self.new.rig }
        ensures cause { CountsFault (R.Disk.faults self.old.rig) (R.Disk.faults self.new.rig) result }
    {
        if self.down {
            return Err(BookFault::Down {
                len: self.ledger.len(),
            });
        }
        let len = self.ledger.len();
        match read_object_at(&self.ledger, &self.logs, &mut self.rig, id, buf) {
            Ok(size) => Ok(size),
            Err(Failed) => {
                self.down = true;
                Err(BookFault::DiskFault { len })
            }
        }
    }

    /// Reads the payload of the edge to the front of `buf`, and gives its size: one disk call, or none where it is empty.
    pub fn read_edge(&mut self, key: EdgeKey, buf: &mut [u8]) -> Result<u16, BookFault>
        requires there { IsTrue (is_some (edge_at (state_in self.old).graph key)) }
        requires room { LIMIT ≤ length buf.old }

        ensures answer { ReadAnswers self.old self.new result }
        ensures size { IfOk result (λ n. (at : ℕ) × IsEdgeAt (edge_at (state_in self.old).graph key) at n) }
        ensures payload { IfOk result (λ n. Plain (R.Disk.told self.old.rig) (R.Disk.honest self.old.rig) → (at : ℕ)
            → IsEdgeAt (edge_at (state_in self.old).graph key) at n → take n buf.new ≡ payload_at self.old.payloads at) }
        ensures rest { IfOk result (λ n. drop n buf.new ≡ drop n buf.old) }
        // Nothing is written: the areas read as before, and each image since the start is one of before.
        ensures seen { Plain (R.Disk.told self.old.rig) (R.Disk.honest self.old.rig) → R.Disk.seen self.new.rig ≡ R.Disk.seen self.old.rig }
        ensures images { Plain (R.Disk.told self.old.rig) (R.Disk.honest self.old.rig)
            → Runs R.Disk.moment R.Disk.may_leave R.Disk.left_since Same self.old.rig self.new.rig }
        ensures kind { SameKind R.Disk.told R.Disk.honest R.Disk.order R.Disk.orders self.old.rig self.new.rig }
        ensures cause { CountsFault (R.Disk.faults self.old.rig) (R.Disk.faults self.new.rig) result }
    {
        if self.down {
            return Err(BookFault::Down {
                len: self.ledger.len(),
            });
        }
        let len = self.ledger.len();
        match read_edge_at(&self.ledger, &self.logs, &mut self.rig, key, buf) {
            Ok(size) => Ok(size),
            Err(Failed) => {
                self.down = true;
                Err(BookFault::DiskFault { len })
            }
        }
    }
}
