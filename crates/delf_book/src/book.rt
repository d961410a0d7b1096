//! The book: a history with the disk that holds it, and what is read of it without the disk.
ghost use Rattle.std.specs.Prelude.{◌≡◌, ◌≤◌, true, false, None, length, nat_eq, slice_get, take, IfSome};
ghost use Rattle.delf_disk.specs.declared.area.Order.TheVariants.{FailAfter};
ghost use Rattle.delf_disk.specs.Areas.{Areas};
ghost use Rattle.delf_disk.specs.Causes.{Rose};
ghost use Rattle.delf_disk.specs.Plain.{Plain, SameTelling, NextCount};
ghost use Rattle.delf_disk.specs.Images.{Moves, Same};
ghost use Rattle.entry_codec.specs.EntryHead.{AreEntries, IsEntry};
ghost use Rattle.delf_model.specs.Legal.{Legal};
ghost use Rattle.delf_model.specs.Room.{used, owed};
ghost use Rattle.delf_model.specs.Sound.{Sound};
ghost use Rattle.delf_model.specs.State.{owner as owner_of, find_job};
ghost use Rattle.delf_model.specs.Report.{status as status_of, job_at as line_at, listed_at as listed_of, listed_from};
ghost use Rattle.job_table.specs.Table.{IsGraphOf, top_seat as greatest_seat};
ghost use Rattle.ledger.specs.Ledgers.{found};
ghost use Rattle.delf_book.specs.Books.{state_in};
ghost use Rattle.store_laws.specs.Stores.{AreSealed};
ghost use Rattle.delf_book.specs.Holding.{Holds, StandWhole, ArePaired};

use crate::beside::Beside;
use crate::logs::Logs;
use delete_step::Claim;
use delf_disk::Rig;
use delf_model::{GraphStore, Job, JobLine, JobName, Listed, ObjectId, ObjectRow, Rules, Status};
use history_laws::legal_is_sound;
use ledger::Ledger;
use std::marker::Model;
use std::snapshot::Snapshot;

/// A history with the disk that holds it: each accepted call and each step is one entry more.
///
/// A disk fault makes it down, with the history that it had. It keeps the entry that may then stand beside it, and makes
/// no disk call any more.
#[derive(Drop)]
pub struct Book<G: GraphStore, R: Rig> {
    pub(crate) ledger: Ledger<G>,
    pub(crate) logs: Logs,
    pub(crate) claims: Vec<Claim>,
    pub(crate) spare: u32,
    pub(crate) down: bool,
    pub(crate) beside: Option<Beside>,
    // The disk as it was after the last entry, and at the opening.
    pub(crate) rested: Snapshot<R>,
    pub(crate) opened: Snapshot<R>,
    pub(crate) rig: R,
}

impl<G: GraphStore, R: Rig> Model for Book<G, R> {
    ghost use Rattle.std.specs.Prelude.{◌≡◌, true, false, None, vec_len, vec_capacity};
    ghost use Rattle.delf_book.specs.Claims.{room_for, KeepsClaims, AreRead};
    ghost use Rattle.delf_disk.specs.Plain.{Plain};
    ghost use Rattle.delf_book.specs.Books.{Booked};
    ghost use Rattle.delf_model.specs.Step.{after};
    ghost use Rattle.delf_book.specs.Keeping.{KeepsUp, KeepsDown, KeepsPayloads, KeepsOpening, payloads_in};

    ghost Value = { Booked G R };

    ghost view = { λ b. record { rules = b.ledger.rules; history = b.ledger.history; payloads = payloads_in (after b.ledger.rules b.ledger.history) (R.Disk.seen b.rested.value); store = b.ledger.store; held = b.claims.items; spare = b.spare; down = b.down; beside = b.beside; rig = b.rig; opened = b.opened.value } };

    ghost invariant = { λ b. (b.down ≡ false → KeepsUp b.ledger.rules b.ledger.history (room_for b.spare (vec_len b.claims)) b.ledger.spare b.logs.journal b.logs.vault b.logs.carriers.items (vec_capacity b.logs.carriers) (R.Disk.told b.rig) (R.Disk.honest b.rig) (R.Disk.seen b.rig) (R.Disk.may_leave b.rig))
        × (b.down ≡ false → b.beside ≡ None)
        × (b.down ≡ true → Plain (R.Disk.told b.rig) (R.Disk.honest b.rig) → KeepsDown b.ledger.rules b.ledger.history (payloads_in (after b.ledger.rules b.ledger.history) (R.Disk.seen b.rested.value)) b.beside (R.Disk.may_leave b.rig))
        × (Plain (R.Disk.told b.rig) (R.Disk.honest b.rig) → KeepsPayloads b.ledger.rules b.ledger.history (payloads_in (after b.ledger.rules b.ledger.history) (R.Disk.seen b.rested.value)) b.down (R.Disk.seen b.rig) (R.Disk.seen b.opened.value))
        × KeepsOpening R.Disk.told R.Disk.honest R.Disk.faults b.down b.opened.value b.rig
        × KeepsClaims b.ledger.rules b.ledger.history b.ledger.held b.spare b.claims.items (vec_capacity b.claims)
        × (Plain (R.Disk.told b.rig) (R.Disk.honest b.rig) → AreRead (payloads_in (after b.ledger.rules b.ledger.history) (R.Disk.seen b.rested.value)) b.claims.items) };
}

impl<G: GraphStore, R: Rig> Book<G, R> {
    /// The present rules.
    pub fn rules(&self) -> &Rules
        ensures { result.now ≡ self.now.rules }
    {
        self.ledger.rules()
    }

    /// The graph after the history.
    pub fn graph(&self) -> &G
        ensures store { result.now ≡ self.now.store }
        ensures of { IsGraphOf (state_in self.now) (G.graph result.now) (G.counts result.now) self.now.rules }
    {
        self.ledger.graph()
    }

    /// The length of the history, which is a legal one, and sound.
    pub fn len(&self) -> u32
        ensures value { result ≡ length self.now.history }
        ensures below { result ≤ 500000 }
        ensures legal { Legal self.now.rules self.now.history }
        ensures entries { AreEntries self.now.history }
        ensures sound { Sound self.now.rules self.now.history }
        // What stands beside it has a spelling too.
        ensures beside { IfSome self.now.beside (λ it. IsEntry it.entry) }
    {
        legal_is_sound();
        match &self.beside {
            Some(beside) => {
                let _spelled = beside.entry();
                self.ledger.len()
            }
            None => self.ledger.len(),
        }
    }

    /// Whether the history is blank.
    pub fn is_empty(&self) -> bool
        ensures { result ≡ nat_eq (length self.now.history) 0 }
    {
        self.ledger.is_empty()
    }

    /// Whether a disk fault was answered since the book was opened.
    pub fn is_down(&self) -> bool
        ensures { result ≡ self.now.down }
    {
        self.down
    }

    /// Tells what the disk holds. Each image stands for the history and its payloads, or while the book is down, for
    /// those or for them with the entry beside them. While it is up nothing is beside it, and both areas hold nothing more
    /// but closed tails. Where they stood whole at the opening, each payload that the restoration log carries is the one
    /// that was sealed. Whatever the disk tells, the payloads are those of the needed positions, one each.
    pub fn standing(&self)
        ensures alone { self.now.down ≡ false → self.now.beside ≡ None }
        ensures holds { Plain (R.Disk.told self.now.rig) (R.Disk.honest self.now.rig) → Holds R.Disk.seen R.Disk.may_leave self.now }
        ensures sealed { Plain (R.Disk.told self.now.rig) (R.Disk.honest self.now.rig) → StandWhole self.now.rules (R.Disk.seen self.now.opened)
            → AreSealed self.now.rules self.now.history self.now.payloads }
        // Each position that the history needs has one payload, and no other has any.
        ensures paired { ArePaired (state_in self.now) self.now.payloads }
        // The disk is of the kind that it was at the opening, and only a book that met a fault is down.
        ensures telling { SameTelling R.Disk.told R.Disk.honest self.now.opened self.now.rig }
        ensures later { R.Disk.faults self.now.opened ≤ R.Disk.faults self.now.rig }
        ensures fell { self.now.down ≡ true → Rose (R.Disk.faults self.now.opened) (R.Disk.faults self.now.rig) }
    {
        // The length tells that the history is legal.
        let _len = self.ledger.len();
    }

    /// The number of entries, and of those that may still be owed.
    pub fn room(&self) -> (u32, u32)
        ensures { result ≡ (used (state_in self.now), owed (state_in self.now)) }
    {
        self.ledger.room()
    }

    /// The greatest seat of a tag in the history, 0 where there is none.
    pub fn top_seat(&self) -> u32
        ensures { result ≡ greatest_seat (state_in self.now) }
    {
        self.ledger.top_seat()
    }

    /// The object with its owner.
    pub fn get(&self, id: ObjectId) -> Option<(ObjectRow, Option<Job>)>
        ensures { result ≡ found (state_in self.now) id }
    {
        self.ledger.get(id)
    }

    /// The job that owns the object.
    pub fn owner(&self, id: ObjectId) -> Option<Job>
        ensures { result ≡ owner_of (state_in self.now) id }
    {
        self.ledger.owner(id)
    }

    /// The job that the name means: the latest one that has it.
    pub fn find(&self, name: JobName) -> Option<Job>
        ensures { result ≡ find_job (state_in self.now).jobs name }
    {
        self.ledger.find(name)
    }

    /// The status of the job that the name means.
    pub fn status(&self, name: JobName) -> Status
        ensures value { result ≡ status_of (state_in self.now) name }
        ensures sound { Sound self.now.rules self.now.history }
    {
        let _len = self.len();
        self.ledger.status(name)
    }

    /// The line of the job at this place, by age.
    pub fn job_at(&self, i: u32) -> Option<JobLine>
        ensures value { result ≡ line_at (state_in self.now) i }
        ensures sound { Sound self.now.rules self.now.history }
    {
        let _len = self.len();
        self.ledger.job_at(i)
    }

    /// The listed item of the job at this place, by falling item number.
    pub fn listed_at(&self, job: Job, i: u32) -> Option<Listed>
        ensures value { result ≡ listed_of (state_in self.now) job i }
        ensures sound { Sound self.now.rules self.now.history }
    {
        let _len = self.len();
        self.ledger.listed_at(job, i)
    }

    /// The listed item of the job with the greatest number below this one. All listed items of a job, each read below the
    /// one before, cost one pass over where its items stand.
    pub fn listed_before(&self, job: Job, below: u32) -> Option<Listed>
        ensures value { result ≡ slice_get (listed_from job 0 (take below (state_in self.now).items)) 0 }
        ensures sound { Sound self.now.rules self.now.history }
    {
        let _len = self.len();
        self.ledger.listed_before(job, below)
    }

    /// Lets the `n`-th disk call from now fail, in place of one that was to fail by an earlier order. At 0 no call fails
    /// by it.
    pub fn fail_after(&mut self, n: u32)
        ensures same { self.new ≡ record self.old { rig = self.new.rig } }
        ensures seen { Plain (R.Disk.told self.old.rig) (R.Disk.honest self.old.rig) → R.Disk.seen self.new.rig ≡ R.Disk.seen self.old.rig }
        ensures images { Plain (R.Disk.told self.old.rig) (R.Disk.honest self.old.rig)
            → Moves Same (R.Disk.moment self.old.rig) (R.Disk.moment self.new.rig) (R.Disk.may_leave self.old.rig) (R.Disk.may_leave self.new.rig) (R.Disk.left_since self.old.rig) (R.Disk.left_since self.new.rig) }
        ensures none_lost { Plain (R.Disk.told self.old.rig) (R.Disk.honest self.old.rig) → (c : Areas) → R.Disk.may_leave self.old.rig c → R.Disk.may_leave self.new.rig c }
        ensures telling { SameTelling R.Disk.told R.Disk.honest self.old.rig self.new.rig }
        ensures count { R.Disk.faults self.new.rig ≡ R.Disk.faults self.old.rig }
        ensures fuse { R.Disk.fuse self.new.rig ≡ n }
        ensures order { R.Disk.order self.new.rig ≡ FailAfter n }
        ensures orders { NextCount (R.Disk.orders self.old.rig) (R.Disk.orders self.new.rig) }
    {
        self.rig.fail_after(n);
    }
}

impl<G: GraphStore + Drop, R: Rig> Book<G, R> {
    /// The disk.
    pub fn into_disk(self) -> R
        ensures { result ≡ self.rig }
    {
        let Book {
            ledger: _,
            logs: _,
            claims: _,
            spare: _,
            down: _,
            beside: _,
            rested: _,
            opened: _,
            rig,
        } = self;
        rig
    }
}
