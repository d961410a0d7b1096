//! A book without its disk, made entry by entry from the records of an area.
ghost use Rattle.std.specs.Prelude.{◌≡◌, ◌≤◌, ◌&&◌, length, nat_eq, true, false, [], None, IfOk, OnErr, Ok};
ghost use Rattle.delf_disk.specs.Plain.{Plain};
ghost use Rattle.entry_codec.specs.EntryHead.{AreEntries};
ghost use Rattle.delf_model.specs.Legal.{Legal, is_legal};
ghost use Rattle.job_table.specs.Table.{IsGraphOf, item_at as item_of};
ghost use Rattle.delf_book.specs.Keeping.{KeepsLogs, KeepsAreas, payloads_in};
ghost use Rattle.ledger.specs.Ledgers.{state_of, record_size, IsSame, HasEntered};
ghost use Rattle.delf_book.specs.Reads.{TellsLive};

use crate::book::Book;
use crate::carried::{keeps, take};
use crate::logs::Logs;
use delete_step::Claim;
use delf_disk::{Area, Rig};
use delf_model::{Entry, GraphStore, Item, Rules};
use gate_log::GateLog;
use ledger::Ledger;
use std::alloc::AllocError;
use std::marker::Model;
use std::snapshot::Snapshot;
use vault::Vault;

/// A book without its disk that is made entry by entry, from records whose entries may not be legal. It is seen as a
/// ledger.
#[derive(Drop)]
pub struct Fold<G: GraphStore> {
    pub(crate) ledger: Ledger<G>,
    pub(crate) carriers: Vec<u32>,
    pub(crate) claims: Vec<Claim>,
}

impl<G: GraphStore> Model for Fold<G> {
    ghost use Rattle.delf_book.specs.Keeping.{KeepsCarriers};
    ghost use Rattle.ledger.specs.Ledgers.{Ledgered};

    ghost Value = { Ledgered G };

    ghost view = { λ f. f.ledger };

    ghost use Rattle.std.specs.Prelude.{◌≡◌, []};

    ghost invariant = { λ f. KeepsCarriers f.ledger.rules f.ledger.history f.carriers.items × (f.ledger.held ≡ []) × (f.claims.items ≡ []) };
}

impl<G: GraphStore> Fold<G> {
    /// Takes the entry of a record whose payload has this size, and tells whether it does: false exactly where the entry
    /// is not legal at the end of the history, or the size is not the one of its record. The only error is want of
    /// memory; after it, and after false, the history stays.
    pub fn take(&mut self, entry: &Entry, size: u16) -> Result<bool, AllocError>
        ensures exact { IfOk result (λ taken. taken ≡ (is_legal (state_of self.old) entry.now && nat_eq size (record_size (state_of self.old) entry.now.what))) }
        ensures taken { result ≡ Ok true → HasEntered self.old self.new entry.now }
        ensures refused { result ≡ Ok false → IsSame self.old self.new }
        ensures err { OnErr result (IsSame self.old self.new) }
    {
        if !self.ledger.fits(entry, size) {
            return Ok(false);
        }
        take(&mut self.ledger, &mut self.carriers, entry)?;
        Ok(true)
    }

    /// The length of the history.
    pub fn len(&self) -> u32
        ensures value { result ≡ length self.now.history }
        ensures below { result ≤ 500000 }
        ensures legal { Legal self.now.rules self.now.history }
        ensures spelled { AreEntries self.now.history }
    {
        self.ledger.len()
    }

    /// Whether the history is blank.
    pub fn is_empty(&self) -> bool
        ensures { result ≡ nat_eq (length self.now.history) 0 }
    {
        self.ledger.is_empty()
    }

    /// The rules.
    pub fn rules(&self) -> &Rules
        ensures { result.now ≡ self.now.rules }
    {
        self.ledger.rules()
    }

    /// The graph after the history.
    pub fn graph(&self) -> &G
        ensures store { result.now ≡ self.now.store }
        ensures of { IsGraphOf (state_of self.now) (G.graph result.now) (G.counts result.now) self.now.rules }
    {
        self.ledger.graph()
    }

    /// The item with this number.
    pub fn item_at(&self, i: u32) -> Option<Item>
        ensures { result ≡ item_of (state_of self.now) i }
    {
        self.ledger.item_at(i)
    }

    /// Whether record `i` of the area is the last carrier of a needed payload. Takes no memory, and looks up one row.
    pub fn keeps(&self, area: Area, i: u32) -> bool
        ensures { TellsLive (state_of self.now) area i result }
    {
        keeps(&self.ledger, &self.carriers, area, i)
    }

    /// An up book over these logs and this disk, with the history of the fold, and no room kept. Takes no memory.
    pub fn into_book<R: Rig>(self, journal: GateLog, vault: Vault, rig: R) -> Book<G, R>
        requires logs { KeepsLogs self.rules self.history journal vault }
        requires areas { Plain (R.Disk.told rig) (R.Disk.honest rig)
            → KeepsAreas self.rules self.history (R.Disk.seen rig) (R.Disk.may_leave rig) }
        ensures rules { result.rules ≡ self.rules }
        ensures history { result.history ≡ self.history }
        ensures store { result.store ≡ self.store }
        ensures held { result.held ≡ [] }
        ensures spare { result.spare ≡ 0 }
        ensures up { result.down ≡ false }
        ensures beside { result.beside ≡ None }
        ensures rig { result.rig ≡ rig }
        ensures opened { result.opened ≡ rig }
        ensures payloads { result.payloads ≡ payloads_in (state_of self) (R.Disk.seen rig) }
    {
        let Fold {
            ledger,
            carriers,
            claims,
        } = self;
        // The length tells that the history is legal.
        let _len = ledger.len();
        let rested = Snapshot::of(&rig);
        let opened = Snapshot::of(&rig);
        Book {
            ledger,
            logs: Logs {
                journal,
                vault,
                carriers,
            },
            claims,
            spare: 0,
            down: false,
            beside: None,
            rested,
            opened,
            rig,
        }
    }
}
