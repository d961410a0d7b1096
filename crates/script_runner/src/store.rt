//! A store: what a script runs against.
ghost use Rattle.std.specs.Prelude.{◌≡◌, ◌+◌, ◌⊎◌, ℕ, min, false, None, IfOk, IfErr, List, length, []};
ghost use Rattle.delf_disk.specs.declared.area.Area.{Area as AnArea};
ghost use Rattle.delf_disk.specs.Areas.{Areas};
ghost use Rattle.delf_disk.specs.Plain.{Plain, SameKind, SameTelling};
ghost use Rattle.delf_model.specs.declared.entry.Entry.{Entry};
ghost use Rattle.delf_model.specs.declared.script.Command.TheVariants.{Crash};
ghost use Rattle.delf_model.specs.Checked.{IsSpellable, numbered};
ghost use Rattle.job_report.specs.Texts.{opened_text};
ghost use Rattle.delf_model.specs.Room.{greatest_moment};
ghost use Rattle.delf_model.specs.Legal.{Legal};
ghost use Rattle.delf_model.specs.Payloads.{Payloads};
ghost use Rattle.store_laws.specs.Stores.{StandBut};
ghost use Rattle.store_laws.specs.Moves.{RestIn};
ghost use Rattle.delf_recovery.specs.Opening.{StandsNow, StaysBad, IsNotBad, IsBadAt};
ghost use Rattle.opening_laws.specs.Places.{BadPlace};
ghost use Rattle.script_runner.specs.Openings.{CountsOpen, LeavesBad, MayGive, Stops};
ghost use Rattle.script_runner.specs.Orders.{Gives};
ghost use Rattle.script_runner.specs.Standing.{Carries};

use crate::graph::{ProgramBook, ProgramGraph};
use delf_disk::Rig;
use delf_model::{GREATEST_MOMENT, Moment, Rules, Schema};
use delf_recovery::{OpenFault, open_book};
use std::alloc::Global;

/// What a script runs against: a book over its disk, and the moment of the clock at which calls are made.
pub(crate) struct Store<R: Rig> {
    pub(crate) book: ProgramBook<R>,
    pub(crate) clock: Moment,
}

impl<R: Rig> Store<R> {
    /// Opens the store that stands on this disk. With `Err` the disk comes back.
    pub(crate) fn open(
        alloc: Global,
        rules: Rules,
        rig: R,
        clock: Moment,
    ) -> Result<Store<R>, (OpenFault, R)>
        ensures rules { IfOk result (λ store. store.book.rules ≡ rules) }
        ensures clock { IfOk result (λ store. store.clock ≡ clock) }
        ensures up { IfOk result (λ store. store.book.down ≡ false) }
        ensures beside { IfOk result (λ store. store.book.beside ≡ None) }
        ensures unclaimed { IfOk result (λ store. store.book.held ≡ []) }
        ensures legal { IfOk result (λ store. Legal store.book.rules store.book.history) }
        ensures found { IfOk result (λ store. Plain (R.Disk.told rig) (R.Disk.honest rig)
            → StandsNow rules store.book.history (R.Disk.seen rig)) }
        ensures opened { IfOk result (λ store. Plain (R.Disk.told rig) (R.Disk.honest rig) → (history : List Entry) (e : Payloads)
            → StandBut rules history e (R.Disk.seen rig)
            → (store.book.history ≡ history) × RestIn rules history e (R.Disk.may_leave store.book.rig)) }
        ensures bad { IfErr result (λ it. Plain (R.Disk.told rig) (R.Disk.honest rig) → IsBadAt rules (R.Disk.seen rig) it.0) }
        ensures never { IfErr result (λ it. Plain (R.Disk.told rig) (R.Disk.honest rig) → (history : List Entry) (e : Payloads)
            → StandBut rules history e (R.Disk.seen rig) → IsNotBad it.0) }
        ensures held { IfErr result (λ it. Plain (R.Disk.told rig) (R.Disk.honest rig) → (history : List Entry) (e : Payloads)
            → StandBut rules history e (R.Disk.seen rig) → (c : Areas) → R.Disk.may_leave it.1 c
            → R.Disk.may_leave rig c ⊎ StandBut rules history e c) }
        ensures held_bad { IfErr result (λ it. Plain (R.Disk.told rig) (R.Disk.honest rig) → (area : AnArea) (at : ℕ)
            → BadPlace rules (R.Disk.seen rig) area at → (c : Areas) → R.Disk.may_leave it.1 c
            → R.Disk.may_leave rig c ⊎ StaysBad rules area at (R.Disk.seen rig) c) }
        ensures leaves { IfErr result (λ it. Plain (R.Disk.told rig) (R.Disk.honest rig)
            → LeavesBad rules (R.Disk.seen rig) (R.Disk.may_leave it.1) it.0) }
        ensures ok_kind { IfOk result (λ store. SameKind R.Disk.told R.Disk.honest R.Disk.order R.Disk.orders rig store.book.rig) }
        ensures err_kind { IfErr result (λ it. SameKind R.Disk.told R.Disk.honest R.Disk.order R.Disk.orders rig it.1) }
        ensures ok_count { IfOk result (λ store. R.Disk.faults store.book.rig ≡ R.Disk.faults rig) }
        ensures err_count { IfErr result (λ it. CountsOpen (R.Disk.faults rig) (R.Disk.faults it.1) it.0) }
    {
        let graph = match ProgramGraph::empty(alloc, &rules) {
            Ok(graph) => graph,
            Err(_) => return Err((OpenFault::OutOfMemory, rig)),
        };
        match open_book(alloc, rules, graph, rig) {
            Ok(book) => Ok(Store { book, clock }),
            Err(fault) => Err(fault),
        }
    }

    /// Raises the moment by so many seconds.
    pub(crate) fn tick(&mut self, seconds: u64)
        ensures clock { self.new.clock ≡ min (self.old.clock + seconds) greatest_moment }
        ensures book { self.new.book ≡ self.old.book }
    {
        self.clock = self.clock.saturating_add(seconds).min(GREATEST_MOMENT);
    }
}

/// Cuts the power, with this choice of what is left, and opens the store again. With `Err` the disk comes back.
pub(crate) fn crash<R: Rig>(
    alloc: Global,
    schema: &Schema,
    store: Store<R>,
    pick: u64,
) -> Result<Store<R>, (OpenFault, R)>
    requires spellable { IsSpellable schema.now }
    requires rules { store.book.rules ≡ numbered schema.now }
    ensures same_rules { IfOk result (λ next. next.book.rules ≡ store.book.rules) }
    ensures serves { IfOk result (λ next. Plain (R.Disk.told store.book.rig) (R.Disk.honest store.book.rig) → (e : Payloads)
        → Carries R.Disk.may_leave R.Disk.faults schema.now (Crash pick) store.book next.book store.clock next.clock e (opened_text (length next.book.history))) }
    ensures stops { IfErr result (λ it. Plain (R.Disk.told store.book.rig) (R.Disk.honest store.book.rig) → (e : Payloads)
        → Stops R.Disk.may_leave (Crash pick) store.book store.clock e it.1 it.0) }
    ensures up { IfOk result (λ next. next.book.down ≡ false) }
    ensures unclaimed { IfOk result (λ next. next.book.held ≡ []) }
    ensures ok_telling { IfOk result (λ next. SameTelling R.Disk.told R.Disk.honest store.book.rig next.book.rig) }
    ensures err_telling { IfErr result (λ it. SameTelling R.Disk.told R.Disk.honest store.book.rig it.1) }
    ensures ok_orders { IfOk result (λ next. Gives (Crash pick) (R.Disk.order store.book.rig) (R.Disk.orders store.book.rig) (R.Disk.order next.book.rig) (R.Disk.orders next.book.rig)) }
    ensures err_orders { IfErr result (λ it. MayGive (Crash pick) (R.Disk.order store.book.rig) (R.Disk.orders store.book.rig) (R.Disk.order it.1) (R.Disk.orders it.1)) }
    ensures ok_count { IfOk result (λ next. R.Disk.faults next.book.rig ≡ R.Disk.faults store.book.rig) }
    ensures err_count { IfErr result (λ it. CountsOpen (R.Disk.faults store.book.rig) (R.Disk.faults it.1) it.0) }
{
    let _len = store.book.len();
    let Store { book, clock } = store;
    let mut rig = book.into_disk();
    let Ok(rules) = Rules::of(alloc, schema) else {
        return Err((OpenFault::OutOfMemory, rig));
    };
    rig.cut_power(pick);
    Store::open(alloc, rules, rig, clock)
}
