//! The log, with the place of each record.
ghost use Rattle.std.specs.Prelude.{◌≡◌, ◌+◌, ◌-◌, ◌^◌, ◌≤◌, ◌<◌, [], ◌∷◌, ◌++◌, ℕ, true, false, length, take, drop, IfOk, IfErr, OnOk, OnErr, vec_len};
ghost use Rattle.delf_disk.specs.Areas.{area_of};
ghost use Rattle.delf_disk.specs.Images.{Torn, Same, Only};
ghost use Rattle.delf_disk.specs.Causes.{HasCause};
ghost use Rattle.delf_disk.specs.Plain.{Plain, SameKind};
ghost use Rattle.delf_disk.specs.Moments.{Runs};
ghost use Rattle.gate_log.specs.Logs.{StandIn, Fronts};
ghost use Rattle.gate_log.specs.declared.fault.LogFault.TheVariants.{NotOurs, Broken};
ghost use Rattle.gate_log.specs.Opening.{IsForeign, IsBroken, BreaksOff, Starts, Shows, ShowsFront, OnlyFault, CountsFailure};
ghost use Rattle.gate_log.specs.Steps.{MayAdd, Adds, HeadRead, FrontHeadRead, PayloadRead, MayScrub, Scrubs, MayDrop, Drops, MaySettle, Settles};
ghost use Rattle.gate_log.specs.Places.{AreTied, sizes_at, size_in, gate_from};
ghost use Rattle.gate_log.specs.Unsynced.{LosesNone};

use crate::begin::{BLANK, FIRST_GATE, begin};
use crate::close::close;
use crate::commit::commit;
use crate::fault::LogFault;
use crate::front::Front;
use crate::line::lay;
use crate::scan::{Place, find, find_front};
use crate::wipe::{wipe, wipe_tail};
use delf_disk::{Area, Disk, Failed};
use std::alloc::{AllocError, Global};
use std::marker::Model;

/// The length of the longest line: a head of 128 bytes and a payload of 65,535, with both lengths and the gate behind.
const LONGEST_LINE: usize = 4 + 2 + 128 + 65_535 + 1;

/// No record may end so far from the start of an area.
const FARTHEST_END: u64 = 1 << 63;

/// The records of one area. Of each it keeps the place and the lengths, and no bytes.
///
/// A call that answers `Failed` leaves the area as its `any_moment` says, and the log is then of no more use:
/// start another one.
#[derive(Drop)]
pub struct GateLog {
    area: Area,
    places: Vec<Place>,
    end: u64,
    spare: u32,
    line: Vec<u8>,
}

impl Model for GateLog {
    ghost use Rattle.gate_log.specs.View.{LogView};

    ghost Value = { LogView };

    ghost use Rattle.gate_log.specs.Sound.{view_of, IsSound};

    ghost view = { view_of };

    ghost invariant = { IsSound };
}

impl GateLog {
    /// Starts the log of an area. An area of at most nine bytes holds no record: it is given the mark and a closed
    /// gate, and they are synced. A longer one is read in pieces, and neither written nor synced.
    ///
    /// The records of the log are those up to the first closed gate. Memory is taken for their places alone.
    pub fn start<D: Disk>(
        alloc: Global,
        disk: &mut D,
        area: Area,
        mark: [u8; 8],
    ) -> Result<GateLog, LogFault>
        ensures area { IfOk result (λ log. log.area ≡ area) }
        ensures starts { IfOk result (λ log. Plain (D.told disk.old) (D.honest disk.old)
            → Starts area mark log.sizes (D.seen disk.old) (D.seen disk.new)) }

        // `NotOurs` and `Broken` come exactly where the area shows it, unless the disk failed or memory was wanting.
        ensures foreign { Plain (D.told disk.old) (D.honest disk.old) → IsForeign mark (area_of area (D.seen disk.old))
            → OnlyFault NotOurs result }
        ensures broken { Plain (D.told disk.old) (D.honest disk.old) → (at : ℕ) → IsBroken mark (area_of area (D.seen disk.old)) at
            → OnlyFault (Broken at) result }
        ensures fault { IfErr result (λ fault. Plain (D.told disk.old) (D.honest disk.old)
            → Shows mark (area_of area (D.seen disk.old)) fault) }

        ensures durable { OnOk result (Plain (D.told disk.old) (D.honest disk.old)
            → Only (D.seen disk.old) (D.may_leave disk.old) → Only (D.seen disk.new) (D.may_leave disk.new)) }
        ensures stands { IfOk result (λ log. Plain (D.told disk.old) (D.honest disk.old)
            → Only (D.seen disk.old) (D.may_leave disk.old) → StandIn area log.sizes (D.may_leave disk.new)) }

        // A crash leaves a blank area blank until it has answered, and a longer one as it was.
        ensures any_moment_blank { Plain (D.told disk.old) (D.honest disk.old) → length (area_of area (D.seen disk.old)) ≤ 9
            → Runs D.moment D.may_leave D.left_since (Torn area 0 9) disk.old disk.new }
        ensures any_moment { Plain (D.told disk.old) (D.honest disk.old) → 9 < length (area_of area (D.seen disk.old))
            → Runs D.moment D.may_leave D.left_since Same disk.old disk.new }
        ensures none_lost { Plain (D.told disk.old) (D.honest disk.old) → 9 < length (area_of area (D.seen disk.old))
            → LosesNone D.moment D.may_leave D.left_since disk.old disk.new }
        ensures unwritten { Plain (D.told disk.old) (D.honest disk.old) → 9 < length (area_of area (D.seen disk.old))
            → D.seen disk.new ≡ D.seen disk.old }

        ensures kind { SameKind D.told D.honest D.order D.orders disk.old disk.new }
        ensures cause { CountsFailure (D.faults disk.old) (D.faults disk.new) result }
    {
        let len = disk.len(area)?;
        if len <= BLANK {
            begin(disk, area, &mark)?;
            return Ok(Self::over(alloc, area, Vec::new(alloc), FIRST_GATE));
        }
        let scan = find(alloc, disk, area, &mark, len)?;
        Ok(Self::over(alloc, area, scan.places, scan.end))
    }

    /// Starts the log of an area as `start` does, but of one that breaks off it gives the records before the broken gate:
    /// that is the one behind which there is no record with its gate.
    pub fn start_front<D: Disk>(
        alloc: Global,
        disk: &mut D,
        area: Area,
        mark: [u8; 8],
    ) -> Result<Front, LogFault>
        ensures area { IfOk result (λ front. front.log.area ≡ area) }
        ensures starts { IfOk result (λ front. front.whole ≡ true → Plain (D.told disk.old) (D.honest disk.old)
            → Starts area mark front.log.sizes (D.seen disk.old) (D.seen disk.new)) }
        ensures breaks { IfOk result (λ front. front.whole ≡ false → Plain (D.told disk.old) (D.honest disk.old)
            → BreaksOff mark front.log.sizes (area_of area (D.seen disk.old))) }
        ensures fault { IfErr result (λ fault. Plain (D.told disk.old) (D.honest disk.old)
            → ShowsFront mark (area_of area (D.seen disk.old)) fault) }

        ensures durable { OnOk result (Plain (D.told disk.old) (D.honest disk.old)
            → Only (D.seen disk.old) (D.may_leave disk.old) → Only (D.seen disk.new) (D.may_leave disk.new)) }

        // A crash leaves a blank area blank until it has answered, and a longer one as it was.
        ensures any_moment_blank { Plain (D.told disk.old) (D.honest disk.old) → length (area_of area (D.seen disk.old)) ≤ 9
            → Runs D.moment D.may_leave D.left_since (Torn area 0 9) disk.old disk.new }
        ensures any_moment { Plain (D.told disk.old) (D.honest disk.old) → 9 < length (area_of area (D.seen disk.old))
            → Runs D.moment D.may_leave D.left_since Same disk.old disk.new }
        ensures none_lost { Plain (D.told disk.old) (D.honest disk.old) → 9 < length (area_of area (D.seen disk.old))
            → LosesNone D.moment D.may_leave D.left_since disk.old disk.new }
        ensures unwritten { Plain (D.told disk.old) (D.honest disk.old) → 9 < length (area_of area (D.seen disk.old))
            → D.seen disk.new ≡ D.seen disk.old }

        ensures kind { SameKind D.told D.honest D.order D.orders disk.old disk.new }
        ensures cause { CountsFailure (D.faults disk.old) (D.faults disk.new) result }
    {
        let len = disk.len(area)?;
        if len <= BLANK {
            begin(disk, area, &mark)?;
            let log = Self::over(alloc, area, Vec::new(alloc), FIRST_GATE);
            return Ok(Front { log, whole: true });
        }
        let scan = find_front(alloc, disk, area, &mark, len)?;
        let whole = scan.whole;
        let log = Self::over(alloc, area, scan.places, scan.end);
        Ok(Front { log, whole })
    }

    fn over(alloc: Global, area: Area, places: Vec<Place>, end: u64) -> Self
        requires tied { AreTied places.items end }
        requires count { vec_len places < 2 ^ 32 }
        requires reach { end < 2 ^ 62 }
        ensures area { result.area ≡ area }
        ensures sizes { result.sizes ≡ sizes_at places.items }
    {
        GateLog {
            area,
            places,
            end,
            spare: 0,
            line: Vec::new(alloc),
        }
    }

    /// Adds a record with this head and payload: all but its gate, a sync, its gate, a sync. It takes no memory.
    pub fn append<D: Disk>(
        &mut self,
        disk: &mut D,
        head: &[u8],
        payload: &[u8],
    ) -> Result<(), Failed>
        requires spare { 0 < self.old.spare }
        requires head { length head.now ≤ 128 }
        requires payload { length payload.now ≤ 65535 }
        requires stands { Plain (D.told disk.old) (D.honest disk.old) → StandIn self.old.area self.old.sizes (D.may_leave disk.old) }

        ensures area { self.new.area ≡ self.old.area }
        ensures sizes { OnOk result (self.new.sizes ≡ self.old.sizes ++ (length head.now, length payload.now) ∷ []) }
        ensures sizes_err { OnErr result (self.new.sizes ≡ self.old.sizes) }
        ensures spare { self.old.spare ≤ self.new.spare + 1 }

        ensures added { OnOk result (Plain (D.told disk.old) (D.honest disk.old)
            → Adds self.old.area self.old.sizes head.now payload.now (D.seen disk.old) (D.seen disk.new)) }
        ensures durable { OnOk result (Plain (D.told disk.old) (D.honest disk.old)
            → Only (D.seen disk.new) (D.may_leave disk.new)) }
        ensures stands { OnOk result (Plain (D.told disk.old) (D.honest disk.old)
            → StandIn self.new.area self.new.sizes (D.may_leave disk.new)) }

        // A crash at any moment leaves the records as they were, or with this one more.
        ensures any_moment { Plain (D.told disk.old) (D.honest disk.old)
            → Runs D.moment D.may_leave D.left_since (MayAdd self.old.area self.old.sizes head.now payload.now) disk.old disk.new }

        ensures kind { SameKind D.told D.honest D.order D.orders disk.old disk.new }
        ensures cause { HasCause (D.faults disk.old) (D.faults disk.new) result }
    {
        lay(&mut self.line, head, payload);
        commit(disk, self.area, self.end, &self.line)?;
        self.places.push_reserved(Place {
            gate: self.end,
            head: head.len() as u16,
            payload: payload.len() as u32,
        });
        self.end += self.line.len() as u64;
        self.spare -= 1;
        Ok(())
    }

    /// How many records there are.
    pub fn count(&self) -> u32
        ensures { result ≡ length self.now.sizes }
    {
        self.places.len() as u32
    }

    /// The lengths of the head and of the payload of record `i`, in bytes.
    pub fn sizes(&self, i: u32) -> (u32, u32)
        requires { i < length self.now.sizes }
        ensures { result ≡ size_in self.now.sizes i }
    {
        let place = self.places[i as usize];
        (u32::from(place.head), place.payload)
    }

    /// The place of the gate of record `i`; where that is the number of records, of the gate behind them.
    pub fn gate(&self, i: u32) -> u64
        requires { i ≤ length self.now.sizes }
        ensures { result ≡ gate_from 8 self.now.sizes i }
    {
        let i = i as usize;
        if i < self.places.len() {
            self.places[i].gate
        } else {
            self.end
        }
    }

    /// Makes room for `n` more records. No other call than `start` takes memory.
    pub fn reserve(&mut self, n: u32) -> Result<(), AllocError>
        ensures area { self.new.area ≡ self.old.area }
        ensures sizes { self.new.sizes ≡ self.old.sizes }
        ensures room { OnOk result (n ≤ self.new.spare) }
        ensures spare { self.old.spare ≤ self.new.spare }
    {
        if n <= self.spare {
            return Ok(());
        }
        if self.places.len() + n as usize > u32::MAX as usize {
            return Err(AllocError);
        }
        if self.end + u64::from(n) * LONGEST_LINE as u64 >= FARTHEST_END {
            return Err(AllocError);
        }
        self.places.reserve(n as usize)?;
        self.line.reserve(LONGEST_LINE)?;
        self.spare = n;
        Ok(())
    }

    /// Reads the head of record `i` to the front of `buf`, and gives its length.
    pub fn read_head<D: Disk>(
        &self,
        disk: &mut D,
        i: u32,
        buf: &mut [u8; 128],
    ) -> Result<u16, Failed>
        requires inside { i < length self.now.sizes }
        requires fits { (size_in self.now.sizes i).0 ≤ 128 }
        requires stands { Plain (D.told disk.old) (D.honest disk.old) → StandIn self.now.area self.now.sizes (D.may_leave disk.old) }

        ensures length { IfOk result (λ n. n ≡ (size_in self.now.sizes i).0) }
        ensures head { IfOk result (λ n. Plain (D.told disk.old) (D.honest disk.old)
            → HeadRead self.now.area self.now.sizes i (D.seen disk.old) (take n buf.new)) }
        ensures rest { IfOk result (λ n. drop n buf.new ≡ drop n buf.old) }

        ensures stands { Plain (D.told disk.old) (D.honest disk.old) → StandIn self.now.area self.now.sizes (D.may_leave disk.new) }
        ensures seen { Plain (D.told disk.old) (D.honest disk.old) → D.seen disk.new ≡ D.seen disk.old }
        ensures any_moment { Plain (D.told disk.old) (D.honest disk.old)
            → Runs D.moment D.may_leave D.left_since Same disk.old disk.new }
        ensures none_lost { Plain (D.told disk.old) (D.honest disk.old)
            → LosesNone D.moment D.may_leave D.left_since disk.old disk.new }
        ensures kind { SameKind D.told D.honest D.order D.orders disk.old disk.new }
        ensures cause { HasCause (D.faults disk.old) (D.faults disk.new) result }
    {
        let span = self.head_span(i);
        disk.read(self.area, span.at, &mut buf[..span.len as usize])?;
        Ok(span.len as u16)
    }

    /// Reads the head of record `i` as `read_head` does, also of an area that breaks off behind the records.
    pub fn read_front_head<D: Disk>(
        &self,
        disk: &mut D,
        i: u32,
        buf: &mut [u8; 128],
    ) -> Result<u16, Failed>
        requires inside { i < length self.now.sizes }
        requires fits { (size_in self.now.sizes i).0 ≤ 128 }
        requires fronts { Plain (D.told disk.old) (D.honest disk.old) → Fronts self.now.area self.now.sizes (D.seen disk.old) }

        ensures length { IfOk result (λ n. n ≡ (size_in self.now.sizes i).0) }
        ensures head { IfOk result (λ n. Plain (D.told disk.old) (D.honest disk.old)
            → FrontHeadRead self.now.area self.now.sizes i (D.seen disk.old) (take n buf.new)) }

        ensures seen { Plain (D.told disk.old) (D.honest disk.old) → D.seen disk.new ≡ D.seen disk.old }
        ensures any_moment { Plain (D.told disk.old) (D.honest disk.old)
            → Runs D.moment D.may_leave D.left_since Same disk.old disk.new }
        ensures none_lost { Plain (D.told disk.old) (D.honest disk.old)
            → LosesNone D.moment D.may_leave D.left_since disk.old disk.new }
        ensures kind { SameKind D.told D.honest D.order D.orders disk.old disk.new }
        ensures cause { HasCause (D.faults disk.old) (D.faults disk.new) result }
    {
        let head = self.head_span(i);
        disk.read(self.area, head.at, &mut buf[..head.len as usize])?;
        Ok(head.len as u16)
    }

    /// Reads the payload of record `i` to the front of `buf`, and gives its length. It makes no disk call where the
    /// payload is empty.
    pub fn read_payload<D: Disk>(&self, disk: &mut D, i: u32, buf: &mut [u8]) -> Result<u16, Failed>
        requires inside { i < length self.now.sizes }
        requires fits { (size_in self.now.sizes i).1 ≤ length buf.old }
        requires short { (size_in self.now.sizes i).1 ≤ 65535 }
        requires stands { Plain (D.told disk.old) (D.honest disk.old) → StandIn self.now.area self.now.sizes (D.may_leave disk.old) }

        ensures length { IfOk result (λ n. n ≡ (size_in self.now.sizes i).1) }
        ensures payload { IfOk result (λ n. Plain (D.told disk.old) (D.honest disk.old)
            → PayloadRead self.now.area self.now.sizes i (D.seen disk.old) (take n buf.new)) }
        ensures rest { IfOk result (λ n. drop n buf.new ≡ drop n buf.old) }

        ensures stands { Plain (D.told disk.old) (D.honest disk.old) → StandIn self.now.area self.now.sizes (D.may_leave disk.new) }
        ensures seen { Plain (D.told disk.old) (D.honest disk.old) → D.seen disk.new ≡ D.seen disk.old }
        ensures any_moment { Plain (D.told disk.old) (D.honest disk.old)
            → Runs D.moment D.may_leave D.left_since Same disk.old disk.new }
        ensures none_lost { Plain (D.told disk.old) (D.honest disk.old)
            → LosesNone D.moment D.may_leave D.left_since disk.old disk.new }
        ensures kind { SameKind D.told D.honest D.order D.orders disk.old disk.new }
        ensures cause { HasCause (D.faults disk.old) (D.faults disk.new) result }
    {
        let span = self.payload_span(i);
        if span.len == 0 {
            return Ok(0);
        }
        disk.read(self.area, span.at, &mut buf[..span.len as usize])?;
        Ok(span.len as u16)
    }

    /// Writes zeros over the payload of record `i`, without a sync: one write, or none where it is empty, and one
    /// more for each further 65,536 bytes.
    pub fn scrub<D: Disk>(&mut self, disk: &mut D, i: u32) -> Result<(), Failed>
        requires inside { i < length self.old.sizes }
        requires stands { Plain (D.told disk.old) (D.honest disk.old) → StandIn self.old.area self.old.sizes (D.may_leave disk.old) }

        ensures area { self.new.area ≡ self.old.area }
        ensures sizes { self.new.sizes ≡ self.old.sizes }
        ensures spare { self.old.spare ≤ self.new.spare }

        ensures scrubbed { OnOk result (Plain (D.told disk.old) (D.honest disk.old)
            → Scrubs self.old.area self.old.sizes i (D.seen disk.old) (D.seen disk.new)) }

        // A crash at any moment, and until a sync, may leave any bytes in that payload, and changes nothing else.
        ensures any_moment { Plain (D.told disk.old) (D.honest disk.old)
            → Runs D.moment D.may_leave D.left_since (MayScrub self.old.area self.old.sizes i) disk.old disk.new }
        ensures stands { Plain (D.told disk.old) (D.honest disk.old) → StandIn self.new.area self.new.sizes (D.may_leave disk.new) }

        ensures kind { SameKind D.told D.honest D.order D.orders disk.old disk.new }
        ensures cause { HasCause (D.faults disk.old) (D.faults disk.new) result }
    {
        let span = self.payload_span(i);
        wipe(disk, self.area, span.at, span.len)
    }

    /// Closes the gate of the last record, and syncs.
    pub fn drop_last<D: Disk>(&mut self, disk: &mut D) -> Result<(), Failed>
        requires some { 0 < length self.old.sizes }
        requires stands { Plain (D.told disk.old) (D.honest disk.old) → StandIn self.old.area self.old.sizes (D.may_leave disk.old) }

        ensures area { self.new.area ≡ self.old.area }
        ensures sizes { OnOk result (self.new.sizes ≡ take (length self.old.sizes - 1) self.old.sizes) }
        ensures sizes_err { OnErr result (self.new.sizes ≡ self.old.sizes) }
        ensures spare { self.old.spare ≤ self.new.spare }

        ensures dropped { OnOk result (Plain (D.told disk.old) (D.honest disk.old)
            → Drops self.old.area self.old.sizes (D.seen disk.old) (D.seen disk.new)) }
        ensures durable { OnOk result (Plain (D.told disk.old) (D.honest disk.old)
            → Only (D.seen disk.new) (D.may_leave disk.new)) }
        ensures stands { OnOk result (Plain (D.told disk.old) (D.honest disk.old)
            → StandIn self.new.area self.new.sizes (D.may_leave disk.new)) }

        // A crash at any moment leaves the records as they were, or without the last one.
        ensures any_moment { Plain (D.told disk.old) (D.honest disk.old)
            → Runs D.moment D.may_leave D.left_since (MayDrop self.old.area self.old.sizes) disk.old disk.new }

        ensures kind { SameKind D.told D.honest D.order D.orders disk.old disk.new }
        ensures cause { HasCause (D.faults disk.old) (D.faults disk.new) result }
    {
        let kept = self.places.len() - 1;
        let gate = self.places[kept].gate;
        close(disk, self.area, gate)?;
        self.places.truncate(kept);
        self.end = gate;
        Ok(())
    }

    /// Writes zeros from the byte behind the closed gate to the end of the area, and syncs. It does not write the
    /// closed gate, which a torn write could open.
    pub fn settle<D: Disk>(&mut self, disk: &mut D) -> Result<(), Failed>
        requires { Plain (D.told disk.old) (D.honest disk.old) → StandIn self.old.area self.old.sizes (D.may_leave disk.old) }

        ensures area { self.new.area ≡ self.old.area }
        ensures sizes { self.new.sizes ≡ self.old.sizes }
        ensures spare { self.old.spare ≤ self.new.spare }

        ensures settled { OnOk result (Plain (D.told disk.old) (D.honest disk.old)
            → Settles self.old.area self.old.sizes (D.seen disk.old) (D.seen disk.new)) }
        ensures durable { OnOk result (Plain (D.told disk.old) (D.honest disk.old)
            → Only (D.seen disk.new) (D.may_leave disk.new)) }

        // A crash at any moment leaves the records and the closed gate, and any bytes behind it.
        ensures any_moment { Plain (D.told disk.old) (D.honest disk.old)
            → Runs D.moment D.may_leave D.left_since (MaySettle self.old.area self.old.sizes) disk.old disk.new }
        ensures stands { Plain (D.told disk.old) (D.honest disk.old) → StandIn self.new.area self.new.sizes (D.may_leave disk.new) }

        ensures kind { SameKind D.told D.honest D.order D.orders disk.old disk.new }
        ensures cause { HasCause (D.faults disk.old) (D.faults disk.new) result }
    {
        wipe_tail(disk, self.area, self.end)?;
        disk.sync()
    }

    fn head_span(&self, i: u32) -> Span
        requires { i < length self.now.sizes }
        ensures at { result.at ≡ gate_from 8 self.now.sizes i + 7 }
        ensures len { result.len ≡ (size_in self.now.sizes i).0 }
        ensures reach { result.at + result.len < 2 ^ 63 }
    {
        let place = self.places[i as usize];
        Span {
            at: place.gate + 7,
            len: u64::from(place.head),
        }
    }

    fn payload_span(&self, i: u32) -> Span
        requires { i < length self.now.sizes }
        ensures at { result.at ≡ gate_from 8 self.now.sizes i + 7 + (size_in self.now.sizes i).0 }
        ensures len { result.len ≡ (size_in self.now.sizes i).1 }
        ensures reach { result.at + result.len < 2 ^ 63 }
    {
        let place = self.places[i as usize];
        Span {
            at: place.gate + 7 + u64::from(place.head),
            len: u64::from(place.payload),
        }
    }
}

/// A range of an area.
#[derive(Clone, Copy)]
struct Span {
    at: u64,
    len: u64,
}
