//! What a disk of two areas, and one whose power can be cut, promise.
ghost use Rattle.std.specs.Prelude.{◌≡◌, ◌+◌, ◌≤◌, ℕ, Bool, List, length, take, drop, IfOk, OnOk};
ghost use Rattle.delf_disk.specs.declared.area.Order.{Order as Orders};
ghost use Rattle.delf_disk.specs.Areas.{Areas, area_of};
ghost use Rattle.delf_disk.specs.Images.{Torn, Written, Same, Moves, Only};
ghost use Rattle.delf_disk.specs.Causes.{HasCause, Burns};
ghost use Rattle.delf_disk.specs.Plain.{Plain, SameKind, SameTelling, NextCount};

use crate::area::{Area, Failed, Order};

/// A disk of two areas of bytes under one clock of calls.
///
/// What the clauses say of bytes and of crashes holds where the disk tells its bytes and is honest.
/// The count of faults and what kind of disk it is are told of every disk.
pub trait Disk {
    /// The disk tells its bytes.
    ghost told: { Self → Bool };

    /// What it tells of them is true.
    ghost honest: { Self → Bool };

    /// The bytes that a read gives.
    ghost seen: { Self → Areas };

    /// An image of the disk: what a crash now may leave, in both areas together.
    ghost may_leave: { Self → Areas → Type 0 };

    /// The moment, as a number that doesn't fall.
    ghost moment: { Self → ℕ };

    /// What a crash at some moment from that one on may have left, during a call or between two.
    ghost left_since: { Self → ℕ → Areas → Type 0 };

    /// How many calls have failed, which stops at the greatest `u64`.
    ghost faults: { Self → ℕ };

    /// The last order that was given.
    ghost order: { Self → Orders };

    /// How many orders were given, which stops at the greatest `u64`.
    ghost orders: { Self → ℕ };

    /// Which call from now on fails by the last order, counted from 1. At 0 none does.
    ghost fuse: { Self → ℕ };

    /// The length of an area, in bytes.
    fn len(&mut self, area: Area) -> Result<u64, Failed>
        ensures value { IfOk result (λ n. Plain (told self.old) (honest self.old) → n ≡ length (area_of area (seen self.old))) }
        ensures seen { Plain (told self.old) (honest self.old) → seen self.new ≡ seen self.old }
        ensures images { Plain (told self.old) (honest self.old)
            → Moves Same (moment self.old) (moment self.new) (may_leave self.old) (may_leave self.new) (left_since self.old) (left_since self.new) }
        ensures none_lost { Plain (told self.old) (honest self.old) → (c : Areas) → may_leave self.old c → may_leave self.new c }
        ensures cause { HasCause (faults self.old) (faults self.new) result }
        ensures kind { SameKind told honest order orders self.old self.new }
        ensures fuse { Burns (fuse self.old) (fuse self.new) result };

    /// Fills `buf` from an area, from byte `at` on.
    fn read(&mut self, area: Area, at: u64, buf: &mut [u8]) -> Result<(), Failed>
        requires { Plain (told self.old) (honest self.old) → at + length buf.old ≤ length (area_of area (seen self.old)) }
        ensures bytes { OnOk result (Plain (told self.old) (honest self.old)
            → buf.new ≡ take (length buf.old) (drop at (area_of area (seen self.old)))) }
        ensures seen { Plain (told self.old) (honest self.old) → seen self.new ≡ seen self.old }
        ensures images { Plain (told self.old) (honest self.old)
            → Moves Same (moment self.old) (moment self.new) (may_leave self.old) (may_leave self.new) (left_since self.old) (left_since self.new) }
        ensures none_lost { Plain (told self.old) (honest self.old) → (c : Areas) → may_leave self.old c → may_leave self.new c }
        ensures cause { HasCause (faults self.old) (faults self.new) result }
        ensures kind { SameKind told honest order orders self.old self.new }
        ensures fuse { Burns (fuse self.old) (fuse self.new) result };

    /// Writes over an area from byte `at` on, and past its end. Until a sync, a crash may leave any
    /// bytes in that range, also where the call fails.
    fn write(&mut self, area: Area, at: u64, bytes: &[u8]) -> Result<(), Failed>
        requires { Plain (told self.old) (honest self.old) → at ≤ length (area_of area (seen self.old)) }
        ensures written { OnOk result (Plain (told self.old) (honest self.old) → Written area at bytes.now (seen self.old) (seen self.new)) }
        ensures images { Plain (told self.old) (honest self.old)
            → Moves (Torn area at (length bytes.now)) (moment self.old) (moment self.new) (may_leave self.old) (may_leave self.new) (left_since self.old) (left_since self.new) }
        ensures cause { HasCause (faults self.old) (faults self.new) result }
        ensures kind { SameKind told honest order orders self.old self.new }
        ensures fuse { Burns (fuse self.old) (fuse self.new) result };

    /// Makes both areas stable: after it a crash leaves what a read gives. Where it fails, it promises
    /// nothing new.
    fn sync(&mut self) -> Result<(), Failed>
        ensures stable { OnOk result (Plain (told self.old) (honest self.old) → Only (seen self.old) (may_leave self.new)) }
        ensures seen { Plain (told self.old) (honest self.old) → seen self.new ≡ seen self.old }
        ensures images { Plain (told self.old) (honest self.old)
            → Moves Same (moment self.old) (moment self.new) (may_leave self.old) (may_leave self.new) (left_since self.old) (left_since self.new) }
        ensures cause { HasCause (faults self.old) (faults self.new) result }
        ensures kind { SameKind told honest order orders self.old self.new }
        ensures fuse { Burns (fuse self.old) (fuse self.new) result };

    /// This moment is one of those since an earlier one.
    ghost counts_now: { (disk : Self) (t : ℕ) (c : Areas) → Plain (told disk) (honest disk)
        → t ≤ moment disk → may_leave disk c → left_since disk t c };

    /// Since this moment there is no other.
    ghost only_now: { (disk : Self) (c : Areas) → Plain (told disk) (honest disk)
        → left_since disk (moment disk) c → may_leave disk c };

    /// What reads is an image.
    ghost reads_as_image: { (disk : Self) → Plain (told disk) (honest disk) → may_leave disk (seen disk) };
}

/// A disk that can be told to lose power and to fail. Each of the two calls is an order.
pub trait Rig: Disk {
    /// Cuts the power. What reads then is an image of before, and calls work again.
    fn cut_power(&mut self, pick: u64)
        ensures one { Plain (Self.Disk.told self.old) (Self.Disk.honest self.old) → Self.Disk.may_leave self.old (Self.Disk.seen self.new) }
        ensures images { Plain (Self.Disk.told self.old) (Self.Disk.honest self.old)
            → Moves Same (Self.Disk.moment self.old) (Self.Disk.moment self.new) (Self.Disk.may_leave self.old) (Self.Disk.may_leave self.new) (Self.Disk.left_since self.old) (Self.Disk.left_since self.new) }
        ensures telling { SameTelling Self.Disk.told Self.Disk.honest self.old self.new }
        ensures count { Self.Disk.faults self.new ≡ Self.Disk.faults self.old }
        ensures fuse { Self.Disk.fuse self.new ≡ 0 }
        ensures order { Self.Disk.order self.new ≡ Order.CutPower pick }
        ensures orders { NextCount (Self.Disk.orders self.old) (Self.Disk.orders self.new) };

    /// Lets the `n`-th disk call from now fail, in place of one that was to fail by an earlier order.
    /// At 0 no call fails by it.
    fn fail_after(&mut self, n: u32)
        ensures seen { Plain (Self.Disk.told self.old) (Self.Disk.honest self.old) → Self.Disk.seen self.new ≡ Self.Disk.seen self.old }
        ensures images { Plain (Self.Disk.told self.old) (Self.Disk.honest self.old)
            → Moves Same (Self.Disk.moment self.old) (Self.Disk.moment self.new) (Self.Disk.may_leave self.old) (Self.Disk.may_leave self.new) (Self.Disk.left_since self.old) (Self.Disk.left_since self.new) }
        ensures none_lost { Plain (Self.Disk.told self.old) (Self.Disk.honest self.old) → (c : Areas) → Self.Disk.may_leave self.old c → Self.Disk.may_leave self.new c }
        ensures telling { SameTelling Self.Disk.told Self.Disk.honest self.old self.new }
        ensures count { Self.Disk.faults self.new ≡ Self.Disk.faults self.old }
        ensures fuse { Self.Disk.fuse self.new ≡ n }
        ensures order { Self.Disk.order self.new ≡ Order.FailAfter n }
        ensures orders { NextCount (Self.Disk.orders self.old) (Self.Disk.orders self.new) };
}
