//! How a disk counts its calls and its faults, and what it was ordered to do.
ghost use Rattle.std.specs.Prelude.{◌≡◌, ◌-◌, ◌≤◌, ◌↔◌, [], IsOk, IsTrue, OnErr, MatchBool};
ghost use Rattle.delf_disk.specs.Causes.{HasCause};
ghost use Rattle.delf_disk.specs.Counts.{next, IsSetToFail};
ghost use Rattle.delf_disk.specs.Plain.{NextCount};

use crate::area::{Failed, Order};
use std::io;

/// The calls and the orders of a disk in memory.
#[derive(Drop)]
pub struct Counts {
    /// The numbers, from 1, of the calls that fail.
    pub(crate) fails: Vec<u64>,
    pub(crate) calls: u64,
    /// Which call from now on fails by the last order. At 0 none does.
    pub(crate) fuse: u32,
    pub(crate) faults: u64,
    /// How many calls were refused memory.
    pub(crate) starved: u64,
    pub(crate) order: Order,
    pub(crate) orders: u64,
}

impl Counts {
    /// No call yet, and these are to fail.
    pub(crate) fn of(fails: Vec<u64>) -> Counts
        ensures { result ≡ record { fails = fails; calls = 0; fuse = 0; faults = 0; starved = 0; order = Order.Nothing; orders = 0 } }
    {
        Counts {
            fails,
            calls: 0,
            fuse: 0,
            faults: 0,
            starved: 0,
            order: Order::Nothing,
            orders: 0,
        }
    }

    /// Counts one call, and says whether it's set to fail.
    pub(crate) fn next_call(&mut self) -> bool
        ensures is_set { IsTrue result ↔ IsSetToFail self.old.fails.items self.old.calls self.old.fuse }
        ensures calls { self.new.calls ≡ next self.old.calls }
        ensures fuse { self.new.fuse ≡ self.old.fuse - 1 }
        ensures faults { self.new.faults ≡ self.old.faults }
        ensures fails { self.new.fails.items ≡ self.old.fails.items }
        ensures starved { self.new.starved ≡ self.old.starved }
        ensures order { self.new.order ≡ self.old.order }
        ensures orders { self.new.orders ≡ self.old.orders }
    {
        self.calls = self.calls.saturating_add(1);
        let fails = self.fails.contains(&self.calls) || self.fuse == 1;
        self.fuse = self.fuse.saturating_sub(1);
        fails
    }

    /// Counts a fault.
    pub(crate) fn fault(&mut self)
        ensures new { self.new ≡ record self.old { faults = next self.old.faults } }
        ensures later { self.old.faults ≤ self.new.faults }
    {
        self.faults = self.faults.saturating_add(1);
    }

    /// Counts one call, and says whether it's set to fail. One that is counts as a fault.
    pub(crate) fn takes_call(&mut self) -> bool
        ensures is_set { IsTrue result ↔ IsSetToFail self.old.fails.items self.old.calls self.old.fuse }
        ensures calls { self.new.calls ≡ next self.old.calls }
        ensures fuse { self.new.fuse ≡ self.old.fuse - 1 }
        ensures faults { MatchBool result (self.new.faults ≡ next self.old.faults) (self.new.faults ≡ self.old.faults) }
        ensures later { self.old.faults ≤ self.new.faults }
        ensures fails { self.new.fails.items ≡ self.old.fails.items }
        ensures starved { self.new.starved ≡ self.old.starved }
        ensures order { self.new.order ≡ self.old.order }
        ensures orders { self.new.orders ≡ self.old.orders }
    {
        let fails = self.next_call();
        if fails {
            self.fault();
        }
        fails
    }

    /// Counts a call that was refused memory, which is a fault too.
    pub(crate) fn starve(&mut self)
        ensures new { self.new ≡ record self.old { faults = next self.old.faults; starved = next self.old.starved } }
        ensures later { self.old.faults ≤ self.new.faults }
    {
        self.starved = self.starved.saturating_add(1);
        self.fault();
    }

    /// Counts a fault where a call of the system failed, and gives its answer.
    pub(crate) fn take<T>(&mut self, answer: io::Result<T>) -> Result<T, Failed>
        ensures cause { HasCause self.old.faults self.new.faults result }
        ensures count { OnErr result (self.new.faults ≡ next self.old.faults) }
        ensures starved { self.new.starved ≡ self.old.starved }
        ensures calls { self.new.calls ≡ self.old.calls }
        ensures fuse { self.new.fuse ≡ self.old.fuse }
        ensures fails { self.new.fails.items ≡ self.old.fails.items }
        ensures order { self.new.order ≡ self.old.order }
        ensures orders { self.new.orders ≡ self.old.orders }
        ensures ok { IsOk answer → IsOk result }
    {
        match answer {
            Ok(value) => Ok(value),
            Err(_) => {
                self.fault();
                Err(Failed)
            }
        }
    }

    /// Takes an order to cut the power, after which no call is set to fail.
    pub(crate) fn cut_power(&mut self, pick: u64)
        ensures fails { self.new.fails.items ≡ [] }
        ensures fuse { self.new.fuse ≡ 0 }
        ensures order { self.new.order ≡ Order.CutPower pick }
        ensures orders { NextCount self.old.orders self.new.orders }
        ensures calls { self.new.calls ≡ self.old.calls }
        ensures faults { self.new.faults ≡ self.old.faults }
        ensures starved { self.new.starved ≡ self.old.starved }
    {
        self.fails.clear();
        self.fuse = 0;
        self.order = Order::CutPower { pick };
        self.orders = self.orders.saturating_add(1);
    }

    /// Takes an order that the `n`-th call from now is to fail.
    pub(crate) fn fail_after(&mut self, n: u32)
        ensures fails { self.new.fails.items ≡ self.old.fails.items }
        ensures fuse { self.new.fuse ≡ n }
        ensures order { self.new.order ≡ Order.FailAfter n }
        ensures orders { NextCount self.old.orders self.new.orders }
        ensures calls { self.new.calls ≡ self.old.calls }
        ensures faults { self.new.faults ≡ self.old.faults }
        ensures starved { self.new.starved ≡ self.old.starved }
    {
        self.fuse = n;
        self.order = Order::FailAfter { n };
        self.orders = self.orders.saturating_add(1);
    }
}
