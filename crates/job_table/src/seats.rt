//! The seats of the entries that calls made, counted.
ghost use Rattle.std.specs.Prelude.{◌≡◌, ◌+◌, ◌<◌, ◌≤◌, ◌^◌, ◌++◌, ◌∷◌, [], nat_eq, OnOk, length, count_by, max};
ghost use Rattle.job_table.specs.Table.{greatest};

use std::alloc::{AllocError, Global};
use std::collections::HashMap;
use std::marker::Model;

/// The seats of the entries that calls made, in order, with the number of entries of each and the greatest.
#[derive(Drop)]
pub struct Seats {
    seats: Vec<u32>,
    counts: HashMap<u32, u32>,
    top: u32,
    spare: u32,
}

impl Model for Seats {
    ghost use Rattle.std.specs.Prelude.{nat_eq, vec_capacity};
    ghost use Rattle.std.specs.HashMap.{get, spare as room_of};
    ghost use Rattle.job_table.specs.Parts.{SeatPart};
    ghost use Rattle.job_table.specs.SeatsFit.{SeatsFit};

    ghost Value = { SeatPart };

    ghost view = { λ l. record { list = l.seats.items; spare = l.spare } };

    ghost invariant = { λ l. SeatsFit l.seats.items (get nat_eq l.counts) l.top (vec_capacity l.seats) (room_of l.counts) l.spare };
}

impl Seats {
    pub fn new(alloc: Global) -> Seats
        ensures { result.list ≡ [] }
    {
        Seats {
            seats: Vec::new(alloc),
            counts: HashMap::new(alloc),
            top: 0,
            spare: 0,
        }
    }

    pub fn reserve(&mut self, n: u32) -> Result<(), AllocError>
        ensures list { self.new.list ≡ self.old.list }
        ensures ok { OnOk result (n ≤ self.new.spare) }
        ensures kept { self.old.spare ≤ self.new.spare }
    {
        if n <= self.spare {
            return Ok(());
        }
        self.seats.reserve(n as usize)?;
        self.counts.reserve(n as usize)?;
        self.spare = n;
        Ok(())
    }

    pub fn push(&mut self, seat: u32)
        requires spare { 0 < self.old.spare }
        requires fits { length self.old.list + 1 < 2 ^ 32 }
        ensures list { self.new.list ≡ self.old.list ++ seat ∷ [] }
        ensures spare { self.new.spare + 1 ≡ self.old.spare }
    {
        let entries = self.entries(seat);
        self.seats.push_reserved(seat);
        match self.counts.insert(seat, entries + 1) {
            Ok(_) => {}
            Err(_) => unreachable!(),
        }
        self.top = greater(self.top, seat);
        self.spare -= 1;
    }

    pub fn entries(&self, seat: u32) -> u32
        ensures value { result ≡ count_by (λ other. nat_eq other seat) self.now.list }
        ensures below { result ≤ length self.now.list }
    {
        self.counts.get(&seat).copied().unwrap_or(0)
    }

    pub fn top(&self) -> u32
        ensures { result ≡ greatest self.now.list }
    {
        self.top
    }
}

fn greater(a: u32, b: u32) -> u32
    ensures { result ≡ max a b }
{
    if a < b { b } else { a }
}
