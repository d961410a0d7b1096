//! Gates that hold lanes and workers, each for so many loads of a flag at most.

use delf_book::{Claim, Prepared, prepare};
use delf_service::Gate;
use std::hint::spin_loop;
use std::sync::atomic::{AtomicU64, Ordering};

// Whether the word is seen to reach this number.
fn reaches(word: &AtomicU64, least: u64) -> bool {
    for _ in 0..1_000_000_000u32 {
        if word.load(Ordering::SeqCst) >= least {
            return true;
        }
    }
    false
}

/// A gate that holds its first calls, so many, until all of them have begun: those that tell of an entry, and of those that make a
/// record either all or none.
#[derive(Drop)]
pub(crate) struct Meeting {
    many: u64,
    holds_records: bool,
    begun: AtomicU64,
    met: AtomicU64,
}

impl Meeting {
    pub(crate) fn of(many: u64) -> Meeting {
        Meeting {
            many,
            holds_records: true,
            begun: AtomicU64::new(0),
            met: AtomicU64::new(0),
        }
    }

    /// One that lets each record be made at once.
    pub(crate) fn of_tellings(many: u64) -> Meeting {
        Meeting {
            many,
            holds_records: false,
            begun: AtomicU64::new(0),
            met: AtomicU64::new(0),
        }
    }

    // Begins a call, and holds it where it is one of the first.
    fn hold(&self) {
        if self.begun.fetch_add(1, Ordering::SeqCst) < self.many
            && reaches(&self.begun, self.many)
        {
            self.met.fetch_add(1, Ordering::SeqCst);
        }
    }

    /// Whether all of the first calls saw that all had begun.
    pub(crate) fn was_held(&self) -> bool {
        self.met.load(Ordering::SeqCst) == self.many
    }
}

impl Gate for Meeting {
    fn between(&self, claim: Claim) -> Prepared {
        if self.holds_records {
            self.hold();
        }
        prepare(claim)
    }

    fn after(&self, _position: u32) {
        self.hold();
    }
}

/// A gate that holds the first claim, before its record is made, until it was told of the step of another.
#[derive(Drop)]
pub(crate) struct Hold {
    claims: AtomicU64,
    told: AtomicU64,
    seen: AtomicU64,
}

impl Hold {
    pub(crate) fn new() -> Hold {
        Hold {
            claims: AtomicU64::new(0),
            told: AtomicU64::new(0),
            seen: AtomicU64::new(0),
        }
    }

    /// Whether another step was made while the first claim was held.
    pub(crate) fn saw_a_step(&self) -> bool {
        self.seen.load(Ordering::SeqCst) == 1
    }
}

impl Gate for Hold {
    fn between(&self, claim: Claim) -> Prepared {
        if self.claims.fetch_add(1, Ordering::SeqCst) == 0 && reaches(&self.told, 1) {
            self.seen.fetch_add(1, Ordering::SeqCst);
        }
        prepare(claim)
    }

    fn after(&self, _position: u32) {
        self.told.fetch_add(1, Ordering::SeqCst);
    }
}

/// A gate over a history that a lane begins with two entries, of which the second gives the workers a step. It leaves the
/// workers time to find none before, and then holds the lane until it was told of a step.
#[derive(Drop)]
pub(crate) struct Watch {
    stepped: AtomicU64,
    seen: AtomicU64,
}

impl Watch {
    pub(crate) fn new() -> Watch {
        Watch {
            stepped: AtomicU64::new(0),
            seen: AtomicU64::new(0),
        }
    }

    /// Whether a step was made while the lane was held.
    pub(crate) fn saw_a_step(&self) -> bool {
        self.seen.load(Ordering::SeqCst) == 1
    }
}

impl Gate for Watch {
    fn between(&self, claim: Claim) -> Prepared {
        prepare(claim)
    }

    fn after(&self, position: u32) {
        match position {
            0 => {
                for _ in 0..2_000_000u32 {
                    spin_loop();
                }
            }
            1 => {
                if reaches(&self.stepped, 1) {
                    self.seen.fetch_add(1, Ordering::SeqCst);
                }
            }
            _ => {
                self.stepped.fetch_add(1, Ordering::SeqCst);
            }
        }
    }
}

/// A gate that counts its calls: the records that it made, and the entries that it was told of, with their positions added up.
#[derive(Drop)]
pub(crate) struct Count {
    records: AtomicU64,
    told: AtomicU64,
    positions: AtomicU64,
}

impl Count {
    pub(crate) fn new() -> Count {
        Count {
            records: AtomicU64::new(0),
            told: AtomicU64::new(0),
            positions: AtomicU64::new(0),
        }
    }

    /// Whether it made so many records, and was told of so many entries with this sum of positions.
    pub(crate) fn counted(&self, records: u64, told: u64, positions: u64) -> bool {
        self.records.load(Ordering::SeqCst) == records
            && self.told.load(Ordering::SeqCst) == told
            && self.positions.load(Ordering::SeqCst) == positions
    }
}

impl Gate for Count {
    fn between(&self, claim: Claim) -> Prepared {
        self.records.fetch_add(1, Ordering::SeqCst);
        prepare(claim)
    }

    fn after(&self, position: u32) {
        self.told.fetch_add(1, Ordering::SeqCst);
        self.positions.fetch_add(position as u64, Ordering::SeqCst);
    }
}
