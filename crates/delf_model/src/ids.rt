//! Ids, numbers of types, jobs and moments.
ghost use Rattle.std.specs.Prelude.{◌≡◌, ◌↔◌, ◌<◌, ◌≤◌, IsSome, IfSome};

use std::marker::Model;

/// A moment in seconds, at most 999,999,999,999.
pub type Moment = u64;

/// The id of an object: 1 to 999,999,999,999.
#[derive(Clone, Copy, PartialEq, Eq, PartialOrd, Ord, Hash, Debug)]
pub struct ObjectId(u64);

impl Model for ObjectId {
    ghost use Rattle.std.specs.Prelude.{ℕ, ◌<◌, ◌≤◌};

    ghost Value = { ℕ };

    ghost view = { λ id. id.0 };

    ghost invariant = { (λ id. (0 < id.0) × (id.0 ≤ 999999999999)) };

    ghost inverse = { λ n. record { 0 = n } };
}

impl ObjectId {
    /// The id with this number; None where it is 0 or above 999,999,999,999.
    pub fn new(n: u64) -> Option<ObjectId>
        ensures some { IsSome result ↔ ((0 < n) × (n ≤ 999999999999)) }
        ensures value { IfSome result (λ id. id ≡ n) }
    {
        if n == 0 || n > 999_999_999_999 {
            return None;
        }
        Some(ObjectId(n))
    }

    /// Its number.
    pub fn get(&self) -> u64
        ensures value { result ≡ self.now }
        ensures above { 0 < result }
        ensures below { result ≤ 999999999999 }
    {
        self.0
    }
}

/// The number of an object type, from 0 in the order of the schema's lines.
#[derive(Clone, Copy, PartialEq, Eq, PartialOrd, Ord, Hash, Debug)]
pub struct TypeNo(pub u8);

impl Model for TypeNo {
    ghost use Rattle.std.specs.Prelude.{ℕ};

    ghost Value = { ℕ };

    ghost view = { λ kind. kind.0 };

    ghost inverse = { λ n. record { 0 = n } };
}

/// The number of an edge type, from 0 in the order of the schema's lines.
#[derive(Clone, Copy, PartialEq, Eq, PartialOrd, Ord, Hash, Debug)]
pub struct EdgeNo(pub u8);

impl Model for EdgeNo {
    ghost use Rattle.std.specs.Prelude.{ℕ};

    ghost Value = { ℕ };

    ghost view = { λ edge. edge.0 };

    ghost inverse = { λ n. record { 0 = n } };
}

/// A deletion job, named by the position of the entry that started it.
#[derive(Clone, Copy, PartialEq, Eq, PartialOrd, Ord, Hash, Debug)]
pub struct Job(pub u32);

impl Model for Job {
    ghost use Rattle.std.specs.Prelude.{ℕ};

    ghost Value = { ℕ };

    ghost view = { λ job. job.0 };

    ghost inverse = { λ n. record { 0 = n } };
}

/// How a caller names a job: by the number that it chose, or as the latest expiry job of an id.
#[derive(Clone, Copy, PartialEq, Eq, Debug)]
pub enum JobName {
    Named(u32),
    Expiry(ObjectId),
}
