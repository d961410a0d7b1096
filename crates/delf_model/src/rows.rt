//! The rows of a graph, and the items that a job logs of them.
ghost use Rattle.std.specs.Prelude.{◌≡◌};
ghost use Rattle.delf_model.specs.State.{job_of, position_of, size_of};

use crate::ids::{EdgeNo, Job, Moment, ObjectId, TypeNo};

/// An object of the graph.
#[derive(Clone, Copy, PartialEq, Eq, Debug)]
pub struct ObjectRow {
    pub id: ObjectId,
    pub kind: TypeNo,
    /// The position of the entry that created it.
    pub birth: u32,
    /// The moment from which it expires; 0 where its type does not expire.
    pub due: Moment,
    /// The position of the entry that gave its payload.
    pub at: u32,
    /// The size of its payload in bytes.
    pub size: u16,
}

/// What names an edge: its type and its two ends.
#[derive(Clone, Copy, PartialEq, Eq, PartialOrd, Ord, Hash, Debug)]
pub struct EdgeKey {
    pub edge: EdgeNo,
    pub from: ObjectId,
    pub to: ObjectId,
}

/// An edge of the graph.
#[derive(Clone, Copy, PartialEq, Eq, Debug)]
pub struct EdgeRow {
    pub key: EdgeKey,
    /// The position of the entry that linked it.
    pub birth: u32,
    /// The size of its payload in bytes.
    pub size: u16,
}

/// One erased row with the job that erased it; of an edge also the births of both ends.
#[derive(Clone, Copy, PartialEq, Eq, Debug)]
pub enum Item {
    Object {
        job: Job,
        row: ObjectRow,
    },
    Edge {
        job: Job,
        row: EdgeRow,
        from_birth: u32,
        to_birth: u32,
    },
}

impl Item {
    /// The job that took the row.
    pub fn job(&self) -> Job
        ensures { result ≡ job_of self.now }
    {
        match self {
            Item::Object { job, .. } | Item::Edge { job, .. } => *job,
        }
    }

    /// The position of the entry that gave the row its payload.
    pub fn position(&self) -> u32
        ensures { result ≡ position_of self.now }
    {
        match self {
            Item::Object { row, .. } => row.at,
            Item::Edge { row, .. } => row.birth,
        }
    }

    /// The size of the row's payload in bytes.
    pub fn size(&self) -> u16
        ensures { result ≡ size_of self.now }
    {
        match self {
            Item::Object { row, .. } => row.size,
            Item::Edge { row, .. } => row.size,
        }
    }
}
