//! The calls of writers, and what they are answered.
use crate::bytes::Bytes;
use crate::ids::{EdgeNo, Job, JobName, Moment, ObjectId, TypeNo};
use crate::rows::Item;
use crate::schema::ObjectRule;

/// A writing call.
#[derive(Drop, Debug)]
pub enum Call {
    Create {
        kind: TypeNo,
        id: ObjectId,
        payload: Bytes,
    },
    Update {
        id: ObjectId,
        payload: Bytes,
    },
    Link {
        edge: EdgeNo,
        from: ObjectId,
        to: ObjectId,
        payload: Bytes,
    },
    Unlink {
        edge: EdgeNo,
        from: ObjectId,
        to: ObjectId,
        name: u32,
    },
    Delete {
        id: ObjectId,
        name: u32,
    },
    Restore {
        name: JobName,
    },
}

/// Why a call was refused; after every refusal but the last the service is unchanged.
#[derive(Clone, Copy, PartialEq, Eq, Debug)]
pub enum Refusal {
    /// A disk fault was answered since this opening, at this length of the history.
    Down { len: u32 },
    /// The payload has more than 512 bytes.
    TooLong { len: u64 },
    /// The object is not in the graph.
    Absent { id: ObjectId },
    /// The object belongs to this job.
    Condemned { id: ObjectId, job: Job },
    /// The end has another type than the edge type names.
    WrongEnd { id: ObjectId, kind: TypeNo },
    /// An object with that id stands, born there.
    NameTaken { id: ObjectId, birth: u32 },
    /// An edge with that key stands, born there.
    EdgeTaken { birth: u32 },
    /// No edge with that key stands.
    NoEdge,
    /// Objects of this type can't be the root of a delete call.
    NotDirect { rule: ObjectRule },
    /// A job of that name stands in the history.
    JobTaken { name: u32 },
    /// No job has that name.
    NoJob,
    /// The job still owns so many objects.
    Pending { owned: u32 },
    /// The job was restored by the entry at that position.
    RestoredBefore { position: u32 },
    /// The job is purged or its window is over; the moment is its last erasure plus the window.
    WindowOver { last: Moment },
    /// The history has no room for what the call would owe.
    Full { used: u32, owed: u32 },
    /// Want of memory.
    OutOfMemory,
    /// The disk failed in this call; the service is down from here, with this length of the history.
    DiskFault { len: u32 },
}

/// What stands with a job.
#[derive(Clone, Copy, PartialEq, Eq, Debug)]
pub enum Status {
    NoJob,
    Pending { owned: u32 },
    Done { erased: u32, cut: u32, last: Moment },
    Restoring { left: u32 },
    Restored { put: u32, listed: u32 },
    Purged,
}

/// One job of the history with its counts.
#[derive(Clone, Copy, PartialEq, Eq, Debug)]
pub struct JobLine {
    pub job: Job,
    pub name: JobName,
    pub root: ObjectId,
    /// The number of objects that it erased.
    pub erased: u32,
    /// The number of edges that it cut.
    pub cut: u32,
    pub status: Status,
}

/// Why a logged row was not put back.
#[derive(Clone, Copy, PartialEq, Eq, Debug)]
pub enum Cause {
    /// An object with that id stands, born there.
    Taken { birth: u32 },
    /// That end of the edge does not stand with its logged birth.
    EndMissing { id: ObjectId },
    /// That end of the edge belongs to this job.
    EndCondemned { id: ObjectId, job: Job },
    /// An edge with that key stands, born there.
    KeyTaken { birth: u32 },
}

/// A logged row that a restore did not put back.
#[derive(Clone, Copy, PartialEq, Eq, Debug)]
pub struct Listed {
    /// The number of the item.
    pub item: u32,
    pub row: Item,
    pub cause: Cause,
}
