//! The entries of a history.
use crate::ids::{EdgeNo, Job, Moment, ObjectId, TypeNo};

/// The seat that made a call, and the number of that seat's earlier entries.
#[derive(Clone, Copy, PartialEq, Eq, Debug)]
pub struct Tag {
    pub seat: u32,
    pub k: u32,
}

/// One entry of the history.
#[derive(Clone, Copy, PartialEq, Eq, Debug)]
pub struct Entry {
    pub moment: Moment,
    pub what: What,
}

/// What an entry notes: one object or one edge that changes, or a job, restore or purge.
#[derive(Clone, Copy, PartialEq, Eq, Debug)]
pub enum What {
    Create {
        tag: Tag,
        kind: TypeNo,
        id: ObjectId,
        size: u16,
    },
    Update {
        tag: Tag,
        id: ObjectId,
        size: u16,
    },
    Link {
        tag: Tag,
        edge: EdgeNo,
        from: ObjectId,
        to: ObjectId,
        size: u16,
    },
    Unlink {
        tag: Tag,
        edge: EdgeNo,
        from: ObjectId,
        to: ObjectId,
        name: u32,
    },
    Delete {
        tag: Tag,
        id: ObjectId,
        name: u32,
    },
    Restore {
        tag: Tag,
        job: Job,
    },
    Expire {
        id: ObjectId,
    },
    Cut {
        job: Job,
        edge: EdgeNo,
        from: ObjectId,
        to: ObjectId,
    },
    Erase {
        job: Job,
        id: ObjectId,
    },
    Put {
        job: Job,
        item: u32,
    },
    Purge {
        job: Job,
    },
}
