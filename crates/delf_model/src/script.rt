//! The commands of a document.
use crate::call::Call;
use crate::ids::{JobName, ObjectId};
use crate::list::List;

/// A command of a document.
#[derive(Drop)]
pub enum Command {
    /// A writing call.
    Submit(Call),
    /// Makes steps, `n` at most, 1 to 1,000,000.
    Work {
        n: u32,
    },
    /// Raises the moment by `n` seconds, 1 to 999,999,999,999.
    Tick {
        n: u64,
    },
    /// Prints an object.
    Get(ObjectId),
    /// Prints the graph.
    Show,
    /// Prints a job and what it listed.
    Job(JobName),
    /// Prints each job.
    Jobs,
    /// Prints the state as JSON.
    Report,
    /// Makes the disk call fail that is the `n`-th from here, 1 to 1,000,000.
    Fail {
        n: u32,
    },
    /// Cuts the power, with this choice among what a crash may leave, and opens the store again.
    Crash {
        pick: u64,
    },
    /// Runs lanes of calls beside workers, each on a thread.
    Par {
        /// Whether the lines of the lanes are left out.
        quiet: bool,
        /// 0 to 16.
        workers: u8,
        /// The steps of one worker at most, 1 to 1,000,000.
        turns: u32,
        /// 1 to 16 lanes.
        lanes: List<Lane>,
    },
}

/// The commands of a document in order.
pub type Script = List<Command>;

/// The commands of one lane in order.
#[derive(Drop)]
pub struct Lane {
    pub commands: List<LaneCommand>,
}

/// A command of a lane.
#[derive(Drop)]
pub enum LaneCommand {
    /// A writing call.
    Submit(Call),
    /// Reads an object.
    Get(ObjectId),
}
