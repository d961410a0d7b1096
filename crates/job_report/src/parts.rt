//! The parts that many lines have: ids, names, edges, names of jobs.
ghost use Rattle.std.specs.Prelude.{◌≡◌, ◌++◌, IfOk, decimal};
ghost use Rattle.job_report.specs.Words.{edge_words, job_name, condemned_words};

use crate::line::Line;
use delf_model::{Job, JobName, Name, ObjectId};
use std::alloc::AllocError;

impl Line {
    /// The number of an id.
    pub fn id(self, id: ObjectId) -> Result<Line, AllocError>
        ensures { IfOk result (λ line. line ≡ self ++ decimal id) }
    {
        self.number(id.get())
    }

    /// A name of the schema.
    pub fn name(self, name: &Name) -> Result<Line, AllocError>
        ensures { IfOk result (λ line. line ≡ self ++ name.now) }
    {
        self.text(name.as_slice())
    }

    /// The name of an edge type and the two ends.
    pub fn edge(self, edge: &Name, from: ObjectId, to: ObjectId) -> Result<Line, AllocError>
        ensures { IfOk result (λ line. line ≡ self ++ edge_words edge.now from to) }
    {
        self.name(edge)?.text(b" ")?.id(from)?.text(b" ")?.id(to)
    }

    /// A job by its number, or as the expiry of an id.
    pub fn job_name(self, job: JobName) -> Result<Line, AllocError>
        ensures { IfOk result (λ line. line ≡ self ++ job_name job) }
    {
        match job {
            JobName::Named(name) => self.count(name),
            JobName::Expiry(id) => self.text(b"expiry ")?.id(id),
        }
    }

    /// An object that belongs to a job.
    pub fn condemned(self, id: ObjectId, job: Job) -> Result<Line, AllocError>
        ensures { IfOk result (λ line. line ≡ self ++ condemned_words id job) }
    {
        self.text(b"condemned ")?
            .id(id)?
            .text(b" by ")?
            .count(job.0)
    }
}
