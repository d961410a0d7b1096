//! What lines tell of a book.
ghost use Rattle.std.specs.Prelude.{◌≡◌, ◌≤◌, ◌<◌, ◌++◌, ℕ, true, false, IfOk, IfSome, IsTrue, OnOk, length, map, option_to_list, slice_get, take};
ghost use Rattle.std.specs.List.{AllByRecursion};
ghost use Rattle.delf_model.specs.Graph.{object_at, objects_rise, edges_rise};
ghost use Rattle.delf_model.specs.State.{job_row};
ghost use Rattle.delf_model.specs.Report.{job_at, job_line, line_of_row, listed_from};
ghost use Rattle.delf_book.specs.Books.{state_in};
ghost use Rattle.script_runner.specs.Ages.{is_earlier};
ghost use Rattle.script_runner.specs.Names.{IsNumberedObject, IsNumberedEdge, IsNumberedListed};

use crate::graph::ProgramBook;
use delf_disk::Rig;
use delf_model::{EdgeRow, GraphStore, Job, JobLine, JobName, List, Listed, ObjectId, ObjectRow};
use std::alloc::{AllocError, Global};

/// The objects by rising id; the only error is want of memory.
pub(crate) fn objects<R: Rig>(
    alloc: Global,
    book: &ProgramBook<R>,
) -> Result<Vec<ObjectRow>, AllocError>
    ensures rows { IfOk result (λ rows. rows.items ≡ (state_in book.now).graph.objects) }
    ensures rise { IfOk result (λ rows. IsTrue (objects_rise rows.items)) }
    ensures numbered { IfOk result (λ rows. AllByRecursion (IsNumberedObject book.now.rules) rows.items) }
    ensures few { IfOk result (λ rows. length rows.items ≤ 500000) }
{
    let _len = book.len();
    book.graph().objects(alloc)
}

/// The edges by rising key; the only error is want of memory.
pub(crate) fn edges<R: Rig>(
    alloc: Global,
    book: &ProgramBook<R>,
) -> Result<Vec<EdgeRow>, AllocError>
    ensures rows { IfOk result (λ rows. rows.items ≡ (state_in book.now).graph.edges) }
    ensures rise { IfOk result (λ rows. IsTrue (edges_rise rows.items)) }
    ensures numbered { IfOk result (λ rows. AllByRecursion (IsNumberedEdge book.now.rules) rows.items) }
    ensures few { IfOk result (λ rows. length rows.items ≤ 500000) }
{
    let _len = book.len();
    book.graph().edges(alloc)
}

/// The row of the object with this id.
pub(crate) fn object<R: Rig>(book: &ProgramBook<R>, id: ObjectId) -> Option<ObjectRow>
    ensures row { result ≡ object_at (state_in book.now).graph id }
    ensures numbered { IfSome result (IsNumberedObject book.now.rules) }
{
    let _len = book.len();
    book.graph().object(id)
}

/// The line of each job, by age; the only error is want of memory.
pub(crate) fn job_lines<R: Rig>(
    alloc: Global,
    book: &ProgramBook<R>,
) -> Result<List<JobLine>, AllocError>
    ensures lines { IfOk result (λ lines. lines ≡ map (job_line (state_in book.now)) (state_in book.now).jobs) }
    ensures few { IfOk result (λ lines. length lines ≤ 500000) }
{
    let mut lines = List::new(alloc);
    for place in 0..book.len() {
        add_line(book, place, &mut lines)?;
    }
    Ok(lines)
}

// Adds the line of the job at this place, if there is one.
fn add_line<R: Rig>(
    book: &ProgramBook<R>,
    place: u32,
    lines: &mut List<JobLine>,
) -> Result<(), AllocError>
    ensures { OnOk result (lines.new ≡ lines.old ++ option_to_list (job_at (state_in book.now) place)) }
{
    match book.job_at(place) {
        Some(line) => {
            let name: JobName = line.name;
            lines.push(JobLine {
                job: line.job,
                name,
                root: line.root,
                erased: line.erased,
                cut: line.cut,
                status: line.status,
            })
        }
        None => Ok(()),
    }
}

/// The line of the job that was started at this position.
pub(crate) fn line_of<R: Rig>(book: &ProgramBook<R>, job: Job) -> Option<JobLine>
    ensures { result ≡ line_of_row (state_in book.now) (job_row (state_in book.now).jobs job) }
{
    let _len = book.len();
    let place = place_of(book, job);
    let Some(line) = book.job_at(place) else {
        return None;
    };
    if line.job.0 == job.0 {
        Some(line)
    } else {
        None
    }
}

// The place of the first job that was started no earlier, by halving: jobs go by rising position.
fn place_of<R: Rig>(book: &ProgramBook<R>, job: Job) -> u32
    ensures before { (k : ℕ) → k < result → is_earlier job (slice_get (state_in book.now).jobs k) ≡ true }
    ensures behind { (k : ℕ) → result ≤ k → is_earlier job (slice_get (state_in book.now).jobs k) ≡ false }
{
    let mut low = 0;
    let mut high = book.len();
    'halves: while low < high {
        let middle = low + (high - low) / 2;
        if starts_earlier(book, middle, job) {
            low = middle + 1;
        } else {
            high = middle;
        }
    }
    low
}

// Whether there is a job at this place, and it was started earlier.
fn starts_earlier<R: Rig>(book: &ProgramBook<R>, place: u32, job: Job) -> bool
    ensures { result ≡ is_earlier job (slice_get (state_in book.now).jobs place) }
{
    match book.job_at(place) {
        Some(line) => line.job.0 < job.0,
        None => false,
    }
}

/// The listed item of the job with the greatest number below this one.
pub(crate) fn listed_before<R: Rig>(book: &ProgramBook<R>, job: Job, below: u32) -> Option<Listed>
    ensures listed { result ≡ slice_get (listed_from job 0 (take below (state_in book.now).items)) 0 }
    ensures numbered { IfSome result (IsNumberedListed book.now.rules) }
{
    let _len = book.len();
    book.listed_before(job, below)
}
