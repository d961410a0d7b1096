//! Lines of jobs, and the report.
ghost use Rattle.std.specs.Prelude.{◌≡◌, ◌++◌, IfOk, flat_map};
ghost use Rattle.delf_model.specs.State.{find_job};
ghost use Rattle.delf_model.specs.Report.{listed_from, line_of_row};
ghost use Rattle.job_report.specs.Texts.{job_text};
ghost use Rattle.delf_book.specs.Books.{state_in};
ghost use Rattle.documents.specs.Names.{HasNames};
ghost use Rattle.script_runner.specs.Names.{IsNumberedListed};
ghost use Rattle.script_runner.specs.Serial.{job_lines, jobs_lines, report_line, row_named, listed_line as listed_line_of};

use crate::graph::ProgramBook;
use crate::names::unprinted_name;
use crate::readings::{edges, job_lines, line_of, listed_before, objects};
use delf_disk::Rig;
use delf_model::{Bytes, Item, Job, JobLine, JobName, Listed, Schema};
use documents::{edge_name, joined};
use job_report::{job_line, jobs_line, listed_line, no_job_line, report_json};
use std::alloc::{AllocError, Global};

/// The line of the job that the name means, and of each item that it listed.
pub(crate) fn job<R: Rig>(
    alloc: Global,
    schema: &Schema,
    book: &ProgramBook<R>,
    name: &JobName,
) -> Result<Bytes, AllocError>
    requires { HasNames schema.now book.now.rules }
    ensures { IfOk result (λ text. text ≡ job_lines schema.now (state_in book.now) name.now) }
{
    match named_line(book, *name) {
        Some(line) => told_lines(alloc, schema, book, &line),
        None => no_job_line(alloc, *name),
    }
}

// The line of a job, and of each item that it listed.
fn told_lines<R: Rig>(
    alloc: Global,
    schema: &Schema,
    book: &ProgramBook<R>,
    line: &JobLine,
) -> Result<Bytes, AllocError>
    requires { HasNames schema.now book.now.rules }
    ensures { IfOk result (λ text. text ≡ job_text line.now ++ flat_map (listed_line_of schema.now) (listed_from line.now.job 0 (state_in book.now).items)) }
{
    let first = job_line(alloc, line)?;
    let listed = listed_lines(alloc, schema, book, line.job)?;
    joined(alloc, first.as_slice(), listed.as_slice())
}

// The line of the job that the name means.
fn named_line<R: Rig>(book: &ProgramBook<R>, name: JobName) -> Option<JobLine>
    ensures { result ≡ line_of_row (state_in book.now) (row_named (state_in book.now) (find_job (state_in book.now).jobs name)) }
{
    match book.find(name) {
        Some(job) => line_of(book, job),
        None => None,
    }
}

// Each is read below the one before, so that all of them cost one pass over where the items of the job stand.
fn listed_lines<R: Rig>(
    alloc: Global,
    schema: &Schema,
    book: &ProgramBook<R>,
    job: Job,
) -> Result<Bytes, AllocError>
    requires { HasNames schema.now book.now.rules }
    ensures { IfOk result (λ text. text ≡ flat_map (listed_line_of schema.now) (listed_from job 0 (state_in book.now).items)) }
{
    let mut text = Vec::new(alloc);
    let mut below = book.len();
    'rows: while below > 0 {
        let Some(row) = listed_before(book, job, below) else {
            return Ok(Bytes::from_vec(text));
        };
        let line = listed_row_line(alloc, schema, book, &row)?;
        text.extend_from_slice(line.as_slice())?;
        below = row.item;
    }
    Ok(Bytes::from_vec(text))
}

fn listed_row_line<R: Rig>(
    alloc: Global,
    schema: &Schema,
    book: &ProgramBook<R>,
    listed: &Listed,
) -> Result<Bytes, AllocError>
    requires named { HasNames schema.now book.now.rules }
    requires numbered { IsNumberedListed book.now.rules listed.now }
    ensures { IfOk result (λ text. text ≡ listed_line_of schema.now listed.now) }
{
    match listed.row {
        Item::Object { .. } => listed_line(alloc, listed, &unprinted_name(alloc)?),
        Item::Edge { row, .. } => listed_line(alloc, listed, edge_name(schema, row.key.edge)),
    }
}

/// How many jobs there are, and the line of each.
pub(crate) fn jobs<R: Rig>(alloc: Global, book: &ProgramBook<R>) -> Result<Bytes, AllocError>
    ensures { IfOk result (λ text. text ≡ jobs_lines (state_in book.now)) }
{
    let lines = job_lines(alloc, book)?;
    let count = jobs_line(alloc, lines.len() as u32)?;
    let rows = each_job_line(alloc, lines.as_slice())?;
    joined(alloc, count.as_slice(), rows.as_slice())
}

fn each_job_line(alloc: Global, lines: &[JobLine]) -> Result<Bytes, AllocError>
    ensures { IfOk result (λ text. text ≡ flat_map job_text lines.now) }
{
    let mut text = Vec::new(alloc);
    for line in lines {
        let line = job_line(alloc, line)?;
        text.extend_from_slice(line.as_slice())?;
    }
    Ok(Bytes::from_vec(text))
}

/// The line of JSON: counts and jobs.
pub(crate) fn report_text<R: Rig>(alloc: Global, book: &ProgramBook<R>) -> Result<Bytes, AllocError>
    ensures { IfOk result (λ text. text ≡ report_line (state_in book.now)) }
{
    let objects = objects(alloc, book)?;
    let edges = edges(alloc, book)?;
    let jobs = job_lines(alloc, book)?;
    report_json(
        alloc,
        objects.len() as u32,
        edges.len() as u32,
        book.len(),
        jobs.as_slice(),
    )
}
