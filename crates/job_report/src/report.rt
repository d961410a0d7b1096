//! The report as one line of JSON.
ghost use Rattle.std.specs.Prelude.{◌≡◌, IfOk, map, string_bytes};
ghost use Rattle.serde_json.specs.View.{view};
ghost use Rattle.serde_json.specs.Written.{compact_text};
ghost use Rattle.job_report.specs.Json.{job_data, report_data};
ghost use Rattle.job_report.specs.Texts.{report_text};
ghost use Rattle.job_report.specs.Words.{job_name, state_word};

use crate::line::Line;
use delf_model::{Bytes, JobLine, JobName, Status};
use serde_json::{Value, json};
use std::alloc::{AllocError, Global};

/// The counts of the graph and the history and every job, as one line of JSON: an object with the keys `edges`,
/// `history`, `jobs` and `objects`, no space between its parts. Each job has the keys `cut`, `erased`, `name`, `root`,
/// `start` and `state`.
#[tactic(auto, unfolding(crate::specs::Texts::report_text))]
pub fn report_json(
    alloc: Global,
    objects: u32,
    edges: u32,
    history: u32,
    jobs: &[JobLine],
) -> Result<Bytes, AllocError>
    ensures { IfOk result (λ bytes. bytes ≡ report_text objects edges history jobs.now) }
{
    let text = report_string(alloc, objects, edges, history, jobs)?;
    Line::new(alloc).text(text.as_bytes())?.end()
}

fn report_string(
    alloc: Global,
    objects: u32,
    edges: u32,
    history: u32,
    jobs: &[JobLine],
) -> Result<String, AllocError>
    ensures { IfOk result (λ text. string_bytes text ≡ compact_text (report_data objects edges history jobs.now)) }
{
    report_value(alloc, objects, edges, history, jobs)?.to_string(alloc)
}

fn report_value(
    alloc: Global,
    objects: u32,
    edges: u32,
    history: u32,
    jobs: &[JobLine],
) -> Result<Value, AllocError>
    ensures { IfOk result (λ value. view value ≡ report_data objects edges history jobs.now) }
{
    let jobs = Value::Array(job_values(alloc, jobs)?);
    json!(in alloc; {"edges": edges, "history": history, "jobs": jobs, "objects": objects})
}

fn job_values(alloc: Global, jobs: &[JobLine]) -> Result<Vec<Value>, AllocError>
    ensures { IfOk result (λ values. map view values.items ≡ map job_data jobs.now) }
{
    let mut values = Vec::new(alloc);
    for job in jobs {
        values.push(job_value(alloc, job)?)?;
    }
    Ok(values)
}

fn job_value(alloc: Global, line: &JobLine) -> Result<Value, AllocError>
    ensures { IfOk result (λ value. view value ≡ job_data line.now) }
{
    let name = name_text(alloc, line.name)?;
    let root = line.root.get();
    let start = line.job.0;
    let state = word_of(line.status);
    json!(in alloc; {
        "cut": line.cut,
        "erased": line.erased,
        "name": name,
        "root": root,
        "start": start,
        "state": state
    })
}

fn name_text(alloc: Global, job: JobName) -> Result<String, AllocError>
    ensures { IfOk result (λ text. string_bytes text ≡ job_name job) }
{
    match job {
        JobName::Named(name) => name.to_string(alloc),
        JobName::Expiry(id) => format!(in alloc; "expiry {}", id.get()),
    }
}

fn word_of(status: Status) -> &'static str
    ensures { result.now ≡ state_word status }
{
    match status {
        Status::NoJob => "no",
        Status::Pending { .. } => "pending",
        Status::Done { .. } => "done",
        Status::Restoring { .. } => "restoring",
        Status::Restored { .. } => "restored",
        Status::Purged => "purged",
    }
}
