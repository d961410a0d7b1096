//! What is kept beside the lists, on its happy path, also where the items of two jobs alternate.
use crate::items::{Handling, Items};
use crate::jobs::Jobs;
use delf_model::{Item, Job, JobName, ObjectId, ObjectRow, TypeNo};
use std::alloc::Global;
use std::test::Fail;

fn id(n: u32) -> Result<ObjectId, Fail> {
    Ok(ObjectId::new(n as u64 + 1).ok_or("no id")?)
}

// the object that was born at this position, erased by this job
fn object(job: u32, n: u32) -> Result<Item, Fail> {
    Ok(Item::Object {
        job: Job(job),
        row: ObjectRow {
            id: id(n)?,
            kind: TypeNo(0),
            birth: n,
            due: 0,
            at: n,
            size: 0,
        },
    })
}

fn add(items: &mut Items, item: Item) -> Result<(), Fail> {
    items.reserve(1)?;
    if items.len() < 1_000_000 {
        items.push(item);
    }
    Ok(())
}

fn put(items: &mut Items, i: u32) -> Result<(), Fail> {
    items.reserve(1)?;
    items.handle(
        i,
        Handling {
            put: 1,
            cause: None,
        },
    );
    Ok(())
}

// items of the jobs 1 and 2, in turn
fn alternating(alloc: Global, n: u32) -> Result<Items, Fail> {
    let mut items = Items::new(alloc);
    for k in 0..n {
        add(&mut items, object(1 + k % 2, k)?)?;
    }
    Ok(items)
}

#[test]
fn each_last_unhandled_item_is_found_where_two_jobs_alternate(rt: HostRuntime) -> Result<(), Fail> {
    let mut items = alternating(rt.alloc(), 6000)?;
    for k in 0..3000u32 {
        let first = items.last_unhandled(Job(1)).ok_or("none is left")?;
        assert_eq!(rt; first, 5998 - 2 * k);
        put(&mut items, first)?;
        let second = items.last_unhandled(Job(2)).ok_or("none is left")?;
        assert_eq!(rt; second, 5999 - 2 * k);
        put(&mut items, second)?;
    }
    assert!(rt; items.last_unhandled(Job(1)).is_none());
    Ok(())
}

#[test]
fn an_end_is_handled_from_its_put_on(rt: HostRuntime) -> Result<(), Fail> {
    let mut items = alternating(rt.alloc(), 6000)?;
    for k in 0..6000u32 {
        assert!(rt; !items.end_handled(Job(1 + k % 2), id(k)?, k));
        put(&mut items, k)?;
        assert!(rt; items.end_handled(Job(1 + k % 2), id(k)?, k));
    }
    Ok(())
}

#[test]
fn a_job_waits_from_its_first_erasure_on(rt: HostRuntime) -> Result<(), Fail> {
    let mut jobs = Jobs::new(rt.alloc());
    jobs.reserve(2)?;
    jobs.start(Job(3), id(7)?, JobName::Named(1));
    assert!(rt; !jobs.has_waited(10, 100));
    jobs.erase(Job(3), 50);
    assert!(rt; jobs.has_waited(10, 100));
    assert!(rt; !jobs.has_waited(50, 100));
    Ok(())
}
