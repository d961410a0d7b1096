//! Commands of lanes as plain data.

use crate::stores::{NOW, store_on};
use delf_book::Book;
use delf_disk::Rig;
use delf_model::{Bytes, Call, EdgeNo, JobName, Lane, LaneCommand, List, ObjectId, TypeNo};
use delf_service::is_numbered;
use live_graph::ShardGraph;
use std::alloc::Global;
use std::test::Fail;

/// What a lane asks: types and edge types by number, objects by id. A created object has the payload `first`, and an
/// updated one `second`.
#[derive(Clone, Copy, Debug)]
pub(crate) enum Order {
    Create(TypeNo, u64),
    Update(u64),
    Link(EdgeNo, u64, u64),
    Delete(u64, u32),
    Restore(u32),
    Get(u64),
}

pub(crate) fn id(n: u64) -> Result<ObjectId, Fail> {
    Ok(ObjectId::new(n).ok_or("no id")?)
}

/// The call that an order makes.
pub(crate) fn call_of(alloc: Global, order: Order) -> Result<Call, Fail> {
    match order {
        Order::Create(kind, n) => Ok(Call::Create {
            kind,
            id: id(n)?,
            payload: Bytes::of(alloc, b"first")?,
        }),
        Order::Update(n) => Ok(Call::Update {
            id: id(n)?,
            payload: Bytes::of(alloc, b"second")?,
        }),
        Order::Link(edge, from, to) => Ok(Call::Link {
            edge,
            from: id(from)?,
            to: id(to)?,
            payload: Bytes::of(alloc, b"")?,
        }),
        Order::Delete(n, name) => Ok(Call::Delete { id: id(n)?, name }),
        Order::Restore(name) => Ok(Call::Restore {
            name: JobName::Named(name),
        }),
        Order::Get(_) => Err(Fail::from("no call")),
    }
}

fn command_of(alloc: Global, order: Order) -> Result<LaneCommand, Fail> {
    match order {
        Order::Get(n) => Ok(LaneCommand::Get(id(n)?)),
        call => Ok(LaneCommand::Submit(call_of(alloc, call)?)),
    }
}

fn fill(alloc: Global, commands: &mut List<LaneCommand>, orders: &[Order]) -> Result<(), Fail> {
    for order in orders {
        let command: LaneCommand = command_of(alloc, *order)?;
        commands.push(command)?;
    }
    Ok(())
}

/// Adds a lane.
pub(crate) fn add_lane(
    alloc: Global,
    lanes: &mut List<Lane>,
    orders: &[Order],
) -> Result<(), Fail> {
    let mut commands = List::new(alloc);
    fill(alloc, &mut commands, orders)?;
    Ok(lanes.push(Lane { commands })?)
}

// Makes a call that has to be accepted.
fn put<R: Rig>(alloc: Global, book: &mut Book<ShardGraph, R>, order: Order) -> Result<(), Fail> {
    let call = call_of(alloc, order)?;
    if !is_numbered(book.rules(), &call) {
        return Err(Fail::from("no such number"));
    }
    match book.call(NOW, 0, &call) {
        Ok(_) => Ok(()),
        Err(refusal) => Err(Fail::from(refusal)),
    }
}

// Makes calls, each of which has to be accepted.
fn put_all<R: Rig>(
    alloc: Global,
    book: &mut Book<ShardGraph, R>,
    orders: &[Order],
) -> Result<(), Fail> {
    for order in orders {
        put(alloc, book, *order)?;
    }
    Ok(())
}

/// The store on this disk, in which these calls were made.
pub(crate) fn store_with<R: Rig + Drop>(
    alloc: Global,
    orders: &[Order],
    disk: R,
) -> Result<Book<ShardGraph, R>, Fail> {
    let mut book = store_on(alloc, disk)?;
    match put_all(alloc, &mut book, orders) {
        Ok(()) => Ok(book),
        Err(fail) => {
            drop(book.into_disk());
            Err(fail)
        }
    }
}
