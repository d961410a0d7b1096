//! Seats by hand: each call of a service, without a block round it.
ghost use Rattle.std.specs.Prelude.{◌≡◌, ◌≤◌, [], None, vec_capacity};
ghost use Rattle.delf_book.specs.Books.{HasNumbers};
ghost use Rattle.seat_lock.specs.Views.{IsSameSeat};
ghost use Rattle.seat_lock.specs.Locks.{view, IsOf};

use crate::gates::Count;
use crate::orders::{Order, call_of, id};
use crate::stores::{NOW, USER, blank, store_on};
use delf_book::Book;
use delf_disk::Rig;
use delf_model::{Call, Job, JobName, LIMIT, ObjectId, Status};
use delf_service::{Seat, Service, Turned, is_numbered};
use live_graph::ShardGraph;
use std::alloc::Global;
use std::sync::Wait;
use std::test::Fail;

// Whether a call of this seat is accepted at this position, and starts this job.
#[tactic(auto, using(crate::proofs::Keys::any_moment, crate::proofs::Keys::submitted_key))]
fn is_made<W: Wait, R: Rig>(
    rt: &W,
    service: &Service<ShardGraph, R>,
    seat: &mut Seat<ShardGraph, R>,
    call: &Call,
    at: u32,
    started: Option<Job>,
) -> bool
    requires ours { IsOf service.now.lock seat.old }
    requires numbers { HasNumbers (view seat.old).seen.state.key.rules call.now }
    requires moment { (view seat.old).seen.state.key.moment ≡ None }
    ensures ours { IsOf service.now.lock seat.new }
    ensures same { IsSameSeat (view seat.old) (view seat.new) }
    ensures key { (view seat.new).seen.state.key ≡ (view seat.old).seen.state.key }
{
    let seen = seat.seen();
    if seat.number() as u64 > 64 * (seen as u64 + 1) {
        return false;
    }
    let answer = service.submit(rt, seat, NOW, call);
    let reply = answer.reply;
    match reply {
        Ok(receipt) => answer.at == at && receipt.position == at && receipt.started == started,
        Err(_) => false,
    }
}

// Whether the object has five bytes and belongs to this job, where so many entries are.
#[tactic(auto, using(crate::proofs::Keys::inquired_key))]
fn is_owned<W: Wait, R: Rig>(
    rt: &W,
    service: &Service<ShardGraph, R>,
    seat: &mut Seat<ShardGraph, R>,
    id: ObjectId,
    at: u32,
    job: Job,
) -> bool
    requires ours { IsOf service.now.lock seat.old }
    ensures ours { IsOf service.now.lock seat.new }
    ensures same { IsSameSeat (view seat.old) (view seat.new) }
    ensures key { (view seat.new).seen.state.key ≡ (view seat.old).seen.state.key }
{
    let mut bytes = [0; LIMIT];
    let asked = service.ask(rt, seat, id, &mut bytes);
    let found = asked.found;
    let owned = match found {
        Some((row, owner)) => row.size == 5 && owner == Some(job),
        None => false,
    };
    owned && asked.at == at && asked.fault.is_none() && bytes.starts_with(b"first")
}

// Whether the object is gone, where so many entries are.
fn is_gone<W: Wait, R: Rig>(
    rt: &W,
    service: &Service<ShardGraph, R>,
    seat: &mut Seat<ShardGraph, R>,
    id: ObjectId,
    at: u32,
) -> bool
    requires ours { IsOf service.now.lock seat.old }
    ensures ours { IsOf service.now.lock seat.new }
    ensures same { IsSameSeat (view seat.old) (view seat.new) }
{
    let mut bytes = [0; LIMIT];
    let asked = service.ask(rt, seat, id, &mut bytes);
    asked.at == at && asked.found.is_none() && asked.fault.is_none()
}

// Whether a turn of a worker is answered so.
#[tactic(auto, using(crate::proofs::Keys::any_moment, crate::proofs::Keys::worked_key))]
fn is_worked<W: Wait, R: Rig>(
    rt: &W,
    service: &Service<ShardGraph, R>,
    seat: &mut Seat<ShardGraph, R>,
    gate: &Count,
    wanted: Turned,
) -> bool
    requires ours { IsOf service.now.lock seat.old }
    requires moment { (view seat.old).seen.state.key.moment ≡ None }
    ensures ours { IsOf service.now.lock seat.new }
    ensures same { IsSameSeat (view seat.old) (view seat.new) }
    ensures key { (view seat.new).seen.state.key ≡ (view seat.old).seen.state.key }
{
    match service.work(rt, seat, NOW, gate) {
        Ok(turned) => turned == wanted,
        Err(_) => false,
    }
}

// One seat makes an object and deletes it.
#[tactic(auto, using(crate::proofs::Keys::same_numbers, crate::proofs::Keys::same_moment))]
fn are_made<W: Wait, R: Rig>(
    rt: &W,
    service: &Service<ShardGraph, R>,
    seat: &mut Seat<ShardGraph, R>,
    create: &Call,
    delete: &Call,
) -> bool
    requires ours { IsOf service.now.lock seat.old }
    requires numbers { HasNumbers (view seat.old).seen.state.key.rules create.now × HasNumbers (view seat.old).seen.state.key.rules delete.now }
    requires moment { (view seat.old).seen.state.key.moment ≡ None }
    ensures ours { IsOf service.now.lock seat.new }
    ensures same { IsSameSeat (view seat.old) (view seat.new) }
{
    let made = is_made(rt, service, seat, create, 0, None);
    let deleted = is_made(rt, service, seat, delete, 1, Some(Job(1)));
    made && deleted
}

// Another sees that, makes the step, of which the gate is told, and finds none behind it.
#[tactic(auto, using(crate::proofs::Keys::same_moment))]
fn is_erased<W: Wait, R: Rig>(
    rt: &W,
    service: &Service<ShardGraph, R>,
    seat: &mut Seat<ShardGraph, R>,
    object: ObjectId,
) -> bool
    requires ours { IsOf service.now.lock seat.old }
    requires moment { (view seat.old).seen.state.key.moment ≡ None }
    ensures ours { IsOf service.now.lock seat.new }
    ensures same { IsSameSeat (view seat.old) (view seat.new) }
{
    let owned = is_owned(rt, service, seat, object, 2, Job(1));
    let gate = Count::new();
    let stepped = is_worked(rt, service, seat, &gate, Turned::Stepped { position: 2 });
    let rests = is_worked(rt, service, seat, &gate, Turned::Idle { len: 3 });
    owned && stepped && rests && gate.counted(1, 1, 2)
}

// Whether the store has three entries, and its job is done.
fn is_done<R: Rig>(book: &Book<ShardGraph, R>) -> bool {
    let name: JobName = JobName::Named(40);
    let status = book.status(name);
    book.len() == 3
        && matches!(
            status,
            Status::Done {
                erased: 1,
                cut: 0,
                ..
            }
        )
}

// Whether two seats take turns over this store, which is closed by both.
#[tactic(auto, using(crate::proofs::Keys::root_saw, crate::proofs::Keys::seat_numbers, crate::proofs::Keys::seat_moment, crate::proofs::Keys::root_splits, crate::proofs::Keys::one_out))]
fn is_closed_by_two<W: Wait, R: Rig + Drop>(
    rt: &W,
    alloc: Global,
    book: Book<ShardGraph, R>,
    mut seats: Vec<Seat<ShardGraph, R>>,
    create: &Call,
    delete: &Call,
    object: ObjectId,
) -> bool
    requires numbers { HasNumbers book.rules create.now × HasNumbers book.rules delete.now }
    requires seats { (seats.items ≡ []) × (1 ≤ vec_capacity seats) }
{
    let _len = book.len();
    let Ok((service, mut root)) = Service::start(alloc, book) else {
        return false;
    };
    let Ok(mut seat) = service.open_seat(&mut root) else {
        unreachable!()
    };
    let numbered = root.number() == 1 && root.out() == 1 && seat.number() == 2;
    let made = are_made(rt, &service, &mut seat, create, delete);
    let erased = is_erased(rt, &service, &mut root, object);
    let gone = is_gone(rt, &service, &mut seat, object, 3);
    seats.push_reserved(seat);
    let book = service.close(root, seats);
    let done = is_done(&book);
    drop(book.into_disk());
    numbered && made && erased && gone && done
}

// Whether two seats take turns over a store on this disk.
fn take_turns<W: Wait, R: Rig + Drop>(rt: &W, alloc: Global, disk: R) -> Result<bool, Fail> {
    let object = id(1)?;
    let create = call_of(alloc, Order::Create(USER, 1))?;
    let delete = call_of(alloc, Order::Delete(1, 40))?;
    let seats = Vec::with_capacity(alloc, 1)?;
    let book = store_on(alloc, disk)?;
    if !is_numbered(book.rules(), &create) || !is_numbered(book.rules(), &delete) {
        drop(book.into_disk());
        return Ok(false);
    }
    Ok(is_closed_by_two(rt, alloc, book, seats, &create, &delete, object))
}

#[test]
fn two_seats_take_turns(rt: HostRuntime) -> Result<(), Fail> {
    let alloc = rt.alloc();
    let taken = take_turns(&rt, alloc, blank(alloc, &[])?)?;
    assert!(rt; taken);
    Ok(())
}
