//! That lanes and workers run at once. Each of these fails where they run one after the other.
ghost use Rattle.std.specs.Prelude.{◌≤◌};

use crate::blocks::{Left, leave};
use crate::gates::{Hold, Meeting, Watch};
use crate::orders::{Order, add_lane, store_with};
use crate::stores::{USER, blank};
use delf_model::{Lane, List};
use delf_service::Gate;
use std::alloc::Global;
use std::sync::Wait;
use std::test::Fail;
use std::thread::Threads;

// What a block leaves over a new store in which these orders were made before.
fn leave_behind<W: Threads + Wait + Sync, Q: Gate + Sync>(
    rt: &W,
    alloc: Global,
    before: &[Order],
    lanes: &[Lane],
    workers: u8,
    turns: u32,
    gate: &Q,
) -> Result<Left, Fail>
    requires { workers ≤ 16 }
{
    let book = store_with(alloc, before, blank(alloc, &[])?)?;
    Ok(leave(rt, alloc, book, lanes, workers, turns, gate))
}

// What so many lanes that make a user each, and so many workers, leave behind these orders.
fn meet<W: Threads + Wait + Sync, Q: Gate + Sync>(
    rt: &W,
    alloc: Global,
    before: &[Order],
    count: u64,
    workers: u8,
    gate: &Q,
) -> Result<Left, Fail>
    requires { workers ≤ 16 }
{
    let mut lanes = List::new(alloc);
    for n in 0..count {
        add_lane(
            alloc,
            &mut lanes,
            &[Order::Create(USER, n.saturating_add(3))],
        )?;
    }
    leave_behind(rt, alloc, before, lanes.as_slice(), workers, 8, gate)
}

#[test]
fn two_lanes_run_at_once(rt: HostRuntime) -> Result<(), Fail> {
    let gate = Meeting::of(2);
    let left = meet(&rt, rt.alloc(), &[], 2, 0, &gate)?;
    assert!(rt; gate.was_held());
    assert_eq!(rt;
        left,
        Left {
            len: 2,
            lanes: 2,
            accepted: 2
        }
    );
    Ok(())
}

#[test]
fn another_step_is_made_between(rt: HostRuntime) -> Result<(), Fail> {
    let before = [
        Order::Create(USER, 1),
        Order::Create(USER, 2),
        Order::Delete(1, 40),
        Order::Delete(2, 41),
    ];
    let gate = Hold::new();
    let left = meet(&rt, rt.alloc(), &before, 0, 2, &gate)?;
    assert!(rt; gate.saw_a_step());
    assert_eq!(rt;
        left,
        Left {
            len: 6,
            lanes: 0,
            accepted: 0
        }
    );
    Ok(())
}

#[test]
fn lanes_and_a_worker_run_at_once(rt: HostRuntime) -> Result<(), Fail> {
    let before = [Order::Create(USER, 1), Order::Delete(1, 40)];
    let gate = Meeting::of(3);
    let left = meet(&rt, rt.alloc(), &before, 2, 1, &gate)?;
    assert!(rt; gate.was_held());
    assert_eq!(rt;
        left,
        Left {
            len: 5,
            lanes: 2,
            accepted: 2
        }
    );
    Ok(())
}

#[test]
fn two_steps_are_told_at_once(rt: HostRuntime) -> Result<(), Fail> {
    let before = [
        Order::Create(USER, 1),
        Order::Create(USER, 2),
        Order::Delete(1, 40),
        Order::Delete(2, 41),
    ];
    let gate = Meeting::of_tellings(2);
    let left = meet(&rt, rt.alloc(), &before, 0, 2, &gate)?;
    assert!(rt; gate.was_held());
    assert_eq!(rt;
        left,
        Left {
            len: 6,
            lanes: 0,
            accepted: 0
        }
    );
    Ok(())
}

// What a lane that makes a user and deletes it, and one worker, leave.
fn watch<W: Threads + Wait + Sync>(rt: &W, alloc: Global, gate: &Watch) -> Result<Left, Fail> {
    let mut lanes = List::new(alloc);
    add_lane(
        alloc,
        &mut lanes,
        &[Order::Create(USER, 1), Order::Delete(1, 40)],
    )?;
    leave_behind(rt, alloc, &[], lanes.as_slice(), 1, u32::MAX, gate)
}

#[test]
fn a_worker_waits_for_the_steps_of_a_lane(rt: HostRuntime) -> Result<(), Fail> {
    let gate = Watch::new();
    let left = watch(&rt, rt.alloc(), &gate)?;
    assert!(rt; gate.saw_a_step());
    assert_eq!(rt;
        left,
        Left {
            len: 3,
            lanes: 1,
            accepted: 2
        }
    );
    Ok(())
}
