//! Calls in turn beside a plain sorted list, where there is memory.
use crate::ObjectShards;
use delf_model::{ObjectId, ObjectRow, TypeNo};
use std::alloc::Global;
use std::test::Fail;

fn id(n: u64) -> Result<ObjectId, Fail> {
    Ok(ObjectId::new(n).ok_or("no id")?)
}

fn row(n: u64, due: u64) -> Result<ObjectRow, Fail> {
    Ok(ObjectRow {
        id: id(n)?,
        kind: TypeNo(0),
        birth: 7,
        due,
        at: 7,
        size: 0,
    })
}

/// Puts the row where its id is free.
fn add(shards: &mut ObjectShards, row: ObjectRow) -> Result<bool, Fail> {
    if shards.object(row.id).is_some() {
        return Ok(false);
    }
    shards.ready_object(row.id)?;
    shards.put_object(row);
    Ok(true)
}

/// The next of a row of drawn numbers.
fn draw(seed: u64) -> u64 {
    seed.wrapping_mul(6_364_136_223_846_793_005)
        .wrapping_add(1_442_695_040_888_963_407)
}

/// What the least due object is by a plain list.
fn least_due(rows: &[ObjectRow], moment: u64, after: u64) -> u64 {
    for row in rows {
        if row.id.get() > after && row.due > 0 && row.due <= moment {
            return row.id.get();
        }
    }
    0
}

/// Whether both hold the same rows in the same order.
fn same(alloc: Global, shards: &ObjectShards, rows: &[ObjectRow]) -> Result<bool, Fail> {
    let held = shards.objects(alloc)?;
    if held.len() != rows.len() {
        return Ok(false);
    }
    for i in 0..held.len() {
        if held[i] != rows[i] {
            return Ok(false);
        }
    }
    Ok(true)
}

#[test]
fn ids_that_rise_and_fall(rt: HostRuntime) -> Result<(), Fail> {
    let mut rising = ObjectShards::empty(rt.alloc())?;
    let mut falling = ObjectShards::empty(rt.alloc())?;
    for n in 1..1001 {
        add(&mut rising, row(n, n + 50)?)?;
        add(&mut falling, row(1001 - n, 1051 - n)?)?;
    }
    let rows = rising.objects(rt.alloc())?;
    assert_eq!(rt; rows.len(), 1000);
    assert!(rt; same(rt.alloc(), &falling, &rows)?);
    assert!(rt; falling.next_due(50, None).is_none());
    let due = falling.next_due(900, Some(id(700)?)).ok_or("none due")?;
    assert_eq!(rt; due.get(), 701);
    assert!(rt; rising.next_due(900, Some(id(850)?)).is_none());
    Ok(())
}

#[test]
fn a_wave_is_taken_in_the_order_of_ids(rt: HostRuntime) -> Result<(), Fail> {
    let mut shards = ObjectShards::empty(rt.alloc())?;
    for n in 1..2001 {
        add(&mut shards, row(n, if n % 3 == 0 { 5000 - n } else { 0 })?)?;
    }
    for taken in 0..666u64 {
        let next = shards.next_due(5000, None).ok_or("none due")?;
        assert_eq!(rt; next.get(), 3 * taken + 3);
        assert!(rt; shards.take_object(next).is_some());
    }
    assert!(rt; shards.next_due(u64::MAX, None).is_none());
    assert_eq!(rt; shards.objects(rt.alloc())?.len(), 1334);
    Ok(())
}

const ROWS: u64 = 300_000;

#[test]
fn a_wave_of_many_rows_is_taken_one_by_one(rt: HostRuntime) -> Result<(), Fail> {
    let mut shards = ObjectShards::empty(rt.alloc())?;
    // The first half is due after the second.
    for n in 1..ROWS + 1 {
        add(
            &mut shards,
            row(n, if n <= ROWS / 2 { 9000 } else { 5000 })?,
        )?;
    }
    for taken in 0..ROWS / 2 {
        let next = shards.next_due(5000, None).ok_or("none due")?;
        assert_eq!(rt; next.get(), ROWS / 2 + taken + 1);
        assert!(rt; shards.take_object(next).is_some());
    }
    assert!(rt; shards.next_due(8999, None).is_none());
    for taken in 0..ROWS / 2 {
        let next = shards.next_due(9000, None).ok_or("none due")?;
        assert_eq!(rt; next.get(), taken + 1);
        assert!(rt; shards.take_object(next).is_some());
    }
    assert!(rt; shards.objects(rt.alloc())?.is_empty());
    Ok(())
}

#[test]
fn drawn_calls_agree_with_a_plain_list(rt: HostRuntime) -> Result<(), Fail> {
    let mut shards = ObjectShards::empty(rt.alloc())?;
    let mut rows: Vec<ObjectRow> = Vec::new(rt.alloc());
    let mut seed = 11;
    for step in 0..6000u32 {
        seed = draw(seed);
        let n = id((seed >> 33) % 1500 + 1)?;
        let kind = (seed >> 20) % 8;
        let held = rows.iter().find(|row| row.id.get() == n.get()).copied();
        assert!(rt; shards.object(n) == held);
        if held.is_none() {
            assert!(rt; shards.take_object(n).is_none());
            if step <= 4500 {
                let new = row(n.get(), (seed >> 40) % 100)?;
                assert!(rt; add(&mut shards, new)?);
                let at = rows.iter().filter(|row| row.id.get() < n.get()).count();
                rows.insert(at, new)?;
            }
        } else if kind < 3 || step > 4500 {
            assert!(rt; shards.take_object(n) == held);
            rows.retain(|row| row.id.get() != n.get());
        } else if shards.object(n).is_some() {
            shards.rewrite_object(n, step, 9);
            for row in rows.iter_mut() {
                if row.id.get() == n.get() {
                    row.at = step;
                    row.size = 9;
                }
            }
        }
        let due = shards.next_due(kind * 9, Some(n)).map_or(0, |id| id.get());
        assert_eq!(rt; due, least_due(&rows, kind * 9, n.get()));
        if step % 500 == 0 {
            assert!(rt; same(rt.alloc(), &shards, &rows)?);
        }
    }
    assert!(rt; same(rt.alloc(), &shards, &rows)?);
    Ok(())
}
