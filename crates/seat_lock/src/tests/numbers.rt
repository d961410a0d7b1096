//! A list of seat numbers. Each seat adds its own.
ghost use Rattle.std.specs.Prelude.{◌≡◌, ◌≢◌, ℕ, ◌+◌, ◌<◌, ◌≤◌, ◌^◌, [], ◌∷◌, ◌++◌, Some, IfSome, is_ok, if◌then◌else◌, vec_len, replicate};
ghost use Rattle.std.specs.Thread.{IsSync};
ghost use Rattle.seat_lock.specs.Lists.{StartsWith, StartsWith-itself, StartsWith-chain, with_added};
ghost use Rattle.seat_lock.specs.Views.{made_by};
ghost use Rattle.seat_lock.specs.Locks.{view, IsOf};

use crate::{Counted, Seat, SeatLock};
use std::alloc::{AllocError, Global};
use std::collections::LinkedList;
use std::sync::Wait;
use std::test::Fail;
use std::thread::{Threads, join};

#[derive(Drop)]
struct Numbers {
    list: Vec<u32>,
    ghost small: { vec_len list < 2 ^ 32 },
}

impl Counted for Numbers {
    type State = LinkedList<u32>;

    type Entry = u32;

    ghost state = { λ n. n.list.items };

    ghost blank = { [] };

    ghost entries = { λ s. s };

    ghost maker = { λ e. Some e };

    ghost follows = { StartsWith };

    ghost itself = { StartsWith-itself };

    ghost chain = { StartsWith-chain };

    ghost grows = { λ s t h. h };

    fn count(&self) -> u32 {
        self.list.len() as u32
    }
}

impl Numbers {
    // Adds a number, where there is memory for it and room in the count.
    fn add(&mut self, number: u32) -> Result<(), AllocError>
        ensures { self.new.list.items ≡ with_added (is_ok result) number self.old.list.items }
    {
        if self.list.len() >= u32::MAX as usize {
            return Err(AllocError);
        }
        self.list.push(number)?;
        Ok(())
    }
}

// Takes so many turns, and adds the seat's number in each. Says in how many there was memory for it.
fn fill<R: Wait>(
    rt: &R,
    lock: &SeatLock<Numbers>,
    mut seat: Seat<Numbers>,
    turns: u32,
) -> (u32, Seat<Numbers>)
    requires { IsOf lock.now seat }
    ensures ours { IsOf lock.now result.1 }
    ensures made { (view result.1).made ≡ (view seat).made ++ replicate result.0 (view seat).number }
    ensures same { ((view result.1).number ≡ (view seat).number) × ((view result.1).next ≡ (view seat).next) }
{
    let number = seat.number();
    let mut added = 0;
    for _ in 0..turns {
        let outcome = lock.with(
            rt,
            &mut seat,
            |numbers: &mut Numbers| -> Result<(), AllocError>
                ensures { numbers.new.list.items ≡ with_added (is_ok result) number numbers.old.list.items }
            { numbers.add(number) },
        );
        if outcome.is_ok() {
            added += 1;
        }
    }
    (added, seat)
}

// Two threads take so many turns each. Gives in how many the seats 1 and 2 added their number, and the list.
fn filled_by_two<R: Threads + Wait + Sync>(
    rt: &R,
    alloc: Global,
    turns: u32,
) -> Option<(u32, u32, Vec<u32>)>
    ensures one { IfSome result (λ r. made_by Some 1 r.2.items ≡ replicate r.0 1) }
    ensures two { IfSome result (λ r. made_by Some 2 r.2.items ≡ replicate r.1 2) }
    ensures others { IfSome result (λ r. (n : ℕ) → n ≢ 1 → n ≢ 2 → made_by Some n r.2.items ≡ []) }
{
    let Ok((lock, mut root)) = SeatLock::new(alloc, no_numbers(alloc), 0) else {
        return None;
    };
    let one = lock.split(&mut root).unwrap();
    let two = lock.split(&mut root).unwrap();
    let shared = &lock;
    let (one, two) = join(
        rt,
        move || -> (u32, Seat<Numbers>)
            requires { IsSync R.row × IsOf shared.now one }
            ensures ours { IsOf shared.entry.now result.1 }
            ensures made { (view result.1).made ≡ (view one).made ++ replicate result.0 (view one).number }
            ensures same { ((view result.1).number ≡ (view one).number) × ((view result.1).next ≡ (view one).next) }
        { fill(rt, shared, one, turns) },
        move || -> (u32, Seat<Numbers>)
            requires { IsSync R.row × IsOf shared.now two }
            ensures ours { IsOf shared.entry.now result.1 }
            ensures made { (view result.1).made ≡ (view two).made ++ replicate result.0 (view two).number }
            ensures same { ((view result.1).number ≡ (view two).number) × ((view result.1).next ≡ (view two).next) }
        { fill(rt, shared, two, turns) },
    );
    lock.join(&mut root, one.1);
    lock.join(&mut root, two.1);
    let Numbers { list } = lock.close(root);
    Some((one.0, two.0, list))
}

fn no_numbers(alloc: Global) -> Numbers
    ensures { result.list.items ≡ [] }
{
    Numbers {
        list: Vec::new(alloc),
    }
}

#[test]
fn two_threads_take_a_thousand_turns_each(rt: HostRuntime) -> Result<(), Fail> {
    let (one, two, list) = filled_by_two(&rt, rt.alloc(), 1000).ok_or("no memory")?;
    assert_eq!(rt; (one, two), (1000, 1000));
    assert_eq!(rt; list.len(), 2000);
    assert_eq!(rt; list.iter().filter(|n| **n == 1).count(), 1000);
    assert_eq!(rt; list.iter().filter(|n| **n == 2).count(), 1000);
    Ok(())
}

#[test]
fn seats_are_numbered_and_counted(rt: HostRuntime) -> Result<(), Fail> {
    let alloc: Global = rt.alloc();
    let Ok((lock, mut root)) = SeatLock::new(alloc, no_numbers(alloc), 7) else {
        return Err(Fail::from("no memory"));
    };
    assert!(rt; root.number() == 7 && root.seen() == 0 && root.out() == 0 && lock.can_split(&root));
    let seat = lock.split(&mut root).unwrap();
    assert!(rt; seat.number() == 8 && seat.out() == 0 && root.out() == 1 && !lock.can_split(&seat));
    let (added, seat) = fill(&rt, &lock, seat, 3);
    assert!(rt; added == 3 && seat.seen() == 3 && root.seen() == 0);
    lock.join(&mut root, seat);
    assert!(rt; root.seen() == 3 && root.out() == 0);
    let Numbers { list } = lock.close(root);
    assert_eq!(rt; list.as_slice(), [8, 8, 8].as_slice());
    Ok(())
}

#[test]
fn the_last_number_is_given(rt: HostRuntime) -> Result<(), Fail> {
    let alloc: Global = rt.alloc();
    let Ok((lock, mut root)) = SeatLock::new(alloc, no_numbers(alloc), u32::MAX - 1) else {
        return Err(Fail::from("no memory"));
    };
    assert!(rt; lock.can_split(&root));
    let last = lock.split(&mut root).unwrap();
    assert!(rt; last.number() == u32::MAX && !lock.can_split(&root));
    lock.join(&mut root, last);
    let Numbers { list } = lock.close(root);
    assert!(rt; list.is_empty());
    Ok(())
}
