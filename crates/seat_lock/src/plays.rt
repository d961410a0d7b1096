// The rule as the table takes it, and what each step tells. These types are for the proofs alone.
ghost use Rattle.seat_lock.specs.Views.{rooted, split_root, split_off, joined_root, gone};
ghost use Rattle.seat_lock.specs.Boxes.{in_box};
ghost use Rattle.seat_lock.specs.Turns.{Kept};
ghost use Rattle.seat_lock.specs.Plays.{drew, passed, rang, learned, looked, raised};

use crate::counted::Counted;
use crate::view::View;
use atomic_table::{Join, Play, Split, TableRule};
use std::marker::PhantomData;
use std::snapshot::Snapshot;

// What the lock began with.
pub struct Origin<V> {
    pub first: u32,
    pub start: Snapshot<V>,
}

impl<V> Drop for Origin<V> {
    fn drop(self) {
        let Self { first: _, start: _ } = self;
    }
}

pub struct Turns;

impl<V: Counted> TableRule<Option<Box<V>>, View<V::State, V::Entry>, Origin<V>> for Turns {
    ghost holds = { λ k. Kept (in_box V.state) V.entries V.maker V.follows k.first (V.state k.start.value) };

    ghost first = { λ k. rooted k.first (V.state k.start.value) };
}

pub struct Draw;

impl<T, S, E> Play<Option<T>, View<S, E>> for Draw {
    ghost then = { drew };
}

pub struct Look;

impl<V: Counted> Play<Option<Box<V>>, View<V::State, V::Entry>> for Look {
    ghost then = { looked (in_box V.state) V.entries V.maker V.follows };
}

pub struct Raise;

impl<V: Counted> Play<Option<Box<V>>, View<V::State, V::Entry>> for Raise {
    ghost then = { raised (in_box V.state) V.entries V.maker V.follows };
}

pub struct Pass;

impl<T, S, E> Play<Option<T>, View<S, E>> for Pass {
    ghost then = { passed };
}

pub struct Ring;

impl<T, S, E> Play<Option<T>, View<S, E>> for Ring {
    ghost then = { rang };
}

pub struct Learn;

impl<V: Counted> Play<Option<Box<V>>, View<V::State, V::Entry>> for Learn {
    ghost then = { learned V.follows };
}

pub struct Cut;

impl<S, E> Split<View<S, E>> for Cut {
    ghost left = { split_root };

    ghost right = { split_off };
}

pub struct Glue<V> {
    marker: PhantomData<V>,
}

impl<V: Counted> Join<View<V::State, V::Entry>> for Glue<V> {
    ghost both = { joined_root };

    ghost spent = { gone V.blank };
}
