//! What each kind of step tells the seat that makes it. `steps` has the steps themselves.
ghost use Rattle.jour_rule.specs.Moves.{loaded, looked, stored, staged, read, raised, copy_of, taken_in, spent, gave_cursor, new_cursor, gave_maker, new_maker};

use crate::law::Law;
use crate::views::View;
use atomic_table::{Join, Play, Split};
use std::marker::{Brand, PhantomData};

/// The number of the maker of an entry that a call appends. Each call picks its own.
pub trait Said {
    ghost use Rattle.std.specs.Prelude.{ℕ};

    ghost maker: { ℕ };
}

impl Said for Brand {
    ghost maker = { 0 };
}

/// A load of the head.
pub struct LoadHead<L> {
    law: PhantomData<L>,
}

impl<O, L: Law<O>> Play<(), View<O>> for LoadHead<L> {
    ghost then = { loaded L.meets };
}

/// A load of a cursor's position by another seat.
pub struct LoadPosition;

impl<O> Play<(), View<O>> for LoadPosition {
    ghost then = { looked };
}

/// A load of a word of the entry after a cursor's position.
pub struct LoadWord<L> {
    law: PhantomData<L>,
}

impl<O, L: Law<O>> Play<(), View<O>> for LoadWord<L> {
    ghost then = { read L.meets };
}

/// A store of a cursor's own position.
pub struct StorePosition<L> {
    law: PhantomData<L>,
}

impl<O, L: Law<O>> Play<(), View<O>> for StorePosition<L> {
    ghost then = { stored L.meets };
}

/// A store of a word of the entry to come.
pub struct StoreWord;

impl<O> Play<(), View<O>> for StoreWord {
    ghost then = { staged };
}

/// The store of the head by which an entry joins the list.
pub struct RaiseHead<N> {
    said: PhantomData<N>,
}

impl<O, N: Said> Play<(), View<O>> for RaiseHead<N> {
    ghost then = { raised N.maker };
}

/// A seat splits off a pass that has seen as much.
pub struct SplitPass;

impl<O> Split<View<O>> for SplitPass {
    ghost left = { λ v. v };

    ghost right = { copy_of };
}

/// The writer splits off a cursor.
pub struct GiveCursor;

impl<O> Split<View<O>> for GiveCursor {
    ghost left = { gave_cursor };

    ghost right = { new_cursor };
}

/// The writer splits off a maker.
pub struct GiveMaker;

impl<O> Split<View<O>> for GiveMaker {
    ghost left = { gave_maker };

    ghost right = { new_maker };
}

/// A seat takes in what another has seen, which is spent.
pub struct TakeIn<L> {
    law: PhantomData<L>,
}

impl<O, L: Law<O>> Join<View<O>> for TakeIn<L> {
    ghost both = { taken_in };

    ghost spent = { spent L.blank };
}
