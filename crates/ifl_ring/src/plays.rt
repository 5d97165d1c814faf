//! What each step tells. These types are for the proofs alone.
ghost use Rattle.ifl_ring.specs.Tells.{sees, reserved, refused, goes_behind, abdicated, drains, christened, met, left, went_forth, took_over};
ghost use Rattle.ifl_ring.specs.Law.{cut_left, cut_right, both, gone};

use crate::drainer::{Drainer, RingItem};
use crate::place::Place;
use crate::view::View;
use atomic_table::{Join, Play, Split};
use std::marker::PhantomData;

/// A look at the word.
pub struct See;

impl<I, D, O> Play<Place<I, D>, View<O>> for See {
    ghost then = { sees };
}

/// The head is moved over places that are reserved.
pub struct Reserve;

impl<I, D, O> Play<Place<I, D>, View<O>> for Reserve {
    ghost then = { reserved };
}

/// Items are published behind a consumer.
pub struct Publish<D> {
    drainer: PhantomData<D>,
}

impl<D: Drainer> Play<Place<D::Item, D>, View<D::Origin>> for Publish<D> {
    ghost then = { goes_behind D.Item.meaning };
}

/// Items are published, and the seat is the consumer.
pub struct Elect<D> {
    drainer: PhantomData<D>,
}

impl<D: Drainer> Play<Place<D::Item, D>, View<D::Origin>> for Elect<D> {
    ghost then = { drains D.Item.meaning D.origin D.settled D.full D.stands_for };
}

/// The first look of a new seat, which tells its number.
pub struct Name;

impl<I, D, O> Play<Place<I, D>, View<O>> for Name {
    ghost then = { christened };
}

/// The look after a join, which tells that both histories begin one.
pub struct Meet;

impl<I, D, O> Play<Place<I, D>, View<O>> for Meet {
    ghost then = { met };
}

/// A seat is cut in two.
pub struct Cut;

impl<O> Split<View<O>> for Cut {
    ghost left = { cut_left };

    ghost right = { cut_right };
}

/// Two seats become one.
pub struct Glue;

impl<O> Join<View<O>> for Glue {
    ghost both = { both };

    ghost spent = { gone };
}

/// A consumer leaves, and the drainer goes home.
pub struct Leave;

impl<I, D, O> Play<Place<I, D>, View<O>> for Leave {
    ghost then = { left };
}

/// A consumer shows how far it has come, and goes on.
pub struct GoOn<D> {
    drainer: PhantomData<D>,
}

impl<D: Drainer> Play<Place<D::Item, D>, View<D::Origin>> for GoOn<D> {
    ghost then = { went_forth D.Item.meaning D.origin D.settled D.full D.stands_for };
}

/// A seat becomes the consumer of what was left.
pub struct TakeOver<D> {
    drainer: PhantomData<D>,
}

impl<D: Drainer> Play<Place<D::Item, D>, View<D::Origin>> for TakeOver<D> {
    ghost then = { took_over D.Item.meaning D.origin D.settled D.full D.stands_for };
}

/// An exchange that always fails: a refusal where there is no room, and else a look.
pub struct Refuse;

impl<I, D, O> Play<Place<I, D>, View<O>> for Refuse {
    ghost then = { refused };
}

/// Items are published and left to another consumer.
pub struct Abdicate<D> {
    drainer: PhantomData<D>,
}

impl<D: Drainer> Play<Place<D::Item, D>, View<D::Origin>> for Abdicate<D> {
    ghost then = { abdicated D.Item.meaning };
}
