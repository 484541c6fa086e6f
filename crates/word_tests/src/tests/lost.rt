//! What is lost with a worker who stopped in mid-call, on the words of a pool.

ghost use Rattle.std.specs.Prelude.{◌<◌, ◌≤◌, length};
ghost use Rattle.ground.specs.Seats.{IsOf};
ghost use Rattle.word_tests.specs.Idle.{IsIdle, Stays};

use super::players::FreeSeat;
use super::{DEFAULTS, same};
use book::book::Book;
use book::losing::settle_without;
use book::share::hand_in;
use commons::closed::Closed;
use commons::limits::{Limits, SPENT};
use commons::refusal::Refusal;
use commons::shared::Commons;
use ground::pool::Ground;
use ground::seat::GroundSeat;
use mbuf::packets::Packets;
use stack_lf::words::WordCommons;
use std::alloc::Global;
use std::process::Abort;
use std::test::Fail;

/// The pool of three elements and two workers.
const THREE: Limits = Limits {
    population: 3,
    workers: 2,
    ..DEFAULTS
};

/// Why there is no second list, and what the put of the first was answered; or nothing, where there
/// is a second.
type PutBack = Option<(Refusal, Result<(), Refusal>)>;

/// Reserves one element, and reports whether it has.
fn reserve(ground: &Ground, seat: &mut GroundSeat) -> bool
    requires { IsOf ground.now seat.old }
    ensures { IsOf ground.now seat.new }
{
    let length = ground.load_length(seat);
    length == 3 && ground.reserve(seat, length, 1).is_ok()
}

/// Gets a list, and puts it back where there is no second one.
fn get_and_put_back(
    c: &mut WordCommons,
    first: &mut [u32],
    second: &mut [u32],
) -> Result<PutBack, Refusal>
    requires first { 0 < length first.old }
    requires second { 0 < length second.old }
    ensures { Stays c.old.seat c.new.seat }
{
    c.get_list(first)?;
    if let Err(cause) = c.get_list(second) {
        return Ok(Some((cause, c.put_list(first))));
    }
    Ok(None)
}

/// What seat 1 does once seat 2 is lost: gets two elements, no third, and puts the two back.
fn there_and_back<R: Abort>(rt: &R, ground: &Ground, free: FreeSeat) -> FreeSeat
    requires { IsIdle ground.now free.seat }
    ensures { IsOf ground.now result.seat }
{
    let mut c = WordCommons::new(ground, free.into_seat());
    let mut two = [0u32; 2];
    let mut one = [0u32; 1];
    let answer = get_and_put_back(&mut c, &mut two, &mut one);
    same(
        rt,
        &(answer, two),
        &(Ok(Some((Refusal::NoEntries, Ok(())))), [0, 1]),
        "two of three and no third, and the two go back",
    );
    FreeSeat {
        seat: c.into_seat(),
    }
}

/// Reserves one element and cuts it. It stays in the hand.
fn cut_one(ground: &Ground, seat: &mut GroundSeat) -> bool
    requires { IsOf ground.now seat.old }
    ensures { IsOf ground.now seat.new }
{
    let length = ground.load_length(seat);
    if length == 0 {
        return false;
    }
    match ground.reserve(seat, length, 1) {
        Ok(()) => cut_reserved(ground, seat),
        Err(_) => false,
    }
}

/// Walks from the head to the one element that is reserved, and cuts it.
fn cut_reserved(ground: &Ground, seat: &mut GroundSeat) -> bool
    requires of { IsOf ground.now seat.old }
    requires credit { 1 ≤ seat.old.known.view.credit }
    ensures { IsOf ground.now seat.new }
{
    let head = ground.load_head(seat);
    if head.top == 0 || head.count >= SPENT {
        return false;
    }
    let next = ground.load_link(seat, head.top - 1);
    ground.cut(seat, head, next).is_ok()
}

/// What is lost of a closed pool with worker 2, by the share of worker 1, whose hand is empty.
fn lost_of(alloc: Global, closed: Closed) -> Result<Vec<u32>, Fail> {
    let mut book = Book::make(alloc, &THREE)?;
    let packets = match Packets::make(alloc, &THREE, 1) {
        Ok(packets) => packets,
        Err(cause) => {
            book.lose();
            return Err(Fail::from(cause));
        }
    };
    if let Err((_, share)) = book.deposit(hand_in(packets)) {
        share.lose();
    }
    match settle_without(alloc, closed, book, &[2]) {
        Ok(elems) => Ok(elems),
        Err((_, _, book)) => {
            book.lose();
            Err(Fail::from(Refusal::OutOfMemory))
        }
    }
}

/// The pool closed by the one seat that is left.
fn closed_by(ground: Ground, free: FreeSeat) -> Result<Closed, Fail>
    requires { IsOf ground free.seat }
{
    match ground.close(free.into_seat()) {
        Ok(closed) => Ok(closed),
        Err((cause, _, seat)) => {
            seat.lose();
            Err(Fail::from(cause))
        }
    }
}

/// The row "lost with a reservation".
#[test]
fn with_a_reservation_no_element_is_lost(rt: HostRuntime) -> Result<(), Fail> {
    let (ground, seat) = Ground::make(rt.alloc(), &THREE)?;
    let mut first = FreeSeat { seat };
    let mut second = FreeSeat {
        seat: ground.split(&mut first.seat),
    };
    let reserved = reserve(&ground, &mut second.seat);
    same(&rt, &reserved, &true, "the reservation");
    let first = there_and_back(&rt, &ground, first);
    let closed = closed_by(ground, first)?;
    let words = (closed.top, closed.length, closed.links.as_slice());
    same(
        &rt,
        &words,
        &(2, 2, [3, 1, 0].as_slice()),
        "the walk is 1 0 2",
    );
    let lost = lost_of(rt.alloc(), closed)?;
    same(&rt, &lost.as_slice(), &[].as_slice(), "a reservation");
    Ok(())
}

/// The row "lost with an element".
#[test]
fn an_element_in_the_hand_of_a_lost_worker_is_lost(rt: HostRuntime) -> Result<(), Fail> {
    let (ground, seat) = Ground::make(rt.alloc(), &THREE)?;
    let mut first = FreeSeat { seat };
    let mut second = FreeSeat {
        seat: ground.split(&mut first.seat),
    };
    let cut = cut_one(&ground, &mut second.seat);
    same(&rt, &cut, &true, "the cut");
    let closed = closed_by(ground, first)?;
    let lost = lost_of(rt.alloc(), closed)?;
    same(
        &rt,
        &lost.as_slice(),
        &[0].as_slice(),
        "an element in the hand",
    );
    Ok(())
}
