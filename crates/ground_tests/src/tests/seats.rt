//! Grounds of the least and the most elements, and one of the most seats.

ghost use Rattle.ground.specs.Seats.{IsOf};

use super::same;
use crate::acts::{Act, step_of};
use crate::player::Player;
use crate::schedules::TWO;
use commons::closed::Closed;
use commons::limits::Limits;
use commons::refusal::Refusal;
use ground::pool::Ground;
use ground::seat::GroundSeat;
use std::alloc::Global;
use std::process::Abort;
use std::test::Fail;
use step_core::step::Outcome;
use step_core::view::WORKER_PART;

/// The elements, and the seats.
const SEATS: u64 = 64;

/// All parts of as many workers.
const PARTS: u64 = SEATS * WORKER_PART;

/// A step is played, and not refused.
fn assert_played<R: Abort>(rt: &R, answer: &Result<Outcome, Refusal>, act: Act) {
    assert!(rt; answer.is_ok(), "{act:?}: {answer:?}");
}

/// One step of a player, which has to be played. What it answers.
fn played<R: Abort>(rt: &R, pool: &Ground, player: &mut Player, act: Act) -> Option<Outcome>
    requires { IsOf pool.now player.old.seat }
    ensures { IsOf pool.now player.new.seat }
{
    let answer = player.step(pool, &step_of(act));
    assert_played(rt, &answer, act);
    answer.ok()
}

/// The elements that were cut, or none.
fn got(answer: &Option<Outcome>) -> &[u32] {
    match answer {
        Some(Outcome::Got(elems)) => elems.as_slice(),
        _ => &[],
    }
}

/// Takes the element on top of a common list of this length.
pub(super) fn take_one<R: Abort>(
    rt: &R,
    pool: &Ground,
    player: &mut Player,
    element: u32,
    length: u64,
)
    requires { IsOf pool.now player.old.seat }
    ensures { IsOf pool.now player.new.seat }
{
    played(rt, pool, player, Act::Reserve(length, 1));
    played(rt, pool, player, Act::LoadHead);
    played(rt, pool, player, Act::LoadLink(u64::from(element)));
    let answer = played(rt, pool, player, Act::Cut);
    same(rt, &got(&answer), &[element].as_slice(), "a seat's element");
}

/// Joins a seat's player to the first, which takes over what it has.
pub(super) fn join_one<R: Abort>(
    rt: &R,
    pool: &Ground,
    first: &mut Player,
    other: Player,
    place: u32,
)
    requires of { IsOf pool.now first.old.seat }
    requires other_of { IsOf pool.now other.seat }
    ensures { IsOf pool.now first.new.seat }
{
    let mut is_joined = true;
    if let Some(other) = first.join(pool, other) {
        other.lose();
        is_joined = false;
    }
    same(rt, &(place, is_joined), &(place, true), "a seat was joined");
}

/// Splits this many more seats off, and then each of them takes one element, the first seat the
/// element on top. They are joined again after that.
fn take_each<R: Abort>(rt: &R, pool: &Ground, first: &mut Player, more: u32)
    requires { IsOf pool.now first.old.seat }
    ensures { IsOf pool.now first.new.seat }
{
    let length = SEATS.saturating_sub(u64::from(more));
    if more == 0 {
        take_one(rt, pool, first, more, length);
        return;
    }
    let Some(mut other) = first.split(pool) else {
        same(rt, &more, &0, "seats that are still to be split off");
        return;
    };
    take_each(rt, pool, first, more - 1);
    take_one(rt, pool, &mut other, more, length);
    join_one(rt, pool, first, other, more);
}

/// A player between calls has all seats and all elements.
fn assert_has_all<R: Abort>(rt: &R, player: &Player) {
    let view = player.view();
    let given = (view.part, view.hand.len(), player.is_at_rest());
    same(rt, &given, &(PARTS, 64, true), "all seats joined");
    for element in 0..64 {
        let given = (element, view.hand.count(element));
        same(rt, &given, &(element, 1), "an element of all");
    }
}

#[test]
fn each_of_64_seats_takes_one_of_64_elements(rt: HostRuntime) -> Result<(), Fail> {
    let limits = Limits {
        population: SEATS,
        workers: SEATS,
        ..TWO
    };
    let (pool, mut first) = Player::make(rt.alloc(), &limits)?;
    same(&rt, &first.view().part, &PARTS, "the first seat's parts");
    take_each(&rt, &pool, &mut first, 63);
    assert_has_all(&rt, &first);
    let closed = first.close(pool)?;
    same(&rt, &(closed.length, closed.top), &(0, 0), "all is taken");
    Ok(())
}

/// What is left of a ground of this many elements that nobody has used.
fn closed_unused(alloc: Global, population: u64) -> Result<Closed, Refusal> {
    let limits = Limits { population, ..TWO };
    let (pool, player) = Player::make(alloc, &limits)?;
    player.close(pool)
}

#[test]
fn the_least_and_the_greatest_ground_are_made_and_closed(rt: HostRuntime) -> Result<(), Fail> {
    for population in [1, 70_000, 16_777_214] {
        let closed = closed_unused(rt.alloc(), population)?;
        let sizes = (closed.links.len() as u64, closed.counts.len() as u64);
        let given = (closed.top, closed.length, sizes);
        let wanted = (1, population, (population, population));
        same(&rt, &given, &wanted, "a ground that nobody has used");
    }
    Ok(())
}

/// Closes a ground once more.
fn closed_again(pool: Ground, seat: GroundSeat) -> Option<Closed>
    requires { IsOf pool seat }
{
    match pool.close(seat) {
        Ok(closed) => Some(closed),
        Err((_, _, seat)) => {
            seat.lose();
            None
        }
    }
}

/// Closes a ground, and where memory was refused closes what came back once more.
fn closed_at_last<R: Abort>(rt: &R, pool: Ground, seat: GroundSeat) -> Option<Closed>
    requires { IsOf pool seat }
{
    match pool.close(seat) {
        Ok(closed) => Some(closed),
        Err((refusal, pool, seat)) => {
            same(rt, &refusal, &Refusal::OutOfMemory, "a close is refused");
            closed_again(pool, seat)
        }
    }
}

/// A ground of three elements and an empty desk has left all its words.
fn assert_whole<R: Abort>(rt: &R, closed: &Closed) {
    let what = "a closed ground of three";
    let given = (closed.top, closed.length, closed.desks.len());
    same(rt, &given, &(1, 3, 1), what);
    let given = (closed.links.as_slice(), closed.counts.as_slice());
    same(
        rt,
        &given,
        &([2, 3, 0].as_slice(), [1, 1, 1].as_slice()),
        what,
    );
    let is_empty = closed.desks.as_slice().iter().all(Option::is_none);
    same(rt, &is_empty, &true, "the desk is empty");
}

/// Whichever request for memory is refused, no ground with a desk is made, or it is closed with
/// all its words: what a refused close hands back closes the next time.
#[test]
fn refused_memory_loses_no_word(rt: HostRuntime) {
    let limits = Limits { desks: 1, ..TWO };
    match Ground::make(rt.alloc(), &limits) {
        Ok((pool, seat)) => {
            let closed = closed_at_last(&rt, pool, seat);
            same(&rt, &closed.is_some(), &true, "what was handed back closed");
            if let Some(closed) = &closed {
                assert_whole(&rt, closed);
            }
        }
        Err(cause) => same(&rt, &cause, &Refusal::OutOfMemory, "no ground is made"),
    }
}
