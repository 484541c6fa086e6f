//! Scripts of steps that two players take on the words of a ground, beside the machine.

use crate::acts::{Act, Told, step_of};
use crate::pair::Pair;
use crate::schedules;
use crate::schedules::Row;
use commons::closed::Closed;
use commons::limits::Limits;
use commons::packet::{Packet, Seg};
use commons::refusal::Refusal;
use std::alloc::Global;
use std::fmt::Debug;
use std::process::Abort;
use std::test::Fail;
use step_core::step::Outcome;
use step_core::view::{Desk, View};
use step_core::world::World;

mod answers;
mod operations;
mod random;
mod seats;

use answers::is_same;

/// Asserts that both are equal, and else says of what, with both.
fn same<R: Abort, T: PartialEq + Debug>(rt: &R, given: &T, wanted: &T, what: &str) {
    assert!(rt; *given == *wanted, "{what}: {given:?}, not {wanted:?}");
}

/// A step of a worker by the machine.
fn told_by(world: &mut World, worker: u32, act: Act) -> Result<Outcome, Refusal> {
    world.step(worker, step_of(act))
}

/// A step of a worker by its player.
fn answer_of(pair: &mut Pair, worker: u32, act: Act) -> Result<Outcome, Refusal> {
    pair.step(worker, &step_of(act))
}

/// A player answers as the machine does.
fn assert_same_answer<R: Abort>(
    rt: &R,
    answer: &Result<Outcome, Refusal>,
    told: &Result<Outcome, Refusal>,
    worker: u32,
    act: Act,
    name: &str,
) {
    assert!(rt;
        is_same(answer, told),
        "{name}: worker {worker}: {act:?}: {answer:?} and not {told:?}"
    );
}

/// One step of a worker by the machine and by a player, who have to answer the same. Whether it
/// was played.
fn step_both<R: Abort>(
    rt: &R,
    world: &mut World,
    pair: &mut Pair,
    worker: u32,
    act: Act,
    name: &str,
) -> bool {
    let told = told_by(world, worker, act);
    let answer = answer_of(pair, worker, act);
    assert_same_answer(rt, &answer, &told, worker, act, name);
    answer.is_ok()
}

/// Whether a worker's view is the one that the machine has of it, as far as they name elements.
fn assert_view<R: Abort>(rt: &R, view: &View, told: &View, worker: u32, name: &str) {
    let given = (worker, view.credit, view.seen);
    same(rt, &given, &(worker, told.credit, told.seen), name);
    for (elems, wanted) in [
        (&view.hand, &told.hand),
        (&view.zeros, &told.zeros),
        (&view.holds, &told.holds),
        (&view.headers, &told.headers),
    ] {
        let given = (worker, elems.as_slice());
        same(rt, &given, &(worker, wanted.as_slice()), name);
    }
}

/// Whether the views of both players are those of both workers, as far as they name elements. A
/// player that hasn't seen yet what it seized is left out.
fn assert_views<R: Abort>(rt: &R, world: &World, pair: &Pair, name: &str) {
    for (worker, told) in (1u32..=2).zip(world.views()) {
        if pair.sees_all(worker) {
            assert_view(rt, pair.view(worker), told, worker, name);
        }
    }
}

/// The segments of a packet, or none.
fn segs_of(packet: &Option<Packet>) -> &[Seg] {
    match packet {
        Some(packet) => packet.segs(),
        None => &[],
    }
}

/// The segments of the packet of a full desk, or none.
fn segs_on(desk: &Desk) -> &[Seg] {
    if desk.word == 2 {
        segs_of(&desk.slot)
    } else {
        &[]
    }
}

/// Whether a closed ground has the words of this world, and the packets of its full desks.
fn assert_closed<R: Abort>(rt: &R, world: &World, closed: &Closed, name: &str) {
    let given = (closed.top, closed.length, closed.desks.len());
    let wanted = (world.head().top, world.length(), world.desks().len());
    same(rt, &given, &wanted, name);
    let given = (closed.links.as_slice(), closed.counts.as_slice());
    same(rt, &given, &(world.links(), world.counts()), name);
    for (packet, desk) in closed.desks.as_slice().iter().zip(world.desks()) {
        same(rt, &segs_of(packet), &segs_on(desk), name);
    }
}

/// A world of these limits, and two players on a ground of the same.
fn open_both(alloc: Global, limits: &Limits) -> Result<(World, Pair), Refusal> {
    let world = World::open(alloc, limits)?;
    let pair = Pair::make(alloc, limits)?;
    Ok((world, pair))
}

/// Closes the ground, and compares the views before that and the words after it.
fn close_both<R: Abort>(rt: &R, world: &World, pair: Pair, name: &str) -> Result<Closed, Refusal> {
    assert_views(rt, world, &pair, name);
    let closed = pair.close()?;
    assert_closed(rt, world, &closed, name);
    Ok(closed)
}

/// Plays these steps by both.
fn step_all<R: Abort>(
    rt: &R,
    world: &mut World,
    pair: &mut Pair,
    steps: &[(u32, Act, Told)],
    name: &str,
) {
    for (worker, act, _told) in steps {
        step_both(rt, world, pair, *worker, *act, name);
    }
}

/// Plays a row by the machine and by two players, and compares each answer and the words at the
/// end.
fn play_both<R: Abort + AllocGlobal>(
    rt: &R,
    (name, limits, steps, _end): &Row,
) -> Result<Closed, Refusal> {
    let (mut world, mut pair) = open_both(rt.alloc(), limits)?;
    step_all(rt, &mut world, &mut pair, steps, name);
    close_both(rt, &world, pair, name)
}

#[test]
fn two_players_answer_each_row_of_steps_as_the_machine_does(rt: HostRuntime) -> Result<(), Fail> {
    for rows in [schedules::STACK, schedules::COUNTS, schedules::REFUSED] {
        for row in rows {
            play_both(&rt, row)?;
        }
    }
    Ok(())
}

#[test]
fn a_list_of_two_elements_is_put_with_its_last_on_top(rt: HostRuntime) -> Result<(), Fail> {
    let closed = play_both(&rt, &schedules::LIST)?;
    let given = (closed.top, closed.length, closed.links.as_slice());
    same(&rt, &given, &(2, 3, [3, 1, 0].as_slice()), "a list");
    Ok(())
}
