//! Random schedules of all steps, by two players beside the machine.

use super::{close_both, open_both, step_both};
use crate::acts::Act;
use crate::draws::Draws;
use crate::fit::{any_act, fit_step, view_of};
use crate::pair::Pair;
use commons::limits::{Limits, PutRule};
use commons::refusal::Refusal;
use std::process::Abort;
use std::test::Fail;
use step_core::view::{Phase, View};
use step_core::world::World;

/// Where the generator starts.
const SEED: u64 = 20_261_125;

/// How many schedules are played.
const SCHEDULES: u64 = 1_000;

/// Steps of a schedule, the refused ones too.
const STEPS: u64 = 60;

/// An act of each kind of step, from those that are drawn seldom to those drawn often. Their
/// numbers say nothing.
const KINDS: [Act; 20] = [
    Act::LoadLength,
    Act::LoadHead,
    Act::Add(0),
    Act::Sole(0),
    Act::Lower(0),
    Act::SoleFree(0),
    Act::Reserve(0, 0),
    Act::StoreLink(0, None),
    Act::LoadLink(0),
    Act::Push,
    Act::Cut,
    Act::Raise(0, 0),
    Act::Claim(0),
    Act::Reset(0),
    Act::Hold(0),
    Act::PutIn(0, 0, None),
    Act::Open(0),
    Act::Seize(0),
    Act::TakeOut(0),
    Act::Clear(0),
];

/// The limits of a small pool for two workers.
fn limits_of(draws: &mut Draws) -> Limits {
    Limits {
        population: draws.up_to(6),
        cache: 0,
        workers: 2,
        desks: draws.below(3),
        buf: 2048,
        ref_limit: draws.up_to(3),
        tries: 1,
        start_count: 0,
        put_rule: PutRule::Keep,
    }
}

/// A packet of a header, and of another element that is held or of none, for the busy desk.
fn put_in_of(view: &View, draws: &mut Draws) -> Option<Act> {
    let work = view.work.as_ref()?;
    let element = draws.pick(&view.headers)?;
    let base = draws.pick(&view.holds).filter(|base| *base != element);
    Some(Act::PutIn(work.desk, element, base))
}

/// This act; every other raise from one past the element's count, so that it is lost.
fn with_any_count(act: Act, draws: &mut Draws) -> Act {
    match act {
        Act::Raise(element, count) => Act::Raise(element, count.saturating_add(draws.below(2))),
        _ => act,
    }
}

/// An act of this kind that the worker of this number can play, if there is one.
fn fit_act(kind: Act, world: &World, worker: u32, draws: &mut Draws) -> Option<Act> {
    let view = view_of(world, worker)?;
    match kind {
        Act::PutIn(..) => put_in_of(view, draws),
        _ => Some(with_any_count(fit_step(kind, world, view, draws)?, draws)),
    }
}

/// An act of this kind with any numbers. What is put in is of no pool, so that nothing is opened
/// but what is a header of its worker.
fn unfit_act(kind: Act, draws: &mut Draws) -> Act {
    match any_act(kind, draws) {
        Act::PutIn(desk, ..) => Act::PutIn(desk, 8, None),
        act => act,
    }
}

/// The desk that a worker of this view has seized and not emptied.
fn seized_desk(view: &View) -> Option<u32> {
    let work = view.work.as_ref()?;
    match work.phase {
        Phase::Seized(_) => Some(work.desk),
        _ => None,
    }
}

/// Where the kind that takes a packet out stands in the table.
const TAKE_OUT: usize = 18;

/// A kind by its place in the table, a worker and an act: four times in five an act that the
/// worker can play, if one is soon found, and else any, by workers that aren't there too.
fn drawn_kind(world: &World, draws: &mut Draws) -> (usize, u32, Act) {
    if draws.below(5) > 0 {
        for _ in 0..32 {
            // Those further down need what those above them made.
            let kind = draws.below(20).max(draws.below(20)) as usize;
            let worker = draws.up_to(2) as u32;
            if let Some(act) = fit_act(KINDS[kind], world, worker, draws) {
                return (kind, worker, act);
            }
        }
    }
    let kind = draws.below(20) as usize;
    let worker = draws.below(4) as u32;
    (kind, worker, unfit_act(KINDS[kind], draws))
}

/// Draws a worker and an act so, but that a worker which has seized a desk takes the packet out,
/// since a player does nothing else then.
fn drawn_act(world: &World, draws: &mut Draws) -> (usize, u32, Act) {
    let (kind, worker, act) = drawn_kind(world, draws);
    match view_of(world, worker).and_then(seized_desk) {
        Some(desk) => (TAKE_OUT, worker, Act::TakeOut(desk)),
        None => (kind, worker, act),
    }
}

/// Plays a schedule by both, whose answers have to be the same. Notes which kinds were played.
fn step_random<R: Abort>(
    rt: &R,
    world: &mut World,
    pair: &mut Pair,
    draws: &mut Draws,
    played: &mut [bool; 20],
) {
    for _ in 0..STEPS {
        let (kind, worker, act) = drawn_act(world, draws);
        let is_played = step_both(rt, world, pair, worker, act, "random");
        if let Some(noted) = played.get_mut(kind) {
            *noted |= is_played;
        }
    }
}

/// Plays a schedule by both, and compares each answer and the words at the end. Notes which kinds
/// were played.
fn play_schedule<R: Abort + AllocGlobal>(
    rt: &R,
    draws: &mut Draws,
    played: &mut [bool; 20],
) -> Result<(), Refusal> {
    let limits = limits_of(draws);
    let (mut world, mut pair) = open_both(rt.alloc(), &limits)?;
    step_random(rt, &mut world, &mut pair, draws, played);
    close_both(rt, &world, pair, "random")?;
    Ok(())
}

#[test]
fn two_players_answer_random_schedules_as_the_machine_does(rt: HostRuntime) -> Result<(), Fail> {
    let mut draws = Draws::new(SEED);
    let mut played = [false; 20];
    for _ in 0..SCHEDULES {
        play_schedule(&rt, &mut draws, &mut played)?;
    }
    for kind in 0..20 {
        let act = KINDS[kind];
        assert!(&rt; played[kind], "{act:?} was never played");
    }
    Ok(())
}
