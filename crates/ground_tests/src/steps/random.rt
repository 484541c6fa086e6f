//! Random schedules of all kinds of step. After each step the elements are counted.

use super::places::assert_counted;
use super::{answer_of, same};
use crate::acts::Act;
use crate::draws::Draws;
use crate::fit::{any_act, fit_step, view_of};
use commons::limits::{Limits, PutRule};
use commons::refusal::Refusal;
use std::process::Abort;
use std::test::Fail;
use step_core::view::{Phase, View};
use step_core::world::World;

/// Where the generator starts.
const SEED: u64 = 20_261_124;

const SCHEDULES: u64 = 1_000;

/// Steps of a schedule, the refused ones too.
const STEPS: u64 = 40;

/// An act of each kind of step, of `Sole` two, from those that are drawn seldom to those drawn
/// often. Their numbers say nothing.
const KINDS: [Act; 20] = [
    Act::Add(0),
    Act::LoadLength,
    Act::LoadHead,
    Act::Reserve(0, 0),
    Act::LoadLink(0),
    Act::Cut,
    Act::StoreLink(0, None),
    Act::Push,
    Act::Sole(0),
    Act::SoleFree(0),
    Act::Lower(0),
    Act::Reset(0),
    Act::Raise(0, 0),
    Act::Claim(0),
    Act::Hold(0),
    Act::PutIn(0, 0, None),
    Act::Open(0),
    Act::Seize(0),
    Act::TakeOut(0),
    Act::Clear(0),
];

/// The limits of a small pool.
fn limits_of(draws: &mut Draws) -> Limits {
    Limits {
        population: draws.up_to(6),
        cache: 0,
        workers: draws.up_to(3),
        desks: draws.below(3),
        buf: 2048,
        ref_limit: draws.up_to(4),
        tries: 1,
        start_count: 0,
        put_rule: PutRule::Keep,
    }
}

/// The busy desk of a worker of this view, where it is to be filled.
fn desk_to_fill(view: &View) -> Option<u32> {
    let work = view.work.as_ref()?;
    match work.phase {
        Phase::ToFill => Some(work.desk),
        _ => None,
    }
}

/// A packet of an element held, every other time with a base that is held too.
fn put_in_of(view: &View, draws: &mut Draws) -> Option<Act> {
    let desk = desk_to_fill(view)?;
    let element = draws.pick(&view.holds)?;
    let base = if draws.below(2) == 0 {
        draws.pick(&view.holds)
    } else {
        None
    };
    Some(Act::PutIn(desk, element, base))
}

/// Whether the desk has this word.
fn has_word(world: &World, desk: u32, word: u64) -> bool {
    match world.desks().get(desk as usize) {
        Some(desk) => desk.word == word,
        None => false,
    }
}

/// Whether this act is drawn: of raises, holds and seizures those alone that win.
fn is_drawn(world: &World, act: Act) -> bool {
    match act {
        Act::Raise(_, count) => count < world.limits().ref_limit,
        Act::Hold(desk) => has_word(world, desk, 0),
        Act::Seize(desk) => has_word(world, desk, 2),
        _ => true,
    }
}

/// An act of this kind that the worker of this number can play, if there is one.
fn fit_act(kind: Act, world: &World, worker: u32, draws: &mut Draws) -> Option<Act> {
    let view = view_of(world, worker)?;
    match kind {
        Act::PutIn(..) => put_in_of(view, draws),
        _ => fit_step(kind, world, view, draws).filter(|act| is_drawn(world, *act)),
    }
}

/// The place of a kind in the table, a worker and an act: four times in five an act that the worker
/// can play, if one is soon found, and else any.
fn drawn_act(world: &World, draws: &mut Draws) -> (usize, u32, Act) {
    if draws.below(5) > 0 {
        for _ in 0..32 {
            // Those further down need what those above them made.
            let kind = draws.below(20).max(draws.below(20)) as usize;
            let worker = draws.up_to(world.limits().workers.clamp(1, 3)) as u32;
            if let Some(act) = fit_act(KINDS[kind], world, worker, draws) {
                return (kind, worker, act);
            }
        }
    }
    let kind = draws.below(20) as usize;
    let worker = draws.below(5) as u32;
    (kind, worker, any_act(KINDS[kind], draws))
}

/// How often an act of each kind was played and refused.
#[derive(Drop)]
struct Tally {
    played: [u64; 20],
    refused: [u64; 20],
}

impl Tally {
    /// Counts one more act of this kind.
    fn note(&mut self, kind: usize, is_played: bool) {
        let times = if is_played {
            &mut self.played
        } else {
            &mut self.refused
        };
        if let Some(times) = times.get_mut(kind) {
            *times = times.saturating_add(1);
        }
    }
}

/// A step that wasn't played was refused for no other cause.
fn assert_refused<R: Abort>(rt: &R, cause: Option<Refusal>, schedule: u64, step: u64) {
    let given = cause.unwrap_or(Refusal::StepRefused);
    let wanted = (schedule, step, Refusal::StepRefused);
    same(rt, &(schedule, step, given), &wanted, "schedule and step");
}

/// Plays a schedule, and counts the elements after each step.
fn play_schedule<R: Abort + AllocGlobal>(
    rt: &R,
    schedule: u64,
    draws: &mut Draws,
    tally: &mut Tally,
) -> Result<(), Fail> {
    let mut world = World::open(rt.alloc(), &limits_of(draws))?;
    for step in 0..STEPS {
        let (kind, worker, act) = drawn_act(&world, draws);
        let cause = answer_of(&mut world, worker, act).err();
        tally.note(kind, cause.is_none());
        assert_refused(rt, cause, schedule, step);
        assert_counted(rt, &world, schedule, step);
    }
    Ok(())
}

#[test]
fn each_element_is_counted_once_in_random_schedules(rt: HostRuntime) -> Result<(), Fail> {
    let mut draws = Draws::new(SEED);
    let mut tally = Tally {
        played: [0; 20],
        refused: [0; 20],
    };
    for schedule in 0..SCHEDULES {
        play_schedule(&rt, schedule, &mut draws, &mut tally)?;
    }
    for kind in 0..20 {
        let given = (kind, tally.played[kind] > 0, tally.refused[kind] > 0);
        same(
            &rt,
            &given,
            &(kind, true, true),
            "a kind was played, and refused",
        );
    }
    Ok(())
}
