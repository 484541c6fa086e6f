//! One, two or four workers of one pool, each in a thread of its own.

ghost use Rattle.std.specs.Prelude.{◌<◌};
ghost use Rattle.bench.specs.Fresh.{IsFresh};

use super::bare::Bare;
use super::cached::Cached;
use super::carried::Carried;
use super::held::Held;
use super::kinds::Kind;
use super::span::{Span, Tally, timed};
use crate::failures::Failure;
use ground::pool::Ground;
use std::alloc::Global;
use std::thread;
use std::thread::Threads;
use std::time::Clock;

/// What the workers of a run have done together.
#[derive(Clone, Copy)]
pub struct Run {
    /// How many picoseconds an element took, summed over the workers.
    pub picos: u64,
    /// How many elements were got and put back.
    pub met: u64,
    /// How many were refused.
    pub refused: u64,
}

/// What each worker of a run does, and in which pool.
#[derive(Clone, Copy)]
pub struct Work<'a> {
    pub alloc: Global,
    pub ground: &'a Ground,
    pub kind: Kind,
    pub span: Span,
}

/// What one worker does.
pub fn one<R: Clock>(rt: &R, work: Work<'_>, carried: Carried, number: u32) -> Result<Run, Failure>
    requires { IsFresh work.ground.now carried.seat }
{
    let Work {
        alloc,
        ground,
        kind,
        span,
    } = work;
    let tally = match kind {
        Kind::Stack(width) => {
            let mut bare = Bare::make(ground, carried, width);
            let tally = timed(rt, &mut bare, &span);
            bare.end();
            tally
        }
        Kind::Elements(width) => {
            let mut cached = Cached::make(alloc, ground, carried, number, width)?;
            let tally = timed(rt, &mut cached, &span);
            cached.end();
            tally
        }
        _ => {
            let mut held = Held::make(alloc, ground, carried, number, kind)?;
            held.make_first();
            let tally = timed(rt, &mut held, &span);
            held.end();
            tally
        }
    }?;
    Ok(run_of(kind, tally))
}

/// What a worker's tally comes to.
fn run_of(kind: Kind, tally: Tally) -> Run {
    let all = tally.rounds.saturating_mul(kind.size());
    let met = all.saturating_sub(tally.refused);
    let picos = u128::from(tally.nanos) * 1_000 / u128::from(met.max(1));
    Run {
        picos: u64::try_from(picos).unwrap_or(u64::MAX),
        met,
        refused: tally.refused,
    }
}

/// What two workers, or two pairs, have done together.
fn joined(first: Result<Run, Failure>, second: Result<Run, Failure>) -> Result<Run, Failure> {
    let first = first?;
    let second = second?;
    Ok(Run {
        picos: first.picos.saturating_add(second.picos),
        met: first.met.saturating_add(second.met),
        refused: first.refused.saturating_add(second.refused),
    })
}

/// Two workers, the first of this number.
pub fn two<R: Clock + Threads + Sync>(
    rt: &R,
    work: Work<'_>,
    workers: (Carried, Carried),
    number: u32,
) -> Result<Run, Failure>
    requires first { IsFresh work.ground.now workers.0.seat }
    requires second { IsFresh work.ground.now workers.1.seat }
    requires number { number < 64 }
{
    let (first, second) = workers;
    let (first, second) = thread::join(
        rt,
        move || one(rt, work, first, number),
        move || one(rt, work, second, number + 1),
    );
    joined(first, second)
}

/// Four workers.
pub fn four<R: Clock + Threads + Sync>(
    rt: &R,
    work: Work<'_>,
    workers: (Carried, Carried),
    more: (Carried, Carried),
) -> Result<Run, Failure>
    requires first { IsFresh work.ground.now workers.0.seat }
    requires second { IsFresh work.ground.now workers.1.seat }
    requires third { IsFresh work.ground.now more.0.seat }
    requires fourth { IsFresh work.ground.now more.1.seat }
{
    let (first, second) = thread::join(
        rt,
        move || -> Result<Run, Failure>
            requires first { IsFresh work.ground.now workers.0.seat }
            requires second { IsFresh work.ground.now workers.1.seat }
        { two(rt, work, workers, 1) },
        move || -> Result<Run, Failure>
            requires first { IsFresh work.ground.now more.0.seat }
            requires second { IsFresh work.ground.now more.1.seat }
        { two(rt, work, more, 3) },
    );
    joined(first, second)
}
