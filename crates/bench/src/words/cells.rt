//! The cells of a table: which are asked for, and what is measured in each.

ghost use Rattle.std.specs.Prelude.{◌≡◌};

use super::carried::Carried;
use super::kinds::{Kind, kind_of, name_of};
use super::span::{Length, Span};
use super::threads::{Run, Work, four, one, two};
use crate::failures::Failure;
use crate::figures::Nanos;
use commons::limits::{Limits, PutRule};
use commons::shared::Commons;
use ground::pool::Ground;
use stack_lf::words::WordCommons;
use std::alloc::{AllocError, Global};
use std::io::Print;
use std::thread::Threads;
use std::time::{Clock, Instant};

/// The cells that are measured: those of each workload, each number of threads and each size of
/// cache.
#[derive(Clone, Copy)]
pub struct Cells<'a> {
    /// The names of the workloads, with commas between.
    pub names: &'a str,
    /// The numbers of threads, 1, 2 or 4.
    pub threads: &'a str,
    /// The sizes of the caches. The bare stack, which has none, is measured once.
    pub caches: &'a str,
    /// How many elements a pool has.
    pub population: u64,
    /// How long a run is.
    pub length: Length,
}

/// How many elements are got and put back, about, between two looks at the clock.
const BATCH: u64 = 20_000;

/// The kinds of these names. `NotInList` where one isn't known.
pub fn kinds_of(alloc: Global, names: &str) -> Result<Vec<Kind>, Failure> {
    let mut kinds = Vec::new(alloc);
    let mut known = true;
    for name in names.split(',') {
        match kind_of(name) {
            Some(kind) => push(&mut kinds, kind)?,
            None => known = false,
        }
    }
    if known {
        Ok(kinds)
    } else {
        Err(Failure::NotInList)
    }
}

/// The numbers that stand here, with commas between. `NotInList` where one is none.
pub fn numbers_of(alloc: Global, words: &str) -> Result<Vec<u64>, Failure> {
    let mut numbers = Vec::new(alloc);
    let mut known = true;
    for word in words.split(',') {
        match word.parse::<u64>() {
            Ok(number) => push(&mut numbers, number)?,
            Err(_) => known = false,
        }
    }
    if known {
        Ok(numbers)
    } else {
        Err(Failure::NotInList)
    }
}

fn push<T: Copy>(items: &mut Vec<T>, item: T) -> Result<(), AllocError> {
    match items.push(item) {
        Ok(()) => Ok(()),
        Err(_) => Err(AllocError),
    }
}

/// The caches with which a kind is measured.
pub fn caches_of(kind: Kind, caches: &[u64]) -> &[u64] {
    match kind {
        Kind::Stack(_) => &[0],
        _ => caches,
    }
}

/// Prints what stands in each column.
pub fn print_head<R: Print>(rt: &R) -> Result<(), Failure> {
    Ok(rt.println(format_args!("workload threads  cache        ns  refused of 1000"))?)
}

/// Measures one cell, and prints it.
pub fn measure<R: Clock + Print + AllocGlobal + Threads + Sync>(
    rt: &R,
    asked: &Cells,
    kind: Kind,
    threads: u64,
    cache: u64,
) -> Result<(), Failure> {
    let run = run_once(rt, asked, cache, kind, threads)?;
    let name = name_of(kind);
    let each = Nanos(run.picos / threads.max(1));
    let refused = of_thousand(run.met, run.refused);
    Ok(rt.println(format_args!("{name:<8} {threads:>7} {cache:>6} {each} {refused:>16}"))?)
}

/// How many of 1,000 elements were refused.
fn of_thousand(met: u64, refused: u64) -> u128 {
    u128::from(refused) * 1_000 / (u128::from(met) + u128::from(refused)).max(1)
}

/// One run in a new pool, whose fifth seat reads at the end that nothing is missing.
fn run_once<R: Clock + AllocGlobal + Threads + Sync>(
    rt: &R,
    asked: &Cells,
    cache: u64,
    kind: Kind,
    threads: u64,
) -> Result<Run, Failure> {
    let (nanos, batch) = asked.length.nanos_and_batch(BATCH / kind.size().max(1) + 1);
    let population = asked.population;
    let limits = Limits {
        population,
        cache,
        workers: 5,
        desks: 0,
        buf: 2_048,
        ref_limit: 65_535,
        tries: 64,
        start_count: 0,
        put_rule: PutRule::Keep,
    };
    let (ground, mut seat) = Ground::make(rt.alloc(), &limits)?;
    let first = Carried {
        seat: ground.split(&mut seat),
    };
    let second = Carried {
        seat: ground.split(&mut seat),
    };
    let third = Carried {
        seat: ground.split(&mut seat),
    };
    let fourth = Carried {
        seat: ground.split(&mut seat),
    };
    let own = Carried { seat };
    let work = Work {
        alloc: rt.alloc(),
        ground: &ground,
        kind,
        span: Span {
            made: Instant::now(rt)?,
            nanos,
            batch,
        },
    };
    let run = match threads {
        1 => one(rt, work, first, 1),
        2 => two(rt, work, (first, second), 1),
        4 => four(rt, work, (first, second), (third, fourth)),
        _ => Err(Failure::NotInList),
    }?;
    let mut c = WordCommons::new(&ground, own.into_seat());
    let left = u64::from(c.common_count());
    c.into_seat().lose();
    if left != population {
        return Err(Failure::Missing(population.saturating_sub(left)));
    }
    Ok(run)
}
