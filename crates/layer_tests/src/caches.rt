//! A worker's cache on the lists: bulks through it and past it, flushes, and a new worker's.

use crate::equal::same;
use commons::limits::{Limits, PutRule};
use commons::plain::PlainCommons;
use commons::refusal::Refusal;
use commons::site::PlainSite;
use mempool::put::Put;
use mempool::worker::Worker;
use std::alloc::Global;
use std::process::Abort;
use std::test::Fail;

const LIMITS: Limits = Limits {
    population: 1_100,
    cache: 4,
    workers: 2,
    desks: 0,
    buf: 2_048,
    ref_limit: 65_535,
    tries: 8,
    start_count: 0,
    put_rule: PutRule::Keep,
};

/// What a worker does once it has got elements.
enum Then {
    /// It puts them back.
    Puts,
    /// It flushes its cache twice.
    Flushes,
}

/// What a worker gets and then does.
struct Row {
    name: &'static str,
    rule: PutRule,
    /// How many elements are got.
    count: usize,
    /// The least of them, which the others follow.
    least: u32,
    then: Then,
    /// What comes of that.
    done: (Put, Option<Put>),
    /// The cache afterwards.
    cache: &'static [u32],
    /// How many elements the common list has then.
    common: usize,
    /// The top of that list.
    top: u32,
}

static ROWS: [Row; 6] = [
    Row {
        name: "a bulk of 512 goes through the cache",
        rule: PutRule::Keep,
        count: 512,
        least: 0,
        then: Then::Puts,
        done: (Put::Flushed(508), None),
        cache: &[0, 1, 2, 3],
        common: 1_096,
        top: 511,
    },
    Row {
        name: "a bulk of 513 goes past the cache",
        rule: PutRule::Keep,
        count: 513,
        least: 0,
        then: Then::Puts,
        done: (Put::Flushed(513), None),
        cache: &[],
        common: 1_100,
        top: 512,
    },
    Row {
        name: "a get of 1 fills the cache with 5 and takes the last, and a flush gives the other 4 back",
        rule: PutRule::Keep,
        count: 1,
        least: 4,
        then: Then::Flushes,
        done: (Put::Flushed(4), Some(Put::Kept)),
        cache: &[],
        common: 1_099,
        top: 3,
    },
    Row {
        name: "where a cache goes whole, a bulk of 6 stays in it",
        rule: PutRule::Whole,
        count: 6,
        least: 0,
        then: Then::Puts,
        done: (Put::Kept, None),
        cache: &[0, 1, 2, 3, 4, 5],
        common: 1_094,
        top: 6,
    },
    Row {
        name: "where a cache goes whole, a bulk of 7 goes past it",
        rule: PutRule::Whole,
        count: 7,
        least: 0,
        then: Then::Puts,
        done: (Put::Flushed(7), None),
        cache: &[],
        common: 1_100,
        top: 6,
    },
    Row {
        name: "where a cache goes whole, a bulk of 513 goes past it",
        rule: PutRule::Whole,
        count: 513,
        least: 0,
        then: Then::Puts,
        done: (Put::Flushed(513), None),
        cache: &[],
        common: 1_100,
        top: 512,
    },
];

/// Plays a row.
fn play<R: Abort + AllocGlobal>(rt: &R, row: &Row) -> Result<(), Fail> {
    let limits = Limits {
        put_rule: row.rule,
        ..LIMITS
    };
    let mut out = Vec::new(rt.alloc());
    out.resize(row.count, 0)?;
    let list = out.as_mut_slice();
    let mut site = PlainSite::make(rt.alloc(), &limits)?;
    let mut worker = Worker::make(rt.alloc(), &limits, 1)?;
    let mut c = PlainCommons::new(&mut site, 1);
    let done = match worker.get_bulk(&mut c, list) {
        Ok(()) => match row.then {
            Then::Puts => Ok((worker.put_bulk(&mut c, list), None)),
            Then::Flushes => {
                let first = worker.flush(&mut c);
                let second = worker.flush(&mut c);
                Ok((first, Some(second)))
            }
        },
        Err(cause) => Err(cause),
    };
    same(
        rt,
        &(done, worker.cache()),
        &(Ok(row.done), row.cache),
        row.name,
    );
    worker.lose();
    let left = (site.common().len(), site.common().last());
    same(rt, &left, &(row.common, Some(&row.top)), row.name);
    for (element, wanted) in list.iter().zip(row.least..) {
        same(rt, element, &wanted, row.name);
    }
    Ok(())
}

#[test]
fn each_bulk_leaves_its_cache(rt: HostRuntime) -> Result<(), Fail> {
    for row in ROWS.iter() {
        play(&rt, row)?;
    }
    Ok(())
}

/// A new worker's number, the length of its cache, its limits, and whether its cache is empty.
fn shown(alloc: Global, number: u32) -> Result<(u32, usize, Limits, bool), Refusal> {
    let worker = Worker::make(alloc, &LIMITS, number)?;
    let is_empty = worker.cache().is_empty();
    let shown = (
        worker.number(),
        worker.cache_len(),
        *worker.limits(),
        is_empty,
    );
    worker.lose();
    Ok(shown)
}

#[test]
fn each_worker_of_the_pool_begins_with_an_empty_cache(rt: HostRuntime) {
    let workers = [
        ("worker 0", 0, Err(Refusal::BadPool)),
        ("worker 1", 1, Ok((1, 0, LIMITS, true))),
        ("worker 2", 2, Ok((2, 0, LIMITS, true))),
        ("worker 3", 3, Err(Refusal::BadPool)),
    ];
    for (name, number, wanted) in workers {
        same(&rt, &shown(rt.alloc(), number), &wanted, name);
    }
}
