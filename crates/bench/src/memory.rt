//! How much memory a pool on words takes: its ground, and its workers.

use crate::failures::Failure;
use crate::words::numbers_of;
use commons::limits::{Limits, PutRule};
use ground::pool::Ground;
use std::fs;
use std::io::Print;
use std::rt::Runtime;
use word_pool::pool;

/// Prints how much of the process is in memory, of a large pool with each of these caches: before
/// there is anything, with a ground alone, and with a second ground that has its workers. A line
/// has how much it is, and how much more than in the line before.
pub fn measure<R: Runtime + AllocGlobal>(rt: &R, caches: &str) -> Result<(), Failure> {
    let caches = numbers_of(rt.alloc(), caches)?;
    rt.println(format_args!("cache  made                               resident    more"))?;
    for cache in caches.as_slice() {
        of_cache(rt, *cache)?;
    }
    Ok(())
}

/// Prints it of the pool with a cache of this size.
fn of_cache<R: Runtime + AllocGlobal>(rt: &R, cache: u64) -> Result<(), Failure> {
    let limits = Limits {
        population: 65_534,
        cache,
        workers: 64,
        desks: 64,
        buf: 2_048,
        ref_limit: 65_535,
        tries: 64,
        start_count: 0,
        put_rule: PutRule::Keep,
    };
    let before = resident(rt)?;
    print_resident(rt, cache, "nothing", before, before)?;
    let (_alone, seat) = Ground::make(rt.alloc(), &limits)?;
    seat.lose();
    let ground = print_more(rt, cache, "a ground", before)?;
    with_workers(rt, cache, &limits, ground)
}

/// Prints it once there is a second ground too, with its workers.
fn with_workers<R: Runtime + AllocGlobal>(
    rt: &R,
    cache: u64,
    limits: &Limits,
    before: u64,
) -> Result<(), Failure> {
    let (_ground, _workers) = pool::make(rt.alloc(), limits)?;
    print_more(rt, cache, "a ground with 64 workers", before)?;
    Ok(())
}

/// Prints how much is in memory now, and answers it.
fn print_more<R: Runtime + AllocGlobal>(
    rt: &R,
    cache: u64,
    made: &str,
    before: u64,
) -> Result<u64, Failure> {
    let now = resident(rt)?;
    print_resident(rt, cache, made, now, before)?;
    Ok(now)
}

fn print_resident<R: Print>(
    rt: &R,
    cache: u64,
    made: &str,
    now: u64,
    before: u64,
) -> Result<(), Failure> {
    let more = now.saturating_sub(before);
    Ok(rt.println(format_args!("{cache:>5}  {made:<28} {now:>10} kB {more:>6} kB"))?)
}

/// How many kilobytes of the process are in memory, as the system tells it.
fn resident<R: Runtime + AllocGlobal>(rt: &R) -> Result<u64, Failure> {
    let text = fs::read_to_string(rt, "/proc/self/smaps_rollup")?;
    Ok(resident_in(text.as_str()))
}

/// The number in the line that begins with `Rss:`, or 0 where there is none.
fn resident_in(text: &str) -> u64 {
    for line in text.lines() {
        if let Some(rest) = line.strip_prefix("Rss:") {
            for word in rest.split_whitespace() {
                if let Ok(number) = word.parse::<u64>() {
                    return number;
                }
            }
        }
    }
    0
}
