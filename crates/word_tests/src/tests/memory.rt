//! A pool on words that is made and ended where memory is refused.

use super::{DEFAULTS, same};
use commons::limits::Limits;
use commons::refusal::Refusal;
use std::alloc::Global;
use std::fmt::Debug;
use std::process::Abort;
use word_pool::{laws, pool};

/// A pool of four elements and two workers.
const TWO: Limits = Limits {
    population: 4,
    workers: 2,
    ..DEFAULTS
};

/// How many elements of a new pool are free at its end.
fn free_of_new(alloc: Global) -> Result<u64, Refusal> {
    let (ground, workers) = pool::make(alloc, &TWO)?;
    Ok(pool::settled(alloc, ground, workers)?.available)
}

/// How many elements of a new pool are lost with worker 2.
fn lost_of_new(alloc: Global) -> Result<usize, Refusal> {
    laws::a_worker_is_lost_and_the_others_are_left();
    let (ground, mut workers) = pool::make(alloc, &TWO)?;
    pool::lose(&mut workers, 2);
    Ok(pool::settled_without(alloc, ground, workers, &[2])?.len())
}

/// This is answered, or memory was refused.
fn assert_told<R: Abort, T: PartialEq + Debug>(
    rt: &R,
    told: &Result<T, Refusal>,
    wanted: &T,
    what: &str,
) {
    match told {
        Ok(told) => same(rt, told, wanted, what),
        Err(cause) => same(rt, cause, &Refusal::OutOfMemory, what),
    }
}

/// Whichever request for memory is refused, a pool ends with all its elements, or `OutOfMemory`.
#[test]
fn refused_memory_changes_no_end(rt: HostRuntime) {
    assert_told(&rt, &free_of_new(rt.alloc()), &4, "what is free");
    assert_told(&rt, &lost_of_new(rt.alloc()), &0, "what is lost");
}
