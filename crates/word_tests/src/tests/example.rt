//! The example of the repository's README: each worker of a pool, in a thread of its own, makes a
//! packet and frees it.

ghost use Rattle.ground.specs.Seats.{IsOf};
ghost use Rattle.word_pool.specs.Workers.{AreWorkers, Stays};

use super::{DEFAULTS, same};
use commons::limits::Limits;
use commons::refusal::Refusal;
use ground::pool::Ground;
use mbuf::acts::{Act, Reply};
use std::alloc::Global;
use std::test::Fail;
use std::thread;
use std::thread::Threads;
use word_pool::laws::workers_who_stay_are_all;
use word_pool::pool;
use word_pool::worker::WordWorker;

/// Makes a packet of 64 bytes and frees it.
fn send(ground: &Ground, worker: &mut WordWorker)
    requires { IsOf ground.now worker.old.seat }
    ensures { Stays worker.old worker.new }
{
    if let Reply::Allocated(packet, _element) = worker.act(ground, Act::Alloc) {
        let _length = worker.act(ground, Act::Append(packet, 64));
        let _freed = worker.act(ground, Act::Free(packet));
    }
}

/// Lets all workers send, each in a thread of its own.
fn all_send<R: Threads + Sync>(rt: &R, ground: &Ground, workers: &mut [WordWorker])
    requires { AreWorkers ground.now workers.old }
    ensures { AreWorkers ground.now workers.new }
{
    workers_who_stay_are_all();
    thread::for_each_mut(
        rt,
        workers,
        4,
        &|_, worker: &mut WordWorker|
            requires { IsOf ground.now worker.now.seat }
            ensures { Stays worker.entry.now worker.exit.now }
        { send(ground, worker) },
    );
}

/// How many elements are free once all workers have sent.
fn free_at_the_end<R: Threads + Sync>(
    rt: &R,
    alloc: Global,
    limits: &Limits,
) -> Result<u64, Refusal> {
    let (ground, mut workers) = pool::make(alloc, limits)?;
    all_send(rt, &ground, workers.as_mut_slice());
    Ok(pool::settled(alloc, ground, workers)?.available)
}

#[test]
fn the_readme_s_example_frees_all(rt: HostRuntime) -> Result<(), Fail> {
    for cache in [0, 4] {
        let limits = Limits {
            population: 64,
            cache,
            workers: 4,
            ..DEFAULTS
        };
        let available = free_at_the_end(&rt, rt.alloc(), &limits)?;
        same(&rt, &available, &64, "what the example has free at its end");
    }
    Ok(())
}
