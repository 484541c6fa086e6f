//! Two pools on words: what their workers are replied, and where their elements are at the end.

ghost use Rattle.ground.specs.Seats.{IsOf};
ghost use Rattle.word_pool.specs.TwinWorkers.{AreTwinWorkers, TwinStays};

use super::{DEFAULTS, same};
use commons::limits::Limits;
use commons::refusal::Refusal;
use ground::pool::Ground;
use mbuf::acts::Act;
use pool_statement::settled::Settled;
use pool_statement::statement::Statement;
use script::statement_text;
use std::alloc::Global;
use std::test::Fail;
use std::thread;
use std::thread::Threads;
use twin_acts::acts::TwinAct;
use word_pool::laws::twins_who_stay_are_all;
use word_pool::twin_pool;
use word_pool::twin_worker::WordTwin;

/// A packet of 100 bytes is made, and a clone of it in the second pool, and the packet is freed.
const CLONE: &[TwinAct] = &[
    TwinAct::OnFirst(Act::Alloc),
    TwinAct::OnFirst(Act::Append(0, 100)),
    TwinAct::CloneInto(0),
    TwinAct::OnFirst(Act::Free(0)),
];

/// A packet of two segments is made and a clone of it, and the packet is freed and then the clone.
const CLONE_AND_FREE: &[TwinAct] = &[
    TwinAct::OnFirst(Act::Alloc),
    TwinAct::OnFirst(Act::Alloc),
    TwinAct::OnFirst(Act::Chain(0, 1)),
    TwinAct::CloneInto(0),
    TwinAct::OnFirst(Act::Free(0)),
    TwinAct::FreeClone(0),
];

/// A worker does this in turn.
fn work(first: &Ground, second: &Ground, worker: &mut WordTwin, acts: &[TwinAct])
    requires first { IsOf first.now worker.old.first }
    requires second { IsOf second.now worker.old.second }
    ensures { TwinStays worker.old worker.new }
{
    for act in acts {
        let _reply = worker.act(first, second, *act);
    }
}

/// The work of all workers, each in a thread of its own.
fn all_work<R: Threads + Sync>(
    rt: &R,
    first: &Ground,
    second: &Ground,
    workers: &mut [WordTwin],
    acts: &[TwinAct],
)
    requires { AreTwinWorkers first.now second.now workers.old }
    ensures { AreTwinWorkers first.now second.now workers.new }
{
    twins_who_stay_are_all();
    thread::for_each_mut(
        rt,
        workers,
        4,
        &|_, worker: &mut WordTwin|
            requires first { IsOf first.now worker.now.first }
            requires second { IsOf second.now worker.now.second }
            ensures { TwinStays worker.entry.now worker.exit.now }
        { work(first, second, worker, acts) },
    );
}

/// The statements of two pools each of whose workers has done this.
fn ended<R: Threads + Sync>(
    rt: &R,
    alloc: Global,
    first: &Limits,
    second: &Limits,
    acts: &[TwinAct],
) -> Result<(Statement, Statement), Refusal> {
    let (one, other, mut workers) = twin_pool::make(alloc, first, second)?;
    all_work(rt, &one, &other, workers.as_mut_slice(), acts);
    twin_pool::settled(alloc, one, other, workers)
}

#[test]
fn threads_of_two_pools_leave_all_free(rt: HostRuntime) -> Result<(), Fail> {
    for cache in [0, 4] {
        let first = Limits {
            population: 64,
            cache,
            workers: 4,
            desks: 1,
            ..DEFAULTS
        };
        let second = Limits {
            population: 32,
            cache,
            workers: 4,
            buf: 0,
            ..DEFAULTS
        };
        let (first, second) = ended(&rt, rt.alloc(), &first, &second, CLONE_AND_FREE)?;
        same(
            &rt,
            &(first.available, second.available),
            &(64, 32),
            "what two pools have free at the end",
        );
    }
    Ok(())
}

const TEXT: &str = "population 4\navailable 3\nin use 1\ncommon 3: 1 2 3\ncache 1 0:\n\
    held 0 count 1: 1\n\
    second\npopulation 2\navailable 1\nin use 1\ncommon 1: 1\ncache 1 0:\n\
    packet 1 0 segs 1 len 100: 0>0@128+100/2048\nheld 0 count 1: 1\n";

#[test]
fn a_clone_on_words_holds_the_buffer_of_the_first_pool(rt: HostRuntime) -> Result<(), Fail> {
    let first = Limits {
        population: 4,
        desks: 1,
        ..DEFAULTS
    };
    let second = Limits {
        population: 2,
        buf: 0,
        ..DEFAULTS
    };
    let (first, second) = ended(&rt, rt.alloc(), &first, &second, CLONE)?;
    let second = Some(second);
    let text = statement_text(rt.alloc(), &Settled { first, second })?;
    same(
        &rt,
        &text.as_slice(),
        &TEXT.as_bytes(),
        "a clone that is left",
    );
    Ok(())
}
