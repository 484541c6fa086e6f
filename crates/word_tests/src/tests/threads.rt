//! Four workers in threads of their own, who make packets and free them on the words of one pool.

ghost use Rattle.ground.specs.Seats.{IsOf};
ghost use Rattle.word_pool.specs.Workers.{Stays};

use super::crews::{Tally, Task, act, ended, free, free_any, make};
use super::{DEFAULTS, assert_all_free, same};
use commons::limits::Limits;
use ground::pool::Ground;
use mbuf::acts::{Act, Reply};
use mbuf::packets::Pid;
use std::alloc::Global;
use std::process::Abort;
use std::test::Fail;
use std::thread::Threads;
use word_pool::worker::WordWorker;

/// How often each worker makes three packets and frees them, in the pool that is worked on longest.
const ROUNDS: u32 = 10_000;

/// Attaches a worker's packet to another, which can't be refused, where there is a slot of the
/// first.
fn attach(ground: &Ground, worker: &mut WordWorker, tally: &mut Tally, slot: Option<Pid>, to: Pid)
    requires of { IsOf ground.now worker.old.seat }
    ensures of { IsOf ground.now worker.new.seat }
    ensures stays { Stays worker.old worker.new }
{
    match slot {
        Some(slot) => {
            let reply = act(ground, worker, tally, Act::Attach(slot, to));
            if !matches!(&reply, Reply::Attached) {
                tally.note_wrong();
            }
        }
        None => {}
    }
}

/// Makes a clone of a packet and another packet that is attached to it, frees it and then the two.
fn share(ground: &Ground, worker: &mut WordWorker, tally: &mut Tally, packet: Pid)
    requires of { IsOf ground.now worker.old.seat }
    ensures of { IsOf ground.now worker.new.seat }
    ensures stays { Stays worker.old worker.new }
{
    let clone = make(ground, worker, tally, Act::ClonePacket(packet));
    let other = make(ground, worker, tally, Act::Alloc);
    attach(ground, worker, tally, other, packet);
    free(ground, worker, tally, packet);
    free_any(ground, worker, tally, clone);
    free_any(ground, worker, tally, other);
}

/// Makes packets that share a buffer, where there is an element for the first, and frees them.
fn round(ground: &Ground, worker: &mut WordWorker, tally: &mut Tally)
    requires of { IsOf ground.now worker.old.seat }
    ensures of { IsOf ground.now worker.new.seat }
    ensures stays { Stays worker.old worker.new }
{
    match make(ground, worker, tally, Act::Alloc) {
        Some(packet) => share(ground, worker, tally, packet),
        None => {}
    }
}

/// This many rounds of one worker.
pub(super) fn rounds(ground: &Ground, worker: &mut WordWorker, tally: &mut Tally, times: u32)
    requires of { IsOf ground.now worker.old.seat }
    ensures of { IsOf ground.now worker.new.seat }
    ensures stays { Stays worker.old worker.new }
{
    for _ in 0..times {
        round(ground, worker, tally);
    }
}

/// Four workers of one pool, who free all that they made: no call was refused for another cause,
/// and at least this many packets were made.
fn four_of<R: Threads + Sync + Abort>(
    rt: &R,
    alloc: Global,
    population: u64,
    cache: u64,
    times: u32,
) -> Result<(), Fail> {
    let name = format!(in alloc; "four workers, {population} elements and caches of {cache}")?;
    let limits = Limits {
        population,
        cache,
        workers: 4,
        ..DEFAULTS
    };
    let (told, statement) = ended(rt, alloc, &limits, Task::Rounds(times), None)?;
    let enough = told.made >= u64::from(times);
    let given = ("wrong, made", told.wrong, told.made, enough);
    same(
        rt,
        &given,
        &("wrong, made", 0, told.made, true),
        name.as_str(),
    );
    assert_all_free(rt, alloc, &statement, name.as_str())
}

#[test]
fn four_workers_free_what_they_made(rt: HostRuntime) -> Result<(), Fail> {
    for (population, cache) in [(8, 0), (64, 0), (1_024, 32)] {
        four_of(&rt, rt.alloc(), population, cache, ROUNDS / 10)?;
    }
    four_of(&rt, rt.alloc(), 64, 8, ROUNDS)
}
