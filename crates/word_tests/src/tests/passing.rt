//! Sixty-four workers in threads of their own, who hand clones of packets of 32 segments round
//! over 64 desks.

ghost use Rattle.ground.specs.Seats.{IsOf};
ghost use Rattle.word_pool.specs.Workers.{Stays};

use super::crews::{Tally, Task, act, ended, free, free_any, make};
use super::places::assert_each_once;
use super::{DEFAULTS, assert_all_free, same};
use commons::limits::Limits;
use commons::packet::MAX_SEGS;
use commons::refusal::Refusal;
use ground::pool::Ground;
use mbuf::acts::{Act, NewPacket, Reply};
use mbuf::packets::Pid;
use pool_statement::statement::Statement;
use std::alloc::Global;
use std::process::Abort;
use std::test::Fail;
use std::thread::Threads;
use word_pool::worker::WordWorker;

/// The workers, and the desks.
pub(super) const CROWD: u32 = 64;

/// How many calls each worker makes, at least: a hundred thousand in all.
const CALLS: u64 = 1_563;

/// How many packets go from worker to worker, at least.
const TAKEN: u64 = 1_000;

/// How often a worker tries to get its first elements.
const TRIES: u32 = 1_000;

/// Makes one packet of these, the first, with a segment from each, and names its slot.
fn chain(
    ground: &Ground,
    worker: &mut WordWorker,
    tally: &mut Tally,
    packets: &[NewPacket],
) -> Option<Pid>
    requires of { IsOf ground.now worker.old.seat }
    ensures of { IsOf ground.now worker.new.seat }
    ensures stays { Stays worker.old worker.new }
{
    let (first, others) = packets.split_first()?;
    for other in others {
        let reply = act(ground, worker, tally, Act::Chain(first.slot, other.slot));
        if !matches!(&reply, Reply::Chained(_, _)) {
            tally.note_wrong();
        }
    }
    Some(first.slot)
}

/// Makes a packet of 32 segments, and names its slot.
fn assemble(ground: &Ground, worker: &mut WordWorker, tally: &mut Tally) -> Option<Pid>
    requires of { IsOf ground.now worker.old.seat }
    ensures of { IsOf ground.now worker.new.seat }
    ensures stays { Stays worker.old worker.new }
{
    for _ in 0..TRIES {
        let reply = act(ground, worker, tally, Act::AllocBulk(MAX_SEGS));
        if let Reply::Bulk(packets) = &reply {
            return chain(ground, worker, tally, packets.as_slice());
        }
    }
    tally.note_wrong();
    None
}

/// Leaves a packet on a desk, or frees it where another lies there.
fn send(ground: &Ground, worker: &mut WordWorker, tally: &mut Tally, slot: Pid, desk: u32)
    requires of { IsOf ground.now worker.old.seat }
    ensures of { IsOf ground.now worker.new.seat }
    ensures stays { Stays worker.old worker.new }
{
    match act(ground, worker, tally, Act::Offer(slot, desk)) {
        Reply::Offered => tally.left = tally.left.saturating_add(1),
        Reply::Refused(Refusal::DeskTaken) => free(ground, worker, tally, slot),
        _ => tally.note_wrong(),
    }
}

/// Takes the packet off a desk, where there is one: it has 32 segments. Its slot.
fn fetch(ground: &Ground, worker: &mut WordWorker, tally: &mut Tally, desk: u32) -> Option<Pid>
    requires of { IsOf ground.now worker.old.seat }
    ensures of { IsOf ground.now worker.new.seat }
    ensures stays { Stays worker.old worker.new }
{
    match act(ground, worker, tally, Act::Take(desk)) {
        Reply::Taken(slot, 32, 0) => {
            tally.taken = tally.taken.saturating_add(1);
            Some(slot)
        }
        Reply::Refused(Refusal::DeskEmpty) => None,
        _ => {
            tally.note_wrong();
            None
        }
    }
}

/// Clones a packet, and sends the clone to a desk.
fn send_clone(ground: &Ground, worker: &mut WordWorker, tally: &mut Tally, of: Pid, desk: u32)
    requires of { IsOf ground.now worker.old.seat }
    ensures of { IsOf ground.now worker.new.seat }
    ensures stays { Stays worker.old worker.new }
{
    match make(ground, worker, tally, Act::ClonePacket(of)) {
        Some(clone) => send(ground, worker, tally, clone, desk),
        None => {}
    }
}

/// One of the desks.
fn desk_of(number: u64) -> u32 {
    (number % u64::from(CROWD)) as u32
}

/// Sends a clone of the worker's own packet to one desk, takes what lies on another, and sends a
/// clone of that to a third and frees it.
fn pass(ground: &Ground, worker: &mut WordWorker, tally: &mut Tally, own: Pid, at: u64)
    requires of { IsOf ground.now worker.old.seat }
    ensures of { IsOf ground.now worker.new.seat }
    ensures stays { Stays worker.old worker.new }
{
    send_clone(ground, worker, tally, own, desk_of(at));
    match fetch(ground, worker, tally, desk_of(at / 3)) {
        Some(taken) => {
            send_clone(ground, worker, tally, taken, desk_of(at / 7));
            free(ground, worker, tally, taken);
        }
        None => {}
    }
}

/// Passes packets until this many calls are made.
fn pass_on(ground: &Ground, worker: &mut WordWorker, tally: &mut Tally, own: Pid, number: usize)
    requires of { IsOf ground.now worker.old.seat }
    ensures of { IsOf ground.now worker.new.seat }
    ensures stays { Stays worker.old worker.new }
{
    for turn in 0..CALLS {
        if tally.calls < CALLS {
            pass(
                ground,
                worker,
                tally,
                own,
                (number as u64).wrapping_add(turn),
            );
        }
    }
}

/// Makes the worker's own packet and passes clones round, and then frees the packet where that is
/// asked.
pub(super) fn pass_all(
    ground: &Ground,
    worker: &mut WordWorker,
    tally: &mut Tally,
    number: usize,
    frees: bool,
)
    requires of { IsOf ground.now worker.old.seat }
    ensures of { IsOf ground.now worker.new.seat }
    ensures stays { Stays worker.old worker.new }
{
    match assemble(ground, worker, tally) {
        Some(own) => {
            pass_on(ground, worker, tally, own, number);
            let ended = if frees { Some(own) } else { None };
            free_any(ground, worker, tally, ended);
        }
        None => {}
    }
}

/// Takes the packet off a desk and frees it, where there is one.
pub(super) fn clear(ground: &Ground, worker: &mut WordWorker, tally: &mut Tally, desk: usize)
    requires of { IsOf ground.now worker.old.seat }
    ensures of { IsOf ground.now worker.new.seat }
    ensures stays { Stays worker.old worker.new }
{
    let slot = fetch(ground, worker, tally, desk_of(desk as u64));
    free_any(ground, worker, tally, slot);
}

/// The pool of all workers and desks.
const LIMITS: Limits = Limits {
    population: 20_000,
    cache: 64,
    workers: CROWD as u64,
    desks: CROWD as u64,
    ..DEFAULTS
};

/// The statement of a pool whose workers have passed packets round, and in the end freed all of
/// them, or none. No call was refused for another cause, so much was done, and each packet that was
/// left was taken or is on a desk.
fn passed<R: Threads + Sync + Abort>(
    rt: &R,
    alloc: Global,
    frees: bool,
) -> Result<Statement, Fail> {
    let then = if frees { Some(Task::Clear) } else { None };
    let (told, statement) = ended(rt, alloc, &LIMITS, Task::Pass { frees }, then)?;
    let calls = (told.calls, told.calls >= 100_000);
    let taken = (told.taken, told.taken >= TAKEN);
    let left = told.taken.saturating_add(statement.desks.len() as u64);
    let wanted = ((told.calls, true), (told.taken, true), left, 0);
    same(
        rt,
        &(calls, taken, told.left, told.wrong),
        &wanted,
        "calls, taken, left and wrong",
    );
    Ok(statement)
}

#[test]
fn each_element_stands_once_after_a_hundred_thousand_calls(rt: HostRuntime) -> Result<(), Fail> {
    let statement = passed(&rt, rt.alloc(), false)?;
    same(
        &rt,
        &statement.packets.len(),
        &(CROWD as usize),
        "each worker's own packet",
    );
    assert_each_once(&rt, rt.alloc(), &statement, "a hundred thousand calls")
}

#[test]
fn no_element_is_held_once_all_packets_are_freed(rt: HostRuntime) -> Result<(), Fail> {
    let statement = passed(&rt, rt.alloc(), true)?;
    assert_all_free(
        &rt,
        rt.alloc(),
        &statement,
        "a hundred thousand calls, and all freed",
    )
}
