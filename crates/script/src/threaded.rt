//! Scripts whose workers act in threads of their own.

ghost use Rattle.std.specs.Prelude.{◌≡◌, ◌≤◌, None, IfOk, IfErr};
ghost use Rattle.script.specs.Losing.{IsLostCause, Loses};
ghost use Rattle.script.specs.Running.{LeftOnWords, ReachedByActs};
ghost use Rattle.script.specs.Settling.{ListsEachPoolOnce, ListsPacketsInEach, ListsSoundInEach, PlacesInEach};
ghost use Rattle.script.specs.Snapshots.{AreLawful, settled_in};
ghost use Rattle.script.specs.inside.Leaving.{AreWhole, CountsAreWithin, limits_left, snapshots_of};

use crate::gate::Gate;
use crate::left::Left;
use crate::{on_words, twins_on_words, twins_under_lock, under_lock};
use commons::refusal::Refusal;
use pool_model::laws;
use pool_statement::settled::Settled;
use script_text::commands::Script;
use std::alloc::Global;
use std::sync::Wait;
use std::thread::Threads;

/// What the threads' pools rest on.
#[derive(Clone, Copy, PartialEq, Eq, Debug)]
pub enum Grounds {
    /// Words that all threads read and write at once, each step of which is atomic.
    Words,
    /// Lists under one lock.
    Locked,
}

/// Plays a script with a thread for each worker, which performs that worker's lines in order;
/// closes the pool, or both pools, once all have ended, and settles with the shares of all workers.
/// A line that is refused `Contended`, `DeskTaken` or `DeskEmpty` is tried again, up to `turns` tries
/// in all, with a growing pause between; then the refusal stands. The gate is called around each
/// line, outside any lock.
///
/// Whatever the threads' order was, what the pools come to is, under the lock, what the reference
/// model's come to after some acts, one after another, on new pools of the script's limits; on words,
/// where no act waits for another, it is what grounds of these limits left, closed by the seats of
/// all their workers, and their caches and packets. That the acts are the script's lines is shown
/// only by tests.
///
/// Refused `OutOfMemory` where memory was refused, or under the lock a thread, and for no other
/// cause; the other threads have ended then. On words the lines of a thread that can't be started
/// are played by the one that would have started it.
pub fn run_threads<G: Gate, R: Threads + Wait + Sync>(
    rt: &R,
    alloc: Global,
    script: &Script,
    grounds: Grounds,
    turns: u32,
    gate: &G,
) -> Result<Settled, Refusal>
    requires turns { 1 ≤ turns }
    ensures reached { grounds ≡ Grounds.Locked → IfOk result (λ s. ReachedByActs script.now.pools s) }
    ensures ended { grounds ≡ Grounds.Words → IfOk result (λ s. LeftOnWords script.now.pools s) }
    // Above both: no element is missing, and none is anywhere twice; no two packets stand in one
    // place; and each packet has 1 to 32 segments, each with its data within its buffer.
    ensures once { IfOk result (λ s. ListsEachPoolOnce script.now.pools s) }
    ensures places { IfOk result (λ s. PlacesInEach script.now.pools s) }
    ensures packets { IfOk result (λ s. ListsPacketsInEach script.now.pools s) }
    // And under the lock each packet of a pool alone is sound: its buffers are the pool's, and a
    // base is direct.
    ensures sound { grounds ≡ Grounds.Locked → IfOk result (λ s. ListsSoundInEach script.now.pools s) }
    ensures memory { IfErr result (λ e. e ≡ Refusal.OutOfMemory) }
{
    laws::acts_leave_packets_sound();
    let left = run_to_end(rt, alloc, script, grounds, turns, gate)?;
    left.settled(alloc)
}

/// Plays a script as `run_threads` does, and gives what its pools leave once all threads have ended.
///
/// Refused as `run_threads` is.
pub(crate) fn run_to_end<G: Gate, R: Threads + Wait + Sync>(
    rt: &R,
    alloc: Global,
    script: &Script,
    grounds: Grounds,
    turns: u32,
    gate: &G,
) -> Result<Left, Refusal>
    requires turns { 1 ≤ turns }
    ensures limits { IfOk result (λ left. limits_left left ≡ script.now.pools) }
    ensures whole { IfOk result (λ left. AreWhole left) }
    ensures reached { grounds ≡ Grounds.Locked → IfOk result (λ left. ReachedByActs script.now.pools (settled_in (snapshots_of left))) }
    ensures ended { grounds ≡ Grounds.Words → IfOk result (λ left. AreLawful (snapshots_of left) →
        LeftOnWords script.now.pools (settled_in (snapshots_of left))) }
    ensures counts { IfOk result (λ left. CountsAreWithin left) }
    ensures memory { IfErr result (λ e. e ≡ Refusal.OutOfMemory) }
{
    let first = &script.pools.first;
    let lines = script.lines.as_slice();
    match &script.pools.second {
        None => match grounds {
            Grounds::Words => on_words::run(rt, alloc, first, lines, turns, gate),
            Grounds::Locked => under_lock::run(rt, alloc, first, lines, turns, gate),
        },
        Some(second) => match grounds {
            Grounds::Words => twins_on_words::run(rt, alloc, first, second, lines, turns, gate),
            Grounds::Locked => {
                twins_under_lock::run(rt, alloc, first, second, lines, turns, gate)
            }
        },
    }
}

/// Plays a script of one pool as `run_threads` does, and ends the worker `lose` at the end, as one
/// who died: its cache and its packets are lost, and on words its seat too, but that of an only
/// worker, which closes the ground. Answers which elements are lost then, ascending: exactly those of
/// which this worker alone knows, in its hand or held by it and by nobody else.
///
/// Refused `Foreign` where the script has a second pool, else `StrangerShare` where `lose` isn't a
/// worker of the pool, and `OutOfMemory` as `run_threads` is.
pub fn run_lost<G: Gate, R: Threads + Wait + Sync>(
    rt: &R,
    alloc: Global,
    script: &Script,
    grounds: Grounds,
    turns: u32,
    lose: u32,
    gate: &G,
) -> Result<Vec<u32>, Refusal>
    requires turns { 1 ≤ turns }
    ensures lost { IfOk result (λ elems. Loses grounds script.now.pools.first lose elems.items) }
    ensures alone { IfOk result (λ _. script.now.pools.second ≡ None) }
    ensures cause { IfErr result (IsLostCause script.now.pools lose) }
{
    let first = &script.pools.first;
    let lines = script.lines.as_slice();
    if script.pools.second.is_some() {
        return Err(Refusal::Foreign);
    }
    if lose == 0 || u64::from(lose) > first.workers {
        return Err(Refusal::StrangerShare);
    }
    match grounds {
        Grounds::Words => on_words::run_lost(rt, alloc, first, lines, turns, lose, gate),
        Grounds::Locked => under_lock::run_lost(rt, alloc, first, lines, turns, lose, gate),
    }
}
