//! A run in threads on a pool alone, on the words of a ground, without a lock.

ghost use Rattle.std.specs.Prelude.{All, ◌≡◌, ◌<◌, ◌≤◌, length, IfOk, IfErr, None};
ghost use Rattle.commons.specs.Bounds.{IsPool};
ghost use Rattle.ground.specs.Seats.{IsOf};
ghost use Rattle.book.specs.Lost.{IsOf as IsWorkerOf};
ghost use Rattle.script.specs.Losing.{AreOfPool, LosesOnWords};
ghost use Rattle.script.specs.Running.{LeftOnWords};
ghost use Rattle.script.specs.Snapshots.{settled_in};
ghost use Rattle.script.specs.inside.Leaving.{AreWhole, CountsAreWithin, limits_left, snapshots_of};
ghost use Rattle.word_pool.specs.Workers.{AllStay, AreWorkers, Stays};

use crate::acting::{Actor, Worker};
use crate::crew::play;
use crate::gate::Gate;
use crate::left::Left;
use commons::limits::Limits;
use commons::refusal::Refusal;
use ground::pool::Ground;
use mbuf::acts::Answer;
use script_text::commands::Line;
use std::alloc::Global;
use std::thread::Threads;
use twin_acts::acts::TwinAct;
use word_pool::laws;
use word_pool::pool::{close, lose, make, settled_without};
use word_pool::worker::WordWorker;

impl Worker<Ground> for WordWorker {
    ghost acts_for = { λ shared worker. IsOf shared worker.seat };

    ghost stays = { Stays };
}

impl<const ROOM: usize> Actor<Ground, ROOM> for WordWorker {
    fn act_in(&mut self, pool: &Ground, act: TwinAct) -> Answer<ROOM> {
        match act {
            TwinAct::OnFirst(act) => self.act_in(pool, act),
            _ => Answer::Refused(Refusal::Foreign),
        }
    }
}

/// Plays a script's lines with a thread for each worker, on the words of a new ground within these
/// limits: no act waits for another. Closes the pool once all have ended, and gives what it leaves.
///
/// Refused `OutOfMemory` where memory was refused, and for no other cause. The lines of a thread
/// that can't be started are played by the one that would have started it.
pub(crate) fn run<G: Gate, R: Threads + Sync>(
    rt: &R,
    alloc: Global,
    limits: &Limits,
    lines: &[Line],
    turns: u32,
    gate: &G,
) -> Result<Left, Refusal>
    requires turns { 1 ≤ turns }
    requires pool { IsPool limits.now }
    ensures limits { IfOk result (λ left. limits_left left ≡ record { first = limits.now; second = None }) }
    ensures whole { IfOk result (λ left. AreWhole left) }
    ensures ended { IfOk result (λ left.
        LeftOnWords (record { first = limits.now; second = None }) (settled_in (snapshots_of left))) }
    ensures counts { IfOk result (λ left. CountsAreWithin left) }
    ensures memory { IfErr result (λ e. e ≡ Refusal.OutOfMemory) }
{
    let (ground, workers) = played(rt, alloc, limits, lines, turns, gate)?;
    let (limits, closed, shares) = close(alloc, ground, workers)?;
    Ok(Left::One(limits, closed, shares))
}

/// Plays lines as `run` does, and then ends a worker, as one who died. Ends the pool, and
/// answers which elements are lost.
///
/// Refused as `run` is.
pub(crate) fn run_lost<G: Gate, R: Threads + Sync>(
    rt: &R,
    alloc: Global,
    limits: &Limits,
    lines: &[Line],
    turns: u32,
    worker: u32,
    gate: &G,
) -> Result<Vec<u32>, Refusal>
    requires turns { 1 ≤ turns }
    requires pool { IsPool limits.now }
    requires worker { IsWorkerOf limits.now worker }
    ensures lost { IfOk result (λ elems. LosesOnWords limits.now worker elems.items) }
    ensures pool { IfOk result (λ elems. AreOfPool limits.now elems.items) }
    ensures memory { IfErr result (λ e. e ≡ Refusal.OutOfMemory) }
{
    let (ground, mut workers) = played(rt, alloc, limits, lines, turns, gate)?;
    laws::a_worker_is_lost_and_the_others_are_left();
    lose(&mut workers, worker);
    settled_without(alloc, ground, workers, &[worker])
}

/// Plays lines with a thread for each worker, and gives the ground with all its workers once
/// their threads have ended.
fn played<G: Gate, R: Threads + Sync>(
    rt: &R,
    alloc: Global,
    limits: &Limits,
    lines: &[Line],
    turns: u32,
    gate: &G,
) -> Result<(Ground, Vec<WordWorker>), Refusal>
    requires turns { 1 ≤ turns }
    requires pool { IsPool limits.now }
    ensures limits { IfOk result (λ left. left.0.limits ≡ limits.now) }
    ensures workers { IfOk result (λ left. AreWorkers left.0 left.1.items) }
    ensures memory { IfErr result (λ e. e ≡ Refusal.OutOfMemory) }
{
    laws::workers_who_stay_are_all();
    let (ground, mut workers) = make(alloc, limits)?;
    if !play(
        rt,
        alloc,
        &ground,
        workers.as_mut_slice(),
        lines,
        turns,
        gate,
    ) {
        return Err(Refusal::OutOfMemory);
    }
    Ok((ground, workers))
}
