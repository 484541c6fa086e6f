//! A run in threads on two pools on the words of a ground each, without a lock.

ghost use Rattle.std.specs.Prelude.{◌≡◌, ◌≤◌, IfOk, IfErr, Some};
ghost use Rattle.ground.specs.Seats.{IsOf};
ghost use Rattle.script.specs.Running.{LeftOnWords};
ghost use Rattle.script.specs.Snapshots.{AreLawful, settled_in};
ghost use Rattle.script.specs.inside.Leaving.{AreWhole, CountsAreWithin, limits_left, snapshots_of};
ghost use Rattle.word_pool.specs.TwinWorkers.{AreTwinPools, AreTwinWorkers, TwinStays};

use crate::acting::{Actor, Worker};
use crate::crew::play;
use crate::gate::Gate;
use crate::left::Left;
use commons::limits::Limits;
use commons::refusal::Refusal;
use ground::pool::Ground;
use mbuf::acts::Answer;
use script_text::commands::Line;
use snapshot::laws::a_lawful_snapshot_lists_each_element_once;
use std::alloc::Global;
use std::thread::Threads;
use twin_acts::acts::TwinAct;
use word_pool::laws;
use word_pool::twin_pool::{close, make};
use word_pool::twin_worker::WordTwin;

/// The words of either pool.
#[derive(Drop)]
struct TwinGrounds {
    first: Ground,
    second: Ground,
}

impl Worker<TwinGrounds> for WordTwin {
    ghost acts_for = { λ shared worker. IsOf shared.first worker.first × IsOf shared.second worker.second };

    ghost stays = { TwinStays };
}

impl<const ROOM: usize> Actor<TwinGrounds, ROOM> for WordTwin {
    fn act_in(&mut self, pool: &TwinGrounds, act: TwinAct) -> Answer<ROOM> {
        self.act_in(&pool.first, &pool.second, act)
    }
}

/// Plays a script's lines with a thread for each worker, on the words of two new grounds within
/// these limits: no act waits for another. Closes the pools once all have ended, and gives what they
/// leave.
///
/// Refused `OutOfMemory` where memory was refused, and for no other cause. The lines of a thread
/// that can't be started are played by the one that would have started it.
pub(crate) fn run<G: Gate, R: Threads + Sync>(
    rt: &R,
    alloc: Global,
    first: &Limits,
    second: &Limits,
    lines: &[Line],
    turns: u32,
    gate: &G,
) -> Result<Left, Refusal>
    requires turns { 1 ≤ turns }
    requires pools { AreTwinPools first.now second.now }
    ensures limits { IfOk result (λ left. limits_left left ≡ record { first = first.now; second = Some second.now }) }
    ensures whole { IfOk result (λ left. AreWhole left) }
    ensures ended { IfOk result (λ left. AreLawful (snapshots_of left) →
        LeftOnWords (record { first = first.now; second = Some second.now }) (settled_in (snapshots_of left))) }
    ensures counts { IfOk result (λ left. CountsAreWithin left) }
    ensures memory { IfErr result (λ e. e ≡ Refusal.OutOfMemory) }
{
    a_lawful_snapshot_lists_each_element_once();
    let (grounds, workers) = played(rt, alloc, first, second, lines, turns, gate)?;
    let TwinGrounds {
        first: first_ground,
        second: second_ground,
    } = grounds;
    let closed = close(alloc, first_ground, second_ground, workers)?;
    Ok(Left::Two(closed))
}

/// Plays lines with a thread for each worker, and gives both grounds with all their workers once
/// the threads have ended.
fn played<G: Gate, R: Threads + Sync>(
    rt: &R,
    alloc: Global,
    first: &Limits,
    second: &Limits,
    lines: &[Line],
    turns: u32,
    gate: &G,
) -> Result<(TwinGrounds, Vec<WordTwin>), Refusal>
    requires turns { 1 ≤ turns }
    requires pools { AreTwinPools first.now second.now }
    ensures first_limits { IfOk result (λ left. left.0.first.limits ≡ first.now) }
    ensures second_limits { IfOk result (λ left. left.0.second.limits ≡ second.now) }
    ensures workers { IfOk result (λ left. AreTwinWorkers left.0.first left.0.second left.1.items) }
    ensures memory { IfErr result (λ e. e ≡ Refusal.OutOfMemory) }
{
    laws::twins_who_stay_are_all();
    let (first_ground, second_ground, mut workers) = make(alloc, first, second)?;
    let grounds = TwinGrounds {
        first: first_ground,
        second: second_ground,
    };
    if !play(
        rt,
        alloc,
        &grounds,
        workers.as_mut_slice(),
        lines,
        turns,
        gate,
    ) {
        return Err(Refusal::OutOfMemory);
    }
    Ok((grounds, workers))
}
