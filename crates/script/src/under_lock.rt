//! A run in threads on a pool alone, under one lock.

ghost use Rattle.std.specs.Prelude.{ℕ, ◌≡◌, ◌≤◌, List, IfOk, IfErr, None};
ghost use Rattle.book.specs.Left.{IsLeftWhole};
ghost use Rattle.commons.specs.Bounds.{IsPool};
ghost use Rattle.commons.specs.declared.limits.Limits.{Limits};
ghost use Rattle.mbuf.specs.declared.acts.Act.{Act};
ghost use Rattle.script.specs.Losing.{AreOfPool, LosesByActs};
ghost use Rattle.script.specs.Running.{ReachedByActs};
ghost use Rattle.script.specs.Snapshots.{settled_in};
ghost use Rattle.script.specs.inside.Leaving.{AreWhole, CountsAreWithin, limits_left, snapshots_of};
ghost use Rattle.share_book.specs.Locked.{AreLeftBy};
ghost use Rattle.snapshot.specs.Closing.{snapshot_of};
ghost use Rattle.snapshot.specs.Snapshots.{IsLawful};

use crate::gate::Gate;
use crate::left::Left;
use crate::locked::{Locked, play};
use commons::closed::Closed;
use commons::limits::Limits;
use commons::refusal::Refusal;
use mbuf::acts::Answer;
use pool_model::laws;
use script_text::commands::Line;
use share_book::Share;
use share_book::ending::settled_parts_without;
use share_book::locked_site::{LockedPool, OfLimits};
use std::alloc::Global;
use std::marker::Brand;
use std::sync::Wait;
use std::thread::Threads;
use twin_acts::acts::TwinAct;

impl<K: OfLimits, const ROOM: usize> Locked<ROOM> for LockedPool<K> {
    fn act_locked<R: Wait>(&self, rt: &R, worker: u32, act: TwinAct) -> Answer<ROOM> {
        match act {
            TwinAct::OnFirst(act) => self.act_in(rt, worker, act),
            _ => Answer::Refused(Refusal::Foreign),
        }
    }
}

/// Plays a script's lines with a thread for each worker, on a new pool of lists within these limits,
/// under one lock: the acts come one after another. Closes the pool once all have ended, and gives
/// what it leaves.
///
/// Refused `OutOfMemory` where memory was refused or a thread couldn't be started, and for no
/// other cause.
pub(crate) fn run<G: Gate, R: Threads + Wait + Sync>(
    rt: &R,
    alloc: Global,
    limits: &Limits,
    lines: &[Line],
    turns: u32,
    gate: &G,
) -> Result<Left, Refusal>
    requires turns { 1 ≤ turns }
    requires pool { IsPool limits.now }
    ensures limits { IfOk result (λ left. limits_left left ≡ record { first = limits.now; second = None }) }
    ensures whole { IfOk result (λ left. AreWhole left) }
    ensures reached { IfOk result (λ left.
        ReachedByActs (record { first = limits.now; second = None }) (settled_in (snapshots_of left))) }
    ensures counts { IfOk result (λ left. CountsAreWithin left) }
    ensures memory { IfErr result (λ e. e ≡ Refusal.OutOfMemory) }
{
    laws::acts_leave_packets_sound();
    let (limits, closed, shares) = played::<Brand, G, R>(rt, alloc, limits, lines, turns, gate)?;
    Ok(Left::One(limits, closed, shares))
}

/// Plays lines as `run` does, and then loses the share of a worker, as of one who died. Answers
/// which elements are lost.
///
/// Refused as `run` is.
pub(crate) fn run_lost<G: Gate, R: Threads + Wait + Sync>(
    rt: &R,
    alloc: Global,
    limits: &Limits,
    lines: &[Line],
    turns: u32,
    worker: u32,
    gate: &G,
) -> Result<Vec<u32>, Refusal>
    requires turns { 1 ≤ turns }
    requires pool { IsPool limits.now }
    ensures lost { IfOk result (λ elems. LosesByActs limits.now worker elems.items) }
    ensures pool { IfOk result (λ elems. AreOfPool limits.now elems.items) }
    ensures memory { IfErr result (λ e. e ≡ Refusal.OutOfMemory) }
{
    let (limits, closed, shares) = played::<Brand, G, R>(rt, alloc, limits, lines, turns, gate)?;
    settled_parts_without(alloc, &limits, closed, shares, &[worker])
}

/// Plays lines under a lock whose type knows the pool's limits, and gives what the pool left
/// with the shares of all its workers, once their threads have ended.
fn played<K: OfLimits + Send + Sync, G: Gate, R: Threads + Wait + Sync>(
    rt: &R,
    alloc: Global,
    limits: &Limits,
    lines: &[Line],
    turns: u32,
    gate: &G,
) -> Result<(Limits, Closed, Vec<Share>), Refusal>
    requires turns { 1 ≤ turns }
    requires pool { IsPool limits.now }
    requires allowed { K.allows limits.now }
    requires only { (l : Limits) → K.allows l → l ≡ limits.now }
    ensures limits { IfOk result (λ left. left.0 ≡ limits.now) }
    ensures reached { IfOk result (λ left. (acts : List (ℕ × Act)) × AreLeftBy acts left.0 left.1 left.2.items) }
    ensures whole { IfOk result (λ left. IsLeftWhole left.0 left.1 left.2.items) }
    ensures lawful { IfOk result (λ left. IsLawful (snapshot_of left.0 left.1 left.2.items)) }
    ensures memory { IfErr result (λ e. e ≡ Refusal.OutOfMemory) }
{
    let site = LockedPool::<K>::make(alloc, limits)?;
    let workers = limits.workers as u32;
    if !play(rt, alloc, &site, workers, lines, turns, gate) {
        site.lose();
        return Err(Refusal::OutOfMemory);
    }
    match site.close(alloc) {
        Ok(left) => Ok(left),
        Err((cause, pool)) => {
            pool.lose();
            Err(cause)
        }
    }
}
