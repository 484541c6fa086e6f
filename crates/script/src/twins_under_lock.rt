//! A run in threads on two pools under one lock.

ghost use Rattle.std.specs.Prelude.{ℕ, ◌≡◌, ◌≤◌, List, IfOk, IfErr, Some};
ghost use Rattle.book.specs.Left.{AreLeftWhole};
ghost use Rattle.commons.specs.declared.limits.Limits.{Limits};
ghost use Rattle.script.specs.Running.{ReachedByActs};
ghost use Rattle.script.specs.Snapshots.{settled_in};
ghost use Rattle.script.specs.inside.Leaving.{AreWhole, CountsAreWithin, limits_left, snapshots_of};
ghost use Rattle.share_book.specs.Locked.{AreTwinsLeftBy};
ghost use Rattle.share_book.specs.TwinSites.{AreTwinPools};
ghost use Rattle.twin_acts.specs.declared.acts.TwinAct.{TwinAct};

use crate::gate::Gate;
use crate::left::Left;
use crate::locked::{Locked, play};
use commons::limits::Limits;
use commons::refusal::Refusal;
use mbuf::acts::Answer;
use script_text::commands::Line;
use share_book::ClosedTwin;
use share_book::locked_site::OfLimits;
use share_book::locked_twin::LockedTwins;
use std::alloc::Global;
use std::marker::Brand;
use std::sync::Wait;
use std::thread::Threads;
use twin_acts::acts::TwinAct;

impl<K: OfLimits, L: OfLimits, const ROOM: usize> Locked<ROOM> for LockedTwins<K, L> {
    fn act_locked<R: Wait>(&self, rt: &R, worker: u32, act: TwinAct) -> Answer<ROOM> {
        self.act_in(rt, worker, act)
    }
}

/// Plays a script's lines with a thread for each worker, on two new pools of lists within these
/// limits, under one lock: the acts come one after another. Closes the pools once all have ended,
/// and gives what they leave.
///
/// Refused `OutOfMemory` where memory was refused or a thread couldn't be started, and for no
/// other cause.
pub(crate) fn run<G: Gate, R: Threads + Wait + Sync>(
    rt: &R,
    alloc: Global,
    first: &Limits,
    second: &Limits,
    lines: &[Line],
    turns: u32,
    gate: &G,
) -> Result<Left, Refusal>
    requires turns { 1 ≤ turns }
    requires pools { AreTwinPools first.now second.now }
    ensures limits { IfOk result (λ left. limits_left left ≡ record { first = first.now; second = Some second.now }) }
    ensures whole { IfOk result (λ left. AreWhole left) }
    ensures reached { IfOk result (λ left.
        ReachedByActs (record { first = first.now; second = Some second.now }) (settled_in (snapshots_of left))) }
    ensures counts { IfOk result (λ left. CountsAreWithin left) }
    ensures memory { IfErr result (λ e. e ≡ Refusal.OutOfMemory) }
{
    let closed = played::<Brand, Brand, G, R>(rt, alloc, first, second, lines, turns, gate)?;
    Ok(Left::Two(closed))
}

/// Plays lines under a lock whose type knows the limits of both pools, and gives what these left
/// with the shares of all their workers, once the workers' threads have ended.
fn played<K, L, G, R>(
    rt: &R,
    alloc: Global,
    first: &Limits,
    second: &Limits,
    lines: &[Line],
    turns: u32,
    gate: &G,
) -> Result<ClosedTwin, Refusal>
where
    K: OfLimits + Send + Sync,
    L: OfLimits + Send + Sync,
    G: Gate,
    R: Threads + Wait + Sync,
    requires turns { 1 ≤ turns }
    requires pools { AreTwinPools first.now second.now }
    requires first_allowed { K.allows first.now }
    requires second_allowed { L.allows second.now }
    requires first_only { (l : Limits) → K.allows l → l ≡ first.now }
    requires second_only { (l : Limits) → L.allows l → l ≡ second.now }
    ensures first_limits { IfOk result (λ c. c.first_limits ≡ first.now) }
    ensures second_limits { IfOk result (λ c. c.second_limits ≡ second.now) }
    ensures reached { IfOk result (λ c. (acts : List (ℕ × TwinAct)) × AreTwinsLeftBy acts c.first_limits c.second_limits c.first c.second c.shares.items) }
    ensures whole { IfOk result (λ c. AreLeftWhole c) }
    ensures memory { IfErr result (λ e. e ≡ Refusal.OutOfMemory) }
{
    let site = LockedTwins::<K, L>::make(alloc, first, second)?;
    let workers = first.workers as u32;
    if !play(rt, alloc, &site, workers, lines, turns, gate) {
        site.lose();
        return Err(Refusal::OutOfMemory);
    }
    match site.close(alloc) {
        Ok(closed) => Ok(closed),
        Err((cause, pools)) => {
            pools.lose();
            Err(cause)
        }
    }
}
