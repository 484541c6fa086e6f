//! How often each element of a snapshot is an own element, held and free, and what is wrong with
//! that.

ghost use Rattle.std.specs.Prelude.{◌≡◌, ◌⊎◌, ◌+◌, ◌<◌, ◌≤◌, ℕ, IfErr, IfOk, length, max, min, slice_index};
ghost use Rattle.commons.specs.Bounds.{IsPool};
ghost use Rattle.snapshot.specs.Faults.{IsCleanBelow, IsFirstFault};
ghost use Rattle.snapshot.specs.Snapshots.{HasShape, times_free, times_held, times_named, times_own, walk};
ghost use Rattle.snapshot.specs.inside.Tallies.{IsTally};

mod rows;
mod searches;
pub(crate) mod tables;

use crate::fault::Fault;
use crate::snapshot::Snapshot;
use crate::tally::searches::{doubled, lost, miscounted, repeated};
use crate::tally::tables::{Tally, tallied};
use std::alloc::Global;

/// Tests that each element is the own one of one segment at most, that it is in one place, and
/// that its count is the number of its holds, else answers the first fault, or `OutOfMemory` where
/// memory was refused.
pub(crate) fn check(alloc: Global, snapshot: &Snapshot, walked: &[u32]) -> Result<(), Fault>
    requires pool { IsPool snapshot.now.limits }
    requires shape { HasShape snapshot.now }
    requires walk { walked.now ≡ walk snapshot.now }
    requires known { (e : ℕ) → snapshot.now.limits.population ≤ e → times_named snapshot.now e ≡ 0 }
    requires clean { IsCleanBelow 6 snapshot.now }
    ensures own { IfOk result (λ _. (e : ℕ) → times_own snapshot.now e ≤ 1) }
    ensures once { IfOk result (λ _. (e : ℕ) → e < snapshot.now.limits.population →
        times_free snapshot.now e + min 1 (times_held snapshot.now e) ≡ 1) }
    ensures counted { IfOk result (λ _. (e : ℕ) → e < snapshot.now.limits.population →
        slice_index snapshot.now.counts e ≡ max 1 (times_held snapshot.now e)) }
    ensures first { IfErr result (λ f. (f ≡ Fault.OutOfMemory) ⊎ IsFirstFault snapshot.now f) }
{
    match tallied(alloc, snapshot, walked) {
        Ok(tally) => judge(snapshot, &tally),
        Err(_) => Err(Fault::OutOfMemory),
    }
}

/// Tests, by the snapshot's tally, that each element is the own one of one segment at most, that it
/// is in one place, and that its count is the number of its holds, else answers the first fault.
fn judge(snapshot: &Snapshot, tally: &Tally) -> Result<(), Fault>
    requires pool { IsPool snapshot.now.limits }
    requires shape { HasShape snapshot.now }
    requires tally { IsTally (walk snapshot.now) snapshot.now tally.now }
    requires known { (e : ℕ) → snapshot.now.limits.population ≤ e → times_named snapshot.now e ≡ 0 }
    requires clean { IsCleanBelow 6 snapshot.now }
    ensures own { IfOk result (λ _. (e : ℕ) → times_own snapshot.now e ≤ 1) }
    ensures once { IfOk result (λ _. (e : ℕ) → e < snapshot.now.limits.population →
        times_free snapshot.now e + min 1 (times_held snapshot.now e) ≡ 1) }
    ensures counted { IfOk result (λ _. (e : ℕ) → e < snapshot.now.limits.population →
        slice_index snapshot.now.counts e ≡ max 1 (times_held snapshot.now e)) }
    ensures first { IfErr result (λ f. IsFirstFault snapshot.now f) }
{
    match repeated(tally.own.as_slice()) {
        Some(elem) => Err(Fault::DoubleHeader(elem as u32)),
        None => judge_holds(snapshot, tally),
    }
}

/// Tests, where each element is the own one of one segment at most, that each is in one place, and
/// that its count is the number of its holds. The numbers of holds in the tally are exact: there
/// are no more segments than elements, so an element is held fewer than 2^32 times, however many
/// places the shares have.
fn judge_holds(snapshot: &Snapshot, tally: &Tally) -> Result<(), Fault>
    requires pool { IsPool snapshot.now.limits }
    requires counts { length snapshot.now.counts ≡ snapshot.now.limits.population }
    requires tally { IsTally (walk snapshot.now) snapshot.now tally.now }
    requires few { (e : ℕ) → times_held snapshot.now e ≤ 4_294_967_295 }
    requires known { (e : ℕ) → snapshot.now.limits.population ≤ e → times_named snapshot.now e ≡ 0 }
    requires clean { IsCleanBelow 7 snapshot.now }
    ensures once { IfOk result (λ _. (e : ℕ) → e < snapshot.now.limits.population →
        times_free snapshot.now e + min 1 (times_held snapshot.now e) ≡ 1) }
    ensures counted { IfOk result (λ _. (e : ℕ) → e < snapshot.now.limits.population →
        slice_index snapshot.now.counts e ≡ max 1 (times_held snapshot.now e)) }
    ensures first { IfErr result (λ f. IsFirstFault snapshot.now f) }
{
    let held = tally.held.as_slice();
    let free = tally.free.as_slice();
    let counts = snapshot.counts.as_slice();
    if let Some(elem) = doubled(free, held) {
        return Err(Fault::Doubled(elem as u32));
    }
    if let Some(elem) = lost(free, held) {
        return Err(Fault::Lost(elem as u32));
    }
    if let Some(elem) = miscounted(counts, held) {
        return Err(Fault::BadCount {
            elem: elem as u32,
            word: counts[elem],
            holds: u64::from(held[elem]),
        });
    }
    Ok(())
}
