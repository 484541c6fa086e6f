//! Passes over a snapshot and its tally, each of which adds the faults of one kind.

ghost use Rattle.std.specs.Prelude.{◌≡◌, ◌≢◌, ◌+◌, ◌<◌, ◌≤◌, ◌↔◌, IfOk, IsTrue, length, max, min, slice_index};
ghost use Rattle.commons.specs.Bag.{bag};
ghost use Rattle.snapshot.specs.declared.fault.Fault.TheVariants.{BadCount, BadElem, BadPacket, Doubled, DoubleHeader, Lost};
ghost use Rattle.snapshot.specs.AllFaults.{uncounted};
ghost use Rattle.snapshot.specs.Faults.{IsFault, rank};
ghost use Rattle.snapshot.specs.Snapshots.{times_named, walk};
ghost use Rattle.snapshot.specs.inside.Notes.{Adds, AddsBelow, AddsEach, IsDouble, IsMiscounted, IsNowhere, IsRepeated};

use crate::elements::strangers;
use crate::fault::Fault;
use crate::packets::has_packets;
use crate::snapshot::Snapshot;
use std::alloc::{AllocError, Global};

/// Adds `BadLength`, where the length word isn't the length of the walk, which has these elements.
pub(crate) fn note_length(
    faults: &mut Vec<Fault>,
    snapshot: &Snapshot,
    elems: &[u32],
) -> Result<(), AllocError>
    requires walk { elems.now ≡ walk snapshot.now }
    ensures { IfOk result (λ _. Adds (λ f. (rank f ≡ 3) × IsFault snapshot.now f)
        faults.old.items faults.new.items) }
{
    let found = elems.len() as u64;
    if snapshot.length == found {
        return Ok(());
    }
    faults.push(Fault::BadLength {
        word: snapshot.length,
        found,
    })?;
    Ok(())
}

/// Adds `BadElem` for each element that the pool doesn't have and that this stack, a cache, a
/// packet or a guest names.
pub(crate) fn note_strangers(
    alloc: Global,
    faults: &mut Vec<Fault>,
    snapshot: &Snapshot,
    stack: &[u32],
) -> Result<(), AllocError>
    ensures { IfOk result (λ _. AddsEach BadElem
        (λ e. (0 < bag stack.now e + times_named snapshot.now e)
        × (snapshot.now.limits.population ≤ e))
        faults.old.items faults.new.items) }
{
    let elems = strangers(alloc, snapshot, stack)?;
    for elem in elems.as_slice() {
        faults.push(Fault::BadElem(*elem))?;
    }
    Ok(())
}

/// Adds `BadPacket`, where something in a slot or on a desk isn't a packet.
pub(crate) fn note_packets(faults: &mut Vec<Fault>, snapshot: &Snapshot) -> Result<(), AllocError>
    ensures { IfOk result (λ _. Adds (λ f. (rank f ≡ 5) × IsFault snapshot.now f)
        faults.old.items faults.new.items) }
{
    if has_packets(snapshot) {
        return Ok(());
    }
    faults.push(Fault::BadPacket)?;
    Ok(())
}

/// Adds `DoubleHeader` for each element that is the own one of two segments, by this row of a
/// tally.
pub(crate) fn note_headers(faults: &mut Vec<Fault>, own: &[u32]) -> Result<(), AllocError>
    requires { length own.now ≤ 4_294_967_296 }
    ensures { IfOk result (λ _. AddsBelow (length own.now) DoubleHeader (IsRepeated own.now)
        faults.old.items faults.new.items) }
{
    for (elem, times) in own.iter().enumerate() {
        if *times > 1 {
            faults.push(Fault::DoubleHeader(elem as u32))?;
        }
    }
    Ok(())
}

/// Adds `Doubled` for each element that is free twice, or free and held, by these rows of a tally,
/// where the stack ends.
pub(crate) fn note_doubled(
    faults: &mut Vec<Fault>,
    free: &[u32],
    held: &[u32],
    ends: bool,
) -> Result<(), AllocError>
    requires same { length free.now ≡ length held.now }
    requires few { length held.now ≤ 4_294_967_296 }
    ensures { IfOk result (λ _. AddsBelow (length held.now) Doubled
        (IsDouble ends free.now held.now) faults.old.items faults.new.items) }
{
    for (elem, holds) in held.iter().enumerate() {
        if is_double(ends, free[elem], *holds) {
            faults.push(Fault::Doubled(elem as u32))?;
        }
    }
    Ok(())
}

/// Whether an element that is so often free and so often held is free twice, or free and held,
/// where the stack ends.
fn is_double(ends: bool, free: u32, holds: u32) -> bool
    ensures { IsTrue result ↔ (IsTrue ends × (1 < free + min 1 holds)) }
{
    ends && u64::from(free) + u64::from(holds).min(1) > 1
}

/// Adds `Lost` for each element that is neither free nor held, by these rows, where the stack ends.
pub(crate) fn note_lost(
    faults: &mut Vec<Fault>,
    free: &[u32],
    held: &[u32],
    ends: bool,
) -> Result<(), AllocError>
    requires same { length free.now ≡ length held.now }
    requires few { length held.now ≤ 4_294_967_296 }
    ensures { IfOk result (λ _. AddsBelow (length held.now) Lost (IsNowhere ends free.now held.now)
        faults.old.items faults.new.items) }
{
    for (elem, holds) in held.iter().enumerate() {
        if is_nowhere(ends, free[elem], *holds) {
            faults.push(Fault::Lost(elem as u32))?;
        }
    }
    Ok(())
}

/// Whether it is neither, where the stack ends.
fn is_nowhere(ends: bool, free: u32, holds: u32) -> bool
    ensures { IsTrue result ↔ (IsTrue ends × (free + holds ≡ 0)) }
{
    ends && u64::from(free) + u64::from(holds) == 0
}

/// Adds `BadCount` for each element whose count isn't the number of its holds in this row, or isn't
/// 1 where nobody holds it. An element that is held too often for the row is passed over.
pub(crate) fn note_counts(
    faults: &mut Vec<Fault>,
    counts: &[u32],
    held: &[u32],
) -> Result<(), AllocError>
    requires same { length counts.now ≡ length held.now }
    requires few { length held.now ≤ 4_294_967_296 }
    ensures { IfOk result (λ _. AddsBelow (length held.now)
        (λ e. BadCount e (slice_index counts.now e) (slice_index held.now e))
        (IsMiscounted counts.now held.now)
        faults.old.items faults.new.items) }
{
    for (elem, holds) in held.iter().enumerate() {
        if is_miscounted(counts[elem], *holds) {
            faults.push(Fault::BadCount {
                elem: elem as u32,
                word: counts[elem],
                holds: u64::from(*holds),
            })?;
        }
    }
    Ok(())
}

/// Whether a count isn't the number of holds, or isn't 1 where there are none. Of an element that
/// is held too often for the row it isn't known.
fn is_miscounted(count: u32, holds: u32) -> bool
    ensures { IsTrue result ↔ ((holds < uncounted) × (count ≢ max 1 holds)) }
{
    holds < u32::MAX && count != holds.max(1)
}
