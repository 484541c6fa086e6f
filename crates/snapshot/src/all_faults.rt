//! Every fault of a snapshot, in the order in which faults are looked for.

ghost use Rattle.std.specs.Prelude.{◌≡◌, ◌⊎◌, ◌∷◌, [], IfOk, IsTrue};
ghost use Rattle.commons.specs.Bounds.{IsPool};
ghost use Rattle.snapshot.specs.AllFaults.{AreAllFaults, IsTold, IsToldOn, WalkEnds};
ghost use Rattle.snapshot.specs.Snapshots.{HasShape, walk};
ghost use Rattle.snapshot.specs.inside.Breaks.{IsBreak};
ghost use Rattle.snapshot.specs.inside.Notes.{Adds, IsLate};

mod notes;

use crate::fault::Fault;
use crate::shape::has_shape;
use crate::snapshot::Snapshot;
use crate::tally::tables::tallied;
use crate::walking::walk;
use notes::{
    note_counts, note_doubled, note_headers, note_length, note_lost, note_packets, note_strangers,
};
use std::alloc::{AllocError, Global};

/// Every fault of a snapshot that is told, in the order in which faults are looked for: the first
/// of them is the one that the audit answers, and a snapshot without any is lawful.
///
/// A bad shape is told alone. Where the walk along the links has no end in the pool (`BadTop` or
/// `Loop`), neither the length word nor what is free twice or lost is told, since these count what
/// is on the stack. An element that the pool doesn't have is told as `BadElem`, and in no other
/// fault. A wrong count is told of an element that is held fewer than 4,294,967,295 times.
///
/// Refused where memory was refused. It takes time linear in the snapshot, but for sorting the
/// elements that the pool doesn't have.
pub fn all_faults(alloc: Global, snapshot: &Snapshot) -> Result<Vec<Fault>, AllocError>
    requires pool { IsPool snapshot.now.limits }
    ensures { IfOk result (λ faults. AreAllFaults (IsTold snapshot.now) faults.items) }
{
    if !has_shape(snapshot) {
        return only(alloc, Fault::BadShape);
    }
    match walk(alloc, snapshot) {
        Ok(elems) => after_walk(alloc, snapshot, elems.as_slice()),
        Err(fault) => after_break(alloc, snapshot, fault),
    }
}

/// Every fault of a snapshot that is told, where its stack has these elements, from the top down,
/// in place of those along the links. A list has no words, so no `BadTop`, `Loop` or `BadLength`
/// arises; an element that stands there twice is `Doubled`, and one that the pool doesn't have is
/// `BadElem`.
///
/// Refused where memory was refused. It takes time linear in the snapshot and the list, but for
/// sorting the elements that the pool doesn't have.
pub fn all_faults_on(
    alloc: Global,
    snapshot: &Snapshot,
    stack: &[u32],
) -> Result<Vec<Fault>, AllocError>
    requires pool { IsPool snapshot.now.limits }
    ensures { IfOk result (λ faults. AreAllFaults (IsToldOn stack.now snapshot.now) faults.items) }
{
    if !has_shape(snapshot) {
        return only(alloc, Fault::BadShape);
    }
    let mut faults = Vec::new(alloc);
    note_others(alloc, &mut faults, snapshot, stack, true)?;
    Ok(faults)
}

/// A fault alone.
fn only(alloc: Global, fault: Fault) -> Result<Vec<Fault>, AllocError>
    ensures { IfOk result (λ faults. faults.items ≡ fault ∷ []) }
{
    let mut faults = Vec::new(alloc);
    faults.push(fault)?;
    Ok(faults)
}

/// The faults where the walk ends in the pool, and has these elements.
fn after_walk(alloc: Global, snapshot: &Snapshot, elems: &[u32]) -> Result<Vec<Fault>, AllocError>
    requires pool { IsPool snapshot.now.limits }
    requires shape { HasShape snapshot.now }
    requires walk { elems.now ≡ walk snapshot.now }
    requires ends { WalkEnds snapshot.now }
    ensures { IfOk result (λ faults. AreAllFaults (IsTold snapshot.now) faults.items) }
{
    let mut faults = Vec::new(alloc);
    note_length(&mut faults, snapshot, elems)?;
    note_others(alloc, &mut faults, snapshot, elems, true)?;
    Ok(faults)
}

/// The faults where it doesn't, for this reason, or because memory was refused.
fn after_break(alloc: Global, snapshot: &Snapshot, fault: Fault) -> Result<Vec<Fault>, AllocError>
    requires pool { IsPool snapshot.now.limits }
    requires shape { HasShape snapshot.now }
    requires broken { (fault ≡ Fault.OutOfMemory) ⊎ IsBreak snapshot.now fault }
    ensures { IfOk result (λ faults. AreAllFaults (IsTold snapshot.now) faults.items) }
{
    match fault {
        Fault::OutOfMemory => Err(AllocError),
        _ => {
            let mut faults = only(alloc, fault)?;
            note_others(alloc, &mut faults, snapshot, &[], false)?;
            Ok(faults)
        }
    }
}

/// Adds the faults of all other kinds, where the stack has these elements. What counts the stack is
/// left out where it has no end.
fn note_others(
    alloc: Global,
    faults: &mut Vec<Fault>,
    snapshot: &Snapshot,
    stack: &[u32],
    ends: bool,
) -> Result<(), AllocError>
    requires pool { IsPool snapshot.now.limits }
    requires shape { HasShape snapshot.now }
    ensures { IfOk result (λ _. Adds (IsLate (IsTrue ends) stack.now snapshot.now)
        faults.old.items faults.new.items) }
{
    note_strangers(alloc, faults, snapshot, stack)?;
    note_packets(faults, snapshot)?;
    let tally = tallied(alloc, snapshot, stack)?;
    let held = tally.held.as_slice();
    let free = tally.free.as_slice();
    note_headers(faults, tally.own.as_slice())?;
    note_doubled(faults, free, held, ends)?;
    note_lost(faults, free, held, ends)?;
    note_counts(faults, snapshot.counts.as_slice(), held)
}
