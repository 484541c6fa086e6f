//! The audit: passes over a snapshot, in the order in which faults are looked for, and a statement.

ghost use Rattle.std.specs.Prelude.{◌≡◌, ◌⊎◌, IfOk, IfErr};
ghost use Rattle.commons.specs.Bounds.{IsPool};
ghost use Rattle.pool_model.specs.Sound.{ListsOnlyPackets};
ghost use Rattle.pool_model.specs.Statements.{PlacesEachOnce};
ghost use Rattle.snapshot.specs.Faults.{IsFirstFault};
ghost use Rattle.snapshot.specs.Places.{PlacesItsPackets};
ghost use Rattle.snapshot.specs.Snapshots.{HasSlots, IsLawful, ListsItsElements, statement_in};

use crate::fault::Fault;
use crate::snapshot::Snapshot;
use crate::{elements, laws, packets, placing, shape, tally, walking};
use pool_statement::statement::Statement;
use std::alloc::Global;

/// The statement of a lawful snapshot, else the first of its faults, or `OutOfMemory` where memory
/// was refused. A share may have any number of places: each packet that is listed has the number of
/// its place as its slot. It has 1 to 32 segments, each with its data within its buffer. Of the
/// reference limit nothing is said.
pub fn audit(alloc: Global, snapshot: &Snapshot) -> Result<Statement, Fault>
    requires pool { IsPool snapshot.now.limits }
    ensures lawful { IfOk result (λ _. IsLawful snapshot.now) }
    ensures statement { IfOk result (λ s. s ≡ statement_in snapshot.now) }
    ensures once { IfOk result (λ s. ListsItsElements snapshot.now s) }
    ensures places { IfOk result (λ s. PlacesItsPackets snapshot.now s) }
    ensures slots { IfOk result (λ s. HasSlots snapshot.now → PlacesEachOnce snapshot.now.limits s) }
    ensures sound { IfOk result (λ s. ListsOnlyPackets s) }
    ensures first { IfErr result (λ f. (f ≡ Fault.OutOfMemory) ⊎ IsFirstFault snapshot.now f) }
{
    laws::a_lawful_snapshot_lists_each_element_once();
    shape::check(snapshot)?;
    let walk = walking::walk(alloc, snapshot)?;
    walking::check_length(snapshot, walk.as_slice())?;
    elements::check(alloc, snapshot)?;
    packets::check(snapshot)?;
    tally::check(alloc, snapshot, walk.as_slice())?;
    match placing::statement(alloc, snapshot, walk) {
        Ok(statement) => Ok(statement),
        Err(_) => Err(Fault::OutOfMemory),
    }
}
