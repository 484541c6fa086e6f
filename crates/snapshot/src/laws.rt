//! Laws of lawful snapshots, and of faults.

ghost use Rattle.std.specs.Prelude.{◌≡◌, ◌+◌, ◌↔◌, ◌∷◌, ℕ, List, [], false};
ghost use Rattle.commons.specs.Bounds.{IsPool};
ghost use Rattle.snapshot.specs.declared.fault.Fault.{Fault};
ghost use Rattle.snapshot.specs.declared.snapshot.Snapshot.{Snapshot};
ghost use Rattle.snapshot.specs.AllFaults.{AreAllFaults, IsTold};
ghost use Rattle.snapshot.specs.Faults.{IsFault, IsFirstFault};
ghost use Rattle.snapshot.specs.Places.{PlacesItsPackets};
ghost use Rattle.snapshot.specs.Snapshots.{HasSlots, IsLawful, ListsItsElements, pool_of, statement_in, times_held};
ghost use Rattle.pool_model.specs.Sound.{ListsOnlyPackets};
ghost use Rattle.pool_model.specs.Pool.{held_of};
ghost use Rattle.pool_model.specs.Statements.{ListsEachOnce, PlacesEachOnce, statement_of};
ghost use Rattle.pool_statement.specs.declared.statement.Statement.{Statement};

/// A snapshot is lawful exactly where it has none of the faults.
pub fn a_lawful_snapshot_has_no_fault()
    ensures lawful { (s : Snapshot) → IsLawful s ↔ ((f : Fault) → ¬ (IsFault s f)) }
{}

/// The statement of a lawful snapshot lists each element of its pool exactly once, what is
/// available and what is in use are the population, and each packet has a place of its own, 1 to 32
/// segments, and the data of each within its buffer. That place is in the share of its worker,
/// however many places it has; where all shares have a place for each slot of a worker's table, it
/// is one of these slots.
pub fn a_lawful_snapshot_lists_each_element_once()
    ensures once { (s : Snapshot) → IsLawful s → ListsItsElements s (statement_in s) }
    ensures whole { (s : Snapshot) → IsLawful s → (statement_in s).available + (statement_in s).in_use ≡ s.limits.population }
    ensures places { (s : Snapshot) → IsLawful s → PlacesItsPackets s (statement_in s) }
    ensures slots { (s : Snapshot) → HasSlots s → IsLawful s → PlacesEachOnce s.limits (statement_in s) }
    ensures sound { (s : Snapshot) → IsLawful s → ListsOnlyPackets (statement_in s) }
{}

/// A snapshot without guests, and whose bases are its own, is that of one pool alone: its elements
/// are held by its packets and nobody else, its statement is that of the pool that it shows, and
/// lists each element once.
pub fn a_pool_alone_has_no_guests()
    ensures held { (s : Snapshot) (e : ℕ) → s.guests ≡ [] → s.foreign ≡ false → times_held s e ≡ held_of (pool_of s).members s.desks e }
    ensures statement { (s : Snapshot) → s.guests ≡ [] → s.foreign ≡ false → statement_in s ≡ statement_of (pool_of s) }
    ensures once { (s : Snapshot) (statement : Statement) → s.guests ≡ [] → s.foreign ≡ false →
        ListsItsElements s statement ↔ ListsEachOnce statement }
{}

/// A snapshot of a pool's limits of which no fault is told is lawful, and of a lawful one none is.
pub fn a_snapshot_without_told_faults_is_lawful()
    ensures lawful { (s : Snapshot) → IsPool s.limits → AreAllFaults (IsTold s) [] → IsLawful s }
    ensures none { (s : Snapshot) → IsLawful s → AreAllFaults (IsTold s) [] }
{}

/// The first of all faults of a snapshot that are told is the one that the audit answers.
pub fn the_first_told_fault_is_the_audits()
    ensures first { (s : Snapshot) (f : Fault) (more : List Fault) → IsPool s.limits →
        AreAllFaults (IsTold s) (f ∷ more) → IsFirstFault s f }
{}
