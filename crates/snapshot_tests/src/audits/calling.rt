//! The caller in the README of `snapshot`.

ghost use Rattle.std.specs.Prelude.{◌≡◌, ◌⊎◌, IfErr};
ghost use Rattle.commons.specs.Bounds.{IsPool};
ghost use Rattle.snapshot.specs.Faults.{IsFirstFault};

use snapshot::audit::audit;
use snapshot::fault::Fault;
use snapshot::snapshot::Snapshot;
use std::alloc::Global;

/// How many elements of a closed pool are held, or its first fault.
pub(super) fn in_use(alloc: Global, snapshot: &Snapshot) -> Result<u64, Fault>
    requires pool { IsPool snapshot.now.limits }
    ensures first { IfErr result (λ f. (f ≡ Fault.OutOfMemory) ⊎ IsFirstFault snapshot.now f) }
{
    Ok(audit(alloc, snapshot)?.in_use)
}
