//! The caller in the README of `snapshot_json`.

ghost use Rattle.std.specs.Prelude.{IfOk};
ghost use Rattle.snapshot_json.specs.Reading.{IsSnapshotText};

use snapshot::snapshot::Snapshot;
use snapshot_json::fault::SnapshotFault;
use snapshot_json::read_snapshot;
use std::alloc::Global;

/// A snapshot, with the number of its free elements that are on its stack.
pub(super) fn with_length(alloc: Global, bytes: &[u8]) -> Result<(Snapshot, u64), SnapshotFault>
    ensures text { IfOk result (λ r. IsSnapshotText bytes.now r.0) }
{
    let snapshot = read_snapshot(alloc, bytes)?;
    let length = snapshot.length;
    Ok((snapshot, length))
}
