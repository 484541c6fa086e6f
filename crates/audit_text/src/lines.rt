//! A line for each fault of a snapshot.

ghost use Rattle.std.specs.Prelude.{◌≡◌, ◌++◌, IfErr, IfOk, OnOk, codes};
ghost use Rattle.audit_text.specs.FaultText.{fault_text_on, lines_text};

use crate::fault_string;
use commons::refusal::Refusal;
use snapshot::fault::Fault;
use snapshot::snapshot::Snapshot;
use std::alloc::{AllocError, Global};

/// A line for each of these faults, in order, each with a line feed at its end and with this text
/// in front, as of which of two pools it is. The stack of the snapshot has these elements, from the
/// top down.
///
/// Refused `OutOfMemory` where memory was refused. It takes time linear in the snapshot and the
/// stack for each fault whose line names places.
pub fn fault_lines(
    alloc: Global,
    snapshot: &Snapshot,
    stack: &[u32],
    faults: &[Fault],
    front: &[u8],
) -> Result<Vec<u8>, Refusal>
    ensures text { IfOk result (λ v. v.items
        ≡ lines_text front.now stack.now snapshot.now faults.now) }
    ensures memory { IfErr result (λ e. e ≡ Refusal.OutOfMemory) }
{
    let mut out = Vec::new(alloc);
    match write_lines(alloc, &mut out, snapshot, stack, faults, front) {
        Ok(()) => Ok(out),
        Err(_) => Err(Refusal::OutOfMemory),
    }
}

/// The lines of faults.
fn write_lines(
    alloc: Global,
    out: &mut Vec<u8>,
    snapshot: &Snapshot,
    stack: &[u32],
    faults: &[Fault],
    front: &[u8],
) -> Result<(), AllocError>
    ensures { OnOk result (out.new.items ≡ out.old.items
        ++ lines_text front.now stack.now snapshot.now faults.now) }
{
    for fault in faults {
        write_line(alloc, out, snapshot, stack, *fault, front)?;
    }
    Ok(())
}

/// The line of one, with its end.
fn write_line(
    alloc: Global,
    out: &mut Vec<u8>,
    snapshot: &Snapshot,
    stack: &[u32],
    fault: Fault,
    front: &[u8],
) -> Result<(), AllocError>
    ensures { OnOk result (out.new.items ≡ out.old.items
        ++ (front.now ++ fault_text_on stack.now snapshot.now fault ++ codes "\n")) }
{
    let line = fault_string(alloc, snapshot, stack, fault)?;
    out.extend_from_slice(front)?;
    out.extend_from_slice(line.as_bytes())?;
    out.push(b'\n')?;
    Ok(())
}
