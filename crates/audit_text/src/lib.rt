//! The lines that tell of faults of a snapshot: what is wrong, and where.
#![tactic(auto)]

mod finding;
pub mod json;
pub mod lines;
mod lists;
mod numbers;
mod packets;
pub mod place;
mod shape;
mod walking;
mod wording;
mod writing;

ghost use Rattle.std.specs.Prelude.{◌≡◌, ◌++◌, IfErr, IfOk, OnOk, string_bytes};
ghost use Rattle.audit_text.specs.FaultText.{fault_text, fault_text_on, named_text};
ghost use Rattle.snapshot.specs.Snapshots.{walk};

use commons::refusal::Refusal;
use finding::{everywhere, owners};
use packets::other_packets;
use shape::shape_words;
use snapshot::fault::Fault;
use snapshot::snapshot::Snapshot;
use std::alloc::{AllocError, Global};
use wording::write_first;
use writing::{
    write_count, write_element, write_front, write_length, write_shape, write_stranger, write_top,
    write_twice,
};

/// The line that tells of a fault of a snapshot, without its end: its number and name, and then
/// what it names and where that stands, at two places at most.
///
/// Refused `OutOfMemory` where memory was refused. It takes time linear in the snapshot.
pub fn fault_line(alloc: Global, snapshot: &Snapshot, fault: Fault) -> Result<Vec<u8>, Refusal>
    ensures text { IfOk result (λ v. v.items ≡ fault_text snapshot.now fault) }
    ensures memory { IfErr result (λ e. e ≡ Refusal.OutOfMemory) }
{
    let stack = stack_of(alloc, snapshot)?;
    fault_line_on(alloc, snapshot, stack.as_slice(), fault)
}

/// The line that tells of a fault of a snapshot whose stack has these elements, from the top down.
///
/// Refused `OutOfMemory` where memory was refused. It takes time linear in the snapshot and the
/// stack.
pub fn fault_line_on(
    alloc: Global,
    snapshot: &Snapshot,
    stack: &[u32],
    fault: Fault,
) -> Result<Vec<u8>, Refusal>
    ensures text { IfOk result (λ v. v.items ≡ fault_text_on stack.now snapshot.now fault) }
    ensures memory { IfErr result (λ e. e ≡ Refusal.OutOfMemory) }
{
    match fault_string(alloc, snapshot, stack, fault) {
        Ok(line) => Ok(line.into_bytes()),
        Err(_) => Err(Refusal::OutOfMemory),
    }
}

/// The stack of a snapshot: the elements of the walk from the top on. Where the walk comes back to
/// an element, it ends once it has one more than the population.
///
/// Refused `OutOfMemory` where memory was refused.
pub fn stack_of(alloc: Global, snapshot: &Snapshot) -> Result<Vec<u32>, Refusal>
    ensures walk { IfOk result (λ v. v.items ≡ walk snapshot.now) }
    ensures memory { IfErr result (λ e. e ≡ Refusal.OutOfMemory) }
{
    match walking::walk(alloc, snapshot) {
        Ok(elems) => Ok(elems),
        Err(_) => Err(Refusal::OutOfMemory),
    }
}

/// The line as text.
pub(crate) fn fault_string(
    alloc: Global,
    snapshot: &Snapshot,
    stack: &[u32],
    fault: Fault,
) -> Result<String, AllocError>
    ensures { IfOk result (λ text. string_bytes text ≡ fault_text_on stack.now snapshot.now fault) }
{
    let mut out = String::new(alloc);
    write_fault(alloc, &mut out, snapshot, stack, fault)?;
    Ok(out)
}

/// The line of a fault.
fn write_fault(
    alloc: Global,
    out: &mut String,
    snapshot: &Snapshot,
    stack: &[u32],
    fault: Fault,
) -> Result<(), AllocError>
    ensures { OnOk result (string_bytes out.new ≡ string_bytes out.old
        ++ fault_text_on stack.now snapshot.now fault) }
{
    write_front(out, fault)?;
    write_named(alloc, out, snapshot, stack, fault)
}

/// What a fault names, and where that stands.
fn write_named(
    alloc: Global,
    out: &mut String,
    snapshot: &Snapshot,
    stack: &[u32],
    fault: Fault,
) -> Result<(), AllocError>
    ensures { OnOk result (string_bytes out.new ≡ string_bytes out.old
        ++ named_text stack.now snapshot.now fault) }
{
    match fault {
        Fault::BadShape => write_shape(out, shape_words(snapshot)),
        Fault::BadTop(word) => write_top(out, word),
        Fault::Loop => Ok(()),
        Fault::BadLength { word, found } => write_length(out, word, found),
        Fault::BadElem(elem) => {
            let places = everywhere(alloc, snapshot, stack, elem)?;
            write_stranger(out, elem, places.as_slice())
        }
        Fault::BadPacket => {
            let places = other_packets(alloc, snapshot)?;
            write_first(out, places.as_slice())
        }
        Fault::DoubleHeader(elem) => {
            let places = owners(alloc, snapshot, elem)?;
            write_twice(out, elem, places.as_slice())
        }
        Fault::Doubled(elem) => {
            let places = everywhere(alloc, snapshot, stack, elem)?;
            write_twice(out, elem, places.as_slice())
        }
        Fault::Lost(elem) => write_element(out, elem),
        Fault::BadCount { elem, word, holds } => write_count(out, elem, word, holds),
        Fault::OutOfMemory => Ok(()),
    }
}
