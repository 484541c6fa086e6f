//! Faults of a snapshot as JSON.

ghost use Rattle.std.specs.Prelude.{◌≡◌, ◌≤◌, ◌++◌, codes, false, IfErr, IfOk, Some};
ghost use Rattle.serde_json.specs.Data.{depth};
ghost use Rattle.serde_json.specs.Read.{max_depth, read};
ghost use Rattle.serde_json.specs.View.{view};
ghost use Rattle.serde_json.specs.Written.{has_float};
ghost use Rattle.audit_text.specs.FaultData.{elem_of, fault_data, faults_data, json_of, two_data};

use crate::fault_string;
use crate::numbers::{name_of, number_of};
use commons::refusal::Refusal;
use serde_json::{Value, json};
use snapshot::fault::Fault;
use snapshot::snapshot::Snapshot;
use std::alloc::{AllocError, Global};

/// The compact text of these faults as a list of objects, in order, with a line feed at its end. An
/// object has the element that the fault names (`elem`, `null` where it names none), its line, its
/// name and its number. The stack of the snapshot has these elements, from the top down.
///
/// Refused `OutOfMemory` where memory was refused.
pub fn faults_json(
    alloc: Global,
    snapshot: &Snapshot,
    stack: &[u32],
    faults: &[Fault],
) -> Result<Vec<u8>, Refusal>
    ensures text { IfOk result (λ out. out.items
        ≡ json_of (faults_data stack.now snapshot.now faults.now) ++ codes "\n") }
    // A reader of JSON finds the faults in it.
    ensures reads_back { IfOk result (λ _.
        read (json_of (faults_data stack.now snapshot.now faults.now))
        ≡ Some (faults_data stack.now snapshot.now faults.now)) }
    ensures memory { IfErr result (λ e. e ≡ Refusal.OutOfMemory) }
{
    match one_line(alloc, snapshot, stack, faults) {
        Ok(line) => Ok(line),
        Err(_) => Err(Refusal::OutOfMemory),
    }
}

/// The compact text of the faults of two pools, with a line feed at its end: an object with the
/// list of the first one's as `first`, and that of the second's as `second`.
///
/// Refused `OutOfMemory` where memory was refused.
pub fn two_faults_json(
    alloc: Global,
    first: &Snapshot,
    first_stack: &[u32],
    first_faults: &[Fault],
    second: &Snapshot,
    second_stack: &[u32],
    second_faults: &[Fault],
) -> Result<Vec<u8>, Refusal>
    ensures text { IfOk result (λ out. out.items ≡ json_of (two_data
        (faults_data first_stack.now first.now first_faults.now)
        (faults_data second_stack.now second.now second_faults.now)) ++ codes "\n") }
    // A reader of JSON finds both in it.
    ensures reads_back { IfOk result (λ _. read (json_of (two_data
        (faults_data first_stack.now first.now first_faults.now)
        (faults_data second_stack.now second.now second_faults.now)))
        ≡ Some (two_data (faults_data first_stack.now first.now first_faults.now)
        (faults_data second_stack.now second.now second_faults.now))) }
    ensures memory { IfErr result (λ e. e ≡ Refusal.OutOfMemory) }
{
    match two_lines(
        alloc,
        first,
        first_stack,
        first_faults,
        second,
        second_stack,
        second_faults,
    ) {
        Ok(line) => Ok(line),
        Err(_) => Err(Refusal::OutOfMemory),
    }
}

/// The line of two pools' faults.
fn two_lines(
    alloc: Global,
    first: &Snapshot,
    first_stack: &[u32],
    first_faults: &[Fault],
    second: &Snapshot,
    second_stack: &[u32],
    second_faults: &[Fault],
) -> Result<Vec<u8>, AllocError>
    ensures text { IfOk result (λ out. out.items ≡ json_of (two_data
        (faults_data first_stack.now first.now first_faults.now)
        (faults_data second_stack.now second.now second_faults.now)) ++ codes "\n") }
    ensures reads_back { IfOk result (λ _. read (json_of (two_data
        (faults_data first_stack.now first.now first_faults.now)
        (faults_data second_stack.now second.now second_faults.now)))
        ≡ Some (two_data (faults_data first_stack.now first.now first_faults.now)
        (faults_data second_stack.now second.now second_faults.now))) }
{
    let value = two_values(
        alloc,
        first,
        first_stack,
        first_faults,
        second,
        second_stack,
        second_faults,
    )?;
    compact(alloc, &value)
}

/// The object with the faults of both.
fn two_values(
    alloc: Global,
    first: &Snapshot,
    first_stack: &[u32],
    first_faults: &[Fault],
    second: &Snapshot,
    second_stack: &[u32],
    second_faults: &[Fault],
) -> Result<Value, AllocError>
    ensures { IfOk result (λ v. view v ≡ two_data
        (faults_data first_stack.now first.now first_faults.now)
        (faults_data second_stack.now second.now second_faults.now)) }
{
    json!(in alloc; {
        "first": values(alloc, first, first_stack, first_faults)?,
        "second": values(alloc, second, second_stack, second_faults)?
    })
}

/// The line of one pool's faults.
fn one_line(
    alloc: Global,
    snapshot: &Snapshot,
    stack: &[u32],
    faults: &[Fault],
) -> Result<Vec<u8>, AllocError>
    ensures text { IfOk result (λ out. out.items
        ≡ json_of (faults_data stack.now snapshot.now faults.now) ++ codes "\n") }
    ensures reads_back { IfOk result (λ _.
        read (json_of (faults_data stack.now snapshot.now faults.now))
        ≡ Some (faults_data stack.now snapshot.now faults.now)) }
{
    let value = values(alloc, snapshot, stack, faults)?;
    compact(alloc, &value)
}

/// The compact text of a value, with a line feed at its end.
#[tactic(auto, unfolding(crate::specs::FaultData::json_of))]
fn compact(alloc: Global, value: &Value) -> Result<Vec<u8>, AllocError>
    requires whole { has_float (view value.now) ≡ false }
    requires low { depth (view value.now) ≤ max_depth }
    ensures text { IfOk result (λ out. out.items ≡ json_of (view value.now) ++ codes "\n") }
    ensures reads_back { IfOk result (λ _.
        read (json_of (view value.now)) ≡ Some (view value.now)) }
{
    let mut out = value.to_vec(alloc)?;
    out.push(b'\n')?;
    Ok(out)
}

/// The list of the faults' values.
fn values(
    alloc: Global,
    snapshot: &Snapshot,
    stack: &[u32],
    faults: &[Fault],
) -> Result<Value, AllocError>
    ensures { IfOk result (λ v. view v ≡ faults_data stack.now snapshot.now faults.now) }
{
    let mut values = Vec::with_capacity(alloc, faults.len())?;
    for fault in faults {
        values.push(value_of(alloc, snapshot, stack, *fault)?)?;
    }
    Ok(Value::from(values))
}

/// The value of one.
fn value_of(
    alloc: Global,
    snapshot: &Snapshot,
    stack: &[u32],
    fault: Fault,
) -> Result<Value, AllocError>
    ensures { IfOk result (λ v. view v ≡ fault_data stack.now snapshot.now fault) }
{
    json!(in alloc; {
        "elem": elem_of(fault),
        "line": fault_string(alloc, snapshot, stack, fault)?,
        "name": name_of(fault),
        "number": number_of(fault)
    })
}

/// The element that it names, where it names one.
fn elem_of(fault: Fault) -> Option<u32>
    ensures { result ≡ elem_of fault }
{
    match fault {
        Fault::BadElem(elem) => Some(elem),
        Fault::DoubleHeader(elem) => Some(elem),
        Fault::Doubled(elem) => Some(elem),
        Fault::Lost(elem) => Some(elem),
        Fault::BadCount { elem, .. } => Some(elem),
        _ => None,
    }
}
