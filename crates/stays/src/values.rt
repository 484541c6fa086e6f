//! What stays as JSON values.

ghost use Rattle.std.specs.Prelude.{◌≡◌, IfOk};
ghost use Rattle.serde_json.specs.View.{view};
ghost use Rattle.stays.specs.StayData.{part_data, parts_data, stay_data, stay_data_at, stays_data};

use crate::text::first;
use crate::used::{Part, Place, Used};
use serde_json::{Value, json};
use std::alloc::{AllocError, Global};

/// Packets that stay.
pub(crate) fn stays(alloc: Global, stay: &[Used]) -> Result<Value, AllocError>
    ensures { IfOk result (λ v. view v ≡ stays_data stay.now) }
{
    let mut values = Vec::with_capacity(alloc, stay.len())?;
    for used in stay {
        values.push(staying(alloc, used)?)?;
    }
    Ok(Value::from(values))
}

/// One of them.
fn staying(alloc: Global, used: &Used) -> Result<Value, AllocError>
    ensures { IfOk result (λ v. view v ≡ stay_data used.now) }
{
    match used.place {
        Place::Slot(worker, slot) => in_slot(alloc, worker, slot, used.parts.as_slice()),
        Place::Desk(desk) => on_desk(alloc, desk, used.parts.as_slice()),
    }
}

/// A packet of these segments in a slot of a worker.
fn in_slot(alloc: Global, worker: u32, slot: u32, segs: &[Part]) -> Result<Value, AllocError>
    ensures { IfOk result (λ v. view v ≡ stay_data_at (Place.Slot worker slot) segs.now) }
{
    json!(in alloc; {
        "elem": first(segs),
        "segs": parts(alloc, segs)?,
        "slot": slot,
        "worker": worker
    })
}

/// A packet of these segments on a desk.
fn on_desk(alloc: Global, desk: u32, segs: &[Part]) -> Result<Value, AllocError>
    ensures { IfOk result (λ v. view v ≡ stay_data_at (Place.Desk desk) segs.now) }
{
    json!(in alloc; {"desk": desk, "elem": first(segs), "segs": parts(alloc, segs)?})
}

/// The segments of a packet.
fn parts(alloc: Global, parts: &[Part]) -> Result<Value, AllocError>
    ensures { IfOk result (λ v. view v ≡ parts_data parts.now) }
{
    let mut values = Vec::with_capacity(alloc, parts.len())?;
    for part in parts {
        values.push(a_part(alloc, *part)?)?;
    }
    Ok(Value::from(values))
}

/// A segment.
fn a_part(alloc: Global, part: Part) -> Result<Value, AllocError>
    ensures { IfOk result (λ v. view v ≡ part_data part) }
{
    json!(in alloc; {"base": part.base, "elem": part.elem})
}
