//! Statements that are made from rows.

use super::Places;
use commons::packet::Seg;
use commons::seq::Seq;
use pool_statement::statement::{DeskPacket, Held, Holder, PlacedPacket, Statement};
use std::alloc::{AllocError, Global};

/// A list of these values.
fn seq<T: Copy>(alloc: Global, items: &[T]) -> Result<Seq<T>, AllocError> {
    Ok(Seq::new(items.to_vec(alloc)?))
}

fn caches(alloc: Global, rows: &[&[u32]]) -> Result<Seq<Seq<u32>>, AllocError> {
    let mut caches = Vec::new(alloc);
    for row in rows {
        caches.push(seq(alloc, row)?)?;
    }
    Ok(Seq::new(caches))
}

fn packets(alloc: Global, rows: &[(u32, u32, &[Seg])]) -> Result<Seq<PlacedPacket>, AllocError> {
    let mut packets = Vec::new(alloc);
    for (worker, slot, segs) in rows {
        packets.push(PlacedPacket {
            worker: *worker,
            slot: *slot,
            segs: seq(alloc, segs)?,
        })?;
    }
    Ok(Seq::new(packets))
}

fn desks(alloc: Global, rows: &[(u32, &[Seg])]) -> Result<Seq<DeskPacket>, AllocError> {
    let mut desks = Vec::new(alloc);
    for (desk, segs) in rows {
        desks.push(DeskPacket {
            desk: *desk,
            segs: seq(alloc, segs)?,
        })?;
    }
    Ok(Seq::new(desks))
}

fn held(alloc: Global, rows: &[(u32, u32, &[Holder])]) -> Result<Seq<Held>, AllocError> {
    let mut held = Vec::new(alloc);
    for (elem, count, holders) in rows {
        held.push(Held {
            elem: *elem,
            count: *count,
            holders: seq(alloc, holders)?,
        })?;
    }
    Ok(Seq::new(held))
}

/// The statement of these places.
pub(super) fn placed(alloc: Global, places: &Places) -> Result<Statement, AllocError> {
    Ok(Statement {
        population: places.population,
        available: places.available,
        in_use: places.in_use,
        common: seq(alloc, places.common)?,
        caches: caches(alloc, places.caches)?,
        packets: packets(alloc, places.packets)?,
        desks: desks(alloc, places.desks)?,
        held: held(alloc, places.held)?,
    })
}
