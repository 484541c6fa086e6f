//! The packets that are in use, each with where it stands and the elements of its segments.

ghost use Rattle.std.specs.Prelude.{◌≡◌, ◌++◌, IfOk, OnOk, map};
ghost use Rattle.stays.specs.Stays.{desk_use, part_of, slot_use, used_in};

use commons::packet::Seg;
use commons::seq::Seq;
use pool_statement::statement::{DeskPacket, PlacedPacket, Statement};
use std::alloc::{AllocError, Global};

/// A segment as its elements.
#[derive(Clone, Copy, PartialEq, Eq, Hash, Debug)]
pub struct Part {
    /// The segment's own element.
    pub elem: u32,
    /// The direct element whose buffer an indirect segment uses.
    pub base: Option<u32>,
}

/// Where a packet stands.
#[derive(Clone, Copy, PartialEq, Eq, Debug)]
pub enum Place {
    /// With this worker, from 1, in this slot of its table.
    Slot(u32, u32),
    /// On this desk, from 0.
    Desk(u32),
}

/// A packet that is in use.
#[derive(Debug, Drop)]
pub struct Used {
    /// Where it stands.
    pub place: Place,
    /// Its segments in order.
    pub parts: Seq<Part>,
}

/// The packets that a statement lists: those of workers, and then those on desks.
pub(crate) fn listed(alloc: Global, statement: &Statement) -> Result<Vec<Used>, AllocError>
    ensures { IfOk result (λ listed. listed.items ≡ used_in statement.now) }
{
    let mut used = Vec::new(alloc);
    add_packets(alloc, &mut used, statement.packets.as_slice())?;
    add_desks(alloc, &mut used, statement.desks.as_slice())?;
    Ok(used)
}

/// Adds the packets of workers.
fn add_packets(
    alloc: Global,
    used: &mut Vec<Used>,
    packets: &[PlacedPacket],
) -> Result<(), AllocError>
    ensures { OnOk result (used.new.items ≡ used.old.items ++ map slot_use packets.now) }
{
    for packet in packets {
        used.push(in_slot(alloc, packet)?)?;
    }
    Ok(())
}

/// A packet of a worker.
fn in_slot(alloc: Global, packet: &PlacedPacket) -> Result<Used, AllocError>
    ensures { IfOk result (λ used. used ≡ slot_use packet.now) }
{
    let parts = parts(alloc, packet.segs.as_slice())?;
    Ok(Used {
        place: Place::Slot(packet.worker, packet.slot),
        parts,
    })
}

/// Adds the packets on desks.
fn add_desks(alloc: Global, used: &mut Vec<Used>, desks: &[DeskPacket]) -> Result<(), AllocError>
    ensures { OnOk result (used.new.items ≡ used.old.items ++ map desk_use desks.now) }
{
    for packet in desks {
        used.push(on_desk(alloc, packet)?)?;
    }
    Ok(())
}

/// A packet on a desk.
fn on_desk(alloc: Global, packet: &DeskPacket) -> Result<Used, AllocError>
    ensures { IfOk result (λ used. used ≡ desk_use packet.now) }
{
    let parts = parts(alloc, packet.segs.as_slice())?;
    Ok(Used {
        place: Place::Desk(packet.desk),
        parts,
    })
}

/// Segments as their elements.
fn parts(alloc: Global, segs: &[Seg]) -> Result<Seq<Part>, AllocError>
    ensures { IfOk result (λ parts. parts ≡ map part_of segs.now) }
{
    let mut parts = Vec::with_capacity(alloc, segs.len())?;
    for seg in segs {
        parts.push(Part {
            elem: seg.elem,
            base: seg.base,
        })?;
    }
    Ok(Seq::new(parts))
}
