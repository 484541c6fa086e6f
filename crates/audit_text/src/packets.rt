//! What stands in slots and on desks and is no packet.

ghost use Rattle.std.specs.Prelude.{◌≡◌, ◌++◌, IfOk, flat_map};
ghost use Rattle.audit_text.specs.Places.{all_fit, fits, is_packet, other_at, others_from, others_of};
ghost use Rattle.audit_text.specs.declared.place.Table.TheVariants.{Slots};

use crate::lists::note;
use crate::place::{Place, Table};
use commons::packet::{MAX_SEGS, Seg};
use commons::seq::Seq;
use snapshot::snapshot::{ShareData, Snapshot};
use std::alloc::{AllocError, Global};

/// The places of what is no packet.
pub(crate) fn other_packets(alloc: Global, snapshot: &Snapshot) -> Result<Vec<Place>, AllocError>
    ensures { IfOk result (λ v. v.items ≡ others_of snapshot.now) }
{
    let mut out = Vec::new(alloc);
    in_slots(&mut out, snapshot.shares.as_slice())?;
    in_table(&mut out, Table::Desks, snapshot.desks.as_slice())?;
    Ok(out)
}

/// In the slots of shares.
fn in_slots(out: &mut Vec<Place>, shares: &[ShareData]) -> Result<(), AllocError>
    ensures { IfOk result (λ _. out.new.items ≡ out.old.items
        ++ flat_map (λ share. others_from (Slots share.worker) 0 share.slots) shares.now) }
{
    for share in shares {
        in_table(out, Table::Slots(share.worker), share.slots.as_slice())?;
    }
    Ok(())
}

/// In a table.
fn in_table(
    out: &mut Vec<Place>,
    table: Table,
    packets: &[Option<Seq<Seg>>],
) -> Result<(), AllocError>
    ensures { IfOk result (λ _. out.new.items ≡ out.old.items ++ others_from table 0 packets.now) }
{
    for (index, packet) in packets.iter().enumerate() {
        in_place(out, table, index as u64, packet)?;
    }
    Ok(())
}

/// At a place of a table.
fn in_place(
    out: &mut Vec<Place>,
    table: Table,
    index: u64,
    packet: &Option<Seq<Seg>>,
) -> Result<(), AllocError>
    ensures { IfOk result (λ _. out.new.items ≡ out.old.items ++ other_at table index packet.now) }
{
    match packet {
        Some(segs) => note(
            out,
            !is_packet(segs.as_slice()),
            Place::Packet(table, index),
        ),
        None => Ok(()),
    }
}

/// Whether segments make a packet.
fn is_packet(segs: &[Seg]) -> bool
    ensures { result ≡ is_packet segs.now }
{
    if 1 <= segs.len() {
        if segs.len() <= MAX_SEGS {
            all_fit(segs)
        } else {
            false
        }
    } else {
        false
    }
}

/// Whether the data of each segment is within its buffer.
fn all_fit(segs: &[Seg]) -> bool
    ensures { result ≡ all_fit segs.now }
{
    for seg in segs {
        if !fits(*seg) {
            return false;
        }
    }
    true
}

/// Whether the data of a segment is within its buffer.
fn fits(seg: Seg) -> bool
    ensures { result ≡ fits seg }
{
    u32::from(seg.data_off) + u32::from(seg.data_len) <= u32::from(seg.buf_len)
}
