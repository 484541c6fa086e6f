//! A packet's box, with an arrow to each of its elements, and from that to the one whose buffer it
//! uses.
ghost use Rattle.std.specs.Prelude.{◌≡◌, ◌++◌, OnOk};
ghost use Rattle.std.specs.List.{flat_map};
ghost use Rattle.pool_picture.specs.Picture.{base_arrow, desk_part, label_of, name_of, own_arrow, packet_part, placed_part, seg_arrows};

use commons::packet::Seg;
use element_text::write_number;
use pool_statement::statement::{DeskPacket, PlacedPacket};
use std::alloc::AllocError;

/// Who has a packet.
#[derive(Clone, Copy)]
pub enum Owner {
    /// A worker, in this slot.
    Slot(u32, u32),
    /// A desk.
    Desk(u32),
}

/// The packets of workers.
pub(crate) fn write_packets(out: &mut Vec<u8>, packets: &[PlacedPacket]) -> Result<(), AllocError>
    ensures { OnOk result (out.new.items ≡ out.old.items ++ flat_map placed_part packets.now) }
{
    for packet in packets {
        let owner = Owner::Slot(packet.worker, packet.slot);
        write_packet(out, owner, packet.segs.as_slice())?;
    }
    Ok(())
}

/// The packets on desks.
pub(crate) fn write_desks(out: &mut Vec<u8>, desks: &[DeskPacket]) -> Result<(), AllocError>
    ensures { OnOk result (out.new.items ≡ out.old.items ++ flat_map desk_part desks.now) }
{
    for desk in desks {
        write_packet(out, Owner::Desk(desk.desk), desk.segs.as_slice())?;
    }
    Ok(())
}

/// A packet's box, and its arrows.
#[tactic(auto, unfolding(crate::specs::Picture::packet_part))]
fn write_packet(out: &mut Vec<u8>, owner: Owner, segs: &[Seg]) -> Result<(), AllocError>
    ensures { OnOk result (out.new.items ≡ out.old.items ++ packet_part owner segs.now) }
{
    out.extend_from_slice(b"  ")?;
    write_name(out, owner)?;
    out.extend_from_slice(b" [label=\"")?;
    write_label(out, owner)?;
    out.extend_from_slice(b"\"];\n")?;
    write_arrows(out, owner, segs)
}

/// What a packet's box is called.
#[tactic(auto, unfolding(crate::specs::Picture::name_of))]
fn write_name(out: &mut Vec<u8>, owner: Owner) -> Result<(), AllocError>
    ensures { OnOk result (out.new.items ≡ out.old.items ++ name_of owner) }
{
    match owner {
        Owner::Slot(worker, slot) => {
            write_number(out, b"packet_", worker)?;
            write_number(out, b"_", slot)
        }
        Owner::Desk(desk) => write_number(out, b"desk_", desk),
    }
}

/// What it says.
#[tactic(auto, unfolding(crate::specs::Picture::label_of))]
fn write_label(out: &mut Vec<u8>, owner: Owner) -> Result<(), AllocError>
    ensures { OnOk result (out.new.items ≡ out.old.items ++ label_of owner) }
{
    match owner {
        Owner::Slot(worker, slot) => {
            write_number(out, b"packet ", worker)?;
            write_number(out, b" ", slot)
        }
        Owner::Desk(desk) => write_number(out, b"desk ", desk),
    }
}

/// The arrows of all segments.
fn write_arrows(out: &mut Vec<u8>, owner: Owner, segs: &[Seg]) -> Result<(), AllocError>
    ensures { OnOk result (out.new.items ≡ out.old.items ++ flat_map (seg_arrows owner) segs.now) }
{
    for seg in segs {
        write_seg(out, owner, seg)?;
    }
    Ok(())
}

/// Those of one segment.
#[tactic(auto, unfolding(crate::specs::Picture::seg_arrows))]
fn write_seg(out: &mut Vec<u8>, owner: Owner, seg: &Seg) -> Result<(), AllocError>
    ensures { OnOk result (out.new.items ≡ out.old.items ++ seg_arrows owner seg.now) }
{
    write_own(out, owner, seg.elem)?;
    write_base(out, seg.elem, seg.base)
}

/// From a packet to an own element.
#[tactic(auto, unfolding(crate::specs::Picture::own_arrow))]
fn write_own(out: &mut Vec<u8>, owner: Owner, element: u32) -> Result<(), AllocError>
    ensures { OnOk result (out.new.items ≡ out.old.items ++ own_arrow owner element) }
{
    out.extend_from_slice(b"  ")?;
    write_name(out, owner)?;
    write_number(out, b" -> e", element)?;
    out.extend_from_slice(b";\n")
}

/// From an element to that whose buffer it uses.
fn write_base(out: &mut Vec<u8>, element: u32, base: Option<u32>) -> Result<(), AllocError>
    ensures { OnOk result (out.new.items ≡ out.old.items ++ base_arrow element base) }
{
    match base {
        None => Ok(()),
        Some(base) => {
            write_number(out, b"  e", element)?;
            write_number(out, b" -> e", base)?;
            out.extend_from_slice(b" [style=dashed];\n")
        }
    }
}
