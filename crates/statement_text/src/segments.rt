//! Segments, and the packets that are made of them.
ghost use Rattle.std.specs.Prelude.{◌≡◌, ◌++◌, OnOk, codes, decimal};
ghost use Rattle.std.specs.List.{flat_map};
ghost use Rattle.commons.specs.Packets.{pkt_len};
ghost use Rattle.element_text.specs.Elements.{joined};
ghost use Rattle.statement_text.specs.StatementText.{desk_text, packet_text, segment_text, segments_text};

use commons::packet::Seg;
use element_text::{write_base, write_number};
use pool_statement::statement::{DeskPacket, PlacedPacket};
use std::alloc::AllocError;

/// A line for each packet of a worker.
pub(crate) fn write_packets(out: &mut Vec<u8>, packets: &[PlacedPacket]) -> Result<(), AllocError>
    ensures { OnOk result (out.new.items ≡ out.old.items ++ flat_map packet_text packets.now) }
{
    for packet in packets {
        write_packet(out, packet)?;
    }
    Ok(())
}

#[tactic(auto, unfolding(crate::specs::StatementText::packet_text))]
fn write_packet(out: &mut Vec<u8>, packet: &PlacedPacket) -> Result<(), AllocError>
    ensures { OnOk result (out.new.items ≡ out.old.items ++ packet_text packet.now) }
{
    write_number(out, b"packet ", packet.worker)?;
    write_number(out, b" ", packet.slot)?;
    write_segments(out, packet.segs.as_slice())
}

/// A line for each packet on a desk.
pub(crate) fn write_desks(out: &mut Vec<u8>, desks: &[DeskPacket]) -> Result<(), AllocError>
    ensures { OnOk result (out.new.items ≡ out.old.items ++ flat_map desk_text desks.now) }
{
    for desk in desks {
        write_desk(out, desk)?;
    }
    Ok(())
}

#[tactic(auto, unfolding(crate::specs::StatementText::desk_text))]
fn write_desk(out: &mut Vec<u8>, desk: &DeskPacket) -> Result<(), AllocError>
    ensures { OnOk result (out.new.items ≡ out.old.items ++ desk_text desk.now) }
{
    write_number(out, b"desk ", desk.desk)?;
    write_segments(out, desk.segs.as_slice())
}

/// How many segments these are, how long their data is, and which they are, to the end of the line.
#[tactic(auto, unfolding(crate::specs::StatementText::segments_text))]
fn write_segments(out: &mut Vec<u8>, segs: &[Seg]) -> Result<(), AllocError>
    ensures { OnOk result (out.new.items ≡ out.old.items ++ segments_text segs.now) }
{
    write_number(out, b" segs ", segs.len())?;
    write_number(out, b" len ", data_len(segs))?;
    out.extend_from_slice(b":")?;
    write_joined(out, segs)?;
    out.extend_from_slice(b"\n")
}

/// How long the data of these segments is. A sum of this many lengths fits 128 bits.
fn data_len(segs: &[Seg]) -> u128
    ensures { result ≡ pkt_len segs.now }
{
    segs.iter().map(|seg| u128::from(seg.data_len)).sum()
}

/// Each segment after a space.
fn write_joined(out: &mut Vec<u8>, segs: &[Seg]) -> Result<(), AllocError>
    ensures { OnOk result (out.new.items ≡ out.old.items ++ joined segment_text segs.now) }
{
    for seg in segs {
        write_segment(out, seg)?;
    }
    Ok(())
}

/// A segment after a space.
#[tactic(auto, unfolding(crate::specs::StatementText::segment_text))]
fn write_segment(out: &mut Vec<u8>, seg: &Seg) -> Result<(), AllocError>
    ensures { OnOk result (out.new.items ≡ out.old.items ++ codes " " ++ segment_text seg.now) }
{
    write_number(out, b" ", seg.elem)?;
    write_base(out, seg.base)?;
    write_lengths(out, seg)
}

/// Where a segment's data begins in its buffer, how long it is, and how long the buffer is.
fn write_lengths(out: &mut Vec<u8>, seg: &Seg) -> Result<(), AllocError>
    ensures { OnOk result (out.new.items ≡ out.old.items ++ codes "@" ++ decimal seg.now.data_off
        ++ codes "+" ++ decimal seg.now.data_len ++ codes "/" ++ decimal seg.now.buf_len) }
{
    write_number(out, b"@", seg.data_off)?;
    write_number(out, b"+", seg.data_len)?;
    write_number(out, b"/", seg.buf_len)
}
