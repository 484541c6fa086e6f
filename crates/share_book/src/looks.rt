//! A look at each packet in slots and on desks. A packet's type keeps what a packet is, and a
//! contract sees it only of a packet that is looked at.

ghost use Rattle.std.specs.Prelude.{All, None, slice_index_or};
ghost use Rattle.snapshot.specs.inside.Checked.{HasPackets, IsPacketIn};
ghost use Rattle.share_book.specs.inside.Looks.{HasPacketsInSlots};

use commons::packet::Packet;
use mbuf::packets::{Packets, SLOTS};
use mbuf::twin::Twin;

/// Looks at each packet of these workers, in the slots of either pool, and changes nothing.
pub(crate) fn look_at_members(members: &[Twin])
    ensures first { All (λ m. HasPacketsInSlots m.first) members.now }
    ensures second { All (λ m. HasPacketsInSlots m.second) members.now }
{
    for twin in members {
        look_at_slots(twin.first());
        look_at_slots(twin.second());
    }
}

/// Looks at each packet on these desks, and changes nothing.
pub(crate) fn look_at_desks(desks: &[Option<Packet>])
    ensures { HasPackets desks.now }
{
    for desk in desks {
        look_at_desk(desk);
    }
}

/// Looks at the packet on a desk, if one lies there.
fn look_at_desk(desk: &Option<Packet>)
    ensures { IsPacketIn desk.now }
{
    if let Some(packet) = desk {
        let _segs = packet.segs();
    }
}

/// Looks at the packet in each slot of a worker.
fn look_at_slots(packets: &Packets)
    ensures { HasPacketsInSlots packets.now }
{
    packets.has_slots();
    for number in 0..SLOTS as u32 {
        look_at_slot(packets, number);
    }
}

/// Looks at the packet in a slot, if one stands there.
fn look_at_slot(packets: &Packets, number: u32)
    ensures { IsPacketIn (slice_index_or packets.now.table number None) }
{
    if let Some(packet) = packets.place(number) {
        let _segs = packet.segs();
    }
}
