//! Whether what stands in slots and on desks is packets.

ghost use Rattle.std.specs.Prelude.{◌≡◌, ◌↔◌, List, IfErr, IfOk, IsTrue, MatchBool};
ghost use Rattle.commons.specs.Packets.{HasItsData, IsPacket};
ghost use Rattle.commons.specs.declared.packet.Seg.{Seg};
ghost use Rattle.snapshot.specs.Faults.{IsCleanBelow, IsFault, IsFirstFault};
ghost use Rattle.snapshot.specs.Snapshots.{HasPacket};
ghost use Rattle.snapshot.specs.inside.Checked.{HasOther, HasPackets, HaveOther, HavePackets, IsOtherIn, IsPacketIn};

use crate::fault::Fault;
use crate::snapshot::{ShareData, Snapshot};
use commons::packet::{MAX_SEGS, Seg};
use commons::seq::Seq;

/// Finds whether something in a slot or on a desk isn't a packet.
pub(crate) fn check(snapshot: &Snapshot) -> Result<(), Fault>
    requires clean { IsCleanBelow 5 snapshot.now }
    ensures ok { IfOk result (λ _. (segs : List Seg) → HasPacket snapshot.now segs → IsPacket segs) }
    ensures first { IfErr result (λ f. IsFirstFault snapshot.now f) }
{
    if has_packets(snapshot) {
        Ok(())
    } else {
        Err(Fault::BadPacket)
    }
}

/// Whether what stands in slots and on desks is packets.
pub(crate) fn has_packets(snapshot: &Snapshot) -> bool
    ensures { MatchBool result ((segs : List Seg) → HasPacket snapshot.now segs → IsPacket segs)
        (IsFault snapshot.now Fault.BadPacket) }
{
    let desks = are_packets(snapshot.desks.as_slice());
    let shares = have_packets(snapshot.shares.as_slice());
    desks && shares
}

/// Whether what stands in the slots of shares is packets.
fn have_packets(shares: &[ShareData]) -> bool
    ensures { MatchBool result (HavePackets shares.now) (HaveOther shares.now) }
{
    shares
        .iter()
        .all(|share| are_packets(share.slots.as_slice()))
}

/// Whether what stands in a table, of slots or of desks, is packets.
fn are_packets(table: &[Option<Seq<Seg>>]) -> bool
    ensures { MatchBool result (HasPackets table.now) (HasOther table.now) }
{
    table.iter().all(|place| is_packet_or_none(place))
}

/// Whether what stands at a place, where something does, is a packet.
fn is_packet_or_none(place: &Option<Seq<Seg>>) -> bool
    ensures { MatchBool result (IsPacketIn place.now) (IsOtherIn place.now) }
{
    match place {
        Some(segs) => is_packet(segs.as_slice()),
        None => true,
    }
}

/// Whether segments make a packet: there are 1 to 32, the data of each within its buffer.
fn is_packet(segs: &[Seg]) -> bool
    ensures { IsTrue result ↔ IsPacket segs.now }
{
    !segs.is_empty() && segs.len() <= MAX_SEGS && segs.iter().all(|seg| has_its_data(*seg))
}

/// Whether the data of a segment is within its buffer.
fn has_its_data(seg: Seg) -> bool
    ensures { IsTrue result ↔ HasItsData seg }
{
    u32::from(seg.data_off) + u32::from(seg.data_len) <= u32::from(seg.buf_len)
}
