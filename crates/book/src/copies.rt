//! A closed pool and its shares as plain data, and each of two pools.

ghost use Rattle.std.specs.Prelude.{[], ◌≡◌, IfOk, None, map, slice_index_or};
ghost use Rattle.book.specs.Books.{shares_in};
ghost use Rattle.book.specs.Left.{AreOfPackets};
ghost use Rattle.book.specs.Settling.{snapshot_with};
ghost use Rattle.book.specs.TwinSettling.{first_with, second_with};
ghost use Rattle.snapshot.specs.Closing.{share_of, snapshot_of};
ghost use Rattle.snapshot.specs.inside.Checked.{HasPackets, HavePackets, IsPacketIn};

use crate::book::Book;
use crate::guests::guests;
use crate::share::Share;
use crate::twin_book::TwinBook;
use commons::closed::Closed;
use commons::limits::Limits;
use commons::packet::{Packet, Seg};
use commons::seq::Seq;
use mbuf::packets::{Packets, SLOTS};
use snapshot::snapshot::{ShareData, Snapshot};
use std::alloc::{AllocError, Global};

/// The snapshot of a closed pool and the shares in its book. What stands in a slot or lies on a
/// desk is a packet.
pub(crate) fn snapshot(alloc: Global, closed: &Closed, book: &Book) -> Result<Snapshot, AllocError>
    ensures same { IfOk result (λ s. s ≡ snapshot_with book.now closed.now) }
    ensures on_desks { IfOk result (λ s. HasPackets s.desks) }
    ensures in_slots { IfOk result (λ s. HavePackets s.shares) }
    ensures typed { IfOk result (λ _. AreOfPackets (snapshot_with book.now closed.now)) }
{
    book.fits_its_limits();
    let mut snapshot = without_shares(alloc, book.limits(), closed)?;
    let shares = shares(alloc, book.places())?;
    snapshot.shares = shares;
    Ok(snapshot)
}

/// The snapshot of a closed pool of these limits without its shares.
fn without_shares(alloc: Global, limits: &Limits, closed: &Closed) -> Result<Snapshot, AllocError>
    ensures same { IfOk result (λ s. s ≡ snapshot_of limits.now closed.now []) }
    ensures on_desks { IfOk result (λ s. HasPackets s.desks) }
{
    Ok(Snapshot {
        limits: *limits,
        top: closed.top,
        length: closed.length,
        links: copied(alloc, closed.links.as_slice())?,
        counts: copied(alloc, closed.counts.as_slice())?,
        desks: desks(alloc, closed.desks.as_slice())?,
        shares: Seq::new(Vec::new(alloc)),
        guests: Seq::new(Vec::new(alloc)),
        foreign: false,
    })
}

/// The snapshot of the first of two closed pools: its guests are the bases of the second one's
/// packets.
pub(crate) fn first_snapshot(
    alloc: Global,
    closed: &Closed,
    book: &TwinBook,
) -> Result<Snapshot, AllocError>
    ensures same { IfOk result (λ s. s ≡ first_with book.now closed.now) }
    ensures on_desks { IfOk result (λ s. HasPackets s.desks) }
    ensures in_slots { IfOk result (λ s. HavePackets s.shares) }
    ensures typed { IfOk result (λ _. AreOfPackets (first_with book.now closed.now)) }
{
    book.second().fits_its_limits();
    book.is_filled_alike();
    let mut snapshot = snapshot(alloc, closed, book.first())?;
    let guests = guests(alloc, book.second().places())?;
    snapshot.guests = guests;
    Ok(snapshot)
}

/// The snapshot of the second, to which the bases of its packets are foreign.
pub(crate) fn second_snapshot(
    alloc: Global,
    closed: &Closed,
    book: &TwinBook,
) -> Result<Snapshot, AllocError>
    ensures same { IfOk result (λ s. s ≡ second_with book.now closed.now) }
    ensures on_desks { IfOk result (λ s. HasPackets s.desks) }
    ensures in_slots { IfOk result (λ s. HavePackets s.shares) }
    ensures typed { IfOk result (λ _. AreOfPackets (second_with book.now closed.now)) }
{
    let mut snapshot = snapshot(alloc, closed, book.second())?;
    snapshot.foreign = true;
    Ok(snapshot)
}

/// A copy of these values.
fn copied<T: Copy + Drop>(alloc: Global, values: &[T]) -> Result<Seq<T>, AllocError>
    ensures { IfOk result (λ s. s ≡ values.now) }
{
    Ok(Seq::new(Vec::from_slice(alloc, values)?))
}

/// The segments of the packet on each desk.
fn desks(alloc: Global, places: &[Option<Packet>]) -> Result<Seq<Option<Seq<Seg>>>, AllocError>
    ensures same { IfOk result (λ s. s ≡ places.now) }
    ensures packets { IfOk result (λ s. HasPackets s) }
{
    let mut desks = Vec::with_capacity(alloc, places.len())?;
    for place in places {
        desks.push(desk(alloc, place)?)?;
    }
    Ok(Seq::new(desks))
}

/// The segments of the packet on a desk, if one lies there.
fn desk(alloc: Global, place: &Option<Packet>) -> Result<Option<Seq<Seg>>, AllocError>
    ensures same { IfOk result (λ segs. segs ≡ place.now) }
    ensures packet { IfOk result (λ segs. IsPacketIn segs) }
{
    match place {
        Some(packet) => Ok(Some(copied(alloc, packet.segs())?)),
        None => Ok(None),
    }
}

/// The shares in these places.
fn shares(alloc: Global, places: &[Option<Share>]) -> Result<Seq<ShareData>, AllocError>
    ensures same { IfOk result (λ s. s ≡ map share_of (shares_in places.now)) }
    ensures packets { IfOk result (λ s. HavePackets s) }
{
    let mut shares = Vec::with_capacity(alloc, places.len())?;
    for place in places {
        if let Some(share) = place {
            shares.push(share_data(alloc, share.packets())?)?;
        }
    }
    Ok(Seq::new(shares))
}

/// A worker's number, its cache and its packets.
fn share_data(alloc: Global, packets: &Packets) -> Result<ShareData, AllocError>
    ensures same { IfOk result (λ d. d ≡ share_of packets.now) }
    ensures packets { IfOk result (λ d. HasPackets d.slots) }
{
    Ok(ShareData {
        worker: packets.worker(),
        cache: copied(alloc, packets.cache())?,
        slots: slots(alloc, packets)?,
    })
}

/// The segments of the packet in each slot.
fn slots(alloc: Global, packets: &Packets) -> Result<Seq<Option<Seq<Seg>>>, AllocError>
    ensures same { IfOk result (λ s. s ≡ packets.now.table) }
    ensures packets { IfOk result (λ s. HasPackets s) }
{
    packets.has_slots();
    let mut slots = Vec::with_capacity(alloc, SLOTS)?;
    for number in 0..SLOTS as u32 {
        slots.push(slot(alloc, packets, number)?)?;
    }
    Ok(Seq::new(slots))
}

/// The segments of the packet in a slot, if one stands there.
fn slot(alloc: Global, packets: &Packets, number: u32) -> Result<Option<Seq<Seg>>, AllocError>
    ensures same { IfOk result (λ segs. segs ≡ slice_index_or packets.now.table number None) }
    ensures packet { IfOk result (λ segs. IsPacketIn segs) }
{
    match packets.place(number) {
        Some(packet) => Ok(Some(copied(alloc, packet.segs())?)),
        None => Ok(None),
    }
}
