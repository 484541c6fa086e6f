//! Packets that pass from one worker of a pool to another, by bytes that C keeps.

ghost use Rattle.std.specs.Prelude.{◌≡◌, ◌≢◌, ◌∷◌, ◌≤◌, [], None, length, map};
ghost use Rattle.std.specs.Option.{MatchOption};
ghost use Rattle.commons.specs.Packets.{HasItsData, IsPacket};
ghost use Rattle.ground.specs.Own.{KnowsDesks, Owned};
ghost use Rattle.ground.specs.declared.known.Known.{Known};
ghost use Rattle.mbufpool_c.specs.Parcels.{IsUnderWay, IsWhole, IsWholeFor, ReceivesAs, ReceivesIn, SendsAs, SendsIn, Writes, read as read_from, written as written_as};
ghost use Rattle.word_pool.specs.Parcels.{Parcelled};

use crate::parcel_seat::ParcelSeat;
use crate::worker_handle::WorkerHandle;
use crate::workers::OwnWorker;
use commons::packet::{MAX_SEGS, Packet, Seg};
use commons::refusal::Refusal;
use ground::seat::GroundSeat;
use std::alloc::Global;

/// The status of a send by a worker that has a part of 1 left.
pub const NO_PART: u32 = 31;

/// A packet under way in the hands of C, or none. Its segments are bytes elsewhere; what it holds it
/// has by its seat, which has no bytes. So in C it is the number of its segments, 0 where there is
/// none. One that C forgets is lost, with what the packet holds.
#[repr(C)]
pub struct Parcel {
    pub segments: u32,
    pub seat: ParcelSeat,
}

/// A segment of a packet under way: its own element, the one whose buffer it uses, where it is
/// indirect, which is 1 then and else 0, and in bytes where the data begins in the buffer, how long
/// it is, and how long the buffer is.
#[repr(C)]
#[derive(Clone, Copy)]
pub struct ParcelSegment {
    pub element: u32,
    pub base: u32,
    pub off: u16,
    pub len: u16,
    pub buf: u16,
    pub indirect: u16,
}

impl Parcel {
    /// Lets a packet of so many segments be under way, by this seat.
    #[inline(always)]
    fn fill(&mut self, segments: u32, seat: GroundSeat)
        requires { seat.slots ≡ [] }
        ensures segments { self.new.segments ≡ segments }
        ensures table { self.new.seat.table ≡ seat.table }
        ensures seat { self.new.seat.views ≡ seat.known ∷ [] }
    {
        self.segments = segments;
        self.seat = ParcelSeat::of(seat);
    }

    /// Takes the seat of the packet out, which is under way no more.
    #[inline(always)]
    fn take(&mut self) -> GroundSeat
        requires { (known : Known) × (self.old.seat.views ≡ known ∷ [])
            × Owned known.limits known.view × (known.view.work ≡ None) × KnowsDesks known }
        ensures segments { self.new.segments ≡ 0 }
        ensures left { self.new.seat.views ≡ [] }
        ensures table { result.table ≡ self.old.seat.table }
        ensures seat { self.old.seat.views ≡ result.known ∷ [] }
        ensures slots { result.slots ≡ [] }
    {
        self.segments = 0;
        self.seat.take()
    }
}

/// A segment as it is written.
#[inline(always)]
fn written(seg: Seg) -> ParcelSegment
    ensures { result ≡ written_as seg }
{
    let (base, indirect) = match seg.base {
        None => (0, 0),
        Some(base) => (base, 1),
    };
    ParcelSegment {
        element: seg.elem,
        base,
        off: seg.data_off,
        len: seg.data_len,
        buf: seg.buf_len,
        indirect,
    }
}

/// Writes these segments, in order.
#[inline(always)]
fn write(segs: &[Seg], out: &mut [ParcelSegment])
    requires { length segs.now ≤ length out.old }
    ensures { Writes segs.now out.old out.new }
{
    for k in 0..segs.len() {
        out[k] = written(segs[k]);
    }
}

/// The segment of these bytes, where its data is within its buffer.
#[inline(always)]
fn read(bytes: ParcelSegment) -> Option<Seg>
    ensures { MatchOption result (HasItsData (read_from bytes) → ⊥)
        (λ seg. (seg ≡ read_from bytes) × HasItsData seg) }
{
    if bytes.off as u32 + bytes.len as u32 > bytes.buf as u32 {
        return None;
    }
    let base = if bytes.indirect == 0 {
        None
    } else {
        Some(bytes.base)
    };
    Some(Seg {
        elem: bytes.element,
        base,
        data_off: bytes.off,
        data_len: bytes.len,
        buf_len: bytes.buf,
    })
}

/// The packet of these segments, where they are one: 1 to 32, each with its data within its buffer.
#[inline(always)]
#[tactic(auto, using(crate::proofs::ParcelLemmas::read_data))]
fn packet_of(bytes: &[ParcelSegment]) -> Option<Packet>
    ensures { MatchOption result (IsPacket (map read_from bytes.now) → ⊥)
        (λ packet. packet ≡ map read_from bytes.now) }
{
    if bytes.len() == 0 || bytes.len() > MAX_SEGS {
        return None;
    }
    let Some(first) = read(bytes[0]) else {
        return None;
    };
    let mut packet = Packet::single(first);
    for k in 1..bytes.len() {
        let Some(next) = read(bytes[k]) else {
            return None;
        };
        packet.push(next);
    }
    Some(packet)
}

/// Lets a worker send the packet of this number, and writes it as a parcel.
#[inline(always)]
fn send(own: &mut OwnWorker, number: u32, out: &mut Parcel, places: &mut [ParcelSegment]) -> u32
    ensures { SendsAs number own.old out.old places.old result own.new out.new places.new }
{
    if out.segments != 0 {
        return Refusal::InUse.number();
    }
    let Some(packet) = own.packet(number) else {
        return Refusal::NoSuchPacket.number();
    };
    let segs = packet.segs();
    if places.len() < segs.len() {
        return Refusal::NoRoom.number();
    }
    if own.part() < 2 {
        return NO_PART;
    }
    write(segs, places);
    let count = segs.len() as u32;
    match own.send(number) {
        Ok(seat) => {
            seat.owned();
            seat.knows_desks();
            out.fill(count, seat);
            0
        }
        Err(_) => NO_PART,
    }
}

/// Lets a worker receive a packet under way, and gives C its slot by its label.
#[inline(always)]
fn bring(own: &mut OwnWorker, parcel: &mut Parcel, segs: &[Seg], out: &mut u32) -> u32
    requires { (p : Parcelled) × IsUnderWay own.old.worker p parcel.old × (segs.now ≡ p.packet) }
    ensures { ReceivesAs own.old parcel.old result own.new parcel.new out.old out.new }
{
    let segments = parcel.segments;
    match own.receive(segs, parcel.take()) {
        Ok(slot) => {
            *out = own.label(slot);
            0
        }
        Err((cause, seat)) => {
            parcel.fill(segments, seat);
            cause.number()
        }
    }
}

/// Lets a worker receive the packet of these bytes.
#[inline(always)]
fn receive(own: &mut OwnWorker, parcel: &mut Parcel, bytes: &[ParcelSegment], out: &mut u32) -> u32
    requires { IsWhole own.old.worker parcel.old bytes.now }
    ensures { ReceivesAs own.old parcel.old result own.new parcel.new out.old out.new }
{
    if parcel.segments == 0 {
        Refusal::NoSuchPacket.number()
    } else if bytes.len() == 1 {
        receive_one(own, parcel, bytes[0], out)
    } else {
        receive_several(own, parcel, bytes, out)
    }
}

/// Lets a worker receive the packet of one segment.
#[inline(always)]
fn receive_one(own: &mut OwnWorker, parcel: &mut Parcel, only: ParcelSegment, out: &mut u32) -> u32
    requires some { parcel.old.segments ≢ 0 }
    requires whole { IsWhole own.old.worker parcel.old (only ∷ []) }
    ensures { ReceivesAs own.old parcel.old result own.new parcel.new out.old out.new }
{
    match read(only) {
        Some(seg) => bring(own, parcel, &[seg], out),
        // Bytes that are as they were written are a packet's.
        None => unreachable!(),
    }
}

/// Lets a worker receive the packet of several segments. It stands apart, since it fills room for as
/// many as there may be.
#[inline(never)]
fn receive_several(
    own: &mut OwnWorker,
    parcel: &mut Parcel,
    bytes: &[ParcelSegment],
    out: &mut u32,
) -> u32
    requires some { parcel.old.segments ≢ 0 }
    requires whole { IsWhole own.old.worker parcel.old bytes.now }
    ensures { ReceivesAs own.old parcel.old result own.new parcel.new out.old out.new }
{
    match packet_of(bytes) {
        Some(packet) => bring(own, parcel, packet.segs(), out),
        // Bytes that are as they were written are a packet's.
        None => unreachable!(),
    }
}

/// Takes a packet out of its slot and writes it as a parcel: the number of its segments into `out`,
/// and the segments into `places`, in order. All that the packet holds goes with it, and no count
/// changes. C may bring it to another worker of the pool by whatever way it has, and that worker
/// receives it. No word is written.
///
/// Refused `StrangerShare` where there is no worker, `InUse` where a parcel is in `out` still,
/// `NoSuchPacket` where no packet has the number, `NoRoom` where it has more segments than there are
/// places, and `NO_PART` where the worker has a part of 1 left. Nothing changes then.
#[unsafe(no_mangle)]
pub extern "C" fn mbufpool_worker_send_segments(
    alloc: Global,
    worker: &mut WorkerHandle,
    slot: u32,
    out: &mut Parcel,
    places: &mut [ParcelSegment],
) -> u32
    ensures { SendsIn slot worker.old.value out.old places.old result worker.new.value out.new places.new }
{
    match worker.take(alloc) {
        None => Refusal::StrangerShare.number(),
        Some(mut own) => {
            let status = send(&mut own, slot, out, places);
            worker.put_back(own);
            status
        }
    }
}

/// Receives the packet of a parcel, which any worker of the pool sent: it stands in the lowest free
/// slot, whose label `out` has, with all that it holds. The parcel is empty then. No word is written.
///
/// C owes that the parcel was sent by a worker of this one's pool, and that its bytes are as they were
/// written.
///
/// Refused `StrangerShare` where there is no worker, `NoSuchPacket` where there is no parcel, as of one
/// that was received, and `PacketsFull` where no slot is free. Nothing changes then.
#[unsafe(no_mangle)]
pub extern "C" fn mbufpool_worker_receive_segments(
    alloc: Global,
    worker: &mut WorkerHandle,
    parcel: &mut Parcel,
    bytes: &[ParcelSegment],
    out: &mut u32,
) -> u32
    requires { IsWholeFor worker.old.value parcel.old bytes.now }
    ensures { ReceivesIn worker.old.value parcel.old result worker.new.value parcel.new out.old out.new }
{
    match worker.take(alloc) {
        None => Refusal::StrangerShare.number(),
        Some(mut own) => {
            let status = receive(&mut own, parcel, bytes, out);
            worker.put_back(own);
            status
        }
    }
}
