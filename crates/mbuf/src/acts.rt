//! What a worker is asked to do with its packets and its cache, and what is replied.

ghost use Rattle.std.specs.Prelude.{◌≡◌, ◌≤◌, [], All, IsSome, None, length, map, slice_index_or};
ghost use Rattle.commons.specs.Calls.{Calls};
ghost use Rattle.mbuf.specs.Acts.{HasRoom, Performs, as_reply, first_elem, new_packet, told_len as len_reply, told_taken as taken_reply};
ghost use Rattle.commons.specs.Packets.{own_in_slot};
ghost use Rattle.mbuf.specs.Fresh.{AreFresh, new_elements};
ghost use Rattle.mbuf.specs.Members.{KeepsMember, slots as slot_count};
ghost use Rattle.mbuf.specs.Own.{Own, OwnWithGuests, StaysOwn};
ghost use Rattle.mbuf.specs.Refused.{AsBefore, IfRefused};
ghost use Rattle.mbuf.specs.inside.Acting.{Acted};

use crate::freed::Freed;
use crate::lengths;
use crate::packets::{Packets, Pid, SLOTS};
use arrayvec::ArrayVec;
use commons::packet::MAX_SEGS;
use commons::refusal::Refusal;
use commons::shared::Commons;
use mempool::put::Put;

/// One of the calls of `Packets`, with its arguments.
#[derive(Clone, Copy, PartialEq, Eq, Debug)]
pub enum Act {
    /// Makes a packet of one element, in the lowest free slot.
    Alloc,
    /// Makes this many packets of one element each, all or none, in the lowest free slots.
    AllocBulk(usize),
    /// Frees the packet in this slot.
    Free(Pid),
    /// Adds this many bytes after the data of a packet's last segment.
    Append(Pid, u16),
    /// Adds this many bytes in front of the data of a packet's first segment.
    Prepend(Pid, u16),
    /// Takes this many bytes off the front of a packet's first segment.
    Adj(Pid, u16),
    /// Takes this many bytes off the end of a packet's last segment.
    Trim(Pid, u16),
    /// Puts the segments of the second packet after those of the first.
    Chain(Pid, Pid),
    /// Attaches the first packet, of one direct segment, to the buffer of the second's first
    /// segment.
    Attach(Pid, Pid),
    /// Gives a packet of one indirect segment its own buffer back.
    Detach(Pid),
    /// Clones a packet, into the lowest free slot.
    ClonePacket(Pid),
    /// Leaves the packet in this slot on this desk.
    Offer(Pid, u32),
    /// Takes the packet off this desk, into the lowest free slot.
    Take(u32),
    /// Tells the reference count of a packet's first segment's element.
    CountOf(Pid),
    /// Tells how many bytes of data a packet has.
    PktLen(Pid),
    /// Tells how many segments a packet has.
    NbSegs(Pid),
    /// Puts the whole cache onto the common stack.
    Flush,
}

/// A new packet of one element.
#[derive(Clone, Copy, Default, PartialEq, Eq, Debug)]
pub struct NewPacket {
    /// Its slot.
    pub slot: Pid,
    /// Its element.
    pub elem: u32,
}

/// The answer to an `Act`, with room in place for the packets of a bulk of `ROOM`.
#[derive(PartialEq, Eq, Debug, Drop)]
pub enum Answer<const ROOM: usize> {
    /// The packet stands in this slot, and this is its element.
    Allocated(Pid, u32),
    /// The packets stand, in the order of the get.
    Bulk(ArrayVec<NewPacket, ROOM>),
    /// The packet was freed, or detached.
    Freed(Freed),
    /// The packet was attached.
    Attached,
    /// The clone stands in this slot, and these are its elements in order.
    Cloned(Pid, ArrayVec<u32, MAX_SEGS>),
    /// The packet is on the desk.
    Offered,
    /// The packet stands in this slot; it has this many segments, and this many bytes of data.
    Taken(Pid, u32, u32),
    /// The reference count that was read.
    Count(u32),
    /// How many bytes of data the packet has now.
    Len(u32),
    /// How many segments the packet has.
    Segs(u32),
    /// The first packet has this many segments now, and this many bytes of data.
    Chained(u32, u32),
    /// What a flush did with the cache.
    Put(Put),
    /// The call was refused. Packets and holds are as before.
    Refused(Refusal),
}

/// An answer with room for any bulk.
pub type Reply = Answer<SLOTS>;

/// The first segment's element of the packet in a slot.
fn elem_in(packets: &Packets, slot: Pid) -> u32
    requires { IsSome (slice_index_or packets.now.table slot None) }
    ensures { result ≡ first_elem (slice_index_or packets.now.table slot None) }
{
    packets.place(slot).unwrap().segs()[0].elem
}

/// The answer that tells of a length, or of the refusal.
pub fn told_len<const ROOM: usize>(answer: Result<u32, Refusal>) -> Answer<ROOM>
    ensures reply { as_reply result ≡ len_reply answer }
    ensures none { new_elements (as_reply result) ≡ [] }
{
    match answer {
        Ok(len) => Answer::Len(len),
        Err(cause) => Answer::Refused(cause),
    }
}

/// Makes a packet, and tells of it.
#[tactic(auto, using(crate::proofs::FreshLemmas::fresh_none))]
fn alloc<C: Commons, const ROOM: usize>(packets: &mut Packets, c: &mut C) -> Answer<ROOM>
    requires own { OwnWithGuests packets.old (C.side c.old) }
    ensures { Acted C.did C.side Act.Alloc packets.old c.old (as_reply result) packets.new c.new }
{
    match packets.alloc(c) {
        Ok(slot) => Answer::Allocated(slot, elem_in(packets, slot)),
        Err(cause) => Answer::Refused(cause),
    }
}

/// The packets in these slots, with their elements.
fn new_packets<const ROOM: usize>(packets: &Packets, slots: &[Pid]) -> ArrayVec<NewPacket, ROOM>
    requires few { length slots.now ≤ ROOM }
    requires there { All (λ slot. IsSome (slice_index_or packets.now.table slot None)) slots.now }
    ensures { result.items ≡ map (new_packet packets.now.table) slots.now }
{
    let mut list = ArrayVec::new();
    for slot in slots {
        list.push(NewPacket {
            slot: *slot,
            elem: elem_in(packets, *slot),
        });
    }
    list
}

/// Makes a packet for each place of `slots`, which has the slots then, and tells of them.
#[tactic(auto, using(crate::proofs::FreshLemmas::fresh_none))]
fn alloc_all<C: Commons, const ROOM: usize>(
    packets: &mut Packets,
    c: &mut C,
    slots: &mut [Pid],
) -> Answer<ROOM>
    requires own { OwnWithGuests packets.old (C.side c.old) }
    requires few { length slots.old ≤ slot_count }
    requires room { HasRoom ROOM (Act.AllocBulk (length slots.old)) }
    ensures { Acted C.did C.side (Act.AllocBulk (length slots.old)) packets.old c.old (as_reply result) packets.new c.new }
{
    match packets.alloc_bulk(c, slots) {
        Ok(()) => Answer::Bulk(new_packets(packets, slots)),
        Err(cause) => Answer::Refused(cause),
    }
}

/// Makes this many packets, and tells of them.
#[tactic(auto, using(crate::proofs::FreshLemmas::fresh_none))]
fn alloc_bulk<C: Commons, const ROOM: usize>(
    packets: &mut Packets,
    c: &mut C,
    count: usize,
) -> Answer<ROOM>
    requires room { HasRoom ROOM (Act.AllocBulk count) }
    requires own { OwnWithGuests packets.old (C.side c.old) }
    ensures { Acted C.did C.side (Act.AllocBulk count) packets.old c.old (as_reply result) packets.new c.new }
{
    packets.has_slots();
    if count > SLOTS {
        return Answer::Refused(Refusal::PacketsFull);
    }
    let mut slots = [0; SLOTS];
    alloc_all(packets, c, &mut slots[..count])
}

/// Chains two packets, and tells of the first.
fn chain<C: Commons, const ROOM: usize>(
    packets: &mut Packets,
    c: &mut C,
    head: Pid,
    tail: Pid,
) -> Answer<ROOM>
    requires own { OwnWithGuests packets.old (C.side c.old) }
    ensures { Acted C.did C.side (Act.Chain head tail) packets.old c.old (as_reply result) packets.new c.new }
{
    if let Err(cause) = packets.chain(c, head, tail) {
        return Answer::Refused(cause);
    }
    match packets.place(head) {
        Some(packet) => Answer::Chained(packet.segs().len() as u32, lengths::pkt_len(packet)),
        None => Answer::Refused(Refusal::NoSuchPacket),
    }
}

/// The elements of the packet in a slot, in the order of its segments; none where no packet stands
/// there.
pub fn elems_in(packets: &Packets, slot: Pid) -> ArrayVec<u32, MAX_SEGS>
    ensures { result.items ≡ own_in_slot (slice_index_or packets.now.table slot None) }
{
    let mut elems = ArrayVec::new();
    if let Some(packet) = packets.place(slot) {
        for seg in packet.segs() {
            elems.push(seg.elem);
        }
    }
    elems
}

/// Clones a packet, and tells of the clone.
#[tactic(auto, using(crate::proofs::FreshLemmas::fresh_none))]
fn clone_packet<C: Commons, const ROOM: usize>(
    packets: &mut Packets,
    c: &mut C,
    p: Pid,
) -> Answer<ROOM>
    requires own { OwnWithGuests packets.old (C.side c.old) }
    ensures { Acted C.did C.side (Act.ClonePacket p) packets.old c.old (as_reply result) packets.new c.new }
{
    match packets.clone_packet(c, p) {
        Ok(slot) => Answer::Cloned(slot, elems_in(packets, slot)),
        Err(cause) => Answer::Refused(cause),
    }
}

/// The reply that tells of the packet in a slot.
fn told_taken<const ROOM: usize>(packets: &Packets, slot: Pid) -> Answer<ROOM>
    requires there { IsSome (slice_index_or packets.now.table slot None) }
    ensures reply { as_reply result ≡ taken_reply slot (slice_index_or packets.now.table slot None) }
    ensures none { new_elements (as_reply result) ≡ [] }
{
    let packet = packets.place(slot).unwrap();
    Answer::Taken(slot, packet.segs().len() as u32, lengths::pkt_len(packet))
}

/// Takes a packet off a desk, and tells of it.
fn take<C: Commons, const ROOM: usize>(packets: &mut Packets, c: &mut C, desk: u32) -> Answer<ROOM>
    requires own { OwnWithGuests packets.old (C.side c.old) }
    ensures { Acted C.did C.side (Act.Take desk) packets.old c.old (as_reply result) packets.new c.new }
{
    match packets.take(c, desk) {
        Ok(slot) => told_taken(packets, slot),
        Err(cause) => Answer::Refused(cause),
    }
}

/// Lets a worker do this with its packets, and answers what came of it.
///
/// Each act is the call of `Packets` of that name, with its refusals. A count of `AllocBulk` above
/// 256 is refused `PacketsFull`. After a refusal packets, cache, hand, holds and headers are as
/// before, but that a refused clone may share out the free elements differently between cache and
/// stack. The worker keeps its number, its limits and its 256 slots.
pub fn perform<C: Commons>(packets: &mut Packets, c: &mut C, act: Act) -> Reply
    requires own { OwnWithGuests packets.old (C.side c.old) }
    ensures calls { Calls C.did C.side c.old c.new (λ calls.
        Performs act packets.old calls result packets.new) }
    ensures fresh { AreFresh packets.old.limits.population (C.side c.old).holds (new_elements result) }
    ensures own { Own packets.old (C.side c.old) → Own packets.new (C.side c.new) }
    ensures guests { StaysOwn packets.old (C.side c.old) packets.new (C.side c.new) }
    ensures refused { IfRefused result (AsBefore act packets.old (C.side c.old) packets.new (C.side c.new)) }
    ensures member { KeepsMember packets.old packets.new }
{
    perform_in(packets, c, act)
}

/// Does what `perform` does, and answers with room for a bulk of `ROOM` packets: with none the
/// answer is small.
#[inline(always)]
pub fn perform_in<C: Commons, const ROOM: usize>(
    packets: &mut Packets,
    c: &mut C,
    act: Act,
) -> Answer<ROOM>
    requires room { HasRoom ROOM act }
    requires own { OwnWithGuests packets.old (C.side c.old) }
    ensures calls { Calls C.did C.side c.old c.new (λ calls.
        Performs act packets.old calls (as_reply result) packets.new) }
    ensures fresh { AreFresh packets.old.limits.population (C.side c.old).holds
        (new_elements (as_reply result)) }
    ensures own { Own packets.old (C.side c.old) → Own packets.new (C.side c.new) }
    ensures guests { StaysOwn packets.old (C.side c.old) packets.new (C.side c.new) }
    ensures refused { IfRefused (as_reply result)
        (AsBefore act packets.old (C.side c.old) packets.new (C.side c.new)) }
    ensures member { KeepsMember packets.old packets.new }
{
    packets.has_slots();
    act_in(packets, c, act)
}

/// Does this with a worker's packets.
#[inline(always)]
#[tactic(auto, using(crate::proofs::FreshLemmas::fresh_none))]
fn act_in<C: Commons, const ROOM: usize>(packets: &mut Packets, c: &mut C, act: Act) -> Answer<ROOM>
    requires room { HasRoom ROOM act }
    requires own { OwnWithGuests packets.old (C.side c.old) }
    ensures { Acted C.did C.side act packets.old c.old (as_reply result) packets.new c.new }
{
    match act {
        Act::Alloc => alloc(packets, c),
        Act::AllocBulk(count) => alloc_bulk(packets, c, count),
        Act::Free(p) => match packets.free(c, p) {
            Ok(freed) => Answer::Freed(freed),
            Err(cause) => Answer::Refused(cause),
        },
        Act::Append(p, len) => told_len(packets.append(c, p, len)),
        Act::Prepend(p, len) => told_len(packets.prepend(c, p, len)),
        Act::Adj(p, len) => told_len(packets.adj(c, p, len)),
        Act::Trim(p, len) => told_len(packets.trim(c, p, len)),
        Act::Chain(head, tail) => chain(packets, c, head, tail),
        Act::Attach(mi, target) => match packets.attach(c, mi, target) {
            Ok(()) => Answer::Attached,
            Err(cause) => Answer::Refused(cause),
        },
        Act::Detach(p) => match packets.detach(c, p) {
            Ok(freed) => Answer::Freed(freed),
            Err(cause) => Answer::Refused(cause),
        },
        Act::ClonePacket(p) => clone_packet(packets, c, p),
        Act::Offer(p, desk) => match packets.offer(c, p, desk) {
            Ok(()) => Answer::Offered,
            Err(cause) => Answer::Refused(cause),
        },
        Act::Take(desk) => take(packets, c, desk),
        Act::CountOf(p) => match packets.count_of(c, p) {
            Ok(count) => Answer::Count(count),
            Err(cause) => Answer::Refused(cause),
        },
        Act::PktLen(p) => told_len(packets.pkt_len(c, p)),
        Act::NbSegs(p) => match packets.nb_segs(c, p) {
            Ok(segs) => Answer::Segs(segs),
            Err(cause) => Answer::Refused(cause),
        },
        Act::Flush => Answer::Put(packets.flush(c)),
    }
}
