//! Segments that use another's buffer: attached, and cloned one after another.

ghost use Rattle.std.specs.Prelude.{◌≡◌, ◌≢◌, ◌<◌, ◌≤◌, ◌+◌, ◌*◌, [], ◌∷◌, ◌++◌, ℕ, length, take, Ok, Err, OnOk, OnErr, IfOk, slice_index_or, vec_len};
ghost use Rattle.commons.specs.Bag.{bag};
ghost use Rattle.commons.specs.Calls.{Calls, IsRaise};
ghost use Rattle.commons.specs.Packets.{HasItsData, hold_of, holds_of_packet, max_segs};
ghost use Rattle.mempool.specs.WorkerCache.{KeepsNumber};
ghost use Rattle.mbuf.specs.PacketRules.{freed_nothing};
ghost use Rattle.mbuf.specs.Sharing.{attached as attached_seg, buffer_of as buffer};
ghost use Rattle.mbuf.specs.inside.Cloning.{AttachesElem, ClonedPacket, TriesSeg, new_headers, new_holds};
ghost use Rattle.mbuf.specs.inside.Ending.{EndedHolds};

pub mod foreign;

use crate::freed::Freed;
use crate::steps;
use commons::packet::{Packet, Seg};
use commons::refusal::Refusal;
use commons::shared::Commons;
use mempool::worker::Worker;

/// The direct element whose buffer a segment uses.
#[inline(always)]
fn buffer_of(seg: Seg) -> u32
    ensures { result ≡ buffer seg }
{
    seg.base.unwrap_or(seg.elem)
}

/// A segment of this element that uses another's buffer, with its lengths.
#[inline(always)]
fn attached(elem: u32, target: Seg) -> Seg
    requires { HasItsData target }
    ensures seg { result ≡ attached_seg elem target }
    ensures data { HasItsData result }
{
    Seg {
        elem,
        base: Some(buffer_of(target)),
        ..target
    }
}

/// Attaches an element that has no other hold to a segment's buffer.
///
/// Refused `InUse` where another count was read, else as the raise of the buffer's count is.
pub fn attach<C: Commons>(c: &mut C, elem: u32, target: Seg) -> Result<Seg, Refusal>
    requires own { 0 < (C.side c.old).holds elem }
    requires held { 0 < (C.side c.old).holds (buffer target) }
    requires data { HasItsData target }
    ensures calls { Calls C.did C.side c.old c.new (λ calls.
        AttachesElem elem target calls result) }
    ensures data { IfOk result HasItsData }
    ensures ok { OnOk result (IsRaise (buffer target) (C.side c.old) (C.side c.new)) }
    ensures refused { OnErr result (C.side c.new ≡ C.side c.old) }
{
    if c.count(elem) != 1 {
        return Err(Refusal::InUse);
    }
    match c.raise(buffer_of(target)) {
        Ok(()) => Ok(attached(elem, target)),
        Err(cause) => Err(cause),
    }
}

/// Why a segment wasn't cloned, and the element that was claimed for it, if one was.
#[derive(Clone, Copy)]
struct Stop {
    cause: Refusal,
    over: Option<u32>,
}

/// Clones a segment: gets an element, claims it, and lets it use the segment's buffer.
#[inline(always)]
fn clone_seg<C: Commons>(worker: &mut Worker, c: &mut C, seg: Seg) -> Result<Seg, Stop>
    requires limits { (C.side c.old).limits ≡ worker.old.limits }
    requires hand { (i : ℕ) → (C.side c.old).hand i ≡ bag worker.old.cache i }
    requires held { 0 < (C.side c.old).holds (buffer seg) }
    requires data { HasItsData seg }
    ensures calls { Calls C.did C.side c.old c.new (λ calls.
        TriesSeg worker.old.limits seg worker.old.cache calls result worker.new.cache) }
    ensures data { IfOk result HasItsData }
    ensures hand { (i : ℕ) → (C.side c.new).hand i ≡ bag worker.new.cache i }
    ensures holds { (i : ℕ) → (C.side c.new).holds i ≡ (C.side c.old).holds i + bag (new_holds result) i }
    ensures headers { (i : ℕ) → (C.side c.new).headers i
        ≡ (C.side c.old).headers i + bag (new_headers result) i }
    ensures unheld { (i : ℕ) → 0 < bag (new_headers result) i → (C.side c.old).holds i ≡ 0 }
    ensures limits { (C.side c.new).limits ≡ (C.side c.old).limits }
    ensures number { KeepsNumber worker.old worker.new }
{
    let elem = match worker.get_one(c) {
        Ok(elem) => elem,
        Err(cause) => return Err(Stop { cause, over: None }),
    };
    c.claim(elem);
    match c.raise(buffer_of(seg)) {
        Ok(()) => Ok(attached(elem, seg)),
        Err(cause) => Err(Stop {
            cause,
            over: Some(elem),
        }),
    }
}

/// Ends the holds of segments in order, and then that of an element that is left over.
#[inline(never)]
fn give_up<C: Commons>(worker: &mut Worker, c: &mut C, segs: &[Seg], over: Option<u32>) -> Freed
    requires limits { (C.side c.old).limits ≡ worker.old.limits }
    requires hand { (i : ℕ) → (C.side c.old).hand i ≡ bag worker.old.cache i }
    requires held { (i : ℕ) → bag (holds_of_packet segs.now ++ hold_of over) i ≤ (C.side c.old).holds i }
    requires few { length segs.now < max_segs }
    ensures { EndedHolds C.did C.side (holds_of_packet segs.now ++ hold_of over) worker.old c.old
        freed_nothing (2 * max_segs) result worker.new c.new }
{
    let freed = steps::end_segs(worker, c, segs);
    match over {
        None => freed,
        Some(elem) => steps::end_hold(worker, c, elem, freed),
    }
}

/// Puts a segment after the first `count` of a packet, in the place of the next one.
#[inline(always)]
fn follow(packet: &mut Packet, count: usize, seg: Seg)
    requires there { count < length packet.old }
    requires data { HasItsData seg }
    ensures next { take (count + 1) packet.new ≡ take count packet.old ++ seg ∷ [] }
    ensures len { length packet.new ≡ length packet.old }
{
    packet.set(count, seg);
}

/// Lets a packet have this many segments, whatever they are.
#[inline(always)]
fn fit(packet: &mut Packet, count: usize)
    requires some { 1 ≤ count }
    requires few { count ≤ max_segs }
    ensures { length packet.new ≡ count }
{
    if packet.segs().len() != count {
        refit(packet, count);
    }
}

/// Makes a packet of this many segments without data. It stands apart, since a slot mostly has had
/// as many.
#[inline(never)]
fn refit(packet: &mut Packet, count: usize)
    requires some { 1 ≤ count }
    requires few { count ≤ max_segs }
    ensures { length packet.new ≡ count }
{
    packet.restart(Seg::default());
    for _ in 1..count {
        packet.push(Seg::default());
    }
}

/// Clones the segments of the packet at `source` into the packet at `slot`, all of them, or none.
pub fn clone_segs<C: Commons>(
    worker: &mut Worker,
    c: &mut C,
    packets: &mut Vec<Packet>,
    source: usize,
    slot: usize,
) -> Result<(), Refusal>
    requires source { source < vec_len packets.old }
    requires slot { slot < vec_len packets.old }
    requires apart { source ≢ slot }
    requires limits { (C.side c.old).limits ≡ worker.old.limits }
    requires hand { (i : ℕ) → (C.side c.old).hand i ≡ bag worker.old.cache i }
    requires held { (i : ℕ) → bag (holds_of_packet (slice_index_or packets.old.items source [])) i
        ≤ (C.side c.old).holds i }
    ensures { ClonedPacket C.did C.side source slot worker.old packets.old.items c.old result
        worker.new packets.new.items c.new }
{
    clone_within(worker, c, packets.as_mut_slice(), source, slot)
}

/// Clones, all or none, the segments of one of these packets into another, where they are a slice:
/// no atomic operation can change its place in memory.
#[inline(always)]
fn clone_within<C: Commons>(
    worker: &mut Worker,
    c: &mut C,
    packets: &mut [Packet],
    source: usize,
    slot: usize,
) -> Result<(), Refusal>
    requires source { source < length packets.old }
    requires slot { slot < length packets.old }
    requires apart { source ≢ slot }
    requires limits { (C.side c.old).limits ≡ worker.old.limits }
    requires hand { (i : ℕ) → (C.side c.old).hand i ≡ bag worker.old.cache i }
    requires held { (i : ℕ) → bag (holds_of_packet (slice_index_or packets.old source [])) i
        ≤ (C.side c.old).holds i }
    ensures { ClonedPacket C.did C.side source slot worker.old packets.old c.old result
        worker.new packets.new c.new }
{
    let count = packets[source].segs().len();
    // What stood there last stays in its place, and is written over.
    fit(&mut packets[slot], count);
    for index in 0..count {
        let seg = packets[source].segs()[index];
        match clone_seg(worker, c, seg) {
            Ok(new) => follow(&mut packets[slot], index, new),
            Err(stop) => {
                give_up(worker, c, &packets[slot].segs()[..index], stop.over);
                return Err(stop.cause);
            }
        }
    }
    Ok(())
}
