//! What packets ask of the cache and of the shared pool, an element at a time.

ghost use Rattle.std.specs.Prelude.{◌≡◌, ◌<◌, ◌≤◌, ◌+◌, ◌*◌, ◌∷◌, [], ℕ, length, min};
ghost use Rattle.commons.specs.Bag.{bag};
ghost use Rattle.commons.specs.Bounds.{IsPool, max_population};
ghost use Rattle.commons.specs.Calls.{Calls};
ghost use Rattle.mempool.specs.Caches.{Puts, put_count};
ghost use Rattle.mempool.specs.WorkerCache.{KeepsNumber};
ghost use Rattle.commons.specs.Packets.{holds_of_packet, holds_of_seg, max_segs};
ghost use Rattle.mbuf.specs.PacketRules.{fresh_seg, freed_nothing, counted as counted_put};
ghost use Rattle.mbuf.specs.inside.Ending.{EndedHold, EndedHolds};

pub mod foreign;
pub mod pair;

use crate::freed::Freed;
use commons::limits::Limits;
use commons::packet::Seg;
use commons::refusal::{Lowered, Refusal};
use commons::shared::Commons;
use mempool::put::Put;
use mempool::worker::Worker;

/// The headroom of a fresh packet, in bytes, where its buffer is no shorter.
/// (rte_config.h, `RTE_PKTMBUF_HEADROOM`, DPDK 21.11)
const HEADROOM: u64 = 128;

/// The headroom of a pool's fresh packets, in bytes.
pub fn headroom(limits: &Limits) -> u16
    requires { IsPool limits.now }
    ensures { result ≡ min 128 limits.now.buf }
{
    HEADROOM.min(limits.buf) as u16
}

/// The segment of a fresh packet, with the headroom of its pool.
#[inline(always)]
pub fn fresh(limits: &Limits, headroom: u16, elem: u32) -> Seg
    requires pool { IsPool limits.now }
    requires headroom { headroom ≡ min 128 limits.now.buf }
    ensures seg { result ≡ fresh_seg limits.now elem }
    ensures fits { result.data_off + result.data_len ≤ result.buf_len }
{
    Seg {
        elem,
        base: None,
        data_off: headroom,
        data_len: 0,
        buf_len: limits.buf as u16,
    }
}

/// What freeing has done once one element more was put back.
#[inline(always)]
pub fn counted(freed: Freed, put: Put) -> Freed
    requires back { freed.back < 4_294_967_295 }
    requires flushed { freed.flushed + put_count put ≤ 4_294_967_295 }
    ensures counted { result ≡ counted_put freed put }
    ensures back { result.back ≡ freed.back + 1 }
    ensures flushed { result.flushed ≤ freed.flushed + put_count put }
{
    let mut freed = freed;
    freed.back += 1;
    match put {
        Put::Kept => {}
        Put::Flushed(count) => freed.flushed += count,
        Put::PutOff(count, cause) => freed.put_off = Some((count, cause)),
    }
    freed
}

/// Puts one element back. The list has its place here, where there is something to put.
#[inline(always)]
fn put_one<C: Commons>(worker: &mut Worker, c: &mut C, elem: u32) -> Put
    requires limits { (C.side c.old).limits ≡ worker.old.limits }
    requires in_hand { (i : ℕ) → bag worker.old.cache i + bag (elem ∷ []) i ≤ (C.side c.old).hand i }
    ensures calls { Calls C.did C.side c.old c.new (λ calls.
        Puts worker.old.limits worker.old.cache (elem ∷ []) calls result worker.new.cache) }
    ensures few { put_count result ≤ worker.old.limits.population }
    ensures hand { (i : ℕ) → (C.side c.new).hand i + bag worker.old.cache i + bag (elem ∷ []) i
        ≡ (C.side c.old).hand i + bag worker.new.cache i }
    ensures holds { (C.side c.new).holds ≡ (C.side c.old).holds }
    ensures headers { (C.side c.new).headers ≡ (C.side c.old).headers }
    ensures limits { (C.side c.new).limits ≡ (C.side c.old).limits }
    ensures number { KeepsNumber worker.old worker.new }
{
    worker.put_bulk(c, &[elem])
}

/// Ends one hold of an element, and puts it back where that was the last.
#[inline(always)]
#[tactic(auto, using(commons::proofs::Bags::bags))]
pub fn end_hold<C: Commons>(worker: &mut Worker, c: &mut C, elem: u32, freed: Freed) -> Freed
    requires limits { (C.side c.old).limits ≡ worker.old.limits }
    requires hand { (i : ℕ) → (C.side c.old).hand i ≡ bag worker.old.cache i }
    requires held { 0 < (C.side c.old).holds elem }
    requires back { freed.back < 2 * max_segs }
    requires flushed { freed.flushed ≤ max_population * freed.back }
    ensures { EndedHold C.did C.side elem worker.old c.old freed (freed.back + 1) result worker.new c.new }
{
    let _limits = worker.limits();
    match c.lower(elem) {
        Lowered::Still => freed,
        Lowered::Last => counted(freed, put_one(worker, c, elem)),
    }
}

/// Ends the holds of one segment: that of its base, where it has one, and then its own.
#[inline(always)]
#[tactic(auto, using(commons::proofs::Bags::bags))]
fn end_seg<C: Commons>(worker: &mut Worker, c: &mut C, seg: Seg, freed: Freed) -> Freed
    requires limits { (C.side c.old).limits ≡ worker.old.limits }
    requires hand { (i : ℕ) → (C.side c.old).hand i ≡ bag worker.old.cache i }
    requires held { (i : ℕ) → bag (holds_of_seg seg) i ≤ (C.side c.old).holds i }
    requires back { freed.back + 1 < 2 * max_segs }
    requires flushed { freed.flushed ≤ max_population * freed.back }
    ensures { EndedHolds C.did C.side (holds_of_seg seg) worker.old c.old freed (freed.back + 2)
        result worker.new c.new }
{
    match seg.base {
        None => end_hold(worker, c, seg.elem, freed),
        Some(base) => {
            let so_far = end_hold(worker, c, base, freed);
            end_hold(worker, c, seg.elem, so_far)
        }
    }
}

/// What freeing nothing has done.
pub const NOTHING_FREED: Freed = Freed {
    back: 0,
    flushed: 0,
    put_off: None,
};

/// Ends the holds of segments in order.
#[inline(always)]
pub fn end_segs<C: Commons>(worker: &mut Worker, c: &mut C, segs: &[Seg]) -> Freed
    requires limits { (C.side c.old).limits ≡ worker.old.limits }
    requires hand { (i : ℕ) → (C.side c.old).hand i ≡ bag worker.old.cache i }
    requires held { (i : ℕ) → bag (holds_of_packet segs.now) i ≤ (C.side c.old).holds i }
    requires few { length segs.now ≤ max_segs }
    ensures { EndedHolds C.did C.side (holds_of_packet segs.now) worker.old c.old freed_nothing (2 * length segs.now)
        result worker.new c.new }
{
    if segs.len() == 1 {
        // Most packets have one: what was freed before is nothing then, and nothing is carried.
        return end_seg(worker, c, segs[0], NOTHING_FREED);
    }
    end_several(worker, c, segs)
}

/// Ends the holds of several segments in order. What that has done has a place of its own here,
/// which is filled only for several.
#[inline(always)]
fn end_several<C: Commons>(worker: &mut Worker, c: &mut C, segs: &[Seg]) -> Freed
    requires limits { (C.side c.old).limits ≡ worker.old.limits }
    requires hand { (i : ℕ) → (C.side c.old).hand i ≡ bag worker.old.cache i }
    requires held { (i : ℕ) → bag (holds_of_packet segs.now) i ≤ (C.side c.old).holds i }
    requires few { length segs.now ≤ max_segs }
    ensures { EndedHolds C.did C.side (holds_of_packet segs.now) worker.old c.old freed_nothing (2 * length segs.now)
        result worker.new c.new }
{
    let Freed {
        back,
        flushed,
        put_off,
    } = end_each(worker, c, segs);
    Freed {
        back,
        flushed,
        put_off,
    }
}

/// Ends the holds of several segments, in a function of its own, so that what inlines a free stays
/// small.
#[inline(never)]
fn end_each<C: Commons>(worker: &mut Worker, c: &mut C, segs: &[Seg]) -> Freed
    requires limits { (C.side c.old).limits ≡ worker.old.limits }
    requires hand { (i : ℕ) → (C.side c.old).hand i ≡ bag worker.old.cache i }
    requires held { (i : ℕ) → bag (holds_of_packet segs.now) i ≤ (C.side c.old).holds i }
    requires few { length segs.now ≤ max_segs }
    ensures { EndedHolds C.did C.side (holds_of_packet segs.now) worker.old c.old freed_nothing (2 * length segs.now)
        result worker.new c.new }
{
    let mut freed = NOTHING_FREED;
    for seg in segs {
        freed = end_seg(worker, c, *seg, freed);
    }
    freed
}
