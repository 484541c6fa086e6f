//! Foreign clones that are freed, a segment at a time: their bases are of one pool, and their own
//! elements of another.

ghost use Rattle.std.specs.Prelude.{◌≡◌, ◌<◌, ◌≤◌, ◌+◌, ◌*◌, [], ◌∷◌, ℕ, length};
ghost use Rattle.commons.specs.Bag.{bag};
ghost use Rattle.commons.specs.Bounds.{max_population};
ghost use Rattle.commons.specs.Packets.{hold_of, own_of_packet, max_segs};
ghost use Rattle.mbuf.specs.PacketRules.{freed_nothing};
ghost use Rattle.mbuf.specs.Foreign.{BothCalls, EndsForeign, bases_of_packet};
ghost use Rattle.mbuf.specs.inside.Ending.{EndedHolds, LostHolds};
ghost use Rattle.mbuf.specs.inside.Turns.{EndsInTurn, EndsSegInTurn};

use super::pair::{Both, Pair};
use super::{NOTHING_FREED, end_hold};
use crate::freed::Freed;
use commons::packet::Seg;
use commons::shared::Commons;
use mempool::worker::Worker;

/// Ends the hold of an element, if there is one.
#[inline(always)]
#[tactic(auto, using(commons::proofs::Bags::bags))]
pub fn end_if<C: Commons>(worker: &mut Worker, c: &mut C, elem: Option<u32>, freed: Freed) -> Freed
    requires limits { (C.side c.old).limits ≡ worker.old.limits }
    requires hand { (i : ℕ) → (C.side c.old).hand i ≡ bag worker.old.cache i }
    requires held { (i : ℕ) → bag (hold_of elem) i ≤ (C.side c.old).holds i }
    requires back { freed.back < 2 * max_segs }
    requires flushed { freed.flushed ≤ max_population * freed.back }
    ensures { EndedHolds C.did C.side (hold_of elem) worker.old c.old freed (freed.back + 1)
        result worker.new c.new }
{
    match elem {
        None => freed,
        Some(elem) => end_hold(worker, c, elem, freed),
    }
}

/// Ends the holds of one segment: that of its base in the first pool, and then its own in the
/// second.
#[inline(always)]
fn end_seg<P: Pair>(
    first: &mut Worker,
    second: &mut Worker,
    pair: &mut P,
    seg: Seg,
    freed: Freed,
) -> Freed
    requires first_limits { (P.first_side pair.old).limits ≡ first.old.limits }
    requires first_hand { (i : ℕ) → (P.first_side pair.old).hand i ≡ bag first.old.cache i }
    requires first_held { (i : ℕ) → bag (hold_of seg.base) i ≤ (P.first_side pair.old).holds i }
    requires second_limits { (P.second_side pair.old).limits ≡ second.old.limits }
    requires second_hand { (i : ℕ) → (P.second_side pair.old).hand i ≡ bag second.old.cache i }
    requires second_held { 0 < (P.second_side pair.old).holds seg.elem }
    requires back { freed.back + 1 < 2 * max_segs }
    requires flushed { freed.flushed ≤ max_population * freed.back }
    ensures calls { EndsSegInTurn P.first_did P.first_side P.second_did P.second_side
        first.old.limits second.old.limits seg pair.old first.old.cache second.old.cache freed
        pair.new first.new.cache second.new.cache result }
    ensures first { LostHolds (hold_of seg.base) first.old (P.first_side pair.old)
        first.new (P.first_side pair.new) }
    ensures second { LostHolds (seg.elem ∷ []) second.old (P.second_side pair.old)
        second.new (P.second_side pair.new) }
    ensures first_name { P.first_name pair.new ≡ P.first_name pair.old }
    ensures second_name { P.second_name pair.new ≡ P.second_name pair.old }
    ensures back { result.back ≤ freed.back + 2 }
    ensures flushed { result.flushed ≤ max_population * result.back }
{
    let so_far = pair.end_base(first, seg.base, freed);
    pair.end_own(second, seg.elem, so_far)
}

/// Ends the holds of segments in order: of each that of its base in the first pool, and then its
/// own in the second.
#[inline(always)]
fn end_each<P: Pair>(first: &mut Worker, second: &mut Worker, pair: &mut P, segs: &[Seg]) -> Freed
    requires first_limits { (P.first_side pair.old).limits ≡ first.old.limits }
    requires first_hand { (i : ℕ) → (P.first_side pair.old).hand i ≡ bag first.old.cache i }
    requires first_held { (i : ℕ) → bag (bases_of_packet segs.now) i
        ≤ (P.first_side pair.old).holds i }
    requires second_limits { (P.second_side pair.old).limits ≡ second.old.limits }
    requires second_hand { (i : ℕ) → (P.second_side pair.old).hand i ≡ bag second.old.cache i }
    requires second_held { (i : ℕ) → bag (own_of_packet segs.now) i
        ≤ (P.second_side pair.old).holds i }
    requires few { length segs.now ≤ max_segs }
    ensures calls { EndsInTurn P.first_did P.first_side P.second_did P.second_side
        first.old.limits second.old.limits segs.now pair.old first.old.cache second.old.cache
        freed_nothing pair.new first.new.cache second.new.cache result }
    ensures first { LostHolds (bases_of_packet segs.now) first.old (P.first_side pair.old)
        first.new (P.first_side pair.new) }
    ensures second { LostHolds (own_of_packet segs.now) second.old (P.second_side pair.old)
        second.new (P.second_side pair.new) }
    ensures first_name { P.first_name pair.new ≡ P.first_name pair.old }
    ensures second_name { P.second_name pair.new ≡ P.second_name pair.old }
    ensures back { result.back ≤ 2 * length segs.now }
    ensures flushed { result.flushed ≤ max_population * result.back }
{
    let mut freed = NOTHING_FREED;
    for seg in segs {
        freed = end_seg(first, second, pair, *seg, freed);
    }
    freed
}

/// Ends the holds of a foreign clone's segments in order.
pub fn end_segs<C: Commons, D: Commons>(
    first: &mut Worker,
    second: &mut Worker,
    c: &mut C,
    d: &mut D,
    segs: &[Seg],
) -> Freed
    requires first_limits { (C.side c.old).limits ≡ first.old.limits }
    requires first_hand { (i : ℕ) → (C.side c.old).hand i ≡ bag first.old.cache i }
    requires first_held { (i : ℕ) → bag (bases_of_packet segs.now) i ≤ (C.side c.old).holds i }
    requires second_limits { (D.side d.old).limits ≡ second.old.limits }
    requires second_hand { (i : ℕ) → (D.side d.old).hand i ≡ bag second.old.cache i }
    requires second_held { (i : ℕ) → bag (own_of_packet segs.now) i ≤ (D.side d.old).holds i }
    requires few { length segs.now ≤ max_segs }
    ensures calls { BothCalls C.did C.side c.old c.new D.did D.side d.old d.new (λ firsts seconds.
        EndsForeign first.old.limits second.old.limits segs.now first.old.cache second.old.cache
        freed_nothing firsts seconds first.new.cache second.new.cache result) }
    ensures first { LostHolds (bases_of_packet segs.now) first.old (C.side c.old) first.new (C.side c.new) }
    ensures second { LostHolds (own_of_packet segs.now) second.old (D.side d.old) second.new (D.side d.new) }
    ensures back { result.back ≤ 2 * length segs.now }
    ensures flushed { result.flushed ≤ max_population * result.back }
{
    end_each(first, second, &mut Both { c, d }, segs)
}
