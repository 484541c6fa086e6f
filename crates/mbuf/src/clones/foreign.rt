//! Packets of one pool that are cloned into elements of another, a segment at a time.

ghost use Rattle.std.specs.Prelude.{◌≡◌, ◌<◌, ◌≤◌, ◌+◌, ◌++◌, ℕ, length, OnOk, OnErr, IfOk};
ghost use Rattle.commons.specs.Bag.{bag};
ghost use Rattle.commons.specs.Packets.{HasItsData, IsPacket, hold_of, holds_of_packet, own_of_packet, max_segs};
ghost use Rattle.mempool.specs.WorkerCache.{KeepsNumber};
ghost use Rattle.mbuf.specs.Foreign.{BothCalls, bases_of_packet};
ghost use Rattle.mbuf.specs.Sharing.{buffer_of as buffer};
ghost use Rattle.mbuf.specs.inside.Cloning.{new_headers};
ghost use Rattle.mbuf.specs.inside.Ending.{LostHolds};
ghost use Rattle.mbuf.specs.inside.ForeignSteps.{GivesBack, TriesForeign, TriesForeignSeg, new_bases};

use super::{Stop, attached, buffer_of, fit, follow};
use crate::freed::Freed;
use crate::steps::foreign;
use commons::packet::{Packet, Seg};
use commons::refusal::Refusal;
use commons::shared::Commons;
use mempool::worker::Worker;

/// Clones a segment: gets an element of the second pool, claims it, and lets it use the segment's
/// buffer in the first.
#[tactic(auto, using(commons::proofs::Bags::bags))]
fn clone_seg<C: Commons, D: Commons>(
    second: &mut Worker,
    c: &mut C,
    d: &mut D,
    seg: Seg,
) -> Result<Seg, Stop>
    requires first_held { 0 < (C.side c.old).holds (buffer seg) }
    requires data { HasItsData seg }
    requires second_limits { (D.side d.old).limits ≡ second.old.limits }
    requires second_hand { (i : ℕ) → (D.side d.old).hand i ≡ bag second.old.cache i }
    ensures calls { BothCalls C.did C.side c.old c.new D.did D.side d.old d.new (λ firsts seconds.
        TriesForeignSeg second.old.limits seg second.old.cache firsts seconds result second.new.cache) }
    ensures data { IfOk result HasItsData }
    ensures first_hand { (i : ℕ) → (C.side c.new).hand i ≡ (C.side c.old).hand i }
    ensures first_holds { (i : ℕ) → (C.side c.new).holds i ≡ (C.side c.old).holds i + bag (new_bases result) i }
    ensures first_headers { (i : ℕ) → (C.side c.new).headers i ≡ (C.side c.old).headers i }
    ensures first_limits { (C.side c.new).limits ≡ (C.side c.old).limits }
    ensures second_hand { (i : ℕ) → (D.side d.new).hand i ≡ bag second.new.cache i }
    ensures second_holds { (i : ℕ) → (D.side d.new).holds i ≡ (D.side d.old).holds i + bag (new_headers result) i }
    ensures second_headers { (i : ℕ) → (D.side d.new).headers i
        ≡ (D.side d.old).headers i + bag (new_headers result) i }
    ensures unheld { (i : ℕ) → 0 < bag (new_headers result) i → (D.side d.old).holds i ≡ 0 }
    ensures second_limits { (D.side d.new).limits ≡ (D.side d.old).limits }
    ensures second_number { KeepsNumber second.old second.new }
{
    let elem = match second.get_one(d) {
        Ok(elem) => elem,
        Err(cause) => return Err(Stop { cause, over: None }),
    };
    d.claim(elem);
    match c.raise(buffer_of(seg)) {
        Ok(()) => Ok(attached(elem, seg)),
        Err(cause) => Err(Stop {
            cause,
            over: Some(elem),
        }),
    }
}

/// Ends the holds of clones in order, and then that of an element that is left over.
#[tactic(auto, using(commons::proofs::Bags::bags))]
fn give_up<C: Commons, D: Commons>(
    first: &mut Worker,
    second: &mut Worker,
    c: &mut C,
    d: &mut D,
    segs: &[Seg],
    over: Option<u32>,
)
    requires first_limits { (C.side c.old).limits ≡ first.old.limits }
    requires first_hand { (i : ℕ) → (C.side c.old).hand i ≡ bag first.old.cache i }
    requires first_held { (i : ℕ) → bag (bases_of_packet segs.now) i ≤ (C.side c.old).holds i }
    requires second_limits { (D.side d.old).limits ≡ second.old.limits }
    requires second_hand { (i : ℕ) → (D.side d.old).hand i ≡ bag second.old.cache i }
    requires second_held { (i : ℕ) → bag (own_of_packet segs.now) i + bag (hold_of over) i
        ≤ (D.side d.old).holds i }
    requires few { length segs.now < max_segs }
    ensures calls { BothCalls C.did C.side c.old c.new D.did D.side d.old d.new (λ firsts seconds.
        GivesBack first.old.limits second.old.limits segs.now over first.old.cache second.old.cache
        firsts seconds first.new.cache second.new.cache) }
    ensures first { LostHolds (bases_of_packet segs.now) first.old (C.side c.old) first.new (C.side c.new) }
    ensures second { LostHolds (own_of_packet segs.now ++ hold_of over) second.old (D.side d.old)
        second.new (D.side d.new) }
{
    let freed = foreign::end_segs(first, second, c, d, segs);
    let _freed = foreign::end_if(second, d, over, freed);
}

/// Clones segments into the packet, all of them, or none.
#[tactic(auto, using(commons::proofs::Bags::bags))]
pub fn clone_segs<C: Commons, D: Commons>(
    first: &mut Worker,
    second: &mut Worker,
    c: &mut C,
    d: &mut D,
    segs: &[Seg],
    packet: &mut Packet,
) -> Result<(), Refusal>
    requires segs { IsPacket segs.now }
    requires first_limits { (C.side c.old).limits ≡ first.old.limits }
    requires first_hand { (i : ℕ) → (C.side c.old).hand i ≡ bag first.old.cache i }
    requires first_held { (i : ℕ) → bag (holds_of_packet segs.now) i ≤ (C.side c.old).holds i }
    requires second_limits { (D.side d.old).limits ≡ second.old.limits }
    requires second_hand { (i : ℕ) → (D.side d.old).hand i ≡ bag second.old.cache i }
    ensures calls { BothCalls C.did C.side c.old c.new D.did D.side d.old d.new (λ firsts seconds.
        TriesForeign first.old.limits second.old.limits segs.now first.old.cache second.old.cache
        firsts seconds packet.new result first.new.cache second.new.cache) }
    ensures first_hand { (i : ℕ) → (C.side c.new).hand i ≡ bag first.new.cache i }
    ensures first_holds { OnOk result
        ((i : ℕ) → (C.side c.new).holds i ≡ (C.side c.old).holds i + bag (bases_of_packet packet.new) i) }
    ensures first_holds_err { OnErr result ((i : ℕ) → (C.side c.new).holds i ≡ (C.side c.old).holds i) }
    ensures first_headers { (i : ℕ) → (C.side c.new).headers i ≡ (C.side c.old).headers i }
    ensures first_limits { (C.side c.new).limits ≡ (C.side c.old).limits }
    ensures first_number { KeepsNumber first.old first.new }
    ensures second_hand { (i : ℕ) → (D.side d.new).hand i ≡ bag second.new.cache i }
    ensures second_holds { OnOk result
        ((i : ℕ) → (D.side d.new).holds i ≡ (D.side d.old).holds i + bag (own_of_packet packet.new) i) }
    ensures second_holds_err { OnErr result ((i : ℕ) → (D.side d.new).holds i ≡ (D.side d.old).holds i) }
    ensures second_headers { OnOk result
        ((i : ℕ) → (D.side d.new).headers i ≡ (D.side d.old).headers i + bag (own_of_packet packet.new) i) }
    ensures second_headers_err { OnErr result
        ((i : ℕ) → (D.side d.new).headers i ≡ (D.side d.old).headers i) }
    ensures unheld { OnOk result
        ((i : ℕ) → 0 < bag (own_of_packet packet.new) i → (D.side d.old).holds i ≡ 0) }
    ensures second_limits { (D.side d.new).limits ≡ (D.side d.old).limits }
    ensures second_number { KeepsNumber second.old second.new }
{
    fit(packet, segs.len());
    for index in 0..segs.len() {
        match clone_seg(second, c, d, segs[index]) {
            Ok(new) => follow(packet, index, new),
            Err(stop) => {
                give_up(first, second, c, d, &packet.segs()[..index], stop.over);
                return Err(stop.cause);
            }
        }
    }
    Ok(())
}
