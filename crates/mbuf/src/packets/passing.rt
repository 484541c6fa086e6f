//! Packets that pass on: to the end of another packet, and to other workers over desks.
ghost use Rattle.std.specs.Prelude.{◌≡◌, ◌≢◌, ◌<◌, ◌≤◌, ◌+◌, ◌++◌, [], OnErr, Some, length, slice_index_or, slice_set, take, vec_len};
ghost use Rattle.commons.specs.Calls.{Calls};
ghost use Rattle.mbuf.specs.Own.{Own, OwnWithGuests, StaysOwn};
ghost use Rattle.mbuf.specs.PacketRules.{Chains};
ghost use Rattle.mbuf.specs.inside.Kept.{KeepsHolds};
ghost use Rattle.mbuf.specs.Desks.{Offers, Takes};
ghost use Rattle.commons.specs.Packets.{max_segs};

use super::{Packets, Pid};
use commons::packet::{MAX_SEGS, Packet};
use commons::refusal::Refusal;
use commons::shared::Commons;

impl Packets {
    /// Puts one packet's segments after another's.
    #[tactic(auto, using(crate::proofs::PacketCases::nothing))]
    fn join(&mut self, head: Pid, tail: Pid) -> Result<(), Refusal>
        ensures chained { Chains self.old head tail result self.new }
        ensures kept { KeepsHolds self.old self.new }
    {
        let Some(first) = self.slot(head) else {
            return Err(Refusal::NoSuchPacket);
        };
        let Some(second) = self.slot(tail) else {
            return Err(Refusal::NoSuchPacket);
        };
        if first == second {
            return Err(Refusal::SamePacket);
        }
        if self.packets[first].segs().len() + self.packets[second].segs().len() > MAX_SEGS {
            return Err(Refusal::TooManySegs);
        }
        push_segs(&mut self.packets, first, second);
        self.free.give(second);
        Ok(())
    }

    /// Chains two packets: the tail's segments stand after the head's last, and the tail's slot is
    /// empty.
    ///
    /// Refused `NoSuchPacket` where no packet stands in one of the slots, `SamePacket` where they
    /// are one, and `TooManySegs` where they have more than 32 segments together. Nothing changes
    /// then.
    ///
    /// After rte_mbuf.h, `rte_pktmbuf_chain` (DPDK 21.11), whose limit is 65,535.
    pub fn chain<C: Commons>(&mut self, c: &mut C, head: Pid, tail: Pid) -> Result<(), Refusal>
        requires own { OwnWithGuests self.old (C.side c.old) }
        ensures chained { Chains self.old head tail result self.new }
        ensures no_call { c.new ≡ c.old }
        ensures own { Own self.old (C.side c.old) → Own self.new (C.side c.new) }
        ensures guests { StaysOwn self.old (C.side c.old) self.new (C.side c.new) }
    {
        self.join(head, tail)
    }

    /// Leaves a packet on a desk, of which the pool has `desks`, numbered from 0, and frees its
    /// slot. All that the packet holds goes with it.
    ///
    /// Refused `NoSuchPacket` where no packet stands there, `NoSuchDesk` where the pool has no such
    /// desk, and `DeskTaken` where a desk word other than 0, that of an empty desk, was read. The
    /// packet stays in its slot then, and nothing changes.
    ///
    /// Desks are our own; DPDK passes mbufs between lcores over an `rte_ring`.
    pub fn offer<C: Commons>(&mut self, c: &mut C, p: Pid, desk: u32) -> Result<(), Refusal>
        requires own { OwnWithGuests self.old (C.side c.old) }
        ensures calls { Calls C.did C.side c.old c.new (λ calls.
            Offers self.old p desk calls result self.new) }
        ensures own { Own self.old (C.side c.old) → Own self.new (C.side c.new) }
        ensures guests { StaysOwn self.old (C.side c.old) self.new (C.side c.new) }
        ensures refused { OnErr result ((C.side c.new ≡ C.side c.old) × (self.new ≡ self.old)) }
    {
        let Some(place) = self.slot(p) else {
            return Err(Refusal::NoSuchPacket);
        };
        let packet = self.packets[place].take();
        match c.offer(desk, packet) {
            Ok(()) => {
                self.free.give(place);
                Ok(())
            }
            Err((cause, packet)) => {
                self.packets[place] = packet;
                Err(cause)
            }
        }
    }

    /// Takes the packet off a desk, of which the pool has `desks`, numbered from 0, with all that
    /// it holds. It stands in the lowest free slot, which is the answer.
    ///
    /// Refused `NoSuchDesk` where the pool has no such desk and `PacketsFull` where no slot is
    /// free, both before anything is asked of the shared pool, and `DeskEmpty` where a desk word
    /// other than 2, that of a full desk, was read. Nothing changes then.
    ///
    /// Desks are our own; DPDK passes mbufs between lcores over an `rte_ring`.
    pub fn take<C: Commons>(&mut self, c: &mut C, desk: u32) -> Result<Pid, Refusal>
        requires own { OwnWithGuests self.old (C.side c.old) }
        ensures calls { Calls C.did C.side c.old c.new (λ calls.
            Takes self.old desk calls result self.new) }
        ensures own { Own self.old (C.side c.old) → Own self.new (C.side c.new) }
        ensures guests { StaysOwn self.old (C.side c.old) self.new (C.side c.new) }
        ensures refused { OnErr result ((C.side c.new ≡ C.side c.old) × (self.new ≡ self.old)) }
    {
        if u64::from(desk) >= self.worker.limits().desks {
            return Err(Refusal::NoSuchDesk);
        }
        let Some(place) = self.free.lowest() else {
            return Err(Refusal::PacketsFull);
        };
        match c.take(desk) {
            Ok(packet) => {
                self.packets[place] = packet;
                self.free.take(place);
                Ok(place as Pid)
            }
            Err(cause) => Err(cause),
        }
    }
}

/// Puts the segments of the packet at `second` after those of the one at `first`.
fn push_segs(packets: &mut Vec<Packet>, first: usize, second: usize)
    requires first { first < vec_len packets.old }
    requires second { second < vec_len packets.old }
    requires apart { first ≢ second }
    requires few { length (slice_index_or packets.old.items first [])
        + length (slice_index_or packets.old.items second []) ≤ max_segs }
    ensures { packets.new.items ≡ slice_set packets.old.items first
        (slice_index_or packets.old.items first [] ++ slice_index_or packets.old.items second []) }
{
    for index in 0..packets[second].segs().len() {
        let seg = packets[second].segs()[index];
        packets[first].push(seg);
    }
}
