//! Packets that are made of new elements: an element is got and claimed, and its packet stands in
//! the lowest free slot.
ghost use Rattle.std.specs.Prelude.{◌≡◌, ◌<◌, ◌≤◌, ◌+◌, [], ◌∷◌, ℕ, IfOk, OnOk, OnErr, Some, length, map, slice_set, take};
ghost use Rattle.commons.specs.Bag.{bag};
ghost use Rattle.commons.specs.Calls.{Calls, Claim, Did, with_list};
ghost use Rattle.mbuf.specs.Members.{slots};
ghost use Rattle.mbuf.specs.Own.{Own, OwnWithGuests, StaysOwn};
ghost use Rattle.mbuf.specs.PacketRules.{Allocs, AllocsBulk, free_slot, free_slots, fresh_seg, stood};
ghost use Rattle.mbuf.specs.Fresh.{AreFresh, own_in_slots};

use super::{Packets, Pid};
use crate::steps;
use commons::refusal::Refusal;
use commons::shared::Commons;

impl Packets {
    /// Claims an element of the hand, and lets its fresh packet stand in the lowest free slot,
    /// whose number it answers.
    #[inline(always)]
    fn stand<C: Commons>(&mut self, c: &mut C, elem: u32, slot: usize) -> Pid
        requires hand { 0 < (C.side c.old).hand elem }
        requires lowest { free_slot self.old.table ≡ Some slot }
        ensures did { Did C.did C.side c.old (Claim elem) c.new }
        ensures slot { result ≡ slot }
        ensures stood { self.new ≡ record self.old {
          table = slice_set self.old.table slot (Some (fresh_seg self.old.limits elem ∷ []));
        } }
    {
        c.claim(elem);
        let seg = steps::fresh(self.worker.limits(), self.headroom, elem);
        self.packets[slot].restart(seg);
        self.free.take(slot);
        slot as Pid
    }

    /// Claims elements of the hand in turn, and puts the slots of their packets in their places.
    fn stand_all<C: Commons>(&mut self, c: &mut C, out: &mut [u32])
        requires hand { (i : ℕ) → bag out.old i ≤ (C.side c.old).hand i }
        requires free { length out.old ≤ length (free_slots self.old.table) }
        ensures calls { Calls C.did C.side c.old c.new (λ calls. calls ≡ map Claim out.old) }
        ensures slots { out.new ≡ take (length out.old) (free_slots self.old.table) }
        ensures stood { self.new ≡ record self.old {
          table = stood self.old.limits out.old out.new self.old.table;
        } }
        ensures hand { (i : ℕ) → (C.side c.old).hand i ≡ (C.side c.new).hand i + bag out.old i }
        ensures holds { (i : ℕ) → (C.side c.new).holds i ≡ (C.side c.old).holds i + bag out.old i }
        ensures headers { (i : ℕ) → (C.side c.new).headers i ≡ (C.side c.old).headers i + bag out.old i }
        ensures limits { (C.side c.new).limits ≡ (C.side c.old).limits }
    {
        for place in 0..out.len() {
            let slot = self.free.lowest().unwrap();
            out[place] = self.stand(c, out[place], slot);
        }
    }

    /// Makes a packet of one element, in the lowest free slot, and answers its slot.
    ///
    /// Refused `PacketsFull` where no slot is free, else as the cache's get of one element is:
    /// `NoEntries`, `Contended` or `HeadSpent`. Packets, cache and holds are then as before.
    ///
    /// After rte_mbuf.h, `rte_pktmbuf_alloc` (DPDK 21.11). The table of packets is our own.
    #[inline(always)]
    pub fn alloc<C: Commons>(&mut self, c: &mut C) -> Result<Pid, Refusal>
        requires own { OwnWithGuests self.old (C.side c.old) }
        ensures calls { Calls C.did C.side c.old c.new (λ calls.
            Allocs self.old calls result self.new) }
        ensures fresh { IfOk result
            (λ slot. AreFresh self.old.limits.population (C.side c.old).holds
            (own_in_slots self.new.table (slot ∷ []))) }
        ensures own { Own self.old (C.side c.old) → Own self.new (C.side c.new) }
        ensures guests { StaysOwn self.old (C.side c.old) self.new (C.side c.new) }
        ensures refused { OnErr result ((C.side c.new ≡ C.side c.old) × (self.new ≡ self.old)) }
    {
        let Some(slot) = self.free.lowest() else {
            return Err(Refusal::PacketsFull);
        };
        match self.worker.get_one(c) {
            Ok(elem) => Ok(self.stand(c, elem, slot)),
            Err(cause) => Err(cause),
        }
    }

    /// Makes `out.len()` packets of one element each, all of them or none, in the lowest free
    /// slots, and answers their slots in `out`. The elements come from one get, and the packets
    /// stand in their order. An empty `out` takes no step.
    ///
    /// Refused `PacketsFull` where fewer slots are free, else as the cache's get of that many
    /// elements is: `NoEntries`, `Contended` or `HeadSpent`. Packets, cache and holds are then as
    /// before, and nothing is said of `out`.
    ///
    /// After rte_mbuf.h, `rte_pktmbuf_alloc_bulk` (DPDK 21.11). The table of packets is our own.
    pub fn alloc_bulk<C: Commons>(&mut self, c: &mut C, out: &mut [Pid]) -> Result<(), Refusal>
        requires own { OwnWithGuests self.old (C.side c.old) }
        ensures calls { Calls C.did C.side c.old c.new (λ calls.
            AllocsBulk self.old (length out.old) calls (with_list result out.new) self.new) }
        ensures fresh { OnOk result
            (AreFresh self.old.limits.population (C.side c.old).holds
            (own_in_slots self.new.table out.new)) }
        ensures own { Own self.old (C.side c.old) → Own self.new (C.side c.new) }
        ensures guests { StaysOwn self.old (C.side c.old) self.new (C.side c.new) }
        ensures refused { OnErr result ((C.side c.new ≡ C.side c.old) × (self.new ≡ self.old)) }
    {
        if self.free.count() < out.len() {
            return Err(Refusal::PacketsFull);
        }
        match self.worker.get_bulk(c, out) {
            Ok(()) => {
                self.stand_all(c, out);
                Ok(())
            }
            Err(cause) => Err(cause),
        }
    }
}
