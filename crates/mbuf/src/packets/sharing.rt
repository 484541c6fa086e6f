//! Packets that share buffers: what is attached, detached and cloned, and how many hold an element.
ghost use Rattle.std.specs.Prelude.{◌≡◌, [], ◌∷◌, ℕ, IfOk, OnErr, None, Some, slice_index_or};
ghost use Rattle.commons.specs.Calls.{Calls};
ghost use Rattle.mbuf.specs.Own.{Own, OwnWithGuests, StaysOwn};
ghost use Rattle.mbuf.specs.Fresh.{AreFresh, own_in_slots};
ghost use Rattle.mbuf.specs.Sharing.{Attaches, Clones, CountsOf, Detaches, detachable, pair_in};
ghost use Rattle.mbuf.specs.inside.Cloning.{ArePair, IsIndirect};
ghost use Rattle.commons.specs.Packets.{HasItsData};

use super::{Packets, Pid};
use crate::freed::Freed;
use crate::{clones, steps};
use commons::packet::Seg;
use commons::refusal::Refusal;
use commons::shared::Commons;

impl Packets {
    /// The element of the packet in one slot, which has one direct segment, and the first segment
    /// of the packet in another.
    fn pair(&self, mi: Pid, target: Pid) -> Result<(u32, Seg), Refusal>
        ensures pair { result ≡ pair_in self.now mi target }
        ensures are { IfOk result (ArePair self.now.table mi target) }
        ensures data { IfOk result (λ pair. HasItsData pair.1) }
    {
        let Some(slot) = self.slot(mi) else {
            return Err(Refusal::NoSuchPacket);
        };
        let Some(other) = self.slot(target) else {
            return Err(Refusal::NoSuchPacket);
        };
        if slot == other {
            return Err(Refusal::SamePacket);
        }
        let segs = self.packets[slot].segs();
        let first = self.packets[other].segs()[0];
        if segs.len() > 1 {
            return Err(Refusal::TooManySegs);
        }
        match segs[0].base {
            Some(_) => Err(Refusal::NotDirect),
            None => Ok((segs[0].elem, first)),
        }
    }

    /// Attaches the packet in the slot `mi`, which has one direct segment that nothing else holds,
    /// to the buffer of the first segment of the packet in the slot `target`, with its lengths.
    /// The direct element whose buffer that is, the segment's base or itself, has one hold more.
    ///
    /// Refused `NoSuchPacket` where no packet stands in one of the slots, `SamePacket` where they
    /// are one, `TooManySegs` where the packet to attach has several segments, `NotDirect` where it
    /// is indirect, `InUse` where a count other than 1 was read of its element, and `RefSpent` or
    /// `Contended` as the raise of the buffer's count is. Nothing changes then.
    ///
    /// After rte_mbuf.h, `rte_pktmbuf_attach` (DPDK 21.11), which asserts that the packet to
    /// attach is direct and its count is 1, only in builds with `RTE_ENABLE_ASSERT`, and asks
    /// nothing else.
    pub fn attach<C: Commons>(&mut self, c: &mut C, mi: Pid, target: Pid) -> Result<(), Refusal>
        requires own { OwnWithGuests self.old (C.side c.old) }
        ensures calls { Calls C.did C.side c.old c.new (λ calls.
            Attaches self.old mi target calls result self.new) }
        ensures own { Own self.old (C.side c.old) → Own self.new (C.side c.new) }
        ensures guests { StaysOwn self.old (C.side c.old) self.new (C.side c.new) }
        ensures refused { OnErr result ((C.side c.new ≡ C.side c.old) × (self.new ≡ self.old)) }
    {
        let (elem, seg) = self.pair(mi, target)?;
        let attached = clones::attach(c, elem, seg)?;
        self.packets[mi as usize].restart(attached);
        Ok(())
    }

    /// The element of the packet in a slot, which has one indirect segment, and its base.
    fn indirect(&self, p: Pid) -> Result<(u32, u32), Refusal>
        ensures pair { result ≡ detachable (slice_index_or self.now.table p None) }
        ensures is { IfOk result (IsIndirect self.now.table p) }
    {
        let Some(slot) = self.slot(p) else {
            return Err(Refusal::NoSuchPacket);
        };
        let segs = self.packets[slot].segs();
        if segs.len() > 1 {
            return Err(Refusal::TooManySegs);
        }
        match segs[0].base {
            Some(base) => Ok((segs[0].elem, base)),
            None => Err(Refusal::NotIndirect),
        }
    }

    /// Gives a packet of one indirect segment its own buffer back: the hold of its base ends, which
    /// is put back through the cache where that was the last one, and the packet is as a fresh one.
    ///
    /// Refused `NoSuchPacket` where no packet stands there, `TooManySegs` where it has several
    /// segments, and `NotIndirect` where its segment is direct. Nothing changes then.
    ///
    /// After rte_mbuf.h, `rte_pktmbuf_detach` (DPDK 21.11).
    pub fn detach<C: Commons>(&mut self, c: &mut C, p: Pid) -> Result<Freed, Refusal>
        requires own { OwnWithGuests self.old (C.side c.old) }
        ensures calls { Calls C.did C.side c.old c.new (λ calls.
            Detaches self.old p calls result self.new) }
        ensures own { Own self.old (C.side c.old) → Own self.new (C.side c.new) }
        ensures guests { StaysOwn self.old (C.side c.old) self.new (C.side c.new) }
        ensures refused { OnErr result ((C.side c.new ≡ C.side c.old) × (self.new ≡ self.old)) }
    {
        let (elem, base) = self.indirect(p)?;
        let freed = steps::end_hold(&mut self.worker, c, base, steps::NOTHING_FREED);
        let fresh = steps::fresh(self.worker.limits(), self.headroom, elem);
        self.packets[p as usize].restart(fresh);
        Ok(freed)
    }

    /// Clones a packet: for each of its segments in order an element is got through the cache,
    /// claimed and attached to the segment's buffer. The clone stands in the lowest free slot,
    /// which is the answer.
    ///
    /// Refused `NoSuchPacket` where no packet stands there, `PacketsFull` where no slot is free,
    /// else as the first get or raise is that is refused: `NoEntries`, `Contended`, `HeadSpent` or
    /// `RefSpent`. The clones so far are then freed in order, then an element that was got and not
    /// attached is put back; packets, holds and headers are as before, and so are the free
    /// elements, though cache and stack may share them out differently.
    ///
    /// After rte_mbuf.h, `rte_pktmbuf_clone` (DPDK 21.11).
    pub fn clone_packet<C: Commons>(&mut self, c: &mut C, p: Pid) -> Result<Pid, Refusal>
        requires own { OwnWithGuests self.old (C.side c.old) }
        ensures calls { Calls C.did C.side c.old c.new (λ calls.
            Clones self.old p calls result self.new) }
        ensures holds_err { OnErr result ((i : ℕ) → (C.side c.new).holds i ≡ (C.side c.old).holds i) }
        ensures headers_err { OnErr result ((i : ℕ) → (C.side c.new).headers i ≡ (C.side c.old).headers i) }
        ensures table_err { OnErr result (self.new.table ≡ self.old.table) }
        ensures fresh { IfOk result
            (λ slot. AreFresh self.old.limits.population (C.side c.old).holds
            (own_in_slots self.new.table (slot ∷ []))) }
        ensures own { Own self.old (C.side c.old) → Own self.new (C.side c.new) }
        ensures guests { StaysOwn self.old (C.side c.old) self.new (C.side c.new) }
    {
        let Some(source) = self.slot(p) else {
            return Err(Refusal::NoSuchPacket);
        };
        let Some(lowest) = self.free.lowest() else {
            return Err(Refusal::PacketsFull);
        };
        match clones::clone_segs(&mut self.worker, c, &mut self.packets, source, lowest) {
            Ok(()) => {
                self.free.take(lowest);
                Ok(lowest as Pid)
            }
            Err(cause) => Err(cause),
        }
    }

    /// The reference count of a packet's first segment's own element: how many holds all packets
    /// have of it, as read at one moment of the call.
    ///
    /// Refused `NoSuchPacket` where no packet stands there. Nothing changes then.
    ///
    /// After rte_mbuf.h, `rte_mbuf_refcnt_read` (DPDK 21.11).
    pub fn count_of<C: Commons>(&self, c: &mut C, p: Pid) -> Result<u32, Refusal>
        requires own { OwnWithGuests self.now (C.side c.old) }
        ensures calls { Calls C.did C.side c.old c.new (λ calls.
            CountsOf (slice_index_or self.now.table p None) calls result) }
        ensures own { Own self.now (C.side c.old) → Own self.now (C.side c.new) }
        ensures guests { StaysOwn self.now (C.side c.old) self.now (C.side c.new) }
        ensures refused { OnErr result (C.side c.new ≡ C.side c.old) }
    {
        match self.place(p) {
            Some(packet) => Ok(c.count(packet.segs()[0].elem)),
            None => Err(Refusal::NoSuchPacket),
        }
    }
}
