//! A worker of two pools: its packets of the first, and clones of them whose own elements are of
//! the second.

ghost use Rattle.std.specs.Prelude.{◌≡◌, ◌≤◌, [], ◌∷◌, IfOk, IfErr, OnErr, None, replicate, slice_index_or};
ghost use Rattle.commons.specs.Bounds.{IsPool};
ghost use Rattle.commons.specs.Calls.{Calls};
ghost use Rattle.mbuf.specs.Acts.{HasRoom, Performs, as_reply};
ghost use Rattle.mbuf.specs.Foreign.{BothCalls, ClonesInto, FreesForeign};
ghost use Rattle.mbuf.specs.Fresh.{AreFresh, new_elements, own_in_slots};
ghost use Rattle.mbuf.specs.Lengths.{adjusted, trimmed};
ghost use Rattle.mbuf.specs.Members.{KeepsMember, slots};
ghost use Rattle.mbuf.specs.PacketRules.{Resizes};
ghost use Rattle.mbuf.specs.Refused.{AsBefore, IfRefused, PacketsAsBefore};
ghost use Rattle.mbuf.specs.Sharing.{CountsOf};
ghost use Rattle.mbuf.specs.Twins.{IsTwinCause, OwnTwin};

use crate::acts::{Act, Answer, Reply, perform, perform_in};
use crate::freed::Freed;
use crate::packets::{Packets, Pid};
use commons::change::Change;
use commons::limits::Limits;
use commons::refusal::Refusal;
use commons::shared::Commons;
use std::alloc::Global;
use std::marker::Model;

/// A worker of two pools. Of the first it has a cache and packets, and of the second a cache and up
/// to 256 foreign clones: packets whose own elements are of the second pool, and whose bases are of
/// the first. It can't be dropped: `lose` ends it.
///
/// Each call takes the shared part of either pool. In DPDK the second pool is one of mbufs without
/// buffers of their own, to which the buffers of the first are attached (Programmer's Guide, Mbuf
/// Library, "Direct and Indirect Buffers").
pub struct Twin {
    first: Packets,
    second: Packets,
}

impl Model for Twin {
    ghost use Rattle.mbuf.specs.Twins.{TwinMember};

    ghost Value = { TwinMember };

    ghost use Rattle.mbuf.specs.inside.Twins.{twin_of, IsKept};

    ghost view = { twin_of };

    ghost invariant = { IsKept };
}

impl Twin {
    /// A worker with two empty caches and no packets. No other call takes memory.
    ///
    /// Refused `BadPool` where either limits are out of range or have no worker of this number, else
    /// `OutOfMemory` where memory was refused.
    pub fn make(
        alloc: Global,
        first: &Limits,
        second: &Limits,
        number: u32,
    ) -> Result<Twin, Refusal>
        ensures first { IfOk result (λ t. t.first ≡ record {
          limits = first.now;
          number = number;
          cache = [];
          table = replicate slots None;
        }) }
        ensures second { IfOk result (λ t. t.second ≡ record {
          limits = second.now;
          number = number;
          cache = [];
          table = replicate slots None;
        }) }
        ensures first_pool { IfOk result (λ t. IsPool first.now × (1 ≤ number) × (number ≤ first.now.workers)) }
        ensures second_pool { IfOk result (λ t. IsPool second.now × (number ≤ second.now.workers)) }
        ensures cause { IfErr result (IsTwinCause first.now second.now number) }
    {
        second.check()?;
        if u64::from(number) > second.workers {
            return Err(Refusal::BadPool);
        }
        let first = Packets::make(alloc, first, number)?;
        match Packets::make(alloc, second, number) {
            Ok(second) => Ok(Twin { first, second }),
            Err(cause) => {
                first.lose();
                Err(cause)
            }
        }
    }

    /// Ends the worker, its packets and its clones, and gives nothing back.
    pub fn lose(self) {
        let Twin { first, second } = self;
        first.lose();
        second.lose();
    }

    /// What the worker has of the first pool, and what it has of the second, where foreign clones
    /// stand as packets.
    pub fn into_parts(self) -> (Packets, Packets)
        ensures first { result.0 ≡ self.first }
        ensures second { result.1 ≡ self.second }
        ensures number { self.second.number ≡ self.first.number }
    {
        let Twin { first, second } = self;
        (first, second)
    }

    /// The worker's number, from 1.
    pub fn worker(&self) -> u32
        ensures first { result ≡ self.now.first.number }
        ensures second { result ≡ self.now.second.number }
    {
        self.first.worker()
    }

    /// The worker's cache and packets of the first pool.
    pub fn first(&self) -> &Packets
        ensures { result.now ≡ self.now.first }
    {
        &self.first
    }

    /// The worker's cache of the second pool and its foreign clones, which stand there as packets.
    pub fn second(&self) -> &Packets
        ensures { result.now ≡ self.now.second }
    {
        &self.second
    }

    /// Lets the worker do this with its packets of the first pool, and answers what came of it. The
    /// second pool is asked nothing.
    ///
    /// Refused as `acts::perform` is.
    pub fn perform_first<C: Commons, D: Commons>(&mut self, c: &mut C, d: &mut D, act: Act) -> Reply
        requires own { OwnTwin self.old (C.side c.old) (D.side d.old) }
        ensures calls { Calls C.did C.side c.old c.new (λ firsts.
            Performs act self.old.first firsts result self.new.first) }
        ensures no_call { d.new ≡ d.old }
        ensures second { self.new.second ≡ self.old.second }
        ensures fresh { AreFresh self.old.first.limits.population (C.side c.old).holds
            (new_elements result) }
        ensures own { OwnTwin self.new (C.side c.new) (D.side d.new) }
        ensures refused { IfRefused result
            (AsBefore act self.old.first (C.side c.old) self.new.first (C.side c.new)) }
        ensures member { KeepsMember self.old.first self.new.first }
    {
        perform(&mut self.first, c, act)
    }

    /// Does what `perform_first` does, and answers with room for a bulk of `ROOM` packets: with
    /// none the answer is small.
    pub fn perform_first_in<C: Commons, D: Commons, const ROOM: usize>(
        &mut self,
        c: &mut C,
        d: &mut D,
        act: Act,
    ) -> Answer<ROOM>
        requires room { HasRoom ROOM act }
        requires own { OwnTwin self.old (C.side c.old) (D.side d.old) }
        ensures calls { Calls C.did C.side c.old c.new (λ firsts.
            Performs act self.old.first firsts (as_reply result) self.new.first) }
        ensures no_call { d.new ≡ d.old }
        ensures second { self.new.second ≡ self.old.second }
        ensures fresh { AreFresh self.old.first.limits.population (C.side c.old).holds
            (new_elements (as_reply result)) }
        ensures own { OwnTwin self.new (C.side c.new) (D.side d.new) }
        ensures refused { IfRefused (as_reply result)
            (AsBefore act self.old.first (C.side c.old) self.new.first (C.side c.new)) }
        ensures member { KeepsMember self.old.first self.new.first }
    {
        perform_in(&mut self.first, c, act)
    }

    /// Clones a packet of the first pool into a foreign clone: for each of its segments in order an
    /// element is got through the cache of the second pool and claimed, and attached to the
    /// segment's buffer, whose count is raised in the first. The clone stands in the lowest free
    /// slot of the foreign clones, which is the answer.
    ///
    /// Refused `NoSuchPacket` where no packet stands there, `PacketsFull` where no slot is free,
    /// else as the first get or raise is that is refused: `NoEntries`, `Contended` or `HeadSpent`
    /// in the second pool, `Contended` or `RefSpent` in the first. The clones so far are then freed
    /// in order, then an element that was got and not attached is put back; packets, clones, holds
    /// and headers are as before on both sides, and so are the free elements, though cache and
    /// stack may share them out otherwise.
    ///
    /// After rte_mbuf.h, `rte_pktmbuf_clone` (DPDK 21.11), with a second pool.
    pub fn clone_into<C: Commons, D: Commons>(
        &mut self,
        c: &mut C,
        d: &mut D,
        p: Pid,
    ) -> Result<Pid, Refusal>
        requires own { OwnTwin self.old (C.side c.old) (D.side d.old) }
        ensures calls { BothCalls C.did C.side c.old c.new D.did D.side d.old d.new (λ firsts seconds.
            ClonesInto self.old.first self.old.second p firsts seconds result self.new.first self.new.second) }
        ensures own { OwnTwin self.new (C.side c.new) (D.side d.new) }
        ensures fresh { IfOk result
            (λ slot. AreFresh self.old.second.limits.population (D.side d.old).holds
            (own_in_slots self.new.second.table (slot ∷ []))) }
        ensures first_refused { OnErr result
            (PacketsAsBefore self.old.first (C.side c.old) self.new.first (C.side c.new)) }
        ensures second_refused { OnErr result
            (PacketsAsBefore self.old.second (D.side d.old) self.new.second (D.side d.new)) }
    {
        self.second.clone_foreign(&mut self.first, c, d, p)
    }

    /// Takes `len` bytes off the front of a foreign clone's first segment, and answers the clone's
    /// new length in bytes. Neither pool is asked.
    ///
    /// Refused `NoSuchPacket` where no clone stands there, and `TooShort` where the first segment
    /// has fewer bytes of data. Nothing changes then.
    ///
    /// After rte_mbuf.h, `rte_pktmbuf_adj` (DPDK 21.11).
    pub fn adj_clone<C: Commons, D: Commons>(
        &mut self,
        c: &mut C,
        d: &mut D,
        p: Pid,
        len: u16,
    ) -> Result<u32, Refusal>
        requires own { OwnTwin self.old (C.side c.old) (D.side d.old) }
        ensures resized { Resizes (adjusted len) Refusal.TooShort self.old.second p result self.new.second }
        ensures first { self.new.first ≡ self.old.first }
        ensures first_no_call { c.new ≡ c.old }
        ensures second_no_call { d.new ≡ d.old }
        ensures own { OwnTwin self.new (C.side c.new) (D.side d.new) }
    {
        self.second.resize(p, Change::Adj(len))
    }

    /// Takes `len` bytes off the end of a foreign clone's last segment, and answers the clone's new
    /// length in bytes. Neither pool is asked.
    ///
    /// Refused `NoSuchPacket` where no clone stands there, and `TooShort` where the last segment
    /// has fewer bytes of data. Nothing changes then.
    ///
    /// After rte_mbuf.h, `rte_pktmbuf_trim` (DPDK 21.11).
    pub fn trim_clone<C: Commons, D: Commons>(
        &mut self,
        c: &mut C,
        d: &mut D,
        p: Pid,
        len: u16,
    ) -> Result<u32, Refusal>
        requires own { OwnTwin self.old (C.side c.old) (D.side d.old) }
        ensures resized { Resizes (trimmed len) Refusal.TooShort self.old.second p result self.new.second }
        ensures first { self.new.first ≡ self.old.first }
        ensures first_no_call { c.new ≡ c.old }
        ensures second_no_call { d.new ≡ d.old }
        ensures own { OwnTwin self.new (C.side c.new) (D.side d.new) }
    {
        self.second.resize(p, Change::Trim(len))
    }

    /// The reference count of a foreign clone's first segment's own element, as the second pool
    /// gives it at one moment of the call.
    ///
    /// Refused `NoSuchPacket` where no clone stands there. Nothing changes then.
    ///
    /// After rte_mbuf.h, `rte_mbuf_refcnt_read` (DPDK 21.11).
    pub fn count_clone<C: Commons, D: Commons>(
        &self,
        c: &mut C,
        d: &mut D,
        p: Pid,
    ) -> Result<u32, Refusal>
        requires own { OwnTwin self.now (C.side c.old) (D.side d.old) }
        ensures calls { Calls D.did D.side d.old d.new (λ seconds.
            CountsOf (slice_index_or self.now.second.table p None) seconds result) }
        ensures no_call { c.new ≡ c.old }
        ensures own { OwnTwin self.now (C.side c.new) (D.side d.new) }
        ensures refused { OnErr result (D.side d.new ≡ D.side d.old) }
    {
        self.second.count_foreign(d, p)
    }

    /// Frees a foreign clone: of each of its segments in order the base's hold ends in the first
    /// pool, and then its own element's in the second. An element whose last hold went is put back
    /// through the cache of its pool.
    ///
    /// Refused `NoSuchPacket` where no clone stands there; nothing changes then. A push that a
    /// stack refuses is not a refusal: `put_off` tells of the last one, and the elements stay in
    /// the cache.
    ///
    /// After rte_mbuf.h, `rte_pktmbuf_free` (DPDK 21.11). That a base's hold ends before its
    /// segment's own is our order.
    pub fn free_clone<C: Commons, D: Commons>(
        &mut self,
        c: &mut C,
        d: &mut D,
        p: Pid,
    ) -> Result<Freed, Refusal>
        requires own { OwnTwin self.old (C.side c.old) (D.side d.old) }
        ensures calls { BothCalls C.did C.side c.old c.new D.did D.side d.old d.new (λ firsts seconds.
            FreesForeign self.old.first self.old.second p firsts seconds result self.new.first self.new.second) }
        ensures own { OwnTwin self.new (C.side c.new) (D.side d.new) }
        ensures first_refused { OnErr result ((C.side c.new ≡ C.side c.old) × (self.new.first ≡ self.old.first)) }
        ensures second_refused { OnErr result ((D.side d.new ≡ D.side d.old) × (self.new.second ≡ self.old.second)) }
    {
        self.second.free_foreign(&mut self.first, c, d, p)
    }
}
