//! Packets that are freed, and the cache that goes back to the common stack.
ghost use Rattle.std.specs.Prelude.{◌≡◌, OnErr, Some};
ghost use Rattle.commons.specs.Calls.{Calls};
ghost use Rattle.mempool.specs.Caches.{Flushes};
ghost use Rattle.mbuf.specs.Own.{Own, OwnWithGuests, StaysOwn};
ghost use Rattle.mbuf.specs.PacketRules.{Frees};

use super::{Packets, Pid};
use crate::freed::Freed;
use crate::steps;
use commons::refusal::Refusal;
use commons::shared::Commons;
use mempool::put::Put;

impl Packets {
    /// Frees a packet: its holds end in order, of each segment its base's first and then its own,
    /// and an element whose last hold went is put back through the cache.
    ///
    /// Refused `NoSuchPacket` where no packet stands there; nothing changes then. A push that the
    /// stack refuses is not a refusal: `put_off` tells of the last one, and the elements stay in
    /// the cache.
    ///
    /// After rte_mbuf.h, `rte_pktmbuf_free` (DPDK 21.11). That a base's hold ends before its
    /// segment's own is our order.
    #[inline(always)]
    pub fn free<C: Commons>(&mut self, c: &mut C, p: Pid) -> Result<Freed, Refusal>
        requires own { OwnWithGuests self.old (C.side c.old) }
        ensures calls { Calls C.did C.side c.old c.new (λ calls.
            Frees self.old p calls result self.new) }
        ensures own { Own self.old (C.side c.old) → Own self.new (C.side c.new) }
        ensures guests { StaysOwn self.old (C.side c.old) self.new (C.side c.new) }
        ensures refused { OnErr result ((C.side c.new ≡ C.side c.old) × (self.new ≡ self.old)) }
    {
        let Some(slot) = self.slot(p) else {
            return Err(Refusal::NoSuchPacket);
        };
        let freed = steps::end_segs(&mut self.worker, c, self.packets[slot].segs());
        self.free.give(slot);
        Ok(freed)
    }

    /// Puts the worker's whole cache onto the common stack in one push. An empty cache takes no
    /// step.
    ///
    /// After rte_mempool.h, `rte_mempool_cache_flush` (DPDK 21.11).
    pub fn flush<C: Commons>(&mut self, c: &mut C) -> Put
        requires own { OwnWithGuests self.old (C.side c.old) }
        ensures calls { Calls C.did C.side c.old c.new (λ calls.
            Flushes self.old.cache calls result self.new.cache) }
        ensures packets { self.new ≡ record self.old { cache = self.new.cache } }
        ensures own { Own self.old (C.side c.old) → Own self.new (C.side c.new) }
        ensures guests { StaysOwn self.old (C.side c.old) self.new (C.side c.new) }
    {
        self.worker.flush(c)
    }
}
