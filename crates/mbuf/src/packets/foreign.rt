//! Foreign clones: packets whose own elements are of this pool and whose bases are of a first one,
//! whose packets of the same worker stand beside.
ghost use Rattle.std.specs.Prelude.{◌≡◌, [], ◌∷◌, IfOk, OnErr, None, slice_index_or};
ghost use Rattle.commons.specs.Calls.{Calls};
ghost use Rattle.mbuf.specs.Foreign.{BothCalls, ClonesInto, FreesForeign, OwnForeign};
ghost use Rattle.mbuf.specs.Fresh.{AreFresh, own_in_slots};
ghost use Rattle.mbuf.specs.Refused.{PacketsAsBefore};
ghost use Rattle.mbuf.specs.Sharing.{CountsOf};
ghost use Rattle.mbuf.specs.Twins.{OwnTwin};

use super::{Packets, Pid};
use crate::clones::foreign as cloning;
use crate::freed::Freed;
use crate::steps::foreign as freeing;
use commons::refusal::Refusal;
use commons::shared::Commons;

impl Packets {
    /// Clones a packet of the first pool into elements of this one. The clone stands in the lowest
    /// free slot here, which is the answer.
    ///
    /// Refused as `Twin::clone_into` is.
    pub(crate) fn clone_foreign<C: Commons, D: Commons>(
        &mut self,
        first: &mut Packets,
        c: &mut C,
        d: &mut D,
        p: Pid,
    ) -> Result<Pid, Refusal>
        requires own { OwnTwin (record { first = first.old; second = self.old }) (C.side c.old) (D.side d.old) }
        ensures calls { BothCalls C.did C.side c.old c.new D.did D.side d.old d.new (λ firsts seconds.
            ClonesInto first.old self.old p firsts seconds result first.new self.new) }
        ensures own { OwnTwin (record { first = first.new; second = self.new }) (C.side c.new) (D.side d.new) }
        ensures fresh { IfOk result
            (λ slot. AreFresh self.old.limits.population (D.side d.old).holds
            (own_in_slots self.new.table (slot ∷ []))) }
        ensures first_refused { OnErr result
            (PacketsAsBefore first.old (C.side c.old) first.new (C.side c.new)) }
        ensures second_refused { OnErr result
            (PacketsAsBefore self.old (D.side d.old) self.new (D.side d.new)) }
    {
        let Some(source) = first.slot(p) else {
            return Err(Refusal::NoSuchPacket);
        };
        let Some(lowest) = self.free.lowest() else {
            return Err(Refusal::PacketsFull);
        };
        if let Err(cause) = cloning::clone_segs(
            &mut first.worker,
            &mut self.worker,
            c,
            d,
            first.packets[source].segs(),
            &mut self.packets[lowest],
        ) {
            return Err(cause);
        }
        self.free.take(lowest);
        Ok(lowest as Pid)
    }

    /// Frees a foreign clone: of each of its segments the base's hold ends in the first pool, and
    /// then its own element's here, and an element whose last hold went is put back through the
    /// cache of its pool.
    ///
    /// Refused `NoSuchPacket` where no clone stands there; nothing changes then.
    pub(crate) fn free_foreign<C: Commons, D: Commons>(
        &mut self,
        first: &mut Packets,
        c: &mut C,
        d: &mut D,
        p: Pid,
    ) -> Result<Freed, Refusal>
        requires own { OwnTwin (record { first = first.old; second = self.old }) (C.side c.old) (D.side d.old) }
        ensures calls { BothCalls C.did C.side c.old c.new D.did D.side d.old d.new (λ firsts seconds.
            FreesForeign first.old self.old p firsts seconds result first.new self.new) }
        ensures own { OwnTwin (record { first = first.new; second = self.new }) (C.side c.new) (D.side d.new) }
        ensures first_refused { OnErr result ((C.side c.new ≡ C.side c.old) × (first.new ≡ first.old)) }
        ensures second_refused { OnErr result ((D.side d.new ≡ D.side d.old) × (self.new ≡ self.old)) }
    {
        let Some(slot) = self.slot(p) else {
            return Err(Refusal::NoSuchPacket);
        };
        let freed = freeing::end_segs(
            &mut first.worker,
            &mut self.worker,
            c,
            d,
            self.packets[slot].segs(),
        );
        self.free.give(slot);
        Ok(freed)
    }

    /// The reference count of a foreign clone's first segment's own element.
    ///
    /// Refused `NoSuchPacket` where no clone stands there; nothing changes then.
    pub(crate) fn count_foreign<D: Commons>(&self, d: &mut D, p: Pid) -> Result<u32, Refusal>
        requires own { OwnForeign self.now (D.side d.old) }
        ensures calls { Calls D.did D.side d.old d.new (λ seconds.
            CountsOf (slice_index_or self.now.table p None) seconds result) }
        ensures own { OwnForeign self.now (D.side d.new) }
        ensures refused { OnErr result (D.side d.new ≡ D.side d.old) }
    {
        match self.place(p) {
            Some(packet) => Ok(d.count(packet.segs()[0].elem)),
            None => Err(Refusal::NoSuchPacket),
        }
    }
}
