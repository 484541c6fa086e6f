//! How long packets are, and how their lengths change, which asks nothing of the shared pool.
ghost use Rattle.std.specs.Prelude.{◌≡◌, MatchResult, None, Some, length, slice_index_or};
ghost use Rattle.commons.specs.Packets.{pkt_len as len_of};
ghost use Rattle.mbuf.specs.Own.{Own, OwnWithGuests, StaysOwn};
ghost use Rattle.mbuf.specs.PacketRules.{Resizes, of_packet};
ghost use Rattle.mbuf.specs.inside.Changes.{resized, not_resized};
ghost use Rattle.mbuf.specs.Lengths.{appended, prepended, adjusted, trimmed};
ghost use Rattle.mbuf.specs.inside.Kept.{KeepsHolds};

use super::{Packets, Pid};
use crate::lengths;
use commons::change::Change;
use commons::packet::Seg;
use commons::refusal::Refusal;
use commons::shared::Commons;

impl Packets {
    /// Changes a packet's lengths.
    #[tactic(auto, using(crate::proofs::PacketCases::nothing))]
    pub(crate) fn resize(&mut self, p: Pid, change: Change) -> Result<u32, Refusal>
        ensures resized { Resizes (resized change) (not_resized change) self.old p result self.new }
        ensures kept { KeepsHolds self.old self.new }
    {
        let Some(slot) = self.slot(p) else {
            return Err(Refusal::NoSuchPacket);
        };
        if !lengths::resize(&mut self.packets[slot], change) {
            return Err(lengths::refusal(change));
        }
        Ok(lengths::pkt_len(&self.packets[slot]))
    }

    /// Adds `len` bytes after the data of a packet's last segment, and answers the packet's new
    /// length in bytes.
    ///
    /// Refused `NoSuchPacket` where no packet stands there, and `NoRoom` where the last segment's
    /// tailroom, what its buffer has after the data, is shorter. Nothing changes then.
    ///
    /// After rte_mbuf.h, `rte_pktmbuf_append` (DPDK 21.11).
    pub fn append<C: Commons>(&mut self, c: &mut C, p: Pid, len: u16) -> Result<u32, Refusal>
        requires own { OwnWithGuests self.old (C.side c.old) }
        ensures resized { Resizes (appended len) Refusal.NoRoom self.old p result self.new }
        ensures no_call { c.new ≡ c.old }
        ensures own { Own self.old (C.side c.old) → Own self.new (C.side c.new) }
        ensures guests { StaysOwn self.old (C.side c.old) self.new (C.side c.new) }
    {
        self.resize(p, Change::Append(len))
    }

    /// Adds `len` bytes in front of the data of a packet's first segment, and answers the packet's
    /// new length in bytes.
    ///
    /// Refused `NoSuchPacket` where no packet stands there, and `NoRoom` where the first segment's
    /// headroom, what its buffer has in front of the data, is shorter. Nothing changes then.
    ///
    /// After rte_mbuf.h, `rte_pktmbuf_prepend` (DPDK 21.11).
    pub fn prepend<C: Commons>(&mut self, c: &mut C, p: Pid, len: u16) -> Result<u32, Refusal>
        requires own { OwnWithGuests self.old (C.side c.old) }
        ensures resized { Resizes (prepended len) Refusal.NoRoom self.old p result self.new }
        ensures no_call { c.new ≡ c.old }
        ensures own { Own self.old (C.side c.old) → Own self.new (C.side c.new) }
        ensures guests { StaysOwn self.old (C.side c.old) self.new (C.side c.new) }
    {
        self.resize(p, Change::Prepend(len))
    }

    /// Takes `len` bytes off the front of a packet's first segment, and answers the packet's new
    /// length in bytes.
    ///
    /// Refused `NoSuchPacket` where no packet stands there, and `TooShort` where the first segment
    /// has fewer bytes of data. Nothing changes then.
    ///
    /// After rte_mbuf.h, `rte_pktmbuf_adj` (DPDK 21.11).
    pub fn adj<C: Commons>(&mut self, c: &mut C, p: Pid, len: u16) -> Result<u32, Refusal>
        requires own { OwnWithGuests self.old (C.side c.old) }
        ensures resized { Resizes (adjusted len) Refusal.TooShort self.old p result self.new }
        ensures no_call { c.new ≡ c.old }
        ensures own { Own self.old (C.side c.old) → Own self.new (C.side c.new) }
        ensures guests { StaysOwn self.old (C.side c.old) self.new (C.side c.new) }
    {
        self.resize(p, Change::Adj(len))
    }

    /// Takes `len` bytes off the end of a packet's last segment, and answers the packet's new
    /// length in bytes.
    ///
    /// Refused `NoSuchPacket` where no packet stands there, and `TooShort` where the last segment
    /// has fewer bytes of data. Nothing changes then.
    ///
    /// After rte_mbuf.h, `rte_pktmbuf_trim` (DPDK 21.11).
    pub fn trim<C: Commons>(&mut self, c: &mut C, p: Pid, len: u16) -> Result<u32, Refusal>
        requires own { OwnWithGuests self.old (C.side c.old) }
        ensures resized { Resizes (trimmed len) Refusal.TooShort self.old p result self.new }
        ensures no_call { c.new ≡ c.old }
        ensures own { Own self.old (C.side c.old) → Own self.new (C.side c.new) }
        ensures guests { StaysOwn self.old (C.side c.old) self.new (C.side c.new) }
    {
        self.resize(p, Change::Trim(len))
    }

    /// How many bytes of data a packet has.
    ///
    /// Refused `NoSuchPacket` where no packet stands there.
    ///
    /// After rte_mbuf.h, `rte_pktmbuf_pkt_len` (DPDK 21.11).
    pub fn pkt_len<C: Commons>(&self, c: &mut C, p: Pid) -> Result<u32, Refusal>
        requires own { OwnWithGuests self.now (C.side c.old) }
        ensures answer { result ≡ of_packet len_of (slice_index_or self.now.table p None) }
        ensures no_call { c.new ≡ c.old }
    {
        match self.place(p) {
            Some(packet) => Ok(lengths::pkt_len(packet)),
            None => Err(Refusal::NoSuchPacket),
        }
    }

    /// How many segments a packet has, 1 to 32.
    ///
    /// Refused `NoSuchPacket` where no packet stands there.
    ///
    /// After rte_mbuf_core.h, `nb_segs` of `struct rte_mbuf` (DPDK 21.11).
    pub fn nb_segs<C: Commons>(&self, c: &mut C, p: Pid) -> Result<u32, Refusal>
        requires own { OwnWithGuests self.now (C.side c.old) }
        ensures answer { result ≡ of_packet length (slice_index_or self.now.table p None) }
        ensures no_call { c.new ≡ c.old }
    {
        match self.place(p) {
            Some(packet) => Ok(packet.segs().len() as u32),
            None => Err(Refusal::NoSuchPacket),
        }
    }

    /// A packet's segments in order.
    ///
    /// Refused `NoSuchPacket` where no packet stands there.
    pub fn segs<C: Commons>(&self, c: &mut C, p: Pid) -> Result<&[Seg], Refusal>
        requires own { OwnWithGuests self.now (C.side c.old) }
        ensures answer { MatchResult result
            (λ segs. slice_index_or self.now.table p None ≡ Some segs.now)
            (λ cause. (cause ≡ Refusal.NoSuchPacket)
            × (slice_index_or self.now.table p None ≡ None)) }
        ensures no_call { c.new ≡ c.old }
    {
        match self.place(p) {
            Some(packet) => Ok(packet.segs()),
            None => Err(Refusal::NoSuchPacket),
        }
    }
}
