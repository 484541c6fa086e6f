//! A packet as its segments, and what holds of these wherever a packet is: in a slot, or on a desk.

use arrayvec::ArrayVec;
use std::marker::Model;
use std::mem;

/// The most segments that a packet has.
/// (rte_mbuf_core.h, `RTE_MBUF_MAX_NB_SEGS`, DPDK 21.11, is 65,535)
pub const MAX_SEGS: usize = 32;

/// A segment of a packet: an element with its lengths in bytes.
#[derive(Clone, Copy, Default, PartialEq, Eq, Debug)]
pub struct Seg {
    /// The segment's own element.
    pub elem: u32,
    /// The direct element whose buffer an indirect segment uses.
    pub base: Option<u32>,
    /// Where the data begins in the buffer.
    pub data_off: u16,
    /// How long the data is.
    pub data_len: u16,
    /// How long the buffer is.
    pub buf_len: u16,
}

/// A packet: 1 to 32 segments, the data of each within its buffer.
#[derive(Debug, Drop)]
pub struct Packet {
    segs: ArrayVec<Seg, MAX_SEGS>,
}

impl Model for Packet {
    ghost use Rattle.std.specs.Prelude.{List};
    ghost use Rattle.commons.specs.declared.packet.Seg.{Seg};
    ghost use Rattle.commons.specs.Packets.{IsPacket};

    ghost Value = { List Seg };

    ghost view = { λ p. p.segs.items };

    ghost invariant = { λ p. IsPacket p.segs.items };
}

impl Packet {
    ghost use Rattle.std.specs.Prelude.{◌≡◌, ◌<◌, [], ◌∷◌, ◌++◌, length, slice_set};
    ghost use Rattle.commons.specs.Packets.{HasItsData, IsPacket, max_segs, no_seg};

    /// The packet of one segment.
    pub fn single(seg: Seg) -> Packet
        requires { HasItsData seg }
        ensures { result ≡ seg ∷ [] }
    {
        let mut segs = ArrayVec::new();
        segs.push(seg);
        Packet { segs }
    }

    /// Makes this the packet of one segment, in its place.
    pub fn restart(&mut self, seg: Seg)
        requires { HasItsData seg }
        ensures { self.new ≡ seg ∷ [] }
    {
        self.segs.truncate(1);
        self.segs.as_mut_slice()[0] = seg;
    }

    /// Moves the packet out, and leaves one segment without data in its place.
    pub fn take(&mut self) -> Packet
        ensures out { result ≡ self.old }
        ensures left { self.new ≡ no_seg ∷ [] }
    {
        let segs = mem::take(&mut self.segs);
        self.segs.push(Seg::default());
        Packet { segs }
    }

    /// Puts a segment after the last. The packet has fewer than 32.
    pub fn push(&mut self, seg: Seg)
        requires room { length self.old < max_segs }
        requires data { HasItsData seg }
        ensures { self.new ≡ self.old ++ seg ∷ [] }
    {
        self.segs.push(seg);
    }

    /// Puts a segment in the place of the one at `index`, counted from 0.
    pub fn set(&mut self, index: usize, seg: Seg)
        requires index { index < length self.old }
        requires data { HasItsData seg }
        ensures { self.new ≡ slice_set self.old index seg }
    {
        self.segs.as_mut_slice()[index] = seg;
    }

    /// The segments in order.
    pub fn segs(&self) -> &[Seg]
        ensures segs { result.now ≡ self.now }
        ensures packet { IsPacket self.now }
    {
        self.segs.as_slice()
    }
}
