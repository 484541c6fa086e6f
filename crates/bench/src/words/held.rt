//! Packets that are made, cloned and freed.

ghost use Rattle.std.specs.Prelude.{◌≡◌, []};
ghost use Rattle.ground.specs.Seats.{IsOf};
ghost use Rattle.ground.specs.Own.{AtRest};
ghost use Rattle.mbuf.specs.Own.{Own};
ghost use Rattle.stack_lf.specs.Sides.{side_of};

use super::carried::Carried;
use super::kinds::Kind;
use super::span::Rounds;
use crate::failures::Failure;
use ground::pool::Ground;
use mbuf::packets::{Packets, Pid};
use mempool::put::Put;
use stack_lf::words::WordCommons;
use std::alloc::Global;

/// The most packets that a round holds.
const MOST: usize = 240;

/// A slot that no table has.
const NO_PACKET: Pid = 256;

/// A worker with packets of its own.
pub struct Held<'a> {
    c: WordCommons<'a>,
    packets: Packets,
    kind: Kind,
    ghost own: { Own packets (side_of c.seat) },
}

impl<'a> Held<'a> {
    /// A worker of this number, with the seat that was carried here and no packets.
    pub fn make(
        alloc: Global,
        ground: &'a Ground,
        carried: Carried,
        number: u32,
        kind: Kind,
    ) -> Result<Held<'a>, Failure>
        requires of { IsOf ground.now carried.seat }
        requires rest { AtRest carried.seat.known.view }
        requires hand { carried.seat.known.view.hand ≡ [] }
        requires holds { carried.seat.known.view.holds ≡ [] }
    {
        let packets = Packets::make(alloc, &ground.limits(), number)?;
        let c = WordCommons::new(ground, carried.into_seat());
        Ok(Held { c, packets, kind })
    }

    /// Makes the packet that is to be cloned, where clones are asked for: it stands in slot 0.
    pub fn make_first(&mut self) {
        let Kind::Clone(segments) = self.kind else {
            return;
        };
        if self.packets.alloc(&mut self.c).is_err() {
            return;
        }
        for _segment in 1..segments {
            if let Ok(tail) = self.packets.alloc(&mut self.c) {
                let _chained = self.packets.chain(&mut self.c, 0, tail);
            }
        }
    }

    /// Frees the first packet, puts the cache onto the stack, and ends the worker.
    pub fn end(self) {
        let Held {
            mut c,
            mut packets,
            kind: _,
        } = self;
        let _freed = packets.free(&mut c, 0);
        for _try in 0..1_000 {
            if let Put::Kept = packets.flush(&mut c) {
                break;
            }
        }
        packets.lose();
        c.into_seat().lose();
    }

    /// Allocs a packet and frees it.
    fn alloc_and_free(&mut self, count: u64) -> u64 {
        let mut refused = 0u64;
        for _round in 0..count {
            match self.packets.alloc(&mut self.c) {
                Ok(slot) => {
                    let _freed = self.packets.free(&mut self.c, slot);
                }
                Err(_) => refused = refused.wrapping_add(1),
            }
        }
        refused
    }

    /// Allocs 32 packets in bulk and frees each.
    fn bulk_and_free(&mut self, count: u64) -> u64 {
        let mut refused = 0u64;
        let mut slots = [0; 32];
        for _round in 0..count {
            match self.packets.alloc_bulk(&mut self.c, &mut slots) {
                Ok(()) => self.free_each(&slots),
                Err(_) => refused = refused.wrapping_add(32),
            }
        }
        refused
    }

    /// Allocs 240 packets one by one, and then frees them, the oldest first.
    fn hold_and_free(&mut self, count: u64) -> u64 {
        let mut refused = 0u64;
        let mut slots = [NO_PACKET; MOST];
        for _round in 0..count {
            for slot in &mut slots {
                match self.packets.alloc(&mut self.c) {
                    Ok(new) => *slot = new,
                    Err(_) => {
                        *slot = NO_PACKET;
                        refused = refused.wrapping_add(1);
                    }
                }
            }
            self.free_each(&slots);
        }
        refused
    }

    /// Frees the packets of these slots; a slot without one is passed over.
    fn free_each(&mut self, slots: &[Pid]) {
        for slot in slots {
            let _freed = self.packets.free(&mut self.c, *slot);
        }
    }

    /// Clones the first packet and frees the clone.
    fn clone_and_free(&mut self, count: u64, segments: u32) -> u64 {
        let mut refused = 0u64;
        for _round in 0..count {
            match self.packets.clone_packet(&mut self.c, 0) {
                Ok(slot) => {
                    let _freed = self.packets.free(&mut self.c, slot);
                }
                Err(_) => refused = refused.wrapping_add(u64::from(segments)),
            }
        }
        refused
    }
}

impl<'a> Rounds for Held<'a> {
    fn rounds(&mut self, count: u64) -> u64 {
        match self.kind {
            Kind::Bulk => self.bulk_and_free(count),
            Kind::Kept => self.hold_and_free(count),
            Kind::Clone(segments) => self.clone_and_free(count, segments),
            _ => self.alloc_and_free(count),
        }
    }
}
