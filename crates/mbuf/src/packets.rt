//! A worker's cache and its packets, and which packet stands in which slot.
ghost use Rattle.std.specs.Prelude.{◌≡◌, ◌<◌, ◌≤◌, [], IfOk, IfErr, MatchOption, IsSome, Option, None, Some, length, replicate, slice_index_or};
ghost use Rattle.commons.specs.Bounds.{IsPool};
ghost use Rattle.mempool.specs.WorkerCache.{IsWorkerCause};
ghost use Rattle.mbuf.specs.Members.{slots};

mod foreign;
mod freeing;
mod making;
mod parcels;
mod passing;
mod sharing;
mod sizes;

use crate::free_slots::FreeSlots;
use crate::steps;
use commons::limits::Limits;
use commons::packet::{Packet, Seg};
use commons::refusal::Refusal;
use mempool::worker::Worker;
pub use parcels::rewrite;
use std::alloc::{AllocError, Global};
use std::marker::Model;

/// How many packets a worker holds at most.
pub const SLOTS: usize = 256;

/// A packet's slot in its worker's table, 0 to 255.
pub type Pid = u32;

/// A worker's cache and its packets, at most 256. It can't be dropped: `lose` ends it.
pub struct Packets {
    worker: Worker,
    packets: Vec<Packet>,
    free: FreeSlots,
    /// The headroom of the pool's fresh packets, in bytes. It is kept, so that no alloc asks how
    /// long a buffer is.
    headroom: u16,
}

impl Model for Packets {
    ghost use Rattle.mbuf.specs.Members.{Member};

    ghost Value = { Member };

    ghost use Rattle.mbuf.specs.inside.Kept.{member_of, IsKept};

    ghost view = { member_of };

    ghost invariant = { IsKept };
}

impl Packets {
    /// A worker with an empty cache and no packets. No other call takes memory.
    ///
    /// Refused `BadPool` where the limits are out of range or have no worker of this number, and
    /// `OutOfMemory` where memory was refused.
    pub fn make(alloc: Global, limits: &Limits, number: u32) -> Result<Packets, Refusal>
        ensures ok { IfOk result (λ p. p ≡ record {
          limits = limits.now;
          number = number;
          cache = [];
          table = replicate slots None;
        }) }
        ensures pool { IfOk result (λ p. IsPool limits.now × (1 ≤ number) × (number ≤ limits.now.workers)) }
        ensures cause { IfErr result (IsWorkerCause limits.now number) }
    {
        let worker = Worker::make(alloc, limits, number)?;
        match blank_packets(alloc) {
            Ok(packets) => Ok(Packets {
                worker,
                packets,
                free: FreeSlots::new(),
                headroom: steps::headroom(limits),
            }),
            Err(_) => {
                worker.lose();
                Err(Refusal::OutOfMemory)
            }
        }
    }

    /// Ends the worker and its packets, and gives nothing back.
    pub fn lose(self) {
        let Packets {
            worker,
            packets: _,
            free: _,
            headroom: _,
        } = self;
        worker.lose();
    }

    /// The worker's number, from 1.
    pub fn worker(&self) -> u32
        ensures { result ≡ self.now.number }
    {
        self.worker.number()
    }

    /// The worker's cache, from its first element to its last.
    pub fn cache(&self) -> &[u32]
        ensures { result.now ≡ self.now.cache }
    {
        self.worker.cache()
    }

    /// A law of each worker: its table has 256 slots, whatever stands in them. It does nothing.
    pub fn has_slots(&self)
        ensures { length self.now.table ≡ slots }
    {
        let _known = &self.free;
    }

    /// The slot of a packet's number, if a packet stands there.
    fn slot(&self, p: Pid) -> Option<usize>
        ensures { MatchOption result (slice_index_or self.now.table p None ≡ None)
            (λ slot. (slot ≡ p) × (slot < slots) × IsSome (slice_index_or self.now.table p None)) }
    {
        let slot = p as usize;
        if slot >= self.packets.len() {
            return None;
        }
        if self.free.is_free(slot) {
            return None;
        }
        Some(slot)
    }

    /// The packet in a slot, if one stands there.
    pub fn place(&self, slot: u32) -> Option<&Packet>
        ensures { MatchOption result (slice_index_or self.now.table slot None ≡ None)
            (λ p. slice_index_or self.now.table slot None ≡ Some p.now) }
    {
        let slot = self.slot(slot)?;
        Some(&self.packets[slot])
    }
}

/// As many packets as there are slots, of which none is shown yet.
fn blank_packets(alloc: Global) -> Result<Vec<Packet>, AllocError>
    ensures { IfOk result (λ v. length v.items ≡ slots) }
{
    let mut packets = Vec::with_capacity(alloc, SLOTS)?;
    for _ in 0..SLOTS {
        packets.push(Packet::single(Seg::default()))?;
    }
    Ok(packets)
}
