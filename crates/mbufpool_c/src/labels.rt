//! By which numbers C has a worker's packets.

ghost use Rattle.std.specs.Prelude.{◌≡◌, ◌<◌};
ghost use Rattle.mbufpool_c.specs.Labels.{first_labels, label_in, no_slot, slot_in, went_from};

use mbuf::packets::{Pid, SLOTS};
use std::marker::Model;

/// No slot: one more than the last.
const NO_SLOT: Pid = 256;

/// For each slot its label, by which C has the packet there: the slot, and above its 8 bits how many
/// packets went from there, modulo 2^24.
#[derive(Drop)]
pub struct Labels {
    of: [u32; SLOTS],
}

impl Model for Labels {
    ghost use Rattle.std.specs.Prelude.{ℕ, List};
    ghost use Rattle.mbufpool_c.specs.Labels.{AreLabels};

    ghost Value = { List ℕ };

    ghost view = { λ l. l.of };

    ghost invariant = { λ l. AreLabels l.of };
}

/// The numbers from 0 on.
fn counted() -> [u32; SLOTS]
    ensures { result ≡ first_labels }
{
    let mut of = [0; SLOTS];
    for k in 0..SLOTS {
        of[k] = k as u32;
    }
    of
}

impl Labels {
    /// Those of a new worker: each is its slot.
    pub fn new() -> Labels
        ensures { result ≡ first_labels }
    {
        Labels { of: counted() }
    }

    /// The label of a slot.
    #[inline(always)]
    pub fn label(&self, slot: Pid) -> u32
        ensures { result ≡ label_in self.now slot }
    {
        self.of[(slot % 256) as usize]
    }

    /// The slot that a number stands for: that whose label it is now. Else it is `NO_SLOT`.
    #[inline(always)]
    pub fn slot(&self, number: u32) -> Pid
        ensures { result ≡ slot_in self.now number }
    {
        let slot = number % 256;
        if self.of[slot as usize] == number {
            slot
        } else {
            NO_SLOT
        }
    }

    /// Gives a slot its next label, as the packet there went. The one that it had stands for no slot
    /// then.
    #[inline(always)]
    pub fn go(&mut self, slot: Pid)
        ensures labels { self.new ≡ went_from slot self.old }
        ensures stale { slot_in self.new (label_in self.old slot) ≡ no_slot }
    {
        let slot = (slot % 256) as usize;
        self.of[slot] = self.of[slot].wrapping_add(256);
    }

    /// A law: the label of a slot stands for that slot. It does nothing.
    pub fn stand(&self, slot: Pid)
        ensures { slot < 256 → slot_in self.now (label_in self.now slot) ≡ slot }
    {
        let _ = &self.of;
    }
}
