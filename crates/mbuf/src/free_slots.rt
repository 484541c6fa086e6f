//! Which of 256 slots are free, as bits, so that the lowest is found without a walk over them.
//!
//! Bit k of word w is 1 while slot 64 w + k is free.

ghost use Rattle.std.specs.Prelude.{◌≡◌, ◌<◌, true, false, count_by, length, position, replicate, slice_index_or, slice_set, MatchOption};
ghost use Rattle.mbuf.specs.Members.{slots};
ghost use Rattle.mbuf.specs.inside.Bits.{IsLowestBit, flags_of};

use std::marker::Model;

/// For each slot whether it is free.
#[derive(Debug, Drop)]
pub struct FreeSlots {
    words: [u64; 4],
}

impl Model for FreeSlots {
    ghost use Rattle.std.specs.Prelude.{Bool, List};
    ghost use Rattle.mbuf.specs.inside.Bits.{flags_of};

    ghost Value = { List Bool };

    ghost view = { λ s. flags_of s.words };
}

/// The lowest bit of a word that is 1.
fn lowest_bit(word: u64) -> Option<usize>
    ensures { MatchOption result (word ≡ 0) (IsLowestBit word) }
{
    if word == 0 {
        None
    } else {
        Some(word.trailing_zeros() as usize)
    }
}

/// How many bits of four words are 1.
fn bits_up(words: &[u64]) -> usize
    requires { length words.now ≡ 4 }
    ensures { result ≡ count_by (λ free. free) (flags_of words.now) }
{
    words[0].count_ones() as usize
        + words[1].count_ones() as usize
        + words[2].count_ones() as usize
        + words[3].count_ones() as usize
}

impl FreeSlots {
    /// All slots are free.
    pub fn new() -> FreeSlots
        ensures { result ≡ replicate slots true }
    {
        FreeSlots {
            words: [u64::MAX; 4],
        }
    }

    /// How many slots are free.
    pub fn count(&self) -> usize
        ensures { result ≡ count_by (λ free. free) self.now }
    {
        bits_up(&self.words)
    }

    /// The lowest free slot.
    pub fn lowest(&self) -> Option<usize>
        ensures { result ≡ position (λ free. free) self.now }
    {
        for (index, word) in self.words.iter().enumerate() {
            if let Some(bit) = lowest_bit(*word) {
                return Some(64 * index + bit);
            }
        }
        None
    }

    /// Whether a slot is free.
    pub fn is_free(&self, slot: usize) -> bool
        requires { slot < slots }
        ensures { result ≡ slice_index_or self.now slot false }
    {
        self.words[slot / 64] >> (slot % 64) & 1 == 1
    }

    /// Takes a free slot: it isn't free from now on.
    pub fn take(&mut self, slot: usize)
        requires within { slot < slots }
        requires free { slice_index_or self.old slot false ≡ true }
        ensures { self.new ≡ slice_set self.old slot false }
    {
        self.words[slot / 64] &= !(1 << (slot % 64));
    }

    /// Gives a slot back that was taken: it is free from now on.
    pub fn give(&mut self, slot: usize)
        requires within { slot < slots }
        requires taken { slice_index_or self.old slot false ≡ false }
        ensures { self.new ≡ slice_set self.old slot true }
    {
        self.words[slot / 64] |= 1 << (slot % 64);
    }
}
