//! Random numbers, the same ones from the same seed.

use step_core::elems::Elems;

/// A linear congruential generator.
#[derive(Drop)]
pub struct Draws {
    state: u64,
}

impl Draws {
    ghost use Rattle.std.specs.Prelude.{◌<◌, ◌≤◌};

    /// A generator that starts with this seed.
    pub fn new(seed: u64) -> Draws {
        Draws { state: seed }
    }

    /// The next number below this bound; 0 where the bound is 0.
    pub fn below(&mut self, bound: u64) -> u64
        ensures { 0 < bound → result < bound }
    {
        let product = self.state.wrapping_mul(6_364_136_223_846_793_005);
        self.state = product.wrapping_add(1_442_695_040_888_963_407);
        if bound == 0 {
            return 0;
        }
        (self.state >> 32) % bound
    }

    /// The next number from 1 to this one; 1 where this is 0.
    pub fn up_to(&mut self, most: u64) -> u64
        ensures { 0 < most → result ≤ most }
    {
        self.below(most).saturating_add(1)
    }

    /// One of these elements, or none where there is none.
    pub fn pick(&mut self, elems: &Elems) -> Option<u32> {
        let items = elems.as_slice();
        if items.is_empty() {
            return None;
        }
        let at = self.below(items.len() as u64);
        Some(items[at as usize])
    }
}
