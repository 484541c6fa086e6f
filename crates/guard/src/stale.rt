//! The numbers of stale entries, until somebody asks for them.

ghost use Rattle.std.specs.Prelude.{◌≡◌, ◌-◌, ◌++◌, [], ◌∷◌, length, take, IfOk, MatchOption};
ghost use Rattle.guard.specs.Guards.{most_told};

use std::alloc::{AllocError, Global};
use std::marker::Model;

/// How many numbers are in store at most.
const MOST: usize = 64;

/// Up to 64 numbers, the oldest first. Contracts see it as their list.
#[derive(Drop)]
pub struct Stale {
    items: Vec<u32>,
}

impl Model for Stale {
    ghost use Rattle.std.specs.Prelude.{ℕ, List, ◌≤◌, length};
    ghost use Rattle.std.specs.Vec.{vec_capacity};

    ghost Value = { List ℕ };

    ghost view = { λ s. s.items.items };

    ghost invariant = { λ s. (length s.items.items ≤ 64) × (64 ≤ vec_capacity s.items) };
}

impl Stale {
    /// An empty store, with room for all that it will have.
    pub fn new(alloc: Global) -> Result<Stale, AllocError>
        ensures { IfOk result (λ s. s ≡ []) }
    {
        let items = Vec::with_capacity(alloc, MOST)?;
        Ok(Stale { items })
    }

    /// Adds a number, where there is room.
    #[inline(always)]
    pub fn note(&mut self, element: u32)
        ensures { self.new ≡ self.old ++ take (most_told - length self.old) (element ∷ []) }
    {
        if self.items.len() < MOST {
            self.items.push_reserved(element);
        }
    }

    /// Takes the oldest number.
    pub fn next(&mut self) -> Option<u32>
        ensures { MatchOption result ((self.old ≡ []) × (self.new ≡ [])) (λ e. self.old ≡ e ∷
            self.new) }
    {
        if self.items.len() == 0 {
            return None;
        }
        Some(self.items.remove(0))
    }
}
