//! The list of the elements that a worker keeps.

ghost use Rattle.std.specs.Prelude.{◌≡◌, ◌↔◌, ◌+◌, ◌<◌, [], true, length, IfOk, MatchOption};
ghost use Rattle.guard.specs.Keeping.{Takes};

use std::alloc::{AllocError, Global};
use std::collections::VecDeque;
use std::marker::Model;

/// The elements that a worker keeps. Those that it needn't let wait are a stack, as the memory of the
/// last one was used last. As many as are to wait aren't given again while there are others: one that
/// is put waits behind them, and the first of them, which waited longest, goes onto the stack.
#[derive(Drop)]
pub struct Kept {
    /// Those that are ready, the last on top.
    ready: Vec<u32>,
    /// Those that wait, the first in front.
    waits: VecDeque<u32, Global>,
    /// How many it keeps besides those that wait, before some of them go to the depot.
    cache: usize,
    /// How many wait before they are given again.
    waiting: usize,
    /// With fewer than so many on the stack one more needn't wait, and is none too much.
    near: usize,
}

impl Model for Kept {
    ghost use Rattle.std.specs.Prelude.{◌+◌, ◌-◌, ◌≤◌, ◌<◌, ◌++◌, length};
    ghost use Rattle.std.specs.Vec.{vec_capacity};
    ghost use Rattle.std.specs.VecDeque.{deque_capacity};
    ghost use Rattle.guard.specs.Keeping.{Keep};

    ghost Value = { Keep };

    ghost view = { λ k. record {
      items = k.ready.items ++ k.waits.items;
      most = k.cache + k.waiting + 1;
      near = k.near - length k.ready.items;
    } };

    ghost invariant = { λ k. (length k.ready.items ≤ k.cache + 1)
        × (length k.waits.items ≤ k.waiting) × (k.near ≤ k.cache)
        × (k.cache + 1 ≤ vec_capacity k.ready) × (k.waiting ≤ deque_capacity k.waits)
        × (k.cache < 65536) × (k.waiting < 4294967296) };
}

impl Kept {
    /// An empty list, with room for all that it will have: so many that a worker keeps, so many that
    /// wait, and one.
    pub fn new(alloc: Global, cache: u16, waiting: u32) -> Result<Kept, AllocError>
        ensures none { IfOk result (λ k. k.items ≡ []) }
        ensures most { IfOk result (λ k. k.most ≡ cache + waiting + 1) }
    {
        let (cache, waiting) = (cache as usize, waiting as usize);
        let ready = Vec::with_capacity(alloc, cache + 1)?;
        let waits = VecDeque::with_capacity(alloc, waiting)?;
        let near = if waiting == 0 { cache } else { 0 };
        Ok(Kept {
            ready,
            waits,
            cache,
            waiting,
            near,
        })
    }

    /// Whether some are to wait.
    #[inline(always)]
    pub fn waits(&self) -> bool {
        self.waiting > 0
    }

    /// How many elements there are.
    #[inline(always)]
    pub fn len(&self) -> usize
        ensures { result ≡ length self.now.items }
    {
        self.ready.len() + self.waits.len()
    }

    /// Whether there is room for one more.
    #[inline(always)]
    pub fn has_room(&self) -> bool
        ensures { (result ≡ true) ↔ (length self.now.items < self.now.most) }
    {
        self.ready.len() + self.waits.len() <= self.cache + self.waiting
    }

    /// Whether one more needn't wait, and is none too much.
    #[inline(always)]
    pub fn is_near(&self) -> bool
        ensures { result ≡ true → 0 < self.now.near }
    {
        self.ready.len() < self.near
    }

    /// How many are to go to the depot, so that half of what it keeps besides those that wait stays:
    /// none while there are no more than it keeps.
    #[inline(always)]
    pub fn surplus(&self) -> usize {
        let count = self.ready.len() + self.waits.len();
        if count <= self.cache + self.waiting {
            return 0;
        }
        count - (self.waiting + self.cache / 2)
    }

    /// Adds an element that needn't wait.
    #[inline(always)]
    pub fn push_near(&mut self, element: u32)
        requires { 0 < self.old.near }
        ensures { Takes element self.new self.old }
    {
        self.ready.push_reserved(element);
    }

    /// Adds an element, which waits where some are to wait.
    pub fn push(&mut self, element: u32)
        requires { length self.old.items < self.old.most }
        ensures { Takes element self.new self.old }
    {
        if self.waits.len() < self.waiting {
            self.waits.push_back_reserved(element);
            return;
        }
        match self.waits.pop_front() {
            Some(first) => {
                self.waits.push_back_reserved(element);
                self.ready.push_reserved(first);
            }
            None => self.ready.push_reserved(element),
        }
    }

    /// Takes the last of those that needn't wait.
    #[inline(always)]
    pub fn ready(&mut self) -> Option<u32>
        ensures { MatchOption result (self.new ≡ self.old) (λ e. Takes e self.old self.new) }
    {
        self.ready.pop()
    }

    /// Takes the first, whether it waits or not.
    pub fn first(&mut self) -> Option<u32>
        ensures { MatchOption result ((self.new ≡ self.old) × (self.old.items ≡ [])
            × (0 < self.old.most)) (λ e.
            Takes e self.old self.new) }
    {
        if self.ready.len() > 0 {
            return Some(self.ready.remove(0));
        }
        self.waits.pop_front()
    }
}
