//! A get of elements by a worker, and the put of the same.

ghost use Rattle.std.specs.Prelude.{◌≡◌, ◌≤◌, ℕ, length};
ghost use Rattle.commons.specs.Bag.{bag};
ghost use Rattle.ground.specs.Seats.{IsOf};
ghost use Rattle.ground.specs.Own.{AtRest};
ghost use Rattle.stack_lf.specs.Sides.{side_of};

use super::carried::Carried;
use super::kinds::{MOST_WIDE, Width};
use super::span::Rounds;
use crate::failures::Failure;
use commons::shared::Commons;
use ground::pool::Ground;
use mempool::put::Put;
use mempool::worker::Worker;
use stack_lf::words::WordCommons;
use std::alloc::Global;

/// Gets the first `N` of a list and puts them back, and answers whether the get succeeded.
#[inline(always)]
fn first_there_and_back<C: Commons, const N: usize>(
    worker: &mut Worker,
    c: &mut C,
    list: &mut [u32],
) -> bool
    requires few { N ≤ length list.old }
    requires limits { (C.side c.old).limits ≡ worker.old.limits }
    requires cached { (i : ℕ) → bag worker.old.cache i ≤ (C.side c.old).hand i }
    ensures limits { (C.side c.new).limits ≡ worker.new.limits }
    ensures cached { (i : ℕ) → bag worker.new.cache i ≤ (C.side c.new).hand i }
{
    there_and_back(worker, c, &mut list[..N])
}

/// Gets a list and puts it back, and answers whether the get succeeded.
#[inline(always)]
fn there_and_back<C: Commons>(worker: &mut Worker, c: &mut C, list: &mut [u32]) -> bool
    requires limits { (C.side c.old).limits ≡ worker.old.limits }
    requires cached { (i : ℕ) → bag worker.old.cache i ≤ (C.side c.old).hand i }
    ensures limits { (C.side c.new).limits ≡ worker.new.limits }
    ensures cached { (i : ℕ) → bag worker.new.cache i ≤ (C.side c.new).hand i }
{
    if worker.get_bulk(c, list).is_err() {
        return false;
    }
    let _put = worker.put_bulk(c, list);
    true
}

/// A worker with a cache, who gets a list and puts it back.
pub struct Cached<'a> {
    c: WordCommons<'a>,
    worker: Worker,
    list: [u32; MOST_WIDE],
    width: Width,
    ghost limits: { (side_of c.seat).limits ≡ worker.limits },
    ghost cached: { (i : ℕ) → bag worker.cache i ≤ (side_of c.seat).hand i },
}

impl<'a> Cached<'a> {
    /// A worker of this number and of lists of this width, with the seat that was carried here.
    pub fn make(
        alloc: Global,
        ground: &'a Ground,
        carried: Carried,
        number: u32,
        width: Width,
    ) -> Result<Cached<'a>, Failure>
        requires of { IsOf ground.now carried.seat }
        requires rest { AtRest carried.seat.known.view }
    {
        let worker = Worker::make(alloc, &ground.limits(), number)?;
        let c = WordCommons::new(ground, carried.into_seat());
        Ok(Cached {
            c,
            worker,
            list: [0; MOST_WIDE],
            width,
        })
    }

    /// Rounds of lists of `N`.
    fn rounds_of<const N: usize>(&mut self, count: u64) -> u64
        requires { N ≤ MOST_WIDE }
    {
        let mut refused = 0u64;
        for _round in 0..count {
            if !first_there_and_back::<WordCommons, N>(
                &mut self.worker,
                &mut self.c,
                &mut self.list,
            ) {
                refused = refused.wrapping_add(1);
            }
        }
        refused.saturating_mul(N as u64)
    }

    /// Puts the cache onto the stack, and ends the worker.
    pub fn end(self) {
        let Cached {
            mut c,
            mut worker,
            list: _,
            width: _,
        } = self;
        for _try in 0..1_000 {
            if let Put::Kept = worker.flush(&mut c) {
                break;
            }
        }
        worker.lose();
        c.into_seat().lose();
    }
}

impl<'a> Rounds for Cached<'a> {
    fn rounds(&mut self, count: u64) -> u64 {
        match self.width {
            Width::One => self.rounds_of::<1>(count),
            Width::Eight => self.rounds_of::<8>(count),
            Width::ThirtyTwo => self.rounds_of::<32>(count),
        }
    }
}
