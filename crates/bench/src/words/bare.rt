//! A list off the bare stack, and back onto it.

ghost use Rattle.std.specs.Prelude.{◌<◌, ◌≤◌, ℕ, length};
ghost use Rattle.commons.specs.Bag.{bag};
ghost use Rattle.ground.specs.Seats.{IsOf};
ghost use Rattle.ground.specs.Own.{AtRest};

use super::carried::Carried;
use super::kinds::{MOST_WIDE, Width};
use super::span::Rounds;
use commons::shared::Commons;
use ground::pool::Ground;
use stack_lf::words::WordCommons;

/// A worker who gets a list and puts it back, by the calls of the stack alone.
pub struct Bare<'a> {
    c: WordCommons<'a>,
    list: [u32; MOST_WIDE],
    width: Width,
}

impl<'a> Bare<'a> {
    /// A worker of lists of this width, with the seat that was carried here.
    pub fn make(ground: &'a Ground, carried: Carried, width: Width) -> Bare<'a>
        requires of { IsOf ground.now carried.seat }
        requires rest { AtRest carried.seat.known.view }
    {
        let c = WordCommons::new(ground, carried.into_seat());
        Bare {
            c,
            list: [0; MOST_WIDE],
            width,
        }
    }

    /// Rounds of lists of `N`.
    fn rounds_of<const N: usize>(&mut self, count: u64) -> u64
        requires some { 0 < N }
        requires few { N ≤ MOST_WIDE }
    {
        let mut refused = 0u64;
        for _round in 0..count {
            let lost = first_there_and_back::<WordCommons, N>(&mut self.c, &mut self.list);
            refused = refused.wrapping_add(lost);
        }
        refused.saturating_mul(N as u64)
    }

    /// Ends the worker's seat.
    pub fn end(self) {
        let Bare {
            c,
            list: _,
            width: _,
        } = self;
        c.into_seat().lose();
    }
}

impl<'a> Rounds for Bare<'a> {
    fn rounds(&mut self, count: u64) -> u64 {
        match self.width {
            Width::One => self.rounds_of::<1>(count),
            Width::Eight => self.rounds_of::<8>(count),
            Width::ThirtyTwo => self.rounds_of::<32>(count),
        }
    }
}

/// Gets the first `N` of a list and puts them back, and answers how many of the calls were refused.
#[inline(always)]
fn first_there_and_back<C: Commons, const N: usize>(c: &mut C, list: &mut [u32]) -> u64
    requires some { 0 < N }
    requires few { N ≤ length list.old }
{
    there_and_back(c, &mut list[..N])
}

/// Gets a list and puts it back, and answers how many of the calls were refused. A put is made
/// again until it succeeds.
#[inline(always)]
fn there_and_back<C: Commons>(c: &mut C, list: &mut [u32]) -> u64
    requires { 0 < length list.old }
{
    if c.get_list(list).is_err() {
        return 1;
    }
    put_back(c, list)
}

/// Puts a list back, and answers how often that was refused before.
#[inline(always)]
fn put_back<C: Commons>(c: &mut C, list: &[u32]) -> u64
    requires some { 0 < length list.now }
    requires in_hand { (i : ℕ) → bag list.now i ≤ (C.side c.old).hand i }
{
    for refused in 0..u64::MAX {
        if c.put_list(list).is_ok() {
            return refused;
        }
    }
    u64::MAX
}
