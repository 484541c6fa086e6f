//! The magazines that a worker has: two between calls, more within one, and where the depot took
//! none back.

ghost use Rattle.std.specs.Prelude.{◌≡◌, ℕ, ◌+◌, ◌<◌, ◌≤◌, ◌++◌, [], ◌∷◌, length, IfOk};
ghost use Rattle.std.specs.VecDeque.{deque_capacity};
ghost use Rattle.atomic_table.specs.Table.{turned};
ghost use Rattle.commons.specs.Bag.{bag};
ghost use Rattle.depot.specs.Racks.{Racked, Keeps, Lets, front_of};
ghost use Rattle.depot.specs.Seats.{IsOf, Logs, lent};

use crate::depot::Depot;
use crate::magazine::Magazine;
use crate::view::View;
use atomic_table::Seat;
use std::alloc::{AllocError, Global};
use std::collections::VecDeque;

/// A worker's magazines, with its seat: a ring, of which one stands in front, at hand.
///
/// It can't be dropped: it ends by `end`, or by `lose`.
pub struct Rack {
    pub(crate) seat: Seat<Magazine, View>,
    pub(crate) front: usize,
    /// How many elements a full magazine has.
    pub(crate) rounds: usize,
    /// How many elements a put at hand may leave in the magazine in front: as many as a full one
    /// has, or 0 where a call leaves nothing in the magazines.
    pub(crate) at_hand: usize,
    /// The others, as they come to the front. There is room for all that the depot has.
    pub(crate) behind: VecDeque<usize, Global>,
}

impl Rack {
    /// Takes room for the numbers of all magazines that the depot has. (A call takes no memory.)
    pub(crate) fn places(
        alloc: Global,
        depot: &Depot,
    ) -> Result<VecDeque<usize, Global>, AllocError>
        ensures none { IfOk result (λ v. v.items ≡ []) }
        ensures room { IfOk result (λ v. depot.now.table.slots ≤ deque_capacity v) }
    {
        VecDeque::with_capacity(alloc, depot.table.slot_count())
    }

    /// The rack of a seat with this one magazine, which is empty.
    pub(crate) fn of(
        depot: &Depot,
        seat: Seat<Magazine, View>,
        front: usize,
        behind: VecDeque<usize, Global>,
    ) -> Rack
        requires of { IsOf depot.now seat }
        requires hand { seat.me.0.hand ≡ [] }
        requires out { seat.me.0.out ≡ front ∷ [] }
        requires magazines { seat.me.1 ≡ (front, []) ∷ [] }
        requires inside { front < depot.now.table.slots }
        requires none { behind.items ≡ [] }
        requires room { depot.now.table.slots ≤ deque_capacity behind }
        ensures racked { Racked depot.now result }
        ensures settled { (i : ℕ) → lent result.seat.me i ≡ 0 }
        ensures seat { result.seat.me ≡ seat.me }
    {
        Rack {
            seat,
            front,
            rounds: depot.rounds as usize,
            at_hand: depot.at_hand(),
            behind,
        }
    }

    /// How many magazines there are.
    #[inline(always)]
    pub(crate) fn count(&self, depot: &Depot) -> usize
        requires racked { Racked depot.now self.now }
        ensures count { result ≡ length self.now.seat.me.1 }
        ensures least { 1 ≤ result }
        ensures most { result < 65535 }
    {
        let _ = depot;
        self.behind.len() + 1
    }

    /// Where the magazine in front lies.
    pub(crate) fn front_address(&mut self, depot: &Depot) -> *mut u8
        requires racked { Racked depot.now self.old }
        ensures racked { Racked depot.now self.new }
        ensures me { self.new.seat.me ≡ self.old.seat.me }
    {
        depot.front_address(&mut self.seat, self.front)
    }

    /// How many elements the magazine in front has.
    #[inline(always)]
    pub(crate) fn len(&mut self, depot: &Depot) -> usize
        requires racked { Racked depot.now self.old }
        ensures racked { Racked depot.now self.new }
        ensures same { self.new ≡ self.old }
        ensures me { self.new.seat.me ≡ self.old.seat.me }
        ensures len { result ≡ length (front_of self.old.seat.me.1) }
        ensures most { result ≤ depot.now.rounds }
    {
        depot.front_len(&mut self.seat, self.front)
    }

    /// Takes as many elements off the magazine in front as `out` has places.
    #[inline(always)]
    pub(crate) fn take(&mut self, depot: &Depot, out: &mut [u64])
        requires racked { Racked depot.now self.old }
        requires enough { length out.old ≤ length (front_of self.old.seat.me.1) }
        ensures racked { Racked depot.now self.new }
        ensures logs { Logs self.old.seat.me.0 self.new.seat.me.0 }
        ensures lets { Lets depot.now.rounds out.new self.old.seat.me self.new.seat.me }
    {
        depot.take_front(&mut self.seat, self.front, out);
    }

    /// Adds a list, of elements outside of the magazines, to the one in front.
    #[inline(always)]
    pub(crate) fn add(&mut self, depot: &Depot, list: &[u64])
        requires racked { Racked depot.now self.old }
        requires lent { (i : ℕ) → bag list.now i ≤ lent self.old.seat.me i }
        requires room { length (front_of self.old.seat.me.1) + length list.now ≤ depot.now.rounds }
        ensures racked { Racked depot.now self.new }
        ensures logs { Logs self.old.seat.me.0 self.new.seat.me.0 }
        ensures lets { Lets depot.now.rounds list.now self.new.seat.me self.old.seat.me }
        ensures front { front_of self.new.seat.me.1 ≡ front_of self.old.seat.me.1 ++ list.now }
    {
        depot.add_front(&mut self.seat, self.front, list);
    }

    /// Takes one element off the magazine in front.
    #[inline(always)]
    pub(crate) fn take_one(&mut self, depot: &Depot) -> u64
        requires racked { Racked depot.now self.old }
        requires enough { 0 < length (front_of self.old.seat.me.1) }
        ensures racked { Racked depot.now self.new }
        ensures logs { Logs self.old.seat.me.0 self.new.seat.me.0 }
        ensures lets { Lets depot.now.rounds (result ∷ []) self.old.seat.me self.new.seat.me }
    {
        depot.take_one_front(&mut self.seat, self.front)
    }

    /// Adds one element, from outside of the magazines, to the one in front.
    #[inline(always)]
    pub(crate) fn add_one(&mut self, depot: &Depot, value: u64)
        requires racked { Racked depot.now self.old }
        requires lent { (i : ℕ) → bag (value ∷ []) i ≤ lent self.old.seat.me i }
        requires room { length (front_of self.old.seat.me.1) < depot.now.rounds }
        ensures racked { Racked depot.now self.new }
        ensures logs { Logs self.old.seat.me.0 self.new.seat.me.0 }
        ensures lets { Lets depot.now.rounds (value ∷ []) self.new.seat.me self.old.seat.me }
    {
        depot.add_one_front(&mut self.seat, self.front, value);
    }

    /// Brings the next magazine to the front. The one that was there goes behind all others.
    #[inline(always)]
    pub(crate) fn turn(&mut self, depot: &Depot)
        requires racked { Racked depot.now self.old }
        ensures racked { Racked depot.now self.new }
        ensures logs { Logs self.old.seat.me.0 self.new.seat.me.0 }
        ensures rows { self.new.seat.me.1 ≡ turned self.old.seat.me.1 }
        ensures keeps { Keeps depot.now.rounds self.old.seat.me self.new.seat.me }
    {
        let _ = depot;
        self.seat.turn();
        self.behind.push_back_reserved(self.front);
        match self.behind.pop_front() {
            Some(next) => self.front = next,
            None => unreachable!(),
        }
    }

    /// Ends the seat. What it has stays where it is.
    pub fn lose(self) {
        let Rack {
            seat,
            front: _,
            rounds: _,
            at_hand: _,
            behind,
        } = self;
        drop(seat);
        drop(behind);
    }
}
