//! How a depot with places is made, and racks for it, each with a number of its own.

ghost use Rattle.std.specs.Prelude.{◌≡◌, ℕ, ◌<◌, ◌≤◌, [], IfOk};
ghost use Rattle.std.specs.VecDeque.{deque_capacity};
ghost use Rattle.commons.specs.Bag.{bag};
ghost use Rattle.depot.specs.Answers.{contents};
ghost use Rattle.depot.specs.Lending.{AreOf, elements};
ghost use Rattle.depot.specs.Racks.{Racked};
ghost use Rattle.depot.specs.Resting.{IsBare, IsNumber};
ghost use Rattle.depot.specs.Rolls.{IsRoll};
ghost use Rattle.depot.specs.Seats.{IsOf, lent};

use crate::cause::{Cause, Refusal};
use crate::depot::Depot;
use crate::loans::Loans;
use crate::magazine::Magazine;
use crate::opening::Size;
use crate::rack::Rack;
use crate::view::{Stack, View};
use atomic_table::Seat;
use std::alloc::{AllocError, Global};
use std::collections::VecDeque;
use std::mem;

/// The numbers are below this one: 2^63.
const LAST_NUMBER: u64 = 9223372036854775808;

/// The numbers that no rack has yet.
pub struct Roll {
    pub(crate) seat: Seat<Magazine, View>,
    pub(crate) next: u64,
}

impl Depot {
    /// A rack of this seat, with two empty magazines.
    ///
    /// Refused as a take of an empty magazine is. Where the second take is refused, the magazine
    /// that had come goes back to the depot; and where that gift is refused too, the magazine is
    /// lost, with none of the elements.
    pub(crate) fn rack(
        &self,
        mut seat: Seat<Magazine, View>,
        behind: VecDeque<usize, Global>,
    ) -> Result<Rack, Cause>
        requires of { IsOf self.now seat }
        requires magazines { seat.me.1 ≡ [] }
        requires hand { seat.me.0.hand ≡ [] }
        requires out { seat.me.0.out ≡ [] }
        requires none { behind.items ≡ [] }
        requires room { self.now.table.slots ≤ deque_capacity behind }
        ensures racked { IfOk result (Racked self.now) }
        ensures resting { IfOk result (λ w. w.seat.me.0.resting ≡ seat.me.0.resting) }
        ensures settled { IfOk result (λ w. (i : ℕ) → lent w.seat.me i ≡ 0) }
        ensures empty { IfOk result (λ w. contents w.seat.me.1 ≡ []) }
    {
        match self.take(&mut seat, Stack::Empty) {
            Ok(front) => {
                let mut rack = Rack::of(self, seat, front, behind);
                match rack.fetch_empty(self) {
                    Ok(()) => Ok(rack),
                    Err(cause) => {
                        rack.end(self);
                        Err(cause)
                    }
                }
            }
            Err(cause) => Err(cause),
        }
    }

    /// Makes a depot of so many elements, each of which has a place, at which nothing rests. All
    /// its magazines are empty and at the depot, and all its elements are lent: a rack takes them
    /// in. The roll makes the racks.
    ///
    /// Refused where there is no memory.
    pub fn make_with_places(
        alloc: Global,
        population: u32,
        size: Size,
        tries: u32,
    ) -> Result<(Depot, Loans, Roll), AllocError>
        requires magazines { size.magazines < 65535 }
        requires some_rounds { 0 < size.rounds }
        requires few_rounds { size.rounds ≤ 128 }
        ensures population { IfOk result (λ made. made.0.population ≡ population) }
        ensures places { IfOk result (λ made. made.0.places ≡ population) }
        ensures magazines { IfOk result (λ made. made.0.table.slots ≡ size.magazines) }
        ensures rounds { IfOk result (λ made. made.0.rounds ≡ size.rounds) }
        ensures tries { IfOk result (λ made. made.0.tries ≡ tries) }
        ensures loans { IfOk result (λ made. AreOf made.0 made.1) }
        ensures all { IfOk result (λ made. (i : ℕ) → i < population → bag (elements made.1) i ≡ 1) }
        ensures none { IfOk result (λ made. (i : ℕ) → population ≤ i → bag (elements made.1) i ≡ 0) }
        ensures roll { IfOk result (λ made. IsRoll made.0 made.2) }
    {
        let (depot, mut seat) = Depot::make_seat(
            alloc,
            u64::from(population),
            population,
            size,
            tries,
        )?;
        let others = depot.deal(&mut seat);
        let roll = Roll {
            seat: others,
            next: 2,
        };
        Ok((depot, Loans::of(seat), roll))
    }
}

impl Roll {
    /// Makes one more rack, with two empty magazines, and a number that no other has. It takes room
    /// for the numbers of all magazines, so that its calls take no memory.
    ///
    /// Refused `Memory` where there is no memory, or no number, which is so after 2^63 racks; and as
    /// a take of an empty magazine is.
    pub fn rack(&mut self, alloc: Global, depot: &Depot) -> Result<(Rack, u64), Refusal>
        requires roll { IsRoll depot.now self.old }
        ensures roll { IsRoll depot.now self.new }
        ensures racked { IfOk result (λ made. Racked depot.now made.0) }
        ensures settled { IfOk result (λ made. (i : ℕ) → lent made.0.seat.me i ≡ 0) }
        ensures number { IfOk result (λ made. IsNumber made.0.seat.me.0.resting made.1) }
        ensures some { IfOk result (λ made. 0 < made.1) }
        ensures bare { IfOk result (λ made. IsBare made.0.seat.me.0.resting) }
        ensures empty { IfOk result (λ made. contents made.0.seat.me.1 ≡ []) }
    {
        if self.next >= LAST_NUMBER {
            return Err(Refusal::Memory);
        }
        let Ok(behind) = Rack::places(alloc, depot) else {
            return Err(Refusal::Memory);
        };
        let number = self.next;
        let others = depot.deal(&mut self.seat);
        let seat = mem::replace(&mut self.seat, others);
        self.next = number + 1;
        match depot.rack(seat, behind) {
            Ok(rack) => Ok((rack, number)),
            Err(cause) => Err(Refusal::Cause(cause)),
        }
    }
}

impl Drop for Roll {
    fn drop(self) {
        let Roll { seat: _, next: _ } = self;
    }
}
