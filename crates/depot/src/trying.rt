//! A magazine is taken off a stack or given to it, by as many tries as the depot allows.

ghost use Rattle.std.specs.Prelude.{◌≡◌, ℕ, ◌<◌, List, [], ◌∷◌, IfOk, IfSome};
ghost use Rattle.atomic_table.specs.Table.{rest};
ghost use Rattle.commons.specs.Bag.{bag};
ghost use Rattle.depot.specs.Bags.{Includes};
ghost use Rattle.depot.specs.Rule.{Suits};
ghost use Rattle.depot.specs.Seats.{IsOf, Takes, TakesOnce, Gives, GivesOnce};

use crate::cause::Cause;
use crate::depot::Depot;
use crate::magazine::Magazine;
use crate::steps::{SPENT, count_of, top_of};
use crate::view::{Stack, View};
use atomic_table::Seat;
use crossbeam_utils::Backoff;

impl Depot {
    /// Tries once to take the top of a stack.
    #[inline(always)]
    fn try_take(
        &self,
        seat: &mut Seat<Magazine, View>,
        stack: Stack,
    ) -> Result<Option<usize>, Cause>
        requires of { IsOf self.now seat.old }
        ensures of { IsOf self.now seat.new }
        ensures once { TakesOnce self.now stack result seat.old.me seat.new.me }
        ensures inside { IfOk result (λ took. IfSome took (λ m. m < self.now.table.slots)) }
    {
        let head = self.load_head(seat, stack);
        let top = top_of(head);
        if top == 0 {
            return match stack {
                Stack::Full | Stack::Partial => Err(Cause::NoEntries),
                Stack::Empty => Err(Cause::NoMagazine),
            };
        }
        if count_of(head) >= SPENT {
            return Err(Cause::HeadSpent);
        }
        let magazine = (top - 1) as usize;
        let link = self.load_link(seat, magazine);
        if self.take_top(seat, stack, head, link) {
            Ok(Some(magazine))
        } else {
            Ok(None)
        }
    }

    /// Takes the top of a stack: the seat has its magazine then, behind which stand those that it
    /// had, and the magazine's elements are in its hand.
    ///
    /// Refused `NoEntries` or `NoMagazine` where the stack was empty, `HeadSpent` where its count
    /// was spent, and `Contended` after as many lost exchanges as the depot allows.
    #[inline(always)]
    pub(crate) fn take(&self, seat: &mut Seat<Magazine, View>, stack: Stack) -> Result<usize, Cause>
        requires of { IsOf self.now seat.old }
        ensures of { IsOf self.now seat.new }
        ensures did { Takes self.now stack result seat.old.me seat.new.me }
        ensures inside { IfOk result (λ m. m < self.now.table.slots) }
    {
        let backoff = Backoff::new();
        for _ in 0..self.tries {
            match self.try_take(seat, stack) {
                Ok(Some(magazine)) => return Ok(magazine),
                Ok(None) => backoff.spin(),
                Err(cause) => return Err(cause),
            }
        }
        Err(Cause::Contended)
    }

    /// Tries once to give the magazine that was taken last to a stack. To that of partial ones it
    /// goes only where none is there: where one is, the exchange expects none, and is lost.
    #[inline(always)]
    pub(crate) fn try_give(
        &self,
        seat: &mut Seat<Magazine, View>,
        stack: Stack,
        magazine: usize,
    ) -> Result<bool, Cause>
        requires of { IsOf self.now seat.old }
        requires inside { magazine < self.now.table.slots }
        requires out { 0 < bag seat.old.me.0.out magazine }
        requires elements { (xs : List ℕ) × (seat.old.me.1 ≡ (magazine, xs) ∷ rest seat.old.me.1)
            × Includes seat.old.me.0.hand xs × Suits self.now.rounds stack xs }
        ensures of { IsOf self.now seat.new }
        ensures once { (xs : List ℕ) → seat.old.me.1 ≡ (magazine, xs) ∷ rest seat.old.me.1 →
            GivesOnce self.now.tries stack magazine xs (rest seat.old.me.1) result
            seat.old.me seat.new.me }
    {
        let found = self.load_head(seat, stack);
        if count_of(found) >= SPENT {
            return Err(Cause::HeadSpent);
        }
        let head = match stack {
            Stack::Partial => count_of(found) * 65536,
            Stack::Full | Stack::Empty => found,
        };
        self.store_link(seat, magazine, top_of(head));
        if self.give_top(seat, stack, head, magazine) {
            Ok(true)
        } else {
            Ok(false)
        }
    }

    /// Gives the magazine that was taken last to a stack, with its elements: to that of partial
    /// ones where it is empty.
    ///
    /// Refused `HeadSpent` where the stack's count was spent, and `Contended` after as many lost
    /// exchanges as the depot allows.
    #[inline(always)]
    pub(crate) fn give(
        &self,
        seat: &mut Seat<Magazine, View>,
        stack: Stack,
        magazine: usize,
    ) -> Result<(), Cause>
        requires of { IsOf self.now seat.old }
        requires inside { magazine < self.now.table.slots }
        requires out { 0 < bag seat.old.me.0.out magazine }
        requires elements { (xs : List ℕ) × (seat.old.me.1 ≡ (magazine, xs) ∷ rest seat.old.me.1)
            × Includes seat.old.me.0.hand xs × Suits self.now.rounds stack xs }
        ensures of { IsOf self.now seat.new }
        ensures did { (xs : List ℕ) → seat.old.me.1 ≡ (magazine, xs) ∷ rest seat.old.me.1 →
            Gives self.now.tries stack magazine xs (rest seat.old.me.1) result
            seat.old.me seat.new.me }
    {
        let backoff = Backoff::new();
        for _ in 0..self.tries {
            match self.try_give(seat, stack, magazine) {
                Ok(true) => return Ok(()),
                Ok(false) => backoff.spin(),
                Err(cause) => return Err(cause),
            }
        }
        Err(Cause::Contended)
    }
}
