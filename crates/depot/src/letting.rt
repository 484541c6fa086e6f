//! A worker takes loans in, and lets out what it lends.

ghost use Rattle.std.specs.Prelude.{◌≡◌, ℕ, ◌+◌};
ghost use Rattle.commons.specs.Bag.{bag};
ghost use Rattle.depot.specs.Lending.{AreOf, AreOnce, IsSettled, elements};
ghost use Rattle.depot.specs.Racks.{Racked};
ghost use Rattle.depot.specs.Seats.{LetsOut, Reads, TakesIn, lent};

use crate::depot::Depot;
use crate::loans::Loans;
use crate::rack::Rack;

impl Rack {
    /// Takes all loans into the hand of a rack's seat, beside what is lent already.
    #[inline(always)]
    pub fn take_in(&mut self, depot: &Depot, loans: &mut Loans)
        requires racked { Racked depot.now self.old }
        requires of { AreOf depot.now loans.old }
        ensures racked { Racked depot.now self.new }
        ensures rows { self.new.seat.me.1 ≡ self.old.seat.me.1 }
        ensures at_hand { self.new.at_hand ≡ self.old.at_hand }
        ensures lent { (i : ℕ) → lent self.new.seat.me i ≡ lent self.old.seat.me i + bag
            (elements loans.old) i }
        ensures reads { Reads self.old.seat.me.0 self.new.seat.me.0 }
        ensures passes { TakesIn (elements loans.old) self.old.seat.me.0 self.new.seat.me.0 }
    {
        depot.join(&mut self.seat, loans.take());
    }

    /// Lends all that is in the hand and not in the magazines.
    #[inline(always)]
    pub(crate) fn let_out(&mut self, depot: &Depot, loans: &mut Loans)
        requires racked { Racked depot.now self.old }
        ensures racked { Racked depot.now self.new }
        ensures settled { IsSettled self.new }
        ensures of { AreOf depot.now loans.new }
        ensures once { AreOnce depot.now loans.new }
        ensures lent { (i : ℕ) → bag (elements loans.new) i ≡ lent self.old.seat.me i }
        ensures rows { self.new.seat.me.1 ≡ self.old.seat.me.1 }
        ensures reads { Reads self.old.seat.me.0 self.new.seat.me.0 }
        ensures passes { LetsOut (elements loans.new) self.old.seat.me.0 self.new.seat.me.0 }
    {
        depot.note(&mut self.seat);
        *loans = Loans::of(depot.part(&mut self.seat));
    }
}
