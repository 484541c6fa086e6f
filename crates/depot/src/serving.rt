//! Gets and puts that aren't at hand: what the magazine in front can't serve is fetched first, so
//! that a list goes whole or not at all.

ghost use Rattle.std.specs.Prelude.{◌≡◌, ℕ, ◌≤◌, [], ◌∷◌, length, IfOk, IfErr};
ghost use Rattle.commons.specs.Bag.{bag};
ghost use Rattle.depot.specs.Racks.{Racked, SameLent, Lends, Refused, stock, room};
ghost use Rattle.depot.specs.Seats.{Logs, IsCause, lent};

use crate::cause::Cause;
use crate::depot::Depot;
use crate::rack::Rack;

impl Rack {
    /// Fetches magazines with elements, until the rack has so many.
    ///
    /// Refused as a take is. What came stays.
    fn fetch_stock(&mut self, depot: &Depot, n: usize) -> Result<(), Cause>
        requires racked { Racked depot.now self.old }
        ensures racked { Racked depot.now self.new }
        ensures logs { Logs self.old.seat.me.0 self.new.seat.me.0 }
        ensures lent { SameLent self.old.seat.me self.new.seat.me }
        ensures enough { IfOk result (λ _. n ≤ stock self.new.seat.me.1) }
        ensures cause { IfErr result (λ cause. IsCause depot.now.tries cause self.old.seat.me.0
            self.new.seat.me.0) }
    {
        let mut stock = self.load(depot).stock;
        while stock < n {
            if let Err(cause) = self.fetch_some(depot) {
                return Err(cause);
            }
            stock += self.len(depot);
        }
        Ok(())
    }

    /// Fetches empty magazines, until the rack has room for so many elements.
    ///
    /// Refused as a take is. What came stays.
    fn fetch_room(&mut self, depot: &Depot, n: usize) -> Result<(), Cause>
        requires racked { Racked depot.now self.old }
        ensures racked { Racked depot.now self.new }
        ensures logs { Logs self.old.seat.me.0 self.new.seat.me.0 }
        ensures lent { SameLent self.old.seat.me self.new.seat.me }
        ensures enough { IfOk result (λ _. n ≤ room depot.now.rounds self.new.seat.me.1) }
        ensures cause { IfErr result (λ cause. IsCause depot.now.tries cause self.old.seat.me.0
            self.new.seat.me.0) }
    {
        let mut room = self.load(depot).room;
        while room < n {
            if let Err(cause) = self.fetch_empty(depot) {
                return Err(cause);
            }
            room += self.rounds;
        }
        Ok(())
    }

    /// A get that the magazine in front can't serve.
    pub(crate) fn get_apart(&mut self, depot: &Depot, out: &mut [u64]) -> Result<(), Cause>
        requires racked { Racked depot.now self.old }
        ensures racked { Racked depot.now self.new }
        ensures logs { Logs self.old.seat.me.0 self.new.seat.me.0 }
        ensures ok { IfOk result (λ _. Lends out.new self.old.seat.me self.new.seat.me) }
        ensures err { IfErr result (λ cause. Refused depot.now.tries cause self.old.seat.me
            self.new.seat.me) }
    {
        match self.fetch_stock(depot, out.len()) {
            Ok(()) => {
                self.take_all(depot, out);
                self.tidy(depot);
                self.pass_empty(depot);
                Ok(())
            }
            Err(cause) => {
                self.tidy(depot);
                Err(cause)
            }
        }
    }

    /// A put for which the magazine in front has no room.
    pub(crate) fn put_apart(&mut self, depot: &Depot, list: &[u64]) -> Result<(), Cause>
        requires racked { Racked depot.now self.old }
        requires lent { (i : ℕ) → bag list.now i ≤ lent self.old.seat.me i }
        ensures racked { Racked depot.now self.new }
        ensures logs { Logs self.old.seat.me.0 self.new.seat.me.0 }
        ensures ok { IfOk result (λ _. Lends list.now self.new.seat.me self.old.seat.me) }
        ensures err { IfErr result (λ cause. Refused depot.now.tries cause self.old.seat.me
            self.new.seat.me) }
    {
        match self.fetch_room(depot, list.len()) {
            Ok(()) => {
                self.add_all(depot, list);
                self.tidy(depot);
                self.pass_full(depot);
                Ok(())
            }
            Err(cause) => {
                self.tidy(depot);
                Err(cause)
            }
        }
    }

    /// A get of one element that the magazine in front can't serve.
    #[inline(never)]
    fn get_one_apart(&mut self, depot: &Depot) -> Result<u64, Cause>
        requires racked { Racked depot.now self.old }
        ensures racked { Racked depot.now self.new }
        ensures logs { Logs self.old.seat.me.0 self.new.seat.me.0 }
        ensures ok { IfOk result (λ x. Lends (x ∷ []) self.old.seat.me self.new.seat.me) }
        ensures err { IfErr result (λ cause. Refused depot.now.tries cause self.old.seat.me
            self.new.seat.me) }
    {
        let mut out = [0; 1];
        match self.get_apart(depot, &mut out) {
            Ok(()) => Ok(out[0]),
            Err(cause) => Err(cause),
        }
    }

    /// Takes one element out of the magazines.
    #[inline(always)]
    pub fn get_one(&mut self, depot: &Depot) -> Result<u64, Cause>
        requires racked { Racked depot.now self.old }
        ensures racked { Racked depot.now self.new }
        ensures logs { Logs self.old.seat.me.0 self.new.seat.me.0 }
        ensures ok { IfOk result (λ x. Lends (x ∷ []) self.old.seat.me self.new.seat.me) }
        ensures err { IfErr result (λ cause. Refused depot.now.tries cause self.old.seat.me
            self.new.seat.me) }
    {
        if self.len(depot) > 0 {
            return Ok(self.take_one(depot));
        }
        self.get_one_apart(depot)
    }

    /// Puts one element into the magazines.
    #[inline(always)]
    pub fn put_one(&mut self, depot: &Depot, value: u64) -> Result<(), Cause>
        requires racked { Racked depot.now self.old }
        requires lent { (i : ℕ) → bag (value ∷ []) i ≤ lent self.old.seat.me i }
        ensures racked { Racked depot.now self.new }
        ensures logs { Logs self.old.seat.me.0 self.new.seat.me.0 }
        ensures ok { IfOk result (λ _. Lends (value ∷ []) self.new.seat.me self.old.seat.me) }
        ensures err { IfErr result (λ cause. Refused depot.now.tries cause self.old.seat.me
            self.new.seat.me) }
    {
        if self.len(depot) < self.at_hand {
            self.add_one(depot, value);
            return Ok(());
        }
        self.put_apart(depot, &[value])
    }
}
