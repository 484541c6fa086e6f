//! A worker at a depot, with its magazines.

ghost use Rattle.std.specs.Prelude.{◌≡◌, ℕ, ◌+◌, ◌≤◌, true, false, [], ◌∷◌, length, None, Ok, IfOk, IfErr, IfSome};
ghost use Rattle.commons.specs.Bag.{bag};
ghost use Rattle.depot.specs.Lending.{AreOf, AreOnce, IsWorker, GetsLoans, PutsLoans, KeepsAll, GetsCount, PutsCount, cached, count_of, elements, lent_list, lent_one, log_of};
ghost use Rattle.depot.specs.Seats.{IsCause, Logs};

use crate::cause::Cause;
use crate::depot::Depot;
use crate::loans::Loans;
use crate::rack::Rack;

/// A worker at a depot: a seat, and two magazines between calls, more where the depot took none
/// back. What it gets it lends, and what it puts it takes in, so that any worker may put what
/// another got.
///
/// It can't be dropped, since what is in its magazines would be lost unseen: it ends by `end`, or
/// by `lose` where it has died.
pub struct Worker {
    pub(crate) rack: Rack,
    /// What its calls have put less what they got, modulo 2^64.
    count: u64,
}

impl Worker {
    #[inline(always)]
    pub(crate) fn of(rack: Rack) -> Worker
        ensures rack { result.rack ≡ rack }
        ensures count { result.count ≡ 0 }
    {
        Worker { rack, count: 0 }
    }

    /// What this worker's calls have put less what they got, modulo 2^64: the counts of all workers
    /// add up to what is in the pool.
    pub fn count(&self) -> u64
        ensures { result ≡ count_of self.now }
    {
        self.count
    }

    /// Where the magazine in front of this worker lies, for readers of memory: all magazines lie
    /// side by side, by their numbers, and this one has that of `front_number`.
    pub fn front_address(&mut self, depot: &Depot) -> *mut u8
        requires of { IsWorker depot.now self.old }
        ensures of { IsWorker depot.now self.new }
        ensures cached { cached self.new ≡ cached self.old }
        ensures log { log_of self.new ≡ log_of self.old }
        ensures count { count_of self.new ≡ count_of self.old }
    {
        self.rack.front_address(depot)
    }

    /// The number of the magazine in front, from 0.
    pub fn front_number(&self) -> u64 {
        self.rack.front as u64
    }

    /// Gets a list off the magazine in front, and adds its loans. Says whether it did: where that
    /// magazine has fewer elements nothing has changed, and `get` may find them elsewhere.
    #[inline(always)]
    pub fn get_at_hand(&mut self, depot: &Depot, out: &mut [u64], loans: &mut Loans) -> bool
        requires of { IsWorker depot.now self.old }
        requires loans { AreOf depot.now loans.old }
        ensures of { IsWorker depot.now self.new }
        ensures loans { AreOf depot.now loans.new }
        ensures kept { KeepsAll (log_of self.old) loans.old (log_of self.new) loans.new }
        ensures once { result ≡ true → AreOnce depot.now loans.new }
        ensures got { result ≡ true → GetsLoans depot.now.tries (Ok out.new) self.old loans.old
            self.new loans.new }
        ensures count { result ≡ true → GetsCount (Ok out.new) self.old self.new }
        ensures less { result ≡ true → length (cached self.new) + length out.new ≡ length (cached
            self.old) }
        ensures not { result ≡ false → (self.new ≡ self.old) × (loans.new ≡ loans.old)
            × (out.new ≡ out.old) }
    {
        let n = out.len();
        if n > self.rack.len(depot) {
            return false;
        }
        self.count = self.count.wrapping_sub(n as u64);
        self.rack.take(depot, out);
        self.rack.take_in(depot, loans);
        self.rack.let_out(depot, loans);
        true
    }

    /// Puts a list of elements of which there are loans into the magazine in front. Says whether it
    /// did: where that has no room for them, or nothing may stay in it, nothing has changed, and
    /// `put` may find room elsewhere.
    #[inline(always)]
    pub fn put_at_hand(&mut self, depot: &Depot, list: &[u64], loans: &mut Loans) -> bool
        requires of { IsWorker depot.now self.old }
        requires loans { AreOf depot.now loans.old }
        requires lent { (i : ℕ) → bag list.now i ≤ bag (elements loans.old) i }
        ensures of { IsWorker depot.now self.new }
        ensures loans { AreOf depot.now loans.new }
        ensures kept { KeepsAll (log_of self.old) loans.old (log_of self.new) loans.new }
        ensures once { result ≡ true → AreOnce depot.now loans.new }
        ensures put { result ≡ true → PutsLoans depot.now.tries list.now (Ok tt) self.old loans.old
            self.new loans.new }
        ensures count { result ≡ true → PutsCount list.now (Ok tt) self.old self.new }
        ensures more { result ≡ true → length (cached self.new) ≡ length (cached self.old) + length
            list.now }
        ensures not { result ≡ false → (self.new ≡ self.old) × (loans.new ≡ loans.old) }
    {
        let n = list.len();
        if n + self.rack.len(depot) > self.rack.at_hand {
            return false;
        }
        self.count = self.count.wrapping_add(n as u64);
        self.rack.take_in(depot, loans);
        self.rack.add(depot, list);
        self.rack.let_out(depot, loans);
        true
    }

    /// Gets the last element of the magazine in front, and adds its loan. `None` where that has
    /// none: then nothing has changed, and `get_one` may find one elsewhere.
    #[inline(always)]
    pub fn get_one_at_hand(&mut self, depot: &Depot, loans: &mut Loans) -> Option<u64>
        requires of { IsWorker depot.now self.old }
        requires loans { AreOf depot.now loans.old }
        ensures of { IsWorker depot.now self.new }
        ensures loans { AreOf depot.now loans.new }
        ensures kept { KeepsAll (log_of self.old) loans.old (log_of self.new) loans.new }
        ensures once { IfSome result (λ _. AreOnce depot.now loans.new) }
        ensures got { IfSome result (λ x. GetsLoans depot.now.tries (Ok (x ∷ [])) self.old loans.old
            self.new loans.new) }
        ensures count { IfSome result (λ x. GetsCount (Ok (x ∷ [])) self.old self.new) }
        ensures less { IfSome result (λ _. length (cached self.new) + 1 ≡ length (cached self.old)) }
        ensures none { result ≡ None → (self.new ≡ self.old) × (loans.new ≡ loans.old) }
    {
        if self.rack.len(depot) == 0 {
            return None;
        }
        let value = self.rack.take_one(depot);
        self.rack.take_in(depot, loans);
        self.rack.let_out(depot, loans);
        self.count = self.count.wrapping_sub(1);
        Some(value)
    }

    /// Puts one element of which there is a loan on top of the magazine in front. Says whether it
    /// did, as `put_at_hand` does.
    #[inline(always)]
    pub fn put_one_at_hand(&mut self, depot: &Depot, value: u64, loans: &mut Loans) -> bool
        requires of { IsWorker depot.now self.old }
        requires loans { AreOf depot.now loans.old }
        requires lent { (i : ℕ) → bag (value ∷ []) i ≤ bag (elements loans.old) i }
        ensures of { IsWorker depot.now self.new }
        ensures loans { AreOf depot.now loans.new }
        ensures kept { KeepsAll (log_of self.old) loans.old (log_of self.new) loans.new }
        ensures once { result ≡ true → AreOnce depot.now loans.new }
        ensures put { result ≡ true → PutsLoans depot.now.tries (value ∷ []) (Ok tt) self.old
            loans.old self.new loans.new }
        ensures count { result ≡ true → PutsCount (value ∷ []) (Ok tt) self.old self.new }
        ensures more { result ≡ true → length (cached self.new) ≡ length (cached self.old) + 1 }
        ensures not { result ≡ false → (self.new ≡ self.old) × (loans.new ≡ loans.old) }
    {
        if self.rack.len(depot) >= self.rack.at_hand {
            return false;
        }
        self.rack.take_in(depot, loans);
        self.rack.add_one(depot, value);
        self.rack.let_out(depot, loans);
        self.count = self.count.wrapping_add(1);
        true
    }

    /// A get that isn't one at hand.
    #[inline(never)]
    fn get_apart(&mut self, depot: &Depot, out: &mut [u64], loans: &mut Loans) -> Result<(), Cause>
        requires of { IsWorker depot.now self.old }
        requires loans { AreOf depot.now loans.old }
        ensures of { IsWorker depot.now self.new }
        ensures loans { AreOf depot.now loans.new }
        ensures kept { KeepsAll (log_of self.old) loans.old (log_of self.new) loans.new }
        ensures once { AreOnce depot.now loans.new }
        ensures got { GetsLoans depot.now.tries (lent_list result out.new) self.old loans.old
            self.new loans.new }
        ensures count { GetsCount (lent_list result out.new) self.old self.new }
    {
        self.rack.take_in(depot, loans);
        match self.rack.get_apart(depot, out) {
            Ok(()) => {
                self.rack.let_out(depot, loans);
                self.count = self.count.wrapping_sub(out.len() as u64);
                Ok(())
            }
            Err(cause) => {
                self.rack.let_out(depot, loans);
                Err(cause)
            }
        }
    }

    /// Gets as many elements as `out` has places, and adds their loans: all of them, or none.
    ///
    /// Refused, where its magazines have fewer, `NoEntries` where no magazine with elements was at
    /// the depot, `HeadSpent` where the count of a stack there was read spent, and `Contended`
    /// after as many lost exchanges as the depot allows. Nothing is said of `out` then, and the
    /// loans are as before. What came from the depot meanwhile stays with the worker; but where the
    /// depot leaves nothing with workers it goes back, if it is taken.
    #[inline(always)]
    pub fn get(&mut self, depot: &Depot, out: &mut [u64], loans: &mut Loans) -> Result<(), Cause>
        requires of { IsWorker depot.now self.old }
        requires loans { AreOf depot.now loans.old }
        ensures of { IsWorker depot.now self.new }
        ensures loans { AreOf depot.now loans.new }
        ensures kept { KeepsAll (log_of self.old) loans.old (log_of self.new) loans.new }
        ensures once { AreOnce depot.now loans.new }
        ensures got { GetsLoans depot.now.tries (lent_list result out.new) self.old loans.old
            self.new loans.new }
        ensures count { GetsCount (lent_list result out.new) self.old self.new }
    {
        if self.get_at_hand(depot, out, loans) {
            return Ok(());
        }
        self.get_apart(depot, out, loans)
    }

    /// A put that isn't one at hand.
    #[inline(never)]
    fn put_apart(&mut self, depot: &Depot, list: &[u64], loans: &mut Loans) -> Result<(), Cause>
        requires of { IsWorker depot.now self.old }
        requires loans { AreOf depot.now loans.old }
        requires lent { (i : ℕ) → bag list.now i ≤ bag (elements loans.old) i }
        ensures of { IsWorker depot.now self.new }
        ensures loans { AreOf depot.now loans.new }
        ensures kept { KeepsAll (log_of self.old) loans.old (log_of self.new) loans.new }
        ensures once { AreOnce depot.now loans.new }
        ensures put { PutsLoans depot.now.tries list.now result self.old loans.old self.new
            loans.new }
        ensures count { PutsCount list.now result self.old self.new }
    {
        self.rack.take_in(depot, loans);
        match self.rack.put_apart(depot, list) {
            Ok(()) => {
                self.rack.let_out(depot, loans);
                self.count = self.count.wrapping_add(list.len() as u64);
                Ok(())
            }
            Err(cause) => {
                self.rack.let_out(depot, loans);
                Err(cause)
            }
        }
    }

    /// Puts a list of elements of which there are loans, whichever workers got them: all of them,
    /// or none. No two loans are of one element, so the list names each once.
    ///
    /// Refused, where its magazines have no room for it, `NoMagazine` where no empty magazine was
    /// at the depot, and `HeadSpent` and `Contended` as a get is. The elements are lent as before
    /// then.
    #[inline(always)]
    pub fn put(&mut self, depot: &Depot, list: &[u64], loans: &mut Loans) -> Result<(), Cause>
        requires of { IsWorker depot.now self.old }
        requires loans { AreOf depot.now loans.old }
        requires lent { (i : ℕ) → bag list.now i ≤ bag (elements loans.old) i }
        ensures of { IsWorker depot.now self.new }
        ensures loans { AreOf depot.now loans.new }
        ensures kept { KeepsAll (log_of self.old) loans.old (log_of self.new) loans.new }
        ensures once { AreOnce depot.now loans.new }
        ensures put { PutsLoans depot.now.tries list.now result self.old loans.old self.new
            loans.new }
        ensures count { PutsCount list.now result self.old self.new }
    {
        if self.put_at_hand(depot, list, loans) {
            return Ok(());
        }
        self.put_apart(depot, list, loans)
    }

    /// A get of one element where none is at hand.
    #[inline(never)]
    fn get_one_apart(&mut self, depot: &Depot, loans: &mut Loans) -> Result<u64, Cause>
        requires of { IsWorker depot.now self.old }
        requires loans { AreOf depot.now loans.old }
        ensures of { IsWorker depot.now self.new }
        ensures loans { AreOf depot.now loans.new }
        ensures kept { KeepsAll (log_of self.old) loans.old (log_of self.new) loans.new }
        ensures once { AreOnce depot.now loans.new }
        ensures got { GetsLoans depot.now.tries (lent_one result) self.old loans.old self.new
            loans.new }
        ensures count { GetsCount (lent_one result) self.old self.new }
    {
        let mut out = [0; 1];
        match self.get_apart(depot, &mut out, loans) {
            Ok(()) => Ok(out[0]),
            Err(cause) => Err(cause),
        }
    }

    /// Gets one element, and adds its loan.
    ///
    /// Refused as `get` is.
    #[inline(always)]
    pub fn get_one(&mut self, depot: &Depot, loans: &mut Loans) -> Result<u64, Cause>
        requires of { IsWorker depot.now self.old }
        requires loans { AreOf depot.now loans.old }
        ensures of { IsWorker depot.now self.new }
        ensures loans { AreOf depot.now loans.new }
        ensures kept { KeepsAll (log_of self.old) loans.old (log_of self.new) loans.new }
        ensures once { AreOnce depot.now loans.new }
        ensures got { GetsLoans depot.now.tries (lent_one result) self.old loans.old self.new
            loans.new }
        ensures count { GetsCount (lent_one result) self.old self.new }
    {
        if let Some(value) = self.get_one_at_hand(depot, loans) {
            return Ok(value);
        }
        self.get_one_apart(depot, loans)
    }

    /// A put of one element that isn't one at hand.
    #[inline(never)]
    fn put_one_apart(&mut self, depot: &Depot, value: u64, loans: &mut Loans) -> Result<(), Cause>
        requires of { IsWorker depot.now self.old }
        requires loans { AreOf depot.now loans.old }
        requires lent { (i : ℕ) → bag (value ∷ []) i ≤ bag (elements loans.old) i }
        ensures of { IsWorker depot.now self.new }
        ensures loans { AreOf depot.now loans.new }
        ensures kept { KeepsAll (log_of self.old) loans.old (log_of self.new) loans.new }
        ensures once { AreOnce depot.now loans.new }
        ensures put { PutsLoans depot.now.tries (value ∷ []) result self.old loans.old self.new
            loans.new }
        ensures count { PutsCount (value ∷ []) result self.old self.new }
    {
        self.put_apart(depot, &[value], loans)
    }

    /// Puts one element of which there is a loan, whichever worker got it.
    ///
    /// Refused as `put` is.
    #[inline(always)]
    pub fn put_one(&mut self, depot: &Depot, value: u64, loans: &mut Loans) -> Result<(), Cause>
        requires of { IsWorker depot.now self.old }
        requires loans { AreOf depot.now loans.old }
        requires lent { (i : ℕ) → bag (value ∷ []) i ≤ bag (elements loans.old) i }
        ensures of { IsWorker depot.now self.new }
        ensures loans { AreOf depot.now loans.new }
        ensures kept { KeepsAll (log_of self.old) loans.old (log_of self.new) loans.new }
        ensures once { AreOnce depot.now loans.new }
        ensures put { PutsLoans depot.now.tries (value ∷ []) result self.old loans.old self.new
            loans.new }
        ensures count { PutsCount (value ∷ []) result self.old self.new }
    {
        if self.put_one_at_hand(depot, value, loans) {
            return Ok(());
        }
        self.put_one_apart(depot, value, loans)
    }

    /// Gives all elements in its magazines to the depot, where any worker gets them. It keeps two
    /// magazines, or more where the depot took none back.
    ///
    /// Refused `NoMagazine`, `HeadSpent` and `Contended` as a put is, and `Contended` also where
    /// other flushes came in between again and again. What has gone to the depot by then is there.
    pub fn flush(&mut self, depot: &Depot) -> Result<(), Cause>
        requires of { IsWorker depot.now self.old }
        ensures of { IsWorker depot.now self.new }
        ensures empty { IfOk result (λ _. length (cached self.new) ≡ 0) }
        ensures cause { IfErr result (λ cause. IsCause depot.now.tries cause (log_of self.old)
            (log_of self.new)) }
        ensures logs { Logs (log_of self.old) (log_of self.new) }
        ensures count { count_of self.new ≡ count_of self.old }
    {
        self.rack.flush(depot)
    }

    /// Ends a worker. Its elements and its magazines go to the depot, as far as it takes them; what
    /// is left stays where it is.
    pub fn end(self, depot: &Depot)
        requires of { IsWorker depot.now self }
    {
        let Worker { rack, count: _ } = self;
        rack.end(depot);
    }

    /// Ends a worker that has died. What it has stays where it is.
    pub fn lose(self) {
        let Worker { rack, count: _ } = self;
        rack.lose();
    }
}
