//! At the end of a depot one worker takes all that is in it.

ghost use Rattle.std.specs.Prelude.{◌≡◌, true, length, IfOk, IfErr};
ghost use Rattle.depot.specs.Lending.{IsWorker, HasAll, cached, count_of, log_of};
ghost use Rattle.depot.specs.Racks.{Racked, SameLent, AreAll, stock};
ghost use Rattle.depot.specs.Seats.{Logs, IsCause};

use crate::cause::Cause;
use crate::depot::Depot;
use crate::rack::Rack;
use crate::worker::Worker;

impl Rack {
    /// Takes magazines with elements until it is refused one, and tells why: `NoEntries` where none
    /// was there any more.
    fn fetch_stocked(&mut self, depot: &Depot) -> Cause
        requires racked { Racked depot.now self.old }
        ensures racked { Racked depot.now self.new }
        ensures logs { Logs self.old.seat.me.0 self.new.seat.me.0 }
        ensures lent { SameLent self.old.seat.me self.new.seat.me }
        ensures cause { IsCause depot.now.tries result self.old.seat.me.0 self.new.seat.me.0 }
    {
        // No depot has so many.
        while self.count(depot) < 65_535 {
            if let Err(cause) = self.fetch_some(depot) {
                return cause;
            }
        }
        unreachable!()
    }

    /// Takes empty magazines until it is refused one, and tells why: `NoMagazine` where none was
    /// there any more.
    fn fetch_bare(&mut self, depot: &Depot) -> Cause
        requires racked { Racked depot.now self.old }
        ensures racked { Racked depot.now self.new }
        ensures logs { Logs self.old.seat.me.0 self.new.seat.me.0 }
        ensures lent { SameLent self.old.seat.me self.new.seat.me }
        ensures cause { IsCause depot.now.tries result self.old.seat.me.0 self.new.seat.me.0 }
    {
        while self.count(depot) < 65_535 {
            if let Err(cause) = self.fetch_empty(depot) {
                return cause;
            }
        }
        unreachable!()
    }

    /// Whether it has all magazines of the depot.
    fn has_all(&mut self, depot: &Depot) -> bool
        requires racked { Racked depot.now self.old }
        ensures racked { Racked depot.now self.new }
        ensures logs { Logs self.old.seat.me.0 self.new.seat.me.0 }
        ensures lent { SameLent self.old.seat.me self.new.seat.me }
        ensures magazines { self.new.seat.me.1 ≡ self.old.seat.me.1 }
        ensures all { result ≡ true → AreAll depot.now self.new.seat.me.1 }
    {
        // The rule, of which each load tells, has each magazine in one place.
        depot.note(&mut self.seat);
        self.count(depot) == depot.table.slot_count()
    }

    /// Takes all magazines, and tells how many elements are in them.
    ///
    /// Refused where some are with other workers, with the cause of the last take. What came stays.
    fn fetch_all(&mut self, depot: &Depot) -> Result<usize, Cause>
        requires racked { Racked depot.now self.old }
        ensures racked { Racked depot.now self.new }
        ensures logs { Logs self.old.seat.me.0 self.new.seat.me.0 }
        ensures lent { SameLent self.old.seat.me self.new.seat.me }
        ensures stock { IfOk result (λ n. n ≡ stock self.new.seat.me.1) }
        ensures all { IfOk result (λ _. AreAll depot.now self.new.seat.me.1) }
        ensures cause { IfErr result (λ cause.
            IsCause depot.now.tries cause self.old.seat.me.0 self.new.seat.me.0) }
    {
        let refused = self.fetch_stocked(depot);
        if refused != Cause::NoEntries {
            return Err(refused);
        }
        let ended = self.fetch_bare(depot);
        let stock = self.load(depot).stock;
        if self.has_all(depot) {
            return Ok(stock);
        }
        Err(ended)
    }

    /// Takes all magazines, and tells how many elements are in them.
    ///
    /// Refused as `fetch_all` is. All but two go back then, as far as the depot takes them.
    fn gather(&mut self, depot: &Depot) -> Result<usize, Cause>
        requires racked { Racked depot.now self.old }
        ensures racked { Racked depot.now self.new }
        ensures logs { Logs self.old.seat.me.0 self.new.seat.me.0 }
        ensures lent { SameLent self.old.seat.me self.new.seat.me }
        ensures stock { IfOk result (λ n. n ≡ stock self.new.seat.me.1) }
        ensures all { IfOk result (λ _. AreAll depot.now self.new.seat.me.1) }
        ensures cause { IfErr result (λ cause.
            IsCause depot.now.tries cause self.old.seat.me.0 self.new.seat.me.0) }
    {
        match self.fetch_all(depot) {
            Ok(n) => Ok(n),
            Err(cause) => {
                self.shed(depot);
                Err(cause)
            }
        }
    }
}

impl Worker {
    /// At the end of a pool, takes all that is in it: every magazine of the depot, full, partial
    /// and empty. It answers how many elements are in them, so that a get of as many by this worker
    /// gives back all that are in the pool, each once.
    ///
    /// Refused `NoMagazine` where other workers have some magazines still: each has to `end` first.
    /// Refused `HeadSpent` and `Contended` as a get is. All but two magazines go back then, as far
    /// as the depot takes them.
    pub fn gather(&mut self, depot: &Depot) -> Result<usize, Cause>
        requires of { IsWorker depot.now self.old }
        ensures of { IsWorker depot.now self.new }
        ensures all { IfOk result (λ n. (n ≡ length (cached self.new)) × HasAll depot.now self.new) }
        ensures cause { IfErr result (λ cause.
            IsCause depot.now.tries cause (log_of self.old) (log_of self.new)) }
        ensures logs { Logs (log_of self.old) (log_of self.new) }
        ensures count { count_of self.new ≡ count_of self.old }
    {
        self.rack.gather(depot)
    }
}
