//! A worker gives all its elements to the depot: full magazines, and the rest in the partial one.

ghost use Rattle.std.specs.Prelude.{◌≡◌, ℕ, ◌+◌, ◌<◌, ◌≤◌, true, false, List, length, IfOk, IfErr};
ghost use Rattle.depot.specs.Racks.{Racked, SameLent, Keeps, front_of, stock, room};
ghost use Rattle.depot.specs.Rule.{Suits};
ghost use Rattle.depot.specs.Seats.{Logs, IsCause};

use crate::cause::Cause;
use crate::depot::Depot;
use crate::rack::Rack;
use crate::view::Stack;

impl Rack {
    /// Looks for an empty magazine, where there are more than two, and brings it to the front.
    fn find_empty(&mut self, depot: &Depot) -> bool
        requires racked { Racked depot.now self.old }
        ensures racked { Racked depot.now self.new }
        ensures logs { Logs self.old.seat.me.0 self.new.seat.me.0 }
        ensures keeps { Keeps depot.now.rounds self.old.seat.me self.new.seat.me }
        ensures empty { result ≡ true → length (front_of self.new.seat.me.1) ≡ 0 }
        ensures others { result ≡ true → 2 < length self.new.seat.me.1 }
    {
        let count = self.count(depot);
        if count <= 2 {
            return false;
        }
        for _ in 0..count {
            if self.len(depot) == 0 {
                return true;
            }
            self.turn(depot);
        }
        false
    }

    /// Brings an empty magazine to the front, of more than two, or takes one from the depot.
    ///
    /// Refused as a take of an empty magazine is.
    fn make_empty(&mut self, depot: &Depot) -> Result<(), Cause>
        requires racked { Racked depot.now self.old }
        ensures racked { Racked depot.now self.new }
        ensures logs { Logs self.old.seat.me.0 self.new.seat.me.0 }
        ensures lent { SameLent self.old.seat.me self.new.seat.me }
        ensures stock { stock self.new.seat.me.1 ≡ stock self.old.seat.me.1 }
        ensures room { room depot.now.rounds self.old.seat.me.1 ≤ room depot.now.rounds
            self.new.seat.me.1 }
        ensures empty { IfOk result (λ _. length (front_of self.new.seat.me.1) ≡ 0) }
        ensures others { IfOk result (λ _. 1 < length self.new.seat.me.1) }
        ensures cause { IfErr result (λ cause. IsCause depot.now.tries cause self.old.seat.me.0
            self.new.seat.me.0) }
    {
        if self.find_empty(depot) {
            return Ok(());
        }
        match self.fetch_empty(depot) {
            Ok(()) => Ok(()),
            Err(cause) => Err(cause),
        }
    }

    /// Gives `n` elements to a stack, in one magazine.
    ///
    /// Refused as a take of an empty magazine is, and as a give is. The worker has as many then.
    fn give_list(&mut self, depot: &Depot, stack: Stack, n: usize) -> Result<(), Cause>
        requires racked { Racked depot.now self.old }
        requires enough { n ≤ stock self.old.seat.me.1 }
        requires few { n ≤ depot.now.rounds }
        requires suits { (xs : List ℕ) → length xs ≡ n → Suits depot.now.rounds stack xs }
        ensures racked { Racked depot.now self.new }
        ensures logs { Logs self.old.seat.me.0 self.new.seat.me.0 }
        ensures lent { SameLent self.old.seat.me self.new.seat.me }
        ensures gone { IfOk result (λ _. stock self.new.seat.me.1 + n ≡ stock self.old.seat.me.1) }
        ensures cause { IfErr result (λ cause. IsCause depot.now.tries cause self.old.seat.me.0
            self.new.seat.me.0) }
    {
        let mut carried = [0; 128];
        self.take_all(depot, &mut carried[..n]);
        match self.make_empty(depot) {
            Ok(()) => {
                self.add(depot, &carried[..n]);
                match self.give(depot, stack) {
                    Ok(()) => Ok(()),
                    Err(cause) => Err(cause),
                }
            }
            Err(cause) => {
                self.add_all(depot, &carried[..n]);
                Err(cause)
            }
        }
    }

    /// Gives full magazines as long as there are so many elements, and tells how many are left.
    ///
    /// Refused as `give_list` is.
    fn give_full(&mut self, depot: &Depot) -> Result<usize, Cause>
        requires racked { Racked depot.now self.old }
        ensures racked { Racked depot.now self.new }
        ensures logs { Logs self.old.seat.me.0 self.new.seat.me.0 }
        ensures lent { SameLent self.old.seat.me self.new.seat.me }
        ensures left { IfOk result (λ left. left ≡ stock self.new.seat.me.1) }
        ensures few { IfOk result (λ left. left < depot.now.rounds) }
        ensures cause { IfErr result (λ cause. IsCause depot.now.tries cause self.old.seat.me.0
            self.new.seat.me.0) }
    {
        let mut left = self.load(depot).stock;
        while left >= self.rounds {
            let rounds = self.rounds;
            if let Err(cause) = self.give_list(depot, Stack::Full, rounds) {
                return Err(cause);
            }
            left -= rounds;
        }
        Ok(left)
    }

    /// Takes the partial magazine, where there is one.
    ///
    /// Refused as a take is.
    fn fetch_partial(&mut self, depot: &Depot) -> Result<(), Cause>
        requires racked { Racked depot.now self.old }
        ensures racked { Racked depot.now self.new }
        ensures logs { Logs self.old.seat.me.0 self.new.seat.me.0 }
        ensures lent { SameLent self.old.seat.me self.new.seat.me }
        ensures cause { IfErr result (λ cause. IsCause depot.now.tries cause self.old.seat.me.0
            self.new.seat.me.0) }
    {
        match self.fetch(depot, Stack::Partial) {
            Ok(()) => Ok(()),
            Err(cause) => match cause {
                Cause::NoEntries => Ok(()),
                Cause::NoMagazine => Err(Cause::NoMagazine),
                Cause::Contended => Err(Cause::Contended),
                Cause::HeadSpent => Err(Cause::HeadSpent),
            },
        }
    }

    /// Gives `n` elements, of which there are some, to the depot as its partial magazine. It answers
    /// whether they went: not where another partial one is there, or came first.
    ///
    /// Refused as a take of an empty magazine is, and as a give is. The worker has as many then.
    fn give_partial(&mut self, depot: &Depot, n: usize) -> Result<bool, Cause>
        requires racked { Racked depot.now self.old }
        requires enough { n ≤ stock self.old.seat.me.1 }
        requires some { 0 < n }
        requires few { n ≤ depot.now.rounds }
        ensures racked { Racked depot.now self.new }
        ensures logs { Logs self.old.seat.me.0 self.new.seat.me.0 }
        ensures lent { SameLent self.old.seat.me self.new.seat.me }
        ensures gone { IfOk result (λ went. went ≡ true → stock self.new.seat.me.1 + n ≡ stock
            self.old.seat.me.1) }
        ensures lost { IfOk result (λ went. went ≡ false → self.old.seat.me.0.lost + 1 ≤
            self.new.seat.me.0.lost) }
        ensures cause { IfErr result (λ cause. IsCause depot.now.tries cause self.old.seat.me.0
            self.new.seat.me.0) }
    {
        let mut rest = [0; 128];
        self.take_all(depot, &mut rest[..n]);
        match self.make_empty(depot) {
            Ok(()) => {
                self.add(depot, &rest[..n]);
                match self.give_rest(depot) {
                    Ok(went) => Ok(went),
                    Err(cause) => Err(cause),
                }
            }
            Err(cause) => {
                self.add_all(depot, &rest[..n]);
                Err(cause)
            }
        }
    }

    /// Gives all elements to the depot, of which the rest goes into the partial magazine. It answers
    /// whether they went: not where another partial one came meanwhile.
    ///
    /// Refused as a take and a give are.
    fn try_flush(&mut self, depot: &Depot) -> Result<bool, Cause>
        requires racked { Racked depot.now self.old }
        ensures racked { Racked depot.now self.new }
        ensures logs { Logs self.old.seat.me.0 self.new.seat.me.0 }
        ensures lent { SameLent self.old.seat.me self.new.seat.me }
        ensures empty { IfOk result (λ went. went ≡ true → stock self.new.seat.me.1 ≡ 0) }
        ensures lost { IfOk result (λ went. went ≡ false → self.old.seat.me.0.lost + 1 ≤
            self.new.seat.me.0.lost) }
        ensures cause { IfErr result (λ cause. IsCause depot.now.tries cause self.old.seat.me.0
            self.new.seat.me.0) }
    {
        match self.give_full(depot) {
            Ok(rest) => {
                if rest == 0 {
                    return Ok(true);
                }
                match self.fetch_partial(depot) {
                    Ok(()) => match self.give_full(depot) {
                        Ok(left) => {
                            if left == 0 {
                                return Ok(true);
                            }
                            match self.give_partial(depot, left) {
                                Ok(went) => Ok(went),
                                Err(cause) => Err(cause),
                            }
                        }
                        Err(cause) => Err(cause),
                    },
                    Err(cause) => Err(cause),
                }
            }
            Err(cause) => Err(cause),
        }
    }

    /// Gives all elements to the depot, and all but two magazines. Where another partial magazine
    /// came meanwhile, it takes that one and tries again, as often as the depot allows.
    ///
    /// Refused as a take and a give are. What has gone to the depot by then is there.
    #[inline(never)]
    pub fn flush(&mut self, depot: &Depot) -> Result<(), Cause>
        requires racked { Racked depot.now self.old }
        ensures racked { Racked depot.now self.new }
        ensures logs { Logs self.old.seat.me.0 self.new.seat.me.0 }
        ensures lent { SameLent self.old.seat.me self.new.seat.me }
        ensures empty { IfOk result (λ _. stock self.new.seat.me.1 ≡ 0) }
        ensures cause { IfErr result (λ cause. IsCause depot.now.tries cause self.old.seat.me.0
            self.new.seat.me.0) }
    {
        for _ in 0..depot.tries {
            match self.try_flush(depot) {
                Ok(true) => {
                    self.shed(depot);
                    return Ok(());
                }
                Ok(false) => {}
                Err(cause) => return Err(cause),
            }
        }
        Err(Cause::Contended)
    }
}
