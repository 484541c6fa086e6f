//! Whole magazines come from the depot to a worker, and go there.

ghost use Rattle.std.specs.Prelude.{◌≡◌, ◌+◌, ◌<◌, ◌≤◌, true, false, length, IfOk, IfErr};
ghost use Rattle.depot.specs.declared.view.Stack.TheVariants.{Partial};
ghost use Rattle.depot.specs.Racks.{Racked, SameLent, Keeps, Gains, Yields, front_of};
ghost use Rattle.depot.specs.Rule.{Suits};
ghost use Rattle.depot.specs.Seats.{Logs, IsCause, IsCauseAt, IsGiveCause};

use crate::cause::Cause;
use crate::depot::Depot;
use crate::rack::Rack;
use crate::view::Stack;

impl Rack {
    /// Takes a magazine from a stack, to the front of all others.
    ///
    /// Refused as a take is. The magazines are as before then.
    pub(crate) fn fetch(&mut self, depot: &Depot, stack: Stack) -> Result<(), Cause>
        requires racked { Racked depot.now self.old }
        ensures racked { Racked depot.now self.new }
        ensures logs { Logs self.old.seat.me.0 self.new.seat.me.0 }
        ensures lent { SameLent self.old.seat.me self.new.seat.me }
        ensures suits { IfOk result (λ _. Suits depot.now.rounds stack (front_of
            self.new.seat.me.1)) }
        ensures gains { IfOk result (λ _. Gains depot.now.rounds self.old.seat.me self.new.seat.me) }
        ensures keeps { IfErr result (λ _. Keeps depot.now.rounds self.old.seat.me
            self.new.seat.me) }
        ensures cause { IfErr result (λ cause. IsCauseAt depot.now.tries stack cause
            self.old.seat.me.0 self.new.seat.me.0) }
    {
        match depot.take(&mut self.seat, stack) {
            Ok(magazine) => {
                depot.note(&mut self.seat);
                self.behind.push_front_reserved(self.front);
                self.front = magazine;
                Ok(())
            }
            Err(cause) => Err(cause),
        }
    }

    /// Gives the magazine in front to a stack, where there are others.
    ///
    /// Refused as a give is. The magazines are as before then.
    pub(crate) fn give(&mut self, depot: &Depot, stack: Stack) -> Result<(), Cause>
        requires racked { Racked depot.now self.old }
        requires others { 1 < length self.old.seat.me.1 }
        requires suits { Suits depot.now.rounds stack (front_of self.old.seat.me.1) }
        ensures racked { Racked depot.now self.new }
        ensures logs { Logs self.old.seat.me.0 self.new.seat.me.0 }
        ensures lent { SameLent self.old.seat.me self.new.seat.me }
        ensures yields { IfOk result (λ _. Yields self.old.seat.me self.new.seat.me) }
        ensures keeps { IfErr result (λ _. Keeps depot.now.rounds self.old.seat.me
            self.new.seat.me) }
        ensures cause { IfErr result (λ cause. IsGiveCause depot.now.tries stack cause
            self.old.seat.me.0 self.new.seat.me.0) }
    {
        match depot.give(&mut self.seat, stack, self.front) {
            Ok(()) => match self.behind.pop_front() {
                Some(next) => {
                    self.front = next;
                    Ok(())
                }
                None => unreachable!(),
            },
            Err(cause) => Err(cause),
        }
    }

    /// Gives the magazine in front to the stack of the partial one, where there are others. It answers
    /// whether it went: not where another is there, or came first.
    ///
    /// Refused `HeadSpent` where that stack's count was spent. The magazines are as before then.
    pub(crate) fn give_rest(&mut self, depot: &Depot) -> Result<bool, Cause>
        requires racked { Racked depot.now self.old }
        requires others { 1 < length self.old.seat.me.1 }
        requires suits { Suits depot.now.rounds Partial (front_of self.old.seat.me.1) }
        ensures racked { Racked depot.now self.new }
        ensures logs { Logs self.old.seat.me.0 self.new.seat.me.0 }
        ensures lent { SameLent self.old.seat.me self.new.seat.me }
        ensures went { IfOk result (λ went. went ≡ true → Yields self.old.seat.me self.new.seat.me) }
        ensures lost { IfOk result (λ went. went ≡ false → self.old.seat.me.0.lost + 1 ≤
            self.new.seat.me.0.lost) }
        ensures cause { IfErr result (λ cause. IsGiveCause depot.now.tries Partial cause
            self.old.seat.me.0 self.new.seat.me.0) }
    {
        match depot.try_give(&mut self.seat, Stack::Partial, self.front) {
            Ok(true) => match self.behind.pop_front() {
                Some(next) => {
                    self.front = next;
                    Ok(true)
                }
                None => unreachable!(),
            },
            Ok(false) => Ok(false),
            Err(cause) => Err(cause),
        }
    }

    /// Takes a magazine with elements, a full one, or else the partial one.
    ///
    /// Refused `NoEntries` where neither was there, and as a take is.
    pub(crate) fn fetch_some(&mut self, depot: &Depot) -> Result<(), Cause>
        requires racked { Racked depot.now self.old }
        ensures racked { Racked depot.now self.new }
        ensures logs { Logs self.old.seat.me.0 self.new.seat.me.0 }
        ensures lent { SameLent self.old.seat.me self.new.seat.me }
        ensures some { IfOk result (λ _. 0 < length (front_of self.new.seat.me.1)) }
        ensures gains { IfOk result (λ _. Gains depot.now.rounds self.old.seat.me self.new.seat.me) }
        ensures cause { IfErr result (λ cause. IsCause depot.now.tries cause self.old.seat.me.0
            self.new.seat.me.0) }
    {
        match self.fetch(depot, Stack::Full) {
            Ok(()) => Ok(()),
            Err(cause) => match cause {
                Cause::NoEntries => match self.fetch(depot, Stack::Partial) {
                    Ok(()) => Ok(()),
                    Err(cause) => Err(cause),
                },
                Cause::NoMagazine => Err(Cause::NoMagazine),
                Cause::Contended => Err(Cause::Contended),
                Cause::HeadSpent => Err(Cause::HeadSpent),
            },
        }
    }

    /// Takes an empty magazine.
    ///
    /// Refused `NoMagazine` where none was there, and as a take is.
    pub(crate) fn fetch_empty(&mut self, depot: &Depot) -> Result<(), Cause>
        requires racked { Racked depot.now self.old }
        ensures racked { Racked depot.now self.new }
        ensures logs { Logs self.old.seat.me.0 self.new.seat.me.0 }
        ensures lent { SameLent self.old.seat.me self.new.seat.me }
        ensures empty { IfOk result (λ _. length (front_of self.new.seat.me.1) ≡ 0) }
        ensures gains { IfOk result (λ _. Gains depot.now.rounds self.old.seat.me self.new.seat.me) }
        ensures keeps { IfErr result (λ _. Keeps depot.now.rounds self.old.seat.me
            self.new.seat.me) }
        ensures cause { IfErr result (λ cause. IsCause depot.now.tries cause self.old.seat.me.0
            self.new.seat.me.0) }
    {
        match self.fetch(depot, Stack::Empty) {
            Ok(()) => Ok(()),
            Err(cause) => match cause {
                Cause::NoEntries => Err(Cause::NoMagazine),
                Cause::NoMagazine => Err(Cause::NoMagazine),
                Cause::Contended => Err(Cause::Contended),
                Cause::HeadSpent => Err(Cause::HeadSpent),
            },
        }
    }
}
