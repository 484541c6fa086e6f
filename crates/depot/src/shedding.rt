//! A worker gives what it has more than two magazines back, each full or empty.

ghost use Rattle.std.specs.Prelude.{◌≡◌, ◌<◌, ◌≤◌, true, false, length, IfSome};
ghost use Rattle.depot.specs.Racks.{Racked, SameLent, Keeps, front_of, stock};
ghost use Rattle.depot.specs.Rule.{Suits};
ghost use Rattle.depot.specs.Seats.{Logs};

use crate::depot::Depot;
use crate::rack::Rack;
use crate::view::Stack;

impl Rack {
    /// Looks for a magazine that is full or empty, and brings it to the front.
    pub(crate) fn find_whole(&mut self, depot: &Depot) -> Option<Stack>
        requires racked { Racked depot.now self.old }
        ensures racked { Racked depot.now self.new }
        ensures logs { Logs self.old.seat.me.0 self.new.seat.me.0 }
        ensures keeps { Keeps depot.now.rounds self.old.seat.me self.new.seat.me }
        ensures whole { IfSome result (λ stack. Suits depot.now.rounds stack (front_of
            self.new.seat.me.1)) }
    {
        let count = self.count(depot);
        for _ in 0..count {
            let n = self.len(depot);
            if n == 0 {
                return Some(Stack::Empty);
            }
            if n == self.rounds {
                return Some(Stack::Full);
            }
            self.turn(depot);
        }
        None
    }

    /// Moves what is in front to the magazines behind it. Then one is full, or this one is empty.
    pub(crate) fn spread(&mut self, depot: &Depot)
        requires racked { Racked depot.now self.old }
        ensures racked { Racked depot.now self.new }
        ensures logs { Logs self.old.seat.me.0 self.new.seat.me.0 }
        ensures keeps { Keeps depot.now.rounds self.old.seat.me self.new.seat.me }
    {
        let mut carried = [0; 128];
        let n = self.len(depot);
        self.take(depot, &mut carried[..n]);
        self.turn(depot);
        self.add_all(depot, &carried[..n]);
    }

    /// Gives one magazine to the depot, of more than two. It answers whether one went.
    pub(crate) fn shed_one(&mut self, depot: &Depot) -> bool
        requires racked { Racked depot.now self.old }
        requires others { 2 < length self.old.seat.me.1 }
        ensures racked { Racked depot.now self.new }
        ensures logs { Logs self.old.seat.me.0 self.new.seat.me.0 }
        ensures lent { SameLent self.old.seat.me self.new.seat.me }
        ensures few { stock self.new.seat.me.1 ≤ stock self.old.seat.me.1 }
        ensures fewer { result ≡ true → length self.new.seat.me.1 < length self.old.seat.me.1 }
    {
        if self.hand_back(depot) {
            return true;
        }
        self.spread(depot);
        self.hand_back(depot)
    }

    /// Gives a full or an empty magazine to the depot, of more than one. It answers whether one went.
    fn hand_back(&mut self, depot: &Depot) -> bool
        requires racked { Racked depot.now self.old }
        requires others { 1 < length self.old.seat.me.1 }
        ensures racked { Racked depot.now self.new }
        ensures logs { Logs self.old.seat.me.0 self.new.seat.me.0 }
        ensures lent { SameLent self.old.seat.me self.new.seat.me }
        ensures few { stock self.new.seat.me.1 ≤ stock self.old.seat.me.1 }
        ensures fewer { result ≡ true → length self.new.seat.me.1 < length self.old.seat.me.1 }
        ensures same { result ≡ false → length self.new.seat.me.1 ≡ length self.old.seat.me.1 }
    {
        match self.find_whole(depot) {
            Some(stack) => match self.give(depot, stack) {
                Ok(()) => true,
                Err(_cause) => false,
            },
            None => false,
        }
    }

    /// Gives all but two magazines to the depot. What it is refused stays with the worker.
    pub(crate) fn shed(&mut self, depot: &Depot)
        requires racked { Racked depot.now self.old }
        ensures racked { Racked depot.now self.new }
        ensures logs { Logs self.old.seat.me.0 self.new.seat.me.0 }
        ensures lent { SameLent self.old.seat.me self.new.seat.me }
        ensures few { stock self.new.seat.me.1 ≤ stock self.old.seat.me.1 }
    {
        while self.count(depot) > 2 {
            if !self.shed_one(depot) {
                return;
            }
        }
    }

    /// Ends a call that went to the depot: it gives all but two magazines back, and where the depot
    /// has so few elements, all that is in them. What it is refused stays with the worker.
    pub(crate) fn tidy(&mut self, depot: &Depot)
        requires racked { Racked depot.now self.old }
        ensures racked { Racked depot.now self.new }
        ensures logs { Logs self.old.seat.me.0 self.new.seat.me.0 }
        ensures lent { SameLent self.old.seat.me self.new.seat.me }
    {
        if self.at_hand == 0 {
            let _refused = self.flush(depot);
            self.shed(depot);
            return;
        }
        self.shed(depot);
    }

    /// Gives all elements and all magazines to the depot, as far as it takes them, and ends.
    pub fn end(mut self, depot: &Depot)
        requires racked { Racked depot.now self }
    {
        let _refused = self.flush(depot);
        self.shed(depot);
        while self.count(depot) > 1 {
            if !self.hand_back(depot) {
                self.lose();
                return;
            }
        }
        if self.len(depot) == 0 {
            let _refused = depot.give(&mut self.seat, Stack::Empty, self.front);
        }
        self.lose();
    }
}
