//! Lists of any length go into a worker's magazines and out, once there are enough elements in
//! them, or enough room.

ghost use Rattle.std.specs.Prelude.{◌≡◌, ℕ, ◌+◌, ◌<◌, ◌≤◌, length};
ghost use Rattle.commons.specs.Bag.{bag};
ghost use Rattle.depot.specs.Racks.{Racked, Keeps, Lets, front_of, stock, room};
ghost use Rattle.depot.specs.Seats.{Logs, lent};

use crate::depot::Depot;
use crate::rack::Rack;

/// What a rack's magazines have.
#[derive(Clone, Copy)]
pub(crate) struct Load {
    /// How many elements there are.
    pub(crate) stock: usize,
    /// How many more there is room for.
    pub(crate) room: usize,
}

impl Rack {
    /// How many elements all its magazines have, and how many more there is room for.
    pub(crate) fn load(&mut self, depot: &Depot) -> Load
        requires racked { Racked depot.now self.old }
        ensures racked { Racked depot.now self.new }
        ensures logs { Logs self.old.seat.me.0 self.new.seat.me.0 }
        ensures keeps { Keeps depot.now.rounds self.old.seat.me self.new.seat.me }
        ensures stock { result.stock ≡ stock self.old.seat.me.1 }
        ensures room { result.room ≡ room depot.now.rounds self.old.seat.me.1 }
        ensures few_stock { result.stock ≤ 8388480 }
        ensures few_room { result.room ≤ 8388480 }
    {
        let count = self.count(depot);
        let mut stock: usize = 0;
        let mut room: usize = 0;
        for _ in 0..count {
            let n = self.len(depot);
            stock += n;
            room += self.rounds - n;
            self.turn(depot);
        }
        Load { stock, room }
    }

    /// Brings a magazine with elements to the front, of which there are some.
    pub(crate) fn bring_some(&mut self, depot: &Depot) -> usize
        requires racked { Racked depot.now self.old }
        requires some { 0 < stock self.old.seat.me.1 }
        ensures racked { Racked depot.now self.new }
        ensures logs { Logs self.old.seat.me.0 self.new.seat.me.0 }
        ensures keeps { Keeps depot.now.rounds self.old.seat.me self.new.seat.me }
        ensures len { result ≡ length (front_of self.new.seat.me.1) }
        ensures some { 0 < result }
    {
        let mut n = self.len(depot);
        while n == 0 {
            self.turn(depot);
            n = self.len(depot);
        }
        n
    }

    /// Brings a magazine with room to the front, of which there is some, and tells how much it has.
    pub(crate) fn bring_room(&mut self, depot: &Depot) -> usize
        requires racked { Racked depot.now self.old }
        requires some { 0 < room depot.now.rounds self.old.seat.me.1 }
        ensures racked { Racked depot.now self.new }
        ensures logs { Logs self.old.seat.me.0 self.new.seat.me.0 }
        ensures keeps { Keeps depot.now.rounds self.old.seat.me self.new.seat.me }
        ensures room { result + length (front_of self.new.seat.me.1) ≡ depot.now.rounds }
        ensures some { 0 < result }
    {
        let mut n = self.rounds - self.len(depot);
        while n == 0 {
            self.turn(depot);
            n = self.rounds - self.len(depot);
        }
        n
    }

    /// Brings the next magazine to the front, where the one there has nothing.
    pub(crate) fn pass_empty(&mut self, depot: &Depot)
        requires racked { Racked depot.now self.old }
        ensures racked { Racked depot.now self.new }
        ensures logs { Logs self.old.seat.me.0 self.new.seat.me.0 }
        ensures keeps { Keeps depot.now.rounds self.old.seat.me self.new.seat.me }
    {
        if self.len(depot) == 0 {
            self.turn(depot);
            return;
        }
    }

    /// Brings the next magazine to the front, where the one there has no room.
    pub(crate) fn pass_full(&mut self, depot: &Depot)
        requires racked { Racked depot.now self.old }
        ensures racked { Racked depot.now self.new }
        ensures logs { Logs self.old.seat.me.0 self.new.seat.me.0 }
        ensures keeps { Keeps depot.now.rounds self.old.seat.me self.new.seat.me }
    {
        if self.len(depot) == self.rounds {
            self.turn(depot);
            return;
        }
    }

    /// Takes a list out of the magazines, one after another.
    pub(crate) fn take_all(&mut self, depot: &Depot, out: &mut [u64])
        requires racked { Racked depot.now self.old }
        requires enough { length out.old ≤ stock self.old.seat.me.1 }
        ensures racked { Racked depot.now self.new }
        ensures logs { Logs self.old.seat.me.0 self.new.seat.me.0 }
        ensures lets { Lets depot.now.rounds out.new self.old.seat.me self.new.seat.me }
    {
        let n = out.len();
        let mut done: usize = 0;
        while done < n {
            let most = self.bring_some(depot);
            let next = done + most.min(n - done);
            self.take(depot, &mut out[done..next]);
            done = next;
        }
    }

    /// Puts a list into the magazines, one after another.
    pub(crate) fn add_all(&mut self, depot: &Depot, list: &[u64])
        requires racked { Racked depot.now self.old }
        requires lent { (i : ℕ) → bag list.now i ≤ lent self.old.seat.me i }
        requires room { length list.now ≤ room depot.now.rounds self.old.seat.me.1 }
        ensures racked { Racked depot.now self.new }
        ensures logs { Logs self.old.seat.me.0 self.new.seat.me.0 }
        ensures lets { Lets depot.now.rounds list.now self.new.seat.me self.old.seat.me }
    {
        let n = list.len();
        let mut done: usize = 0;
        while done < n {
            let most = self.bring_room(depot);
            let next = done + most.min(n - done);
            self.add(depot, &list[done..next]);
            done = next;
        }
    }
}
