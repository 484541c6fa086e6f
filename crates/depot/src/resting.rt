//! What a rack's seat does at the places of elements.

ghost use Rattle.std.specs.Prelude.{◌≡◌, ◌<◌, ◌∷◌, [], ℕ, IsTrue, IsFalse};
ghost use Rattle.commons.specs.Bag.{bag};
ghost use Rattle.depot.specs.Answers.{noting, IsOwned};
ghost use Rattle.depot.specs.Placing.{resting_out, resting_in, looking_get, looking_put, claim_found, back_found};
ghost use Rattle.depot.specs.Racks.{Racked, SameLent, Lends};
ghost use Rattle.depot.specs.Resting.{IsNumber, numbers};
ghost use Rattle.depot.specs.Seats.{lent};

use crate::depot::Depot;
use crate::rack::Rack;

impl Rack {
    /// Lets an element that is outside of the magazines rest, out.
    #[inline(always)]
    pub fn rest_out(&mut self, depot: &Depot, element: u32, number: u64)
        requires racked { Racked depot.now self.old }
        requires inside { element < depot.now.places }
        requires some { 0 < lent self.old.seat.me element }
        requires number { numbers self.old.seat.me.0.resting number ≡ 1 }
        ensures racked { Racked depot.now self.new }
        ensures me { self.new.seat.me ≡ (resting_out self.old.seat.me.0 element, self.old.seat.me.1) }
        ensures lent { Lends (element ∷ []) self.new.seat.me self.old.seat.me }
    {
        depot.rest_out(&mut self.seat, element, number);
    }

    /// Lets an element that is outside of the magazines rest, in the list.
    #[inline(always)]
    pub fn rest_in(&mut self, depot: &Depot, element: u32, number: u64)
        requires racked { Racked depot.now self.old }
        requires inside { element < depot.now.places }
        requires some { 0 < lent self.old.seat.me element }
        requires number { numbers self.old.seat.me.0.resting number ≡ 1 }
        ensures racked { Racked depot.now self.new }
        ensures me { self.new.seat.me ≡ (resting_in self.old.seat.me.0 element, self.old.seat.me.1) }
        ensures lent { Lends (element ∷ []) self.new.seat.me self.old.seat.me }
    {
        depot.rest_in(&mut self.seat, element, number);
    }

    /// Looks at an element's place, to get it.
    #[inline(always)]
    pub fn look_to_get(&mut self, depot: &Depot, element: u32) -> u64
        requires racked { Racked depot.now self.old }
        requires inside { element < depot.now.places }
        ensures racked { Racked depot.now self.new }
        ensures me { self.new.seat.me ≡ (looking_get self.old.seat.me.0 element result, self.old.seat.me.1) }
        ensures lent { SameLent self.old.seat.me self.new.seat.me }
    {
        depot.look_to_get(&mut self.seat, element)
    }

    /// Looks at an element's place, to put it.
    #[inline(always)]
    pub fn look_to_put(&mut self, depot: &Depot, element: u32) -> u64
        requires racked { Racked depot.now self.old }
        requires inside { element < depot.now.places }
        ensures racked { Racked depot.now self.new }
        ensures me { self.new.seat.me ≡ (looking_put self.old.seat.me.0 element result, self.old.seat.me.1) }
        ensures lent { SameLent self.old.seat.me self.new.seat.me }
    {
        depot.look_to_put(&mut self.seat, element)
    }

    /// Takes an element from its place, where it still has the number that was found there.
    #[inline(always)]
    pub fn claim(&mut self, depot: &Depot, element: u32, number: u64) -> bool
        requires racked { Racked depot.now self.old }
        requires inside { element < depot.now.places }
        requires number { 0 < number }
        ensures racked { Racked depot.now self.new }
        ensures me { claim_found result element self.old.seat.me self.new.seat.me }
        ensures won { IsTrue result → Lends (element ∷ []) self.old.seat.me self.new.seat.me }
        ensures lost { IsFalse result → SameLent self.old.seat.me self.new.seat.me }
    {
        depot.claim(&mut self.seat, element, number)
    }

    /// Takes an element of the list back, where it rests here still.
    #[inline(always)]
    pub fn take_back(&mut self, depot: &Depot, element: u32, number: u64) -> bool
        requires racked { Racked depot.now self.old }
        requires inside { element < depot.now.places }
        requires number { IsNumber self.old.seat.me.0.resting number }
        requires some { 0 < number }
        requires kept { bag self.old.seat.me.0.resting.marks element ≡ 0 }
        ensures racked { Racked depot.now self.new }
        ensures me { back_found result element self.old.seat.me self.new.seat.me }
        ensures won { IsTrue result → Lends (element ∷ []) self.old.seat.me self.new.seat.me }
        ensures lost { IsFalse result → SameLent self.old.seat.me self.new.seat.me }
    {
        depot.take_back(&mut self.seat, element, number)
    }

    /// Learns that what is in the hand is the depot's, by a load of the word that nobody writes.
    #[inline(always)]
    pub fn own(&mut self, depot: &Depot)
        requires racked { Racked depot.now self.old }
        ensures racked { Racked depot.now self.new }
        ensures me { self.new.seat.me ≡ (noting self.old.seat.me.0 self.old.seat.me.1, self.old.seat.me.1) }
        ensures lent { SameLent self.old.seat.me self.new.seat.me }
        ensures owned { IsOwned depot.now.table.slots self.old.seat.me.0 }
    {
        depot.note(&mut self.seat);
    }
}
