//! The steps at the places of elements, each one atomic operation by one seat.

ghost use Rattle.std.specs.Prelude.{◌≡◌, ◌+◌, ◌<◌, ℕ};
ghost use Rattle.commons.specs.Bag.{bag};
ghost use Rattle.depot.specs.Layout.{place_at};
ghost use Rattle.depot.specs.Placing.{resting_out, resting_in, looking_get, looking_put, claim_found, back_found};
ghost use Rattle.depot.specs.Resting.{IsNumber, numbers};
ghost use Rattle.depot.specs.Seats.{IsOf};

use crate::depot::Depot;
use crate::magazine::Magazine;
use crate::plays::{Claims, LooksToGet, LooksToPut, RestsIn, RestsOut, TakesBack};
use crate::steps::LINKS;
use crate::view::View;
use atomic_table::Seat;

/// What stands at the place of an element that rests nowhere.
pub(crate) const NOBODY: u64 = 0;

impl Depot {
    /// Which word is the place of an element.
    #[inline(always)]
    fn place_at(&self, element: u32) -> usize
        requires inside { element < self.now.places }
        ensures { result ≡ place_at self.now.table.slots element }
    {
        LINKS + (self.table.slot_count() + element as usize)
    }

    /// Lets an element of the hand rest here, out.
    #[inline(always)]
    pub(crate) fn rest_out(&self, seat: &mut Seat<Magazine, View>, element: u32, number: u64)
        requires of { IsOf self.now seat.old }
        requires inside { element < self.now.places }
        requires hand { 0 < bag seat.old.me.0.hand element }
        requires number { numbers seat.old.me.0.resting number ≡ 1 }
        ensures of { IsOf self.now seat.new }
        ensures me { seat.new.me ≡ (resting_out seat.old.me.0 element, seat.old.me.1) }
    {
        let at = self.place_at(element);
        self.table.shared.store::<RestsOut>(seat, at, number);
    }

    /// Lets an element of the hand rest here, in the list.
    #[inline(always)]
    pub(crate) fn rest_in(&self, seat: &mut Seat<Magazine, View>, element: u32, number: u64)
        requires of { IsOf self.now seat.old }
        requires inside { element < self.now.places }
        requires hand { 0 < bag seat.old.me.0.hand element }
        requires number { numbers seat.old.me.0.resting number ≡ 1 }
        ensures of { IsOf self.now seat.new }
        ensures me { seat.new.me ≡ (resting_in seat.old.me.0 element, seat.old.me.1) }
    {
        let at = self.place_at(element);
        self.table.shared.store::<RestsIn>(seat, at, number);
    }

    /// Looks whether an element of the list rests here still: it is out then, where it isn't out
    /// already.
    #[inline(always)]
    pub(crate) fn look_to_get(&self, seat: &mut Seat<Magazine, View>, element: u32) -> u64
        requires of { IsOf self.now seat.old }
        requires inside { element < self.now.places }
        ensures of { IsOf self.now seat.new }
        ensures me { seat.new.me ≡ (looking_get seat.old.me.0 element result, seat.old.me.1) }
    {
        let at = self.place_at(element);
        self.table.shared.load::<LooksToGet>(seat, at)
    }

    /// Looks whether an element is out with this seat: it is in its list then.
    #[inline(always)]
    pub(crate) fn look_to_put(&self, seat: &mut Seat<Magazine, View>, element: u32) -> u64
        requires of { IsOf self.now seat.old }
        requires inside { element < self.now.places }
        ensures of { IsOf self.now seat.new }
        ensures me { seat.new.me ≡ (looking_put seat.old.me.0 element result, seat.old.me.1) }
    {
        let at = self.place_at(element);
        self.table.shared.load::<LooksToPut>(seat, at)
    }

    /// Takes an element from its place, where it still has the number that was found there.
    #[inline(always)]
    pub(crate) fn claim(&self, seat: &mut Seat<Magazine, View>, element: u32, number: u64) -> bool
        requires of { IsOf self.now seat.old }
        requires inside { element < self.now.places }
        requires number { 0 < number }
        ensures of { IsOf self.now seat.new }
        ensures me { claim_found result element seat.old.me seat.new.me }
    {
        let at = self.place_at(element);
        let table = &self.table.shared;
        let found = table.compare_exchange::<Claims>(seat, at, number, NOBODY);
        found == number
    }

    /// Takes an element of the list back into the hand, where it rests here still.
    #[inline(always)]
    pub(crate) fn take_back(
        &self,
        seat: &mut Seat<Magazine, View>,
        element: u32,
        number: u64,
    ) -> bool
        requires of { IsOf self.now seat.old }
        requires inside { element < self.now.places }
        requires number { IsNumber seat.old.me.0.resting number }
        requires some { 0 < number }
        requires kept { bag seat.old.me.0.resting.marks element ≡ 0 }
        ensures of { IsOf self.now seat.new }
        ensures me { back_found result element seat.old.me seat.new.me }
    {
        let at = self.place_at(element);
        let table = &self.table.shared;
        let found = table.compare_exchange::<TakesBack>(seat, at, number, NOBODY);
        found == number
    }
}
