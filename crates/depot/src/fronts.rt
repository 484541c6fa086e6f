//! What a seat does with the magazine that it took last, which stands in front: plain memory, of
//! which it is the only owner.

ghost use Rattle.std.specs.Prelude.{◌≡◌, ◌+◌, ◌<◌, ◌≤◌, ◌++◌, [], ◌∷◌, length};
ghost use Rattle.depot.specs.Racks.{IsFront, front_of, with_front};
ghost use Rattle.depot.specs.Seats.{IsOf};

use crate::depot::Depot;
use crate::magazine::Magazine;
use crate::view::View;
use atomic_table::Seat;

impl Depot {
    /// How many elements a put at hand may leave in a magazine.
    pub(crate) fn at_hand(&self) -> usize
        ensures most { result ≤ self.now.rounds }
    {
        if self.leaves_nothing {
            return 0;
        }
        self.rounds as usize
    }

    /// Where the magazine in front lies. All magazines lie side by side, by their numbers.
    pub(crate) fn front_address(&self, seat: &mut Seat<Magazine, View>, magazine: usize) -> *mut u8
        requires of { IsOf self.now seat.old }
        requires front { IsFront magazine seat.old.me.1 }
        ensures of { IsOf self.now seat.new }
        ensures me { seat.new.me ≡ seat.old.me }
    {
        let front = seat.slot_mut(&self.table.shared, magazine);
        front.address()
    }

    /// How many elements the magazine in front has.
    #[inline(always)]
    pub(crate) fn front_len(&self, seat: &mut Seat<Magazine, View>, magazine: usize) -> usize
        requires of { IsOf self.now seat.old }
        requires front { IsFront magazine seat.old.me.1 }
        ensures of { IsOf self.now seat.new }
        ensures same { seat.new ≡ seat.old }
        ensures me { seat.new.me ≡ seat.old.me }
        ensures len { result ≡ length (front_of seat.old.me.1) }
        ensures most { result ≤ 128 }
    {
        let front = seat.slot_mut(&self.table.shared, magazine);
        front.len()
    }

    /// Takes as many elements off the magazine in front as `out` has places.
    #[inline(always)]
    pub(crate) fn take_front(
        &self,
        seat: &mut Seat<Magazine, View>,
        magazine: usize,
        out: &mut [u64],
    )
        requires of { IsOf self.now seat.old }
        requires front { IsFront magazine seat.old.me.1 }
        requires enough { length out.old ≤ length (front_of seat.old.me.1) }
        ensures of { IsOf self.now seat.new }
        ensures view { seat.new.me.0 ≡ seat.old.me.0 }
        ensures front { seat.new.me.1 ≡ with_front seat.old.me.1 (front_of seat.new.me.1) }
        ensures out { front_of seat.old.me.1 ≡ front_of seat.new.me.1 ++ out.new }
    {
        let front = seat.slot_mut(&self.table.shared, magazine);
        front.take(out);
    }

    /// Adds a list to the magazine in front.
    #[inline(always)]
    pub(crate) fn add_front(&self, seat: &mut Seat<Magazine, View>, magazine: usize, list: &[u64])
        requires of { IsOf self.now seat.old }
        requires front { IsFront magazine seat.old.me.1 }
        requires room { length (front_of seat.old.me.1) + length list.now ≤ 128 }
        ensures of { IsOf self.now seat.new }
        ensures view { seat.new.me.0 ≡ seat.old.me.0 }
        ensures front { seat.new.me.1 ≡ with_front seat.old.me.1 (front_of seat.old.me.1 ++
            list.now) }
    {
        let front = seat.slot_mut(&self.table.shared, magazine);
        front.add(list);
    }

    /// Takes the last element of the magazine in front.
    #[inline(always)]
    pub(crate) fn take_one_front(&self, seat: &mut Seat<Magazine, View>, magazine: usize) -> u64
        requires of { IsOf self.now seat.old }
        requires front { IsFront magazine seat.old.me.1 }
        requires enough { 0 < length (front_of seat.old.me.1) }
        ensures of { IsOf self.now seat.new }
        ensures view { seat.new.me.0 ≡ seat.old.me.0 }
        ensures front { seat.new.me.1 ≡ with_front seat.old.me.1 (front_of seat.new.me.1) }
        ensures out { front_of seat.old.me.1 ≡ front_of seat.new.me.1 ++ result ∷ [] }
    {
        let front = seat.slot_mut(&self.table.shared, magazine);
        front.take_one()
    }

    /// Adds one element to the magazine in front.
    #[inline(always)]
    pub(crate) fn add_one_front(&self, seat: &mut Seat<Magazine, View>, magazine: usize, value: u64)
        requires of { IsOf self.now seat.old }
        requires front { IsFront magazine seat.old.me.1 }
        requires room { length (front_of seat.old.me.1) < 128 }
        ensures of { IsOf self.now seat.new }
        ensures view { seat.new.me.0 ≡ seat.old.me.0 }
        ensures front { seat.new.me.1 ≡ with_front seat.old.me.1 (front_of seat.old.me.1 ++ value ∷
            []) }
    {
        let front = seat.slot_mut(&self.table.shared, magazine);
        front.add_one(value);
    }
}
