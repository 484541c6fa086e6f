//! A seat is cut in two, and two seats are made one.

ghost use Rattle.std.specs.Prelude.{◌≡◌, ◌<◌, []};
ghost use Rattle.depot.specs.Answers.{kept_part, other_part, both_views};
ghost use Rattle.depot.specs.Bags.{Includes};
ghost use Rattle.depot.specs.Dealing.{with_first, with_others};
ghost use Rattle.depot.specs.Resting.{IsBare};
ghost use Rattle.depot.specs.Seats.{IsOf};

use crate::depot::Depot;
use crate::magazine::Magazine;
use crate::plays::{Deals, Parts};
use crate::view::View;
use atomic_table::Seat;

impl Depot {
    /// Cuts a seat in two: it keeps what it has noted of its hand, and its magazines, and the new
    /// seat has all else of the hand.
    #[inline(always)]
    pub(crate) fn part(&self, seat: &mut Seat<Magazine, View>) -> Seat<Magazine, View>
        requires of { IsOf self.now seat.old }
        requires kept { Includes seat.old.me.0.hand seat.old.me.0.kept }
        ensures of { IsOf self.now seat.new }
        ensures new_of { IsOf self.now result }
        ensures me { seat.new.me ≡ (kept_part seat.old.me.0, seat.old.me.1) }
        ensures new_me { result.me ≡ (other_part seat.old.me.0, []) }
    {
        self.table.shared.split_seat::<Parts>(seat)
    }

    /// Makes two seats one, which has what both had.
    #[inline(always)]
    pub(crate) fn join(&self, seat: &mut Seat<Magazine, View>, other: Seat<Magazine, View>)
        requires of { IsOf self.now seat.old }
        requires other_of { IsOf self.now other }
        requires none { other.me.1 ≡ [] }
        requires bare { IsBare other.me.0.resting }
        ensures of { IsOf self.now seat.new }
        ensures me { seat.new.me ≡ (both_views seat.old.me.0 other.me.0, seat.old.me.1) }
    {
        self.table.shared.join_seat::<Parts>(seat, other);
    }

    /// Cuts a seat with numbers in two: it keeps the first of them, and all else, and the new seat
    /// has the other numbers.
    pub(crate) fn deal(&self, seat: &mut Seat<Magazine, View>) -> Seat<Magazine, View>
        requires of { IsOf self.now seat.old }
        requires bare { IsBare seat.old.me.0.resting }
        requires some { seat.old.me.0.resting.from < seat.old.me.0.resting.to }
        ensures of { IsOf self.now seat.new }
        ensures new_of { IsOf self.now result }
        ensures me { seat.new.me ≡ (with_first seat.old.me.0, seat.old.me.1) }
        ensures new_me { result.me ≡ (with_others seat.old.me.0, []) }
    {
        self.table.shared.split_seat::<Deals>(seat)
    }
}
