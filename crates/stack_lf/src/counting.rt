//! A raise and a lower of a count.

ghost use Rattle.std.specs.Prelude.{◌≡◌, ◌≢◌, ◌<◌, Err, IfOk, []};
ghost use Rattle.commons.specs.Bag.{bag};
ghost use Rattle.ground.specs.Seats.{IsOf};
ghost use Rattle.stack_lf.specs.Tries.{IsLostRaise, KnowsSpent, KnowsRaised, KnowsLowered};
ghost use Rattle.stack_lf.specs.Effects.{IsAlone, EndsRaise, Raises, Lowers};

use crate::attempt::{Attempt, by_tries};
use crate::tried::Tried;
use commons::refusal::{Lowered, Refusal};
use ground::pool::Ground;
use ground::seat::GroundSeat;

/// One more hold of an element: reads its count and raises it, if it is still what was read.
#[derive(Clone, Copy)]
struct Increment {
    element: u32,
}

impl Attempt for Increment {
    ghost may = { λ a k v. 0 < bag v.holds a.element };

    ghost loses = { λ a l. IsLostRaise l a.element };

    ghost ends = { λ a l xs. EndsRaise l a.element };

    #[inline(always)]
    fn attempt(self, ground: &Ground, seat: &mut GroundSeat, _out: &mut [u32]) -> Tried {
        let count = ground.sole(seat, self.element, false);
        if ground.limits().ref_limit <= count {
            return Tried::Refused(Refusal::RefSpent);
        }
        match ground.raise(seat, self.element, count) {
            Ok(()) => Tried::Won,
            Err(_) => Tried::Lost,
        }
    }

    ghost may_again = { λ a k v look seen h. h };
}

/// Makes one more hold of an element, by at most as many lost tries as the limits allow.
#[inline(always)]
pub(crate) fn raise(ground: &Ground, seat: &mut GroundSeat, element: u32) -> Result<(), Refusal>
    requires of { IsOf ground.now seat.old }
    requires held { 0 < bag seat.old.known.view.holds element }
    ensures raised { Raises ground.now.limits element result seat.old seat.new }
    ensures told { result ≡ Err Refusal.RefSpent → KnowsSpent element seat.old }
    ensures below { IfOk result (λ _. KnowsRaised element seat.old) }
    ensures alone { IsAlone seat.old → result ≢ Err Refusal.Contended }
{
    by_tries(ground, seat, Increment { element }, &mut [])
}

/// Ends one hold of an element: where its count is 1, by the load that read it; else by lowering
/// it, and where that read 1, by setting it to 1 again.
#[inline(always)]
pub(crate) fn lower(ground: &Ground, seat: &mut GroundSeat, element: u32) -> Lowered
    requires of { IsOf ground.now seat.old }
    requires held { 0 < bag seat.old.known.view.holds element }
    requires zeros { seat.old.known.view.zeros ≡ [] }
    ensures lowered { Lowers element result seat.old seat.new }
    ensures told { KnowsLowered element result seat.old }
{
    if ground.sole(seat, element, true) == 1 {
        return Lowered::Last;
    }
    if ground.lower(seat, element) == 1 {
        ground.reset(seat, element);
        return Lowered::Last;
    }
    Lowered::Still
}
