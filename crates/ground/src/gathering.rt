//! A seat that takes others in, and then looks once for all of them.

ghost use Rattle.std.specs.Prelude.{◌≡◌, []};
ghost use Rattle.ground.specs.Own.{AtRest};
ghost use Rattle.ground.specs.Parting.{both, IsGathered};
ghost use Rattle.ground.specs.Seats.{IsOf};

use crate::known::Known;
use crate::plays::{Looks, Parts};
use crate::pool::Ground;
use crate::seat::GroundSeat;
use crate::stack::QUIET;
use atomic_table::Seat;
use commons::packet::Packet;
use std::marker::Model;

/// A seat that is taking others in. It has what it had and what they had, but what the type of a
/// seat keeps isn't known of it: only a step tells that. So it is no seat until it has looked.
///
/// It can't be dropped, as a seat can't: it ends by `Ground::gathered`.
pub struct Gathering {
    pub(crate) seat: Seat<Option<Packet>, Known>,
}

impl Model for Gathering {
    ghost use Rattle.ground.specs.Seats.{Seated};
    ghost use Rattle.ground.specs.Own.{IsGathering};

    ghost Value = { Seated };

    ghost view = { λ s. record { table = s.seat.table_id; id = s.seat.id; known = s.seat.me.0; slots = s.seat.me.1 } };

    ghost invariant = { λ s. IsGathering s.seat.me.0 s.seat.me.1 };
}

impl Ground {
    /// Begins to take others in, by a seat that is between calls.
    pub fn gather(&self, seat: GroundSeat) -> Gathering
        requires of { IsOf self.now seat }
        requires rest { AtRest seat.known.view }
        ensures { result ≡ seat }
    {
        seat.owned();
        seat.at_desk();
        let GroundSeat { seat } = seat;
        Gathering { seat }
    }

    /// Takes a seat in that is between calls, as `join` does, and doesn't look yet: the elements,
    /// holds, headers and parts are those of both, and what lies on the desks isn't known.
    pub fn take_in(&self, gathering: &mut Gathering, other: GroundSeat)
        requires of { IsOf self.now gathering.old }
        requires other_of { IsOf self.now other }
        requires rest { AtRest other.known.view }
        requires slots { other.slots ≡ [] }
        ensures { gathering.new ≡ record gathering.old { known = both gathering.old.known other.known } }
    {
        let GroundSeat { seat: other } = other;
        self.table
            .shared
            .join_seat::<Parts>(&mut gathering.seat, other);
    }

    /// Makes a seat of one that has taken others in: reads the word that nobody writes, once for
    /// all of them. Where it is the only seat of the pool now, it knows what lies on the desks.
    pub fn gathered(&self, gathering: Gathering) -> GroundSeat
        requires of { IsOf self.now gathering }
        ensures seat { IsGathered gathering result }
        ensures rest { AtRest result.known.view }
    {
        let Gathering { mut seat } = gathering;
        self.table.shared.load::<Looks>(&mut seat, QUIET);
        GroundSeat { seat }
    }
}
