//! A worker's seat: its handle on the words of a pool.

use crate::known::Known;
use atomic_table::{Badge, Seat};
use commons::packet::Packet;
use std::marker::Model;

/// A worker's seat at the table of a pool: what the worker knows, which has no bytes at run time.
/// Each seat has a part of the pool, a number, and all parts together are a worker's part for each
/// worker. A seat that has every part is the only seat of its pool: no other acts beside it.
///
/// It can't be dropped, since what it names would be lost unseen: it ends by `Ground::join`, by
/// `Ground::close` or by `lose`.
pub struct GroundSeat {
    pub(crate) seat: Seat<Option<Packet>, Known>,
}

impl Model for GroundSeat {
    ghost use Rattle.ground.specs.Seats.{Seated};
    ghost use Rattle.ground.specs.Own.{Owned, AtDesk, KnowsDesks};

    ghost Value = { Seated };

    ghost view = { λ s. record { table = s.seat.table_id; id = s.seat.id; known = s.seat.me.0; slots = s.seat.me.1 } };

    ghost invariant = { λ s. Owned s.seat.me.0.limits s.seat.me.0.view × AtDesk s.seat.me.0.view.work s.seat.me.1
        × KnowsDesks s.seat.me.0 };
}

impl GroundSeat {
    ghost use Rattle.std.specs.Prelude.{◌≡◌, [], ◌∷◌, None};
    ghost use Rattle.ground.specs.declared.known.Known.{Known};
    ghost use Rattle.ground.specs.Own.{Owned, AtDesk, KnowsDesks};

    /// What the type of a seat keeps, for contracts alone: what is true of its view by itself.
    pub fn owned(&self)
        ensures { Owned self.now.known.limits self.now.known.view }
    {
        let _ = &self.seat;
    }

    /// The slot of the desk that the seat works at is out with it, and no other is.
    pub fn at_desk(&self)
        ensures { AtDesk self.now.known.view.work self.now.slots }
    {
        let _ = &self.seat;
    }

    /// The only seat of a pool knows what lies on the desks.
    pub fn knows_desks(&self)
        ensures { KnowsDesks self.now.known }
    {
        let _ = &self.seat;
    }

    /// The seat as a badge: without the type of the slots, of which none is out with it.
    pub fn into_badge(self) -> Badge<Known>
        requires { self.slots ≡ [] }
        ensures table { result.table_id ≡ self.table }
        ensures id { result.id ≡ self.id }
        ensures known { result.views ≡ self.known ∷ [] }
    {
        let GroundSeat { seat } = self;
        seat.into_badge()
    }

    /// The seat of a badge. What the type of a seat keeps is true of what it knows.
    pub fn of_badge(badge: Badge<Known>) -> GroundSeat
        requires { (known : Known) × (badge.views ≡ known ∷ []) × Owned known.limits known.view
            × (known.view.work ≡ None) × KnowsDesks known }
        ensures table { result.table ≡ badge.table_id }
        ensures id { result.id ≡ badge.id }
        ensures known { badge.views ≡ result.known ∷ [] }
        ensures slots { result.slots ≡ [] }
    {
        GroundSeat {
            seat: badge.into_seat(),
        }
    }

    /// Ends the seat of a worker that has died, and gives nothing back: what it has stays where it
    /// is.
    pub fn lose(self) {
        let GroundSeat { seat } = self;
        drop(seat);
    }
}
