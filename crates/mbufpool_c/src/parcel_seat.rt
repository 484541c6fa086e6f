//! What a packet under way holds, without bytes.

ghost use Rattle.std.specs.Prelude.{List};
ghost use base.Stored.{coded_list};
ghost use Rattle.atomic_table.specs.Seated.{TableId, table_id_coded};
ghost use Rattle.ground.specs.contracts.known.Known.{the_row as the_known};
ghost use Rattle.ground.specs.declared.known.Known.{Known};

use atomic_table::Badge;
use ground::known::Known;
use ground::seat::GroundSeat;
use std::marker::Model;

/// The seat of a parcel in the hands of C, or none. It has no bytes: at run time there are the
/// parcel's bytes alone. One that is dropped is lost, with what its packet holds.
#[repr(C)]
pub struct ParcelSeat {
    pub ghost table: { TableId } by { table_id_coded },
    pub ghost views: { List Known } by { coded_list the_known.coded },
}

impl Model for ParcelSeat {
    ghost use Rattle.mbufpool_c.specs.Carried.{seat_owns};

    ghost also_owns = { λ s. seat_owns s.table s.views };
}

impl Drop for ParcelSeat {
    fn drop(self) {
        let Self {} = self;
    }
}

unsafe impl Send for ParcelSeat {}

/// A seat in the hands of C, and a place for one on its way there or back.
struct Exchange {
    badge: Badge<Known>,
    seat: ParcelSeat,
}

impl Exchange {
    ghost use Rattle.std.specs.Prelude.{◌≡◌};

    /// What is in the place and the seat change places.
    fn swap(self) -> Exchange
        ensures { (result.badge.table_id ≡ self.seat.table) × (result.badge.views ≡ self.seat.views)
            × (result.seat ≡ record { table = self.badge.table_id; views = self.badge.views }) }
    {
        self
    }
}

impl ParcelSeat {
    ghost use Rattle.std.specs.Prelude.{◌≡◌, [], ◌∷◌, None};
    ghost use Rattle.ground.specs.Own.{Owned, KnowsDesks};

    /// None.
    #[inline(always)]
    pub(crate) fn blank() -> ParcelSeat
        ensures { result.views ≡ [] }
    {
        ParcelSeat {}
    }

    /// This seat.
    #[inline(always)]
    pub(crate) fn of(seat: GroundSeat) -> ParcelSeat
        requires { seat.slots ≡ [] }
        ensures table { result.table ≡ seat.table }
        ensures known { result.views ≡ seat.known ∷ [] }
    {
        let Exchange { badge, seat } = Exchange {
            badge: seat.into_badge(),
            seat: ParcelSeat::blank(),
        }
        .swap();
        drop(badge);
        seat
    }

    /// Takes the seat out, and leaves none.
    #[inline(always)]
    pub(crate) fn take(&mut self) -> GroundSeat
        requires { (known : Known) × (self.old.views ≡ known ∷ []) × Owned known.limits known.view
            × (known.view.work ≡ None) × KnowsDesks known }
        ensures left { self.new.views ≡ [] }
        ensures table { result.table ≡ self.old.table }
        ensures known { self.old.views ≡ result.known ∷ [] }
        ensures slots { result.slots ≡ [] }
    {
        let Exchange { badge, seat } = Exchange {
            badge: Badge::blank(),
            seat: std::mem::replace(self, ParcelSeat::blank()),
        }
        .swap();
        drop(seat);
        GroundSeat::of_badge(badge)
    }
}
