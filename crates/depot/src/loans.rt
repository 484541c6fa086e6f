//! Elements that any worker may put, whichever worker got them.

ghost use Rattle.std.specs.Prelude.{◌≡◌, ◌∷◌, [], List};
ghost use base.Stored.{coded_list};
ghost use Rattle.atomic_table.specs.Seated.{TableId, table_id_coded};
ghost use Rattle.depot.specs.contracts.view.View.{the_row as the_view};
ghost use Rattle.depot.specs.declared.view.View.{View};

use crate::magazine::Magazine;
use crate::view::View;
use atomic_table::{Badge, Seat};
use std::marker::Model;

/// Loans of elements of one depot: a seat that has them in its hand, and no other has. Whoever has
/// the loans, by whatever worker the elements were got, may put them. No two are of one element.
///
/// Loans have no bytes: at run time there are the elements' numbers alone. What is dropped is lost,
/// with its elements.
#[repr(C)]
pub struct Loans {
    pub ghost table: { TableId } by { table_id_coded },
    pub ghost views: { List View } by { coded_list the_view.coded },
}

impl Model for Loans {
    ghost use Rattle.depot.specs.Lent.{loans_own};

    ghost also_owns = { λ l. loans_own l.table l.views };
}

impl Drop for Loans {
    fn drop(self) {
        let Self {} = self;
    }
}

unsafe impl Send for Loans {}

/// Loans, and a place for a seat on its way to them or from them.
struct Exchange {
    badge: Badge<View>,
    loans: Loans,
}

impl Exchange {
    ghost use Rattle.std.specs.Prelude.{◌≡◌};

    /// What is in the place and the loans change places.
    fn swap(self) -> Exchange
        ensures { (result.badge.table_id ≡ self.loans.table) × (result.badge.views ≡
            self.loans.views)
            × (result.loans ≡ record { table = self.badge.table_id; views = self.badge.views }) }
    {
        self
    }
}

impl Loans {
    /// Loans of nothing, which no seat can be made of.
    fn blank() -> Loans
        ensures { result.views ≡ [] }
    {
        Loans {}
    }

    /// The loans of what is in the hand of this seat.
    #[inline(always)]
    pub(crate) fn of(seat: Seat<Magazine, View>) -> Loans
        requires none { seat.me.1 ≡ [] }
        ensures table { result.table ≡ seat.table_id }
        ensures views { result.views ≡ seat.me.0 ∷ [] }
    {
        let Exchange { badge, loans } = Exchange {
            badge: seat.into_badge(),
            loans: Loans::blank(),
        }
        .swap();
        drop(badge);
        loans
    }

    /// Takes all out, and leaves nothing that could be put.
    #[inline(always)]
    pub(crate) fn take(&mut self) -> Seat<Magazine, View>
        requires some { (v : View) × (self.old.views ≡ v ∷ []) }
        ensures table { result.table_id ≡ self.old.table }
        ensures me { (self.old.views ≡ result.me.0 ∷ []) × (result.me.1 ≡ []) }
    {
        let Exchange { badge, loans } = Exchange {
            badge: Badge::blank(),
            loans: std::mem::replace(self, Loans::blank()),
        }
        .swap();
        drop(loans);
        badge.into_seat()
    }
}
