//! The ground: the words of a pool.

use crate::known::Known;
use crate::rule::PoolRule;
use atomic_table::Table;
use commons::limits::Limits;
use commons::packet::Packet;
use std::alloc::Global;
use std::marker::Model;

/// The words of a pool on one table, which any number of workers use at once, each by a seat of
/// its own.
#[derive(Drop)]
pub struct Ground {
    pub(crate) table: Table<Option<Packet>, Known, Limits, PoolRule, Global>,
    pub(crate) limits: Limits,
    pub(crate) alloc: Global,
}

impl Model for Ground {
    ghost use Rattle.std.specs.Prelude.{◌≡◌};
    ghost use Rattle.commons.specs.Bounds.{IsPool};
    ghost use Rattle.ground.specs.Layout.{word_count};
    ghost use Rattle.ground.specs.Seats.{Grounded};

    ghost Value = { Grounded };

    ghost view = { λ g. record { table = g.table.shared.table_id; limits = g.limits } };

    ghost invariant = { λ g. (g.table.shared.table_id.words ≡ word_count g.limits.population g.limits.desks)
        × IsPool g.limits × (g.table.shared.key ≡ g.limits) × (g.table.shared.table_id.slots ≡ g.limits.desks) };
}

impl Ground {
    ghost use Rattle.std.specs.Prelude.{◌≡◌};
    ghost use Rattle.commons.specs.Bounds.{IsPool};

    /// The pool's limits.
    pub fn limits(&self) -> Limits
        ensures limits { result ≡ self.now.limits }
        ensures pool { IsPool self.now.limits }
    {
        self.limits
    }
}
