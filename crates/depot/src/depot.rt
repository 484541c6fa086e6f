//! The depot: the words and the magazines that all workers share.

ghost use Rattle.std.specs.Prelude.{◌≡◌};

use crate::magazine::Magazine;
use crate::rule::DepotRule;
use crate::view::{Shape, View};
use atomic_table::Table;
use std::alloc::Global;
use std::marker::Model;

/// Three stacks of magazines on one table, which any number of workers use at once, each by a seat
/// of its own.
#[derive(Drop)]
pub struct Depot {
    pub(crate) table: Table<Magazine, View, Shape, DepotRule, Global>,
    pub(crate) population: u64,
    /// How many elements a full magazine has.
    pub(crate) rounds: u64,
    /// How many elements have a place: those below this number.
    pub(crate) places: u32,
    pub(crate) tries: u32,
    /// Whether a call leaves nothing in a worker's magazines, since the workers' own could keep too
    /// much of so few elements.
    pub(crate) leaves_nothing: bool,
}

impl Model for Depot {
    ghost use Rattle.std.specs.Prelude.{◌≡◌, ◌<◌, ◌≤◌};
    ghost use Rattle.depot.specs.Layout.{place_at};
    ghost use Rattle.depot.specs.Seats.{Site};

    ghost Value = { Site };

    ghost view = { λ d. record {
      table = d.table.shared.table_id;
      population = d.population;
      rounds = d.rounds;
      places = d.places;
      tries = d.tries;
    } };

    ghost invariant = { λ d. (d.table.shared.table_id.words ≡ place_at d.table.shared.table_id.slots
        d.places)
        × (d.table.shared.table_id.slots < 65535)
        × (d.table.shared.key ≡ record {
          population = d.population;
          rounds = d.rounds;
          places = d.places;
        })
        × (0 < d.rounds) × (d.rounds ≤ 128) };
}

impl Depot {
    /// How many elements have a place: those below this number.
    pub fn places(&self) -> u32
        ensures { result ≡ self.now.places }
    {
        self.places
    }
}
