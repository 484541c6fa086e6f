//! The rule of a depot's table.

use crate::magazine::Magazine;
use crate::view::{Shape, View};
use atomic_table::TableRule;

/// What holds between any two steps, of the words, of the magazines at home and of what all seats
/// know.
pub struct DepotRule;

impl TableRule<Magazine, View, Shape> for DepotRule {
    ghost use Rattle.depot.specs.Rule.{Ruled, first_view};

    ghost holds = { Ruled };

    ghost first = { first_view };
}
