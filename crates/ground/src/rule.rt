//! The rule of a pool's table.

use crate::known::Known;
use atomic_table::TableRule;
use commons::limits::Limits;
use commons::packet::Packet;

/// What holds between any two steps, of the words and of what all seats know: they are a lawful
/// world of the machine.
pub struct PoolRule;

impl TableRule<Option<Packet>, Known, Limits> for PoolRule {
    ghost use Rattle.ground.specs.Rule.{Ruled, first_known};

    ghost holds = { Ruled };

    ghost first = { first_known };
}

/// A rule that says of each state what `Ruled` does, and no more: the laws of this crate, which
/// speak of `Ruled`, are laws of it.
pub trait SaysRuled: TableRule<Option<Packet>, Known, Limits> {
    ghost use Rattle.atomic_table.specs.Table.{State};
    ghost use Rattle.commons.specs.declared.limits.Limits.{Limits};
    ghost use Rattle.ground.specs.Rule.{Ruled, Slot};
    ghost use Rattle.ground.specs.declared.known.Known.{Known};

    ghost says: { (l : Limits) (s : State Slot Known) → Self.TableRule.holds l s → Ruled l s };

    ghost said: { (l : Limits) (s : State Slot Known) → Ruled l s → Self.TableRule.holds l s };
}

impl SaysRuled for PoolRule {
    ghost says = { λ l s h. h };

    ghost said = { λ l s h. h };
}
