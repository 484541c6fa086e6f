//! A law of closed pools.

ghost use Rattle.std.specs.Prelude.{◌≡◌, ℕ, List};
ghost use Rattle.commons.specs.declared.limits.Limits.{Limits};
ghost use Rattle.mbuf.specs.declared.acts.Act.{Act};
ghost use Rattle.pool_model.specs.PacketModel.{after_acts};
ghost use Rattle.pool_model.specs.Pool.{new_pool};
ghost use Rattle.pool_model.specs.Statements.{statement_of};
ghost use Rattle.snapshot.specs.Closing.{snapshot_in};
ghost use Rattle.snapshot.specs.Snapshots.{HasSlots, IsLawful, statement_in};

/// A pool that acts made of a new one is lawful once it is closed, and has the statement that it
/// had.
pub fn a_closed_pool_is_lawful()
    ensures lawful { (l : Limits) (acts : List (ℕ × Act)) → IsLawful (snapshot_in (after_acts acts (new_pool l))) }
    ensures slots { (l : Limits) (acts : List (ℕ × Act)) → HasSlots (snapshot_in (after_acts acts (new_pool l))) }
    ensures statement { (l : Limits) (acts : List (ℕ × Act)) → let pool = after_acts acts (new_pool l) in statement_in (snapshot_in pool) ≡ statement_of pool }
{}
