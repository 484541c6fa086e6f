//! Laws of each replay, by the definitions that `replay` and `run_replay` ensure.

ghost use Rattle.std.specs.Prelude.{List};
ghost use Rattle.commons.specs.Bounds.{IsPool};
ghost use Rattle.commons.specs.declared.limits.Limits.{Limits};
ghost use Rattle.pool_model.specs.Statements.{ListsEachOnce, PlacesEachOnce};
ghost use Rattle.script.specs.Replay.{end_of, new_run, settled_of};
ghost use Rattle.script_text.specs.Commands.{Line};
ghost use Rattle.script_text.specs.PoolLine.{one_pool};

use pool_model::laws;

/// After any commands the statement of a new pool alone lists each element exactly once, and what is
/// available and what is in use are the population.
pub fn each_element_is_listed_once()
    ensures { (l : Limits) (lines : List Line) → IsPool l →
        ListsEachOnce (settled_of (end_of lines (new_run (one_pool l))).stock).first }
{
    laws::acts_leave_each_element_in_one_place();
}

/// After any commands the packets in the statement of a new pool alone ascend by worker and slot, and
/// those on desks by desk: no two stand in one slot or on one desk, and each stands in a slot or on a
/// desk of the pool.
pub fn each_packet_has_a_place_of_its_own()
    ensures { (l : Limits) (lines : List Line) →
        PlacesEachOnce l (settled_of (end_of lines (new_run (one_pool l))).stock).first }
{
    laws::acts_leave_each_element_in_one_place();
}
