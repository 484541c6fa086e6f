//! What a worker of two pools is asked to do, and what is replied.

ghost use Rattle.mbuf.specs.Acts.{HasRoom, as_reply};
ghost use Rattle.mbuf.specs.Foreign.{BothCalls};
ghost use Rattle.mbuf.specs.Fresh.{new_elements};
ghost use Rattle.mbuf.specs.Twins.{OwnTwin};
ghost use Rattle.mbuf.specs.Refused.{IfRefused};
ghost use Rattle.twin_acts.specs.TwinActs.{AreFreshByAct, HasTwinRoom, KeepsTwin, PerformsTwin, TwinAsBefore};

use commons::refusal::Refusal;
use commons::shared::Commons;
use mbuf::acts::{Act, Answer, Reply, elems_in, told_len};
use mbuf::packets::{Packets, Pid};
use mbuf::twin::Twin;

/// One of the calls of `Twin`, with its arguments.
#[derive(Clone, Copy)]
pub enum TwinAct {
    /// Does this with the worker's packets of the first pool.
    OnFirst(Act),
    /// Clones a packet of the first pool into a foreign clone, in the lowest free slot of those.
    CloneInto(Pid),
    /// Takes this many bytes off the front of a foreign clone's first segment.
    AdjClone(Pid, u16),
    /// Takes this many bytes off the end of a foreign clone's last segment.
    TrimClone(Pid, u16),
    /// Tells the reference count of a foreign clone's first segment's own element.
    CountClone(Pid),
    /// Frees the foreign clone in this slot.
    FreeClone(Pid),
}

/// Does this with the worker's packets of the first pool.
fn on_first<C: Commons, D: Commons, const ROOM: usize>(
    twin: &mut Twin,
    c: &mut C,
    d: &mut D,
    act: Act,
) -> Answer<ROOM>
    requires room { HasRoom ROOM act }
    requires own { OwnTwin twin.old (C.side c.old) (D.side d.old) }
    ensures calls { BothCalls C.did C.side c.old c.new D.did D.side d.old d.new (λ firsts seconds.
        PerformsTwin (TwinAct.OnFirst act) twin.old firsts seconds (as_reply result) twin.new) }
    ensures fresh { AreFreshByAct (TwinAct.OnFirst act) twin.old (C.side c.old) (D.side d.old) (new_elements (as_reply result)) }
    ensures own { OwnTwin twin.new (C.side c.new) (D.side d.new) }
    ensures refused { IfRefused (as_reply result) (TwinAsBefore (TwinAct.OnFirst act)
        twin.old (C.side c.old) (D.side d.old) twin.new (C.side c.new) (D.side d.new)) }
{
    twin.perform_first_in(c, d, act)
}

/// Clones a packet of the first pool into the second, and tells of the clone.
fn clone_into<C: Commons, D: Commons, const ROOM: usize>(
    twin: &mut Twin,
    c: &mut C,
    d: &mut D,
    p: Pid,
) -> Answer<ROOM>
    requires own { OwnTwin twin.old (C.side c.old) (D.side d.old) }
    ensures calls { BothCalls C.did C.side c.old c.new D.did D.side d.old d.new (λ firsts seconds.
        PerformsTwin (TwinAct.CloneInto p) twin.old firsts seconds (as_reply result) twin.new) }
    ensures fresh { AreFreshByAct (TwinAct.CloneInto p) twin.old (C.side c.old) (D.side d.old) (new_elements (as_reply result)) }
    ensures own { OwnTwin twin.new (C.side c.new) (D.side d.new) }
    ensures refused { IfRefused (as_reply result) (TwinAsBefore (TwinAct.CloneInto p)
        twin.old (C.side c.old) (D.side d.old) twin.new (C.side c.new) (D.side d.new)) }
{
    match twin.clone_into(c, d, p) {
        Ok(slot) => Answer::Cloned(slot, elems_in(twin.second(), slot)),
        Err(cause) => Answer::Refused(cause),
    }
}

/// Takes bytes off the front of a foreign clone, and tells its length.
fn adj_clone<C: Commons, D: Commons, const ROOM: usize>(
    twin: &mut Twin,
    c: &mut C,
    d: &mut D,
    p: Pid,
    len: u16,
) -> Answer<ROOM>
    requires own { OwnTwin twin.old (C.side c.old) (D.side d.old) }
    ensures calls { BothCalls C.did C.side c.old c.new D.did D.side d.old d.new (λ firsts seconds.
        PerformsTwin (TwinAct.AdjClone p len) twin.old firsts seconds (as_reply result) twin.new) }
    ensures own { OwnTwin twin.new (C.side c.new) (D.side d.new) }
    ensures refused { IfRefused (as_reply result) (TwinAsBefore (TwinAct.AdjClone p len)
        twin.old (C.side c.old) (D.side d.old) twin.new (C.side c.new) (D.side d.new)) }
{
    told_len(twin.adj_clone(c, d, p, len))
}

/// Takes bytes off the end of a foreign clone, and tells its length.
fn trim_clone<C: Commons, D: Commons, const ROOM: usize>(
    twin: &mut Twin,
    c: &mut C,
    d: &mut D,
    p: Pid,
    len: u16,
) -> Answer<ROOM>
    requires own { OwnTwin twin.old (C.side c.old) (D.side d.old) }
    ensures calls { BothCalls C.did C.side c.old c.new D.did D.side d.old d.new (λ firsts seconds.
        PerformsTwin (TwinAct.TrimClone p len) twin.old firsts seconds (as_reply result) twin.new) }
    ensures own { OwnTwin twin.new (C.side c.new) (D.side d.new) }
    ensures refused { IfRefused (as_reply result) (TwinAsBefore (TwinAct.TrimClone p len)
        twin.old (C.side c.old) (D.side d.old) twin.new (C.side c.new) (D.side d.new)) }
{
    told_len(twin.trim_clone(c, d, p, len))
}

/// Tells the count of a foreign clone's first own element.
fn count_clone<C: Commons, D: Commons, const ROOM: usize>(
    twin: &mut Twin,
    c: &mut C,
    d: &mut D,
    p: Pid,
) -> Answer<ROOM>
    requires own { OwnTwin twin.old (C.side c.old) (D.side d.old) }
    ensures calls { BothCalls C.did C.side c.old c.new D.did D.side d.old d.new (λ firsts seconds.
        PerformsTwin (TwinAct.CountClone p) twin.old firsts seconds (as_reply result) twin.new) }
    ensures own { OwnTwin twin.new (C.side c.new) (D.side d.new) }
    ensures refused { IfRefused (as_reply result) (TwinAsBefore (TwinAct.CountClone p)
        twin.old (C.side c.old) (D.side d.old) twin.new (C.side c.new) (D.side d.new)) }
{
    match twin.count_clone(c, d, p) {
        Ok(count) => Answer::Count(count),
        Err(cause) => Answer::Refused(cause),
    }
}

/// Frees a foreign clone, and tells what went back.
fn free_clone<C: Commons, D: Commons, const ROOM: usize>(
    twin: &mut Twin,
    c: &mut C,
    d: &mut D,
    p: Pid,
) -> Answer<ROOM>
    requires own { OwnTwin twin.old (C.side c.old) (D.side d.old) }
    ensures calls { BothCalls C.did C.side c.old c.new D.did D.side d.old d.new (λ firsts seconds.
        PerformsTwin (TwinAct.FreeClone p) twin.old firsts seconds (as_reply result) twin.new) }
    ensures own { OwnTwin twin.new (C.side c.new) (D.side d.new) }
    ensures refused { IfRefused (as_reply result) (TwinAsBefore (TwinAct.FreeClone p)
        twin.old (C.side c.old) (D.side d.old) twin.new (C.side c.new) (D.side d.new)) }
{
    match twin.free_clone(c, d, p) {
        Ok(freed) => Answer::Freed(freed),
        Err(cause) => Answer::Refused(cause),
    }
}

/// Lets a worker of two pools do this, over the shared part of either, and answers what came of it.
///
/// Each act is the call of `Twin` of that name, with its refusals; `OnFirst` is `perform_first`.
/// After a refusal all that the worker has of both pools is as before, but that a refused clone may
/// share out the free elements differently between cache and stack. The worker keeps its number and
/// its limits.
pub fn perform_twin<C: Commons, D: Commons>(
    twin: &mut Twin,
    c: &mut C,
    d: &mut D,
    act: TwinAct,
) -> Reply
    requires own { OwnTwin twin.old (C.side c.old) (D.side d.old) }
    ensures calls { BothCalls C.did C.side c.old c.new D.did D.side d.old d.new (λ firsts seconds.
        PerformsTwin act twin.old firsts seconds result twin.new) }
    ensures fresh { AreFreshByAct act twin.old (C.side c.old) (D.side d.old) (new_elements result) }
    ensures own { OwnTwin twin.new (C.side c.new) (D.side d.new) }
    ensures refused { IfRefused result
        (TwinAsBefore act twin.old (C.side c.old) (D.side d.old) twin.new (C.side c.new) (D.side d.new)) }
    ensures member { KeepsTwin twin.old twin.new }
{
    perform_twin_in(twin, c, d, act)
}

/// Does what `perform_twin` does, and answers with room for a bulk of `ROOM` packets: with none the
/// answer is small.
pub fn perform_twin_in<C: Commons, D: Commons, const ROOM: usize>(
    twin: &mut Twin,
    c: &mut C,
    d: &mut D,
    act: TwinAct,
) -> Answer<ROOM>
    requires room { HasTwinRoom ROOM act }
    requires own { OwnTwin twin.old (C.side c.old) (D.side d.old) }
    ensures calls { BothCalls C.did C.side c.old c.new D.did D.side d.old d.new (λ firsts seconds.
        PerformsTwin act twin.old firsts seconds (as_reply result) twin.new) }
    ensures fresh { AreFreshByAct act twin.old (C.side c.old) (D.side d.old) (new_elements (as_reply result)) }
    ensures own { OwnTwin twin.new (C.side c.new) (D.side d.new) }
    ensures refused { IfRefused (as_reply result)
        (TwinAsBefore act twin.old (C.side c.old) (D.side d.old) twin.new (C.side c.new) (D.side d.new)) }
    ensures member { KeepsTwin twin.old twin.new }
{
    twin.first().has_slots();
    act_in(twin, c, d, act)
}

/// Does this act.
fn act_in<C: Commons, D: Commons, const ROOM: usize>(
    twin: &mut Twin,
    c: &mut C,
    d: &mut D,
    act: TwinAct,
) -> Answer<ROOM>
    requires room { HasTwinRoom ROOM act }
    requires own { OwnTwin twin.old (C.side c.old) (D.side d.old) }
    ensures calls { BothCalls C.did C.side c.old c.new D.did D.side d.old d.new (λ firsts seconds.
        PerformsTwin act twin.old firsts seconds (as_reply result) twin.new) }
    ensures fresh { AreFreshByAct act twin.old (C.side c.old) (D.side d.old) (new_elements (as_reply result)) }
    ensures own { OwnTwin twin.new (C.side c.new) (D.side d.new) }
    ensures refused { IfRefused (as_reply result)
        (TwinAsBefore act twin.old (C.side c.old) (D.side d.old) twin.new (C.side c.new) (D.side d.new)) }
{
    match act {
        TwinAct::OnFirst(act) => on_first(twin, c, d, act),
        TwinAct::CloneInto(p) => clone_into(twin, c, d, p),
        TwinAct::AdjClone(p, len) => adj_clone(twin, c, d, p, len),
        TwinAct::TrimClone(p, len) => trim_clone(twin, c, d, p, len),
        TwinAct::CountClone(p) => count_clone(twin, c, d, p),
        TwinAct::FreeClone(p) => free_clone(twin, c, d, p),
    }
}
