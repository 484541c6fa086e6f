//! Two shared pools that one worker calls, as one value, so that contracts see in which order the
//! calls on either come.

ghost use Rattle.std.specs.Prelude.{◌≡◌, ◌<◌, ◌≤◌, ◌+◌, ◌*◌, [], ◌∷◌, ℕ, List};
ghost use Rattle.commons.specs.Bag.{bag};
ghost use Rattle.commons.specs.Bounds.{max_population};
ghost use Rattle.commons.specs.Calls.{Call, Calls, Reading, Side};
ghost use Rattle.commons.specs.Packets.{hold_of, max_segs};
ghost use Rattle.mbuf.specs.PacketRules.{EndsHold, EndsHolds};
ghost use Rattle.mbuf.specs.inside.Ending.{LostHolds};

use super::end_hold;
use super::foreign::end_if;
use crate::freed::Freed;
use commons::shared::Commons;
use mempool::worker::Worker;

/// Two shared pools of a worker. A call on either is a step from one state of both to another; of
/// the steps of a pair that isn't known none can be moved past another.
pub trait Pair {
    /// What the worker has of either pool.
    ghost first_side: { Self → Side };

    ghost second_side: { Self → Side };

    /// A call was made on that pool, read this, and led from the first state of both to the second.
    ghost first_did: { Self → Call → List Reading → Self → Type 0 };

    ghost second_did: { Self → Call → List Reading → Self → Type 0 };

    /// Which pools they are.
    ghost first_name: { Self → ℕ };

    ghost second_name: { Self → ℕ };

    /// Ends the hold of a segment's base, if it has one, in the first pool.
    fn end_base(&mut self, worker: &mut Worker, base: Option<u32>, freed: Freed) -> Freed
        requires limits { (first_side self.old).limits ≡ worker.old.limits }
        requires hand { (i : ℕ) → (first_side self.old).hand i ≡ bag worker.old.cache i }
        requires held { (i : ℕ) → bag (hold_of base) i ≤ (first_side self.old).holds i }
        requires back { freed.back < 2 * max_segs }
        requires flushed { freed.flushed ≤ max_population * freed.back }
        ensures calls { Calls first_did first_side self.old self.new (λ calls.
            EndsHolds worker.old.limits (hold_of base) worker.old.cache freed calls
            worker.new.cache result) }
        ensures lost { LostHolds (hold_of base) worker.old (first_side self.old)
            worker.new (first_side self.new) }
        ensures back { result.back ≤ freed.back + 1 }
        ensures flushed { result.flushed ≤ max_population * result.back }
        ensures other { second_side self.new ≡ second_side self.old }
        ensures first_name { first_name self.new ≡ first_name self.old }
        ensures second_name { second_name self.new ≡ second_name self.old };

    /// Ends the hold of a segment's own element in the second.
    fn end_own(&mut self, worker: &mut Worker, elem: u32, freed: Freed) -> Freed
        requires limits { (second_side self.old).limits ≡ worker.old.limits }
        requires hand { (i : ℕ) → (second_side self.old).hand i ≡ bag worker.old.cache i }
        requires held { 0 < (second_side self.old).holds elem }
        requires back { freed.back < 2 * max_segs }
        requires flushed { freed.flushed ≤ max_population * freed.back }
        ensures calls { Calls second_did second_side self.old self.new (λ calls.
            EndsHold worker.old.limits elem worker.old.cache freed calls worker.new.cache result) }
        ensures lost { LostHolds (elem ∷ []) worker.old (second_side self.old)
            worker.new (second_side self.new) }
        ensures back { result.back ≤ freed.back + 1 }
        ensures flushed { result.flushed ≤ max_population * result.back }
        ensures other { first_side self.new ≡ first_side self.old }
        ensures first_name { first_name self.new ≡ first_name self.old }
        ensures second_name { second_name self.new ≡ second_name self.old };
}

/// Two shared pools that are known: a call on one leaves the other as it was.
#[derive(Drop)]
pub struct Both<'a, C, D> {
    pub c: &'a mut C,
    pub d: &'a mut D,
}

impl<'a, C: Commons, D: Commons> Pair for Both<'a, C, D> {
    ghost first_side = { λ s. C.side s.c.now };

    ghost second_side = { λ s. D.side s.d.now };

    ghost first_did = { λ s call rs t. C.did s.c.now call rs t.c.now × (t.d.now ≡ s.d.now) };

    ghost second_did = { λ s call rs t. D.did s.d.now call rs t.d.now × (t.c.now ≡ s.c.now) };

    ghost first_name = { λ s. s.c.ghost_name };

    ghost second_name = { λ s. s.d.ghost_name };

    #[inline(always)]
    fn end_base(&mut self, worker: &mut Worker, base: Option<u32>, freed: Freed) -> Freed {
        end_if(worker, self.c, base, freed)
    }

    #[inline(always)]
    fn end_own(&mut self, worker: &mut Worker, elem: u32, freed: Freed) -> Freed {
        end_hold(worker, self.d, elem, freed)
    }
}
