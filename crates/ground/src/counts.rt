//! The five steps of the counts. Each is one atomic operation on one element's count, by one seat,
//! whose view changes as the machine's step says, whatever the other seats do.

ghost use Rattle.std.specs.Prelude.{◌≡◌, ◌≢◌, ◌+◌, ◌<◌, ◌≤◌, IfErr, MatchResult};
ghost use Rattle.commons.specs.Bag.{bag};
ghost use Rattle.step_core.specs.declared.step.Step.TheVariants.{Claim, Sole, Raise, Lower, Reset};
ghost use Rattle.step_core.specs.declared.step.Outcome.TheVariants.{Value, Done};
ghost use Rattle.ground.specs.Seats.{IsOf, Steps, outcome_of, KnowsCount};
ghost use Rattle.ground.specs.Layout.{count_word};

use crate::plays::{Claims, Frees, Lowers, Raises, ReadsCount, Resets};
use crate::pool::Ground;
use crate::seat::GroundSeat;
use crate::stack::LINKS;

impl Ground {
    /// Where the count of an element stands: after the links.
    fn count_word(&self, element: u32) -> usize
        requires { element < self.now.limits.population }
        ensures { result ≡ count_word self.now.limits.population element }
    {
        LINKS + self.limits.population as usize + element as usize
    }

    /// Makes an element of the hand a held one, and a header: reads its count, which is 1
    /// (rte_mbuf.h, rte_mbuf_raw_alloc).
    pub fn claim(&self, seat: &mut GroundSeat, element: u32)
        requires of { IsOf self.now seat.old }
        requires hand { 0 < bag seat.old.known.view.hand element }
        ensures step { Steps (Claim element) (Value 1) seat.old seat.new }
    {
        seat.owned();
        self.table
            .shared
            .load::<Claims>(&mut seat.seat, self.count_word(element));
    }

    /// Reads the count of a held element. Where it is 1 and `free`, the hold ends, and the element
    /// is in the hand (rte_mbuf.h, rte_pktmbuf_prefree_seg). The only seat of a pool learns that
    /// it and the packets on full desks have all holds there are.
    pub fn sole(&self, seat: &mut GroundSeat, element: u32, free: bool) -> u64
        requires of { IsOf self.now seat.old }
        requires held { 0 < bag seat.old.known.view.holds element }
        ensures step { Steps (Sole element free) (Value result) seat.old seat.new }
        ensures own { bag seat.old.known.view.holds element ≤ result }
        ensures limited { result ≤ self.now.limits.ref_limit }
        ensures known { KnowsCount seat.old.known element result }
    {
        seat.owned();
        let word = self.count_word(element);
        if free {
            self.table.shared.load::<Frees>(&mut seat.seat, word)
        } else {
            self.table.shared.load::<ReadsCount>(&mut seat.seat, word)
        }
    }

    /// Makes one more hold of a held element: raises its count by 1, where it is `old`, which is
    /// below the reference limit. Else answers what it is, and nothing has changed (rte_mbuf.h,
    /// rte_mbuf_refcnt_update).
    pub fn raise(&self, seat: &mut GroundSeat, element: u32, old: u64) -> Result<(), u64>
        requires of { IsOf self.now seat.old }
        requires held { 0 < bag seat.old.known.view.holds element }
        requires limited { old < self.now.limits.ref_limit }
        ensures step { Steps (Raise element old) (outcome_of result) seat.old seat.new }
        ensures lost { IfErr result (λ found. found ≢ old) }
        ensures known { MatchResult result (λ _. KnowsCount seat.old.known element old) (λ found. KnowsCount seat.old.known element found) }
    {
        seat.owned();
        let word = self.count_word(element);
        let found = self
            .table
            .shared
            .compare_exchange::<Raises>(&mut seat.seat, word, old, old + 1);
        if found == old { Ok(()) } else { Err(found) }
    }

    /// Ends one hold of an element: lowers its count by 1, and answers what it was. Where that was
    /// 1, the element is in the hand, with count 0 (rte_mbuf.h, rte_pktmbuf_prefree_seg).
    pub fn lower(&self, seat: &mut GroundSeat, element: u32) -> u64
        requires of { IsOf self.now seat.old }
        requires held { 0 < bag seat.old.known.view.holds element }
        ensures step { Steps (Lower element) (Value result) seat.old seat.new }
        ensures own { bag seat.old.known.view.holds element ≤ result }
        ensures limited { result ≤ self.now.limits.ref_limit }
        ensures known { KnowsCount seat.old.known element result }
    {
        seat.owned();
        let word = self.count_word(element);
        self.table
            .shared
            .fetch_sub::<Lowers>(&mut seat.seat, word, 1)
    }

    /// Sets the count of an element of the hand to 1, where it is 0 (rte_mbuf.h,
    /// rte_mbuf_refcnt_set).
    pub fn reset(&self, seat: &mut GroundSeat, element: u32)
        requires of { IsOf self.now seat.old }
        requires zero { 0 < bag seat.old.known.view.zeros element }
        ensures step { Steps (Reset element) Done seat.old seat.new }
    {
        seat.owned();
        let word = self.count_word(element);
        self.table.shared.store::<Resets>(&mut seat.seat, word, 1);
    }
}
