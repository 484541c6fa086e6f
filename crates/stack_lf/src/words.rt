//! `WordCommons`: the shared part of a pool over the words of its ground.

ghost use Rattle.std.specs.Prelude.{◌≡◌};
ghost use Rattle.std.proofs.Props.{props};
ghost use Rattle.ground.specs.Seats.{IsOf};
ghost use Rattle.ground.specs.Own.{Owned, AtRest};
ghost use Rattle.stack_lf.specs.Remaining.{ReadsRemaining};
ghost use Rattle.stack_lf.specs.Sides.{side_of};
ghost use Rattle.stack_lf.specs.Tries.{DidOnWords};

use crate::{counting, desking, getting, putting};
use commons::limits::SPENT;
use commons::packet::Packet;
use commons::refusal::{Lowered, Refusal};
use commons::shared::Commons;
use ground::pool::Ground;
use ground::seat::GroundSeat;

/// What one worker shares with others on the words of a ground, by a seat of its own, which is at
/// rest between the calls: nothing is reserved then, and nothing linked. Any number of workers
/// call at once, each by its own. No call takes memory or a lock, nor waits for another worker: a
/// try whose exchange of a word finds another value than was read is lost, as is one whose walk
/// ends early; each loop makes as many tries as the pool's `tries` says at most.
///
/// What each call does is said by `Did`, as of any `Commons`, over `DidOnWords`: the tries that it
/// made, the steps that its seat took, each one operation on one word, and what they read.
///
/// It can't be dropped: `into_seat` gives the seat back, as it is. The seat of a worker that has
/// died is ended by its own `lose`, which has no ground, and so can do nothing to one.
///
/// After rte_stack_lf.h (DPDK 21.11), with a count in the head that never wraps.
pub struct WordCommons<'a> {
    ground: &'a Ground,
    seat: GroundSeat,
    pub ghost of: { IsOf ground.now seat },
    pub ghost rest: { AtRest seat.known.view },
    pub ghost owned: { Owned seat.known.limits seat.known.view } by { Prim.hlevel props },
}

impl<'a> WordCommons<'a> {
    /// The words of this ground as this seat sees them, which is one of the ground's and at rest.
    pub fn new(ground: &'a Ground, seat: GroundSeat) -> WordCommons<'a>
        requires of { IsOf ground.now seat }
        requires rest { AtRest seat.known.view }
        ensures seat { result.seat ≡ seat }
    {
        seat.owned();
        let _ = ground.limits();
        WordCommons { ground, seat }
    }

    /// How many changes of the stack are left until its gets and puts are refused `HeadSpent`, as one
    /// read of the head tells: a get that comes to the stack takes one, and so does a put. Others may
    /// take some meanwhile, so it is an upper bound by the time it is answered; to the only seat of a
    /// pool it is exact. No `Commons` has such a call, since lists have no end.
    pub fn changes_left(&mut self) -> u64
        ensures { ReadsRemaining self.old.seat result self.new.seat }
    {
        let seat = &mut self.seat;
        let head = self.ground.load_head(seat);
        seat.owned();
        SPENT - head.count
    }

    /// Gives the seat back, which is at rest.
    pub fn into_seat(self) -> GroundSeat
        ensures seat { result ≡ self.entry.seat }
        ensures rest { AtRest result.known.view }
    {
        let WordCommons { ground: _, seat } = self;
        seat
    }
}

/// Each call takes as many steps at most as is said here, each one atomic operation on one word; an
/// offer and a take that succeed also exchange what is in the desk's slot. The length of a list is
/// `n`. The only seat of a pool, which has every part of it, is never refused `Contended`, and
/// `HeadSpent` only where the start and its own changes have come to the spent count.
impl<'a> Commons for WordCommons<'a> {
    ghost side = { λ c. side_of c.seat };

    ghost did = { λ s call rs t. DidOnWords s.seat call rs t.seat };

    /// Takes `tries * (n + 4) + 1` steps at most. The elements are reserved first, so that the
    /// walk over them is of this length; what was reserved is given back before any refusal. While
    /// another worker is within a call, its elements may be in neither the length nor a hand, so
    /// `NoEntries` doesn't say that the pool has no more. To its only seat it does: the common list
    /// was shorter than `n` then.
    #[inline(always)]
    fn get_list(&mut self, out: &mut [u32]) -> Result<(), Refusal> {
        let seat = &mut self.seat;
        let answer = getting::get(self.ground, seat, out);
        seat.owned();
        answer
    }

    /// Takes `tries * (n + 2) + 1` steps at most. The last of the list is on top then, unless
    /// another worker has changed the stack since; the length is raised after that.
    #[inline(always)]
    fn put_list(&mut self, list: &[u32]) -> Result<(), Refusal> {
        let seat = &mut self.seat;
        let answer = putting::put(self.ground, seat, list);
        seat.owned();
        answer
    }

    /// Takes one step.
    fn claim(&mut self, element: u32) {
        let seat = &mut self.seat;
        self.ground.claim(seat, element);
        seat.owned();
    }

    /// Takes one step. The only seat of a pool is told how often it and the packets on full desks
    /// hold the element.
    fn count(&mut self, element: u32) -> u32 {
        let seat = &mut self.seat;
        let count = self.ground.sole(seat, element, false);
        seat.owned();
        count as u32
    }

    /// Takes `2 * tries` steps at most. Where the only seat of a pool is refused `RefSpent`, it and
    /// the packets on full desks have as many holds of the element as the reference limit allows.
    fn raise(&mut self, element: u32) -> Result<(), Refusal> {
        let seat = &mut self.seat;
        let answer = counting::raise(self.ground, seat, element);
        seat.owned();
        answer
    }

    /// Takes three steps at most.
    fn lower(&mut self, element: u32) -> Lowered {
        let seat = &mut self.seat;
        let answer = counting::lower(self.ground, seat, element);
        seat.owned();
        answer
    }

    /// Takes two steps on the desk's word and an exchange of what is in its slot, or one step
    /// where the desk isn't empty, and none where there is no such desk.
    fn offer(&mut self, desk: u32, packet: Packet) -> Result<(), (Refusal, Packet)> {
        let seat = &mut self.seat;
        let answer = desking::offer(self.ground, seat, desk, packet);
        seat.owned();
        answer
    }

    /// Takes two steps on the desk's word and an exchange of what is in its slot, or one step
    /// where the desk has no packet, and none where there is no such desk.
    fn take(&mut self, desk: u32) -> Result<Packet, Refusal> {
        let seat = &mut self.seat;
        let answer = desking::take(self.ground, seat, desk);
        seat.owned();
        answer
    }

    /// Takes one step. The only seat of a pool is told the length of the common list: all that is
    /// neither in its hand nor held by it or by packets on full desks.
    fn common_count(&mut self) -> u32 {
        let seat = &mut self.seat;
        let length = self.ground.load_length(seat);
        seat.owned();
        length as u32
    }

    ghost use Rattle.stack_lf.specs.OwnLaws.{hand_once_of, hand_below_of, apart_of};

    ghost hand_once = { λ c i. hand_once_of c.seat.known.limits c.seat.known.view c.owned i };

    ghost hand_below = { λ c i h. hand_below_of c.seat.known.limits c.seat.known.view c.owned i h };

    ghost holds_below = { λ c i h. c.owned.held_below i h };

    ghost apart = { λ c i h. apart_of c.seat.known.limits c.seat.known.view c.owned i h };

    ghost header_once = { λ c i. c.owned.header_once i };

    ghost header_held = { λ c i h. c.owned.header_held i h };
}
