//! `LentWords`: the shared part of a pool over the words of its ground, by a seat that is lent.

ghost use Rattle.std.specs.Prelude.{◌≡◌};
ghost use Rattle.std.proofs.Props.{props};
ghost use Rattle.ground.specs.Seats.{IsOf};
ghost use Rattle.ground.specs.Own.{Owned, AtRest};
ghost use Rattle.stack_lf.specs.Remaining.{ReadsRemaining};
ghost use Rattle.stack_lf.specs.Sides.{side_of};
ghost use Rattle.stack_lf.specs.Tries.{DidOnWords};

use crate::{counting, desking, getting, putting};
use commons::limits::SPENT;
use commons::packet::Packet;
use commons::refusal::{Lowered, Refusal};
use commons::shared::Commons;
use ground::pool::Ground;
use ground::seat::GroundSeat;

/// What one worker shares with others on the words of a ground, as `WordCommons`, by a seat that
/// stays where it is and is lent for as long as this stands. Each call does what the same call of a
/// `WordCommons` does; it is known besides that the seat is the one that was lent.
#[derive(Drop)]
pub struct LentWords<'a> {
    ground: &'a Ground,
    seat: &'a mut GroundSeat,
    pub ghost of: { IsOf ground.now seat.now },
    pub ghost rest: { AtRest seat.now.known.view },
    pub ghost owned: { Owned seat.now.known.limits seat.now.known.view } by { Prim.hlevel props },
}

impl<'a> LentWords<'a> {
    /// The words of this ground as this seat sees them, which is one of the ground's and at rest.
    pub fn new(ground: &'a Ground, seat: &'a mut GroundSeat) -> LentWords<'a>
        requires of { IsOf ground.now seat.old }
        requires rest { AtRest seat.old.known.view }
        ensures same { result.seat.ghost_name ≡ seat.entry.ghost_name }
        ensures now { result.seat.now ≡ seat.old }
    {
        seat.owned();
        let _ = ground.limits();
        LentWords { ground, seat }
    }

    /// How many changes of the stack are left, as `WordCommons::changes_left` tells.
    pub fn changes_left(&mut self) -> u64
        ensures same { self.new.seat.ghost_name ≡ self.old.seat.ghost_name }
        ensures read { ReadsRemaining self.old.seat.now result self.new.seat.now }
    {
        let seat = &mut *self.seat;
        let head = self.ground.load_head(seat);
        seat.owned();
        SPENT - head.count
    }
}

/// Each call takes as many steps as that of a `WordCommons`, and no more.
impl<'a> Commons for LentWords<'a> {
    ghost side = { λ c. side_of c.seat.now };

    ghost did = { λ s call rs t. (t.seat.ghost_name ≡ s.seat.ghost_name)
        × DidOnWords s.seat.now call rs t.seat.now };

    #[inline(always)]
    fn get_list(&mut self, out: &mut [u32]) -> Result<(), Refusal> {
        let seat = &mut *self.seat;
        let answer = getting::get(self.ground, seat, out);
        seat.owned();
        answer
    }

    #[inline(always)]
    fn put_list(&mut self, list: &[u32]) -> Result<(), Refusal> {
        let seat = &mut *self.seat;
        let answer = putting::put(self.ground, seat, list);
        seat.owned();
        answer
    }

    fn claim(&mut self, element: u32) {
        let seat = &mut *self.seat;
        self.ground.claim(seat, element);
        seat.owned();
    }

    fn count(&mut self, element: u32) -> u32 {
        let seat = &mut *self.seat;
        let count = self.ground.sole(seat, element, false);
        seat.owned();
        count as u32
    }

    fn raise(&mut self, element: u32) -> Result<(), Refusal> {
        let seat = &mut *self.seat;
        let answer = counting::raise(self.ground, seat, element);
        seat.owned();
        answer
    }

    fn lower(&mut self, element: u32) -> Lowered {
        let seat = &mut *self.seat;
        let answer = counting::lower(self.ground, seat, element);
        seat.owned();
        answer
    }

    fn offer(&mut self, desk: u32, packet: Packet) -> Result<(), (Refusal, Packet)> {
        let seat = &mut *self.seat;
        let answer = desking::offer(self.ground, seat, desk, packet);
        seat.owned();
        answer
    }

    fn take(&mut self, desk: u32) -> Result<Packet, Refusal> {
        let seat = &mut *self.seat;
        let answer = desking::take(self.ground, seat, desk);
        seat.owned();
        answer
    }

    fn common_count(&mut self) -> u32 {
        let seat = &mut *self.seat;
        let length = self.ground.load_length(seat);
        seat.owned();
        length as u32
    }

    ghost use Rattle.stack_lf.specs.OwnLaws.{hand_once_of, hand_below_of, apart_of};

    ghost hand_once = { λ c i. hand_once_of c.seat.now.known.limits c.seat.now.known.view c.owned i };

    ghost hand_below = { λ c i h. hand_below_of c.seat.now.known.limits c.seat.now.known.view c.owned i h };

    ghost holds_below = { λ c i h. c.owned.held_below i h };

    ghost apart = { λ c i h. apart_of c.seat.now.known.limits c.seat.now.known.view c.owned i h };

    ghost header_once = { λ c i. c.owned.header_once i };

    ghost header_held = { λ c i h. c.owned.header_held i h };
}
