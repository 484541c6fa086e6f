//! A worker of two pools on words.

ghost use Rattle.std.specs.Prelude.{◌≡◌, []};
ghost use Rattle.ground.specs.Own.{AtRest};
ghost use Rattle.ground.specs.Seats.{IsOf};
ghost use Rattle.mbuf.specs.Acts.{as_reply};
ghost use Rattle.mbuf.specs.Twins.{OwnTwin};
ghost use Rattle.stack_lf.specs.Sides.{side_of};
ghost use Rattle.twin_acts.specs.TwinActs.{HasTwinRoom};
ghost use Rattle.word_pool.specs.TwinWorkers.{DoesTwin, IsTwinIdle};
ghost use Rattle.word_pool.specs.inside.TwinKept.{twin_at};

use ground::pool::Ground;
use ground::seat::GroundSeat;
use mbuf::acts::{Answer, Reply};
use mbuf::packets::Packets;
use mbuf::twin::Twin;
use stack_lf::lent::LentWords;
use std::marker::Model;
use twin_acts::acts::{TwinAct, perform_twin_in};

/// A seat at the ground of either pool.
pub(crate) struct Seats {
    pub(crate) first: GroundSeat,
    pub(crate) second: GroundSeat,
}

/// A worker of two pools on words: its seat at the ground of either, its caches, its packets and its
/// foreign clones, which are its own. It can be sent to a thread. One that is dropped has died: what
/// it has is lost to both pools.
pub struct WordTwin {
    seats: Seats,
    twin: Twin,
}

impl Model for WordTwin {
    ghost use Rattle.word_pool.specs.TwinWorkers.{TwinState};

    ghost Value = { TwinState };

    ghost use Rattle.word_pool.specs.inside.TwinKept.{IsTwinKept, twin_state_of};

    ghost view = { twin_state_of };

    ghost invariant = { IsTwinKept };
}

impl Drop for WordTwin {
    fn drop(self) {
        let WordTwin { seats, twin } = self;
        lose(seats);
        twin.lose();
    }
}

/// Ends both seats.
pub(crate) fn lose(seats: Seats) {
    let Seats { first, second } = seats;
    first.lose();
    second.lose();
}

impl WordTwin {
    /// The worker with these seats, whose packets and clones are its own.
    pub(crate) fn new(seats: Seats, twin: Twin) -> WordTwin
        requires first_rest { AtRest seats.first.known.view }
        requires second_rest { AtRest seats.second.known.view }
        requires first_slots { seats.first.slots ≡ [] }
        requires second_slots { seats.second.slots ≡ [] }
        requires own { OwnTwin twin (side_of seats.first) (side_of seats.second) }
        ensures { result ≡ record { first = seats.first; second = seats.second; member = twin } }
    {
        WordTwin { seats, twin }
    }

    /// The seats of the worker, and what it has of both pools.
    pub(crate) fn into_parts(self) -> (Seats, Twin)
        ensures parts { (result.0.first ≡ self.first) × (result.0.second ≡ self.second) × (result.1 ≡ self.member) }
        ensures idle { IsTwinIdle self }
    {
        let WordTwin { seats, twin } = self;
        (seats, twin)
    }

    /// A law of each worker between its acts: its seats are at rest, and its packets and clones are
    /// its own. It does nothing.
    pub fn idle(&self)
        ensures { IsTwinIdle self.now }
    {
        let _ = &self.seats;
    }

    /// The worker's cache and packets of the first pool.
    pub fn first(&self) -> &Packets
        ensures { result.now ≡ self.now.member.first }
    {
        self.twin.first()
    }

    /// The worker's cache of the second pool and its foreign clones, which stand there as packets.
    pub fn second(&self) -> &Packets
        ensures { result.now ≡ self.now.member.second }
    {
        self.twin.second()
    }

    /// Lets the worker do this over the words of both grounds, beside others, and answers what came
    /// of it. The worker keeps its number, its parts, and its places at the grounds.
    ///
    /// Refused as the call of `mbuf::twin::Twin` is that the act names: all that is the worker's is
    /// then as before, but for the free elements after a clone.
    pub fn act(&mut self, first: &Ground, second: &Ground, act: TwinAct) -> Reply
        requires first { IsOf first.now self.old.first }
        requires second { IsOf second.now self.old.second }
        ensures { DoesTwin act self.old result self.new }
    {
        self.act_in(first, second, act)
    }

    /// Does what `act` does, and answers with room for a bulk of `ROOM` packets, no fewer than a
    /// bulk asks for where it asks for 256 at most: with none the answer is small, and nothing of a
    /// bulk's room is filled.
    pub fn act_in<const ROOM: usize>(
        &mut self,
        first: &Ground,
        second: &Ground,
        act: TwinAct,
    ) -> Answer<ROOM>
        requires room { HasTwinRoom ROOM act }
        requires first { IsOf first.now self.old.first }
        requires second { IsOf second.now self.old.second }
        ensures { DoesTwin act self.old (as_reply result) self.new }
    {
        let Seats {
            first: first_seat,
            second: second_seat,
        } = &mut self.seats;
        act_by(first, second, first_seat, second_seat, &mut self.twin, act)
    }
}

/// Lets the worker of these seats do this.
fn act_by<const ROOM: usize>(
    first: &Ground,
    second: &Ground,
    first_seat: &mut GroundSeat,
    second_seat: &mut GroundSeat,
    twin: &mut Twin,
    act: TwinAct,
) -> Answer<ROOM>
    requires room { HasTwinRoom ROOM act }
    requires first { IsOf first.now first_seat.old }
    requires second { IsOf second.now second_seat.old }
    requires idle { IsTwinIdle (twin_at first_seat.old second_seat.old twin.old) }
    ensures idle { IsTwinIdle (twin_at first_seat.new second_seat.new twin.new) }
    ensures acts { DoesTwin act (twin_at first_seat.old second_seat.old twin.old) (as_reply result)
        (twin_at first_seat.new second_seat.new twin.new) }
{
    let mut c = LentWords::new(first, first_seat);
    let mut d = LentWords::new(second, second_seat);
    perform_twin_in(twin, &mut c, &mut d, act)
}
