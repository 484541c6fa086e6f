//! Workers with a seat and packets of their own.

ghost use Rattle.std.specs.Prelude.{◌≡◌, [], IfOk};
ghost use Rattle.ground.specs.Own.{AtRest};
ghost use Rattle.word_tests.specs.Idle.{IsIdle, Stays};
ghost use Rattle.word_tests.specs.Ready.{IsReady, OwnBySeat};

use commons::refusal::Refusal;
use ground::pool::Ground;
use ground::seat::GroundSeat;
use mbuf::acts;
use mbuf::acts::{Act, Reply};
use mbuf::packets::Packets;
use stack_lf::words::WordCommons;
use std::alloc::Global;

/// A seat that no worker has taken yet: where none does, it is lost.
pub(super) struct FreeSeat {
    pub(super) seat: GroundSeat,
}

impl Drop for FreeSeat {
    fn drop(self) {
        let FreeSeat { seat } = self;
        seat.lose();
    }
}

impl FreeSeat {
    /// The seat.
    pub(super) fn into_seat(self) -> GroundSeat
        ensures { result ≡ self.seat }
    {
        let FreeSeat { seat } = self;
        seat
    }
}

/// A worker who acts on the words of a pool.
pub(super) struct Player<'a> {
    pub(super) c: WordCommons<'a>,
    pub(super) packets: Packets,
}

impl<'a> Drop for Player<'a> {
    fn drop(self) {
        let Player { c, packets } = self;
        c.into_seat().lose();
        packets.lose();
    }
}

/// What a worker has once it no longer acts.
pub(super) struct Retired {
    pub(super) seat: GroundSeat,
    pub(super) packets: Packets,
}

impl Drop for Retired {
    fn drop(self) {
        let Retired { seat, packets } = self;
        seat.lose();
        packets.lose();
    }
}

impl Retired {
    /// The seat and the packets.
    pub(super) fn into_parts(self) -> (GroundSeat, Packets)
        ensures { result.0 ≡ self.seat }
    {
        let Retired { seat, packets } = self;
        (seat, packets)
    }
}

impl<'a> Player<'a> {
    /// A worker of this number, who has nothing yet.
    pub(super) fn make(
        alloc: Global,
        ground: &'a Ground,
        free: FreeSeat,
        number: u32,
    ) -> Result<Player<'a>, Refusal>
        requires idle { IsIdle ground.now free.seat }
        requires hand { free.seat.known.view.hand ≡ [] }
        requires holds { free.seat.known.view.holds ≡ [] }
        ensures ready { IfOk result (λ p. IsReady ground.now p.c.seat p.packets) }
    {
        let packets = Packets::make(alloc, &ground.limits(), number)?;
        Ok(Player {
            c: WordCommons::new(ground, free.into_seat()),
            packets,
        })
    }

    /// Lets the worker do this.
    pub(super) fn act(&mut self, act: Act) -> Reply
        requires own { OwnBySeat self.old.packets self.old.c.seat }
        ensures own { OwnBySeat self.new.packets self.new.c.seat }
        ensures stays { Stays self.old.c.seat self.new.c.seat }
    {
        acts::perform(&mut self.packets, &mut self.c, act)
    }

    /// Ends the worker's acts.
    pub(super) fn retire(self) -> Retired
        ensures seat { result.seat ≡ self.entry.c.seat }
        ensures rest { AtRest result.seat.known.view }
    {
        let Player { c, packets } = self;
        Retired {
            seat: c.into_seat(),
            packets,
        }
    }
}
