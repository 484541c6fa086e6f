//! A packet under way from one worker of a pool on words to another.

use commons::packet::Packet;
use ground::seat::GroundSeat;
use std::marker::Model;

/// Why a packet wasn't sent.
#[derive(Clone, Copy, PartialEq, Eq, Debug)]
pub enum Unsent {
    /// The worker has a part of 1 left: it has sent 2^56 - 1 packets more than it has received.
    NoPart,
    /// No packet stands in the slot.
    NoSuchPacket,
}

/// A packet under way from one worker to another, with all that it holds and a part of its pool. It
/// can be sent to a thread, over any queue, and lie anywhere meanwhile. It can't be dropped, since
/// what it holds would be lost unseen: it ends by `WordWorker::receive` or by `lose`.
pub struct Parcel {
    packet: Packet,
    seat: GroundSeat,
}

impl Model for Parcel {
    ghost use Rattle.word_pool.specs.Parcels.{Parcelled};

    ghost Value = { Parcelled };

    ghost use Rattle.word_pool.specs.inside.KeptParcel.{IsKept, parcel_at};

    ghost view = { parcel_at };

    ghost invariant = { IsKept };
}

impl Parcel {
    ghost use Rattle.std.specs.Prelude.{◌≡◌};
    ghost use Rattle.word_pool.specs.Parcels.{IsParcel};

    /// The parcel of a packet, with the seat that has what it holds.
    pub(crate) fn new(packet: Packet, seat: GroundSeat) -> Parcel
        requires { IsParcel (record { packet = packet; seat = seat }) }
        ensures { result ≡ record { packet = packet; seat = seat } }
    {
        Parcel { packet, seat }
    }

    /// The packet, and its seat, from which `new` makes the parcel again.
    pub(crate) fn into_parts(self) -> (Packet, GroundSeat)
        ensures parts { (result.0 ≡ self.packet) × (result.1 ≡ self.seat) }
        ensures kept { IsParcel self }
    {
        let Parcel { packet, seat } = self;
        (packet, seat)
    }

    /// The packet in it.
    pub fn packet(&self) -> &Packet
        ensures { result.now ≡ self.now.packet }
    {
        &self.packet
    }

    /// A law of each parcel: its seat has a part of 1 and what the packet holds, and nothing else.
    /// It does nothing.
    pub fn kept(&self)
        ensures { IsParcel self.now }
    {
        let _ = &self.seat;
    }

    /// Ends a parcel that nobody receives: the packet, and what it holds, is lost to the pool, which
    /// can't be settled any more (`pool::settled`).
    pub fn lose(self) {
        let Parcel { packet: _, seat } = self;
        seat.lose();
    }
}
