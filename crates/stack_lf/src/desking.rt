//! An offer and a take: each a claim of the desk's word by one exchange, an exchange of what is in
//! its slot, and a store that releases the desk.

ghost use Rattle.std.specs.Prelude.{◌≡◌, ◌≤◌, ℕ, None, IfErr};
ghost use Rattle.commons.specs.Bag.{bag};
ghost use Rattle.commons.specs.Calls.{without_packet};
ghost use Rattle.commons.specs.Packets.{holds_of_packet, own_of_packet};
ghost use Rattle.ground.specs.Seats.{IsOf};
ghost use Rattle.stack_lf.specs.Effects.{OffersOnWords, TakesOnWords};

use commons::packet::Packet;
use commons::refusal::Refusal;
use ground::pool::Ground;
use ground::seat::GroundSeat;

/// Leaves a packet on a desk that is empty: holds the desk, puts the packet in, and makes the desk
/// full. The packet comes back where there is no such desk, or it isn't empty.
pub(crate) fn offer(
    ground: &Ground,
    seat: &mut GroundSeat,
    desk: u32,
    packet: Packet,
) -> Result<(), (Refusal, Packet)>
    requires of { IsOf ground.now seat.old }
    requires idle { seat.old.known.view.work ≡ None }
    requires held { (i : ℕ) → bag (holds_of_packet packet) i ≤ bag seat.old.known.view.holds i }
    requires own { (i : ℕ) → bag (own_of_packet packet) i ≤ bag seat.old.known.view.headers i }
    ensures offered { OffersOnWords desk packet (without_packet result) seat.old seat.new }
    ensures kept { IfErr result (λ refused. refused.1 ≡ packet) }
{
    seat.owned();
    seat.at_desk();
    if ground.limits().desks <= desk as u64 {
        return Err((Refusal::NoSuchDesk, packet));
    }
    match ground.hold(seat, desk) {
        Err(_) => Err((Refusal::DeskTaken, packet)),
        Ok(()) => {
            ground.put_in(seat, desk, packet);
            ground.open(seat, desk);
            Ok(())
        }
    }
}

/// Takes the packet off a desk that is full: seizes the desk, takes the packet out, and makes the
/// desk empty.
pub(crate) fn take(ground: &Ground, seat: &mut GroundSeat, desk: u32) -> Result<Packet, Refusal>
    requires of { IsOf ground.now seat.old }
    requires idle { seat.old.known.view.work ≡ None }
    ensures { TakesOnWords desk result seat.old seat.new }
{
    seat.at_desk();
    if ground.limits().desks <= desk as u64 {
        return Err(Refusal::NoSuchDesk);
    }
    match ground.seize(seat, desk) {
        Err(_) => Err(Refusal::DeskEmpty),
        Ok(()) => {
            let packet = ground.take_out(seat, desk);
            ground.clear(seat, desk);
            Ok(packet)
        }
    }
}
