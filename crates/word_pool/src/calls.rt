//! The calls of a worker's packets that are made most, by its seat, each without the place of an
//! `Answer`.

ghost use Rattle.std.specs.Prelude.{length};
ghost use Rattle.commons.specs.Calls.{with_list};
ghost use Rattle.ground.specs.Seats.{IsOf};
ghost use Rattle.mbuf.specs.Acts.{allocated, allocated_bulk, cloned, freed};
ghost use Rattle.mbuf.specs.declared.acts.Act.TheVariants.{Alloc, AllocBulk, ClonePacket, Free};
ghost use Rattle.word_pool.specs.Workers.{Acts, IsIdle};
ghost use Rattle.word_pool.specs.inside.Kept.{worker_at};

use commons::refusal::Refusal;
use ground::pool::Ground;
use ground::seat::GroundSeat;
use mbuf::freed::Freed;
use mbuf::packets::{Packets, Pid};
use stack_lf::lent::LentWords;

/// Makes a packet.
#[inline(always)]
pub(crate) fn alloc(
    ground: &Ground,
    seat: &mut GroundSeat,
    packets: &mut Packets,
) -> Result<Pid, Refusal>
    requires of { IsOf ground.now seat.old }
    requires idle { IsIdle (worker_at seat.old packets.old) }
    ensures idle { IsIdle (worker_at seat.new packets.new) }
    ensures acts { Acts Alloc (worker_at seat.old packets.old)
        (allocated result packets.new.table) (worker_at seat.new packets.new) }
{
    packets.has_slots();
    let mut c = LentWords::new(ground, seat);
    packets.alloc(&mut c)
}

/// Makes as many packets as `slots` has places.
#[inline(always)]
pub(crate) fn alloc_bulk(
    ground: &Ground,
    seat: &mut GroundSeat,
    packets: &mut Packets,
    slots: &mut [Pid],
) -> Result<(), Refusal>
    requires of { IsOf ground.now seat.old }
    requires idle { IsIdle (worker_at seat.old packets.old) }
    ensures idle { IsIdle (worker_at seat.new packets.new) }
    ensures acts { Acts (AllocBulk (length slots.old)) (worker_at seat.old packets.old)
        (allocated_bulk (with_list result slots.new) packets.new.table) (worker_at seat.new packets.new) }
{
    packets.has_slots();
    let mut c = LentWords::new(ground, seat);
    packets.alloc_bulk(&mut c, slots)
}

/// Frees a packet.
#[inline(always)]
pub(crate) fn free(
    ground: &Ground,
    seat: &mut GroundSeat,
    packets: &mut Packets,
    slot: Pid,
) -> Result<Freed, Refusal>
    requires of { IsOf ground.now seat.old }
    requires idle { IsIdle (worker_at seat.old packets.old) }
    ensures idle { IsIdle (worker_at seat.new packets.new) }
    ensures acts { Acts (Free slot) (worker_at seat.old packets.old)
        (freed result) (worker_at seat.new packets.new) }
{
    packets.has_slots();
    let mut c = LentWords::new(ground, seat);
    packets.free(&mut c, slot)
}

/// Clones a packet.
#[inline(always)]
pub(crate) fn clone_packet(
    ground: &Ground,
    seat: &mut GroundSeat,
    packets: &mut Packets,
    slot: Pid,
) -> Result<Pid, Refusal>
    requires of { IsOf ground.now seat.old }
    requires idle { IsIdle (worker_at seat.old packets.old) }
    ensures idle { IsIdle (worker_at seat.new packets.new) }
    ensures acts { Acts (ClonePacket slot) (worker_at seat.old packets.old)
        (cloned result packets.new.table) (worker_at seat.new packets.new) }
{
    packets.has_slots();
    let mut c = LentWords::new(ground, seat);
    packets.clone_packet(&mut c, slot)
}
