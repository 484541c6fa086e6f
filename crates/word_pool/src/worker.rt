//! A worker of a pool on words.

ghost use Rattle.std.specs.Prelude.{◌≡◌, [], IfOk, None, Some, length, slice_index_or};
ghost use Rattle.std.specs.Option.{MatchOption};
ghost use Rattle.ground.specs.Own.{AtRest};
ghost use Rattle.ground.specs.Seats.{IsOf};
ghost use Rattle.commons.specs.Calls.{with_list};
ghost use Rattle.commons.specs.Packets.{IsPacket};
ghost use Rattle.mbuf.specs.Acts.{HasRoom, allocated, allocated_bulk, as_reply, cloned, freed};
ghost use Rattle.mbuf.specs.Own.{Own};
ghost use Rattle.stack_lf.specs.Remaining.{ReadsRemaining};
ghost use Rattle.stack_lf.specs.Sides.{side_of};
ghost use Rattle.word_pool.specs.Parcels.{IsParcel, Receives, Sends, stood, with_packet, with_stood};
ghost use Rattle.word_pool.specs.Workers.{Acts, IsIdle, IsSameWorker, Stays};
ghost use Rattle.word_pool.specs.inside.Kept.{worker_at};

use crate::calls;
use crate::parcel::{Parcel, Unsent};
use commons::packet::{Packet, Seg};
use commons::refusal::Refusal;
use ground::pool::Ground;
use ground::seat::GroundSeat;
use mbuf::acts;
use mbuf::acts::{Act, Answer, Reply};
use mbuf::freed::Freed;
use mbuf::packets::{Packets, Pid, rewrite};
use stack_lf::lent::LentWords;
use std::marker::Model;

/// A worker of a pool on words: its seat, its cache and its packets, which are its own. It can be
/// sent to a thread. One that is dropped has died: what it has is lost to the pool.
pub struct WordWorker {
    seat: GroundSeat,
    packets: Packets,
    /// The worker's part of its pool, as the seat has it: a number, so that it is known at run time
    /// whether a packet can be sent, and whether all that were sent have been received.
    part: u64,
}

impl Model for WordWorker {
    ghost use Rattle.word_pool.specs.Workers.{WorkerState};

    ghost Value = { WorkerState };

    ghost use Rattle.word_pool.specs.inside.Kept.{IsKept, state_of};

    ghost view = { state_of };

    ghost invariant = { IsKept };
}

impl Drop for WordWorker {
    fn drop(self) {
        let WordWorker {
            seat,
            packets,
            part: _,
        } = self;
        seat.lose();
        packets.lose();
    }
}

impl WordWorker {
    /// The worker with this seat, whose packets are its own, and whose part is this.
    pub(crate) fn new(seat: GroundSeat, packets: Packets, part: u64) -> WordWorker
        requires part { part ≡ seat.known.view.part }
        requires rest { AtRest seat.known.view }
        requires slots { seat.slots ≡ [] }
        requires own { Own packets (side_of seat) }
        ensures { result ≡ record { seat = seat; member = packets } }
    {
        WordWorker {
            seat,
            packets,
            part,
        }
    }

    /// The seat of the worker, and its packets.
    pub(crate) fn into_parts(self) -> (GroundSeat, Packets)
        ensures parts { (result.0 ≡ self.seat) × (result.1 ≡ self.member) }
        ensures idle { IsIdle self }
    {
        let WordWorker {
            seat,
            packets,
            part: _,
        } = self;
        (seat, packets)
    }

    /// A law of each worker between its acts: its seat is at rest, and its packets are its own. It
    /// does nothing.
    pub fn idle(&self)
        ensures { IsIdle self.now }
    {
        let _ = &self.seat;
    }

    /// The packet in a slot of the worker's table, if one stands there.
    pub fn place(&self, slot: u32) -> Option<&Packet>
        ensures { MatchOption result (slice_index_or self.now.member.table slot None ≡ None)
            (λ p. slice_index_or self.now.member.table slot None ≡ Some p.now) }
    {
        self.packets.place(slot)
    }

    /// The worker's part of its pool: 2^56, less 1 for each packet that it has sent, and 1 more for
    /// each that it has received.
    pub fn part(&self) -> u64
        ensures { result ≡ self.now.seat.known.view.part }
    {
        self.part
    }

    /// How many changes of the pool's stack are left until an act that needs one is refused
    /// `HeadSpent`, as one read of the head tells: what a cache can't serve takes one. Others may
    /// take some meanwhile.
    pub fn changes_left(&mut self, ground: &Ground) -> u64
        requires { IsOf ground.now self.old.seat }
        ensures read { ReadsRemaining self.old.seat result self.new.seat }
        ensures member { self.new.member ≡ self.old.member }
        ensures stays { Stays self.old self.new }
    {
        let mut c = LentWords::new(ground, &mut self.seat);
        c.changes_left()
    }

    /// Lets the worker do this over the words of its ground, beside others, and answers what came
    /// of it. The worker keeps its number, its part, and its place at the ground.
    ///
    /// Refused as the act is by `mbuf::acts::perform`: all that is the worker's is then as before,
    /// but for the free elements after a clone.
    pub fn act(&mut self, ground: &Ground, act: Act) -> Reply
        requires of { IsOf ground.now self.old.seat }
        ensures { Acts act self.old result self.new }
    {
        self.act_in(ground, act)
    }

    /// Does what `act` does, and answers with room for a bulk of `ROOM` packets, no fewer than a
    /// bulk asks for where it asks for 256 at most: with none the answer is small, and nothing of a
    /// bulk's room is filled.
    #[inline(always)]
    pub fn act_in<const ROOM: usize>(&mut self, ground: &Ground, act: Act) -> Answer<ROOM>
        requires room { HasRoom ROOM act }
        requires of { IsOf ground.now self.old.seat }
        ensures { Acts act self.old (as_reply result) self.new }
    {
        act_by(ground, &mut self.seat, &mut self.packets, act)
    }

    /// Makes a packet, as the act `Alloc` does, and answers its slot. Like the three calls below it
    /// fills and moves no `Answer`, which has 144 bytes or more.
    #[inline(always)]
    pub fn alloc(&mut self, ground: &Ground) -> Result<Pid, Refusal>
        requires of { IsOf ground.now self.old.seat }
        ensures { Acts Act.Alloc self.old (allocated result self.new.member.table) self.new }
    {
        calls::alloc(ground, &mut self.seat, &mut self.packets)
    }

    /// Makes as many packets as `slots` has places, as the act `AllocBulk` does, all or none, and
    /// gives their slots. Where it is refused, nothing is said of `slots`.
    #[inline(always)]
    pub fn alloc_bulk(&mut self, ground: &Ground, slots: &mut [Pid]) -> Result<(), Refusal>
        requires of { IsOf ground.now self.old.seat }
        ensures { Acts (Act.AllocBulk (length slots.old)) self.old
            (allocated_bulk (with_list result slots.new) self.new.member.table) self.new }
    {
        calls::alloc_bulk(ground, &mut self.seat, &mut self.packets, slots)
    }

    /// Frees a packet, as the act `Free` does, and answers what was freed.
    #[inline(always)]
    pub fn free(&mut self, ground: &Ground, slot: Pid) -> Result<Freed, Refusal>
        requires of { IsOf ground.now self.old.seat }
        ensures { Acts (Act.Free slot) self.old (freed result) self.new }
    {
        calls::free(ground, &mut self.seat, &mut self.packets, slot)
    }

    /// Clones a packet, as the act `ClonePacket` does, and answers the clone's slot.
    #[inline(always)]
    pub fn clone_packet(&mut self, ground: &Ground, slot: Pid) -> Result<Pid, Refusal>
        requires of { IsOf ground.now self.old.seat }
        ensures { Acts (Act.ClonePacket slot) self.old (cloned result self.new.member.table) self.new }
    {
        calls::clone_packet(ground, &mut self.seat, &mut self.packets, slot)
    }

    /// Takes a packet out of its slot, which is free then, and answers it as a parcel, with all that
    /// it holds and a part of 1 of the worker's. Any worker of the pool may receive the parcel.
    /// Nothing but loads of words is done at the ground.
    ///
    /// Refused `NoPart` where the worker has a part of 1 left, and `NoSuchPacket` where no packet
    /// stands in the slot. Nothing changes then.
    ///
    /// Our own: in DPDK an mbuf is passed on by its pointer, which an `rte_ring` may carry.
    pub fn send(&mut self, ground: &Ground, slot: Pid) -> Result<Parcel, Unsent>
        requires of { IsOf ground.now self.old.seat }
        ensures sent { Sends slot self.old result self.new }
        ensures of { IfOk result (λ parcel. IsOf ground.now parcel.seat) }
        ensures same { IsSameWorker self.old self.new }
    {
        let Some(place) = self.packets.place(slot) else {
            return Err(Unsent::NoSuchPacket);
        };
        let packet = copied(place);
        match self.send_seat(ground, slot) {
            Ok(seat) => Ok(Parcel::new(packet, seat)),
            Err(cause) => Err(cause),
        }
    }

    /// Does what `send` does, and answers the parcel's seat alone: for who has written the packet's
    /// segments already, as `place` shows them, and brings both to `receive_seat`.
    ///
    /// Refused as `send` is.
    #[inline(always)]
    pub fn send_seat(&mut self, ground: &Ground, slot: Pid) -> Result<GroundSeat, Unsent>
        requires of { IsOf ground.now self.old.seat }
        ensures sent { Sends slot self.old
            (with_stood (slice_index_or self.old.member.table slot None) result) self.new }
        ensures parcel { IfOk result (λ seat. IsParcel (record {
          packet = stood (slice_index_or self.old.member.table slot None);
          seat = seat;
        })) }
        ensures of { IfOk result (λ seat. IsOf ground.now seat) }
        ensures same { IsSameWorker self.old self.new }
    {
        if self.part < 2 {
            return Err(Unsent::NoPart);
        }
        let Some(packet) = self.packets.place(slot) else {
            return Err(Unsent::NoSuchPacket);
        };
        self.seat.owned();
        let seat = ground.lend_packet(&mut self.seat, packet);
        match self.packets.take_out(slot) {
            Ok(()) => {
                self.part -= 1;
                Ok(seat)
            }
            // A packet stands there.
            Err(_) => unreachable!(),
        }
    }

    /// Receives a parcel: its packet stands in the lowest free slot, which is the answer, and all
    /// that it holds is the worker's, with the parcel's part. One word is loaded that nobody writes.
    ///
    /// Refused `PacketsFull` where no slot is free. The parcel comes back then, and nothing changes.
    ///
    /// Our own, as `send` is.
    pub fn receive(&mut self, ground: &Ground, parcel: Parcel) -> Result<Pid, (Refusal, Parcel)>
        requires of { IsOf ground.now self.old.seat }
        requires parcel { IsOf ground.now parcel.seat }
        ensures received { Receives parcel self.old result self.new }
        ensures same { IsSameWorker self.old self.new }
    {
        let (packet, seat) = parcel.into_parts();
        match self.receive_seat(ground, packet.segs(), seat) {
            Ok(slot) => Ok(slot),
            Err((cause, seat)) => Err((cause, Parcel::new(packet, seat))),
        }
    }

    /// Receives the parcel of these segments and this seat, as `receive` does.
    ///
    /// Refused `PacketsFull` where no slot is free. The seat comes back then, and nothing changes.
    #[inline(always)]
    pub fn receive_seat(
        &mut self,
        ground: &Ground,
        segs: &[Seg],
        seat: GroundSeat,
    ) -> Result<Pid, (Refusal, GroundSeat)>
        requires of { IsOf ground.now self.old.seat }
        requires packet { IsPacket segs.now }
        requires parcel { IsParcel (record { packet = segs.now; seat = seat }) }
        requires same_ground { IsOf ground.now seat }
        ensures received { Receives (record { packet = segs.now; seat = seat }) self.old
            (with_packet segs.now result) self.new }
        ensures same { IsSameWorker self.old self.new }
    {
        match self.packets.bring_in(segs) {
            Ok(slot) => {
                ground.join(&mut self.seat, seat);
                self.seat.owned();
                self.part += 1;
                Ok(slot)
            }
            Err(cause) => Err((cause, seat)),
        }
    }
}

/// A packet with the same segments.
fn copied(packet: &Packet) -> Packet
    ensures { result ≡ packet.now }
{
    let mut copy = Packet::single(Seg::default());
    rewrite(&mut copy, packet.segs());
    copy
}

/// Lets the worker of this seat and these packets do this.
#[inline(always)]
fn act_by<const ROOM: usize>(
    ground: &Ground,
    seat: &mut GroundSeat,
    packets: &mut Packets,
    act: Act,
) -> Answer<ROOM>
    requires room { HasRoom ROOM act }
    requires of { IsOf ground.now seat.old }
    requires idle { IsIdle (worker_at seat.old packets.old) }
    ensures idle { IsIdle (worker_at seat.new packets.new) }
    ensures acts { Acts act (worker_at seat.old packets.old) (as_reply result)
        (worker_at seat.new packets.new) }
{
    let mut c = LentWords::new(ground, seat);
    acts::perform_in(packets, &mut c, act)
}
