//! A worker with the words that it works on.

ghost use Rattle.std.specs.Prelude.{◌≡◌, IfOk, None, Some, length, slice_index_or};
ghost use Rattle.std.specs.Option.{MatchOption};
ghost use Rattle.commons.specs.Calls.{with_list};
ghost use Rattle.commons.specs.Packets.{IsPacket};
ghost use Rattle.ground.specs.Seats.{IsOf};
ghost use Rattle.mbuf.specs.Acts.{HasRoom, allocated, allocated_bulk, as_reply, cloned, first_elem, freed};
ghost use Rattle.mbufpool_c.specs.Labelled.{ActsBy, if_done as labels_if_done, in_slots as act_in_slots, labels_after, newly};
ghost use Rattle.mbufpool_c.specs.Labels.{label_in, slot_in};
ghost use Rattle.mbufpool_c.specs.Parcels.{ReceivesBy, SendsBy, packet_in, pool_of};
ghost use Rattle.mbufpool_c.specs.Segments.{seg_at};
ghost use Rattle.mbufpool_c.specs.Statuses.{WorkerReads};
ghost use Rattle.word_pool.specs.Parcels.{IsParcel, stood, with_packet, with_stood};
ghost use Rattle.word_pool.specs.Workers.{IsAt};

use crate::labels::Labels;
use crate::shared::{Returned, SharedPool};
use commons::packet::{Packet, Seg};
use commons::refusal::Refusal;
use ground::seat::GroundSeat;
use mbuf::acts::{Act, Answer};
use mbuf::freed::Freed;
use mbuf::packets::Pid;
use std::alloc::AllocError;
use std::marker::Model;
use std::sync::Arc;
use word_pool::parcel::Unsent;
use word_pool::worker::WordWorker;

/// A worker, with what its pool's workers share, which is freed with the last of its workers, and
/// with the labels by which C has its packets. It can be sent to a thread. One that is dropped has
/// died: what it has is lost to the pool.
#[derive(Drop)]
pub struct OwnWorker {
    shared: Arc<SharedPool>,
    worker: WordWorker,
    number: u32,
    labels: Labels,
}

impl Model for OwnWorker {
    ghost use Rattle.mbufpool_c.specs.Labelled.{Labelled};

    ghost Value = { Labelled };

    ghost use Rattle.mbufpool_c.specs.KeptWorker.{labelled_of, IsKept};

    ghost view = { labelled_of };

    ghost invariant = { IsKept };
}

/// What C asks for, with the slots that its numbers stand for.
#[inline(always)]
fn in_slots(labels: &Labels, asked: Act) -> Act
    ensures { result ≡ act_in_slots labels.now asked }
{
    match asked {
        Act::Free(p) => Act::Free(labels.slot(p)),
        Act::Append(p, len) => Act::Append(labels.slot(p), len),
        Act::Prepend(p, len) => Act::Prepend(labels.slot(p), len),
        Act::Adj(p, len) => Act::Adj(labels.slot(p), len),
        Act::Trim(p, len) => Act::Trim(labels.slot(p), len),
        Act::Chain(head, tail) => Act::Chain(labels.slot(head), labels.slot(tail)),
        Act::Attach(p, target) => Act::Attach(labels.slot(p), labels.slot(target)),
        Act::Detach(p) => Act::Detach(labels.slot(p)),
        Act::ClonePacket(p) => Act::ClonePacket(labels.slot(p)),
        Act::Offer(p, desk) => Act::Offer(labels.slot(p), desk),
        Act::CountOf(p) => Act::CountOf(labels.slot(p)),
        Act::PktLen(p) => Act::PktLen(labels.slot(p)),
        Act::NbSegs(p) => Act::NbSegs(labels.slot(p)),
        Act::Alloc => Act::Alloc,
        Act::AllocBulk(count) => Act::AllocBulk(count),
        Act::Take(desk) => Act::Take(desk),
        Act::Flush => Act::Flush,
    }
}

/// Gives a slot its next label, unless this was refused.
#[inline(always)]
fn go_unless_refused<const ROOM: usize>(labels: &mut Labels, slot: Pid, answer: &Answer<ROOM>)
    ensures { labels.new ≡ labels_if_done (as_reply answer.now) slot labels.old }
{
    match answer {
        Answer::Refused(_) => {}
        _ => labels.go(slot),
    }
}

/// Gives the slot from which a packet went by this act its next label.
#[inline(always)]
fn go_by<const ROOM: usize>(labels: &mut Labels, act: Act, answer: &Answer<ROOM>)
    ensures { labels.new ≡ labels_after act (as_reply answer.now) labels.old }
{
    match act {
        Act::Free(p) => go_unless_refused(labels, p, answer),
        Act::Chain(_, tail) => go_unless_refused(labels, tail, answer),
        Act::Offer(p, _) => go_unless_refused(labels, p, answer),
        _ => {}
    }
}

impl OwnWorker {
    /// The worker of this number, of this pool. The label of each slot is the slot.
    pub(crate) fn new(shared: Arc<SharedPool>, worker: WordWorker, number: u32) -> OwnWorker
        requires of { IsAt shared.value worker }
        requires number { number ≡ worker.member.number }
        ensures { result ≡ newly worker }
    {
        OwnWorker {
            shared,
            worker,
            number,
            labels: Labels::new(),
        }
    }

    /// What it shares, once more, unless there are too many owners.
    pub(crate) fn shared(&self) -> Result<Arc<SharedPool>, AllocError>
        ensures { IfOk result (λ shared. IsAt shared.value self.now.worker) }
    {
        Arc::try_clone(&self.shared)
    }

    /// Whether its pool is marked.
    pub(crate) fn is_marked(&self) -> bool {
        let shared: &SharedPool = &self.shared;
        shared.is_marked()
    }

    /// Leaves the worker in its entry, in this place, and answers its number.
    pub(crate) fn leave(self, place: Box<Option<WordWorker>>) -> u32
        ensures { result ≡ self.worker.member.number }
    {
        let OwnWorker {
            shared,
            worker,
            number,
            labels: _,
        } = self;
        shared.leave(Returned::new(place, worker, number));
        number
    }

    /// The segment at this place of the packet of this number.
    ///
    /// Refused `NoSuchPacket` where no packet has it, and `TooShort` where the packet has fewer
    /// segments.
    pub fn seg(&self, number: u32, index: u32) -> Result<Seg, Refusal>
        ensures { result ≡ seg_at (slice_index_or self.now.worker.member.table (slot_in self.now.labels number) None) index }
    {
        match self.worker.place(self.labels.slot(number)) {
            None => Err(Refusal::NoSuchPacket),
            Some(packet) => seg_in(packet.segs(), index),
        }
    }

    /// How many changes of the pool's stack are left.
    pub fn changes_left(&mut self) -> u64
        ensures { WorkerReads self.old result self.new }
    {
        self.worker.changes_left(self.shared.ground())
    }

    /// Does what C asks for, beside the others, and answers of slots, with room for a bulk of `ROOM`
    /// packets.
    #[inline(always)]
    pub fn act<const ROOM: usize>(&mut self, asked: Act) -> Answer<ROOM>
        requires { HasRoom ROOM asked }
        ensures { ActsBy asked self.old (as_reply result) self.new }
    {
        let act = in_slots(&self.labels, asked);
        let answer = self.worker.act_in(self.shared.ground(), act);
        go_by(&mut self.labels, act, &answer);
        answer
    }

    /// Makes a packet, beside the others, and answers its slot.
    #[inline(always)]
    pub fn alloc(&mut self) -> Result<Pid, Refusal>
        ensures { ActsBy Act.Alloc self.old (allocated result self.new.worker.member.table) self.new }
    {
        self.worker.alloc(self.shared.ground())
    }

    /// Makes as many packets as `slots` has places, all or none, and gives their slots.
    #[inline(always)]
    pub fn alloc_bulk(&mut self, slots: &mut [Pid]) -> Result<(), Refusal>
        ensures { ActsBy (Act.AllocBulk (length slots.old)) self.old
            (allocated_bulk (with_list result slots.new) self.new.worker.member.table) self.new }
    {
        self.worker.alloc_bulk(self.shared.ground(), slots)
    }

    /// Frees the packet of this number, and answers what was freed.
    #[inline(always)]
    pub fn free(&mut self, number: u32) -> Result<Freed, Refusal>
        ensures { ActsBy (Act.Free number) self.old (freed result) self.new }
    {
        let slot = self.labels.slot(number);
        match self.worker.free(self.shared.ground(), slot) {
            Ok(done) => {
                self.labels.go(slot);
                Ok(done)
            }
            Err(cause) => Err(cause),
        }
    }

    /// Clones the packet of this number, and answers the clone's slot.
    #[inline(always)]
    pub fn clone_packet(&mut self, number: u32) -> Result<Pid, Refusal>
        ensures { ActsBy (Act.ClonePacket number) self.old
            (cloned result self.new.worker.member.table) self.new }
    {
        let slot = self.labels.slot(number);
        self.worker.clone_packet(self.shared.ground(), slot)
    }

    /// Takes the packet of this number out of its slot, and answers the seat of its parcel, which has
    /// what it holds. The number stands for no packet then.
    #[inline(always)]
    pub(crate) fn send(&mut self, number: u32) -> Result<GroundSeat, Unsent>
        ensures sends { SendsBy number self.old (with_stood (packet_in self.old number) result) self.new }
        ensures parcel { IfOk result (λ seat. IsParcel (record {
          packet = stood (packet_in self.old number);
          seat = seat;
        })) }
    {
        let slot = self.labels.slot(number);
        match self.worker.send_seat(self.shared.ground(), slot) {
            Ok(seat) => {
                self.labels.go(slot);
                Ok(seat)
            }
            Err(cause) => Err(cause),
        }
    }

    /// Receives the parcel of these segments and this seat, which is of its pool, and answers the
    /// slot in which the packet stands.
    #[inline(always)]
    pub(crate) fn receive(
        &mut self,
        segs: &[Seg],
        seat: GroundSeat,
    ) -> Result<Pid, (Refusal, GroundSeat)>
        requires of { IsOf (pool_of self.old.worker) seat }
        requires packet { IsPacket segs.now }
        requires parcel { IsParcel (record { packet = segs.now; seat = seat }) }
        ensures { ReceivesBy (record { packet = segs.now; seat = seat }) self.old
            (with_packet segs.now result) self.new }
    {
        self.worker.receive_seat(self.shared.ground(), segs, seat)
    }

    /// The packet of this number, where there is one.
    #[inline(always)]
    pub(crate) fn packet(&self, number: u32) -> Option<&Packet>
        ensures { MatchOption result
            (slice_index_or self.now.worker.member.table (slot_in self.now.labels number) None ≡ None)
            (λ p. slice_index_or self.now.worker.member.table (slot_in self.now.labels number) None ≡ Some p.now) }
    {
        self.worker.place(self.labels.slot(number))
    }

    /// The worker's part of its pool.
    #[inline(always)]
    pub(crate) fn part(&self) -> u64
        ensures { result ≡ self.now.worker.seat.known.view.part }
    {
        self.worker.part()
    }

    /// The number by which C has the packet in a slot.
    #[inline(always)]
    pub fn label(&self, slot: Pid) -> u32
        ensures { result ≡ label_in self.now.labels slot }
    {
        self.labels.label(slot)
    }

    /// The element of the first segment of the packet in a slot, or 0 where none stands there.
    #[inline(always)]
    pub fn first_element(&self, slot: Pid) -> u32
        ensures { result ≡ first_elem (slice_index_or self.now.worker.member.table slot None) }
    {
        match self.worker.place(slot) {
            None => 0,
            Some(packet) => packet.segs()[0].elem,
        }
    }
}

/// The segment at this place, where there is one.
fn seg_in(segs: &[Seg], index: u32) -> Result<Seg, Refusal>
    ensures { result ≡ seg_at (Some segs.now) index }
{
    let index = index as usize;
    if index < segs.len() {
        Ok(segs[index])
    } else {
        Err(Refusal::TooShort)
    }
}
