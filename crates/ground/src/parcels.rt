//! A packet of a seat is lent.

ghost use Rattle.std.specs.Prelude.{◌≡◌, ◌<◌, ◌≤◌, []};
ghost use Rattle.commons.specs.Packets.{hold_of, holds_of_seg, holds_of_packet};
ghost use Rattle.step_core.specs.Bags.{Includes};
ghost use Rattle.step_core.specs.Headers.{OwnsHeaders};
ghost use Rattle.ground.specs.Layout.{AreLinked};
ghost use Rattle.ground.specs.Own.{AtRest};
ghost use Rattle.ground.specs.Parting.{parcel_of, with_parcel, with_holds, with_seg, left_by_parcel, lent_parcel};
ghost use Rattle.ground.specs.Seats.{IsOf};

use crate::known::Known;
use crate::plays::{Begins, LendsPacket, NotesBase, NotesOwn};
use crate::pool::Ground;
use crate::rule::PoolRule;
use crate::seat::GroundSeat;
use crate::stack::{QUIET, link_word};
use atomic_table::{Seat, Shared};
use commons::limits::Limits;
use commons::packet::{Packet, Seg};

impl Ground {
    /// Lends a packet of a seat that is between calls: makes one more seat, which holds what the
    /// packet holds and has the packet's own elements as its headers, and a part of 1 of those that
    /// this seat has, which are two at least. This seat keeps all else.
    ///
    /// Whoever has the new seat has the packet's elements: it can be sent to another thread, over
    /// any queue, and joined to any seat of this ground, which holds what the packet holds then
    /// (rte_ring.h, rte_ring_enqueue). While a packet is lent, no seat has every part.
    ///
    /// The loads of the link of each segment's own element, and of its base's where it has one, say
    /// which packet it is, in the proof alone.
    pub fn lend_packet(&self, seat: &mut GroundSeat, packet: &Packet) -> GroundSeat
        requires of { IsOf self.now seat.old }
        requires rest { AtRest seat.old.known.view }
        requires held { Includes seat.old.known.view.holds (holds_of_packet packet.now) }
        requires owned { OwnsHeaders seat.old.known.view packet.now }
        requires part { 2 ≤ seat.old.known.view.part }
        ensures old { seat.new ≡ record seat.old { known = left_by_parcel packet.now seat.old.known } }
        ensures of { IsOf self.now result }
        ensures known { result.known ≡ lent_parcel packet.now seat.old.known }
        ensures slots { result.slots ≡ [] }
    {
        seat.owned();
        note_packet(&self.table.shared, &mut seat.seat, packet.segs());
        let seat = self.table.shared.split_seat::<LendsPacket>(&mut seat.seat);
        GroundSeat { seat }
    }
}

/// Notes what a packet holds, and its own elements: begins by a load of the word that nobody
/// writes, and goes on segment by segment.
fn note_packet(
    shared: &Shared<Option<Packet>, Known, Limits, PoolRule>,
    seat: &mut Seat<Option<Packet>, Known>,
    segs: &[Seg],
)
    requires of { seat.old.table_id ≡ shared.now.table_id }
    requires words { AreLinked shared.now.table_id.words (holds_of_packet segs.now) }
    requires some { 0 < shared.now.table_id.words }
    requires part { 0 < seat.old.me.0.view.part }
    ensures table { seat.new.table_id ≡ seat.old.table_id }
    ensures id { seat.new.id ≡ seat.old.id }
    ensures me { seat.new.me ≡ with_parcel (parcel_of segs.now) seat.old.me }
{
    shared.load::<Begins>(seat, QUIET);
    for seg in segs {
        note_seg(shared, seat, seg);
    }
}

/// Notes what a segment holds, and its own element.
fn note_seg(
    shared: &Shared<Option<Packet>, Known, Limits, PoolRule>,
    seat: &mut Seat<Option<Packet>, Known>,
    seg: &Seg,
)
    requires of { seat.old.table_id ≡ shared.now.table_id }
    requires words { AreLinked shared.now.table_id.words (holds_of_seg seg.now) }
    requires part { 0 < seat.old.me.0.view.part }
    ensures table { seat.new.table_id ≡ seat.old.table_id }
    ensures id { seat.new.id ≡ seat.old.id }
    ensures me { seat.new.me ≡ with_parcel (with_seg seg.now seat.old.me.0.parcel) seat.old.me }
{
    note_base(shared, seat, seg.base);
    shared.load::<NotesOwn>(seat, link_word(seg.elem));
}

/// Notes the base of a segment, where it has one: a hold.
fn note_base(
    shared: &Shared<Option<Packet>, Known, Limits, PoolRule>,
    seat: &mut Seat<Option<Packet>, Known>,
    base: Option<u32>,
)
    requires of { seat.old.table_id ≡ shared.now.table_id }
    requires words { AreLinked shared.now.table_id.words (hold_of base) }
    requires part { 0 < seat.old.me.0.view.part }
    ensures table { seat.new.table_id ≡ seat.old.table_id }
    ensures id { seat.new.id ≡ seat.old.id }
    ensures me { seat.new.me ≡ with_parcel (with_holds (hold_of base) seat.old.me.0.parcel) seat.old.me }
{
    match base {
        Some(element) => {
            shared.load::<NotesBase>(seat, link_word(element));
        }
        None => {}
    }
}
