//! Each step of the desks as a player takes it. The player has at run time what its seat knows,
//! and a copy of what is in the slot of the busy desk; of a desk that it has seized it learns the
//! packet only when that is out.

ghost use Rattle.std.specs.Prelude.{◌≡◌, ◌<◌, ℕ, List, [], ◌∷◌, Some, IfOk, IfSome, IsTrue, MatchOption};
ghost use Rattle.commons.specs.Bag.{bag};
ghost use Rattle.commons.specs.Packets.{holds_of_packet, HasItsData};
ghost use Rattle.commons.specs.declared.packet.Seg.{Seg};
ghost use Rattle.step_core.specs.Bags.{Includes};
ghost use Rattle.step_core.specs.Headers.{OwnsHeaders};
ghost use Rattle.step_core.specs.Views.{at_desk};
ghost use Rattle.step_core.specs.declared.step.Step.TheVariants.{Hold, PutIn, Open, Seize, TakeOut, Clear};
ghost use Rattle.step_core.specs.declared.view.Phase.TheVariants.{ToFill, Seized};
ghost use Rattle.ground.specs.Seats.{IsOf, Seated};
ghost use Rattle.ground_tests.specs.Playing.{IsInPool, Plays, Mirrors, IsOfSeat};

use crate::sees::Sees;
use commons::packet::{Packet, Seg};
use commons::refusal::Refusal;
use ground::pool::Ground;
use ground::seat::GroundSeat;
use std::mem;
use step_core::step::Outcome;
use step_core::view::{Phase, View, Work};

/// Begins to fill a desk, if it is empty.
pub(crate) fn hold(
    ground: &Ground,
    seat: &mut GroundSeat,
    view: &mut View,
    slot: &mut Option<Packet>,
    desk: u32,
) -> Result<Outcome, Refusal>
    requires of { IsOf ground.now seat.old }
    requires same { Mirrors view.old slot.old seat.old }
    ensures plays { Plays (Hold desk) result seat.old seat.new }
    ensures same { Mirrors view.new slot.new seat.new }
    ensures in_pool { IsInPool view.old → IsInPool view.new }
{
    if u64::from(desk) >= ground.limits().desks || view.work.is_some() {
        return Err(Refusal::StepRefused);
    }
    match ground.hold(seat, desk) {
        Ok(()) => {
            view.work = Some(Work {
                desk,
                phase: Phase::ToFill,
            });
            *slot = None;
            Ok(Outcome::Won)
        }
        Err(found) => Ok(Outcome::Lost(found)),
    }
}

/// The only segment of a packet of one.
fn only_seg(packet: &Packet) -> Option<Seg>
    ensures { IfSome result (λ seg. (packet.now ≡ seg ∷ []) × HasItsData seg) }
{
    match packet.segs() {
        [seg] => Some(*seg),
        _ => None,
    }
}

/// Whether what a segment holds is of a pool of this many elements.
fn is_below(seg: Seg, population: u64) -> bool
    ensures { IsTrue result → (i : ℕ) → 0 < bag (holds_of_packet (seg ∷ [])) i → i < population }
{
    match seg.base {
        None => u64::from(seg.elem) < population,
        Some(base) => u64::from(base) < population && u64::from(seg.elem) < population,
    }
}

/// Whether this view has a desk to fill.
fn is_filling(view: &View, desk: u32) -> bool
    ensures { IsTrue result → view.now.work ≡ at_desk desk ToFill }
{
    match &view.work {
        None => false,
        Some(work) => match &work.phase {
            Phase::ToFill => work.desk == desk,
            _ => false,
        },
    }
}

/// Puts a packet of one segment into the slot of the busy desk. Refused too where it has more.
pub(crate) fn put_in(
    ground: &Ground,
    seat: &mut GroundSeat,
    view: &View,
    slot: &mut Option<Packet>,
    desk: u32,
    packet: &Packet,
) -> Result<Outcome, Refusal>
    requires of { IsOf ground.now seat.old }
    requires same { Mirrors view.now slot.old seat.old }
    ensures plays { Plays (PutIn desk packet.now) result seat.old seat.new }
    ensures same { Mirrors view.now slot.new seat.new }
{
    let Some(seg) = only_seg(packet) else {
        return Err(Refusal::StepRefused);
    };
    if !is_below(seg, ground.limits().population) {
        return Err(Refusal::StepRefused);
    }
    if !is_filling(view, desk) || slot.is_some() {
        return Err(Refusal::StepRefused);
    }
    ground.put_in(seat, desk, Packet::single(seg));
    *slot = Some(Packet::single(seg));
    Ok(Outcome::Done)
}

/// Whether a view has the holds of a segment, of two elements or one.
fn holds_seg(view: &View, seg: Seg) -> bool
    ensures { IsTrue result → Includes view.now.holds (holds_of_packet (seg ∷ [])) }
{
    match seg.base {
        None => view.holds.has(seg.elem),
        Some(base) => {
            if base == seg.elem || !view.holds.has(base) {
                return false;
            }
            view.holds.has(seg.elem)
        }
    }
}

/// Whether the own element of a segment is a header.
fn owns_seg(view: &View, seg: Seg) -> bool
    ensures { IsTrue result → OwnsHeaders view.now (seg ∷ []) }
{
    view.headers.has(seg.elem)
}

/// The only segment of the packet in the slot.
fn seg_in(slot: &Option<Packet>) -> Option<Seg>
    ensures { IfSome result (λ seg. (slot.now ≡ Some (seg ∷ [])) × HasItsData seg) }
{
    match slot {
        None => None,
        Some(packet) => only_seg(packet),
    }
}

/// Makes the busy desk full, with what is in its slot. Refused too where its own element is no
/// header of the player's.
pub(crate) fn open(
    ground: &Ground,
    seat: &mut GroundSeat,
    view: &mut View,
    slot: &mut Option<Packet>,
    desk: u32,
) -> Result<Outcome, Refusal>
    requires of { IsOf ground.now seat.old }
    requires same { Mirrors view.old slot.old seat.old }
    ensures plays { Plays (Open desk) result seat.old seat.new }
    ensures same { Mirrors view.new slot.new seat.new }
    ensures in_pool { IsInPool view.old → IsInPool view.new }
{
    if u64::from(desk) >= ground.limits().desks || !is_filling(view, desk) {
        return Err(Refusal::StepRefused);
    }
    let Some(seg) = seg_in(slot) else {
        return Err(Refusal::StepRefused);
    };
    if !holds_seg(view, seg) || !owns_seg(view, seg) {
        return Err(Refusal::StepRefused);
    }
    ground.open(seat, desk);
    view.open(&Packet::single(seg));
    view.work = None;
    *slot = None;
    Ok(Outcome::Done)
}

/// Begins to empty a desk, if it is full. Whether it was, or its word.
pub(crate) fn seize(
    ground: &Ground,
    seat: &mut GroundSeat,
    view: &View,
    slot: &Option<Packet>,
    sees: &mut Sees,
    desk: u32,
) -> Result<Outcome, Refusal>
    requires of { IsOf ground.now seat.old }
    requires same { Mirrors view.now slot.now seat.old }
    requires all { sees.old ≡ Sees.All }
    ensures plays { Plays (Seize desk) result seat.old seat.new }
    ensures seen { IsOfSeat sees.new view.now slot.now seat.new }
{
    if u64::from(desk) >= ground.limits().desks || view.work.is_some() {
        return Err(Refusal::StepRefused);
    }
    match ground.seize(seat, desk) {
        Ok(()) => {
            *sees = Sees::Seizure(desk);
            Ok(Outcome::Won)
        }
        Err(found) => Ok(Outcome::Lost(found)),
    }
}

/// A copy of a packet.
fn copy_of(packet: &Packet) -> Packet
    ensures { result ≡ packet.now }
{
    let segs = packet.segs();
    let mut copy = Packet::single(segs[0]);
    for i in 1..segs.len() {
        copy.push(segs[i]);
    }
    copy
}

/// Takes the packet out of the slot of the desk that was seized.
pub(crate) fn take_out(
    ground: &Ground,
    seat: &mut GroundSeat,
    view: &View,
    slot: &Option<Packet>,
    sees: &mut Sees,
    desk: u32,
) -> Result<Outcome, Refusal>
    requires of { IsOf ground.now seat.old }
    requires same { IsOfSeat sees.old view.now slot.now seat.old }
    requires seized { sees.old ≡ Sees.Seizure desk }
    ensures plays { Plays (TakeOut desk) result seat.old seat.new }
    ensures seen { IsOfSeat sees.new view.now slot.now seat.new }
{
    let packet = ground.take_out(seat, desk);
    *sees = Sees::Out(desk, copy_of(&packet));
    Ok(Outcome::Found(packet))
}

/// Takes what was taken out into the view, or changes nothing where memory is refused. Answers the
/// desk that the player has seized and not emptied, if there is one.
pub(crate) fn see(
    view: &mut View,
    slot: &mut Option<Packet>,
    sees: &mut Sees,
) -> Result<Option<u32>, Refusal>
    ensures seen { (s : Seated) → IsOfSeat sees.old view.old slot.old s → IsOfSeat sees.new view.new slot.new s }
    ensures in_pool { IsInPool view.old → IsInPool view.new }
    ensures so_far { IfOk result (λ seized. MatchOption seized (sees.new ≡ Sees.All) (λ desk. sees.new ≡ Sees.Seizure desk)) }
{
    match mem::replace(sees, Sees::All) {
        Sees::All => Ok(None),
        Sees::Seizure(desk) => {
            *sees = Sees::Seizure(desk);
            Ok(Some(desk))
        }
        Sees::Out(desk, packet) => {
            if view.seize(&packet).is_err() {
                *sees = Sees::Out(desk, packet);
                return Err(Refusal::OutOfMemory);
            }
            view.work = Some(Work {
                desk,
                phase: Phase::Seized(packet),
            });
            *slot = None;
            Ok(None)
        }
    }
}

/// Whether this view has seized a desk.
fn is_emptying(view: &View, desk: u32) -> bool
    ensures { IsTrue result → (p : List Seg) × (view.now.work ≡ at_desk desk (Seized p)) }
{
    match &view.work {
        None => false,
        Some(work) => match &work.phase {
            Phase::Seized(_) => work.desk == desk,
            _ => false,
        },
    }
}

/// Makes the busy desk empty.
pub(crate) fn clear(
    ground: &Ground,
    seat: &mut GroundSeat,
    view: &mut View,
    slot: &mut Option<Packet>,
    desk: u32,
) -> Result<Outcome, Refusal>
    requires of { IsOf ground.now seat.old }
    requires same { Mirrors view.old slot.old seat.old }
    ensures plays { Plays (Clear desk) result seat.old seat.new }
    ensures same { Mirrors view.new slot.new seat.new }
    ensures in_pool { IsInPool view.old → IsInPool view.new }
{
    if u64::from(desk) >= ground.limits().desks || !is_emptying(view, desk) || slot.is_some() {
        return Err(Refusal::StepRefused);
    }
    ground.clear(seat, desk);
    view.work = None;
    Ok(Outcome::Done)
}
