//! Acts with random numbers: with any, or with such that a worker can play them.

use crate::acts::Act;
use crate::draws::Draws;
use step_core::view::{Phase, View, Work};
use step_core::world::World;

/// An act of this kind with any numbers, some of them of no pool.
pub fn any_act(kind: Act, draws: &mut Draws) -> Act {
    let element = draws.below(8);
    let number = draws.below(8);
    let desk = draws.below(4) as u32;
    match kind {
        Act::LoadLength | Act::LoadHead | Act::Cut | Act::Push => kind,
        Act::Reserve(..) => Act::Reserve(element, number),
        Act::Add(_) => Act::Add(number),
        Act::LoadLink(_) => Act::LoadLink(element),
        Act::StoreLink(..) => Act::StoreLink(element, number.checked_sub(1)),
        Act::Claim(_) => Act::Claim(element),
        Act::Sole(_) => Act::Sole(element),
        Act::SoleFree(_) => Act::SoleFree(element),
        Act::Raise(..) => Act::Raise(element, number),
        Act::Lower(_) => Act::Lower(element),
        Act::Reset(_) => Act::Reset(element),
        Act::Hold(_) => Act::Hold(desk),
        Act::PutIn(..) => Act::PutIn(desk, element as u32, None),
        Act::Open(_) => Act::Open(desk),
        Act::Seize(_) => Act::Seize(desk),
        Act::TakeOut(_) => Act::TakeOut(desk),
        Act::Clear(_) => Act::Clear(desk),
    }
}

/// The view of the worker of this number, if there is one.
pub fn view_of(world: &World, worker: u32) -> Option<&View> {
    world.views().get(worker.checked_sub(1)? as usize)
}

/// The element of a link value, none at the end.
fn element_of(link: u32) -> Option<u64> {
    link.checked_sub(1).map(u64::from)
}

/// A reservation of a part of the length word.
fn reserve_of(world: &World, draws: &mut Draws) -> Option<Act> {
    let length = world.length();
    if length == 0 {
        return None;
    }
    Some(Act::Reserve(length, draws.up_to(length)))
}

/// A part of the credit that is given back.
fn add_of(view: &View, draws: &mut Draws) -> Option<Act> {
    if view.credit == 0 {
        return None;
    }
    Some(Act::Add(draws.up_to(view.credit)))
}

/// A link from an element of the hand to the look's top, the chain's first element or the end.
fn store_link_of(view: &View, draws: &mut Draws) -> Option<Act> {
    let element = u64::from(draws.pick(&view.hand)?);
    let next = match (draws.below(4), &view.look, &view.chain) {
        (0 | 1, Some(look), _) => element_of(look.head.top),
        (2, _, Some(chain)) => chain.items.as_slice().first().copied().map(u64::from),
        _ => None,
    };
    Some(Act::StoreLink(element, next))
}

/// Whether the chain ends at the look's top.
fn may_push(view: &View) -> bool {
    match (&view.look, &view.chain) {
        (Some(look), Some(chain)) => chain.end == look.head.top,
        _ => false,
    }
}

/// One more hold of an element, from its count.
fn raise_of(world: &World, view: &View, draws: &mut Draws) -> Option<Act> {
    let element = draws.pick(&view.holds)?;
    let count = world.counts().get(element as usize)?;
    Some(Act::Raise(u64::from(element), u64::from(*count)))
}

/// The next step of a worker on its busy desk, where it is of this kind.
fn next_on_desk(kind: Act, work: &Work) -> Option<Act> {
    match (kind, &work.phase) {
        (Act::Open(_), Phase::Filled(_)) => Some(Act::Open(work.desk)),
        (Act::TakeOut(_), Phase::Seized(_)) => Some(Act::TakeOut(work.desk)),
        (Act::Clear(_), Phase::TakenOut) => Some(Act::Clear(work.desk)),
        _ => None,
    }
}

/// A step of this kind on the stack that the worker with this view can play, if there is one.
fn stack_step(kind: Act, world: &World, view: &View, draws: &mut Draws) -> Option<Act> {
    match kind {
        Act::LoadLength => Some(kind),
        Act::LoadHead if view.look.is_none() => Some(kind),
        Act::Reserve(..) => reserve_of(world, draws),
        Act::Add(_) => add_of(view, draws),
        Act::LoadLink(_) => Some(Act::LoadLink(element_of(view.look.as_ref()?.next)?)),
        Act::Cut if view.cut_expected().is_some() => Some(kind),
        Act::StoreLink(..) => store_link_of(view, draws),
        Act::Push if may_push(view) => Some(kind),
        _ => None,
    }
}

/// A step of this kind on a count that the worker with this view can play, if there is one.
fn count_step(kind: Act, world: &World, view: &View, draws: &mut Draws) -> Option<Act> {
    match kind {
        Act::Claim(_) => Some(Act::Claim(u64::from(draws.pick(&view.hand)?))),
        Act::Sole(_) => Some(Act::Sole(u64::from(draws.pick(&view.holds)?))),
        Act::SoleFree(_) => Some(Act::SoleFree(u64::from(draws.pick(&view.holds)?))),
        Act::Raise(..) => raise_of(world, view, draws),
        Act::Lower(_) => Some(Act::Lower(u64::from(draws.pick(&view.holds)?))),
        Act::Reset(_) => Some(Act::Reset(u64::from(draws.pick(&view.zeros)?))),
        _ => None,
    }
}

/// A step of this kind on a desk that the worker with this view can play, if there is one.
fn desk_step(kind: Act, view: &View, draws: &mut Draws) -> Option<Act> {
    match kind {
        Act::Hold(_) if view.work.is_none() => Some(Act::Hold(draws.below(2) as u32)),
        Act::Seize(_) if view.work.is_none() => Some(Act::Seize(draws.below(2) as u32)),
        _ => next_on_desk(kind, view.work.as_ref()?),
    }
}

/// An act of this kind that the worker with this view can play, if there is one. A raise is from
/// the element's count, at the reference limit too; a desk that is to be held or seized is one of
/// two, whatever its word. There is none that puts a packet in: its segment is the caller's to draw.
pub fn fit_step(kind: Act, world: &World, view: &View, draws: &mut Draws) -> Option<Act> {
    match kind {
        Act::Claim(_)
        | Act::Sole(_)
        | Act::SoleFree(_)
        | Act::Raise(..)
        | Act::Lower(_)
        | Act::Reset(_) => count_step(kind, world, view, draws),
        Act::Hold(_) | Act::Seize(_) | Act::Open(_) | Act::TakeOut(_) | Act::Clear(_) => {
            desk_step(kind, view, draws)
        }
        _ => stack_step(kind, world, view, draws),
    }
}
