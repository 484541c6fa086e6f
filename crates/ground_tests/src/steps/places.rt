//! Where the elements of a world are, counted anew from its words and views.

ghost use Rattle.std.specs.Prelude.{◌≤◌};

use super::same;
use arrayvec::ArrayVec;
use std::process::Abort;
use step_core::view::Desk;
use step_core::world::World;

/// The most elements of a pool whose elements are counted.
const ROOM: usize = 6;

/// How often an element is in each kind of place.
#[derive(Clone, Copy, Debug)]
struct Places {
    common: usize,
    hands: usize,
    zeros: usize,
    holds: usize,
}

/// The link of an element; one that no pool has where there is no such element.
fn link_of(world: &World, element: u32) -> u32 {
    let link = world.links().get(element as usize);
    link.copied().unwrap_or(u32::MAX)
}

/// The common list from the top along the links; none if it has no end within the room.
fn common_list(world: &World) -> Option<ArrayVec<u32, ROOM>> {
    let mut common = ArrayVec::new();
    let mut next = world.head().top;
    let mut is_over = false;
    for _ in 0..ROOM {
        if next > 0 {
            is_over |= common.try_push(next - 1).is_err();
            next = link_of(world, next - 1);
        }
    }
    if next == 0 && !is_over {
        Some(common)
    } else {
        None
    }
}

/// 1 if it is so, else 0.
fn one_if(is_so: bool) -> usize
    ensures { result ≤ 1 }
{
    if is_so { 1 } else { 0 }
}

/// How often a desk holds an element: only a full one holds any.
fn held_on(desk: &Desk, element: u32) -> usize {
    let mut times = 0usize;
    if desk.word != 2 {
        return times;
    }
    if let Some(packet) = &desk.slot {
        for seg in packet.segs() {
            times = times.saturating_add(one_if(seg.elem == element));
            times = times.saturating_add(one_if(seg.base == Some(element)));
        }
    }
    times
}

/// Where an element is.
fn places_of(world: &World, common: &[u32], element: u32) -> Places {
    let mut places = Places {
        common: common.iter().filter(|other| **other == element).count(),
        hands: 0,
        zeros: 0,
        holds: 0,
    };
    for view in world.views() {
        places.hands = places.hands.saturating_add(view.hand.count(element));
        places.zeros = places.zeros.saturating_add(view.zeros.count(element));
        places.holds = places.holds.saturating_add(view.holds.count(element));
    }
    for desk in world.desks() {
        places.holds = places.holds.saturating_add(held_on(desk, element));
    }
    places
}

/// Whether the element is in exactly one place: once in the common list or in a hand, or held.
fn is_once(places: &Places) -> bool {
    match (places.common, places.hands, places.zeros, places.holds) {
        (1, 0, 0, 0) | (0, 1, 0, 0) | (0, 0, 1, 0) => true,
        (0, 0, 0, holds) => holds > 0,
        _ => false,
    }
}

/// The count of an element that is there: how often it is held, else 1, or 0 where a hand says so.
fn count_of(places: &Places) -> usize {
    if places.holds > 0 {
        places.holds
    } else if places.zeros > 0 {
        0
    } else {
        1
    }
}

/// Whether an element is in exactly one place and has the count that goes with it, in which
/// schedule and after which step.
fn assert_place<R: Abort>(rt: &R, places: &Places, count: u32, at: (u64, u64, u32)) {
    assert!(rt;
        is_once(places) && count as usize == count_of(places),
        "schedule, step, element {at:?}: {places:?}, count {count}"
    );
}

/// Whether each element is in exactly one place and has the count that goes with it.
pub(super) fn assert_counted<R: Abort>(rt: &R, world: &World, schedule: u64, step: u64) {
    let at = (schedule, step);
    let common = common_list(world);
    let size = world.counts().len() as u64;
    let wanted = (at, world.limits().population, true);
    same(
        rt,
        &(at, size, common.is_some()),
        &wanted,
        "counts and a list",
    );
    if let Some(common) = &common {
        for (element, count) in (0u32..).zip(world.counts()) {
            let places = places_of(world, common.as_slice(), element);
            assert_place(rt, &places, *count, (schedule, step, element));
        }
    }
}
