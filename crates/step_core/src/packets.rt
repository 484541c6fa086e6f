//! What is asked of a packet that goes over a desk.

ghost use Rattle.std.specs.Prelude.{◌≡◌, ◌≤◌, ◌∷◌, []};
ghost use Rattle.commons.specs.Bag.{bag, one};
ghost use Rattle.commons.specs.Packets.{holds_of_packet, holds_of_seg};
ghost use Rattle.step_core.specs.Bags.{all_below, includes_from, includes};

use crate::elems::Elems;
use commons::packet::{Packet, Seg};

/// A copy of a packet.
pub fn copy_of(packet: &Packet) -> Packet
    ensures { result ≡ packet.now }
{
    let segs = packet.segs();
    let mut copy = Packet::single(segs[0]);
    for i in 1..segs.len() {
        copy.push(segs[i]);
    }
    copy
}

/// Whether the segment's element and base are of a pool of this many elements.
fn seg_below(seg: Seg, population: u64) -> bool
    ensures { result ≡ all_below population (holds_of_seg seg) }
{
    match seg.base {
        None => u64::from(seg.elem) < population,
        Some(base) => u64::from(base) < population && u64::from(seg.elem) < population,
    }
}

/// Whether all elements and bases of a packet are of a pool of this many elements.
pub fn is_below(packet: &Packet, population: u64) -> bool
    ensures { result ≡ all_below population (holds_of_packet packet.now) }
{
    let segs = packet.segs();
    for i in 0..segs.len() {
        if !seg_below(segs[i], population) {
            return false;
        }
    }
    true
}

/// 1 where both are the same element, else 0.
fn one_if_same(a: u32, b: u32) -> usize
    ensures same { result ≡ one a b }
    ensures few { result ≤ 1 }
{
    if a == b { 1 } else { 0 }
}

/// How often a segment holds an element.
fn count_in_seg(seg: Seg, element: u32) -> usize
    ensures count { result ≡ bag (holds_of_seg seg) element }
    ensures few { result ≤ 2 }
{
    match seg.base {
        None => one_if_same(seg.elem, element),
        Some(base) => one_if_same(base, element) + one_if_same(seg.elem, element),
    }
}

/// How often a packet holds an element.
fn count_in(packet: &Packet, element: u32) -> usize
    ensures { result ≡ bag (holds_of_packet packet.now) element }
{
    let segs = packet.segs();
    let mut times = 0;
    for i in 0..segs.len() {
        times += count_in_seg(segs[i], element);
    }
    times
}

/// Whether these holds have the element as often as the packet.
fn has_as_often(holds: &Elems, packet: &Packet, element: u32) -> bool
    ensures { result ≡ includes_from holds.now (holds_of_packet packet.now) (element ∷ []) }
{
    count_in(packet, element) <= holds.count(element)
}

/// Whether these holds have what a segment of the packet holds, as often as the packet.
fn has_seg(holds: &Elems, packet: &Packet, seg: Seg) -> bool
    ensures { result ≡ includes_from holds.now (holds_of_packet packet.now) (holds_of_seg seg) }
{
    match seg.base {
        None => has_as_often(holds, packet, seg.elem),
        Some(base) => { has_as_often(holds, packet, base) && has_as_often(holds, packet, seg.elem) }
    }
}

/// Whether these holds have all that the packet holds.
pub fn has_all(holds: &Elems, packet: &Packet) -> bool
    ensures { result ≡ includes holds.now (holds_of_packet packet.now) }
{
    let segs = packet.segs();
    for i in 0..segs.len() {
        if !has_seg(holds, packet, segs[i]) {
            return false;
        }
    }
    true
}
