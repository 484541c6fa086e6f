//! Whether a step answers as its row says.

use crate::acts::Told;
use commons::packet::Packet;
use commons::refusal::Refusal;
use step_core::step::Outcome;
use step_core::view::Head;

/// Whether this is what was told.
pub(super) fn is_told(answer: &Result<Outcome, Refusal>, told: &Told) -> bool {
    match (answer, told) {
        (Ok(Outcome::Value(value)), Told::Value(wanted)) => value == wanted,
        (Ok(Outcome::HeadIs(head)), Told::HeadIs(top, count)) => is_head(head, *top, *count),
        (Ok(Outcome::Won), Told::Won) => true,
        (Ok(Outcome::Got(elems)), Told::Got(wanted)) => elems.as_slice() == *wanted,
        (Ok(Outcome::Lost(value)), Told::Lost(wanted)) => value == wanted,
        (Ok(Outcome::LostTo(head)), Told::LostTo(top, count)) => is_head(head, *top, *count),
        (Ok(Outcome::Done), Told::Done) => true,
        (Ok(Outcome::Found(packet)), Told::Found(elem, base)) => is_single(packet, *elem, *base),
        (Err(Refusal::StepRefused), Told::Refused) => true,
        _ => false,
    }
}

fn is_head(head: &Head, top: u32, count: u64) -> bool {
    head.top == top && head.count == count
}

/// Whether the packet has this segment alone.
fn is_single(packet: &Packet, elem: u32, base: Option<u32>) -> bool {
    match packet.segs() {
        [seg] => seg.elem == elem && seg.base == base,
        _ => false,
    }
}
