//! The step of the machine that a line asks for.
ghost use Rattle.std.specs.Prelude.{◌≡◌, ◌≤◌, min, option_map};
ghost use Rattle.commons.specs.Packets.{HasItsData};
ghost use Rattle.step_text.specs.Playing.{in_segment, number_or_none, packet_of as packet_for, segment_of as segment_for, step_of as step_for};

use commons::limits::Limits;
use commons::packet::{MAX_SEGS, Packet, Seg};
use script_text::steps::{ElementOrEnd, Step as Asked, StepSegment};
use step_core::step::Step;

/// Where the data of a fresh mbuf begins in its buffer, in bytes, where the buffer is no shorter.
/// (rte_config.h, `RTE_PKTMBUF_HEADROOM`, DPDK 21.11)
const HEADROOM: u64 = 128;

/// The step that a line asks for. `None` where it puts in a packet of no segment, or of more than
/// 32.
pub(crate) fn step_of(limits: &Limits, asked: &Asked) -> Option<Step>
    requires buf { limits.now.buf ≤ 65535 }
    ensures { result ≡ step_for limits.now asked.now }
{
    let step = match asked {
        Asked::LoadLength => Step::LoadLength,
        Asked::Reserve { old, n } => Step::Reserve { old: *old, n: *n },
        Asked::Add { n } => Step::Add { n: *n },
        Asked::LoadHead => Step::LoadHead,
        Asked::LoadLink { element } => Step::LoadLink {
            element: number_of(*element),
        },
        Asked::Cut => Step::Cut,
        Asked::StoreLink { element, next } => Step::StoreLink {
            element: number_of(*element),
            next: *next,
        },
        Asked::Push => Step::Push,
        Asked::Claim { element } => Step::Claim {
            element: number_of(*element),
        },
        Asked::Sole { element, free } => Step::Sole {
            element: number_of(*element),
            free: *free,
        },
        Asked::Raise { element, old } => Step::Raise {
            element: number_of(*element),
            old: *old,
        },
        Asked::Lower { element } => Step::Lower {
            element: number_of(*element),
        },
        Asked::Reset { element } => Step::Reset {
            element: number_of(*element),
        },
        Asked::Hold { desk } => Step::Hold {
            desk: u32::from(*desk),
        },
        Asked::PutIn { desk, segments } => {
            return put_in(limits, u32::from(*desk), segments.as_slice());
        }
        Asked::Open { desk } => Step::Open {
            desk: u32::from(*desk),
        },
        Asked::Seize { desk } => Step::Seize {
            desk: u32::from(*desk),
        },
        Asked::TakeOut { desk } => Step::TakeOut {
            desk: u32::from(*desk),
        },
        Asked::Clear { desk } => Step::Clear {
            desk: u32::from(*desk),
        },
    };
    Some(step)
}

/// The step that puts the packet of these segments into the slot of a desk.
fn put_in(limits: &Limits, desk: u32, segments: &[StepSegment]) -> Option<Step>
    requires buf { limits.now.buf ≤ 65535 }
    ensures { result ≡ option_map (Step.PutIn desk) (packet_for limits.now segments.now) }
{
    match packet_of(limits, segments) {
        Some(packet) => Some(Step::PutIn { desk, packet }),
        None => None,
    }
}

/// The number of an element. The end has one that no pool has.
fn number_of(element: ElementOrEnd) -> u64
    ensures { result ≡ number_or_none element }
{
    match element {
        Some(number) => number,
        None => u64::MAX,
    }
}

/// The packet of these segments, if they are 1 to 32.
fn packet_of(limits: &Limits, segments: &[StepSegment]) -> Option<Packet>
    requires buf { limits.now.buf ≤ 65535 }
    ensures { result ≡ packet_for limits.now segments.now }
{
    if segments.is_empty() || segments.len() > MAX_SEGS {
        return None;
    }
    let mut packet = Packet::single(segment_of(limits, segments[0]));
    for i in 1..segments.len() {
        packet.push(segment_of(limits, segments[i]));
    }
    Some(packet)
}

/// A segment without data, after the headroom of a fresh mbuf.
fn segment_of(limits: &Limits, segment: StepSegment) -> Seg
    requires buf { limits.now.buf ≤ 65535 }
    ensures is { result ≡ segment_for limits.now segment }
    ensures data { HasItsData result }
{
    Seg {
        elem: elem_of(segment.element),
        base: base_of(segment.base),
        data_off: HEADROOM.min(limits.buf) as u16,
        data_len: 0,
        buf_len: limits.buf as u16,
    }
}

/// The number in 32 bits. One that is too long becomes one that no pool has.
fn elem_of(number: u64) -> u32
    ensures { result ≡ in_segment number }
{
    number.min(u64::from(u32::MAX)) as u32
}

fn base_of(base: Option<u64>) -> Option<u32>
    ensures { result ≡ option_map in_segment base }
{
    match base {
        Some(number) => Some(elem_of(number)),
        None => None,
    }
}
