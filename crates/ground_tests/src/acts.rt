//! Steps and their answers as plain data.

use commons::packet::{Packet, Seg};
use step_core::step::Step;

/// A step, where a packet has one segment: its element, and its base if it has one.
#[derive(Clone, Copy, Debug)]
pub enum Act {
    LoadLength,
    Reserve(u64, u64),
    Add(u64),
    LoadHead,
    LoadLink(u64),
    Cut,
    StoreLink(u64, Option<u64>),
    Push,
    Claim(u64),
    Sole(u64),
    SoleFree(u64),
    Raise(u64, u64),
    Lower(u64),
    Reset(u64),
    Hold(u32),
    PutIn(u32, u32, Option<u32>),
    Open(u32),
    Seize(u32),
    TakeOut(u32),
    Clear(u32),
}

/// What a step answers. Heads have the link value of their top, and then their count.
#[derive(Clone, Copy)]
pub enum Told {
    Value(u64),
    HeadIs(u32, u64),
    Won,
    Got(&'static [u32]),
    Lost(u64),
    LostTo(u32, u64),
    Done,
    /// A packet of one segment, with this element and base.
    Found(u32, Option<u32>),
    Refused,
}

/// A packet of one segment, with this element and base.
fn packet_of(elem: u32, base: Option<u32>) -> Packet {
    Packet::single(Seg {
        elem,
        base,
        data_off: 128,
        data_len: 7,
        buf_len: 2048,
    })
}

/// The step of an act.
pub fn step_of(act: Act) -> Step {
    match act {
        Act::LoadLength => Step::LoadLength,
        Act::Reserve(old, n) => Step::Reserve { old, n },
        Act::Add(n) => Step::Add { n },
        Act::LoadHead => Step::LoadHead,
        Act::LoadLink(element) => Step::LoadLink { element },
        Act::Cut => Step::Cut,
        Act::StoreLink(element, next) => Step::StoreLink { element, next },
        Act::Push => Step::Push,
        Act::Claim(element) => Step::Claim { element },
        Act::Sole(element) => Step::Sole {
            element,
            free: false,
        },
        Act::SoleFree(element) => Step::Sole {
            element,
            free: true,
        },
        Act::Raise(element, old) => Step::Raise { element, old },
        Act::Lower(element) => Step::Lower { element },
        Act::Reset(element) => Step::Reset { element },
        Act::Hold(desk) => Step::Hold { desk },
        Act::PutIn(desk, elem, base) => Step::PutIn {
            desk,
            packet: packet_of(elem, base),
        },
        Act::Open(desk) => Step::Open { desk },
        Act::Seize(desk) => Step::Seize { desk },
        Act::TakeOut(desk) => Step::TakeOut { desk },
        Act::Clear(desk) => Step::Clear { desk },
    }
}
