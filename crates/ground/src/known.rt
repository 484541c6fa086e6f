//! What a seat knows.

use commons::limits::Limits;
use commons::packet::Packet;
use std::collections::LinkedList;
use step_core::step::{Outcome, Step};
use step_core::view::View;

/// What is noted of a packet, for contracts alone: the elements that it holds, each as often as it
/// does, and its own elements. No value of it is made.
pub struct Parcel {
    pub holds: LinkedList<u32>,
    pub own: LinkedList<u32>,
}

/// What a seat knows, for contracts alone: its worker's view, the steps that it took, each with
/// its outcome, and the limits of its pool. No value of it is made.
pub struct Known {
    pub view: View,
    pub steps: LinkedList<(Step, Outcome)>,
    pub limits: Limits,
    /// What lies on each desk, where the seat is the only one of its pool: no other puts anything
    /// there then.
    pub lying: Option<LinkedList<Option<Packet>>>,
    /// The steps of the seats that were joined to it.
    pub joined: LinkedList<(Step, Outcome)>,
    /// The element that it lends, or lent last, of which `Ground::lend` makes use.
    pub loan: u32,
    /// What it has noted of the packet that it lends, of which `Ground::lend_packet` makes use.
    pub parcel: Parcel,
}
