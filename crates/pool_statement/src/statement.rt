//! What is reported of a pool at its end: where each of its elements is, and who holds it how
//! often.

use commons::packet::Seg;
use commons::seq::Seq;

/// Who holds an element.
#[derive(Clone, Copy, PartialEq, Eq, Debug)]
pub enum Holder {
    /// A worker, numbered from 1.
    Worker(u32),
    /// A desk, numbered from 0.
    Desk(u32),
}

/// An element that is held, its count, and its holders: workers ascending, then desks ascending,
/// each as often as it holds the element.
#[derive(Debug, Drop)]
pub struct Held {
    /// The element.
    pub elem: u32,
    /// Its reference count.
    pub count: u32,
    /// Who holds it.
    pub holders: Seq<Holder>,
}

/// A worker's packet, where it stands.
#[derive(Debug, Drop)]
pub struct PlacedPacket {
    /// The worker, from 1.
    pub worker: u32,
    /// The slot in the worker's table, 0 to 255.
    pub slot: u32,
    /// The packet's segments in order.
    pub segs: Seq<Seg>,
}

/// A packet on a desk.
#[derive(Debug, Drop)]
pub struct DeskPacket {
    /// The desk, from 0.
    pub desk: u32,
    /// The packet's segments in order.
    pub segs: Seq<Seg>,
}

/// Where each element of a pool is.
#[derive(Debug, Drop)]
pub struct Statement {
    /// How many elements the pool has.
    pub population: u64,
    /// How many are in the common list or in a cache.
    pub available: u64,
    /// How many are held.
    pub in_use: u64,
    /// The common list from the top.
    pub common: Seq<u32>,
    /// Each worker's cache, from its first element to its last.
    pub caches: Seq<Seq<u32>>,
    /// The packets by worker and slot, ascending.
    pub packets: Seq<PlacedPacket>,
    /// The packets on desks, ascending.
    pub desks: Seq<DeskPacket>,
    /// The held elements, ascending.
    pub held: Seq<Held>,
}
