//! Snapshots and statements as tables can hold them.

use commons::limits::{Limits, PutRule};
use commons::packet::Seg;
use pool_statement::guest::Guest;
use pool_statement::statement::Holder;

/// A snapshot as plain data.
#[derive(Clone, Copy)]
pub(super) struct Shown {
    /// The pool's limits.
    pub limits: Limits,
    /// The top of the stack: 0 for none, else its element + 1.
    pub top: u32,
    /// The length word.
    pub length: u64,
    /// The link of each element: 0 for none, else the next element + 1.
    pub links: &'static [u32],
    /// The reference count of each element.
    pub counts: &'static [u32],
    /// The segments of the packet on each desk, where one lies there.
    pub desks: &'static [Option<&'static [Seg]>],
    /// What the workers handed in.
    pub shares: &'static [Handed],
    /// How many places each share has: 256 where nothing is said.
    pub places: &'static [usize],
    /// The elements that workers hold for packets of another pool.
    pub guests: &'static [Guest],
    /// Whether the bases of the packets are elements of another pool.
    pub foreign: bool,
}

/// What a worker handed in: its number, its cache, and its packets, each with its slot.
pub(super) type Handed = (u32, &'static [u32], &'static [(usize, &'static [Seg])]);

/// A statement as plain data.
#[derive(Clone, Copy)]
pub(super) struct Places {
    pub population: u64,
    pub available: u64,
    pub in_use: u64,
    pub common: &'static [u32],
    pub caches: &'static [&'static [u32]],
    /// Each with its worker, its slot and its segments.
    pub packets: &'static [(u32, u32, &'static [Seg])],
    /// Each with its desk and its segments.
    pub desks: &'static [(u32, &'static [Seg])],
    /// Each element with its count and its holders.
    pub held: &'static [(u32, u32, &'static [Holder])],
}

/// A word of a snapshot.
#[derive(Clone, Copy, PartialEq, Eq, Debug)]
pub(super) enum Word {
    /// The top of the stack.
    Top,
    /// The length word.
    Length,
    /// An element's link.
    Link(u32),
    /// An element's count.
    Count(u32),
}

/// The fresh direct segment of element 0, as an alloc makes it in a buffer of 2,048 bytes.
pub(super) const FRESH: Seg = Seg {
    elem: 0,
    base: None,
    data_off: 128,
    data_len: 0,
    buf_len: 2_048,
};

/// The limits of a pool of one element and one worker, which others of a table differ from.
pub(super) const ONE: Limits = Limits {
    population: 1,
    cache: 0,
    workers: 1,
    desks: 0,
    buf: 2_048,
    ref_limit: 65_535,
    tries: 64,
    start_count: 0,
    put_rule: PutRule::Keep,
};
