//! A closed pool as plain data, which may be damaged: its words, its desks, its workers' shares.

use commons::limits::Limits;
use commons::packet::Seg;
use commons::seq::Seq;
use pool_statement::guest::Guest;

/// What a worker hands in, as plain data.
#[derive(Debug, Drop)]
pub struct ShareData {
    /// The worker, from 1.
    pub worker: u32,
    /// The worker's cache, from its first element to its last.
    pub cache: Seq<u32>,
    /// The segments of the packet in each slot of the worker's table, where one stands there.
    pub slots: Seq<Option<Seq<Seg>>>,
}

/// A closed pool: the words that its shared part leaves, and what the workers handed in. Nothing
/// is known of it but what the audit finds.
#[derive(Debug, Drop)]
pub struct Snapshot {
    /// The pool's limits.
    pub limits: Limits,
    /// The top of the stack: 0 for none, else its element + 1.
    pub top: u32,
    /// The length word.
    pub length: u64,
    /// The link of each element: 0 for none, else the next element + 1.
    pub links: Seq<u32>,
    /// The reference count of each element.
    pub counts: Seq<u32>,
    /// The segments of the packet on each desk, where one lies there.
    pub desks: Seq<Option<Seq<Seg>>>,
    /// The shares, by worker.
    pub shares: Seq<ShareData>,
    /// The elements that workers hold for packets of another pool: the bases of their segments.
    pub guests: Seq<Guest>,
    /// Whether the bases of the packets are elements of another pool, and none of this one.
    pub foreign: bool,
}
