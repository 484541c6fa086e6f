//! Tables of what workers do on new pools, and what they are told, worked out by hand.

use commons::limits::{Limits, PutRule};
use mbuf::acts::Act;

/// What a worker does at one step of a row.
#[derive(Clone, Copy)]
pub(crate) enum Step {
    /// It does this, and its reply is reported.
    Act(Act),
    /// It makes this many packets one at a time, and it reports how many stood in the slots from 0
    /// on.
    Makes(u32),
    /// It chains the packets in the slots from 0 on, this many, to the one in slot 0, and it
    /// reports how many were chained.
    Chains(u32),
    /// The segments of the packet in this slot are reported.
    Segs(u32),
    /// Its number is reported.
    Number,
    /// Its cache is reported.
    Cache,
    /// The packet in this slot is reported.
    Place(u32),
    /// It is reported how many segments of the packet in this slot use another's buffer.
    Bases(u32),
}

/// The steps of a worker, with what is reported of each.
pub(crate) type Steps<'a> = &'a [(Step, &'static str)];

/// What the workers of a new pool do, one after another.
pub(crate) struct Row {
    /// What it shows.
    pub(crate) name: &'static str,
    /// The pool's limits.
    pub(crate) limits: Limits,
    /// The steps of worker 1, and then those of worker 2.
    pub(crate) workers: &'static [Steps<'static>],
    /// The common list that is left, top last, where the row says it.
    pub(crate) common: Option<&'static [u32]>,
    /// How often each element is held then, where the row says it. 0 is one of the common list, as
    /// all after them are.
    pub(crate) held: Option<&'static [u32]>,
}

/// A pool of one worker, without desks.
pub(crate) const ONE: Limits = Limits {
    population: 4,
    cache: 0,
    workers: 1,
    desks: 0,
    buf: 2_048,
    ref_limit: 65_535,
    tries: 64,
    start_count: 0,
    put_rule: PutRule::Keep,
};

/// Packets that are made, chained and freed, and their lengths.
pub(crate) static PACKETS: [Row; 5] = [
    Row {
        name: "a chain is freed",
        limits: ONE,
        workers: &[&[
            (Step::Act(Act::Alloc), "Allocated(0, 0)"),
            (Step::Act(Act::Alloc), "Allocated(1, 1)"),
            (Step::Act(Act::Chain(0, 1)), "Chained(2, 0)"),
            (
                Step::Act(Act::Free(0)),
                "Freed(Freed { back: 2, flushed: 2, put_off: None })",
            ),
        ]],
        common: Some(&[3, 2, 0, 1]),
        held: None,
    },
    Row {
        name: "lengths change within the buffer",
        limits: Limits {
            population: 1,
            ..ONE
        },
        workers: &[&[
            (Step::Act(Act::Alloc), "Allocated(0, 0)"),
            (Step::Act(Act::Append(0, 1_921)), "Refused(NoRoom)"),
            (Step::Act(Act::Append(0, 1_920)), "Len(1920)"),
            (Step::Act(Act::Prepend(0, 129)), "Refused(NoRoom)"),
            (Step::Act(Act::Prepend(0, 128)), "Len(2048)"),
            (Step::Act(Act::Adj(0, 2_049)), "Refused(TooShort)"),
            (Step::Act(Act::Trim(0, 2_048)), "Len(0)"),
            (
                Step::Place(0),
                "Some(Packet { segs: [Seg { elem: 0, base: None, data_off: 0, data_len: 0, buf_len: 2048 }] })",
            ),
        ]],
        common: None,
        held: None,
    },
    Row {
        name: "a packet has 32 segments at most",
        limits: Limits {
            population: 33,
            ..ONE
        },
        workers: &[&[
            (Step::Makes(33), "33"),
            (Step::Chains(32), "31"),
            (Step::Act(Act::Chain(0, 32)), "Refused(TooManySegs)"),
            (Step::Act(Act::Chain(0, 0)), "Refused(SamePacket)"),
            (Step::Act(Act::Chain(0, 1)), "Refused(NoSuchPacket)"),
            (Step::Act(Act::NbSegs(0)), "Segs(32)"),
            (Step::Act(Act::PktLen(32)), "Len(0)"),
            (Step::Act(Act::PktLen(256)), "Refused(NoSuchPacket)"),
        ]],
        common: None,
        held: None,
    },
    Row {
        name: "the 257th packet is refused, and one that is freed leaves its slot to the next",
        limits: Limits {
            population: 300,
            ..ONE
        },
        workers: &[&[
            (Step::Makes(256), "256"),
            (Step::Act(Act::Alloc), "Refused(PacketsFull)"),
            (
                Step::Act(Act::Free(7)),
                "Freed(Freed { back: 1, flushed: 1, put_off: None })",
            ),
            (Step::Act(Act::Free(7)), "Refused(NoSuchPacket)"),
            (Step::Act(Act::Alloc), "Allocated(7, 7)"),
            (
                Step::Segs(7),
                "Ok([Seg { elem: 7, base: None, data_off: 128, data_len: 0, buf_len: 2048 }])",
            ),
        ]],
        common: None,
        held: None,
    },
    Row {
        name: "each act is replied to",
        limits: Limits {
            population: 8,
            cache: 4,
            ..ONE
        },
        workers: &[&[
            (Step::Act(Act::Alloc), "Allocated(0, 4)"),
            (
                Step::Act(Act::AllocBulk(2)),
                "Bulk([NewPacket { slot: 1, elem: 3 }, NewPacket { slot: 2, elem: 2 }])",
            ),
            (Step::Act(Act::Append(0, 10)), "Len(10)"),
            (Step::Act(Act::Prepend(0, 20)), "Len(30)"),
            (Step::Act(Act::Adj(0, 5)), "Len(25)"),
            (Step::Act(Act::Trim(0, 4)), "Len(21)"),
            (Step::Act(Act::Chain(0, 2)), "Chained(2, 21)"),
            (Step::Act(Act::PktLen(0)), "Len(21)"),
            (Step::Act(Act::NbSegs(0)), "Segs(2)"),
            (
                Step::Act(Act::Free(0)),
                "Freed(Freed { back: 2, flushed: 0, put_off: None })",
            ),
            (Step::Act(Act::Flush), "Put(Flushed(4))"),
            (Step::Act(Act::AllocBulk(257)), "Refused(PacketsFull)"),
        ]],
        common: None,
        held: None,
    },
];

/// Bulks, and what an alloc leaves in the cache.
pub(crate) static BULKS: [Row; 3] = [
    Row {
        name: "an alloc fills the cache with five and takes the last, and a flush gives the other four back",
        limits: Limits {
            population: 8,
            cache: 4,
            ..ONE
        },
        workers: &[&[
            (Step::Act(Act::Alloc), "Allocated(0, 4)"),
            (Step::Cache, "[0, 1, 2, 3]"),
            (Step::Act(Act::Flush), "Put(Flushed(4))"),
            (Step::Act(Act::Flush), "Put(Kept)"),
            (Step::Number, "1"),
        ]],
        common: Some(&[7, 6, 5, 0, 1, 2, 3]),
        held: None,
    },
    Row {
        name: "a bulk fills the lowest free slots",
        limits: Limits {
            population: 8,
            ..ONE
        },
        workers: &[&[
            (
                Step::Act(Act::AllocBulk(4)),
                "Bulk([NewPacket { slot: 0, elem: 0 }, NewPacket { slot: 1, elem: 1 }, \
                NewPacket { slot: 2, elem: 2 }, NewPacket { slot: 3, elem: 3 }])",
            ),
            (
                Step::Act(Act::Free(1)),
                "Freed(Freed { back: 1, flushed: 1, put_off: None })",
            ),
            (
                Step::Act(Act::AllocBulk(2)),
                "Bulk([NewPacket { slot: 1, elem: 1 }, NewPacket { slot: 4, elem: 4 }])",
            ),
        ]],
        common: Some(&[7, 6, 5]),
        held: None,
    },
    Row {
        name: "a bulk past the last free slot asks the pool for nothing",
        limits: Limits {
            population: 300,
            ..ONE
        },
        workers: &[&[
            (Step::Act(Act::AllocBulk(250)), "250 packets"),
            (Step::Act(Act::AllocBulk(7)), "Refused(PacketsFull)"),
        ]],
        common: None,
        held: Some(&[1; 250]),
    },
];

/// Packets on desks, and from worker to worker.
pub(crate) static DESKS: [Row; 3] = [
    Row {
        name: "each act on a desk is replied to",
        limits: Limits { desks: 2, ..ONE },
        workers: &[&[
            (
                Step::Act(Act::AllocBulk(3)),
                "Bulk([NewPacket { slot: 0, elem: 0 }, NewPacket { slot: 1, elem: 1 }, \
                NewPacket { slot: 2, elem: 2 }])",
            ),
            (Step::Act(Act::Append(1, 60)), "Len(60)"),
            (Step::Act(Act::Chain(1, 2)), "Chained(2, 60)"),
            (Step::Act(Act::Offer(1, 0)), "Offered"),
            (Step::Act(Act::NbSegs(1)), "Refused(NoSuchPacket)"),
            (Step::Act(Act::Offer(1, 2)), "Refused(NoSuchPacket)"),
            (Step::Act(Act::Offer(0, 2)), "Refused(NoSuchDesk)"),
            (Step::Act(Act::Offer(0, 0)), "Refused(DeskTaken)"),
            (Step::Act(Act::NbSegs(0)), "Segs(1)"),
            (
                Step::Act(Act::Free(0)),
                "Freed(Freed { back: 1, flushed: 1, put_off: None })",
            ),
            (Step::Act(Act::Take(2)), "Refused(NoSuchDesk)"),
            (Step::Act(Act::Take(1)), "Refused(DeskEmpty)"),
            (Step::Act(Act::Take(0)), "Taken(0, 2, 60)"),
            (Step::Act(Act::PktLen(0)), "Len(60)"),
            (Step::Act(Act::Take(0)), "Refused(DeskEmpty)"),
        ]],
        common: None,
        held: Some(&[0, 1, 1]),
    },
    Row {
        name: "a full table takes no packet, and a desk that the pool hasn't is told of before",
        limits: Limits {
            population: 300,
            desks: 1,
            ..ONE
        },
        workers: &[&[
            (Step::Act(Act::Alloc), "Allocated(0, 0)"),
            (Step::Act(Act::Offer(0, 0)), "Offered"),
            (Step::Makes(256), "256"),
            (Step::Act(Act::Take(1)), "Refused(NoSuchDesk)"),
            (Step::Act(Act::Take(0)), "Refused(PacketsFull)"),
            (
                Step::Act(Act::Free(7)),
                "Freed(Freed { back: 1, flushed: 1, put_off: None })",
            ),
            (Step::Act(Act::Take(0)), "Taken(7, 1, 0)"),
            (
                Step::Segs(7),
                "Ok([Seg { elem: 0, base: None, data_off: 128, data_len: 0, buf_len: 2048 }])",
            ),
        ]],
        common: None,
        held: None,
    },
    Row {
        name: "a packet passes from worker to worker",
        limits: Limits {
            workers: 2,
            desks: 1,
            ..ONE
        },
        workers: &[
            &[
                (Step::Act(Act::Alloc), "Allocated(0, 0)"),
                (Step::Act(Act::Append(0, 60)), "Len(60)"),
                (Step::Act(Act::Offer(0, 0)), "Offered"),
                (Step::Place(0), "None"),
            ],
            &[
                (Step::Act(Act::Alloc), "Allocated(0, 1)"),
                (Step::Act(Act::Take(1)), "Refused(NoSuchDesk)"),
                (Step::Act(Act::Take(0)), "Taken(1, 1, 60)"),
                (Step::Act(Act::Take(0)), "Refused(DeskEmpty)"),
                (
                    Step::Segs(1),
                    "Ok([Seg { elem: 0, base: None, data_off: 128, data_len: 60, buf_len: 2048 }])",
                ),
            ],
        ],
        common: None,
        held: None,
    },
];

/// Buffers that several packets use.
pub(crate) static SHARED: [Row; 3] = [
    Row {
        name: "a count is the number of holds: a clone of a clone uses the same buffer",
        limits: Limits {
            population: 3,
            ..ONE
        },
        workers: &[&[
            (Step::Act(Act::Alloc), "Allocated(0, 0)"),
            (Step::Act(Act::ClonePacket(0)), "Cloned(1, [1])"),
            (Step::Act(Act::ClonePacket(1)), "Cloned(2, [2])"),
            (Step::Act(Act::CountOf(0)), "Count(3)"),
            (Step::Act(Act::CountOf(1)), "Count(1)"),
            (
                Step::Act(Act::Detach(1)),
                "Freed(Freed { back: 0, flushed: 0, put_off: None })",
            ),
            (Step::Act(Act::CountOf(0)), "Count(2)"),
            (Step::Act(Act::Attach(1, 0)), "Attached"),
            (Step::Act(Act::CountOf(0)), "Count(3)"),
        ]],
        common: None,
        held: Some(&[3, 1, 1]),
    },
    Row {
        name: "a base goes back with the last clone that uses it, before the clone's own element",
        limits: ONE,
        workers: &[&[
            (Step::Act(Act::Alloc), "Allocated(0, 0)"),
            (Step::Act(Act::ClonePacket(0)), "Cloned(1, [1])"),
            (
                Step::Act(Act::Free(0)),
                "Freed(Freed { back: 0, flushed: 0, put_off: None })",
            ),
            (
                Step::Act(Act::Free(1)),
                "Freed(Freed { back: 2, flushed: 2, put_off: None })",
            ),
        ]],
        common: Some(&[3, 2, 0, 1]),
        held: None,
    },
    Row {
        name: "each act on a shared buffer is replied to",
        limits: ONE,
        workers: &[&[
            (
                Step::Act(Act::AllocBulk(2)),
                "Bulk([NewPacket { slot: 0, elem: 0 }, NewPacket { slot: 1, elem: 1 }])",
            ),
            (Step::Act(Act::Attach(1, 0)), "Attached"),
            (Step::Act(Act::CountOf(0)), "Count(2)"),
            (Step::Act(Act::ClonePacket(1)), "Cloned(2, [2])"),
            (Step::Act(Act::Attach(0, 1)), "Refused(InUse)"),
            (
                Step::Act(Act::Detach(1)),
                "Freed(Freed { back: 0, flushed: 0, put_off: None })",
            ),
            (Step::Act(Act::ClonePacket(7)), "Refused(NoSuchPacket)"),
        ]],
        common: None,
        held: None,
    },
];

/// A clone of 32 segments that is refused at a get.
pub(crate) const REFUSED_AT_A_GET: [(Step, &'static str); 6] = [
    (Step::Makes(32), "32"),
    (Step::Chains(32), "31"),
    (Step::Act(Act::ClonePacket(0)), "Refused(NoEntries)"),
    (Step::Act(Act::NbSegs(0)), "Segs(32)"),
    (Step::Bases(0), "0"),
    (Step::Place(1), "None"),
];

/// A clone of 32 segments that is refused at the raise of the element to which another packet is
/// attached at the second step.
pub(crate) const REFUSED_AT_A_RAISE: [(Step, &'static str); 7] = [
    (Step::Makes(33), "33"),
    (Step::Act(Act::Attach(32, 0)), "Attached"),
    (Step::Chains(32), "31"),
    (Step::Act(Act::ClonePacket(0)), "Refused(RefSpent)"),
    (Step::Act(Act::NbSegs(0)), "Segs(32)"),
    (Step::Bases(0), "0"),
    (Step::Place(1), "None"),
];
