//! Snapshots with several faults of several kinds, and all that is told of them, by the rules: of
//! the walk along the links, and of a list in its place.

use super::faults::{C4, C8, C10, C12, E0, E1, E6, LARGE, SECOND, THIRD};
use super::shown::{FRESH, Handed, Shown};
use commons::packet::Seg;
use pool_statement::guest::Guest;
use snapshot::fault::Fault;

/// A name, a snapshot, the list that is its stack where it isn't the walk, and all its faults.
pub(super) type Row = (
    &'static str,
    Shown,
    Option<&'static [u32]>,
    &'static [Fault],
);

/// Element 4 once more, as the own one of a packet on a desk.
const AGAIN: Seg = Seg { elem: 4, ..FRESH };

/// An element that the pool doesn't have, as the own one of a segment.
const STRANGE: Seg = Seg { elem: 20, ..FRESH };

/// Element 7 is in the cache, beside the stack.
const DOUBLE: Handed = (1, &[5, 7], &[(0, &[E0, E1]), (3, &[C4])]);

/// The cache names elements that the pool doesn't have, one of them twice, and two slots have no
/// packet's segments.
const OTHERS: Handed = (2, &[99, 20, 99], &[(0, &[]), (1, &[]), (255, &[C8, C10])]);

/// Element 2 is nowhere.
const LESS: Handed = (3, &[9], &[]);

/// Faults of each kind of a walk that ends.
pub(super) const DAMAGED: Shown = Shown {
    length: 5,
    counts: &[1, 2, 1, 1, 1, 1, 7, 1, 1, 1, 1, 1, 1],
    desks: &[Some(&[AGAIN]), Some(&[E6]), Some(&[C12])],
    shares: &[DOUBLE, OTHERS, LESS],
    ..LARGE
};

/// What is told of it whatever the stack is.
const STRANGER_20: Fault = Fault::BadElem(20);

const STRANGER_99: Fault = Fault::BadElem(99);

const HEADER_4: Fault = Fault::DoubleHeader(4);

const COUNT_0: Fault = Fault::BadCount {
    elem: 0,
    word: 1,
    holds: 2,
};

const COUNT_4: Fault = Fault::BadCount {
    elem: 4,
    word: 1,
    holds: 2,
};

const COUNT_6: Fault = Fault::BadCount {
    elem: 6,
    word: 7,
    holds: 3,
};

pub(super) const ROWS: &[Row] = &[
    ("a lawful snapshot has none", LARGE, None, &[]),
    (
        "each kind that a walk with an end can have, in order",
        DAMAGED,
        None,
        &[
            Fault::BadLength { word: 5, found: 3 },
            STRANGER_20,
            STRANGER_99,
            Fault::BadPacket,
            HEADER_4,
            Fault::Doubled(7),
            Fault::Lost(2),
            COUNT_0,
            COUNT_4,
            COUNT_6,
        ],
    ),
    (
        "a walk that leaves the pool: its length, what is free twice and what is lost aren't told",
        Shown {
            links: &[1, 99, 3, 12, 0, 5, 13, 4, 8, 2, 7, 50, 14],
            ..DAMAGED
        },
        None,
        &[
            Fault::BadTop(50),
            STRANGER_20,
            STRANGER_99,
            Fault::BadPacket,
            HEADER_4,
            COUNT_0,
            COUNT_4,
            COUNT_6,
        ],
    ),
    (
        "nor of a walk that comes back",
        Shown {
            links: &[1, 99, 3, 12, 0, 5, 13, 4, 8, 2, 7, 8, 14],
            ..DAMAGED
        },
        None,
        &[
            Fault::Loop,
            STRANGER_20,
            STRANGER_99,
            Fault::BadPacket,
            HEADER_4,
            COUNT_0,
            COUNT_4,
            COUNT_6,
        ],
    ),
    (
        "a bad shape alone",
        Shown {
            links: &[1, 99, 3, 12, 0, 5, 13, 4, 8, 2, 7, 0],
            ..DAMAGED
        },
        None,
        &[Fault::BadShape],
    ),
    (
        "an element that the pool doesn't have, twice an own one: it is a stranger and nothing else",
        Shown {
            desks: &[Some(&[STRANGE]), Some(&[E6]), Some(&[C12])],
            shares: &[
                (1, &[5], &[(0, &[E0, E1]), (3, &[C4]), (4, &[STRANGE])]),
                SECOND,
                THIRD,
            ],
            ..LARGE
        },
        None,
        &[STRANGER_20],
    ),
    (
        "several of each kind, ascending",
        Shown {
            length: 3,
            shares: &[
                (1, &[11, 3], &[(0, &[E0, E1]), (3, &[C4])]),
                (2, &[], &[(255, &[C8, C10])]),
                (3, &[], &[]),
            ],
            ..LARGE
        },
        None,
        &[
            Fault::Doubled(3),
            Fault::Doubled(11),
            Fault::Lost(2),
            Fault::Lost(5),
            Fault::Lost(9),
        ],
    ),
    (
        "a guest is held: it is free too, and its count is short",
        Shown {
            guests: &[
                Guest { worker: 2, elem: 7 },
                Guest { worker: 3, elem: 7 },
                Guest {
                    worker: 1,
                    elem: 13,
                },
            ],
            ..LARGE
        },
        None,
        &[
            Fault::BadElem(13),
            Fault::Doubled(7),
            Fault::BadCount {
                elem: 7,
                word: 1,
                holds: 2,
            },
        ],
    ),
    (
        "a list without repeats: the words aren't looked at",
        Shown {
            top: 99,
            length: 77,
            ..LARGE
        },
        Some(&[11, 3, 7]),
        &[],
    ),
    (
        "a list with repeats",
        LARGE,
        Some(&[7, 3, 11, 7, 3, 7]),
        &[Fault::Doubled(3), Fault::Doubled(7)],
    ),
    (
        "a list that names what the pool doesn't have, and lacks what it has",
        LARGE,
        Some(&[40, 7, 13, 40]),
        &[
            Fault::BadElem(13),
            Fault::BadElem(40),
            Fault::Lost(3),
            Fault::Lost(11),
        ],
    ),
    (
        "a list beside all other faults",
        DAMAGED,
        Some(&[7, 3, 11, 3]),
        &[
            STRANGER_20,
            STRANGER_99,
            Fault::BadPacket,
            HEADER_4,
            Fault::Doubled(3),
            Fault::Doubled(7),
            Fault::Lost(2),
            COUNT_0,
            COUNT_4,
            COUNT_6,
        ],
    ),
    (
        "a list, and a bad shape alone",
        Shown {
            counts: &[2, 2],
            ..DAMAGED
        },
        Some(&[7, 7]),
        &[Fault::BadShape],
    ),
];
