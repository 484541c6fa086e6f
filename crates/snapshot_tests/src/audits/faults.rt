//! A large lawful snapshot, of several workers and desks with chains and clones, and what is wrong
//! once something of it is changed.

use super::Row;
use super::shown::{FRESH, Handed, ONE, Places, Shown};
use commons::limits::Limits;
use commons::packet::Seg;
use pool_statement::statement::Holder;
use snapshot::fault::Fault;

// A chain of two, its clone, and three packets that use the buffer of element 6.
pub(super) const E0: Seg = Seg {
    data_len: 60,
    ..FRESH
};

pub(super) const E1: Seg = Seg {
    elem: 1,
    data_len: 40,
    ..FRESH
};

pub(super) const C8: Seg = Seg {
    elem: 8,
    base: Some(0),
    data_len: 60,
    ..FRESH
};

pub(super) const C10: Seg = Seg {
    elem: 10,
    base: Some(1),
    data_len: 40,
    ..FRESH
};

pub(super) const E6: Seg = Seg {
    elem: 6,
    data_len: 7,
    ..FRESH
};

pub(super) const C4: Seg = Seg {
    elem: 4,
    base: Some(6),
    data_len: 7,
    ..FRESH
};

pub(super) const C12: Seg = Seg {
    elem: 12,
    base: Some(6),
    data_len: 7,
    ..FRESH
};

pub(super) const FIRST: Handed = (1, &[5], &[(0, &[E0, E1]), (3, &[C4])]);

pub(super) const SECOND: Handed = (2, &[], &[(255, &[C8, C10])]);

pub(super) const THIRD: Handed = (3, &[9, 2], &[]);

/// Elements 7, 3 and 11 are common, and 5, 9 and 2 in caches; desk 0 is empty.
pub(super) const LARGE: Shown = Shown {
    limits: Limits {
        population: 13,
        cache: 4,
        workers: 3,
        desks: 3,
        ..ONE
    },
    top: 8,
    length: 3,
    links: &[1, 99, 3, 12, 0, 5, 13, 4, 8, 2, 7, 0, 14],
    counts: &[2, 2, 1, 1, 1, 1, 3, 1, 1, 1, 1, 1, 1],
    desks: &[None, Some(&[E6]), Some(&[C12])],
    shares: &[FIRST, SECOND, THIRD],
    places: &[],
    guests: &[],
    foreign: false,
};

pub(super) const LARGE_PLACES: Places = Places {
    population: 13,
    available: 6,
    in_use: 7,
    common: &[7, 3, 11],
    caches: &[&[5], &[], &[9, 2]],
    packets: &[(1, 0, &[E0, E1]), (1, 3, &[C4]), (2, 255, &[C8, C10])],
    desks: &[(1, &[E6]), (2, &[C12])],
    held: &[
        (0, 2, &[Holder::Worker(1), Holder::Worker(2)]),
        (1, 2, &[Holder::Worker(1), Holder::Worker(2)]),
        (4, 1, &[Holder::Worker(1)]),
        (6, 3, &[Holder::Worker(1), Holder::Desk(1), Holder::Desk(2)]),
        (8, 1, &[Holder::Worker(2)]),
        (10, 1, &[Holder::Worker(2)]),
        (12, 1, &[Holder::Desk(2)]),
    ],
};

/// Its places where the first packet is freed: the elements 0 and 1 are held by their clones alone.
const FREED_PLACES: Places = Places {
    packets: &[(1, 3, &[C4]), (2, 255, &[C8, C10])],
    held: &[
        (0, 1, &[Holder::Worker(2)]),
        (1, 1, &[Holder::Worker(2)]),
        (4, 1, &[Holder::Worker(1)]),
        (6, 3, &[Holder::Worker(1), Holder::Desk(1), Holder::Desk(2)]),
        (8, 1, &[Holder::Worker(2)]),
        (10, 1, &[Holder::Worker(2)]),
        (12, 1, &[Holder::Desk(2)]),
    ],
    ..LARGE_PLACES
};

/// Lawful snapshots.
pub(super) const LAWFUL: &[Row] = &[
    ("a large lawful snapshot", LARGE, Ok(LARGE_PLACES)),
    (
        "a packet is freed while its clones stay",
        Shown {
            counts: &[1, 1, 1, 1, 1, 1, 3, 1, 1, 1, 1, 1, 1],
            shares: &[(1, &[5], &[(3, &[C4])]), SECOND, THIRD],
            ..LARGE
        },
        Ok(FREED_PLACES),
    ),
];

/// Snapshots that have not the shape of their pool.
pub(super) const SHAPES: &[Row] = &[
    (
        "a link too few",
        Shown {
            links: &[1, 99, 3, 12, 0, 5, 13, 4, 8, 2, 7, 0],
            ..LARGE
        },
        Err(Fault::BadShape),
    ),
    (
        "a count too many",
        Shown {
            counts: &[2, 2, 1, 1, 1, 1, 3, 1, 1, 1, 1, 1, 1, 1],
            ..LARGE
        },
        Err(Fault::BadShape),
    ),
    (
        "a desk too few",
        Shown {
            desks: &[None, Some(&[E6])],
            ..LARGE
        },
        Err(Fault::BadShape),
    ),
    (
        "two shares in the wrong order",
        Shown {
            shares: &[SECOND, FIRST, THIRD],
            ..LARGE
        },
        Err(Fault::BadShape),
    ),
    (
        "one worker twice",
        Shown {
            shares: &[FIRST, SECOND, (2, &[9, 2], &[])],
            ..LARGE
        },
        Err(Fault::BadShape),
    ),
    (
        "the last share is missing",
        Shown {
            shares: &[FIRST, SECOND],
            ..LARGE
        },
        Err(Fault::BadShape),
    ),
    (
        "a share of a fourth worker",
        Shown {
            shares: &[FIRST, SECOND, THIRD, (4, &[], &[])],
            ..LARGE
        },
        Err(Fault::BadShape),
    ),
];

/// Walks that leave the pool, have no end, or not the length that the length word says.
pub(super) const WALKS: &[Row] = &[
    (
        "the top is past the last element",
        Shown { top: 14, ..LARGE },
        Err(Fault::BadTop(14)),
    ),
    (
        "the end of the walk is past the last element",
        Shown {
            links: &[1, 99, 3, 12, 0, 5, 13, 4, 8, 2, 7, 4_294_967_295, 14],
            ..LARGE
        },
        Err(Fault::BadTop(4_294_967_295)),
    ),
    (
        "the end of the walk leads to its top",
        Shown {
            links: &[1, 99, 3, 12, 0, 5, 13, 4, 8, 2, 7, 8, 14],
            ..LARGE
        },
        Err(Fault::Loop),
    ),
    (
        "an element leads to itself",
        Shown {
            links: &[1, 99, 3, 4, 0, 5, 13, 4, 8, 2, 7, 0, 14],
            ..LARGE
        },
        Err(Fault::Loop),
    ),
    (
        "a length word below the walk",
        Shown { length: 2, ..LARGE },
        Err(Fault::BadLength { word: 2, found: 3 }),
    ),
    (
        "the greatest length word",
        Shown {
            length: 18_446_744_073_709_551_615,
            ..LARGE
        },
        Err(Fault::BadLength {
            word: 18_446_744_073_709_551_615,
            found: 3,
        }),
    ),
    (
        "a walk that is cut short",
        Shown {
            links: &[1, 99, 3, 0, 0, 5, 13, 4, 8, 2, 7, 0, 14],
            ..LARGE
        },
        Err(Fault::BadLength { word: 3, found: 2 }),
    ),
    (
        "no walk at all",
        Shown { top: 0, ..LARGE },
        Err(Fault::BadLength { word: 3, found: 0 }),
    ),
];

/// Elements that the pool doesn't have, and what isn't a packet.
pub(super) const PACKETS: &[Row] = &[
    (
        "a stranger in the last cache",
        Shown {
            shares: &[FIRST, SECOND, (3, &[9, 13], &[])],
            ..LARGE
        },
        Err(Fault::BadElem(13)),
    ),
    (
        "a stranger in the last slot",
        Shown {
            shares: &[
                FIRST,
                (
                    2,
                    &[],
                    &[(
                        255,
                        &[
                            C8,
                            Seg {
                                elem: 4_294_967_295,
                                base: Some(1),
                                data_len: 40,
                                ..FRESH
                            },
                        ],
                    )],
                ),
                THIRD,
            ],
            ..LARGE
        },
        Err(Fault::BadElem(4_294_967_295)),
    ),
    (
        "a stranger is a base on a desk",
        Shown {
            desks: &[
                None,
                Some(&[E6]),
                Some(&[Seg {
                    elem: 12,
                    base: Some(13),
                    data_len: 7,
                    ..FRESH
                }]),
            ],
            ..LARGE
        },
        Err(Fault::BadElem(13)),
    ),
    (
        "the least of three strangers is on a desk",
        Shown {
            desks: &[
                Some(&[Seg { elem: 14, ..FRESH }]),
                Some(&[E6]),
                Some(&[C12]),
            ],
            shares: &[
                (1, &[60_000], &[(0, &[E0, E1]), (3, &[C4])]),
                SECOND,
                (3, &[20, 9, 2], &[]),
            ],
            ..LARGE
        },
        Err(Fault::BadElem(14)),
    ),
    (
        "a packet of no segments on the last desk",
        Shown {
            desks: &[None, Some(&[E6]), Some(&[])],
            ..LARGE
        },
        Err(Fault::BadPacket),
    ),
    (
        "a packet of 33 segments in the last slot",
        Shown {
            shares: &[FIRST, SECOND, (3, &[9, 2], &[(255, &[E0; 33])])],
            ..LARGE
        },
        Err(Fault::BadPacket),
    ),
    (
        "a segment behind another has data past its buffer",
        Shown {
            shares: &[
                (
                    1,
                    &[5],
                    &[
                        (
                            0,
                            &[
                                E0,
                                Seg {
                                    elem: 1,
                                    data_len: 1_921,
                                    ..FRESH
                                },
                            ],
                        ),
                        (3, &[C4]),
                    ],
                ),
                SECOND,
                THIRD,
            ],
            ..LARGE
        },
        Err(Fault::BadPacket),
    ),
    (
        "a packet of 32 segments is one, though of one element",
        Shown {
            shares: &[FIRST, SECOND, (3, &[9, 2], &[(255, &[E0; 32])])],
            ..LARGE
        },
        Err(Fault::DoubleHeader(0)),
    ),
];

/// Elements that are the own one of two segments.
pub(super) const HEADERS: &[Row] = &[
    (
        "a chain of one element twice",
        Shown {
            shares: &[(1, &[5], &[(0, &[E0, E1, E0]), (3, &[C4])]), SECOND, THIRD],
            ..LARGE
        },
        Err(Fault::DoubleHeader(0)),
    ),
    (
        "two workers have one header",
        Shown {
            shares: &[FIRST, SECOND, (3, &[9, 2], &[(0, &[C10])])],
            ..LARGE
        },
        Err(Fault::DoubleHeader(10)),
    ),
    (
        "a worker and a desk have one header",
        Shown {
            desks: &[Some(&[E1]), Some(&[E6]), Some(&[C12])],
            ..LARGE
        },
        Err(Fault::DoubleHeader(1)),
    ),
    (
        "two desks have one header",
        Shown {
            desks: &[Some(&[E6]), Some(&[E6]), Some(&[C12])],
            ..LARGE
        },
        Err(Fault::DoubleHeader(6)),
    ),
    (
        "the least of two double headers",
        Shown {
            desks: &[Some(&[C4]), Some(&[E6]), Some(&[C12])],
            shares: &[FIRST, SECOND, (3, &[9, 2], &[(0, &[C10])])],
            ..LARGE
        },
        Err(Fault::DoubleHeader(4)),
    ),
];

/// Elements that have two places, or none.
pub(super) const PLACES: &[Row] = &[
    (
        "an element is common and in the last cache",
        Shown {
            shares: &[FIRST, SECOND, (3, &[9, 2, 7], &[])],
            ..LARGE
        },
        Err(Fault::Doubled(7)),
    ),
    (
        "an element is in two caches",
        Shown {
            shares: &[FIRST, (2, &[5], &[(255, &[C8, C10])]), THIRD],
            ..LARGE
        },
        Err(Fault::Doubled(5)),
    ),
    (
        "an element is in one cache twice",
        Shown {
            shares: &[(1, &[5, 5], &[(0, &[E0, E1]), (3, &[C4])]), SECOND, THIRD],
            ..LARGE
        },
        Err(Fault::Doubled(5)),
    ),
    (
        "an element is common and on a desk",
        Shown {
            length: 4,
            links: &[1, 99, 3, 12, 0, 5, 13, 4, 8, 2, 7, 13, 0],
            ..LARGE
        },
        Err(Fault::Doubled(12)),
    ),
    (
        "an element is in a cache and a base",
        Shown {
            counts: &[1, 1, 1, 1, 1, 1, 3, 1, 1, 1, 1, 1, 1],
            shares: &[(1, &[5, 0], &[(3, &[C4])]), SECOND, THIRD],
            ..LARGE
        },
        Err(Fault::Doubled(0)),
    ),
    (
        "the least of two doubled elements",
        Shown {
            shares: &[
                (1, &[5, 11], &[(0, &[E0, E1]), (3, &[C4])]),
                SECOND,
                (3, &[9, 2, 3], &[]),
            ],
            ..LARGE
        },
        Err(Fault::Doubled(3)),
    ),
    (
        "the last cache lost an element",
        Shown {
            shares: &[FIRST, SECOND, (3, &[9], &[])],
            ..LARGE
        },
        Err(Fault::Lost(2)),
    ),
    (
        "the last desk lost its packet",
        Shown {
            desks: &[None, Some(&[E6]), None],
            ..LARGE
        },
        Err(Fault::Lost(12)),
    ),
    (
        "the least of two lost elements",
        Shown {
            shares: &[FIRST, SECOND, (3, &[], &[])],
            ..LARGE
        },
        Err(Fault::Lost(2)),
    ),
];

/// Counts that are not the number of holds.
pub(super) const COUNTS: &[Row] = &[
    (
        "a common element has a count of 2",
        Shown {
            counts: &[2, 2, 1, 1, 1, 1, 3, 2, 1, 1, 1, 1, 1],
            ..LARGE
        },
        Err(Fault::BadCount {
            elem: 7,
            word: 2,
            holds: 0,
        }),
    ),
    (
        "a cached element has a count of 0",
        Shown {
            counts: &[2, 2, 1, 1, 1, 0, 3, 1, 1, 1, 1, 1, 1],
            ..LARGE
        },
        Err(Fault::BadCount {
            elem: 5,
            word: 0,
            holds: 0,
        }),
    ),
    (
        "a clone is not counted",
        Shown {
            counts: &[2, 2, 1, 1, 1, 1, 2, 1, 1, 1, 1, 1, 1],
            ..LARGE
        },
        Err(Fault::BadCount {
            elem: 6,
            word: 2,
            holds: 3,
        }),
    ),
    (
        "a hold is counted that nobody has",
        Shown {
            counts: &[2, 2, 1, 1, 1, 1, 4, 1, 1, 1, 1, 1, 1],
            ..LARGE
        },
        Err(Fault::BadCount {
            elem: 6,
            word: 4,
            holds: 3,
        }),
    ),
    (
        "a packet went off its desk without its count",
        Shown {
            desks: &[None, None, Some(&[C12])],
            ..LARGE
        },
        Err(Fault::BadCount {
            elem: 6,
            word: 3,
            holds: 2,
        }),
    ),
    (
        "the least of two wrong counts",
        Shown {
            counts: &[1, 2, 1, 1, 1, 1, 3, 1, 1, 1, 3, 1, 1],
            ..LARGE
        },
        Err(Fault::BadCount {
            elem: 0,
            word: 1,
            holds: 2,
        }),
    ),
];

/// Two faults, of which the first is named.
pub(super) const ORDER: &[Row] = &[
    (
        "a wrong shape is told before a wrong top",
        Shown {
            top: 99,
            desks: &[None, Some(&[E6])],
            ..LARGE
        },
        Err(Fault::BadShape),
    ),
    (
        "a wrong link is told before a wrong length",
        Shown {
            length: 9,
            links: &[1, 99, 3, 12, 0, 5, 13, 4, 8, 2, 7, 99, 14],
            ..LARGE
        },
        Err(Fault::BadTop(99)),
    ),
    (
        "a loop is told before a wrong length",
        Shown {
            length: 9,
            links: &[1, 99, 3, 12, 0, 5, 13, 4, 8, 2, 7, 8, 14],
            ..LARGE
        },
        Err(Fault::Loop),
    ),
    (
        "a wrong length is told before a stranger",
        Shown {
            length: 9,
            shares: &[(1, &[13], &[(0, &[E0, E1]), (3, &[C4])]), SECOND, THIRD],
            ..LARGE
        },
        Err(Fault::BadLength { word: 9, found: 3 }),
    ),
    (
        "a stranger is told before a packet of no segments",
        Shown {
            desks: &[Some(&[]), Some(&[E6]), Some(&[C12])],
            shares: &[(1, &[13], &[(0, &[E0, E1]), (3, &[C4])]), SECOND, THIRD],
            ..LARGE
        },
        Err(Fault::BadElem(13)),
    ),
    (
        "a packet of no segments is told before a double header",
        Shown {
            desks: &[Some(&[]), Some(&[E6]), Some(&[C12, C12])],
            ..LARGE
        },
        Err(Fault::BadPacket),
    ),
    (
        "a double header is told before a doubled element",
        Shown {
            desks: &[Some(&[E6]), Some(&[E6]), Some(&[C12])],
            shares: &[(1, &[5, 5], &[(0, &[E0, E1]), (3, &[C4])]), SECOND, THIRD],
            ..LARGE
        },
        Err(Fault::DoubleHeader(6)),
    ),
    (
        "a doubled element is told before a lost one",
        Shown {
            shares: &[
                (1, &[5, 5], &[(0, &[E0, E1]), (3, &[C4])]),
                SECOND,
                (3, &[9], &[]),
            ],
            ..LARGE
        },
        Err(Fault::Doubled(5)),
    ),
    (
        "a lost element is told before a wrong count",
        Shown {
            counts: &[1, 2, 1, 1, 1, 1, 3, 1, 1, 1, 1, 1, 1],
            shares: &[FIRST, SECOND, (3, &[2], &[])],
            ..LARGE
        },
        Err(Fault::Lost(9)),
    ),
];

/// A lawful snapshot, and one whose fault is the last that is looked for.
pub(super) const FOR_MEMORY: &[Row] = &[
    ("a large lawful snapshot", LARGE, Ok(LARGE_PLACES)),
    (
        "a clone is not counted",
        Shown {
            counts: &[2, 2, 1, 1, 1, 1, 2, 1, 1, 1, 1, 1, 1],
            ..LARGE
        },
        Err(Fault::BadCount {
            elem: 6,
            word: 2,
            holds: 3,
        }),
    ),
];
