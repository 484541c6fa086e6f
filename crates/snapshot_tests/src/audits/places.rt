//! Shares of more and of fewer places than a worker's table has slots.

use super::Row;
use super::shown::{FRESH, Handed, ONE, Places, Shown};
use commons::limits::Limits;
use commons::packet::Seg;
use pool_statement::statement::Holder;
use snapshot::fault::Fault;

const FRESH_1: Seg = Seg { elem: 1, ..FRESH };

const FRESH_2: Seg = Seg { elem: 2, ..FRESH };

/// Element 3 as a clone of element 2.
const CLONE: Seg = Seg {
    elem: 3,
    base: Some(2),
    ..FRESH
};

const NOTHING: Handed = (1, &[], &[]);

const SHORT: Handed = (2, &[], &[(254, &[FRESH])]);

const LONG: Handed = (3, &[], &[(256, &[FRESH_1])]);

/// Shares of 0, 255, 257 and 1,000 places, with a packet in the last place of each that has one,
/// and one more in place 256 of the last share. Elements 4 and 5 are common.
const WIDE: Shown = Shown {
    limits: Limits {
        population: 6,
        workers: 4,
        ..ONE
    },
    top: 5,
    length: 2,
    links: &[0, 0, 0, 0, 6, 0],
    counts: &[1, 1, 2, 1, 1, 1],
    desks: &[],
    shares: &[
        NOTHING,
        SHORT,
        LONG,
        (4, &[], &[(256, &[FRESH_2]), (999, &[CLONE])]),
    ],
    places: &[0, 255, 257, 1_000],
    guests: &[],
    foreign: false,
};

const WIDE_PLACES: Places = Places {
    population: 6,
    available: 2,
    in_use: 4,
    common: &[4, 5],
    caches: &[&[], &[], &[], &[]],
    packets: &[
        (2, 254, &[FRESH]),
        (3, 256, &[FRESH_1]),
        (4, 256, &[FRESH_2]),
        (4, 999, &[CLONE]),
    ],
    desks: &[],
    held: &[
        (0, 1, &[Holder::Worker(2)]),
        (1, 1, &[Holder::Worker(3)]),
        (2, 2, &[Holder::Worker(4), Holder::Worker(4)]),
        (3, 1, &[Holder::Worker(4)]),
    ],
};

pub(super) const ROWS: &[Row] = &[
    (
        "shares of 0, 255, 257 and 1,000 places",
        WIDE,
        Ok(WIDE_PLACES),
    ),
    (
        "a stranger in place 256",
        Shown {
            shares: &[
                NOTHING,
                SHORT,
                (3, &[], &[(256, &[Seg { elem: 6, ..FRESH }])]),
                (4, &[], &[(256, &[FRESH_2]), (999, &[CLONE])]),
            ],
            ..WIDE
        },
        Err(Fault::BadElem(6)),
    ),
    (
        "a packet of no segments in place 999",
        Shown {
            shares: &[
                NOTHING,
                SHORT,
                LONG,
                (4, &[], &[(256, &[FRESH_2]), (999, &[])]),
            ],
            ..WIDE
        },
        Err(Fault::BadPacket),
    ),
    (
        "packets of one element in places 3 and 300",
        Shown {
            shares: &[
                NOTHING,
                SHORT,
                LONG,
                (4, &[], &[(3, &[FRESH_2]), (300, &[FRESH_2])]),
            ],
            ..WIDE
        },
        Err(Fault::DoubleHeader(2)),
    ),
    (
        "a common element in place 999",
        Shown {
            shares: &[
                NOTHING,
                SHORT,
                LONG,
                (
                    4,
                    &[],
                    &[(256, &[FRESH_2]), (999, &[Seg { elem: 5, ..CLONE }])],
                ),
            ],
            ..WIDE
        },
        Err(Fault::Doubled(5)),
    ),
    (
        "nothing in place 256",
        Shown {
            shares: &[
                NOTHING,
                SHORT,
                (3, &[], &[]),
                (4, &[], &[(256, &[FRESH_2]), (999, &[CLONE])]),
            ],
            ..WIDE
        },
        Err(Fault::Lost(1)),
    ),
    (
        "a count that leaves out the base in place 999",
        Shown {
            counts: &[1, 1, 1, 1, 1, 1],
            ..WIDE
        },
        Err(Fault::BadCount {
            elem: 2,
            word: 1,
            holds: 2,
        }),
    ),
];
