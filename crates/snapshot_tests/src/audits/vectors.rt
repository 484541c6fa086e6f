//! A small lawful snapshot, and what is wrong once one thing of it is changed.

use super::Row;
use super::shown::{FRESH, ONE, Places, Shown, Word};
use commons::limits::Limits;
use commons::packet::Seg;
use pool_statement::statement::Holder;
use snapshot::fault::Fault;

/// Elements 1 and 2 are common, and worker 1 has a packet of element 0 in slot 0.
pub(super) const SMALL: Shown = Shown {
    limits: Limits {
        population: 3,
        ..ONE
    },
    top: 2,
    length: 2,
    links: &[2, 3, 0],
    counts: &[1, 1, 1],
    desks: &[],
    shares: &[(1, &[], &[(0, &[FRESH])])],
    places: &[],
    guests: &[],
    foreign: false,
};

/// Its eight words, and the value of each.
pub(super) const SMALL_WORDS: &[(Word, u32)] = &[
    (Word::Top, 2),
    (Word::Length, 2),
    (Word::Link(0), 2),
    (Word::Link(1), 3),
    (Word::Link(2), 0),
    (Word::Count(0), 1),
    (Word::Count(1), 1),
    (Word::Count(2), 1),
];

pub(super) const SMALL_PLACES: Places = Places {
    population: 3,
    available: 2,
    in_use: 1,
    common: &[1, 2],
    caches: &[&[]],
    packets: &[(1, 0, &[FRESH])],
    desks: &[],
    held: &[(0, 1, &[Holder::Worker(1)])],
};

pub(super) const ROWS: &[Row] = &[
    ("a lawful snapshot", SMALL, Ok(SMALL_PLACES)),
    (
        "two counts for three elements",
        Shown {
            counts: &[1, 1],
            ..SMALL
        },
        Err(Fault::BadShape),
    ),
    (
        "a link on the walk past the last element",
        Shown {
            links: &[2, 4, 0],
            ..SMALL
        },
        Err(Fault::BadTop(4)),
    ),
    (
        "a walk that comes back to where it was",
        Shown {
            links: &[2, 3, 2],
            ..SMALL
        },
        Err(Fault::Loop),
    ),
    (
        "a length word above the walk",
        Shown { length: 3, ..SMALL },
        Err(Fault::BadLength { word: 3, found: 2 }),
    ),
    (
        "a stranger in a cache",
        Shown {
            shares: &[(1, &[3], &[(0, &[FRESH])])],
            ..SMALL
        },
        Err(Fault::BadElem(3)),
    ),
    (
        "data that begins past its buffer",
        Shown {
            shares: &[(
                1,
                &[],
                &[(
                    0,
                    &[Seg {
                        data_off: 2_049,
                        ..FRESH
                    }],
                )],
            )],
            ..SMALL
        },
        Err(Fault::BadPacket),
    ),
    (
        "two packets of one element",
        Shown {
            shares: &[(1, &[], &[(0, &[FRESH]), (1, &[FRESH])])],
            ..SMALL
        },
        Err(Fault::DoubleHeader(0)),
    ),
    (
        "a cached element that is common too",
        Shown {
            shares: &[(1, &[1], &[(0, &[FRESH])])],
            ..SMALL
        },
        Err(Fault::Doubled(1)),
    ),
    (
        "an element that is nowhere",
        Shown {
            shares: &[(1, &[], &[])],
            ..SMALL
        },
        Err(Fault::Lost(0)),
    ),
    (
        "a count above the holds",
        Shown {
            counts: &[2, 1, 1],
            ..SMALL
        },
        Err(Fault::BadCount {
            elem: 0,
            word: 2,
            holds: 1,
        }),
    ),
    (
        "a link that no walk meets says nothing",
        Shown {
            links: &[9, 3, 0],
            ..SMALL
        },
        Ok(SMALL_PLACES),
    ),
    (
        "of two faults the first is told",
        Shown {
            length: 3,
            shares: &[(1, &[], &[])],
            ..SMALL
        },
        Err(Fault::BadLength { word: 3, found: 2 }),
    ),
];
