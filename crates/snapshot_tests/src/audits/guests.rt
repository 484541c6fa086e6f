//! Snapshots of two pools, of which one has the bases of the other's packets, and what is wrong
//! once one thing of them is changed.

use super::Row;
use super::shown::{FRESH, ONE, Places, Shown};
use commons::limits::Limits;
use commons::packet::Seg;
use pool_statement::guest::Guest;
use pool_statement::statement::Holder;
use snapshot::fault::Fault;

/// Elements 1 to 3 are common, and worker 1 holds element 0 for a packet of another pool.
const FIRST: Shown = Shown {
    limits: Limits {
        population: 4,
        desks: 1,
        ..ONE
    },
    top: 2,
    length: 3,
    links: &[0, 3, 4, 0],
    counts: &[1, 1, 1, 1],
    desks: &[None],
    shares: &[(1, &[], &[])],
    places: &[],
    guests: &[Guest { worker: 1, elem: 0 }],
    foreign: false,
};

const FIRST_PLACES: Places = Places {
    population: 4,
    available: 3,
    in_use: 1,
    common: &[1, 2, 3],
    caches: &[&[]],
    packets: &[],
    desks: &[],
    held: &[(0, 1, &[Holder::Worker(1)])],
};

/// The clone that holds it: a segment of 100 bytes of element 0 of its own pool.
const CLONE: Seg = Seg {
    base: Some(0),
    data_len: 100,
    ..FRESH
};

/// That packet's pool: element 1 is common.
const SECOND: Shown = Shown {
    limits: Limits {
        population: 2,
        buf: 0,
        ..ONE
    },
    top: 2,
    length: 1,
    links: &[0, 0],
    counts: &[1, 1],
    desks: &[],
    shares: &[(1, &[], &[(0, &[CLONE])])],
    places: &[],
    guests: &[],
    foreign: true,
};

const SECOND_PLACES: Places = Places {
    population: 2,
    available: 1,
    in_use: 1,
    common: &[1],
    caches: &[&[]],
    packets: &[(1, 0, &[CLONE])],
    desks: &[],
    held: &[(0, 1, &[Holder::Worker(1)])],
};

/// As many as a worker may have.
const FULL: &[Guest] = &[Guest { worker: 1, elem: 0 }; 8_192];

/// And one more.
const MANY: &[Guest] = &[Guest { worker: 1, elem: 0 }; 8_193];

/// The rows. Two tests name them by this function, so that the table is proved once.
pub(super) fn rows() -> &'static [Row] {
    ROWS
}

const ROWS: &[Row] = &[
    ("a guest is held by its worker", FIRST, Ok(FIRST_PLACES)),
    (
        "a guest is one hold more",
        Shown {
            shares: &[(1, &[], &[(0, &[FRESH])])],
            ..FIRST
        },
        Err(Fault::BadCount {
            elem: 0,
            word: 1,
            holds: 2,
        }),
    ),
    (
        "and is counted beside the packets",
        Shown {
            counts: &[2, 1, 1, 1],
            shares: &[(1, &[], &[(0, &[FRESH])])],
            ..FIRST
        },
        Ok(Places {
            packets: &[(1, 0, &[FRESH])],
            held: &[(0, 2, &[Holder::Worker(1), Holder::Worker(1)])],
            ..FIRST_PLACES
        }),
    ),
    (
        "holders ascend, whatever the order of the guests",
        Shown {
            limits: Limits {
                population: 4,
                workers: 2,
                desks: 1,
                ..ONE
            },
            counts: &[4, 1, 1, 1],
            desks: &[Some(&[FRESH])],
            shares: &[(1, &[], &[]), (2, &[], &[])],
            guests: &[
                Guest { worker: 2, elem: 0 },
                Guest { worker: 1, elem: 0 },
                Guest { worker: 2, elem: 0 },
            ],
            ..FIRST
        },
        Ok(Places {
            caches: &[&[], &[]],
            desks: &[(0, &[FRESH])],
            held: &[(
                0,
                4,
                &[
                    Holder::Worker(1),
                    Holder::Worker(2),
                    Holder::Worker(2),
                    Holder::Desk(0),
                ],
            )],
            ..FIRST_PLACES
        }),
    ),
    (
        "without its guest an element is nowhere",
        Shown {
            guests: &[],
            ..FIRST
        },
        Err(Fault::Lost(0)),
    ),
    (
        "a guest that is common",
        Shown {
            guests: &[Guest { worker: 1, elem: 0 }, Guest { worker: 1, elem: 2 }],
            ..FIRST
        },
        Err(Fault::Doubled(2)),
    ),
    (
        "a guest that the pool doesn't have",
        Shown {
            guests: &[Guest { worker: 1, elem: 0 }, Guest { worker: 1, elem: 4 }],
            ..FIRST
        },
        Err(Fault::BadElem(4)),
    ),
    (
        "of strangers the least is told, and it is a guest",
        Shown {
            shares: &[(1, &[9], &[])],
            guests: &[
                Guest { worker: 1, elem: 7 },
                Guest { worker: 1, elem: 5 },
                Guest { worker: 1, elem: 6 },
            ],
            ..FIRST
        },
        Err(Fault::BadElem(5)),
    ),
    (
        "of strangers the least is told, and a cache has it",
        Shown {
            shares: &[(1, &[5], &[])],
            guests: &[Guest { worker: 1, elem: 7 }],
            ..FIRST
        },
        Err(Fault::BadElem(5)),
    ),
    (
        "a guest of a worker that the pool doesn't have",
        Shown {
            guests: &[Guest { worker: 2, elem: 0 }],
            ..FIRST
        },
        Err(Fault::BadShape),
    ),
    (
        "a guest of nobody",
        Shown {
            guests: &[Guest { worker: 0, elem: 0 }],
            ..FIRST
        },
        Err(Fault::BadShape),
    ),
    (
        "one guest too many",
        Shown {
            guests: MANY,
            ..FIRST
        },
        Err(Fault::BadShape),
    ),
    (
        "and as many as may be",
        Shown {
            guests: FULL,
            ..FIRST
        },
        Err(Fault::BadCount {
            elem: 0,
            word: 1,
            holds: 8_192,
        }),
    ),
    (
        "a foreign base is no element of the pool",
        SECOND,
        Ok(SECOND_PLACES),
    ),
    (
        "whatever its number",
        Shown {
            shares: &[(
                1,
                &[],
                &[(
                    0,
                    &[Seg {
                        base: Some(77),
                        ..CLONE
                    }],
                )],
            )],
            ..SECOND
        },
        Ok(Places {
            packets: &[(
                1,
                0,
                &[Seg {
                    base: Some(77),
                    ..CLONE
                }],
            )],
            ..SECOND_PLACES
        }),
    ),
    (
        "where it isn't foreign it is a second hold",
        Shown {
            foreign: false,
            ..SECOND
        },
        Err(Fault::BadCount {
            elem: 0,
            word: 1,
            holds: 2,
        }),
    ),
    (
        "one that is common in this pool says nothing",
        Shown {
            shares: &[(
                1,
                &[],
                &[(
                    0,
                    &[Seg {
                        base: Some(1),
                        ..CLONE
                    }],
                )],
            )],
            ..SECOND
        },
        Ok(Places {
            packets: &[(
                1,
                0,
                &[Seg {
                    base: Some(1),
                    ..CLONE
                }],
            )],
            ..SECOND_PLACES
        }),
    ),
    (
        "but where it isn't foreign",
        Shown {
            shares: &[(
                1,
                &[],
                &[(
                    0,
                    &[Seg {
                        base: Some(1),
                        ..CLONE
                    }],
                )],
            )],
            foreign: false,
            ..SECOND
        },
        Err(Fault::Doubled(1)),
    ),
    (
        "an own element counts, foreign bases or not",
        Shown {
            counts: &[2, 1],
            ..SECOND
        },
        Err(Fault::BadCount {
            elem: 0,
            word: 2,
            holds: 1,
        }),
    ),
    (
        "a packet with a foreign base is a packet all the same",
        Shown {
            shares: &[(
                1,
                &[],
                &[(
                    0,
                    &[Seg {
                        data_len: 1_921,
                        ..CLONE
                    }],
                )],
            )],
            ..SECOND
        },
        Err(Fault::BadPacket),
    ),
];
