//! Statements as data, with the texts that are printed for them.

use super::{Places, StatementRow};
use commons::packet::Seg;
use pool_statement::statement::Holder;

/// A segment of a fresh packet.
const FRESH: Seg = Seg {
    elem: 1,
    base: None,
    data_off: 128,
    data_len: 0,
    buf_len: 2_048,
};

pub(super) const ROWS: &[StatementRow] = &[
    // A pool of three elements, of which worker 1 has one in a packet.
    (
        "a pool of three prints line by line",
        Places {
            population: 3,
            available: 2,
            in_use: 1,
            common: &[0, 2],
            caches: &[&[]],
            packets: &[(1, 1, &[FRESH])],
            desks: &[],
            held: &[(1, 1, &[Holder::Worker(1)])],
        },
        "population 3\navailable 2\nin use 1\ncommon 2: 0 2\ncache 1 0:\n\
        packet 1 1 segs 1 len 0: 1@128+0/2048\nheld 1 count 1: 1\n",
    ),
    // Two workers with caches, an indirect segment, and a packet on a desk.
    (
        "an indirect segment and a desk print in their places",
        Places {
            population: 18_446_744_073_709_551_615,
            available: 4,
            in_use: 3,
            common: &[],
            caches: &[&[0, 1, 2, 4], &[]],
            packets: &[(
                2,
                255,
                &[
                    Seg {
                        elem: 3,
                        data_len: 60_000,
                        ..FRESH
                    },
                    Seg {
                        elem: 5,
                        base: Some(3),
                        data_off: 4,
                        data_len: 60_000,
                        ..FRESH
                    },
                ],
            )],
            desks: &[(
                7,
                &[Seg {
                    elem: 65_533,
                    data_len: 9,
                    ..FRESH
                }],
            )],
            held: &[
                (3, 2, &[Holder::Worker(2), Holder::Desk(0)]),
                (65_533, 1, &[Holder::Desk(7)]),
            ],
        },
        "population 18446744073709551615\navailable 4\nin use 3\ncommon 0:\n\
        cache 1 4: 0 1 2 4\ncache 2 0:\n\
        packet 2 255 segs 2 len 120000: 3@128+60000/2048 5>3@4+60000/2048\n\
        desk 7 segs 1 len 9: 65533@128+9/2048\n\
        held 3 count 2: 2 d0\nheld 65533 count 1: d7\n",
    ),
    (
        "an empty statement prints its totals",
        Places {
            population: 0,
            available: 0,
            in_use: 0,
            common: &[],
            caches: &[],
            packets: &[],
            desks: &[],
            held: &[],
        },
        "population 0\navailable 0\nin use 0\ncommon 0:\n",
    ),
];
