//! Steps each of which breaks one condition.

use super::RefusedRow;
use crate::acts::Act;
use crate::acts::Act::*;
use crate::schedules::{SPENT, TWO};
use commons::limits::Limits;

/// A number whose low 32 bits are 0.
const PAST_32_BITS: u64 = 4_294_967_296;

/// Worker 1 gets element 0.
const GOT: &[(u32, Act)] = &[
    (1, Reserve(3, 1)),
    (1, LoadHead),
    (1, LoadLink(0)),
    (1, Cut),
];

pub(super) const STACK: &[RefusedRow] = &[
    (
        "a new world",
        TWO,
        &[],
        &[],
        &[
            (0, LoadLength),
            (3, LoadLength),
            (1, Reserve(3, 0)),
            (1, Reserve(3, 4)),
            (1, Add(0)),
            (1, Add(1)),
            (1, LoadLink(0)),
            (1, Cut),
            (1, StoreLink(0, None)),
            (1, Push),
        ],
    ),
    (
        "nothing is walked",
        TWO,
        &[],
        &[(1, Reserve(3, 1)), (1, LoadHead)],
        &[
            (1, LoadLink(1)),
            (1, LoadLink(3)),
            (1, LoadLink(PAST_32_BITS)),
            (1, LoadLink(u64::MAX)),
            (1, Cut),
            (1, Push),
            (2, LoadLink(0)),
            (2, Cut),
            (1, Add(2)),
            (2, Add(1)),
        ],
    ),
    (
        "more is walked than is reserved",
        TWO,
        &[],
        &[
            (1, Reserve(3, 1)),
            (1, LoadHead),
            (1, LoadLink(0)),
            (1, LoadLink(1)),
        ],
        &[(1, Cut), (1, LoadLink(1))],
    ),
    (
        "the count is spent before a cut",
        Limits {
            start_count: SPENT,
            ..TWO
        },
        &[],
        &[(1, Reserve(3, 1)), (1, LoadHead), (1, LoadLink(0))],
        &[(1, Cut)],
    ),
    (
        "the count is spent before a push",
        Limits {
            start_count: SPENT - 1,
            ..TWO
        },
        GOT,
        &[(1, LoadHead), (1, StoreLink(0, Some(1)))],
        &[(1, Push)],
    ),
    (
        "what may be stored",
        TWO,
        GOT,
        &[],
        &[
            (1, StoreLink(1, None)),
            (1, StoreLink(3, None)),
            (1, StoreLink(PAST_32_BITS, None)),
            (1, StoreLink(0, Some(3))),
            (1, StoreLink(0, Some(PAST_32_BITS))),
            (1, StoreLink(0, Some(u64::MAX))),
            (2, StoreLink(0, None)),
        ],
    ),
    (
        "a chain that doesn't end at the top",
        TWO,
        GOT,
        &[(1, LoadHead), (1, StoreLink(0, None))],
        &[(1, Push), (2, Push)],
    ),
    (
        "a chain without a look",
        TWO,
        GOT,
        &[(1, StoreLink(0, Some(1)))],
        &[(1, Push)],
    ),
];

pub(super) const COUNTS: &[RefusedRow] = &[
    (
        "nothing is in the hand, and nothing held",
        TWO,
        &[],
        &[],
        &[
            (1, Claim(0)),
            (1, Claim(3)),
            (1, Claim(PAST_32_BITS)),
            (1, Claim(u64::MAX)),
            (1, Sole(0)),
            (1, SoleFree(0)),
            (1, Raise(0, 1)),
            (1, Lower(0)),
            (1, Reset(0)),
        ],
    ),
    (
        "in the hand",
        TWO,
        GOT,
        &[],
        &[
            (1, Sole(0)),
            (1, SoleFree(0)),
            (1, Raise(0, 1)),
            (1, Lower(0)),
            (1, Reset(0)),
            (1, Claim(1)),
            (1, Claim(PAST_32_BITS)),
            (2, Claim(0)),
        ],
    ),
    (
        "held",
        TWO,
        GOT,
        &[(1, Claim(0))],
        &[
            (1, Claim(0)),
            (1, Reset(0)),
            (1, StoreLink(0, None)),
            (1, Raise(0, 65_535)),
            (1, Lower(PAST_32_BITS)),
            (2, Lower(0)),
            (2, Sole(0)),
            (2, Raise(0, 1)),
        ],
    ),
    (
        "at the reference limit",
        Limits {
            ref_limit: 1,
            ..TWO
        },
        GOT,
        &[(1, Claim(0))],
        &[(1, Raise(0, 1))],
    ),
    (
        "a count of 0 for the moment",
        TWO,
        GOT,
        &[(1, Claim(0)), (1, Lower(0))],
        &[
            (1, Claim(0)),
            (1, StoreLink(0, None)),
            (1, Lower(0)),
            (1, Sole(0)),
            (1, Raise(0, 0)),
            (2, Reset(0)),
        ],
    ),
];

/// Three elements, two workers and two desks.
const DESKED: Limits = Limits { desks: 2, ..TWO };

pub(super) const DESKS: &[RefusedRow] = &[
    (
        "no desk in work",
        DESKED,
        &[],
        &[],
        &[
            (1, Hold(2)),
            (1, Hold(u32::MAX)),
            (1, PutIn(0, 0, None)),
            (1, Open(0)),
            (1, Seize(2)),
            (1, TakeOut(0)),
            (1, Clear(0)),
        ],
    ),
    (
        "to be filled",
        DESKED,
        &[],
        &[(1, Hold(0))],
        &[
            (1, Hold(0)),
            (1, Hold(1)),
            (1, Seize(1)),
            (1, Open(0)),
            (1, TakeOut(0)),
            (1, Clear(0)),
            (1, PutIn(1, 0, None)),
            (1, PutIn(0, 3, None)),
            (1, PutIn(0, 0, Some(3))),
            (2, PutIn(0, 0, None)),
        ],
    ),
    (
        "filled with what isn't held",
        DESKED,
        &[],
        &[(1, Hold(0)), (1, PutIn(0, 0, None))],
        &[
            (1, Open(0)),
            (1, PutIn(0, 0, None)),
            (1, TakeOut(0)),
            (1, Clear(0)),
            (2, Open(0)),
        ],
    ),
    (
        "filled with what is held once and asked for twice",
        DESKED,
        GOT,
        &[(1, Claim(0)), (1, Hold(0)), (1, PutIn(0, 0, Some(0)))],
        &[(1, Open(0))],
    ),
    (
        "seized",
        DESKED,
        GOT,
        &[
            (1, Claim(0)),
            (1, Hold(0)),
            (1, PutIn(0, 0, None)),
            (1, Open(0)),
            (2, Seize(0)),
        ],
        &[
            (1, Lower(0)),
            (2, Clear(0)),
            (2, Open(0)),
            (2, PutIn(0, 0, None)),
            (2, Hold(1)),
            (2, Seize(0)),
            (1, TakeOut(0)),
        ],
    ),
    (
        "taken out",
        DESKED,
        GOT,
        &[
            (1, Claim(0)),
            (1, Hold(0)),
            (1, PutIn(0, 0, None)),
            (1, Open(0)),
            (2, Seize(0)),
            (2, TakeOut(0)),
        ],
        &[
            (2, TakeOut(0)),
            (2, Open(0)),
            (2, PutIn(0, 0, None)),
            (1, Clear(0)),
        ],
    ),
];
