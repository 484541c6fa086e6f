//! Steps of several workers, what each answers, and the world afterwards.

use crate::acts::Act::*;
use crate::acts::Told::*;
use crate::acts::{Act, Told};
use commons::limits::{Limits, PutRule};

/// A world after a row's steps: the head's top as a link value and its count, the length word, the
/// common list from the top, each worker's credit, hand, holds and headers, the counts that aren't
/// 1, and each desk's word.
#[derive(Clone, Copy)]
pub struct End {
    pub head: (u32, u64),
    pub length: u64,
    pub common: &'static [u32],
    pub credits: &'static [u64],
    pub hands: &'static [&'static [u32]],
    pub holds: &'static [&'static [u32]],
    pub headers: &'static [&'static [u32]],
    pub counts: &'static [(usize, u32)],
    pub desks: &'static [u64],
}

/// A name, a pool's limits, the steps with their workers and what they answer, and the world
/// afterwards.
pub type Row = (&'static str, Limits, &'static [(u32, Act, Told)], End);

/// Two workers and three elements.
pub const TWO: Limits = Limits {
    population: 3,
    cache: 0,
    workers: 2,
    desks: 0,
    buf: 2048,
    ref_limit: 65_535,
    tries: 64,
    start_count: 0,
    put_rule: PutRule::Keep,
};

/// The count at which a head is spent.
pub const SPENT: u64 = 1_099_511_627_775;

/// Elements 0 and 1 are taken, and put back as a list: 0 is put before 1. The head's top is a link
/// value, the element + 1; a link is too.
pub const LIST: Row = (
    "a list",
    TWO,
    &[
        (1, LoadLength, Value(3)),
        (1, Reserve(3, 2), Won),
        (1, LoadHead, HeadIs(1, 0)),
        (1, LoadLink(0), Value(2)),
        (1, LoadLink(1), Value(3)),
        (1, Cut, Got(&[0, 1])),
        (1, LoadHead, HeadIs(3, 1)),
        (1, StoreLink(0, Some(2)), Done),
        (1, StoreLink(1, Some(0)), Done),
        (1, Push, Won),
        (1, Add(2), Done),
    ],
    End {
        head: (2, 2),
        length: 3,
        common: &[1, 0, 2],
        credits: &[0, 0],
        hands: &[&[], &[]],
        holds: &[&[], &[]],
        headers: &[&[], &[]],
        counts: &[],
        desks: &[],
    },
);

/// Rows of the stack without a refused step.
pub const STACK: &[Row] = &[
    LIST,
    (
        "stale exchange",
        TWO,
        &[
            (1, LoadLength, Value(3)),
            (1, Reserve(3, 1), Won),
            (1, LoadHead, HeadIs(1, 0)),
            (1, LoadLink(0), Value(2)),
            (2, LoadLength, Value(2)),
            (2, Reserve(2, 2), Won),
            (2, LoadHead, HeadIs(1, 0)),
            (2, LoadLink(0), Value(2)),
            (2, LoadLink(1), Value(3)),
            (2, Cut, Got(&[0, 1])),
            (2, LoadHead, HeadIs(3, 1)),
            (2, StoreLink(0, Some(2)), Done),
            (2, Push, Won),
            (1, Cut, LostTo(1, 2)),
        ],
        End {
            head: (1, 2),
            length: 0,
            common: &[0, 2],
            credits: &[1, 1],
            hands: &[&[], &[1]],
            holds: &[&[], &[]],
            headers: &[&[], &[]],
            counts: &[],
            desks: &[],
        },
    ),
    (
        "stopped worker",
        TWO,
        &[
            (1, LoadLength, Value(3)),
            (1, Reserve(3, 1), Won),
            (2, LoadLength, Value(2)),
            (2, Reserve(2, 2), Won),
            (2, LoadHead, HeadIs(1, 0)),
            (2, LoadLink(0), Value(2)),
            (2, LoadLink(1), Value(3)),
            (2, Cut, Got(&[0, 1])),
        ],
        End {
            head: (3, 1),
            length: 0,
            common: &[2],
            credits: &[1, 0],
            hands: &[&[], &[0, 1]],
            holds: &[&[], &[]],
            headers: &[&[], &[]],
            counts: &[],
            desks: &[],
        },
    ),
    (
        "a lost push ends its chain, and the next try stores it again",
        TWO,
        &[
            (1, Reserve(3, 1), Won),
            (1, LoadHead, HeadIs(1, 0)),
            (1, LoadLink(0), Value(2)),
            (1, Cut, Got(&[0])),
            (1, LoadHead, HeadIs(2, 1)),
            (1, StoreLink(0, Some(1)), Done),
            (2, Reserve(2, 1), Won),
            (2, LoadHead, HeadIs(2, 1)),
            (2, LoadLink(1), Value(3)),
            (2, Cut, Got(&[1])),
            (1, Push, LostTo(3, 2)),
            (1, LoadHead, HeadIs(3, 2)),
            (1, StoreLink(0, Some(2)), Done),
            (1, Push, Won),
            (1, Add(1), Done),
        ],
        End {
            head: (1, 3),
            length: 2,
            common: &[0, 2],
            credits: &[0, 0],
            hands: &[&[], &[1]],
            holds: &[&[], &[]],
            headers: &[&[], &[]],
            counts: &[],
            desks: &[],
        },
    ),
    (
        "a chain grows at its front",
        TWO,
        &[
            (1, Reserve(3, 3), Won),
            (1, LoadHead, HeadIs(1, 0)),
            (1, LoadLink(0), Value(2)),
            (1, LoadLink(1), Value(3)),
            (1, LoadLink(2), Value(0)),
            (1, Cut, Got(&[0, 1, 2])),
            (1, StoreLink(2, None), Done),
            (1, StoreLink(0, Some(2)), Done),
            (1, LoadHead, HeadIs(0, 1)),
            (1, Push, Won),
        ],
        End {
            head: (1, 2),
            length: 0,
            common: &[0, 2],
            credits: &[2, 0],
            hands: &[&[1], &[]],
            holds: &[&[], &[]],
            headers: &[&[], &[]],
            counts: &[],
            desks: &[],
        },
    ),
];

/// Rows with a refused step among the others.
pub const REFUSED: &[Row] = &[
    (
        "length lags",
        Limits {
            population: 1,
            ..TWO
        },
        &[
            (1, LoadLength, Value(1)),
            (1, Reserve(1, 1), Won),
            (1, LoadHead, HeadIs(1, 0)),
            (1, LoadLink(0), Value(0)),
            (1, Cut, Got(&[0])),
            (1, LoadHead, HeadIs(0, 1)),
            (1, StoreLink(0, None), Done),
            (1, Push, Won),
            (2, LoadLength, Value(0)),
            (2, Reserve(1, 1), Lost(0)),
            (2, Reserve(0, 1), Refused),
            (1, Add(1), Done),
            (2, Reserve(1, 1), Won),
        ],
        End {
            head: (1, 2),
            length: 0,
            common: &[0],
            credits: &[0, 1],
            hands: &[&[], &[]],
            holds: &[&[], &[]],
            headers: &[&[], &[]],
            counts: &[],
            desks: &[],
        },
    ),
    (
        "spent count in steps",
        Limits {
            population: 2,
            start_count: SPENT,
            ..TWO
        },
        &[
            (1, LoadLength, Value(2)),
            (1, Reserve(2, 1), Won),
            (1, LoadHead, HeadIs(1, SPENT)),
            (1, LoadLink(0), Value(2)),
            (1, Cut, Refused),
            (1, Add(1), Done),
        ],
        End {
            head: (1, SPENT),
            length: 2,
            common: &[0, 1],
            credits: &[0, 0],
            hands: &[&[], &[]],
            holds: &[&[], &[]],
            headers: &[&[], &[]],
            counts: &[],
            desks: &[],
        },
    ),
    (
        "hand-over by steps",
        Limits {
            population: 2,
            desks: 1,
            ..TWO
        },
        &[
            (1, LoadLength, Value(2)),
            (1, Reserve(2, 2), Won),
            (1, LoadHead, HeadIs(1, 0)),
            (1, LoadLink(0), Value(2)),
            (1, LoadLink(1), Value(0)),
            (1, Cut, Got(&[0, 1])),
            (1, Claim(0), Value(1)),
            (1, Claim(1), Value(1)),
            (1, Sole(0), Value(1)),
            (1, Raise(0, 1), Won),
            (1, Hold(0), Won),
            (1, PutIn(0, 1, Some(0)), Done),
            (1, Sole(1), Value(1)),
            (2, Seize(0), Lost(1)),
            (1, Open(0), Done),
            (1, Sole(1), Refused),
            (2, Seize(0), Won),
            (1, Seize(0), Lost(3)),
            (2, TakeOut(0), Found(1, Some(0))),
            (2, Clear(0), Done),
            (1, SoleFree(0), Value(2)),
            (2, SoleFree(0), Value(2)),
            (1, Lower(0), Value(2)),
            (2, Lower(0), Value(1)),
            (2, Reset(0), Done),
        ],
        End {
            head: (0, 1),
            length: 0,
            common: &[],
            credits: &[0, 0],
            hands: &[&[], &[0]],
            holds: &[&[], &[1]],
            headers: &[&[], &[1]],
            counts: &[],
            desks: &[0],
        },
    ),
    (
        "a packet stays on its desk",
        Limits {
            population: 2,
            desks: 2,
            ..TWO
        },
        &[
            (1, LoadLength, Value(2)),
            (1, Reserve(2, 1), Won),
            (1, LoadHead, HeadIs(1, 0)),
            (1, LoadLink(0), Value(2)),
            (1, Cut, Got(&[0])),
            (1, Claim(0), Value(1)),
            (1, Hold(1), Won),
            (2, Hold(1), Lost(1)),
            (1, PutIn(1, 0, None), Done),
            (1, Open(1), Done),
            (2, Hold(1), Lost(2)),
            (2, Seize(0), Lost(0)),
            (2, Hold(2), Refused),
        ],
        End {
            head: (2, 1),
            length: 1,
            common: &[1],
            credits: &[0, 0],
            hands: &[&[], &[]],
            holds: &[&[], &[]],
            headers: &[&[], &[]],
            counts: &[],
            desks: &[0, 2],
        },
    ),
];

/// One worker claims an element, raises its count, and ends its holds.
const HELD_TWICE: &[(u32, Act, Told)] = &[
    (1, Reserve(3, 1), Won),
    (1, LoadHead, HeadIs(1, 0)),
    (1, LoadLink(0), Value(2)),
    (1, Cut, Got(&[0])),
    (1, Claim(0), Value(1)),
    (1, Sole(0), Value(1)),
    (1, Raise(0, 1), Won),
    (1, Raise(0, 1), Lost(2)),
    (1, SoleFree(0), Value(2)),
    (1, Lower(0), Value(2)),
    (1, Lower(0), Value(1)),
    (1, Reset(0), Done),
];

/// The world after that: the element is in the hand, with count 1.
const HELD_NO_MORE: End = End {
    head: (2, 1),
    length: 2,
    common: &[1, 2],
    credits: &[0, 0],
    hands: &[&[0], &[]],
    holds: &[&[], &[]],
    headers: &[&[], &[]],
    counts: &[],
    desks: &[],
};

/// Rows of counts and desks without a refused step.
pub const COUNTS: &[Row] = &[
    (
        "the last hold ends by a lower and a reset",
        TWO,
        HELD_TWICE,
        HELD_NO_MORE,
    ),
    (
        "a sole hold ends by a look",
        TWO,
        &[
            (1, Reserve(3, 1), Won),
            (1, LoadHead, HeadIs(1, 0)),
            (1, LoadLink(0), Value(2)),
            (1, Cut, Got(&[0])),
            (1, Claim(0), Value(1)),
            (1, SoleFree(0), Value(1)),
        ],
        HELD_NO_MORE,
    ),
    (
        "a count is 0 for the moment",
        TWO,
        &[
            (1, Reserve(3, 1), Won),
            (1, LoadHead, HeadIs(1, 0)),
            (1, LoadLink(0), Value(2)),
            (1, Cut, Got(&[0])),
            (1, Claim(0), Value(1)),
            (1, Lower(0), Value(1)),
        ],
        End {
            head: (2, 1),
            length: 2,
            common: &[1, 2],
            credits: &[0, 0],
            hands: &[&[], &[]],
            holds: &[&[], &[]],
            headers: &[&[], &[]],
            counts: &[(0, 0)],
            desks: &[],
        },
    ),
    (
        "a base's last hold passes with the packet",
        Limits {
            population: 2,
            desks: 1,
            ..TWO
        },
        &[
            (1, Reserve(2, 2), Won),
            (1, LoadHead, HeadIs(1, 0)),
            (1, LoadLink(0), Value(2)),
            (1, LoadLink(1), Value(0)),
            (1, Cut, Got(&[0, 1])),
            (1, Claim(0), Value(1)),
            (1, Claim(1), Value(1)),
            (1, Hold(0), Won),
            (1, PutIn(0, 1, Some(0)), Done),
            (1, Open(0), Done),
            (2, Seize(0), Won),
        ],
        End {
            head: (0, 1),
            length: 0,
            common: &[],
            credits: &[0, 0],
            hands: &[&[], &[]],
            holds: &[&[], &[0, 1]],
            headers: &[&[], &[1]],
            counts: &[],
            desks: &[3],
        },
    ),
];

/// A row whose steps grow hands, holds, looks and chains.
pub const FOR_MEMORY: Row = (
    "whichever request is refused",
    TWO,
    HELD_TWICE,
    HELD_NO_MORE,
);
