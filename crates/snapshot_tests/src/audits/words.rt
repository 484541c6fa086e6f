//! Every snapshot that differs from a lawful one in one word: the top, the length, a link or a
//! count.

use self::Answer::{BadTop, Doubled, Holds, Lawful, Loop, Walked};
use super::shown::{FRESH, ONE, Places, Shown, Word};
use super::vectors::{SMALL, SMALL_PLACES};
use commons::limits::Limits;
use commons::packet::Seg;
use pool_statement::statement::Holder;
use snapshot::fault::Fault;

/// What is answered where a word is another.
#[derive(Clone, Copy)]
pub(super) enum Answer {
    /// The statement is that of the lawful snapshot.
    Lawful,
    /// This word is met, which names no element of the pool.
    BadTop(u32),
    /// The walk has no end.
    Loop,
    /// The walk has this many elements, and the length word says another number.
    Walked(u64),
    /// This element has two places.
    Doubled(u32),
    /// The element has this many holds, and the word, its count, says another number.
    Holds(u64),
}

/// A lawful snapshot with its places, the values that each word takes in turn, and for each word
/// the answers.
pub(super) struct Pool {
    pub name: &'static str,
    pub shown: Shown,
    pub places: Places,
    pub values: &'static [u32],
    pub words: &'static [(Word, &'static [Answer])],
}

/// Element 0 is common, and 1 in the cache of worker 2.
const CACHED: Shown = Shown {
    limits: Limits {
        population: 2,
        workers: 2,
        desks: 1,
        ..ONE
    },
    top: 1,
    length: 1,
    links: &[0, 1],
    counts: &[1, 1],
    desks: &[None],
    shares: &[(1, &[], &[]), (2, &[1], &[])],
    places: &[],
    guests: &[],
    foreign: false,
};

const CACHED_PLACES: Places = Places {
    population: 2,
    available: 2,
    in_use: 0,
    common: &[0],
    caches: &[&[], &[1]],
    packets: &[],
    desks: &[],
    held: &[],
};

const CLONE: Seg = Seg {
    elem: 1,
    base: Some(0),
    ..FRESH
};

/// Elements 3 and 2 are common, 0 is on a desk, and 1 is its clone, of worker 2.
const CLONED: Shown = Shown {
    limits: Limits {
        population: 4,
        workers: 2,
        desks: 1,
        ..ONE
    },
    top: 4,
    length: 2,
    links: &[7, 0, 0, 3],
    counts: &[2, 1, 1, 1],
    desks: &[Some(&[FRESH])],
    shares: &[(1, &[], &[]), (2, &[], &[(7, &[CLONE])])],
    places: &[],
    guests: &[],
    foreign: false,
};

const CLONED_PLACES: Places = Places {
    population: 4,
    available: 2,
    in_use: 2,
    common: &[3, 2],
    caches: &[&[], &[]],
    packets: &[(2, 7, &[CLONE])],
    desks: &[(0, &[FRESH])],
    held: &[
        (0, 2, &[Holder::Worker(2), Holder::Desk(0)]),
        (1, 1, &[Holder::Worker(2)]),
    ],
};

const OF_SMALL: &[(Word, &[Answer])] = &[
    (
        Word::Top,
        &[
            Walked(0),
            Walked(3),
            Lawful,
            Walked(1),
            BadTop(4),
            BadTop(5),
            BadTop(u32::MAX),
        ],
    ),
    (
        Word::Length,
        &[
            Walked(2),
            Walked(2),
            Lawful,
            Walked(2),
            Walked(2),
            Walked(2),
            Walked(2),
        ],
    ),
    (
        Word::Link(0),
        &[Lawful, Lawful, Lawful, Lawful, Lawful, Lawful, Lawful],
    ),
    (
        Word::Link(1),
        &[
            Walked(1),
            Loop,
            Loop,
            Lawful,
            BadTop(4),
            BadTop(5),
            BadTop(u32::MAX),
        ],
    ),
    (
        Word::Link(2),
        &[
            Lawful,
            Loop,
            Loop,
            Loop,
            BadTop(4),
            BadTop(5),
            BadTop(u32::MAX),
        ],
    ),
    (
        Word::Count(0),
        &[
            Holds(1),
            Lawful,
            Holds(1),
            Holds(1),
            Holds(1),
            Holds(1),
            Holds(1),
        ],
    ),
    (
        Word::Count(1),
        &[
            Holds(0),
            Lawful,
            Holds(0),
            Holds(0),
            Holds(0),
            Holds(0),
            Holds(0),
        ],
    ),
    (
        Word::Count(2),
        &[
            Holds(0),
            Lawful,
            Holds(0),
            Holds(0),
            Holds(0),
            Holds(0),
            Holds(0),
        ],
    ),
];

const OF_CACHED: &[(Word, &[Answer])] = &[
    (
        Word::Top,
        &[
            Walked(0),
            Lawful,
            Walked(2),
            BadTop(3),
            BadTop(4),
            BadTop(u32::MAX),
        ],
    ),
    (
        Word::Length,
        &[
            Walked(1),
            Lawful,
            Walked(1),
            Walked(1),
            Walked(1),
            Walked(1),
        ],
    ),
    (
        Word::Link(0),
        &[Lawful, Loop, Loop, BadTop(3), BadTop(4), BadTop(u32::MAX)],
    ),
    (
        Word::Link(1),
        &[Lawful, Lawful, Lawful, Lawful, Lawful, Lawful],
    ),
    (
        Word::Count(0),
        &[Holds(0), Lawful, Holds(0), Holds(0), Holds(0), Holds(0)],
    ),
    (
        Word::Count(1),
        &[Holds(0), Lawful, Holds(0), Holds(0), Holds(0), Holds(0)],
    ),
];

const OF_CLONED: &[(Word, &[Answer])] = &[
    (
        Word::Top,
        &[
            Walked(0),
            BadTop(7),
            Walked(1),
            Walked(1),
            Lawful,
            BadTop(5),
            BadTop(6),
            BadTop(u32::MAX),
        ],
    ),
    (
        Word::Length,
        &[
            Walked(2),
            Walked(2),
            Lawful,
            Walked(2),
            Walked(2),
            Walked(2),
            Walked(2),
            Walked(2),
        ],
    ),
    (
        Word::Link(0),
        &[
            Lawful, Lawful, Lawful, Lawful, Lawful, Lawful, Lawful, Lawful,
        ],
    ),
    (
        Word::Link(1),
        &[
            Lawful, Lawful, Lawful, Lawful, Lawful, Lawful, Lawful, Lawful,
        ],
    ),
    (
        Word::Link(2),
        &[
            Lawful,
            BadTop(7),
            Walked(3),
            Loop,
            Loop,
            BadTop(5),
            BadTop(6),
            BadTop(u32::MAX),
        ],
    ),
    (
        Word::Link(3),
        &[
            Walked(1),
            BadTop(7),
            Doubled(1),
            Lawful,
            Loop,
            BadTop(5),
            BadTop(6),
            BadTop(u32::MAX),
        ],
    ),
    (
        Word::Count(0),
        &[
            Holds(2),
            Holds(2),
            Lawful,
            Holds(2),
            Holds(2),
            Holds(2),
            Holds(2),
            Holds(2),
        ],
    ),
    (
        Word::Count(1),
        &[
            Holds(1),
            Lawful,
            Holds(1),
            Holds(1),
            Holds(1),
            Holds(1),
            Holds(1),
            Holds(1),
        ],
    ),
    (
        Word::Count(2),
        &[
            Holds(0),
            Lawful,
            Holds(0),
            Holds(0),
            Holds(0),
            Holds(0),
            Holds(0),
            Holds(0),
        ],
    ),
    (
        Word::Count(3),
        &[
            Holds(0),
            Lawful,
            Holds(0),
            Holds(0),
            Holds(0),
            Holds(0),
            Holds(0),
            Holds(0),
        ],
    ),
];

pub(super) const POOLS: &[Pool] = &[
    Pool {
        name: "one worker with a packet",
        shown: SMALL,
        places: SMALL_PLACES,
        values: &[0, 1, 2, 3, 4, 5, u32::MAX],
        words: OF_SMALL,
    },
    Pool {
        name: "two workers, one with a cache",
        shown: CACHED,
        places: CACHED_PLACES,
        values: &[0, 1, 2, 3, 4, u32::MAX],
        words: OF_CACHED,
    },
    Pool {
        name: "a packet on a desk and its clone",
        shown: CLONED,
        places: CLONED_PLACES,
        values: &[0, 1, 2, 3, 4, 5, 6, u32::MAX],
        words: OF_CLONED,
    },
];

/// What is answered where a word has this value.
pub(super) fn wanted(pool: &Pool, word: Word, value: u32, answer: Answer) -> Result<Places, Fault> {
    match answer {
        Answer::Lawful => Ok(pool.places),
        Answer::BadTop(met) => Err(Fault::BadTop(met)),
        Answer::Loop => Err(Fault::Loop),
        Answer::Walked(found) => Err(Fault::BadLength {
            word: length(pool, word, value),
            found,
        }),
        Answer::Doubled(elem) => Err(Fault::Doubled(elem)),
        Answer::Holds(holds) => Err(bad_count(word, value, holds)),
    }
}

/// The length word where a word has this value.
fn length(pool: &Pool, word: Word, value: u32) -> u64 {
    match word {
        Word::Length => u64::from(value),
        _ => pool.shown.length,
    }
}

/// The fault of a count that has this value, and this many holds; of another word there is none.
fn bad_count(word: Word, value: u32, holds: u64) -> Fault {
    match word {
        Word::Count(elem) => Fault::BadCount {
            elem,
            word: value,
            holds,
        },
        _ => Fault::BadShape,
    }
}
