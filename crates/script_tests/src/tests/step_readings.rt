//! Texts that are scripts of steps, with the limits and the steps that are read.

use super::{DEFAULTS, ReadRow};
use commons::limits::Limits;

const OF_NINE: Limits = Limits {
    population: 9,
    ..DEFAULTS
};

pub(super) const ROWS: &[ReadRow] = &[
    (
        "the steps of the stack are read",
        "pool 9\nloadlength\nreserve 9 1\nloadhead\nloadlink 0\ncut\nstorelink 0 -\nstorelink 1 0\n\
        push\nadd 1\n",
        OF_NINE,
        None,
        "2 1 LoadLength; 3 1 Reserve { old: 9, n: 1 }; 4 1 LoadHead; \
        5 1 LoadLink { element: Some(0) }; 6 1 Cut; \
        7 1 StoreLink { element: Some(0), next: None }; \
        8 1 StoreLink { element: Some(1), next: Some(0) }; 9 1 Push; 10 1 Add { n: 1 }; ",
    ),
    (
        "the steps of counts are read",
        "pool 9 workers 2\nclaim 3\nsole 3\nsolefree 3\nraise 3 1\n2: lower 3\n 2:  reset 3 \n",
        Limits {
            workers: 2,
            ..OF_NINE
        },
        None,
        "2 1 Claim { element: Some(3) }; 3 1 Sole { element: Some(3), free: false }; \
        4 1 Sole { element: Some(3), free: true }; 5 1 Raise { element: Some(3), old: 1 }; \
        6 2 Lower { element: Some(3) }; 7 2 Reset { element: Some(3) }; ",
    ),
    (
        "the steps of desks are read",
        "pool 9\nhold 65535\nputin 0 3\n# the base of 4 is 7\nputin 1 4>7 007 2\nopen 1\nseize 1\n\
        takeout 1\nclear 1\n",
        OF_NINE,
        None,
        "2 1 Hold { desk: 65535 }; \
        3 1 PutIn { desk: 0, segments: Seq { items: [StepSegment { element: 3, base: None }] } }; \
        5 1 PutIn { desk: 1, segments: Seq { items: [StepSegment { element: 4, base: Some(7) }, \
        StepSegment { element: 7, base: None }, StepSegment { element: 2, base: None }] } }; \
        6 1 Open { desk: 1 }; 7 1 Seize { desk: 1 }; 8 1 TakeOut { desk: 1 }; \
        9 1 Clear { desk: 1 }; ",
    ),
    // Such a step is refused when it is played.
    (
        "the end and any number below 2^64 are read as an element",
        "pool 9\nloadlink -\nclaim 18446744073709551615\nraise - 18446744073709551615\n\
        reserve 0 0\nputin 64 18446744073709551615>9\n",
        OF_NINE,
        None,
        "2 1 LoadLink { element: None }; 3 1 Claim { element: Some(18446744073709551615) }; \
        4 1 Raise { element: None, old: 18446744073709551615 }; 5 1 Reserve { old: 0, n: 0 }; \
        6 1 PutIn { desk: 64, segments: Seq { items: \
        [StepSegment { element: 18446744073709551615, base: Some(9) }] } }; ",
    ),
];
