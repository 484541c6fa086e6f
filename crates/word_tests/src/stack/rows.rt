//! The rows of one worker.

use super::{Row, Turn};
use commons::limits::{Limits, PutRule};
use commons::refusal::Refusal;

/// The limits of a pool of three.
pub(super) const THREE: Limits = Limits {
    population: 3,
    cache: 0,
    workers: 1,
    desks: 0,
    buf: 2_048,
    ref_limit: 65_535,
    tries: 64,
    start_count: 0,
    put_rule: PutRule::Keep,
};

pub(super) const ROWS: &[Row] = &[
    Row {
        name: "lists there and back",
        limits: THREE,
        turns: &[Turn::Back(&[0, 1], Ok(())), Turn::Get(&[1, 0, 2])],
    },
    Row {
        name: "count spent on words",
        limits: Limits {
            start_count: 1_099_511_627_774,
            ..THREE
        },
        turns: &[
            Turn::Back(&[0], Err(Refusal::HeadSpent)),
            Turn::Refused(1, Refusal::HeadSpent),
            Turn::Refused(3, Refusal::NoEntries),
            Turn::Count(2),
        ],
    },
];
