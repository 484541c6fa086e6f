//! Head words.

/// The greatest count.
const SPENT: u64 = 1_099_511_627_775;

/// A top, a count and their word.
pub(super) const WORDS: &[(Option<u32>, u64, u64)] = &[
    (None, 0, 0),
    (Some(0), 0, 1),
    (Some(0), 2, 33_554_433),
    (None, 1, 16_777_216),
    (Some(16_777_213), SPENT, 18_446_744_073_709_551_614),
    (Some(16_777_213), 0, 16_777_214),
    (Some(65_534), 1, 16_842_751),
    (None, SPENT, 18_446_744_073_692_774_400),
];

/// Words whose low 24 bits are all ones.
pub(super) const NO_HEADS: &[u64] = &[16_777_215, 33_554_431, 18_446_744_073_709_551_615];

/// A count and the next.
pub(super) const COUNTS: &[(u64, Option<u64>)] = &[
    (0, Some(1)),
    (16_777_215, Some(16_777_216)),
    (SPENT - 1, Some(SPENT)),
    (SPENT, None),
];
