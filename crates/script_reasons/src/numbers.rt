//! Numbers, and what is wrong with a word that spells none or one out of its range.

use crate::reason::{Reason, WordFault};
use crate::words::{Word, Wrong};
use script_text::number::{MAX_DIGITS, digit_of, number_of};

/// The number that a word spells.
pub(crate) fn number_in<'a>(word: Word<'a>) -> Result<u64, Wrong<'a>> {
    match number_of(word.text) {
        Some(number) => Ok(number),
        None => Err(word.is(Reason::Word(number_fault(word.text), word.text))),
    }
}

/// Why a word spells no number.
pub(crate) fn number_fault(word: &[u8]) -> WordFault {
    if word.is_empty() || word.iter().any(|byte| digit_of(*byte).is_none()) {
        WordFault::NotDecimal
    } else if word.len() > MAX_DIGITS {
        WordFault::LongNumber
    } else {
        WordFault::LargeNumber
    }
}

/// The range of a number, and what it is a number of.
#[derive(Clone, Copy)]
pub(crate) struct Range {
    pub what: &'static str,
    pub least: u64,
    pub most: u64,
}

impl Range {
    /// Why a number isn't in the range.
    pub(crate) fn fault<'a>(self, value: u64) -> Option<Reason<'a>> {
        if value < self.least {
            Some(Reason::Below {
                what: self.what,
                value,
                least: self.least,
            })
        } else if self.most < value {
            Some(Reason::Above {
                what: self.what,
                value,
                most: self.most,
            })
        } else {
            None
        }
    }
}

/// The number in a range that a word spells.
pub(crate) fn number_within<'a>(range: Range, word: Word<'a>) -> Result<u64, Wrong<'a>> {
    let value = number_in(word)?;
    match range.fault(value) {
        None => Ok(value),
        Some(reason) => Err(word.is(reason)),
    }
}
