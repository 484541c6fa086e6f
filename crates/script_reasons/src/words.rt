//! The words of a line, each with its column.

ghost use Rattle.std.specs.Prelude.{◌≡◌, ◌<◌, IfSome, length};

use crate::reason::{Explanation, Reason};
use script_text::line::next_word;

/// A word, and the column in which it begins, from 1.
#[derive(Clone, Copy)]
pub(crate) struct Word<'a> {
    pub column: usize,
    pub text: &'a [u8],
}

/// A column, from 1, and what is wrong there.
#[derive(Clone, Copy)]
pub(crate) struct Wrong<'a> {
    pub column: usize,
    pub reason: Reason<'a>,
}

impl<'a> Wrong<'a> {
    /// The explanation that this is wrong in the line with this number.
    pub(crate) fn at(self, line: u32) -> Explanation<'a>
        ensures { result.line ≡ line }
    {
        Explanation {
            line,
            column: self.column,
            reason: self.reason,
        }
    }
}

impl<'a> Word<'a> {
    /// This is wrong with the word.
    pub(crate) fn is(self, reason: Reason<'a>) -> Wrong<'a> {
        Wrong {
            column: self.column,
            reason,
        }
    }
}

/// The words of a line that are left.
#[derive(Clone, Copy)]
pub(crate) struct Words<'a> {
    line: &'a [u8],
    rest: &'a [u8],
}

impl<'a> Words<'a> {
    /// All words of a line.
    pub(crate) fn of(line: &'a [u8]) -> Words<'a> {
        Words { line, rest: line }
    }

    /// The next word, and the words behind it.
    pub(crate) fn next(self) -> Option<(Word<'a>, Words<'a>)>
        ensures { IfSome result (λ found. length found.1.rest.now < length self.entry.rest.now) }
    {
        let (text, rest) = next_word(self.rest)?;
        let behind = Words {
            line: self.line,
            rest,
        };
        let column = behind.end().saturating_sub(text.len());
        Some((Word { column, text }, behind))
    }

    /// The column behind the last word that was taken.
    pub(crate) fn end(self) -> usize {
        self.line
            .len()
            .saturating_sub(self.rest.len())
            .saturating_add(1)
    }

    /// This is wrong behind the last word that was taken.
    pub(crate) fn lack(self, reason: Reason<'a>) -> Wrong<'a> {
        Wrong {
            column: self.end(),
            reason,
        }
    }
}
