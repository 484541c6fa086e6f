//! The line with a number, and the first line that isn't skipped.

ghost use Rattle.std.specs.Prelude.{◌≡◌, ◌≤◌, length, MatchOption, None, Some};
ghost use Rattle.script_text.specs.inside.Reading.{parts};
ghost use Rattle.script_reasons.specs.Walks.{first_from};

use crate::reason::{Layout, Reason};
use crate::words::Wrong;
use script_text::line::{MAX_LINE, is_printed, is_skipped, next_line};

/// A line of a text, and the text in front of it.
#[derive(Clone, Copy)]
pub(crate) struct Numbered<'a> {
    pub before: &'a [u8],
    pub line: &'a [u8],
}

/// The line with this number, which isn't skipped and has no byte that no line may have; or what is
/// wrong with the line or the text, whatever its words are.
pub(crate) fn plain_line<'a>(bytes: &'a [u8], number: u32) -> Result<Numbered<'a>, Wrong<'a>> {
    if number == 0 {
        return Err(layout(0, Layout::ManyBytes));
    }
    let rest = from_line(bytes, number);
    let Some((line, _)) = next_line(rest) else {
        return Err(if rest.is_empty() {
            layout(1, Layout::NoPool)
        } else {
            layout(rest.len().saturating_add(1), Layout::Unended)
        });
    };
    if line.len() > MAX_LINE {
        return Err(layout(MAX_LINE + 1, Layout::LongLine));
    }
    if let Some(wrong) = unprinted(line) {
        return Err(wrong);
    }
    if is_skipped(line) {
        return Err(layout(line.len().saturating_add(1), Layout::NoPool));
    }
    Ok(Numbered {
        before: before(bytes, rest),
        line,
    })
}

/// A fault of the layout in a column.
fn layout<'a>(column: usize, layout: Layout) -> Wrong<'a> {
    Wrong {
        column,
        reason: Reason::Layout(layout),
    }
}

/// What is left of a text from the line with this number on.
fn from_line(bytes: &[u8], number: u32) -> &[u8] {
    let mut rest = bytes;
    for _ in 1..number {
        match next_line(rest) {
            None => return rest,
            Some((_, after)) => rest = after,
        }
    }
    rest
}

/// What stands in front of the end of a text.
fn before<'a>(bytes: &'a [u8], end: &[u8]) -> &'a [u8] {
    match bytes.get(..bytes.len().saturating_sub(end.len())) {
        None => bytes,
        Some(before) => before,
    }
}

/// The first byte of a line that no line may have.
fn unprinted<'a>(line: &'a [u8]) -> Option<Wrong<'a>> {
    let mut column = 1usize;
    for byte in line {
        if !is_printed(*byte) {
            return Some(Wrong {
                column,
                reason: Reason::Byte(*byte),
            });
        }
        column = column.saturating_add(1);
    }
    None
}

/// The first line of a text that isn't skipped, with its number.
pub(crate) fn first_written(bytes: &[u8]) -> Option<(u32, &[u8])>
    requires { length bytes.now ≤ 1048576 }
    ensures { MatchOption result
        (first_from 1 (parts bytes.now).lines ≡ None)
        (λ found. first_from 1 (parts bytes.now).lines ≡ Some (found.0, found.1.now)) }
{
    let mut number = 1u32;
    let mut rest = bytes;
    while let Some((line, after)) = next_line(rest) {
        if !is_skipped(line) {
            return Some((number, line));
        }
        number += 1;
        rest = after;
    }
    None
}
