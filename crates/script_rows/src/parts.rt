//! Texts that are made of parts, of which some repeat a line with other numbers.

use std::alloc::Global;
use std::fmt;
use std::fmt::Write;

/// A text, and after it a number that is the second for the first line and then grows by the
/// third.
pub struct Field(pub &'static str, pub i32, pub i32);

/// A part of a text.
pub enum Part {
    /// Itself.
    Text(&'static str),
    /// This many times these fields, each time with this end.
    Each(i32, &'static [Field], &'static str),
}

/// Adds this many times the fields and the end.
fn add_each(text: &mut String, count: i32, fields: &[Field], end: &str) -> fmt::Result {
    for index in 0..count {
        for Field(front, first, step) in fields {
            let number = first.wrapping_add(step.wrapping_mul(index));
            write!(text, "{front}{number}")?;
        }
        write!(text, "{end}")?;
    }
    Ok(())
}

/// The text of these parts.
pub fn written(alloc: Global, parts: &[Part]) -> Result<String, fmt::Error> {
    let mut text = String::new(alloc);
    for part in parts {
        match part {
            Part::Text(piece) => write!(text, "{piece}")?,
            Part::Each(count, fields, end) => add_each(&mut text, *count, fields, end)?,
        }
    }
    Ok(text)
}
