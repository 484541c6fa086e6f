//! The lines of a script as text.

use commons::change::Change;
use script_text::commands::{Command, Line, Name};
use script_text::steps::StepLine;
use std::alloc::{AllocError, Global};

/// Adds a word and the names after it, each behind a space. A name's bytes are letters and digits.
fn push_words(text: &mut String, word: &str, names: &[&Name]) -> Result<(), AllocError> {
    text.push_str(word)?;
    for name in names {
        text.push_str(" ")?;
        for byte in name.as_slice() {
            text.push(char::from(*byte))?;
        }
    }
    Ok(())
}

/// The word of a change of lengths, and by how many bytes it is.
fn word_and_len(change: Change) -> (&'static str, u16) {
    match change {
        Change::Append(len) => ("append", len),
        Change::Prepend(len) => ("prepend", len),
        Change::Adj(len) => ("adj", len),
        Change::Trim(len) => ("trim", len),
    }
}

/// Adds what a command with a number or with many names says, and else nothing.
fn push_long_command(text: &mut String, command: &Command) -> Result<(), AllocError> {
    match command {
        Command::Bulk(names) => {
            text.push_str("bulk")?;
            for name in names.as_slice() {
                push_words(text, "", &[name])?;
            }
            Ok(())
        }
        Command::Resize(name, change) => {
            let (word, len) = word_and_len(*change);
            write!(text, "{word} {len} of")?;
            push_words(text, "", &[name])
        }
        Command::Offer(packet, desk) => {
            push_words(text, "offer", &[packet])?;
            write!(text, " {desk}")
        }
        Command::Take(desk, made) => {
            write!(text, "take {desk}")?;
            push_words(text, "", &[made])
        }
        _ => Ok(()),
    }
}

/// Adds what a command says.
fn push_command(text: &mut String, command: &Command) -> Result<(), AllocError> {
    match command {
        Command::Alloc(name) => push_words(text, "alloc", &[name]),
        Command::Free(name) => push_words(text, "free", &[name]),
        Command::Chain(head, tail) => push_words(text, "chain", &[head, tail]),
        Command::Attach(first, second) => push_words(text, "attach", &[first, second]),
        Command::Detach(name) => push_words(text, "detach", &[name]),
        Command::Clone(packet, made) => push_words(text, "clone", &[packet, made]),
        Command::CloneTo(packet, made) => push_words(text, "cloneto", &[packet, made]),
        Command::Count(name) => push_words(text, "count", &[name]),
        Command::Flush => push_words(text, "flush", &[]),
        _ => push_long_command(text, command),
    }
}

/// What each line says, with a semicolon after each.
pub(super) fn shown_lines(alloc: Global, lines: &[Line]) -> Result<String, AllocError> {
    let mut text = String::new(alloc);
    for line in lines {
        write!(text, "{} {} ", line.number, line.worker)?;
        push_command(&mut text, &line.command)?;
        text.push_str("; ")?;
    }
    Ok(text)
}

/// What each line of a script of steps says, with a semicolon after each.
pub(super) fn shown_steps(alloc: Global, lines: &[StepLine]) -> Result<String, AllocError> {
    let mut text = String::new(alloc);
    for line in lines {
        write!(text, "{} {} {:?}; ", line.number, line.worker, line.command)?;
    }
    Ok(text)
}
