//! What is wrong with the line of a command.

use crate::reason::{Layout, Reason, WordFault};
use crate::shape::{Many, Place, Shape, fits};
use crate::words::{Word, Words, Wrong};
use crate::worker::{OfWorker, of_worker};
use script_text::MAX_COMMANDS;
use script_text::command_line::{MAX_NAMES, Verb, verb_of};
use script_text::commands::Script;
use script_text::pool_line::is_pool_word;

/// What is wrong with a line that is no command behind the lines of this script.
pub(crate) fn in_command<'a>(script: &Script, line: &'a [u8]) -> Wrong<'a> {
    let words = Words::of(line);
    match words.next() {
        None => words.lack(Reason::Layout(Layout::NoPool)),
        Some((first, rest)) => match behind_script(script, first, rest) {
            Ok(wrong) | Err(wrong) => wrong,
        },
    }
}

/// What is wrong with a command's words; where each is right, a name is made once more.
fn behind_script<'a>(
    script: &Script,
    first: Word<'a>,
    rest: Words<'a>,
) -> Result<Wrong<'a>, Wrong<'a>> {
    if script.lines.len() >= MAX_COMMANDS {
        return Err(first.is(Reason::Layout(Layout::ManyCommands)));
    }
    let OfWorker {
        worker,
        verb,
        words,
    } = of_worker(script.pools.first.workers, first, rest)?;
    let Some(known) = verb_of(verb.text) else {
        return Err(verb.is(unknown(verb.text)));
    };
    fits(shape_of(known), words)?;
    if known == Verb::CloneTo && script.pools.second.is_none() {
        return Err(verb.is(Reason::Word(WordFault::NeedsSecond, verb.text)));
    }
    Ok(made_again(script, worker, verb, names_of(known, words)))
}

/// What is wrong with a first word that is no command's.
fn unknown<'a>(word: &'a [u8]) -> Reason<'a> {
    if is_pool_word(word) {
        Reason::Layout(Layout::PoolTwice)
    } else {
        Reason::Word(WordFault::UnknownCommand, word)
    }
}

/// The words of a command from the first name that it makes on.
fn names_of<'a>(verb: Verb, words: Words<'a>) -> Words<'a> {
    match verb {
        Verb::Clone | Verb::CloneTo | Verb::Take => match words.next() {
            None => words,
            Some((_, behind)) => behind,
        },
        _ => words,
    }
}

/// Which of the names that a worker's command makes was made before, or stands there twice.
fn made_again<'a>(script: &Script, worker: u64, verb: Word<'a>, names: Words<'a>) -> Wrong<'a> {
    let mut last = verb;
    let mut left = names;
    while let Some((name, behind)) = left.next() {
        if let Some(line) = maker_of(script, worker, name.text) {
            return name.is(Reason::Made {
                name: name.text,
                line,
            });
        }
        if stands_before(names, name) {
            return name.is(Reason::Word(WordFault::NameTwice, name.text));
        }
        last = name;
        left = behind;
    }
    last.is(Reason::Word(WordFault::NameTwice, last.text))
}

/// The number of the line of a script that makes a worker's name.
fn maker_of(script: &Script, worker: u64, name: &[u8]) -> Option<u32> {
    for line in script.lines.as_slice() {
        if u64::from(line.worker) == worker
            && line
                .command
                .names_made()
                .iter()
                .any(|made| made.as_slice() == name)
        {
            return Some(line.number);
        }
    }
    None
}

/// Whether the same word stands among these in front of this one.
fn stands_before(names: Words<'_>, name: Word<'_>) -> bool {
    let mut left = names;
    while let Some((other, behind)) = left.next() {
        if other.column >= name.column {
            return false;
        }
        if other.text == name.text {
            return true;
        }
        left = behind;
    }
    false
}

/// The shape of a command's line.
fn shape_of(verb: Verb) -> Shape {
    match verb {
        Verb::Alloc => Shape::fixed("alloc P", &[Place::Name]),
        Verb::Bulk => Shape {
            usage: "bulk P ..",
            places: &[],
            many: Some(Many {
                place: Place::Name,
                most: MAX_NAMES,
                above: Layout::ManyNames,
            }),
        },
        Verb::Free => Shape::fixed("free P", &[Place::Name]),
        Verb::Append => Shape::fixed("append P L", &[Place::Name, Place::Length]),
        Verb::Prepend => Shape::fixed("prepend P L", &[Place::Name, Place::Length]),
        Verb::Adj => Shape::fixed("adj P L", &[Place::Name, Place::Length]),
        Verb::Trim => Shape::fixed("trim P L", &[Place::Name, Place::Length]),
        Verb::Chain => Shape::fixed("chain P Q", &[Place::Name, Place::Name]),
        Verb::Attach => Shape::fixed("attach P Q", &[Place::Name, Place::Name]),
        Verb::Detach => Shape::fixed("detach P", &[Place::Name]),
        Verb::Clone => Shape::fixed("clone Q P", &[Place::Name, Place::Name]),
        Verb::CloneTo => Shape::fixed("cloneto Q P", &[Place::Name, Place::Name]),
        Verb::Count => Shape::fixed("count P", &[Place::Name]),
        Verb::Offer => Shape::fixed("offer P D", &[Place::Name, Place::Desk]),
        Verb::Take => Shape::fixed("take D P", &[Place::Desk, Place::Name]),
        Verb::Flush => Shape::fixed("flush", &[]),
    }
}
