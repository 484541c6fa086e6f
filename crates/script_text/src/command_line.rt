//! The words of a command.

ghost use Rattle.std.specs.Prelude.{◌≡◌, ◌≤◌, [], ◌∷◌, codes, IfOk, MatchOption, Option, None, Some};
ghost use Rattle.std.specs.Str.{bytes_eq};
ghost use Rattle.script_text.specs.inside.Reading.{words_of, both_of};
ghost use Rattle.script_text.specs.inside.CommandReading.{both_names, command_with as command_by, name_and_number as name_and_number_of, name_at, names_with, number_and_name as number_and_name_of, numbered_name as numbered_name_of, only_name_of, buffer_verbs, sharing_verbs, verb_among, verb_at};

use crate::commands::{Command, Name};
use crate::from_words::FromWords;
use crate::line::{both_words, next_word};
use crate::name::is_name;
use crate::number::short_number_of;
use commons::change::Change;
use commons::seq::Seq;
use std::alloc::{AllocError, Global};

/// The most names that a bulk has.
pub const MAX_NAMES: usize = 256;

/// The first word of a command.
#[derive(Clone, Copy)]
pub enum Verb {
    Alloc,
    Bulk,
    Free,
    Append,
    Prepend,
    Adj,
    Trim,
    Chain,
    Attach,
    Detach,
    Clone,
    CloneTo,
    Count,
    Offer,
    Take,
    Flush,
}

/// The verb that a word spells.
pub fn verb_of(word: &[u8]) -> Option<Verb>
    ensures { result ≡ verb_at word.now }
{
    match buffer_verb_of(word) {
        Some(verb) => Some(verb),
        None => sharing_verb_of(word),
    }
}

/// The verb that a word spells, of those that make a packet, end it, or change its data.
fn buffer_verb_of(word: &[u8]) -> Option<Verb>
    ensures { result ≡ verb_among buffer_verbs word.now }
{
    if word == b"alloc".as_slice() {
        Some(Verb::Alloc)
    } else if word == b"bulk".as_slice() {
        Some(Verb::Bulk)
    } else if word == b"free".as_slice() {
        Some(Verb::Free)
    } else if word == b"append".as_slice() {
        Some(Verb::Append)
    } else if word == b"prepend".as_slice() {
        Some(Verb::Prepend)
    } else if word == b"adj".as_slice() {
        Some(Verb::Adj)
    } else if word == b"trim".as_slice() {
        Some(Verb::Trim)
    } else {
        None
    }
}

/// The verb that a word spells, of those that bring packets together, share, count or move them.
fn sharing_verb_of(word: &[u8]) -> Option<Verb>
    ensures { result ≡ verb_among sharing_verbs word.now }
{
    if word == b"chain".as_slice() {
        Some(Verb::Chain)
    } else if word == b"attach".as_slice() {
        Some(Verb::Attach)
    } else if word == b"detach".as_slice() {
        Some(Verb::Detach)
    } else if word == b"clone".as_slice() {
        Some(Verb::Clone)
    } else if word == b"cloneto".as_slice() {
        Some(Verb::CloneTo)
    } else if word == b"count".as_slice() {
        Some(Verb::Count)
    } else if word == b"offer".as_slice() {
        Some(Verb::Offer)
    } else if word == b"take".as_slice() {
        Some(Verb::Take)
    } else if word == b"flush".as_slice() {
        Some(Verb::Flush)
    } else {
        None
    }
}

/// The only word of a rest of a line, where it is a name.
fn only_name(rest: &[u8]) -> Option<Name>
    ensures { result ≡ only_name_of (words_of rest.now) }
{
    let (word, after) = next_word(rest)?;
    if is_name(word) && next_word(after).is_none() {
        Some(Name::new(word))
    } else {
        None
    }
}

/// The words of a rest of a line, where they are 1 to 256 names.
fn names_of(alloc: Global, rest: &[u8]) -> Result<Option<Seq<Name>>, AllocError>
    ensures { IfOk result (λ names. names ≡ names_with (words_of rest.now)) }
{
    let mut names = Vec::new(alloc);
    let mut left = rest;
    while let Some((word, after)) = next_word(left) {
        if names.len() == MAX_NAMES {
            return Ok(None);
        }
        let Some(name) = name_of(word) else {
            return Ok(None);
        };
        names.push(name)?;
        left = after;
    }
    if names.is_empty() {
        Ok(None)
    } else {
        Ok(Some(Seq::new(names)))
    }
}

/// A word, where it is a name.
fn name_of(word: &[u8]) -> Option<Name>
    ensures { result ≡ name_at word.now }
{
    if is_name(word) {
        Some(Name::new(word))
    } else {
        None
    }
}

/// A word that is a name, and the number, at most 65,535, that another word spells.
fn numbered_name(word: &[u8], other: &[u8]) -> Option<(Name, u16)>
    ensures { result ≡ numbered_name_of word.now other.now }
{
    let number = short_number_of(other)?;
    let name = name_of(word)?;
    Some((name, number))
}

/// The name and the number after it that are the only words of a rest of a line.
fn name_and_number(rest: &[u8]) -> Option<(Name, u16)>
    ensures { result ≡ name_and_number_of (words_of rest.now) }
{
    let (word, other) = both_words(rest)?;
    numbered_name(word, other)
}

/// The name and the number in front of it that are the only words of a rest of a line.
fn number_and_name(rest: &[u8]) -> Option<(Name, u16)>
    ensures { result ≡ number_and_name_of (words_of rest.now) }
{
    let (word, other) = both_words(rest)?;
    numbered_name(other, word)
}

/// The only two words of a rest of a line, where they are names.
fn two_names(rest: &[u8]) -> Option<(Name, Name)>
    ensures { result ≡ both_names (words_of rest.now) }
{
    let (word, other) = both_words(rest)?;
    let first = name_of(word)?;
    let second = name_of(other)?;
    Some((first, second))
}

/// The command of a verb and the words after it, or `None` where they are none.
fn command_with(alloc: Global, verb: Verb, rest: &[u8]) -> Result<Option<Command>, AllocError>
    ensures { IfOk result (λ command. command ≡ command_by verb (words_of rest.now)) }
{
    match verb {
        Verb::Alloc => match only_name(rest) {
            Some(name) => Ok(Some(Command::Alloc(name))),
            None => Ok(None),
        },
        Verb::Bulk => match names_of(alloc, rest)? {
            Some(names) => Ok(Some(Command::Bulk(names))),
            None => Ok(None),
        },
        Verb::Free => match only_name(rest) {
            Some(name) => Ok(Some(Command::Free(name))),
            None => Ok(None),
        },
        Verb::Append => match name_and_number(rest) {
            Some((name, len)) => Ok(Some(Command::Resize(name, Change::Append(len)))),
            None => Ok(None),
        },
        Verb::Prepend => match name_and_number(rest) {
            Some((name, len)) => Ok(Some(Command::Resize(name, Change::Prepend(len)))),
            None => Ok(None),
        },
        Verb::Adj => match name_and_number(rest) {
            Some((name, len)) => Ok(Some(Command::Resize(name, Change::Adj(len)))),
            None => Ok(None),
        },
        Verb::Trim => match name_and_number(rest) {
            Some((name, len)) => Ok(Some(Command::Resize(name, Change::Trim(len)))),
            None => Ok(None),
        },
        Verb::Chain => match two_names(rest) {
            Some((head, tail)) => Ok(Some(Command::Chain(head, tail))),
            None => Ok(None),
        },
        Verb::Attach => match two_names(rest) {
            Some((first, second)) => Ok(Some(Command::Attach(first, second))),
            None => Ok(None),
        },
        Verb::Detach => match only_name(rest) {
            Some(name) => Ok(Some(Command::Detach(name))),
            None => Ok(None),
        },
        Verb::Clone => match two_names(rest) {
            Some((packet, made)) => Ok(Some(Command::Clone(packet, made))),
            None => Ok(None),
        },
        Verb::CloneTo => match two_names(rest) {
            Some((packet, made)) => Ok(Some(Command::CloneTo(packet, made))),
            None => Ok(None),
        },
        Verb::Count => match only_name(rest) {
            Some(name) => Ok(Some(Command::Count(name))),
            None => Ok(None),
        },
        Verb::Offer => match name_and_number(rest) {
            Some((packet, desk)) => Ok(Some(Command::Offer(packet, desk))),
            None => Ok(None),
        },
        Verb::Take => match number_and_name(rest) {
            Some((made, desk)) => Ok(Some(Command::Take(desk, made))),
            None => Ok(None),
        },
        Verb::Flush => match next_word(rest) {
            Some(_) => Ok(None),
            None => Ok(Some(Command::Flush)),
        },
    }
}

impl FromWords for Command {
    ghost use Rattle.script_text.specs.inside.CommandReading.{command_lexicon};

    ghost lexicon = { command_lexicon };

    fn from_words(alloc: Global, words: &[u8]) -> Result<Option<Command>, AllocError> {
        let Some((word, rest)) = next_word(words) else {
            return Ok(None);
        };
        let Some(verb) = verb_of(word) else {
            return Ok(None);
        };
        command_with(alloc, verb, rest)
    }

    fn knows_second() -> bool {
        true
    }

    fn names_made(&self) -> &[Name] {
        self.names_made()
    }

    fn needs_second(&self) -> bool {
        self.needs_second()
    }
}
