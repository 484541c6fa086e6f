//! The words of a step.

ghost use Rattle.std.specs.Prelude.{◌≡◌, codes, IfOk, Option, None, Some};
ghost use Rattle.std.specs.Str.{bytes_eq};
ghost use Rattle.script_text.specs.inside.Reading.{number_at, short_number_at, without_words, words_of};
ghost use Rattle.script_text.specs.inside.StepReading.{one_at, element_at, step_verb_at, step_with as step_by, step_word, two_at};

use crate::commands::Name;
use crate::from_words::FromWords;
use crate::line::{both_words, next_word, only_word};
use crate::number::{number_of, short_number_of};
use crate::put_in::put_in_of;
use crate::steps::{ElementOrEnd, Step};
use std::alloc::{AllocError, Global};

/// The first word of a step, unless it is `putin`.
#[derive(Clone, Copy)]
pub enum StepVerb {
    LoadLength,
    Reserve,
    Add,
    LoadHead,
    LoadLink,
    Cut,
    StoreLink,
    Push,
    Claim,
    Sole,
    SoleFree,
    Raise,
    Lower,
    Reset,
    Hold,
    Open,
    Seize,
    TakeOut,
    Clear,
}

/// Each verb once.
const STEP_VERBS: [StepVerb; 19] = [
    StepVerb::LoadLength,
    StepVerb::Reserve,
    StepVerb::Add,
    StepVerb::LoadHead,
    StepVerb::LoadLink,
    StepVerb::Cut,
    StepVerb::StoreLink,
    StepVerb::Push,
    StepVerb::Claim,
    StepVerb::Sole,
    StepVerb::SoleFree,
    StepVerb::Raise,
    StepVerb::Lower,
    StepVerb::Reset,
    StepVerb::Hold,
    StepVerb::Open,
    StepVerb::Seize,
    StepVerb::TakeOut,
    StepVerb::Clear,
];

impl StepVerb {
    /// How the verb is written.
    fn word(self) -> &'static [u8]
        ensures { result.now ≡ step_word self }
    {
        match self {
            StepVerb::LoadLength => b"loadlength".as_slice(),
            StepVerb::Reserve => b"reserve".as_slice(),
            StepVerb::Add => b"add".as_slice(),
            StepVerb::LoadHead => b"loadhead".as_slice(),
            StepVerb::LoadLink => b"loadlink".as_slice(),
            StepVerb::Cut => b"cut".as_slice(),
            StepVerb::StoreLink => b"storelink".as_slice(),
            StepVerb::Push => b"push".as_slice(),
            StepVerb::Claim => b"claim".as_slice(),
            StepVerb::Sole => b"sole".as_slice(),
            StepVerb::SoleFree => b"solefree".as_slice(),
            StepVerb::Raise => b"raise".as_slice(),
            StepVerb::Lower => b"lower".as_slice(),
            StepVerb::Reset => b"reset".as_slice(),
            StepVerb::Hold => b"hold".as_slice(),
            StepVerb::Open => b"open".as_slice(),
            StepVerb::Seize => b"seize".as_slice(),
            StepVerb::TakeOut => b"takeout".as_slice(),
            StepVerb::Clear => b"clear".as_slice(),
        }
    }
}

/// The verb that a word spells.
pub fn step_verb_of(word: &[u8]) -> Option<StepVerb>
    ensures { result ≡ step_verb_at word.now }
{
    STEP_VERBS.iter().copied().find(|verb| word == verb.word())
}

/// The element that a word spells, or the end.
pub fn element_of(word: &[u8]) -> Option<ElementOrEnd>
    ensures { result ≡ element_at word.now }
{
    if word == b"-".as_slice() {
        Some(None)
    } else {
        match number_of(word) {
            Some(element) => Some(Some(element)),
            None => None,
        }
    }
}

/// The number that is the only word of a rest of a line.
fn only_number(rest: &[u8]) -> Option<u64>
    ensures { result ≡ one_at number_at (words_of rest.now) }
{
    match only_word(rest) {
        Some(word) => number_of(word),
        None => None,
    }
}

/// The element, or the end, that is the only word of a rest of a line.
fn only_element(rest: &[u8]) -> Option<ElementOrEnd>
    ensures { result ≡ one_at element_at (words_of rest.now) }
{
    match only_word(rest) {
        Some(word) => element_of(word),
        None => None,
    }
}

/// The desk that is the only word of a rest of a line.
fn only_desk(rest: &[u8]) -> Option<u16>
    ensures { result ≡ one_at short_number_at (words_of rest.now) }
{
    match only_word(rest) {
        Some(word) => short_number_of(word),
        None => None,
    }
}

/// The two numbers that are the only two words of a rest of a line.
fn two_numbers(rest: &[u8]) -> Option<(u64, u64)>
    ensures { result ≡ two_at number_at number_at (words_of rest.now) }
{
    let (word, other) = both_words(rest)?;
    let first = number_of(word)?;
    let second = number_of(other)?;
    Some((first, second))
}

/// The two elements, or ends, that are the only two words of a rest of a line.
fn two_elements(rest: &[u8]) -> Option<(ElementOrEnd, ElementOrEnd)>
    ensures { result ≡ two_at element_at element_at (words_of rest.now) }
{
    let (word, other) = both_words(rest)?;
    let first = element_of(word)?;
    let second = element_of(other)?;
    Some((first, second))
}

/// The element, or the end, and the number that are the only two words of a rest of a line.
fn element_and_number(rest: &[u8]) -> Option<(ElementOrEnd, u64)>
    ensures { result ≡ two_at element_at number_at (words_of rest.now) }
{
    let (word, other) = both_words(rest)?;
    let first = element_of(word)?;
    let second = number_of(other)?;
    Some((first, second))
}

/// The step, where no word is left of a line.
fn alone(step: Step, rest: &[u8]) -> Option<Step>
    ensures { result ≡ without_words step (words_of rest.now) }
{
    match next_word(rest) {
        Some(_) => None,
        None => Some(step),
    }
}

/// The step of a verb and the words after it, or `None` where they are none.
fn step_with(verb: StepVerb, rest: &[u8]) -> Option<Step>
    ensures { result ≡ step_by verb (words_of rest.now) }
{
    match verb {
        StepVerb::LoadLength => alone(Step::LoadLength, rest),
        StepVerb::Reserve => match two_numbers(rest) {
            Some((old, n)) => Some(Step::Reserve { old, n }),
            None => None,
        },
        StepVerb::Add => match only_number(rest) {
            Some(n) => Some(Step::Add { n }),
            None => None,
        },
        StepVerb::LoadHead => alone(Step::LoadHead, rest),
        StepVerb::LoadLink => match only_element(rest) {
            Some(element) => Some(Step::LoadLink { element }),
            None => None,
        },
        StepVerb::Cut => alone(Step::Cut, rest),
        StepVerb::StoreLink => match two_elements(rest) {
            Some((element, next)) => Some(Step::StoreLink { element, next }),
            None => None,
        },
        StepVerb::Push => alone(Step::Push, rest),
        StepVerb::Claim => match only_element(rest) {
            Some(element) => Some(Step::Claim { element }),
            None => None,
        },
        StepVerb::Sole => match only_element(rest) {
            Some(element) => Some(Step::Sole {
                element,
                free: false,
            }),
            None => None,
        },
        StepVerb::SoleFree => match only_element(rest) {
            Some(element) => Some(Step::Sole {
                element,
                free: true,
            }),
            None => None,
        },
        StepVerb::Raise => match element_and_number(rest) {
            Some((element, old)) => Some(Step::Raise { element, old }),
            None => None,
        },
        StepVerb::Lower => match only_element(rest) {
            Some(element) => Some(Step::Lower { element }),
            None => None,
        },
        StepVerb::Reset => match only_element(rest) {
            Some(element) => Some(Step::Reset { element }),
            None => None,
        },
        StepVerb::Hold => match only_desk(rest) {
            Some(desk) => Some(Step::Hold { desk }),
            None => None,
        },
        StepVerb::Open => match only_desk(rest) {
            Some(desk) => Some(Step::Open { desk }),
            None => None,
        },
        StepVerb::Seize => match only_desk(rest) {
            Some(desk) => Some(Step::Seize { desk }),
            None => None,
        },
        StepVerb::TakeOut => match only_desk(rest) {
            Some(desk) => Some(Step::TakeOut { desk }),
            None => None,
        },
        StepVerb::Clear => match only_desk(rest) {
            Some(desk) => Some(Step::Clear { desk }),
            None => None,
        },
    }
}

/// Whether a word is `putin`.
pub fn is_put_in(word: &[u8]) -> bool
    ensures { result ≡ bytes_eq word.now (codes "putin") }
{
    word == b"putin".as_slice()
}

impl FromWords for Step {
    ghost use Rattle.script_text.specs.inside.StepReading.{step_lexicon};

    ghost lexicon = { step_lexicon };

    fn from_words(alloc: Global, words: &[u8]) -> Result<Option<Step>, AllocError> {
        let Some((word, rest)) = next_word(words) else {
            return Ok(None);
        };
        if is_put_in(word) {
            return put_in_of(alloc, rest);
        }
        let Some(verb) = step_verb_of(word) else {
            return Ok(None);
        };
        Ok(step_with(verb, rest))
    }

    fn knows_second() -> bool {
        false
    }

    fn names_made(&self) -> &[Name] {
        &[]
    }

    fn needs_second(&self) -> bool {
        false
    }
}
