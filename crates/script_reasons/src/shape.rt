//! Which words stand behind the first word of a command or of a step.

use crate::numbers::{Range, number_in, number_within};
use crate::reason::{Layout, Reason, WordFault};
use crate::words::{Word, Words, Wrong};
use script_text::name::is_name;
use script_text::put_in::segment_of;
use script_text::step_line::element_of;

/// The greatest length and the greatest number of a desk.
const MAX_SHORT: u64 = 65_535;

/// What a word is to be.
#[derive(Clone, Copy)]
pub(crate) enum Place {
    /// A packet's name.
    Name,
    /// A number of bytes.
    Length,
    /// The number of a desk.
    Desk,
    /// Any number.
    Number,
    /// An element, or the end.
    Element,
    /// A segment.
    Segment,
}

/// Words of one kind at the end of a line, 1 to so many.
#[derive(Clone, Copy)]
pub(crate) struct Many {
    pub place: Place,
    pub most: usize,
    pub above: Layout,
}

/// Which words stand behind a first word, and how such a line is written.
#[derive(Clone, Copy)]
pub(crate) struct Shape {
    pub usage: &'static str,
    pub places: &'static [Place],
    pub many: Option<Many>,
}

impl Shape {
    /// The shape of a line with these words and no others.
    pub(crate) fn fixed(usage: &'static str, places: &'static [Place]) -> Shape {
        Shape {
            usage,
            places,
            many: None,
        }
    }
}

/// What is wrong with a word in its place.
fn fit<'a>(place: Place, word: Word<'a>) -> Result<(), Wrong<'a>> {
    let fault = match place {
        Place::Name if !is_name(word.text) => WordFault::NotName,
        Place::Element if element_of(word.text).is_none() => WordFault::NotElement,
        Place::Segment if segment_of(word.text).is_none() => WordFault::NotSegment,
        Place::Name | Place::Element | Place::Segment => return Ok(()),
        Place::Length => return short("length", word),
        Place::Desk => return short("desk", word),
        Place::Number => {
            number_in(word)?;
            return Ok(());
        }
    };
    Err(word.is(Reason::Word(fault, word.text)))
}

/// What is wrong with a word that is to be a length or a desk.
fn short<'a>(what: &'static str, word: Word<'a>) -> Result<(), Wrong<'a>> {
    let range = Range {
        what,
        least: 0,
        most: MAX_SHORT,
    };
    number_within(range, word)?;
    Ok(())
}

/// What is wrong with the words behind a first one.
pub(crate) fn fits<'a>(shape: Shape, words: Words<'a>) -> Result<(), Wrong<'a>> {
    let mut left = words;
    for place in shape.places {
        match left.next() {
            None => return Err(left.lack(Reason::Missing(shape.usage))),
            Some((word, behind)) => {
                fit(*place, word)?;
                left = behind;
            }
        }
    }
    match (left.next(), shape.many) {
        (None, None) => Ok(()),
        (None, Some(_)) => Err(left.lack(Reason::Missing(shape.usage))),
        (Some((word, _)), None) => Err(word.is(Reason::Extra(word.text, shape.usage))),
        (Some(_), Some(many)) => all_fit(many, left),
    }
}

/// What is wrong with words of one kind.
fn all_fit<'a>(many: Many, words: Words<'a>) -> Result<(), Wrong<'a>> {
    let mut left = words;
    let mut room = many.most;
    while let Some((word, behind)) = left.next() {
        if room == 0 {
            return Err(word.is(Reason::Layout(many.above)));
        }
        fit(many.place, word)?;
        room -= 1;
        left = behind;
    }
    Ok(())
}
