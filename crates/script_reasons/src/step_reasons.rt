//! What is wrong with the line of a step.

use crate::reason::{Layout, Reason, WordFault};
use crate::shape::{Many, Place, Shape, fits};
use crate::words::{Word, Words, Wrong};
use crate::worker::of_worker;
use script_text::MAX_COMMANDS;
use script_text::pool_line::is_pool_word;
use script_text::put_in::MAX_SEGMENTS;
use script_text::step_line::{StepVerb, is_put_in, step_verb_of};
use script_text::steps::StepScript;

/// What is wrong with a line that is no step behind the lines of this script.
pub(crate) fn in_step<'a>(script: &StepScript, line: &'a [u8]) -> Wrong<'a> {
    let words = Words::of(line);
    match words.next() {
        None => words.lack(Reason::Layout(Layout::NoPool)),
        Some((first, rest)) => match behind_script(script, first, rest) {
            Ok(wrong) | Err(wrong) => wrong,
        },
    }
}

/// What is wrong with a step's words.
fn behind_script<'a>(
    script: &StepScript,
    first: Word<'a>,
    rest: Words<'a>,
) -> Result<Wrong<'a>, Wrong<'a>> {
    if script.lines.len() >= MAX_COMMANDS {
        return Err(first.is(Reason::Layout(Layout::ManyCommands)));
    }
    let line = of_worker(script.pools.first.workers, first, rest)?;
    let verb = line.verb;
    if let Some(shape) = shape_at(verb.text) {
        fits(shape, line.words)?;
    }
    if is_pool_word(verb.text) {
        Ok(verb.is(Reason::Layout(Layout::PoolTwice)))
    } else {
        Ok(verb.is(Reason::Word(WordFault::UnknownStep, verb.text)))
    }
}

/// The shape of the line of a step with this first word.
fn shape_at(word: &[u8]) -> Option<Shape> {
    if is_put_in(word) {
        return Some(Shape {
            usage: "putin D G ..",
            places: &[Place::Desk],
            many: Some(Many {
                place: Place::Segment,
                most: MAX_SEGMENTS,
                above: Layout::ManySegments,
            }),
        });
    }
    match step_verb_of(word) {
        None => None,
        Some(verb) => Some(shape_of(verb)),
    }
}

/// The shape of a step's line.
fn shape_of(verb: StepVerb) -> Shape {
    match verb {
        StepVerb::LoadLength => Shape::fixed("loadlength", &[]),
        StepVerb::Reserve => Shape::fixed("reserve S N", &[Place::Number, Place::Number]),
        StepVerb::Add => Shape::fixed("add N", &[Place::Number]),
        StepVerb::LoadHead => Shape::fixed("loadhead", &[]),
        StepVerb::LoadLink => Shape::fixed("loadlink I", &[Place::Element]),
        StepVerb::Cut => Shape::fixed("cut", &[]),
        StepVerb::StoreLink => Shape::fixed("storelink I J", &[Place::Element, Place::Element]),
        StepVerb::Push => Shape::fixed("push", &[]),
        StepVerb::Claim => Shape::fixed("claim I", &[Place::Element]),
        StepVerb::Sole => Shape::fixed("sole I", &[Place::Element]),
        StepVerb::SoleFree => Shape::fixed("solefree I", &[Place::Element]),
        StepVerb::Raise => Shape::fixed("raise I S", &[Place::Element, Place::Number]),
        StepVerb::Lower => Shape::fixed("lower I", &[Place::Element]),
        StepVerb::Reset => Shape::fixed("reset I", &[Place::Element]),
        StepVerb::Hold => Shape::fixed("hold D", &[Place::Desk]),
        StepVerb::Open => Shape::fixed("open D", &[Place::Desk]),
        StepVerb::Seize => Shape::fixed("seize D", &[Place::Desk]),
        StepVerb::TakeOut => Shape::fixed("takeout D", &[Place::Desk]),
        StepVerb::Clear => Shape::fixed("clear D", &[Place::Desk]),
    }
}
