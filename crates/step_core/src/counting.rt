//! The five steps of the counts, by the worker at an index.

ghost use Rattle.std.specs.Prelude.{◌<◌, vec_len};
ghost use Rattle.step_core.specs.Kept.{world_of, IsWorld, Turns};
ghost use Rattle.step_core.specs.Steps.{turn};

use crate::step::{Outcome, Step};
use crate::words::Words;
use commons::refusal::Refusal;

/// Reads the count of an element of the hand, and holds it.
pub fn claim(words: &mut Words, index: usize, element: u64) -> Result<Outcome, Refusal>
    requires world { IsWorld (world_of words.old) }
    requires index { index < vec_len words.old.views }
    ensures { Turns (world_of words.old) index (Step.Claim element) result (world_of words.new) }
{
    if element >= words.limits.population {
        return Err(Refusal::StepRefused);
    }
    let count = words.counts[element as usize];
    let view = &mut words.views[index];
    let Some(known) = view.hand.find(element) else {
        return Err(Refusal::StepRefused);
    };
    if view.claim(known).is_err() {
        return Err(Refusal::OutOfMemory);
    }
    Ok(Outcome::Value(u64::from(count)))
}

/// Reads the count of an element held; where `free` and it is 1, it goes back into the hand.
pub fn sole(words: &mut Words, index: usize, element: u64, free: bool) -> Result<Outcome, Refusal>
    requires world { IsWorld (world_of words.old) }
    requires index { index < vec_len words.old.views }
    ensures { Turns (world_of words.old) index (Step.Sole element free) result (world_of words.new) }
{
    if element >= words.limits.population {
        return Err(Refusal::StepRefused);
    }
    let count = words.counts[element as usize];
    let view = &mut words.views[index];
    let Some(known) = view.holds.find(element) else {
        return Err(Refusal::StepRefused);
    };
    if free && count == 1 {
        if view.free(known).is_err() {
            return Err(Refusal::OutOfMemory);
        }
        return Ok(Outcome::Value(1));
    }
    Ok(Outcome::Value(u64::from(count)))
}

/// Raises the count of an element held from `old`, if it is `old`.
pub fn raise(words: &mut Words, index: usize, element: u64, old: u64) -> Result<Outcome, Refusal>
    requires world { IsWorld (world_of words.old) }
    requires index { index < vec_len words.old.views }
    ensures { Turns (world_of words.old) index (Step.Raise element old) result (world_of words.new) }
{
    if element >= words.limits.population || old >= words.limits.ref_limit {
        return Err(Refusal::StepRefused);
    }
    let count = words.counts[element as usize];
    let view = &mut words.views[index];
    let Some(known) = view.holds.find(element) else {
        return Err(Refusal::StepRefused);
    };
    if u64::from(count) != old {
        return Ok(Outcome::Lost(u64::from(count)));
    }
    if view.holds.push(known).is_err() {
        return Err(Refusal::OutOfMemory);
    }
    words.counts[element as usize] = count + 1;
    Ok(Outcome::Won)
}

/// Lowers the count of an element held.
pub fn lower(words: &mut Words, index: usize, element: u64) -> Result<Outcome, Refusal>
    requires world { IsWorld (world_of words.old) }
    requires index { index < vec_len words.old.views }
    ensures { Turns (world_of words.old) index (Step.Lower element) result (world_of words.new) }
{
    if element >= words.limits.population {
        return Err(Refusal::StepRefused);
    }
    let count = words.counts[element as usize];
    let view = &mut words.views[index];
    let Some(known) = view.holds.find(element) else {
        return Err(Refusal::StepRefused);
    };
    if view.end_hold(known, count == 1).is_err() {
        return Err(Refusal::OutOfMemory);
    }
    words.counts[element as usize] = count - 1;
    Ok(Outcome::Value(u64::from(count)))
}

/// Sets the count of an element of the hand, 0 for the moment, to 1.
pub fn reset(words: &mut Words, index: usize, element: u64) -> Result<Outcome, Refusal>
    requires world { IsWorld (world_of words.old) }
    requires index { index < vec_len words.old.views }
    ensures { Turns (world_of words.old) index (Step.Reset element) result (world_of words.new) }
{
    if element >= words.limits.population {
        return Err(Refusal::StepRefused);
    }
    let view = &mut words.views[index];
    let Some(known) = view.zeros.find(element) else {
        return Err(Refusal::StepRefused);
    };
    if view.reset(known).is_err() {
        return Err(Refusal::OutOfMemory);
    }
    words.counts[element as usize] = 1;
    Ok(Outcome::Done)
}
