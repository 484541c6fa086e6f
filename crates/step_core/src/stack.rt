//! The eight steps of the stack, by the worker at an index.

ghost use Rattle.std.specs.Prelude.{◌≡◌, ◌<◌, ◌≤◌, vec_len, Option, option_map};
ghost use Rattle.commons.specs.Bounds.{max_population};
ghost use Rattle.step_core.specs.Kept.{world_of, IsWorld, Turns};
ghost use Rattle.step_core.specs.Steps.{turn, same_head};
ghost use Rattle.step_core.specs.Views.{LinkOf};

use crate::elems::Elems;
use crate::step::{Outcome, Step};
use crate::view::{Head, Look, View};
use crate::words::Words;
use commons::refusal::Refusal;
use std::alloc::Global;

/// Lowers the length word from `old` by `n`, if it is `old`.
pub fn reserve(words: &mut Words, index: usize, old: u64, n: u64) -> Result<Outcome, Refusal>
    requires world { IsWorld (world_of words.old) }
    requires index { index < vec_len words.old.views }
    ensures { Turns (world_of words.old) index (Step.Reserve old n) result (world_of words.new) }
{
    if n < 1 || n > old {
        return Err(Refusal::StepRefused);
    }
    if words.length != old {
        return Ok(Outcome::Lost(words.length));
    }
    words.length = old - n;
    words.views[index].credit += n;
    Ok(Outcome::Won)
}

/// Raises the length word by `n`.
pub fn add(words: &mut Words, index: usize, n: u64) -> Result<Outcome, Refusal>
    requires world { IsWorld (world_of words.old) }
    requires index { index < vec_len words.old.views }
    ensures { Turns (world_of words.old) index (Step.Add n) result (world_of words.new) }
{
    if n < 1 || n > words.views[index].credit {
        return Err(Refusal::StepRefused);
    }
    words.length += n;
    words.views[index].credit -= n;
    Ok(Outcome::Done)
}

/// Reads the head.
pub fn load_head(words: &mut Words, index: usize, alloc: Global) -> Result<Outcome, Refusal>
    requires world { IsWorld (world_of words.old) }
    requires index { index < vec_len words.old.views }
    ensures { Turns (world_of words.old) index Step.LoadHead result (world_of words.new) }
{
    let head = words.head;
    let view = &mut words.views[index];
    view.look = Some(Look {
        head,
        front: Elems::new(alloc),
        next: head.top,
    });
    view.seen = head.count;
    Ok(Outcome::HeadIs(head))
}

/// Reads the link of the next element of the walk.
pub fn load_link(words: &mut Words, index: usize, element: u64) -> Result<Outcome, Refusal>
    requires world { IsWorld (world_of words.old) }
    requires index { index < vec_len words.old.views }
    ensures { Turns (world_of words.old) index (Step.LoadLink element) result (world_of words.new) }
{
    if element >= words.limits.population {
        return Err(Refusal::StepRefused);
    }
    let view = &mut words.views[index];
    if !view.walks_to(element) {
        return Err(Refusal::StepRefused);
    }
    let link = words.links[element as usize];
    match view.walk_on(element as u32, link) {
        Ok(()) => Ok(Outcome::Value(u64::from(link))),
        Err(_) => Err(Refusal::OutOfMemory),
    }
}

/// Whether two heads are the same.
fn same(a: Head, b: Head) -> bool
    ensures { result ≡ same_head a b }
{
    a.top == b.top && a.count == b.count
}

/// Swings the head from the look's head to what follows the walk.
pub fn cut(words: &mut Words, index: usize) -> Result<Outcome, Refusal>
    requires world { IsWorld (world_of words.old) }
    requires index { index < vec_len words.old.views }
    ensures { Turns (world_of words.old) index Step.Cut result (world_of words.new) }
{
    let found = words.head;
    let view = &mut words.views[index];
    let Some((expected, next)) = view.cut_expected() else {
        return Err(Refusal::StepRefused);
    };
    if !same(found, expected) {
        view.lose_look(found.count);
        return Ok(Outcome::LostTo(found));
    }
    match view.win_cut() {
        Ok(front) => {
            words.head = Head {
                top: next,
                count: expected.count + 1,
            };
            Ok(Outcome::Got(front))
        }
        Err(_) => Err(Refusal::OutOfMemory),
    }
}

/// The link value of an element, or of none, if it is of a pool of this many elements.
fn link_value(population: u64, next: Option<u64>) -> Option<u32>
    requires { population ≤ max_population }
    ensures { LinkOf population next result }
{
    match next {
        None => Some(0),
        Some(element) if element < population => Some(element as u32 + 1),
        Some(_) => None,
    }
}

/// Writes the link of an element of the hand.
pub fn store_link(
    words: &mut Words,
    index: usize,
    alloc: Global,
    element: u64,
    next: Option<u64>,
) -> Result<Outcome, Refusal>
    requires world { IsWorld (world_of words.old) }
    requires index { index < vec_len words.old.views }
    ensures { Turns (world_of words.old) index (Step.StoreLink element next) result (world_of words.new) }
{
    let Some(link) = link_value(words.limits.population, next) else {
        return Err(Refusal::StepRefused);
    };
    if element >= words.limits.population {
        return Err(Refusal::StepRefused);
    }
    let view = &mut words.views[index];
    let Some(known) = view.hand.find(element) else {
        return Err(Refusal::StepRefused);
    };
    if view.link(alloc, known, link).is_err() {
        return Err(Refusal::OutOfMemory);
    }
    words.links[element as usize] = link;
    Ok(Outcome::Done)
}

/// Swings the head from the look's head to the chain's first element.
pub fn push(words: &mut Words, index: usize) -> Result<Outcome, Refusal>
    requires world { IsWorld (world_of words.old) }
    requires index { index < vec_len words.old.views }
    ensures { Turns (world_of words.old) index Step.Push result (world_of words.new) }
{
    let found = words.head;
    let view = &mut words.views[index];
    let Some((expected, top)) = view.push_expected() else {
        return Err(Refusal::StepRefused);
    };
    if !same(found, expected) {
        view.lose_push(found.count);
        return Ok(Outcome::LostTo(found));
    }
    let count = expected.count + 1;
    view.win_push(count);
    words.head = Head { top, count };
    Ok(Outcome::Won)
}
