//! The fields of a world, and a step on them.

ghost use Rattle.std.specs.Prelude.{◌<◌, vec_len};
ghost use Rattle.step_core.specs.Kept.{world_of, IsWorld, Answers, Turns};
ghost use Rattle.step_core.specs.Steps.{turn, played};

use crate::step::{Outcome, Step};
use crate::view::{Desk, Head, View};
use crate::{counting, desk_steps, stack};
use commons::limits::Limits;
use commons::refusal::Refusal;

/// The words, the slots and the views, worker 1's first.
#[derive(Debug, Drop)]
pub struct Words {
    pub limits: Limits,
    pub head: Head,
    pub length: u64,
    pub links: Vec<u32>,
    pub counts: Vec<u32>,
    pub desks: Vec<Desk>,
    pub views: Vec<View>,
}

/// A step of the worker at an index.
fn turn_of(words: &mut Words, index: usize, step: &Step) -> Result<Outcome, Refusal>
    requires world { IsWorld (world_of words.old) }
    requires index { index < vec_len words.old.views }
    ensures { Turns (world_of words.old) index step.now result (world_of words.new) }
{
    let alloc = *words.links.allocator();
    match step {
        Step::LoadLength => Ok(Outcome::Value(words.length)),
        Step::Reserve { old, n } => stack::reserve(words, index, *old, *n),
        Step::Add { n } => stack::add(words, index, *n),
        Step::LoadHead => stack::load_head(words, index, alloc),
        Step::LoadLink { element } => stack::load_link(words, index, *element),
        Step::Cut => stack::cut(words, index),
        Step::StoreLink { element, next } => stack::store_link(
            words, index, alloc, *element, *next,
        ),
        Step::Push => stack::push(words, index),
        Step::Claim { element } => counting::claim(words, index, *element),
        Step::Sole { element, free } => counting::sole(words, index, *element, *free),
        Step::Raise { element, old } => counting::raise(words, index, *element, *old),
        Step::Lower { element } => counting::lower(words, index, *element),
        Step::Reset { element } => counting::reset(words, index, *element),
        Step::Hold { desk } => desk_steps::hold(words, index, *desk),
        Step::PutIn { desk, packet } => desk_steps::put_in(words, index, *desk, packet),
        Step::Open { desk } => desk_steps::open(words, index, *desk),
        Step::Seize { desk } => desk_steps::seize(words, index, *desk),
        Step::TakeOut { desk } => desk_steps::take_out(words, index, *desk),
        Step::Clear { desk } => desk_steps::clear(words, index, *desk),
    }
}

/// A step of a worker.
pub fn step_of(words: &mut Words, worker: u32, step: &Step) -> Result<Outcome, Refusal>
    requires world { IsWorld (world_of words.old) }
    ensures { Answers step.now (played (world_of words.old) worker step.now) (world_of words.old) result (world_of words.new) }
{
    let worker = worker as usize;
    if worker == 0 || worker > words.views.len() {
        return Err(Refusal::StepRefused);
    }
    turn_of(words, worker - 1, step)
}
