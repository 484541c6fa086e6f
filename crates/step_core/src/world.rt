//! The machine.

use crate::opening::opened;
use crate::step::{Outcome, Step};
use crate::view::{Desk, Head, View};
use crate::words::{Words, step_of};
use commons::limits::Limits;
use commons::refusal::Refusal;
use std::alloc::Global;
use std::marker::Model;

/// A world of words and views, which obeys all laws.
#[derive(Debug, Drop)]
pub struct World {
    words: Words,
}

impl Model for World {
    ghost use Rattle.step_core.specs.World.{World as Machine};

    ghost Value = { Machine };

    ghost use Rattle.step_core.specs.Kept.{world_of, IsWorld};

    ghost view = { λ w. world_of w.words };

    ghost invariant = { λ w. IsWorld (world_of w.words) };
}

impl World {
    ghost use Rattle.std.specs.Prelude.{◌≡◌, IfOk, IfErr};
    ghost use Rattle.commons.specs.Lists.{IsMakeCause};
    ghost use Rattle.step_core.specs.Kept.{IsWorld, AnswersTo};
    ghost use Rattle.step_core.specs.Opening.{opening};
    ghost use Rattle.step_core.specs.Steps.{play};

    /// The world at the start: all elements common, element 0 on top, and nothing seen.
    ///
    /// Refused `BadPool` where the limits are out of range, and `OutOfMemory` where memory was
    /// refused.
    pub fn open(alloc: Global, limits: &Limits) -> Result<World, Refusal>
        ensures ok { IfOk result (λ w. w ≡ opening limits.now) }
        ensures cause { IfErr result (IsMakeCause limits.now) }
    {
        limits.check()?;
        match opened(alloc, limits) {
            Ok(words) => Ok(World { words }),
            Err(_) => Err(Refusal::OutOfMemory),
        }
    }

    /// One step of a worker, numbered from 1.
    ///
    /// Refused `StepRefused` exactly where the step's condition fails, and `OutOfMemory` where it
    /// would be done and memory was refused for a list of the worker's view that it makes longer.
    /// The world is then as before.
    pub fn step(&mut self, worker: u32, step: Step) -> Result<Outcome, Refusal>
        ensures step { AnswersTo step (play self.old worker step) self.old result self.new }
        ensures world { IsWorld self.new }
    {
        self.step_by(worker, &step)
    }

    /// The pool's limits.
    pub fn limits(&self) -> Limits
        ensures limits { result ≡ self.now.limits }
        ensures world { IsWorld self.now }
    {
        self.words.limits
    }

    /// The head.
    pub fn head(&self) -> Head
        ensures head { result ≡ self.now.head }
        ensures world { IsWorld self.now }
    {
        self.words.head
    }

    /// The length word.
    pub fn length(&self) -> u64
        ensures length { result ≡ self.now.length }
        ensures world { IsWorld self.now }
    {
        self.words.length
    }

    /// The link of each element, 0 for the end and else an element + 1.
    pub fn links(&self) -> &[u32]
        ensures links { result.now ≡ self.now.links }
        ensures world { IsWorld self.now }
    {
        self.words.links.as_slice()
    }

    /// The count of each element.
    pub fn counts(&self) -> &[u32]
        ensures counts { result.now ≡ self.now.counts }
        ensures world { IsWorld self.now }
    {
        self.words.counts.as_slice()
    }

    /// The desks.
    pub fn desks(&self) -> &[Desk]
        ensures desks { result.now ≡ self.now.desks }
        ensures world { IsWorld self.now }
    {
        self.words.desks.as_slice()
    }

    /// The view of each worker, worker 1's first.
    pub fn views(&self) -> &[View]
        ensures views { result.now ≡ self.now.views }
        ensures world { IsWorld self.now }
    {
        self.words.views.as_slice()
    }

    /// The same step, which is kept.
    pub(crate) fn step_by(&mut self, worker: u32, step: &Step) -> Result<Outcome, Refusal>
        ensures step { AnswersTo step.now (play self.old worker step.now) self.old result self.new }
        ensures world { IsWorld self.new }
    {
        step_of(&mut self.words, worker, step)
    }
}
