//! Schedules.

ghost use Rattle.std.specs.Prelude.{IfOk, IfErr};
ghost use Rattle.step_core.specs.Kept.{IsWorld};
ghost use Rattle.step_core.specs.Runs.{WalksFrom, Stopped};

use crate::step::{Outcome, Step};
use crate::world::World;
use commons::refusal::Refusal;
use std::alloc::Global;

/// Plays the steps in order, each by the worker of this number, up to the first that is refused,
/// and answers their outcomes.
///
/// Refused `StepRefused` where a step's condition fails, and `OutOfMemory` where there is no
/// memory for the outcomes, before the first step, or for a list that a step would make longer.
/// The world is then as the steps before it left it, and no step after it was played.
pub fn run(alloc: Global, world: &mut World, steps: &[(u32, Step)]) -> Result<Vec<Outcome>, Refusal>
    ensures whole { IfOk result (λ outcomes. WalksFrom world.old steps.now outcomes.items world.new) }
    ensures stopped { IfErr result (λ refusal. Stopped world.old steps.now refusal world.new) }
    ensures world { IsWorld world.new }
{
    let _known = world.limits();
    let Ok(mut outcomes) = Vec::with_capacity(alloc, steps.len()) else {
        return Err(Refusal::OutOfMemory);
    };
    for i in 0..steps.len() {
        let step = &steps[i];
        match world.step_by(step.0, &step.1) {
            // The room for all outcomes was taken before the first step.
            Ok(outcome) => outcomes.push_reserved(outcome),
            Err(refusal) => return Err(refusal),
        }
    }
    Ok(outcomes)
}
