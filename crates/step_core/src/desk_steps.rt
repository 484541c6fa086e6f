//! The six steps of the desks, by the worker at an index.

ghost use Rattle.std.specs.Prelude.{◌<◌, vec_len};
ghost use Rattle.step_core.specs.Kept.{world_of, IsWorld, Turns};
ghost use Rattle.step_core.specs.Steps.{turn};

use crate::packets::{copy_of, has_all, is_below};
use crate::step::{Outcome, Step};
use crate::view::{Phase, Work};
use crate::words::Words;
use commons::packet::Packet;
use commons::refusal::Refusal;

/// Begins to fill a desk, if it is empty.
pub fn hold(words: &mut Words, index: usize, desk: u32) -> Result<Outcome, Refusal>
    requires world { IsWorld (world_of words.old) }
    requires index { index < vec_len words.old.views }
    ensures { Turns (world_of words.old) index (Step.Hold desk) result (world_of words.new) }
{
    let at = desk as usize;
    if at >= words.desks.len() || words.views[index].work.is_some() {
        return Err(Refusal::StepRefused);
    }
    let word = words.desks[at].word;
    if word != 0 {
        return Ok(Outcome::Lost(word));
    }
    words.desks[at].word = 1;
    words.views[index].work = Some(Work {
        desk,
        phase: Phase::ToFill,
    });
    Ok(Outcome::Won)
}

/// Puts a packet into the slot of the busy desk.
pub fn put_in(
    words: &mut Words,
    index: usize,
    desk: u32,
    packet: &Packet,
) -> Result<Outcome, Refusal>
    requires world { IsWorld (world_of words.old) }
    requires index { index < vec_len words.old.views }
    ensures { Turns (world_of words.old) index (Step.PutIn desk packet.now) result (world_of words.new) }
{
    let at = desk as usize;
    if at >= words.desks.len() || !is_below(packet, words.limits.population) {
        return Err(Refusal::StepRefused);
    }
    let view = &words.views[index];
    match view.phase_at(desk) {
        Some(Phase::ToFill) => {}
        Some(Phase::Filled(_)) => return Err(Refusal::StepRefused),
        Some(Phase::Seized(_)) => return Err(Refusal::StepRefused),
        Some(Phase::TakenOut) => return Err(Refusal::StepRefused),
        None => return Err(Refusal::StepRefused),
    }
    words.desks[at].slot = Some(copy_of(packet));
    words.views[index].work = Some(Work {
        desk,
        phase: Phase::Filled(copy_of(packet)),
    });
    Ok(Outcome::Done)
}

/// Makes the busy desk empty.
pub fn clear(words: &mut Words, index: usize, desk: u32) -> Result<Outcome, Refusal>
    requires world { IsWorld (world_of words.old) }
    requires index { index < vec_len words.old.views }
    ensures { Turns (world_of words.old) index (Step.Clear desk) result (world_of words.new) }
{
    let at = desk as usize;
    if at >= words.desks.len() {
        return Err(Refusal::StepRefused);
    }
    let view = &words.views[index];
    match view.phase_at(desk) {
        Some(Phase::TakenOut) => {}
        Some(Phase::ToFill | Phase::Filled(_) | Phase::Seized(_)) => {
            return Err(Refusal::StepRefused);
        }
        None => return Err(Refusal::StepRefused),
    }
    words.desks[at].word = 0;
    words.views[index].work = None;
    Ok(Outcome::Done)
}

/// Makes the busy desk full, with what is in its slot.
pub fn open(words: &mut Words, index: usize, desk: u32) -> Result<Outcome, Refusal>
    requires world { IsWorld (world_of words.old) }
    requires index { index < vec_len words.old.views }
    ensures { Turns (world_of words.old) index (Step.Open desk) result (world_of words.new) }
{
    let at = desk as usize;
    if at >= words.desks.len() {
        return Err(Refusal::StepRefused);
    }
    let view = &words.views[index];
    let packet = match view.phase_at(desk) {
        Some(Phase::Filled(packet)) => copy_of(packet),
        Some(Phase::ToFill) => return Err(Refusal::StepRefused),
        Some(Phase::Seized(_)) => return Err(Refusal::StepRefused),
        Some(Phase::TakenOut) => return Err(Refusal::StepRefused),
        None => return Err(Refusal::StepRefused),
    };
    if !has_all(&view.holds, &packet) {
        return Err(Refusal::StepRefused);
    }
    let view = &mut words.views[index];
    view.open(&packet);
    view.work = None;
    words.desks[at].word = 2;
    Ok(Outcome::Done)
}

/// Begins to empty a desk, if it is full.
pub fn seize(words: &mut Words, index: usize, desk: u32) -> Result<Outcome, Refusal>
    requires world { IsWorld (world_of words.old) }
    requires index { index < vec_len words.old.views }
    ensures { Turns (world_of words.old) index (Step.Seize desk) result (world_of words.new) }
{
    let at = desk as usize;
    if at >= words.desks.len() || words.views[index].work.is_some() {
        return Err(Refusal::StepRefused);
    }
    let word = words.desks[at].word;
    if word != 2 {
        return Ok(Outcome::Lost(word));
    }
    let packet = match &words.desks[at].slot {
        Some(packet) => copy_of(packet),
        None => return Err(Refusal::StepRefused),
    };
    let view = &mut words.views[index];
    if view.seize(&packet).is_err() {
        return Err(Refusal::OutOfMemory);
    }
    view.work = Some(Work {
        desk,
        phase: Phase::Seized(packet),
    });
    words.desks[at].word = 3;
    Ok(Outcome::Won)
}

/// Takes the packet out of the slot of the busy desk.
pub fn take_out(words: &mut Words, index: usize, desk: u32) -> Result<Outcome, Refusal>
    requires world { IsWorld (world_of words.old) }
    requires index { index < vec_len words.old.views }
    ensures { Turns (world_of words.old) index (Step.TakeOut desk) result (world_of words.new) }
{
    let at = desk as usize;
    if at >= words.desks.len() {
        return Err(Refusal::StepRefused);
    }
    let view = &words.views[index];
    let packet = match view.phase_at(desk) {
        Some(Phase::Seized(packet)) => copy_of(packet),
        Some(Phase::ToFill) => return Err(Refusal::StepRefused),
        Some(Phase::Filled(_)) => return Err(Refusal::StepRefused),
        Some(Phase::TakenOut) => return Err(Refusal::StepRefused),
        None => return Err(Refusal::StepRefused),
    };
    words.desks[at].slot = None;
    words.views[index].work = Some(Work {
        desk,
        phase: Phase::TakenOut,
    });
    Ok(Outcome::Found(packet))
}
