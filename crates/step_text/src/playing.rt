//! A script of steps, played line by line.
ghost use Rattle.std.specs.Prelude.{◌≡◌, ◌++◌, IfErr, IfOk, List, MatchResult, OnOk, option_map};
ghost use Rattle.script_text.specs.StepGrammar.{IsStepCause, IsStepScript};
ghost use Rattle.script_text.specs.StepLine.{StepLine as SteppedLine};
ghost use Rattle.step_core.specs.World.{Limits};
ghost use Rattle.step_text.specs.Playing.{after_line, after_lines, answer_line, line_text, lines_text, play_line as played_line, reply_of};
ghost use Rattle.step_text.specs.Printed.{IsPrintedFor, IsPrintedFrom, IsStepsPrint};

use crate::asked::step_of;
use crate::replies::{reads_link, write_outcome, write_refused};
use crate::world::world_text;
use commons::refusal::Refusal;
use script_text::parse_steps;
use script_text::steps::{Step as Asked, StepLine, StepScript};
use std::alloc::Global;
use std::io;
use std::io::Write;
use step_core::step::Outcome;
use step_core::world::World;

/// All that the steps of a script print: a line for what each step answered, and then the world
/// that they lead to. A step that is refused prints so, and the next line goes on.
///
/// Refused as reading the script is: `BadPool` where no pool can be made within the limits of its
/// pool line, and `ScriptFault` with the number of the first faulty line, or 0 where the bytes are
/// more than a script has. `OutOfMemory` comes only where memory was refused.
pub fn run_steps(alloc: Global, bytes: &[u8]) -> Result<Vec<u8>, Refusal>
    // What is printed is what the machine's steps say of the script that the bytes are.
    ensures printed { IfOk result (λ out. IsStepsPrint bytes.now out.items) }

    // Why nothing is printed.
    ensures faults { IfErr result (λ refusal. IsStepCause bytes.now refusal) }

    // Where the bytes are a script of steps, nothing else is printed, and only memory can be
    // missing.
    ensures only { (limits : Limits) (lines : List SteppedLine) →
        IsStepScript bytes.now limits lines → MatchResult result
        (λ out. IsPrintedFor limits lines out.items)
        (λ refusal. refusal ≡ Refusal.OutOfMemory) }
{
    match parse_steps(alloc, bytes) {
        Ok(script) => printed(alloc, &script),
        Err(refusal) => Err(refusal),
    }
}

/// What is printed for a script.
fn printed(alloc: Global, script: &StepScript) -> Result<Vec<u8>, Refusal>
    ensures text { IfOk result (λ out.
        IsPrintedFor script.now.pools.first script.now.lines out.items) }
    ensures memory { IfErr result (λ refusal. refusal ≡ Refusal.OutOfMemory) }
{
    let world = World::open(alloc, &script.pools.first)?;
    printed_from(alloc, world, script.lines.as_slice())
}

/// What is printed for these lines from a world on.
fn printed_from(alloc: Global, mut world: World, lines: &[StepLine]) -> Result<Vec<u8>, Refusal>
    ensures text { IfOk result (λ out. IsPrintedFrom world lines.now out.items) }
    ensures memory { IfErr result (λ refusal. refusal ≡ Refusal.OutOfMemory) }
{
    let mut out = Vec::new(alloc);
    play_lines(&mut out, &mut world, lines)?;
    let text = world_text(alloc, &world)?;
    match out.extend_from_slice(&text) {
        Ok(()) => Ok(out),
        Err(_) => Err(Refusal::OutOfMemory),
    }
}

/// Plays the lines, and appends what each answered.
fn play_lines(out: &mut Vec<u8>, world: &mut World, lines: &[StepLine]) -> Result<(), Refusal>
    ensures text { OnOk result (out.new.items ≡ out.old.items ++ lines_text world.old lines.now) }
    ensures world { OnOk result (world.new ≡ after_lines world.old lines.now) }
    ensures memory { IfErr result (λ refusal. refusal ≡ Refusal.OutOfMemory) }
{
    for line in lines {
        play_line(out, world, line)?;
    }
    Ok(())
}

/// Plays one line, and appends what it answered.
fn play_line(out: &mut Vec<u8>, world: &mut World, line: &StepLine) -> Result<(), Refusal>
    ensures text { OnOk result (out.new.items ≡ out.old.items ++ line_text world.old line.now) }
    ensures world { OnOk result (world.new ≡ after_line world.old line.now) }
    ensures memory { IfErr result (λ refusal. refusal ≡ Refusal.OutOfMemory) }
{
    let outcome = played(world, line)?;
    match write_line(out, line, &outcome) {
        Ok(()) => Ok(()),
        Err(_) => Err(Refusal::OutOfMemory),
    }
}

/// What a line's step answers, `None` where it is refused.
fn played(world: &mut World, line: &StepLine) -> Result<Option<Outcome>, Refusal>
    ensures outcome { IfOk result
        (λ answer. answer ≡ option_map (λ p. p.0) (played_line world.old line.now)) }
    ensures world { OnOk result (world.new ≡ after_line world.old line.now) }
    ensures memory { IfErr result (λ refusal. refusal ≡ Refusal.OutOfMemory) }
{
    let Some(step) = step_of(&world.limits(), &line.command) else {
        return Ok(None);
    };
    match world.step(line.worker, step) {
        Ok(outcome) => Ok(Some(outcome)),
        Err(Refusal::StepRefused) => Ok(None),
        Err(_) => Err(Refusal::OutOfMemory),
    }
}

#[tactic(auto, unfolding(crate::specs::Playing::answer_line))]
fn write_line(out: &mut Vec<u8>, line: &StepLine, outcome: &Option<Outcome>) -> io::Result<()>
    ensures { OnOk result (out.new.items ≡ out.old.items ++ answer_line line.now outcome.now) }
{
    write!(out, "{}: ", line.number)?;
    write_reply(out, &line.command, outcome)?;
    writeln!(out)
}

/// What a step answers, or that it was refused.
fn write_reply(out: &mut Vec<u8>, asked: &Asked, outcome: &Option<Outcome>) -> io::Result<()>
    ensures { OnOk result (out.new.items ≡ out.old.items ++ reply_of asked.now outcome.now) }
{
    match outcome {
        Some(outcome) => write_outcome(out, reads_link(asked), outcome),
        None => write_refused(out),
    }
}
