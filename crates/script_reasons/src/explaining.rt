//! Why a script isn't read.

ghost use Rattle.std.specs.Prelude.{◌≡◌, ◌⊎◌, IfErr, IfOk, MatchOption};
ghost use Rattle.script_reasons.specs.Lines.{IsExplained, IsFirstWritten, IsStepExplained};
ghost use Rattle.script_text.specs.Grammar.{HasBadPool, IsCause, IsSomeScript};
ghost use Rattle.script_text.specs.StepGrammar.{HasBadStepPool, IsSomeStepScript, IsStepCause};

use crate::command_reasons::in_command;
use crate::pool_reasons::{in_limits, in_pool_line};
use crate::reason::Explanation;
use crate::step_reasons::in_step;
use crate::walking::{first_written, plain_line};
use crate::words::Wrong;
use commons::refusal::Refusal;
use script_text::{parse, parse_steps};
use std::alloc::Global;

/// Why these bytes aren't a script of commands, or `None` where they are one.
///
/// The line is the one that `parse` names in `ScriptFault`, and of `BadPool` the pool line.
/// Refused `OutOfMemory` alone, where memory was refused.
pub fn explain(alloc: Global, bytes: &[u8]) -> Result<Option<Explanation<'_>>, Refusal>
    // Nothing is told of a script, and of each other text why it is none.
    ensures told { IfOk result (λ found. MatchOption found
        (IsSomeScript bytes.now)
        (λ explanation. IsExplained bytes.now explanation.line)) }
    ensures memory { IfErr result (λ refusal. refusal ≡ Refusal.OutOfMemory) }
{
    match parse(alloc, bytes) {
        Ok(_) => Ok(None),
        Err(refusal) => {
            let explanation = of_refusal(alloc, bytes, refusal)?;
            Ok(Some(explanation))
        }
    }
}

/// Why these bytes are refused as a script of commands.
fn of_refusal<'a>(
    alloc: Global,
    bytes: &'a [u8],
    refusal: Refusal,
) -> Result<Explanation<'a>, Refusal>
    requires { IsCause bytes.now refusal }
    ensures line { IfOk result (λ explanation. IsExplained bytes.now explanation.line) }
    ensures memory { IfErr result (λ refusal. refusal ≡ Refusal.OutOfMemory) }
{
    match refusal {
        Refusal::ScriptFault(number) => {
            let wrong = in_commands(alloc, bytes, number)?;
            Ok(wrong.at(number))
        }
        Refusal::BadPool => Ok(of_pool(bytes)),
        _ => Err(Refusal::OutOfMemory),
    }
}

/// Why these bytes aren't a script of steps, or `None` where they are one: as `explain`.
pub fn explain_steps(alloc: Global, bytes: &[u8]) -> Result<Option<Explanation<'_>>, Refusal>
    // Nothing is told of a script, and of each other text why it is none.
    ensures told { IfOk result (λ found. MatchOption found
        (IsSomeStepScript bytes.now)
        (λ explanation. IsStepExplained bytes.now explanation.line)) }
    ensures memory { IfErr result (λ refusal. refusal ≡ Refusal.OutOfMemory) }
{
    match parse_steps(alloc, bytes) {
        Ok(_) => Ok(None),
        Err(refusal) => {
            let explanation = of_step_refusal(alloc, bytes, refusal)?;
            Ok(Some(explanation))
        }
    }
}

/// Why these bytes are refused as a script of steps.
fn of_step_refusal<'a>(
    alloc: Global,
    bytes: &'a [u8],
    refusal: Refusal,
) -> Result<Explanation<'a>, Refusal>
    requires { IsStepCause bytes.now refusal }
    ensures line { IfOk result (λ explanation. IsStepExplained bytes.now explanation.line) }
    ensures memory { IfErr result (λ refusal. refusal ≡ Refusal.OutOfMemory) }
{
    match refusal {
        Refusal::ScriptFault(line) => {
            let wrong = in_steps(alloc, bytes, line)?;
            Ok(wrong.at(line))
        }
        Refusal::BadPool => Ok(of_pool(bytes)),
        _ => Err(Refusal::OutOfMemory),
    }
}

/// What is wrong in the first faulty line of a script of commands, which has this number.
fn in_commands<'a>(alloc: Global, bytes: &'a [u8], number: u32) -> Result<Wrong<'a>, Refusal>
    ensures { IfErr result (λ refusal. refusal ≡ Refusal.OutOfMemory) }
{
    let found = match plain_line(bytes, number) {
        Ok(found) => found,
        Err(wrong) => return Ok(wrong),
    };
    match parse(alloc, found.before) {
        Ok(script) => Ok(in_command(&script, found.line)),
        Err(Refusal::OutOfMemory) => Err(Refusal::OutOfMemory),
        Err(_) => Ok(in_pool_line(true, found.line)),
    }
}

/// What is wrong in the first faulty line of a script of steps, which has this number.
fn in_steps<'a>(alloc: Global, bytes: &'a [u8], number: u32) -> Result<Wrong<'a>, Refusal>
    ensures { IfErr result (λ refusal. refusal ≡ Refusal.OutOfMemory) }
{
    let found = match plain_line(bytes, number) {
        Ok(found) => found,
        Err(wrong) => return Ok(wrong),
    };
    match parse_steps(alloc, found.before) {
        Ok(script) => Ok(in_step(&script, found.line)),
        Err(Refusal::OutOfMemory) => Err(Refusal::OutOfMemory),
        Err(_) => Ok(in_pool_line(false, found.line)),
    }
}

/// What is wrong in the pool line of a text within whose limits no pool can be made.
fn of_pool(bytes: &[u8]) -> Explanation<'_>
    requires { HasBadPool bytes.now ⊎ HasBadStepPool bytes.now }
    ensures { IsFirstWritten bytes.now result.line }
{
    match first_written(bytes) {
        Some((line, text)) => in_limits(text).at(line),
        None => unreachable!(),
    }
}
