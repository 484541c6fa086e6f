//! What is told behind the line of a script's fault.

ghost use Rattle.std.specs.Prelude.{MatchOption};
ghost use Rattle.script_reasons.specs.Seconds.{IsSecond, IsStepSecond, IsWritten};
ghost use Rattle.script_text.specs.Grammar.{IsSomeScript};
ghost use Rattle.script_text.specs.StepGrammar.{IsSomeStepScript};

use crate::explaining::{explain, explain_steps};
use crate::reason::Explanation;
use std::alloc::Global;

/// What is told behind the line of a script's fault.
#[derive(Drop)]
pub enum Second {
    /// The explanation, as it is written.
    Line(Vec<u8>),
    /// Memory was refused for it.
    NoMemory,
}

/// What is told of bytes that aren't a script of commands, or `None` where they are one.
pub fn second_line(alloc: Global, bytes: &[u8]) -> Option<Second>
    ensures { MatchOption result (IsSomeScript bytes.now) (IsSecond bytes.now) }
{
    match explain(alloc, bytes) {
        Ok(None) => None,
        Ok(Some(explanation)) => Some(written(alloc, &explanation)),
        Err(_) => Some(Second::NoMemory),
    }
}

/// What is told of bytes that aren't a script of steps, or `None` where they are one.
pub fn second_line_of_steps(alloc: Global, bytes: &[u8]) -> Option<Second>
    ensures { MatchOption result (IsSomeStepScript bytes.now) (IsStepSecond bytes.now) }
{
    match explain_steps(alloc, bytes) {
        Ok(None) => None,
        Ok(Some(explanation)) => Some(written(alloc, &explanation)),
        Err(_) => Some(Second::NoMemory),
    }
}

/// An explanation as it is written, unless memory is refused.
fn written(alloc: Global, explanation: &Explanation<'_>) -> Second
    ensures { IsWritten explanation.now result }
{
    let mut text = Vec::new(alloc);
    match explanation.write(&mut text) {
        Ok(()) => Second::Line(text),
        Err(_) => Second::NoMemory,
    }
}
