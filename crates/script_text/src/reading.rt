//! Reading a script.
//!
//! A script has at most 1,048,576 bytes, in lines that each end with a line feed. A line has at
//! most 8,192 bytes before its end, each a space or a printed ASCII character. Lines of spaces
//! only and lines whose first word begins with `#` are skipped. The first other line is the pool
//! line, `pool` with the number of elements and then, in any order, keys with their numbers:
//! `cache`, `workers`, `desks`, `buf`, `refs`, `tries`, `start` and `putrule`, each at most once.
//! In a script of commands `second` may stand there too, a second pool's number of elements, and
//! beside it `secondcache`, that pool's cache. After the pool line come at most 10,000 lines with a
//! command each, or with a step each. A line is the first worker's, or that of the one whose number
//! stands in front with a colon after it, as `2: flush`. A number is 1 to 20 digits with a value
//! below 2^64.
//!
//! In a script of commands the lines are:
//!
//! - `alloc P`, `bulk P ..` of 1 to 256 names, `clone Q P`, `take D P` and, where there is a second
//!   pool, `cloneto Q P` make the names P;
//! - `free P`, `append P L`, `prepend P L`, `adj P L`, `trim P L`, `chain P Q`, `attach P Q`,
//!   `detach P`, `count P` and `offer P D` name any packets, with a length L or a desk D of at
//!   most 65,535;
//! - `flush` names nothing.
//!
//! A name is 1 to 16 of `a` to `z` and `0` to `9` that begin with a letter. Names are each
//! worker's own; a name is made by at most one line of its worker, and once in that line.
//!
//! In a script of steps the lines are:
//!
//! - `loadlength`, `loadhead`, `cut` and `push`, which stand alone;
//! - `reserve S N` and `add N`, with numbers;
//! - `loadlink I`, `claim I`, `sole I`, `solefree I`, `lower I`, `reset I`, `storelink I J` and
//!   `raise I S`, with elements I and J, each a number or `-` for the end, and a number S;
//! - `hold D`, `open D`, `seize D`, `takeout D` and `clear D`, with a desk of at most 65,535;
//! - `putin D G ..`, with a desk and 1 to 32 segments, each an element `E`, or `E>B` with the
//!   base B.
//!
//! A step makes no names, and its elements and desk need not be in the pool's range.

ghost use Rattle.std.specs.Prelude.{◌≡◌, List, None, IfOk, IfErr, MatchResult};
ghost use Rattle.commons.specs.declared.limits.Limits.{Limits};
ghost use Rattle.script_text.specs.declared.lines.Pools.{Pools};
ghost use Rattle.commons.specs.declared.refusal.Refusal.{Refusal};
ghost use Rattle.script_text.specs.Commands.{Line};
ghost use Rattle.script_text.specs.Grammar.{IsScript, IsCause};
ghost use Rattle.script_text.specs.PoolLine.{one_pool};
ghost use Rattle.script_text.specs.StepGrammar.{IsStepScript, IsStepCause};
ghost use Rattle.script_text.specs.StepLine.{StepLine};
ghost use Rattle.script_text.specs.inside.ScriptReading.{read_text};
ghost use Rattle.script_text.specs.inside.Agreement.{Gives, refusal_at};

use crate::commands::{Command, Script};
use crate::from_words::FromWords;
use crate::line::next_line;
use crate::lines;
use crate::reader::{Reader, Stop};
use crate::steps::{Step, StepScript};
use commons::refusal::Refusal;
use std::alloc::Global;

/// The most bytes that a script has.
pub const MAX_BYTES: usize = 1_048_576;

/// The refusal for a line with this number.
fn refused_at(stop: Stop, number: u32) -> Refusal
    ensures { result ≡ refusal_at stop number }
{
    match stop {
        Stop::Fault => Refusal::ScriptFault(number),
        Stop::BadPool => Refusal::BadPool,
        Stop::OutOfMemory => Refusal::OutOfMemory,
    }
}

/// Reads the lines of a script one after another.
fn script_of<C: FromWords>(alloc: Global, bytes: &[u8]) -> Result<lines::Script<C>, Refusal>
    ensures { Gives result (read_text C.lexicon bytes.now) }
{
    if bytes.len() > MAX_BYTES {
        return Err(Refusal::ScriptFault(0));
    }
    let mut reader = Reader::<C>::new(alloc);
    let mut number = 1u32;
    let mut rest = bytes;
    while let Some((line, after)) = next_line(rest) {
        if let Err(stop) = reader.read_line(alloc, number, line) {
            return Err(refused_at(stop, number));
        }
        number += 1;
        rest = after;
    }
    if !rest.is_empty() {
        return Err(Refusal::ScriptFault(number));
    }
    match reader.finish() {
        Some(script) => Ok(script),
        None => Err(Refusal::ScriptFault((number - 1).max(1))),
    }
}

/// Reads a script of commands: the script that the bytes are in its grammar, or why they are none.
///
/// Refused `BadPool` where no pool can be made within the limits of the pool line, and
/// `ScriptFault` with the number of the first faulty line, or 0 where there are more than
/// `MAX_BYTES` bytes. `OutOfMemory` comes only where memory was refused.
pub fn parse(alloc: Global, bytes: &[u8]) -> Result<Script, Refusal>
    // What is read is in the grammar.
    ensures read { IfOk result (λ script. IsScript bytes.now script.pools script.lines) }

    // Why nothing is read.
    ensures faults { IfErr result (λ refusal. IsCause bytes.now refusal) }

    // What is in the grammar is read as that script and no other, unless memory is refused.
    ensures only { (pools : Pools) (lines : List Line) → IsScript bytes.now pools lines →
        MatchResult result
        (λ script. (script.pools ≡ pools) × (script.lines ≡ lines))
        (λ refusal. refusal ≡ Refusal.OutOfMemory) }
{
    script_of::<Command>(alloc, bytes)
}

/// Reads a script of steps: the script that the bytes are in its grammar, or why they are none.
/// It has the same form as one of commands, with a step in place of each command.
///
/// Refused as `parse` is: `BadPool` where no pool can be made within the limits of the pool line,
/// `ScriptFault` with the number of the first faulty line, or 0 where there are more than
/// `MAX_BYTES` bytes, and `OutOfMemory` only where memory was refused. An element or a desk that
/// the pool doesn't have is not a fault of its line.
pub fn parse_steps(alloc: Global, bytes: &[u8]) -> Result<StepScript, Refusal>
    // What is read is in the grammar.
    ensures read { IfOk result (λ script.
        IsStepScript bytes.now script.pools.first script.lines) }

    // There is no second pool.
    ensures alone { IfOk result (λ script. script.pools.second ≡ None) }

    // Why nothing is read.
    ensures faults { IfErr result (λ refusal. IsStepCause bytes.now refusal) }

    // What is in the grammar is read as that script and no other, unless memory is refused.
    ensures only { (limits : Limits) (lines : List StepLine) → IsStepScript bytes.now limits lines →
        MatchResult result
        (λ script. (script.pools ≡ one_pool limits) × (script.lines ≡ lines))
        (λ refusal. refusal ≡ Refusal.OutOfMemory) }
{
    script_of::<Step>(alloc, bytes)
}
