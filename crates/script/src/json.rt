//! What a replay prints as JSON: what the pools come to at the end.
ghost use Rattle.std.specs.Prelude.{◌≡◌, List, IfErr, IfOk, MatchResult};
ghost use Rattle.script_text.specs.declared.lines.Pools.{Pools};
ghost use Rattle.script_text.specs.Commands.{Line};
ghost use Rattle.script_text.specs.Grammar.{IsCause, IsScript};
ghost use Rattle.script.specs.Printed.{json_for, IsJsonFor};
ghost use Rattle.script.specs.Replay.{end_of, settled_of};
ghost use Rattle.script.specs.inside.Standing.{fresh_run};

use crate::playing::play_all;
use crate::sites::Sites;
use commons::refusal::Refusal;
use pool_statement::settled::Settled;
use script_text::commands::{Line, Script};
use script_text::parse;
use statement_text::statement_json;
use std::alloc::Global;

/// All that the replay of a script prints as JSON: the statement that places every element, or with
/// a second pool an object of both statements, as one line, and no reply lines.
///
/// Refused as `run_replay` is.
pub fn run_replay_json(alloc: Global, bytes: &[u8]) -> Result<Vec<u8>, Refusal>
    // What is printed is the JSON of what the reference model's pools come to, for the script
    // that the bytes are.
    ensures printed { IfOk result (λ out. IsJsonFor bytes.now out.items) }

    // Why nothing is printed.
    ensures faults { IfErr result (λ refusal. IsCause bytes.now refusal) }

    // Where the bytes are a script, nothing else is printed, and only memory can be missing.
    ensures only { (pools : Pools) (lines : List Line) → IsScript bytes.now pools lines →
        MatchResult result (λ out. out.items ≡ json_for pools lines) (λ refusal. refusal ≡ Refusal.OutOfMemory) }
{
    match parse(alloc, bytes) {
        Ok(script) => end(alloc, &script),
        Err(refusal) => Err(refusal),
    }
}

/// The JSON of what a script's pools come to at its end.
fn end(alloc: Global, script: &Script) -> Result<Vec<u8>, Refusal>
    ensures text { IfOk result (λ out. out.items ≡ json_for script.now.pools script.now.lines) }
    ensures memory { IfErr result (λ refusal. refusal ≡ Refusal.OutOfMemory) }
{
    let sites = Sites::make(alloc, &script.pools)?;
    let settled = settled_after(alloc, sites, script.lines.as_slice())?;
    statement_json(alloc, &settled)
}

/// What pools in which no name stands for anything come to after these lines, which end them.
fn settled_after(alloc: Global, mut sites: Sites, lines: &[Line]) -> Result<Settled, Refusal>
    ensures settled { IfOk result (λ s. s ≡ settled_of (end_of lines.now (fresh_run sites)).stock) }
    ensures memory { IfErr result (λ refusal. refusal ≡ Refusal.OutOfMemory) }
{
    match play_all(alloc, &mut sites, lines) {
        Ok(()) => sites.settled(alloc),
        Err(_) => {
            sites.lose();
            Err(Refusal::OutOfMemory)
        }
    }
}
