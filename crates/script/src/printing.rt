//! All that the replay of a script prints.
ghost use Rattle.std.specs.Prelude.{◌≡◌, ◌++◌, List, flat_map, IfOk, IfErr, OnOk, MatchResult};
ghost use Rattle.commons.specs.declared.refusal.Refusal.{Refusal};
ghost use Rattle.script_text.specs.declared.lines.Pools.{Pools};
ghost use Rattle.script_text.specs.Commands.{Line};
ghost use Rattle.script_text.specs.Grammar.{IsScript, IsCause};
ghost use Rattle.script.specs.ReplyText.{reply_line};
ghost use Rattle.script.specs.Printed.{printed_for, IsPrintedFor};
ghost use Rattle.script.specs.Replay.{CommandHasRoom, end_of, played, replies_to, settled_of};
ghost use Rattle.script.specs.inside.Standing.{fresh_run, run_of, stock_of};
ghost use Rattle.statement_text.specs.StatementText.{text_of_settled};

use crate::names::Names;
use crate::playing::perform_line;
use crate::sites::Sites;
use crate::texts::push_reply;
use commons::refusal::Refusal;
use mbuf::acts::Reply;
use script_text::commands::{Command, Line, Script};
use script_text::parse;
use statement_text::statement_text;
use std::alloc::{AllocError, Global};

/// All that the replay of a script prints: a line for the reply to each command, and then the
/// statement that places every element, or with a second pool both statements.
///
/// Refused as reading the script is: `BadPool` where no pools can be made within the limits of its
/// pool line, and `ScriptFault` with the number of the first faulty line, or 0 where the bytes are
/// more than a script has. `OutOfMemory` comes only where memory was refused.
pub fn run_replay(alloc: Global, bytes: &[u8]) -> Result<Vec<u8>, Refusal>
    // What is printed is what the reference model prints for the script that the bytes are.
    ensures printed { IfOk result (λ out. IsPrintedFor bytes.now out.items) }

    // Why nothing is printed.
    ensures faults { IfErr result (λ refusal. IsCause bytes.now refusal) }

    // Where the bytes are a script, nothing else is printed, and only memory can be missing.
    ensures only { (pools : Pools) (lines : List Line) → IsScript bytes.now pools lines →
        MatchResult result (λ out. out.items ≡ printed_for pools lines) (λ refusal. refusal ≡ Refusal.OutOfMemory) }
{
    match parse(alloc, bytes) {
        Ok(script) => printed(alloc, &script),
        Err(refusal) => Err(refusal),
    }
}

/// What is printed for a script.
fn printed(alloc: Global, script: &Script) -> Result<Vec<u8>, Refusal>
    ensures text { IfOk result (λ out. out.items ≡ printed_for script.now.pools script.now.lines) }
    ensures memory { IfErr result (λ refusal. refusal ≡ Refusal.OutOfMemory) }
{
    let sites = Sites::make(alloc, &script.pools)?;
    printed_on(alloc, sites, script.lines.as_slice())
}

/// What is printed for these lines on pools in which no name stands for anything, which they end.
fn printed_on(alloc: Global, mut sites: Sites, lines: &[Line]) -> Result<Vec<u8>, Refusal>
    ensures text { IfOk result (λ out. out.items ≡ flat_map (λ p. reply_line p.0 p.1) (replies_to lines.now (fresh_run sites)) ++ text_of_settled (settled_of (end_of lines.now (fresh_run sites)).stock)) }
    ensures memory { IfErr result (λ refusal. refusal ≡ Refusal.OutOfMemory) }
{
    match reply_lines(alloc, &mut sites, lines) {
        Ok(out) => printed_end(alloc, sites, out),
        Err(cause) => {
            sites.lose();
            Err(cause)
        }
    }
}

/// What was printed so far, and after it what the pools come to, which it ends.
fn printed_end(alloc: Global, sites: Sites, mut out: Vec<u8>) -> Result<Vec<u8>, Refusal>
    ensures text { IfOk result (λ all. all.items ≡ out.items ++ text_of_settled (settled_of (stock_of sites))) }
    ensures memory { IfErr result (λ refusal. refusal ≡ Refusal.OutOfMemory) }
{
    let settled = sites.settled(alloc)?;
    let text = statement_text(alloc, &settled)?;
    match out.extend_from_slice(&text) {
        Ok(()) => Ok(out),
        Err(_) => Err(Refusal::OutOfMemory),
    }
}

/// The lines that answer the commands, each written as its reply comes.
fn reply_lines(alloc: Global, sites: &mut Sites, lines: &[Line]) -> Result<Vec<u8>, Refusal>
    ensures lines { IfOk result (λ out. out.items ≡ flat_map (λ p. reply_line p.0 p.1) (replies_to lines.now (fresh_run sites.old))) }
    ensures sites { OnOk result (stock_of sites.new ≡ (end_of lines.now (fresh_run sites.old)).stock) }
    ensures memory { IfErr result (λ refusal. refusal ≡ Refusal.OutOfMemory) }
{
    let mut names = Names::new(alloc);
    let mut out = Vec::new(alloc);
    for line in lines {
        answer(&mut out, sites, &mut names, line)?;
    }
    Ok(out)
}

/// Performs one line, and appends the line that answers it.
fn answer<'a>(
    out: &mut Vec<u8>,
    sites: &mut Sites,
    names: &mut Names<'a>,
    line: &'a Line,
) -> Result<(), Refusal>
    ensures text { OnOk result (out.new.items ≡ out.old.items ++ reply_line line.now.number (played line.now.worker line.now.command (run_of sites.old names.old)).0) }
    ensures run { OnOk result (run_of sites.new names.new ≡ (played line.now.worker line.now.command (run_of sites.old names.old)).1) }
    ensures memory { IfErr result (λ refusal. refusal ≡ Refusal.OutOfMemory) }
{
    match &line.command {
        Command::Bulk(_) => answer_bulk(out, sites, names, line),
        _ => match perform_line::<0>(sites, names, line) {
            Ok(reply) => push_reply(out, line.number, &reply),
            Err(_) => Err(Refusal::OutOfMemory),
        },
    }
}

/// Performs one line with room for any bulk in the answer, and appends the line that answers it.
fn answer_bulk<'a>(
    out: &mut Vec<u8>,
    sites: &mut Sites,
    names: &mut Names<'a>,
    line: &'a Line,
) -> Result<(), Refusal>
    ensures text { OnOk result (out.new.items ≡ out.old.items ++ reply_line line.now.number (played line.now.worker line.now.command (run_of sites.old names.old)).0) }
    ensures run { OnOk result (run_of sites.new names.new ≡ (played line.now.worker line.now.command (run_of sites.old names.old)).1) }
    ensures memory { IfErr result (λ refusal. refusal ≡ Refusal.OutOfMemory) }
{
    let reply: Result<Reply, AllocError> = perform_line(sites, names, line);
    match reply {
        Ok(reply) => push_reply(out, line.number, &reply),
        Err(_) => Err(Refusal::OutOfMemory),
    }
}
