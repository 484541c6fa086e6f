//! What a script's pools leave at its end, as snapshots: what audits of them read.

ghost use Rattle.std.specs.Prelude.{◌≡◌, ◌++◌, ◌≤◌, List, IfErr, IfOk, MatchResult, codes};
ghost use Rattle.script_text.specs.declared.lines.Pools.{Pools};
ghost use Rattle.script_text.specs.Commands.{Line};
ghost use Rattle.script_text.specs.Grammar.{IsCause, IsScript};
ghost use Rattle.script.specs.Replay.{end_of, new_run};
ghost use Rattle.script.specs.Snapshots.{AreLeftByRun, IsRunSnapshotFor, IsSnapshotFor, IsTextOfEnd, IsTextOfRun, Leaves, limits_of, text_of};
ghost use Rattle.script.specs.inside.Standing.{fresh_run, limits_in, stock_of};
ghost use Rattle.snapshot_json.specs.SnapshotData.{json_of};

use crate::gate::OpenGate;
use crate::playing::play_all;
use crate::sites::Sites;
use crate::threaded::{Grounds, run_to_end};
use commons::refusal::Refusal;
use script_text::commands::{Line, Script};
use script_text::parse;
use snapshot::snapshot::Snapshot;
use snapshot_json::snapshot_json;
use std::alloc::Global;
use std::sync::Wait;
use std::thread::Threads;

/// The snapshot of a script's pool, and of a second one, where it has one.
#[derive(Debug, Drop)]
pub struct Snapshots {
    /// The first pool's, with its guests.
    pub first: Snapshot,
    /// The second's.
    pub second: Option<Snapshot>,
}

/// What a script's pool leaves at the end of its replay, as a line of JSON, or with a second pool
/// what both leave, the first pool's line first: the snapshots that audits of them read. Each is
/// lawful, has the script's limits, and its statement is the one that the replay ends with.
///
/// Refused as `run_replay` is.
pub fn run_replay_snapshot(alloc: Global, bytes: &[u8]) -> Result<Vec<u8>, Refusal>
    // What is printed is the text of what the reference model's pools leave, for the script that
    // the bytes are.
    ensures printed { IfOk result (λ out. IsSnapshotFor bytes.now out.items) }

    // Why nothing is printed.
    ensures faults { IfErr result (λ refusal. IsCause bytes.now refusal) }

    // Where the bytes are a script, nothing else is printed, and only memory can be missing.
    ensures only { (pools : Pools) (lines : List Line) → IsScript bytes.now pools lines →
        MatchResult result (λ out. IsTextOfEnd pools lines out.items) (λ refusal. refusal ≡ Refusal.OutOfMemory) }
{
    match parse(alloc, bytes) {
        Ok(script) => replayed(alloc, &script),
        Err(refusal) => Err(refusal),
    }
}

/// What a script's pools leave at the end of a run with a thread for each worker, as the lines of
/// JSON that `run_replay_snapshot` gives. The run is as `run_script`'s; these snapshots have the
/// script's limits, and their statements are what such a run comes to.
///
/// Refused as `run_script` is.
pub fn run_script_snapshot<R: Threads + Wait + Sync>(
    rt: &R,
    alloc: Global,
    bytes: &[u8],
    grounds: Grounds,
    turns: u32,
) -> Result<Vec<u8>, Refusal>
    requires turns { 1 ≤ turns }
    ensures printed { IfOk result (λ out. IsRunSnapshotFor grounds bytes.now out.items) }
    ensures faults { IfErr result (IsCause bytes.now) }
{
    match parse(alloc, bytes) {
        Ok(script) => match run(rt, alloc, &script, grounds, turns) {
            Ok(text) => Ok(text),
            Err(cause) => Err(cause),
        },
        Err(refusal) => Err(refusal),
    }
}

/// The text of what a script's pools leave at the end of a run in threads.
fn run<R: Threads + Wait + Sync>(
    rt: &R,
    alloc: Global,
    script: &Script,
    grounds: Grounds,
    turns: u32,
) -> Result<Vec<u8>, Refusal>
    requires turns { 1 ≤ turns }
    ensures text { IfOk result (λ out. IsTextOfRun grounds script.now.pools out.items) }
    ensures memory { IfErr result (λ refusal. refusal ≡ Refusal.OutOfMemory) }
{
    let snapshots = left_by_run(rt, alloc, script, grounds, turns)?;
    text(alloc, &snapshots)
}

/// The snapshots of what a script's pools leave at the end of a run in threads.
fn left_by_run<R: Threads + Wait + Sync>(
    rt: &R,
    alloc: Global,
    script: &Script,
    grounds: Grounds,
    turns: u32,
) -> Result<Snapshots, Refusal>
    requires turns { 1 ≤ turns }
    ensures left { IfOk result (AreLeftByRun grounds script.now.pools) }
    ensures memory { IfErr result (λ refusal. refusal ≡ Refusal.OutOfMemory) }
{
    let left = run_to_end(rt, alloc, script, grounds, turns, &OpenGate)?;
    left.snapshots(alloc)
}

/// The text of what a script's pools leave at the end of its replay.
fn replayed(alloc: Global, script: &Script) -> Result<Vec<u8>, Refusal>
    ensures text { IfOk result (λ out. IsTextOfEnd script.now.pools script.now.lines out.items) }
    ensures memory { IfErr result (λ refusal. refusal ≡ Refusal.OutOfMemory) }
{
    let snapshots = left_by_replay(alloc, script)?;
    text(alloc, &snapshots)
}

/// The snapshots of what a script's pools leave at the end of its replay.
fn left_by_replay(alloc: Global, script: &Script) -> Result<Snapshots, Refusal>
    ensures left { IfOk result (λ s. Leaves (end_of script.now.lines (new_run script.now.pools)).stock s) }
    ensures limits { IfOk result (λ s. limits_of s ≡ script.now.pools) }
    ensures memory { IfErr result (λ refusal. refusal ≡ Refusal.OutOfMemory) }
{
    let sites = Sites::make(alloc, &script.pools)?;
    left_on(alloc, sites, script.lines.as_slice())
}

/// The snapshots of what these pools leave after these lines, which ends them.
fn left_on(alloc: Global, mut sites: Sites, lines: &[Line]) -> Result<Snapshots, Refusal>
    ensures left { IfOk result (λ s. Leaves (end_of lines.now (fresh_run sites)).stock s) }
    ensures limits { IfOk result (λ s. limits_of s ≡ limits_in (stock_of sites)) }
    ensures memory { IfErr result (λ refusal. refusal ≡ Refusal.OutOfMemory) }
{
    match play_all(alloc, &mut sites, lines) {
        Ok(()) => sites.snapshots(alloc),
        Err(_) => {
            sites.lose();
            Err(Refusal::OutOfMemory)
        }
    }
}

/// The text of snapshots: a line of JSON for each, the first pool's first.
fn text(alloc: Global, snapshots: &Snapshots) -> Result<Vec<u8>, Refusal>
    ensures text { IfOk result (λ out. out.items ≡ text_of snapshots.now) }
    ensures memory { IfErr result (λ refusal. refusal ≡ Refusal.OutOfMemory) }
{
    let first = snapshot_json(alloc, &snapshots.first)?;
    match &snapshots.second {
        None => Ok(first),
        Some(second) => with_line(alloc, first, second),
    }
}

/// A text, and behind it the line of one snapshot more.
fn with_line(alloc: Global, mut out: Vec<u8>, snapshot: &Snapshot) -> Result<Vec<u8>, Refusal>
    ensures text { IfOk result (λ all. all.items ≡ out.items ++ json_of snapshot.now ++ codes "\n") }
    ensures memory { IfErr result (λ refusal. refusal ≡ Refusal.OutOfMemory) }
{
    let line = snapshot_json(alloc, snapshot)?;
    match out.extend_from_slice(&line) {
        Ok(()) => Ok(out),
        Err(_) => Err(Refusal::OutOfMemory),
    }
}
