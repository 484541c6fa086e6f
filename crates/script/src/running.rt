//! A run of a script in threads, from its bytes to the statements at its end.

ghost use Rattle.std.specs.Prelude.{◌≡◌, ◌≤◌, List, IfErr, IfOk};
ghost use Rattle.script_text.specs.declared.lines.Pools.{Pools};
ghost use Rattle.script_text.specs.Commands.{Line};
ghost use Rattle.script_text.specs.Grammar.{IsCause, IsScript};
ghost use Rattle.script.specs.Losing.{IsCauseWithout, LosesFrom};
ghost use Rattle.script.specs.Running.{RunsTo};
ghost use Rattle.script.specs.Settling.{ListsEachPoolOnce, ListsPacketsInEach, ListsSoundInEach, PlacesInEach};

use crate::gate::OpenGate;
use crate::threaded::{Grounds, run_lost, run_threads};
use commons::refusal::Refusal;
use pool_statement::settled::Settled;
use script_text::parse;
use std::alloc::Global;
use std::sync::Wait;
use std::thread::Threads;

/// The statement at the end of a run of the script that the bytes are, with a thread for each
/// worker, or with a second pool both statements. A line that finds others in its way is tried up to
/// `turns` times in all.
///
/// Refused as reading the script is: `BadPool` where no pools can be made within the limits of its
/// pool line, and `ScriptFault` with the number of the first faulty line, or 0 where the bytes are
/// more than a script has. `OutOfMemory` comes only where memory was refused, or under the lock a
/// thread.
pub fn run_script<R: Threads + Wait + Sync>(
    rt: &R,
    alloc: Global,
    bytes: &[u8],
    grounds: Grounds,
    turns: u32,
) -> Result<Settled, Refusal>
    requires turns { 1 ≤ turns }
    // Under the lock, some order of acts on new pools of the script's limits leads to the same; on
    // words, it is that of what such grounds left, and of their workers' caches and packets.
    ensures ran { IfOk result (RunsTo grounds bytes.now) }
    // Above both: no element is missing, and none is anywhere twice; no two packets stand in one
    // place; and each has 1 to 32 segments, each with its data within its buffer, by the limits of
    // the script that the bytes are.
    ensures once { (pools : Pools) (lines : List Line) → IsScript bytes.now pools lines →
        IfOk result (λ s. ListsEachPoolOnce pools s) }
    ensures places { (pools : Pools) (lines : List Line) → IsScript bytes.now pools lines →
        IfOk result (λ s. PlacesInEach pools s) }
    ensures packets { (pools : Pools) (lines : List Line) → IsScript bytes.now pools lines →
        IfOk result (λ s. ListsPacketsInEach pools s) }
    // And under the lock each packet of a pool alone is sound: its buffers are the pool's, and a
    // base is direct.
    ensures sound { (pools : Pools) (lines : List Line) → grounds ≡ Grounds.Locked →
        IsScript bytes.now pools lines → IfOk result (λ s. ListsSoundInEach pools s) }
    // Why there is none.
    ensures faults { IfErr result (IsCause bytes.now) }
{
    match parse(alloc, bytes) {
        Ok(script) => match run_threads(rt, alloc, &script, grounds, turns, &OpenGate) {
            Ok(settled) => Ok(settled),
            Err(cause) => Err(cause),
        },
        Err(refusal) => Err(refusal),
    }
}

/// The elements that are lost with a worker at the end of a run of the script that the bytes are,
/// ascending. The run is as `run_script`'s.
///
/// Refused as reading the script is, then `Foreign` where it has a second pool, then `StrangerShare`
/// where the pool doesn't have such a worker. `OutOfMemory` comes only where memory was refused, or under the lock a thread.
pub fn run_script_lost<R: Threads + Wait + Sync>(
    rt: &R,
    alloc: Global,
    bytes: &[u8],
    grounds: Grounds,
    turns: u32,
    lose: u32,
) -> Result<Vec<u32>, Refusal>
    requires turns { 1 ≤ turns }
    ensures lost { IfOk result (λ elems. LosesFrom grounds lose bytes.now elems.items) }
    ensures faults { IfErr result (IsCauseWithout lose bytes.now) }
{
    match parse(alloc, bytes) {
        Ok(script) => match run_lost(rt, alloc, &script, grounds, turns, lose, &OpenGate) {
            Ok(elems) => Ok(elems),
            Err(cause) => Err(cause),
        },
        Err(refusal) => Err(refusal),
    }
}
