//! What is printed of a script: its replay, what its run comes to or loses, or its steps, in the
//! form that is asked for, or the snapshots that either leaves; or of a snapshot, its audit, or a
//! picture of its pool.
ghost use Rattle.std.specs.Prelude.{IfErr, IfOk};
ghost use Rattle.script_text.specs.Grammar.{IsCause};
ghost use Rattle.tasks.specs.Forms.{IsCauseFor, IsDoneAs, IsPrintedAs};

use crate::failures::Failure;
use crate::task::{Form, Task};
use crate::{auditing, losing, running};
use commons::refusal::Refusal;
use script::{run_replay, run_replay_json, run_replay_snapshot, run_script_snapshot, run_steps};
use std::alloc::Global;
use std::sync::Wait;
use std::thread::Threads;

/// What is printed of these bytes for a task.
///
/// Of a snapshot the failures are those of `auditing::text`. Of a script: `ScriptFault` where they
/// aren't a script, and `BadPool` where no pools can be made within the script's limits. Where a
/// worker is to be lost, `Foreign` of a script with a second pool, and `StrangerShare` where the pool
/// doesn't have that worker. `OutOfMemory` where memory was refused, or of a run under the lock a
/// thread.
pub fn done<'a, R: Threads + Wait + Sync>(
    rt: &R,
    alloc: Global,
    script: &[u8],
    task: Task,
) -> Result<Vec<u8>, Failure<'a>>
    ensures printed { IfOk result (λ out. IsDoneAs task script.now out.items) }
    ensures cause { IfErr result (IsCauseFor task script.now) }
{
    match task {
        Task::Replay(form) => Ok(replayed(alloc, script, form)?),
        Task::ReplaySnapshot => Ok(run_replay_snapshot(alloc, script)?),
        Task::Run(grounds, turns, form) => Ok(running::text(
            rt, alloc, script, grounds, turns, form,
        )?),
        Task::RunSnapshot(grounds, turns) => Ok(run_script_snapshot(
            rt,
            alloc,
            script,
            grounds,
            turns.count(),
        )?),
        Task::RunLost(grounds, turns, lose, form) => Ok(losing::text(
            rt, alloc, script, grounds, turns, lose, form,
        )?),
        Task::Steps => Ok(run_steps(alloc, script)?),
        Task::Audit(form) => auditing::text(alloc, script, form),
        Task::Picture => auditing::picture(alloc, script),
    }
}

/// What the replay of these bytes prints in a form.
fn replayed(alloc: Global, script: &[u8], form: Form) -> Result<Vec<u8>, Refusal>
    ensures printed { IfOk result (λ out. IsPrintedAs form script.now out.items) }
    ensures cause { IfErr result (IsCause script.now) }
{
    match form {
        Form::Text => run_replay(alloc, script),
        Form::Json => run_replay_json(alloc, script),
    }
}
