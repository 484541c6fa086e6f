//! What is lost with a worker at the end of a script's run in threads, in the form that is asked
//! for.
ghost use Rattle.std.specs.Prelude.{◌≡◌, IfErr, IfOk};
ghost use Rattle.script.specs.Losing.{IsCauseWithout};
ghost use Rattle.tasks.specs.Forms.{AreElementsAs, IsLostPrintedAs};

use crate::task::{Form, Turns};
use commons::refusal::Refusal;
use script::{Grounds, lost_text, numbers_json, run_script_lost};
use std::alloc::Global;
use std::sync::Wait;
use std::thread::Threads;

/// What a run of these bytes with a thread for each worker prints in a form, where this worker is
/// lost at its end.
///
/// `ScriptFault` where they aren't a script, `BadPool` where no pools can be made within the
/// script's limits, `Foreign` where it has a second pool, `StrangerShare` where the pool doesn't have
/// the worker, and `OutOfMemory` where memory was refused, or under the lock a thread.
pub fn text<R: Threads + Wait + Sync>(
    rt: &R,
    alloc: Global,
    script: &[u8],
    grounds: Grounds,
    turns: Turns,
    lose: u32,
    form: Form,
) -> Result<Vec<u8>, Refusal>
    ensures printed { IfOk result (λ out. IsLostPrintedAs grounds lose form script.now out.items) }
    ensures cause { IfErr result (IsCauseWithout lose script.now) }
{
    let elems = run_script_lost(rt, alloc, script, grounds, turns.count(), lose)?;
    written(alloc, elems.as_slice(), form)
}

/// Elements in a form.
fn written(alloc: Global, elems: &[u32], form: Form) -> Result<Vec<u8>, Refusal>
    ensures text { IfOk result (λ out. AreElementsAs form elems.now out.items) }
    ensures memory { IfErr result (λ refusal. refusal ≡ Refusal.OutOfMemory) }
{
    match form {
        Form::Text => lost_text(alloc, elems),
        Form::Json => numbers_json(alloc, elems),
    }
}
