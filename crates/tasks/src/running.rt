//! The run of a script in threads, in the form that is asked for.
ghost use Rattle.std.specs.Prelude.{◌≡◌, IfErr, IfOk};
ghost use Rattle.script_text.specs.Grammar.{IsCause};
ghost use Rattle.tasks.specs.Audits.{IsSettledAs};
ghost use Rattle.tasks.specs.Forms.{IsRunPrintedAs};

use crate::task::{Form, Turns};
use commons::refusal::Refusal;
use pool_statement::settled::Settled;
use script::{Grounds, run_script, statement_json, statement_text};
use std::alloc::Global;
use std::sync::Wait;
use std::thread::Threads;

/// What a run of these bytes with a thread for each worker prints in a form.
///
/// `ScriptFault` where they aren't a script, `BadPool` where no pools can be made within the
/// script's limits, and `OutOfMemory` where memory was refused, or under the lock a thread.
pub fn text<R: Threads + Wait + Sync>(
    rt: &R,
    alloc: Global,
    script: &[u8],
    grounds: Grounds,
    turns: Turns,
    form: Form,
) -> Result<Vec<u8>, Refusal>
    ensures printed { IfOk result (λ out. IsRunPrintedAs grounds form script.now out.items) }
    ensures cause { IfErr result (IsCause script.now) }
{
    let settled = run_script(rt, alloc, script, grounds, turns.count())?;
    written(alloc, &settled, form)
}

/// What a script's pools come to, in a form.
pub(crate) fn written(alloc: Global, settled: &Settled, form: Form) -> Result<Vec<u8>, Refusal>
    ensures text { IfOk result (λ out. IsSettledAs form settled.now out.items) }
    ensures memory { IfErr result (λ refusal. refusal ≡ Refusal.OutOfMemory) }
{
    match form {
        Form::Text => statement_text(alloc, settled),
        Form::Json => statement_json(alloc, settled),
    }
}
