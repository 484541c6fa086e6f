//! What is printed of a script, or its failure and the line that explains it.
ghost use Rattle.std.specs.Prelude.{◌≡◌, ◌↔◌, IfErr, IfOk, false, true};
ghost use Rattle.tasks.specs.Ends.{IsBrokenOff, status_of_end};
ghost use Rattle.tasks.specs.Explained.{EndsExplained, FailsExplained, IsSecondFor};
ghost use Rattle.tasks.specs.Forms.{kind_of};
ghost use Rattle.tasks.specs.Replays.{PrintsReading};
ghost use Rattle.tasks.specs.Telling.{IsUntold, heard};

use crate::failures::Failure;
use crate::kind::Kind;
use crate::printing::{End, unread};
use crate::replay;
use crate::scripts::Scripts;
use crate::task::{Request, Task};
use crate::telling::tell_explained;
use script_io::{Sink, Tally, write_out};
use script_reasons::second::{Second, second_line, second_line_of_steps};
use std::alloc::Global;
use std::io::Write;
use std::sync::Wait;
use std::thread::Threads;

/// Why nothing was printed, and of a script that isn't one the line that explains it.
#[derive(Drop)]
pub struct ExplainedFailure<'a> {
    pub failure: Failure<'a>,
    pub second: Option<Second>,
}

/// Prints what is asked for of a script, or tells why there is nothing to print, and behind the line
/// of a fault what explains it. Of the two writers the same is said as by `print`.
pub fn print_explained<R: Threads + Wait + Sync, S: Scripts, O: Write, E: Sink>(
    rt: &R,
    alloc: Global,
    scripts: &S,
    request: &Request<'_>,
    screen: &mut Tally<O>,
    errors: &mut Tally<E>,
) -> End
    requires { screen.old.failed ≡ false }
    // It is the print for bytes that the reading of this file gave, or the failure that came.
    ensures ends { EndsExplained
        (S.gives scripts.now (kind_of request.now.task) request.now.file.now)
        (S.fails scripts.now (kind_of request.now.task) request.now.file.now)
        request.now.file.now
        request.now.task
        (O.contents screen.old.inner)
        (O.contents screen.new.inner)
        (E.contents errors.old.inner)
        (E.contents errors.new.inner)
        result }
    // The output failed exactly where the print was broken off.
    ensures failed { (screen.new.failed ≡ true) ↔ IsBrokenOff result }
    ensures sound { status_of_end result ≡ 0 → screen.new.failed ≡ false }
    // The errors failed where the line of the failure wasn't written whole.
    ensures untold { result ≡ End.Untold →
        IsUntold (heard E.contents E.told errors.old) (heard E.contents E.told errors.new) }
{
    match printed_explained(rt, alloc, scripts, request) {
        Ok(text) => match write_out(screen, text.as_slice()) {
            Ok(()) => End::Printed,
            Err(count) => End::BrokenOff(count),
        },
        Err(failure) => match tell_explained(errors, &failure) {
            Ok(()) => End::Told,
            Err(_) => End::Untold,
        },
    }
}

/// What is printed of the script that a request names; its failures are those of `printed`, each with
/// what explains it.
fn printed_explained<'a, R: Threads + Wait + Sync, S: Scripts>(
    rt: &R,
    alloc: Global,
    scripts: &S,
    request: &Request<'a>,
) -> Result<Vec<u8>, ExplainedFailure<'a>>
    // It is the print for bytes that the reading of the file gave,
    ensures printed { IfOk result (λ out.
        PrintsReading (S.gives scripts.now (kind_of request.now.task) request.now.file.now) request.now.task out.items) }
    // or the failure that came: of that reading, or of the bytes that it gave.
    ensures cause { IfErr result (FailsExplained
        (S.gives scripts.now (kind_of request.now.task) request.now.file.now)
        (S.fails scripts.now (kind_of request.now.task) request.now.file.now)
        request.now.file.now
        request.now.task) }
{
    match scripts.read(alloc, request.task.kind(), request.file) {
        Ok(script) => match replay::done(rt, alloc, script.as_slice(), request.task) {
            Ok(text) => Ok(text),
            Err(failure) => Err(ExplainedFailure {
                failure,
                second: second_for(alloc, script.as_slice(), request.task),
            }),
        },
        Err(fault) => Err(ExplainedFailure {
            failure: unread(request.file, fault),
            second: None,
        }),
    }
}

/// What explains why these bytes aren't a script of the kind that a task is done with, or `None`
/// where they are one, or the task is none of a script.
fn second_for(alloc: Global, script: &[u8], task: Task) -> Option<Second>
    ensures { IsSecondFor task script.now result }
{
    match (task, task.kind()) {
        (Task::Steps, _) => second_line_of_steps(alloc, script),
        (_, Kind::Script) => second_line(alloc, script),
        (_, Kind::Snapshot) => None,
    }
}
