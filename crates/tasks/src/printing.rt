//! What is printed of the script that a request names, and where it goes.
ghost use Rattle.std.specs.Prelude.{◌≡◌, ◌↔◌, IfErr, IfOk, false, true};
ghost use Rattle.tasks.specs.Ends.{IsBrokenOff, status_of_end};
ghost use Rattle.tasks.specs.Failures.{IsUnread};
ghost use Rattle.tasks.specs.Forms.{kind_of};
ghost use Rattle.tasks.specs.Replays.{EndsAs, FailsAt, PrintsReading};
ghost use Rattle.tasks.specs.Telling.{IsUntold, heard};

use crate::failures::Failure;
use crate::replay;
use crate::scripts::Scripts;
use crate::task::Request;
use crate::telling::tell;
use commons::refusal::Refusal;
use script_io::{ReadFault, Sink, Tally, write_out};
use std::alloc::Global;
use std::io::Write;
use std::sync::Wait;
use std::thread::Threads;

/// How a print ended.
#[derive(Clone, Copy, PartialEq, Eq, Debug)]
pub enum End {
    /// The whole print was written.
    Printed,
    /// The whole print of all faults was written, and it tells of so many.
    Listed(u64),
    /// The output failed once so many of the print's first bytes were written.
    BrokenOff(usize),
    /// There was nothing to print, and the line of the failure was written on the errors.
    Told,
    /// There was nothing to print, and the errors failed: a part of the line may be written there.
    Untold,
}

impl End {
    /// The status that the program ends with: 0 where the whole print was written, and tells of no
    /// faults where they are asked for; else 1.
    pub fn status(self) -> u8
        ensures { result ≡ status_of_end self }
    {
        match self {
            End::Printed => 0,
            End::Listed(count) => u8::from(count > 0),
            End::BrokenOff(_) | End::Told | End::Untold => 1,
        }
    }
}

/// Prints what is asked for of the script that a request names, or tells why there is nothing to
/// print. Whichever of the two writers isn't written to is then as before, and after a write that
/// failed nothing is written on either. A line on the errors takes no memory.
pub fn print<R: Threads + Wait + Sync, S: Scripts, O: Write, E: Sink>(
    rt: &R,
    alloc: Global,
    scripts: &S,
    request: &Request<'_>,
    screen: &mut Tally<O>,
    errors: &mut Tally<E>,
) -> End
    requires { screen.old.failed ≡ false }
    // It is the print for bytes that the reading of this file gave, or the failure that came.
    ensures ends { EndsAs
        (S.gives scripts.now (kind_of request.now.task) request.now.file.now)
        (S.fails scripts.now (kind_of request.now.task) request.now.file.now)
        request.now.file.now
        request.now.task
        (O.contents screen.old.inner)
        (O.contents screen.new.inner)
        (E.contents errors.old.inner)
        (E.contents errors.new.inner)
        result }
    // The output failed exactly where the print was broken off.
    ensures failed { (screen.new.failed ≡ true) ↔ IsBrokenOff result }
    ensures sound { status_of_end result ≡ 0 → screen.new.failed ≡ false }
    // The errors failed where the line of the failure wasn't written whole.
    ensures untold { result ≡ End.Untold →
        IsUntold (heard E.contents E.told errors.old) (heard E.contents E.told errors.new) }
{
    match printed(rt, alloc, scripts, request) {
        Ok(text) => match write_out(screen, text.as_slice()) {
            Ok(()) => End::Printed,
            Err(count) => End::BrokenOff(count),
        },
        Err(failure) => match tell(errors, &failure) {
            Ok(()) => End::Told,
            Err(_) => End::Untold,
        },
    }
}

/// What is printed of the script that a request names.
///
/// `Unreadable` where the file isn't found or the device failed, `Fault` with `OutOfMemory` where
/// memory was refused, else `Fault` where the bytes aren't a script (`ScriptFault`), where no pools
/// can be made within the script's limits (`BadPool`), where a worker is to be lost of two pools
/// (`Foreign`) or one that its pool doesn't have (`StrangerShare`), or of a run under the lock where a
/// thread was refused (`OutOfMemory`).
pub fn printed<'a, R: Threads + Wait + Sync, S: Scripts>(
    rt: &R,
    alloc: Global,
    scripts: &S,
    request: &Request<'a>,
) -> Result<Vec<u8>, Failure<'a>>
    // It is the print for bytes that the reading of the file gave,
    ensures printed { IfOk result (λ out.
        PrintsReading (S.gives scripts.now (kind_of request.now.task) request.now.file.now) request.now.task out.items) }
    // or the failure that came: of that reading, or of the bytes that it gave.
    ensures cause { IfErr result (FailsAt
        (S.gives scripts.now (kind_of request.now.task) request.now.file.now)
        (S.fails scripts.now (kind_of request.now.task) request.now.file.now)
        request.now.file.now
        request.now.task) }
{
    match scripts.read(alloc, request.task.kind(), request.file) {
        Ok(script) => match replay::done(rt, alloc, script.as_slice(), request.task) {
            Ok(text) => Ok(text),
            Err(failure) => Err(failure),
        },
        Err(fault) => Err(unread(request.file, fault)),
    }
}

/// What is reported of a fault of reading a file.
pub(crate) fn unread(file: &str, fault: ReadFault) -> Failure<'_>
    ensures { IsUnread file.entry.now fault result }
{
    match fault {
        ReadFault::Device => Failure::Unreadable(file),
        ReadFault::Memory => Failure::Fault(Refusal::OutOfMemory),
    }
}
