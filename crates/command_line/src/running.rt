//! What the program does, and the status that it ends with.
ghost use Rattle.std.specs.Prelude.{◌≡◌, ◌≤◌, IfErr, IfOk, false};
ghost use Rattle.command_line.specs.Runs.{Ends, RunsSo, Says};
ghost use Rattle.tasks.specs.Telling.{heard};

use crate::parsing::{request_of, words};
use crate::unasked::{Unasked, tell};
use script_io::{Sink, Tally};
use std::env::Env;
use std::io::Write;
use std::sync::Wait;
use std::thread::Threads;
use tasks::scripts::Scripts;
use tasks::task::Asked;
use tasks::{print, print_all, print_explained, print_pair};

/// Does what the command line asks for, and gives the status that the program ends with: 0 where
/// the whole print was written, or help or the version; 1 where a fault or a failure was told or a
/// writer failed; 2 where the words are wrong.
pub fn run<R: Env + AllocGlobal + Threads + Wait + Sync, S: Scripts, O: Write, E: Sink>(
    rt: &R,
    scripts: &S,
    screen: &mut Tally<O>,
    errors: &mut Tally<E>,
) -> u8
    requires { screen.old.failed ≡ false }
    // It is the status of the print that was asked for, or of words that ask for none.
    ensures runs { RunsSo
        (S.gives scripts.now)
        (S.fails scripts.now)
        (O.contents screen.old.inner)
        (O.contents screen.new.inner)
        (heard E.contents E.told errors.old)
        (heard E.contents E.told errors.new)
        result }
    // The output didn't fail.
    ensures sound { result ≡ 0 → screen.new.failed ≡ false }
    ensures status { result ≤ 2 }
{
    let words = match words(rt) {
        Ok(words) => words,
        Err(unasked) => return serve(rt, scripts, Err(unasked), screen, errors),
    };
    let asked = request_of(rt.alloc(), words.as_slice());
    serve(rt, scripts, asked, screen, errors)
}

/// Does what is asked for, or says why nothing is, and gives the status that the program ends with.
pub fn serve<R: AllocGlobal + Threads + Wait + Sync, S: Scripts, O: Write, E: Sink>(
    rt: &R,
    scripts: &S,
    asked: Result<Asked<'_>, Unasked>,
    screen: &mut Tally<O>,
    errors: &mut Tally<E>,
) -> u8
    requires { screen.old.failed ≡ false }
    // It is the status of the print of this task and file, of these two snapshots, or of all faults,
    ensures done { IfOk asked.entry (λ asked. Ends
        (S.gives scripts.now)
        (S.fails scripts.now)
        asked
        (O.contents screen.old.inner)
        (O.contents screen.new.inner)
        (heard E.contents E.told errors.old)
        (heard E.contents E.told errors.new)
        result) }
    // or of what is said of words that ask for none.
    ensures said { IfErr asked.entry (λ unasked. Says
        unasked
        (O.contents screen.old.inner)
        (O.contents screen.new.inner)
        (heard E.contents E.told errors.old)
        (heard E.contents E.told errors.new)
        result) }
    // The output didn't fail.
    ensures sound { result ≡ 0 → screen.new.failed ≡ false }
    ensures status { result ≤ 2 }
{
    match asked {
        Ok(Asked::One(request)) => {
            print(rt, rt.alloc(), scripts, &request, screen, errors).status()
        }
        Ok(Asked::Explained(request)) => {
            print_explained(rt, rt.alloc(), scripts, &request, screen, errors).status()
        }
        Ok(Asked::Two(pair)) => print_pair(rt.alloc(), scripts, &pair, screen, errors).status(),
        Ok(Asked::All(listing)) => {
            print_all(rt.alloc(), scripts, &listing, screen, errors).status()
        }
        Err(unasked) => tell(screen, errors, &unasked),
    }
}
