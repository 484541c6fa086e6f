//! Why the words of the command line ask for nothing that can be done, and what is said of that.
ghost use Rattle.std.specs.Prelude.{◌≡◌, false};
ghost use Rattle.command_line.specs.Statuses.{IsToldWith, OtherStays, TellsMemory, status_of, unasked_by};
ghost use Rattle.tasks.specs.Telling.{heard};

use clap::Error;
use clap::error::ErrorKind;
use commons::refusal::Refusal;
use script_io::{Sink, Tally};
use std::io;
use std::io::Write;
use tasks::failures::Failure;

/// Why the words of the command line ask for nothing that can be done.
#[derive(Debug, Drop)]
pub enum Unasked {
    /// They are wrong, or ask for help or the version: what is to be said.
    Said(Error),
    /// Memory was refused.
    Memory,
}

impl Unasked {
    /// The status of the program: 0 where help or the version was asked for, 2 where the words are
    /// wrong, and 1 where memory was refused.
    pub fn status(&self) -> u8
        ensures { result ≡ status_of self.now }
    {
        match self {
            Unasked::Said(error) => match error.kind() {
                ErrorKind::DisplayHelp | ErrorKind::DisplayVersion => 0,
                _ => 2,
            },
            Unasked::Memory => 1,
        }
    }
}

impl From<Error> for Unasked {
    ghost from_gives = { λ error unasked. unasked ≡ unasked_by error };

    fn from(error: Error) -> Self {
        match error.kind() {
            ErrorKind::OutOfMemory => Unasked::Memory,
            _ => Unasked::Said(error),
        }
    }
}

/// Says why nothing was asked for, and gives the status of the program; where the text can't be
/// written, 1 in place of 0. Of wrong words, of help and of the version no clause says what is
/// written, since `clap` says nothing of the text of its errors.
pub fn tell<O: Write, E: Sink>(
    screen: &mut Tally<O>,
    errors: &mut Tally<E>,
    unasked: &Unasked,
) -> u8
    ensures status { IsToldWith (status_of unasked.now) result }
    // What isn't written to is as it was.
    ensures other { OtherStays unasked.now (O.contents screen.old.inner) (O.contents screen.new.inner)
        (E.contents errors.old.inner) (E.contents errors.new.inner) }
    // Of memory that was refused the line is written, or the errors failed.
    ensures memory { unasked.now ≡ Unasked.Memory → TellsMemory
        (heard E.contents E.told errors.old) (heard E.contents E.told errors.new) }
    // The output didn't fail.
    ensures sound { result ≡ 0 → screen.new.failed ≡ false }
{
    match say(screen, errors, unasked) {
        Ok(()) if !screen.failed => unasked.status(),
        _ => unasked.status().max(1),
    }
}

/// Writes help and the version to the standard output, and all else as errors.
fn say<O: Write, E: Sink>(
    screen: &mut O,
    errors: &mut Tally<E>,
    unasked: &Unasked,
) -> io::Result<()>
    ensures other { OtherStays unasked.now (O.contents screen.old) (O.contents screen.new)
        (E.contents errors.old.inner) (E.contents errors.new.inner) }
    ensures memory { unasked.now ≡ Unasked.Memory → TellsMemory
        (heard E.contents E.told errors.old) (heard E.contents E.told errors.new) }
{
    match unasked {
        Unasked::Said(error) if error.use_stderr() => write!(errors, "{error}"),
        Unasked::Said(error) => write!(screen, "{error}"),
        Unasked::Memory => match tasks::tell(errors, &Failure::Fault(Refusal::OutOfMemory)) {
            Ok(()) => Ok(()),
            Err(_) => Err(io::Error::from(io::ErrorKind::WriteZero)),
        },
    }
}
