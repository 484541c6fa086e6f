//! A reader or a writer whose interrupted calls are tried again.
ghost use Rattle.std.specs.Prelude.{◌≡◌, ◌≢◌, ◌↔◌, IfErr, IsTrue};
ghost use Rattle.std.specs.IoError.{error_kind};
ghost use Rattle.std.specs.Io.{ReadsAtMost, WritesAtMost};
ghost use Rattle.std.specs.Io.KnownBytes.{ReadConsumes, WriteAppends};

use std::io;
use std::io::{ErrorKind, Read, Write};

/// How often an interrupted call is tried in all, as std does.
const TRIES: u64 = u64::MAX;

/// Whether this error says that a signal interrupted the call.
fn is_interrupted(error: &io::Error) -> bool
    ensures { IsTrue result ↔ (error_kind error.now ≡ ErrorKind.Interrupted) }
{
    error.kind() == ErrorKind::Interrupted
}

/// A reader or a writer whose reads and writes are tried again where a signal interrupts them.
///
/// It stands below a `Tally`, which marks each error that it sees, of this kind too.
#[derive(Clone, Copy, Debug, Drop)]
pub struct Retrying<T>(pub T);

impl<R: Read> Read for Retrying<R> {
    ghost remaining = { λ retrying. R.remaining retrying.0 };

    /// Reads as the inner reader does, again where a signal interrupts it.
    fn read(&mut self, buf: &mut [u8]) -> io::Result<usize>
        ensures bound { ReadsAtMost result buf.new }
        ensures bytes { ReadConsumes
            (R.remaining self.old.0) (R.remaining self.new.0) result buf.new }
        ensures again { IfErr result (λ error. error_kind error ≢ ErrorKind.Interrupted) }
    {
        for _ in 0..TRIES {
            match self.0.read(buf) {
                Ok(count) => return Ok(count),
                Err(error) if is_interrupted(&error) => {}
                Err(error) => return Err(error),
            }
        }
        Err(io::Error::from(ErrorKind::TimedOut))
    }
}

impl<W: Write> Write for Retrying<W> {
    ghost contents = { λ retrying. W.contents retrying.0 };

    /// Writes as the inner writer does, again where a signal interrupts it.
    fn write(&mut self, buf: &[u8]) -> io::Result<usize>
        ensures bound { WritesAtMost result buf.now }
        ensures bytes { WriteAppends
            (W.contents self.old.0) (W.contents self.new.0) result buf.now }
        ensures again { IfErr result (λ error. error_kind error ≢ ErrorKind.Interrupted) }
    {
        for _ in 0..TRIES {
            match self.0.write(buf) {
                Ok(count) => return Ok(count),
                Err(error) if is_interrupted(&error) => {}
                Err(error) => return Err(error),
            }
        }
        Err(io::Error::from(ErrorKind::TimedOut))
    }

    fn flush(&mut self) -> io::Result<()> {
        self.0.flush()
    }
}
