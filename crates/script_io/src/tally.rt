//! A reader or a writer that keeps in mind whether a call of it failed.
ghost use Rattle.std.specs.Prelude.{◌≡◌, ◌∷◌, [], false, length};
ghost use Rattle.std.specs.Io.{ReadsAtMost, WritesAtMost};
ghost use Rattle.std.specs.Io.KnownBytes.{Keeps, ReadConsumes, WriteAppends};
ghost use Rattle.script_io.specs.Tallies.{MarksRead, MarksWrite};
ghost use Rattle.script_io.specs.Told.{AddsCalls, answer_of};

use crate::told::{Sink, Source};
use std::io;
use std::io::{Read, Write};

/// A reader or a writer, and whether a call of it failed.
#[derive(Clone, Copy, Debug, Drop)]
pub struct Tally<T> {
    /// The reader or the writer.
    pub inner: T,
    /// Whether a read answered an error, or a write answered one or took none of some bytes.
    pub failed: bool,
}

impl<T> Tally<T> {
    /// The reader or the writer, of which no call failed yet.
    pub fn new(inner: T) -> Tally<T>
        ensures inner { result.inner ≡ inner }
        ensures failed { result.failed ≡ false }
    {
        Tally {
            inner,
            failed: false,
        }
    }
}

impl<R: Source> Read for Tally<R> {
    ghost remaining = { λ tally. R.remaining tally.inner };

    /// Reads as the inner reader does. An error, of any kind, is marked; else the mark stays.
    fn read(&mut self, buf: &mut [u8]) -> io::Result<usize>
        ensures bound { ReadsAtMost result buf.new }
        ensures bytes { ReadConsumes
            (R.remaining self.old.inner) (R.remaining self.new.inner) result buf.new }
        ensures marks { MarksRead self.old.failed self.new.failed result }
        // The inner reader was asked once, for as many bytes, and this is what it answered.
        ensures told { AddsCalls (R.told self.old.inner) (R.told self.new.inner)
            (record { bytes = length buf.old; answer = answer_of result } ∷ []) }
    {
        match self.inner.give(buf) {
            Ok(count) => Ok(count),
            Err(error) => {
                self.failed = true;
                Err(error)
            }
        }
    }
}

impl<W: Sink> Write for Tally<W> {
    ghost contents = { λ tally. W.contents tally.inner };

    /// Writes as the inner writer does. An error, of any kind, is marked, and that none of some
    /// bytes was taken; else the mark stays.
    fn write(&mut self, buf: &[u8]) -> io::Result<usize>
        ensures bound { WritesAtMost result buf.now }
        ensures bytes { WriteAppends
            (W.contents self.old.inner) (W.contents self.new.inner) result buf.now }
        ensures marks { MarksWrite self.old.failed self.new.failed result buf.now }
        // The inner writer was asked once, to take these bytes, and this is what it answered.
        ensures told { AddsCalls (W.told self.old.inner) (W.told self.new.inner)
            (record { bytes = length buf.now; answer = answer_of result } ∷ []) }
    {
        match self.inner.accept(buf) {
            Ok(0) if !buf.is_empty() => {
                self.failed = true;
                Ok(0)
            }
            Ok(count) => Ok(count),
            Err(error) => {
                self.failed = true;
                Err(error)
            }
        }
    }

    /// Flushes the inner writer. The mark is of reads and writes alone, and stays.
    fn flush(&mut self) -> io::Result<()>
        ensures bytes { Keeps (W.contents self.old.inner) (W.contents self.new.inner) }
        ensures marks { self.new.failed ≡ self.old.failed }
        ensures told { AddsCalls (W.told self.old.inner) (W.told self.new.inner) [] }
    {
        self.inner.settle()
    }
}
