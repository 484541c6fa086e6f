//! Readers and writers as contracts see them: what each of their calls answered, in order.
ghost use Rattle.std.specs.Prelude.{◌∷◌, [], ℕ, List, None, Option, length};
ghost use Rattle.std.specs.Io.{ReadsAtMost, WritesAtMost};
ghost use Rattle.std.specs.Io.KnownBytes.{Keeps, ReadConsumes, WriteAppends};
ghost use Rattle.script_io.specs.Told.{AddsCalls, Told, answer_of};

use std::io;
use std::io::{Read, Write};

/// A reader that may tell what its reads answered. Each `Read` is one, that tells nothing: what is
/// proved over any `Source` is so of it too.
pub trait Source {
    /// The bytes that reads will give from here on, where they are known.
    ghost remaining: { Self → Option (List ℕ) } = { λ _. None };

    /// The reads so far, where they are told.
    ghost told: { Self → Option (List Told) } = { λ _. None };

    /// One read.
    fn give(&mut self, buf: &mut [u8]) -> io::Result<usize>
        ensures bound { ReadsAtMost result buf.new }
        ensures bytes { ReadConsumes (remaining self.old) (remaining self.new) result buf.new }
        ensures told { AddsCalls (told self.old) (told self.new)
            (record { bytes = length buf.old; answer = answer_of result } ∷ []) };
}

impl<R: Read> Source for R {
    ghost remaining = { λ reader. R.remaining reader };

    fn give(&mut self, buf: &mut [u8]) -> io::Result<usize> {
        self.read(buf)
    }
}

/// A writer that may tell what its writes answered. Each `Write` is one, that tells nothing: what
/// is proved over any `Sink` is so of it too.
pub trait Sink {
    /// The bytes that the writer holds, where they are known.
    ghost contents: { Self → Option (List ℕ) } = { λ _. None };

    /// The writes so far, where they are told.
    ghost told: { Self → Option (List Told) } = { λ _. None };

    /// One write.
    fn accept(&mut self, buf: &[u8]) -> io::Result<usize>
        ensures bound { WritesAtMost result buf.now }
        ensures bytes { WriteAppends (contents self.old) (contents self.new) result buf.now }
        ensures told { AddsCalls (told self.old) (told self.new)
            (record { bytes = length buf.now; answer = answer_of result } ∷ []) };

    /// A flush, which is no write.
    fn settle(&mut self) -> io::Result<()>
        ensures bytes { Keeps (contents self.old) (contents self.new) }
        ensures told { AddsCalls (told self.old) (told self.new) [] };
}

impl<W: Write> Sink for W {
    ghost contents = { λ writer. W.contents writer };

    fn accept(&mut self, buf: &[u8]) -> io::Result<usize> {
        self.write(buf)
    }

    fn settle(&mut self) -> io::Result<()> {
        self.flush()
    }
}
