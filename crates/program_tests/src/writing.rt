//! Texts that are written whole, or up to the write that failed.

use crate::tests::same;
use script_io::{Retrying, Tally, write_out};
use std::io;
use std::io::{ErrorKind, Write};

/// What a writer does once it is full.
#[derive(Clone, Copy)]
enum Full {
    /// It answers an error.
    Fails(ErrorKind),
    /// It takes none of the bytes.
    TakesNone,
}

/// A writer over memory with so much room, which takes a few bytes at each call.
#[derive(Drop)]
struct Narrow {
    taken: Vec<u8>,
    room: usize,
    each: usize,
    full: Full,
    calls: u32,
}

impl Write for Narrow {
    fn write(&mut self, buf: &[u8]) -> io::Result<usize> {
        self.calls = self.calls.saturating_add(1);
        if self.room == 0 {
            return match self.full {
                Full::Fails(kind) => Err(io::Error::from(kind)),
                Full::TakesNone => Ok(0),
            };
        }
        let count = self.room.min(self.each).min(buf.len());
        self.taken.extend_from_slice(&buf[..count])?;
        self.room -= count;
        Ok(count)
    }

    fn flush(&mut self) -> io::Result<()> {
        Ok(())
    }
}

/// A row: its name; the text; how many bytes the writer takes, how many at a call at most, and what
/// it does then; the answer; what was written; and how many calls there were.
type Row = (
    &'static str,
    &'static str,
    usize,
    usize,
    Full,
    Result<(), usize>,
    &'static str,
    u32,
);

const ROWS: [Row; 10] = [
    (
        "a writer that takes 3 bytes and then fails",
        "abcdef",
        3,
        3,
        Full::Fails(ErrorKind::StorageFull),
        Err(3),
        "abc",
        2,
    ),
    (
        "a writer that takes 3 bytes one at a time and then fails",
        "abcdef",
        3,
        1,
        Full::Fails(ErrorKind::BrokenPipe),
        Err(3),
        "abc",
        4,
    ),
    (
        "a writer that takes 3 bytes and then none",
        "abcdef",
        3,
        3,
        Full::TakesNone,
        Err(3),
        "abc",
        2,
    ),
    (
        "a writer that takes one byte at a time",
        "abcdef",
        9,
        1,
        Full::TakesNone,
        Ok(()),
        "abcdef",
        6,
    ),
    (
        "a writer that takes all but the last byte",
        "abcdef",
        5,
        4,
        Full::TakesNone,
        Err(5),
        "abcde",
        3,
    ),
    (
        "a writer that takes all and would fail then",
        "abcdef",
        6,
        6,
        Full::Fails(ErrorKind::StorageFull),
        Ok(()),
        "abcdef",
        1,
    ),
    (
        "a writer that takes nothing",
        "abcdef",
        0,
        1,
        Full::TakesNone,
        Err(0),
        "",
        1,
    ),
    (
        "a writer that fails at once",
        "abcdef",
        0,
        1,
        Full::Fails(ErrorKind::OutOfMemory),
        Err(0),
        "",
        1,
    ),
    (
        "a writer that is interrupted",
        "abcdef",
        3,
        3,
        Full::Fails(ErrorKind::Interrupted),
        Err(3),
        "abc",
        2,
    ),
    (
        "an empty text",
        "",
        0,
        1,
        Full::Fails(ErrorKind::StorageFull),
        Ok(()),
        "",
        0,
    ),
];

#[test]
fn a_text_is_written_whole_or_up_to_the_write_that_failed(rt: HostRuntime) {
    for (name, text, room, each, full, wanted, written, calls) in ROWS {
        let mut screen = Tally::new(Narrow {
            taken: Vec::new(rt.alloc()),
            room,
            each,
            full,
            calls: 0,
        });
        let answer = write_out(&mut screen, text.as_bytes());
        same(&rt, &answer, &wanted, name);
        same(&rt, &screen.failed, &wanted.is_err(), name);
        let taken = screen.inner.taken.as_slice();
        same(&rt, &taken, &written.as_bytes(), name);
        same(&rt, &screen.inner.calls, &calls, name);
    }
}

/// A writer that is interrupted at each second call, and else takes a byte.
#[derive(Drop)]
struct Interrupted {
    taken: Vec<u8>,
    is_next: bool,
}

impl Write for Interrupted {
    fn write(&mut self, buf: &[u8]) -> io::Result<usize> {
        self.is_next = !self.is_next;
        if !self.is_next {
            return Err(io::Error::from(ErrorKind::Interrupted));
        }
        let count = buf.len().min(1);
        self.taken.extend_from_slice(&buf[..count])?;
        Ok(count)
    }

    fn flush(&mut self) -> io::Result<()> {
        Ok(())
    }
}

#[test]
fn below_the_tally_an_interrupted_write_is_tried_again(rt: HostRuntime) {
    let mut screen = Tally::new(Retrying(Interrupted {
        taken: Vec::new(rt.alloc()),
        is_next: true,
    }));
    let answer = write_out(&mut screen, b"abc");
    same(&rt, &answer, &Ok(()), "the answer");
    same(&rt, &screen.failed, &false, "whether it failed");
    let taken = screen.inner.0.taken.as_slice();
    same(&rt, &taken, &b"abc".as_slice(), "what was written");
}
