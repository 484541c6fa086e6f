//! Scripts that are read whole, up to one byte more than they may have, or not at all.

use crate::tests::same;
use script_io::{BYTES_READ, ReadFault, Retrying, Tally, read_bytes};
use std::io;
use std::io::{ErrorKind, Read};

/// A reader of so many bytes `x`, a few at each call, of which one call fails.
#[derive(Drop)]
struct Brittle {
    left: usize,
    each: usize,
    fails: Option<(u32, ErrorKind)>,
    calls: u32,
}

impl Read for Brittle {
    fn read(&mut self, buf: &mut [u8]) -> io::Result<usize> {
        self.calls = self.calls.saturating_add(1);
        if let Some((call, kind)) = self.fails {
            if self.calls == call {
                return Err(io::Error::from(kind));
            }
        }
        let count = self.left.min(self.each).min(buf.len());
        buf[..count].fill(b'x');
        self.left -= count;
        Ok(count)
    }
}

/// A row: its name; how many bytes the reader has, and how many it gives at a call at most; the
/// call that fails, and how; how many bytes are read, or the fault; and how many calls there are.
type Row = (
    &'static str,
    usize,
    usize,
    Option<(u32, ErrorKind)>,
    Result<usize, ReadFault>,
    u32,
);

const ROWS: [Row; 14] = [
    ("an empty reader", 0, 1, None, Ok(0), 1),
    ("a reader of one byte", 1, 1, None, Ok(1), 2),
    ("a reader of a byte at a time", 5, 1, None, Ok(5), 6),
    ("two pieces", 10_000, 8_192, None, Ok(10_000), 3),
    (
        "as many bytes as a script may have",
        1_048_576,
        8_192,
        None,
        Ok(1_048_576),
        129,
    ),
    ("one byte more", 1_048_577, 8_192, None, Ok(1_048_577), 129),
    ("two bytes more", 1_048_578, 8_192, None, Ok(1_048_577), 129),
    (
        "a reader that fails at its first read",
        5,
        1,
        Some((1, ErrorKind::TimedOut)),
        Err(ReadFault::Device),
        1,
    ),
    (
        "a reader that fails at its second read",
        5,
        1,
        Some((2, ErrorKind::Other)),
        Err(ReadFault::Device),
        2,
    ),
    (
        "a reader that fails where it would be at its end",
        1,
        1,
        Some((2, ErrorKind::UnexpectedEof)),
        Err(ReadFault::Device),
        2,
    ),
    (
        "a device without memory",
        5,
        1,
        Some((2, ErrorKind::OutOfMemory)),
        Err(ReadFault::Device),
        2,
    ),
    (
        "a reader that is interrupted",
        5,
        1,
        Some((2, ErrorKind::Interrupted)),
        Err(ReadFault::Device),
        2,
    ),
    (
        "a reader that fails at the last byte that is read",
        1_048_578,
        8_192,
        Some((129, ErrorKind::Other)),
        Err(ReadFault::Device),
        129,
    ),
    (
        "a reader that would fail behind the bytes that are read",
        1_048_578,
        8_192,
        Some((130, ErrorKind::Other)),
        Ok(1_048_577),
        129,
    ),
];

#[test]
fn all_bytes_are_read_or_it_is_said_that_the_reader_failed(rt: HostRuntime) {
    for (name, left, each, fails, wanted, calls) in ROWS {
        let mut source = Tally::new(Brittle {
            left,
            each,
            fails,
            calls: 0,
        });
        let found = read_bytes(rt.alloc(), &mut source, BYTES_READ);
        let is_read = match &found {
            Ok(bytes) => bytes.as_slice().iter().all(|byte| *byte == b'x'),
            Err(_) => true,
        };
        same(&rt, &is_read, &true, name);
        same(&rt, &found.map(|bytes| bytes.len()), &wanted, name);
        same(&rt, &source.failed, &wanted.is_err(), name);
        same(&rt, &source.inner.calls, &calls, name);
    }
}

/// A reader that never ends, as a device of zeros, and how often it was called.
#[derive(Drop)]
struct Endless {
    calls: u32,
}

impl Read for Endless {
    fn read(&mut self, buf: &mut [u8]) -> io::Result<usize> {
        self.calls = self.calls.saturating_add(1);
        buf.fill(0);
        Ok(buf.len())
    }
}

#[test]
fn a_reader_that_never_ends_is_read_up_to_the_limit(rt: HostRuntime) {
    for (limit, calls) in [(0, 0), (1, 1), (8_192, 1), (8_193, 2), (2_000_000, 245)] {
        let mut source = Tally::new(Endless { calls: 0 });
        let found = read_bytes(rt.alloc(), &mut source, limit);
        let what = "a reader that never ends";
        same(&rt, &found.map(|bytes| bytes.len()), &Ok(limit), what);
        same(&rt, &source.inner.calls, &calls, what);
    }
}

#[test]
fn below_the_tally_an_interrupted_read_is_tried_again(rt: HostRuntime) {
    let mut source = Tally::new(Retrying(Brittle {
        left: 5,
        each: 1,
        fails: Some((2, ErrorKind::Interrupted)),
        calls: 0,
    }));
    let found = read_bytes(rt.alloc(), &mut source, BYTES_READ).map(|bytes| bytes.len());
    same(&rt, &found, &Ok(5), "the bytes");
    same(&rt, &source.failed, &false, "whether it failed");
    same(&rt, &source.inner.0.calls, &7, "the calls");
}

/// Whichever request for memory is refused, all bytes are read, or it is said that memory was
/// refused, and not that the reader failed.
#[test]
fn refused_memory_is_no_fault_of_the_reader(rt: HostRuntime) {
    let what = "a reader of two pieces";
    let mut source = Tally::new(Brittle {
        left: 10_000,
        each: 8_192,
        fails: None,
        calls: 0,
    });
    match read_bytes(rt.alloc(), &mut source, BYTES_READ) {
        Ok(bytes) => same(&rt, &bytes.len(), &10_000, what),
        Err(fault) => same(&rt, &fault, &ReadFault::Memory, what),
    }
    same(&rt, &source.failed, &false, what);
}
