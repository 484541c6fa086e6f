//! The files that the command lines of the tests name.
use super::lines::STEPS;
use commons::refusal::Refusal;
use script::run_replay_snapshot;
use script_io::{ReadFault, Tally, read_bytes};
use script_rows::twins::FOREIGN_CLONE;
use snapshot_rows::{HEALTHY, IN_WORDS, LIMITS, Members, written};
use std::alloc::{AllocError, Global};
use std::io;
use std::io::Read;
use tasks::kind::Kind;
use tasks::scripts::Scripts;

pub(super) const FIRST_RUN: &str = "pool 3\nalloc a\nalloc b\nfree a\n";

/// A name, and the text that stands under it.
pub(super) type Named<'a> = (&'a str, &'a str);

/// Files in memory: these, and those of the tables below. A script stands for the snapshot that its
/// replay leaves where a snapshot is read, two names with a `+` between them for one text behind the
/// other, and the file `memory` lacks memory.
#[derive(Drop)]
pub(super) struct Files<'a> {
    pub(super) scripts: &'a [Named<'a>],
    pub(super) snapshots: &'a [Named<'a>],
}

/// Those of the tables alone.
pub(super) static TABLES: Files<'static> = Files {
    scripts: &[],
    snapshots: &[],
};

static SCRIPTS: &[Named<'static>] = &[
    ("first", FIRST_RUN),
    ("pull", "pull 3\n"),
    ("nothing", "pool 0\n"),
    ("eight", "pool 8 cache 4 workers 2\n2: alloc a\n"),
    ("steps", STEPS),
    ("cuts", "pool 1\ncuts\n"),
    ("allocs", "pool 1\nalloc a\n"),
    // Nobody else is there: at each try of the take the desk is empty, and at each of the second
    // offer it is taken.
    (
        "waits",
        "pool 3 desks 1\ntake 0 x\nalloc a\noffer a 0\nalloc b\noffer b 0\nalloc c\n",
    ),
    // What each takes the other would offer only after its own take.
    (
        "crossed",
        "pool 3 workers 2 desks 2\ntake 1 y\noffer y 0\n\
        2: take 0 x\n2: offer x 1\n2: alloc z\n2: alloc w\n",
    ),
    ("one", "pool 3\nalloc a\n"),
    ("two", "pool 3\nalloc a\nalloc b\n"),
    ("32", "pool 32\n"),
    ("64", "pool 64\n"),
    ("cache-2", "pool 32 cache 2\n"),
    ("desks-3", "pool 32 desks 3\n"),
    ("buf-100", "pool 32 buf 100\n"),
    ("buf-99", "pool 32 buf 99\n"),
    ("refs-5", "pool 32 refs 5\n"),
    ("refs-65535", "pool 32 refs 65535\n"),
    ("tries-1", "pool 32 tries 1\n"),
    ("tries-2", "pool 32 tries 2\n"),
    ("start-7", "pool 32 start 7\n"),
    ("putrule-1", "pool 32 putrule 1\n"),
    ("cache-2-refs-5", "pool 32 cache 2 refs 5\n"),
    ("refs-4", "pool 32 refs 4\n"),
    ("twins", FOREIGN_CLONE),
];

/// What is no snapshot.
static TEXTS: &[Named<'static>] = &[
    ("empty", ""),
    ("cut", "{\"limits\":"),
    ("list", "[]"),
    ("object", "{}"),
    ("open", "["),
];

/// The limits of no pool.
const NO_POOL: &str = "{\"limits\":{\"population\":8,\"cache\":2,\"workers\":0,\"desks\":1,\
    \"buf\":2048,\"refs\":65535,\"tries\":64,\"start\":0,\"putrule\":0},";

/// Snapshots by their limits and the members behind those.
static BUILT: &[(&str, &str, Members)] = &[
    ("healthy", LIMITS, HEALTHY),
    ("in-words", LIMITS, IN_WORDS),
    ("no-pool", NO_POOL, HEALTHY),
    ("lost", LIMITS, LOST),
    ("three", LIMITS, THREE),
    ("repeats", LIMITS, REPEATS),
];

/// Files that break in mid-file, with this error.
static BREAKING: &[(&str, io::ErrorKind)] = &[
    ("out-of-memory", io::ErrorKind::OutOfMemory),
    ("timed-out", io::ErrorKind::TimedOut),
    ("cut-off", io::ErrorKind::UnexpectedEof),
    ("broken", io::ErrorKind::Other),
];

/// A reader that gives one byte, and then this error.
#[derive(Drop)]
struct Breaks {
    is_begun: bool,
    kind: io::ErrorKind,
}

impl Read for Breaks {
    fn read(&mut self, bytes: &mut [u8]) -> io::Result<usize> {
        if self.is_begun || bytes.is_empty() {
            return Err(io::Error::from(self.kind));
        }
        self.is_begun = true;
        bytes[0] = b'p';
        Ok(1)
    }
}

/// The text under a name.
fn text_in<'a>(files: &'a [Named<'a>], name: &str) -> Option<&'a str> {
    for (named, text) in files {
        if *named == name {
            return Some(*text);
        }
    }
    None
}

/// The bytes of a text.
fn bytes_of(alloc: Global, text: &str) -> Result<Vec<u8>, ReadFault> {
    match Vec::from_slice(alloc, text.as_bytes()) {
        Ok(bytes) => Ok(bytes),
        Err(_) => Err(ReadFault::Memory),
    }
}

/// The snapshot that the replay of a script leaves.
fn left_by(alloc: Global, script: &str) -> Result<Vec<u8>, ReadFault> {
    match run_replay_snapshot(alloc, script.as_bytes()) {
        Ok(bytes) => Ok(bytes),
        Err(Refusal::OutOfMemory) => Err(ReadFault::Memory),
        Err(_) => Err(ReadFault::Device),
    }
}

/// A snapshot in which an element is lost.
const LOST: Members = Members {
    desks: "[null]",
    ..HEALTHY
};

/// One with three faults of two kinds.
const THREE: Members = Members {
    shares: "[{\"worker\":1,\"cache\":[4,1],\"slots\":[]},{\"worker\":2,\"cache\":[3],\
        \"slots\":[[{\"elem\":5,\"base\":null,\"off\":128,\"len\":0,\"buf\":2048},\
        {\"elem\":6,\"base\":null,\"off\":128,\"len\":0,\"buf\":2048}]]}]",
    ..LOST
};

/// One whose list has two elements twice, and one of them thrice.
const REPEATS: Members = Members {
    stack: "\"common\":[3,2,1,2,0,3,2]",
    ..HEALTHY
};

/// The snapshot under a name that is built.
fn built(alloc: Global, name: &str) -> Result<Vec<u8>, ReadFault> {
    for (named, limits, members) in BUILT {
        if *named == name {
            return match written(alloc, limits, members) {
                Ok(text) => Ok(text.into_bytes()),
                Err(_) => Err(ReadFault::Memory),
            };
        }
    }
    Err(ReadFault::Device)
}

/// The error of a file that breaks.
fn error_of(name: &str) -> Option<io::ErrorKind> {
    for (named, error) in BREAKING {
        if *named == name {
            return Some(*error);
        }
    }
    None
}

/// What a file gives that breaks with this error.
fn broken(alloc: Global, kind: Kind, error: io::ErrorKind) -> Result<Vec<u8>, ReadFault> {
    let source = Breaks {
        is_begun: false,
        kind: error,
    };
    read_bytes(alloc, &mut Tally::new(source), kind.most_read())
}

/// One text behind the other, with a line feed between them where the first doesn't end with one.
fn joined(first: Vec<u8>, second: Vec<u8>) -> Result<Vec<u8>, AllocError> {
    let mut both = first;
    if !both.ends_with(b"\n") {
        both.push(b'\n')?;
    }
    both.extend_from_slice(second.as_slice())?;
    Ok(both)
}

impl Scripts for Files<'_> {
    fn read(&self, alloc: Global, kind: Kind, name: &str) -> Result<Vec<u8>, ReadFault> {
        match name.split_once('+') {
            Some((first, second)) => {
                let first = self.read_one(alloc, kind, first)?;
                let second = self.read_one(alloc, kind, second)?;
                joined(first, second).map_err(|_| ReadFault::Memory)
            }
            None => self.read_one(alloc, kind, name),
        }
    }
}

impl Files<'_> {
    /// The file of a name without a `+`.
    fn read_one(&self, alloc: Global, kind: Kind, name: &str) -> Result<Vec<u8>, ReadFault> {
        if name == "memory" {
            return Err(ReadFault::Memory);
        }
        if let Some(error) = error_of(name) {
            return broken(alloc, kind, error);
        }
        let script = text_in(self.scripts, name).or(text_in(SCRIPTS, name));
        let snapshot = text_in(self.snapshots, name).or(text_in(TEXTS, name));
        match (kind, script, snapshot) {
            (Kind::Script, Some(script), _) => bytes_of(alloc, script),
            (Kind::Script, None, _) => Err(ReadFault::Device),
            (Kind::Snapshot, _, Some(snapshot)) => bytes_of(alloc, snapshot),
            (Kind::Snapshot, Some(script), None) => left_by(alloc, script),
            (Kind::Snapshot, None, None) => built(alloc, name),
        }
    }
}
