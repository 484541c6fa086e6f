//! What is read and replayed, also where memory is refused.

use super::json::FIRST_RUN_JSON;
use super::{assert_given, same};
use commons::refusal::Refusal;
use script::{replay, run_replay, run_replay_json};
use script_rows::pools::{FIRST_RUN, FIRST_RUN_TEXT};
use script_rows::twins::{FOREIGN_CLONE, FOREIGN_CLONE_JSON, FOREIGN_CLONE_TEXT};
use script_text::{parse, parse_steps};
use std::alloc::Global;
use std::fmt::InlineText;
use std::process::Abort;
use std::test::Fail;

/// A name, a text, how many lines it has as a script of commands, and how many as one of steps, or
/// why it is none.
type ReadRow = (
    &'static str,
    &'static str,
    Result<usize, Refusal>,
    Result<usize, Refusal>,
);

const ROWS: [ReadRow; 4] = [
    (
        "commands of each length",
        "pool 9 cache 2\nbulk a b c\n# none\nappend a 7\nchain a b\nflush\n",
        Ok(4),
        Err(Refusal::ScriptFault(2)),
    ),
    (
        "steps",
        "pool 3 workers 2\nloadlength\n2: reserve 3 1\n",
        Err(Refusal::ScriptFault(2)),
        Ok(2),
    ),
    (
        "a line of neither",
        "pool 3\n\nfree\n",
        Err(Refusal::ScriptFault(3)),
        Err(Refusal::ScriptFault(3)),
    ),
    (
        "a pool of none",
        "pool 0\n",
        Err(Refusal::BadPool),
        Err(Refusal::BadPool),
    ),
];

/// This many lines were read, or a text was refused so, or memory was refused.
fn assert_read<R: Abort>(
    rt: &R,
    read: &Result<usize, Refusal>,
    wanted: &Result<usize, Refusal>,
    name: &str,
) {
    if *read != Err(Refusal::OutOfMemory) {
        same(rt, read, wanted, name);
    }
}

/// How many lines a text has as a script of commands, and how many as one of steps.
fn lines_in(alloc: Global, text: &str) -> (Result<usize, Refusal>, Result<usize, Refusal>) {
    let commands = match parse(alloc, text.as_bytes()) {
        Ok(script) => Ok(script.lines.len()),
        Err(refusal) => Err(refusal),
    };
    let steps = match parse_steps(alloc, text.as_bytes()) {
        Ok(script) => Ok(script.lines.len()),
        Err(refusal) => Err(refusal),
    };
    (commands, steps)
}

/// Whichever request for memory is refused, a text is read or refused as its row says, or
/// `OutOfMemory`.
#[test]
fn refused_memory_changes_no_reading(rt: HostRuntime) {
    for (name, text, commands, steps) in &ROWS {
        let (read, read_steps) = lines_in(rt.alloc(), text);
        assert_read(&rt, &read, commands, name);
        assert_read(&rt, &read_steps, steps, name);
    }
}

/// A script, what its replay prints, and the JSON of its end.
const PRINTS: [(&str, &str, &str); 2] = [
    (FIRST_RUN, FIRST_RUN_TEXT, FIRST_RUN_JSON),
    (FOREIGN_CLONE, FOREIGN_CLONE_TEXT, FOREIGN_CLONE_JSON),
];

/// Whichever request for memory is refused, the same is printed or nothing, as text and as JSON, of
/// one pool and of two.
#[test]
fn refused_memory_changes_no_answer(rt: HostRuntime) {
    for (script, text, json) in PRINTS {
        let printed = run_replay(rt.alloc(), script.as_bytes());
        assert_given(&rt, printed, text, script);
        let printed = run_replay_json(rt.alloc(), script.as_bytes());
        assert_given(&rt, printed, json, script);
    }
}

/// The replies of the first run, each with the number of its line, and the statement of its end.
const FIRST_RUN_SHOWN: &str = "[(2, Allocated(0, 0)), (3, Allocated(1, 1)), \
    (4, Freed(Freed { back: 1, flushed: 1, put_off: None }))] \
    Statement { population: 3, available: 2, in_use: 1, common: Seq { items: [0, 2] }, \
    caches: Seq { items: [Seq { items: [] }] }, \
    packets: Seq { items: [PlacedPacket { worker: 1, slot: 1, \
    segs: Seq { items: [Seg { elem: 1, base: None, data_off: 128, data_len: 0, buf_len: 2048 }] } \
    }] }, desks: Seq { items: [] }, \
    held: Seq { items: [Held { elem: 1, count: 1, holders: Seq { items: [Worker(1)] } }] } }";

/// What a replay of the first run gives, as its `Debug` shows it, for which no memory is taken.
fn first_run_shown(alloc: Global) -> Result<InlineText<1024>, Refusal> {
    let script = parse(alloc, FIRST_RUN.as_bytes())?;
    let (replies, settled) = replay(alloc, &script)?;
    let end = &settled.first;
    Ok(InlineText::of(format_args!("{replies:?} {end:?}")))
}

#[test]
fn a_replay_answers_each_command_and_places_each_element(rt: HostRuntime) -> Result<(), Fail> {
    let shown = first_run_shown(rt.alloc())?;
    same(&rt, &shown.as_str(), &FIRST_RUN_SHOWN, "the first run");
    Ok(())
}

/// Whichever request for memory is refused, the first run has its replies and its end, or neither.
#[test]
fn refused_memory_changes_no_replay(rt: HostRuntime) {
    match first_run_shown(rt.alloc()) {
        Ok(shown) => same(&rt, &shown.as_str(), &FIRST_RUN_SHOWN, "the first run"),
        Err(cause) => same(&rt, &cause, &Refusal::OutOfMemory, "the first run"),
    }
}
