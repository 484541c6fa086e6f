//! The functions that walk the tables. A row that fails is named.

use commons::limits::{Limits, PutRule};
use commons::packet::Seg;
use commons::refusal::Refusal;
use mbuf::acts::Reply;
use pool_statement::settled::Settled;
use pool_statement::statement::Holder;
use script::texts::push_reply;
use script::{replay, run_replay, run_replay_json, statement_json, statement_text};
use script_rows::parts::written;
use script_rows::{built, caches, desks, packets, pools, sharing, twins as foreign};
use script_text::parse;
use statement_text::pool_text;
use std::alloc::Global;
use std::fmt::Debug;
use std::process::Abort;
use std::test::Fail;

mod building;
mod grounds;
mod handing;
mod json;
mod long;
mod lost;
mod memory;
mod parsing;
mod random;
mod readings;
mod reasons;
mod replies;
mod settling;
mod shown;
mod statements;
mod step_readings;
mod step_texts;
mod texts;
mod threads;
mod twins;

use building::placed;

/// A row of a table of texts.
enum TextRow {
    /// A script.
    Good(&'static str),
    /// A text that is none, and why.
    Bad(&'static str, Refusal),
}

/// A name, a text's front, how often its middle stands in it, the middle, its end, its length in
/// bytes, and its refusal; a script has none.
type LongRow = (
    &'static str,
    &'static str,
    u32,
    &'static str,
    &'static str,
    usize,
    Option<Refusal>,
);

/// A name, a script, its limits, those of its second pool, and what its lines say.
type ReadRow = (
    &'static str,
    &'static str,
    Limits,
    Option<Limits>,
    &'static str,
);

/// The line of a reply, the number of the line, and the reply.
type ReplyRow = (&'static str, u32, Reply);

/// A statement as plain data.
struct Places {
    population: u64,
    available: u64,
    in_use: u64,
    common: &'static [u32],
    caches: &'static [&'static [u32]],
    /// Each with its worker, its slot and its segments.
    packets: &'static [(u32, u32, &'static [Seg])],
    /// Each with its desk and its segments.
    desks: &'static [(u32, &'static [Seg])],
    /// Each element with its count and its holders.
    held: &'static [(u32, u32, &'static [Holder])],
}

/// A name, a statement, and its text.
type StatementRow = (&'static str, Places, &'static str);

/// A name, a script, and the JSON of its end without its line end.
type JsonRow = (&'static str, &'static str, &'static str);

/// The limits of a pool line that says no more than one element.
const DEFAULTS: Limits = Limits {
    population: 1,
    cache: 0,
    workers: 1,
    desks: 0,
    buf: 2_048,
    ref_limit: 65_535,
    tries: 64,
    start_count: 0,
    put_rule: PutRule::Keep,
};

/// Asserts that both are equal, and else says of what, with both.
fn same<R: Abort, T: PartialEq + Debug>(rt: &R, given: &T, wanted: &T, what: &str) {
    assert!(rt; *given == *wanted, "{what}: {given:?}, not {wanted:?}");
}

/// These bytes are given, or memory was refused.
fn assert_given<R: Abort>(rt: &R, given: Result<Vec<u8>, Refusal>, wanted: &str, what: &str) {
    match given {
        Ok(bytes) => same(rt, &bytes.as_slice(), &wanted.as_bytes(), what),
        Err(refusal) => same(rt, &refusal, &Refusal::OutOfMemory, what),
    }
}

/// The text of what a script's pools come to.
fn text_of_end(alloc: Global, settled: &Settled) -> Result<String, Fail> {
    let bytes = statement_text(alloc, settled)?;
    Ok(String::from_utf8(bytes)?)
}

/// The replies of a script, each with the number of its line, and what its pools come to.
fn played(alloc: Global, script: &str) -> Result<(Vec<(u32, Reply)>, Settled), Fail> {
    let script = parse(alloc, script.as_bytes())?;
    Ok(replay(alloc, &script)?)
}

/// What a script's pools come to.
fn end_of(alloc: Global, script: &str) -> Result<Settled, Fail> {
    let (_replies, settled) = played(alloc, script)?;
    Ok(settled)
}

/// What replies print, each by its own call.
fn text_of_replies(alloc: Global, replies: &[(u32, Reply)]) -> Result<String, Fail> {
    let mut text = Vec::new(alloc);
    for (number, reply) in replies {
        push_reply(&mut text, *number, reply)?;
    }
    Ok(String::from_utf8(text)?)
}

/// The text of replies, and behind it that of the end.
fn text_of_parts(
    alloc: Global,
    replies: &[(u32, Reply)],
    settled: &Settled,
) -> Result<String, Fail> {
    let mut text = text_of_replies(alloc, replies)?;
    text.push_str(text_of_end(alloc, settled)?.as_str())?;
    Ok(text)
}

/// What the replies of a script and its end print, each by its own call.
fn replayed_in_parts(alloc: Global, script: &str) -> Result<String, Fail> {
    let (replies, settled) = played(alloc, script)?;
    text_of_parts(alloc, replies.as_slice(), &settled)
}

/// A script prints this text, at once and by its parts.
fn print_text<R: Abort + AllocGlobal>(
    rt: &R,
    script: &str,
    text: &str,
    name: &str,
) -> Result<(), Fail> {
    let whole = String::from_utf8(run_replay(rt.alloc(), script.as_bytes())?)?;
    same(rt, &("at once", whole.as_str()), &("at once", text), name);
    let parts = replayed_in_parts(rt.alloc(), script)?;
    let (how, printed) = ("by its parts", parts.as_str());
    same(rt, &(how, printed), &(how, text), name);
    Ok(())
}

#[test]
fn each_script_prints_its_text(rt: HostRuntime) -> Result<(), Fail> {
    for rows in [
        pools::ROWS,
        caches::ROWS,
        packets::ROWS,
        sharing::ROWS,
        desks::ROWS,
        foreign::ROWS,
    ] {
        for (name, script, text) in rows {
            print_text(&rt, script, text, name)?;
        }
    }
    Ok(())
}

#[test]
fn each_long_script_prints_its_text(rt: HostRuntime) -> Result<(), Fail> {
    for (name, script, text) in built::rows() {
        let script = written(rt.alloc(), script)?;
        let text = written(rt.alloc(), text)?;
        print_text(&rt, script.as_str(), text.as_str(), name)?;
    }
    Ok(())
}

/// Each line is put after those before it.
#[test]
fn each_reply_prints_behind_its_line(rt: HostRuntime) -> Result<(), Fail> {
    let mut printed = Vec::new(rt.alloc());
    let mut text = String::new(rt.alloc());
    for (line, number, reply) in &replies::rows() {
        push_reply(&mut printed, *number, reply)?;
        text.push_str(line)?;
        same(&rt, &printed.as_slice(), &text.as_bytes(), line);
    }
    Ok(())
}

/// The text of a statement.
fn text_of_places(alloc: Global, places: &Places) -> Result<String, Fail> {
    let statement = placed(alloc, places)?;
    Ok(String::from_utf8(pool_text(alloc, &statement)?)?)
}

#[test]
fn each_statement_prints_its_text(rt: HostRuntime) -> Result<(), Fail> {
    for (name, places, text) in statements::ROWS {
        let printed = text_of_places(rt.alloc(), places)?;
        same(&rt, &printed.as_str(), text, name);
    }
    Ok(())
}

/// The JSON of what a script's pools come to.
fn json_of_end(alloc: Global, settled: &Settled) -> Result<String, Fail> {
    let bytes = statement_json(alloc, settled)?;
    Ok(String::from_utf8(bytes)?)
}

/// What a script prints as JSON, at once.
fn replayed_json(alloc: Global, script: &str) -> Result<String, Fail> {
    let bytes = run_replay_json(alloc, script.as_bytes())?;
    Ok(String::from_utf8(bytes)?)
}

/// The JSON of a script's end, by its own call.
fn json_by_its_end(alloc: Global, script: &str) -> Result<String, Fail> {
    let settled = end_of(alloc, script)?;
    json_of_end(alloc, &settled)
}

/// A script prints this line, and its end does.
fn print_json_line<R: Abort + AllocGlobal>(
    rt: &R,
    script: &str,
    line: &str,
    name: &str,
) -> Result<(), Fail> {
    let whole = replayed_json(rt.alloc(), script)?;
    same(rt, &("at once", whole.as_str()), &("at once", line), name);
    let end = json_by_its_end(rt.alloc(), script)?;
    same(rt, &("its end", end.as_str()), &("its end", line), name);
    Ok(())
}

#[test]
fn each_script_prints_its_json(rt: HostRuntime) -> Result<(), Fail> {
    for (name, script, json) in json::ROWS {
        let line = format!(in rt.alloc(); "{json}\n")?;
        print_json_line(&rt, script, line.as_str(), name)?;
    }
    Ok(())
}
