//! The functions that walk the tables. A row that fails is named.

use commons::limits::{Limits, PutRule};
use mbuf::acts::Reply;
use pool_statement::statement::Statement;
use script::replay;
use script_rows::parts::written;
use script_rows::{built, caches, desks, packets, pools, sharing};
use script_text::commands::Script;
use script_text::parse;
use statement_text::pool_text;
use std::alloc::Global;
use std::fmt::Debug;
use std::process::Abort;
use std::test::Fail;

mod changes;
mod crews;
mod example;
mod lost;
mod memory;
mod missing;
mod parcels;
mod passing;
mod places;
mod players;
mod playing;
mod refused;
mod settling;
mod stopped;
mod threads;
mod twins;

use places::assert_each_once;
use playing::play;

/// The limits of a pool line that says no more than one element.
const DEFAULTS: Limits = Limits {
    population: 1,
    cache: 0,
    workers: 1,
    desks: 0,
    buf: 2_048,
    ref_limit: 65_535,
    tries: 64,
    start_count: 0,
    put_rule: PutRule::Keep,
};

/// Asserts that both are equal, and else says of what, with both.
fn same<R: Abort, T: PartialEq + Debug>(rt: &R, given: &T, wanted: &T, what: &str) {
    assert!(rt; *given == *wanted, "{what}: {given:?}, not {wanted:?}");
}

/// The text of a statement.
fn text_of(alloc: Global, statement: &Statement) -> Result<String, Fail> {
    Ok(String::from_utf8(pool_text(alloc, statement)?)?)
}

/// A statement lists each element once, and none as held.
fn assert_all_free<R: Abort>(
    rt: &R,
    alloc: Global,
    statement: &Statement,
    name: &str,
) -> Result<(), Fail> {
    let packets = (statement.packets.len(), statement.desks.len());
    let given = (packets, statement.held.len(), statement.available);
    let wanted = ((0, 0), 0, statement.population);
    same(
        rt,
        &("packets, held, available", given),
        &("packets, held, available", wanted),
        name,
    );
    assert_each_once(rt, alloc, statement, name)
}

/// The replies are those of a replay.
fn assert_replies<R: Abort>(rt: &R, replies: &[Reply], told: &[(u32, Reply)], name: &str) {
    same(
        rt,
        &("the replies", replies.len()),
        &("the replies", told.len()),
        name,
    );
    for (reply, (line, told)) in replies.iter().zip(told) {
        same(rt, &("line", *line, reply), &("line", *line, told), name);
    }
}

/// A statement has the text of the expected one, and counts each element and hold once.
fn assert_end<R: Abort>(
    rt: &R,
    alloc: Global,
    statement: &Statement,
    wanted: &Statement,
    name: &str,
) -> Result<(), Fail> {
    let text = text_of(alloc, statement)?;
    let wanted = text_of(alloc, wanted)?;
    same(rt, &text.as_str(), &wanted.as_str(), name);
    assert_each_once(rt, alloc, statement, name)
}

/// Plays a script on the words of a pool, which have to reply as its replay does, and to end in
/// the same statement. Both are answered.
fn assert_same<R: Abort>(
    rt: &R,
    alloc: Global,
    script: &Script,
    name: &str,
) -> Result<(Vec<(u32, Reply)>, Statement), Fail> {
    let (told, settled) = replay(alloc, script)?;
    let wanted = settled.first;
    let (replies, end) = play(alloc, script)?;
    assert_replies(rt, replies.as_slice(), told.as_slice(), name);
    match end {
        Ok(statement) => assert_end(rt, alloc, &statement, &wanted, name)?,
        Err(cause) => same(rt, &Some(cause), &None, name),
    }
    Ok((told, wanted))
}

/// Plays a script, if its pool has one worker or two. Tells how many were played: one, or none.
fn assert_same_on_words<R: Abort>(
    rt: &R,
    alloc: Global,
    text: &str,
    name: &str,
) -> Result<u32, Fail> {
    let script = parse(alloc, text.as_bytes())?;
    if script.pools.first.workers > 2 {
        return Ok(0);
    }
    assert_same(rt, alloc, &script, name)?;
    Ok(1)
}

#[test]
fn each_script_is_answered_as_its_replay(rt: HostRuntime) -> Result<(), Fail> {
    let mut played = 0u32;
    for (name, parts, _) in built::rows() {
        let text = written(rt.alloc(), parts)?;
        let one = assert_same_on_words(&rt, rt.alloc(), text.as_str(), name)?;
        played = played.saturating_add(one);
    }
    for rows in [
        pools::ROWS,
        caches::ROWS,
        packets::ROWS,
        sharing::ROWS,
        desks::ROWS,
    ] {
        for (name, text, _) in rows {
            let one = assert_same_on_words(&rt, rt.alloc(), text, name)?;
            played = played.saturating_add(one);
        }
    }
    assert!(&rt; played > 40, "{played} rows are played");
    Ok(())
}
