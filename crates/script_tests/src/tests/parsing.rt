//! Texts that are read as scripts, or refused.

use super::shown::{shown_lines, shown_steps};
use super::{TextRow, long, readings, same, step_readings, step_texts, texts};
use commons::refusal::Refusal;
use script::{run_replay, run_replay_json};
use script_text::commands::Script;
use script_text::{parse, parse_steps};
use std::process::Abort;
use std::test::Fail;

/// The most elements of a pool that a row is played on: the text of one of 16,777,214 elements has
/// 140 million bytes.
const MOST_PLAYED: u64 = 100_000;

/// Whether a script is of pools that are small enough to be played here.
fn is_played(script: &Script) -> bool {
    let second = script.pools.second.map_or(0, |limits| limits.population);
    script.pools.first.population.max(second) <= MOST_PLAYED
}

/// A text is refused so by all that read scripts, or by none; a script of a large pool is only
/// read.
fn refuse_text<R: Abort + AllocGlobal>(rt: &R, text: &str, refusal: Option<Refusal>) {
    let parsed = parse(rt.alloc(), text.as_bytes());
    let plays = parsed.as_ref().map_or(true, is_played);
    same(rt, &(text, parsed.err()), &(text, refusal), text);
    if plays {
        let printed = run_replay(rt.alloc(), text.as_bytes()).err();
        let json = run_replay_json(rt.alloc(), text.as_bytes()).err();
        let wanted = (text, refusal, refusal);
        same(rt, &(text, printed, json), &wanted, text);
    }
}

/// A text is refused so as a script of steps, or is one.
fn refuse_steps<R: Abort + AllocGlobal>(rt: &R, text: &str, refusal: Option<Refusal>) {
    let parsed = parse_steps(rt.alloc(), text.as_bytes());
    same(rt, &(text, parsed.err()), &(text, refusal), text);
}

/// Each text is a script, or is refused as its row says.
fn refuse_texts<R: Abort + AllocGlobal>(rt: &R, rows: &[TextRow]) {
    for row in rows {
        match row {
            TextRow::Good(text) => refuse_text(rt, text, None),
            TextRow::Bad(text, refusal) => refuse_text(rt, text, Some(*refusal)),
        }
    }
}

#[test]
fn each_text_is_a_script_or_refused(rt: HostRuntime) {
    refuse_texts(&rt, texts::ROWS);
    refuse_texts(&rt, texts::POOL_ROWS);
}

#[test]
fn each_text_is_a_script_of_steps_or_refused(rt: HostRuntime) {
    for row in step_texts::ROWS {
        match row {
            TextRow::Good(text) => refuse_steps(&rt, text, None),
            TextRow::Bad(text, refusal) => refuse_steps(&rt, text, Some(*refusal)),
        }
    }
}

#[test]
fn each_long_text_is_a_script_or_refused(rt: HostRuntime) -> Result<(), Fail> {
    for (name, front, count, middle, end, len, refusal) in long::ROWS {
        let mut text = String::new(rt.alloc());
        text.push_str(front)?;
        for _ in 0..*count {
            text.push_str(middle)?;
        }
        text.push_str(end)?;
        let parsed = parse(rt.alloc(), text.as_bytes()).err();
        same(&rt, &(text.len(), parsed), &(*len, *refusal), name);
    }
    Ok(())
}

#[test]
fn each_script_is_read_as_its_limits_and_lines(rt: HostRuntime) -> Result<(), Fail> {
    for (name, text, limits, second, lines) in readings::ROWS {
        let script = parse(rt.alloc(), text.as_bytes())?;
        let shown = shown_lines(rt.alloc(), script.lines.as_slice())?;
        let given = (script.pools.first, script.pools.second, shown.as_str());
        same(&rt, &given, &(*limits, *second, *lines), name);
    }
    Ok(())
}

/// The steps of a script are compared as their `Debug` shows them.
#[test]
fn each_script_of_steps_is_read_as_its_limits_and_steps(rt: HostRuntime) -> Result<(), Fail> {
    for (name, text, limits, second, lines) in step_readings::ROWS {
        let script = parse_steps(rt.alloc(), text.as_bytes())?;
        let shown = shown_steps(rt.alloc(), script.lines.as_slice())?;
        let given = (script.pools.first, script.pools.second, shown.as_str());
        same(&rt, &given, &(*limits, *second, *lines), name);
    }
    Ok(())
}
