//! Runs in threads that come to one statement, whichever ground the pool rests on.

use super::threads::{GROUNDS, TURNS};
use super::{assert_given, end_of, json, same, text_of_end};
use commons::refusal::Refusal;
use pool_statement::settled::Settled;
use script::{Grounds, run_script, statement_text};
use script_rows::parts::written;
use script_rows::pools::FIRST_RUN;
use script_rows::twins::{FOREIGN_CLONE, FOREIGN_CLONE_END};
use script_rows::{built, caches, desks, packets, pools, sharing, twins as foreign};
use script_text::parse;
use std::process::Abort;
use std::sync::Wait;
use std::test::Fail;
use std::thread::Threads;

/// Scripts of several workers that end alike in whatever order their threads act: one worker alone
/// takes elements and puts any back, and who takes a packet off a desk waits for the one offer
/// there.
///
/// These don't, and are left out:
/// - Where two workers take elements of the common stack, the first gets the upper ones: "two
///   workers", "a held element is listed with its desks", "take into a full table".
/// - Where two free what shares a base, it goes back to the cache of the last: "clone over a desk".
/// - Where a desk is offered on twice, the second offer succeeds if a take comes between: "desk
///   refusals".
/// - A worker who waits at a desk on which it has offered may take its own packet back: "a name
///   that is offered and taken is each workers own", "a packet of 32 segments goes over all desks
///   and back".
const ALIKE: &[&str] = &[
    "example of desks",
    "names and caches are each workers own",
    "a packet on a desk keeps its base as its clone is freed",
    "a clone on a desk keeps its base as its packet is freed",
    "a chain of two lengths in buffers of 300 bytes",
    "a header of one worker and a body of another",
];

/// Where each element is at the end of the first run.
const FIRST_END: &str = "population 3\navailable 2\nin use 1\ncommon 2: 0 2\ncache 1 0:\n\
    packet 1 1 segs 1 len 0: 1@128+0/2048\nheld 1 count 1: 1\n";

/// The text of what a script's run on this ground comes to.
fn text_of_run<R: Threads + Wait + Sync + Abort + AllocGlobal>(
    rt: &R,
    text: &str,
    grounds: Grounds,
    turns: u32,
) -> Result<String, Fail> {
    let settled = run_script(rt, rt.alloc(), text.as_bytes(), grounds, turns.max(1))?;
    text_of_end(rt.alloc(), &settled)
}

/// A script's run on this ground ends so.
fn assert_ends_on<R: Threads + Wait + Sync + Abort + AllocGlobal>(
    rt: &R,
    text: &str,
    grounds: Grounds,
    turns: u32,
    wanted: &str,
    name: &str,
) -> Result<(), Fail> {
    let end = text_of_run(rt, text, grounds, turns)?;
    same(rt, &(grounds, end.as_str()), &(grounds, wanted), name);
    Ok(())
}

/// A script's runs end so, this often on each ground.
fn assert_ends_on_each<R: Threads + Wait + Sync + Abort + AllocGlobal>(
    rt: &R,
    text: &str,
    times: u32,
    turns: u32,
    wanted: &str,
    name: &str,
) -> Result<(), Fail> {
    for _ in 0..times {
        for grounds in GROUNDS {
            assert_ends_on(rt, text, grounds, turns, wanted, name)?;
        }
    }
    Ok(())
}

/// Runs a script this often on each ground, where it has to end as its replay does, which is
/// answered.
pub(super) fn assert_ends_as_its_replay<R: Threads + Wait + Sync + Abort + AllocGlobal>(
    rt: &R,
    text: &str,
    times: u32,
    turns: u32,
    name: &str,
) -> Result<Settled, Fail> {
    let replayed = end_of(rt.alloc(), text)?;
    let wanted = text_of_end(rt.alloc(), &replayed)?;
    assert_ends_on_each(rt, text, times, turns, wanted.as_str(), name)?;
    Ok(replayed)
}

/// Runs a script where it has one worker, and tells whether it has.
fn ends_alone<R: Threads + Wait + Sync + Abort + AllocGlobal>(
    rt: &R,
    text: &str,
    name: &str,
) -> Result<bool, Fail> {
    let script = parse(rt.alloc(), text.as_bytes())?;
    let is_alone = script.pools.first.workers == 1;
    if is_alone {
        let _end = assert_ends_as_its_replay(rt, text, 1, 1, name)?;
    }
    Ok(is_alone)
}

#[test]
fn a_script_of_one_worker_ends_on_either_ground_as_its_replay(rt: HostRuntime) -> Result<(), Fail> {
    let mut ended = 0u32;
    for (name, parts, _) in built::rows() {
        let text = written(rt.alloc(), parts)?;
        ended = ended.saturating_add(u32::from(ends_alone(&rt, text.as_str(), name)?));
    }
    for rows in [
        pools::ROWS,
        caches::ROWS,
        packets::ROWS,
        sharing::ROWS,
        desks::ROWS,
        foreign::ROWS,
    ] {
        for (name, text, _) in rows {
            ended = ended.saturating_add(u32::from(ends_alone(&rt, text, name)?));
        }
    }
    assert!(rt; ended > 36, "{ended} rows have one worker");
    Ok(())
}

/// Runs a script that ends alike 20 times, and tells whether it does.
fn ends_alike<R: Threads + Wait + Sync + Abort + AllocGlobal>(
    rt: &R,
    text: &str,
    name: &str,
) -> Result<bool, Fail> {
    let is_alike = ALIKE.contains(&name);
    if is_alike {
        let _end = assert_ends_as_its_replay(rt, text, 20, TURNS, name)?;
    }
    Ok(is_alike)
}

#[test]
fn a_script_that_ends_alike_in_each_order_ends_on_either_ground_as_its_replay(
    rt: HostRuntime,
) -> Result<(), Fail> {
    let mut ended = 0usize;
    for rows in [pools::ROWS, caches::ROWS, desks::ROWS, foreign::ROWS] {
        for (name, text, _) in rows {
            ended = ended.saturating_add(usize::from(ends_alike(&rt, text, name)?));
        }
    }
    for (name, text, _) in json::ROWS {
        ended = ended.saturating_add(usize::from(ends_alike(&rt, text, name)?));
    }
    same(&rt, &ended, &ALIKE.len(), "how many end alike");
    Ok(())
}

/// Whichever request for memory is refused, a run of one worker comes to the same end, or to none,
/// with one pool and with two.
#[test]
fn refused_memory_changes_no_run(rt: HostRuntime) {
    for grounds in GROUNDS {
        for (script, wanted) in [(FIRST_RUN, FIRST_END), (FOREIGN_CLONE, FOREIGN_CLONE_END)] {
            match run_script(&rt, rt.alloc(), script.as_bytes(), grounds, 1) {
                Ok(settled) => {
                    let end = statement_text(rt.alloc(), &settled);
                    assert_given(&rt, end, wanted, script);
                }
                Err(cause) => same(&rt, &cause, &Refusal::OutOfMemory, script),
            }
        }
    }
}
