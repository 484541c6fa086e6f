//! Random scripts of two pools, of one worker: whichever ground they run on, they end as their
//! replay does.

use super::grounds::assert_ends_as_its_replay;
use super::same;
use pool_statement::statement::Statement;
use std::alloc::{AllocError, Global};
use std::process::Abort;
use std::test::Fail;

/// How many scripts are played, and how many lines each has behind its pool line.
const SCRIPTS: u64 = 300;

const LINES: u32 = 40;

/// The next of numbers that look random (xorshift), which is below this bound.
fn below(state: &mut u64, bound: u32) -> u32 {
    let mut next = *state;
    next ^= next << 13;
    next ^= next >> 7;
    next ^= next << 17;
    *state = next;
    let below = u64::from(bound.max(1));
    u32::try_from((next >> 33) % below).unwrap_or(0)
}

/// Adds the pool line: small pools, so that both run out, and caches where there is room for them.
fn push_pools(text: &mut String, state: &mut u64) -> Result<(), AllocError> {
    let first = below(state, 6).saturating_add(6);
    let second = below(state, 5).saturating_add(4);
    let cache = below(state, 5);
    let second_cache = below(state, 3);
    let refs = below(state, 4).saturating_add(2);
    let rule = below(state, 2);
    writeln!(
        text,
        "pool {first} cache {cache} second {second} secondcache {second_cache} refs {refs} \
        putrule {rule}"
    )
}

/// Adds a line that asks for something of names that were made before. How many names are made
/// then.
fn push_line(text: &mut String, state: &mut u64, made: u32) -> Result<u32, AllocError> {
    let one = below(state, made);
    let other = below(state, made);
    let len = below(state, 90);
    match below(state, 16) {
        0..=2 => writeln!(text, "alloc p{made}")?,
        3 => writeln!(text, "clone p{one} p{made}")?,
        4..=6 => writeln!(text, "cloneto p{one} p{made}")?,
        7 => writeln!(text, "append p{one} {len}")?,
        8 => writeln!(text, "adj p{one} {len}")?,
        9 => writeln!(text, "trim p{one} {len}")?,
        10 => writeln!(text, "chain p{one} p{other}")?,
        11 => writeln!(text, "attach p{one} p{other}")?,
        12 => writeln!(text, "count p{one}")?,
        13 => writeln!(text, "flush")?,
        _ => writeln!(text, "free p{one}")?,
    }
    Ok(made.saturating_add(1))
}

/// The script of a number.
fn script_of(alloc: Global, seed: u64) -> Result<String, AllocError> {
    let mut state = seed.wrapping_mul(0x9e37_79b9_7f4a_7c15) | 1;
    let mut text = String::new(alloc);
    push_pools(&mut text, &mut state)?;
    let mut made = 0u32;
    for _ in 0..LINES {
        made = push_line(&mut text, &mut state, made)?;
    }
    Ok(text)
}

/// Each element of a pool is accounted for.
fn assert_all<R: Abort>(rt: &R, statement: &Statement, text: &str) {
    let all = statement.available.saturating_add(statement.in_use);
    same(rt, &all, &statement.population, text);
}

#[test]
fn random_scripts_of_two_pools_end_on_either_ground_as_their_replay(
    rt: HostRuntime,
) -> Result<(), Fail> {
    for seed in 0..SCRIPTS {
        let text = script_of(rt.alloc(), seed)?;
        let text = text.as_str();
        let settled = assert_ends_as_its_replay(&rt, text, 1, 1, text)?;
        assert_all(&rt, &settled.first, text);
        match &settled.second {
            Some(second) => assert_all(&rt, second, text),
            None => assert!(&rt; false, "two pools: {text}"),
        }
    }
    Ok(())
}
