//! Workers in threads of their own, on the words of one pool.

ghost use Rattle.std.specs.Prelude.{◌≡◌, ◌<◌, ◌≤◌};
ghost use Rattle.word_tests.specs.Idle.{IsIdle};

use super::left::assert_each_once;
use super::playing::{Played, Worker, rounds};
use super::{closed_of, rows, same};
use commons::limits::Limits;
use ground::pool::Ground;
use std::alloc::Global;
use std::fmt::Debug;
use std::process::Abort;
use std::test::Fail;
use std::thread;
use std::thread::Threads;

/// What two workers have done, their seats made one.
pub(super) fn joined(ground: &Ground, first: Played, second: Played) -> Played
    requires first { IsIdle ground.now first.seat }
    requires second { IsIdle ground.now second.seat }
    ensures { IsIdle ground.now result.seat }
{
    let Played {
        mut seat,
        mut kept,
        met,
        refused,
        sound,
    } = first;
    let Played {
        seat: other,
        kept: more,
        met: met_too,
        refused: refused_too,
        sound: sound_too,
    } = second;
    let all = kept.extend_from_slice(more.as_slice()).is_ok();
    ground.join(&mut seat, other);
    Played {
        seat,
        kept,
        met: met.saturating_add(met_too),
        refused: refused.saturating_add(refused_too),
        sound: sound && sound_too && all,
    }
}

/// Two workers, each in a thread of its own.
fn two_play<R: Threads + Sync>(
    rt: &R,
    alloc: Global,
    ground: &Ground,
    workers: (Worker, Worker),
    n: usize,
    times: u32,
) -> Played
    requires first { IsIdle ground.now workers.0.seat }
    requires second { IsIdle ground.now workers.1.seat }
    requires some { 0 < n }
    requires most { n ≤ 32 }
    ensures { IsIdle ground.now result.seat }
{
    let (first, second) = workers;
    let (first, second) = thread::join(
        rt,
        move || rounds(alloc, ground, first, n, times),
        move || rounds(alloc, ground, second, n, times),
    );
    joined(ground, first, second)
}

/// Four workers, each in a thread of its own.
fn four_play<R: Threads + Sync>(
    rt: &R,
    alloc: Global,
    ground: &Ground,
    workers: (Worker, Worker),
    more: (Worker, Worker),
    n: usize,
    times: u32,
) -> Played
    requires first { IsIdle ground.now workers.0.seat }
    requires second { IsIdle ground.now workers.1.seat }
    requires third { IsIdle ground.now more.0.seat }
    requires fourth { IsIdle ground.now more.1.seat }
    requires some { 0 < n }
    requires most { n ≤ 32 }
    ensures { IsIdle ground.now result.seat }
{
    let (first, second) = thread::join(
        rt,
        move || -> Played
            requires first { IsIdle ground.now workers.0.seat }
            requires second { IsIdle ground.now workers.1.seat }
            requires some { 0 < n }
            requires most { n ≤ 32 }
        { two_play(rt, alloc, ground, workers, n, times) },
        move || -> Played
            requires first { IsIdle ground.now more.0.seat }
            requires second { IsIdle ground.now more.1.seat }
            requires some { 0 < n }
            requires most { n ≤ 32 }
        { two_play(rt, alloc, ground, more, n, times) },
    );
    joined(ground, first, second)
}

/// Ends a pool, and demands that each element is in its common list or in a hand, once, and that a
/// list went there and back where the pool has that many elements.
fn assert_left<R: Abort, W: Debug>(
    rt: &R,
    alloc: Global,
    ground: Ground,
    played: Played,
    enough: bool,
    what: &W,
) -> Result<(), Fail>
    requires { IsIdle ground played.seat }
{
    let Played {
        seat,
        kept,
        met,
        refused: _,
        sound,
    } = played;
    let closed = closed_of(ground, seat)?;
    same(rt, &(sound, met > 0), &(true, enough), what);
    assert_each_once(rt, alloc, &closed, kept.as_slice(), what)
}

/// Two workers of one pool, which is closed once both threads have ended.
fn two_of<R: Threads + Sync + Abort>(
    rt: &R,
    alloc: Global,
    population: u64,
    n: usize,
    times: u32,
) -> Result<(), Fail>
    requires some { 0 < n }
    requires most { n ≤ 32 }
{
    let limits = Limits {
        population,
        workers: 2,
        ..rows::THREE
    };
    let (ground, mut seat) = Ground::make(alloc, &limits)?;
    let second = ground.split(&mut seat);
    let played = two_play(
        rt,
        alloc,
        &ground,
        (Worker { seat }, Worker { seat: second }),
        n,
        times,
    );
    let enough = n as u64 <= population;
    let what = ("two workers", n, population);
    assert_left(rt, alloc, ground, played, enough, &what)
}

/// Four workers of one pool, which is closed once all threads have ended.
fn four_of<R: Threads + Sync + Abort>(
    rt: &R,
    alloc: Global,
    population: u64,
    n: usize,
    times: u32,
) -> Result<(), Fail>
    requires some { 0 < n }
    requires most { n ≤ 32 }
{
    let limits = Limits {
        population,
        workers: 4,
        ..rows::THREE
    };
    let (ground, mut seat) = Ground::make(alloc, &limits)?;
    let second = ground.split(&mut seat);
    let third = ground.split(&mut seat);
    let fourth = ground.split(&mut seat);
    let played = four_play(
        rt,
        alloc,
        &ground,
        (Worker { seat }, Worker { seat: second }),
        (Worker { seat: third }, Worker { seat: fourth }),
        n,
        times,
    );
    let enough = n as u64 <= population;
    let what = ("four workers", n, population);
    assert_left(rt, alloc, ground, played, enough, &what)
}

#[test]
fn two_workers_leave_each_element_once(rt: HostRuntime) -> Result<(), Fail> {
    two_of(&rt, rt.alloc(), 8, 3, 1_000)
}

#[test]
fn four_workers_leave_each_element_once(rt: HostRuntime) -> Result<(), Fail> {
    for population in [8, 64, 1_024] {
        for n in [1, 3, 32] {
            four_of(&rt, rt.alloc(), population, n, 100_000)?;
        }
    }
    Ok(())
}
