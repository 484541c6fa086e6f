//! Lists that are got and put, flushes, small pools, and sizes.

ghost use Rattle.std.specs.Prelude.{◌≡◌, ◌≤◌, length};
ghost use Rattle.depot.specs.Lending.{AreOf, IsWorker};

use crate::equal::same;
use depot::cause::{Cause, Refusal};
use depot::depot::Depot;
use depot::loans::Loans;
use depot::opening::{Size, fill, size_for};
use depot::worker::Worker;
use std::test::Fail;

/// Counts each element of a list.
fn tally(list: &[u64], seen: &mut [u32]) {
    for value in list {
        let place = *value as usize;
        if place < seen.len() {
            seen[place] = seen[place].saturating_add(1);
        }
    }
}

/// Gets a list of `n` elements, counts them and puts them again.
fn round_trip(depot: &Depot, worker: &mut Worker, loans: &mut Loans, n: usize) -> Result<u64, Cause>
    requires of { IsWorker depot.now worker.old }
    requires loans { AreOf depot.now loans.old }
    requires few { n ≤ 1000 }
    ensures of { IsWorker depot.now worker.new }
    ensures loans { AreOf depot.now loans.new }
{
    let mut out = [0; 1000];
    let mut seen = [0u32; 3000];
    if let Err(cause) = worker.get(depot, &mut out[..n], loans) {
        return Err(cause);
    }
    tally(&out[..n], &mut seen);
    if let Err(cause) = worker.put(depot, &out[..n], loans) {
        return Err(cause);
    }
    Ok(seen.iter().filter(|times: &&u32| **times == 1).count() as u64)
}

/// Gets `n` elements, and says whether each number below `n` came once.
fn gets_each(depot: &Depot, worker: &mut Worker, loans: &mut Loans, n: usize) -> bool
    requires of { IsWorker depot.now worker.old }
    requires loans { AreOf depot.now loans.old }
    requires few { n ≤ 500 }
    ensures of { IsWorker depot.now worker.new }
    ensures loans { AreOf depot.now loans.new }
{
    let mut out = [0; 500];
    let mut seen = [0u32; 500];
    if worker.get(depot, &mut out[..n], loans).is_err() {
        return false;
    }
    tally(&out[..n], &mut seen);
    seen[..n].iter().all(|times: &u32| *times == 1)
}

/// Moves 90 elements from one worker to another.
fn pass_on(
    depot: &Depot,
    first: &mut Worker,
    second: &mut Worker,
    loans: &mut Loans,
) -> Result<(), Cause>
    requires first { IsWorker depot.now first.old }
    requires second { IsWorker depot.now second.old }
    requires loans { AreOf depot.now loans.old }
    ensures first { IsWorker depot.now first.new }
    ensures second { IsWorker depot.now second.new }
    ensures loans { AreOf depot.now loans.new }
{
    let mut list = [0; 90];
    match first.get(depot, &mut list, loans) {
        Ok(()) => second.put(depot, &list, loans),
        Err(cause) => Err(cause),
    }
}

#[test]
fn lists_of_any_length_are_got_and_put(rt: HostRuntime) -> Result<(), Fail> {
    let size = Size {
        magazines: 60,
        rounds: 128,
        leaves_nothing: false,
    };
    let (depot, mut loans) = Depot::make(rt.alloc(), 3000, size, 100)?;
    let Ok(mut worker) = depot.worker(rt.alloc(), &mut loans) else {
        panic!(rt; "no worker")
    };
    let filled = fill(&depot, 3000, &mut worker, &mut loans);
    let before = worker.count();
    let one = round_trip(&depot, &mut worker, &mut loans, 1);
    let below = round_trip(&depot, &mut worker, &mut loans, 127);
    let whole = round_trip(&depot, &mut worker, &mut loans, 128);
    let above = round_trip(&depot, &mut worker, &mut loans, 129);
    let some = round_trip(&depot, &mut worker, &mut loans, 300);
    let many = round_trip(&depot, &mut worker, &mut loans, 1000);
    let after = worker.count();
    worker.end(&depot);
    assert!(rt; filled.is_ok());
    same(&rt, &(before, after), &(3000, 3000), "before and after");
    same(
        &rt,
        &[one, below, whole],
        &[Ok(1), Ok(127), Ok(128)],
        "a magazine, or less",
    );
    same(
        &rt,
        &[above, some, many],
        &[Ok(129), Ok(300), Ok(1000)],
        "more than a magazine",
    );
    Ok(())
}

#[test]
fn a_refused_get_changes_nothing(rt: HostRuntime) -> Result<(), Fail> {
    let size = Size {
        magazines: 60,
        rounds: 16,
        leaves_nothing: false,
    };
    let (depot, mut loans) = Depot::make(rt.alloc(), 500, size, 100)?;
    let Ok(mut worker) = depot.worker(rt.alloc(), &mut loans) else {
        panic!(rt; "no worker")
    };
    let filled = fill(&depot, 500, &mut worker, &mut loans);
    let mut out = [0; 501];
    let refused = worker.get(&depot, &mut out, &mut loans);
    let count = worker.count();
    let every = gets_each(&depot, &mut worker, &mut loans, 500);
    let none = worker.get_one(&depot, &mut loans);
    worker.end(&depot);
    assert!(rt; filled.is_ok());
    same(&rt, &refused, &Err(Cause::NoEntries), "refused");
    same(&rt, &count, &500, "count");
    assert!(rt; every);
    same(&rt, &none, &Err(Cause::NoEntries), "none");
    Ok(())
}

#[test]
fn what_two_workers_flush_a_third_gets(rt: HostRuntime) -> Result<(), Fail> {
    let size = Size {
        magazines: 12,
        rounds: 128,
        leaves_nothing: false,
    };
    let (depot, mut loans) = Depot::make(rt.alloc(), 300, size, 100)?;
    let Ok(mut first) = depot.worker(rt.alloc(), &mut loans) else {
        panic!(rt; "no worker")
    };
    let Ok(mut second) = depot.worker(rt.alloc(), &mut loans) else {
        first.lose();
        panic!(rt; "no worker")
    };
    let filled = fill(&depot, 300, &mut first, &mut loans);
    let passed = pass_on(&depot, &mut first, &mut second, &mut loans);
    let flushed = first.flush(&depot);
    let flushed_too = second.flush(&depot);
    let Ok(mut third) = depot.worker(rt.alloc(), &mut loans) else {
        first.end(&depot);
        second.end(&depot);
        panic!(rt; "no worker")
    };
    let every = gets_each(&depot, &mut third, &mut loans, 300);
    first.end(&depot);
    second.end(&depot);
    third.end(&depot);
    assert!(rt; filled.is_ok());
    assert!(rt; passed.is_ok());
    assert!(rt; flushed.is_ok());
    assert!(rt; flushed_too.is_ok());
    assert!(rt; every);
    Ok(())
}

#[test]
fn a_small_pool_keeps_nothing_with_its_workers(rt: HostRuntime) -> Result<(), Fail> {
    let size = Size {
        magazines: 30,
        rounds: 8,
        leaves_nothing: true,
    };
    let (depot, mut loans) = Depot::make(rt.alloc(), 20, size, 100)?;
    let Ok(mut first) = depot.worker(rt.alloc(), &mut loans) else {
        panic!(rt; "no worker")
    };
    let Ok(mut second) = depot.worker(rt.alloc(), &mut loans) else {
        first.lose();
        panic!(rt; "no worker")
    };
    let filled = fill(&depot, 20, &mut first, &mut loans);
    let one = first.get_one(&depot, &mut loans);
    let mut out = [0; 19];
    let others = second.get(&depot, &mut out, &mut loans);
    let put = match one {
        Ok(value) => first.put_one(&depot, value, &mut loans),
        Err(cause) => Err(cause),
    };
    let at_hand = one_at_hand(&depot, &mut first, &mut loans);
    let again = second.get_one(&depot, &mut loans);
    let counts = first.count().wrapping_add(second.count());
    first.end(&depot);
    second.end(&depot);
    assert!(rt; filled.is_ok());
    assert!(rt; others.is_ok());
    assert!(rt; put.is_ok());
    same(&rt, &at_hand, &None, "at_hand");
    assert!(rt; again.is_ok());
    same(&rt, &counts, &0, "counts");
    Ok(())
}

/// Gets a list of `n` elements at hand and puts it again, at hand too. Says whether both was done.
fn trip_at_hand(depot: &Depot, worker: &mut Worker, loans: &mut Loans, n: usize) -> bool
    requires of { IsWorker depot.now worker.old }
    requires loans { AreOf depot.now loans.old }
    requires few { n ≤ 40 }
    ensures of { IsWorker depot.now worker.new }
    ensures loans { AreOf depot.now loans.new }
{
    let mut out = [0; 40];
    if !worker.get_at_hand(depot, &mut out[..n], loans) {
        return false;
    }
    worker.put_at_hand(depot, &out[..n], loans)
}

/// The same with no element, a few, a burst, and as many as there is room for.
fn trips_at_hand(depot: &Depot, worker: &mut Worker, loans: &mut Loans) -> bool
    requires of { IsWorker depot.now worker.old }
    requires loans { AreOf depot.now loans.old }
    ensures of { IsWorker depot.now worker.new }
    ensures loans { AreOf depot.now loans.new }
{
    trip_at_hand(depot, worker, loans, 0)
        && trip_at_hand(depot, worker, loans, 3)
        && trip_at_hand(depot, worker, loans, 32)
        && trip_at_hand(depot, worker, loans, 40)
}

/// Gets one element at hand, where there is one, and says whether a put at hand took it.
fn one_at_hand(depot: &Depot, worker: &mut Worker, loans: &mut Loans) -> Option<bool>
    requires of { IsWorker depot.now worker.old }
    requires loans { AreOf depot.now loans.old }
    ensures of { IsWorker depot.now worker.new }
    ensures loans { AreOf depot.now loans.new }
{
    match worker.get_one_at_hand(depot, loans) {
        Some(value) => Some(worker.put_one_at_hand(depot, value, loans)),
        None => None,
    }
}

#[test]
fn lists_at_hand_are_got_and_put(rt: HostRuntime) -> Result<(), Fail> {
    let size = Size {
        magazines: 12,
        rounds: 128,
        leaves_nothing: false,
    };
    let (depot, mut loans) = Depot::make(rt.alloc(), 100, size, 100)?;
    let Ok(mut worker) = depot.worker(rt.alloc(), &mut loans) else {
        panic!(rt; "no worker")
    };
    let Ok(mut other) = depot.worker(rt.alloc(), &mut loans) else {
        worker.lose();
        panic!(rt; "no worker")
    };
    let filled = fill(&depot, 100, &mut worker, &mut loans);
    let none = one_at_hand(&depot, &mut other, &mut loans);
    let one = one_at_hand(&depot, &mut worker, &mut loans);
    let lists = trips_at_hand(&depot, &mut worker, &mut loans);
    let count = worker.count();
    let every = gets_each(&depot, &mut worker, &mut loans, 100);
    other.end(&depot);
    worker.end(&depot);
    same(&rt, &none, &None, "none");
    assert!(rt; filled.is_ok());
    same(&rt, &one, &Some(true), "one");
    assert!(rt; lists);
    same(&rt, &count, &100, "count");
    assert!(rt; every);
    Ok(())
}

/// Gets lists of `n` until one is refused, and counts each element that came.
fn drain(
    depot: &Depot,
    worker: &mut Worker,
    loans: &mut Loans,
    n: usize,
    seen: &mut [u32],
) -> (usize, Option<Cause>)
    requires of { IsWorker depot.now worker.old }
    requires loans { AreOf depot.now loans.old }
    requires few { n ≤ 128 }
    ensures of { IsWorker depot.now worker.new }
    ensures loans { AreOf depot.now loans.new }
{
    let mut out = [0; 128];
    let mut got: usize = 0;
    for _ in 0..10_000 {
        if let Err(cause) = worker.get(depot, &mut out[..n], loans) {
            return (got, Some(cause));
        }
        tally(&out[..n], seen);
        got = got.saturating_add(n);
    }
    (got, None)
}

#[test]
fn what_one_puts_another_gets_once(rt: HostRuntime) -> Result<(), Fail> {
    let Some(size) = size_for(1000, 2) else {
        panic!(rt; "no size")
    };
    // 1000 / (4 * 2) elements in each magazine, and 1000 / 125 + 2 + 3 * 2 magazines.
    assert!(rt;
        size == Size {
            magazines: 16,
            rounds: 125,
            leaves_nothing: false
        }
    );
    let Ok((depot, mut loans)) = Depot::make(rt.alloc(), 1000, size, 100) else {
        return Ok(());
    };
    let mut first = match depot.worker(rt.alloc(), &mut loans) {
        Ok(first) => first,
        Err(refusal) => {
            same(&rt, &refusal, &Refusal::Memory, "refusal");
            return Ok(());
        }
    };
    let mut second = match depot.worker(rt.alloc(), &mut loans) {
        Ok(second) => second,
        Err(refusal) => {
            first.lose();
            same(&rt, &refusal, &Refusal::Memory, "refusal");
            return Ok(());
        }
    };
    let filled = fill(&depot, 1000, &mut first, &mut loans);
    let mut seen = [0u32; 1000];
    let (lists, _cause) = drain(&depot, &mut second, &mut loans, 33, &mut seen);
    let (singles, cause) = drain(&depot, &mut second, &mut loans, 1, &mut seen);
    let (own, _cause) = drain(&depot, &mut first, &mut loans, 1, &mut seen);
    first.lose();
    second.lose();
    assert!(rt; filled.is_ok());
    same(&rt, &cause, &Some(Cause::NoEntries), "cause");
    let once = seen.iter().filter(|times: &&u32| **times == 1).count();
    same(&rt, &once, &1000, "once");
    same(
        &rt,
        &lists.saturating_add(singles).saturating_add(own),
        &1000,
        "all that was got",
    );
    Ok(())
}

#[test]
fn a_magazine_that_serves_no_worker_goes_back(rt: HostRuntime) -> Result<(), Fail> {
    let size = Size {
        magazines: 3,
        rounds: 8,
        leaves_nothing: false,
    };
    let (depot, mut loans) = Depot::make(rt.alloc(), 24, size, 100)?;
    let Ok(mut first) = depot.worker(rt.alloc(), &mut loans) else {
        panic!(rt; "no worker")
    };
    let refused = match depot.worker(rt.alloc(), &mut loans) {
        Ok(second) => {
            second.lose();
            None
        }
        Err(refusal) => Some(refusal),
    };
    // Three magazines hold 24 elements, so the worker needs the one that went back.
    let filled = fill(&depot, 24, &mut first, &mut loans);
    first.lose();
    assert!(rt; filled.is_ok());
    same(
        &rt,
        &refused,
        &Some(Refusal::Cause(Cause::NoMagazine)),
        "refused",
    );
    Ok(())
}

/// A row: the elements and workers of a depot, and its magazines, their rounds, and whether a call
/// leaves nothing behind.
const SIZES: [(u64, u32, u16, u8, bool); 6] = [
    (64, 2, 16, 8, false),
    (64, 5, 25, 8, true),
    (511, 5, 37, 25, false),
    (8_191, 5, 80, 128, false),
    (1_000_000, 129, 8_201, 128, false),
    (8_387_839, 1, 65_534, 128, false),
];

#[test]
fn a_depot_is_as_large_as_its_row_says(rt: HostRuntime) {
    for (values, workers, magazines, rounds, leaves_nothing) in SIZES {
        let size = Size {
            magazines,
            rounds,
            leaves_nothing,
        };
        same(&rt, &size_for(values, workers), &Some(size), "a size");
    }
    assert!(rt; size_for(8_387_840, 1).is_none());
    assert!(rt; size_for(64, 0).is_none());
}
