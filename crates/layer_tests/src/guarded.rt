//! What guarded workers answer, in named orders of their calls.

ghost use Rattle.std.specs.Prelude.{◌≡◌, ◌≤◌, ◌<◌, length, IfOk};
ghost use Rattle.depot.specs.Rolls.{IsRoll};
ghost use Rattle.guard.specs.Guards.{IsGuard};

use crate::equal::same;
use depot::cause::{Cause, Refusal};
use depot::depot::Depot;
use depot::opening::Size;
use depot::roll::Roll;
use guard::opening::{Keeping, make_guarded, make_worker};
use guard::refusal::NotPut;
use guard::worker::GuardWorker;
use std::alloc::Global;
use std::test::Fail;

/// A guarded pool, all of whose elements are at the depot, and its worker, with the roll.
fn filled(
    alloc: Global,
    population: u32,
    size: Size,
    keeping: Keeping,
) -> Result<(Depot, GuardWorker, Roll), Refusal>
    requires magazines { size.magazines < 65535 }
    requires some_rounds { 0 < size.rounds }
    requires few_rounds { size.rounds ≤ 128 }
    ensures of { IfOk result (λ made. IsGuard made.0 made.1) }
    ensures roll { IfOk result (λ made. IsRoll made.0 made.2) }
{
    match make_guarded(alloc, population, size, keeping, 100) {
        Ok((depot, mut worker, roll)) => {
            let _ = put_each(&depot, &mut worker, population);
            let _ = worker.flush(&depot);
            Ok((depot, worker, roll))
        }
        Err(refusal) => Err(refusal),
    }
}

/// A guarded pool, all of whose elements are at the depot, and two workers.
fn pair(
    alloc: Global,
    population: u32,
    size: Size,
    keeping: Keeping,
) -> Result<(Depot, GuardWorker, GuardWorker), Refusal>
    requires magazines { size.magazines < 65535 }
    requires some_rounds { 0 < size.rounds }
    requires few_rounds { size.rounds ≤ 128 }
    ensures first { IfOk result (λ made. IsGuard made.0 made.1) }
    ensures second { IfOk result (λ made. IsGuard made.0 made.2) }
{
    match filled(alloc, population, size, keeping) {
        Ok((depot, first, mut roll)) => match make_worker(alloc, &depot, &mut roll, keeping) {
            Ok(second) => Ok((depot, first, second)),
            Err(refusal) => {
                first.lose();
                Err(refusal)
            }
        },
        Err(refusal) => Err(refusal),
    }
}

/// Magazines of 8 elements, so many.
fn eights(magazines: u16) -> Size
    ensures magazines { result.magazines ≡ magazines }
    ensures rounds { result.rounds ≡ 8 }
{
    Size {
        magazines,
        rounds: 8,
        leaves_nothing: false,
    }
}

/// Gets single elements until one is refused, and counts each that came.
fn drain(depot: &Depot, worker: &mut GuardWorker, seen: &mut [u32]) -> usize
    requires of { IsGuard depot.now worker.old }
    ensures of { IsGuard depot.now worker.new }
    ensures seen { length seen.new ≡ length seen.old }
{
    let mut got: usize = 0;
    for _ in 0..10_000 {
        match worker.get_one(depot) {
            Ok(element) => {
                let place = element as usize;
                if place < seen.len() {
                    seen[place] = seen[place].saturating_add(1);
                }
                got = got.saturating_add(1);
            }
            Err(_) => return got,
        }
    }
    got
}

/// Puts each number below `n`, and counts those that were put.
fn put_each(depot: &Depot, worker: &mut GuardWorker, n: u32) -> usize
    requires of { IsGuard depot.now worker.old }
    ensures of { IsGuard depot.now worker.new }
{
    let mut put: usize = 0;
    for element in 0..n {
        if worker.put_one(depot, element).is_ok() {
            put = put.saturating_add(1);
        }
    }
    put
}

/// Puts two elements that the first worker got, by it and by the other, and one that there isn't.
/// Answers the first element, and what each put came to.
fn put_by_either(
    depot: &Depot,
    first: &mut GuardWorker,
    second: &mut GuardWorker,
) -> (u32, [Result<(), NotPut>; 8])
    requires first { IsGuard depot.now first.old }
    requires second { IsGuard depot.now second.old }
    ensures first { IsGuard depot.now first.new }
    ensures second { IsGuard depot.now second.new }
{
    let a = first.get_one(depot).unwrap_or(1001);
    let b = first.get_one(depot).unwrap_or(1001);
    let answers = [
        first.put_one(depot, 1000),
        first.put_one(depot, a),
        first.put_one(depot, a),
        second.put_one(depot, b),
        second.put_one(depot, b),
        first.put_one(depot, b),
        second.put_one(depot, a),
        second.put_one(depot, a),
    ];
    (a, answers)
}

/// How many of 1,000 elements the second worker puts, how many it puts again, and how many the
/// first puts then.
fn put_thrice(
    depot: &Depot,
    first: &mut GuardWorker,
    second: &mut GuardWorker,
) -> (usize, usize, usize)
    requires first { IsGuard depot.now first.old }
    requires second { IsGuard depot.now second.old }
    ensures first { IsGuard depot.now first.new }
    ensures second { IsGuard depot.now second.new }
{
    let once = put_each(depot, second, 1000);
    let twice = put_each(depot, second, 1000);
    (once, twice, put_each(depot, first, 1000))
}

#[test]
fn what_is_not_out_is_not_put(rt: HostRuntime) -> Result<(), Fail> {
    let keeping = Keeping {
        cache: 32,
        waiting: 0,
    };
    let (depot, mut first, mut second) = match pair(rt.alloc(), 1000, eights(140), keeping) {
        Ok(made) => made,
        Err(refusal) => {
            same(&rt, &refusal, &Refusal::Memory, "refusal");
            return Ok(());
        }
    };
    let (a, answers) = put_by_either(&depot, &mut first, &mut second);
    let mut seen = [0u32; 1000];
    let own = drain(&depot, &mut first, &mut seen);
    let others = drain(&depot, &mut second, &mut seen);
    let none = first.count().wrapping_add(second.count());
    let counts = put_thrice(&depot, &mut first, &mut second);
    let flushed = second.flush(&depot);
    let mut last = [0u32; 1000];
    let left = drain(&depot, &mut first, &mut last);
    let stale = (first.next_stale(), first.next_stale());
    first.lose();
    second.end(&depot);
    let expected = [
        Err(NotPut::Stranger),
        Ok(()),
        Err(NotPut::Kept),
        Ok(()),
        Err(NotPut::Home),
        Err(NotPut::Home),
        Ok(()),
        Err(NotPut::Home),
    ];
    same(&rt, &answers, &expected, "answers");
    same(&rt, &own.saturating_add(others), &1000, "got by both");
    assert!(rt; seen.iter().all(|times: &u32| *times == 1));
    same(&rt, &stale, &(Some(a), None), "stale");
    same(
        &rt,
        &none.wrapping_add(1000),
        &0,
        "the counts of both, and all elements",
    );
    let (once, twice, thrice) = counts;
    same(&rt, &(once, twice), &(1000, 0), "put once, and twice");
    assert!(rt; thrice <= 32);
    assert!(rt; flushed.is_ok());
    same(&rt, &left, &1000, "left");
    assert!(rt; last.iter().all(|times: &u32| *times == 1));
    Ok(())
}

#[test]
fn what_another_put_is_stale_in_each_order(rt: HostRuntime) -> Result<(), Fail> {
    let keeping = Keeping {
        cache: 32,
        waiting: 0,
    };
    let (depot, mut first, mut second) = match pair(rt.alloc(), 64, eights(24), keeping) {
        Ok(made) => made,
        Err(refusal) => {
            same(&rt, &refusal, &Refusal::Memory, "refusal");
            return Ok(());
        }
    };
    let a = first.get_one(&depot).unwrap_or(65);
    // The first puts it, then the second, and the first gets before the second.
    let puts = [first.put_one(&depot, a), second.put_one(&depot, a)];
    let other = first.get_one(&depot).unwrap_or(65);
    let again = second.get_one(&depot).unwrap_or(65);
    let told = (first.next_stale(), first.next_stale());
    // The second has it, and keeps it. The first puts it, and gets before the second.
    let back = [second.put_one(&depot, again), first.put_one(&depot, again)];
    let from_first = first.get_one(&depot).unwrap_or(65);
    let told_second = {
        let _ = second.get_one(&depot);
        (second.next_stale(), second.next_stale())
    };
    // The first has it, and puts it; it gets it again before the second puts it.
    let own = first.put_one(&depot, from_first);
    let own_again = first.get_one(&depot).unwrap_or(65);
    let late = [
        second.put_one(&depot, own_again),
        first.put_one(&depot, own_again),
    ];
    // The second puts what the first has, before the first does.
    let early = [
        second.put_one(&depot, other),
        first.put_one(&depot, other),
        second.put_one(&depot, other),
    ];
    let told_none = (first.next_stale(), second.next_stale());
    first.lose();
    second.lose();
    same(&rt, &puts, &[Ok(()), Ok(())], "puts");
    same(
        &rt,
        &(again, other == a),
        &(a, false),
        "got again, and another",
    );
    same(&rt, &told, &(Some(a), None), "told");
    same(&rt, &back, &[Ok(()), Ok(())], "back");
    same(&rt, &from_first, &a, "from_first");
    same(&rt, &told_second, &(Some(a), None), "told_second");
    same(&rt, &(own, own_again), &(Ok(()), a), "put, and got again");
    same(&rt, &late, &[Ok(()), Err(NotPut::Home)], "late");
    same(&rt, &told_none, &(None, None), "told_none");
    same(
        &rt,
        &early,
        &[Ok(()), Err(NotPut::Home), Err(NotPut::Home)],
        "early",
    );
    Ok(())
}

#[test]
fn what_waits_is_given_when_nothing_else_is_there(rt: HostRuntime) -> Result<(), Fail> {
    let keeping = Keeping {
        cache: 8,
        waiting: 4,
    };
    let (depot, mut worker, _roll) = match filled(rt.alloc(), 8, eights(8), keeping) {
        Ok(made) => made,
        Err(refusal) => {
            same(&rt, &refusal, &Refusal::Memory, "refusal");
            return Ok(());
        }
    };
    let mut four = [0; 4];
    let got = worker.get(&depot, &mut four);
    let put = worker.put(&depot, &four);
    let mut others = [0; 4];
    let rest = worker.get(&depot, &mut others);
    let mut again = [0; 4];
    let waited = worker.get(&depot, &mut again);
    let none = worker.get_one(&depot);
    worker.lose();
    assert!(rt; got.is_ok() && rest.is_ok() && waited.is_ok());
    same(&rt, &put, &(4, Ok(())), "put");
    assert!(rt; others.iter().all(|element: &u32| !four.contains(element)));
    same(&rt, &again, &four, "again");
    same(&rt, &none, &Err(Cause::NoEntries), "none");
    Ok(())
}

#[test]
fn a_list_stops_at_the_first_that_is_refused(rt: HostRuntime) -> Result<(), Fail> {
    let keeping = Keeping {
        cache: 4,
        waiting: 0,
    };
    let (depot, mut first, mut second) = match pair(rt.alloc(), 64, eights(24), keeping) {
        Ok(made) => made,
        Err(refusal) => {
            same(&rt, &refusal, &Refusal::Memory, "refusal");
            return Ok(());
        }
    };
    let mut list = [0; 20];
    let got = first.get(&depot, &mut list);
    let mut mixed = [0; 4];
    mixed[0] = list[0];
    mixed[1] = list[1];
    mixed[2] = 64;
    mixed[3] = list[2];
    let stopped = second.put(&depot, &mixed);
    let last = second.put_one(&depot, mixed[3]);
    let rest = first.put(&depot, &list[3..]);
    let mut all = [0; 64];
    let too_many = {
        let mut more = [0; 65];
        first.get(&depot, &mut more)
    };
    let flushed = (first.flush(&depot), second.flush(&depot));
    let every = first.get(&depot, &mut all);
    let sum: u32 = all
        .iter()
        .fold(0, |sum: u32, element: &u32| sum.saturating_add(*element));
    first.lose();
    second.lose();
    assert!(rt; got.is_ok());
    same(&rt, &stopped, &(2, Err(NotPut::Stranger)), "stopped");
    assert!(rt; last.is_ok());
    same(&rt, &rest, &(17, Ok(())), "rest");
    same(&rt, &too_many, &Err(Cause::NoEntries), "too_many");
    same(&rt, &flushed, &(Ok(()), Ok(())), "flushed");
    assert!(rt; every.is_ok());
    same(&rt, &sum, &2016, "sum");
    Ok(())
}

#[test]
fn a_full_list_refuses_where_the_depot_does(rt: HostRuntime) -> Result<(), Fail> {
    let keeping = Keeping {
        cache: 0,
        waiting: 0,
    };
    // The elements fill four magazines, and each of two workers has two more.
    let size = Size {
        magazines: 6,
        rounds: 1,
        leaves_nothing: false,
    };
    let (depot, mut first, mut roll) = match make_guarded(rt.alloc(), 4, size, keeping, 100) {
        Ok(made) => made,
        Err(refusal) => {
            same(&rt, &refusal, &Refusal::Memory, "refusal");
            return Ok(());
        }
    };
    let four = [0, 1, 2, 3];
    let second = make_worker(rt.alloc(), &depot, &mut roll, keeping);
    let mut second = match second {
        Ok(second) => second,
        Err(refusal) => {
            first.lose();
            same(&rt, &refusal, &Refusal::Memory, "refusal");
            return Ok(());
        }
    };
    let third = make_worker(rt.alloc(), &depot, &mut roll, keeping);
    let third = match third {
        Ok(third) => third,
        Err(refusal) => {
            first.lose();
            second.lose();
            same(&rt, &refusal, &Refusal::Memory, "refusal");
            return Ok(());
        }
    };
    let put = second.put(&depot, &four);
    third.end(&depot);
    let last = second.put_one(&depot, four[3]);
    first.lose();
    second.lose();
    same(&rt, &put, &(3, Err(NotPut::Full(Cause::NoMagazine))), "put");
    same(&rt, &last, &Ok(()), "last");
    Ok(())
}
