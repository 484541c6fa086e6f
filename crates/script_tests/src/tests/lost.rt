//! What is lost with a worker at the end of a run, and with one whose share is missing in a book.

use super::settling::{ONCE, TWICE, book_with, closed_at_last, lose_one, play};
use super::threads::{GROUNDS, Hold, Watch};
use super::{DEFAULTS, assert_given, same};
use commons::closed::Closed;
use commons::limits::Limits;
use commons::refusal::Refusal;
use mbuf::acts::Act;
use script::{Grounds, OpenGate, lost_text, numbers_json, run_lost};
use script_text::parse;
use share_book::site_pool::SitePool;
use share_book::{Book, Unsettled, settle_without};
use std::alloc::Global;
use std::process::Abort;
use std::sync::Wait;
use std::test::Fail;
use std::thread::Threads;

/// A name, a script, the worker that is lost, how many lines are done, and what is printed, as text
/// and as JSON, or why it isn't said what is lost.
type Row = (
    &'static str,
    &'static str,
    u32,
    u32,
    Result<(&'static str, &'static str), Refusal>,
);

/// That a script is of two pools is told before that none of them has the worker.
const ROWS: &[Row] = &[
    (
        "a packet and a cache",
        "pool 8 cache 4 workers 2\n2: alloc a\n",
        2,
        1,
        Ok(("lost 5: 0 1 2 3 4\n", "[0,1,2,3,4]\n")),
    ),
    (
        "a worker who has nothing",
        "pool 8 cache 4 workers 2\n2: alloc a\n",
        1,
        1,
        Ok(("lost 0:\n", "[]\n")),
    ),
    (
        "an only worker",
        "pool 4 cache 2\nalloc a\nalloc b\nfree a\n",
        1,
        3,
        Ok(("lost 3: 0 1 2\n", "[0,1,2]\n")),
    ),
    (
        "the last of many",
        "pool 8 workers 64\n64: alloc a\n",
        64,
        1,
        Ok(("lost 1: 0\n", "[0]\n")),
    ),
    (
        "what lies on a desk is nobody's",
        "pool 4 workers 2 desks 1\n2: alloc a\n2: clone a b\n2: offer b 0\n2: free a\n2: alloc c\n",
        2,
        5,
        Ok(("lost 1: 2\n", "[2]\n")),
    ),
    (
        "the gate is called around the lines of a lost worker too",
        "pool 4 workers 2\nalloc a\n2: alloc b\n2: free b\n",
        2,
        3,
        Ok(("lost 0:\n", "[]\n")),
    ),
    (
        "a worker 0",
        "pool 8 cache 4 workers 2\n2: alloc a\n",
        0,
        0,
        Err(Refusal::StrangerShare),
    ),
    (
        "a worker too many",
        "pool 8 cache 4 workers 2\n2: alloc a\n",
        3,
        0,
        Err(Refusal::StrangerShare),
    ),
    (
        "the last number",
        "pool 8 cache 4 workers 2\n2: alloc a\n",
        u32::MAX,
        0,
        Err(Refusal::StrangerShare),
    ),
    (
        "a worker of two pools",
        "pool 8 second 2\nalloc a\ncloneto a b\n",
        1,
        0,
        Err(Refusal::Foreign),
    ),
    (
        "a stranger to two pools",
        "pool 8 second 2\nalloc a\ncloneto a b\n",
        2,
        0,
        Err(Refusal::Foreign),
    ),
];

/// What is lost prints this text, and this JSON.
fn assert_printed<R: Abort + AllocGlobal>(
    rt: &R,
    lost: &[u32],
    text: &str,
    json: &str,
    name: &str,
) -> Result<(), Fail> {
    let printed = String::from_utf8(lost_text(rt.alloc(), lost)?)?;
    same(rt, &printed.as_str(), &text, name);
    let printed = String::from_utf8(numbers_json(rt.alloc(), lost)?)?;
    same(rt, &printed.as_str(), &json, name);
    Ok(())
}

/// A run of a row does its lines, and prints what is lost or is refused.
fn assert_lost<R: Threads + Wait + Sync + Abort + AllocGlobal>(
    rt: &R,
    (name, script, lose, lines, wanted): &Row,
    grounds: Grounds,
) -> Result<(), Fail> {
    let script = parse(rt.alloc(), script.as_bytes())?;
    let gate = Watch::new(Hold::Nobody);
    let lost = run_lost(rt, rt.alloc(), &script, grounds, 1, *lose, &gate);
    same(rt, &gate.lines_done(), lines, name);
    match (lost, wanted) {
        (Ok(lost), Ok((text, json))) => assert_printed(rt, lost.as_slice(), text, json, name),
        (lost, wanted) => {
            same(rt, &lost.err(), &wanted.err(), name);
            Ok(())
        }
    }
}

#[test]
fn what_a_lost_worker_alone_has_is_lost(rt: HostRuntime) -> Result<(), Fail> {
    for grounds in GROUNDS {
        for row in ROWS {
            assert_lost(&rt, row, grounds)?;
        }
    }
    Ok(())
}

/// Tells what is lost of a closed pool with these workers by so many tries, each with what a
/// refusal of memory handed back.
fn told_at_last(
    alloc: Global,
    closed: Closed,
    book: Book,
    listed: &[u32],
    tries: u32,
) -> Result<Vec<u32>, Unsettled> {
    let (mut closed, mut book) = (closed, book);
    for _ in 0..tries {
        match settle_without(alloc, closed, book, listed) {
            Ok(elems) => return Ok(elems),
            Err((Unsettled::OutOfMemory, closed_back, book_back)) => {
                closed = closed_back;
                book = book_back;
            }
            Err((cause, _, book)) => {
                book.lose();
                return Err(cause);
            }
        }
    }
    book.lose();
    Err(Unsettled::OutOfMemory)
}

/// What is lost of a pool in which two workers made a packet each, by a book without the share of
/// worker 2, and with these workers listed.
fn lost_without_second(
    alloc: Global,
    pool: SitePool,
    listed: &[u32],
    tries: u32,
) -> Result<Vec<u32>, Unsettled> {
    let mut pool = pool;
    play(&mut pool, 1, &[Act::Alloc]);
    play(&mut pool, 2, &[Act::Alloc]);
    let Some((limits, closed, mut shares)) = closed_at_last(alloc, pool, tries) else {
        return Err(Unsettled::OutOfMemory);
    };
    lose_one(shares.pop());
    match book_with(alloc, &limits, shares, tries) {
        Some(book) => told_at_last(alloc, closed, book, listed, tries),
        None => Err(Unsettled::OutOfMemory),
    }
}

/// Both workers fill their caches: element 5 is lost with worker 2.
const WITH_CACHES: Limits = Limits {
    population: 8,
    cache: 4,
    workers: 2,
    ..DEFAULTS
};

/// The workers that are listed, what is lost then, and why that isn't told.
type WithoutRow = (&'static [u32], &'static [u32], Option<Unsettled>);

/// The row "settle without".
const WITHOUT: [WithoutRow; 4] = [
    (&[], &[], Some(Unsettled::MissingShare(2))),
    (&[1, 3, 0], &[], Some(Unsettled::MissingShare(2))),
    (&[2], &[5], None),
    (&[9, 2, 2], &[5], None),
];

#[test]
fn a_missing_share_is_passed_over_where_its_worker_is_listed(rt: HostRuntime) -> Result<(), Fail> {
    for (listed, wanted, refusal) in &WITHOUT {
        let pool = SitePool::make(rt.alloc(), &WITH_CACHES)?;
        let (lost, cause) = match lost_without_second(rt.alloc(), pool, listed, ONCE) {
            Ok(lost) => (lost, None),
            Err(cause) => (Vec::new(rt.alloc()), Some(cause)),
        };
        let given = (*listed, lost.as_slice(), cause);
        same(&rt, &given, &(*listed, *wanted, *refusal), "settle without");
    }
    Ok(())
}

/// Whichever request for memory is refused, no pool is made, or it is told what is lost: what a
/// refusal hands back tells it the next time.
#[test]
fn what_was_refused_memory_is_told_as_lost_the_next_time(rt: HostRuntime) {
    let limits = Limits {
        population: 2,
        workers: 2,
        ..DEFAULTS
    };
    match SitePool::make(rt.alloc(), &limits) {
        Ok(pool) => match lost_without_second(rt.alloc(), pool, &[2], TWICE) {
            Ok(lost) => same(&rt, &lost.as_slice(), &[1].as_slice(), "worker 2 is lost"),
            Err(cause) => same(&rt, &Some(cause), &None, "what was handed back tells"),
        },
        Err(cause) => same(&rt, &cause, &Refusal::OutOfMemory, "no pool is made"),
    }
}

/// Whichever request for memory is refused, what is lost is the same or `OutOfMemory`, and so are
/// its text and its JSON.
#[test]
fn refused_memory_changes_nothing_that_is_lost(rt: HostRuntime) {
    let text = "pool 4 cache 2\nalloc a\nalloc b\nfree a\n";
    for grounds in GROUNDS {
        let lost = match parse(rt.alloc(), text.as_bytes()) {
            Ok(script) => run_lost(&rt, rt.alloc(), &script, grounds, 1, 1, &OpenGate),
            Err(cause) => Err(cause),
        };
        match lost {
            Ok(lost) => {
                same(
                    &rt,
                    &lost.as_slice(),
                    &[0, 1, 2].as_slice(),
                    "an only worker",
                );
                let text = lost_text(rt.alloc(), lost.as_slice());
                assert_given(&rt, text, "lost 3: 0 1 2\n", "what is lost as text");
                let json = numbers_json(rt.alloc(), lost.as_slice());
                assert_given(&rt, json, "[0,1,2]\n", "what is lost as JSON");
            }
            Err(cause) => same(&rt, &cause, &Refusal::OutOfMemory, "an only worker"),
        }
    }
}
