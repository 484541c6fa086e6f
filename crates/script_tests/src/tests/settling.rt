//! How a pool is settled with the shares of its workers, and what is refused.

use super::{DEFAULTS, assert_given, same};
use commons::closed::Closed;
use commons::limits::Limits;
use commons::refusal::Refusal;
use mbuf::acts::Act;
use pool_statement::statement::Statement;
use script_rows::parts::{Field, Part, written};
use share_book::locked_site::LockedSite;
use share_book::site_pool::SitePool;
use share_book::{Book, Share, Unsettled, lose_all, settle};
use statement_text::pool_text;
use std::alloc::Global;
use std::process::Abort;
use std::sync::Wait;
use std::test::Fail;

/// The pool of four workers and two desks.
pub(super) const FOUR: Limits = Limits {
    population: 16,
    workers: 4,
    desks: 2,
    ..DEFAULTS
};

/// What a worker does who wants desk 0.
const FOR_DESK_0: &[Act] = &[
    Act::Alloc,
    Act::ClonePacket(0),
    Act::Free(0),
    Act::Offer(1, 0),
    Act::Free(1),
];

/// What a worker does who wants desk 1.
const FOR_DESK_1: &[Act] = &[
    Act::Alloc,
    Act::ClonePacket(0),
    Act::Free(0),
    Act::Offer(1, 1),
    Act::Free(1),
];

/// What the pool's four workers do, of whom two each want one desk, worker by worker, and what a
/// fifth does, who is a stranger there.
const ACTS: [(u32, &[Act]); 5] = [
    (1, FOR_DESK_0),
    (2, FOR_DESK_0),
    (3, FOR_DESK_1),
    (4, FOR_DESK_1),
    (5, FOR_DESK_0),
];

/// How often what takes memory is tried where memory is ample.
pub(super) const ONCE: u32 = 1;

/// How often it is tried where one request for memory may be refused.
pub(super) const TWICE: u32 = 2;

/// What is there of a closed pool.
type Parts = (Limits, Closed, Vec<Share>);

/// How a pool without a worker's share settled: why it didn't, and its statement with that share.
type Late = (Option<Unsettled>, Result<Statement, Unsettled>);

/// Lets a worker do all this.
pub(super) fn play(pool: &mut SitePool, worker: u32, acts: &[Act]) {
    for act in acts {
        let _ = pool.perform(worker, *act);
    }
}

/// Lets the four workers and the stranger act.
pub(super) fn play_four(pool: &mut SitePool) {
    for (worker, acts) in ACTS {
        play(pool, worker, acts);
    }
}

/// Lets them act under a lock. Each reply is that of a pool without one.
fn play_four_locked<R: Wait + Abort>(rt: &R, site: &LockedSite, pool: &mut SitePool) {
    for (worker, acts) in ACTS {
        for act in acts {
            let given = (worker, *act, site.act(rt, worker, *act));
            let wanted = (worker, *act, pool.perform(worker, *act));
            same(rt, &given, &wanted, "a reply under the lock");
        }
    }
}

/// Closes a pool by so many tries, each with what the refusal before handed back.
pub(super) fn closed_at_last(alloc: Global, pool: SitePool, tries: u32) -> Option<Parts> {
    let mut pool = pool;
    for _ in 0..tries {
        match pool.close(alloc) {
            Ok(parts) => return Some(parts),
            Err((_, back)) => pool = back,
        }
    }
    pool.lose();
    None
}

/// Puts a share in a book, where there is one and its place is free.
fn deposit_one(book: &mut Book, share: Option<Share>) {
    if let Some(share) = share {
        if let Err((_, share)) = book.deposit(share) {
            share.lose();
        }
    }
}

/// Ends a share, where there is one.
pub(super) fn lose_one(share: Option<Share>) {
    if let Some(share) = share {
        share.lose();
    }
}

/// Puts all shares in a book.
fn deposit_all(book: &mut Book, mut shares: Vec<Share>) {
    while let Some(share) = shares.pop() {
        deposit_one(book, Some(share));
    }
    shares.destroy_empty();
}

/// A book with these shares, which is made by so many tries.
pub(super) fn book_with(
    alloc: Global,
    limits: &Limits,
    shares: Vec<Share>,
    tries: u32,
) -> Option<Book> {
    for _ in 0..tries {
        if let Ok(mut book) = Book::make(alloc, limits) {
            deposit_all(&mut book, shares);
            return Some(book);
        }
    }
    lose_all(shares);
    None
}

/// Settles a closed pool by so many tries, each with what a refusal of memory handed back.
pub(super) fn settled_at_last(
    alloc: Global,
    closed: Closed,
    book: Book,
    tries: u32,
) -> Result<Statement, Unsettled> {
    let (mut closed, mut book) = (closed, book);
    for _ in 0..tries {
        match settle(alloc, closed, book) {
            Ok(statement) => return Ok(statement),
            Err((Unsettled::OutOfMemory, closed_back, book_back)) => {
                closed = closed_back;
                book = book_back;
            }
            Err((cause, _, book)) => {
                book.lose();
                return Err(cause);
            }
        }
    }
    book.lose();
    Err(Unsettled::OutOfMemory)
}

/// Settles a closed pool without this share, and then with it.
fn settled_late(alloc: Global, closed: Closed, book: Book, late: Option<Share>) -> Late {
    match settle(alloc, closed, book) {
        Ok(statement) => {
            lose_one(late);
            (None, Ok(statement))
        }
        Err((cause, closed, mut book)) => {
            deposit_one(&mut book, late);
            (Some(cause), settled_at_last(alloc, closed, book, TWICE))
        }
    }
}

/// Settles what a closed pool left without the share of its last worker but one, and then with it.
fn settled_parts(alloc: Global, parts: Option<Parts>) -> Late {
    let Some((limits, closed, mut shares)) = parts else {
        return (None, Err(Unsettled::OutOfMemory));
    };
    let last = shares.pop();
    let late = shares.pop();
    match book_with(alloc, &limits, shares, TWICE) {
        Some(mut book) => {
            deposit_one(&mut book, last);
            settled_late(alloc, closed, book, late)
        }
        None => {
            lose_one(last);
            lose_one(late);
            (None, Err(Unsettled::OutOfMemory))
        }
    }
}

/// Workers 1 and 3 were the first at their desks, and what workers 2 and 4 made went back: of each
/// clone its base first.
const FOUR_TEXT: &str = "population 16\navailable 12\nin use 4\n\
    common 12: 5 4 6 7 8 9 10 11 12 13 14 15\ncache 1 0:\ncache 2 0:\ncache 3 0:\ncache 4 0:\n\
    desk 0 segs 1 len 0: 1>0@128+0/2048\ndesk 1 segs 1 len 0: 2>3@128+0/2048\n\
    held 0 count 1: d0\nheld 1 count 1: d0\nheld 2 count 1: d1\nheld 3 count 1: d1\n";

/// The missing share was named, and what was handed back settled.
fn assert_late<R: Abort + AllocGlobal>(rt: &R, late: Late) {
    let (cause, end) = late;
    same(rt, &cause, &Some(Unsettled::MissingShare(3)), "the cause");
    match end {
        Ok(statement) => {
            let text = pool_text(rt.alloc(), &statement);
            assert_given(rt, text, FOUR_TEXT, "the statement of the four workers");
        }
        Err(cause) => same(rt, &Some(cause), &None, "what was handed back settles"),
    }
}

/// Whichever request for memory is refused, a missing share is named, and what was handed back
/// settles.
#[test]
fn a_missing_share_is_named_and_what_is_handed_back_settles(rt: HostRuntime) {
    match SitePool::make(rt.alloc(), &FOUR) {
        Ok(mut pool) => {
            play_four(&mut pool);
            let parts = closed_at_last(rt.alloc(), pool, TWICE);
            assert_late(&rt, settled_parts(rt.alloc(), parts));
        }
        Err(refusal) => same(&rt, &refusal, &Refusal::OutOfMemory, "the refusal"),
    }
}

/// Lets the four workers and the stranger act under a lock, and closes the pool.
fn closed_four_locked<R: Wait + Abort>(rt: &R, alloc: Global) -> Result<Option<Parts>, Refusal> {
    let site = LockedSite::make(alloc, &FOUR)?;
    match SitePool::make(alloc, &FOUR) {
        Ok(mut pool) => {
            play_four_locked(rt, &site, &mut pool);
            pool.lose();
        }
        Err(cause) => {
            site.lose();
            return Err(cause);
        }
    }
    match site.close(alloc) {
        Ok(parts) => Ok(Some(parts)),
        Err((_, pool)) => Ok(closed_at_last(alloc, pool, ONCE)),
    }
}

/// A missing share of a pool under a lock is named too, and what was handed back settles. Each act
/// is replied to as without a lock.
#[test]
fn a_missing_share_of_a_locked_pool_is_named_and_what_is_handed_back_settles(rt: HostRuntime) {
    match closed_four_locked(&rt, rt.alloc()) {
        Ok(parts) => assert_late(&rt, settled_parts(rt.alloc(), parts)),
        Err(refusal) => same(&rt, &refusal, &Refusal::OutOfMemory, "the refusal"),
    }
}

/// A pool of as many workers and desks as there can be.
const MOST: Limits = Limits {
    population: 130,
    workers: 64,
    desks: 64,
    ..DEFAULTS
};

/// Each worker has a packet, and the packet's clone is on the worker's desk.
const MOST_TEXT: &[Part] = &[
    Part::Text("population 130\navailable 2\nin use 128\ncommon 2: 128 129\n"),
    Part::Each(64, &[Field("cache ", 1, 1)], " 0:\n"),
    Part::Each(
        64,
        &[Field("packet ", 1, 1), Field(" 0 segs 1 len 0: ", 0, 2)],
        "@128+0/2048\n",
    ),
    Part::Each(
        64,
        &[
            Field("desk ", 0, 1),
            Field(" segs 1 len 0: ", 1, 2),
            Field(">", 0, 2),
        ],
        "@128+0/2048\n",
    ),
    Part::Each(
        64,
        &[
            Field("held ", 0, 2),
            Field(" count 2: ", 1, 1),
            Field(" d", 0, 1),
            Field("\nheld ", 1, 2),
            Field(" count 1: d", 0, 1),
        ],
        "\n",
    ),
];

/// Lets each worker make a packet and leave its clone on the desk of the worker's own.
fn play_most(pool: &mut SitePool) {
    for worker in 1..65 {
        let acts = [Act::Alloc, Act::ClonePacket(0), Act::Offer(1, worker - 1)];
        play(pool, worker, &acts);
    }
}

/// The statement of a pool that is closed and settled with the shares of all its workers, where
/// nothing is refused.
fn settled_at_once(alloc: Global, pool: SitePool) -> Result<Statement, Unsettled> {
    let Some((limits, closed, shares)) = closed_at_last(alloc, pool, ONCE) else {
        return Err(Unsettled::OutOfMemory);
    };
    match book_with(alloc, &limits, shares, ONCE) {
        Some(book) => settled_at_last(alloc, closed, book, ONCE),
        None => Err(Unsettled::OutOfMemory),
    }
}

#[test]
fn sixty_four_workers_and_desks_settle(rt: HostRuntime) -> Result<(), Fail> {
    let text = written(rt.alloc(), MOST_TEXT)?;
    let mut pool = SitePool::make(rt.alloc(), &MOST)?;
    play_most(&mut pool);
    let statement = settled_at_once(rt.alloc(), pool)?;
    let printed = String::from_utf8(pool_text(rt.alloc(), &statement)?)?;
    let what = "the statement of the most workers";
    same(&rt, &printed.as_str(), &text.as_str(), what);
    Ok(())
}
