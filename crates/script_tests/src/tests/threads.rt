//! Workers in threads of their own, on words and under a lock, and a book that threads put shares
//! in.

use super::settling::{FOUR, ONCE, closed_at_last, lose_one, play_four, settled_at_last};
use super::{same, text_of_end};
use commons::refusal::Refusal;
use crossbeam_utils::Backoff;
use pool_statement::settled::Settled;
use pool_statement::statement::Statement;
use script::{Gate, Grounds, OpenGate, run_threads};
use script_rows::parts::{Field, Part, written};
use script_text::commands::Script;
use script_text::parse;
use share_book::site_pool::SitePool;
use share_book::{Book, Share, deposit, lose_all};
use std::alloc::{AllocError, Global};
use std::process::Abort;
use std::sync::atomic::{AtomicBool, AtomicU32, Ordering};
use std::sync::{Mutex, Wait};
use std::test::Fail;
use std::thread;
use std::thread::Threads;

/// What the threads' pool may rest on.
pub const GROUNDS: [Grounds; 2] = [Grounds::Words, Grounds::Locked];

/// The most tries of a line, and the most looks of a gate that holds a worker.
pub const TURNS: u32 = 1_000_000;

/// Whom a gate holds ahead of the first line.
#[derive(Clone, Copy)]
pub enum Hold {
    /// Nobody.
    Nobody,
    /// Each of two workers, until the other has come there too.
    Both,
    /// Worker 2, until worker 1's line of this number is done.
    Second(u32),
}

/// What a run leaves.
enum End {
    /// The statement has this text.
    Text(&'static str),
    /// Each element is listed once, so many are available and in use, so many packets are on
    /// desks, and these are in these slots of these workers.
    Counts(u64, u64, usize, &'static [(u32, u32)]),
    /// Each element is listed once.
    EachOnce,
}

/// A script that is run in threads.
struct Run {
    name: &'static str,
    script: &'static [Part],
    hold: Hold,
    /// The most tries of a line.
    turns: &'static [u32],
    /// How often it is run with each of them, on each ground.
    times: u32,
    end: End,
}

/// The number of each of 64 workers.
const WORKER: Field = Field("", 1, 1);

/// Each worker has a desk, and takes from another's. What succeeds depends on who comes first: 100
/// elements don't last for three packets each.
const CROWD: &[Part] = &[
    Part::Text("pool 100 cache 2 workers 64 desks 64\n"),
    Part::Each(64, &[WORKER], ": alloc a\n"),
    Part::Each(64, &[WORKER], ": clone a b\n"),
    Part::Each(64, &[WORKER, Field(": offer b ", 0, 1)], "\n"),
    Part::Each(64, &[WORKER, Field(": take ", 63, -1)], " c\n"),
    Part::Each(64, &[WORKER], ": free a\n"),
    Part::Each(64, &[WORKER, Field(": offer c ", 0, 1)], "\n"),
    Part::Each(64, &[WORKER], ": bulk d e\n"),
    Part::Each(64, &[WORKER], ": free e\n"),
    Part::Each(64, &[WORKER], ": flush\n"),
];

/// Each worker puts a packet on a desk of its own, takes that of another worker, and frees it.
const CIRCLE: &[Part] = &[
    Part::Text("pool 64 workers 64 desks 64\n"),
    Part::Each(64, &[WORKER], ": alloc a\n"),
    Part::Each(64, &[WORKER, Field(": offer a ", 0, 1)], "\n"),
    Part::Each(64, &[WORKER, Field(": take ", 63, -1)], " b\n"),
    Part::Each(64, &[WORKER], ": free b\n"),
];

/// Two workers want desk 0, and two want desk 1. Whoever comes first at a desk has filled it, and
/// all else is free.
const FOUR_WORKERS: Run = Run {
    name: "four workers",
    script: &[
        Part::Text("pool 16 workers 4 desks 2\n"),
        Part::Text("alloc a\nclone a b\nfree a\noffer b 0\nfree b\n"),
        Part::Text("2: alloc a\n2: clone a b\n2: free a\n2: offer b 0\n2: free b\n"),
        Part::Text("3: alloc a\n3: clone a b\n3: free a\n3: offer b 1\n3: free b\n"),
        Part::Text("4: alloc a\n4: clone a b\n4: free a\n4: offer b 1\n4: free b\n"),
    ],
    hold: Hold::Nobody,
    turns: &[1],
    times: 200,
    end: End::Counts(12, 4, 2, &[]),
};

const CROWDED: Run = Run {
    name: "a crowd of workers leaves each element once",
    script: CROWD,
    hold: Hold::Nobody,
    turns: &[1],
    times: 20,
    end: End::EachOnce,
};

const ROWS: &[Run] = &[
    // Two workers meet at a gate, and each makes a packet of its own.
    Run {
        name: "rendezvous",
        script: &[Part::Text("pool 2 workers 2\nalloc a\n2: alloc a\n")],
        hold: Hold::Both,
        turns: &[1, TURNS],
        times: 1,
        end: End::Counts(0, 2, 0, &[(1, 0), (2, 0)]),
    },
    // A packet goes from one worker to another, who frees it: it is on the desk before its taker's
    // first line.
    Run {
        name: "handed over in time",
        script: &[Part::Text(
            "pool 4 workers 2 desks 1\nalloc a\noffer a 0\n2: take 0 x\n2: free x\n",
        )],
        hold: Hold::Second(2),
        turns: &[1, TURNS],
        times: 1,
        end: End::Text(
            "population 4\navailable 4\nin use 0\ncommon 4: 0 1 2 3\ncache 1 0:\ncache 2 0:\n",
        ),
    },
    // A packet of some length goes from one worker to another.
    Run {
        name: "lengths in transit",
        script: &[Part::Text(
            "pool 4 workers 2 desks 1\nalloc a\nappend a 7\noffer a 0\n2: take 0 x\n",
        )],
        hold: Hold::Second(3),
        turns: &[1, TURNS],
        times: 1,
        end: End::Text(
            "population 4\navailable 3\nin use 1\ncommon 3: 1 2 3\n\
            cache 1 0:\ncache 2 0:\npacket 2 0 segs 1 len 7: 0@128+7/2048\nheld 0 count 1: 2\n",
        ),
    },
    // A line of worker 1 is refused at each of its tries, since what it waits for is worker 2's to
    // do: a refusal at the last turn stands.
    Run {
        name: "a take ends before the offer begins",
        script: &[Part::Text("pool 2 workers 2 desks 1\ntake 0 x\n2: alloc a\n2: offer a 0\n")],
        hold: Hold::Second(1),
        turns: &[1, 2, 7],
        times: 1,
        end: End::Text(
            "population 2\navailable 1\nin use 1\ncommon 1: 1\ncache 1 0:\ncache 2 0:\n\
            desk 0 segs 1 len 0: 0@128+0/2048\nheld 0 count 1: d0\n",
        ),
    },
    Run {
        name: "a second offer ends before the take of the first begins",
        script: &[
            Part::Text("pool 2 workers 2 desks 1\nalloc a\noffer a 0\nalloc b\noffer b 0\n"),
            Part::Text("2: take 0 x\n"),
        ],
        hold: Hold::Second(4),
        turns: &[1, 2, 7],
        times: 1,
        end: End::Text(
            "population 2\navailable 0\nin use 2\ncommon 0:\ncache 1 0:\ncache 2 0:\n\
            packet 1 0 segs 1 len 0: 1@128+0/2048\npacket 2 0 segs 1 len 0: 0@128+0/2048\n\
            held 0 count 1: 2\nheld 1 count 1: 1\n",
        ),
    },
    // Each of 64 workers waits for a packet, and each gets one.
    Run {
        name: "a take is tried until the packet is there",
        script: CIRCLE,
        hold: Hold::Nobody,
        turns: &[TURNS],
        times: 1,
        end: End::Counts(64, 0, 0, &[]),
    },
];

/// Waits until a count is as high as this. False where it isn't for too long.
fn wait_for(count: &AtomicU32, high: u32) -> bool {
    let backoff = Backoff::new();
    for _ in 0..TURNS {
        if count.load(Ordering::SeqCst) >= high {
            return true;
        }
        backoff.snooze();
    }
    false
}

/// A gate that counts the lines, and holds workers ahead of their first.
#[derive(Drop)]
pub struct Watch {
    hold: Hold,
    /// How many workers have come to their first lines.
    come: AtomicU32,
    /// How many lines are done.
    done: AtomicU32,
    /// The number of the last line of worker 1 that is done.
    first: AtomicU32,
    failed: AtomicBool,
}

impl Watch {
    pub fn new(hold: Hold) -> Watch {
        Watch {
            hold,
            come: AtomicU32::new(0),
            done: AtomicU32::new(0),
            first: AtomicU32::new(0),
            failed: AtomicBool::new(false),
        }
    }

    /// How many lines are done.
    pub fn lines_done(&self) -> u32 {
        self.done.load(Ordering::SeqCst)
    }
}

impl Gate for Watch {
    fn before(&self, worker: u32, nth: u32) {
        if nth == 1 {
            self.come.fetch_add(1, Ordering::SeqCst);
            let held = match self.hold {
                Hold::Both => wait_for(&self.come, 2),
                Hold::Second(line) if worker == 2 => wait_for(&self.first, line),
                Hold::Second(_) | Hold::Nobody => true,
            };
            if !held {
                self.failed.store(true, Ordering::SeqCst);
            }
        }
    }

    fn after(&self, worker: u32, nth: u32) {
        if worker == 1 {
            self.first.store(nth, Ordering::SeqCst);
        }
        self.done.fetch_add(1, Ordering::SeqCst);
    }
}

/// The elements that a statement lists, ascending: those in the common list, in caches, and held.
fn listed(alloc: Global, statement: &Statement) -> Result<Vec<u32>, AllocError> {
    let mut elems = statement.common.as_slice().to_vec(alloc)?;
    for cache in statement.caches.as_slice() {
        elems.extend_from_slice(cache.as_slice())?;
    }
    for held in statement.held.as_slice() {
        elems.push(held.elem)?;
    }
    elems.sort_unstable();
    Ok(elems)
}

/// A statement lists each element of its pool once, and no other.
fn assert_each_once<R: Abort + AllocGlobal>(
    rt: &R,
    statement: &Statement,
    population: u64,
    name: &str,
) -> Result<(), Fail> {
    let elems = listed(rt.alloc(), statement)?;
    let given = (statement.population, elems.len() as u64);
    same(rt, &given, &(population, population), name);
    for (at, elem) in elems.iter().enumerate() {
        same(rt, &(*elem as usize), &at, name);
    }
    Ok(())
}

/// So many elements are available and in use, so many packets are on desks, and these are in these
/// slots of these workers.
fn assert_counts<R: Abort + AllocGlobal>(
    rt: &R,
    statement: &Statement,
    wanted: (u64, u64, usize),
    places: &[(u32, u32)],
    name: &str,
) -> Result<(), Fail> {
    let (available, in_use) = (statement.available, statement.in_use);
    same(
        rt,
        &(available, in_use, statement.desks.len()),
        &wanted,
        name,
    );
    let mut found = Vec::new(rt.alloc());
    for packet in statement.packets.as_slice() {
        found.push((packet.worker, packet.slot))?;
    }
    same(rt, &found.as_slice(), &places, name);
    Ok(())
}

/// What a run of a script of this population leaves is this.
fn assert_end<R: Abort + AllocGlobal>(
    rt: &R,
    settled: &Settled,
    population: u64,
    row: &Run,
) -> Result<(), Fail> {
    assert_each_once(rt, &settled.first, population, row.name)?;
    match row.end {
        End::Text(text) => {
            let printed = text_of_end(rt.alloc(), settled)?;
            same(rt, &printed.as_str(), &text, row.name);
            Ok(())
        }
        End::Counts(available, in_use, desks, places) => {
            let wanted = (available, in_use, desks);
            assert_counts(rt, &settled.first, wanted, places, row.name)
        }
        End::EachOnce => Ok(()),
    }
}

/// Runs a row's script once.
fn run_once<R: Threads + Wait + Sync + Abort + AllocGlobal>(
    rt: &R,
    row: &Run,
    script: &Script,
    grounds: Grounds,
    turns: u32,
) -> Result<(), Fail> {
    let gate = Watch::new(row.hold);
    let settled = match row.hold {
        Hold::Nobody => run_threads(rt, rt.alloc(), script, grounds, turns.max(1), &OpenGate)?,
        _ => run_threads(rt, rt.alloc(), script, grounds, turns.max(1), &gate)?,
    };
    let failed = gate.failed.load(Ordering::SeqCst);
    same(
        rt,
        &(grounds, turns, failed),
        &(grounds, turns, false),
        row.name,
    );
    assert_end(rt, &settled, script.pools.first.population, row)
}

/// Runs a row's script on this ground as often as the row says.
fn run_row<R: Threads + Wait + Sync + Abort + AllocGlobal>(
    rt: &R,
    row: &Run,
    grounds: Grounds,
) -> Result<(), Fail> {
    let text = written(rt.alloc(), row.script)?;
    let script = parse(rt.alloc(), text.as_bytes())?;
    for turns in row.turns {
        for _ in 0..row.times {
            run_once(rt, row, &script, grounds, *turns)?;
        }
    }
    Ok(())
}

#[test]
fn each_run_in_threads_ends_as_its_row_says(rt: HostRuntime) -> Result<(), Fail> {
    for grounds in GROUNDS {
        for row in ROWS {
            run_row(&rt, row, grounds)?;
        }
    }
    Ok(())
}

#[test]
fn of_four_workers_two_fill_the_desks(rt: HostRuntime) -> Result<(), Fail> {
    for grounds in GROUNDS {
        run_row(&rt, &FOUR_WORKERS, grounds)?;
    }
    Ok(())
}

#[test]
fn a_crowd_of_workers_on_words_leaves_each_element_once(rt: HostRuntime) -> Result<(), Fail> {
    run_row(&rt, &CROWDED, Grounds::Words)
}

#[test]
fn a_crowd_of_workers_under_a_lock_leaves_each_element_once(rt: HostRuntime) -> Result<(), Fail> {
    run_row(&rt, &CROWDED, Grounds::Locked)
}

/// Puts the share of a slot in a book, and ends it where it is refused.
fn deposit_slot<R: Wait>(rt: &R, book: &Mutex<Book>, slot: &mut Option<Share>) {
    if let Some(share) = slot.take() {
        if let Err((_, share)) = deposit(rt, book, share) {
            share.lose();
        }
    }
}

/// A thread for each share puts it in a book. What no thread took is ended.
fn deposit_each<R: Threads + Wait + Sync>(rt: &R, book: &Mutex<Book>, mut shares: Vec<Share>) {
    let mut slots = [shares.pop(), shares.pop(), shares.pop(), shares.pop()];
    lose_all(shares);
    thread::scope(thread::scope_env(), rt, |scope| {
        for slot in slots.iter_mut() {
            let _ = scope.spawn(move || deposit_slot(rt, book, slot));
        }
    });
    let [fourth, third, second, first] = slots;
    lose_one(first);
    lose_one(second);
    lose_one(third);
    lose_one(fourth);
}

/// Plays the lines in one thread, closes the pool, and settles it with shares of four threads.
fn settle_four<R: Threads + Wait + Sync + AllocGlobal>(rt: &R) -> Result<Statement, Fail> {
    let mut pool = SitePool::make(rt.alloc(), &FOUR)?;
    play_four(&mut pool);
    let Some((limits, closed, shares)) = closed_at_last(rt.alloc(), pool, ONCE) else {
        return Err(Fail::from(Refusal::OutOfMemory));
    };
    match Book::make(rt.alloc(), &limits) {
        Ok(book) => {
            let book = Mutex::new(book);
            deposit_each(rt, &book, shares);
            Ok(settled_at_last(rt.alloc(), closed, book.into_inner(), ONCE)?)
        }
        Err(cause) => {
            lose_all(shares);
            Err(Fail::from(cause))
        }
    }
}

/// The row "four workers", worker by worker, with its shares deposited by four threads.
#[test]
fn shares_of_four_threads_settle(rt: HostRuntime) -> Result<(), Fail> {
    let name = "the shares of four threads";
    for _ in 0..100 {
        let statement = settle_four(&rt)?;
        assert_each_once(&rt, &statement, 16, name)?;
        assert_counts(&rt, &statement, (12, 4, 2), &[], name)?;
    }
    Ok(())
}
