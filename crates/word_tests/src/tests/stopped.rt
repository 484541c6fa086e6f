//! Four workers in threads, one of whom is stopped by its gate in mid-script: the words are settled
//! without it.

ghost use Rattle.std.specs.Prelude.{IfOk};
ghost use Rattle.word_tests.specs.Idle.{IsIdle};
ghost use Rattle.word_tests.specs.Ready.{IsReady, IsUnused};

use super::places::{Counts, FREE, none_of, note, note_segs};
use super::players::{FreeSeat, Player, Retired};
use super::playing::play_own;
use super::same;
use super::settling::Ending;
use book::book::Book;
use book::losing::settle_without;
use commons::closed::Closed;
use commons::refusal::Refusal;
use ground::pool::Ground;
use mbuf::packets::{Packets, SLOTS};
use script::names::Names;
use script_text::commands::{Line, Script};
use script_text::parse;
use std::alloc::{AllocError, Global};
use std::process::Abort;
use std::test::Fail;
use std::thread;
use std::thread::Threads;

/// How often each worker plays the script, but for the one who is stopped in the midst of that.
const ROUNDS: u32 = 2_000;

/// What each worker plays in a round: it makes two packets, offers a clone of each, takes what
/// lies on the desks, and frees all that it has. A line whose packet was offered, or wasn't made,
/// is passed over.
const SCRIPT: &str = "pool 256 workers 4 cache 8 desks 2\n\
    alloc a\nclone a b\noffer b 0\nalloc c\nclone c d\noffer d 1\ntake 0 e\ntake 1 f\n\
    free a\nfree b\nfree c\nfree d\nfree e\nfree f\n";

/// The worker in front of the script's lines, which all workers play.
const IN_FRONT: u32 = 1;

/// Where a worker is stopped: after so many rounds, and so many lines of the next.
type Gate = (u32, usize);

/// The gate of a worker who plays all rounds. It holds packets then.
const LAST: Gate = (ROUNDS, 5);

/// Plays rounds until the gate stops the worker.
fn play_rounds(
    alloc: Global,
    ground: &Ground,
    lines: &[Line],
    player: &mut Player,
    gate: Gate,
) -> Result<(), AllocError>
    requires ready { IsReady ground.now player.old.c.seat player.old.packets }
    ensures ready { IsReady ground.now player.new.c.seat player.new.packets }
{
    let mut names = Names::new(alloc);
    let (rounds, last) = gate;
    for _ in 0..rounds {
        play_own(ground, &mut names, lines, player, IN_FRONT)?;
    }
    let lines = lines.get(..last).unwrap_or(lines);
    play_own(ground, &mut names, lines, player, IN_FRONT)
}

/// All that a worker of this number does with its seat. What it has then is left as it is.
fn work(
    alloc: Global,
    ground: &Ground,
    lines: &[Line],
    free: FreeSeat,
    number: u32,
    gate: Gate,
) -> Result<Retired, Refusal>
    requires { IsUnused ground.now free.seat }
    ensures { IfOk result (λ retired. IsIdle ground.now retired.seat) }
{
    let mut player = Player::make(alloc, ground, free, number)?;
    match play_rounds(alloc, ground, lines, &mut player, gate) {
        Ok(()) => Ok(player.retire()),
        Err(_) => Err(Refusal::OutOfMemory),
    }
}

/// What two workers have, where memory wasn't refused.
type Both = (Result<Retired, Refusal>, Result<Retired, Refusal>);

/// Two workers with these numbers, each in a thread of its own. The second has a gate of its own.
fn two_work<R: Threads + Sync>(
    rt: &R,
    alloc: Global,
    ground: &Ground,
    lines: &[Line],
    seats: (FreeSeat, FreeSeat),
    numbers: (u32, u32),
    gate: Gate,
) -> Both
    requires first { IsUnused ground.now seats.0.seat }
    requires second { IsUnused ground.now seats.1.seat }
    ensures first { IfOk result.0 (λ retired. IsIdle ground.now retired.seat) }
    ensures second { IfOk result.1 (λ retired. IsIdle ground.now retired.seat) }
{
    let (first, second) = seats;
    let (number, other) = numbers;
    thread::join(
        rt,
        move || work(alloc, ground, lines, first, number, LAST),
        move || work(alloc, ground, lines, second, other, gate),
    )
}

/// Four workers, each in a thread of its own, the last of whom has this number and is stopped by
/// this gate.
fn four_work<R: Threads + Sync>(
    rt: &R,
    alloc: Global,
    ground: &Ground,
    lines: &[Line],
    seats: (FreeSeat, FreeSeat),
    more: (FreeSeat, FreeSeat),
    number: u32,
    gate: Gate,
) -> (Both, Both)
    requires first { IsUnused ground.now seats.0.seat }
    requires second { IsUnused ground.now seats.1.seat }
    requires third { IsUnused ground.now more.0.seat }
    requires fourth { IsUnused ground.now more.1.seat }
    ensures first { IfOk result.0.0 (λ retired. IsIdle ground.now retired.seat) }
    ensures second { IfOk result.0.1 (λ retired. IsIdle ground.now retired.seat) }
    ensures third { IfOk result.1.0 (λ retired. IsIdle ground.now retired.seat) }
{
    thread::join(
        rt,
        move || -> Both
            requires first { IsUnused ground.now seats.0.seat }
            requires second { IsUnused ground.now seats.1.seat }
        {
            let numbers = (after(number, 1), after(number, 2));
            two_work(rt, alloc, ground, lines, seats, numbers, LAST)
        },
        move || -> Both
            requires third { IsUnused ground.now more.0.seat }
            requires fourth { IsUnused ground.now more.1.seat }
        {
            let numbers = (after(number, 3), number);
            two_work(rt, alloc, ground, lines, more, numbers, gate)
        },
    )
}

/// Counts what a worker has in its cache and in its packets.
fn note_share(table: &mut [Counts], packets: &Packets) {
    for element in packets.cache() {
        note(table, *element, FREE);
    }
    for slot in 0..SLOTS as u32 {
        if let Some(packet) = packets.place(slot) {
            note_segs(table, packet.segs());
        }
    }
}

/// Counts what is in the common list, from its top on, and in the packets on desks.
fn note_closed(table: &mut [Counts], closed: &Closed) {
    let links = closed.links.as_slice();
    let mut word = closed.top;
    for _ in links {
        if word != 0 {
            note(table, word - 1, FREE);
            word = links.get(word as usize - 1).copied().unwrap_or(0);
        }
    }
    for desk in closed.desks.as_slice() {
        if let Some(packet) = desk {
            note_segs(table, packet.segs());
        }
    }
}

/// What was told of a pool that lost a worker, and what the test has counted: of the closed pool
/// and the present workers, and of the stopped one.
type Told = (Vec<u32>, Vec<Counts>, Vec<Counts>);

/// What is lost of a closed pool without this worker.
fn lost_of(alloc: Global, closed: Closed, book: Book, worker: u32) -> Result<Vec<u32>, Fail> {
    match settle_without(alloc, closed, book, &[worker]) {
        Ok(elements) => Ok(elements),
        Err((cause, _, book)) => {
            book.lose();
            Err(Fail::from(cause))
        }
    }
}

/// Ends a pool without the fourth of these workers, whose number is this: its seat and its share
/// are lost.
fn ended(
    alloc: Global,
    ground: Ground,
    workers: ((Retired, Retired), (Retired, Retired)),
    number: u32,
) -> Result<Told, Fail>
    requires first { IsIdle ground workers.0.0.seat }
    requires second { IsIdle ground workers.0.1.seat }
    requires third { IsIdle ground workers.1.0.seat }
{
    let ((first, second), (third, fourth)) = workers;
    let limits = ground.limits();
    let mut stopped = none_of(alloc, limits.population)?;
    note_share(&mut stopped, &fourth.packets);
    let mut present = none_of(alloc, limits.population)?;
    note_share(&mut present, &first.packets);
    note_share(&mut present, &second.packets);
    note_share(&mut present, &third.packets);
    let mut ending = Ending::begin(alloc, &limits, first)?;
    ending.add(&ground, second);
    ending.add(&ground, third);
    let (closed, book) = ending.close(ground)?;
    note_closed(&mut present, &closed);
    Ok((lost_of(alloc, closed, book, number)?, present, stopped))
}

/// The number of the worker who comes so many after another, of four.
fn after(number: u32, by: u32) -> u32 {
    number.wrapping_add(by).wrapping_sub(1) % 4 + 1
}

/// A pool whose workers have played the script, and which has lost the one of this number.
fn told_of<R: Threads + Sync>(
    rt: &R,
    alloc: Global,
    script: &Script,
    number: u32,
    gate: Gate,
) -> Result<Told, Fail> {
    if script.pools.first.workers != 4 {
        return Err(Fail::from(Refusal::BadPool));
    }
    let lines = script.lines.as_slice();
    let (ground, seat) = Ground::make(alloc, &script.pools.first)?;
    let mut fourth = FreeSeat { seat };
    let first = FreeSeat {
        seat: ground.split(&mut fourth.seat),
    };
    let second = FreeSeat {
        seat: ground.split(&mut fourth.seat),
    };
    let third = FreeSeat {
        seat: ground.split(&mut fourth.seat),
    };
    let ((first, second), (third, fourth)) = four_work(
        rt,
        alloc,
        &ground,
        lines,
        (first, second),
        (third, fourth),
        number,
        gate,
    );
    let workers = ((first?, second?), (third?, fourth?));
    ended(alloc, ground, workers, number)
}

/// What was told as lost is what the test counts itself: each element that is in no place of the
/// closed pool or of a present worker, which is each that was in the stopped worker's cache or
/// that its packets alone held. Nobody has an element that isn't the pool's.
fn assert_told<R: Abort>(rt: &R, alloc: Global, told: &Told, name: &str) -> Result<(), Fail> {
    let (lost, present, stopped) = told;
    let mut others = Vec::new(alloc);
    let mut alone = Vec::new(alloc);
    let population = present.len().saturating_sub(1);
    for (element, (here, gone)) in (0u32..).zip(present.iter().zip(stopped)) {
        if element as usize == population {
            same(rt, &(*here, *gone), &([0; 4], [0; 4]), name);
        } else if *here == [0; 4] {
            others.push(element)?;
        }
        let [_, own, bases, _] = *here;
        if (own, bases) == (0, 0) && *gone != [0; 4] {
            alone.push(element)?;
        }
    }
    let given = ("no other's", lost.as_slice(), "its own", lost.as_slice());
    let wanted = ("no other's", others.as_slice(), "its own", alone.as_slice());
    same(rt, &given, &wanted, name);
    same(rt, &lost.is_empty(), &false, name);
    Ok(())
}

#[test]
fn what_a_stopped_worker_alone_had_is_lost(rt: HostRuntime) -> Result<(), Fail> {
    let alloc = rt.alloc();
    let script = parse(alloc, SCRIPT.as_bytes())?;
    for (number, rounds, lines) in [(1, 400, 2), (2, 800, 5), (3, 1_200, 8), (4, 1_600, 10)] {
        let name = format!(in alloc; "worker {number} is stopped after {lines} lines")?;
        let told = told_of(&rt, alloc, &script, number, (rounds, lines))?;
        assert_told(&rt, alloc, &told, name.as_str())?;
    }
    Ok(())
}
