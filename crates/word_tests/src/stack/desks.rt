//! Packets of one element that go over desks: between two workers in one thread, and in threads of
//! their own.

ghost use Rattle.word_tests.specs.Carrying.{Carries};
ghost use Rattle.word_tests.specs.Idle.{IsIdle, Stays};

use super::carrying::{make, nothing, offer, offer_in_turn, take, take_in_turn};
use super::left::assert_each_once;
use super::playing::{Played, Worker};
use super::threads::joined;
use super::{closed_of, rows, same};
use commons::closed::Closed;
use commons::limits::Limits;
use commons::packet::{Packet, Seg};
use commons::refusal::Refusal;
use ground::pool::Ground;
use ground::seat::GroundSeat;
use stack_lf::words::WordCommons;
use std::alloc::{AllocError, Global};
use std::process::Abort;
use std::test::Fail;
use std::thread;
use std::thread::Threads;

/// What a worker does, and what is reported of it.
enum Turn {
    /// Makes a packet of this many bytes.
    Make(u16),
    /// Leaves its packet on this desk, and is answered so.
    Offer(u32, Result<(), Refusal>),
    /// Takes the packet off this desk, and is told its element and its bytes.
    Take(u32, Result<(u32, u16), Refusal>),
}

/// A name, and the turns of workers 1 and 2 of a pool of four elements with two desks.
type Row = (&'static str, &'static [(u32, Turn)]);

const ROWS: &[Row] = &[
    (
        "one worker and two desks",
        &[
            (1, Turn::Take(0, Err(Refusal::DeskEmpty))),
            (1, Turn::Take(2, Err(Refusal::NoSuchDesk))),
            (1, Turn::Make(60)),
            (1, Turn::Offer(2, Err(Refusal::NoSuchDesk))),
            (1, Turn::Offer(0, Ok(()))),
            (1, Turn::Make(1_920)),
            (1, Turn::Offer(0, Err(Refusal::DeskTaken))),
            (1, Turn::Take(1, Err(Refusal::DeskEmpty))),
            (1, Turn::Offer(1, Ok(()))),
            (1, Turn::Take(0, Ok((0, 60)))),
            (1, Turn::Take(0, Err(Refusal::DeskEmpty))),
            (1, Turn::Offer(1, Err(Refusal::DeskTaken))),
            (1, Turn::Offer(0, Ok(()))),
            (1, Turn::Take(1, Ok((1, 1_920)))),
        ],
    ),
    (
        "from one worker to another",
        &[
            (1, Turn::Make(1)),
            (1, Turn::Offer(0, Ok(()))),
            (2, Turn::Make(2)),
            (2, Turn::Offer(0, Err(Refusal::DeskTaken))),
            (2, Turn::Offer(1, Ok(()))),
            (2, Turn::Take(0, Ok((0, 1)))),
            (1, Turn::Take(0, Err(Refusal::DeskEmpty))),
            (1, Turn::Take(1, Ok((1, 2)))),
            (2, Turn::Take(1, Err(Refusal::DeskEmpty))),
            (1, Turn::Offer(0, Ok(()))),
            (2, Turn::Offer(1, Ok(()))),
            (2, Turn::Take(0, Ok((1, 2)))),
            (1, Turn::Make(3)),
            (1, Turn::Offer(0, Ok(()))),
        ],
    ),
];

/// The first segment of a carried packet.
fn first_seg(carried: &Option<Packet>) -> Option<Seg> {
    match carried {
        Some(packet) => Some(packet.segs()[0]),
        None => None,
    }
}

/// A worker makes a packet of this many bytes.
fn follow_make<R: Abort>(
    rt: &R,
    c: &mut WordCommons,
    carried: &mut Option<Packet>,
    len: u16,
    name: &str,
)
    requires carries { Carries carried.old c.old.seat }
    ensures carries { Carries carried.new c.new.seat }
    ensures stays { Stays c.old.seat c.new.seat }
{
    let made = make(c, carried, len);
    same(rt, &made, &Ok(()), &(name, "a packet is made"));
}

/// An offer of a packet is answered as its row says, and a refused one leaves the packet as it
/// was.
fn assert_offered<R: Abort>(
    rt: &R,
    before: Option<Seg>,
    answer: Result<(), Refusal>,
    after: Option<Seg>,
    told: Result<(), Refusal>,
    what: (&str, u32),
) {
    let left = if answer.is_ok() { None } else { before };
    let given = (before.is_some(), answer, after);
    same(rt, &given, &(true, told, left), &(what, "an offer"));
}

/// A worker leaves its packet on this desk, and is answered so. A packet whose offer is refused
/// has to be as it was.
fn follow_offer<R: Abort>(
    rt: &R,
    c: &mut WordCommons,
    carried: &mut Option<Packet>,
    desk: u32,
    told: Result<(), Refusal>,
    name: &str,
)
    requires carries { Carries carried.old c.old.seat }
    ensures carries { Carries carried.new c.new.seat }
    ensures stays { Stays c.old.seat c.new.seat }
{
    let before = first_seg(carried);
    let answer = offer(c, carried, desk);
    assert_offered(rt, before, answer, first_seg(carried), told, (name, desk));
}

/// What a worker was told that took a packet, and now carries this one.
fn seen_of(answer: Result<(), Refusal>, carried: Option<Seg>) -> Result<(u32, u16), Refusal> {
    answer?;
    match carried {
        Some(seg) => Ok((seg.elem, seg.data_len)),
        None => Err(Refusal::NoSuchPacket),
    }
}

/// A worker takes the packet off this desk, and is told its element and its bytes.
fn follow_take<R: Abort>(
    rt: &R,
    c: &mut WordCommons,
    carried: &mut Option<Packet>,
    desk: u32,
    told: Result<(u32, u16), Refusal>,
    name: &str,
)
    requires carries { Carries carried.old c.old.seat }
    ensures carries { Carries carried.new c.new.seat }
    ensures stays { Stays c.old.seat c.new.seat }
{
    let answer = take(c, carried, desk);
    let seen = seen_of(answer, first_seg(carried));
    same(rt, &seen, &told, &(name, desk, "a take"));
}

/// A worker's turn.
fn follow<R: Abort>(
    rt: &R,
    c: &mut WordCommons,
    carried: &mut Option<Packet>,
    turn: &Turn,
    name: &str,
)
    requires carries { Carries carried.old c.old.seat }
    ensures carries { Carries carried.new c.new.seat }
    ensures stays { Stays c.old.seat c.new.seat }
{
    match turn {
        Turn::Make(len) => follow_make(rt, c, carried, *len, name),
        Turn::Offer(desk, told) => follow_offer(rt, c, carried, *desk, *told, name),
        Turn::Take(desk, told) => follow_take(rt, c, carried, *desk, *told, name),
    }
}

/// The turns of a row, each by its worker. What both carry at the end.
fn follow_all<R: Abort>(
    rt: &R,
    first: &mut WordCommons,
    second: &mut WordCommons,
    row: &Row,
) -> (Option<Packet>, Option<Packet>)
    ensures first { Stays first.old.seat first.new.seat }
    ensures second { Stays second.old.seat second.new.seat }
{
    let (name, turns) = *row;
    let mut carried = nothing(first);
    let mut others = nothing(second);
    for (worker, turn) in turns {
        if *worker == 1 {
            follow(rt, first, &mut carried, turn, name);
        } else {
            follow(rt, second, &mut others, turn, name);
        }
    }
    (carried, others)
}

/// Adds the first elements of these packets.
fn add_elements(elements: &mut Vec<u32>, packets: &[Option<Packet>]) -> Result<(), AllocError> {
    for packet in packets {
        if let Some(seg) = first_seg(packet) {
            elements.push(seg.elem)?;
        }
    }
    Ok(())
}

/// The first elements of these packets, and of those on the desks of a closed ground.
fn elements_of(
    alloc: Global,
    carried: &[Option<Packet>],
    closed: &Closed,
) -> Result<Vec<u32>, AllocError> {
    let mut elements = Vec::new(alloc);
    add_elements(&mut elements, carried)?;
    add_elements(&mut elements, closed.desks.as_slice())?;
    Ok(elements)
}

/// Two workers play a row on a ground. Their seats made one, and what both carry at the end.
fn play_row<R: Abort>(
    rt: &R,
    ground: &Ground,
    first: Worker,
    second: Worker,
    row: &Row,
) -> (GroundSeat, [Option<Packet>; 2])
    requires first { IsIdle ground.now first.seat }
    requires second { IsIdle ground.now second.seat }
    ensures { IsIdle ground.now result.0 }
{
    let mut first = WordCommons::new(ground, first.into_seat());
    let mut second = WordCommons::new(ground, second.into_seat());
    let (carried, others) = follow_all(rt, &mut first, &mut second, row);
    let mut seat = first.into_seat();
    ground.join(&mut seat, second.into_seat());
    (seat, [carried, others])
}

/// Plays a row, and demands that each element is in the common list, or in one packet that is
/// carried or on a desk.
fn assert_row<R: Abort>(rt: &R, alloc: Global, row: &Row) -> Result<(), Fail> {
    let limits = Limits {
        population: 4,
        workers: 2,
        desks: 2,
        ..rows::THREE
    };
    let (ground, mut seat) = Ground::make(alloc, &limits)?;
    let other = ground.split(&mut seat);
    let (seat, carried) = play_row(rt, &ground, Worker { seat }, Worker { seat: other }, row);
    let closed = closed_of(ground, seat)?;
    let kept = elements_of(alloc, &carried, &closed)?;
    assert_each_once(rt, alloc, &closed, kept.as_slice(), &row.0)
}

#[test]
fn packets_go_over_desks_as_they_are(rt: HostRuntime) -> Result<(), Fail> {
    for row in ROWS {
        assert_row(&rt, rt.alloc(), row)?;
    }
    Ok(())
}

/// How many packets are handed over.
const PACKETS: u16 = 10_000;

/// The bytes of a packet by its place in the order in which they are handed over.
fn len_of(place: u16) -> u16 {
    place % 1_000
}

/// A worker who makes packets and leaves each on desk 0 once the one before it was taken. `met`
/// counts those that were left there; a packet that never found the desk empty ends the turns, and
/// is kept.
fn hand_over(alloc: Global, ground: &Ground, worker: Worker) -> Played
    requires { IsIdle ground.now worker.seat }
    ensures { IsIdle ground.now result.seat }
{
    let mut c = WordCommons::new(ground, worker.into_seat());
    let mut carried = nothing(&c);
    let mut kept = Vec::new(alloc);
    let mut met = 0u64;
    let mut sound = true;
    for place in 0..PACKETS {
        if sound {
            sound &= make(&mut c, &mut carried, len_of(place)).is_ok();
            sound &= offer_in_turn(&mut c, &mut carried);
            if sound {
                met = met.saturating_add(1);
            }
        }
    }
    if let Some(seg) = first_seg(&carried) {
        sound &= kept.push(seg.elem).is_ok();
    }
    Played {
        seat: c.into_seat(),
        kept,
        met,
        refused: 0,
        sound,
    }
}

/// A worker who takes as many packets off desk 0, each once it is there, and keeps them. They have
/// to come in the order in which they were left.
fn take_over(alloc: Global, ground: &Ground, worker: Worker) -> Played
    requires { IsIdle ground.now worker.seat }
    ensures { IsIdle ground.now result.seat }
{
    let mut c = WordCommons::new(ground, worker.into_seat());
    let mut carried = nothing(&c);
    let mut kept = Vec::new(alloc);
    let mut met = 0u64;
    let mut sound = true;
    for place in 0..PACKETS {
        if sound {
            sound &= take_in_turn(&mut c, &mut carried);
            let taken = if sound { first_seg(&carried) } else { None };
            if let Some(seg) = taken {
                sound &= seg.data_len == len_of(place);
                sound &= kept.push(seg.elem).is_ok();
                met = met.saturating_add(1);
            }
        }
    }
    Played {
        seat: c.into_seat(),
        kept,
        met,
        refused: 0,
        sound,
    }
}

/// Both workers, each in a thread of its own.
fn both_play<R: Threads + Sync>(
    rt: &R,
    alloc: Global,
    ground: &Ground,
    first: Worker,
    second: Worker,
) -> Played
    requires first { IsIdle ground.now first.seat }
    requires second { IsIdle ground.now second.seat }
    ensures { IsIdle ground.now result.seat }
{
    let (first, second) = thread::join(
        rt,
        move || hand_over(alloc, ground, first),
        move || take_over(alloc, ground, second),
    );
    joined(ground, first, second)
}

/// Ends the pool, and demands that all packets went over its desk, which is empty, and that each
/// element is there once.
fn assert_handed<R: Abort>(
    rt: &R,
    alloc: Global,
    ground: Ground,
    played: Played,
) -> Result<(), Fail>
    requires { IsIdle ground played.seat }
{
    let Played {
        seat,
        kept,
        met,
        refused: _,
        sound,
    } = played;
    let closed = closed_of(ground, seat)?;
    let is_empty = closed.desks.as_slice().iter().all(Option::is_none);
    let name = "each in its turn, offers and takes, an empty desk";
    let wanted = (true, 2 * u64::from(PACKETS), true);
    same(rt, &(sound, met, is_empty), &wanted, &name);
    assert_each_once(rt, alloc, &closed, kept.as_slice(), &name)
}

#[test]
fn ten_thousand_packets_go_over_one_desk_in_their_order(rt: HostRuntime) -> Result<(), Fail> {
    let limits = Limits {
        population: u64::from(PACKETS),
        workers: 2,
        desks: 1,
        ..rows::THREE
    };
    let (ground, mut seat) = Ground::make(rt.alloc(), &limits)?;
    let other = ground.split(&mut seat);
    let played = both_play(
        &rt,
        rt.alloc(),
        &ground,
        Worker { seat },
        Worker { seat: other },
    );
    assert_handed(&rt, rt.alloc(), ground, played)
}
