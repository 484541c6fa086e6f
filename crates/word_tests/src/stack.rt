//! The functions that walk the tables. A row that fails is named.

ghost use Rattle.std.specs.Prelude.{◌<◌, ◌≤◌, length};
ghost use Rattle.ground.specs.Seats.{IsOf};

use commons::closed::Closed;
use commons::limits::Limits;
use commons::refusal::Refusal;
use commons::shared::Commons;
use ground::pool::Ground;
use ground::seat::GroundSeat;
use stack_lf::words::WordCommons;
use std::fmt::Debug;
use std::process::Abort;
use std::test::Fail;

mod carrying;
mod desks;
mod left;
mod playing;
mod rows;
mod threads;

use left::assert_each_once;
use playing::{MOST, Played, Worker, rounds, there_and_back};

/// A pool's limits, and what its one worker does.
struct Row {
    name: &'static str,
    limits: Limits,
    turns: &'static [Turn],
}

/// What a worker does, and what is reported of it.
enum Turn {
    /// Gets these and puts them back, and the put is answered so.
    Back(&'static [u32], Result<(), Refusal>),
    /// Gets these.
    Get(&'static [u32]),
    /// A get of this many is refused so.
    Refused(usize, Refusal),
    /// The length of the common list is this.
    Count(u32),
}

/// Asserts that both are equal, and else says of what, with both.
fn same<R: Abort, T: PartialEq + Debug, W: Debug>(rt: &R, given: &T, wanted: &T, what: &W) {
    assert!(rt; *given == *wanted, "{what:?}: {given:?}, not {wanted:?}");
}

/// A list of this many elements is one that a worker can ask for.
fn assert_fits<R: Abort, W: Debug>(rt: &R, n: usize, what: &W)
    ensures some { 0 < n }
    ensures most { n ≤ 32 }
{
    assert!(rt; 0 < n && n <= MOST, "{what:?}: a list of {n}");
}

/// Gets as many elements as there are places for.
fn get(c: &mut WordCommons, out: &mut [u32]) -> Result<(), Refusal>
    requires { 0 < length out.old }
{
    c.get_list(out)
}

/// Gets these elements and puts them back, and the put is answered so.
fn follow_back<R: Abort>(
    rt: &R,
    c: &mut WordCommons,
    elements: &[u32],
    told: Result<(), Refusal>,
    name: &str,
) {
    let n = elements.len();
    assert_fits(rt, n, &name);
    let mut places = [0; MOST];
    let answer = there_and_back(c, &mut places[..n]);
    same(rt, &(answer, &places[..n]), &(Ok(told), elements), &name);
}

/// Gets these elements.
fn follow_get<R: Abort>(rt: &R, c: &mut WordCommons, elements: &[u32], name: &str) {
    let n = elements.len();
    assert_fits(rt, n, &name);
    let mut places = [0; MOST];
    let answer = get(c, &mut places[..n]);
    same(rt, &(answer, &places[..n]), &(Ok(()), elements), &name);
}

/// A get of this many is refused so.
fn follow_refused<R: Abort>(rt: &R, c: &mut WordCommons, n: usize, refusal: Refusal, name: &str) {
    assert_fits(rt, n, &name);
    let mut places = [0; MOST];
    let answer = get(c, &mut places[..n]);
    same(rt, &answer, &Err(refusal), &name);
}

/// Does what a row says.
fn follow<R: Abort>(rt: &R, c: &mut WordCommons, row: &Row) {
    let name = row.name;
    for turn in row.turns {
        match turn {
            Turn::Back(elements, told) => follow_back(rt, c, elements, *told, name),
            Turn::Get(elements) => follow_get(rt, c, elements, name),
            Turn::Refused(n, refusal) => follow_refused(rt, c, *n, *refusal, name),
            Turn::Count(length) => same(rt, &c.common_count(), length, &name),
        }
    }
}

#[test]
fn each_call_answers_as_its_row_says(rt: HostRuntime) -> Result<(), Fail> {
    for row in rows::ROWS {
        let (ground, seat) = Ground::make(rt.alloc(), &row.limits)?;
        let mut c = WordCommons::new(&ground, seat);
        follow(&rt, &mut c, row);
        c.into_seat().lose();
    }
    Ok(())
}

/// What a pool leaves.
fn closed_of(ground: Ground, seat: GroundSeat) -> Result<Closed, Refusal>
    requires { IsOf ground seat }
{
    match ground.close(seat) {
        Ok(closed) => Ok(closed),
        Err((refusal, _, seat)) => {
            seat.lose();
            Err(refusal)
        }
    }
}

#[test]
fn one_worker_is_never_refused(rt: HostRuntime) -> Result<(), Fail> {
    let limits = Limits {
        population: 8,
        ..rows::THREE
    };
    let (ground, seat) = Ground::make(rt.alloc(), &limits)?;
    let Played {
        seat,
        kept,
        met,
        refused,
        sound,
    } = rounds(rt.alloc(), &ground, Worker { seat }, 3, 1_000);
    let closed = closed_of(ground, seat)?;
    let name = "one worker, no call of whom is refused";
    let given = (sound, met, refused, closed.length);
    same(&rt, &given, &(true, 1_000, 0, 8), &name);
    assert_each_once(&rt, rt.alloc(), &closed, kept.as_slice(), &name)
}
