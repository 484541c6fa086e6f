//! Each call on the words by itself, behind a mark: so whoever watches the process can count the
//! operations that it makes on the words.

ghost use Rattle.ground.specs.Seats.{IsOf};

use super::seats::{join_one, take_one};
use super::{close_both, open_both, same, step_both};
use crate::acts::Act;
use crate::pair::Pair;
use crate::player::Player;
use crate::schedules::TWO;
use commons::limits::Limits;
use ground::pool::Ground;
use std::process::Abort;
use std::test::Fail;
use step_core::world::World;

/// Two workers, six elements and two desks.
const SIX: Limits = Limits {
    population: 6,
    desks: 2,
    ..TWO
};

/// Each kind of step with its worker, and each that may lose both won and lost. Worker 1 gets
/// elements 0, 1 and 2, and worker 2 element 3; 1 and 2 are held, 2 passes over a desk, and 0 is
/// put back.
const STEPS: &[(u32, Act)] = &[
    (1, Act::LoadLength),
    (1, Act::Reserve(6, 3)),
    (2, Act::Reserve(6, 1)),
    (2, Act::Reserve(3, 1)),
    (1, Act::LoadHead),
    (1, Act::LoadLink(0)),
    (1, Act::LoadLink(1)),
    (1, Act::LoadLink(2)),
    (2, Act::LoadHead),
    (2, Act::LoadLink(0)),
    (1, Act::Cut),
    (2, Act::Cut),
    (2, Act::LoadHead),
    (2, Act::LoadLink(3)),
    (2, Act::Cut),
    (1, Act::Claim(1)),
    (1, Act::Sole(1)),
    (1, Act::Raise(1, 1)),
    (1, Act::Raise(1, 1)),
    (1, Act::SoleFree(1)),
    (1, Act::Lower(1)),
    (1, Act::Lower(1)),
    (1, Act::Reset(1)),
    (1, Act::Claim(2)),
    (1, Act::Hold(1)),
    (2, Act::Hold(1)),
    (1, Act::PutIn(1, 2, None)),
    (1, Act::Open(1)),
    (2, Act::Seize(0)),
    (2, Act::Seize(1)),
    (2, Act::TakeOut(1)),
    (2, Act::Clear(1)),
    (2, Act::SoleFree(2)),
    (1, Act::LoadHead),
    (1, Act::StoreLink(0, Some(4))),
    (2, Act::LoadHead),
    (2, Act::StoreLink(3, Some(4))),
    (1, Act::Push),
    (2, Act::Push),
    (1, Act::Add(1)),
];

/// A request for as many bytes and the number of a call marks where the call begins, and one for
/// just as many where the last one has ended. Nothing else here asks for so many.
const MARK: usize = 1_048_576;

/// Marks that the call of this number begins, or with 0 that the last one has ended.
fn mark<R: Abort + AllocGlobal>(rt: &R, call: usize) {
    let bytes = MARK.saturating_add(call);
    let mark: Result<Vec<u8>, _> = Vec::with_capacity(rt.alloc(), bytes);
    same(rt, &mark.is_ok(), &true, "a mark");
}

/// Plays these steps by both, each behind its mark: none of them is refused. How many they are.
fn step_marked<R: Abort + AllocGlobal>(
    rt: &R,
    world: &mut World,
    pair: &mut Pair,
    steps: &[(u32, Act)],
) -> usize {
    let mut call = 0usize;
    for (worker, act) in steps {
        call = call.saturating_add(1);
        mark(rt, call);
        let is_played = step_both(rt, world, pair, *worker, *act, "a marked step");
        same(rt, &(call, is_played), &(call, true), "a marked step");
    }
    mark(rt, 0);
    call
}

/// Lends an element of one player to another, which takes it over, each behind its mark.
fn hand_on_marked<R: Abort + AllocGlobal>(
    rt: &R,
    pool: &Ground,
    from: &mut Player,
    to: &mut Player,
    element: u32,
    call: usize,
)
    requires from_of { IsOf pool.now from.old.seat }
    requires to_of { IsOf pool.now to.old.seat }
    ensures from_of { IsOf pool.now from.new.seat }
    ensures to_of { IsOf pool.now to.new.seat }
{
    mark(rt, call);
    match from.lend(pool, element) {
        Some(loan) => {
            mark(rt, call.saturating_add(1));
            join_one(rt, pool, to, loan, element);
        }
        None => same(rt, &element, &u32::MAX, "an element that is to be lent"),
    }
}

/// A seat is split, takes an element and lends it to the other, each behind its mark, of which the
/// first has this number.
fn pass_marked<R: Abort + AllocGlobal>(rt: &R, call: usize) -> Result<(), Fail> {
    let (pool, mut first) = Player::make(rt.alloc(), &SIX)?;
    mark(rt, call);
    let Some(mut second) = first.split(&pool) else {
        first.lose();
        panic!(rt; "a seat of two is split")
    };
    mark(rt, call.saturating_add(1));
    take_one(rt, &pool, &mut first, 0, SIX.population);
    let lends = call.saturating_add(2);
    hand_on_marked(rt, &pool, &mut first, &mut second, 0, lends);
    mark(rt, 0);
    second.lose();
    let closed = first.close(pool)?;
    same(rt, &closed.top, &2, "an element was taken");
    Ok(())
}

#[test]
fn each_call_is_made_behind_a_mark(rt: HostRuntime) -> Result<(), Fail> {
    let (mut world, mut pair) = open_both(rt.alloc(), &SIX)?;
    let calls = step_marked(&rt, &mut world, &mut pair, STEPS);
    let closed = close_both(&rt, &world, pair, "marked steps")?;
    let given = (closed.top, closed.length);
    same(&rt, &given, &(1, 3), "marked steps");
    pass_marked(&rt, calls.saturating_add(1))
}
