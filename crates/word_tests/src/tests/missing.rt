//! The end of a pool of four workers, one of whom hands in no share.

ghost use Rattle.std.specs.Prelude.{◌≡◌, [], IfOk};
ghost use Rattle.word_tests.specs.Idle.{IsIdle};

use super::places::assert_each_once;
use super::players::{FreeSeat, Player, Retired};
use super::playing::play_own;
use super::same;
use super::settling::Ending;
use book::settling::Unsettled;
use commons::refusal::Refusal;
use ground::pool::Ground;
use pool_statement::statement::Statement;
use script::names::Names;
use script_text::commands::Script;
use script_text::parse;
use std::alloc::Global;
use std::test::Fail;

/// Each worker makes a packet and a clone of it, frees the packet, and offers the clone. The desk
/// is taken where another has left its clone there, and the clone is freed then.
const SCRIPT: &str = "pool 16 workers 4 desks 2\n\
    alloc a\nclone a b\nfree a\noffer b 0\nfree b\n\
    2: alloc a\n2: clone a b\n2: free a\n2: offer b 0\n2: free b\n\
    3: alloc a\n3: clone a b\n3: free a\n3: offer b 1\n3: free b\n\
    4: alloc a\n4: clone a b\n4: free a\n4: offer b 1\n4: free b\n";

/// A worker of this number with this seat, and its lines from the first to the last.
fn played(
    alloc: Global,
    ground: &Ground,
    script: &Script,
    free: FreeSeat,
    number: u32,
) -> Result<Retired, Fail>
    requires idle { IsIdle ground.now free.seat }
    requires hand { free.seat.known.view.hand ≡ [] }
    requires holds { free.seat.known.view.holds ≡ [] }
    ensures idle { IfOk result (λ retired. IsIdle ground.now retired.seat) }
{
    let mut player = Player::make(alloc, ground, free, number)?;
    let mut names = Names::new(alloc);
    play_own(
        ground,
        &mut names,
        script.lines.as_slice(),
        &mut player,
        number,
    )?;
    Ok(player.retire())
}

/// The end of the pool, once each worker has played its lines. The share of worker 3 is handed in,
/// or isn't.
fn end_of(alloc: Global, third_is_missing: bool) -> Result<Result<Statement, Unsettled>, Fail> {
    let script = parse(alloc, SCRIPT.as_bytes())?;
    if script.pools.first.workers != 4 {
        return Err(Fail::from(Refusal::BadPool));
    }
    let (ground, seat) = Ground::make(alloc, &script.pools.first)?;
    let mut first = FreeSeat { seat };
    let second = FreeSeat {
        seat: ground.split(&mut first.seat),
    };
    let third = FreeSeat {
        seat: ground.split(&mut first.seat),
    };
    let fourth = FreeSeat {
        seat: ground.split(&mut first.seat),
    };
    let first = played(alloc, &ground, &script, first, 1)?;
    let second = played(alloc, &ground, &script, second, 2)?;
    let third = played(alloc, &ground, &script, third, 3)?;
    let fourth = played(alloc, &ground, &script, fourth, 4)?;
    let mut ending = Ending::begin(alloc, &script.pools.first, first)?;
    ending.add(&ground, second);
    if third_is_missing {
        ending.add_without_share(&ground, third);
    } else {
        ending.add(&ground, third);
    }
    ending.add(&ground, fourth);
    let end = ending.settle(alloc, ground)?;
    Ok(end)
}

#[test]
fn a_share_that_is_missing_is_named(rt: HostRuntime) -> Result<(), Fail> {
    let cause = end_of(rt.alloc(), true)?.err();
    same(
        &rt,
        &cause,
        &Some(Unsettled::MissingShare(3)),
        "why there is no statement",
    );
    Ok(())
}

#[test]
fn four_workers_and_all_their_shares_settle(rt: HostRuntime) -> Result<(), Fail> {
    match end_of(rt.alloc(), false)? {
        Ok(statement) => {
            let packets = (statement.desks.len(), statement.packets.len());
            let what = "a clone is on each desk, each other was freed";
            same(&rt, &packets, &(2, 0), what);
            assert_each_once(&rt, rt.alloc(), &statement, "four workers")
        }
        Err(cause) => {
            same(&rt, &Some(cause), &None, "why there is no statement");
            Ok(())
        }
    }
}
