//! How many changes of its stack a pool has left.

ghost use Rattle.ground.specs.Seats.{IsOf};

use super::{DEFAULTS, same};
use commons::limits::{Limits, SPENT};
use commons::refusal::Refusal;
use ground::pool::Ground;
use mbuf::acts::{Act, Reply};
use std::test::Fail;
use word_pool::pool;
use word_pool::worker::WordWorker;

/// Lets a worker do this. Whether it was refused for the spent count, and how many changes are left
/// then.
fn act(ground: &Ground, worker: &mut WordWorker, act: Act) -> (bool, u64)
    requires { IsOf ground.now worker.old.seat }
    ensures { IsOf ground.now worker.new.seat }
{
    let reply = worker.act(ground, act);
    let is_spent = matches!(&reply, Reply::Refused(Refusal::HeadSpent));
    (is_spent, worker.changes_left(ground))
}

#[test]
fn each_get_and_put_that_comes_to_the_stack_takes_one(rt: HostRuntime) -> Result<(), Fail> {
    let limits = Limits {
        population: 4,
        start_count: SPENT - 3,
        ..DEFAULTS
    };
    let (ground, mut workers) = pool::make(rt.alloc(), &limits)?;
    let Some(mut worker) = workers.pop() else {
        return Err(Fail::from(Refusal::BadPool));
    };
    let before = worker.changes_left(&ground);
    let got = act(&ground, &mut worker, Act::Alloc);
    let again = act(&ground, &mut worker, Act::Alloc);
    let put = act(&ground, &mut worker, Act::Free(0));
    let spent = act(&ground, &mut worker, Act::Alloc);
    let wanted = (3, (false, 2), (false, 1), (false, 0), (true, 0));
    same(
        &rt,
        &(before, got, again, put, spent),
        &wanted,
        "changes left",
    );
    Ok(())
}
