//! A packet that one worker makes and another frees, as a library's user writes it.

use super::{DEFAULTS, same};
use commons::limits::Limits;
use commons::refusal::Refusal;
use mbuf::acts::Act;
use share_book::ending::settled;
use share_book::site_pool::SitePool;
use std::alloc::Global;
use std::process::Abort;

/// How many elements are free once one worker has made a packet, and another has taken it off a
/// desk and freed it.
fn handed_over(alloc: Global, limits: &Limits) -> Result<u64, Refusal> {
    let mut pool = SitePool::make(alloc, limits)?;
    let _made = pool.perform(1, Act::Alloc);
    let _left = pool.perform(1, Act::Offer(0, 0));
    let _taken = pool.perform(2, Act::Take(0));
    let _freed = pool.perform(2, Act::Free(0));
    let statement = settled(alloc, pool)?;
    Ok(statement.available)
}

/// Whichever request for memory is refused, the packet is freed, or the pool isn't made.
#[test]
fn a_packet_is_made_by_one_worker_and_freed_by_another(rt: HostRuntime) {
    let two = Limits {
        population: 4,
        workers: 2,
        desks: 1,
        ..DEFAULTS
    };
    // Without a desk the packet stays with the worker that made it.
    let without = Limits { desks: 0, ..two };
    for (limits, free) in [(two, 4), (without, 3)] {
        match handed_over(rt.alloc(), &limits) {
            Ok(available) => {
                let given = (limits.desks, available);
                same(
                    &rt,
                    &given,
                    &(limits.desks, free),
                    "how many elements are free",
                );
            }
            Err(cause) => same(&rt, &cause, &Refusal::OutOfMemory, "the pool wasn't made"),
        }
    }
}
