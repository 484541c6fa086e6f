//! What is made of the pool and its workers where memory is refused.

use crate::equal::same;
use commons::closed::Closed;
use commons::limits::{Limits, PutRule};
use commons::place::Place;
use commons::refusal::Refusal;
use commons::site::PlainSite;
use mbuf::packets::Packets;
use mbuf::twin::Twin;
use mempool::worker::Worker;
use std::alloc::Global;
use std::process::Abort;

const LIMITS: Limits = Limits {
    population: 3,
    cache: 2,
    workers: 1,
    desks: 1,
    buf: 2_048,
    ref_limit: 65_535,
    tries: 8,
    start_count: 0,
    put_rule: PutRule::Keep,
};

// The number of a worker that is made.
fn worker_made(alloc: Global) -> Result<u32, Refusal> {
    let worker = Worker::make(alloc, &LIMITS, 1)?;
    let number = worker.number();
    worker.lose();
    Ok(number)
}

// The number of a worker that is made with its table, or 0 where the table's first slot isn't free.
fn table_made(alloc: Global) -> Result<u32, Refusal> {
    let packets = Packets::make(alloc, &LIMITS, 1)?;
    let number = match packets.place(0) {
        Some(_) => 0,
        None => packets.worker(),
    };
    packets.lose();
    Ok(number)
}

// The number of a worker of two pools that is made.
fn twin_made(alloc: Global) -> Result<u32, Refusal> {
    let twin = Twin::make(alloc, &LIMITS, &LIMITS, 1)?;
    let number = twin.worker();
    twin.lose();
    Ok(number)
}

// Whichever request for memory is refused, there is a whole site or none, a worker or none, a
// worker with its table or none, and a worker of two pools or none.
#[test]
fn what_is_made_is_whole_or_memory_was_refused(rt: HostRuntime) {
    match PlainSite::make(rt.alloc(), &LIMITS) {
        Ok(site) => {
            let given = (site.common(), site.places());
            let wanted = ([2, 1, 0].as_slice(), [Place::Common; 3].as_slice());
            same(&rt, &given, &wanted, "the common list and the places");
        }
        Err(refusal) => same(&rt, &refusal, &Refusal::OutOfMemory, "no site"),
    }
    for (made, what) in [
        (worker_made(rt.alloc()), "a worker"),
        (table_made(rt.alloc()), "a worker with its table"),
        (twin_made(rt.alloc()), "a worker of two pools"),
    ] {
        match made {
            Ok(number) => same(&rt, &number, &1, what),
            Err(refusal) => same(&rt, &refusal, &Refusal::OutOfMemory, what),
        }
    }
}

// Closes a site, and where memory was refused closes what came back once more.
fn closed_at_last<R: Abort + AllocGlobal>(rt: &R, site: PlainSite) -> Result<Closed, Refusal> {
    match site.close(rt.alloc()) {
        Ok(closed) => Ok(closed),
        Err((refusal, site)) => {
            same(rt, &refusal, &Refusal::OutOfMemory, "a close is refused");
            site.close(rt.alloc()).map_err(|(refusal, _)| refusal)
        }
    }
}

// Whichever request for memory is refused, no site is made, or it is closed with all its words:
// what a refused close hands back closes the next time.
#[test]
fn a_site_whose_close_was_refused_memory_closes_the_next_time(rt: HostRuntime) {
    let closed = match PlainSite::make(rt.alloc(), &LIMITS) {
        Ok(site) => closed_at_last(&rt, site),
        Err(refusal) => return same(&rt, &refusal, &Refusal::OutOfMemory, "no site"),
    };
    match closed {
        Ok(closed) => {
            let given = (closed.top, closed.length, closed.desks.len());
            same(
                &rt,
                &given,
                &(1, 3, 1),
                "top, length and desks of a closed site of three",
            );
            let given = (closed.links.as_slice(), closed.counts.as_slice());
            let wanted = ([2, 3, 0].as_slice(), [1, 1, 1].as_slice());
            same(&rt, &given, &wanted, "the words of a closed site of three");
        }
        Err(refusal) => same(&rt, &Some(refusal), &None, "what was handed back closed"),
    }
}
