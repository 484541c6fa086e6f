//! Packets that pass over channels, each worker in a thread: the first makes them, the second sends
//! each of them and a clone of it, and two others free these.

ghost use Rattle.std.specs.Prelude.{◌≡◌};
ghost use Rattle.ground.specs.Seats.{IsOf};
ghost use Rattle.word_pool.specs.Workers.{AreCrew, IsSameWorker};

use super::{DEFAULTS, assert_all_free, same};
use commons::limits::Limits;
use commons::refusal::Refusal;
use crossbeam_channel::{Receiver, Sender, unbounded};
use ground::pool::Ground;
use mbuf::packets::Pid;
use pool_statement::statement::Statement;
use std::alloc::{AllocError, Global};
use std::marker::Brand;
use std::sync::Wait;
use std::sync::atomic::AtomicU64;
use std::sync::atomic::Ordering::SeqCst;
use std::test::Fail;
use std::thread;
use std::thread::Threads;
use word_pool::laws::workers_who_send_and_receive_are_its_crew;
use word_pool::mail::{Home, Mail};
use word_pool::pool;
use word_pool::worker::WordWorker;

/// How many packets the first worker makes.
const PACKETS: u64 = 200;

/// A channel of packets of one ground: none says that no more come.
#[derive(Drop)]
struct Line<H: Home> {
    inlet: Sender<Option<Mail<H>>>,
    outlet: Receiver<Option<Mail<H>>>,
}

impl<H: Home> Line<H> {
    fn new(alloc: Global) -> Result<Line<H>, AllocError> {
        let (inlet, outlet) = unbounded(alloc)?;
        Ok(Line { inlet, outlet })
    }

    /// Says that no more come.
    fn end<R: Wait>(&self, rt: &R) {
        let _ = self.inlet.send(rt, None);
    }

    /// Sends the packet in a slot.
    fn post<R: Wait>(&self, rt: &R, ground: &Ground, worker: &mut WordWorker, slot: Pid)
        requires home { ground.now ≡ H.ground }
        requires of { IsOf ground.now worker.old.seat }
        ensures of { IsOf ground.now worker.new.seat }
        ensures same { IsSameWorker worker.old worker.new }
    {
        if let Ok(parcel) = worker.send(ground, slot) {
            let mail: Mail<H> = Mail::new(parcel);
            let _ = self.inlet.send(rt, Some(mail));
        }
    }
}

/// Receives a parcel: the slot in which its packet stands. Where no slot is free it is lost.
fn receive<H: Home>(ground: &Ground, worker: &mut WordWorker, mail: Mail<H>) -> Option<Pid>
    requires home { ground.now ≡ H.ground }
    requires of { IsOf ground.now worker.old.seat }
    ensures of { IsOf ground.now worker.new.seat }
    ensures same { IsSameWorker worker.old worker.new }
{
    match worker.receive(ground, mail.open()) {
        Ok(slot) => Some(slot),
        Err((_, parcel)) => {
            parcel.lose();
            None
        }
    }
}

/// Makes packets, and sends each.
fn make<R: Wait, H: Home>(rt: &R, ground: &Ground, worker: &mut WordWorker, out: &Line<H>)
    requires home { ground.now ≡ H.ground }
    requires of { IsOf ground.now worker.old.seat }
    ensures same { IsSameWorker worker.old worker.new }
{
    workers_who_send_and_receive_are_its_crew();
    for _ in 0..PACKETS {
        if let Ok(slot) = worker.alloc(ground) {
            out.post(rt, ground, worker, slot);
        }
    }
    out.end(rt);
}

/// Sends each packet that comes, and a clone of it.
fn share<R: Wait, H: Home>(
    rt: &R,
    ground: &Ground,
    worker: &mut WordWorker,
    from: &Line<H>,
    packets: &Line<H>,
    clones: &Line<H>,
)
    requires home { ground.now ≡ H.ground }
    requires of { IsOf ground.now worker.old.seat }
    ensures same { IsSameWorker worker.old worker.new }
{
    workers_who_send_and_receive_are_its_crew();
    for mail in from.outlet.iter(rt) {
        let Some(mail) = mail else { break };
        let Some(slot) = receive(ground, worker, mail) else {
            continue;
        };
        if let Ok(clone) = worker.clone_packet(ground, slot) {
            clones.post(rt, ground, worker, clone);
        }
        packets.post(rt, ground, worker, slot);
    }
    packets.end(rt);
    clones.end(rt);
}

/// Frees each packet that comes, and counts those.
fn free<R: Wait, H: Home>(
    rt: &R,
    ground: &Ground,
    worker: &mut WordWorker,
    from: &Line<H>,
    freed: &AtomicU64,
)
    requires home { ground.now ≡ H.ground }
    requires of { IsOf ground.now worker.old.seat }
    ensures same { IsSameWorker worker.old worker.new }
{
    workers_who_send_and_receive_are_its_crew();
    for mail in from.outlet.iter(rt) {
        let Some(mail) = mail else { break };
        let Some(slot) = receive(ground, worker, mail) else {
            continue;
        };
        if worker.free(ground, slot).is_ok() {
            freed.fetch_add(1, SeqCst);
        }
    }
}

/// What lies between four workers, and how many packets were freed.
#[derive(Drop)]
struct Lines<H: Home> {
    made: Line<H>,
    packets: Line<H>,
    clones: Line<H>,
    freed: AtomicU64,
}

/// What the worker at this place does, from 0.
fn work<R: Wait, H: Home>(
    rt: &R,
    ground: &Ground,
    worker: &mut WordWorker,
    place: usize,
    lines: &Lines<H>,
)
    requires home { ground.now ≡ H.ground }
    requires of { IsOf ground.now worker.old.seat }
    ensures same { IsSameWorker worker.old worker.new }
{
    let Lines {
        made,
        packets,
        clones,
        freed,
    } = lines;
    match place {
        0 => make(rt, ground, worker, made),
        1 => share(rt, ground, worker, made, packets, clones),
        2 => free(rt, ground, worker, packets, freed),
        _ => free(rt, ground, worker, clones, freed),
    }
}

/// Lets up to four workers pass packets, each in a thread of its own: how many were freed. What nobody
/// received is lost.
fn pass<R: Threads + Wait + Sync, H: Home + Send + Sync>(
    rt: &R,
    alloc: Global,
    ground: &Ground,
    workers: &mut [WordWorker],
) -> Result<u64, AllocError>
    requires home { ground.now ≡ H.ground }
    requires crew { AreCrew ground.now workers.old }
    ensures { AreCrew ground.now workers.new }
{
    workers_who_send_and_receive_are_its_crew();
    let lines: Lines<H> = Lines {
        made: Line::new(alloc)?,
        packets: Line::new(alloc)?,
        clones: Line::new(alloc)?,
        freed: AtomicU64::new(0),
    };
    thread::for_each_mut(
        rt,
        workers,
        4,
        &|place, worker: &mut WordWorker|
            requires home { ground.now ≡ H.ground }
            requires of { IsOf ground.now worker.now.seat }
            ensures { IsSameWorker worker.entry.now worker.exit.now }
        { work(rt, ground, worker, place, &lines) },
    );
    Ok(lines.freed.load(SeqCst))
}

/// How many packets were freed, and the statement of the pool, where all parcels were received.
fn passed<R: Threads + Wait + Sync>(
    rt: &R,
    alloc: Global,
    limits: &Limits,
) -> Result<(u64, Option<Statement>), Refusal> {
    workers_who_send_and_receive_are_its_crew();
    let (ground, mut workers) = pool::make(alloc, limits)?;
    let Ok(freed) = pass::<R, Brand>(rt, alloc, &ground, workers.as_mut_slice()) else {
        return Err(Refusal::OutOfMemory);
    };
    if !pool::all_received(&ground, workers.as_slice()) {
        return Ok((freed, None));
    }
    Ok((freed, Some(pool::settled(alloc, ground, workers)?)))
}

#[test]
fn each_packet_that_is_sent_is_freed_where_it_is_received(rt: HostRuntime) -> Result<(), Fail> {
    let limits = Limits {
        population: 512,
        cache: 8,
        workers: 4,
        ..DEFAULTS
    };
    let name = "packets that are sent";
    let (freed, statement) = passed(&rt, rt.alloc(), &limits)?;
    same(
        &rt,
        &(freed, statement.is_some()),
        &(2 * PACKETS, true),
        name,
    );
    match statement {
        Some(statement) => assert_all_free(&rt, rt.alloc(), &statement, name),
        None => Ok(()),
    }
}

/// What is lost of a pool of one worker that sends a packet, which nobody receives.
fn lost<R: Threads + Wait + Sync>(rt: &R, alloc: Global) -> Result<(bool, Vec<u32>), Refusal> {
    workers_who_send_and_receive_are_its_crew();
    let (ground, mut workers) = pool::make(alloc, &DEFAULTS)?;
    let limits = ground.limits();
    if workers.len() == 0 || limits.workers == 0 {
        return Err(Refusal::BadPool);
    }
    if pass::<R, Brand>(rt, alloc, &ground, workers.as_mut_slice()).is_err() {
        return Err(Refusal::OutOfMemory);
    }
    let all = pool::all_received(&ground, workers.as_slice());
    Ok((all, pool::settled_without(alloc, ground, workers, &[])?))
}

#[test]
fn what_nobody_receives_is_named(rt: HostRuntime) -> Result<(), Fail> {
    let (all, lost) = lost(&rt, rt.alloc())?;
    same(
        &rt,
        &(all, lost.as_slice()),
        &(false, &[0][..]),
        "a parcel that is lost",
    );
    Ok(())
}
