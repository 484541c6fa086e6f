//! What the workers of a pool do in threads of their own, act by act, what is reported of it, and
//! how their pool ends.

ghost use Rattle.ground.specs.Seats.{IsOf};
ghost use Rattle.word_pool.specs.Workers.{AreWorkers, Stays};

use super::passing::{CROWD, clear, pass_all};
use super::threads::rounds;
use commons::limits::Limits;
use commons::refusal::Refusal;
use ground::pool::Ground;
use mbuf::acts::{Act, Reply};
use mbuf::packets::Pid;
use pool_statement::statement::Statement;
use std::alloc::Global;
use std::sync::atomic::{AtomicU64, Ordering};
use std::thread;
use std::thread::Threads;
use word_pool::laws::workers_who_stay_are_all;
use word_pool::pool;
use word_pool::worker::WordWorker;

/// What each worker does in a thread of its own.
#[derive(Clone, Copy)]
pub(super) enum Task {
    /// It makes packets that share a buffer and frees them, so often.
    Rounds(u32),
    /// It passes clones of its own packet round, and frees the packet at the end or keeps it.
    Pass { frees: bool },
    /// It takes the packet off a desk, one for each worker, and frees it.
    Clear,
}

/// What is reported of one worker's acts.
#[derive(Clone, Copy, Default)]
pub(super) struct Tally {
    /// How many acts there were.
    pub calls: u64,
    /// How many packets were made, one by one.
    pub made: u64,
    /// How many packets were left on a desk.
    pub left: u64,
    /// How many packets were taken off a desk.
    pub taken: u64,
    /// How many acts were refused for no cause that others can give.
    pub wrong: u64,
}

impl Tally {
    /// Notes an act that was answered as no other worker can bring about.
    pub(super) fn note_wrong(&mut self) {
        self.wrong = self.wrong.saturating_add(1);
    }

    /// The slot of a packet that was made. None where too few elements were left, or others were
    /// in the way.
    fn slot(&mut self, reply: &Reply) -> Option<Pid> {
        match reply {
            Reply::Allocated(slot, _) | Reply::Cloned(slot, _) => {
                self.made = self.made.saturating_add(1);
                Some(*slot)
            }
            Reply::Refused(Refusal::NoEntries | Refusal::Contended) => None,
            _ => {
                self.note_wrong();
                None
            }
        }
    }
}

/// What is reported of the acts of all workers together.
#[derive(Drop)]
struct Tallies {
    calls: AtomicU64,
    made: AtomicU64,
    left: AtomicU64,
    taken: AtomicU64,
    wrong: AtomicU64,
}

impl Tallies {
    /// Of no acts.
    fn new() -> Tallies {
        Tallies {
            calls: AtomicU64::new(0),
            made: AtomicU64::new(0),
            left: AtomicU64::new(0),
            taken: AtomicU64::new(0),
            wrong: AtomicU64::new(0),
        }
    }

    /// Adds what is reported of one worker's.
    fn add(&self, tally: &Tally) {
        self.calls.fetch_add(tally.calls, Ordering::SeqCst);
        self.made.fetch_add(tally.made, Ordering::SeqCst);
        self.left.fetch_add(tally.left, Ordering::SeqCst);
        self.taken.fetch_add(tally.taken, Ordering::SeqCst);
        self.wrong.fetch_add(tally.wrong, Ordering::SeqCst);
    }

    /// What is reported of all.
    fn all(&self) -> Tally {
        Tally {
            calls: self.calls.load(Ordering::SeqCst),
            made: self.made.load(Ordering::SeqCst),
            left: self.left.load(Ordering::SeqCst),
            taken: self.taken.load(Ordering::SeqCst),
            wrong: self.wrong.load(Ordering::SeqCst),
        }
    }
}

/// Lets a worker do this, and counts it.
pub(super) fn act(ground: &Ground, worker: &mut WordWorker, tally: &mut Tally, act: Act) -> Reply
    requires of { IsOf ground.now worker.old.seat }
    ensures of { IsOf ground.now worker.new.seat }
    ensures stays { Stays worker.old worker.new }
{
    tally.calls = tally.calls.saturating_add(1);
    worker.act(ground, act)
}

/// Lets a worker make a packet by this act. Its slot, where it was made.
pub(super) fn make(
    ground: &Ground,
    worker: &mut WordWorker,
    tally: &mut Tally,
    making: Act,
) -> Option<Pid>
    requires of { IsOf ground.now worker.old.seat }
    ensures of { IsOf ground.now worker.new.seat }
    ensures stays { Stays worker.old worker.new }
{
    let reply = act(ground, worker, tally, making);
    tally.slot(&reply)
}

/// Lets a worker free the packet in a slot, which can't be refused.
pub(super) fn free(ground: &Ground, worker: &mut WordWorker, tally: &mut Tally, slot: Pid)
    requires of { IsOf ground.now worker.old.seat }
    ensures of { IsOf ground.now worker.new.seat }
    ensures stays { Stays worker.old worker.new }
{
    let reply = act(ground, worker, tally, Act::Free(slot));
    if !matches!(&reply, Reply::Freed(_)) {
        tally.note_wrong();
    }
}

/// Lets a worker free the packet in a slot, where there is such a slot.
pub(super) fn free_any(
    ground: &Ground,
    worker: &mut WordWorker,
    tally: &mut Tally,
    slot: Option<Pid>,
)
    requires of { IsOf ground.now worker.old.seat }
    ensures of { IsOf ground.now worker.new.seat }
    ensures stays { Stays worker.old worker.new }
{
    match slot {
        Some(slot) => free(ground, worker, tally, slot),
        None => {}
    }
}

/// All that one worker does.
fn work(ground: &Ground, worker: &mut WordWorker, tallies: &Tallies, number: usize, task: Task)
    requires of { IsOf ground.now worker.old.seat }
    ensures stays { Stays worker.old worker.new }
{
    let mut tally = Tally::default();
    match task {
        Task::Rounds(times) => rounds(ground, worker, &mut tally, times),
        Task::Pass { frees } => pass_all(ground, worker, &mut tally, number, frees),
        Task::Clear => clear(ground, worker, &mut tally, number),
    }
    tallies.add(&tally);
}

/// The work of all workers, in threads of their own, of which there are 64 at most.
fn all_work<R: Threads + Sync>(
    rt: &R,
    ground: &Ground,
    workers: &mut [WordWorker],
    tallies: &Tallies,
    task: Task,
)
    requires workers { AreWorkers ground.now workers.old }
    ensures workers { AreWorkers ground.now workers.new }
{
    workers_who_stay_are_all();
    thread::for_each_mut(
        rt,
        workers,
        CROWD as usize,
        &|number, worker: &mut WordWorker|
            requires { IsOf ground.now worker.now.seat }
            ensures { Stays worker.entry.now worker.exit.now }
        { work(ground, worker, tallies, number, task) },
    );
}

/// What is reported of the workers of a new pool once all have done the first task, and then the
/// second where there is one, and the statement of the pool.
pub(super) fn ended<R: Threads + Sync>(
    rt: &R,
    alloc: Global,
    limits: &Limits,
    first: Task,
    then: Option<Task>,
) -> Result<(Tally, Statement), Refusal> {
    let tallies = Tallies::new();
    let (ground, mut workers) = pool::make(alloc, limits)?;
    all_work(rt, &ground, workers.as_mut_slice(), &tallies, first);
    if let Some(task) = then {
        all_work(rt, &ground, workers.as_mut_slice(), &tallies, task);
    }
    let statement = pool::settled(alloc, ground, workers)?;
    Ok((tallies.all(), statement))
}
