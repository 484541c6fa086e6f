//! How a pool of packets is made for C.

ghost use Rattle.std.specs.Prelude.{◌≡◌, ◌≢◌, ◌≤◌, All, IfOk, IfErr, List, length, map, reverse};
ghost use Rattle.std.specs.List.{range_with_len};
ghost use Rattle.ground.specs.Opening.{IsGroundCause};
ghost use Rattle.word_pool.specs.Workers.{AreWorkers, IsAt, WorkerState};
ghost use Rattle.mbufpool_c.specs.Labelled.{newly};
ghost use Rattle.mbufpool_c.specs.inside.Shared.{numbers_of};
ghost use Rattle.mbufpool_c.specs.Opens.{HaveWorkers, IsNewCrew, Opens, RefusesOpen, pool_limits};

use crate::shared::SharedPool;
use crate::worker_handle::WorkerHandle;
use crate::workers::OwnWorker;
use commons::limits::{Limits, PutRule};
use commons::refusal::Refusal;
use ground::pool::Ground;
use std::alloc::{AllocError, Global};
use std::sync::Arc;
use word_pool::pool;
use word_pool::worker::WordWorker;

/// What a pool is made of.
#[repr(C)]
#[derive(Clone, Copy)]
pub struct PoolLimits {
    pub population: u32,
    pub cache: u32,
    pub workers: u32,
    pub desks: u32,
    pub buf: u32,
    pub ref_limit: u32,
    pub tries: u32,
}

/// The limits of a pool of packets.
fn limits_of(limits: &PoolLimits) -> Limits
    ensures { result ≡ pool_limits limits.now }
{
    Limits {
        population: limits.population as u64,
        cache: limits.cache as u64,
        workers: limits.workers as u64,
        desks: limits.desks as u64,
        buf: limits.buf as u64,
        ref_limit: limits.ref_limit as u64,
        tries: limits.tries as u64,
        start_count: 0,
        put_rule: PutRule::Keep,
    }
}

/// The worker of this number with what it shares, on the heap.
fn owned(
    alloc: Global,
    shared: &Arc<SharedPool>,
    worker: WordWorker,
    number: u32,
) -> Result<Box<OwnWorker>, AllocError>
    requires of { IsAt shared.now.value worker }
    requires number { number ≡ worker.member.number }
    ensures { IfOk result (λ own. own.value ≡ newly worker) }
{
    let shared = Arc::try_clone(shared)?;
    match Box::new(alloc, OwnWorker::new(shared, worker, number)) {
        Ok(own) => Ok(own),
        Err(_) => Err(AllocError),
    }
}

/// These workers, of whom the first has number 1, with what they share, each on the heap, the last one
/// first.
fn boxed(
    alloc: Global,
    shared: &Arc<SharedPool>,
    mut workers: Vec<WordWorker>,
) -> Result<Vec<Box<OwnWorker>>, AllocError>
    requires each { All (IsAt shared.now.value) workers.items }
    requires numbers { numbers_of workers.items ≡ range_with_len 1 (length workers.items) }
    requires few { length workers.items ≤ 64 }
    ensures { IfOk result (λ boxes. reverse (map (λ own. own.value) boxes.items) ≡ map newly workers.items) }
{
    let mut boxes = Vec::with_capacity(alloc, workers.len())?;
    while let Some(worker) = workers.pop() {
        boxes.push(owned(alloc, shared, worker, workers.len() as u32 + 1)?)?;
    }
    Ok(boxes)
}

/// Makes a pool, and answers its workers, the last one first.
fn opened(alloc: Global, limits: &Limits) -> Result<Vec<Box<OwnWorker>>, Refusal>
    ensures crew { IfOk result (λ boxes. (ms : List WorkerState) × IsNewCrew limits.now ms
        × (reverse (map (λ own. own.value) boxes.items) ≡ map newly ms)) }
    ensures cause { IfErr result (IsGroundCause limits.now) }
{
    let (ground, workers) = pool::make(alloc, limits)?;
    match shared(alloc, ground, workers) {
        Ok(boxes) => Ok(boxes),
        Err(_) => Err(Refusal::OutOfMemory),
    }
}

/// All workers of these words, with one shared pool, the last one first.
fn shared(
    alloc: Global,
    ground: Ground,
    workers: Vec<WordWorker>,
) -> Result<Vec<Box<OwnWorker>>, AllocError>
    requires { AreWorkers ground workers.items }
    ensures { IfOk result (λ boxes. reverse (map (λ own. own.value) boxes.items) ≡ map newly workers.items) }
{
    let _ = ground.limits();
    let shared = SharedPool::new(alloc, ground)?;
    let Ok(shared) = Arc::new(alloc, shared) else {
        return Err(AllocError);
    };
    boxed(alloc, &shared, workers)
}

/// Puts these workers into the handles, the last into the first. Those that were there are lost.
fn fill(mut boxes: Vec<Box<OwnWorker>>, out: &mut [WorkerHandle])
    requires { length boxes.items ≡ length out.old }
    ensures { HaveWorkers (reverse (map (λ own. own.value) boxes.items)) out.new }
{
    for k in 0..out.len() {
        let Some(own) = boxes.pop() else {
            unreachable!()
        };
        out[k].put(own);
    }
}

/// Makes a pool, and puts its workers into the handles, in their order. There is one handle for
/// each. Workers that were in the handles are lost then; where it is refused, they stay.
#[unsafe(no_mangle)]
pub extern "C" fn mbufpool_worker_open(
    alloc: Global,
    limits: &PoolLimits,
    out: &mut [WorkerHandle],
) -> u32
    ensures opened { result ≡ 0 → Opens (pool_limits limits.now) out.new }
    ensures kept { result ≢ 0 → out.new ≡ out.old }
    ensures cause { result ≢ 0 → RefusesOpen (pool_limits limits.now) (length out.old) result }
{
    let limits = limits_of(limits);
    if out.len() as u64 != limits.workers {
        return Refusal::BadPool.number();
    }
    match opened(alloc, &limits) {
        Ok(boxes) => {
            fill(boxes, out);
            0
        }
        Err(cause) => cause.number(),
    }
}
