//! A guarded pool for C, by workers in handles: what C puts may be any numbers, and each that isn't out
//! is refused.

ghost use Rattle.std.specs.Prelude.{◌≡◌, ◌≢◌, ◌≤◌, None, Some, IsSome, length};
ghost use Rattle.mbufpool_c.specs.Guarded.{CountsGuard, Does, FlushesGuard, GetsGuard, GetsOneGuard, Guarded, IsFirst, PutsGuard, PutsOneGuard, RefusesGuard, RefusesSplit, SplitsGuard, TellsStale, number_of_not_put, put_status as status_in};

use crate::guard_handle::GuardHandle;
use crate::guard_workers::OwnGuard;
use crate::pool::status_of;
use crate::pool_workers::number;
use commons::refusal::Refusal;
use guard::refusal::NotPut;
use std::alloc::Global;

/// The status of a put of what isn't out.
pub const NOT_OUT: u32 = 26;

/// The number of why an element isn't put.
#[inline(always)]
fn number_of_not_put(why: NotPut) -> u32
    ensures { result ≡ number_of_not_put why }
{
    match why {
        NotPut::Stranger => NOT_OUT,
        NotPut::Home => NOT_OUT,
        NotPut::Kept => NOT_OUT,
        NotPut::Lost => NOT_OUT,
        NotPut::Full(cause) => number(cause),
    }
}

/// The status of the answer to a put: 0, or the number of why an element wasn't put.
#[inline(always)]
fn status_of_put(answer: Result<(), NotPut>) -> u32
    ensures { result ≡ status_in answer }
{
    match answer {
        Ok(()) => 0,
        Err(why) => number_of_not_put(why),
    }
}

/// Makes a guarded pool of so many elements and its first worker, with which all of them are out: the
/// pool is to have what is put. Others can be made of it, all in all `workers`. Each keeps up to
/// `cache` elements that it put, and `waiting` wait at it before they are given again. A worker that
/// was in the handle is ended.
///
/// Refused `BadPool` where a number is out of range or no depot is of such a size, `OutOfMemory` where
/// memory was refused, and as a take of an empty magazine is. What was in the handle stays then.
#[unsafe(no_mangle)]
pub extern "C" fn mbufpool_guard_open(
    alloc: Global,
    population: u32,
    cache: u32,
    waiting: u32,
    workers: u32,
    tries: u32,
    out: &mut GuardHandle,
) -> u32
    ensures opened { result ≡ 0 → (s : Guarded) × (out.new.value ≡ Some s) × IsFirst population
        workers tries s }
    ensures kept { result ≢ 0 → out.new.value ≡ out.old.value }
    ensures cause { result ≢ 0 → RefusesGuard population cache waiting workers tries result }
{
    match OwnGuard::open(alloc, population, cache, waiting, workers, tries) {
        Ok(worker) => {
            out.put(worker);
            0
        }
        Err(status) => status,
    }
}

/// Makes one more worker of the pool, which keeps nothing. A worker that was in its handle is ended.
///
/// Refused `StrangerShare` where the first handle has no worker or no more can be made of it,
/// `OutOfMemory` where memory was refused, and as a take of an empty magazine is. Both handles have
/// what they had then.
#[unsafe(no_mangle)]
pub extern "C" fn mbufpool_guard_split(
    alloc: Global,
    worker: &mut GuardHandle,
    out: &mut GuardHandle,
) -> u32
    ensures made { result ≡ 0 → SplitsGuard worker.old.value worker.new.value out.new.value }
    ensures kept { result ≢ 0 → out.new.value ≡ out.old.value }
    ensures first { result ≢ 0 → worker.new.value ≡ worker.old.value }
    ensures cause { result ≢ 0 → RefusesSplit result worker.old.value }
{
    if worker.is_empty() {
        return Refusal::StrangerShare.number();
    }
    match worker.lend().split(alloc) {
        Ok(other) => {
            out.put(other);
            0
        }
        Err(cause) => cause,
    }
}

/// Gets as many elements as `out` has places: all of them, or none. Each is out then, until somebody
/// puts it.
///
/// Refused `StrangerShare` where the handle has no worker, and else as `GuardWorker::get` is: nothing
/// is out then that wasn't, and nothing is said of `out`.
#[unsafe(no_mangle)]
pub extern "C" fn mbufpool_guard_get(worker: &mut GuardHandle, out: &mut [u32]) -> u32
    ensures called { Does (GetsGuard out.new) worker.old.value result worker.new.value }
{
    if worker.is_empty() {
        return Refusal::StrangerShare.number();
    }
    let answer = worker.lend().get(out);
    status_of(answer)
}

/// Gets an element where none is at hand.
#[inline(never)]
fn get_one_apart(worker: &mut GuardHandle, out: &mut u32) -> u32
    requires some { IsSome worker.old.value }
    ensures called { Does (GetsOneGuard out.new) worker.old.value result worker.new.value }
    ensures kept { result ≢ 0 → out.new ≡ out.old }
{
    let answer = worker.lend().get_one(out);
    status_of(answer)
}

/// Gets one element. Where it is refused, as `mbufpool_guard_get` is, what was there stays.
#[unsafe(no_mangle)]
pub extern "C" fn mbufpool_guard_get_one(worker: &mut GuardHandle, out: &mut u32) -> u32
    ensures called { Does (GetsOneGuard out.new) worker.old.value result worker.new.value }
    ensures kept { result ≢ 0 → out.new ≡ out.old }
{
    if worker.is_empty() {
        return Refusal::StrangerShare.number();
    }
    if let Some(element) = worker.lend().get_at_hand() {
        *out = element;
        return 0;
    }
    get_one_apart(worker, out)
}

/// Puts a list of whatever numbers, whoever got them, one after another, until one is refused: `taken`
/// of them are put, and those behind the one that was refused weren't looked at.
///
/// Refused `StrangerShare` where the handle has no worker, `NOT_OUT` where a number isn't out, and else
/// for the cause by which there was no room for it.
#[unsafe(no_mangle)]
pub extern "C" fn mbufpool_guard_put(worker: &mut GuardHandle, list: &[u32], taken: &mut u64) -> u32
    ensures called { Does (PutsGuard list.now taken.new) worker.old.value result worker.new.value }
    ensures count { taken.new ≤ length list.now }
    ensures none { worker.old.value ≡ None → taken.new ≡ 0 }
{
    *taken = 0;
    if worker.is_empty() {
        return Refusal::StrangerShare.number();
    }
    let (count, answer) = worker.lend().put(list);
    *taken = count as u64;
    status_of_put(answer)
}

/// Puts a number that isn't put at hand.
#[inline(never)]
fn put_one_apart(worker: &mut GuardHandle, element: u32) -> u32
    requires some { IsSome worker.old.value }
    ensures called { Does (PutsOneGuard element) worker.old.value result worker.new.value }
{
    let answer = worker.lend().put_one(element);
    status_of_put(answer)
}

/// Puts whatever number, whoever got it, where it is out.
///
/// Refused as `mbufpool_guard_put` is. Nothing was put then.
#[unsafe(no_mangle)]
pub extern "C" fn mbufpool_guard_put_one(worker: &mut GuardHandle, element: u32) -> u32
    ensures called { Does (PutsOneGuard element) worker.old.value result worker.new.value }
{
    if worker.is_empty() {
        return Refusal::StrangerShare.number();
    }
    if worker.lend().put_at_hand(element) {
        return 0;
    }
    put_one_apart(worker, element)
}

/// Gives all that a worker keeps to the pool, where its other workers can get it.
///
/// Refused `StrangerShare` where the handle has no worker, and else as `GuardWorker::flush` is. What
/// hasn't gone is with the worker still then.
#[unsafe(no_mangle)]
pub extern "C" fn mbufpool_guard_flush(worker: &mut GuardHandle) -> u32
    ensures called { Does FlushesGuard worker.old.value result worker.new.value }
{
    if worker.is_empty() {
        return Refusal::StrangerShare.number();
    }
    let answer = worker.lend().flush();
    status_of(answer)
}

/// What the calls of this worker have put less what they got, modulo 2^64, in `out`: with the
/// population, the counts of all workers of a pool add up to the elements that are in it, once all
/// stale entries are found. What is out with the first worker at the start it has got.
///
/// Refused `StrangerShare` where the handle has no worker, and then what was there stays.
#[unsafe(no_mangle)]
pub extern "C" fn mbufpool_guard_count(worker: &mut GuardHandle, out: &mut u64) -> u32
    ensures count { CountsGuard worker.old.value result out.old out.new }
    ensures same { worker.new.value ≡ worker.old.value }
{
    if worker.is_empty() {
        return Refusal::StrangerShare.number();
    }
    *out = worker.lend().count();
    0
}

/// Tells an element that this worker kept and another put, so that its entry was found stale: the
/// oldest that wasn't told yet.
///
/// Refused `StrangerShare` where the handle has no worker, and `NoEntries` where none is in store, and
/// then what was there stays.
#[unsafe(no_mangle)]
pub extern "C" fn mbufpool_guard_stale(worker: &mut GuardHandle, out: &mut u32) -> u32
    ensures { TellsStale worker.old.value result out.old out.new worker.new.value }
{
    if worker.is_empty() {
        return Refusal::StrangerShare.number();
    }
    match worker.lend().next_stale() {
        Some(element) => {
            *out = element;
            0
        }
        None => Refusal::NoEntries.number(),
    }
}

/// Ends a worker: the handle has none then. What it keeps goes to the pool first, as far as that takes
/// it, and the rest is lost; what is out may still be put by others. The pool is freed with its last
/// worker.
#[unsafe(no_mangle)]
pub extern "C" fn mbufpool_guard_end(alloc: Global, worker: &mut GuardHandle)
    ensures { worker.new.value ≡ None }
{
    drop(worker.take(alloc));
}
