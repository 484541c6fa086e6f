//! A pool of values for C, by workers in handles.

ghost use Rattle.std.specs.Prelude.{◌≡◌, ◌≢◌, ◌<◌, ◌∷◌, ℕ, None, Some, [], IfSome, IsSome};
ghost use Rattle.std.proofs.Props.{props};
ghost use Rattle.commons.specs.Bag.{bag};
ghost use Rattle.depot.specs.Lending.{AreOf, SameLoans, elements};
ghost use Rattle.mbufpool_c.specs.Pools.{AreAt, AreLent, CountsIn, FlushesIn, GetsIn, IsFirst, LooksIn, PutsIn, RefusesPool, RefusesWorker, Splits, Pooled, all_values, pool_status as status_in};

use crate::pool_handle::PoolHandle;
use crate::pool_workers::{PoolWorker, number};
use commons::refusal::Refusal;
use depot::cause::Cause;
use depot::loans::Loans;
use std::alloc::Global;

/// A worker in the hands of C, or none, and loans of values of its pool. Loans have no bytes, so in
/// C it is a struct of one pointer. Which handle a loan is at is C's to choose: C has the loans of
/// all that it got or never put, and hasn't put since, whichever worker got it.
#[repr(C)]
pub struct Pool {
    pub handle: PoolHandle,
    pub loans: Loans,
    pub ghost of: { IfSome handle.value (λ s. AreAt s.site loans) } by { Prim.hlevel props },
}

impl Pool {
    /// Puts a worker into the handle, with these loans. One that was there is ended.
    #[tactic(auto, using(crate::proofs::PoolLemmas::of_at))]
    fn fill(&mut self, worker: Box<PoolWorker>, loans: Loans)
        requires { AreOf worker.value.site loans }
        ensures worker { self.new.handle.value ≡ Some worker.value }
        ensures loans { self.new.loans ≡ loans }
    {
        self.loans = loans;
        self.handle.put(worker);
    }
}

/// The status of an answer: 0, or the number of a cause.
#[inline(always)]
pub(crate) fn status_of(answer: Result<(), Cause>) -> u32
    ensures { result ≡ status_in answer }
{
    match answer {
        Ok(()) => 0,
        Err(cause) => number(cause),
    }
}

/// Makes a pool without values, of room for so many, and its first worker, of which others can be
/// made: all in all `workers`. C has the loan of each number below 2^64 - 1: it puts what the pool
/// is to have. A worker that was in the handle is ended.
///
/// Refused `BadPool` where `tries` is 0 or no depot is of such a size, and `OutOfMemory` where
/// memory was refused.
#[unsafe(no_mangle)]
#[tactic(auto, using(crate::proofs::PoolLemmas::at_of, crate::proofs::PoolLemmas::of_at))]
pub extern "C" fn mbufpool_pool_open(
    alloc: Global,
    values: u64,
    workers: u32,
    tries: u32,
    out: &mut Pool,
) -> u32
    ensures opened { result ≡ 0 → (s : Pooled) × (out.new.handle.value ≡ Some s) × IsFirst workers
        tries s }
    ensures all { result ≡ 0 → (i : ℕ) → i < all_values → bag (elements out.new.loans) i ≡ 1 }
    ensures kept { result ≢ 0 → out.new ≡ out.old }
    ensures cause { result ≢ 0 → RefusesPool values workers tries result }
{
    match PoolWorker::open(alloc, values, workers, tries) {
        Ok((worker, loans)) => {
            out.fill(worker, loans);
            0
        }
        Err(cause) => cause.number(),
    }
}

/// Makes one more worker of the pool, with no loans. A worker that was in its handle is ended.
///
/// Refused `StrangerShare` where the first handle has no worker or no more can be made of it,
/// `OutOfMemory` where memory was refused, and as a take of an empty magazine is.
#[unsafe(no_mangle)]
#[tactic(auto, using(crate::proofs::PoolLemmas::at_of, crate::proofs::PoolLemmas::of_at))]
pub extern "C" fn mbufpool_pool_split(alloc: Global, pool: &mut Pool, out: &mut Pool) -> u32
    ensures made { result ≡ 0 → Splits pool.old.handle.value pool.new.handle.value
        out.new.handle.value }
    ensures nothing { result ≡ 0 → elements out.new.loans ≡ [] }
    ensures kept { result ≢ 0 → out.new ≡ out.old }
    ensures first { result ≢ 0 → pool.new.handle.value ≡ pool.old.handle.value }
    ensures cause { result ≢ 0 → RefusesWorker result pool.old.handle.value }
    ensures loans { SameLoans pool.old.loans pool.new.loans }
{
    if pool.handle.is_empty() {
        return Refusal::StrangerShare.number();
    }
    match pool.handle.lend().split(alloc, &mut pool.loans) {
        Ok((other, others)) => {
            out.fill(other, others);
            0
        }
        Err(status) => status,
    }
}

/// Gets values that aren't all at hand.
#[inline(never)]
#[tactic(auto, using(crate::proofs::PoolLemmas::at_of, crate::proofs::PoolLemmas::of_at))]
fn get_apart(pool: &mut Pool, out: &mut [u64]) -> u32
    requires some { IsSome pool.old.handle.value }
    ensures called { GetsIn out.new pool.old.handle.value pool.old.loans result
        pool.new.handle.value pool.new.loans }
{
    let answer = pool.handle.lend().get(out, &mut pool.loans);
    status_of(answer)
}

/// Gets a value where none is at hand.
#[inline(never)]
#[tactic(auto, using(crate::proofs::PoolLemmas::at_of, crate::proofs::PoolLemmas::of_at))]
fn get_one_apart(pool: &mut Pool, out: &mut u64) -> u32
    requires some { IsSome pool.old.handle.value }
    ensures called { GetsIn (out.new ∷ []) pool.old.handle.value pool.old.loans result
        pool.new.handle.value pool.new.loans }
    ensures kept { result ≢ 0 → out.new ≡ out.old }
{
    let answer = pool.handle.lend().get_one(out, &mut pool.loans);
    status_of(answer)
}

/// Puts values for which there is no room at hand.
#[inline(never)]
#[tactic(auto, using(crate::proofs::PoolLemmas::at_of, crate::proofs::PoolLemmas::of_at))]
fn put_apart(pool: &mut Pool, list: &[u64]) -> u32
    requires some { IsSome pool.old.handle.value }
    requires lent { AreLent pool.old.handle.value pool.old.loans list.now }
    ensures called { PutsIn list.now pool.old.handle.value pool.old.loans result
        pool.new.handle.value pool.new.loans }
{
    let answer = pool.handle.lend().put(list, &mut pool.loans);
    status_of(answer)
}

/// Puts a value for which there is no room at hand.
#[inline(never)]
#[tactic(auto, using(crate::proofs::PoolLemmas::at_of, crate::proofs::PoolLemmas::of_at))]
fn put_one_apart(pool: &mut Pool, value: u64) -> u32
    requires some { IsSome pool.old.handle.value }
    requires lent { AreLent pool.old.handle.value pool.old.loans (value ∷ []) }
    ensures called { PutsIn (value ∷ []) pool.old.handle.value pool.old.loans result
        pool.new.handle.value pool.new.loans }
{
    let answer = pool.handle.lend().put_one(value, &mut pool.loans);
    status_of(answer)
}

/// Gets as many values as `out` has places, and lends them to C: all of them, or none.
///
/// Refused `StrangerShare` where the handle has no worker, and else as `Worker::get` is.
#[unsafe(no_mangle)]
#[tactic(auto, using(crate::proofs::PoolLemmas::at_of, crate::proofs::PoolLemmas::of_at))]
pub extern "C" fn mbufpool_pool_get(pool: &mut Pool, out: &mut [u64]) -> u32
    ensures called { GetsIn out.new pool.old.handle.value pool.old.loans result
        pool.new.handle.value pool.new.loans }
{
    if pool.handle.is_empty() {
        return Refusal::StrangerShare.number();
    }
    if pool.handle.lend().get_at_hand(out, &mut pool.loans) {
        return 0;
    }
    get_apart(pool, out)
}

/// Gets one value, and lends it to C. Where it is refused, as `mbufpool_pool_get` is, what was there
/// stays.
#[unsafe(no_mangle)]
#[tactic(auto, using(crate::proofs::PoolLemmas::at_of, crate::proofs::PoolLemmas::of_at))]
pub extern "C" fn mbufpool_pool_get_one(pool: &mut Pool, out: &mut u64) -> u32
    ensures called { GetsIn (out.new ∷ []) pool.old.handle.value pool.old.loans result
        pool.new.handle.value pool.new.loans }
    ensures kept { result ≢ 0 → out.new ≡ out.old }
{
    if pool.handle.is_empty() {
        return Refusal::StrangerShare.number();
    }
    if let Some(value) = pool.handle.lend().get_one_at_hand(&mut pool.loans) {
        *out = value;
        return 0;
    }
    get_one_apart(pool, out)
}

/// Puts a list of values: all of them, or none. Each is lent to C: C got it from this pool, by
/// whichever worker, or never put it, and hasn't put it since. So the list names it once.
///
/// Refused `StrangerShare` where the handle has no worker, and else as `Worker::put` is. What was
/// lent is lent still then.
#[unsafe(no_mangle)]
#[tactic(auto, using(crate::proofs::PoolLemmas::at_of, crate::proofs::PoolLemmas::of_at))]
pub extern "C" fn mbufpool_pool_put(pool: &mut Pool, list: &[u64]) -> u32
    requires lent { AreLent pool.old.handle.value pool.old.loans list.now }
    ensures called { PutsIn list.now pool.old.handle.value pool.old.loans result
        pool.new.handle.value pool.new.loans }
{
    if pool.handle.is_empty() {
        return Refusal::StrangerShare.number();
    }
    if pool.handle.lend().put_at_hand(list, &mut pool.loans) {
        return 0;
    }
    put_apart(pool, list)
}

/// Puts one value that is lent to C, as `mbufpool_pool_put` does.
#[unsafe(no_mangle)]
#[tactic(auto, using(crate::proofs::PoolLemmas::at_of, crate::proofs::PoolLemmas::of_at))]
pub extern "C" fn mbufpool_pool_put_one(pool: &mut Pool, value: u64) -> u32
    requires lent { AreLent pool.old.handle.value pool.old.loans (value ∷ []) }
    ensures called { PutsIn (value ∷ []) pool.old.handle.value pool.old.loans result
        pool.new.handle.value pool.new.loans }
{
    if pool.handle.is_empty() {
        return Refusal::StrangerShare.number();
    }
    if pool.handle.lend().put_one_at_hand(value, &mut pool.loans) {
        return 0;
    }
    put_one_apart(pool, value)
}

/// Gives all values in a worker's magazines to the pool, where its other workers can get them.
///
/// Refused `StrangerShare` where the handle has no worker, and else as `Worker::flush` is. What
/// hasn't gone is with the worker still then.
#[unsafe(no_mangle)]
pub extern "C" fn mbufpool_pool_flush(pool: &mut Pool) -> u32
    ensures called { FlushesIn pool.old.handle.value result pool.new.handle.value }
    ensures loans { pool.new.loans ≡ pool.old.loans }
{
    if pool.handle.is_empty() {
        return Refusal::StrangerShare.number();
    }
    let answer = pool.handle.lend().flush();
    status_of(answer)
}

/// What the calls of this worker have put less what they got, modulo 2^64, in `out`: so the counts
/// of all workers of a pool add up to the values that are in it.
///
/// Refused `StrangerShare` where the handle has no worker, and then what was there stays.
#[unsafe(no_mangle)]
pub extern "C" fn mbufpool_pool_count(pool: &mut Pool, out: &mut u64) -> u32
    ensures count { CountsIn pool.old.handle.value result out.old out.new }
    ensures same { pool.new.handle.value ≡ pool.old.handle.value }
    ensures loans { pool.new.loans ≡ pool.old.loans }
{
    if pool.handle.is_empty() {
        return Refusal::StrangerShare.number();
    }
    *out = pool.handle.lend().count();
    0
}

/// Where a magazine of the pool lies, for readers of a core or of a running program: the one in front
/// of this worker, with its number from 0, and how many there are, side by side by their numbers.
///
/// Refused `StrangerShare` where the handle has no worker, and then what was there stays.
#[unsafe(no_mangle)]
pub extern "C" fn mbufpool_pool_front(
    pool: &mut Pool,
    front: &mut *mut u8,
    number: &mut u64,
    count: &mut u64,
) -> u32
    ensures called { LooksIn pool.old.handle.value result pool.new.handle.value }
    ensures loans { pool.new.loans ≡ pool.old.loans }
{
    if pool.handle.is_empty() {
        return Refusal::StrangerShare.number();
    }
    let own = pool.handle.lend();
    *front = own.front_address();
    (*number, *count) = own.front_number();
    0
}

/// Ends a worker: the handle has none then. What is in its magazines goes to the pool first, as far
/// as that takes it, and the rest is lost; what was lent is lent still. The pool is freed with its
/// last worker.
#[unsafe(no_mangle)]
pub extern "C" fn mbufpool_pool_end(alloc: Global, pool: &mut Pool)
    ensures none { pool.new.handle.value ≡ None }
    ensures loans { pool.new.loans ≡ pool.old.loans }
{
    drop(pool.handle.take(alloc));
}
