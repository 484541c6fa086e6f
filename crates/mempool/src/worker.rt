//! A worker's cache: what it gets and puts, and when it asks the common stack.

ghost use Rattle.std.specs.Prelude.{◌≡◌, ◌<◌, ◌≤◌, ◌+◌, ◌-◌, ◌++◌, ℕ, List, length, take, drop, reverse, OnOk, OnErr, IsOk, vec_len, vec_capacity};
ghost use Rattle.commons.specs.Bag.{bag, one};
ghost use Rattle.commons.specs.Bounds.{max_cache};
ghost use Rattle.commons.specs.Calls.{Calls, with_list};
ghost use Rattle.mempool.specs.inside.Kept.{IsFlushLength};
ghost use Rattle.mempool.specs.inside.Moves.{Got};

use crate::put::Put;
use crate::steps;
use commons::limits::{Limits, MAX_CACHE, PutRule};
use commons::refusal::Refusal;
use commons::shared::Commons;
use std::alloc::Global;
use std::marker::Model;

/// A worker's cache over a shared pool. A worker can't be dropped: `lose` ends it.
#[derive(Debug)]
pub struct Worker {
    limits: Limits,
    number: u32,
    cache: Vec<u32>,
    /// From this length on a put flushes. It is kept so that a put compares once.
    flush_length: usize,
}

impl Model for Worker {
    ghost use Rattle.mempool.specs.WorkerCache.{WorkerCache};

    ghost Value = { WorkerCache };

    ghost use Rattle.mempool.specs.inside.Kept.{cache_of, IsKept};

    ghost view = { cache_of };

    ghost invariant = { IsKept };
}

impl Worker {
    ghost use Rattle.std.specs.Prelude.{◌≡◌, ◌≤◌, ◌<◌, ◌⊎◌, [], IfOk, IfErr};
    ghost use Rattle.commons.specs.Bounds.{IsPool};
    ghost use Rattle.commons.specs.declared.limits.PutRule.TheVariants.{Whole};
    ghost use Rattle.mempool.specs.Caches.{Gets, Puts, Flushes, as_list, put_count, threshold};
    ghost use Rattle.mempool.specs.WorkerCache.{IsWorkerCause, KeepsNumber};

    /// A worker with an empty cache, which has room for the whole population from now on.
    ///
    /// Refused `BadPool` where the limits are out of range or have no worker of this number, and
    /// `OutOfMemory` where memory was refused.
    ///
    /// After rte_mempool.c, `mempool_cache_init` (DPDK 21.11).
    pub fn make(alloc: Global, limits: &Limits, number: u32) -> Result<Worker, Refusal>
        ensures ok { IfOk result (λ w. w ≡ record { limits = limits.now; number = number; cache = [] }) }
        ensures pool { IfOk result (λ w. IsPool limits.now × (1 ≤ number) × (number ≤ limits.now.workers)) }
        ensures cause { IfErr result (IsWorkerCause limits.now number) }
    {
        limits.check()?;
        if number == 0 || u64::from(number) > limits.workers {
            return Err(Refusal::BadPool);
        }
        match Vec::with_capacity(alloc, limits.population as usize) {
            Ok(cache) => Ok(Worker {
                limits: *limits,
                number,
                cache,
                flush_length: flush_length(limits.put_rule, limits.cache as usize),
            }),
            Err(_) => Err(Refusal::OutOfMemory),
        }
    }

    /// Ends the worker and gives nothing back.
    pub fn lose(self) {
        let Worker {
            limits: _,
            number: _,
            cache: _,
            flush_length: _,
        } = self;
    }

    /// The limits of the worker's pool.
    pub fn limits(&self) -> &Limits
        ensures limits { result.now ≡ self.now.limits }
        ensures pool { IsPool self.now.limits }
    {
        &self.limits
    }

    /// The worker's number, from 1.
    pub fn number(&self) -> u32
        ensures { result ≡ self.now.number }
    {
        self.number
    }

    /// How many elements the cache has.
    pub fn cache_len(&self) -> usize
        ensures { result ≡ length self.now.cache }
    {
        self.cache.len()
    }

    /// The cache, from its first element to its last.
    pub fn cache(&self) -> &[u32]
        ensures { result.now ≡ self.now.cache }
    {
        self.cache.as_slice()
    }

    /// Gets `out.len()` elements, from the cache or the common stack: all of them, or none. They
    /// stay in the hand. An empty get takes no step.
    ///
    /// Refused as the last request to the stack was: `NoEntries`, `Contended` or `HeadSpent`.
    /// Cache and hand are then as before, and nothing is said of `out`.
    ///
    /// After rte_mempool.h, `rte_mempool_do_generic_get` (DPDK 21.11), which doesn't test whether
    /// a refill can succeed at all.
    #[inline(always)]
    pub fn get_bulk<C: Commons>(&mut self, c: &mut C, out: &mut [u32]) -> Result<(), Refusal>
        requires limits { (C.side c.old).limits ≡ self.old.limits }
        ensures calls { Calls C.did C.side c.old c.new (λ calls.
            Gets self.old.limits self.old.cache (length out.old) calls (with_list result out.new) self.new.cache) }
        ensures hand { OnOk result
            ((i : ℕ) → (C.side c.new).hand i + bag self.old.cache i
            ≡ (C.side c.old).hand i + bag self.new.cache i + bag out.new i) }
        ensures refused { OnErr result (C.side c.new ≡ C.side c.old) }
        ensures cache_err { OnErr result (self.new.cache ≡ self.old.cache) }
        ensures holds { (C.side c.new).holds ≡ (C.side c.old).holds }
        ensures headers { (C.side c.new).headers ≡ (C.side c.old).headers }
        ensures limits { (C.side c.new).limits ≡ (C.side c.old).limits }
        ensures number { KeepsNumber self.old self.new }
    {
        let n = out.len();
        if n == 0 {
            return Ok(());
        }
        let size = self.limits.cache as usize;
        if n >= size {
            return c.get_list(out);
        }
        let len = self.cache.len();
        if n <= len {
            steps::take_last(&mut self.cache, out);
            return Ok(());
        }
        self.get_refilled(c, out)
    }

    /// Gets more elements than the cache has, and fewer than it keeps: from the cache once it is
    /// refilled, else from the common stack. The answer has a place of its own here, which is
    /// filled only where the cache has too few.
    #[inline(always)]
    fn get_refilled<C: Commons>(&mut self, c: &mut C, out: &mut [u32]) -> Result<(), Refusal>
        requires limits { (C.side c.old).limits ≡ self.old.limits }
        requires fewer { length out.old < self.old.limits.cache }
        requires more { length self.old.cache < length out.old }
        ensures { Got C.did C.side (length out.old) (λ answer. with_list answer out.new) (λ _. bag out.new)
            self.old c.old result self.new c.new }
    {
        match self.refilled_apart(c, out) {
            Ok(()) => Ok(()),
            Err(cause) => Err(cause),
        }
    }

    /// Gets more elements than the cache has, in a function of its own, so that what a get from
    /// the cache inlines stays small.
    #[inline(never)]
    fn refilled_apart<C: Commons>(&mut self, c: &mut C, out: &mut [u32]) -> Result<(), Refusal>
        requires limits { (C.side c.old).limits ≡ self.old.limits }
        requires fewer { length out.old < self.old.limits.cache }
        requires more { length self.old.cache < length out.old }
        ensures { Got C.did C.side (length out.old) (λ answer. with_list answer out.new) (λ _. bag out.new)
            self.old c.old result self.new c.new }
    {
        let n = out.len();
        let size = self.limits.cache as usize;
        let len = self.cache.len();
        if n + size > self.limits.population as usize {
            return c.get_list(out);
        }
        match steps::refill(&mut self.cache, c, n + size - len) {
            Ok(()) => {
                steps::take_last(&mut self.cache, out);
                Ok(())
            }
            Err(_cause) => c.get_list(out),
        }
    }

    /// Gets one element, from the cache or the common stack. It stays in the hand.
    ///
    /// Refused as the last request to the stack was: `NoEntries`, `Contended` or `HeadSpent`. Cache
    /// and hand are then as before.
    ///
    /// After rte_mempool.h, `rte_mempool_get` (DPDK 21.11), with the rules of `get_bulk`.
    #[inline(always)]
    pub fn get_one<C: Commons>(&mut self, c: &mut C) -> Result<u32, Refusal>
        requires limits { (C.side c.old).limits ≡ self.old.limits }
        ensures calls { Calls C.did C.side c.old c.new (λ calls.
            Gets self.old.limits self.old.cache 1 calls (as_list result) self.new.cache) }
        ensures hand { IfOk result
            (λ e. (i : ℕ) → (C.side c.new).hand i + bag self.old.cache i
            ≡ (C.side c.old).hand i + bag self.new.cache i + one e i) }
        ensures refused { OnErr result (C.side c.new ≡ C.side c.old) }
        ensures cache_err { OnErr result (self.new.cache ≡ self.old.cache) }
        ensures holds { (C.side c.new).holds ≡ (C.side c.old).holds }
        ensures headers { (C.side c.new).headers ≡ (C.side c.old).headers }
        ensures limits { (C.side c.new).limits ≡ (C.side c.old).limits }
        ensures number { KeepsNumber self.old self.new }
    {
        if self.limits.cache <= 1 {
            return self.get_direct(c);
        }
        if !self.cache.is_empty() {
            let mut out = [0u32; 1];
            steps::take_last(&mut self.cache, &mut out);
            return Ok(out[0]);
        }
        self.get_list_of_one(c)
    }

    /// Gets one element from the common stack, where the cache keeps one at most.
    #[inline(always)]
    fn get_direct<C: Commons>(&self, c: &mut C) -> Result<u32, Refusal>
        requires limits { (C.side c.old).limits ≡ self.now.limits }
        requires small { self.now.limits.cache ≤ 1 }
        ensures { Got C.did C.side 1 as_list one self.now c.old result self.now c.new }
    {
        let mut out = [0u32; 1];
        match c.get_list(&mut out) {
            Ok(()) => Ok(out[0]),
            Err(cause) => Err(cause),
        }
    }

    /// Gets one element as a list of one.
    #[inline(always)]
    fn get_list_of_one<C: Commons>(&mut self, c: &mut C) -> Result<u32, Refusal>
        requires limits { (C.side c.old).limits ≡ self.old.limits }
        ensures { Got C.did C.side 1 as_list one self.old c.old result self.new c.new }
    {
        let mut out = [0u32; 1];
        match self.get_apart(c, &mut out) {
            Ok(()) => Ok(out[0]),
            Err(cause) => Err(cause),
        }
    }

    /// `get_bulk` in a function of its own, so that what inlines a get of one element stays small.
    #[inline(never)]
    fn get_apart<C: Commons>(&mut self, c: &mut C, out: &mut [u32]) -> Result<(), Refusal>
        requires limits { (C.side c.old).limits ≡ self.old.limits }
        ensures { Got C.did C.side (length out.old) (λ answer. with_list answer out.new) (λ _. bag out.new)
            self.old c.old result self.new c.new }
    {
        self.get_bulk(c, out)
    }

    /// Puts distinct elements of the hand, none of which is in the cache, into the cache, or some
    /// of them and of the cache onto the common stack, by the pool's rule. By either a list of more
    /// than 512 goes there past the cache, and an empty put takes no step.
    ///
    /// - `PutRule::Keep`: from the threshold on all beyond the cache's size goes to the stack.
    /// - `PutRule::Whole`: a list that is longer than the threshold goes past the cache too. Where
    ///   cache and list would pass the threshold, the whole cache goes to the stack, and the list
    ///   becomes the cache.
    ///
    /// Where the stack refuses (`HeadSpent` or `Contended`, the cause in `PutOff`), the list comes
    /// after the cache, which keeps all, and the next flush offers them again.
    ///
    /// After rte_mempool.h, `rte_mempool_do_generic_put`: `Keep` as in DPDK 21.11, `Whole` as in
    /// DPDK 22.11. Its stack can't refuse.
    #[inline(always)]
    #[tactic(auto, using(commons::proofs::Bags::bags))]
    pub fn put_bulk<C: Commons>(&mut self, c: &mut C, list: &[u32]) -> Put
        requires limits { (C.side c.old).limits ≡ self.old.limits }
        requires in_hand { (i : ℕ) → bag self.old.cache i + bag list.now i ≤ (C.side c.old).hand i }
        ensures calls { Calls C.did C.side c.old c.new (λ calls.
            Puts self.old.limits self.old.cache list.now calls result self.new.cache) }
        ensures few { put_count result ≤ self.old.limits.population }
        ensures hand { (i : ℕ) → (C.side c.new).hand i + bag self.old.cache i + bag list.now i
            ≡ (C.side c.old).hand i + bag self.new.cache i }
        ensures holds { (C.side c.new).holds ≡ (C.side c.old).holds }
        ensures headers { (C.side c.new).headers ≡ (C.side c.old).headers }
        ensures limits { (C.side c.new).limits ≡ (C.side c.old).limits }
        ensures number { KeepsNumber self.old self.new }
    {
        let count = list.len();
        if count == 0 {
            return Put::Kept;
        }
        steps::room(c, &self.cache, list);
        let size = self.limits.cache as usize;
        let len = self.cache.len();
        if count > MAX_CACHE as usize {
            return steps::put_past(&mut self.cache, c, list);
        }
        if len + count < self.flush_length {
            steps::append(&mut self.cache, list);
            return Put::Kept;
        }
        if size == 0 && len == 0 {
            // All of the list goes to the stack: it need not pass through the cache.
            return steps::put_past(&mut self.cache, c, list);
        }
        steps::append(&mut self.cache, list);
        steps::overflow(&mut self.cache, c, len, &self.limits)
    }

    /// Puts the whole cache onto the common stack in one push. An empty cache takes no step.
    ///
    /// After rte_mempool.h, `rte_mempool_cache_flush` (DPDK 21.11).
    #[tactic(auto, using(commons::proofs::Bags::bags))]
    pub fn flush<C: Commons>(&mut self, c: &mut C) -> Put
        requires limits { (C.side c.old).limits ≡ self.old.limits }
        requires in_hand { (i : ℕ) → bag self.old.cache i ≤ (C.side c.old).hand i }
        ensures calls { Calls C.did C.side c.old c.new (λ calls.
            Flushes self.old.cache calls result self.new.cache) }
        ensures hand { (i : ℕ) → (C.side c.new).hand i + bag self.old.cache i
            ≡ (C.side c.old).hand i + bag self.new.cache i }
        ensures holds { (C.side c.new).holds ≡ (C.side c.old).holds }
        ensures headers { (C.side c.new).headers ≡ (C.side c.old).headers }
        ensures limits { (C.side c.new).limits ≡ (C.side c.old).limits }
        ensures number { KeepsNumber self.old self.new }
    {
        if self.cache.is_empty() {
            return Put::Kept;
        }
        steps::room(c, &self.cache, &[]);
        steps::flush_beyond(&mut self.cache, c, 0)
    }
}

/// The least length from which a cache of this size is flushed: where it keeps its size the
/// threshold, if that is more than the size, and where it goes whole the first past the threshold.
fn flush_length(rule: PutRule, size: usize) -> usize
    requires { size ≤ max_cache }
    ensures { IsFlushLength rule size result }
{
    match rule {
        PutRule::Keep => (size * 3 / 2).max(size + 1),
        PutRule::Whole => size * 3 / 2 + 1,
    }
}
