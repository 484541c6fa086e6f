//! A worker of a pool of values, with the depot that it is at.

ghost use Rattle.std.specs.Prelude.{◌≡◌, ◌≢◌, ◌↔◌, ◌∷◌, ◌-◌, ◌≤◌, ◌<◌, ℕ, true, false, None, Ok, [], length, IfOk, IfErr, IfSome};
ghost use Rattle.commons.specs.Bag.{bag};
ghost use Rattle.commons.specs.Refusals.{number_of as number_in};
ghost use Rattle.commons.specs.declared.refusal.Refusal.TheVariants.{StrangerShare};
ghost use Rattle.depot.specs.Lending.{AreOf, AreOnce, GetsCount, GetsLoans, KeepsAll, PutsCount, PutsLoans, SameLoans, cached, count_of, elements, lent_list, log_of};
ghost use Rattle.depot.specs.Seats.{IsCause, Logs};
ghost use Rattle.mbufpool_c.specs.Pools.{IsFirst, IsNoPool, RefusesPool, all_values, number_of_cause, number_of_refusal};

use commons::refusal::Refusal;
use depot::cause::{Cause, Refusal as NoWorker};
use depot::depot::Depot;
use depot::loans::Loans;
use depot::opening::{Size, size_for};
use depot::worker::Worker;
use std::alloc::Global;
use std::marker::Model;
use std::sync::Arc;

/// The status of a call for which no empty magazine is at the depot.
pub const NO_MAGAZINE: u32 = 30;

/// The number of a cause.
#[inline(always)]
pub(crate) fn number(cause: Cause) -> u32
    ensures { result ≡ number_of_cause cause }
{
    match cause {
        Cause::NoEntries => Refusal::NoEntries.number(),
        Cause::Contended => Refusal::Contended.number(),
        Cause::HeadSpent => Refusal::HeadSpent.number(),
        Cause::NoMagazine => NO_MAGAZINE,
    }
}

/// The number of the refusal to make a worker, which is no stranger's.
pub(crate) fn number_of_worker(refusal: NoWorker) -> u32
    ensures is { result ≡ number_of_refusal refusal }
    ensures refused { result ≢ 0 }
    ensures other { result ≢ number_in StrangerShare }
{
    match refusal {
        NoWorker::Memory => Refusal::OutOfMemory.number(),
        NoWorker::Cause(cause) => number(cause),
    }
}

/// A worker, with the depot that it is at, which is freed with the last of its workers. It can be
/// sent to a thread. One that is dropped gives what it has to the depot first, as far as that takes
/// it.
pub struct PoolWorker {
    depot: Arc<Depot>,
    worker: Worker,
    /// How many more workers can be made of it.
    left: u32,
    /// How many magazines the depot has.
    magazines: u16,
    /// So that no two workers, side by side, are in one cache line.
    apart: [u64; 16],
}

impl Model for PoolWorker {
    ghost use Rattle.mbufpool_c.specs.Pools.{Pooled};

    ghost Value = { Pooled };

    ghost use Rattle.mbufpool_c.specs.KeptPool.{pooled_of, IsKept};

    ghost view = { pooled_of };

    ghost invariant = { IsKept };
}

impl Drop for PoolWorker {
    fn drop(self) {
        let PoolWorker {
            depot,
            worker,
            left: _,
            magazines: _,
            apart: _,
        } = self;
        worker.end(&depot);
        drop(depot);
    }
}

/// How large the depot of a pool is, where there is such a pool.
fn size_in(values: u64, workers: u32, tries: u32) -> Option<Size>
    ensures none { (result ≡ None) ↔ IsNoPool values workers tries }
    ensures few { IfSome result (λ size. (size.magazines < 65535) × (0 < size.rounds) ×
        (size.rounds ≤ 128)) }
{
    if tries == 0 {
        return None;
    }
    size_for(values, workers)
}

/// A depot of this size, with its first worker, and loans of all values but the greatest. Nothing
/// is made where memory was refused.
fn begun(alloc: Global, size: Size, workers: u32, tries: u32) -> Option<(PoolWorker, Loans)>
    requires few { (size.magazines < 65535) × (0 < size.rounds) × (size.rounds ≤ 128) }
    ensures loans { IfSome result (λ made. AreOf made.0.site made.1) }
    ensures all { IfSome result (λ made. (i : ℕ) → i < all_values → bag (elements made.1) i ≡ 1) }
    ensures first { IfSome result (λ made. IsFirst workers tries made.0) }
{
    let Ok((depot, mut loans)) = Depot::make(alloc, u64::MAX, size, tries) else {
        return None;
    };
    let Ok(worker) = depot.worker(alloc, &mut loans) else {
        return None;
    };
    match Arc::new(alloc, depot) {
        Ok(depot) => Some((
            PoolWorker {
                depot,
                worker,
                left: workers.saturating_sub(1),
                magazines: size.magazines,
                apart: [0; 16],
            },
            loans,
        )),
        Err(failed) => {
            worker.lose();
            drop(failed.value);
            None
        }
    }
}

impl PoolWorker {
    /// Makes a pool without values, and its first worker, and lends all values but the greatest.
    ///
    /// Refused `BadPool` where `tries` is 0 or no depot is of such a size, and `OutOfMemory` where
    /// memory was refused.
    pub fn open(
        alloc: Global,
        values: u64,
        workers: u32,
        tries: u32,
    ) -> Result<(Box<PoolWorker>, Loans), Refusal>
        ensures loans { IfOk result (λ made. AreOf made.0.value.site made.1) }
        ensures all { IfOk result (λ made. (i : ℕ) → i < all_values → bag (elements made.1) i ≡ 1) }
        ensures first { IfOk result (λ made. IsFirst workers tries made.0.value) }
        ensures cause { IfErr result (λ cause. RefusesPool values workers tries (number_in cause)) }
    {
        let Some(size) = size_in(values, workers, tries) else {
            return Err(Refusal::BadPool);
        };
        let Some((worker, loans)) = begun(alloc, size, workers, tries) else {
            return Err(Refusal::OutOfMemory);
        };
        match Box::new(alloc, worker) {
            Ok(worker) => Ok((worker, loans)),
            Err(failed) => {
                drop(failed.value);
                Err(Refusal::OutOfMemory)
            }
        }
    }

    /// One more worker at the same depot, and loans of nothing for it. Refused with a status.
    fn another(&self, alloc: Global, loans: &mut Loans) -> Result<(Box<PoolWorker>, Loans), u32>
        requires loans { AreOf self.now.site loans.old }
        ensures loans { AreOf self.now.site loans.new }
        ensures same { SameLoans loans.old loans.new }
        ensures made { IfOk result (λ made. (made.0.value.site ≡ self.now.site)
            × (cached made.0.value.worker ≡ []) × (made.0.value.left ≡ 0)) }
        ensures others { IfOk result (λ made. AreOf self.now.site made.1 × (elements made.1 ≡ [])) }
        ensures status { IfErr result (λ status. (status ≢ 0) × (status ≢ number_in StrangerShare)) }
    {
        let Ok(depot) = Arc::try_clone(&self.depot) else {
            return Err(Refusal::OutOfMemory.number());
        };
        match self.depot.worker(alloc, loans) {
            Ok(worker) => {
                let others = self.depot.no_loans(loans);
                let other = PoolWorker {
                    depot,
                    worker,
                    left: 0,
                    magazines: self.magazines,
                    apart: [0; 16],
                };
                match Box::new(alloc, other) {
                    Ok(other) => Ok((other, others)),
                    Err(failed) => {
                        drop(failed.value);
                        Err(Refusal::OutOfMemory.number())
                    }
                }
            }
            Err(refusal) => Err(number_of_worker(refusal)),
        }
    }

    /// Makes one more worker at the same depot, and loans of nothing for it.
    ///
    /// Refused `StrangerShare` where no more can be made, `OutOfMemory` where memory was refused or
    /// there are too many owners, and as a take of an empty magazine is.
    pub fn split(
        &mut self,
        alloc: Global,
        loans: &mut Loans,
    ) -> Result<(Box<PoolWorker>, Loans), u32>
        requires loans { AreOf self.old.site loans.old }
        ensures loans { AreOf self.old.site loans.new }
        ensures same { SameLoans loans.old loans.new }
        ensures made { IfOk result (λ made. (made.0.value.site ≡ self.old.site)
            × (cached made.0.value.worker ≡ []) × (made.0.value.left ≡ 0)) }
        ensures others { IfOk result (λ made. AreOf self.old.site made.1 × (elements made.1 ≡ [])) }
        ensures less { IfOk result (λ _. (0 < self.old.left)
            × (self.new ≡ record self.old { left = self.old.left - 1 })) }
        ensures kept { IfErr result (λ _. self.new ≡ self.old) }
        ensures status { IfErr result (λ status. status ≢ 0) }
        ensures stranger { IfErr result (λ status. self.old.left ≡ 0 → status ≡ number_in
            StrangerShare) }
        ensures other { IfErr result (λ status. 0 < self.old.left → status ≢ number_in
            StrangerShare) }
    {
        if self.left == 0 {
            return Err(Refusal::StrangerShare.number());
        }
        match self.another(alloc, loans) {
            Ok(made) => {
                self.left -= 1;
                Ok(made)
            }
            Err(status) => Err(status),
        }
    }

    /// Gives all values in the worker's magazines to the depot.
    pub fn flush(&mut self) -> Result<(), Cause>
        ensures empty { IfOk result (λ _. length (cached self.new.worker) ≡ 0) }
        ensures cause { IfErr result (λ cause. IsCause self.old.site.tries cause (log_of
            self.old.worker)
            (log_of self.new.worker)) }
        ensures logs { Logs (log_of self.old.worker) (log_of self.new.worker) }
        ensures count { count_of self.new.worker ≡ count_of self.old.worker }
        ensures same { (self.new.site ≡ self.old.site) × (self.new.left ≡ self.old.left) }
    {
        self.worker.flush(&self.depot)
    }

    /// What the worker's calls have put less what they got, modulo 2^64.
    pub fn count(&self) -> u64
        ensures { result ≡ count_of self.now.worker }
    {
        self.worker.count()
    }

    /// Where the magazine in front lies, for readers of memory.
    pub fn front_address(&mut self) -> *mut u8
        ensures same { (self.new.site ≡ self.old.site) × (self.new.left ≡ self.old.left) }
        ensures cached { cached self.new.worker ≡ cached self.old.worker }
        ensures count { count_of self.new.worker ≡ count_of self.old.worker }
    {
        self.worker.front_address(&self.depot)
    }

    /// The number of the magazine in front, from 0, and how many there are, side by side.
    pub fn front_number(&self) -> (u64, u64) {
        (self.worker.front_number(), self.magazines as u64)
    }

    /// Gets a list off the magazine at hand, and lends it. Says whether it did: where that has
    /// fewer, nothing has changed, and `get` may find them elsewhere.
    #[inline(always)]
    pub fn get_at_hand(&mut self, out: &mut [u64], loans: &mut Loans) -> bool
        requires loans { AreOf self.old.site loans.old }
        ensures loans { AreOf self.old.site loans.new }
        ensures all { KeepsAll (log_of self.old.worker) loans.old (log_of self.new.worker) loans.new }
        ensures once { result ≡ true → AreOnce self.old.site loans.new }
        ensures got { result ≡ true → GetsLoans self.old.site.tries (Ok out.new) self.old.worker
            loans.old self.new.worker loans.new }
        ensures count { result ≡ true → GetsCount (Ok out.new) self.old.worker self.new.worker }
        ensures same { (self.new.site ≡ self.old.site) × (self.new.left ≡ self.old.left) }
        ensures not { result ≡ false → (self.new ≡ self.old) × (loans.new ≡ loans.old) }
    {
        self.worker.get_at_hand(&self.depot, out, loans)
    }

    /// Gets the last value of the magazine at hand, and lends it. `None` where that has none: then
    /// nothing has changed, and `get_one` may find one elsewhere.
    #[inline(always)]
    pub fn get_one_at_hand(&mut self, loans: &mut Loans) -> Option<u64>
        requires loans { AreOf self.old.site loans.old }
        ensures loans { AreOf self.old.site loans.new }
        ensures all { KeepsAll (log_of self.old.worker) loans.old (log_of self.new.worker) loans.new }
        ensures once { IfSome result (λ _. AreOnce self.old.site loans.new) }
        ensures got { IfSome result (λ x. GetsLoans self.old.site.tries (Ok (x ∷ [])) self.old.worker
            loans.old self.new.worker loans.new) }
        ensures count { IfSome result (λ x. GetsCount (Ok (x ∷ [])) self.old.worker
            self.new.worker) }
        ensures same { (self.new.site ≡ self.old.site) × (self.new.left ≡ self.old.left) }
        ensures none { result ≡ None → (self.new ≡ self.old) × (loans.new ≡ loans.old) }
    {
        self.worker.get_one_at_hand(&self.depot, loans)
    }

    /// Puts a list of values that are lent into the magazine at hand. Says whether it did: where
    /// that has no room for them, nothing has changed, and `put` may find room elsewhere.
    #[inline(always)]
    pub fn put_at_hand(&mut self, list: &[u64], loans: &mut Loans) -> bool
        requires loans { AreOf self.old.site loans.old }
        requires lent { (i : ℕ) → bag list.now i ≤ bag (elements loans.old) i }
        ensures loans { AreOf self.old.site loans.new }
        ensures all { KeepsAll (log_of self.old.worker) loans.old (log_of self.new.worker) loans.new }
        ensures once { result ≡ true → AreOnce self.old.site loans.new }
        ensures put { result ≡ true → PutsLoans self.old.site.tries list.now (Ok tt)
            self.old.worker loans.old self.new.worker loans.new }
        ensures count { result ≡ true → PutsCount list.now (Ok tt) self.old.worker
            self.new.worker }
        ensures same { (self.new.site ≡ self.old.site) × (self.new.left ≡ self.old.left) }
        ensures not { result ≡ false → (self.new ≡ self.old) × (loans.new ≡ loans.old) }
    {
        self.worker.put_at_hand(&self.depot, list, loans)
    }

    /// Puts a value that is lent into the magazine at hand. Says whether it did, as `put_at_hand`
    /// does.
    #[inline(always)]
    pub fn put_one_at_hand(&mut self, value: u64, loans: &mut Loans) -> bool
        requires loans { AreOf self.old.site loans.old }
        requires lent { (i : ℕ) → bag (value ∷ []) i ≤ bag (elements loans.old) i }
        ensures loans { AreOf self.old.site loans.new }
        ensures all { KeepsAll (log_of self.old.worker) loans.old (log_of self.new.worker) loans.new }
        ensures once { result ≡ true → AreOnce self.old.site loans.new }
        ensures put { result ≡ true → PutsLoans self.old.site.tries (value ∷ []) (Ok tt)
            self.old.worker loans.old self.new.worker loans.new }
        ensures count { result ≡ true → PutsCount (value ∷ []) (Ok tt) self.old.worker
            self.new.worker }
        ensures same { (self.new.site ≡ self.old.site) × (self.new.left ≡ self.old.left) }
        ensures not { result ≡ false → (self.new ≡ self.old) × (loans.new ≡ loans.old) }
    {
        self.worker.put_one_at_hand(&self.depot, value, loans)
    }

    /// Gets as many values as `out` has places, and lends them: all of them, or none.
    #[inline(always)]
    pub fn get(&mut self, out: &mut [u64], loans: &mut Loans) -> Result<(), Cause>
        requires loans { AreOf self.old.site loans.old }
        ensures loans { AreOf self.old.site loans.new }
        ensures all { KeepsAll (log_of self.old.worker) loans.old (log_of self.new.worker) loans.new }
        ensures once { AreOnce self.old.site loans.new }
        ensures got { GetsLoans self.old.site.tries (lent_list result out.new) self.old.worker
            loans.old
            self.new.worker loans.new }
        ensures count { GetsCount (lent_list result out.new) self.old.worker self.new.worker }
        ensures same { (self.new.site ≡ self.old.site) × (self.new.left ≡ self.old.left) }
    {
        self.worker.get(&self.depot, out, loans)
    }

    /// Gets one value, and lends it. Where it is refused, what was there stays.
    #[inline(always)]
    pub fn get_one(&mut self, out: &mut u64, loans: &mut Loans) -> Result<(), Cause>
        requires loans { AreOf self.old.site loans.old }
        ensures loans { AreOf self.old.site loans.new }
        ensures all { KeepsAll (log_of self.old.worker) loans.old (log_of self.new.worker) loans.new }
        ensures once { AreOnce self.old.site loans.new }
        ensures got { GetsLoans self.old.site.tries (lent_list result (out.new ∷ []))
            self.old.worker loans.old
            self.new.worker loans.new }
        ensures count { GetsCount (lent_list result (out.new ∷ [])) self.old.worker self.new.worker }
        ensures kept { IfErr result (λ _. out.new ≡ out.old) }
        ensures same { (self.new.site ≡ self.old.site) × (self.new.left ≡ self.old.left) }
    {
        match self.worker.get_one(&self.depot, loans) {
            Ok(value) => {
                *out = value;
                Ok(())
            }
            Err(cause) => Err(cause),
        }
    }

    /// Puts a list of values that are lent, whichever workers got them: all of them, or none.
    #[inline(always)]
    pub fn put(&mut self, list: &[u64], loans: &mut Loans) -> Result<(), Cause>
        requires loans { AreOf self.old.site loans.old }
        requires lent { (i : ℕ) → bag list.now i ≤ bag (elements loans.old) i }
        ensures loans { AreOf self.old.site loans.new }
        ensures all { KeepsAll (log_of self.old.worker) loans.old (log_of self.new.worker) loans.new }
        ensures once { AreOnce self.old.site loans.new }
        ensures put { PutsLoans self.old.site.tries list.now result self.old.worker loans.old
            self.new.worker loans.new }
        ensures count { PutsCount list.now result self.old.worker self.new.worker }
        ensures same { (self.new.site ≡ self.old.site) × (self.new.left ≡ self.old.left) }
    {
        self.worker.put(&self.depot, list, loans)
    }

    /// Puts a value that is lent, whichever worker got it.
    #[inline(always)]
    pub fn put_one(&mut self, value: u64, loans: &mut Loans) -> Result<(), Cause>
        requires loans { AreOf self.old.site loans.old }
        requires lent { (i : ℕ) → bag (value ∷ []) i ≤ bag (elements loans.old) i }
        ensures loans { AreOf self.old.site loans.new }
        ensures all { KeepsAll (log_of self.old.worker) loans.old (log_of self.new.worker) loans.new }
        ensures once { AreOnce self.old.site loans.new }
        ensures put { PutsLoans self.old.site.tries (value ∷ []) result self.old.worker loans.old
            self.new.worker loans.new }
        ensures count { PutsCount (value ∷ []) result self.old.worker self.new.worker }
        ensures same { (self.new.site ≡ self.old.site) × (self.new.left ≡ self.old.left) }
    {
        self.worker.put_one(&self.depot, value, loans)
    }
}
