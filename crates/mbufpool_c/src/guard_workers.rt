//! A worker of a guarded pool, with the depot that it is at.

ghost use Rattle.std.specs.Prelude.{◌≡◌, ◌≢◌, ◌↔◌, ◌∷◌, ◌-◌, ◌≤◌, ◌<◌, None, Ok, [], length, take, IfOk, IfErr, IfSome, IsNone, IsTrue, IsFalse, MatchOption};
ghost use Rattle.commons.specs.Refusals.{number_of as number_in};
ghost use Rattle.commons.specs.declared.refusal.Refusal.TheVariants.{StrangerShare};
ghost use Rattle.depot.specs.Rolls.{IsRoll};
ghost use Rattle.guard.specs.Guards.{Counted, IsGuarded, PutsAll, Since, Still, StopsAt, count_of, kept_by, resting_of, view_of};
ghost use Rattle.mbufpool_c.specs.Guarded.{Flushed, Got, GotOne, IsFirst, IsNoGuard, PutOne, RefusesGuard, SameGuard, with_stale};
ghost use Rattle.mbufpool_c.specs.Pools.{number_of_refusal};

use crate::pool_workers::number_of_worker;
use commons::refusal::Refusal;
use depot::cause::{Cause, Refusal as NoWorker};
use depot::depot::Depot;
use depot::opening::{Size, size_for};
use depot::roll::Roll;
use guard::opening::{Keeping, make_guarded, make_worker};
use guard::refusal::NotPut;
use guard::worker::GuardWorker;
use std::alloc::Global;
use std::marker::Model;
use std::sync::Arc;

/// How many elements a guarded pool has at most.
const MOST_ELEMENTS: u32 = 16_777_214;

/// How many a worker keeps in its list at most, besides those that wait.
const MOST_KEPT: u32 = 512;

/// How many wait at a worker at most.
const MOST_WAITING: u32 = 1_048_576;

/// How many workers can be made of a pool at most.
const MOST_WORKERS: u32 = 1_024;

/// How many lost exchanges a call makes at most.
const MOST_TRIES: u32 = 1_000_000;

/// A worker of a guarded pool, with the depot that it is at, which is freed with the last of its
/// workers. It can be sent to a thread. One that is dropped gives what it keeps to the depot first,
/// as far as that takes it.
pub struct OwnGuard {
    depot: Arc<Depot>,
    worker: GuardWorker,
    /// What numbers the workers that are made of it: the pool's first worker has it.
    roll: Option<Roll>,
    /// How many more workers can be made of it.
    left: u32,
    keeping: Keeping,
    /// So that no two workers, side by side, are in one cache line.
    apart: [u64; 16],
}

impl Model for OwnGuard {
    ghost use Rattle.mbufpool_c.specs.Guarded.{Guarded};

    ghost Value = { Guarded };

    ghost use Rattle.mbufpool_c.specs.KeptGuard.{guarded_of, IsKept};

    ghost view = { guarded_of };

    ghost invariant = { IsKept };
}

impl Drop for OwnGuard {
    fn drop(self) {
        let OwnGuard {
            depot,
            worker,
            roll,
            left: _,
            keeping: _,
            apart: _,
        } = self;
        worker.end(&depot);
        drop(roll);
        drop(depot);
    }
}

/// How large the depot of a guarded pool is, where there is such a pool.
fn size_in(population: u32, cache: u32, waiting: u32, workers: u32, tries: u32) -> Option<Size>
    ensures none { (result ≡ None) ↔ IsNoGuard population cache waiting workers tries }
    ensures few { IfSome result (λ size. (size.magazines < 65535) × (0 < size.rounds) ×
        (size.rounds ≤ 128)) }
    ensures cache { IfSome result (λ _. cache ≤ 512) }
{
    if population == 0 || population > MOST_ELEMENTS {
        return None;
    }
    if cache > MOST_KEPT || waiting > MOST_WAITING {
        return None;
    }
    if workers == 0 || workers > MOST_WORKERS {
        return None;
    }
    if tries == 0 || tries > MOST_TRIES {
        return None;
    }
    size_for(u64::from(population), workers)
}

/// A depot of this size, with all elements in it, and its first worker. Nothing is made where memory
/// was refused, or the depot refused what was to be in it.
fn begun(
    alloc: Global,
    population: u32,
    size: Size,
    keeping: Keeping,
    workers: u32,
    tries: u32,
) -> Result<OwnGuard, NoWorker>
    requires few { (size.magazines < 65535) × (0 < size.rounds) × (size.rounds ≤ 128) }
    ensures first { IfOk result (IsFirst population workers tries) }
{
    let (depot, worker, roll) = make_guarded(alloc, population, size, keeping, tries)?;
    match Arc::new(alloc, depot) {
        Ok(depot) => Ok(OwnGuard {
            depot,
            worker,
            roll: Some(roll),
            left: workers.saturating_sub(1),
            keeping,
            apart: [0; 16],
        }),
        Err(failed) => {
            worker.lose();
            drop(roll);
            drop(failed.value);
            Err(NoWorker::Memory)
        }
    }
}

impl OwnGuard {
    /// Makes a guarded pool, all its elements in it, and its first worker. Refused with a status:
    /// `BadPool` where there is no pool of such a size, else of memory or of the depot.
    pub fn open(
        alloc: Global,
        population: u32,
        cache: u32,
        waiting: u32,
        workers: u32,
        tries: u32,
    ) -> Result<Box<OwnGuard>, u32>
        ensures first { IfOk result (λ made. IsFirst population workers tries made.value) }
        ensures refused { IfErr result (λ status. status ≢ 0) }
        ensures cause { IfErr result (RefusesGuard population cache waiting workers tries) }
    {
        let Some(size) = size_in(population, cache, waiting, workers, tries) else {
            return Err(Refusal::BadPool.number());
        };
        let keeping = Keeping {
            cache: cache as u16,
            waiting,
        };
        match begun(alloc, population, size, keeping, workers, tries) {
            Ok(worker) => match Box::new(alloc, worker) {
                Ok(worker) => Ok(worker),
                Err(failed) => {
                    drop(failed.value);
                    Err(number_of_worker(NoWorker::Memory))
                }
            },
            Err(refusal) => Err(number_of_worker(refusal)),
        }
    }

    /// One more worker at the same depot, with a number of the roll.
    fn another(&self, alloc: Global, roll: &mut Roll) -> Result<Box<OwnGuard>, NoWorker>
        requires guarded { IsGuarded self.now.site }
        requires roll { IsRoll self.now.site roll.old }
        ensures roll { IsRoll self.now.site roll.new }
        ensures made { IfOk result (λ made. (made.value.site ≡ self.now.site)
            × (kept_by made.value.worker ≡ 0) × (count_of made.value.worker ≡ 0)
            × (made.value.left ≡ 0)) }
    {
        let Ok(depot) = Arc::try_clone(&self.depot) else {
            return Err(NoWorker::Memory);
        };
        match make_worker(alloc, &self.depot, roll, self.keeping) {
            Ok(worker) => {
                let other = OwnGuard {
                    depot,
                    worker,
                    roll: None,
                    left: 0,
                    keeping: self.keeping,
                    apart: [0; 16],
                };
                match Box::new(alloc, other) {
                    Ok(other) => Ok(other),
                    Err(failed) => {
                        drop(failed.value);
                        Err(NoWorker::Memory)
                    }
                }
            }
            Err(refusal) => Err(refusal),
        }
    }

    /// Makes one more worker at the same depot. Refused with a status: of a stranger where no more
    /// can be made, else of memory or of the depot.
    pub fn split(&mut self, alloc: Global) -> Result<Box<OwnGuard>, u32>
        ensures made { IfOk result (λ made. (made.value.site ≡ self.old.site)
            × (kept_by made.value.worker ≡ 0) × (count_of made.value.worker ≡ 0)
            × (made.value.left ≡ 0)) }
        ensures less { IfOk result (λ _. (0 < self.old.left)
            × (self.new ≡ record self.old { left = self.old.left - 1 })) }
        ensures kept { IfErr result (λ _. self.new ≡ self.old) }
        ensures refused { IfErr result (λ status. status ≢ 0) }
        ensures stranger { IfErr result (λ status. self.old.left ≡ 0 → status ≡ number_in
            StrangerShare) }
        ensures other { IfErr result (λ status. 0 < self.old.left →
            (refusal : NoWorker) × (status ≡ number_of_refusal refusal)) }
    {
        if self.left == 0 {
            return Err(Refusal::StrangerShare.number());
        }
        match self.roll.take() {
            None => Err(Refusal::StrangerShare.number()),
            Some(mut roll) => {
                let made = self.another(alloc, &mut roll);
                self.roll = Some(roll);
                match made {
                    Ok(other) => {
                        self.left -= 1;
                        Ok(other)
                    }
                    Err(refusal) => Err(number_of_worker(refusal)),
                }
            }
        }
    }

    /// Gets the last element that the worker keeps, where that needs no other step.
    #[inline(always)]
    pub fn get_at_hand(&mut self) -> Option<u32>
        ensures got { IfSome result (λ e. GotOne self.old.site e (Ok tt) self.old.worker
            self.new.worker) }
        ensures not { IsNone result → Still (resting_of self.old.worker) (resting_of
            self.new.worker) }
        ensures since { Since self.old.worker self.new.worker }
        ensures same { SameGuard self.old self.new }
    {
        self.worker.get_at_hand(&self.depot)
    }

    /// Puts an element that is out with the worker, where that needs no other step, and says whether
    /// it did.
    #[inline(always)]
    pub fn put_at_hand(&mut self, element: u32) -> bool
        ensures put { IsTrue result → PutOne self.old.site element (Ok tt) self.old.worker
            self.new.worker }
        ensures not { IsFalse result → Still (resting_of self.old.worker) (resting_of
            self.new.worker) }
        ensures since { Since self.old.worker self.new.worker }
        ensures same { SameGuard self.old self.new }
    {
        self.worker.put_at_hand(&self.depot, element)
    }

    /// Gets as many elements as `out` has places: all of them, or none.
    #[inline(always)]
    pub fn get(&mut self, out: &mut [u32]) -> Result<(), Cause>
        ensures got { Got self.old.site out.new result self.old.worker self.new.worker }
        ensures since { Since self.old.worker self.new.worker }
        ensures same { SameGuard self.old self.new }
    {
        self.worker.get(&self.depot, out)
    }

    /// Gets one element. Where it is refused, what was there stays.
    #[inline(always)]
    pub fn get_one(&mut self, out: &mut u32) -> Result<(), Cause>
        ensures got { GotOne self.old.site out.new result self.old.worker self.new.worker }
        ensures kept { IfErr result (λ _. out.new ≡ out.old) }
        ensures since { Since self.old.worker self.new.worker }
        ensures same { SameGuard self.old self.new }
    {
        match self.worker.get_one(&self.depot) {
            Ok(element) => {
                *out = element;
                Ok(())
            }
            Err(cause) => Err(cause),
        }
    }

    /// Puts a list of whatever numbers, until one is refused, and says how many were put.
    #[inline(always)]
    pub fn put(&mut self, list: &[u32]) -> (usize, Result<(), NotPut>)
        ensures most { result.0 ≤ length list.now }
        ensures puts { PutsAll (take result.0 list.now) (resting_of self.old.worker) (resting_of
            self.new.worker) }
        ensures stops { StopsAt self.old.site list.now result.0 result.1 (view_of self.old.worker)
            (view_of self.new.worker) }
        ensures since { Since self.old.worker self.new.worker }
        ensures same { SameGuard self.old self.new }
    {
        self.worker.put(&self.depot, list)
    }

    /// Puts whatever number, where it is out.
    #[inline(always)]
    pub fn put_one(&mut self, element: u32) -> Result<(), NotPut>
        ensures put { PutOne self.old.site element result self.old.worker self.new.worker }
        ensures since { Since self.old.worker self.new.worker }
        ensures same { SameGuard self.old self.new }
    {
        self.worker.put_one(&self.depot, element)
    }

    /// Gives all that the worker keeps to the depot.
    pub fn flush(&mut self) -> Result<(), Cause>
        ensures flushed { Flushed self.old.site.tries result self.old.worker self.new.worker }
        ensures still { Still (resting_of self.old.worker) (resting_of self.new.worker) }
        ensures since { Since self.old.worker self.new.worker }
        ensures same { SameGuard self.old self.new }
    {
        self.worker.flush(&self.depot)
    }

    /// What the worker's calls have put less what they got, modulo 2^64.
    pub fn count(&self) -> u64
        ensures count { result ≡ count_of self.now.worker }
        ensures counted { Counted result (resting_of self.now.worker) }
    {
        self.worker.count()
    }

    /// The number of an entry that was found stale and not told yet, the oldest first.
    pub fn next_stale(&mut self) -> Option<u32>
        ensures { MatchOption result ((self.old.worker.stale ≡ []) × (self.new ≡ self.old)) (λ e.
            self.old.worker.stale ≡ e ∷ self.new.worker.stale
            × (self.new ≡ with_stale self.old self.new.worker.stale)) }
    {
        self.worker.next_stale()
    }
}
