//! A pool that threads share under a lock.

ghost use Rattle.std.specs.Prelude.{ℕ, ◌≡◌, List, map, IfOk, IfErr};
ghost use Rattle.std.specs.List.{range_with_len};
ghost use Rattle.book.specs.Left.{IsLeftWhole};
ghost use Rattle.commons.specs.Bounds.{IsPool};
ghost use Rattle.commons.specs.Lists.{IsMakeCause};
ghost use Rattle.commons.specs.declared.limits.Limits.{Limits};
ghost use Rattle.mbuf.specs.Acts.{HasRoom};
ghost use Rattle.mbuf.specs.declared.acts.Act.{Act};
ghost use Rattle.pool_model.specs.Pool.{Pool};
ghost use Rattle.share_book.specs.Locked.{AreLeftBy};
ghost use Rattle.snapshot.specs.Closing.{snapshot_of};
ghost use Rattle.snapshot.specs.Snapshots.{HasSlots, IsLawful};

use crate::site_pool::SitePool;
use book::share::Share;
use commons::closed::Closed;
use commons::limits::Limits;
use commons::refusal::Refusal;
use mbuf::acts::{Act, Answer, Reply};
use pool_model::laws;
use std::alloc::Global;
use std::marker::{Brand, Model, PhantomData};
use std::sync::{Mutex, Wait};

/// What is known of the limits of a pool under a lock: a lock hands on what its type says, and
/// nothing else.
pub trait OfLimits {
    ghost allows: { Limits → Type 0 };
}

/// Nothing is known of the limits, but what is true of those of each pool.
pub struct AnyLimits;

impl OfLimits for AnyLimits {
    ghost allows = { λ l. Unit {0} };
}

/// A caller's own, picked at the call.
impl OfLimits for Brand {
    ghost allows = { λ l. Unit {0} };
}

/// A pool of limits that are allowed. It can't be dropped.
struct KeptPool<K: OfLimits> {
    pool: SitePool,
    of: PhantomData<K>,
}

impl<K: OfLimits> Model for KeptPool<K> {
    ghost Value = { Pool };

    ghost view = { λ kept. kept.pool };

    ghost invariant = { λ kept. K.allows kept.pool.limits };
}

impl<K: OfLimits> KeptPool<K> {
    /// Lets a worker of the pool do this, and answers with room for a bulk of `ROOM` packets.
    fn perform_in<const ROOM: usize>(&mut self, worker: u32, act: Act) -> Answer<ROOM>
        requires room { HasRoom ROOM act }
    {
        laws::others_keep_what_they_have();
        self.pool.perform_in(worker, act)
    }

    /// The pool itself.
    fn into_pool(self) -> SitePool
        ensures allowed { K.allows result.limits }
    {
        let KeptPool { pool, of: _ } = self;
        pool
    }
}

/// A pool as lists under a lock, for threads, each of which lets its worker act. Whenever the lock
/// is free, some acts, one after another, made the pool of a new one of its limits; so each law of
/// acts is true of it. It can't be dropped: `close` or `lose` ends it.
pub struct LockedPool<K: OfLimits> {
    site: Mutex<KeptPool<K>>,
}

/// A pool as lists under a lock, of whatever limits.
pub type LockedSite = LockedPool<AnyLimits>;

impl<K: OfLimits> LockedPool<K> {
    /// A new pool of limits that `K` allows, under a lock that is free.
    ///
    /// Refused `BadPool` where the limits are out of range, and `OutOfMemory` where memory was
    /// refused.
    pub fn make(alloc: Global, limits: &Limits) -> Result<LockedPool<K>, Refusal>
        requires allowed { K.allows limits.now }
        ensures cause { IfErr result (IsMakeCause limits.now) }
    {
        match SitePool::make(alloc, limits) {
            Ok(pool) => Ok(LockedPool {
                site: Mutex::new(KeptPool {
                    pool,
                    of: PhantomData,
                }),
            }),
            Err(cause) => Err(cause),
        }
    }

    /// Takes the lock, lets a worker, numbered from 1, do this as `SitePool::perform` does, and
    /// releases the lock. Refused as it is there. What other threads did before isn't known here,
    /// so no clause says what was done.
    pub fn act<R: Wait>(&self, rt: &R, worker: u32, act: Act) -> Reply {
        self.act_in(rt, worker, act)
    }

    /// Does what `act` does, and answers with room for a bulk of `ROOM` packets, no fewer than a
    /// bulk asks for where it asks for 256 at most: with none the answer is small, and nothing of
    /// a bulk's room is filled.
    pub fn act_in<const ROOM: usize, R: Wait>(&self, rt: &R, worker: u32, act: Act) -> Answer<ROOM>
        requires room { HasRoom ROOM act }
    {
        self.site.lock(rt).perform_in(worker, act)
    }

    /// Takes the pool out of the lock and closes it, as `SitePool::close` does: its limits, what
    /// its shared part leaves, and the share of each worker, from the first to the last. They are
    /// a lawful snapshot, and are what some acts leave of a new pool of these limits.
    ///
    /// Refused `OutOfMemory` where memory was refused. A pool of limits that `K` allows comes back
    /// then; that it is the same is seen by reading.
    pub fn close(self, alloc: Global) -> Result<(Limits, Closed, Vec<Share>), (Refusal, SitePool)>
        ensures allowed { IfOk result (λ parts. K.allows parts.0) }
        ensures range { IfOk result (λ parts. IsPool parts.0) }
        ensures reached { IfOk result (λ parts. (acts : List (ℕ × Act)) × AreLeftBy acts parts.0 parts.1 parts.2.items) }
        ensures numbers { IfOk result (λ parts. map (λ share. share.number) parts.2.items ≡ range_with_len 1 parts.0.workers) }
        ensures whole { IfOk result (λ left. IsLeftWhole left.0 left.1 left.2.items) }
        ensures lawful { IfOk result (λ parts. IsLawful (snapshot_of parts.0 parts.1 parts.2.items)) }
        ensures slots { IfOk result (λ parts. HasSlots (snapshot_of parts.0 parts.1 parts.2.items)) }
        ensures memory { IfErr result (λ refused. refused.0 ≡ Refusal.OutOfMemory) }
        ensures back { IfErr result (λ refused. K.allows refused.1.limits) }
    {
        let LockedPool { site } = self;
        let pool = site.into_inner().into_pool();
        pool.fits_its_limits();
        pool.comes_of_acts();
        pool.close(alloc)
    }

    /// Ends the pool and gives nothing back.
    pub fn lose(self) {
        let LockedPool { site } = self;
        site.into_inner().into_pool().lose();
    }
}
