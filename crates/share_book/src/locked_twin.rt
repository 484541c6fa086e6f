//! Two pools that threads share under one lock.

ghost use Rattle.std.specs.Prelude.{ℕ, ◌≡◌, List, IfOk, IfErr};
ghost use Rattle.book.specs.Left.{AreLeftWhole};
ghost use Rattle.twin_acts.specs.TwinActs.{HasTwinRoom};
ghost use Rattle.twin_acts.specs.declared.acts.TwinAct.{TwinAct};
ghost use Rattle.share_book.specs.Locked.{AreTwinsLeftBy};
ghost use Rattle.share_book.specs.TwinSites.{AreTwinPools, IsTwinMakeCause, TwinLists};

use crate::locked_site::{AnyLimits, OfLimits};
use crate::twin_site::TwinSite;
use book::closed_twin::ClosedTwin;
use commons::limits::Limits;
use commons::refusal::Refusal;
use mbuf::acts::{Answer, Reply};
use std::alloc::Global;
use std::marker::{Model, PhantomData};
use std::sync::{Mutex, Wait};
use twin_acts::acts::TwinAct;

/// Two pools of limits that are allowed. It can't be dropped.
struct KeptTwin<K: OfLimits, L: OfLimits> {
    site: TwinSite,
    first: PhantomData<K>,
    second: PhantomData<L>,
}

impl<K: OfLimits, L: OfLimits> Model for KeptTwin<K, L> {
    ghost Value = { TwinLists };

    ghost view = { λ kept. kept.site };

    ghost invariant = { λ kept. K.allows kept.site.first.limits × L.allows kept.site.second.limits };
}

impl<K: OfLimits, L: OfLimits> KeptTwin<K, L> {
    /// Lets a worker of both pools do this, and answers with room for a bulk of `ROOM` packets.
    fn perform_in<const ROOM: usize>(&mut self, worker: u32, act: TwinAct) -> Answer<ROOM>
        requires room { HasTwinRoom ROOM act }
    {
        self.site.perform_in(worker, act)
    }

    /// The pools themselves.
    fn into_site(self) -> TwinSite
        ensures first { K.allows result.first.limits }
        ensures second { L.allows result.second.limits }
    {
        let KeptTwin {
            site,
            first: _,
            second: _,
        } = self;
        site
    }
}

/// Two pools as lists under one lock, for threads, each of which lets its worker act. Whenever the
/// lock is free, some acts, one after another, made the pools of new ones of their limits, and each
/// is lawful by itself. It can't be dropped: `close` or `lose` ends it.
pub struct LockedTwins<K: OfLimits, L: OfLimits> {
    site: Mutex<KeptTwin<K, L>>,
}

/// Two pools as lists under one lock, of whatever limits.
pub type LockedTwinSite = LockedTwins<AnyLimits, AnyLimits>;

impl<K: OfLimits, L: OfLimits> LockedTwins<K, L> {
    /// Two new pools of limits that `K` and `L` allow, under a lock that is free.
    ///
    /// Refused `BadPool` and `OutOfMemory` as `TwinSite::make` is.
    pub fn make(
        alloc: Global,
        first: &Limits,
        second: &Limits,
    ) -> Result<LockedTwins<K, L>, Refusal>
        requires first_allowed { K.allows first.now }
        requires second_allowed { L.allows second.now }
        ensures cause { IfErr result (IsTwinMakeCause first.now second.now) }
    {
        match TwinSite::make(alloc, first, second) {
            Ok(site) => Ok(LockedTwins {
                site: Mutex::new(KeptTwin {
                    site,
                    first: PhantomData,
                    second: PhantomData,
                }),
            }),
            Err(cause) => Err(cause),
        }
    }

    /// Takes the lock, lets a worker, numbered from 1, do this as `TwinSite::perform` does, and
    /// releases the lock. Refused as it is there. What other threads did before isn't known here,
    /// so no clause says what was done.
    pub fn act<R: Wait>(&self, rt: &R, worker: u32, act: TwinAct) -> Reply {
        self.act_in(rt, worker, act)
    }

    /// Does what `act` does, and answers with room for a bulk of `ROOM` packets, no fewer than a
    /// bulk asks for where it asks for 256 at most: with none the answer is small, and nothing of
    /// a bulk's room is filled.
    pub fn act_in<const ROOM: usize, R: Wait>(
        &self,
        rt: &R,
        worker: u32,
        act: TwinAct,
    ) -> Answer<ROOM>
        requires room { HasTwinRoom ROOM act }
    {
        self.site.lock(rt).perform_in(worker, act)
    }

    /// Takes the pools out of the lock and closes them, as `TwinSite::close` does: of each its
    /// limits and what its shared part leaves, and the share of each worker, from the first to the
    /// last. They are those of two whole pools at rest, and are what some acts leave of new pools of
    /// these limits.
    ///
    /// Refused `OutOfMemory` where memory was refused. Pools of limits that `K` and `L` allow come
    /// back then; that they are the same is seen by reading.
    pub fn close(self, alloc: Global) -> Result<ClosedTwin, (Refusal, TwinSite)>
        ensures first_allowed { IfOk result (λ c. K.allows c.first_limits) }
        ensures second_allowed { IfOk result (λ c. L.allows c.second_limits) }
        ensures pools { IfOk result (λ c. AreTwinPools c.first_limits c.second_limits) }
        ensures reached { IfOk result (λ c. (acts : List (ℕ × TwinAct)) × AreTwinsLeftBy acts c.first_limits c.second_limits c.first c.second c.shares.items) }
        ensures whole { IfOk result (λ c. AreLeftWhole c) }
        ensures memory { IfErr result (λ refused. refused.0 ≡ Refusal.OutOfMemory) }
        ensures first_back { IfErr result (λ refused. K.allows refused.1.first.limits) }
        ensures second_back { IfErr result (λ refused. L.allows refused.1.second.limits) }
    {
        let LockedTwins { site } = self;
        let site = site.into_inner().into_site();
        site.comes_of_acts();
        site.close(alloc)
    }

    /// Ends both pools and gives nothing back.
    pub fn lose(self) {
        let LockedTwins { site } = self;
        site.into_inner().into_site().lose();
    }
}
