//! The pools that a script's lines act on, in one thread: a pool alone, or two.

ghost use Rattle.std.specs.Prelude.{◌≡◌, IfErr, IfOk};
ghost use Rattle.mbuf.specs.Acts.{as_reply};
ghost use Rattle.script.specs.Replay.{new_stock, perform_on, settled_of};
ghost use Rattle.script.specs.Settling.{ListsEachPoolOnce, ListsSoundInEach, PlacesInEach};
ghost use Rattle.script.specs.Snapshots.{IsOfOne, Leaves, limits_of, settled_in};
ghost use Rattle.script.specs.inside.Leaving.{AreWhole, limits_left, snapshots_of};
ghost use Rattle.script.specs.inside.Standing.{limits_in, stock_of};
ghost use Rattle.script_text.specs.PoolLine.{ArePools};
ghost use Rattle.twin_acts.specs.TwinActs.{HasTwinRoom};

use crate::left::Left;
use crate::snapshots::Snapshots;
use commons::refusal::Refusal;
use mbuf::acts::Answer;
use pool_statement::settled::Settled;
use script_text::commands::Pools;
use share_book::site_pool::SitePool;
use share_book::twin_site::TwinSite;
use share_book::{ending, twin_ending};
use std::alloc::Global;
use twin_acts::acts::TwinAct;

/// Pools on lists. They can't be dropped: `settled`, `snapshots` or `lose` ends them.
pub(crate) enum Sites {
    /// A pool alone.
    One(SitePool),
    /// A pool, and beside it a second one for foreign clones.
    Two(TwinSite),
}

impl Sites {
    /// New pools within these limits. Refused `OutOfMemory` where memory was refused.
    pub(crate) fn make(alloc: Global, pools: &Pools) -> Result<Sites, Refusal>
        requires { ArePools pools.now }
        ensures new { IfOk result (λ sites. stock_of sites ≡ new_stock pools.now) }
        ensures memory { IfErr result (λ e. e ≡ Refusal.OutOfMemory) }
    {
        match &pools.second {
            None => Ok(Sites::One(SitePool::make(alloc, &pools.first)?)),
            Some(second) => Ok(Sites::Two(TwinSite::make(alloc, &pools.first, second)?)),
        }
    }

    /// Lets a worker, numbered from 1, do this, and answers with room for a bulk of `ROOM` packets.
    /// A pool alone has no foreign clones, so an act on these is refused `Foreign` there.
    pub(crate) fn perform_in<const ROOM: usize>(
        &mut self,
        worker: u32,
        act: TwinAct,
    ) -> Answer<ROOM>
        requires room { HasTwinRoom ROOM act }
        ensures done { (as_reply result, stock_of self.new) ≡ perform_on (stock_of self.old) worker act }
        ensures limits { limits_in (stock_of self.new) ≡ limits_in (stock_of self.old) }
    {
        match self {
            Sites::One(pool) => match act {
                TwinAct::OnFirst(act) => pool.perform_in(worker, act),
                _ => Answer::Refused(Refusal::Foreign),
            },
            Sites::Two(twins) => twins.perform_in(worker, act),
        }
    }

    /// Closes the pools and settles them with the shares of all their workers.
    ///
    /// Refused `OutOfMemory` where memory was refused. The pools are ended then too.
    pub(crate) fn settled(self, alloc: Global) -> Result<Settled, Refusal>
        ensures settled { IfOk result (λ s. s ≡ settled_of (stock_of self)) }
        ensures once { IfOk result (λ s. ListsEachPoolOnce (limits_in (stock_of self)) s) }
        ensures places { IfOk result (λ s. PlacesInEach (limits_in (stock_of self)) s) }
        ensures sound { IfOk result (λ s. ListsSoundInEach (limits_in (stock_of self)) s) }
        ensures memory { IfErr result (λ e. e ≡ Refusal.OutOfMemory) }
    {
        match self {
            Sites::One(pool) => Ok(Settled {
                first: ending::settled(alloc, pool)?,
                second: None,
            }),
            Sites::Two(twins) => {
                let (first, second) = twin_ending::settled(alloc, twins)?;
                Ok(Settled {
                    first,
                    second: Some(second),
                })
            }
        }
    }

    /// Closes the pools and gives their snapshots with the shares of all their workers.
    ///
    /// Refused `OutOfMemory` where memory was refused. The pools are ended then too.
    pub(crate) fn snapshots(self, alloc: Global) -> Result<Snapshots, Refusal>
        ensures left { IfOk result (λ s. Leaves (stock_of self) s) }
        ensures limits { IfOk result (λ s. limits_of s ≡ limits_in (stock_of self)) }
        ensures memory { IfErr result (λ e. e ≡ Refusal.OutOfMemory) }
    {
        let left = self.close(alloc)?;
        left.snapshots(alloc)
    }

    /// Closes the pools.
    ///
    /// Refused `OutOfMemory` where memory was refused. The pools are ended then too.
    fn close(self, alloc: Global) -> Result<Left, Refusal>
        ensures limits { IfOk result (λ left. limits_left left ≡ limits_in (stock_of self)) }
        ensures whole { IfOk result (λ left. AreWhole left) }
        ensures settled { IfOk result (λ left. settled_in (snapshots_of left) ≡ settled_of (stock_of self)) }
        ensures of_one { IfOk result (λ left. IsOfOne (stock_of self) (snapshots_of left)) }
        ensures memory { IfErr result (λ e. e ≡ Refusal.OutOfMemory) }
    {
        match self {
            Sites::One(pool) => match pool.close(alloc) {
                Ok((limits, closed, shares)) => Ok(Left::One(limits, closed, shares)),
                Err((cause, pool)) => {
                    pool.lose();
                    Err(cause)
                }
            },
            Sites::Two(twins) => match twins.close(alloc) {
                Ok(closed) => Ok(Left::Two(closed)),
                Err((cause, twins)) => {
                    twins.lose();
                    Err(cause)
                }
            },
        }
    }

    /// Ends the pools and gives nothing back.
    pub(crate) fn lose(self) {
        match self {
            Sites::One(pool) => pool.lose(),
            Sites::Two(twins) => twins.lose(),
        }
    }
}
