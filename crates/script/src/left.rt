//! What a script's pools leave at its end, which becomes their statements or their snapshots.

ghost use Rattle.std.specs.Prelude.{◌≡◌, IfErr, IfOk};
ghost use Rattle.script.specs.Settling.{ListsEachPoolOnce, ListsOnlyPacketsInEach, PlacesInEach};
ghost use Rattle.script.specs.Snapshots.{AreLawful, settled_in};
ghost use Rattle.script.specs.inside.Leaving.{AreWhole, limits_left, snapshots_of};

use crate::snapshots::Snapshots;
use book::ending::settled_parts;
use book::snapshots::{snapshot_of_parts, snapshots_of_twins};
use book::twin_ending::settled_twins;
use commons::closed::Closed;
use commons::limits::Limits;
use commons::refusal::Refusal;
use pool_statement::settled::Settled;
use share_book::{ClosedTwin, Share};
use std::alloc::Global;

/// What closed pools leave, with the shares of all their workers. It can't be dropped: `settled` or
/// `snapshots` ends it.
pub(crate) enum Left {
    /// Of a pool alone its limits, what its shared part leaves, and the shares by worker.
    One(Limits, Closed, Vec<Share>),
    /// Of a pool and a second one for foreign clones.
    Two(ClosedTwin),
}

impl Left {
    /// The statements of what whole pools left.
    ///
    /// Refused `OutOfMemory` where memory was refused. Nothing is left of the pools then either.
    pub(crate) fn settled(self, alloc: Global) -> Result<Settled, Refusal>
        requires { AreWhole self }
        ensures settled { IfOk result (λ s. s ≡ settled_in (snapshots_of self)) }
        ensures lawful { IfOk result (λ _. AreLawful (snapshots_of self)) }
        ensures once { IfOk result (λ s. ListsEachPoolOnce (limits_left self) s) }
        ensures places { IfOk result (λ s. PlacesInEach (limits_left self) s) }
        ensures packets { IfOk result (λ s. ListsOnlyPacketsInEach (limits_left self) s) }
        ensures memory { IfErr result (λ e. e ≡ Refusal.OutOfMemory) }
    {
        match self {
            Left::One(limits, closed, shares) => Ok(Settled {
                first: settled_parts(alloc, &limits, closed, shares)?,
                second: None,
            }),
            Left::Two(closed) => {
                let (first, second) = settled_twins(alloc, closed)?;
                Ok(Settled {
                    first,
                    second: Some(second),
                })
            }
        }
    }

    /// What whole pools left, as snapshots, which are lawful.
    ///
    /// Refused `OutOfMemory` where memory was refused. Nothing is left of the pools then either.
    pub(crate) fn snapshots(self, alloc: Global) -> Result<Snapshots, Refusal>
        requires { AreWhole self }
        ensures same { IfOk result (λ s. s ≡ snapshots_of self) }
        ensures lawful { IfOk result (λ s. AreLawful s) }
        ensures memory { IfErr result (λ e. e ≡ Refusal.OutOfMemory) }
    {
        match self {
            Left::One(limits, closed, shares) => Ok(Snapshots {
                first: snapshot_of_parts(alloc, &limits, closed, shares)?,
                second: None,
            }),
            Left::Two(closed) => {
                let (first, second) = snapshots_of_twins(alloc, closed)?;
                Ok(Snapshots {
                    first,
                    second: Some(second),
                })
            }
        }
    }
}
