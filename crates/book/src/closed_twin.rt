//! What two pools leave that were closed.

use crate::twin_share::TwinShare;
use commons::closed::Closed;
use commons::limits::Limits;

/// What two pools leave that were closed: of each its limits and what its shared part leaves, and
/// the share of each worker, from the first to the last. It can't be dropped, as a share can't.
pub struct ClosedTwin {
    /// The limits of the first pool.
    pub first_limits: Limits,
    /// What the shared part of the first pool leaves.
    pub first: Closed,
    /// The limits of the second pool.
    pub second_limits: Limits,
    /// What the shared part of the second pool leaves.
    pub second: Closed,
    /// The share of each worker.
    pub shares: Vec<TwinShare>,
}
