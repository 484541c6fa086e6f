//! What handles lead to may go to another thread.

use crate::guard_workers::OwnGuard;
use crate::pool_workers::PoolWorker;
use crate::workers::OwnWorker;

/// A value of this type may go to another thread. It does nothing.
fn may_be_sent<T: Send>() {}

/// So may all that handles own. It does nothing.
pub fn handles_may_be_sent() {
    may_be_sent::<PoolWorker>();
    may_be_sent::<OwnGuard>();
    may_be_sent::<OwnWorker>();
}
