//! The pool of all workers on the lists, for one thread or under a lock, and its end; and two pools
//! that foreign clones join.
#![tactic(auto)]

mod deskless;
pub mod ending;
pub mod locked_site;
pub mod locked_twin;
mod looks;
pub mod site_pool;
pub mod twin_ending;
pub mod twin_site;

pub use book::book::{Book, deposit};
pub use book::closed_twin::ClosedTwin;
pub use book::losing::settle_without;
pub use book::settling::{Unsettled, settle};
pub use book::share::{Share, hand_in, lose_all};
pub use book::twin_book::{TwinBook, deposit_twin};
pub use book::twin_ending::settled_twins;
pub use book::twin_settling::{TwinUnsettled, settle_twin};
pub use book::twin_share::{TwinShare, hand_in_twin, lose_all_twins};
pub use snapshot::audit::audit;
pub use snapshot::fault::Fault;
pub use twin_acts::acts::TwinAct;
