//! What the program does with a script or a snapshot: the replay of a script, its run in threads,
//! what is lost with a worker at its end, its steps, the audit of a snapshot, or that and what stays
//! since an older one, printed; or the failure that came.
#![tactic(auto)]

mod auditing;
mod both;
pub mod comparing;
pub mod explaining;
pub mod failures;
mod halves;
pub mod kind;
pub mod listed;
mod listing;
mod losing;
pub mod printing;
mod replay;
mod running;
pub mod scripts;
mod since;
pub mod task;
pub mod telling;

pub use explaining::print_explained;
pub use listing::{print_all, printed_all};
pub use printing::{End, print, printed};
pub use since::{print_pair, printed_pair};
pub use telling::{tell, tell_pair};
