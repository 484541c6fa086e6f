//! The pool of all workers on words: made, used by each worker on its own, and settled at its end;
//! and two pools that foreign clones join.
#![tactic(auto)]

mod calls;
mod closing;
pub mod laws;
pub mod mail;
pub mod parcel;
pub mod pool;
pub mod twin_pool;
pub mod twin_worker;
pub mod worker;
