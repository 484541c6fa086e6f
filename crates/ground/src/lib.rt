//! The words of a running pool on one atomic table, a seat for each worker, its handle on them,
//! and the steps of the machine as calls: each one atomic operation on one word, or one exchange
//! of what is in a desk's slot, by one seat.
#![tactic(auto)]

mod counts;
mod desks;
pub mod gathering;
mod head;
pub mod known;
pub mod laws;
mod life;
mod parcels;
mod plays;
pub mod pool;
mod rows;
pub mod rule;
pub mod seat;
mod stack;
