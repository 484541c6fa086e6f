//! A depot of magazines: whole arrays of elements pass between workers, on three stacks of
//! one atomic table, and each worker gets from and puts into those that it has. In a guarded pool
//! an element may also rest at its place, a word of its own.
#![tactic(auto)]

pub mod cause;
mod closing;
pub mod depot;
mod flushing;
mod fronts;
pub mod laws;
mod letting;
mod lists;
pub mod loans;
pub mod magazine;
pub mod opening;
mod parting;
mod places;
mod plays;
pub mod rack;
mod resting;
pub mod roll;
pub mod rule;
mod serving;
mod shedding;
mod steps;
mod trades;
mod trying;
pub mod view;
pub mod worker;
