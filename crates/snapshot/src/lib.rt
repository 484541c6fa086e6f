//! A closed pool as plain data, and its audit.
#![tactic(auto)]

pub mod all_faults;
pub mod audit;
pub mod closing;
mod elements;
pub mod fault;
pub mod laws;
mod local;
pub mod lost;
mod packets;
mod placing;
mod shape;
pub mod snapshot;
mod tally;
mod walking;
