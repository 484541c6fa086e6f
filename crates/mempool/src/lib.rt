//! The caches of workers (DPDK's lcores) over any shared pool. A worker's hand is what it has got
//! and nobody holds: its cache, and what is on the way between cache and stack.
#![tactic(auto)]

pub mod put;
mod steps;
pub mod worker;
