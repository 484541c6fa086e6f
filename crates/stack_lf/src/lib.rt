//! The shared part of a pool over the words of its ground, as one worker sees it by its seat, its
//! handle on them: by many threads at once, without a lock.
#![tactic(auto)]

mod attempt;
mod counting;
mod desking;
mod getting;
pub mod laws;
pub mod lent;
mod putting;
mod tried;
pub mod words;
