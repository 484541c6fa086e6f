//! The calls of a worker of two pools as acts: a value that names one of them, a call that does it
//! over any shared parts, and what is replied.
#![tactic(auto)]

pub mod acts;
