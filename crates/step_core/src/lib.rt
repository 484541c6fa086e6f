//! The lock-free stack, its counts and its desks as a pure machine: one step on one word at a
//! time, by any worker, in any order.
#![tactic(auto)]

mod counting;
mod desk_steps;
pub mod elems;
pub mod hand_laws;
pub mod laws;
mod opening;
mod packets;
pub mod run;
mod stack;
pub mod step;
pub mod view;
mod words;
pub mod world;
