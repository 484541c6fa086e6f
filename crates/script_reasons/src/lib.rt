//! Why a script isn't read: the line and the column of its fault, and the reason in plain words.
//!
//! `explain` says so of a script of commands, `explain_steps` of one of steps. Which line is faulty
//! they take from `script_text`, whose functions look at the words here too.
#![tactic(auto)]

mod command_reasons;
mod explaining;
mod numbers;
mod pool_reasons;
pub mod reason;
pub mod second;
mod shape;
mod step_reasons;
mod walking;
mod words;
mod worker;

pub use explaining::{explain, explain_steps};
