//! The command line of the program, by `clap`: what its words ask for, or what is said of them; and
//! what the program does.
#![tactic(auto)]

pub mod parsing;
mod running;
pub mod unasked;

pub use parsing::{request_of, words};
pub use running::{run, serve};
pub use unasked::{Unasked, tell};
