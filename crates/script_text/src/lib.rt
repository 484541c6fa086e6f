//! The grammar of scripts of a packet pool, of commands and of steps, and what reads them.
//!
//! `parse` reads a script of commands, `parse_steps` one of steps. Both have one form (`reading`)
//! and differ in what a line says (`commands`, `steps`). Neither knows what a line does to a pool.
//! `laws` says of both grammars that a text is one script, or has one fault.
#![tactic(auto)]

pub mod command_line;
pub mod commands;
mod from_words;
pub mod laws;
pub mod line;
pub mod lines;
mod made_names;
pub mod name;
pub mod number;
pub mod pool_line;
pub mod put_in;
mod reader;
pub mod reading;
pub mod step_line;
pub mod steps;
pub mod worker_command;

pub use reader::MAX_COMMANDS;
pub use reading::{MAX_BYTES, parse, parse_steps};
