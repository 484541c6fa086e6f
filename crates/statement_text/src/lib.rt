//! The text of statements, of one pool and of two, and their JSON.
#![tactic(auto)]

mod caches;
mod held;
mod json;
pub mod laws;
mod lists;
mod segments;
pub mod values;
mod whole;

pub use json::{pool_json, statement_json};
pub use lists::numbers_json;
pub use whole::{pool_text, statement_text};
