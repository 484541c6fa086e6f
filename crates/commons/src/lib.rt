//! The shared part of a packet pool, as one worker sees it.
#![tactic(auto)]

pub mod change;
pub mod closed;
pub mod laws;
pub mod limits;
pub mod packet;
mod passing;
pub mod place;
pub mod plain;
pub mod refusal;
pub mod seq;
pub mod shared;
pub mod site;
