//! The end of a pool: what its workers hand in, the book of their shares, and its settling.
#![tactic(auto)]

pub mod book;
pub mod closed_twin;
mod copies;
pub mod deposits;
pub mod ending;
mod guests;
pub mod laws;
pub mod losing;
pub mod settling;
pub mod share;
pub mod snapshots;
pub mod twin_book;
pub mod twin_deposits;
pub mod twin_ending;
pub mod twin_settling;
pub mod twin_share;
