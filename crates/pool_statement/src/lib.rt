//! What is stated of a packet pool at its end, as plain data: what the model defines, what a
//! closed pool answers, and what the texts print.
#![tactic(auto)]

pub mod guest;
pub mod settled;
pub mod statement;
