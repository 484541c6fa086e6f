//! Tests of scripts: what is read, what a replay prints, and what a pool replies.
#![tactic(auto)]

#[cfg(test)]
mod tests;
