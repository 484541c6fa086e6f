//! Tests of snapshots: of their audits, and of their JSON.
#![tactic(auto)]

#[cfg(test)]
mod audits;
#[cfg(test)]
mod tests;
