//! Tests of the program, from its words and files to its statuses and lines.
#![tactic(auto)]

#[cfg(test)]
mod reading;
#[cfg(test)]
mod tests;
#[cfg(test)]
mod writing;
