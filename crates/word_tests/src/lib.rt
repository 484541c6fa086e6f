//! Tests of lists and packets over the words of a pool: the calls of `WordCommons`, scripts that are
//! played beside their replay, and workers in threads.
#![tactic(auto)]

#[cfg(test)]
mod stack;
#[cfg(test)]
mod tests;
