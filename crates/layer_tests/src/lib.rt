//! Tests of the layers below scripts, and nothing else: the pool as lists, a worker's cache, a
//! worker's packets, depots and guarded workers.
#![tactic(auto)]

#[cfg(test)]
mod caches;
#[cfg(test)]
mod depots;
#[cfg(test)]
mod equal;
#[cfg(test)]
mod guarded;
#[cfg(test)]
mod lists;
#[cfg(test)]
mod memory;
#[cfg(test)]
mod packets;
#[cfg(test)]
mod rows;
#[cfg(test)]
mod several;
#[cfg(test)]
mod turns;
#[cfg(test)]
mod twins;
