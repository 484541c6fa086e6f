//! Tests of the machine, and of the words of a running pool: players of steps on a ground, and
//! scripts that they play beside the machine.
#![tactic(auto)]

#[cfg(test)]
mod acts;
#[cfg(test)]
mod arms;
#[cfg(test)]
mod counts;
#[cfg(test)]
mod desks;
#[cfg(test)]
mod draws;
#[cfg(test)]
mod fit;
#[cfg(test)]
mod pair;
#[cfg(test)]
mod player;
#[cfg(test)]
mod schedules;
pub mod sees;
#[cfg(test)]
mod steps;
#[cfg(test)]
mod tests;
