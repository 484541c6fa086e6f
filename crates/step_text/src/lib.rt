//! Scripts of steps: what each step answered, and the world afterwards, as text.
#![tactic(auto)]

mod ascending;
mod asked;
mod common_list;
mod desks;
mod elements;
mod playing;
mod replies;
mod views;
mod world;

pub use playing::run_steps;
pub use world::world_text;
