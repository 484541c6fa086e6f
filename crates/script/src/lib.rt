//! Scripts of a packet pool: their replay, what it prints, and their run in threads.
#![tactic(auto)]

mod acting;
pub mod asking;
mod crew;
pub mod gate;
pub mod json;
pub mod laws;
mod left;
mod locked;
pub mod names;
mod on_words;
pub mod playing;
pub mod printing;
pub mod running;
mod sites;
pub mod snapshots;
pub mod texts;
pub mod threaded;
mod twins_on_words;
mod twins_under_lock;
mod under_lock;

pub use gate::{Gate, OpenGate};
pub use json::run_replay_json;
pub use playing::replay;
pub use printing::run_replay;
pub use running::{run_script, run_script_lost};
pub use snapshots::{run_replay_snapshot, run_script_snapshot};
pub use statement_text::{numbers_json, statement_json, statement_text};
pub use step_text::run_steps;
pub use texts::lost_text;
pub use threaded::{Grounds, run_lost, run_threads};
