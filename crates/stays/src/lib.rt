//! The packets that stay: in use in two snapshots of one pool, unchanged. And their text, behind the
//! statement of the newer one.
#![tactic(auto)]

mod as_json;
mod known;
pub mod laws;
mod staying;
mod text;
pub mod used;
mod values;

pub use as_json::since_json;
pub use staying::stays;
pub use text::since_text;
