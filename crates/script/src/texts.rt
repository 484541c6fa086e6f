//! What a replay prints for each command, and a run for what is lost.

mod lost;
mod replies;

pub use lost::lost_text;
pub use replies::push_reply;
