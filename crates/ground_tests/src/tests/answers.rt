//! Whether two answers are the same.

use commons::refusal::Refusal;
use step_core::step::Outcome;

/// Whether two answers are the same.
pub(super) fn is_same(answer: &Result<Outcome, Refusal>, other: &Result<Outcome, Refusal>) -> bool {
    match (answer, other) {
        (Ok(Outcome::Value(value)), Ok(Outcome::Value(wanted))) => value == wanted,
        (Ok(Outcome::HeadIs(head)), Ok(Outcome::HeadIs(wanted))) => head == wanted,
        (Ok(Outcome::Won), Ok(Outcome::Won)) => true,
        (Ok(Outcome::Got(elems)), Ok(Outcome::Got(wanted))) => {
            elems.as_slice() == wanted.as_slice()
        }
        (Ok(Outcome::Lost(value)), Ok(Outcome::Lost(wanted))) => value == wanted,
        (Ok(Outcome::LostTo(head)), Ok(Outcome::LostTo(wanted))) => head == wanted,
        (Ok(Outcome::Done), Ok(Outcome::Done)) => true,
        (Ok(Outcome::Found(packet)), Ok(Outcome::Found(wanted))) => packet.segs() == wanted.segs(),
        (Err(cause), Err(wanted)) => cause == wanted,
        _ => false,
    }
}
