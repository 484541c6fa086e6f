//! What one try comes to.

use commons::refusal::Refusal;

/// What one try came to.
#[derive(Clone, Copy)]
pub(crate) enum Tried {
    /// Its exchange won.
    Won,
    /// It lost, and may be made again.
    Lost,
    /// No further try is made, for this cause.
    Refused(Refusal),
}
