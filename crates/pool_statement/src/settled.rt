//! What a script's pools come to.

use crate::statement::Statement;

/// The statement of a script's pool, and of a second one, where it has one.
#[derive(Debug, Drop)]
pub struct Settled {
    /// The first pool's.
    pub first: Statement,
    /// The second's.
    pub second: Option<Statement>,
}
