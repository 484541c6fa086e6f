//! What a pool leaves at its end.

use pool_statement::statement::Statement;

/// What a pool that is closed left: its statement, or the elements that are lost where workers were
/// missing, ascending.
#[derive(Drop)]
pub struct Ending {
    /// There is none where workers were missing.
    pub statement: Option<Statement>,
    /// There is none of these where the statement is there.
    pub lost: Vec<u32>,
}
