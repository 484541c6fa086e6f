//! Which packets stay.

ghost use Rattle.std.specs.Prelude.{◌≡◌, IfErr, IfOk};
ghost use Rattle.stays.specs.Stays.{stays_between};

use crate::known::Known;
use crate::used::{Used, listed};
use commons::refusal::Refusal;
use pool_statement::statement::Statement;
use std::alloc::{AllocError, Global};

/// The packets that the newer of two statements of one pool lists and the older one too, with the
/// same segments, wherever they stand there. They are in the order of the newer one.
///
/// Refused `OutOfMemory` where memory was refused.
pub fn stays(alloc: Global, newer: &Statement, older: &Statement) -> Result<Vec<Used>, Refusal>
    ensures stay { IfOk result (λ stay. stay.items ≡ stays_between newer.now older.now) }
    ensures memory { IfErr result (λ e. e ≡ Refusal.OutOfMemory) }
{
    match both(alloc, newer, older) {
        Ok(stay) => Ok(stay),
        Err(_) => Err(Refusal::OutOfMemory),
    }
}

/// Those that both list.
fn both(alloc: Global, newer: &Statement, older: &Statement) -> Result<Vec<Used>, AllocError>
    ensures { IfOk result (λ stay. stay.items ≡ stays_between newer.now older.now) }
{
    let known = Known::of(alloc, listed(alloc, older)?)?;
    let mut stay = listed(alloc, newer)?;
    stay.retain(|one| known.has(one.parts.as_slice()));
    Ok(stay)
}
