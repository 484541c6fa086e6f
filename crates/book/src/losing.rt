//! What a closed pool has lost with workers whose shares aren't in its book.

ghost use Rattle.std.specs.Prelude.{ℕ, ◌≡◌, IfErr, IfOk, MatchResult};
ghost use Rattle.snapshot.specs.Lost.{AreLost};
ghost use Rattle.book.specs.Lost.{IsFullBut, IsLeastUnlisted, IsUntold};
ghost use Rattle.book.specs.Settling.{snapshot_with};

use crate::book::Book;
use crate::copies;
use crate::settling::Unsettled;
use commons::closed::Closed;
use snapshot::lost::lost_elements;
use std::alloc::Global;

/// The elements that a closed pool has lost, ascending, by the shares in its book, which ends both:
/// those that are neither on the walk, nor in a share of the book, nor on a desk. Listed are the
/// workers whose shares may be missing, as those who died; a listed number that isn't a worker's of
/// the pool is passed over. What is wrong with the pool otherwise isn't looked for.
///
/// Refused `MissingShare` of the least worker who isn't listed and whose share isn't in the book,
/// else `OutOfMemory` where memory was refused. The closed pool and the book are then handed back
/// as they were.
pub fn settle_without(
    alloc: Global,
    closed: Closed,
    book: Book,
    missing: &[u32],
) -> Result<Vec<u32>, (Unsettled, Closed, Book)>
    ensures missing { (w : ℕ) → IsLeastUnlisted book missing.now w → MatchResult result (λ _. ⊥) (λ e. e.0 ≡ Unsettled.MissingShare w) }
    ensures full { IfOk result (λ _. IsFullBut book missing.now) }
    ensures lost { IfOk result (λ elems. AreLost (snapshot_with book closed) elems.items) }
    ensures untold { IfErr result (λ e. IsUntold book missing.now e.0) }
    // Where each worker's share is in the book, or the worker is listed, only memory can be
    // missing.
    ensures memory { IsFullBut book missing.now → IfErr result (λ e. e.0 ≡ Unsettled.OutOfMemory) }
    ensures back { IfErr result (λ e. (e.1 ≡ closed) × (e.2 ≡ book)) }
{
    match lost(alloc, &closed, &book, missing) {
        Ok(elems) => {
            book.lose();
            Ok(elems)
        }
        Err(cause) => Err((cause, closed, book)),
    }
}

/// The elements that a closed pool has lost, by the shares in its book.
fn lost(alloc: Global, closed: &Closed, book: &Book, missing: &[u32]) -> Result<Vec<u32>, Unsettled>
    ensures missing { (w : ℕ) → IsLeastUnlisted book.now missing.now w → MatchResult result (λ _. ⊥) (λ cause. cause ≡ Unsettled.MissingShare w) }
    ensures full { IfOk result (λ _. IsFullBut book.now missing.now) }
    ensures lost { IfOk result (λ elems. AreLost (snapshot_with book.now closed.now) elems.items) }
    ensures untold { IfErr result (λ cause. IsUntold book.now missing.now cause) }
    ensures memory { IsFullBut book.now missing.now → IfErr result (λ cause. cause ≡ Unsettled.OutOfMemory) }
{
    if let Some(worker) = book.missing_but(missing) {
        return Err(Unsettled::MissingShare(worker));
    }
    book.fits_its_limits();
    let Ok(snapshot) = copies::snapshot(alloc, closed, book) else {
        return Err(Unsettled::OutOfMemory);
    };
    match lost_elements(alloc, &snapshot) {
        Ok(elems) => Ok(elems),
        Err(_) => Err(Unsettled::OutOfMemory),
    }
}
