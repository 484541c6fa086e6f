//! How a closed pool and the shares in its book become a statement, or the reason why they don't.

ghost use Rattle.std.specs.Prelude.{ℕ, ◌≡◌, ◌≢◌, ◌+◌, IfOk, IfErr, MatchResult};
ghost use Rattle.pool_model.specs.Sound.{ListsOnlyPackets};
ghost use Rattle.pool_model.specs.Statements.{ListsEachOnce, PlacesEachOnce};
ghost use Rattle.snapshot.specs.Snapshots.{IsLawful, statement_in};
ghost use Rattle.book.specs.Books.{IsFull, IsLeastMissing};
ghost use Rattle.book.specs.Left.{IsLawfulByTypes};
ghost use Rattle.book.specs.Settling.{IsUnsettled, snapshot_with};
ghost use Rattle.book.specs.inside.Causes.{cause_of};

use crate::book::Book;
use crate::copies;
use commons::closed::Closed;
use pool_statement::statement::Statement;
use snapshot::audit::audit;
use snapshot::fault::Fault;
use snapshot::laws;
use std::alloc::Global;

/// Why a pool isn't settled.
#[derive(Clone, Copy, PartialEq, Eq, Debug)]
pub enum Unsettled {
    /// The least worker whose share isn't in the book.
    MissingShare(u32),
    /// A request for memory was refused.
    OutOfMemory,
    /// The first of the faults of the pool.
    Fault(Fault),
}

/// The statement of a closed pool and the shares in its book, which ends both. It lists each
/// element exactly once; what is available and what is in use are the population. Each packet that
/// it lists has 1 to 32 segments, each with its data within its buffer.
///
/// Refused `MissingShare` of the least worker whose share isn't in the book, else `OutOfMemory`
/// where memory was refused, else the first fault of the pool. The closed pool and the book are
/// then handed back as they were.
pub fn settle(
    alloc: Global,
    closed: Closed,
    book: Book,
) -> Result<Statement, (Unsettled, Closed, Book)>
    ensures missing { (w : ℕ) → IsLeastMissing book w → MatchResult result (λ _. ⊥) (λ e. e.0 ≡ Unsettled.MissingShare w) }
    ensures full { IfOk result (λ _. IsFull book) }
    ensures lawful { IfOk result (λ _. IsLawful (snapshot_with book closed)) }
    ensures statement { IfOk result (λ s. s ≡ statement_in (snapshot_with book closed)) }
    ensures once { IfOk result (λ s. ListsEachOnce s) }
    ensures places { IfOk result (λ s. PlacesEachOnce book.limits s) }
    ensures sound { IfOk result (λ s. ListsOnlyPackets s) }
    ensures whole { IfOk result (λ s. s.available + s.in_use ≡ book.limits.population) }
    ensures unsettled { IfErr result (λ e. IsUnsettled book closed e.0) }
    // What stands in a slot of a share or lies on a desk is a packet.
    ensures packets { IfErr result (λ e. e.0 ≢ Unsettled.Fault Fault.BadPacket) }
    // What a whole pool leaves at rest has no fault; of packets, types know that they are.
    ensures faultless { IsFull book → IsLawfulByTypes (snapshot_with book closed) → IfErr result (λ e. e.0 ≡ Unsettled.OutOfMemory) }
    ensures memory { IsFull book → IsLawful (snapshot_with book closed) → IfErr result (λ e. e.0 ≡ Unsettled.OutOfMemory) }
    ensures back { IfErr result (λ e. (e.1 ≡ closed) × (e.2 ≡ book)) }
{
    laws::a_lawful_snapshot_has_no_fault();
    match statement(alloc, &closed, &book) {
        Ok(statement) => {
            book.lose();
            Ok(statement)
        }
        Err(cause) => Err((cause, closed, book)),
    }
}

/// The statement of a closed pool and the shares in its book.
fn statement(alloc: Global, closed: &Closed, book: &Book) -> Result<Statement, Unsettled>
    ensures missing { (w : ℕ) → IsLeastMissing book.now w → MatchResult result (λ _. ⊥) (λ cause. cause ≡ Unsettled.MissingShare w) }
    ensures full { IfOk result (λ _. IsFull book.now) }
    ensures lawful { IfOk result (λ _. IsLawful (snapshot_with book.now closed.now)) }
    ensures statement { IfOk result (λ s. s ≡ statement_in (snapshot_with book.now closed.now)) }
    ensures once { IfOk result (λ s. ListsEachOnce s) }
    ensures places { IfOk result (λ s. PlacesEachOnce book.now.limits s) }
    ensures sound { IfOk result (λ s. ListsOnlyPackets s) }
    ensures unsettled { IfErr result (λ cause. IsUnsettled book.now closed.now cause) }
    ensures packets { IfErr result (λ cause. cause ≢ Unsettled.Fault Fault.BadPacket) }
{
    if let Some(worker) = book.missing() {
        return Err(Unsettled::MissingShare(worker));
    }
    book.fits_its_limits();
    let Ok(snapshot) = copies::snapshot(alloc, closed, book) else {
        return Err(Unsettled::OutOfMemory);
    };
    laws::a_pool_alone_has_no_guests();
    match audit(alloc, &snapshot) {
        Ok(statement) => Ok(statement),
        Err(fault) => Err(cause(fault)),
    }
}

/// Why a pool isn't settled whose audit answers this.
fn cause(fault: Fault) -> Unsettled
    ensures { result ≡ cause_of fault }
{
    match fault {
        Fault::OutOfMemory => Unsettled::OutOfMemory,
        _ => Unsettled::Fault(fault),
    }
}
