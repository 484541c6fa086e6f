//! How two closed pools and the shares in their book become two statements, or the reason why they
//! don't.

ghost use Rattle.std.specs.Prelude.{ℕ, ◌≡◌, ◌≢◌, ◌⊎◌, ◌+◌, IfOk, IfErr, MatchResult};
ghost use Rattle.pool_model.specs.Sound.{ListsOnlyPackets};
ghost use Rattle.pool_model.specs.Statements.{PlacesEachOnce};
ghost use Rattle.snapshot.specs.Snapshots.{IsLawful, ListsItsElements, statement_in};
ghost use Rattle.book.specs.Books.{IsFull, IsLeastMissing};
ghost use Rattle.snapshot.specs.Faults.{IsFirstFault};
ghost use Rattle.book.specs.Left.{AreOfPackets, IsLawfulByTypes};
ghost use Rattle.book.specs.TwinSettling.{IsTwinUnsettled, first_with, second_with};
ghost use Rattle.book.specs.inside.Causes.{first_cause_of, second_cause_of};

use crate::copies::{first_snapshot, second_snapshot};
use crate::twin_book::TwinBook;
use commons::closed::Closed;
use pool_statement::statement::Statement;
use snapshot::audit::audit;
use snapshot::fault::Fault;
use snapshot::laws;
use std::alloc::Global;

/// Why two pools aren't settled.
#[derive(Clone, Copy, PartialEq, Eq, Debug)]
pub enum TwinUnsettled {
    /// The least worker whose share isn't in the book.
    MissingShare(u32),
    /// A request for memory was refused.
    OutOfMemory,
    /// The first of the faults of the first pool.
    First(Fault),
    /// The first of the faults of the second pool, where the first has none.
    Second(Fault),
}

/// The statements of two closed pools and the shares in their book, which ends all three. Each
/// lists each element of its pool exactly once: the bases of the second one's packets are elements
/// of the first, which their workers hold. What is available and what is in use are the population
/// of each. Each packet that is listed has 1 to 32 segments, each with its data within its buffer.
///
/// Refused `MissingShare` of the least worker whose share isn't in the book, else `OutOfMemory`
/// where memory was refused, else the first fault of the first pool, else that of the second. The
/// closed pools and the book are then handed back as they were.
pub fn settle_twin(
    alloc: Global,
    first: Closed,
    second: Closed,
    book: TwinBook,
) -> Result<(Statement, Statement), (TwinUnsettled, Closed, Closed, TwinBook)>
    ensures missing { (w : ℕ) → IsLeastMissing book.first w → MatchResult result (λ _. ⊥) (λ e. e.0 ≡ TwinUnsettled.MissingShare w) }
    ensures full { IfOk result (λ _. IsFull book.first) }
    ensures lawful { IfOk result (λ _. IsLawful (first_with book first) × IsLawful (second_with book second)) }
    ensures statements { IfOk result (λ s.
        (s.0 ≡ statement_in (first_with book first)) × (s.1 ≡ statement_in (second_with book second))) }
    ensures once { IfOk result (λ s.
        ListsItsElements (first_with book first) s.0 × ListsItsElements (second_with book second) s.1) }
    ensures places { IfOk result (λ s.
        PlacesEachOnce book.first.limits s.0 × PlacesEachOnce book.second.limits s.1) }
    ensures sound { IfOk result (λ s. ListsOnlyPackets s.0 × ListsOnlyPackets s.1) }
    ensures whole { IfOk result (λ s. (s.0.available + s.0.in_use ≡ book.first.limits.population)
        × (s.1.available + s.1.in_use ≡ book.second.limits.population)) }
    ensures unsettled { IfErr result (λ e. IsTwinUnsettled book first second e.0) }
    // What stands in a slot of a share or lies on a desk is a packet.
    ensures packets { IfErr result (λ e. (e.0 ≢ TwinUnsettled.First Fault.BadPacket) × (e.0 ≢ TwinUnsettled.Second Fault.BadPacket)) }
    // What whole pools leave at rest has no fault; of packets, types know that they are.
    ensures faultless { IsFull book.first → IsLawfulByTypes (first_with book first) → IsLawfulByTypes (second_with book second) →
        IfErr result (λ e. e.0 ≡ TwinUnsettled.OutOfMemory) }
    ensures memory { IsFull book.first → IsLawful (first_with book first) → IsLawful (second_with book second) →
        IfErr result (λ e. e.0 ≡ TwinUnsettled.OutOfMemory) }
    ensures back { IfErr result (λ e. (e.1 ≡ first) × (e.2 ≡ second) × (e.3 ≡ book)) }
{
    laws::a_lawful_snapshot_has_no_fault();
    match statements(alloc, &first, &second, &book) {
        Ok(statements) => {
            book.lose();
            Ok(statements)
        }
        Err(cause) => Err((cause, first, second, book)),
    }
}

/// The statements of two closed pools and the shares in their book.
fn statements(
    alloc: Global,
    first: &Closed,
    second: &Closed,
    book: &TwinBook,
) -> Result<(Statement, Statement), TwinUnsettled>
    ensures missing { (w : ℕ) → IsLeastMissing book.now.first w →
        MatchResult result (λ _. ⊥) (λ cause. cause ≡ TwinUnsettled.MissingShare w) }
    ensures full { IfOk result (λ _. IsFull book.now.first) }
    ensures lawful { IfOk result (λ _. IsLawful (first_with book.now first.now) × IsLawful (second_with book.now second.now)) }
    ensures statements { IfOk result (λ s.
        (s.0 ≡ statement_in (first_with book.now first.now)) × (s.1 ≡ statement_in (second_with book.now second.now))) }
    ensures once { IfOk result (λ s. ListsItsElements (first_with book.now first.now) s.0
        × ListsItsElements (second_with book.now second.now) s.1) }
    ensures places { IfOk result (λ s.
        PlacesEachOnce book.now.first.limits s.0 × PlacesEachOnce book.now.second.limits s.1) }
    ensures sound { IfOk result (λ s. ListsOnlyPackets s.0 × ListsOnlyPackets s.1) }
    ensures unsettled { IfErr result (λ cause. IsTwinUnsettled book.now first.now second.now cause) }
    ensures packets { IfErr result (λ cause.
        (cause ≢ TwinUnsettled.First Fault.BadPacket) × (cause ≢ TwinUnsettled.Second Fault.BadPacket)) }
{
    if let Some(worker) = book.first().missing() {
        return Err(TwinUnsettled::MissingShare(worker));
    }
    let first = match first_statement(alloc, first, book) {
        Ok(statement) => statement,
        Err(fault) => return Err(first_cause(fault)),
    };
    match second_statement(alloc, second, book) {
        Ok(second) => Ok((first, second)),
        Err(fault) => Err(second_cause(fault)),
    }
}

/// The statement of the first pool, or its first fault, or `OutOfMemory` where memory was refused.
fn first_statement(alloc: Global, closed: &Closed, book: &TwinBook) -> Result<Statement, Fault>
    ensures lawful { IfOk result (λ _. IsLawful (first_with book.now closed.now)) }
    ensures statement { IfOk result (λ s. s ≡ statement_in (first_with book.now closed.now)) }
    ensures once { IfOk result (λ s. ListsItsElements (first_with book.now closed.now) s) }
    ensures places { IfOk result (λ s. PlacesEachOnce book.now.first.limits s) }
    ensures sound { IfOk result (λ s. ListsOnlyPackets s) }
    ensures first { IfErr result (λ f. (f ≡ Fault.OutOfMemory) ⊎ (IsFirstFault (first_with book.now closed.now) f × AreOfPackets (first_with book.now closed.now))) }
    ensures packets { IfErr result (λ f. f ≢ Fault.BadPacket) }
{
    book.first().fits_its_limits();
    match first_snapshot(alloc, closed, book) {
        Ok(snapshot) => audit(alloc, &snapshot),
        Err(_) => Err(Fault::OutOfMemory),
    }
}

/// The statement of the second pool, or its first fault, or `OutOfMemory` where memory was refused.
fn second_statement(alloc: Global, closed: &Closed, book: &TwinBook) -> Result<Statement, Fault>
    ensures lawful { IfOk result (λ _. IsLawful (second_with book.now closed.now)) }
    ensures statement { IfOk result (λ s. s ≡ statement_in (second_with book.now closed.now)) }
    ensures once { IfOk result (λ s. ListsItsElements (second_with book.now closed.now) s) }
    ensures places { IfOk result (λ s. PlacesEachOnce book.now.second.limits s) }
    ensures sound { IfOk result (λ s. ListsOnlyPackets s) }
    ensures first { IfErr result (λ f. (f ≡ Fault.OutOfMemory) ⊎ (IsFirstFault (second_with book.now closed.now) f × AreOfPackets (second_with book.now closed.now))) }
    ensures packets { IfErr result (λ f. f ≢ Fault.BadPacket) }
{
    book.second().fits_its_limits();
    match second_snapshot(alloc, closed, book) {
        Ok(snapshot) => audit(alloc, &snapshot),
        Err(_) => Err(Fault::OutOfMemory),
    }
}

/// Why two pools aren't settled where the audit of the first answers this.
fn first_cause(fault: Fault) -> TwinUnsettled
    ensures { result ≡ first_cause_of fault }
{
    match fault {
        Fault::OutOfMemory => TwinUnsettled::OutOfMemory,
        _ => TwinUnsettled::First(fault),
    }
}

/// And where that of the second does.
fn second_cause(fault: Fault) -> TwinUnsettled
    ensures { result ≡ second_cause_of fault }
{
    match fault {
        Fault::OutOfMemory => TwinUnsettled::OutOfMemory,
        _ => TwinUnsettled::Second(fault),
    }
}
