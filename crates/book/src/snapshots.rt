//! What closed pools left, with the shares of all their workers, as snapshots: what an audit of the
//! pools reads. A whole pool that is at rest leaves a lawful one.

ghost use Rattle.std.specs.Prelude.{◌≡◌, IfErr, IfOk};
ghost use Rattle.snapshot.specs.Closing.{snapshot_of};
ghost use Rattle.snapshot.specs.Snapshots.{IsLawful};
ghost use Rattle.book.specs.Left.{AreLeftWhole, IsLawfulByTypes, IsLeftWhole, first_of, second_of};
ghost use Rattle.book.specs.Settling.{snapshot_with};
ghost use Rattle.book.specs.TwinSettling.{first_with, second_with};

use crate::book::Book;
use crate::closed_twin::ClosedTwin;
use crate::copies;
use crate::copies::{first_snapshot, second_snapshot};
use crate::deposits::full_book;
use crate::share::Share;
use crate::twin_book::TwinBook;
use crate::twin_deposits::full_twin_book;
use commons::closed::Closed;
use commons::limits::Limits;
use commons::refusal::Refusal;
use snapshot::snapshot::Snapshot;
use std::alloc::{AllocError, Global};

/// The snapshot of what a whole pool of these limits left at rest, when it was closed, with the
/// shares of all its workers. It is lawful.
///
/// Refused `OutOfMemory` where memory was refused. Nothing is left of the pool then either.
pub fn snapshot_of_parts(
    alloc: Global,
    limits: &Limits,
    closed: Closed,
    shares: Vec<Share>,
) -> Result<Snapshot, Refusal>
    requires { IsLeftWhole limits.now closed shares.items }
    ensures snapshot { IfOk result (λ s. s ≡ snapshot_of limits.now closed shares.items) }
    ensures lawful { IfOk result (λ s. IsLawful s) }
    ensures memory { IfErr result (λ e. e ≡ Refusal.OutOfMemory) }
{
    let book = full_book(alloc, limits, shares)?;
    snapshot_of_book(alloc, closed, book)
}

/// The snapshot of what a pool left with its book, which is ended.
fn snapshot_of_book(alloc: Global, closed: Closed, book: Book) -> Result<Snapshot, Refusal>
    requires { IsLawfulByTypes (snapshot_with book closed) }
    ensures snapshot { IfOk result (λ s. s ≡ snapshot_with book closed) }
    ensures lawful { IfOk result (λ s. IsLawful s) }
    ensures memory { IfErr result (λ e. e ≡ Refusal.OutOfMemory) }
{
    let copied = copies::snapshot(alloc, &closed, &book);
    book.lose();
    match copied {
        Ok(snapshot) => Ok(snapshot),
        Err(_) => Err(Refusal::OutOfMemory),
    }
}

/// The snapshots of what two whole pools left at rest, when they were closed, with the shares of
/// all their workers: the first with its guests, which are the bases of the second one's packets;
/// to the second these are foreign. Both are lawful.
///
/// Refused `OutOfMemory` where memory was refused. Nothing is left of the pools then either.
pub fn snapshots_of_twins(
    alloc: Global,
    closed: ClosedTwin,
) -> Result<(Snapshot, Snapshot), Refusal>
    requires { AreLeftWhole closed }
    ensures first { IfOk result (λ s. s.0 ≡ first_of closed.first_limits closed.first closed.shares.items) }
    ensures second { IfOk result (λ s. s.1 ≡ second_of closed.second_limits closed.second closed.shares.items) }
    ensures lawful { IfOk result (λ s. IsLawful s.0 × IsLawful s.1) }
    ensures memory { IfErr result (λ e. e ≡ Refusal.OutOfMemory) }
{
    let ClosedTwin {
        first_limits,
        first,
        second_limits,
        second,
        shares,
    } = closed;
    let book = full_twin_book(alloc, &first_limits, &second_limits, shares)?;
    snapshots_of_book(alloc, first, second, book)
}

/// The snapshots of what two pools left with their book, which is ended.
fn snapshots_of_book(
    alloc: Global,
    first: Closed,
    second: Closed,
    book: TwinBook,
) -> Result<(Snapshot, Snapshot), Refusal>
    requires first_lawful { IsLawfulByTypes (first_with book first) }
    requires second_lawful { IsLawfulByTypes (second_with book second) }
    ensures first { IfOk result (λ s. s.0 ≡ first_with book first) }
    ensures second { IfOk result (λ s. s.1 ≡ second_with book second) }
    ensures lawful { IfOk result (λ s. IsLawful s.0 × IsLawful s.1) }
    ensures memory { IfErr result (λ e. e ≡ Refusal.OutOfMemory) }
{
    let copied = snapshots(alloc, &first, &second, &book);
    book.lose();
    match copied {
        Ok(both) => Ok(both),
        Err(_) => Err(Refusal::OutOfMemory),
    }
}

/// The snapshots of what two pools left with their book.
fn snapshots(
    alloc: Global,
    first: &Closed,
    second: &Closed,
    book: &TwinBook,
) -> Result<(Snapshot, Snapshot), AllocError>
    requires first_lawful { IsLawfulByTypes (first_with book.now first.now) }
    requires second_lawful { IsLawfulByTypes (second_with book.now second.now) }
    ensures first { IfOk result (λ s. s.0 ≡ first_with book.now first.now) }
    ensures second { IfOk result (λ s. s.1 ≡ second_with book.now second.now) }
    ensures lawful { IfOk result (λ s. IsLawful s.0 × IsLawful s.1) }
{
    let one = first_snapshot(alloc, first, book)?;
    let other = second_snapshot(alloc, second, book)?;
    Ok((one, other))
}
