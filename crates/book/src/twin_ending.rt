//! The end of two pools: the shares of all their workers are put in a book, and both are settled.

ghost use Rattle.std.specs.Prelude.{◌≡◌, ◌+◌, IfOk, IfErr, true};
ghost use Rattle.pool_model.specs.Guests.{ListsEachOnceWith, guests_listed, local_statement};
ghost use Rattle.pool_model.specs.Sound.{ListsOnlyPackets};
ghost use Rattle.pool_model.specs.Statements.{ListsEachOnce, PlacesEachOnce};
ghost use Rattle.snapshot.specs.Snapshots.{IsLawful, ListsItsElements, statement_in};
ghost use Rattle.book.specs.Books.{IsFull};
ghost use Rattle.book.specs.Left.{AreLeftWhole, IsLawfulByTypes, first_of, second_of};
ghost use Rattle.book.specs.TwinSettling.{first_with, second_with};

use crate::closed_twin::ClosedTwin;
use crate::twin_book::TwinBook;
use crate::twin_deposits::full_twin_book;
use crate::twin_settling::{TwinUnsettled, settle_twin};
use commons::closed::Closed;
use commons::refusal::Refusal;
use pool_statement::statement::Statement;
use std::alloc::Global;

/// Settles what two whole pools left at rest, when they were closed, with the shares of all their
/// workers: neither has a fault. Each statement lists each element of its pool exactly once: the
/// bases of the packets that the second lists are elements of the first, which their workers hold.
/// What is available and what is in use are the population of each. Each packet that is listed has
/// 1 to 32 segments, each with its data within its buffer.
///
/// Refused `OutOfMemory` where memory was refused. Nothing is left of the pools then either.
pub fn settled_twins(alloc: Global, closed: ClosedTwin) -> Result<(Statement, Statement), Refusal>
    requires { AreLeftWhole closed }
    ensures first_statement { IfOk result (λ s. s.0 ≡ statement_in (first_of closed.first_limits closed.first closed.shares.items)) }
    ensures second_statement { IfOk result (λ s. s.1 ≡ statement_in (second_of closed.second_limits closed.second closed.shares.items)) }
    ensures lawful { IfOk result (λ _. IsLawful (first_of closed.first_limits closed.first closed.shares.items)
        × IsLawful (second_of closed.second_limits closed.second closed.shares.items)) }
    ensures first_once { IfOk result (λ s. ListsItsElements (first_of closed.first_limits closed.first closed.shares.items) s.0) }
    ensures second_once { IfOk result (λ s. ListsItsElements (second_of closed.second_limits closed.second closed.shares.items) s.1) }
    // That each lists its elements once is read off both statements alone.
    ensures each { IfOk result (λ s. ListsEachOnceWith (guests_listed s.1) s.0 × ListsEachOnce (local_statement true s.1)) }
    ensures places { IfOk result (λ s. PlacesEachOnce closed.first_limits s.0 × PlacesEachOnce closed.second_limits s.1) }
    ensures sound { IfOk result (λ s. ListsOnlyPackets s.0 × ListsOnlyPackets s.1) }
    ensures whole { IfOk result (λ s. (s.0.available + s.0.in_use ≡ closed.first_limits.population)
        × (s.1.available + s.1.in_use ≡ closed.second_limits.population)) }
    ensures memory { IfErr result (λ e. e ≡ Refusal.OutOfMemory) }
{
    let ClosedTwin {
        first_limits,
        first,
        second_limits,
        second,
        shares,
    } = closed;
    let book = full_twin_book(alloc, &first_limits, &second_limits, shares)?;
    settled_book(alloc, first, second, book)
}

/// Settles what two pools left with a book that has the shares of all their workers.
fn settled_book(
    alloc: Global,
    first: Closed,
    second: Closed,
    book: TwinBook,
) -> Result<(Statement, Statement), Refusal>
    requires full { IsFull book.first }
    requires first_lawful { IsLawfulByTypes (first_with book first) }
    requires second_lawful { IsLawfulByTypes (second_with book second) }
    ensures first_statement { IfOk result (λ s. s.0 ≡ statement_in (first_with book first)) }
    ensures second_statement { IfOk result (λ s. s.1 ≡ statement_in (second_with book second)) }
    ensures lawful { IfOk result (λ _. IsLawful (first_with book first) × IsLawful (second_with book second)) }
    ensures first_once { IfOk result (λ s. ListsItsElements (first_with book first) s.0) }
    ensures second_once { IfOk result (λ s. ListsItsElements (second_with book second) s.1) }
    ensures each { IfOk result (λ s. ListsEachOnceWith (guests_listed s.1) s.0 × ListsEachOnce (local_statement true s.1)) }
    ensures places { IfOk result (λ s. PlacesEachOnce book.first.limits s.0 × PlacesEachOnce book.second.limits s.1) }
    ensures sound { IfOk result (λ s. ListsOnlyPackets s.0 × ListsOnlyPackets s.1) }
    ensures whole { IfOk result (λ s. (s.0.available + s.0.in_use ≡ book.first.limits.population)
        × (s.1.available + s.1.in_use ≡ book.second.limits.population)) }
    ensures memory { IfErr result (λ e. e ≡ Refusal.OutOfMemory) }
{
    match settle_twin(alloc, first, second, book) {
        Ok(statements) => Ok(statements),
        Err((cause, _, _, book)) => {
            book.lose();
            match cause {
                TwinUnsettled::OutOfMemory => Err(Refusal::OutOfMemory),
                _ => unreachable!(),
            }
        }
    }
}
