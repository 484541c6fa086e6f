//! The end of a pool: the shares of its workers are put in a book, and the book is settled. Where
//! some workers are missing, it is said which elements are lost beside the shares of the others.

ghost use Rattle.std.specs.Prelude.{◌≡◌, ◌+◌, IfErr, IfOk};
ghost use Rattle.commons.specs.Bounds.{IsPool};
ghost use Rattle.pool_model.specs.Sound.{ListsOnlyPackets};
ghost use Rattle.pool_model.specs.Statements.{ListsEachOnce, PlacesEachOnce};
ghost use Rattle.snapshot.specs.Closing.{snapshot_of};
ghost use Rattle.snapshot.specs.Lost.{AreLost};
ghost use Rattle.snapshot.specs.Snapshots.{IsLawful, statement_in};
ghost use Rattle.book.specs.Books.{IsFull};
ghost use Rattle.book.specs.Left.{IsLawfulByTypes, IsLeftWhole};
ghost use Rattle.book.specs.Lost.{AreOrdered, IsFullBut, unlisted_of};
ghost use Rattle.book.specs.Settling.{snapshot_with};

use crate::book::Book;
use crate::deposits::{deposit_unlisted, full_book};
use crate::losing::settle_without;
use crate::settling::{Unsettled, settle};
use crate::share::{Share, lose_all};
use commons::closed::Closed;
use commons::limits::Limits;
use commons::refusal::Refusal;
use pool_statement::statement::Statement;
use std::alloc::Global;

/// Settles what a whole pool of these limits left at rest, when it was closed, with the shares of
/// all its workers. The statement is that of the snapshot that they make: it lists each element
/// exactly once, and what is available and what is in use are the population. Each packet that it
/// lists has 1 to 32 segments, each with its data within its buffer.
///
/// Refused `OutOfMemory` where memory was refused. Nothing is left of the pool then either.
pub fn settled_parts(
    alloc: Global,
    limits: &Limits,
    closed: Closed,
    shares: Vec<Share>,
) -> Result<Statement, Refusal>
    requires { IsLeftWhole limits.now closed shares.items }
    ensures lawful { IfOk result (λ _. IsLawful (snapshot_of limits.now closed shares.items)) }
    ensures statement { IfOk result (λ s. s ≡ statement_in (snapshot_of limits.now closed shares.items)) }
    ensures once { IfOk result (λ s. ListsEachOnce s) }
    ensures places { IfOk result (λ s. PlacesEachOnce limits.now s) }
    ensures sound { IfOk result (λ s. ListsOnlyPackets s) }
    ensures whole { IfOk result (λ s. s.available + s.in_use ≡ limits.now.population) }
    ensures memory { IfErr result (λ e. e ≡ Refusal.OutOfMemory) }
{
    let book = full_book(alloc, limits, shares)?;
    settled_book(alloc, closed, book)
}

/// Settles what a pool left with a book that has the shares of all its workers.
fn settled_book(alloc: Global, closed: Closed, book: Book) -> Result<Statement, Refusal>
    requires full { IsFull book }
    requires lawful { IsLawfulByTypes (snapshot_with book closed) }
    ensures lawful { IfOk result (λ _. IsLawful (snapshot_with book closed)) }
    ensures statement { IfOk result (λ s. s ≡ statement_in (snapshot_with book closed)) }
    ensures once { IfOk result (λ s. ListsEachOnce s) }
    ensures places { IfOk result (λ s. PlacesEachOnce book.limits s) }
    ensures sound { IfOk result (λ s. ListsOnlyPackets s) }
    ensures whole { IfOk result (λ s. s.available + s.in_use ≡ book.limits.population) }
    ensures memory { IfErr result (λ e. e ≡ Refusal.OutOfMemory) }
{
    match settle(alloc, closed, book) {
        Ok(statement) => Ok(statement),
        Err((cause, _, book)) => {
            book.lose();
            match cause {
                Unsettled::OutOfMemory => Err(Refusal::OutOfMemory),
                _ => unreachable!(),
            }
        }
    }
}

/// The elements that a pool of these limits has lost, ascending: those that are neither in what it
/// left, nor in the share of a worker who isn't listed as missing. Each worker hands in a share, in
/// the order of their numbers, or is listed; the share of one who is listed is lost.
///
/// Refused `OutOfMemory` where memory was refused. Nothing is left of the pool then either.
pub fn elements_lost(
    alloc: Global,
    limits: &Limits,
    closed: Closed,
    shares: Vec<Share>,
    missing: &[u32],
) -> Result<Vec<u32>, Refusal>
    requires range { IsPool limits.now }
    requires ordered { AreOrdered limits.now missing.now shares.items }
    ensures lost { IfOk result (λ elems.
        AreLost (snapshot_of limits.now closed (unlisted_of missing.now shares.items)) elems.items) }
    ensures memory { IfErr result (λ e. e ≡ Refusal.OutOfMemory) }
{
    match Book::make(alloc, limits) {
        Ok(mut book) => {
            deposit_unlisted(&mut book, shares, missing);
            elements_lost_by(alloc, closed, book, missing)
        }
        Err(cause) => {
            lose_all(shares);
            Err(cause)
        }
    }
}

/// The elements that a pool has lost, by a book that has the share of each worker who isn't listed
/// as missing.
fn elements_lost_by(
    alloc: Global,
    closed: Closed,
    book: Book,
    missing: &[u32],
) -> Result<Vec<u32>, Refusal>
    requires { IsFullBut book missing.now }
    ensures lost { IfOk result (λ elems. AreLost (snapshot_with book closed) elems.items) }
    ensures memory { IfErr result (λ e. e ≡ Refusal.OutOfMemory) }
{
    match settle_without(alloc, closed, book, missing) {
        Ok(elems) => Ok(elems),
        Err((cause, _, book)) => {
            book.lose();
            match cause {
                Unsettled::OutOfMemory => Err(Refusal::OutOfMemory),
                _ => unreachable!(),
            }
        }
    }
}
