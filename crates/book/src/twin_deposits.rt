//! The shares of all workers of two pools, put in the book of these.

ghost use Rattle.std.specs.Prelude.{◌≡◌, IfErr, IfOk, map};
ghost use Rattle.std.specs.List.{range_with_len};
ghost use Rattle.book.specs.Books.{IsFull, shares_in};
ghost use Rattle.book.specs.TwinBooks.{AreTwins, new_twin_book};

use crate::twin_book::TwinBook;
use crate::twin_share::{TwinShare, lose_all_twins};
use commons::limits::Limits;
use commons::refusal::Refusal;
use std::alloc::Global;

/// The book of two pools of these limits with the shares of all workers, which are in the order of
/// their numbers.
///
/// Refused `OutOfMemory` where memory was refused. The shares are lost then.
pub(crate) fn full_twin_book(
    alloc: Global,
    first: &Limits,
    second: &Limits,
    shares: Vec<TwinShare>,
) -> Result<TwinBook, Refusal>
    requires pools { AreTwins first.now second.now }
    requires first { map (λ m. m.number) (map (λ share. share.first) shares.items) ≡ range_with_len 1 first.now.workers }
    requires second { map (λ m. m.number) (map (λ share. share.second) shares.items) ≡ range_with_len 1 second.now.workers }
    ensures first_limits { IfOk result (λ book. book.first.limits ≡ first.now) }
    ensures second_limits { IfOk result (λ book. book.second.limits ≡ second.now) }
    ensures first_shares { IfOk result (λ book. shares_in book.first.places ≡ map (λ share. share.first) shares.items) }
    ensures second_shares { IfOk result (λ book. shares_in book.second.places ≡ map (λ share. share.second) shares.items) }
    ensures full { IfOk result (λ book. IsFull book.first) }
    ensures memory { IfErr result (λ e. e ≡ Refusal.OutOfMemory) }
{
    match TwinBook::make(alloc, first, second) {
        Ok(mut book) => {
            deposit_all_twins(&mut book, shares);
            Ok(book)
        }
        Err(cause) => {
            lose_all_twins(shares);
            Err(cause)
        }
    }
}

/// Puts the shares of all workers, in the order of their numbers, in a book without shares.
pub fn deposit_all_twins(book: &mut TwinBook, mut shares: Vec<TwinShare>)
    requires empty { book.old ≡ new_twin_book book.old.first.limits book.old.second.limits }
    requires first { map (λ m. m.number) (map (λ share. share.first) shares.items) ≡ range_with_len 1 book.old.first.limits.workers }
    requires second { map (λ m. m.number) (map (λ share. share.second) shares.items) ≡ range_with_len 1 book.old.second.limits.workers }
    ensures first_limits { book.new.first.limits ≡ book.old.first.limits }
    ensures second_limits { book.new.second.limits ≡ book.old.second.limits }
    ensures first_shares { shares_in book.new.first.places ≡ map (λ share. share.first) shares.items }
    ensures second_shares { shares_in book.new.second.places ≡ map (λ share. share.second) shares.items }
    ensures full { IsFull book.new.first }
{
    while let Some(share) = shares.pop() {
        if let Err((_, share)) = book.deposit(share) {
            share.lose();
            unreachable!()
        }
    }
    shares.destroy_empty();
}
