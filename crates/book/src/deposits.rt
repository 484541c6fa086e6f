//! The shares of all workers, or of those who are left, put in the book of their pool.

ghost use Rattle.std.specs.Prelude.{◌≡◌, IfErr, IfOk, Some, map};
ghost use Rattle.std.specs.List.{range_with_len};
ghost use Rattle.commons.specs.Bounds.{IsPool};
ghost use Rattle.book.specs.Books.{IsFull, IsMissing, new_book, shares_in, with_share};
ghost use Rattle.book.specs.Lost.{AreOrdered, IsFullBut, unlisted_of, with_unlisted};

use crate::book::Book;
use crate::share::{Share, lose_all};
use commons::limits::Limits;
use commons::refusal::Refusal;
use std::alloc::Global;

/// The book of a pool of these limits with the shares of all workers, which are in the order of
/// their numbers.
///
/// Refused `OutOfMemory` where memory was refused. The shares are lost then.
pub(crate) fn full_book(alloc: Global, limits: &Limits, shares: Vec<Share>) -> Result<Book, Refusal>
    requires range { IsPool limits.now }
    requires workers { map (λ share. share.number) shares.items ≡ range_with_len 1 limits.now.workers }
    ensures limits { IfOk result (λ book. book.limits ≡ limits.now) }
    ensures shares { IfOk result (λ book. shares_in book.places ≡ shares.items) }
    ensures full { IfOk result (λ book. IsFull book) }
    ensures memory { IfErr result (λ e. e ≡ Refusal.OutOfMemory) }
{
    match Book::make(alloc, limits) {
        Ok(mut book) => {
            deposit_all(&mut book, shares);
            Ok(book)
        }
        Err(cause) => {
            lose_all(shares);
            Err(cause)
        }
    }
}

/// Puts the shares of all workers, in the order of their numbers, in a book without shares.
pub fn deposit_all(book: &mut Book, mut shares: Vec<Share>)
    requires empty { book.old ≡ new_book book.old.limits }
    requires workers { map (λ share. share.number) shares.items ≡ range_with_len 1 book.old.limits.workers }
    ensures filled { book.new ≡ record book.old { places = map Some shares.items } }
    ensures shares { shares_in book.new.places ≡ shares.items }
    ensures full { IsFull book.new }
{
    while let Some(share) = shares.pop() {
        fill(book, share);
    }
    shares.destroy_empty();
}

/// Puts the shares of those workers who aren't listed, in the order of their numbers, in a book
/// without shares. What is listed is lost. Where each worker has a share or is listed, the book
/// lacks no other's.
pub fn deposit_unlisted(book: &mut Book, mut shares: Vec<Share>, listed: &[u32])
    requires empty { book.old ≡ new_book book.old.limits }
    requires ordered { AreOrdered book.old.limits listed.now shares.items }
    ensures limits { book.new.limits ≡ book.old.limits }
    ensures shares { shares_in book.new.places ≡ unlisted_of listed.now shares.items }
    ensures full { IsFullBut book.new listed.now }
{
    while let Some(share) = shares.pop() {
        deposit_unless(book, share, listed);
    }
    shares.destroy_empty();
    book.fits_its_limits();
}

/// Puts a share in the place of its worker, unless that worker is listed: then the share is lost.
fn deposit_unless(book: &mut Book, share: Share, listed: &[u32])
    requires { IsMissing book.old share.number }
    ensures { book.new ≡ with_unlisted listed.now book.old share }
{
    if listed.contains(&share.worker()) {
        share.lose();
    } else {
        fill(book, share);
    }
}

/// Puts a share in the place of its worker, which is empty.
fn fill(book: &mut Book, share: Share)
    requires { IsMissing book.old share.number }
    ensures { book.new ≡ with_share book.old share }
{
    if let Err((_, share)) = book.deposit(share) {
        share.lose();
        unreachable!()
    }
}
