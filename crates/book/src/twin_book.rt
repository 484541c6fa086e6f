//! The book of two pools: `deposit` fills the places of a share's worker in both, and nothing
//! empties them again. `settle_twin` reads the places, and `lose` ends them.

ghost use Rattle.std.specs.Prelude.{◌≡◌, ◌↔◌, IfOk, IfErr, IsOk, OnOk, OnErr};
ghost use Rattle.book.specs.Books.{IsMissing};
ghost use Rattle.book.specs.TwinBooks.{AreFilledAlike, IsTwinCause, new_twin_book, with_twin_share};

use crate::book::Book;
use crate::twin_share::TwinShare;
use commons::limits::Limits;
use commons::refusal::Refusal;
use std::alloc::Global;
use std::marker::Model;
use std::sync::{Mutex, Wait};

/// A place for the share of each worker of two pools. It can't be dropped: `lose` ends it.
pub struct TwinBook {
    first: Book,
    second: Book,
}

impl Model for TwinBook {
    ghost use Rattle.book.specs.TwinPlaces.{TwinPlaces};

    ghost Value = { TwinPlaces };

    ghost use Rattle.book.specs.inside.TwinKept.{places_of, IsTwinBook};

    ghost view = { places_of };

    ghost invariant = { IsTwinBook };
}

impl TwinBook {
    /// A book without shares.
    ///
    /// Refused `BadPool` where limits are out of range, or the pools haven't as many workers, and
    /// `OutOfMemory` where memory was refused.
    pub fn make(alloc: Global, first: &Limits, second: &Limits) -> Result<TwinBook, Refusal>
        ensures ok { IfOk result (λ b. b ≡ new_twin_book first.now second.now) }
        ensures cause { IfErr result (IsTwinCause first.now second.now) }
    {
        second.check()?;
        if second.workers != first.workers {
            return Err(Refusal::BadPool);
        }
        let first = Book::make(alloc, first)?;
        match Book::make(alloc, second) {
            Ok(second) => Ok(TwinBook { first, second }),
            Err(cause) => {
                first.lose();
                Err(cause)
            }
        }
    }

    /// A law of each book: it has the same workers' shares of both pools. It does nothing.
    pub fn is_filled_alike(&self)
        ensures { AreFilledAlike self.now }
    {
        let _known = &self.first;
    }

    /// Puts a share in the places of its worker.
    ///
    /// Refused `StrangerShare` where the pools have no such worker, or its place is filled. The
    /// book is then as before, and the share is handed back.
    pub fn deposit(&mut self, share: TwinShare) -> Result<(), (Refusal, TwinShare)>
        ensures room { IsOk result ↔ IsMissing self.old.first share.first.number }
        ensures filled { OnOk result (self.new ≡ with_twin_share self.old share) }
        ensures refused { IfErr result (λ e. (e.0 ≡ Refusal.StrangerShare) × (e.1 ≡ share)) }
        ensures kept { OnErr result (self.new ≡ self.old) }
    {
        self.first.fits_its_limits();
        self.second.fits_its_limits();
        let (first, second) = share.into_parts();
        match self.first.deposit(first) {
            Ok(()) => {
                if let Err((_, second)) = self.second.deposit(second) {
                    second.lose();
                    unreachable!()
                }
                Ok(())
            }
            Err((cause, first)) => Err((cause, TwinShare::of(first, second))),
        }
    }

    /// The book of the first pool.
    pub fn first(&self) -> &Book
        ensures { result.now ≡ self.now.first }
    {
        &self.first
    }

    /// The book of the second pool.
    pub fn second(&self) -> &Book
        ensures { result.now ≡ self.now.second }
    {
        &self.second
    }

    /// Ends the book with its shares, and gives nothing back.
    pub fn lose(self) {
        let TwinBook { first, second } = self;
        first.lose();
        second.lose();
    }
}

/// Takes the lock of a book that threads share, and puts a share in the places of its worker.
///
/// Refused `StrangerShare` as `TwinBook::deposit` is. The share is then handed back.
pub fn deposit_twin<R: Wait>(
    rt: &R,
    book: &Mutex<TwinBook>,
    share: TwinShare,
) -> Result<(), (Refusal, TwinShare)>
    ensures { IfErr result (λ e. (e.0 ≡ Refusal.StrangerShare) × (e.1 ≡ share)) }
{
    book.lock(rt).deposit(share)
}
