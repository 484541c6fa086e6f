//! The book of a pool: `deposit` fills the place of a share's worker, and nothing empties it again.
//! `settle` reads the places, and `lose` ends them.

ghost use Rattle.std.specs.Prelude.{◌≡◌, ◌↔◌, length, replicate, IfOk, IfErr, IsOk, OnOk, OnErr, MatchOption, None};
ghost use Rattle.commons.specs.Bounds.{IsPool};
ghost use Rattle.commons.specs.Lists.{IsMakeCause};
ghost use Rattle.book.specs.Books.{AreShares, IsFull, IsLeastMissing, IsMissing, new_book, with_share};
ghost use Rattle.book.specs.Lost.{IsFullBut, IsLeastUnlisted};

use crate::share::Share;
use commons::limits::Limits;
use commons::refusal::Refusal;
use std::alloc::{AllocError, Global};
use std::marker::Model;
use std::mem;
use std::sync::{Mutex, Wait};

/// A place for the share of each worker of a pool. It can't be dropped: `lose` ends it.
pub struct Book {
    limits: Limits,
    places: Vec<Option<Share>>,
}

impl Model for Book {
    ghost use Rattle.book.specs.Places.{Places};

    ghost Value = { Places };

    ghost use Rattle.book.specs.inside.Kept.{places_of, IsBook};

    ghost view = { places_of };

    ghost invariant = { IsBook };
}

impl Book {
    /// A book without shares.
    ///
    /// Refused `BadPool` where the limits are out of range, and `OutOfMemory` where memory was
    /// refused.
    pub fn make(alloc: Global, limits: &Limits) -> Result<Book, Refusal>
        ensures ok { IfOk result (λ b. b ≡ new_book limits.now) }
        ensures cause { IfErr result (IsMakeCause limits.now) }
    {
        limits.check()?;
        match no_shares(alloc, limits.workers as usize) {
            Ok(places) => Ok(Book {
                limits: *limits,
                places,
            }),
            Err(_) => Err(Refusal::OutOfMemory),
        }
    }

    /// A law of each book: its limits are in range, it has a place for each worker, and a share
    /// stands in the place of its worker and has 256 slots. It does nothing.
    pub fn fits_its_limits(&self)
        ensures range { IsPool self.now.limits }
        ensures workers { length self.now.places ≡ self.now.limits.workers }
        ensures each { AreShares self.now.places }
    {
        let _known = &self.places;
    }

    /// The least worker whose share isn't in the book.
    pub fn missing(&self) -> Option<u32>
        ensures { MatchOption result (IsFull self.now) (λ w. IsLeastMissing self.now w) }
    {
        for (at, place) in self.places.iter().enumerate() {
            if place.is_none() {
                return Some(at as u32 + 1);
            }
        }
        None
    }

    /// The least worker whose share isn't in the book and who isn't listed. A listed number that
    /// isn't a worker's is passed over.
    pub fn missing_but(&self, listed: &[u32]) -> Option<u32>
        ensures { MatchOption result (IsFullBut self.now listed.now) (λ w. IsLeastUnlisted self.now listed.now w) }
    {
        for (at, place) in self.places.iter().enumerate() {
            let worker = at as u32 + 1;
            if place.is_none() && !listed.contains(&worker) {
                return Some(worker);
            }
        }
        None
    }

    /// Puts a share in the place of its worker.
    ///
    /// Refused `StrangerShare` where the pool has no such worker, or its place is filled. The book
    /// is then as before, and the share is handed back.
    pub fn deposit(&mut self, share: Share) -> Result<(), (Refusal, Share)>
        ensures room { IsOk result ↔ IsMissing self.old share.number }
        ensures filled { OnOk result (self.new ≡ with_share self.old share) }
        ensures refused { IfErr result (λ e. (e.0 ≡ Refusal.StrangerShare) × (e.1 ≡ share)) }
        ensures kept { OnErr result (self.new ≡ self.old) }
    {
        let number = share.worker() as usize;
        if number == 0 || number > self.places.len() {
            return Err((Refusal::StrangerShare, share));
        }
        if self.places[number - 1].is_some() {
            return Err((Refusal::StrangerShare, share));
        }
        share.has_slots();
        if let Some(share) = mem::replace(&mut self.places[number - 1], Some(share)) {
            share.lose();
        }
        Ok(())
    }

    /// The limits of the pool.
    pub fn limits(&self) -> &Limits
        ensures { result.now ≡ self.now.limits }
    {
        &self.limits
    }

    /// The places of the shares, by worker.
    pub(crate) fn places(&self) -> &[Option<Share>]
        ensures { result.now ≡ self.now.places }
    {
        self.places.as_slice()
    }

    /// Ends the book with its shares, and gives nothing back.
    pub fn lose(self) {
        let Book {
            limits: _,
            mut places,
        } = self;
        while let Some(place) = places.pop() {
            if let Some(share) = place {
                share.lose();
            }
        }
        places.destroy_empty();
    }
}

/// Takes the lock of a book that threads share, and puts a share in the place of its worker.
///
/// Refused `StrangerShare` as `Book::deposit` is. The share is then handed back.
pub fn deposit<R: Wait>(rt: &R, book: &Mutex<Book>, share: Share) -> Result<(), (Refusal, Share)>
    ensures { IfErr result (λ e. (e.0 ≡ Refusal.StrangerShare) × (e.1 ≡ share)) }
{
    book.lock(rt).deposit(share)
}

/// This many empty places.
fn no_shares(alloc: Global, workers: usize) -> Result<Vec<Option<Share>>, AllocError>
    ensures { IfOk result (λ v. v.items ≡ replicate workers None) }
{
    let mut places = Vec::with_capacity(alloc, workers)?;
    for _ in 0..workers {
        places.push_reserved(None);
    }
    Ok(places)
}
