//! The end of a pool: it is closed, its workers' shares are put in a book, and the book is settled.

ghost use Rattle.std.specs.Prelude.{◌≡◌, IfOk, IfErr, map};
ghost use Rattle.std.specs.List.{range_with_len};
ghost use Rattle.commons.specs.Bounds.{IsPool};
ghost use Rattle.pool_model.specs.Sound.{ListsSoundPackets};
ghost use Rattle.pool_model.specs.Statements.{ListsEachOnce, PlacesEachOnce, statement_of};
ghost use Rattle.snapshot.specs.Closing.{snapshot_of};
ghost use Rattle.snapshot.specs.Lost.{AreLost};
ghost use Rattle.snapshot.specs.Snapshots.{IsLawful};
ghost use Rattle.book.specs.Lost.{AreLostWith, unlisted_of};

use crate::site_pool::SitePool;
use book::ending::{elements_lost, settled_parts};
use book::laws;
use book::share::Share;
use commons::closed::Closed;
use commons::limits::Limits;
use commons::refusal::Refusal;
use pool_statement::statement::Statement;
use std::alloc::Global;

/// Closes a pool and settles it with the shares of all its workers. The statement is that of the
/// pool as it was: each element is listed exactly once, and each packet has a place of its own, 1
/// to 32 segments and their data within its buffers; no count is above the reference limit, and
/// bases are direct.
///
/// Refused `OutOfMemory` where memory was refused. The pool is ended then too, and nothing is left
/// of it.
pub fn settled(alloc: Global, pool: SitePool) -> Result<Statement, Refusal>
    ensures statement { IfOk result (λ s. s ≡ statement_of pool) }
    ensures once { IfOk result (λ s. ListsEachOnce s) }
    ensures places { IfOk result (λ s. PlacesEachOnce pool.limits s) }
    ensures sound { IfOk result (λ s. ListsSoundPackets pool.limits s) }
    ensures memory { IfErr result (λ e. e ≡ Refusal.OutOfMemory) }
{
    pool.fits_its_limits();
    pool.lists_sound_packets();
    match pool.close(alloc) {
        Ok((limits, closed, shares)) => settled_parts(alloc, &limits, closed, shares),
        Err((cause, pool)) => {
            pool.lose();
            Err(cause)
        }
    }
}

/// Closes a pool and tells which elements are lost with the workers who are listed as missing,
/// ascending: exactly those that such a worker has in its cache, or such workers alone hold. The
/// others' shares are put in a book; a listed number that isn't a worker's is passed over.
///
/// Refused `OutOfMemory` where memory was refused. The pool is ended then too, and nothing is left
/// of it.
pub fn settled_without(alloc: Global, pool: SitePool, missing: &[u32]) -> Result<Vec<u32>, Refusal>
    ensures lost { IfOk result (λ elems. AreLostWith pool.limits missing.now pool.members pool.shared.desks elems.items) }
    ensures memory { IfErr result (λ e. e ≡ Refusal.OutOfMemory) }
{
    pool.fits_its_limits();
    match pool.close(alloc) {
        Ok((limits, closed, shares)) => {
            settled_parts_without(alloc, &limits, closed, shares, missing)
        }
        Err((cause, pool)) => {
            pool.lose();
            Err(cause)
        }
    }
}

/// Tells which elements are lost with the workers who are listed as missing, of what a pool within
/// these limits left, when it was closed, and of the shares of all its workers: those of the listed
/// ones are lost.
///
/// Refused `OutOfMemory` where memory was refused. Nothing is left of the pool then either.
pub fn settled_parts_without(
    alloc: Global,
    limits: &Limits,
    closed: Closed,
    shares: Vec<Share>,
    missing: &[u32],
) -> Result<Vec<u32>, Refusal>
    requires range { IsPool limits.now }
    requires workers { map (λ share. share.number) shares.items ≡ range_with_len 1 limits.now.workers }
    requires lawful { IsLawful (snapshot_of limits.now closed shares.items) }
    ensures settled { IfOk result (λ elems.
        AreLost (snapshot_of limits.now closed (unlisted_of missing.now shares.items)) elems.items) }
    // Above that: it is exactly what the listed workers have and nobody else.
    ensures lost { IfOk result (λ elems. AreLostWith limits.now missing.now shares.items closed.desks elems.items) }
    ensures memory { IfErr result (λ e. e ≡ Refusal.OutOfMemory) }
{
    laws::what_stands_nowhere_is_lost();
    laws::all_workers_are_in_order();
    elements_lost(alloc, limits, closed, shares, missing)
}
