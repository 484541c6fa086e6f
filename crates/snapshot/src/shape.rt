//! Whether a snapshot has the shape of its pool.

ghost use Rattle.std.specs.Prelude.{◌≡◌, ◌≤◌, ◌↔◌, All, IfErr, IfOk, IsTrue, length, map};
ghost use Rattle.std.specs.List.{range_with_len};
ghost use Rattle.commons.specs.Bounds.{IsPool};
ghost use Rattle.pool_model.specs.Guests.{AreOfWorkers};
ghost use Rattle.snapshot.specs.Faults.{IsFirstFault};
ghost use Rattle.snapshot.specs.Snapshots.{HasShape, most_places};

use crate::fault::Fault;
use crate::snapshot::{ShareData, Snapshot};
use pool_statement::guest::Guest;

/// The most guests that a worker may have: the segments of 256 packets.
const MOST_GUESTS: u64 = 8192;

/// The most places of a share: a slot's number has 32 bits.
const MOST_PLACES: u64 = 1 << 32;

/// Tests whether a snapshot has the shape of its pool, else answers `BadShape`.
pub(crate) fn check(snapshot: &Snapshot) -> Result<(), Fault>
    requires pool { IsPool snapshot.now.limits }
    ensures ok { IfOk result (λ _. HasShape snapshot.now) }
    ensures first { IfErr result (λ f. IsFirstFault snapshot.now f) }
{
    if has_shape(snapshot) {
        Ok(())
    } else {
        Err(Fault::BadShape)
    }
}

/// Whether there are one link and one count for each element, a place for each desk, and a share
/// for each worker in order, with a number for each of its places, and whether guests are of these
/// workers and no more than they may have.
pub(crate) fn has_shape(snapshot: &Snapshot) -> bool
    requires pool { IsPool snapshot.now.limits }
    ensures { IsTrue result ↔ HasShape snapshot.now }
{
    let limits = &snapshot.limits;
    let links = snapshot.links.len() as u64 == limits.population;
    let counts = snapshot.counts.len() as u64 == limits.population;
    let desks = snapshot.desks.len() as u64 == limits.desks;
    let shares = are_in_order(snapshot.shares.as_slice(), limits.workers);
    let places = have_numbers(snapshot.shares.as_slice());
    let few = snapshot.guests.len() as u64 <= limits.workers * MOST_GUESTS;
    let guests = few && are_of_workers(snapshot.guests.as_slice(), limits.workers);
    links && counts && desks && shares && places && guests
}

/// Tests whether there is one share for each worker in order.
fn are_in_order(shares: &[ShareData], workers: u64) -> bool
    ensures { IsTrue result ↔ (map (λ share. share.worker) shares.now ≡ range_with_len 1 workers) }
{
    for (k, share) in shares.iter().enumerate() {
        if u64::from(share.worker) != k as u64 + 1 {
            return false;
        }
    }
    shares.len() as u64 == workers
}

/// Tests whether each place of these shares has a number.
fn have_numbers(shares: &[ShareData]) -> bool
    ensures { IsTrue result ↔ All (λ share. length share.slots ≤ most_places) shares.now }
{
    shares
        .iter()
        .all(|share| share.slots.len() as u64 <= MOST_PLACES)
}

/// Tests whether guests are held by workers of the pool.
fn are_of_workers(guests: &[Guest], workers: u64) -> bool
    ensures { IsTrue result ↔ AreOfWorkers workers guests.now }
{
    guests.iter().all(|guest| guest.worker >= 1 && u64::from(guest.worker) <= workers)
}
