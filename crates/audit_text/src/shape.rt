//! Of what a snapshot hasn't one for each.

ghost use Rattle.std.specs.Prelude.{◌≡◌};
ghost use Rattle.audit_text.specs.FaultText.{are_in_order, shape_text};

use snapshot::snapshot::{ShareData, Snapshot};

/// The most places of a share.
const MOST_PLACES: u64 = 1 << 32;

/// What of a snapshot has not the shape of its pool, in words.
pub(crate) fn shape_words(snapshot: &Snapshot) -> &'static str
    ensures { result.now ≡ shape_text snapshot.now }
{
    let limits = &snapshot.limits;
    if snapshot.links.len() as u64 != limits.population {
        "not a link for each element"
    } else if snapshot.counts.len() as u64 != limits.population {
        "not a count for each element"
    } else if snapshot.desks.len() as u64 != limits.desks {
        "not a place for each desk"
    } else if snapshot.shares.len() as u64 != limits.workers {
        "not a share for each worker"
    } else if !are_in_order(snapshot.shares.as_slice()) {
        "shares out of order, or of too many slots"
    } else {
        "guests of no worker, or too many"
    }
}

/// Whether shares are of the workers from 1 on, in order, each with a number for each of its places.
fn are_in_order(shares: &[ShareData]) -> bool
    ensures { result ≡ are_in_order 1 shares.now }
{
    for (index, share) in shares.iter().enumerate() {
        if u64::from(share.worker) != index as u64 + 1 || share.slots.len() as u64 > MOST_PLACES {
            return false;
        }
    }
    true
}
