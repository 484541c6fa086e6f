//! The walk along the links of any snapshot.

ghost use Rattle.std.specs.Prelude.{◌≡◌, IfOk, slice_index};
ghost use Rattle.snapshot.specs.Snapshots.{walk};

use snapshot::snapshot::Snapshot;
use std::alloc::{AllocError, Global};

/// The elements of the walk from the top on. Where it comes back to an element, it ends once it has
/// one more than the population.
pub(crate) fn walk(alloc: Global, snapshot: &Snapshot) -> Result<Vec<u32>, AllocError>
    ensures { IfOk result (λ v. v.items ≡ walk snapshot.now) }
{
    let population = snapshot.limits.population;
    let mut elems = Vec::new(alloc);
    let mut word = snapshot.top;
    let mut left = population;
    while word != 0 && u64::from(word) <= population {
        let elem = word - 1;
        elems.push(elem)?;
        if left == 0 {
            return Ok(elems);
        }
        left -= 1;
        word = link_of(snapshot.links.as_slice(), elem);
    }
    Ok(elems)
}

/// The link of an element; 0 where it has none.
fn link_of(links: &[u32], elem: u32) -> u32
    ensures { result ≡ slice_index links.now elem }
{
    match links.get(elem as usize) {
        Some(link) => *link,
        None => 0,
    }
}
