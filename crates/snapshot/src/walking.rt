//! The walk along a snapshot's links.

ghost use Rattle.std.specs.Prelude.{◌≡◌, ◌≤◌, ◌⊎◌, All, IfErr, IfOk, length};
ghost use Rattle.commons.specs.Bounds.{IsPool};
ghost use Rattle.snapshot.specs.Faults.{IsCleanBelow, IsFirstFault};
ghost use Rattle.snapshot.specs.Snapshots.{HasShape, walk, words_met};
ghost use Rattle.snapshot.specs.inside.Breaks.{IsBreak};

use crate::fault::Fault;
use crate::snapshot::Snapshot;
use std::alloc::Global;

/// The elements of the walk from the top on, else the first of the faults that are met on it.
pub(crate) fn walk(alloc: Global, snapshot: &Snapshot) -> Result<Vec<u32>, Fault>
    requires pool { IsPool snapshot.now.limits }
    requires shape { HasShape snapshot.now }
    ensures walk { IfOk result (λ v. v.items ≡ walk snapshot.now) }
    ensures words { IfOk result (λ _. All (λ word. word ≤ snapshot.now.limits.population) (words_met snapshot.now)) }
    ensures ends { IfOk result (λ _. length (walk snapshot.now) ≤ snapshot.now.limits.population) }
    ensures first { IfErr result (λ f. (f ≡ Fault.OutOfMemory) ⊎ IsFirstFault snapshot.now f) }
    ensures broken { IfErr result (λ f. (f ≡ Fault.OutOfMemory) ⊎ IsBreak snapshot.now f) }
{
    let population = snapshot.limits.population;
    let links = snapshot.links.as_slice();
    let mut elems = Vec::with_capacity(alloc, population as usize).map_err(|_| Fault::OutOfMemory)?;
    let mut word = snapshot.top;
    while word != 0 {
        if u64::from(word) > population {
            return Err(Fault::BadTop(word));
        }
        if elems.len() as u64 == population {
            return Err(Fault::Loop);
        }
        let elem = word - 1;
        elems.push(elem).map_err(|_| Fault::OutOfMemory)?;
        word = links[elem as usize];
    }
    Ok(elems)
}

/// Tests whether the length word is the length of the walk, which has these elements, else answers
/// `BadLength`.
pub(crate) fn check_length(snapshot: &Snapshot, elems: &[u32]) -> Result<(), Fault>
    requires walk { elems.now ≡ walk snapshot.now }
    requires clean { IsCleanBelow 3 snapshot.now }
    ensures ok { IfOk result (λ _. snapshot.now.length ≡ length (walk snapshot.now)) }
    ensures first { IfErr result (λ f. IsFirstFault snapshot.now f) }
{
    let found = elems.len() as u64;
    if snapshot.length == found {
        Ok(())
    } else {
        Err(Fault::BadLength {
            word: snapshot.length,
            found,
        })
    }
}
