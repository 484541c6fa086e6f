//! Where an element stands in lists of free ones.

ghost use Rattle.std.specs.Prelude.{◌≡◌, ◌++◌, IfOk};
ghost use Rattle.audit_text.specs.Places.{cached, found, free_from};

use crate::place::{FreeList, Place};
use snapshot::snapshot::ShareData;
use std::alloc::AllocError;

/// Adds a place, where it is one of those that are looked for.
pub(crate) fn note(out: &mut Vec<Place>, is: bool, place: Place) -> Result<(), AllocError>
    ensures { IfOk result (λ _. out.new.items ≡ out.old.items ++ found is place) }
{
    if is {
        out.push(place)?;
    }
    Ok(())
}

/// In a free list.
pub(crate) fn in_list(
    out: &mut Vec<Place>,
    list: FreeList,
    elems: &[u32],
    elem: u32,
) -> Result<(), AllocError>
    ensures { IfOk result (λ _. out.new.items ≡ out.old.items ++ free_from list elem 0 elems.now) }
{
    for (index, each) in elems.iter().enumerate() {
        note(out, *each == elem, Place::Free(list, index as u64))?;
    }
    Ok(())
}

/// In the caches of shares.
pub(crate) fn in_caches(
    out: &mut Vec<Place>,
    shares: &[ShareData],
    elem: u32,
) -> Result<(), AllocError>
    ensures { IfOk result (λ _. out.new.items ≡ out.old.items ++ cached elem shares.now) }
{
    for share in shares {
        in_list(
            out,
            FreeList::Cache(share.worker),
            share.cache.as_slice(),
            elem,
        )?;
    }
    Ok(())
}
