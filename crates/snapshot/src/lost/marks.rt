//! A mark for each element of a pool, once it was met. An element that the pool doesn't have gets
//! none.

ghost use Rattle.std.specs.Prelude.{◌≡◌, IfOk, false, replicate};
ghost use Rattle.commons.specs.Bag.{bag, one};
ghost use Rattle.commons.specs.Packets.{hold_of, holds_of_packet, holds_of_seg};
ghost use Rattle.pool_model.specs.Guests.{guest_holds, local_packet};
ghost use Rattle.snapshot.specs.inside.Marks.{HasMarked};

use crate::local::local;
use commons::packet::Seg;
use pool_statement::guest::Guest;
use std::alloc::{AllocError, Global};

/// This many elements without a mark.
pub(crate) fn no_marks(alloc: Global, size: usize) -> Result<Vec<bool>, AllocError>
    ensures { IfOk result (λ met. met.items ≡ replicate size false) }
{
    vec![in alloc; false; size]
}

/// Marks an element.
pub(crate) fn mark(met: &mut Vec<bool>, elem: u32)
    ensures { HasMarked (one elem) met.old.items met.new.items }
{
    let index = elem as usize;
    if index < met.len() {
        met[index] = true;
    }
}

/// Marks each of these elements.
pub(crate) fn mark_all(met: &mut Vec<bool>, elems: &[u32])
    ensures { HasMarked (bag elems.now) met.old.items met.new.items }
{
    for elem in elems {
        mark(met, *elem);
    }
}

/// Marks the element of each guest.
pub(crate) fn mark_guests(met: &mut Vec<bool>, guests: &[Guest])
    ensures { HasMarked (guest_holds guests.now) met.old.items met.new.items }
{
    for guest in guests {
        mark(met, guest.elem);
    }
}

/// Marks what the segments of a packet hold of their own pool.
pub(crate) fn mark_packet(met: &mut Vec<bool>, segs: &[Seg], foreign: bool)
    ensures { HasMarked (bag (holds_of_packet (local_packet foreign segs.now))) met.old.items met.new.items }
{
    for seg in segs {
        mark_seg(met, local(*seg, foreign));
    }
}

/// Marks what a segment holds.
fn mark_seg(met: &mut Vec<bool>, seg: Seg)
    ensures { HasMarked (bag (holds_of_seg seg)) met.old.items met.new.items }
{
    mark_base(met, seg.base);
    mark(met, seg.elem);
}

/// Marks the base, where there is one.
fn mark_base(met: &mut Vec<bool>, base: Option<u32>)
    ensures { HasMarked (bag (hold_of base)) met.old.items met.new.items }
{
    match base {
        Some(elem) => mark(met, elem),
        None => {}
    }
}
