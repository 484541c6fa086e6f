//! Rows that count, for each element of a pool, how often it was met. Each number stops at the
//! greatest `u32`. An element that the pool doesn't have is passed over.

ghost use Rattle.std.specs.Prelude.{IfOk};
ghost use Rattle.commons.specs.Bag.{bag, one};
ghost use Rattle.commons.specs.Packets.{hold_of, holds_of_packet, holds_of_seg, own_of_packet};
ghost use Rattle.pool_model.specs.Guests.{guest_holds, local_packet};
ghost use Rattle.snapshot.specs.inside.Tallies.{HasMet, IsRow};

use crate::local::local;
use commons::packet::Seg;
use pool_statement::guest::Guest;
use std::alloc::{AllocError, Global};

/// A row of this many zeros.
pub(crate) fn zeros(alloc: Global, size: usize) -> Result<Vec<u32>, AllocError>
    ensures { IfOk result (λ row. IsRow size (λ _. 0) row.items) }
{
    vec![in alloc; 0; size]
}

/// Counts an element.
fn count(row: &mut Vec<u32>, elem: u32)
    ensures { HasMet (one elem) row.old.items row.new.items }
{
    let index = elem as usize;
    if index < row.len() {
        row[index] = row[index].saturating_add(1);
    }
}

/// Counts each of these elements.
pub(crate) fn count_all(row: &mut Vec<u32>, elems: &[u32])
    ensures { HasMet (bag elems.now) row.old.items row.new.items }
{
    for elem in elems {
        count(row, *elem);
    }
}

/// Counts the element of each guest.
pub(crate) fn count_guests(row: &mut Vec<u32>, guests: &[Guest])
    ensures { HasMet (guest_holds guests.now) row.old.items row.new.items }
{
    for guest in guests {
        count(row, guest.elem);
    }
}

/// Counts the base, where there is one.
fn count_base(row: &mut Vec<u32>, base: Option<u32>)
    ensures { HasMet (bag (hold_of base)) row.old.items row.new.items }
{
    match base {
        Some(elem) => count(row, elem),
        None => {}
    }
}

/// Counts what a segment holds.
fn count_seg(row: &mut Vec<u32>, seg: Seg)
    ensures { HasMet (bag (holds_of_seg seg)) row.old.items row.new.items }
{
    count_base(row, seg.base);
    count(row, seg.elem);
}

/// Counts the own elements of segments in the one row, and what they hold in the other.
pub(crate) fn count_packet(own: &mut Vec<u32>, held: &mut Vec<u32>, segs: &[Seg], foreign: bool)
    ensures own { HasMet (bag (own_of_packet segs.now)) own.old.items own.new.items }
    ensures held { HasMet (bag (holds_of_packet (local_packet foreign segs.now))) held.old.items held.new.items }
{
    for seg in segs {
        count(own, seg.elem);
        count_seg(held, local(*seg, foreign));
    }
}
