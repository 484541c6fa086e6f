//! How often each element of a pool stands in each kind of place.

use super::same;
use commons::packet::Seg;
use pool_statement::statement::Statement;
use std::alloc::{AllocError, Global};
use std::process::Abort;
use std::test::Fail;

/// How often an element is free, in the common list or in a cache; is the own one of a segment; is
/// the base of one; and is held, as a statement tells.
pub(super) type Counts = [u32; 4];

/// An element that is free.
pub(super) const FREE: Counts = [1, 0, 0, 0];

/// A segment's own element.
const OWN: Counts = [0, 1, 0, 0];

/// A segment's base.
const BASE: Counts = [0, 0, 1, 0];

/// Counts for each element of a pool of this many, and behind them one more for all that aren't in
/// the pool. All are 0.
pub(super) fn none_of(alloc: Global, population: u64) -> Result<Vec<Counts>, AllocError> {
    let mut table = Vec::new(alloc);
    for _ in 0..=population {
        table.push([0; 4])?;
    }
    Ok(table)
}

/// Adds these counts to those of an element.
pub(super) fn note(table: &mut [Counts], element: u32, added: Counts) {
    let last = table.len().saturating_sub(1);
    if let Some(counts) = table.get_mut(last.min(element as usize)) {
        for (count, more) in counts.iter_mut().zip(added) {
            *count = count.saturating_add(more);
        }
    }
}

/// Counts the elements of these segments.
pub(super) fn note_segs(table: &mut [Counts], segs: &[Seg]) {
    for seg in segs {
        note(table, seg.elem, OWN);
        if let Some(base) = seg.base {
            note(table, base, BASE);
        }
    }
}

/// Counts the elements of a statement: of the common list, of the caches, of all packets, of the
/// workers and on desks, and those that it tells of as held.
fn counted(alloc: Global, statement: &Statement) -> Result<Vec<Counts>, AllocError> {
    let mut table = none_of(alloc, statement.population)?;
    for element in statement.common.as_slice() {
        note(&mut table, *element, FREE);
    }
    for cache in statement.caches.as_slice() {
        for element in cache.as_slice() {
            note(&mut table, *element, FREE);
        }
    }
    for packet in statement.packets.as_slice() {
        note_segs(&mut table, packet.segs.as_slice());
    }
    for packet in statement.desks.as_slice() {
        note_segs(&mut table, packet.segs.as_slice());
    }
    for held in statement.held.as_slice() {
        let told = [0, 0, 0, held.count];
        note(&mut table, held.elem, told);
    }
    Ok(table)
}

/// Each element is in one place: in the common list, in a cache, or held by packets, of the workers
/// or on desks. Of these each is one segment's own, or none's. It is told of as held as often as
/// packets hold it, and those that are told of so ascend. No other element stands anywhere.
pub(super) fn assert_each_once<R: Abort>(
    rt: &R,
    alloc: Global,
    statement: &Statement,
    name: &str,
) -> Result<(), Fail> {
    let table = counted(alloc, statement)?;
    for (element, [free, own, bases, told]) in (0u64..).zip(table) {
        let once = u32::from(element < statement.population);
        let based = u32::from(own == 0 && bases > 0);
        let places = free.saturating_add(own).saturating_add(based);
        let holds = own.saturating_add(bases);
        same(
            rt,
            &("places, holds", element, places, told),
            &("places, holds", element, once, holds),
            name,
        );
    }
    let mut least = 0u64;
    for held in statement.held.as_slice() {
        let element = u64::from(held.elem);
        let ascends = ("held, ascending", element, true);
        let given = ("held, ascending", element, element >= least);
        same(rt, &given, &ascends, name);
        least = element + 1;
    }
    Ok(())
}
