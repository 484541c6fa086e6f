//! The elements of a snapshot's pool that stand nowhere in it.

ghost use Rattle.std.specs.Prelude.{◌≡◌, ◌<◌, ◌≤◌, ◌+◌, ℕ, IfOk, length, slice_index, sum_by};
ghost use Rattle.commons.specs.Bag.{bag};
ghost use Rattle.commons.specs.Bounds.{IsPool, max_population};
ghost use Rattle.commons.specs.Packets.{held_in, holds_in_slot};
ghost use Rattle.pool_model.specs.Guests.{local_place, local_table};
ghost use Rattle.snapshot.specs.Lost.{AreLost};
ghost use Rattle.snapshot.specs.Snapshots.{elements_of, words_from};
ghost use Rattle.snapshot.specs.inside.Marks.{AreUnmarked, HasMarked};

mod marks;

use crate::lost::marks::{mark, mark_all, mark_guests, mark_packet, no_marks};
use crate::snapshot::{ShareData, Snapshot};
use commons::packet::Seg;
use commons::seq::Seq;
use std::alloc::{AllocError, Global};

/// The elements of the pool that stand nowhere, ascending: those that are neither on the walk, nor
/// in a cache, nor in a packet, of a share or on a desk, as an element or as a base of this pool,
/// and are nobody's guest.
///
/// The snapshot may have any fault. What names an element that the pool doesn't have is passed
/// over, and so are the counts and the length word. It takes time linear in the population, the
/// caches, the slots and the segments.
pub fn lost_elements(alloc: Global, snapshot: &Snapshot) -> Result<Vec<u32>, AllocError>
    requires { IsPool snapshot.now.limits }
    ensures { IfOk result (λ elems. AreLost snapshot.now elems.items) }
{
    let population = snapshot.limits.population;
    let mut met = no_marks(alloc, population as usize)?;
    mark_walk(
        &mut met,
        snapshot.top,
        snapshot.links.as_slice(),
        population,
    );
    mark_shares(&mut met, snapshot.shares.as_slice(), snapshot.foreign);
    mark_table(&mut met, snapshot.desks.as_slice(), snapshot.foreign);
    mark_guests(&mut met, snapshot.guests.as_slice());
    unmarked(alloc, met.as_slice())
}

/// Marks the elements of the walk. Where it comes back to an element, it ends once it has one more
/// than the population.
fn mark_walk(met: &mut Vec<bool>, top: u32, links: &[u32], population: u64)
    requires few { population ≤ max_population }
    requires all { length met.old.items ≡ population }
    ensures { HasMarked (bag (elements_of population (words_from population population links.now top))) met.old.items met.new.items }
{
    let mut word = top;
    for _ in 0..population + 1 {
        if word == 0 || u64::from(word) > population {
            return;
        }
        mark(met, word - 1);
        word = link_of(links, word - 1);
    }
}

/// The link of an element; 0 where it has none.
fn link_of(links: &[u32], elem: u32) -> u32
    ensures { result ≡ slice_index links.now elem }
{
    match links.get(elem as usize) {
        Some(link) => *link,
        None => 0,
    }
}

/// Marks what is in the caches of shares, and what their packets hold.
fn mark_shares(met: &mut Vec<bool>, shares: &[ShareData], foreign: bool)
    ensures { HasMarked (λ e. sum_by (λ share. bag share.cache e + held_in (local_table foreign share.slots) e) shares.now)
        met.old.items met.new.items }
{
    for share in shares {
        mark_all(met, share.cache.as_slice());
        mark_table(met, share.slots.as_slice(), foreign);
    }
}

/// Marks what the packets of a table hold, of slots or of desks.
fn mark_table(met: &mut Vec<bool>, table: &[Option<Seq<Seg>>], foreign: bool)
    ensures { HasMarked (held_in (local_table foreign table.now)) met.old.items met.new.items }
{
    for place in table {
        mark_place(met, place, foreign);
    }
}

/// Marks what the packet in a place holds, where there is one.
fn mark_place(met: &mut Vec<bool>, place: &Option<Seq<Seg>>, foreign: bool)
    ensures { HasMarked (bag (holds_in_slot (local_place foreign place.now))) met.old.items met.new.items }
{
    match place {
        Some(segs) => mark_packet(met, segs.as_slice(), foreign),
        None => {}
    }
}

/// The elements without a mark, ascending.
fn unmarked(alloc: Global, met: &[bool]) -> Result<Vec<u32>, AllocError>
    requires { length met.now ≤ max_population }
    ensures { IfOk result (λ elems. AreUnmarked met.now (length met.now) elems.items) }
{
    let mut elems = Vec::new(alloc);
    for (elem, is_met) in met.iter().enumerate() {
        if !*is_met {
            elems.push(elem as u32)?;
        }
    }
    Ok(elems)
}
