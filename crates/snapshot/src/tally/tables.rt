//! How often each element of a snapshot is an own element, held and free.

ghost use Rattle.std.specs.Prelude.{IfOk, sum_by};
ghost use Rattle.commons.specs.Bag.{bag};
ghost use Rattle.commons.specs.Packets.{held_in, holds_in_slot, own_in, own_in_slot};
ghost use Rattle.pool_model.specs.Guests.{local_place, local_table};
ghost use Rattle.snapshot.specs.inside.Tallies.{HasMet, IsTally};

use crate::snapshot::{ShareData, Snapshot};
use crate::tally::rows::{count_all, count_guests, count_packet, zeros};
use commons::packet::Seg;
use commons::seq::Seq;
use std::alloc::{AllocError, Global};

/// How often each element is met, in three rows with a number for each.
#[derive(Drop)]
pub(crate) struct Tally {
    /// How often it is the own element of a segment.
    pub own: Vec<u32>,
    /// How often packets hold it, and guests are it.
    pub held: Vec<u32>,
    /// How often it is on the stack and in caches.
    pub free: Vec<u32>,
}

/// The tally of a snapshot whose stack has these elements, in time linear in its elements, its
/// segments and its guests.
pub(crate) fn tallied(
    alloc: Global,
    snapshot: &Snapshot,
    stack: &[u32],
) -> Result<Tally, AllocError>
    ensures { IfOk result (λ tally. IsTally stack.now snapshot.now tally) }
{
    let size = snapshot.limits.population as usize;
    let mut own = zeros(alloc, size)?;
    let mut held = zeros(alloc, size)?;
    let mut free = zeros(alloc, size)?;
    let foreign = snapshot.foreign;
    count_shares(&mut own, &mut held, snapshot.shares.as_slice(), foreign);
    count_table(&mut own, &mut held, snapshot.desks.as_slice(), foreign);
    count_guests(&mut held, snapshot.guests.as_slice());
    count_all(&mut free, stack);
    count_caches(&mut free, snapshot.shares.as_slice());
    Ok(Tally { own, held, free })
}

/// Counts what is in caches.
fn count_caches(free: &mut Vec<u32>, shares: &[ShareData])
    ensures { HasMet (λ e. sum_by (λ share. bag share.cache e) shares.now) free.old.items free.new.items }
{
    for share in shares {
        count_all(free, share.cache.as_slice());
    }
}

/// Counts the own elements of the packets of shares, and what these hold.
fn count_shares(own: &mut Vec<u32>, held: &mut Vec<u32>, shares: &[ShareData], foreign: bool)
    ensures own { HasMet (λ e. sum_by (λ share. own_in share.slots e) shares.now) own.old.items own.new.items }
    ensures held { HasMet (λ e. sum_by (λ share. held_in (local_table foreign share.slots) e) shares.now) held.old.items held.new.items }
{
    for share in shares {
        count_table(own, held, share.slots.as_slice(), foreign);
    }
}

/// Counts the own elements of the packets of a table, and what these hold.
fn count_table(own: &mut Vec<u32>, held: &mut Vec<u32>, table: &[Option<Seq<Seg>>], foreign: bool)
    ensures own { HasMet (own_in table.now) own.old.items own.new.items }
    ensures held { HasMet (held_in (local_table foreign table.now)) held.old.items held.new.items }
{
    for place in table {
        count_place(own, held, place, foreign);
    }
}

/// Counts the own elements of the packet in a place, and what it holds, where there is one.
fn count_place(own: &mut Vec<u32>, held: &mut Vec<u32>, place: &Option<Seq<Seg>>, foreign: bool)
    ensures own { HasMet (bag (own_in_slot place.now)) own.old.items own.new.items }
    ensures held { HasMet (bag (holds_in_slot (local_place foreign place.now))) held.old.items held.new.items }
{
    match place {
        Some(segs) => count_packet(own, held, segs.as_slice(), foreign),
        None => {}
    }
}
