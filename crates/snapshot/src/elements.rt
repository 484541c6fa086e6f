//! Elements that the pool doesn't have and that the stack, caches, packets and guests name: the
//! pool has those below its population.

ghost use Rattle.std.specs.Prelude.{◌≡◌, ◌⊎◌, ◌+◌, ◌≤◌, ℕ, [], IfErr, IfOk, sum_by};
ghost use Rattle.commons.specs.Bag.{bag, one};
ghost use Rattle.commons.specs.Packets.{hold_of, held_in, holds_in_slot, holds_of_packet, holds_of_seg};
ghost use Rattle.pool_model.specs.Guests.{guest_holds, local_packet, local_place, local_table};
ghost use Rattle.snapshot.specs.Faults.{IsCleanBelow, IsFirstFault};
ghost use Rattle.snapshot.specs.Snapshots.{times_named};
ghost use Rattle.snapshot.specs.inside.Gathered.{AreStrangers, HasGathered, IsSetOf};

use crate::fault::Fault;
use crate::local::local;
use crate::snapshot::{ShareData, Snapshot};
use commons::packet::Seg;
use commons::seq::Seq;
use pool_statement::guest::Guest;
use std::alloc::{AllocError, Global};

/// Finds the least element that a cache, a packet or a guest names and that the pool doesn't have.
pub(crate) fn check(alloc: Global, snapshot: &Snapshot) -> Result<(), Fault>
    requires clean { IsCleanBelow 4 snapshot.now }
    ensures ok { IfOk result (λ _. (e : ℕ) → snapshot.now.limits.population ≤ e
        → times_named snapshot.now e ≡ 0) }
    ensures first { IfErr result (λ f. (f ≡ Fault.OutOfMemory) ⊎ IsFirstFault snapshot.now f) }
{
    match strangers(alloc, snapshot, &[]) {
        Ok(elems) => no_stranger(snapshot, elems.as_slice()),
        Err(_) => Err(Fault::OutOfMemory),
    }
}

/// Tests that there is none, else answers the first.
fn no_stranger(snapshot: &Snapshot, elems: &[u32]) -> Result<(), Fault>
    requires clean { IsCleanBelow 4 snapshot.now }
    requires strangers { AreStrangers [] snapshot.now elems.now }
    ensures ok { IfOk result (λ _. (e : ℕ) → snapshot.now.limits.population ≤ e
        → times_named snapshot.now e ≡ 0) }
    ensures first { IfErr result (λ f. IsFirstFault snapshot.now f) }
{
    if elems.is_empty() {
        return Ok(());
    }
    Err(Fault::BadElem(elems[0]))
}

/// The elements that the pool doesn't have and that this stack, a cache, a packet or a guest names:
/// each once, ascending.
pub(crate) fn strangers(
    alloc: Global,
    snapshot: &Snapshot,
    stack: &[u32],
) -> Result<Vec<u32>, AllocError>
    ensures { IfOk result (λ elems. AreStrangers stack.now snapshot.now elems.items) }
{
    let population = snapshot.limits.population;
    let foreign = snapshot.foreign;
    let mut named = Vec::new(alloc);
    in_list(&mut named, stack, population)?;
    in_shares(&mut named, snapshot.shares.as_slice(), population, foreign)?;
    in_table(&mut named, snapshot.desks.as_slice(), population, foreign)?;
    in_guests(&mut named, snapshot.guests.as_slice(), population)?;
    leave_each_once(&mut named)?;
    Ok(named)
}

/// Leaves each element once, ascending.
fn leave_each_once(elems: &mut Vec<u32>) -> Result<(), AllocError>
    ensures { IfOk result (λ _. IsSetOf elems.old.items elems.new.items) }
{
    elems.sort()?;
    elems.dedup();
    Ok(())
}

/// Gathers those that are guests.
fn in_guests(named: &mut Vec<u32>, guests: &[Guest], population: u64) -> Result<(), AllocError>
    ensures { IfOk result (λ _. HasGathered population (guest_holds guests.now)
        named.old.items named.new.items) }
{
    for guest in guests {
        gather(named, guest.elem, population)?;
    }
    Ok(())
}

/// Gathers those in shares.
fn in_shares(
    named: &mut Vec<u32>,
    shares: &[ShareData],
    population: u64,
    foreign: bool,
) -> Result<(), AllocError>
    ensures { IfOk result (λ _. HasGathered population
        (λ e. sum_by (λ share. bag share.cache e
        + held_in (local_table foreign share.slots) e) shares.now)
        named.old.items named.new.items) }
{
    for share in shares {
        in_list(named, share.cache.as_slice(), population)?;
        in_table(named, share.slots.as_slice(), population, foreign)?;
    }
    Ok(())
}

/// Gathers those in the packets of a table, of slots or of desks.
fn in_table(
    named: &mut Vec<u32>,
    table: &[Option<Seq<Seg>>],
    population: u64,
    foreign: bool,
) -> Result<(), AllocError>
    ensures { IfOk result (λ _. HasGathered population (held_in (local_table foreign table.now))
        named.old.items named.new.items) }
{
    for place in table {
        in_place(named, place, population, foreign)?;
    }
    Ok(())
}

/// Gathers those in the packet at a place, where one is there.
fn in_place(
    named: &mut Vec<u32>,
    place: &Option<Seq<Seg>>,
    population: u64,
    foreign: bool,
) -> Result<(), AllocError>
    ensures { IfOk result (λ _. HasGathered population (bag (holds_in_slot
        (local_place foreign place.now))) named.old.items named.new.items) }
{
    match place {
        Some(segs) => in_packet(named, segs.as_slice(), population, foreign),
        None => Ok(()),
    }
}

/// Gathers those in a packet.
fn in_packet(
    named: &mut Vec<u32>,
    segs: &[Seg],
    population: u64,
    foreign: bool,
) -> Result<(), AllocError>
    ensures { IfOk result (λ _. HasGathered population (bag (holds_of_packet
        (local_packet foreign segs.now))) named.old.items named.new.items) }
{
    for seg in segs {
        in_seg(named, local(*seg, foreign), population)?;
    }
    Ok(())
}

/// Gathers those of a segment: its base and its own.
fn in_seg(named: &mut Vec<u32>, seg: Seg, population: u64) -> Result<(), AllocError>
    ensures { IfOk result (λ _. HasGathered population (bag (holds_of_seg seg))
        named.old.items named.new.items) }
{
    in_base(named, seg.base, population)?;
    gather(named, seg.elem, population)
}

/// Gathers the base, where it is such an element.
fn in_base(named: &mut Vec<u32>, base: Option<u32>, population: u64) -> Result<(), AllocError>
    ensures { IfOk result (λ _. HasGathered population (bag (hold_of base))
        named.old.items named.new.items) }
{
    match base {
        Some(elem) => gather(named, elem, population),
        None => Ok(()),
    }
}

/// Gathers those in a list.
fn in_list(named: &mut Vec<u32>, elems: &[u32], population: u64) -> Result<(), AllocError>
    ensures { IfOk result (λ _. HasGathered population (bag elems.now)
        named.old.items named.new.items) }
{
    for elem in elems {
        gather(named, *elem, population)?;
    }
    Ok(())
}

/// Gathers an element, where it is such a one: not below the population.
fn gather(named: &mut Vec<u32>, elem: u32, population: u64) -> Result<(), AllocError>
    ensures { IfOk result (λ _. HasGathered population (one elem) named.old.items named.new.items) }
{
    if population <= u64::from(elem) {
        named.push(elem)?;
    }
    Ok(())
}
