//! Where each element of a lawful snapshot is.

ghost use Rattle.std.specs.Prelude.{◌≡◌, ◌<◌, ◌≤◌, ◌+◌, ◌++◌, [], ℕ, All, IfOk, flat_map, length, map, replicate, sum_by};
ghost use Rattle.std.specs.List.{range_with_len};
ghost use Rattle.commons.specs.Bag.{bag, one};
ghost use Rattle.commons.specs.Bounds.{IsPool};
ghost use Rattle.commons.specs.Packets.{held_in, hold_of, holds_of_packet, holds_of_seg};
ghost use Rattle.pool_model.specs.Guests.{AreOfWorkers, local_packet, local_table};
ghost use Rattle.pool_model.specs.Statements.{desks_from, desks_of, packets_from};
ghost use Rattle.snapshot.specs.Snapshots.{IsLawful, most_places, statement_in, walk};
ghost use Rattle.snapshot.specs.inside.Adding.{AreAdded, AreByWorker, entry_of, held_of, holders_in, lists_of, share_holds, workers_in};

use crate::local::local;
use crate::snapshot::{ShareData, Snapshot};
use commons::packet::Seg;
use commons::seq::Seq;
use pool_statement::guest::Guest;
use pool_statement::statement::{DeskPacket, Held, Holder, PlacedPacket, Statement};
use std::alloc::{AllocError, Global};

/// The statement of a lawful snapshot, whose walk this is.
pub fn statement(
    alloc: Global,
    snapshot: &Snapshot,
    common: Vec<u32>,
) -> Result<Statement, AllocError>
    requires pool { IsPool snapshot.now.limits }
    requires lawful { IsLawful snapshot.now }
    requires walk { common.items ≡ walk snapshot.now }
    ensures { IfOk result (λ s. s ≡ statement_in snapshot.now) }
{
    let held = held(alloc, snapshot)?;
    let shares = snapshot.shares.as_slice();
    Ok(Statement {
        population: snapshot.limits.population,
        available: common.len() as u64 + in_caches(shares),
        in_use: held.len() as u64,
        common: Seq::new(common),
        caches: caches(alloc, shares)?,
        packets: packets(alloc, shares)?,
        desks: desks(alloc, snapshot.desks.as_slice())?,
        held,
    })
}

/// A copy of these values.
fn copied<T: Copy + Drop>(alloc: Global, values: &[T]) -> Result<Seq<T>, AllocError>
    ensures { IfOk result (λ s. s ≡ values.now) }
{
    Ok(Seq::new(Vec::from_slice(alloc, values)?))
}

/// Each worker's cache.
fn caches(alloc: Global, shares: &[ShareData]) -> Result<Seq<Seq<u32>>, AllocError>
    ensures { IfOk result (λ s. s ≡ map (λ share. share.cache) shares.now) }
{
    let mut caches = Vec::with_capacity(alloc, shares.len())?;
    for share in shares {
        caches.push(copied(alloc, share.cache.as_slice())?)?;
    }
    Ok(Seq::new(caches))
}

/// How many elements the caches have.
fn in_caches(shares: &[ShareData]) -> u64
    requires { sum_by (λ share. length share.cache) shares.now ≤ 4_294_967_295 }
    ensures { result ≡ sum_by (λ share. length share.cache) shares.now }
{
    let mut count = 0;
    for share in shares {
        count += share.cache.len() as u64;
    }
    count
}

/// The packets by worker and slot.
fn packets(alloc: Global, shares: &[ShareData]) -> Result<Seq<PlacedPacket>, AllocError>
    requires { All (λ share. length share.slots ≤ most_places) shares.now }
    ensures { IfOk result (λ s. s ≡ flat_map (λ share. packets_from share.worker 0 share.slots) shares.now) }
{
    let mut placed = Vec::new(alloc);
    for share in shares {
        place_packets(alloc, share, &mut placed)?;
    }
    Ok(Seq::new(placed))
}

/// Adds a worker's packets by slot.
fn place_packets(
    alloc: Global,
    share: &ShareData,
    placed: &mut Vec<PlacedPacket>,
) -> Result<(), AllocError>
    requires { length share.now.slots ≤ most_places }
    ensures { IfOk result (λ _. placed.new.items ≡ placed.old.items ++ packets_from share.now.worker 0 share.now.slots) }
{
    for (slot, place) in share.slots.as_slice().iter().enumerate() {
        if let Some(segs) = place {
            let segs = copied(alloc, segs.as_slice())?;
            placed.push(PlacedPacket {
                worker: share.worker,
                slot: slot as u32,
                segs,
            })?;
        }
    }
    Ok(())
}

/// The packets on desks, ascending.
fn desks(alloc: Global, desks: &[Option<Seq<Seg>>]) -> Result<Seq<DeskPacket>, AllocError>
    requires { length desks.now ≤ 64 }
    ensures { IfOk result (λ s. s ≡ desks_from 0 desks.now) }
{
    let mut placed = Vec::new(alloc);
    for (desk, place) in desks.iter().enumerate() {
        if let Some(segs) = place {
            let segs = copied(alloc, segs.as_slice())?;
            placed.push(DeskPacket {
                desk: desk as u32,
                segs,
            })?;
        }
    }
    Ok(Seq::new(placed))
}

/// The held elements, ascending.
fn held(alloc: Global, snapshot: &Snapshot) -> Result<Seq<Held>, AllocError>
    requires pool { IsPool snapshot.now.limits }
    requires lawful { IsLawful snapshot.now }
    ensures { IfOk result (λ s. s ≡ map (entry_of snapshot.now) (held_of snapshot.now)) }
{
    let mut held = Vec::new(alloc);
    let table = holders(alloc, snapshot)?;
    let counts = snapshot.counts.as_slice();
    for (i, holders) in table.into_iter().enumerate() {
        if holders.is_empty() {
            continue;
        }
        held.push(Held {
            elem: i as u32,
            count: counts[i],
            holders: Seq::new(holders),
        })?;
    }
    Ok(Seq::new(held))
}

/// Who holds each element, each as often as it does: workers, then desks.
fn holders(alloc: Global, snapshot: &Snapshot) -> Result<Vec<Vec<Holder>>, AllocError>
    requires pool { IsPool snapshot.now.limits }
    requires lawful { IsLawful snapshot.now }
    ensures { IfOk result (λ table. lists_of table.items ≡
        map (holders_in snapshot.now) (range_with_len 0 snapshot.now.limits.population)) }
{
    let foreign = snapshot.foreign;
    let guests = by_worker(alloc, snapshot.guests.as_slice(), snapshot.limits.workers)?;
    let mut table = empty_lists(alloc, snapshot.limits.population)?;
    add_shares(
        &mut table,
        snapshot.shares.as_slice(),
        guests.as_slice(),
        foreign,
    )?;
    add_desks(&mut table, snapshot.desks.as_slice(), foreign)?;
    Ok(table)
}

/// This many lists without elements.
fn empty_lists<T: Drop>(alloc: Global, count: u64) -> Result<Vec<Vec<T>>, AllocError>
    ensures { IfOk result (λ lists. lists_of lists.items ≡ replicate count []) }
{
    let mut lists = Vec::new(alloc);
    for _ in 0..count {
        lists.push(Vec::new(alloc))?;
    }
    Ok(lists)
}

/// The guests of each worker, by its number, in time linear in them. The first list is nobody's.
fn by_worker(alloc: Global, guests: &[Guest], workers: u64) -> Result<Vec<Vec<u32>>, AllocError>
    requires few { workers ≤ 64 }
    requires guests { AreOfWorkers workers guests.now }
    ensures { IfOk result (λ lists. AreByWorker workers guests.now (lists_of lists.items)) }
{
    let mut lists: Vec<Vec<u32>> = empty_lists(alloc, workers + 1)?;
    for guest in guests {
        lists[guest.worker as usize].push(guest.elem)?;
    }
    Ok(lists)
}

/// Notes the workers of these shares, for each hold of their packets and for each of their guests.
fn add_shares(
    table: &mut Vec<Vec<Holder>>,
    shares: &[ShareData],
    guests: &[Vec<u32>],
    foreign: bool,
) -> Result<(), AllocError>
    requires workers { All (λ share. share.worker < length guests.now) shares.now }
    requires known { (i : ℕ) → length (lists_of table.old.items) ≤ i →
        sum_by (λ share. share_holds foreign (lists_of guests.now) share i) shares.now ≡ 0 }
    ensures { IfOk result (λ _. AreAdded (workers_in foreign (lists_of guests.now) shares.now)
        (lists_of table.old.items) (lists_of table.new.items)) }
{
    for share in shares {
        let guests = guests[share.worker as usize].as_slice();
        add_share(table, share, guests, foreign)?;
    }
    Ok(())
}

/// Notes a worker, for each hold of its packets and for each of its guests.
fn add_share(
    table: &mut Vec<Vec<Holder>>,
    share: &ShareData,
    guests: &[u32],
    foreign: bool,
) -> Result<(), AllocError>
    requires { (i : ℕ) → length (lists_of table.old.items) ≤ i →
        held_in (local_table foreign share.now.slots) i + bag guests.now i ≡ 0 }
    ensures { IfOk result (λ _. AreAdded
        (λ i. replicate (held_in (local_table foreign share.now.slots) i + bag guests.now i) (Holder.Worker share.now.worker))
        (lists_of table.old.items) (lists_of table.new.items)) }
{
    let holder = Holder::Worker(share.worker);
    add_slots(table, share.slots.as_slice(), holder, foreign)?;
    add_all(table, guests, holder)
}

/// Notes these desks, for each hold of their packets.
fn add_desks(
    table: &mut Vec<Vec<Holder>>,
    desks: &[Option<Seq<Seg>>],
    foreign: bool,
) -> Result<(), AllocError>
    requires few { length desks.now ≤ 64 }
    requires known { (i : ℕ) → length (lists_of table.old.items) ≤ i → held_in (local_table foreign desks.now) i ≡ 0 }
    ensures { IfOk result (λ _. AreAdded (desks_of 0 (local_table foreign desks.now)) (lists_of table.old.items) (lists_of table.new.items)) }
{
    for (desk, place) in desks.iter().enumerate() {
        if let Some(segs) = place {
            add_packet(table, segs.as_slice(), Holder::Desk(desk as u32), foreign)?;
        }
    }
    Ok(())
}

/// Notes a holder for each hold of the packets in these slots.
fn add_slots(
    table: &mut Vec<Vec<Holder>>,
    slots: &[Option<Seq<Seg>>],
    holder: Holder,
    foreign: bool,
) -> Result<(), AllocError>
    requires { (i : ℕ) → length (lists_of table.old.items) ≤ i → held_in (local_table foreign slots.now) i ≡ 0 }
    ensures { IfOk result (λ _. AreAdded (λ i. replicate (held_in (local_table foreign slots.now) i) holder) (lists_of table.old.items)
        (lists_of table.new.items)) }
{
    for slot in slots {
        if let Some(segs) = slot {
            add_packet(table, segs.as_slice(), holder, foreign)?;
        }
    }
    Ok(())
}

/// Notes a holder for each hold of a packet.
fn add_packet(
    table: &mut Vec<Vec<Holder>>,
    segs: &[Seg],
    holder: Holder,
    foreign: bool,
) -> Result<(), AllocError>
    requires { (i : ℕ) → length (lists_of table.old.items) ≤ i → bag (holds_of_packet (local_packet foreign segs.now)) i ≡ 0 }
    ensures { IfOk result (λ _. AreAdded (λ i. replicate (bag (holds_of_packet (local_packet foreign segs.now)) i) holder)
        (lists_of table.old.items) (lists_of table.new.items)) }
{
    for seg in segs {
        add_seg(table, local(*seg, foreign), holder)?;
    }
    Ok(())
}

/// Notes a holder for each hold of a segment.
fn add_seg(table: &mut Vec<Vec<Holder>>, seg: Seg, holder: Holder) -> Result<(), AllocError>
    requires { (i : ℕ) → length (lists_of table.old.items) ≤ i → bag (holds_of_seg seg) i ≡ 0 }
    ensures { IfOk result (λ _. AreAdded (λ i. replicate (bag (holds_of_seg seg) i) holder) (lists_of table.old.items)
        (lists_of table.new.items)) }
{
    add_base(table, seg.base, holder)?;
    add_hold(table, seg.elem, holder)
}

/// Notes a holder for the hold of a base, where there is one.
fn add_base(
    table: &mut Vec<Vec<Holder>>,
    base: Option<u32>,
    holder: Holder,
) -> Result<(), AllocError>
    requires { (i : ℕ) → length (lists_of table.old.items) ≤ i → bag (hold_of base) i ≡ 0 }
    ensures { IfOk result (λ _. AreAdded (λ i. replicate (bag (hold_of base) i) holder) (lists_of table.old.items)
        (lists_of table.new.items)) }
{
    match base {
        Some(base) => add_hold(table, base, holder),
        None => Ok(()),
    }
}

/// Notes a holder for one hold of each of these elements.
fn add_all(table: &mut Vec<Vec<Holder>>, elems: &[u32], holder: Holder) -> Result<(), AllocError>
    requires { (i : ℕ) → length (lists_of table.old.items) ≤ i → bag elems.now i ≡ 0 }
    ensures { IfOk result (λ _. AreAdded (λ i. replicate (bag elems.now i) holder) (lists_of table.old.items)
        (lists_of table.new.items)) }
{
    for elem in elems {
        add_hold(table, *elem, holder)?;
    }
    Ok(())
}

/// Notes a holder for one hold of an element.
fn add_hold(table: &mut Vec<Vec<Holder>>, elem: u32, holder: Holder) -> Result<(), AllocError>
    requires { elem < length (lists_of table.old.items) }
    ensures { IfOk result (λ _. AreAdded (λ i. replicate (one elem i) holder) (lists_of table.old.items) (lists_of table.new.items)) }
{
    table[elem as usize].push(holder)?;
    Ok(())
}
