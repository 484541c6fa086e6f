//! Snapshots that are made from rows.

ghost use Rattle.std.specs.Prelude.{◌≡◌, IfOk};

use super::shown::{Handed, Shown, Word};
use commons::packet::Seg;
use commons::seq::Seq;
use snapshot::snapshot::{ShareData, Snapshot};
use std::alloc::{AllocError, Global};

/// A list of these values.
fn seq<T: Copy>(alloc: Global, items: &[T]) -> Result<Seq<T>, AllocError> {
    Ok(Seq::new(items.to_vec(alloc)?))
}

/// A list of these words, one of them another, where it is among them.
fn words(
    alloc: Global,
    words: &[u32],
    at: Option<u32>,
    value: u32,
) -> Result<Seq<u32>, AllocError> {
    let mut words = words.to_vec(alloc)?;
    if let Some(index) = at {
        if let Some(word) = words.get_mut(index as usize) {
            *word = value;
        }
    }
    Ok(Seq::new(words))
}

/// A packet of these segments, if there is one.
fn packet(alloc: Global, segs: Option<&[Seg]>) -> Result<Option<Seq<Seg>>, AllocError> {
    match segs {
        Some(segs) => Ok(Some(seq(alloc, segs)?)),
        None => Ok(None),
    }
}

/// This many places, with the packet in each that has one.
fn table(
    alloc: Global,
    packets: &[(usize, &[Seg])],
    places: usize,
) -> Result<Seq<Option<Seq<Seg>>>, AllocError> {
    let mut table = Vec::new(alloc);
    for slot in 0..places {
        table.push(packet(alloc, in_slot(packets, slot))?)?;
    }
    Ok(Seq::new(table))
}

/// The segments of the packet in a slot, if there is one.
fn in_slot<'a>(packets: &[(usize, &'a [Seg])], slot: usize) -> Option<&'a [Seg]> {
    for (at, segs) in packets {
        if *at == slot {
            return Some(*segs);
        }
    }
    None
}

/// What the workers handed in, in shares of so many places: 256 where nothing is said.
fn shares(alloc: Global, rows: &[Handed], places: &[usize]) -> Result<Seq<ShareData>, AllocError> {
    let mut shares = Vec::new(alloc);
    for (index, row) in rows.iter().enumerate() {
        let (worker, cache, packets) = row;
        let places = places.get(index).copied().unwrap_or(256);
        shares.push(ShareData {
            worker: *worker,
            cache: seq(alloc, cache)?,
            slots: table(alloc, packets, places)?,
        })?;
    }
    Ok(Seq::new(shares))
}

/// What lies on the desks.
fn desks(alloc: Global, rows: &[Option<&[Seg]>]) -> Result<Seq<Option<Seq<Seg>>>, AllocError> {
    let mut desks = Vec::new(alloc);
    for row in rows {
        desks.push(packet(alloc, *row)?)?;
    }
    Ok(Seq::new(desks))
}

/// The snapshot of a row, where one word may be another.
pub(super) fn built(
    alloc: Global,
    shown: &Shown,
    other: Option<(Word, u32)>,
) -> Result<Snapshot, AllocError>
    ensures { IfOk result (λ s. s.limits ≡ shown.now.limits) }
{
    let (mut top, mut length, mut link, mut count, mut value) = (
        shown.top,
        shown.length,
        None,
        None,
        0,
    );
    if let Some((word, wanted)) = other {
        value = wanted;
        match word {
            Word::Top => top = value,
            Word::Length => length = u64::from(value),
            Word::Link(elem) => link = Some(elem),
            Word::Count(elem) => count = Some(elem),
        }
    }
    Ok(Snapshot {
        limits: shown.limits,
        top,
        length,
        links: words(alloc, shown.links, link, value)?,
        counts: words(alloc, shown.counts, count, value)?,
        desks: desks(alloc, shown.desks)?,
        shares: shares(alloc, shown.shares, shown.places)?,
        guests: seq(alloc, shown.guests)?,
        foreign: shown.foreign,
    })
}
