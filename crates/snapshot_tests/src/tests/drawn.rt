//! Snapshots of all kinds, drawn from a small generator.

use commons::limits::{Limits, PutRule};
use commons::packet::Seg;
use commons::seq::Seq;
use pool_statement::guest::Guest;
use snapshot::snapshot::{ShareData, Snapshot};
use std::alloc::{AllocError, Global};

/// A linear congruential generator.
/// (Knuth, MMIX)
#[derive(Drop)]
pub(super) struct Source {
    state: u64,
}

impl Source {
    /// The generator that starts here.
    pub(super) fn new(state: u64) -> Source {
        Source { state }
    }

    /// A number: small as a rule, and the greatest of its bits or near it now and then.
    fn number(&mut self, greatest: u64) -> u64 {
        self.state = self
            .state
            .wrapping_mul(6_364_136_223_846_793_005)
            .wrapping_add(1_442_695_040_888_963_407);
        let drawn = self.state >> 33;
        match drawn % 8 {
            0 => greatest,
            1 => greatest - (drawn >> 3).min(greatest),
            _ => ((drawn >> 3) % 10).min(greatest),
        }
    }

    /// How many: none to three.
    fn few(&mut self) -> u64 {
        self.number(u64::MAX) % 4
    }

    fn word(&mut self) -> u32 {
        (self.number(4_294_967_295) & 0xffff_ffff) as u32
    }

    fn short(&mut self) -> u16 {
        (self.number(65_535) & 0xffff) as u16
    }
}

/// A list of words.
fn words(alloc: Global, source: &mut Source) -> Result<Seq<u32>, AllocError> {
    let mut words = Vec::new(alloc);
    for _ in 0..source.few() {
        words.push(source.word())?;
    }
    Ok(Seq::new(words))
}

/// A place.
fn place(alloc: Global, source: &mut Source) -> Result<Option<Seq<Seg>>, AllocError> {
    if source.few() == 0 {
        return Ok(None);
    }
    let mut segs = Vec::new(alloc);
    for _ in 0..source.few() {
        let base = if source.few() == 0 {
            None
        } else {
            Some(source.word())
        };
        segs.push(Seg {
            elem: source.word(),
            base,
            data_off: source.short(),
            data_len: source.short(),
            buf_len: source.short(),
        })?;
    }
    Ok(Some(Seq::new(segs)))
}

/// Places.
fn places(alloc: Global, source: &mut Source) -> Result<Seq<Option<Seq<Seg>>>, AllocError> {
    let mut places = Vec::new(alloc);
    for _ in 0..source.few() {
        places.push(place(alloc, source)?)?;
    }
    Ok(Seq::new(places))
}

/// Limits, of a pool or of none.
fn limits(source: &mut Source) -> Limits {
    let whole = source.few() == 0;
    Limits {
        population: source.number(u64::MAX),
        cache: source.number(u64::MAX),
        workers: source.number(u64::MAX),
        desks: source.number(u64::MAX),
        buf: source.number(u64::MAX),
        ref_limit: source.number(u64::MAX),
        tries: source.number(u64::MAX),
        start_count: source.number(u64::MAX),
        put_rule: if whole { PutRule::Whole } else { PutRule::Keep },
    }
}

/// Shares.
fn shares(alloc: Global, source: &mut Source) -> Result<Seq<ShareData>, AllocError> {
    let mut shares = Vec::new(alloc);
    for _ in 0..source.few() {
        shares.push(ShareData {
            worker: source.word(),
            cache: words(alloc, source)?,
            slots: places(alloc, source)?,
        })?;
    }
    Ok(Seq::new(shares))
}

/// Guests.
fn guests(alloc: Global, source: &mut Source) -> Result<Seq<Guest>, AllocError> {
    let mut guests = Vec::new(alloc);
    for _ in 0..source.few() {
        guests.push(Guest {
            worker: source.word(),
            elem: source.word(),
        })?;
    }
    Ok(Seq::new(guests))
}

/// A snapshot.
pub(super) fn drawn(alloc: Global, source: &mut Source) -> Result<Snapshot, AllocError> {
    Ok(Snapshot {
        limits: limits(source),
        top: source.word(),
        length: source.number(u64::MAX),
        links: words(alloc, source)?,
        counts: words(alloc, source)?,
        desks: places(alloc, source)?,
        shares: shares(alloc, source)?,
        guests: guests(alloc, source)?,
        foreign: source.few() == 0,
    })
}
