//! What a value of JSON shows of a snapshot, whatever it is: a 0, a `false` or an empty list stands
//! where a part isn't there. Whether it is a snapshot's data is told elsewhere.

ghost use Rattle.std.specs.Prelude.{◌≡◌, ◌^◌, IfOk, map};
ghost use Rattle.serde_json.specs.View.{view};
ghost use Rattle.snapshot_json.specs.Shown.{base_at, beside_stack, flag_at, items_at, items_in, limits_at, limits_in, number16_at, number32_at, number_at, number_in, rule_from, some_within, within};

use commons::limits::{Limits, PutRule};
use commons::packet::Seg;
use commons::seq::Seq;
use pool_statement::guest::Guest;
use serde_json::Value;
use snapshot::snapshot::{ShareData, Snapshot};
use std::alloc::{AllocError, Global};

/// The stack of a snapshot as words.
#[derive(Drop)]
pub(crate) struct Stack {
    /// The top of the stack.
    pub(crate) top: u32,
    /// The length word.
    pub(crate) length: u64,
    /// The links.
    pub(crate) links: Seq<u32>,
}

/// A part of a snapshot, which any value shows.
pub(crate) trait Part: Drop {
    ghost use Rattle.serde_json.specs.Data.{Data};

    ghost shown: { Data → Self };

    /// What a value shows.
    fn shown_by(alloc: Global, value: &Value) -> Result<Self, AllocError>
        ensures { IfOk result (λ part. part ≡ shown (view value.now)) };
}

/// The snapshot that a value shows, with this stack.
pub(crate) fn snapshot(alloc: Global, value: &Value, stack: Stack) -> Result<Snapshot, AllocError>
    ensures { IfOk result
        (λ s. s ≡ beside_stack (view value.now) stack.top stack.length stack.links) }
{
    let Stack { top, length, links } = stack;
    let counts = list(alloc, value, "counts")?;
    let desks = list(alloc, value, "desks")?;
    let shares = list(alloc, value, "shares")?;
    let guests = list(alloc, value, "guests")?;
    Ok(Snapshot {
        limits: limits(value, "limits"),
        top,
        length,
        links,
        counts,
        desks,
        shares,
        guests,
        foreign: flag(value, "foreign"),
    })
}

/// A number below 2^32, or 0.
fn word(number: u64) -> u32
    ensures { result ≡ within (2 ^ 32) number }
{
    if number < 1 << 32 { number as u32 } else { 0 }
}

/// A number below 2^16, or 0.
fn short(number: u64) -> u16
    ensures { result ≡ within (2 ^ 16) number }
{
    if number < 1 << 16 { number as u16 } else { 0 }
}

/// A value's number, or 0.
fn number_of(value: &Value) -> u64
    ensures { result ≡ number_in (view value.now) }
{
    value.as_u64().unwrap_or(0)
}

/// The number of a member, or 0.
pub(crate) fn number(value: &Value, key: &str) -> u64
    ensures { result ≡ number_at key.now (view value.now) }
{
    match value.get(key) {
        Some(found) => number_of(found),
        None => 0,
    }
}

/// The number below 2^32 of a member, or 0.
pub(crate) fn number32(value: &Value, key: &str) -> u32
    ensures { result ≡ number32_at key.now (view value.now) }
{
    word(number(value, key))
}

/// The number below 2^16 of a member, or 0.
fn number16(value: &Value, key: &str) -> u16
    ensures { result ≡ number16_at key.now (view value.now) }
{
    short(number(value, key))
}

/// A value's items, or none.
fn items_of(value: &Value) -> &[Value]
    ensures { map view result.now ≡ items_in (view value.now) }
{
    match value.as_array() {
        Some(list) => list.as_slice(),
        None => &[],
    }
}

/// The items of a member, or none.
fn items<'v>(value: &'v Value, key: &str) -> &'v [Value]
    ensures { map view result.now ≡ items_at key.now (view value.now) }
{
    match value.get(key) {
        Some(found) => items_of(found),
        None => &[],
    }
}

/// The list of parts of a member, or an empty one.
pub(crate) fn list<T: Part>(alloc: Global, value: &Value, key: &str) -> Result<Seq<T>, AllocError>
    ensures { IfOk result (λ v. v ≡ map T.shown (items_at key.now (view value.now))) }
{
    all(alloc, items(value, key))
}

/// The parts that items show.
fn all<T: Part>(alloc: Global, items: &[Value]) -> Result<Seq<T>, AllocError>
    ensures { IfOk result (λ v. v ≡ map T.shown (map view items.now)) }
{
    let mut found = Vec::with_capacity(alloc, items.len())?;
    for item in items {
        found.push(T::shown_by(alloc, item)?)?;
    }
    Ok(Seq::new(found))
}

/// A number below 2^32.
impl Part for u32 {
    ghost use Rattle.snapshot_json.specs.Shown.{number32_in};

    ghost shown = { number32_in };

    fn shown_by(_alloc: Global, value: &Value) -> Result<u32, AllocError> {
        Ok(word(number_of(value)))
    }
}

/// A base: the number below 2^32 of a member, where it is one.
fn base(value: &Value, key: &str) -> Option<u32>
    ensures { result ≡ base_at key.now (view value.now) }
{
    match value.get(key) {
        Some(found) => match found.as_u64() {
            Some(number) => some_word(number),
            None => None,
        },
        None => None,
    }
}

/// A number, where it is below 2^32.
fn some_word(number: u64) -> Option<u32>
    ensures { result ≡ some_within number }
{
    if number < 1 << 32 {
        Some(number as u32)
    } else {
        None
    }
}

/// The truth of a member, or `false`.
fn flag(value: &Value, key: &str) -> bool
    ensures { result ≡ flag_at key.now (view value.now) }
{
    match value.get(key) {
        Some(found) => found.as_bool().unwrap_or(false),
        None => false,
    }
}

/// A segment.
impl Part for Seg {
    ghost use Rattle.snapshot_json.specs.Shown.{seg_in};

    ghost shown = { seg_in };

    fn shown_by(_alloc: Global, value: &Value) -> Result<Seg, AllocError> {
        Ok(Seg {
            elem: number32(value, "elem"),
            base: base(value, "base"),
            data_off: number16(value, "off"),
            data_len: number16(value, "len"),
            buf_len: number16(value, "buf"),
        })
    }
}

/// A place.
impl Part for Option<Seq<Seg>> {
    ghost use Rattle.snapshot_json.specs.Shown.{place_in};

    ghost shown = { place_in };

    fn shown_by(alloc: Global, value: &Value) -> Result<Option<Seq<Seg>>, AllocError> {
        match value.as_array() {
            Some(items) => Ok(Some(all(alloc, items.as_slice())?)),
            None => Ok(None),
        }
    }
}

/// A share.
impl Part for ShareData {
    ghost use Rattle.snapshot_json.specs.Shown.{share_in};

    ghost shown = { share_in };

    fn shown_by(alloc: Global, value: &Value) -> Result<ShareData, AllocError> {
        let cache = list(alloc, value, "cache")?;
        let slots = list(alloc, value, "slots")?;
        Ok(ShareData {
            worker: number32(value, "worker"),
            cache,
            slots,
        })
    }
}

/// A guest.
impl Part for Guest {
    ghost use Rattle.snapshot_json.specs.Shown.{guest_in};

    ghost shown = { guest_in };

    fn shown_by(_alloc: Global, value: &Value) -> Result<Guest, AllocError> {
        Ok(Guest {
            worker: number32(value, "worker"),
            elem: number32(value, "elem"),
        })
    }
}

/// The rule of puts with this number; no other than 0 and 1 is one.
fn rule(number: u64) -> PutRule
    ensures { result ≡ rule_from number }
{
    if number == 1 {
        PutRule::Whole
    } else {
        PutRule::Keep
    }
}

/// The limits that a value shows.
fn limits_of(value: &Value) -> Limits
    ensures { result ≡ limits_in (view value.now) }
{
    Limits {
        population: number(value, "population"),
        cache: number(value, "cache"),
        workers: number(value, "workers"),
        desks: number(value, "desks"),
        buf: number(value, "buf"),
        ref_limit: number(value, "refs"),
        tries: number(value, "tries"),
        start_count: number(value, "start"),
        put_rule: rule(number(value, "putrule")),
    }
}

/// The limits of a member, or those of no pool.
fn limits(value: &Value, key: &str) -> Limits
    ensures { result ≡ limits_at key.now (view value.now) }
{
    match value.get(key) {
        Some(found) => limits_of(found),
        None => Limits {
            population: 0,
            cache: 0,
            workers: 0,
            desks: 0,
            buf: 0,
            ref_limit: 0,
            tries: 0,
            start_count: 0,
            put_rule: PutRule::Keep,
        },
    }
}
