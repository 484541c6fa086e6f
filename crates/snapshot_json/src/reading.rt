//! A value of JSON read as a snapshot, in either of its forms: what it shows is taken, written
//! again, and compared with the value.

ghost use Rattle.std.specs.Prelude.{◌≡◌, ◌≤◌, ◌↔◌, false, IfOk, IsTrue, MatchOption, ℕ};
ghost use Rattle.commons.specs.Bag.{bag};
ghost use Rattle.serde_json.specs.Data.{depth};
ghost use Rattle.serde_json.specs.Read.{max_depth};
ghost use Rattle.serde_json.specs.View.{view};
ghost use Rattle.serde_json.specs.Written.{has_float};
ghost use Rattle.snapshot_json.specs.Reading.{IsLeastDouble, IsNoListData, IsOfPool};
ghost use Rattle.snapshot_json.specs.Readings.{IsNoWords, Reads, ReadsCommon, with_list};
ghost use Rattle.snapshot_json.specs.SnapshotData.{common_data, snapshot_data};

use crate::parts::{self, Stack};
use crate::text::{Double, Repeats};
use crate::{stack, values};
use commons::seq::Seq;
use serde_json::Value;
use snapshot::snapshot::Snapshot;
use std::alloc::{AllocError, Global};

/// What a value is.
#[derive(Drop)]
pub(crate) enum Reading {
    /// The data of this snapshot.
    Whole(Snapshot),
    /// That of this one but for its list, in which an element stands twice: the data of none.
    Twice(Repeats),
    /// The data of none.
    Other,
}

/// Whether a value is the wanted one.
fn is_same(alloc: Global, value: &Value, wanted: &Value) -> Result<bool, AllocError>
    requires low { depth (view value.now) ≤ max_depth }
    requires wanted_low { depth (view wanted.now) ≤ max_depth }
    requires whole { has_float (view wanted.now) ≡ false }
    ensures { IfOk result (λ same. IsTrue same ↔ (view value.now ≡ view wanted.now)) }
{
    let text = value.to_vec(alloc)?;
    let wanted_text = wanted.to_vec(alloc)?;
    Ok(text.as_slice() == wanted_text.as_slice())
}

/// What a value is.
pub(crate) fn read(alloc: Global, value: &Value) -> Result<Reading, AllocError>
    requires low { depth (view value.now) ≤ max_depth }
    ensures { IfOk result (λ reading. Reads (view value.now) reading) }
{
    if value.get("common").is_some() {
        let reading = of_common(alloc, value)?;
        return Ok(reading);
    }
    match of_words(alloc, value)? {
        Some(snapshot) => Ok(Reading::Whole(snapshot)),
        None => Ok(Reading::Other),
    }
}

/// The snapshot whose data a value is, with its stack as words.
fn of_words(alloc: Global, value: &Value) -> Result<Option<Snapshot>, AllocError>
    requires low { depth (view value.now) ≤ max_depth }
    ensures { IfOk result (λ found. MatchOption found (IsNoWords (view value.now))
        (λ s. view value.now ≡ snapshot_data s)) }
{
    let stack = Stack {
        top: parts::number32(value, "top"),
        length: parts::number(value, "length"),
        links: parts::list(alloc, value, "links")?,
    };
    let snapshot = parts::snapshot(alloc, value, stack)?;
    let written = values::snapshot(alloc, &snapshot)?;
    if is_same(alloc, value, &written)? {
        Ok(Some(snapshot))
    } else {
        Ok(None)
    }
}

/// What a value is, as one with its stack as a list.
fn of_common(alloc: Global, value: &Value) -> Result<Reading, AllocError>
    requires low { depth (view value.now) ≤ max_depth }
    ensures { IfOk result (λ reading. ReadsCommon (view value.now) reading) }
{
    match list_form(alloc, value)? {
        Some(found) => with_words(alloc, found),
        None => Ok(Reading::Other),
    }
}

/// A snapshot without its stack, and the list of elements that stands for it.
#[derive(Drop)]
pub(crate) struct Listed {
    pub(crate) shown: Snapshot,
    pub(crate) common: Seq<u32>,
}

/// The snapshot whose data a value is, with its stack as a list.
fn list_form(alloc: Global, value: &Value) -> Result<Option<Listed>, AllocError>
    requires low { depth (view value.now) ≤ max_depth }
    ensures { IfOk result (λ found. MatchOption found (IsNoListData (view value.now))
        (λ l. view value.now ≡ common_data l.shown l.common)) }
{
    let common = parts::list(alloc, value, "common")?;
    let no_stack = Stack {
        top: 0,
        length: 0,
        links: Seq::new(Vec::new(alloc)),
    };
    let shown = parts::snapshot(alloc, value, no_stack)?;
    let written = values::with_common(alloc, &shown, &common)?;
    if is_same(alloc, value, &written)? {
        Ok(Some(Listed { shown, common }))
    } else {
        Ok(None)
    }
}

/// The snapshot with the words that its list stands for, where it stands for any.
pub(crate) fn with_words(alloc: Global, listed: Listed) -> Result<Reading, AllocError>
    ensures { IfOk result
        (λ reading. ReadsCommon (common_data listed.shown listed.common) reading) }
{
    let population = listed.shown.limits.population;
    if !stack::has_words(listed.common.as_slice(), population) {
        return Ok(Reading::Other);
    }
    match stack::doubled(alloc, listed.common.as_slice(), population as usize)? {
        Some(double) => twice(alloc, listed, double),
        None => once(alloc, listed),
    }
}

/// The snapshot with the words of an empty stack, beside its list, in which this element is the
/// least that stands twice.
fn twice(alloc: Global, listed: Listed, double: Double) -> Result<Reading, AllocError>
    requires elements { IsOfPool listed.shown.limits.population listed.common }
    requires least { IsLeastDouble listed.common double.elem double.first double.second }
    ensures { IfOk result
        (λ reading. ReadsCommon (common_data listed.shown listed.common) reading) }
{
    let Listed { shown, common } = listed;
    let snapshot = with_stack(alloc, shown, &[])?;
    Ok(Reading::Twice(Repeats {
        snapshot,
        common,
        double,
    }))
}

/// The snapshot with the words of its list, in which each element stands once.
fn once(alloc: Global, listed: Listed) -> Result<Reading, AllocError>
    requires elements { IsOfPool listed.shown.limits.population listed.common }
    requires once { (e : ℕ) → bag listed.common e ≤ 1 }
    ensures { IfOk result
        (λ reading. ReadsCommon (common_data listed.shown listed.common) reading) }
{
    let Listed { shown, common } = listed;
    let snapshot = with_stack(alloc, shown, common.as_slice())?;
    Ok(Reading::Whole(snapshot))
}

/// The snapshot with the words of a list of its pool's elements, each of which stands there once.
fn with_stack(alloc: Global, shown: Snapshot, common: &[u32]) -> Result<Snapshot, AllocError>
    requires elements { IsOfPool shown.limits.population common.now }
    ensures { IfOk result (λ s. s ≡ with_list shown common.now) }
{
    let population = shown.limits.population;
    let links = stack::links(alloc, common, population as usize)?;
    Ok(Snapshot {
        limits: shown.limits,
        top: stack::top(common),
        length: common.len() as u64,
        links: Seq::new(links),
        counts: shown.counts,
        desks: shown.desks,
        shares: shown.shares,
        guests: shown.guests,
        foreign: shown.foreign,
    })
}
