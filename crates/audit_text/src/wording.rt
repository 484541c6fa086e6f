//! Places in words.

ghost use Rattle.std.specs.Prelude.{◌≡◌, ◌++◌, OnOk, string_bytes};
ghost use Rattle.audit_text.specs.FaultText.{base_text, cache_text, first_text, own_text, packet_text, place_text, second_text, two_text};
ghost use Rattle.audit_text.specs.declared.place.Place.TheVariants.{Free};

use crate::place::{FreeList, Place, Table};
use std::alloc::AllocError;

/// The first two of these places.
pub(crate) fn write_two(out: &mut String, places: &[Place]) -> Result<(), AllocError>
    ensures { OnOk result (string_bytes out.new ≡ string_bytes out.old ++ two_text places.now) }
{
    write_first(out, places)?;
    write_second(out, places)
}

/// The first of them.
pub(crate) fn write_first(out: &mut String, places: &[Place]) -> Result<(), AllocError>
    ensures { OnOk result (string_bytes out.new ≡ string_bytes out.old ++ first_text places.now) }
{
    match places.first() {
        Some(place) => {
            write!(out, ": ")?;
            write_place(out, *place)
        }
        None => Ok(()),
    }
}

/// The second.
fn write_second(out: &mut String, places: &[Place]) -> Result<(), AllocError>
    ensures { OnOk result (string_bytes out.new ≡ string_bytes out.old ++ second_text places.now) }
{
    match places.get(1) {
        Some(place) => {
            write!(out, ", ")?;
            write_place(out, *place)
        }
        None => Ok(()),
    }
}

fn write_place(out: &mut String, place: Place) -> Result<(), AllocError>
    ensures { OnOk result (string_bytes out.new ≡ string_bytes out.old ++ place_text place) }
{
    match place {
        Place::Free(list, k) => write_free(out, list, k),
        Place::Packet(table, i) => write_packet(out, table, i),
        Place::Own(table, i, k) => write_own(out, table, i, k),
        Place::Base(table, i, k) => write_base(out, table, i, k),
        Place::Hosted(worker) => write!(out, "guest of worker {worker}"),
    }
}

/// An element of a free list.
fn write_free(out: &mut String, list: FreeList, k: u64) -> Result<(), AllocError>
    ensures { OnOk result (string_bytes out.new ≡ string_bytes out.old
        ++ place_text (Free list k)) }
{
    match list {
        FreeList::Stack => write!(out, "at {k} on the stack"),
        FreeList::Cache(worker) => write_cached(out, worker, k),
    }
}

/// An element of a cache.
#[tactic(auto, unfolding(crate::specs::FaultText::cache_text))]
fn write_cached(out: &mut String, worker: u32, k: u64) -> Result<(), AllocError>
    ensures { OnOk result (string_bytes out.new ≡ string_bytes out.old ++ cache_text worker k) }
{
    write!(out, "at {k} in the cache of worker {worker}")
}

/// A segment.
#[tactic(auto, unfolding(crate::specs::FaultText::own_text))]
fn write_own(out: &mut String, table: Table, i: u64, k: u64) -> Result<(), AllocError>
    ensures { OnOk result (string_bytes out.new ≡ string_bytes out.old ++ own_text table i k) }
{
    write!(out, "segment {k} of ")?;
    write_packet(out, table, i)
}

/// A segment with a base.
#[tactic(auto, unfolding(crate::specs::FaultText::base_text))]
fn write_base(out: &mut String, table: Table, i: u64, k: u64) -> Result<(), AllocError>
    ensures { OnOk result (string_bytes out.new ≡ string_bytes out.old ++ base_text table i k) }
{
    write!(out, "base of ")?;
    write_own(out, table, i, k)
}

/// Which packet of which table.
#[tactic(auto, unfolding(crate::specs::FaultText::packet_text))]
fn write_packet(out: &mut String, table: Table, i: u64) -> Result<(), AllocError>
    ensures { OnOk result (string_bytes out.new ≡ string_bytes out.old ++ packet_text table i) }
{
    match table {
        Table::Slots(worker) => write!(out, "packet {worker} {i}"),
        Table::Desks => write!(out, "desk {i}"),
    }
}
