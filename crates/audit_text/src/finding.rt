//! Where an element stands in a snapshot.

ghost use Rattle.std.specs.Prelude.{◌≡◌, ◌++◌, IfOk};
ghost use Rattle.audit_text.specs.Places.{base_places, hosted, owners_of, packet_places, places_on, seg_places, segs_from, slotted, table_from};

use crate::lists::{in_caches, in_list, note};
use crate::place::{FreeList, Place, Table};
use commons::packet::Seg;
use commons::seq::Seq;
use pool_statement::guest::Guest;
use snapshot::snapshot::{ShareData, Snapshot};
use std::alloc::{AllocError, Global};

/// Where an element is the own one of a segment.
pub(crate) fn owners(
    alloc: Global,
    snapshot: &Snapshot,
    elem: u32,
) -> Result<Vec<Place>, AllocError>
    ensures { IfOk result (λ v. v.items ≡ owners_of snapshot.now elem) }
{
    let mut out = Vec::new(alloc);
    in_slots(&mut out, snapshot.shares.as_slice(), elem, false)?;
    in_table(
        &mut out,
        Table::Desks,
        snapshot.desks.as_slice(),
        elem,
        false,
    )?;
    Ok(out)
}

/// Where an element stands: on this stack, in caches, in packets, and among guests.
pub(crate) fn everywhere(
    alloc: Global,
    snapshot: &Snapshot,
    stack: &[u32],
    elem: u32,
) -> Result<Vec<Place>, AllocError>
    ensures { IfOk result (λ v. v.items ≡ places_on stack.now snapshot.now elem) }
{
    let bases = !snapshot.foreign;
    let shares = snapshot.shares.as_slice();
    let mut out = Vec::new(alloc);
    in_list(&mut out, FreeList::Stack, stack, elem)?;
    in_caches(&mut out, shares, elem)?;
    in_slots(&mut out, shares, elem, bases)?;
    in_table(
        &mut out,
        Table::Desks,
        snapshot.desks.as_slice(),
        elem,
        bases,
    )?;
    in_guests(&mut out, snapshot.guests.as_slice(), elem)?;
    Ok(out)
}

/// In the slots of shares.
fn in_slots(
    out: &mut Vec<Place>,
    shares: &[ShareData],
    elem: u32,
    bases: bool,
) -> Result<(), AllocError>
    ensures { IfOk result (λ _. out.new.items ≡ out.old.items ++ slotted bases elem shares.now) }
{
    for share in shares {
        in_table(
            out,
            Table::Slots(share.worker),
            share.slots.as_slice(),
            elem,
            bases,
        )?;
    }
    Ok(())
}

/// In a table.
fn in_table(
    out: &mut Vec<Place>,
    table: Table,
    packets: &[Option<Seq<Seg>>],
    elem: u32,
    bases: bool,
) -> Result<(), AllocError>
    ensures { IfOk result (λ _. out.new.items ≡ out.old.items ++ table_from bases elem table 0 packets.now) }
{
    for (index, packet) in packets.iter().enumerate() {
        in_place(out, table, index as u64, packet, elem, bases)?;
    }
    Ok(())
}

/// In what stands at a place of a table.
fn in_place(
    out: &mut Vec<Place>,
    table: Table,
    index: u64,
    packet: &Option<Seq<Seg>>,
    elem: u32,
    bases: bool,
) -> Result<(), AllocError>
    ensures { IfOk result (λ _. out.new.items ≡ out.old.items ++ packet_places bases elem table index packet.now) }
{
    match packet {
        Some(segs) => in_segs(out, table, index, segs.as_slice(), elem, bases),
        None => Ok(()),
    }
}

/// In the segments of a packet.
fn in_segs(
    out: &mut Vec<Place>,
    table: Table,
    index: u64,
    segs: &[Seg],
    elem: u32,
    bases: bool,
) -> Result<(), AllocError>
    ensures { IfOk result (λ _. out.new.items ≡ out.old.items ++ segs_from bases elem table index 0 segs.now) }
{
    for (k, seg) in segs.iter().enumerate() {
        in_seg(out, table, index, k as u64, *seg, elem, bases)?;
    }
    Ok(())
}

/// In a segment.
fn in_seg(
    out: &mut Vec<Place>,
    table: Table,
    index: u64,
    k: u64,
    seg: Seg,
    elem: u32,
    bases: bool,
) -> Result<(), AllocError>
    ensures { IfOk result (λ _. out.new.items ≡ out.old.items ++ seg_places bases elem table index k seg) }
{
    note(out, seg.elem == elem, Place::Own(table, index, k))?;
    in_base(out, Place::Base(table, index, k), seg.base, elem, bases)
}

/// As a base, where bases are looked at.
fn in_base(
    out: &mut Vec<Place>,
    place: Place,
    base: Option<u32>,
    elem: u32,
    bases: bool,
) -> Result<(), AllocError>
    ensures { IfOk result (λ _. out.new.items ≡ out.old.items ++ base_places bases elem place base) }
{
    match base {
        Some(base) => {
            if bases {
                note(out, base == elem, place)
            } else {
                Ok(())
            }
        }
        None => Ok(()),
    }
}

/// Among guests.
fn in_guests(out: &mut Vec<Place>, guests: &[Guest], elem: u32) -> Result<(), AllocError>
    ensures { IfOk result (λ _. out.new.items ≡ out.old.items ++ hosted elem guests.now) }
{
    for guest in guests {
        note(out, guest.elem == elem, Place::Hosted(guest.worker))?;
    }
    Ok(())
}
