//! The desks, and the counts.
ghost use Rattle.std.specs.Prelude.{◌≡◌, ◌++◌, OnOk};
ghost use Rattle.step_text.specs.WorldText.{count_text, counts_text, desk_text, desks_text, shelf_text, slot_text};

use crate::elements::write_segments;
use commons::packet::Packet;
use std::io;
use std::io::Write;
use step_core::view::Desk;

/// The word of a full desk.
const FULL: u64 = 2;

/// A line for each desk.
pub(crate) fn write_desks(out: &mut Vec<u8>, desks: &[Desk]) -> io::Result<()>
    ensures { OnOk result (out.new.items ≡ out.old.items ++ desks_text 0 desks.now) }
{
    for (number, desk) in desks.iter().enumerate() {
        write_desk(out, number, desk)?;
    }
    Ok(())
}

#[tactic(auto, unfolding(crate::specs::WorldText::desk_text))]
fn write_desk(out: &mut Vec<u8>, number: usize, desk: &Desk) -> io::Result<()>
    ensures { OnOk result (out.new.items ≡ out.old.items ++ desk_text number desk.now) }
{
    write!(out, "desk {number} phase {}", desk.word)?;
    write_shelf(out, desk)?;
    writeln!(out)
}

/// The packet of a full desk.
fn write_shelf(out: &mut Vec<u8>, desk: &Desk) -> io::Result<()>
    ensures { OnOk result (out.new.items ≡ out.old.items ++ shelf_text desk.now) }
{
    if desk.word == FULL {
        write!(out, ":")?;
        write_slot(out, &desk.slot)?;
    }
    Ok(())
}

/// The segments in a slot.
fn write_slot(out: &mut Vec<u8>, slot: &Option<Packet>) -> io::Result<()>
    ensures { OnOk result (out.new.items ≡ out.old.items ++ slot_text slot.now) }
{
    match slot {
        None => Ok(()),
        Some(packet) => write_segments(out, packet.segs()),
    }
}

/// A line for each count that isn't 1.
pub(crate) fn write_counts(out: &mut Vec<u8>, counts: &[u32]) -> io::Result<()>
    ensures { OnOk result (out.new.items ≡ out.old.items ++ counts_text 0 counts.now) }
{
    for (element, count) in counts.iter().enumerate() {
        write_count(out, element, *count)?;
    }
    Ok(())
}

#[tactic(auto, unfolding(crate::specs::WorldText::count_text))]
fn write_count(out: &mut Vec<u8>, element: usize, count: u32) -> io::Result<()>
    ensures { OnOk result (out.new.items ≡ out.old.items ++ count_text element count) }
{
    if count == 1 {
        return Ok(());
    }
    writeln!(out, "count {element} {count}")
}
