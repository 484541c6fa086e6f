//! The statement and what stays, as text.

ghost use Rattle.std.specs.Prelude.{◌≡◌, ◌++◌, IfErr, IfOk, OnOk};
ghost use Rattle.std.specs.List.{flat_map};
ghost use Rattle.element_text.specs.Elements.{joined};
ghost use Rattle.stays.specs.StayText.{first_elem, part_text, place_text, since_text_of, stay_text};

use crate::staying::stays;
use crate::used::{Part, Place, Used};
use commons::refusal::Refusal;
use element_text::{write_base, write_number};
use pool_statement::statement::Statement;
use statement_text::pool_text;
use std::alloc::{AllocError, Global};

/// The text of the newer of two statements of one pool, and behind it a line for each packet that
/// stays.
///
/// Refused `OutOfMemory` where memory was refused.
pub fn since_text(alloc: Global, newer: &Statement, older: &Statement) -> Result<Vec<u8>, Refusal>
    ensures text { IfOk result (λ v. v.items ≡ since_text_of newer.now older.now) }
    ensures memory { IfErr result (λ e. e ≡ Refusal.OutOfMemory) }
{
    let stay = stays(alloc, newer, older)?;
    let mut out = pool_text(alloc, newer)?;
    match write_stays(&mut out, stay.as_slice()) {
        Ok(()) => Ok(out),
        Err(_) => Err(Refusal::OutOfMemory),
    }
}

/// A line for each packet that stays.
fn write_stays(out: &mut Vec<u8>, stay: &[Used]) -> Result<(), AllocError>
    ensures { OnOk result (out.new.items ≡ out.old.items ++ flat_map stay_text stay.now) }
{
    for used in stay {
        write_stay(out, used)?;
    }
    Ok(())
}

/// The line of one: its first element, where it stands, and its segments.
#[tactic(auto, unfolding(crate::specs::StayText::stay_text))]
fn write_stay(out: &mut Vec<u8>, used: &Used) -> Result<(), AllocError>
    ensures { OnOk result (out.new.items ≡ out.old.items ++ stay_text used.now) }
{
    write_number(out, b"stays ", first(used.parts.as_slice()))?;
    write_place(out, used.place)?;
    write_number(out, b" segs ", used.parts.len())?;
    out.extend_from_slice(b":")?;
    write_joined(out, used.parts.as_slice())?;
    out.extend_from_slice(b"\n")
}

/// The own element of the first segment; 0 where there is none, as no packet is.
pub(crate) fn first(parts: &[Part]) -> u32
    ensures { result ≡ first_elem parts.now }
{
    match parts.first() {
        Some(part) => part.elem,
        None => 0,
    }
}

/// Where a packet stands.
fn write_place(out: &mut Vec<u8>, place: Place) -> Result<(), AllocError>
    ensures { OnOk result (out.new.items ≡ out.old.items ++ place_text place) }
{
    match place {
        Place::Slot(worker, slot) => {
            write_number(out, b": packet ", worker)?;
            write_number(out, b" ", slot)
        }
        Place::Desk(desk) => write_number(out, b": desk ", desk),
    }
}

/// Each segment after a space.
fn write_joined(out: &mut Vec<u8>, parts: &[Part]) -> Result<(), AllocError>
    ensures { OnOk result (out.new.items ≡ out.old.items ++ joined part_text parts.now) }
{
    for part in parts {
        write_number(out, b" ", part.elem)?;
        write_base(out, part.base)?;
    }
    Ok(())
}
