//! What is in use: packets, what lies on desks, and held elements; or how many there are of each.
ghost use Rattle.std.specs.Prelude.{◌≡◌, ◌++◌, OnOk};
ghost use Rattle.std.specs.List.{flat_map};
ghost use Rattle.pool_picture.specs.Picture.{each_in_use, held_circle, sum_box, sums_in_use};

use crate::packets::{write_desks, write_packets};
use element_text::write_number;
use pool_statement::statement::{Held, Statement};
use std::alloc::AllocError;

/// What is in use, each of it.
#[tactic(auto, unfolding(crate::specs::Picture::each_in_use))]
pub(crate) fn write_each(out: &mut Vec<u8>, statement: &Statement) -> Result<(), AllocError>
    ensures { OnOk result (out.new.items ≡ out.old.items ++ each_in_use statement.now) }
{
    write_packets(out, statement.packets.as_slice())?;
    write_desks(out, statement.desks.as_slice())?;
    write_held(out, statement.held.as_slice())
}

/// What is in use, as sums.
#[tactic(auto, unfolding(crate::specs::Picture::sums_in_use))]
pub(crate) fn write_sums(out: &mut Vec<u8>, statement: &Statement) -> Result<(), AllocError>
    ensures { OnOk result (out.new.items ≡ out.old.items ++ sums_in_use statement.now) }
{
    write_sum(
        out,
        "packets",
        "packets",
        statement.packets.as_slice().len(),
    )?;
    write_sum(
        out,
        "desks",
        "packets on desks",
        statement.desks.as_slice().len(),
    )?;
    write_sum(
        out,
        "held",
        "held elements",
        statement.held.as_slice().len(),
    )
}

/// A box that says how many of a kind there are.
#[tactic(auto, unfolding(crate::specs::Picture::sum_box))]
fn write_sum(out: &mut Vec<u8>, name: &str, label: &str, count: usize) -> Result<(), AllocError>
    ensures { OnOk result (out.new.items ≡ out.old.items ++ sum_box name.now label.now count) }
{
    out.extend_from_slice(b"  ")?;
    out.extend_from_slice(name.as_bytes())?;
    out.extend_from_slice(b" [label=\"")?;
    out.extend_from_slice(label.as_bytes())?;
    write_number(out, b": ", count)?;
    out.extend_from_slice(b"\"];\n")
}

/// A circle for each held element.
fn write_held(out: &mut Vec<u8>, held: &[Held]) -> Result<(), AllocError>
    ensures { OnOk result (out.new.items ≡ out.old.items ++ flat_map held_circle held.now) }
{
    for element in held {
        write_circle(out, element)?;
    }
    Ok(())
}

/// The circle of a held element, with its count.
#[tactic(auto, unfolding(crate::specs::Picture::held_circle))]
fn write_circle(out: &mut Vec<u8>, held: &Held) -> Result<(), AllocError>
    ensures { OnOk result (out.new.items ≡ out.old.items ++ held_circle held.now) }
{
    write_number(out, b"  e", held.elem)?;
    write_number(out, b" [shape=ellipse, label=\"", held.elem)?;
    write_number(out, b"\\ncount ", held.count)?;
    out.extend_from_slice(b"\"];\n")
}
