//! The text of a world.
ghost use Rattle.std.specs.Prelude.{◌≡◌, ◌++◌, IfErr, IfOk, OnOk};
ghost use Rattle.step_text.specs.WorldText.{IsTextOf, head_line, text_with};

use crate::common_list::common_list;
use crate::desks::{write_counts, write_desks};
use crate::elements::write_head;
use crate::views::write_views;
use commons::refusal::Refusal;
use element_text::write_elements;
use std::alloc::Global;
use std::io;
use std::io::Write;
use step_core::view::Head;
use step_core::world::World;

/// The text of a world: the head, the length word, the common list from the top, each worker's
/// credit, hand and holds, each desk with its packet where it is full, and each count that isn't 1.
///
/// Refused `OutOfMemory` where memory was refused.
pub fn world_text(alloc: Global, world: &World) -> Result<Vec<u8>, Refusal>
    ensures text { IfOk result (λ text. IsTextOf world.now text.items) }
    ensures memory { IfErr result (λ refusal. refusal ≡ Refusal.OutOfMemory) }
{
    let Ok(common) = common_list(alloc, world) else {
        return Err(Refusal::OutOfMemory);
    };
    let mut out = Vec::new(alloc);
    match write_world(&mut out, &common, world) {
        Ok(()) => Ok(out),
        Err(_) => Err(Refusal::OutOfMemory),
    }
}

/// The text of a world whose common list is this.
#[tactic(auto, unfolding(crate::specs::WorldText::text_with))]
fn write_world(out: &mut Vec<u8>, common: &[u32], world: &World) -> io::Result<()>
    ensures { OnOk result (out.new.items ≡ out.old.items ++ text_with common.now world.now) }
{
    write_head_line(out, world.head())?;
    writeln!(out, "length {}", world.length())?;
    write!(out, "common")?;
    write_elements(out, common)?;
    write_views(out, world.views())?;
    write_desks(out, world.desks())?;
    write_counts(out, world.counts())
}

#[tactic(auto, unfolding(crate::specs::WorldText::head_line))]
fn write_head_line(out: &mut Vec<u8>, head: Head) -> io::Result<()>
    ensures { OnOk result (out.new.items ≡ out.old.items ++ head_line head) }
{
    write_head(out, head)?;
    writeln!(out)
}
