//! Heads, link values and segments.
ghost use Rattle.std.specs.Prelude.{◌≡◌, ◌++◌, OnOk};
ghost use Rattle.element_text.specs.Elements.{joined};
ghost use Rattle.step_text.specs.WorldText.{end_text, head_text, segment_text};

use commons::packet::Seg;
use element_text::write_base;
use std::io;
use std::io::Write;
use step_core::view::Head;

/// A link value: an element, or `-` for the end.
pub(crate) fn write_end(out: &mut Vec<u8>, value: u64) -> io::Result<()>
    ensures { OnOk result (out.new.items ≡ out.old.items ++ end_text value) }
{
    match value {
        0 => write!(out, "-"),
        _ => write!(out, "{}", value - 1),
    }
}

/// Each segment after a space.
pub(crate) fn write_segments(out: &mut Vec<u8>, segs: &[Seg]) -> io::Result<()>
    ensures { OnOk result (out.new.items ≡ out.old.items ++ joined segment_text segs.now) }
{
    for seg in segs {
        write!(out, " ")?;
        write_segment(out, seg)?;
    }
    Ok(())
}

#[tactic(auto, unfolding(crate::specs::WorldText::segment_text))]
fn write_segment(out: &mut Vec<u8>, seg: &Seg) -> io::Result<()>
    ensures { OnOk result (out.new.items ≡ out.old.items ++ segment_text seg.now) }
{
    write!(out, "{}", seg.elem)?;
    Ok(write_base(out, seg.base)?)
}

/// A head: its top and its count.
#[tactic(auto, unfolding(crate::specs::WorldText::head_text))]
pub(crate) fn write_head(out: &mut Vec<u8>, head: Head) -> io::Result<()>
    ensures { OnOk result (out.new.items ≡ out.old.items ++ head_text head) }
{
    write!(out, "head ")?;
    write_end(out, u64::from(head.top))?;
    write!(out, " {}", head.count)
}
