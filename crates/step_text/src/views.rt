//! What each worker has.
ghost use Rattle.std.specs.Prelude.{◌≡◌, ◌++◌, OnOk};
ghost use Rattle.step_text.specs.WorldText.{view_text, views_text};

use crate::ascending::sorted;
use element_text::write_elements;
use std::io;
use std::io::Write;
use step_core::view::View;

/// The lines of each worker's view, worker 1's first.
pub(crate) fn write_views(out: &mut Vec<u8>, views: &[View]) -> io::Result<()>
    ensures { OnOk result (out.new.items ≡ out.old.items ++ views_text 1 views.now) }
{
    for (index, view) in views.iter().enumerate() {
        write_view(out, index + 1, view)?;
    }
    Ok(())
}

/// The credit of one worker, its hand and what it holds.
#[tactic(auto, unfolding(crate::specs::WorldText::view_text))]
fn write_view(out: &mut Vec<u8>, worker: usize, view: &View) -> io::Result<()>
    ensures { OnOk result (out.new.items ≡ out.old.items ++ view_text worker view.now) }
{
    let alloc = *out.allocator();
    let hand = sorted(alloc, view.hand.as_slice(), view.zeros.as_slice())?;
    let holds = sorted(alloc, view.holds.as_slice(), &[])?;
    writeln!(out, "view {worker} credit {}", view.credit)?;
    write!(out, "hand {worker}")?;
    write_elements(out, &hand)?;
    write!(out, "holds {worker}")?;
    Ok(write_elements(out, &holds)?)
}
