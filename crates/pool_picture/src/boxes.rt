//! The boxes of the common stack, and of the workers' caches.
ghost use Rattle.std.specs.Prelude.{◌≡◌, ◌++◌, OnOk};
ghost use Rattle.pool_picture.specs.Picture.{cache_box, cache_boxes, stack_box};

use crate::lists::write_list;
use commons::seq::Seq;
use element_text::write_number;
use std::alloc::AllocError;

/// The box of the common stack.
#[tactic(auto, unfolding(crate::specs::Picture::stack_box))]
pub(crate) fn write_stack(
    out: &mut Vec<u8>,
    shown: bool,
    elements: &[u32],
) -> Result<(), AllocError>
    ensures { OnOk result (out.new.items ≡ out.old.items ++ stack_box shown elements.now) }
{
    out.extend_from_slice(b"  stack [label=\"stack")?;
    write_list(out, shown, elements)?;
    out.extend_from_slice(b"\"];\n")
}

/// A box for each worker's cache.
pub(crate) fn write_caches(
    out: &mut Vec<u8>,
    shown: bool,
    caches: &[Seq<u32>],
) -> Result<(), AllocError>
    ensures { OnOk result (out.new.items ≡ out.old.items ++ cache_boxes shown 1 caches.now) }
{
    for (index, cache) in caches.iter().enumerate() {
        write_cache(out, shown, index + 1, cache.as_slice())?;
    }
    Ok(())
}

/// The box of one worker's cache.
#[tactic(auto, unfolding(crate::specs::Picture::cache_box))]
fn write_cache(
    out: &mut Vec<u8>,
    shown: bool,
    worker: usize,
    elements: &[u32],
) -> Result<(), AllocError>
    ensures { OnOk result (out.new.items ≡ out.old.items ++ cache_box shown worker elements.now) }
{
    write_number(out, b"  cache_", worker)?;
    write_number(out, b" [label=\"cache ", worker)?;
    write_list(out, shown, elements)?;
    out.extend_from_slice(b"\"];\n")
}
