//! Elements in ascending order.
ghost use Rattle.std.specs.Prelude.{◌≡◌, ◌++◌, IfOk};
ghost use Rattle.step_text.specs.Ascending.{ascending};

use std::alloc::{AllocError, Global};

/// The elements of both lists in ascending order, each as often as it stands there.
pub(crate) fn sorted(alloc: Global, first: &[u32], second: &[u32]) -> Result<Vec<u32>, AllocError>
    ensures { IfOk result (λ sorted. sorted.items ≡ ascending (first.now ++ second.now)) }
{
    let mut elements = Vec::with_capacity(alloc, first.len())?;
    elements.extend_from_slice(first)?;
    elements.extend_from_slice(second)?;
    elements.sort_unstable();
    Ok(elements)
}
