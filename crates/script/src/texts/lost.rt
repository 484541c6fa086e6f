//! The text of what is lost with a worker.
ghost use Rattle.std.specs.Prelude.{◌≡◌, ◌++◌, IfErr, IfOk, OnOk};
ghost use Rattle.script.specs.Losing.{lost_text};

use commons::refusal::Refusal;
use element_text::write_elements;
use std::alloc::{AllocError, Global};

/// How many elements are lost, and which, as one line.
///
/// Refused `OutOfMemory` where there is no room for it.
pub fn lost_text(alloc: Global, elems: &[u32]) -> Result<Vec<u8>, Refusal>
    ensures text { IfOk result (λ v. v.items ≡ lost_text elems.now) }
    ensures memory { IfErr result (λ e. e ≡ Refusal.OutOfMemory) }
{
    let mut out = Vec::new(alloc);
    match write_lost(&mut out, elems) {
        Ok(()) => Ok(out),
        Err(_) => Err(Refusal::OutOfMemory),
    }
}

fn write_lost(out: &mut Vec<u8>, elems: &[u32]) -> Result<(), AllocError>
    ensures { OnOk result (out.new.items ≡ out.old.items ++ lost_text elems.now) }
{
    out.extend_from_slice(b"lost")?;
    write_elements(out, elems)
}
