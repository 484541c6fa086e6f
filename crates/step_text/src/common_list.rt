//! The common list of a world.
ghost use Rattle.std.specs.Prelude.{IfOk};
ghost use Rattle.step_core.specs.World.{link_in};
ghost use Rattle.step_core.specs.Links.{Spells};

use std::alloc::{AllocError, Global};
use step_core::laws;
use step_core::world::World;

/// The elements that the links spell from the head's top.
pub(crate) fn common_list(alloc: Global, world: &World) -> Result<Vec<u32>, AllocError>
    ensures { IfOk result (λ list. Spells (link_in world.now.links) world.now.head.top list.items) }
{
    laws::all_elements_are_there();
    let links = world.links();
    let mut list = Vec::new(alloc);
    let mut next = world.head().top;
    while next != 0 {
        list.push(next - 1)?;
        next = links[(next - 1) as usize];
    }
    Ok(list)
}
