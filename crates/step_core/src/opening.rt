//! The fields of a world at the start.

ghost use Rattle.std.specs.Prelude.{◌≡◌, ◌≤◌, replicate, IfOk};
ghost use Rattle.commons.specs.Bounds.{IsPool, max_population};
ghost use Rattle.step_core.specs.Kept.{world_of};
ghost use Rattle.step_core.specs.Opening.{opening, links_up};
ghost use Rattle.step_core.specs.World.{no_desk, empty_view, worker_part};

use crate::elems::Elems;
use crate::view::{Desk, Head, View, WORKER_PART};
use crate::words::Words;
use commons::limits::Limits;
use std::alloc::{AllocError, Global};

/// The fields at the start, or a refusal of memory.
pub fn opened(alloc: Global, limits: &Limits) -> Result<Words, AllocError>
    requires { IsPool limits.now }
    ensures { IfOk result (λ words. world_of words ≡ opening limits.now) }
{
    let links = links_up(alloc, limits.population as u32)?;
    let counts = ones(alloc, limits.population as usize)?;
    let desks = empty_desks(alloc, limits.desks as usize)?;
    let views = empty_views(alloc, limits.workers as usize)?;
    Ok(Words {
        limits: *limits,
        head: Head {
            top: 1,
            count: limits.start_count,
        },
        length: limits.population,
        links,
        counts,
        desks,
        views,
    })
}

/// Links that lead from element 0 through all.
fn links_up(alloc: Global, count: u32) -> Result<Vec<u32>, AllocError>
    requires { count ≤ max_population }
    ensures { IfOk result (λ v. v.items ≡ links_up 0 count) }
{
    let mut links = Vec::with_capacity(alloc, count as usize)?;
    for i in 0..count {
        let link = if i + 1 < count { i + 2 } else { 0 };
        links.push(link)?;
    }
    Ok(links)
}

/// This many counts of 1.
fn ones(alloc: Global, count: usize) -> Result<Vec<u32>, AllocError>
    ensures { IfOk result (λ v. v.items ≡ replicate count 1) }
{
    let mut counts = Vec::with_capacity(alloc, count)?;
    for _ in 0..count {
        counts.push(1u32)?;
    }
    Ok(counts)
}

/// This many empty desks.
fn empty_desks(alloc: Global, count: usize) -> Result<Vec<Desk>, AllocError>
    ensures { IfOk result (λ v. v.items ≡ replicate count no_desk) }
{
    let mut desks = Vec::with_capacity(alloc, count)?;
    for _ in 0..count {
        desks.push(Desk {
            word: 0,
            slot: None,
        })?;
    }
    Ok(desks)
}

/// A view with a worker's part that names nothing.
fn empty_view(alloc: Global) -> View
    ensures { result ≡ empty_view worker_part }
{
    View {
        hand: Elems::new(alloc),
        zeros: Elems::new(alloc),
        holds: Elems::new(alloc),
        headers: Elems::new(alloc),
        credit: 0,
        look: None,
        seen: 0,
        chain: None,
        work: None,
        part: WORKER_PART,
    }
}

/// This many of them.
fn empty_views(alloc: Global, count: usize) -> Result<Vec<View>, AllocError>
    ensures { IfOk result (λ v. v.items ≡ replicate count (empty_view worker_part)) }
{
    let mut views = Vec::with_capacity(alloc, count)?;
    for _ in 0..count {
        views.push(empty_view(alloc))?;
    }
    Ok(views)
}
