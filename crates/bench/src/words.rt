//! Rounds over the words of a pool, by one, two or four threads at once.
mod bare;
mod cached;
pub mod carried;
mod cells;
mod held;
mod kinds;
pub mod span;
mod threads;

use crate::failures::Failure;
pub use cells::{Cells, numbers_of};
use std::rt::Runtime;
use std::thread::Threads;

/// Prints what an element that is got and put back takes in a run of each cell, in nanoseconds of
/// one thread, and how many of 1,000 elements were refused.
pub fn measure<R: Runtime + AllocGlobal + Threads + Sync>(
    rt: &R,
    asked: &Cells,
) -> Result<(), Failure> {
    let kinds = cells::kinds_of(rt.alloc(), asked.names)?;
    let threads = numbers_of(rt.alloc(), asked.threads)?;
    let caches = numbers_of(rt.alloc(), asked.caches)?;
    cells::print_head(rt)?;
    for kind in kinds.as_slice() {
        let caches = cells::caches_of(*kind, caches.as_slice());
        for count in threads.as_slice() {
            for cache in caches {
                cells::measure(rt, asked, *kind, *count, *cache)?;
            }
        }
    }
    Ok(())
}
