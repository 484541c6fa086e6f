//! The caches.
ghost use Rattle.std.specs.Prelude.{◌≡◌, ◌++◌, OnOk};
ghost use Rattle.statement_text.specs.StatementText.{cache_text, caches_text};

use commons::seq::Seq;
use element_text::{write_elements, write_number};
use std::alloc::AllocError;

/// A line for each worker's cache.
pub(crate) fn write_caches(out: &mut Vec<u8>, caches: &[Seq<u32>]) -> Result<(), AllocError>
    ensures { OnOk result (out.new.items ≡ out.old.items ++ caches_text 1 caches.now) }
{
    for (index, cache) in caches.iter().enumerate() {
        write_cache(out, index + 1, cache.as_slice())?;
    }
    Ok(())
}

/// The line of one worker's cache.
#[tactic(auto, unfolding(crate::specs::StatementText::cache_text))]
fn write_cache(out: &mut Vec<u8>, worker: usize, cache: &[u32]) -> Result<(), AllocError>
    ensures { OnOk result (out.new.items ≡ out.old.items ++ cache_text worker cache.now) }
{
    write_number(out, b"cache ", worker)?;
    write_elements(out, cache)
}
