//! The packets of a statement by their segments, in a table.

ghost use Rattle.std.specs.Prelude.{◌≡◌, List, IfOk};
ghost use Rattle.stays.specs.Stays.{has_parts};
ghost use Rattle.stays.specs.declared.used.Part.{Part};

use crate::used::{Part, Used};
use std::alloc::{AllocError, Global};
use std::collections::HashSet;

/// The segments of packets, each packet's found by their elements.
#[derive(Drop)]
pub(crate) struct Known {
    keys: HashSet<Vec<Part>>,
}

impl Known {
    ghost use Rattle.stays.specs.inside.Knowing.{knows};

    /// Those of these packets.
    pub(crate) fn of(alloc: Global, used: Vec<Used>) -> Result<Known, AllocError>
        ensures { IfOk result (λ known. (parts : List Part) → knows known parts ≡ has_parts used.items parts) }
    {
        let mut keys = HashSet::new(alloc);
        for one in used {
            keys.insert(one.parts.into_vec())?;
        }
        Ok(Known { keys })
    }

    /// Whether one of the packets has these segments.
    pub(crate) fn has(&self, parts: &[Part]) -> bool
        ensures { result ≡ knows self.now parts.now }
    {
        self.keys.contains(parts)
    }
}
