//! The names that the lines of a script have made so far.

ghost use Rattle.std.specs.Prelude.{◌≡◌, ◌&&◌, ◌||◌, ◌==◌, ℕ, List, true, false, not, IfOk, OnOk, Ok};
ghost use Rattle.std.specs.List.{AllByRecursion};
ghost use Rattle.script_text.specs.Names.{IsName};
ghost use Rattle.script_text.specs.inside.ScriptReading.{with_name, is_one_of, repeats};

use crate::commands::Name;
use crate::name::{MAX_NAME, in_place};
use arrayvec::ArrayVec;
use std::alloc::{AllocError, Global};
use std::collections::HashSet;

/// The names that were made, each with the worker whose name it is.
#[derive(Drop)]
pub(crate) struct MadeNames {
    keys: HashSet<(u32, ArrayVec<u8, MAX_NAME>)>,
}

impl MadeNames {
    ghost use Rattle.script_text.specs.inside.Agreement.{has_made};

    /// No name was made.
    pub(crate) fn new(alloc: Global) -> MadeNames
        ensures { (worker : ℕ) (name : List ℕ) → has_made result worker name ≡ false }
    {
        MadeNames {
            keys: HashSet::new(alloc),
        }
    }

    /// Adds a worker's name, and says whether it wasn't there.
    pub(crate) fn add(&mut self, worker: u32, name: &[u8]) -> Result<bool, AllocError>
        requires { IsName name.now }
        ensures added { IfOk result (λ added. added ≡ not (has_made self.old worker name.now)) }
        ensures more { OnOk result ((w : ℕ) (other : List ℕ) →
            has_made self.new w other ≡ with_name (has_made self.old) worker name.now w other) }
    {
        let added = self.keys.insert((worker, in_place(name)))?;
        Ok(added)
    }

    /// Notes the names that a worker's command makes, and says whether none of them was there and
    /// none stands twice.
    pub(crate) fn claim(&mut self, worker: u32, names: &[Name]) -> Result<bool, AllocError>
        requires { AllByRecursion IsName names.now }
        ensures first { IfOk result
            (λ first. first ≡ not (repeats (has_made self.old) worker names.now)) }
        ensures made { result ≡ Ok true → (other : ℕ) (name : List ℕ) →
            has_made self.new other name
            ≡ ((other == worker && is_one_of names.now name) || has_made self.old other name) }
    {
        for name in names {
            if !self.add(worker, name.as_slice())? {
                return Ok(false);
            }
        }
        Ok(true)
    }
}
