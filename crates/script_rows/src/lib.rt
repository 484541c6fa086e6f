//! Worked scripts with what their replays print, as rows of tables for the crates of tests that
//! play them.
#![tactic(auto)]

pub mod built;
pub mod caches;
pub mod desks;
pub mod packets;
pub mod parts;
pub mod pools;
pub mod sharing;
pub mod twins;

use parts::Part;

/// A name, a script, and what its replay prints.
pub type Row = (&'static str, &'static str, &'static str);

/// A name, the parts of a script, and those of what its replay prints.
pub type BuiltRow = (&'static str, &'static [Part], &'static [Part]);
