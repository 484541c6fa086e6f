//! By which limits two snapshots are of one pool.

ghost use Rattle.std.specs.Prelude.{◌≡◌, find};
ghost use Rattle.tasks.specs.Pairs.{differs, first_difference, limits_with, name_of, rule_number};

use commons::limits::{Limits, PutRule};

/// A limit of a pool that its snapshots have alike. How many workers they have is none: a dump has
/// one for each cache that has something.
#[derive(Clone, Copy)]
pub enum Limit {
    /// How many elements there are.
    Population,
    /// How many of them a worker's cache keeps.
    Cache,
    /// How many desks there are.
    Desks,
    /// How many bytes a buffer has.
    Buf,
    /// The greatest reference count.
    Refs,
    /// How many tries are lost before a call gives up.
    Tries,
    /// The modification count that the stack starts with.
    Start,
    /// The put rule.
    Rule,
}

impl Limit {
    /// Its name, as in a snapshot.
    pub fn name(self) -> &'static str
        ensures { result.now ≡ name_of self }
    {
        match self {
            Limit::Population => "population",
            Limit::Cache => "cache",
            Limit::Desks => "desks",
            Limit::Buf => "buf",
            Limit::Refs => "refs",
            Limit::Tries => "tries",
            Limit::Start => "start",
            Limit::Rule => "putrule",
        }
    }
}

/// A limit, and what it is in two snapshots.
#[derive(Clone, Copy)]
pub struct Difference {
    /// Which limit.
    pub limit: Limit,
    /// What it is in the newer one; a put rule as its number.
    pub newer: u64,
    /// What it is in the older one.
    pub older: u64,
}

/// The first limit that differs, in the order of a snapshot.
pub(crate) fn differing(newer: &Limits, older: &Limits) -> Option<Difference>
    ensures { result ≡ first_difference newer.now older.now }
{
    differing_with(newer, older, rule(newer.put_rule), rule(older.put_rule))
}

/// The same with the put rules as their numbers.
#[tactic(auto, unfolding(crate::specs::Pairs::limits_with))]
fn differing_with(
    newer: &Limits,
    older: &Limits,
    newer_rule: u64,
    older_rule: u64,
) -> Option<Difference>
    ensures { result ≡ find differs (limits_with newer.now older.now newer_rule older_rule) }
{
    first_in(&[
        Difference {
            limit: Limit::Population,
            newer: newer.population,
            older: older.population,
        },
        Difference {
            limit: Limit::Cache,
            newer: newer.cache,
            older: older.cache,
        },
        Difference {
            limit: Limit::Desks,
            newer: newer.desks,
            older: older.desks,
        },
        Difference {
            limit: Limit::Buf,
            newer: newer.buf,
            older: older.buf,
        },
        Difference {
            limit: Limit::Refs,
            newer: newer.ref_limit,
            older: older.ref_limit,
        },
        Difference {
            limit: Limit::Tries,
            newer: newer.tries,
            older: older.tries,
        },
        Difference {
            limit: Limit::Start,
            newer: newer.start_count,
            older: older.start_count,
        },
        Difference {
            limit: Limit::Rule,
            newer: newer_rule,
            older: older_rule,
        },
    ])
}

/// The first of these that differs.
fn first_in(both: &[Difference]) -> Option<Difference>
    ensures { result ≡ find differs both.now }
{
    both.iter().copied().find(|both| both.newer != both.older)
}

/// A put rule as its number.
fn rule(rule: PutRule) -> u64
    ensures { result ≡ rule_number rule }
{
    match rule {
        PutRule::Keep => 0,
        PutRule::Whole => 1,
    }
}
