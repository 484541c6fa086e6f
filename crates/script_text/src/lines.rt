//! A script, whatever its lines tell workers to do.

ghost use Rattle.script_text.specs.PoolLine.{ArePools};
ghost use Rattle.script_text.specs.Scripts.{AreOfPool};

use commons::limits::Limits;
use commons::seq::Seq;

/// A command with the number of its line, from 1, and the worker that performs it, from 1.
#[derive(Debug, Drop)]
pub struct Line<C> {
    /// The line's number in the script, from 1.
    pub number: u32,
    /// The worker, from 1.
    pub worker: u32,
    /// What it is to do.
    pub command: C,
}

/// The limits of a script's pool, and of a second one, for clones of its packets, where the script
/// has one.
#[derive(Clone, Copy, PartialEq, Eq, Debug)]
pub struct Pools {
    /// The limits of the pool that a script always has.
    pub first: Limits,
    /// Those of the second, which has as many workers and no desks.
    pub second: Option<Limits>,
}

/// A script: the limits of its pools, which can be made, and its commands in the order of the
/// lines, each by a worker of the pools.
#[derive(Debug, Drop)]
pub struct Script<C> {
    /// The limits that the pool line gives.
    pub pools: Pools,
    /// The command lines in order.
    pub lines: Seq<Line<C>>,
    pub ghost made: { ArePools pools },
    pub ghost workers: { AreOfPool pools.first.workers lines },
}
