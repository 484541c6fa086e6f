//! The numbers that a pool is made of, and the bounds within which each has to be.

use crate::refusal::Refusal;

/// The most elements of a pool, each of which can be the top of the common stack.
pub const MAX_POPULATION: u64 = head_word::MAX_ELEMENTS as u64;

/// The most elements that a worker's cache keeps, and that a put takes into a cache.
/// (rte_config.h, `RTE_MEMPOOL_CACHE_MAX_SIZE`, DPDK 21.11)
pub const MAX_CACHE: u64 = 512;

/// The most workers of a pool.
pub const MAX_WORKERS: u64 = 64;

/// The most desks of a pool.
pub const MAX_DESKS: u64 = 64;

/// The most bytes of an element's buffer.
pub const MAX_BUF: u64 = 65_535;

/// The greatest reference limit.
pub const MAX_REFS: u64 = 65_535;

/// The most tries after which a call gives up.
pub const MAX_TRIES: u64 = 1_000_000;

/// The modification count at which the head is spent: the greatest that a head's word holds.
pub const SPENT: u64 = head_word::SPENT;

/// What a put does where a worker's cache grows past its threshold.
#[derive(Clone, Copy, Debug, PartialEq, Eq)]
pub enum PutRule {
    /// The cache keeps as many as its size, and all beyond goes to the common stack.
    Keep,
    /// The whole cache goes to the common stack, and the list that is put becomes the cache.
    Whole,
}

/// What a pool is made of. Every number is a count, but `buf`, which is bytes.
#[derive(Clone, Copy, Debug, PartialEq, Eq)]
pub struct Limits {
    /// Elements in the pool, 1 to 16,777,214.
    pub population: u64,
    /// Elements that a worker's cache keeps, 0 to 512; one and a half times as many, rounded down,
    /// are at most the population.
    pub cache: u64,
    /// Workers, 1 to 64, numbered from 1.
    pub workers: u64,
    /// Desks, 0 to 64, numbered from 0.
    pub desks: u64,
    /// Bytes in an element's buffer, 0 to 65,535.
    pub buf: u64,
    /// The greatest reference count, 1 to 65,535.
    pub ref_limit: u64,
    /// Lost tries after which a call gives up, 1 to 1,000,000.
    pub tries: u64,
    /// The modification count that the stack starts with, 0 to 2^40 - 1.
    pub start_count: u64,
    /// What a put does where a worker's cache grows past its threshold.
    pub put_rule: PutRule,
}

impl Limits {
    ghost use Rattle.std.specs.Prelude.{◌≡◌, IfErr, IsOk, ◌↔◌};
    ghost use Rattle.commons.specs.Bounds.{IsPool};

    /// Tests whether a pool can be made within these limits, else answers `BadPool`.
    pub fn check(&self) -> Result<(), Refusal>
        ensures within { IsOk result ↔ IsPool self.now }
        ensures bad { IfErr result (λ e. e ≡ Refusal.BadPool) }
    {
        let population = 1 <= self.population && self.population <= MAX_POPULATION;
        let cache = self.cache <= MAX_CACHE && self.cache * 3 / 2 <= self.population;
        let workers = 1 <= self.workers && self.workers <= MAX_WORKERS;
        let desks = self.desks <= MAX_DESKS;
        let buf = self.buf <= MAX_BUF;
        let refs = 1 <= self.ref_limit && self.ref_limit <= MAX_REFS;
        let tries = 1 <= self.tries && self.tries <= MAX_TRIES;
        let start = self.start_count <= SPENT;
        if population && cache && workers && desks && buf && refs && tries && start {
            Ok(())
        } else {
            Err(Refusal::BadPool)
        }
    }
}
