//! The pool line.

ghost use Rattle.std.specs.Prelude.{◌≡◌, ◌<◌, false, MatchOption, codes};
ghost use Rattle.std.specs.Str.{bytes_eq};
ghost use Rattle.script_text.specs.inside.Reading.{words_of, key_at, add_value, value_of, settings_from, none_given, numbers_by, line_numbers_by, numbers_from, are_pools};
ghost use Rattle.script_text.specs.PoolLine.{key_word, rule_number, numbers_of, numbers_of_pools, second_beside};

use crate::commands::Key;
use crate::line::next_word;
use crate::lines::Pools;
use crate::number::number_of;
use commons::limits::{Limits, MAX_REFS, PutRule};

/// Each key once.
const KEYS: [Key; 10] = [
    Key::Cache,
    Key::Workers,
    Key::Desks,
    Key::Buf,
    Key::Refs,
    Key::Tries,
    Key::Start,
    Key::Rule,
    Key::Second,
    Key::SecondCache,
];

/// How a key is written.
fn word_of(key: Key) -> &'static [u8]
    ensures { result.now ≡ key_word key }
{
    match key {
        Key::Cache => b"cache".as_slice(),
        Key::Workers => b"workers".as_slice(),
        Key::Desks => b"desks".as_slice(),
        Key::Buf => b"buf".as_slice(),
        Key::Refs => b"refs".as_slice(),
        Key::Tries => b"tries".as_slice(),
        Key::Start => b"start".as_slice(),
        Key::Rule => b"putrule".as_slice(),
        Key::Second => b"second".as_slice(),
        Key::SecondCache => b"secondcache".as_slice(),
    }
}

/// The key that a word spells.
pub fn key_of(word: &[u8]) -> Option<Key>
    ensures { result ≡ key_at word.now }
{
    KEYS.iter().copied().find(|key| word == word_of(*key))
}

/// The values that the keys of a pool line were given so far.
#[derive(Clone, Copy)]
pub struct Settings {
    cache: Option<u64>,
    workers: Option<u64>,
    desks: Option<u64>,
    buf: Option<u64>,
    refs: Option<u64>,
    tries: Option<u64>,
    start: Option<u64>,
    rule: Option<u64>,
    second: Option<u64>,
    second_cache: Option<u64>,
}

/// No key was given a value.
pub const NONE_GIVEN: Settings = Settings {
    cache: None,
    workers: None,
    desks: None,
    buf: None,
    refs: None,
    tries: None,
    start: None,
    rule: None,
    second: None,
    second_cache: None,
};

impl Settings {
    /// The value that a key was given.
    fn value(&self, key: Key) -> Option<u64>
        ensures { result ≡ value_of self.now key }
    {
        match key {
            Key::Cache => self.cache,
            Key::Workers => self.workers,
            Key::Desks => self.desks,
            Key::Buf => self.buf,
            Key::Refs => self.refs,
            Key::Tries => self.tries,
            Key::Start => self.start,
            Key::Rule => self.rule,
            Key::Second => self.second,
            Key::SecondCache => self.second_cache,
        }
    }

    /// The same settings, with this value of this key, or `None` where the key has a value.
    pub fn with(self, key: Key, value: u64) -> Option<Settings>
        ensures { result ≡ add_value self key value }
    {
        if self.value(key).is_some() {
            return None;
        }
        let value = Some(value);
        let mut settings = self;
        match key {
            Key::Cache => settings.cache = value,
            Key::Workers => settings.workers = value,
            Key::Desks => settings.desks = value,
            Key::Buf => settings.buf = value,
            Key::Refs => settings.refs = value,
            Key::Tries => settings.tries = value,
            Key::Start => settings.start = value,
            Key::Rule => settings.rule = value,
            Key::Second => settings.second = value,
            Key::SecondCache => settings.second_cache = value,
        }
        Some(settings)
    }

    /// The numbers of a pool line with this many elements and these settings.
    fn numbers(&self, population: u64) -> PoolNumbers
        ensures { result ≡ numbers_by population self.now }
    {
        PoolNumbers {
            population,
            cache: self.cache.unwrap_or(0),
            workers: self.workers.unwrap_or(1),
            desks: self.desks.unwrap_or(0),
            buf: self.buf.unwrap_or(2_048),
            ref_limit: self.refs.unwrap_or(MAX_REFS),
            tries: self.tries.unwrap_or(64),
            start_count: self.start.unwrap_or(0),
            put_rule: self.rule.unwrap_or(0),
        }
    }

    /// The numbers of a pool line with this many elements and these settings, or `None` where they
    /// name a second pool that isn't known, or a second pool's cache and no second pool.
    fn line_numbers(&self, knows_second: bool, population: u64) -> Option<LineNumbers>
        ensures { result ≡ line_numbers_by knows_second population self.now }
    {
        let first = self.numbers(population);
        let second = match (self.second, self.second_cache) {
            (None, None) => None,
            (None, Some(_)) => return None,
            (Some(population), cache) => {
                if !knows_second {
                    return None;
                }
                Some(first.second_beside(population, cache.unwrap_or(0)))
            }
        };
        Some(LineNumbers { first, second })
    }
}

/// The numbers that a pool line gives to one pool: those that stand there, and the defaults.
#[derive(Clone, Copy)]
pub(crate) struct PoolNumbers {
    population: u64,
    cache: u64,
    workers: u64,
    desks: u64,
    buf: u64,
    ref_limit: u64,
    tries: u64,
    start_count: u64,
    put_rule: u64,
}

/// The put rule with this number, or `None` where no rule has it.
fn rule_of(number: u64) -> Option<PutRule>
    ensures { MatchOption result (1 < number) (λ rule. number ≡ rule_number rule) }
{
    match number {
        0 => Some(PutRule::Keep),
        1 => Some(PutRule::Whole),
        _ => None,
    }
}

impl PoolNumbers {
    /// The numbers of a second pool beside one with these: it has no buffers and no desks.
    fn second_beside(&self, population: u64, cache: u64) -> PoolNumbers
        ensures { result ≡ second_beside self.now population cache }
    {
        PoolNumbers {
            population,
            cache,
            desks: 0,
            buf: 0,
            ..*self
        }
    }

    /// The limits with these numbers, or `None` where no put rule has the number that is given for
    /// it.
    fn limits(&self) -> Option<Limits>
        ensures { MatchOption result (1 < self.now.put_rule) (λ limits. self.now ≡ numbers_of limits) }
    {
        let put_rule = rule_of(self.put_rule)?;
        Some(Limits {
            population: self.population,
            cache: self.cache,
            workers: self.workers,
            desks: self.desks,
            buf: self.buf,
            ref_limit: self.ref_limit,
            tries: self.tries,
            start_count: self.start_count,
            put_rule,
        })
    }
}

/// The numbers that a pool line gives to each pool.
#[derive(Clone, Copy)]
pub(crate) struct LineNumbers {
    first: PoolNumbers,
    second: Option<PoolNumbers>,
}

impl LineNumbers {
    /// The limits with these numbers, or `None` where no put rule has a number that is given for
    /// it.
    pub(crate) fn pools(&self) -> Option<Pools>
        ensures { MatchOption result
            (are_pools self.now ≡ false)
            (λ pools. self.now ≡ numbers_of_pools pools) }
    {
        let first = self.first.limits()?;
        match self.second {
            None => Some(Pools {
                first,
                second: None,
            }),
            Some(numbers) => {
                let second = numbers.limits()?;
                Some(Pools {
                    first,
                    second: Some(second),
                })
            }
        }
    }
}

/// The settings that the rest of a pool line spells.
fn settings_of(rest: &[u8]) -> Option<Settings>
    ensures { result ≡ settings_from none_given (words_of rest.now) }
{
    let mut settings = NONE_GIVEN;
    let mut left = rest;
    while let Some((word, after)) = next_word(left) {
        let key = key_of(word)?;
        let (word, after) = next_word(after)?;
        let value = number_of(word)?;
        settings = settings.with(key, value)?;
        left = after;
    }
    Some(settings)
}

/// Whether a word is `pool`.
pub fn is_pool_word(word: &[u8]) -> bool
    ensures { result ≡ bytes_eq word.now (codes "pool") }
{
    word == b"pool".as_slice()
}

/// The numbers that a pool line spells, or `None` where it spells none. A second pool is one of
/// them only where it is known.
pub(crate) fn line_numbers_of(knows_second: bool, line: &[u8]) -> Option<LineNumbers>
    ensures { result ≡ numbers_from knows_second (words_of line.now) }
{
    let (word, rest) = next_word(line)?;
    if !is_pool_word(word) {
        return None;
    }
    let (word, rest) = next_word(rest)?;
    let population = number_of(word)?;
    let settings = settings_of(rest)?;
    settings.line_numbers(knows_second, population)
}
