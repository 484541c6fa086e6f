//! What is wrong with the pool line.

ghost use Rattle.std.specs.Prelude.{◌<◌, IfOk, IfSome, length};

use crate::numbers::{Range, number_in};
use crate::reason::{Layout, Reason, WordFault};
use crate::words::{Word, Words, Wrong};
use commons::limits::{
    MAX_BUF, MAX_CACHE, MAX_DESKS, MAX_POPULATION, MAX_REFS, MAX_TRIES, MAX_WORKERS, SPENT,
};
use script_text::commands::Key;
use script_text::pool_line::{NONE_GIVEN, Settings, is_pool_word, key_of};

/// The greatest number of a put rule.
const MAX_RULE: u64 = 1;

/// A key with its number, as they stand on the pool line, and the words behind them.
#[derive(Clone, Copy)]
struct Pair<'a> {
    key: Key,
    key_word: Word<'a>,
    value: u64,
    value_word: Word<'a>,
    behind: Words<'a>,
}

/// The first pair of these words.
fn pair_of<'a>(words: Words<'a>) -> Result<Option<Pair<'a>>, Wrong<'a>>
    ensures { IfOk result (λ found.
        IfSome found (λ pair. length pair.behind.rest.now < length words.entry.rest.now)) }
{
    let Some((key_word, rest)) = words.next() else {
        return Ok(None);
    };
    let Some(key) = key_of(key_word.text) else {
        return Err(key_word.is(Reason::Word(WordFault::UnknownKey, key_word.text)));
    };
    let Some((value_word, behind)) = rest.next() else {
        return Err(rest.lack(Reason::Word(WordFault::KeyAlone, key_word.text)));
    };
    let value = number_in(value_word)?;
    Ok(Some(Pair {
        key,
        key_word,
        value,
        value_word,
        behind,
    }))
}

/// The number of elements that the pool line begins with.
#[derive(Clone, Copy)]
struct Population<'a> {
    value: u64,
    word: Word<'a>,
    behind: Words<'a>,
}

/// The number of elements of a pool line.
fn population_of<'a>(line: &'a [u8]) -> Result<Population<'a>, Wrong<'a>> {
    let words = Words::of(line);
    let Some((first, rest)) = words.next() else {
        return Err(words.lack(Reason::Layout(Layout::NoPool)));
    };
    if !is_pool_word(first.text) {
        return Err(first.is(Reason::Word(WordFault::BeforePool, first.text)));
    }
    let Some((word, behind)) = rest.next() else {
        return Err(rest.lack(Reason::Missing("pool N")));
    };
    Ok(Population {
        value: number_in(word)?,
        word,
        behind,
    })
}

/// What is wrong with a pool line that has no reading.
pub(crate) fn in_pool_line<'a>(knows_second: bool, line: &'a [u8]) -> Wrong<'a> {
    match pairs_fit(knows_second, line) {
        Ok(alone) | Err(alone) => alone,
    }
}

/// What is wrong with the words of such a line; where each is right, a key needs another one.
fn pairs_fit<'a>(knows_second: bool, line: &'a [u8]) -> Result<Wrong<'a>, Wrong<'a>> {
    let population = population_of(line)?;
    let mut alone = population.word;
    let mut settings = NONE_GIVEN;
    let mut left = population.behind;
    while let Some(pair) = pair_of(left)? {
        settings = more(knows_second, settings, &pair)?;
        if pair.key == Key::SecondCache {
            alone = pair.key_word;
        }
        left = pair.behind;
    }
    Ok(alone.is(Reason::Word(WordFault::NeedsSecond, alone.text)))
}

/// The settings with one pair more.
fn more<'a>(
    knows_second: bool,
    settings: Settings,
    pair: &Pair<'a>,
) -> Result<Settings, Wrong<'a>> {
    let word = pair.key_word;
    if !knows_second && matches!(pair.key, Key::Second | Key::SecondCache) {
        return Err(word.is(Reason::Word(WordFault::SecondOfSteps, word.text)));
    }
    match settings.with(pair.key, pair.value) {
        Some(settings) => Ok(settings),
        None => Err(word.is(Reason::Word(WordFault::KeyTwice, word.text))),
    }
}

/// The range of a key.
fn range_of(key: Key) -> Range {
    let (what, least, most) = match key {
        Key::Cache => ("cache", 0, MAX_CACHE),
        Key::Workers => ("workers", 1, MAX_WORKERS),
        Key::Desks => ("desks", 0, MAX_DESKS),
        Key::Buf => ("buf", 0, MAX_BUF),
        Key::Refs => ("refs", 1, MAX_REFS),
        Key::Tries => ("tries", 1, MAX_TRIES),
        Key::Start => ("start", 0, SPENT),
        Key::Rule => ("putrule", 0, MAX_RULE),
        Key::Second => ("second", 1, MAX_POPULATION),
        Key::SecondCache => ("secondcache", 0, MAX_CACHE),
    };
    Range { what, least, most }
}

/// The range of the number of elements.
const POPULATION: Range = Range {
    what: "pool",
    least: 1,
    most: MAX_POPULATION,
};

/// What is wrong with a pool line that can be read, within whose limits no pool can be made.
pub(crate) fn in_limits<'a>(line: &'a [u8]) -> Wrong<'a> {
    match limits_fit(line) {
        Ok(cache) | Err(cache) => cache,
    }
}

/// A cache, and the elements of its pool.
#[derive(Clone, Copy)]
struct Cache<'a> {
    what: &'static str,
    word: Word<'a>,
    cache: u64,
    elements: u64,
}

impl<'a> Cache<'a> {
    /// The elements that the pool of such a cache has at least.
    fn needed(&self) -> u64 {
        self.cache.saturating_mul(3) / 2
    }

    /// The cache is too large for its pool.
    fn wrong(&self) -> Wrong<'a> {
        self.word.is(Reason::Threshold {
            what: self.what,
            cache: self.cache,
            elements: self.needed(),
        })
    }
}

/// What is wrong with the numbers of such a line; where each is in its range, a cache is too large
/// for its pool.
fn limits_fit<'a>(line: &'a [u8]) -> Result<Wrong<'a>, Wrong<'a>> {
    let population = population_of(line)?;
    if let Some(reason) = POPULATION.fault(population.value) {
        return Err(population.word.is(reason));
    }
    let mut first = Cache {
        what: "cache",
        word: population.word,
        cache: 0,
        elements: population.value,
    };
    let mut second = Cache {
        what: "secondcache",
        elements: 0,
        ..first
    };
    let mut left = population.behind;
    while let Some(pair) = pair_of(left)? {
        if let Some(reason) = range_of(pair.key).fault(pair.value) {
            return Err(pair.value_word.is(reason));
        }
        match pair.key {
            Key::Cache => {
                first.word = pair.value_word;
                first.cache = pair.value;
            }
            Key::Second => second.elements = pair.value,
            Key::SecondCache => {
                second.word = pair.value_word;
                second.cache = pair.value;
            }
            _ => {}
        }
        left = pair.behind;
    }
    if first.elements < first.needed() {
        Ok(first.wrong())
    } else {
        Ok(second.wrong())
    }
}
