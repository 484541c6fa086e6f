//! Where a text of JSON that is no snapshot's first goes wrong. Nothing is promised of the answer
//! but that it is given: that path and byte are right is tested.

use crate::fault::{Cause, Flaw, Key, Path, Step};
use commons::limits::MAX_POPULATION;
use json::{Reader, Scratch, Token};
use std::alloc::{AllocError, Global};
use std::fmt::InlineText;

/// How deep a snapshot's value nests, with room for more.
const DEPTH: usize = 16;

/// How deep a value may nest that is passed over.
const SKIPPED: usize = 127;

/// What a part of a snapshot's value is.
enum Kind {
    Words,
    List,
    Limits,
    Shares,
    Share,
    Guests,
    Guest,
    Places,
    Place,
    Seg,
    Numbers,
    Elements,
    Element,
    Flag,
    Base,
    Population,
    Number(u64),
}

impl Clone for Kind {
    fn clone(&self) -> Result<Kind, AllocError> {
        Ok(*self)
    }
}

impl Copy for Kind {}

/// The members of an object, ascending by key.
type Members = &'static [(Key, Kind)];

/// A number of 16, 32 or 64 bits, and the rule of puts.
const SHORT: Kind = Kind::Number(65_535);

const WORD: Kind = Kind::Number(4_294_967_295);

const LONG: Kind = Kind::Number(18_446_744_073_709_551_615);

const RULE: Kind = Kind::Number(1);

static WORDS_MEMBERS: [(Key, Kind); 9] = [
    (Key::Counts, Kind::Numbers),
    (Key::Desks, Kind::Places),
    (Key::Foreign, Kind::Flag),
    (Key::Guests, Kind::Guests),
    (Key::Length, LONG),
    (Key::Limits, Kind::Limits),
    (Key::Links, Kind::Numbers),
    (Key::Shares, Kind::Shares),
    (Key::Top, WORD),
];

static LIST_MEMBERS: [(Key, Kind); 7] = [
    (Key::Common, Kind::Elements),
    (Key::Counts, Kind::Numbers),
    (Key::Desks, Kind::Places),
    (Key::Foreign, Kind::Flag),
    (Key::Guests, Kind::Guests),
    (Key::Limits, Kind::Limits),
    (Key::Shares, Kind::Shares),
];

static LIMITS_MEMBERS: [(Key, Kind); 9] = [
    (Key::Buf, LONG),
    (Key::Cache, LONG),
    (Key::Desks, LONG),
    (Key::Population, Kind::Population),
    (Key::Putrule, RULE),
    (Key::Refs, LONG),
    (Key::Start, LONG),
    (Key::Tries, LONG),
    (Key::Workers, LONG),
];

static SHARE_MEMBERS: [(Key, Kind); 3] = [
    (Key::Cache, Kind::Numbers),
    (Key::Slots, Kind::Places),
    (Key::Worker, WORD),
];

static GUEST_MEMBERS: [(Key, Kind); 2] = [(Key::Elem, WORD), (Key::Worker, WORD)];

static SEG_MEMBERS: [(Key, Kind); 5] = [
    (Key::Base, Kind::Base),
    (Key::Buf, SHORT),
    (Key::Elem, WORD),
    (Key::Len, SHORT),
    (Key::Off, SHORT),
];

/// What is known of a text before its parts are looked at.
#[derive(Clone, Copy)]
struct Scope {
    /// Whether its stack is a list.
    list: bool,
    /// The population, where its limits have one.
    population: Option<u64>,
}

impl Scope {
    /// Takes in the outermost member whose key this is. Whether it could be passed.
    fn takes(&mut self, reader: &mut Reader<'_>, key: &str, most: usize) -> bool {
        if key == "limits" {
            self.population = population_of(reader, most);
            return true;
        }
        if key == "common" {
            self.list = true;
        }
        reader.skip_value(SKIPPED).is_ok()
    }
}

/// What a value has to be, and where it stands.
struct Expected {
    kind: Kind,
    path: Path,
    byte: u64,
}

impl Clone for Expected {
    fn clone(&self) -> Result<Expected, AllocError> {
        Ok(*self)
    }
}

impl Copy for Expected {}

impl Expected {
    /// What is wrong with it.
    fn flaw(self, cause: Cause) -> Flaw {
        Flaw {
            path: self.path,
            cause,
            byte: self.byte,
        }
    }
}

/// Where a text goes wrong first.
pub(crate) fn first(alloc: Global, text: &str) -> Result<Flaw, AllocError> {
    let mut scratch = Scratch::new(alloc);
    let scope = scope_of(text, &mut scratch)?;
    let mut reader = Reader::new(text, &mut scratch)?;
    let whole = whole_of(text.as_bytes(), scope);
    match value(&mut reader, text.as_bytes(), scope, whole, DEPTH) {
        Ok(()) => Ok(whole.flaw(Cause::Other)),
        Err(flaw) => Ok(flaw),
    }
}

/// What the whole value of a text has to be.
fn whole_of(text: &[u8], scope: Scope) -> Expected {
    Expected {
        kind: if scope.list { Kind::List } else { Kind::Words },
        path: Path::whole(),
        byte: begin(text, 0),
    }
}

/// What is known of a text from its outermost members.
fn scope_of(text: &str, scratch: &mut Scratch) -> Result<Scope, AllocError> {
    let mut reader = Reader::new(text, scratch)?;
    Ok(scope_in(&mut reader, text.len()))
}

/// What is known from the members of a reader's value.
fn scope_in(reader: &mut Reader<'_>, most: usize) -> Scope {
    let mut scope = Scope {
        list: false,
        population: None,
    };
    if !begins_object(reader) {
        return scope;
    }
    for _ in 0..most {
        let Ok(Some(key)) = reader.next_key() else {
            break;
        };
        if !scope.takes(reader, key, most) {
            break;
        }
    }
    scope
}

/// Whether the next token begins an object.
fn begins_object(reader: &mut Reader<'_>) -> bool {
    matches!(reader.next(), Some(Token::BeginObject))
}

/// The population of limits, where they have one.
fn population_of(reader: &mut Reader<'_>, most: usize) -> Option<u64> {
    if !begins_object(reader) {
        return None;
    }
    let mut population = None;
    for _ in 0..most {
        let Ok(Some(key)) = reader.next_key() else {
            break;
        };
        if key == "population" {
            let Some(Token::Number(digits)) = reader.next() else {
                break;
            };
            population = digits.parse::<u64>().ok();
        } else if reader.skip_value(SKIPPED).is_err() {
            break;
        }
    }
    population
}

/// The byte at which the next value or key begins.
fn begin(text: &[u8], offset: usize) -> u64 {
    let mut at = offset as u64;
    for byte in text.iter().skip(offset) {
        if !matches!(*byte, b' ' | b'\t' | b'\r' | b'\n' | b',' | b':') {
            break;
        }
        at = at.saturating_add(1);
    }
    at
}

/// The members of an object, if a part is one.
fn members_of(kind: Kind) -> Option<Members> {
    match kind {
        Kind::Words => Some(&WORDS_MEMBERS),
        Kind::List => Some(&LIST_MEMBERS),
        Kind::Limits => Some(&LIMITS_MEMBERS),
        Kind::Share => Some(&SHARE_MEMBERS),
        Kind::Guest => Some(&GUEST_MEMBERS),
        Kind::Seg => Some(&SEG_MEMBERS),
        _ => None,
    }
}

/// What the items of a list are, if a part is one.
fn items_of(kind: Kind) -> Option<Kind> {
    match kind {
        Kind::Shares => Some(Kind::Share),
        Kind::Guests => Some(Kind::Guest),
        Kind::Places => Some(Kind::Place),
        Kind::Place => Some(Kind::Seg),
        Kind::Numbers => Some(WORD),
        Kind::Elements => Some(Kind::Element),
        _ => None,
    }
}

/// Passes a value, or finds what is wrong with it.
#[cycle(value)]
fn value(
    reader: &mut Reader<'_>,
    text: &[u8],
    scope: Scope,
    expected: Expected,
    depth: usize,
) -> Result<(), Flaw> {
    let Some(token) = reader.next() else {
        return Err(expected.flaw(Cause::Other));
    };
    if let Some(members) = members_of(expected.kind) {
        return match token {
            Token::BeginObject if depth > 0 => {
                object(reader, text, scope, expected, members, depth - 1)
            }
            _ => Err(expected.flaw(Cause::NotObject)),
        };
    }
    if let Some(kind) = items_of(expected.kind) {
        return match token {
            Token::BeginArray if depth > 0 => list(reader, text, scope, expected, kind, depth - 1),
            _ => no_list(expected, token),
        };
    }
    match leaf(scope, expected.kind, token) {
        Some(cause) => Err(expected.flaw(cause)),
        None => Ok(()),
    }
}

/// Passes a token that stands in place of a list, or finds what is wrong with it.
fn no_list(expected: Expected, token: Token<'_>) -> Result<(), Flaw> {
    match (expected.kind, token) {
        (Kind::Place, Token::Null) => Ok(()),
        (Kind::Place, _) => Err(expected.flaw(Cause::NotPlace)),
        _ => Err(expected.flaw(Cause::NotList)),
    }
}

/// Passes the members of an object, or finds what is wrong with it.
#[cycle(value)]
fn object(
    reader: &mut Reader<'_>,
    text: &[u8],
    scope: Scope,
    expected: Expected,
    members: Members,
    depth: usize,
) -> Result<(), Flaw> {
    let mut seen = [false; 9];
    for _ in 0..text.len() {
        match next_member(reader, text, expected.path, members, &mut seen)? {
            Some(member) => value(reader, text, scope, member, depth)?,
            None => break,
        }
    }
    all_seen(expected, members, &seen)
}

/// What the value of the next member has to be, if one is left, or what is wrong with its key.
fn next_member(
    reader: &mut Reader<'_>,
    text: &[u8],
    object: Path,
    members: Members,
    seen: &mut [bool],
) -> Result<Option<Expected>, Flaw> {
    let byte = begin(text, reader.offset());
    let Ok(Some(name)) = reader.next_key() else {
        return Ok(None);
    };
    let Some((index, key, kind)) = find(members, name) else {
        return Err(Flaw {
            path: object,
            cause: Cause::Unknown(InlineText::of(name)),
            byte,
        });
    };
    let path = object.then(Step::Key(key));
    if !mark(seen, index) {
        return Err(Flaw {
            path,
            cause: Cause::Twice,
            byte,
        });
    }
    let byte = begin(text, reader.offset());
    Ok(Some(Expected { kind, path, byte }))
}

/// Marks the member with this number as seen. Whether it wasn't yet.
fn mark(seen: &mut [bool], index: usize) -> bool {
    match seen.get_mut(index) {
        Some(mark) if !*mark => {
            *mark = true;
            true
        }
        _ => false,
    }
}

/// Tests that an object has each of its members.
fn all_seen(expected: Expected, members: Members, seen: &[bool]) -> Result<(), Flaw> {
    for (mark, (key, _)) in seen.iter().zip(members.iter()) {
        if !*mark {
            return Err(Flaw {
                path: expected.path.then(Step::Key(*key)),
                cause: Cause::Missing,
                byte: expected.byte,
            });
        }
    }
    Ok(())
}

/// The member with this key: its number, its key and what it is.
fn find(members: Members, text: &str) -> Option<(usize, Key, Kind)> {
    for (index, (key, kind)) in members.iter().enumerate() {
        if key.name() == text {
            return Some((index, *key, *kind));
        }
    }
    None
}

/// Passes the items of a list, or finds what is wrong with one.
#[cycle(value)]
fn list(
    reader: &mut Reader<'_>,
    text: &[u8],
    scope: Scope,
    expected: Expected,
    kind: Kind,
    depth: usize,
) -> Result<(), Flaw> {
    for index in 0..text.len() {
        if reader.take_end_array() {
            break;
        }
        let path = expected.path.then(Step::Item(index as u64));
        let byte = begin(text, reader.offset());
        value(reader, text, scope, Expected { kind, path, byte }, depth)?;
    }
    Ok(())
}

/// What is wrong with a value that is no object and no list.
fn leaf(scope: Scope, kind: Kind, token: Token<'_>) -> Option<Cause> {
    match (token, kind) {
        (Token::Bool(_), Kind::Flag) => None,
        (_, Kind::Flag) => Some(Cause::NotFlag),
        (Token::Null, Kind::Base) => None,
        (Token::Number(digits), _) => number(scope, kind, digits),
        (_, Kind::Base) => Some(Cause::NotBase),
        _ => Some(Cause::NotNumber),
    }
}

/// What is wrong with a number, where one may stand.
fn number(scope: Scope, kind: Kind, digits: &str) -> Option<Cause> {
    match kind {
        Kind::Base => out_of(digits, 4_294_967_295),
        Kind::Population if scope.list => out_of(digits, MAX_POPULATION),
        Kind::Population => out_of(digits, u64::MAX),
        Kind::Element => stranger(scope, digits),
        Kind::Number(high) => out_of(digits, high),
        _ => Some(Cause::NotNumber),
    }
}

/// What is wrong with an element of the common list.
fn stranger(scope: Scope, digits: &str) -> Option<Cause> {
    match out_of(digits, 4_294_967_295) {
        Some(cause) => Some(cause),
        None => match (scope.population, digits.parse::<u64>()) {
            (Some(population), Ok(elem)) if elem >= population => Some(Cause::NoElement(
                population,
            )),
            _ => None,
        },
    }
}

/// What is wrong with a number that may be 0 to `high`.
fn out_of(digits: &str, high: u64) -> Option<Cause> {
    if digits
        .bytes()
        .any(|byte| matches!(byte, b'.' | b'e' | b'E'))
    {
        return Some(Cause::NotNumber);
    }
    match digits.parse::<u64>() {
        Ok(number) if number <= high => None,
        _ => Some(Cause::OutOfRange(high)),
    }
}
