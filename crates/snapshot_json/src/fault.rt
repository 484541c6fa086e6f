//! What is wrong with a snapshot's text, and where.

ghost use Rattle.std.specs.Prelude.{◌≡◌, Some, codes, flat_map};
ghost use Rattle.std.specs.Fmt.{WritesOnOk};
ghost use Rattle.snapshot_json.specs.Told.{cause_text, flaw_text, key_name, path_text, place_text, places_text, step_text, told_of};

use crate::MAX_BYTES;
use std::alloc::AllocError;
use std::fmt;
use std::fmt::InlineText;

/// The most steps of a path, as of `shares[3].slots[17][0].base`.
const MOST_STEPS: usize = 6;

/// The most bytes of an unknown key that are shown.
const SHOWN: usize = 32;

/// The key of a member of a snapshot's value.
pub enum Key {
    Base,
    Buf,
    Cache,
    Common,
    Counts,
    Desks,
    Elem,
    Foreign,
    Guests,
    Len,
    Length,
    Limits,
    Links,
    Off,
    Population,
    Putrule,
    Refs,
    Shares,
    Slots,
    Start,
    Top,
    Tries,
    Worker,
    Workers,
}

impl Clone for Key {
    ghost use Rattle.std.specs.Prelude.{◌≡◌, ⊤};

    ghost is_clone = { λ x y. y ≡ x };

    ghost is_infallible = { λ _. ⊤ };

    fn clone(&self) -> Result<Key, AllocError> {
        Ok(*self)
    }
}

impl Copy for Key {}

impl Key {
    /// The key as it stands in a text.
    pub fn name(self) -> &'static str
        ensures { result.now ≡ key_name self }
    {
        match self {
            Key::Base => "base",
            Key::Buf => "buf",
            Key::Cache => "cache",
            Key::Common => "common",
            Key::Counts => "counts",
            Key::Desks => "desks",
            Key::Elem => "elem",
            Key::Foreign => "foreign",
            Key::Guests => "guests",
            Key::Len => "len",
            Key::Length => "length",
            Key::Limits => "limits",
            Key::Links => "links",
            Key::Off => "off",
            Key::Population => "population",
            Key::Putrule => "putrule",
            Key::Refs => "refs",
            Key::Shares => "shares",
            Key::Slots => "slots",
            Key::Start => "start",
            Key::Top => "top",
            Key::Tries => "tries",
            Key::Worker => "worker",
            Key::Workers => "workers",
        }
    }
}

/// A step from a value to a part of it.
pub enum Step {
    /// A member of an object.
    Key(Key),
    /// An item of a list, from 0.
    Item(u64),
}

impl Clone for Step {
    ghost use Rattle.std.specs.Prelude.{◌≡◌, ⊤};

    ghost is_clone = { λ x y. y ≡ x };

    ghost is_infallible = { λ _. ⊤ };

    fn clone(&self) -> Result<Step, AllocError> {
        Ok(*self)
    }
}

impl Copy for Step {}

/// The way from the whole value to a part of it.
pub struct Path {
    steps: [Option<Step>; MOST_STEPS],
}

impl Clone for Path {
    ghost use Rattle.std.specs.Prelude.{◌≡◌, ⊤};

    ghost is_clone = { λ x y. y ≡ x };

    ghost is_infallible = { λ _. ⊤ };

    fn clone(&self) -> Result<Path, AllocError> {
        Ok(*self)
    }
}

impl Copy for Path {}

impl Path {
    /// The steps from the whole value to the part, in order: six places, of which those behind the
    /// last step are `None`.
    pub fn steps(&self) -> &[Option<Step>]
        ensures { result.now ≡ self.now.steps }
    {
        &self.steps[..]
    }

    /// The whole value.
    pub(crate) fn whole() -> Path {
        Path {
            steps: [None; MOST_STEPS],
        }
    }

    /// One step further.
    pub(crate) fn then(self, step: Step) -> Path {
        let mut longer = self;
        for place in longer.steps.iter_mut() {
            if place.is_none() {
                *place = Some(step);
                break;
            }
        }
        longer
    }
}

/// A step of a path, with what stands in front of a key.
#[derive(Drop)]
struct Shown {
    before: &'static str,
    step: Option<Step>,
}

impl fmt::Display for Shown {
    ghost output = { λ it. Some (step_text it.before.now it.step) };

    fn fmt<W: fmt::Write>(&self, f: &mut fmt::Formatter<W>) -> fmt::Result {
        match self.step {
            Some(Step::Key(key)) => write!(f, "{}{}", self.before, key.name()),
            Some(Step::Item(index)) => write!(f, "[{index}]"),
            None => Ok(()),
        }
    }
}

impl fmt::Display for Path {
    ghost output = { λ path. Some (path_text path.steps) };

    fn fmt<W: fmt::Write>(&self, f: &mut fmt::Formatter<W>) -> fmt::Result {
        if let [first, further @ ..] = &self.steps[..] {
            f.write(Shown {
                before: "",
                step: *first,
            })?;
            write_further(f, further)?;
        }
        Ok(())
    }
}

/// Writes the steps behind the first.
fn write_further<W: fmt::Write>(f: &mut fmt::Formatter<W>, further: &[Option<Step>]) -> fmt::Result
    ensures { WritesOnOk W.write_str_gives f.old result
        (flat_map (step_text (codes ".")) further.now) f.new }
{
    for step in further {
        f.write(Shown {
            before: ".",
            step: *step,
        })?;
    }
    Ok(())
}

/// What is wrong with a part of a snapshot's value.
#[derive(Drop)]
pub enum Cause {
    /// It isn't there.
    Missing,
    /// The object has no such member. The front of its key.
    Unknown(InlineText<SHOWN>),
    /// The object has this member twice.
    Twice,
    /// It is no object.
    NotObject,
    /// It is no list.
    NotList,
    /// It is neither a list nor null.
    NotPlace,
    /// It is no decimal number, or one with a fraction or an exponent.
    NotNumber,
    /// It is neither such a number nor null.
    NotBase,
    /// It is neither true nor false.
    NotFlag,
    /// It is a number above this one, or below 0.
    OutOfRange(u64),
    /// It is no element of a pool with this population.
    NoElement(u64),
    /// The value as a whole isn't a snapshot's.
    Other,
}

impl Clone for Cause {
    ghost use Rattle.std.specs.Prelude.{◌≡◌, ⊤};

    ghost is_clone = { λ x y. y ≡ x };

    ghost is_infallible = { λ _. ⊤ };

    fn clone(&self) -> Result<Cause, AllocError> {
        Ok(*self)
    }
}

impl Copy for Cause {}

/// What is wrong, of which part, and where that stands in the text. Of a missing member the byte is
/// that of its object.
#[derive(Drop)]
pub struct Flaw {
    /// The part.
    pub path: Path,
    /// What is wrong with it.
    pub cause: Cause,
    /// The byte at which it begins, from 0.
    pub byte: u64,
}

impl Clone for Flaw {
    ghost use Rattle.std.specs.Prelude.{◌≡◌, ⊤};

    ghost is_clone = { λ x y. y ≡ x };

    ghost is_infallible = { λ _. ⊤ };

    fn clone(&self) -> Result<Flaw, AllocError> {
        Ok(*self)
    }
}

impl Copy for Flaw {}

impl fmt::Display for Cause {
    ghost output = { λ cause. Some (cause_text cause) };

    fn fmt<W: fmt::Write>(&self, f: &mut fmt::Formatter<W>) -> fmt::Result {
        match self {
            Cause::Missing => f.write_str("missing"),
            Cause::Unknown(key) => write_unknown(f, key),
            Cause::Twice => f.write_str("twice"),
            Cause::NotObject => f.write_str("not an object"),
            Cause::NotList => f.write_str("not a list"),
            Cause::NotPlace => f.write_str("not a list or null"),
            Cause::NotNumber => f.write_str("not a whole number"),
            Cause::NotBase => f.write_str("not a whole number or null"),
            Cause::NotFlag => f.write_str("not true or false"),
            Cause::OutOfRange(high) => write_out_of_range(f, *high),
            Cause::NoElement(population) => write_no_element(f, *population),
            Cause::Other => f.write_str("not a snapshot"),
        }
    }
}

/// Writes that no member has this key.
fn write_unknown<W: fmt::Write>(f: &mut fmt::Formatter<W>, key: &InlineText<SHOWN>) -> fmt::Result
    ensures { WritesOnOk W.write_str_gives f.old result
        (cause_text (Cause.Unknown key.now)) f.new }
{
    write!(f, "unknown member {}", key.as_str())
}

/// Writes that a number isn't one of 0 to this one.
fn write_out_of_range<W: fmt::Write>(f: &mut fmt::Formatter<W>, high: u64) -> fmt::Result
    ensures { WritesOnOk W.write_str_gives f.old result (cause_text (Cause.OutOfRange high)) f.new }
{
    write!(f, "out of 0 to {high}")
}

/// Writes that a number is no element of a pool with this population.
fn write_no_element<W: fmt::Write>(f: &mut fmt::Formatter<W>, population: u64) -> fmt::Result
    ensures { WritesOnOk W.write_str_gives f.old result
        (cause_text (Cause.NoElement population)) f.new }
{
    write!(f, "not below the population, {population}")
}

impl fmt::Display for Flaw {
    ghost output = { λ flaw. Some (flaw_text flaw) };

    fn fmt<W: fmt::Write>(&self, f: &mut fmt::Formatter<W>) -> fmt::Result {
        let Flaw { path, cause, byte } = self;
        f.write_str("snapshot")?;
        write_place(f, path)?;
        write!(f, ": {cause}, at byte {byte}")
    }
}

/// Writes the path of a part, with a space in front of it; of the whole value nothing.
fn write_place<W: fmt::Write>(f: &mut fmt::Formatter<W>, path: &Path) -> fmt::Result
    ensures { WritesOnOk W.write_str_gives f.old result (place_text path.now.steps) f.new }
{
    match path.steps[0] {
        Some(_) => write!(f, " {path}"),
        None => Ok(()),
    }
}

/// Why no snapshot was read from a text.
#[derive(Drop)]
pub enum SnapshotFault {
    /// Memory was refused: nothing is said of the text.
    OutOfMemory,
    /// The text has more bytes than a snapshot's may have.
    TooLong,
    /// The text isn't JSON: it ends or goes wrong at about this byte.
    NotJson(u64),
    /// A part of the value is wrong.
    Wrong(Flaw),
    /// The least element that stands twice in the common list, and the first two places where it
    /// stands, from 0.
    Doubled(u32, u64, u64),
}

impl Clone for SnapshotFault {
    ghost use Rattle.std.specs.Prelude.{◌≡◌, ⊤};

    ghost is_clone = { λ x y. y ≡ x };

    ghost is_infallible = { λ _. ⊤ };

    fn clone(&self) -> Result<SnapshotFault, AllocError> {
        Ok(*self)
    }
}

impl Copy for SnapshotFault {}

/// Where an element stands twice on the stack.
#[derive(Drop)]
struct Places {
    first: u64,
    second: u64,
}

impl fmt::Display for Places {
    ghost output = { λ places. Some (places_text places.first places.second) };

    fn fmt<W: fmt::Write>(&self, f: &mut fmt::Formatter<W>) -> fmt::Result {
        let Places { first, second } = self;
        write!(f, ": at {first} on the stack, at {second} on the stack")
    }
}

impl fmt::Display for SnapshotFault {
    ghost output = { λ fault. Some (told_of fault) };

    fn fmt<W: fmt::Write>(&self, f: &mut fmt::Formatter<W>) -> fmt::Result {
        match self {
            SnapshotFault::OutOfMemory => f.write_str("out of memory"),
            SnapshotFault::TooLong => write!(f, "snapshot: more than {MAX_BYTES} bytes"),
            SnapshotFault::NotJson(byte) => write!(f, "snapshot: not JSON, at byte {byte}"),
            SnapshotFault::Wrong(flaw) => flaw.fmt(f),
            SnapshotFault::Doubled(elem, first, second) => {
                write_doubled(f, *elem, *first, *second)
            }
        }
    }
}

/// Writes the audit's own line of a double.
fn write_doubled<W: fmt::Write>(
    f: &mut fmt::Formatter<W>,
    elem: u32,
    first: u64,
    second: u64,
) -> fmt::Result
    ensures { WritesOnOk W.write_str_gives f.old result
        (told_of (SnapshotFault.Doubled elem first second)) f.new }
{
    let places = Places { first, second };
    write!(f, "fault 108 Doubled element {elem}{places}")
}
