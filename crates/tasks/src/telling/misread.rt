//! What is said of bytes that are no snapshot's, written on the errors without memory.
ghost use Rattle.std.specs.Prelude.{◌++◌, ◌∷◌, Some, codes, decimal, flat_map};
ghost use Rattle.snapshot_json.specs.Reading.{max_bytes};
ghost use Rattle.snapshot_json.specs.Told.{cause_text, flaw_text, key_name, path_text, place_text, places_text, step_text, told_of};
ghost use Rattle.tasks.specs.Telling.{Puts, heard};

use super::{put, put_number, put_numbered, put_str};
use script_io::{Sink, Tally};
use snapshot_json::MAX_BYTES;
use snapshot_json::fault::{Cause, Flaw, Key, SnapshotFault, Step};

/// Puts the line that says why bytes are no snapshot's.
pub(super) fn put_misread_line<E: Sink>(errors: &mut Tally<E>, fault: &SnapshotFault)
    ensures { Puts (heard E.contents E.told errors.old) (heard E.contents E.told errors.new)
        (told_of fault.now ++ codes "\n") }
{
    put_misread(errors, fault);
    put(errors, b"\n");
}

/// Puts why bytes are no snapshot's.
fn put_misread<E: Sink>(errors: &mut Tally<E>, fault: &SnapshotFault)
    ensures { Puts (heard E.contents E.told errors.old) (heard E.contents E.told errors.new)
        (told_of fault.now) }
{
    match fault {
        SnapshotFault::OutOfMemory => put(errors, b"out of memory"),
        SnapshotFault::TooLong => put_too_long(errors),
        SnapshotFault::NotJson(byte) => {
            put_numbered(errors, b"snapshot: not JSON, at byte ", *byte);
        }
        SnapshotFault::Wrong(flaw) => put_flaw(errors, flaw),
        SnapshotFault::Doubled(elem, first, second) => put_doubled(errors, *elem, *first, *second),
    }
}

/// Puts that a text has too many bytes.
fn put_too_long<E: Sink>(errors: &mut Tally<E>)
    ensures { Puts (heard E.contents E.told errors.old) (heard E.contents E.told errors.new)
        (codes "snapshot: more than " ++ decimal max_bytes ++ codes " bytes") }
{
    put_numbered(errors, b"snapshot: more than ", MAX_BYTES as u64);
    put(errors, b" bytes");
}

/// Puts that an element stands twice on the stack, and where.
fn put_doubled<E: Sink>(errors: &mut Tally<E>, elem: u32, first: u64, second: u64)
    ensures { Puts (heard E.contents E.told errors.old) (heard E.contents E.told errors.new)
        (codes "fault 108 Doubled element " ++ decimal elem ++ places_text first second) }
{
    put_numbered(errors, b"fault 108 Doubled element ", u64::from(elem));
    put_places(errors, first, second);
}

/// Puts the two places.
fn put_places<E: Sink>(errors: &mut Tally<E>, first: u64, second: u64)
    ensures { Puts (heard E.contents E.told errors.old) (heard E.contents E.told errors.new)
        (places_text first second) }
{
    put_numbered(errors, b": at ", first);
    put(errors, b" on the stack, at ");
    put_number(errors, second);
    put(errors, b" on the stack");
}

/// Puts what is wrong with a part of a snapshot, and where that stands.
fn put_flaw<E: Sink>(errors: &mut Tally<E>, flaw: &Flaw)
    ensures { Puts (heard E.contents E.told errors.old) (heard E.contents E.told errors.new)
        (flaw_text flaw.now) }
{
    put(errors, b"snapshot");
    put_place_of(errors, flaw.path.steps());
    put(errors, b": ");
    put_what(errors, &flaw.cause);
    put(errors, b", at byte ");
    put_number(errors, flaw.byte);
}

/// Puts the path of a part; of the whole value nothing.
fn put_place_of<E: Sink>(errors: &mut Tally<E>, steps: &[Option<Step>])
    ensures { Puts (heard E.contents E.told errors.old) (heard E.contents E.told errors.new)
        (place_text steps.now) }
{
    match steps.split_first() {
        Some((first, further)) => put_place_from(errors, *first, further),
        None => put(errors, b""),
    }
}

/// So where the path may be one of no step.
fn put_place_from<E: Sink>(errors: &mut Tally<E>, first: Option<Step>, further: &[Option<Step>])
    ensures { Puts (heard E.contents E.told errors.old) (heard E.contents E.told errors.new)
        (place_text (first ∷ further.now)) }
{
    match first {
        Some(step) => put_path(errors, step, further),
        None => put(errors, b""),
    }
}

/// Puts a path with a step or more, and what parts it from the words in front of it.
fn put_path<E: Sink>(errors: &mut Tally<E>, first: Step, further: &[Option<Step>])
    ensures { Puts (heard E.contents E.told errors.old) (heard E.contents E.told errors.new)
        (place_text (Some first ∷ further.now)) }
{
    put(errors, b" ");
    put_steps(errors, first, further);
}

/// Puts a path with a step or more.
fn put_steps<E: Sink>(errors: &mut Tally<E>, first: Step, further: &[Option<Step>])
    ensures { Puts (heard E.contents E.told errors.old) (heard E.contents E.told errors.new)
        (path_text (Some first ∷ further.now)) }
{
    put_step(errors, b"", Some(first));
    put_further(errors, further);
}

/// Puts the steps behind the first.
fn put_further<E: Sink>(errors: &mut Tally<E>, further: &[Option<Step>])
    ensures { Puts (heard E.contents E.told errors.old) (heard E.contents E.told errors.new)
        (flat_map (step_text (codes ".")) further.now) }
{
    for step in further {
        put_step(errors, b".", *step);
    }
}

/// Puts a step, with a text in front of a key.
fn put_step<E: Sink>(errors: &mut Tally<E>, before: &[u8], step: Option<Step>)
    ensures { Puts (heard E.contents E.told errors.old) (heard E.contents E.told errors.new)
        (step_text before.now step) }
{
    match step {
        Some(Step::Key(key)) => put_key(errors, before, key),
        Some(Step::Item(index)) => put_item(errors, index),
        None => put(errors, b""),
    }
}

/// Puts a text, and behind it a key.
fn put_key<E: Sink>(errors: &mut Tally<E>, before: &[u8], key: Key)
    ensures { Puts (heard E.contents E.told errors.old) (heard E.contents E.told errors.new)
        (before.now ++ key_name key) }
{
    put(errors, before);
    put_str(errors, key.name());
}

/// Puts the number of an item of a list.
fn put_item<E: Sink>(errors: &mut Tally<E>, index: u64)
    ensures { Puts (heard E.contents E.told errors.old) (heard E.contents E.told errors.new)
        (codes "[" ++ decimal index ++ codes "]") }
{
    put_numbered(errors, b"[", index);
    put(errors, b"]");
}

/// Puts what is wrong with a part.
fn put_what<E: Sink>(errors: &mut Tally<E>, cause: &Cause)
    ensures { Puts (heard E.contents E.told errors.old) (heard E.contents E.told errors.new)
        (cause_text cause.now) }
{
    match cause {
        Cause::Missing => put(errors, b"missing"),
        Cause::Unknown(key) => put_unknown(errors, key.as_str()),
        Cause::Twice => put(errors, b"twice"),
        Cause::NotObject => put(errors, b"not an object"),
        Cause::NotList => put(errors, b"not a list"),
        Cause::NotPlace => put(errors, b"not a list or null"),
        Cause::NotNumber => put(errors, b"not a whole number"),
        Cause::NotBase => put(errors, b"not a whole number or null"),
        Cause::NotFlag => put(errors, b"not true or false"),
        Cause::OutOfRange(high) => put_numbered(errors, b"out of 0 to ", *high),
        Cause::NoElement(population) => {
            put_numbered(errors, b"not below the population, ", *population);
        }
        Cause::Other => put(errors, b"not a snapshot"),
    }
}

/// Puts that an object has no member with this key.
fn put_unknown<E: Sink>(errors: &mut Tally<E>, key: &str)
    ensures { Puts (heard E.contents E.told errors.old) (heard E.contents E.told errors.new)
        (codes "unknown member " ++ key.now) }
{
    put(errors, b"unknown member ");
    put_str(errors, key);
}
