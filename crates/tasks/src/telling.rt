//! The lines that tell of failures, written on the errors without memory.
ghost use Rattle.std.specs.Prelude.{◌≡◌, ◌↔◌, ◌++◌, IsErr, codes, decimal, true};
ghost use Rattle.commons.specs.Refusals.{number_of, place_text, text_of};
ghost use Rattle.tasks.specs.Explained.{line_of_explained, told_second};
ghost use Rattle.tasks.specs.Failures.{cause_line, fault_text, front_of, line_of};
ghost use Rattle.tasks.specs.Pairs.{difference_text, line_of_pair, name_of, older_prefix};
ghost use Rattle.tasks.specs.Telling.{IsTold, Puts, heard};

mod misread;

use crate::comparing::{Difference, Limit};
use crate::explaining::ExplainedFailure;
use crate::failures::{Cause, Failure, PairFailure, Which, before, front};
use commons::refusal::Refusal;
use itoa::Buffer;
use misread::put_misread_line;
use script_io::{Sink, Tally, write_out};
use script_reasons::second::Second;

/// The errors failed: a part of what was to be told may stand there.
#[derive(Clone, Copy, PartialEq, Eq, Debug)]
pub struct Broken;

/// Writes the line that tells of a failure, and takes no memory for it.
///
/// `Broken` exactly where the errors failed, at this line or before it. After a write that failed
/// nothing is written.
pub fn tell<E: Sink>(errors: &mut Tally<E>, failure: &Failure<'_>) -> Result<(), Broken>
    ensures { IsTold (heard E.contents E.told errors.old) (heard E.contents E.told errors.new)
        (line_of failure.now) result }
{
    put_line(errors, failure);
    told(errors)
}

/// Writes the line that tells of a failure, and behind it the one that explains it. `Broken` as `tell`.
pub fn tell_explained<E: Sink>(
    errors: &mut Tally<E>,
    failure: &ExplainedFailure<'_>,
) -> Result<(), Broken>
    ensures { IsTold (heard E.contents E.told errors.old) (heard E.contents E.told errors.new)
        (line_of_explained failure.now) result }
{
    put_line(errors, &failure.failure);
    put_second(errors, &failure.second);
    told(errors)
}

/// Writes the line that tells of a failure of two snapshots of one pool. `Broken` as `tell`.
pub fn tell_pair<E: Sink>(errors: &mut Tally<E>, failure: &PairFailure<'_>) -> Result<(), Broken>
    ensures { IsTold (heard E.contents E.told errors.old) (heard E.contents E.told errors.new)
        (line_of_pair failure.now) result }
{
    put_pair(errors, failure);
    told(errors)
}

/// Puts the line that explains a fault, if there is one.
fn put_second<E: Sink>(errors: &mut Tally<E>, second: &Option<Second>)
    ensures { Puts (heard E.contents E.told errors.old) (heard E.contents E.told errors.new)
        (told_second second.now) }
{
    match second {
        None => put(errors, b""),
        Some(Second::Line(text)) => put_text_line(errors, text.as_slice()),
        Some(Second::NoMemory) => put(errors, b"not explained: memory was refused\n"),
    }
}

/// Puts the line of a failure of two snapshots.
fn put_pair<E: Sink>(errors: &mut Tally<E>, failure: &PairFailure<'_>)
    ensures { Puts (heard E.contents E.told errors.old) (heard E.contents E.told errors.new)
        (line_of_pair failure.now) }
{
    match failure {
        PairFailure::Newer(failure) => put_line(errors, failure),
        PairFailure::Older(failure) => put_older(errors, failure),
        PairFailure::Differ(both) => put_differing(errors, both),
    }
}

/// Puts the line of a failure of the older one, which says so, but where it names a file or memory is
/// missing.
#[tactic(auto, using(crate::proofs::Tellings::puts_then))]
fn put_older<E: Sink>(errors: &mut Tally<E>, failure: &Failure<'_>)
    ensures { Puts (heard E.contents E.told errors.old) (heard E.contents E.told errors.new)
        (older_prefix failure.now ++ line_of failure.now) }
{
    put_before(errors, failure);
    put_line(errors, failure);
}

/// Puts what stands in front of that line.
fn put_before<E: Sink>(errors: &mut Tally<E>, failure: &Failure<'_>)
    ensures { Puts (heard E.contents E.told errors.old) (heard E.contents E.told errors.new)
        (older_prefix failure.now) }
{
    put(errors, before(failure));
}

/// Puts the line of a limit that differs.
fn put_differing<E: Sink>(errors: &mut Tally<E>, both: &Difference)
    ensures { Puts (heard E.contents E.told errors.old) (heard E.contents E.told errors.new)
        (difference_text both.now ++ codes "\n") }
{
    put_difference(errors, both);
    put(errors, b"\n");
}

/// Puts what is said of a limit that differs.
fn put_difference<E: Sink>(errors: &mut Tally<E>, both: &Difference)
    ensures { Puts (heard E.contents E.told errors.old) (heard E.contents E.told errors.new)
        (difference_text both.now) }
{
    put(errors, b"limits differ: ");
    put_limit(errors, both.limit);
    put(errors, b" ");
    put_number(errors, both.newer);
    put(errors, b" and ");
    put_number(errors, both.older);
}

/// Puts the name of a limit.
fn put_limit<E: Sink>(errors: &mut Tally<E>, limit: Limit)
    ensures { Puts (heard E.contents E.told errors.old) (heard E.contents E.told errors.new)
        (name_of limit) }
{
    put(errors, limit.name().as_bytes());
}

/// Puts the line of a failure.
fn put_line<E: Sink>(errors: &mut Tally<E>, failure: &Failure<'_>)
    ensures { Puts (heard E.contents E.told errors.old) (heard E.contents E.told errors.new)
        (line_of failure.now) }
{
    match failure {
        Failure::Unreadable(file) => put_unreadable(errors, file),
        Failure::Fault(refusal) => put_fault_line(errors, *refusal),
        Failure::Misread(fault) => put_misread_line(errors, fault),
        Failure::Audited(line) => put_text_line(errors, line.as_slice()),
        Failure::OfTwo(which, cause) => put_of_two(errors, *which, cause),
    }
}

/// Puts the line of a file that can't be read.
fn put_unreadable<E: Sink>(errors: &mut Tally<E>, file: &str)
    ensures { Puts (heard E.contents E.told errors.old) (heard E.contents E.told errors.new)
        (codes "cannot read " ++ file.now ++ codes "\n") }
{
    put(errors, b"cannot read ");
    put_str(errors, file);
    put(errors, b"\n");
}

/// Puts the line of one of two snapshots, which says which.
#[tactic(auto, using(crate::proofs::Tellings::puts_then))]
fn put_of_two<E: Sink>(errors: &mut Tally<E>, which: Which, cause: &Cause)
    ensures { Puts (heard E.contents E.told errors.old) (heard E.contents E.told errors.new)
        (front_of which ++ cause_line cause.now) }
{
    put_front(errors, which);
    put_cause(errors, cause);
}

/// Puts what stands in front of that line.
fn put_front<E: Sink>(errors: &mut Tally<E>, which: Which)
    ensures { Puts (heard E.contents E.told errors.old) (heard E.contents E.told errors.new)
        (front_of which) }
{
    put(errors, front(which));
}

/// Puts the line behind that.
fn put_cause<E: Sink>(errors: &mut Tally<E>, cause: &Cause)
    ensures { Puts (heard E.contents E.told errors.old) (heard E.contents E.told errors.new)
        (cause_line cause.now) }
{
    match cause {
        Cause::Refused(refusal) => put_fault_line(errors, *refusal),
        Cause::Misread(fault) => put_misread_line(errors, fault),
        Cause::Audited(line) => put_text_line(errors, line.as_slice()),
    }
}

/// Puts a text as a line.
fn put_text_line<E: Sink>(errors: &mut Tally<E>, text: &[u8])
    ensures { Puts (heard E.contents E.told errors.old) (heard E.contents E.told errors.new)
        (text.now ++ codes "\n") }
{
    put(errors, text);
    put(errors, b"\n");
}

/// Puts the line of a refusal.
fn put_fault_line<E: Sink>(errors: &mut Tally<E>, refusal: Refusal)
    ensures { Puts (heard E.contents E.told errors.old) (heard E.contents E.told errors.new)
        (fault_text refusal ++ codes "\n") }
{
    put_fault(errors, refusal);
    put(errors, b"\n");
}

/// Puts what is said of a refusal: its number and name, and the worker or the line.
#[tactic(auto, using(crate::proofs::Tellings::puts_then))]
fn put_fault<E: Sink>(errors: &mut Tally<E>, refusal: Refusal)
    ensures { Puts (heard E.contents E.told errors.old) (heard E.contents E.told errors.new)
        (fault_text refusal) }
{
    put_code(errors, refusal);
    put(errors, b" ");
    put_name(errors, refusal);
}

/// Puts a refusal's number.
#[tactic(auto, using(crate::proofs::Tellings::puts_then))]
fn put_code<E: Sink>(errors: &mut Tally<E>, refusal: Refusal)
    ensures { Puts (heard E.contents E.told errors.old) (heard E.contents E.told errors.new)
        (codes "fault " ++ decimal (number_of refusal)) }
{
    put(errors, b"fault ");
    put_digits(errors, refusal);
}

/// Puts the digits of that number.
fn put_digits<E: Sink>(errors: &mut Tally<E>, refusal: Refusal)
    ensures { Puts (heard E.contents E.told errors.old) (heard E.contents E.told errors.new)
        (decimal (number_of refusal)) }
{
    put_number(errors, u64::from(refusal.number()));
}

/// Puts a refusal's name, and the worker or the line of the two that have one.
#[tactic(auto, using(crate::proofs::Tellings::puts_then))]
fn put_name<E: Sink>(errors: &mut Tally<E>, refusal: Refusal)
    ensures { Puts (heard E.contents E.told errors.old) (heard E.contents E.told errors.new)
        (text_of refusal) }
{
    put(errors, refusal.name().as_bytes());
    put_place(errors, refusal);
}

/// Puts the worker or the line that a refusal tells, and nothing where it tells none.
#[tactic(auto, using(crate::proofs::Tellings::place_of_others))]
fn put_place<E: Sink>(errors: &mut Tally<E>, refusal: Refusal)
    ensures { Puts (heard E.contents E.told errors.old) (heard E.contents E.told errors.new)
        (place_text refusal) }
{
    match refusal {
        Refusal::MissingShare(worker) => put_numbered(errors, b" worker ", u64::from(worker)),
        Refusal::ScriptFault(line) => put_numbered(errors, b" line ", u64::from(line)),
        _ => put(errors, b""),
    }
}

/// Puts a text, and behind it a number in decimal.
#[tactic(auto, using(crate::proofs::Tellings::puts_then))]
fn put_numbered<E: Sink>(errors: &mut Tally<E>, text: &[u8], number: u64)
    ensures { Puts (heard E.contents E.told errors.old) (heard E.contents E.told errors.new)
        (text.now ++ decimal number) }
{
    put(errors, text);
    put_number(errors, number);
}

/// Puts a number in decimal.
fn put_number<E: Sink>(errors: &mut Tally<E>, number: u64)
    ensures { Puts (heard E.contents E.told errors.old) (heard E.contents E.told errors.new)
        (decimal number) }
{
    let mut buffer = Buffer::new();
    put(errors, buffer.format(number).as_bytes());
}

/// Puts a text.
fn put_str<E: Sink>(errors: &mut Tally<E>, text: &str)
    ensures { Puts (heard E.contents E.told errors.old) (heard E.contents E.told errors.new) text.now }
{
    put(errors, text.as_bytes());
}

/// Puts a text behind what stands on the errors; nothing on errors that have failed.
fn put<E: Sink>(errors: &mut Tally<E>, text: &[u8])
    ensures { Puts (heard E.contents E.told errors.old) (heard E.contents E.told errors.new) text.now }
{
    if !errors.failed {
        let _is_whole = write_out(errors, text);
    }
}

/// Whether all that was put stands there.
fn told<E>(errors: &Tally<E>) -> Result<(), Broken>
    ensures { IsErr result ↔ (errors.now.failed ≡ true) }
{
    if errors.failed { Err(Broken) } else { Ok(()) }
}
