//! All faults of a snapshot, or of two in one file, as lines or as JSON.
ghost use Rattle.std.specs.Prelude.{◌≡◌, ◌≤◌, ◌↔◌, IfErr, IfOk, false, true};
ghost use Rattle.tasks.specs.Ends.{IsBrokenOff, status_of_end};
ghost use Rattle.snapshot_json.specs.declared.text.Text.TheVariants.{One, Repeating};
ghost use Rattle.tasks.specs.Both.{FailsEither};
ghost use Rattle.tasks.specs.Listings.{EndsAsListing, FailsListing, FailsListingAt, GivesListing, HasFaults, HasSomeFaults, IsBothListing, IsListedOf, IsListingCause, IsListingOf, IsOneListing, IsUnlisted};
ghost use Rattle.tasks.specs.Telling.{IsUntold, heard};
ghost use Rattle.tasks.specs.declared.kind.Kind.{Kind};

use crate::auditing::misread;
use crate::both::of_two;
use crate::failures::{Failure, Which};
use crate::halves::halves;
use crate::kind::Kind;
use crate::listed::{Found, Print, print_of, print_of_both};
use crate::printing::{End, unread};
use crate::scripts::Scripts;
use crate::task::{Form, Listing};
use crate::telling::tell;
use audit_text::stack_of;
use commons::refusal::Refusal;
use commons::seq::Seq;
use script_io::{Sink, Tally, write_out};
use snapshot::all_faults::{all_faults, all_faults_on};
use snapshot::snapshot::Snapshot;
use snapshot_json::read_text;
use snapshot_json::text::{Repeats, Text};
use std::alloc::Global;
use std::io::Write;

/// Prints all faults of the snapshot that a name stands for, or of two in one file, and how many they
/// are; or tells why there is nothing to print. Of the two writers the same is said as by `print`. A
/// whole print ends with `Listed`, which has that number.
pub fn print_all<S: Scripts, O: Write, E: Sink>(
    alloc: Global,
    scripts: &S,
    listing: &Listing<'_>,
    screen: &mut Tally<O>,
    errors: &mut Tally<E>,
) -> End
    requires { screen.old.failed ≡ false }
    // It is the print for bytes that the reading of the file gave, or the failure that came.
    ensures ends { EndsAsListing
        (S.gives scripts.now Kind.Snapshot listing.now.file.now)
        (S.fails scripts.now Kind.Snapshot listing.now.file.now)
        listing.now.file.now
        listing.now.form
        (O.contents screen.old.inner)
        (O.contents screen.new.inner)
        (E.contents errors.old.inner)
        (E.contents errors.new.inner)
        result }
    // The output failed exactly where the print was broken off.
    ensures failed { (screen.new.failed ≡ true) ↔ IsBrokenOff result }
    ensures sound { status_of_end result ≡ 0 → screen.new.failed ≡ false }
    // The errors failed where the line of the failure wasn't written whole.
    ensures untold { result ≡ End.Untold →
        IsUntold (heard E.contents E.told errors.old) (heard E.contents E.told errors.new) }
{
    match printed_all(alloc, scripts, listing) {
        Ok(print) => match write_out(screen, print.text.as_slice()) {
            Ok(()) => End::Listed(print.count),
            Err(count) => End::BrokenOff(count),
        },
        Err(failure) => match tell(errors, &failure) {
            Ok(()) => End::Told,
            Err(_) => End::Untold,
        },
    }
}

/// What is printed of all faults of the snapshot that a name stands for, or of two in one file.
///
/// `Unreadable` where the file isn't found or the device failed, `Misread` where its bytes are no
/// snapshot's, even one whose list has elements twice, and `Fault` with `BadPool` where the limits are
/// those of no pool, and with `OutOfMemory` where memory was refused. Of two, the first one's failure and
/// else the second's, which says so.
pub fn printed_all<'a, S: Scripts>(
    alloc: Global,
    scripts: &S,
    listing: &Listing<'a>,
) -> Result<Print, Failure<'a>>
    // It is the print for bytes that the reading of the file gave,
    ensures printed { IfOk result (GivesListing
        (S.gives scripts.now Kind.Snapshot listing.now.file.now)
        listing.now.form) }
    // or the failure that came.
    ensures cause { IfErr result (FailsListingAt
        (S.gives scripts.now Kind.Snapshot listing.now.file.now)
        (S.fails scripts.now Kind.Snapshot listing.now.file.now)
        listing.now.file.now) }
{
    match scripts.read(alloc, Kind::Snapshot, listing.file) {
        Ok(bytes) => match of_bytes(alloc, bytes.as_slice(), listing.form) {
            Ok(print) => Ok(print),
            Err(failure) => Err(failure),
        },
        Err(fault) => Err(unread(listing.file, fault)),
    }
}

/// What is printed of all faults of the snapshot that these bytes are, or of two.
fn of_bytes<'a>(alloc: Global, bytes: &[u8], form: Form) -> Result<Print, Failure<'a>>
    ensures printed { IfOk result (IsListingOf form bytes.now) }
    ensures cause { IfErr result (IsListingCause bytes.now) }
{
    match halves(bytes) {
        Some((first, second)) => of_both(alloc, first, second, form),
        None => of_one(alloc, bytes, form),
    }
}

/// What is printed of one.
fn of_one<'a>(alloc: Global, bytes: &[u8], form: Form) -> Result<Print, Failure<'a>>
    ensures printed { IfOk result (IsOneListing form bytes.now) }
    ensures cause { IfErr result (FailsListing bytes.now) }
{
    match listed(alloc, bytes) {
        Ok(one) => match print_of(alloc, &one, form) {
            Ok(print) => Ok(print),
            Err(refusal) => Err(Failure::Fault(refusal)),
        },
        Err(failure) => Err(failure),
    }
}

/// What is printed of two.
fn of_both<'a>(alloc: Global, first: &[u8], second: &[u8], form: Form) -> Result<Print, Failure<'a>>
    ensures printed { IfOk result (IsBothListing form first.now second.now) }
    ensures cause { IfErr result (FailsEither HasSomeFaults FailsListing first.now second.now) }
{
    let one = match listed(alloc, first) {
        Ok(listed) => listed,
        Err(failure) => return Err(of_two(Which::First, failure)),
    };
    let other = match listed(alloc, second) {
        Ok(listed) => listed,
        Err(failure) => return Err(of_two(Which::Second, failure)),
    };
    match print_of_both(alloc, &one, &other, form) {
        Ok(print) => Ok(print),
        Err(refusal) => Err(Failure::Fault(refusal)),
    }
}

/// All faults of the snapshot that these bytes are.
fn listed<'a>(alloc: Global, bytes: &[u8]) -> Result<Found, Failure<'a>>
    ensures listed { IfOk result (HasFaults bytes.now) }
    ensures cause { IfErr result (FailsListing bytes.now) }
{
    match read_text(alloc, bytes) {
        Ok(text) => of_text(alloc, text),
        Err(fault) => Err(misread(fault)),
    }
}

/// All faults of what a text says.
fn of_text<'a>(alloc: Global, text: Text) -> Result<Found, Failure<'a>>
    ensures listed { IfOk result (IsListedOf text) }
    ensures cause { IfErr result (IsUnlisted text) }
{
    match text {
        Text::One(snapshot) => of_words(alloc, snapshot),
        Text::Repeating(repeats) => of_list(alloc, repeats),
    }
}

/// All faults of a snapshot.
fn of_words<'a>(alloc: Global, snapshot: Snapshot) -> Result<Found, Failure<'a>>
    ensures listed { IfOk result (IsListedOf (One snapshot)) }
    ensures cause { IfErr result (IsUnlisted (One snapshot)) }
{
    snapshot.limits.check()?;
    let stack = stack_of(alloc, &snapshot)?;
    match all_faults(alloc, &snapshot) {
        Ok(faults) => Ok(Found {
            snapshot,
            stack: Seq::new(stack),
            faults,
        }),
        Err(_) => Err(Failure::Fault(Refusal::OutOfMemory)),
    }
}

/// All faults of a snapshot whose stack is a list in which an element stands twice.
fn of_list<'a>(alloc: Global, repeats: Repeats) -> Result<Found, Failure<'a>>
    ensures listed { IfOk result (IsListedOf (Repeating repeats)) }
    ensures cause { IfErr result (IsUnlisted (Repeating repeats)) }
{
    let Repeats {
        snapshot,
        common,
        ..
    } = repeats;
    snapshot.limits.check()?;
    match all_faults_on(alloc, &snapshot, common.as_slice()) {
        Ok(faults) => Ok(Found {
            snapshot,
            stack: common,
            faults,
        }),
        Err(_) => Err(Failure::Fault(Refusal::OutOfMemory)),
    }
}
