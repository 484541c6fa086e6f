//! What is printed of two snapshots of one pool: the statement of the newer one, and which packets stay
//! since the older one.
ghost use Rattle.std.specs.Prelude.{◌≡◌, ◌↔◌, IfErr, IfOk, None, Some, false, true};
ghost use Rattle.tasks.specs.Ends.{IsBrokenOff, status_of_end};
ghost use Rattle.tasks.specs.Pairs.{EndsAsPair, FailsAlike, FailsAuditAt, FailsPair, GivesAudited, IsSinceAs, PrintsPair, first_difference};
ghost use Rattle.tasks.specs.Telling.{IsUntold, heard};
ghost use Rattle.tasks.specs.declared.kind.Kind.{Kind};

use crate::auditing::{Placed, audited};
use crate::comparing::differing;
use crate::failures::{Failure, PairFailure};
use crate::kind::Kind;
use crate::printing::{End, unread};
use crate::scripts::Scripts;
use crate::task::{Form, Pair};
use crate::telling::tell_pair;
use commons::refusal::Refusal;
use pool_statement::statement::Statement;
use script_io::{Sink, Tally, write_out};
use stays::{since_json, since_text};
use std::alloc::Global;
use std::io::Write;

/// Prints the audit of the newer of two snapshots of one pool, and which packets stay since the older
/// one, or tells why there is nothing to print. Of the two writers the same is said as by `print`.
pub fn print_pair<S: Scripts, O: Write, E: Sink>(
    alloc: Global,
    scripts: &S,
    pair: &Pair<'_>,
    screen: &mut Tally<O>,
    errors: &mut Tally<E>,
) -> End
    requires { screen.old.failed ≡ false }
    // It is the print for bytes that the readings of both files gave, or the failure that came.
    ensures ends { EndsAsPair
        (S.gives scripts.now Kind.Snapshot)
        (S.fails scripts.now Kind.Snapshot)
        pair.now.newer.now
        pair.now.older.now
        pair.now.form
        (O.contents screen.old.inner)
        (O.contents screen.new.inner)
        (E.contents errors.old.inner)
        (E.contents errors.new.inner)
        result }
    // The output failed exactly where the print was broken off.
    ensures failed { (screen.new.failed ≡ true) ↔ IsBrokenOff result }
    ensures sound { status_of_end result ≡ 0 → screen.new.failed ≡ false }
    // The errors failed where the line of the failure wasn't written whole.
    ensures untold { result ≡ End.Untold →
        IsUntold (heard E.contents E.told errors.old) (heard E.contents E.told errors.new) }
{
    match printed_pair(alloc, scripts, pair) {
        Ok(text) => match write_out(screen, text.as_slice()) {
            Ok(()) => End::Printed,
            Err(count) => End::BrokenOff(count),
        },
        Err(failure) => match tell_pair(errors, &failure) {
            Ok(()) => End::Told,
            Err(_) => End::Untold,
        },
    }
}

/// What is printed of two snapshots of one pool.
///
/// `Newer` with the failure of the newer one's audit, or where memory was refused; then `Older` with
/// that of the older one's, and `Differ` with the first of their limits that differs.
pub fn printed_pair<'a, S: Scripts>(
    alloc: Global,
    scripts: &S,
    pair: &Pair<'a>,
) -> Result<Vec<u8>, PairFailure<'a>>
    // It is the print for bytes that the readings of both files gave,
    ensures printed { IfOk result (λ out. PrintsPair
        (S.gives scripts.now Kind.Snapshot pair.now.newer.now)
        (S.gives scripts.now Kind.Snapshot pair.now.older.now)
        pair.now.form
        out.items) }
    // or the failure that came.
    ensures cause { IfErr result (FailsPair
        (S.gives scripts.now Kind.Snapshot)
        (S.fails scripts.now Kind.Snapshot)
        pair.now.newer.now
        pair.now.older.now) }
{
    match audit_of(alloc, scripts, pair.newer) {
        Ok(newer) => match audit_of(alloc, scripts, pair.older) {
            Ok(older) => compared(alloc, &newer, &older, pair.form),
            Err(failure) => Err(PairFailure::Older(failure)),
        },
        Err(failure) => Err(PairFailure::Newer(failure)),
    }
}

/// The audit of the snapshot that a name stands for.
fn audit_of<'a, S: Scripts>(
    alloc: Global,
    scripts: &S,
    file: &'a str,
) -> Result<Placed, Failure<'a>>
    ensures audited { IfOk result (GivesAudited (S.gives scripts.now Kind.Snapshot file.entry.now)) }
    ensures cause { IfErr result (FailsAuditAt
        (S.gives scripts.now Kind.Snapshot file.entry.now)
        (S.fails scripts.now Kind.Snapshot file.entry.now)
        file.entry.now) }
{
    match scripts.read(alloc, Kind::Snapshot, file) {
        Ok(bytes) => match audited(alloc, bytes.as_slice()) {
            Ok(placed) => Ok(placed),
            Err(failure) => Err(failure),
        },
        Err(fault) => Err(unread(file, fault)),
    }
}

/// What is printed of two lawful snapshots.
fn compared<'a>(
    alloc: Global,
    newer: &Placed,
    older: &Placed,
    form: Form,
) -> Result<Vec<u8>, PairFailure<'a>>
    ensures alike { IfOk result (λ _. first_difference newer.now.limits older.now.limits ≡ None) }
    ensures written { IfOk result (λ out. IsSinceAs form newer.now.statement older.now.statement out.items) }
    ensures cause { IfErr result (FailsAlike newer.now older.now) }
{
    match differing(&newer.limits, &older.limits) {
        Some(difference) => Err(PairFailure::Differ(difference)),
        None => match written(alloc, &newer.statement, &older.statement, form) {
            Ok(text) => Ok(text),
            Err(refusal) => Err(PairFailure::Newer(Failure::Fault(refusal))),
        },
    }
}

/// The newer statement and what stays, in a form.
fn written(
    alloc: Global,
    newer: &Statement,
    older: &Statement,
    form: Form,
) -> Result<Vec<u8>, Refusal>
    ensures text { IfOk result (λ out. IsSinceAs form newer.now older.now out.items) }
    ensures memory { IfErr result (λ refusal. refusal ≡ Refusal.OutOfMemory) }
{
    match form {
        Form::Text => since_text(alloc, newer, older),
        Form::Json => since_json(alloc, newer, older),
    }
}
