//! What is printed of a snapshot: the statement that places each element, in the form that is asked
//! for; or its first fault.
ghost use Rattle.std.specs.Prelude.{◌≡◌, ◌≢◌, IfErr, IfOk};
ghost use Rattle.snapshot.specs.Faults.{IsFirstFault};
ghost use Rattle.snapshot_json.specs.Reading.{IsFaultOf, IsNoSnapshotText};
ghost use Rattle.tasks.specs.Audits.{IsAuditCause, IsAuditOf, IsAuditPrintedAs, IsFailureIn, IsFaultIn, IsMisread, IsPictureOf, IsPlacedIn, IsStatementAs};
ghost use Rattle.tasks.specs.Both.{IsAuditDoneAs, IsAuditDoneCause};

use crate::both::both;
use crate::failures::Failure;
use crate::halves::halves;
use crate::task::Form;
use audit_text::fault_line;
use commons::limits::Limits;
use commons::refusal::Refusal;
use pool_picture::pool_dot;
use pool_statement::statement::Statement;
use snapshot::audit::audit;
use snapshot::fault::Fault;
use snapshot::snapshot::Snapshot;
use snapshot_json::fault::SnapshotFault;
use snapshot_json::read_snapshot;
use statement_text::{pool_json, pool_text};
use std::alloc::Global;

/// What the audit of these bytes prints in a form: of the snapshot that they are, or of two that stand
/// one behind the other, as the two pools of a script leave them.
///
/// `Misread` where they are no snapshot's, `Fault` with `BadPool` where its limits are those of no
/// pool, `Audited` with the line of the first fault that it has, and `Fault` with `OutOfMemory`
/// where memory was refused. Of two, the first one's failure and else the second's, which says so.
pub fn text<'a>(alloc: Global, bytes: &[u8], form: Form) -> Result<Vec<u8>, Failure<'a>>
    ensures printed { IfOk result (λ out. IsAuditDoneAs form bytes.now out.items) }
    ensures cause { IfErr result (IsAuditDoneCause bytes.now) }
{
    match halves(bytes) {
        Some((first, second)) => both(alloc, first, second, form),
        None => one(alloc, bytes, form),
    }
}

/// What the audit of the snapshot that these bytes are prints in a form.
fn one<'a>(alloc: Global, bytes: &[u8], form: Form) -> Result<Vec<u8>, Failure<'a>>
    ensures printed { IfOk result (λ out. IsAuditPrintedAs form bytes.now out.items) }
    ensures cause { IfErr result (IsAuditCause bytes.now) }
{
    match audited(alloc, bytes) {
        Ok(placed) => Ok(written(alloc, &placed.statement, form)?),
        Err(failure) => Err(failure),
    }
}

/// The picture of the pool whose snapshot these bytes are, in the language of Graphviz. Its failures
/// are those of `text`.
pub fn picture<'a>(alloc: Global, bytes: &[u8]) -> Result<Vec<u8>, Failure<'a>>
    ensures drawn { IfOk result (λ out. IsPictureOf bytes.now out.items) }
    ensures cause { IfErr result (IsAuditCause bytes.now) }
{
    match audited(alloc, bytes) {
        Ok(placed) => Ok(pool_dot(alloc, &placed.statement)?),
        Err(cause) => Err(cause),
    }
}

/// A lawful snapshot, as its limits and where each element of its pool is.
#[derive(Drop)]
pub struct Placed {
    /// The pool's limits.
    pub limits: Limits,
    /// Where each element is.
    pub statement: Statement,
}

/// The audit of the snapshot that these bytes are. Its failures are those of `text`.
pub(crate) fn audited<'a>(alloc: Global, bytes: &[u8]) -> Result<Placed, Failure<'a>>
    ensures audited { IfOk result (IsAuditOf bytes.now) }
    ensures cause { IfErr result (IsAuditCause bytes.now) }
{
    match read_snapshot(alloc, bytes) {
        Ok(snapshot) => of_snapshot(alloc, &snapshot),
        Err(fault) => Err(misread(fault)),
    }
}

/// What is reported of bytes that are no snapshot's.
pub(crate) fn misread<'a>(fault: SnapshotFault) -> Failure<'a>
    ensures { IsMisread fault result }
{
    if let SnapshotFault::OutOfMemory = fault {
        return Failure::Fault(Refusal::OutOfMemory);
    }
    Failure::Misread(fault)
}

/// The audit of a snapshot.
fn of_snapshot<'a>(alloc: Global, snapshot: &Snapshot) -> Result<Placed, Failure<'a>>
    ensures placed { IfOk result (IsPlacedIn snapshot.now) }
    ensures cause { IfErr result (IsFailureIn snapshot.now) }
{
    snapshot.limits.check()?;
    match audit(alloc, snapshot) {
        Ok(statement) => Ok(Placed {
            limits: snapshot.limits,
            statement,
        }),
        Err(Fault::OutOfMemory) => Err(Failure::Fault(Refusal::OutOfMemory)),
        Err(fault) => Err(faulty(alloc, snapshot, fault)),
    }
}

/// What is reported of a snapshot's fault.
fn faulty<'a>(alloc: Global, snapshot: &Snapshot, fault: Fault) -> Failure<'a>
    ensures { IsFaultIn snapshot.now fault result }
{
    match fault_line(alloc, snapshot, fault) {
        Ok(line) => Failure::Audited(line),
        Err(refusal) => Failure::Fault(refusal),
    }
}

/// A statement in a form.
fn written(alloc: Global, statement: &Statement, form: Form) -> Result<Vec<u8>, Refusal>
    ensures text { IfOk result (λ out. IsStatementAs form statement.now out.items) }
    ensures memory { IfErr result (λ refusal. refusal ≡ Refusal.OutOfMemory) }
{
    match form {
        Form::Text => pool_text(alloc, statement),
        Form::Json => pool_json(alloc, statement),
    }
}
