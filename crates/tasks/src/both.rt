//! The audit of two snapshots of one text.
ghost use Rattle.std.specs.Prelude.{◌≡◌, IfErr, IfOk};
ghost use Rattle.tasks.specs.Audits.{IsAuditCause};
ghost use Rattle.tasks.specs.Both.{FailsEither, HasAudit, IsBothAs, failure_of, refusal_of};

use crate::auditing::audited;
use crate::failures::{Cause, Failure, Which};
use crate::running::written;
use crate::task::Form;
use commons::refusal::Refusal;
use pool_statement::settled::Settled;
use std::alloc::Global;

/// What the audit of two snapshots prints in a form: what is printed of the two pools of a script.
///
/// The failure is the first one's, as of its audit alone but with `first: ` in front, else the
/// second's with `second: `, but for memory that was refused.
pub(crate) fn both<'a>(
    alloc: Global,
    first: &[u8],
    second: &[u8],
    form: Form,
) -> Result<Vec<u8>, Failure<'a>>
    ensures printed { IfOk result (λ out. IsBothAs form first.now second.now out.items) }
    ensures cause { IfErr result (FailsEither HasAudit IsAuditCause first.now second.now) }
{
    let one = match audited(alloc, first) {
        Ok(placed) => placed,
        Err(failure) => return Err(of_two(Which::First, failure)),
    };
    let other = match audited(alloc, second) {
        Ok(placed) => placed,
        Err(failure) => return Err(of_two(Which::Second, failure)),
    };
    let settled = Settled {
        first: one.statement,
        second: Some(other.statement),
    };
    match written(alloc, &settled, form) {
        Ok(text) => Ok(text),
        Err(refusal) => Err(Failure::Fault(refusal)),
    }
}

/// What is reported of a failure of one of two snapshots.
pub(crate) fn of_two<'a>(which: Which, failure: Failure<'a>) -> Failure<'a>
    ensures { result ≡ failure_of which failure.entry }
{
    match failure {
        Failure::Fault(refusal) => refused(which, refusal),
        Failure::Misread(fault) => Failure::OfTwo(which, Cause::Misread(fault)),
        Failure::Audited(line) => Failure::OfTwo(which, Cause::Audited(line)),
        other => other,
    }
}

/// What is reported of a refusal.
fn refused<'a>(which: Which, refusal: Refusal) -> Failure<'a>
    ensures { result ≡ refusal_of which refusal }
{
    if let Refusal::OutOfMemory = refusal {
        return Failure::Fault(refusal);
    }
    Failure::OfTwo(which, Cause::Refused(refusal))
}
