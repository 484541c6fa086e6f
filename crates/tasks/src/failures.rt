//! Why nothing was printed of a script or a snapshot, or of two.
ghost use Rattle.std.specs.Prelude.{◌≡◌};
ghost use Rattle.tasks.specs.Failures.{front_of};
ghost use Rattle.tasks.specs.Pairs.{older_prefix, refusal_prefix};

use crate::comparing::Difference;
use commons::refusal::Refusal;
use snapshot_json::fault::SnapshotFault;

/// Why nothing was printed of a script or a snapshot.
#[derive(Drop)]
pub enum Failure<'a> {
    /// This file can't be read.
    Unreadable(&'a str),
    /// The script has a fault, a snapshot isn't one of a pool, or memory was refused.
    Fault(Refusal),
    /// The bytes are no snapshot's, and this is why.
    Misread(SnapshotFault),
    /// The snapshot has a fault, and this is its line.
    Audited(Vec<u8>),
    /// Of two snapshots that stand in one text, this one has a failure.
    OfTwo(Which, Cause),
}

/// Which of two snapshots that stand in one text.
#[derive(Clone, Copy)]
pub enum Which {
    First,
    Second,
}

/// Why nothing was printed of a snapshot.
#[derive(Drop)]
pub enum Cause {
    /// It isn't one of a pool.
    Refused(Refusal),
    /// The bytes are no snapshot's, and this is why.
    Misread(SnapshotFault),
    /// The snapshot has a fault, and this is its line.
    Audited(Vec<u8>),
}

impl From<Refusal> for Failure<'_> {
    ghost use Rattle.std.specs.Prelude.{◌≡◌};
    ghost use Rattle.tasks.specs.declared.failures.Failure.{Failure};

    ghost from_gives = { λ refusal failure. failure ≡ Failure.Fault refusal };

    fn from(refusal: Refusal) -> Self {
        Failure::Fault(refusal)
    }
}

/// What stands in front of the line of one of two snapshots.
pub(crate) fn front(which: Which) -> &'static [u8]
    ensures { result.now ≡ front_of which }
{
    match which {
        Which::First => b"first: ",
        Which::Second => b"second: ",
    }
}

/// Why nothing was printed of two snapshots of one pool.
#[derive(Drop)]
pub enum PairFailure<'a> {
    /// Of the newer one, as of its audit alone; or memory was refused.
    Newer(Failure<'a>),
    /// So of the older one.
    Older(Failure<'a>),
    /// They are of two pools: a limit of theirs differs.
    Differ(Difference),
}

/// What stands in front of the line of a failure of the older one.
pub(crate) fn before(failure: &Failure<'_>) -> &'static [u8]
    ensures { result.now ≡ older_prefix failure.now }
{
    match failure {
        Failure::Unreadable(_) => b"",
        Failure::Fault(refusal) => before_refusal(*refusal),
        Failure::Misread(_) => b"since: ",
        Failure::Audited(_) => b"since: ",
        Failure::OfTwo(_, _) => b"since: ",
    }
}

/// What stands in front of that of a refusal.
#[tactic(auto, using(crate::proofs::Prefixes::refusal_prefix_other))]
fn before_refusal(refusal: Refusal) -> &'static [u8]
    ensures { result.now ≡ refusal_prefix refusal }
{
    if let Refusal::OutOfMemory = refusal {
        return b"";
    }
    b"since: "
}
