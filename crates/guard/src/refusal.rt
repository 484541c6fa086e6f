//! Why an element isn't put.

use depot::cause::Cause;

/// Why an element wasn't put. It isn't out by this worker's call then, nor did the call put it.
#[derive(Clone, Copy, PartialEq, Eq, Debug)]
pub enum NotPut {
    /// It is none of the pool.
    Stranger,
    /// It isn't out: it is in a magazine, or on its way there.
    Home,
    /// It isn't out: this worker has put it, and keeps it.
    Kept,
    /// Another put it in the meantime.
    Lost,
    /// The worker's list was full, and the depot refused what was in it.
    Full(Cause),
}
