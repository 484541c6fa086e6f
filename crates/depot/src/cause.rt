//! Why a call at a depot is refused.

/// Why a call was refused.
#[derive(Clone, Copy, PartialEq, Eq, Debug)]
pub enum Cause {
    /// The stack of full magazines was empty, and that of partial ones too.
    NoEntries,
    /// The stack of empty magazines was empty.
    NoMagazine,
    /// As many exchanges were lost as the depot allows for a try.
    Contended,
    /// A stack's modification count is spent.
    HeadSpent,
}

/// Why no worker was made.
#[derive(Clone, Copy, PartialEq, Eq, Debug)]
pub enum Refusal {
    /// There was no memory.
    Memory,
    /// A magazine for it was refused, for this cause.
    Cause(Cause),
}
