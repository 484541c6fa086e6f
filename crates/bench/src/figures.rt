//! How a run is timed, and how a figure is printed.

use crate::failures::Failure;
use std::fmt;
use std::fmt::{Display, Formatter, Write};
use std::time::{Clock, Instant};

/// The nanoseconds since a moment.
pub fn since<R: Clock>(rt: &R, start: Instant) -> Result<u64, Failure> {
    let nanos = start.elapsed(rt)?.as_nanos();
    Ok(u64::try_from(nanos).unwrap_or(u64::MAX))
}

/// Picoseconds, shown as nanoseconds with two decimals.
#[derive(Clone, Copy)]
pub struct Nanos(pub u64);

impl Display for Nanos {
    fn fmt<W: Write>(&self, f: &mut Formatter<W>) -> fmt::Result {
        write!(f, "{:>6}.{:02}", self.0 / 1_000, self.0 % 1_000 / 10)
    }
}
