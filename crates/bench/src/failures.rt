//! Why nothing was measured.

use commons::refusal::Refusal;
use std::alloc::AllocError;
use std::io;
use std::io::Eprint;

/// Why nothing was measured.
#[derive(Drop)]
pub enum Failure {
    /// The clock, or an output, failed.
    System(io::Error),
    /// A pool could not be made, or its first packets.
    Refused(Refusal),
    /// The words, or a name or a number of a list, are none that can be measured.
    NotInList,
    /// This many elements aren't back in the common list at the end.
    Missing(u64),
}

impl From<io::Error> for Failure {
    fn from(error: io::Error) -> Self {
        Failure::System(error)
    }
}

impl From<Refusal> for Failure {
    fn from(refusal: Refusal) -> Self {
        Failure::Refused(refusal)
    }
}

impl From<AllocError> for Failure {
    fn from(_error: AllocError) -> Self {
        Failure::Refused(Refusal::OutOfMemory)
    }
}

/// Tells of a failure, and gives its status: 2 for words that can't be measured, else 1.
pub fn tell<R: Eprint>(rt: &R, failure: &Failure) -> u8 {
    let (told, status) = match failure {
        Failure::System(error) => (rt.eprintln(format_args!("bench: {error}")), 1),
        Failure::Refused(refusal) => (rt.eprintln(format_args!("bench: {refusal}")), 1),
        Failure::NotInList => (
            rt.eprintln(format_args!(
                "bench: that can't be measured; without words it lists what can"
            )),
            2,
        ),
        Failure::Missing(count) => (
            rt.eprintln(format_args!("bench: {count} elements are missing at the end")),
            1,
        ),
    };
    match told {
        Ok(()) => status,
        Err(_) => 1,
    }
}
