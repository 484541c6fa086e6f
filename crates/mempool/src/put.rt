//! What a put did with the elements that a cache doesn't keep.

use commons::refusal::Refusal;

/// What a put did with the elements that a cache doesn't keep.
#[derive(Clone, Copy, PartialEq, Eq, Debug)]
pub enum Put {
    /// Nothing was to go to the common stack.
    Kept,
    /// This many elements went to the common stack.
    Flushed(u32),
    /// This many elements were to go there, and stay in the cache, since the stack refused them.
    PutOff(u32, Refusal),
}
