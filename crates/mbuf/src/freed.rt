//! What a free did with the elements whose last hold went.

use commons::refusal::Refusal;

/// What freeing did.
#[derive(Clone, Copy, PartialEq, Eq, Debug)]
pub struct Freed {
    /// How many elements were put back.
    pub back: u32,
    /// How many elements went to the common stack.
    pub flushed: u32,
    /// The last push that was refused: how many elements it had, and why.
    pub put_off: Option<(u32, Refusal)>,
}
