//! What a text of a snapshot says, where a list may have elements twice.

use commons::seq::Seq;
use snapshot::snapshot::Snapshot;

/// An element that stands twice in a list, with the first two places where it stands.
#[derive(Clone, Copy, PartialEq, Eq, Debug)]
pub struct Double {
    /// The element.
    pub elem: u32,
    /// The first place where it stands, from 0.
    pub first: usize,
    /// The second.
    pub second: usize,
}

/// A snapshot whose stack is given as a list in which an element stands twice. No words stand for
/// that list.
#[derive(Debug, Drop)]
pub struct Repeats {
    /// The snapshot, with the words of an empty stack.
    pub snapshot: Snapshot,
    /// The list, from the top down.
    pub common: Seq<u32>,
    /// The least element that stands twice there.
    pub double: Double,
}

/// What a text says.
#[derive(Debug, Drop)]
pub enum Text {
    /// This snapshot.
    One(Snapshot),
    /// This one, whose stack is a list in which an element stands twice.
    Repeating(Repeats),
}
