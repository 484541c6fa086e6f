//! What may be wrong with a snapshot, in the order in which it is looked for.

/// What is wrong with a snapshot.
#[derive(Clone, Copy, PartialEq, Eq, Debug)]
pub enum Fault {
    /// Links or counts aren't one for each element, desks aren't as many as the pool has, shares
    /// aren't one for each worker in order, a share has more than 4,294,967,296 places, or guests
    /// aren't of these workers, or are more than 8,192 for each of them.
    BadShape,
    /// The top, or a link on the walk from it, is above the population.
    BadTop(u32),
    /// The walk has more elements than the population.
    Loop,
    /// The length word isn't the walk's length.
    BadLength {
        /// The length word.
        word: u64,
        /// The walk's length.
        found: u64,
    },
    /// A cache, a segment, a base or a guest names an element that the pool doesn't have: the least
    /// of them.
    BadElem(u32),
    /// A packet has no segments or more than 32, or one whose data reaches past its buffer.
    BadPacket,
    /// The least element that is the own one of two segments.
    DoubleHeader(u32),
    /// The least element that is free twice, or free and held.
    Doubled(u32),
    /// The least element that is neither free nor held.
    Lost(u32),
    /// The least element whose count isn't the number of its holds, or isn't 1 where nobody holds
    /// it.
    BadCount {
        /// The element.
        elem: u32,
        /// Its count.
        word: u32,
        /// How often it is held.
        holds: u64,
    },
    /// Memory was refused: nothing is said of the snapshot.
    OutOfMemory,
}
