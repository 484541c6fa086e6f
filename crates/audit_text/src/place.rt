//! Places of a snapshot.

/// A list of free elements.
#[derive(Clone, Copy, PartialEq, Eq, Debug)]
pub enum FreeList {
    /// The stack, from its top.
    Stack,
    /// The cache of this worker, from its first element.
    Cache(u32),
}

/// A table of packets.
#[derive(Clone, Copy, PartialEq, Eq, Debug)]
pub enum Table {
    /// The slots of this worker.
    Slots(u32),
    /// The desks.
    Desks,
}

/// A place of a snapshot.
#[derive(Clone, Copy, PartialEq, Eq, Debug)]
pub enum Place {
    /// An element of a free list, by its number in it, from 0.
    Free(FreeList, u64),
    /// A packet of a table, by its number in it, from 0.
    Packet(Table, u64),
    /// The own element of a segment: of which packet of which table, and which of its segments.
    Own(Table, u64, u64),
    /// The base of such a segment.
    Base(Table, u64, u64),
    /// A guest of this worker.
    Hosted(u32),
}
