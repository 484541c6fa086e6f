//! One step on one word or slot, and its answer.

use crate::elems::Elems;
use crate::view::Head;
use commons::packet::Packet;

/// A step of one worker. Elements are any numbers; one out of range is refused.
#[derive(Debug, Drop)]
pub enum Step {
    /// Reads the length word.
    LoadLength,
    /// Lowers the length word from `old` by `n`, if it is `old`: reserves `n` elements.
    Reserve { old: u64, n: u64 },
    /// Raises the length word by `n`, and so gives back what was reserved or pushed.
    Add { n: u64 },
    /// Reads the head.
    LoadHead,
    /// Reads the link of the next element of the walk.
    LoadLink { element: u64 },
    /// Swings the head from the look's head to what follows the walk: takes the walk's elements.
    Cut,
    /// Writes the link of an element of the hand.
    StoreLink { element: u64, next: Option<u64> },
    /// Swings the head from the look's head to the chain's first element: puts the chain.
    Push,
    /// Reads the count of an element of the hand, and holds it.
    Claim { element: u64 },
    /// Reads the count of an element held; where `free` and it is 1, it goes back into the hand.
    Sole { element: u64, free: bool },
    /// Raises the count of an element held from `old`, if it is `old`.
    Raise { element: u64, old: u64 },
    /// Lowers the count of an element held.
    Lower { element: u64 },
    /// Sets the count of an element of the hand, 0 for the moment, to 1.
    Reset { element: u64 },
    /// Begins to fill a desk, if it is empty.
    Hold { desk: u32 },
    /// Puts a packet into the slot of the busy desk.
    PutIn { desk: u32, packet: Packet },
    /// Makes the busy desk full.
    Open { desk: u32 },
    /// Begins to empty a desk, if it is full.
    Seize { desk: u32 },
    /// Takes the packet out of the slot of the busy desk.
    TakeOut { desk: u32 },
    /// Makes the busy desk empty.
    Clear { desk: u32 },
}

/// What a step answers.
#[derive(Debug, Drop)]
pub enum Outcome {
    /// The value that was read: a length, a link value or a count.
    Value(u64),
    /// The head that was read.
    HeadIs(Head),
    /// The exchange won.
    Won,
    /// The cut won these elements, from the top.
    Got(Elems),
    /// The exchange found this value in place of the expected one.
    Lost(u64),
    /// The exchange found this head in place of the look's.
    LostTo(Head),
    /// The word or slot was written.
    Done,
    /// The packet that was in the slot.
    Found(Packet),
}
