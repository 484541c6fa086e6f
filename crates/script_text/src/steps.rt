//! The steps of a script of steps, as a line has them. Each touches one word or one slot of a pool.

use crate::lines;
use commons::seq::Seq;

/// An element's number, any below 2^64, or `None` for the end of a list, which is written `-`.
pub type ElementOrEnd = Option<u64>;

/// A segment of a packet that a step puts into a slot. Its length is 0, and its offset and the
/// bytes of its buffer are the pool's.
#[derive(Clone, Copy, PartialEq, Eq, Debug)]
pub struct StepSegment {
    /// The segment's own element.
    pub element: u64,
    /// The element whose buffer it uses, where that is another.
    pub base: Option<u64>,
}

/// What a line asks a worker to do in one step. Elements and desks that the pool doesn't have, and
/// the end in the place of an element, are read too: such a step is refused when it is played.
#[derive(Debug, Drop)]
pub enum Step {
    /// Loads the length word.
    LoadLength,
    /// Takes `n` off the length word, where it is `old`.
    Reserve {
        old: u64,
        n: u64,
    },
    /// Adds `n` to the length word.
    Add {
        n: u64,
    },
    /// Loads the head word.
    LoadHead,
    /// Loads the link of an element.
    LoadLink {
        element: ElementOrEnd,
    },
    /// Takes the elements that were looked at off the list.
    Cut,
    /// Stores the link of an element: to the next one, or to the end.
    StoreLink {
        element: ElementOrEnd,
        next: ElementOrEnd,
    },
    /// Puts the chain onto the list.
    Push,
    /// Loads the count of an element of the hand, which is held from then on.
    Claim {
        element: ElementOrEnd,
    },
    /// Loads the count of an element that is held; where `free` and it is 1, the element is in the
    /// hand then.
    Sole {
        element: ElementOrEnd,
        free: bool,
    },
    /// Makes one hold more, where the count is `old`.
    Raise {
        element: ElementOrEnd,
        old: u64,
    },
    /// Ends a hold.
    Lower {
        element: ElementOrEnd,
    },
    /// Stores the count 1.
    Reset {
        element: ElementOrEnd,
    },
    /// Begins to fill an empty desk.
    Hold {
        desk: u16,
    },
    /// Puts a packet of 1 to 32 segments into the slot of the desk.
    PutIn {
        desk: u16,
        segments: Seq<StepSegment>,
    },
    /// Opens the desk with what is in its slot.
    Open {
        desk: u16,
    },
    /// Begins to empty a full desk.
    Seize {
        desk: u16,
    },
    /// Takes the packet out of the slot of the desk.
    TakeOut {
        desk: u16,
    },
    /// Leaves the desk empty.
    Clear {
        desk: u16,
    },
}

/// A line with a step.
pub type StepLine = lines::Line<Step>;

/// A script of steps.
pub type StepScript = lines::Script<Step>;
