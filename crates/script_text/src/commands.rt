//! The commands of a script.

use crate::lines;
pub use crate::lines::Pools;
pub use crate::name::Name;
use commons::change::Change;
use commons::seq::Seq;
use std::slice;

/// What a line asks a worker to do.
#[derive(Drop)]
pub enum Command {
    /// Makes a packet of one element.
    Alloc(Name),
    /// Makes a packet of one element for each of these names, 1 to 256, all or none.
    Bulk(Seq<Name>),
    /// Frees a packet.
    Free(Name),
    /// Changes a packet's lengths.
    Resize(Name, Change),
    /// Puts the second packet's segments after those of the first.
    Chain(Name, Name),
    /// Lets the first packet, of one segment, use the buffer of the second's first segment.
    Attach(Name, Name),
    /// Gives a packet its own buffer back.
    Detach(Name),
    /// Makes a clone of the first packet, under the second name.
    Clone(Name, Name),
    /// Makes a clone of the first packet in the second pool, under the second name.
    CloneTo(Name, Name),
    /// Tells the reference count of a packet's first segment's element.
    Count(Name),
    /// Leaves a packet on the desk of this number.
    Offer(Name, u16),
    /// Takes the packet off the desk of this number, under this name.
    Take(u16, Name),
    /// Puts the worker's whole cache onto the common stack.
    Flush,
}

impl Command {
    ghost use Rattle.std.specs.Prelude.{◌≡◌};
    ghost use Rattle.script_text.specs.Commands.{names_made, needs_second};

    /// The names that the command makes.
    pub fn names_made(&self) -> &[Name]
        ensures { result.now ≡ names_made self.now }
    {
        match self {
            Command::Alloc(name)
            | Command::Clone(_, name)
            | Command::CloneTo(_, name)
            | Command::Take(_, name) => slice::from_ref(name),
            Command::Bulk(names) => names.as_slice(),
            Command::Free(_)
            | Command::Resize(_, _)
            | Command::Chain(_, _)
            | Command::Attach(_, _)
            | Command::Detach(_)
            | Command::Count(_)
            | Command::Offer(_, _)
            | Command::Flush => &[],
        }
    }

    /// Whether the command is one of a second pool.
    pub fn needs_second(&self) -> bool
        ensures { result ≡ needs_second self.now }
    {
        matches!(self, Command::CloneTo(_, _))
    }
}

/// A line with a command.
pub type Line = lines::Line<Command>;

/// A script of commands.
pub type Script = lines::Script<Command>;

/// A key of the pool line.
#[derive(Clone, Copy, PartialEq, Eq, Debug)]
pub enum Key {
    /// How many elements a worker's cache keeps.
    Cache,
    /// How many workers the pool has.
    Workers,
    /// How many desks the pool has.
    Desks,
    /// Bytes in an element's buffer.
    Buf,
    /// The greatest reference count.
    Refs,
    /// Lost tries after which a call gives up.
    Tries,
    /// The modification count at the start.
    Start,
    /// The number of the put rule.
    Rule,
    /// How many elements a second pool has.
    Second,
    /// How many of its elements a worker's cache keeps.
    SecondCache,
}
