//! The causes for which a call of any layer is refused, with their numbers and names as printed.

ghost use Rattle.std.specs.Prelude.{◌≡◌, Some};
ghost use Rattle.commons.specs.Refusals.{name_of, number_of, text_of};

use std::error::Error;
use std::fmt;

/// Why a call was refused. Each has a number and a name, which are printed together.
#[derive(Clone, Copy, PartialEq, Eq, Debug)]
pub enum Refusal {
    /// The limits are out of range.
    BadPool,
    /// A request for memory, or for a thread, was refused.
    OutOfMemory,
    /// A length below the number asked for was read.
    NoEntries,
    /// As many tries were lost as the pool allows.
    Contended,
    /// The head's modification count is spent.
    HeadSpent,
    /// The reference count is at its limit.
    RefSpent,
    /// A packet would have, or has, too many segments.
    TooManySegs,
    /// There is no room in the buffer.
    NoRoom,
    /// The packet is shorter than that.
    TooShort,
    /// The segment is indirect already.
    NotDirect,
    /// The segment isn't indirect.
    NotIndirect,
    /// A reference count other than 1 was read of the element: there was another hold of it then,
    /// perhaps this worker's own, which may be gone by now.
    InUse,
    /// There is no such packet.
    NoSuchPacket,
    /// The worker's table of packets is full.
    PacketsFull,
    /// The desk isn't empty.
    DeskTaken,
    /// The desk has no packet.
    DeskEmpty,
    /// There is no such desk.
    NoSuchDesk,
    /// The least worker whose part, what it has of the pool, wasn't handed in at the end. No call
    /// of `PlainSite`, `Packets` or `SitePool` answers it.
    MissingShare(u32),
    /// The worker isn't of this pool, or its part was handed in already.
    StrangerShare,
    /// The script's first faulty line.
    ScriptFault(u32),
    /// A step of a call was named whose condition doesn't hold. No call of `PlainSite`, `Packets`
    /// or `SitePool` answers it.
    StepRefused,
    /// The packet is of two pools. No call of `PlainSite`, `Packets` or `SitePool` answers it.
    Foreign,
    /// Both packets are the same.
    SamePacket,
}

impl Refusal {
    /// The number that is printed with the name, 1 to 23.
    pub fn number(self) -> u32
        ensures { result ≡ number_of self }
    {
        match self {
            Refusal::BadPool => 1,
            Refusal::OutOfMemory => 2,
            Refusal::NoEntries => 3,
            Refusal::Contended => 4,
            Refusal::HeadSpent => 5,
            Refusal::RefSpent => 6,
            Refusal::TooManySegs => 7,
            Refusal::NoRoom => 8,
            Refusal::TooShort => 9,
            Refusal::NotDirect => 10,
            Refusal::NotIndirect => 11,
            Refusal::InUse => 12,
            Refusal::NoSuchPacket => 13,
            Refusal::PacketsFull => 14,
            Refusal::DeskTaken => 15,
            Refusal::DeskEmpty => 16,
            Refusal::NoSuchDesk => 17,
            Refusal::MissingShare(_) => 18,
            Refusal::StrangerShare => 19,
            Refusal::ScriptFault(_) => 20,
            Refusal::StepRefused => 21,
            Refusal::Foreign => 22,
            Refusal::SamePacket => 23,
        }
    }

    /// The name alone, without the worker or the line that `Display` adds.
    pub fn name(&self) -> &'static str
        ensures { result.now ≡ name_of self.now }
    {
        match self {
            Refusal::BadPool => "BadPool",
            Refusal::OutOfMemory => "OutOfMemory",
            Refusal::NoEntries => "NoEntries",
            Refusal::Contended => "Contended",
            Refusal::HeadSpent => "HeadSpent",
            Refusal::RefSpent => "RefSpent",
            Refusal::TooManySegs => "TooManySegs",
            Refusal::NoRoom => "NoRoom",
            Refusal::TooShort => "TooShort",
            Refusal::NotDirect => "NotDirect",
            Refusal::NotIndirect => "NotIndirect",
            Refusal::InUse => "InUse",
            Refusal::NoSuchPacket => "NoSuchPacket",
            Refusal::PacketsFull => "PacketsFull",
            Refusal::DeskTaken => "DeskTaken",
            Refusal::DeskEmpty => "DeskEmpty",
            Refusal::NoSuchDesk => "NoSuchDesk",
            Refusal::MissingShare(_) => "MissingShare",
            Refusal::StrangerShare => "StrangerShare",
            Refusal::ScriptFault(_) => "ScriptFault",
            Refusal::StepRefused => "StepRefused",
            Refusal::Foreign => "Foreign",
            Refusal::SamePacket => "SamePacket",
        }
    }
}

/// The name, and the worker or the line of the two that have one.
impl fmt::Display for Refusal {
    ghost output = { λ refusal. Some (text_of refusal) };

    fn fmt<W: fmt::Write>(&self, f: &mut fmt::Formatter<W>) -> fmt::Result {
        f.write_str(self.name())?;
        match self {
            Refusal::MissingShare(worker) => write!(f, " worker {worker}"),
            Refusal::ScriptFault(line) => write!(f, " line {line}"),
            _ => Ok(()),
        }
    }
}

impl Error for Refusal {}

/// What lowering a reference count found.
#[derive(Clone, Copy, PartialEq, Eq, Debug)]
pub enum Lowered {
    /// It was the last hold: the element is in the worker's hand again, with count 1.
    Last,
    /// Another hold is left.
    Still,
}
