//! What a line asks for, by what its worker's names stand for.

ghost use Rattle.std.specs.Prelude.{◌≡◌};
ghost use Rattle.script.specs.Replay.{asked as asked_by, both_of as both_by, count_of as count_by, free_of as free_by, packet_of as packet_by, resize_clone as clone_by, resize_of as resize_by, resize_packet as resized_by};
ghost use Rattle.script.specs.Stands.{stands_in};

use crate::names::{Names, Stand};
use commons::change::Change;
use commons::refusal::Refusal;
use mbuf::acts::Act;
use mbuf::packets::Pid;
use script_text::commands::{Command, Line};
use twin_acts::acts::TwinAct;

/// The slot of the packet that a name stands for; a foreign clone isn't served.
fn packet_of(stand: Option<Stand>) -> Result<Pid, Refusal>
    ensures { result ≡ packet_by stand }
{
    match stand {
        None => Err(Refusal::NoSuchPacket),
        Some(Stand::Packet(slot)) => Ok(slot),
        Some(Stand::Clone(_)) => Err(Refusal::Foreign),
    }
}

/// The slots of the packets that two names stand for. That both stand for something is looked for
/// first.
fn both_of(stand: Option<Stand>, other: Option<Stand>) -> Result<(Pid, Pid), Refusal>
    ensures { result ≡ both_by stand other }
{
    match (stand, other) {
        (Some(Stand::Packet(slot)), Some(Stand::Packet(other))) => Ok((slot, other)),
        (Some(_), Some(_)) => Err(Refusal::Foreign),
        _ => Err(Refusal::NoSuchPacket),
    }
}

/// A free of what a name stands for.
fn free_of(stand: Option<Stand>) -> Result<TwinAct, Refusal>
    ensures { result ≡ free_by stand }
{
    match stand {
        None => Err(Refusal::NoSuchPacket),
        Some(Stand::Packet(slot)) => Ok(TwinAct::OnFirst(Act::Free(slot))),
        Some(Stand::Clone(slot)) => Ok(TwinAct::FreeClone(slot)),
    }
}

/// The count of what a name stands for.
fn count_of(stand: Option<Stand>) -> Result<TwinAct, Refusal>
    ensures { result ≡ count_by stand }
{
    match stand {
        None => Err(Refusal::NoSuchPacket),
        Some(Stand::Packet(slot)) => Ok(TwinAct::OnFirst(Act::CountOf(slot))),
        Some(Stand::Clone(slot)) => Ok(TwinAct::CountClone(slot)),
    }
}

/// A change of the lengths of the packet in a slot.
fn resize_packet(slot: Pid, change: Change) -> Act
    ensures { result ≡ resized_by slot change }
{
    match change {
        Change::Append(len) => Act::Append(slot, len),
        Change::Prepend(len) => Act::Prepend(slot, len),
        Change::Adj(len) => Act::Adj(slot, len),
        Change::Trim(len) => Act::Trim(slot, len),
    }
}

/// A change of the lengths of the foreign clone in a slot: nothing is put before its data or behind
/// it.
fn resize_clone(slot: Pid, change: Change) -> Result<TwinAct, Refusal>
    ensures { result ≡ clone_by slot change }
{
    match change {
        Change::Append(_) | Change::Prepend(_) => Err(Refusal::Foreign),
        Change::Adj(len) => Ok(TwinAct::AdjClone(slot, len)),
        Change::Trim(len) => Ok(TwinAct::TrimClone(slot, len)),
    }
}

/// A change of the lengths of what a name stands for.
fn resize_of(stand: Option<Stand>, change: Change) -> Result<TwinAct, Refusal>
    ensures { result ≡ resize_by stand change }
{
    match stand {
        None => Err(Refusal::NoSuchPacket),
        Some(Stand::Packet(slot)) => Ok(TwinAct::OnFirst(resize_packet(slot, change))),
        Some(Stand::Clone(slot)) => resize_clone(slot, change),
    }
}

/// The act that a line asks for, by what its worker's names stand for. Refused `NoSuchPacket` where
/// one of them stands for nothing, else `Foreign` where one stands for a foreign clone and the
/// command isn't served on these.
pub fn asked<'a>(names: &Names<'a>, line: &'a Line) -> Result<TwinAct, Refusal>
    ensures { result ≡ asked_by (stands_in names.now line.now.worker) line.now.command }
{
    let worker = line.worker;
    match &line.command {
        Command::Alloc(_) => Ok(TwinAct::OnFirst(Act::Alloc)),
        Command::Bulk(made) => Ok(TwinAct::OnFirst(Act::AllocBulk(made.len()))),
        Command::Free(name) => free_of(names.get(worker, name.as_slice())),
        Command::Resize(name, change) => resize_of(names.get(worker, name.as_slice()), *change),
        Command::Chain(head, tail) => {
            let head = names.get(worker, head.as_slice());
            let (head, tail) = both_of(head, names.get(worker, tail.as_slice()))?;
            Ok(TwinAct::OnFirst(Act::Chain(head, tail)))
        }
        Command::Attach(name, target) => {
            let slot = names.get(worker, name.as_slice());
            let (slot, target) = both_of(slot, names.get(worker, target.as_slice()))?;
            Ok(TwinAct::OnFirst(Act::Attach(slot, target)))
        }
        Command::Detach(name) => {
            let slot = packet_of(names.get(worker, name.as_slice()))?;
            Ok(TwinAct::OnFirst(Act::Detach(slot)))
        }
        Command::Clone(name, _) => {
            let slot = packet_of(names.get(worker, name.as_slice()))?;
            Ok(TwinAct::OnFirst(Act::ClonePacket(slot)))
        }
        Command::CloneTo(name, _) => {
            let slot = packet_of(names.get(worker, name.as_slice()))?;
            Ok(TwinAct::CloneInto(slot))
        }
        Command::Count(name) => count_of(names.get(worker, name.as_slice())),
        Command::Offer(name, desk) => {
            let slot = packet_of(names.get(worker, name.as_slice()))?;
            Ok(TwinAct::OnFirst(Act::Offer(slot, u32::from(*desk))))
        }
        Command::Take(desk, _) => Ok(TwinAct::OnFirst(Act::Take(u32::from(*desk)))),
        Command::Flush => Ok(TwinAct::OnFirst(Act::Flush)),
    }
}
