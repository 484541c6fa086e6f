//! The lines that answer commands.
ghost use Rattle.std.specs.Prelude.{◌≡◌, ◌++◌, codes, decimal, IfErr, OnOk};
ghost use Rattle.commons.specs.Refusals.{name_of, number_of};
ghost use Rattle.mbuf.specs.Acts.{as_reply};
ghost use Rattle.script.specs.ReplyText.{new_elements_text, freed_text, put_off_text, put_text, reply_line, reply_text};
ghost use Rattle.element_text.specs.Elements.{joined};

use commons::refusal::Refusal;
use element_text::{write_joined, write_number};
use mbuf::acts::{Answer, NewPacket};
use mbuf::freed::Freed;
use mempool::put::Put;
use std::alloc::AllocError;

/// Appends the line that answers the command of the line `number`.
///
/// Refused `OutOfMemory` where there is no room for it; part of the line may then be written.
pub fn push_reply<const ROOM: usize>(
    out: &mut Vec<u8>,
    number: u32,
    reply: &Answer<ROOM>,
) -> Result<(), Refusal>
    ensures text { OnOk result (out.new.items ≡ out.old.items ++ reply_line number (as_reply reply.now)) }
    ensures memory { IfErr result (λ e. e ≡ Refusal.OutOfMemory) }
{
    match write_line(out, number, reply) {
        Ok(()) => Ok(()),
        Err(_) => Err(Refusal::OutOfMemory),
    }
}

#[tactic(auto, unfolding(crate::specs::ReplyText::reply_line))]
fn write_line<const ROOM: usize>(
    out: &mut Vec<u8>,
    number: u32,
    reply: &Answer<ROOM>,
) -> Result<(), AllocError>
    ensures { OnOk result (out.new.items ≡ out.old.items ++ reply_line number (as_reply reply.now)) }
{
    write_number(out, b"", number)?;
    out.extend_from_slice(b": ")?;
    write_reply(out, reply)?;
    out.extend_from_slice(b"\n")
}

#[tactic(auto, unfolding(crate::specs::ReplyText::reply_text))]
fn write_reply<const ROOM: usize>(out: &mut Vec<u8>, reply: &Answer<ROOM>) -> Result<(), AllocError>
    ensures { OnOk result (out.new.items ≡ out.old.items ++ reply_text (as_reply reply.now)) }
{
    match reply {
        Answer::Allocated(_, elem) => write_number(out, b"ok ", *elem),
        Answer::Bulk(packets) => write_bulk(out, packets.as_slice()),
        Answer::Freed(freed) => write_freed(out, *freed),
        Answer::Attached => out.extend_from_slice(b"ok"),
        Answer::Cloned(_, elems) => write_cloned(out, elems.as_slice()),
        Answer::Offered => out.extend_from_slice(b"ok"),
        Answer::Taken(_, segs, len) => write_pair(out, *segs, *len),
        Answer::Count(count) => write_number(out, b"ok ", *count),
        Answer::Len(len) => write_number(out, b"ok ", *len),
        Answer::Segs(segs) => write_number(out, b"ok ", *segs),
        Answer::Chained(segs, len) => write_pair(out, *segs, *len),
        Answer::Put(put) => write_put(out, *put),
        Answer::Refused(refusal) => write_refused(out, *refusal),
    }
}

/// How many segments there are, and how many bytes of data.
fn write_pair(out: &mut Vec<u8>, segs: u32, len: u32) -> Result<(), AllocError>
    ensures { OnOk result (out.new.items ≡ out.old.items ++ codes "ok " ++ decimal segs ++ codes " " ++ decimal len) }
{
    write_number(out, b"ok ", segs)?;
    write_number(out, b" ", len)
}

/// A refusal's number and name.
fn write_refused(out: &mut Vec<u8>, refusal: Refusal) -> Result<(), AllocError>
    ensures { OnOk result (out.new.items ≡ out.old.items ++ codes "refused " ++ decimal (number_of refusal) ++ codes " " ++ name_of refusal) }
{
    write_number(out, b"refused ", refusal.number())?;
    write_name(out, refusal)
}

/// A refusal's name after a space.
fn write_name(out: &mut Vec<u8>, refusal: Refusal) -> Result<(), AllocError>
    ensures { OnOk result (out.new.items ≡ out.old.items ++ codes " " ++ name_of refusal) }
{
    out.extend_from_slice(b" ")?;
    out.extend_from_slice(refusal.name().as_bytes())
}

/// The elements of new packets.
fn write_bulk(out: &mut Vec<u8>, packets: &[NewPacket]) -> Result<(), AllocError>
    ensures { OnOk result (out.new.items ≡ out.old.items ++ codes "ok" ++ new_elements_text packets.now) }
{
    out.extend_from_slice(b"ok")?;
    for packet in packets {
        write_number(out, b" ", packet.elem)?;
    }
    Ok(())
}

/// The elements of a clone.
fn write_cloned(out: &mut Vec<u8>, elems: &[u32]) -> Result<(), AllocError>
    ensures { OnOk result (out.new.items ≡ out.old.items ++ codes "ok" ++ joined decimal elems.now) }
{
    out.extend_from_slice(b"ok")?;
    write_joined(out, elems)
}

#[tactic(auto, unfolding(crate::specs::ReplyText::freed_text))]
fn write_freed(out: &mut Vec<u8>, freed: Freed) -> Result<(), AllocError>
    ensures { OnOk result (out.new.items ≡ out.old.items ++ freed_text freed) }
{
    write_number(out, b"ok back ", freed.back)?;
    write_number(out, b" flushed ", freed.flushed)?;
    write_put_off(out, freed.put_off)
}

/// What a flush did.
#[tactic(auto, unfolding(crate::specs::ReplyText::put_text))]
fn write_put(out: &mut Vec<u8>, put: Put) -> Result<(), AllocError>
    ensures { OnOk result (out.new.items ≡ out.old.items ++ put_text put) }
{
    match put {
        Put::Kept => out.extend_from_slice(b"ok kept"),
        Put::Flushed(count) => write_number(out, b"ok flushed ", count),
        Put::PutOff(count, refusal) => {
            write_number(out, b"ok putoff ", count)?;
            write_name(out, refusal)
        }
    }
}

/// The last push that was refused, and why.
#[tactic(auto, unfolding(crate::specs::ReplyText::put_off_text))]
fn write_put_off(out: &mut Vec<u8>, put_off: Option<(u32, Refusal)>) -> Result<(), AllocError>
    ensures { OnOk result (out.new.items ≡ out.old.items ++ put_off_text put_off) }
{
    match put_off {
        Some((count, refusal)) => {
            write_number(out, b" putoff ", count)?;
            write_name(out, refusal)
        }
        None => Ok(()),
    }
}
