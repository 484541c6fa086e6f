//! A script, played line by line on its pools: `replay`, and what a thread does of one line.
ghost use Rattle.std.specs.Prelude.{◌≡◌, None, IfOk, IfErr, OnOk};
ghost use Rattle.mbuf.specs.Acts.{as_reply};
ghost use Rattle.script.specs.Replay.{CommandHasRoom, replies_to, end_of, new_run, all_named, played, settled_of, stands_after};
ghost use Rattle.script.specs.Settling.{ListsEachPoolOnce, ListsSoundInEach, PlacesInEach};
ghost use Rattle.script.specs.inside.Standing.{limits_in, run_of, fresh_run, stock_of};
ghost use Rattle.script.specs.Stands.{stands_in};

use crate::asking::asked;
use crate::names::{Names, Stand};
use crate::sites::Sites;
use commons::refusal::Refusal;
use mbuf::acts::{Answer, NewPacket, Reply};
use pool_statement::settled::Settled;
use script_text::commands::{Command, Line, Name, Script};
use std::alloc::{AllocError, Global};

/// The reply to each command of a script, with the number of its line, and the statement of its
/// end, or with a second pool both statements. The commands are performed in one thread, in the
/// order of the lines, on new pools.
///
/// Refused `OutOfMemory` where memory was refused, and for no other cause: a command that is
/// refused has that as its reply, and the next one goes on.
pub fn replay(alloc: Global, script: &Script) -> Result<(Vec<(u32, Reply)>, Settled), Refusal>
    ensures replies { IfOk result (λ r. r.0.items ≡ replies_to script.now.lines (new_run script.now.pools)) }
    ensures settled { IfOk result (λ r. r.1 ≡ settled_of (end_of script.now.lines (new_run script.now.pools)).stock) }
    // Above the model: no element is missing, and none is anywhere twice; no two packets stand in
    // one place; and each is sound.
    ensures once { IfOk result (λ r. ListsEachPoolOnce script.now.pools r.1) }
    ensures places { IfOk result (λ r. PlacesInEach script.now.pools r.1) }
    ensures sound { IfOk result (λ r. ListsSoundInEach script.now.pools r.1) }
    ensures memory { IfErr result (λ e. e ≡ Refusal.OutOfMemory) }
{
    let sites = Sites::make(alloc, &script.pools)?;
    play_to_end(alloc, sites, script.lines.as_slice())
}

/// The replies to all lines, and what the pools come to after them, which ends these.
fn play_to_end(
    alloc: Global,
    mut sites: Sites,
    lines: &[Line],
) -> Result<(Vec<(u32, Reply)>, Settled), Refusal>
    ensures replies { IfOk result (λ r. r.0.items ≡ replies_to lines.now (fresh_run sites)) }
    ensures settled { IfOk result (λ r. r.1 ≡ settled_of (end_of lines.now (fresh_run sites)).stock) }
    ensures once { IfOk result (λ r. ListsEachPoolOnce (limits_in (stock_of sites)) r.1) }
    ensures places { IfOk result (λ r. PlacesInEach (limits_in (stock_of sites)) r.1) }
    ensures sound { IfOk result (λ r. ListsSoundInEach (limits_in (stock_of sites)) r.1) }
    ensures memory { IfErr result (λ e. e ≡ Refusal.OutOfMemory) }
{
    match play(alloc, &mut sites, lines) {
        Ok(replies) => {
            let settled = sites.settled(alloc)?;
            Ok((replies, settled))
        }
        Err(_) => {
            sites.lose();
            Err(Refusal::OutOfMemory)
        }
    }
}

/// Performs each line in turn, and lists the replies with the lines' numbers.
pub(crate) fn play(
    alloc: Global,
    sites: &mut Sites,
    lines: &[Line],
) -> Result<Vec<(u32, Reply)>, AllocError>
    ensures replies { IfOk result (λ v. v.items ≡ replies_to lines.now (fresh_run sites.old)) }
    ensures sites { OnOk result (stock_of sites.new ≡ (end_of lines.now (fresh_run sites.old)).stock) }
    ensures limits { OnOk result (limits_in (stock_of sites.new) ≡ limits_in (stock_of sites.old)) }
{
    let mut names = Names::new(alloc);
    let mut replies = Vec::with_capacity(alloc, lines.len())?;
    for line in lines {
        let reply = perform_line(sites, &mut names, line)?;
        replies.push((line.number, reply))?;
    }
    Ok(replies)
}

/// Performs each line in turn, and keeps no reply.
pub(crate) fn play_all(alloc: Global, sites: &mut Sites, lines: &[Line]) -> Result<(), AllocError>
    ensures sites { OnOk result (stock_of sites.new ≡ (end_of lines.now (fresh_run sites.old)).stock) }
    ensures limits { OnOk result (limits_in (stock_of sites.new) ≡ limits_in (stock_of sites.old)) }
{
    let mut names = Names::new(alloc);
    for line in lines {
        play_line(sites, &mut names, line)?;
    }
    Ok(())
}

/// Performs one line, and drops its reply, which has no more room than it needs.
fn play_line<'a>(sites: &mut Sites, names: &mut Names<'a>, line: &'a Line) -> Result<(), AllocError>
    ensures run { OnOk result (run_of sites.new names.new ≡ (played line.now.worker line.now.command (run_of sites.old names.old)).1) }
    ensures limits { limits_in (stock_of sites.new) ≡ limits_in (stock_of sites.old) }
{
    match &line.command {
        Command::Bulk(_) => play_bulk(sites, names, line),
        _ => {
            let _reply = perform_line::<0>(sites, names, line)?;
            Ok(())
        }
    }
}

/// Performs one line with room for any bulk in its reply, which is dropped.
fn play_bulk<'a>(sites: &mut Sites, names: &mut Names<'a>, line: &'a Line) -> Result<(), AllocError>
    ensures run { OnOk result (run_of sites.new names.new ≡ (played line.now.worker line.now.command (run_of sites.old names.old)).1) }
    ensures limits { limits_in (stock_of sites.new) ≡ limits_in (stock_of sites.old) }
{
    let _reply: Reply = perform_line(sites, names, line)?;
    Ok(())
}

/// Lets a worker's names stand for new packets, one after another.
fn name_all<'a>(
    names: &mut Names<'a>,
    worker: u32,
    made: &'a [Name],
    packets: &[NewPacket],
) -> Result<(), AllocError>
    ensures { OnOk result (stands_in names.new ≡ all_named worker made.now packets.now (stands_in names.old)) }
{
    for index in 0..made.len().min(packets.len()) {
        names.set(
            worker,
            made[index].as_slice(),
            Stand::Packet(packets[index].slot),
        )?;
    }
    Ok(())
}

/// Keeps what a worker's names stand for, once its line has this reply. Refused where memory was
/// refused; nothing is said of the names then.
pub fn note<'a, const ROOM: usize>(
    names: &mut Names<'a>,
    line: &'a Line,
    reply: &Answer<ROOM>,
) -> Result<(), AllocError>
    ensures { OnOk result (stands_in names.new ≡ stands_after line.now.worker line.now.command (as_reply reply.now) (stands_in names.old)) }
{
    let worker = line.worker;
    match &line.command {
        Command::Alloc(name) => {
            if let Answer::Allocated(slot, _) = reply {
                names.set(worker, name.as_slice(), Stand::Packet(*slot))?;
            }
        }
        Command::Bulk(made) => {
            if let Answer::Bulk(packets) = reply {
                name_all(names, worker, made.as_slice(), packets.as_slice())?;
            }
        }
        Command::Clone(_, made) => {
            if let Answer::Cloned(slot, _) = reply {
                names.set(worker, made.as_slice(), Stand::Packet(*slot))?;
            }
        }
        Command::CloneTo(_, made) => {
            if let Answer::Cloned(slot, _) = reply {
                names.set(worker, made.as_slice(), Stand::Clone(*slot))?;
            }
        }
        Command::Take(_, made) => {
            if let Answer::Taken(slot, _, _) = reply {
                names.set(worker, made.as_slice(), Stand::Packet(*slot))?;
            }
        }
        Command::Free(name) => {
            if let Answer::Freed(_) = reply {
                names.forget(worker, name.as_slice());
            }
        }
        Command::Chain(_, tail) => {
            if let Answer::Chained(_, _) = reply {
                names.forget(worker, tail.as_slice());
            }
        }
        Command::Offer(packet, _) => {
            if let Answer::Offered = reply {
                names.forget(worker, packet.as_slice());
            }
        }
        Command::Resize(_, _)
        | Command::Attach(_, _)
        | Command::Detach(_)
        | Command::Count(_)
        | Command::Flush => {}
    }
    Ok(())
}

/// Performs one line, keeps what its names stand for, and answers with room for a bulk of `ROOM`
/// packets.
pub(crate) fn perform_line<'a, const ROOM: usize>(
    sites: &mut Sites,
    names: &mut Names<'a>,
    line: &'a Line,
) -> Result<Answer<ROOM>, AllocError>
    requires room { CommandHasRoom ROOM line.now.command }
    ensures done { IfOk result (λ r. (as_reply r, run_of sites.new names.new) ≡ played line.now.worker line.now.command (run_of sites.old names.old)) }
    ensures limits { limits_in (stock_of sites.new) ≡ limits_in (stock_of sites.old) }
{
    let act = match asked(names, line) {
        Ok(act) => act,
        Err(cause) => return Ok(Answer::Refused(cause)),
    };
    let reply = sites.perform_in(line.worker, act);
    note(names, line, &reply)?;
    Ok(reply)
}
