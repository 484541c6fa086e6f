//! What plays a worker's lines, wherever the worker acts.

ghost use Rattle.std.specs.Prelude.{◌≤◌};
ghost use Rattle.mbuf.specs.Members.{slots};
ghost use Rattle.script.specs.Replay.{CommandHasRoom};
ghost use Rattle.twin_acts.specs.TwinActs.{HasTwinRoom};

use crate::asking::asked;
use crate::gate::Gate;
use crate::names::Names;
use crate::playing::note;
use commons::refusal::Refusal;
use crossbeam_utils::Backoff;
use mbuf::acts::Answer;
use mbuf::packets::SLOTS;
use script_text::commands::{Command, Line};
use std::alloc::{AllocError, Global};
use twin_acts::acts::TwinAct;

/// A worker of a pool, or of two, `P`.
pub(crate) trait Worker<P> {
    /// It is a worker of this pool.
    ghost acts_for: { P → Self → Type 0 };

    /// The second is the first one, later.
    ghost stays: { Self → Self → Type 0 };
}

/// A worker that acts on `P`, and answers with room for a bulk of `ROOM` packets.
pub(crate) trait Actor<P, const ROOM: usize>: Worker<P> {
    /// Lets the worker do this, beside others. On a pool alone an act on a foreign clone is refused
    /// `Foreign`.
    fn act_in(&mut self, pool: &P, act: TwinAct) -> Answer<ROOM>
        requires room { HasTwinRoom ROOM act }
        requires of { Self.acts_for pool.now self.old }
        ensures of { Self.acts_for pool.now self.new }
        ensures stays { (first : Self) → Self.stays first self.old → Self.stays first self.new };
}

/// Performs the lines of the worker of this number in order, and calls the gate before and after
/// each. False where memory was refused.
pub(crate) fn perform_lines<P, A: Actor<P, 0> + Actor<P, SLOTS>, G: Gate>(
    alloc: Global,
    pool: &P,
    actor: &mut A,
    lines: &[Line],
    worker: u32,
    turns: u32,
    gate: &G,
) -> bool
    requires turns { 1 ≤ turns }
    requires of { A.acts_for pool.now actor.old }
    ensures stays { (first : A) → A.stays first actor.old → A.stays first actor.new }
{
    let mut names = Names::new(alloc);
    let mut nth = 0u32;
    for line in lines {
        if line.worker != worker {
            continue;
        }
        nth = nth.saturating_add(1);
        if perform_line(pool, actor, &mut names, line, nth, turns, gate).is_err() {
            return false;
        }
    }
    true
}

/// Performs a line, which is its worker's `nth`, and keeps what its names stand for. The
/// gate is called before its first try and after its last.
fn perform_line<'a, P, A: Actor<P, 0> + Actor<P, SLOTS>, G: Gate>(
    pool: &P,
    actor: &mut A,
    names: &mut Names<'a>,
    line: &'a Line,
    nth: u32,
    turns: u32,
    gate: &G,
) -> Result<(), AllocError>
    requires turns { 1 ≤ turns }
    requires of { A.acts_for pool.now actor.old }
    ensures of { A.acts_for pool.now actor.new }
    ensures stays { (first : A) → A.stays first actor.old → A.stays first actor.new }
{
    match &line.command {
        Command::Bulk(_) => {
            perform_line_in::<P, A, G, SLOTS>(pool, actor, names, line, nth, turns, gate)
        }
        _ => perform_line_in::<P, A, G, 0>(pool, actor, names, line, nth, turns, gate),
    }
}

/// Performs a line with room for a bulk of `ROOM` packets in the answer, which is small with none.
fn perform_line_in<'a, P, A: Actor<P, ROOM>, G: Gate, const ROOM: usize>(
    pool: &P,
    actor: &mut A,
    names: &mut Names<'a>,
    line: &'a Line,
    nth: u32,
    turns: u32,
    gate: &G,
) -> Result<(), AllocError>
    requires few { ROOM ≤ slots }
    requires room { CommandHasRoom ROOM line.now.command }
    requires turns { 1 ≤ turns }
    requires of { A.acts_for pool.now actor.old }
    ensures of { A.acts_for pool.now actor.new }
    ensures stays { (first : A) → A.stays first actor.old → A.stays first actor.new }
{
    gate.before(line.worker, nth);
    let reply: Answer<ROOM> = try_line(pool, actor, names, line, turns);
    gate.after(line.worker, nth);
    note(names, line, &reply)
}

/// Performs a line by what its worker's names stand for.
fn try_line<'a, P, A: Actor<P, ROOM>, const ROOM: usize>(
    pool: &P,
    actor: &mut A,
    names: &Names<'a>,
    line: &'a Line,
    turns: u32,
) -> Answer<ROOM>
    requires room { CommandHasRoom ROOM line.now.command }
    requires turns { 1 ≤ turns }
    requires of { A.acts_for pool.now actor.old }
    ensures of { A.acts_for pool.now actor.new }
    ensures stays { (first : A) → A.stays first actor.old → A.stays first actor.new }
{
    match asked(names, line) {
        Ok(act) => try_act(pool, actor, act, turns),
        Err(cause) => Answer::Refused(cause),
    }
}

/// Lets a worker do this, and tries again where others were in the way, up to `turns` tries in
/// all, with a growing pause between.
fn try_act<P, A: Actor<P, ROOM>, const ROOM: usize>(
    pool: &P,
    actor: &mut A,
    act: TwinAct,
    turns: u32,
) -> Answer<ROOM>
    requires room { HasTwinRoom ROOM act }
    requires turns { 1 ≤ turns }
    requires of { A.acts_for pool.now actor.old }
    ensures of { A.acts_for pool.now actor.new }
    ensures stays { (first : A) → A.stays first actor.old → A.stays first actor.new }
{
    let backoff = Backoff::new();
    for _ in 1..turns {
        let reply = actor.act_in(pool, act);
        match reply {
            Answer::Refused(Refusal::Contended | Refusal::DeskTaken | Refusal::DeskEmpty) => {
                backoff.snooze();
            }
            _ => return reply,
        }
    }
    actor.act_in(pool, act)
}
