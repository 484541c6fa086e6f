//! Scripts of one or two workers on the words of a pool, in one thread.

ghost use Rattle.std.specs.Prelude.{◌≡◌, ℕ, IfSome, OnOk};
ghost use Rattle.word_tests.specs.Idle.{IsIdle};
ghost use Rattle.word_tests.specs.Ready.{IsReady};

use super::players::{FreeSeat, Player, Retired};
use super::settling::Ending;
use book::settling::Unsettled;
use commons::limits::Limits;
use commons::refusal::Refusal;
use ground::pool::Ground;
use mbuf::acts::{Act, Reply};
use pool_statement::statement::Statement;
use script::asking::asked;
use script::names::Names;
use script::playing::note;
use script_text::commands::{Line, Script};
use std::alloc::{AllocError, Global};
use std::test::Fail;
use twin_acts::acts::TwinAct;

/// The replies to a script, and the statement of its end or why there is none.
pub(super) type Played = (Vec<Reply>, Result<Statement, Unsettled>);

/// What a line asks of a pool alone, or why it is refused.
fn act_of<'a>(names: &Names<'a>, line: &'a Line) -> Result<Act, Refusal> {
    match asked(names, line)? {
        TwinAct::OnFirst(act) => Ok(act),
        _ => Err(Refusal::Foreign),
    }
}

/// Plays the lines of the worker of this number, where their names stand for packets.
pub(super) fn play_own<'a>(
    ground: &Ground,
    names: &mut Names<'a>,
    lines: &'a [Line],
    player: &mut Player,
    number: u32,
) -> Result<(), AllocError>
    requires ready { IsReady ground.now player.old.c.seat player.old.packets }
    ensures ready { IsReady ground.now player.new.c.seat player.new.packets }
{
    let _ = ground;
    for line in lines {
        if line.worker != number {
            continue;
        }
        let Ok(act) = act_of(names, line) else {
            continue;
        };
        let reply = player.act(act);
        note(names, line, &reply)?;
    }
    Ok(())
}

/// Lets the worker of a line do what the line asks for.
fn play_line<'a>(
    ground: &Ground,
    names: &Names<'a>,
    line: &'a Line,
    first: &mut Player,
    second: &mut Option<Player>,
) -> Reply
    requires first { IsReady ground.now first.old.c.seat first.old.packets }
    requires second { IfSome second.old (λ p. IsReady ground.now p.c.seat p.packets) }
    ensures first { IsReady ground.now first.new.c.seat first.new.packets }
    ensures second { IfSome second.new (λ p. IsReady ground.now p.c.seat p.packets) }
{
    let act = match act_of(names, line) {
        Ok(act) => act,
        Err(cause) => return Reply::Refused(cause),
    };
    if line.worker == 1 {
        return first.act(act);
    }
    match second {
        Some(second) => second.act(act),
        None => Reply::Refused(Refusal::StrangerShare),
    }
}

/// Plays the lines, and lists the replies.
fn play_all(
    alloc: Global,
    ground: &Ground,
    lines: &[Line],
    first: &mut Player,
    second: &mut Option<Player>,
) -> Result<Vec<Reply>, Fail>
    requires first { IsReady ground.now first.old.c.seat first.old.packets }
    requires second { IfSome second.old (λ p. IsReady ground.now p.c.seat p.packets) }
    ensures first { OnOk result (IsReady ground.now first.new.c.seat first.new.packets) }
    ensures second { OnOk result (IfSome second.new (λ p. IsReady ground.now p.c.seat p.packets)) }
{
    let mut names = Names::new(alloc);
    let mut replies = Vec::new(alloc);
    for line in lines {
        let reply = play_line(ground, &names, line, first, second);
        note(&mut names, line, &reply)?;
        replies.push(reply)?;
    }
    Ok(replies)
}

/// Ends the acts of one worker, or of two.
fn retire(ground: &Ground, first: Player, second: Option<Player>) -> (Retired, Option<Retired>)
    requires first { IsReady ground.now first.c.seat first.packets }
    requires second { IfSome second (λ p. IsReady ground.now p.c.seat p.packets) }
    ensures first { IsIdle ground.now result.0.seat }
    ensures second { IfSome result.1 (λ other. IsIdle ground.now other.seat) }
{
    match second {
        Some(second) => (first.retire(), Some(second.retire())),
        None => (first.retire(), None),
    }
}

/// Plays a script whose pool has one worker, or two.
pub(super) fn play(alloc: Global, script: &Script) -> Result<Played, Fail> {
    let limits = &script.pools.first;
    let (ground, seat) = Ground::make(alloc, limits)?;
    let mut first = FreeSeat { seat };
    let second = if limits.workers == 2 {
        Some(FreeSeat {
            seat: ground.split(&mut first.seat),
        })
    } else {
        None
    };
    let mut first = Player::make(alloc, &ground, first, 1)?;
    let mut second = match second {
        Some(free) => Some(Player::make(alloc, &ground, free, 2)?),
        None => None,
    };
    let replies = play_all(
        alloc,
        &ground,
        script.lines.as_slice(),
        &mut first,
        &mut second,
    )?;
    let (first, second) = retire(&ground, first, second);
    let mut ending = Ending::begin(alloc, limits, first)?;
    if let Some(second) = second {
        ending.add(&ground, second);
    }
    let end = ending.settle(alloc, ground)?;
    Ok((replies, end))
}
