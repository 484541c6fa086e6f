//! Workers who make packets of one element, leave them on desks and take them off.

ghost use Rattle.word_tests.specs.Carrying.{Carries};
ghost use Rattle.word_tests.specs.Idle.{Stays};

use commons::packet::{Packet, Seg};
use commons::refusal::Refusal;
use commons::shared::Commons;
use crossbeam_utils::Backoff;
use stack_lf::words::WordCommons;

/// How often a worker tries to leave a packet on a desk, or to take one off, while another is in
/// its way: for longer than a test may run, since on a loaded machine the other's thread may begin
/// late.
const TRIES: u32 = 100_000_000;

/// The most bytes of data in a buffer of 2,048 after a headroom of 128.
const MOST_DATA: u16 = 1_920;

/// A worker who carries nothing.
pub(super) fn nothing(c: &WordCommons) -> Option<Packet>
    ensures { Carries result c.now.seat }
{
    let _ = c;
    None
}

/// Makes a packet of one element, with this many bytes of data, and carries it instead of what was
/// carried. Refused `NoRoom` where the buffer has no room for that many, and as the get is; the
/// worker carries on what it had then.
pub(super) fn make(
    c: &mut WordCommons,
    carried: &mut Option<Packet>,
    len: u16,
) -> Result<(), Refusal>
    requires carries { Carries carried.old c.old.seat }
    ensures carries { Carries carried.new c.new.seat }
    ensures stays { Stays c.old.seat c.new.seat }
{
    if len > MOST_DATA {
        return Err(Refusal::NoRoom);
    }
    let mut places = [0; 1];
    c.get_list(&mut places)?;
    c.claim(places[0]);
    *carried = Some(Packet::single(Seg {
        elem: places[0],
        base: None,
        data_off: 128,
        data_len: len,
        buf_len: 2_048,
    }));
    Ok(())
}

/// Leaves the carried packet on a desk, or carries it on. Nothing is done where none is carried.
pub(super) fn offer(
    c: &mut WordCommons,
    carried: &mut Option<Packet>,
    desk: u32,
) -> Result<(), Refusal>
    requires carries { Carries carried.old c.old.seat }
    ensures carries { Carries carried.new c.new.seat }
    ensures stays { Stays c.old.seat c.new.seat }
{
    let Some(packet) = carried.take() else {
        return Ok(());
    };
    match c.offer(desk, packet) {
        Ok(()) => Ok(()),
        Err((cause, packet)) => {
            *carried = Some(packet);
            Err(cause)
        }
    }
}

/// Takes the packet off a desk, and carries it instead of what was carried; where that is refused,
/// the worker carries on what it had.
pub(super) fn take(
    c: &mut WordCommons,
    carried: &mut Option<Packet>,
    desk: u32,
) -> Result<(), Refusal>
    requires carries { Carries carried.old c.old.seat }
    ensures carries { Carries carried.new c.new.seat }
    ensures stays { Stays c.old.seat c.new.seat }
{
    let packet = c.take(desk)?;
    *carried = Some(packet);
    Ok(())
}

/// Leaves the carried packet on desk 0 once that is empty. Whether it was.
pub(super) fn offer_in_turn(c: &mut WordCommons, carried: &mut Option<Packet>) -> bool
    requires carries { Carries carried.old c.old.seat }
    ensures carries { Carries carried.new c.new.seat }
    ensures stays { Stays c.old.seat c.new.seat }
{
    let backoff = Backoff::new();
    for _ in 0..TRIES {
        if offer(c, carried, 0).is_ok() {
            return true;
        }
        backoff.snooze();
    }
    false
}

/// Takes the packet off desk 0 once there is one. Whether there was.
pub(super) fn take_in_turn(c: &mut WordCommons, carried: &mut Option<Packet>) -> bool
    requires carries { Carries carried.old c.old.seat }
    ensures carries { Carries carried.new c.new.seat }
    ensures stays { Stays c.old.seat c.new.seat }
{
    let backoff = Backoff::new();
    for _ in 0..TRIES {
        if take(c, carried, 0).is_ok() {
            return true;
        }
        backoff.snooze();
    }
    false
}
