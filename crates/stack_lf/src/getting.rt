//! A get: a reservation, and a pop of what is reserved.

ghost use Rattle.std.specs.Prelude.{◌≡◌, ◌≢◌, ◌<◌, ◌≤◌, Err, Some, None, length, IfOk, IfSome, IfNone};
ghost use Rattle.commons.specs.Bounds.{max_population};
ghost use Rattle.commons.specs.Calls.{spent};
ghost use Rattle.ground.specs.Changing.{KnowsChanges};
ghost use Rattle.ground.specs.Seats.{IsOf, KnowsEnd};
ghost use Rattle.stack_lf.specs.Tries.{Walk, elements, IsLostReserve, IsLostCut, KnowsShort, KnowsEnough};
ghost use Rattle.stack_lf.specs.Effects.{IsAlone, start, Walked, EndsReserve, EndsCut, GetsOnWords};

use crate::attempt::{Attempt, by_tries};
use crate::tried::Tried;
use commons::limits::SPENT;
use commons::refusal::Refusal;
use ground::pool::Ground;
use ground::seat::GroundSeat;
use step_core::view::Head;

/// A reservation: takes `n` off the length, if it is still what was read.
#[derive(Clone, Copy)]
struct Reservation {
    n: u64,
}

impl Attempt for Reservation {
    ghost may = { λ a k v. 1 ≤ a.n };

    ghost loses = { λ a l. IsLostReserve a.n };

    ghost ends = { λ a l xs. EndsReserve a.n };

    #[inline(always)]
    fn attempt(self, ground: &Ground, seat: &mut GroundSeat, _out: &mut [u32]) -> Tried {
        let length = ground.load_length(seat);
        if length < self.n {
            return Tried::Refused(Refusal::NoEntries);
        }
        match ground.reserve(seat, length, self.n) {
            Ok(()) => Tried::Won,
            Err(_) => Tried::Lost,
        }
    }

    ghost may_again = { λ a k v look seen h. h };
}

/// Walks one link for each place of `out`, and lists the elements there. Answers what is next, or
/// nothing where the list ends before, as it doesn't for the only seat of a pool that has reserved
/// as many.
#[inline(always)]
fn walk(ground: &Ground, seat: &mut GroundSeat, head: Head, out: &mut [u32]) -> Option<u32>
    requires of { IsOf ground.now seat.old }
    requires look { seat.old.known.view.look ≡ Some (start head) }
    requires end { KnowsEnd seat.old.known.limits seat.old.known.view }
    requires top { head.top ≤ ground.now.limits.population }
    requires small { ground.now.limits.population ≤ max_population }
    ensures some { IfSome result (λ next. (ps : Walk) × Walked head ps next seat.old seat.new × (out.new ≡ elements ps)) }
    ensures none { IfNone result ((ps : Walk) × Walked head ps 0 seat.old seat.new × (length ps < length out.old)) }
    ensures alone { IsAlone seat.old → length out.old ≤ seat.old.known.view.credit → result ≢ None }
    ensures len { length out.new ≡ length out.old }
{
    let mut next = head.top;
    for k in 0..out.len() {
        if next == 0 {
            return None;
        }
        let element = next - 1;
        out[k] = element;
        next = ground.load_link(seat, element);
    }
    Some(next)
}

/// A pop of `n` elements from the top of the stack: loads the head, walks as many links, which
/// `out` has places for, and swings the head past them, if it is still what was read.
#[derive(Clone, Copy)]
struct Pop {
    n: u64,
}

impl Attempt for Pop {
    ghost may = { λ a k v. (1 ≤ a.n) × (k ≡ a.n) × (a.n ≤ v.credit) };

    ghost loses = { λ a l. IsLostCut a.n };

    ghost ends = { λ a l xs. EndsCut a.n xs };

    #[inline(always)]
    fn attempt(self, ground: &Ground, seat: &mut GroundSeat, out: &mut [u32]) -> Tried {
        seat.owned();
        let head = ground.load_head(seat);
        if SPENT <= head.count {
            return Tried::Refused(Refusal::HeadSpent);
        }
        match walk(ground, seat, head, out) {
            None => Tried::Lost,
            Some(next) => match ground.cut(seat, head, next) {
                Ok(()) => Tried::Won,
                Err(_) => Tried::Lost,
            },
        }
    }

    ghost may_again = { λ a k v look seen h. h };
}

/// Gets as many elements as `out` has places: reserves them, and pops them, or gives back what was
/// reserved.
#[inline(always)]
pub(crate) fn get(ground: &Ground, seat: &mut GroundSeat, out: &mut [u32]) -> Result<(), Refusal>
    requires of { IsOf ground.now seat.old }
    requires some { 1 ≤ length out.old }
    ensures got { GetsOnWords ground.now.limits.tries (length out.old) out.new result seat.old seat.new }
    ensures told { result ≡ Err Refusal.NoEntries → KnowsShort (length out.old) seat.old }
    ensures ended { result ≡ Err Refusal.HeadSpent → KnowsChanges seat.old.known spent }
    ensures enough { IfOk result (λ _. KnowsEnough (length out.old) seat.old) }
    ensures alone { IsAlone seat.old → result ≢ Err Refusal.Contended }
{
    let n = out.len() as u64;
    match by_tries(ground, seat, Reservation { n }, &mut []) {
        Err(cause) => Err(cause),
        Ok(()) => match by_tries(ground, seat, Pop { n }, out) {
            Ok(()) => Ok(()),
            Err(cause) => {
                ground.add(seat, n);
                Err(cause)
            }
        },
    }
}
