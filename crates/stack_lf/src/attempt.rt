//! A try at a change of the words that may lose, and the loop that repeats it.

ghost use Rattle.std.specs.Prelude.{◌≡◌, ◌≢◌, ℕ, List, Option, Err, length};
ghost use Rattle.commons.specs.declared.limits.Limits.{Limits};
ghost use Rattle.step_core.specs.declared.view.Look.{Look};
ghost use Rattle.step_core.specs.declared.view.View.{View};
ghost use Rattle.ground.specs.Seats.{IsOf, Seated};
ghost use Rattle.stack_lf.specs.Tries.{Try};
ghost use Rattle.stack_lf.specs.Effects.{Ending, HasLost, IsAlone, IsOneTry, Repeats, seen_as};

use crate::tried::Tried;
use commons::refusal::Refusal;
use crossbeam_utils::Backoff;
use ground::pool::Ground;
use ground::seat::GroundSeat;

/// A change of the words that a seat tries: it reads a word, and exchanges it if it is still what
/// was read. A try that lost may be made again.
pub(crate) trait Attempt: Copy {
    /// A seat of this view may make a try, with a list of so many places to fill.
    ghost may: { Self → ℕ → View → Type 0 };

    /// What a try that loses did, in a pool of these limits.
    ghost loses: { Self → Limits → Try → Type 0 };

    /// What a try that wins, or is refused, leaves of the list and of the seat.
    ghost ends: { Self → Limits → List ℕ → Ending };

    /// Makes one try. The only seat of a pool doesn't lose it.
    fn attempt(self, ground: &Ground, seat: &mut GroundSeat, out: &mut [u32]) -> Tried
        requires of { IsOf ground.now seat.old }
        requires may { may self (length out.old) seat.old.known.view }
        ensures one { IsOneTry (loses self ground.now.limits)
            (ends self ground.now.limits out.new) result seat.old seat.new }
        ensures alone { IsAlone seat.old → result ≢ Tried.Lost };

    /// What the seat has seen of the head doesn't matter to it.
    ghost may_again: { (a : Self) (n : ℕ) (v : View) (look : Option Look) (seen : ℕ) →
        may a n v → may a n (seen_as v look seen) };
}

/// Makes the tries after a first one that lost, until one doesn't lose or as many have lost, with
/// the first one, as the limits allow. It stands apart, so that what inlines a first try stays
/// small.
#[inline(never)]
fn repeat_apart<A: Attempt>(
    ground: &Ground,
    seat: &mut GroundSeat,
    attempt: A,
    out: &mut [u32],
) -> Result<(), Refusal>
    requires of { IsOf ground.now seat.old }
    requires may { A.may attempt (length out.old) seat.old.known.view }
    ensures { (first : Seated) → HasLost (A.loses attempt ground.now.limits) 1 first seat.old →
        Repeats ground.now.limits.tries (A.loses attempt ground.now.limits)
        (A.ends attempt ground.now.limits out.new) result first seat.new }
{
    let limits = ground.limits();
    let backoff = Backoff::new();
    for _ in 1..limits.tries {
        backoff.spin();
        match attempt.attempt(ground, seat, out) {
            Tried::Won => return Ok(()),
            Tried::Refused(cause) => return Err(cause),
            Tried::Lost => {}
        }
    }
    Err(Refusal::Contended)
}

/// Makes the tries after a first one that lost, with a place of its own for the answer, which is
/// filled only there.
#[inline(always)]
fn repeat<A: Attempt>(
    ground: &Ground,
    seat: &mut GroundSeat,
    attempt: A,
    out: &mut [u32],
) -> Result<(), Refusal>
    requires of { IsOf ground.now seat.old }
    requires may { A.may attempt (length out.old) seat.old.known.view }
    ensures { (first : Seated) → HasLost (A.loses attempt ground.now.limits) 1 first seat.old →
        Repeats ground.now.limits.tries (A.loses attempt ground.now.limits)
        (A.ends attempt ground.now.limits out.new) result first seat.new }
{
    match repeat_apart(ground, seat, attempt, out) {
        Ok(()) => Ok(()),
        Err(cause) => Err(cause),
    }
}

/// Makes tries until one doesn't lose, or as many have lost as the limits allow, which is refused
/// `Contended`.
#[inline(always)]
pub(crate) fn by_tries<A: Attempt>(
    ground: &Ground,
    seat: &mut GroundSeat,
    attempt: A,
    out: &mut [u32],
) -> Result<(), Refusal>
    requires of { IsOf ground.now seat.old }
    requires may { A.may attempt (length out.old) seat.old.known.view }
    ensures ends { Repeats ground.now.limits.tries (A.loses attempt ground.now.limits)
        (A.ends attempt ground.now.limits out.new) result seat.old seat.new }
    ensures alone { IsAlone seat.old → result ≢ Err Refusal.Contended }
{
    // A pool's limits allow one try at least.
    let _limits = ground.limits();
    match attempt.attempt(ground, seat, out) {
        Tried::Won => Ok(()),
        Tried::Refused(cause) => Err(cause),
        Tried::Lost => repeat(ground, seat, attempt, out),
    }
}
