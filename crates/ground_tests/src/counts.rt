//! Each step of the counts as a player takes it: it asks its own view whether the step's condition
//! holds, makes room for what may come, calls the ground, and moves the view as the step says.

ghost use Rattle.std.specs.Prelude.{◌≡◌};
ghost use Rattle.step_core.specs.declared.step.Step.TheVariants.{Claim, Sole, Raise, Lower, Reset};
ghost use Rattle.ground.specs.Seats.{IsOf};
ghost use Rattle.ground_tests.specs.Playing.{Plays, ViewMoves};

use commons::refusal::Refusal;
use ground::pool::Ground;
use ground::seat::GroundSeat;
use step_core::step::Outcome;
use step_core::view::View;

/// Reads the count of an element of the hand, and holds it.
pub(crate) fn claim(
    ground: &Ground,
    seat: &mut GroundSeat,
    view: &mut View,
    element: u64,
) -> Result<Outcome, Refusal>
    requires of { IsOf ground.now seat.old }
    requires same { view.old ≡ seat.old.known.view }
    ensures plays { Plays (Claim element) result seat.old seat.new }
    ensures moves { ViewMoves (Claim element) result view.old view.new }
{
    let Some(known) = view.hand.find(element) else {
        return Err(Refusal::StepRefused);
    };
    if view.claim(known).is_err() {
        return Err(Refusal::OutOfMemory);
    }
    ground.claim(seat, known);
    Ok(Outcome::Value(1))
}

/// Reads the count of an element held; where `free` and it is 1, the element goes back into the
/// hand.
pub(crate) fn sole(
    ground: &Ground,
    seat: &mut GroundSeat,
    view: &mut View,
    element: u64,
    free: bool,
) -> Result<Outcome, Refusal>
    requires of { IsOf ground.now seat.old }
    requires same { view.old ≡ seat.old.known.view }
    ensures plays { Plays (Sole element free) result seat.old seat.new }
    ensures moves { ViewMoves (Sole element free) result view.old view.new }
{
    let Some(known) = view.holds.find(element) else {
        return Err(Refusal::StepRefused);
    };
    let before = view.hand.len();
    if view.hand.push(known).is_err() {
        return Err(Refusal::OutOfMemory);
    }
    let count = ground.sole(seat, known, free);
    if free && count == 1 {
        view.holds.take_out(known);
        view.headers.keep_held(&view.holds);
    } else {
        view.hand.truncate(before);
    }
    Ok(Outcome::Value(count))
}

/// Raises the count of an element held from `old`, if it is `old`.
pub(crate) fn raise(
    ground: &Ground,
    seat: &mut GroundSeat,
    view: &mut View,
    element: u64,
    old: u64,
) -> Result<Outcome, Refusal>
    requires of { IsOf ground.now seat.old }
    requires same { view.old ≡ seat.old.known.view }
    ensures plays { Plays (Raise element old) result seat.old seat.new }
    ensures moves { ViewMoves (Raise element old) result view.old view.new }
{
    if old >= ground.limits().ref_limit {
        return Err(Refusal::StepRefused);
    }
    let Some(known) = view.holds.find(element) else {
        return Err(Refusal::StepRefused);
    };
    let before = view.holds.len();
    if view.holds.push(known).is_err() {
        return Err(Refusal::OutOfMemory);
    }
    match ground.raise(seat, known, old) {
        Ok(()) => Ok(Outcome::Won),
        Err(found) => {
            view.holds.truncate(before);
            Ok(Outcome::Lost(found))
        }
    }
}

/// Lowers the count of an element held.
pub(crate) fn lower(
    ground: &Ground,
    seat: &mut GroundSeat,
    view: &mut View,
    element: u64,
) -> Result<Outcome, Refusal>
    requires of { IsOf ground.now seat.old }
    requires same { view.old ≡ seat.old.known.view }
    ensures plays { Plays (Lower element) result seat.old seat.new }
    ensures moves { ViewMoves (Lower element) result view.old view.new }
{
    let Some(known) = view.holds.find(element) else {
        return Err(Refusal::StepRefused);
    };
    let before = view.zeros.len();
    if view.zeros.push(known).is_err() {
        return Err(Refusal::OutOfMemory);
    }
    let count = ground.lower(seat, known);
    if count != 1 {
        view.zeros.truncate(before);
    }
    view.holds.take_out(known);
    view.headers.keep_held(&view.holds);
    Ok(Outcome::Value(count))
}

/// Sets the count of an element of the hand, 0 for the moment, to 1.
pub(crate) fn reset(
    ground: &Ground,
    seat: &mut GroundSeat,
    view: &mut View,
    element: u64,
) -> Result<Outcome, Refusal>
    requires of { IsOf ground.now seat.old }
    requires same { view.old ≡ seat.old.known.view }
    ensures plays { Plays (Reset element) result seat.old seat.new }
    ensures moves { ViewMoves (Reset element) result view.old view.new }
{
    let Some(known) = view.zeros.find(element) else {
        return Err(Refusal::StepRefused);
    };
    if view.reset(known).is_err() {
        return Err(Refusal::OutOfMemory);
    }
    ground.reset(seat, known);
    Ok(Outcome::Done)
}
