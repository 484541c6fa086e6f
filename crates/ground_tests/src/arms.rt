//! Each step of the stack as a player takes it: it asks its own view whether the step's condition
//! holds, calls the ground, and moves the view as the step says.

ghost use Rattle.std.specs.Prelude.{◌≡◌, ◌≤◌, ◌<◌, IfSome, length};
ghost use Rattle.commons.specs.Bounds.{max_population};
ghost use Rattle.step_core.specs.Views.{LinkOf};
ghost use Rattle.step_core.specs.declared.step.Step.TheVariants.{LoadLength, Reserve, Add, LoadHead, LoadLink, Cut, StoreLink, Push};
ghost use Rattle.ground.specs.Seats.{IsOf};
ghost use Rattle.ground_tests.specs.Playing.{IsInPool, Plays, ViewMoves};

use commons::refusal::Refusal;
use ground::pool::Ground;
use ground::seat::GroundSeat;
use std::alloc::Global;
use step_core::elems::Elems;
use step_core::step::Outcome;
use step_core::view::{Look, View};

/// Reads the length word.
pub(crate) fn load_length(
    ground: &Ground,
    seat: &mut GroundSeat,
    view: &mut View,
) -> Result<Outcome, Refusal>
    requires of { IsOf ground.now seat.old }
    requires same { view.old ≡ seat.old.known.view }
    ensures plays { Plays LoadLength result seat.old seat.new }
    ensures moves { ViewMoves LoadLength result view.old view.new }
{
    Ok(Outcome::Value(ground.load_length(seat)))
}

/// Lowers the length word from `old` by `n`, if it is `old`. Refused too where the credit would
/// pass 64 bits, which it never does, since it is at most the population.
pub(crate) fn reserve(
    ground: &Ground,
    seat: &mut GroundSeat,
    view: &mut View,
    old: u64,
    n: u64,
) -> Result<Outcome, Refusal>
    requires of { IsOf ground.now seat.old }
    requires same { view.old ≡ seat.old.known.view }
    ensures plays { Plays (Reserve old n) result seat.old seat.new }
    ensures moves { ViewMoves (Reserve old n) result view.old view.new }
{
    if n < 1 || n > old || n > u64::MAX - view.credit {
        return Err(Refusal::StepRefused);
    }
    match ground.reserve(seat, old, n) {
        Ok(()) => {
            view.credit += n;
            Ok(Outcome::Won)
        }
        Err(found) => Ok(Outcome::Lost(found)),
    }
}

/// Raises the length word by `n`.
pub(crate) fn add(
    ground: &Ground,
    seat: &mut GroundSeat,
    view: &mut View,
    n: u64,
) -> Result<Outcome, Refusal>
    requires of { IsOf ground.now seat.old }
    requires same { view.old ≡ seat.old.known.view }
    ensures plays { Plays (Add n) result seat.old seat.new }
    ensures moves { ViewMoves (Add n) result view.old view.new }
{
    if n < 1 || n > view.credit {
        return Err(Refusal::StepRefused);
    }
    ground.add(seat, n);
    view.credit -= n;
    Ok(Outcome::Done)
}

/// Reads the head.
pub(crate) fn load_head(
    ground: &Ground,
    seat: &mut GroundSeat,
    view: &mut View,
    alloc: Global,
) -> Result<Outcome, Refusal>
    requires of { IsOf ground.now seat.old }
    requires same { view.old ≡ seat.old.known.view }
    ensures plays { Plays LoadHead result seat.old seat.new }
    ensures moves { ViewMoves LoadHead result view.old view.new }
{
    let head = ground.load_head(seat);
    view.look = Some(Look {
        head,
        front: Elems::new(alloc),
        next: head.top,
    });
    view.seen = head.count;
    Ok(Outcome::HeadIs(head))
}

/// Reads the link of the next element of the walk.
pub(crate) fn load_link(
    ground: &Ground,
    seat: &mut GroundSeat,
    view: &mut View,
    element: u64,
) -> Result<Outcome, Refusal>
    requires of { IsOf ground.now seat.old }
    requires same { view.old ≡ seat.old.known.view }
    ensures plays { Plays (LoadLink element) result seat.old seat.new }
    ensures moves { ViewMoves (LoadLink element) result view.old view.new }
{
    if element >= ground.limits().population || !view.walks_to(element) {
        return Err(Refusal::StepRefused);
    }
    let known = element as u32;
    if view.walk_on(known, 0).is_err() {
        return Err(Refusal::OutOfMemory);
    }
    let link = ground.load_link(seat, known);
    if let Some(look) = &mut view.look {
        look.next = link;
    }
    Ok(Outcome::Value(u64::from(link)))
}

/// Swings the head from the look's head to what follows the walk.
pub(crate) fn cut(
    ground: &Ground,
    seat: &mut GroundSeat,
    view: &mut View,
) -> Result<Outcome, Refusal>
    requires of { IsOf ground.now seat.old }
    requires same { view.old ≡ seat.old.known.view }
    ensures plays { Plays Cut result seat.old seat.new }
    ensures moves { ViewMoves Cut result view.old view.new }
{
    let Some((head, next)) = view.cut_expected() else {
        return Err(Refusal::StepRefused);
    };
    let Some(look) = view.look.take() else {
        return Err(Refusal::StepRefused);
    };
    let before = view.hand.len();
    if view.hand.extend(look.front.as_slice()).is_err() {
        view.look = Some(look);
        return Err(Refusal::OutOfMemory);
    }
    match ground.cut(seat, head, next) {
        Ok(()) => {
            let Look { front, .. } = look;
            view.credit -= front.len() as u64;
            view.seen = head.count + 1;
            Ok(Outcome::Got(front))
        }
        Err(found) => {
            view.hand.truncate(before);
            view.seen = found.count;
            Ok(Outcome::LostTo(found))
        }
    }
}

/// The link value of an element, or of none, if it is of a pool of this many elements.
fn link_value(population: u64, next: Option<u64>) -> Option<u32>
    requires { population ≤ max_population }
    ensures { LinkOf population next result }
{
    match next {
        None => Some(0),
        Some(element) if element < population => Some(element as u32 + 1),
        Some(_) => None,
    }
}

/// Writes the link of an element of the hand.
pub(crate) fn store_link(
    ground: &Ground,
    seat: &mut GroundSeat,
    view: &mut View,
    alloc: Global,
    element: u64,
    next: Option<u64>,
) -> Result<Outcome, Refusal>
    requires of { IsOf ground.now seat.old }
    requires same { view.old ≡ seat.old.known.view }
    requires in_pool { IsInPool view.old }
    ensures plays { Plays (StoreLink element next) result seat.old seat.new }
    ensures moves { ViewMoves (StoreLink element next) result view.old view.new }
{
    let population = ground.limits().population;
    let Some(link) = link_value(population, next) else {
        return Err(Refusal::StepRefused);
    };
    if element >= population {
        return Err(Refusal::StepRefused);
    }
    let Some(known) = view.hand.find(element) else {
        return Err(Refusal::StepRefused);
    };
    if view.link(alloc, known, link).is_err() {
        return Err(Refusal::OutOfMemory);
    }
    ground.store_link(seat, known, link);
    Ok(Outcome::Done)
}

/// How many elements are chained.
fn chained(view: &View) -> u64
    ensures { IfSome view.now.chain (λ c. result ≡ length c.items) }
{
    match &view.chain {
        None => 0,
        Some(chain) => chain.items.len() as u64,
    }
}

/// Swings the head from the look's head to the chain's first element. Refused too where the credit
/// would pass 64 bits, which it never does.
pub(crate) fn push(
    ground: &Ground,
    seat: &mut GroundSeat,
    view: &mut View,
) -> Result<Outcome, Refusal>
    requires of { IsOf ground.now seat.old }
    requires same { view.old ≡ seat.old.known.view }
    requires in_pool { IsInPool view.old }
    ensures plays { Plays Push result seat.old seat.new }
    ensures moves { ViewMoves Push result view.old view.new }
{
    let Some((head, first)) = view.push_expected() else {
        return Err(Refusal::StepRefused);
    };
    if chained(view) > u64::MAX - view.credit {
        return Err(Refusal::StepRefused);
    }
    match ground.push(seat, head, first) {
        Ok(()) => {
            view.win_push(head.count + 1);
            Ok(Outcome::Won)
        }
        Err(found) => {
            view.lose_push(found.count);
            Ok(Outcome::LostTo(found))
        }
    }
}
