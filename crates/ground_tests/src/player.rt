//! A player: a seat of a ground, and the view that its contract says it has.

ghost use Rattle.std.specs.Prelude.{◌≡◌, ◌*◌, ◌<◌, ◌≤◌, [], IfOk, IfSome, IsTrue, OnOk, OnErr};
ghost use Rattle.std.proofs.Props.{props};
ghost use Rattle.commons.specs.Bag.{bag};
ghost use Rattle.step_core.specs.World.{empty_view, worker_part};
ghost use Rattle.ground.specs.Parting.{both_views, loan_of};
ghost use Rattle.ground.specs.Own.{AtRest};
ghost use Rattle.ground.specs.Seats.{IsOf};
ghost use Rattle.ground_tests.specs.Playing.{IsInPool, Plays, Mirrors, IsOfSeat};

use crate::sees::Sees;
use crate::{arms, counts, desks};
use commons::closed::Closed;
use commons::limits::Limits;
use commons::packet::Packet;
use commons::refusal::Refusal;
use ground::pool::Ground;
use ground::seat::GroundSeat;
use std::alloc::{AllocError, Global};
use step_core::elems::Elems;
use step_core::step::{Outcome, Step};
use step_core::view::{View, WORKER_PART};

/// A seat with its view at run time, which is what the seat knows, and a copy of the packet in its
/// slot. While it has seized a desk, the view is that before the seizure. It can't be dropped.
pub struct Player {
    pub(crate) seat: GroundSeat,
    pub(crate) view: View,
    pub(crate) slot: Option<Packet>,
    pub(crate) sees: Sees,
    pub(crate) alloc: Global,
    pub ghost seen: { IsOfSeat sees view slot seat } by { Prim.hlevel props },
    pub ghost in_pool: { IsInPool view } by { Prim.hlevel props },
}

/// A view that names nothing.
fn empty_view(alloc: Global, part: u64) -> View
    ensures { result ≡ empty_view part }
{
    View {
        hand: Elems::new(alloc),
        zeros: Elems::new(alloc),
        holds: Elems::new(alloc),
        headers: Elems::new(alloc),
        credit: 0,
        look: None,
        seen: 0,
        chain: None,
        work: None,
        part,
    }
}

/// Plays a step on a word of the stack or of the counts where the view says that its condition
/// holds. Every other is refused.
fn play_word(
    ground: &Ground,
    seat: &mut GroundSeat,
    view: &mut View,
    alloc: Global,
    step: &Step,
) -> Result<Outcome, Refusal>
    requires of { IsOf ground.now seat.old }
    requires same { view.old ≡ seat.old.known.view }
    requires in_pool { IsInPool view.old }
    ensures plays { Plays step.now result seat.old seat.new }
    ensures same { view.new ≡ seat.new.known.view }
    ensures work { view.new.work ≡ view.old.work }
    ensures slots { seat.new.slots ≡ seat.old.slots }
    ensures in_pool { IsInPool view.new }
{
    match step {
        Step::LoadLength => arms::load_length(ground, seat, view),
        Step::Reserve { old, n } => arms::reserve(ground, seat, view, *old, *n),
        Step::Add { n } => arms::add(ground, seat, view, *n),
        Step::LoadHead => arms::load_head(ground, seat, view, alloc),
        Step::LoadLink { element } => arms::load_link(ground, seat, view, *element),
        Step::Cut => arms::cut(ground, seat, view),
        Step::StoreLink { element, next } => arms::store_link(
            ground, seat, view, alloc, *element, *next,
        ),
        Step::Push => arms::push(ground, seat, view),
        Step::Claim { element } => counts::claim(ground, seat, view, *element),
        Step::Sole { element, free } => counts::sole(ground, seat, view, *element, *free),
        Step::Raise { element, old } => counts::raise(ground, seat, view, *element, *old),
        Step::Lower { element } => counts::lower(ground, seat, view, *element),
        Step::Reset { element } => counts::reset(ground, seat, view, *element),
        Step::Hold { .. }
        | Step::PutIn { .. }
        | Step::Open { .. }
        | Step::Seize { .. }
        | Step::TakeOut { .. }
        | Step::Clear { .. } => Err(Refusal::StepRefused),
    }
}

/// Plays a step where the player sees all.
fn play_seen(
    ground: &Ground,
    seat: &mut GroundSeat,
    view: &mut View,
    slot: &mut Option<Packet>,
    sees: &mut Sees,
    alloc: Global,
    step: &Step,
) -> Result<Outcome, Refusal>
    requires of { IsOf ground.now seat.old }
    requires same { Mirrors view.old slot.old seat.old }
    requires all { sees.old ≡ Sees.All }
    requires in_pool { IsInPool view.old }
    ensures plays { Plays step.now result seat.old seat.new }
    ensures seen { IsOfSeat sees.new view.new slot.new seat.new }
    ensures in_pool { IsInPool view.new }
{
    match step {
        Step::Hold { desk } => desks::hold(ground, seat, view, slot, *desk),
        Step::PutIn { desk, packet } => desks::put_in(ground, seat, view, slot, *desk, packet),
        Step::Open { desk } => desks::open(ground, seat, view, slot, *desk),
        Step::Seize { desk } => desks::seize(ground, seat, view, slot, sees, *desk),
        Step::Clear { desk } => desks::clear(ground, seat, view, slot, *desk),
        _ => play_word(ground, seat, view, alloc, step),
    }
}

/// Plays a step, by what the player sees: once it has seized a desk, it takes the packet out.
fn play(
    ground: &Ground,
    seat: &mut GroundSeat,
    view: &mut View,
    slot: &mut Option<Packet>,
    sees: &mut Sees,
    alloc: Global,
    step: &Step,
) -> Result<Outcome, Refusal>
    requires of { IsOf ground.now seat.old }
    requires seen { IsOfSeat sees.old view.old slot.old seat.old }
    requires in_pool { IsInPool view.old }
    ensures plays { Plays step.now result seat.old seat.new }
    ensures seen { IsOfSeat sees.new view.new slot.new seat.new }
    ensures in_pool { IsInPool view.new }
{
    match desks::see(view, slot, sees)? {
        None => play_seen(ground, seat, view, slot, sees, alloc, step),
        Some(seized) => match step {
            Step::TakeOut { desk } => {
                if *desk == seized {
                    desks::take_out(ground, seat, view, slot, sees, *desk)
                } else {
                    Err(Refusal::StepRefused)
                }
            }
            _ => Err(Refusal::StepRefused),
        },
    }
}

/// A worker's part of a seat, as a seat.
fn part_of(ground: &Ground, seat: &mut GroundSeat, view: &mut View) -> GroundSeat
    requires of { IsOf ground.now seat.old }
    requires same { view.old ≡ seat.old.known.view }
    requires part { 2 * worker_part ≤ view.old.part }
    ensures same { view.new ≡ seat.new.known.view }
    ensures chain { view.new.chain ≡ view.old.chain }
    ensures work { view.new.work ≡ view.old.work }
    ensures slots { seat.new.slots ≡ seat.old.slots }
    ensures of { IsOf ground.now seat.new }
    ensures other { result.known.view ≡ empty_view worker_part }
    ensures other_slots { result.slots ≡ [] }
    ensures other_of { IsOf ground.now result }
{
    view.part -= WORKER_PART;
    ground.split(seat)
}

/// An element of the hand of a seat between calls, as a seat.
fn loan_of(ground: &Ground, seat: &mut GroundSeat, view: &mut View, element: u32) -> GroundSeat
    requires of { IsOf ground.now seat.old }
    requires same { view.old ≡ seat.old.known.view }
    requires rest { AtRest view.old }
    requires hand { 0 < bag view.old.hand element }
    requires part { 2 ≤ view.old.part }
    ensures same { view.new ≡ seat.new.known.view }
    ensures chain { view.new.chain ≡ view.old.chain }
    ensures work { view.new.work ≡ view.old.work }
    ensures slots { seat.new.slots ≡ seat.old.slots }
    ensures of { IsOf ground.now seat.new }
    ensures other { result.known.view ≡ loan_of element }
    ensures other_slots { result.slots ≡ [] }
    ensures other_of { IsOf ground.now result }
{
    view.hand.take_out(element);
    view.part -= 1;
    ground.lend(seat, element)
}

/// Whether a player sees all of its seat.
fn sees_all(sees: &Sees) -> bool
    ensures { IsTrue result → sees.now ≡ Sees.All }
{
    match sees {
        Sees::All => true,
        Sees::Seizure(_) => false,
        Sees::Out(..) => false,
    }
}

/// Whether a player with this view is between calls.
fn is_between_calls(view: &View, sees: &Sees) -> bool
    ensures rest { IsTrue result → AtRest view.now }
    ensures all { IsTrue result → sees.now ≡ Sees.All }
{
    sees_all(sees)
        && view.zeros.is_empty()
        && view.credit == 0
        && view.chain.is_none()
        && view.work.is_none()
}

/// Makes the first view that of both, or changes nothing where memory is refused or the parts
/// would pass 64 bits.
fn add_view(view: &mut View, other: &View) -> Result<(), AllocError>
    ensures ok { OnOk result (view.new ≡ both_views view.old other.now) }
    ensures err { OnErr result (view.new ≡ view.old) }
{
    if other.part > u64::MAX - view.part {
        return Err(AllocError);
    }
    let hand = view.hand.len();
    view.hand.extend(other.hand.as_slice())?;
    let holds = view.holds.len();
    if view.holds.extend(other.holds.as_slice()).is_err() {
        view.hand.truncate(hand);
        return Err(AllocError);
    }
    if view.headers.extend(other.headers.as_slice()).is_err() {
        view.hand.truncate(hand);
        view.holds.truncate(holds);
        return Err(AllocError);
    }
    view.zeros.truncate(0);
    view.credit = 0;
    view.look = None;
    view.seen = view.seen.max(other.seen);
    view.chain = None;
    view.work = None;
    view.part += other.part;
    Ok(())
}

/// Joins another player's seat to this one, where both are between calls, or gives the other back.
fn merge(
    ground: &Ground,
    seat: &mut GroundSeat,
    view: &mut View,
    slot: &Option<Packet>,
    sees: &Sees,
    other: Player,
) -> Option<Player>
    requires of { IsOf ground.now seat.old }
    requires other_of { IsOf ground.now other.seat }
    requires seen { IsOfSeat sees.now view.old slot.now seat.old }
    requires in_pool { IsInPool view.old }
    ensures seen { IsOfSeat sees.now view.new slot.now seat.new }
    ensures in_pool { IsInPool view.new }
    ensures of { IsOf ground.now seat.new }
{
    if !is_between_calls(view, sees) || !is_between_calls(&other.view, &other.sees) {
        return Some(other);
    }
    if add_view(view, &other.view).is_err() {
        return Some(other);
    }
    let Player {
        seat: spent,
        view: _,
        slot: _,
        sees: _,
        alloc: _,
    } = other;
    ground.join(seat, spent);
    None
}

impl Player {
    /// Makes a ground, and the player of its one seat.
    pub(crate) fn make(alloc: Global, limits: &Limits) -> Result<(Ground, Player), Refusal>
        ensures { IfOk result (λ made. IsOf made.0 made.1.seat) }
    {
        let (ground, seat) = Ground::make(alloc, limits)?;
        let player = Player {
            seat,
            view: empty_view(alloc, limits.workers * WORKER_PART),
            slot: None,
            sees: Sees::All,
            alloc,
        };
        Ok((ground, player))
    }

    /// Makes the player of one more seat, of a worker's part of this one's, or none where this one
    /// hasn't two, or has seized a desk.
    pub(crate) fn split(&mut self, ground: &Ground) -> Option<Player>
        requires of { IsOf ground.now self.old.seat }
        ensures of { IsOf ground.now self.new.seat }
        ensures other { IfSome result (λ player. IsOf ground.now player.seat) }
    {
        if self.view.part < 2 * WORKER_PART || !sees_all(&self.sees) {
            return None;
        }
        let alloc = self.alloc;
        let seat = part_of(ground, &mut self.seat, &mut self.view);
        Some(Player {
            seat,
            view: empty_view(alloc, WORKER_PART),
            slot: None,
            sees: Sees::All,
            alloc,
        })
    }

    /// Lends an element: makes the player of one more seat, which has it alone. Or none, where this
    /// one isn't between calls or hasn't the element in its hand, or memory was refused.
    pub(crate) fn lend(&mut self, ground: &Ground, element: u32) -> Option<Player>
        requires of { IsOf ground.now self.old.seat }
        ensures of { IsOf ground.now self.new.seat }
        ensures other { IfSome result (λ player. IsOf ground.now player.seat) }
    {
        if !is_between_calls(&self.view, &self.sees)
            || !self.view.hand.has(element)
            || self.view.part < 2
        {
            return None;
        }
        let alloc = self.alloc;
        let Ok(hand) = Elems::single(alloc, element) else {
            return None;
        };
        let seat = loan_of(ground, &mut self.seat, &mut self.view, element);
        let mut view = empty_view(alloc, 1);
        view.hand = hand;
        Some(Player {
            seat,
            view,
            slot: None,
            sees: Sees::All,
            alloc,
        })
    }

    /// Plays a step. Refused `StepRefused` exactly where the view says that its condition fails,
    /// but for a desk: a packet that is put in has one segment, whose own element is a header of
    /// the player's where the desk is opened, and between a seizure and the step that takes the
    /// packet out every other is refused. Refused `OutOfMemory` where the player's own view
    /// couldn't grow. The ground isn't touched then.
    pub(crate) fn step(&mut self, ground: &Ground, step: &Step) -> Result<Outcome, Refusal>
        requires { IsOf ground.now self.old.seat }
        ensures { Plays step.now result self.old.seat self.new.seat }
    {
        let alloc = self.alloc;
        play(
            ground,
            &mut self.seat,
            &mut self.view,
            &mut self.slot,
            &mut self.sees,
            alloc,
            step,
        )
    }

    /// The view, which is what the seat knows, or knew before it seized a desk.
    pub(crate) fn view(&self) -> &View
        ensures { result.now ≡ self.now.view }
    {
        &self.view
    }

    /// Whether the view is what the seat knows: the player hasn't seized a desk since.
    pub(crate) fn sees_all(&self) -> bool
        ensures { IsTrue result → self.now.sees ≡ Sees.All }
    {
        sees_all(&self.sees)
    }

    /// Whether the player is between calls: nothing is reserved, nothing chained, and no busy
    /// desk.
    pub(crate) fn is_at_rest(&self) -> bool {
        is_between_calls(&self.view, &self.sees)
    }

    /// Takes over what another player has, or gives the other back: where one of both is not
    /// between calls, or memory for their hands was refused.
    pub(crate) fn join(&mut self, ground: &Ground, other: Player) -> Option<Player>
        requires of { IsOf ground.now self.old.seat }
        requires other_of { IsOf ground.now other.seat }
        ensures { IsOf ground.now self.new.seat }
    {
        merge(
            ground,
            &mut self.seat,
            &mut self.view,
            &self.slot,
            &self.sees,
            other,
        )
    }

    /// Ends the ground, whatever this player has.
    pub(crate) fn close(self, pool: Ground) -> Result<Closed, Refusal>
        requires { IsOf pool self.seat }
    {
        let Player {
            seat,
            view: _,
            slot: _,
            sees: _,
            alloc: _,
        } = self;
        match pool.close(seat) {
            Ok(closed) => Ok(closed),
            Err((cause, _, seat)) => {
                seat.lose();
                Err(cause)
            }
        }
    }

    /// Ends a player that is out of play, and gives nothing back.
    pub(crate) fn lose(self) {
        let Player {
            seat,
            view: _,
            slot: _,
            sees: _,
            alloc: _,
        } = self;
        seat.lose();
    }
}
