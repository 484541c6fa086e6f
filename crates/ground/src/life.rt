//! The life of a ground: it is made with one seat, seats are split and joined, and it is closed
//! with one.

ghost use Rattle.std.specs.Prelude.{◌≡◌, ◌*◌, ◌<◌, ◌≤◌, ◌++◌, [], IfOk, IfErr, IfSome, length};
ghost use Rattle.commons.specs.Bag.{bag};
ghost use Rattle.commons.specs.Bounds.{IsPool};
ghost use Rattle.ground.specs.Changing.{IsFresh, closed_at_start};
ghost use Rattle.ground.specs.Closing.{LeftOf};
ghost use Rattle.ground.specs.Lying.{LieByNotes};
ghost use Rattle.ground.specs.Opening.{IsGroundCause};
ghost use Rattle.ground.specs.Own.{Owned, AtRest, KnowsDesks};
ghost use Rattle.ground.specs.Parting.{less_part, newcomer, left_by_lending, lent_part, left_by_last, lent_last, IsBoth, AreBoth};
ghost use Rattle.ground.specs.Rule.{first_known};
ghost use Rattle.ground.specs.Seats.{IsOf};
ghost use Rattle.step_core.specs.World.{every_part, worker_part};

use crate::head::head_of;
use crate::known::Known;
use crate::plays::{Chooses, Lends, LendsLast, Looks, Parts};
use crate::pool::Ground;
use crate::rows::{opening_words, read_desks, read_row};
use crate::rule::PoolRule;
use crate::seat::GroundSeat;
use crate::stack::{HEAD, LENGTH, LINKS, QUIET, link_word};
use atomic_table::{Seat, Shared, Table};
use commons::closed::Closed;
use commons::limits::Limits;
use commons::packet::Packet;
use commons::refusal::Refusal;
use commons::seq::Seq;
use std::alloc::Global;

impl Ground {
    /// Makes the words of a pool, and its only seat, which has every part. All elements are in the
    /// common list, element 0 on top, each desk is empty, and the seat names none of them.
    ///
    /// Refused `BadPool` where the limits are out of range, and `OutOfMemory` where memory was
    /// refused.
    pub fn make(alloc: Global, limits: &Limits) -> Result<(Ground, GroundSeat), Refusal>
        ensures limits { IfOk result (λ made. made.0.limits ≡ limits.now) }
        ensures of { IfOk result (λ made. IsOf made.0 made.1) }
        ensures known { IfOk result (λ made. made.1.known ≡ first_known limits.now) }
        ensures slots { IfOk result (λ made. made.1.slots ≡ []) }
        ensures pool { IfOk result (λ _. IsPool limits.now) }
        ensures cause { IfErr result (IsGroundCause limits.now) }
    {
        limits.check()?;
        let Ok(words) = opening_words(alloc, limits) else {
            return Err(Refusal::OutOfMemory);
        };
        let Ok((table, seat)) = Table::vacant(
            alloc,
            words.as_slice(),
            limits.desks as usize,
            limits,
        ) else {
            return Err(Refusal::OutOfMemory);
        };
        let ground = Ground {
            table,
            limits: *limits,
            alloc,
        };
        Ok((ground, GroundSeat { seat }))
    }

    /// Makes one more worker's seat, of a worker's part of what this seat has, which is more than
    /// that. This seat keeps all that it names, and the new one names nothing and has taken no
    /// step.
    pub fn split(&self, seat: &mut GroundSeat) -> GroundSeat
        requires of { IsOf self.now seat.old }
        requires part { worker_part < seat.old.known.view.part }
        ensures old { seat.new ≡ record seat.old { known = less_part seat.old.known } }
        ensures of { IsOf self.now result }
        ensures known { result.known ≡ newcomer seat.old.known }
        ensures slots { result.slots ≡ [] }
    {
        let seat = self.table.shared.split_seat::<Parts>(&mut seat.seat);
        GroundSeat { seat }
    }

    /// Lends an element of the hand of a seat that is between calls: makes one more seat, which has
    /// this element alone, and a part of 1 of those that this seat has, which are two at least.
    /// This seat keeps all else.
    ///
    /// Whoever has the new seat has the element: it can be sent to another thread, and joined to
    /// any seat of this ground, which has the element then and may put it. So what one lcore got
    /// another puts (rte_mempool.h, rte_mempool_put_bulk). While an element is lent, no seat has
    /// every part.
    ///
    /// The load of the element's link says which one it is, in the proof alone.
    pub fn lend(&self, seat: &mut GroundSeat, element: u32) -> GroundSeat
        requires of { IsOf self.now seat.old }
        requires rest { AtRest seat.old.known.view }
        requires hand { 0 < bag seat.old.known.view.hand element }
        requires part { 2 ≤ seat.old.known.view.part }
        ensures old { seat.new ≡ record seat.old { known = left_by_lending element seat.old.known } }
        ensures of { IsOf self.now result }
        ensures known { result.known ≡ lent_part element seat.old.known }
        ensures slots { result.slots ≡ [] }
    {
        seat.owned();
        let word = link_word(element);
        self.table.shared.load::<Chooses>(&mut seat.seat, word);
        let seat = self.table.shared.split_seat::<Lends>(&mut seat.seat);
        GroundSeat { seat }
    }

    /// Lends the element that stands last in the hand of a seat that is between calls, as `lend`
    /// does. What comes into a hand stands behind what was there. So a list that was got is lent
    /// from its end, and no word has to say which element it is.
    pub fn lend_last(&self, seat: &mut GroundSeat) -> GroundSeat
        requires of { IsOf self.now seat.old }
        requires rest { AtRest seat.old.known.view }
        requires hand { 0 < length seat.old.known.view.hand }
        requires part { 2 ≤ seat.old.known.view.part }
        ensures old { seat.new ≡ record seat.old { known = left_by_last seat.old.known } }
        ensures of { IsOf self.now result }
        ensures known { result.known ≡ lent_last seat.old.known }
        ensures slots { result.slots ≡ [] }
    {
        let seat = self.table.shared.split_seat::<LendsLast>(&mut seat.seat);
        GroundSeat { seat }
    }

    /// Makes one seat of two that are between calls: it has the elements, holds, headers and parts
    /// of both, the later of the two counts that they saw of the head, and its own steps. What it
    /// had read of the common list is forgotten. Where it is the only seat of the pool now, it
    /// knows what lies on the desks.
    pub fn join(&self, seat: &mut GroundSeat, other: GroundSeat)
        requires of { IsOf self.now seat.old }
        requires other_of { IsOf self.now other }
        requires rest { AtRest seat.old.known.view }
        requires other_rest { AtRest other.known.view }
        requires slots { other.slots ≡ [] }
        ensures { IsBoth seat.old other.known seat.new }
    {
        seat.owned();
        other.owned();
        let GroundSeat { seat: other } = other;
        merge(&self.table.shared, &mut seat.seat, other);
    }

    /// Ends the pool, and leaves its words as plain data: the top and the length of the common
    /// list, and each element's link and count, and the packets of the full desks. They are those
    /// of a lawful world in which this seat's view is a worker's. Where the seat has every part,
    /// all that is neither in the common list nor on a full desk is what this seat names, and the
    /// packets are those that it knows to lie there, and those with which a desk was opened, by its
    /// notes and those that were joined to it, and that weren't seized. Where nobody has done
    /// anything, it is what the ground was made with.
    ///
    /// Refused `OutOfMemory` where memory was refused. Ground and seat come back then, as they
    /// were.
    pub fn close(self, seat: GroundSeat) -> Result<Closed, (Refusal, Ground, GroundSeat)>
        requires { IsOf self seat }
        ensures closed { IfOk result (LeftOf self.limits seat.known.view) }
        ensures desks { IfOk result (λ closed. IfSome seat.known.lying (λ desks. closed.desks ≡ desks)) }
        ensures noted { IfOk result (λ closed. seat.known.view.part ≡ every_part self.limits →
            LieByNotes (seat.known.steps ++ seat.known.joined) closed.desks) }
        ensures fresh { IfOk result (λ closed. IsFresh seat.known → closed ≡ closed_at_start self.limits) }
        ensures memory { IfErr result (λ refused. refused.0 ≡ Refusal.OutOfMemory) }
        ensures back { IfErr result (λ refused. (refused.1 ≡ self) × (refused.2 ≡ seat)) }
    {
        let population = self.limits.population as usize;
        let Ok(mut links) = Vec::with_capacity(self.alloc, population) else {
            return Err((Refusal::OutOfMemory, self, seat));
        };
        let Ok(mut counts) = Vec::with_capacity(self.alloc, population) else {
            return Err((Refusal::OutOfMemory, self, seat));
        };
        let Ok(mut desks) = Vec::with_capacity(self.alloc, self.limits.desks as usize) else {
            return Err((Refusal::OutOfMemory, self, seat));
        };
        let Ground {
            table,
            limits: _,
            alloc: _,
        } = self;
        let GroundSeat { seat } = seat;
        let mut left = table.close_with(seat);
        let head = head_of(left.word(HEAD));
        let length = left.word(LENGTH);
        read_row(&left, LINKS, population, &mut links);
        read_row(&left, LINKS + population, population, &mut counts);
        read_desks(&mut left, LINKS + 2 * population, &mut desks);
        left.free();
        Ok(Closed {
            top: head.top,
            length,
            links: Seq::new(links),
            counts: Seq::new(counts),
            desks: Seq::new(desks),
        })
    }
}

/// Makes one seat of two, and then reads the word that nobody writes: a view changes only at a
/// step, and the step tells what the rule says of the seat that came of both.
fn merge(
    shared: &Shared<Option<Packet>, Known, Limits, PoolRule>,
    seat: &mut Seat<Option<Packet>, Known>,
    other: Seat<Option<Packet>, Known>,
)
    requires of { seat.old.table_id ≡ shared.now.table_id }
    requires other_of { other.table_id ≡ shared.now.table_id }
    requires words { 0 < shared.now.table_id.words }
    requires part { 0 < seat.old.me.0.view.part }
    requires rest { AtRest seat.old.me.0.view }
    requires other_rest { AtRest other.me.0.view }
    requires slots { other.me.1 ≡ [] }
    ensures same { (seat.new.table_id ≡ seat.old.table_id) × (seat.new.id ≡ seat.old.id) }
    ensures me { AreBoth seat.old.me other.me.0 seat.new.me }
    ensures own { Owned seat.new.me.0.limits seat.new.me.0.view }
    ensures desks { KnowsDesks seat.new.me.0 }
{
    shared.join_seat::<Parts>(seat, other);
    shared.load::<Looks>(seat, QUIET);
}
