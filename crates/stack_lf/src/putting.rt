//! A put: a push, and an addition to the length.

ghost use Rattle.std.specs.Prelude.{◌≡◌, ◌≢◌, ◌<◌, ◌≤◌, Err, None, length, ℕ};
ghost use Rattle.commons.specs.Bag.{bag};
ghost use Rattle.commons.specs.Bounds.{max_population};
ghost use Rattle.commons.specs.Calls.{spent};
ghost use Rattle.ground.specs.Changing.{KnowsChanges};
ghost use Rattle.ground.specs.Seats.{IsOf};
ghost use Rattle.stack_lf.specs.Effects.{IsAlone, Stored, EndsPush, PutsOnWords};
ghost use Rattle.stack_lf.specs.Tries.{IsLostPush, last_of};

use crate::attempt::{Attempt, by_tries};
use crate::tried::Tried;
use commons::limits::SPENT;
use commons::refusal::Refusal;
use ground::pool::Ground;
use ground::seat::GroundSeat;

/// Stores the links of a list: its first element's to `top`, and each other's to the one before.
/// Answers the value that leads to the last.
fn store_links(ground: &Ground, seat: &mut GroundSeat, top: u32, list: &[u32]) -> u32
    requires of { IsOf ground.now seat.old }
    requires hand { (i : ℕ) → bag list.now i ≤ bag seat.old.known.view.hand i }
    requires once { (i : ℕ) → bag list.now i ≤ 1 }
    requires below { (i : ℕ) → 0 < bag list.now i → i < ground.now.limits.population }
    requires top { top ≤ ground.now.limits.population }
    requires small { ground.now.limits.population ≤ max_population }
    requires chain { seat.old.known.view.chain ≡ None }
    ensures first { result ≡ last_of top list.now }
    ensures stored { Stored top list.now seat.old seat.new }
{
    let mut next = top;
    for k in 0..list.len() {
        let element = list[k];
        ground.store_link(seat, element, next);
        next = element + 1;
    }
    next
}

/// A push of a list: loads the head, links the list to its top, and swings the head to the last
/// of the list, if it is still what was read.
#[derive(Clone, Copy)]
struct Push<'a> {
    list: &'a [u32],
}

impl Attempt for Push<'_> {
    ghost may = { λ a k v. (1 ≤ length a.list.now)
        × ((i : ℕ) → bag a.list.now i ≤ bag v.hand i) × (v.chain ≡ None) };

    ghost loses = { λ a l. IsLostPush a.list.now };

    ghost ends = { λ a l xs. EndsPush a.list.now };

    #[inline(always)]
    fn attempt(self, ground: &Ground, seat: &mut GroundSeat, _out: &mut [u32]) -> Tried {
        seat.owned();
        let head = ground.load_head(seat);
        if SPENT <= head.count {
            return Tried::Refused(Refusal::HeadSpent);
        }
        let first = store_links(ground, seat, head.top, self.list);
        match ground.push(seat, head, first) {
            Ok(()) => Tried::Won,
            Err(_) => Tried::Lost,
        }
    }

    ghost may_again = { λ a k v look seen h. h };
}

/// Puts a list onto the stack, and raises the length afterwards.
#[inline(always)]
pub(crate) fn put(ground: &Ground, seat: &mut GroundSeat, list: &[u32]) -> Result<(), Refusal>
    requires of { IsOf ground.now seat.old }
    requires some { 1 ≤ length list.now }
    requires hand { (i : ℕ) → bag list.now i ≤ bag seat.old.known.view.hand i }
    requires chain { seat.old.known.view.chain ≡ None }
    ensures put { PutsOnWords ground.now.limits.tries list.now result seat.old seat.new }
    ensures ended { result ≡ Err Refusal.HeadSpent → KnowsChanges seat.old.known spent }
    ensures alone { IsAlone seat.old → result ≢ Err Refusal.Contended }
{
    match by_tries(ground, seat, Push { list }, &mut []) {
        Err(cause) => Err(cause),
        Ok(()) => {
            ground.add(seat, list.len() as u64);
            Ok(())
        }
    }
}
