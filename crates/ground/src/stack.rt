//! The eight steps of the stack. Each is one atomic operation on one word, by one seat, whose view
//! changes as the machine's step says, whatever the other seats do.

ghost use Rattle.std.specs.Prelude.{◌≡◌, ◌≢◌, ◌<◌, ◌≤◌, true, IfErr, MatchResult};
ghost use Rattle.commons.specs.Bag.{bag};
ghost use Rattle.commons.specs.Calls.{spent};
ghost use Rattle.step_core.specs.declared.step.Step.TheVariants.{LoadLength, Reserve, Add, LoadHead, LoadLink, Cut, StoreLink, Push};
ghost use Rattle.step_core.specs.declared.step.Outcome.TheVariants.{Value, HeadIs, Done};
ghost use Rattle.step_core.specs.Views.{walks_to, MayCut, MayPush};
ghost use Rattle.step_core.specs.World.{every_part};
ghost use Rattle.ground.specs.Changing.{KnowsChanges, KnowsOpening};
ghost use Rattle.ground.specs.Layout.{link_word};
ghost use Rattle.ground.specs.Seats.{IsOf, Steps, outcome_of, cut_outcome, push_outcome, front_of, element_of, KnowsLength, KnowsEnd};

use crate::head::{head_of, word_of};
use crate::plays::{Adds, Cuts, LoadsHead, LoadsLength, LoadsLink, Pushes, Reserves, StoresLink};
use crate::pool::Ground;
use crate::seat::GroundSeat;
use step_core::view::Head;

/// How many words a cache line of 64 bytes has.
pub(crate) const LINE_WORDS: usize = 8;

/// Where the words stand: on a cache line each the word that nobody writes, the head and the
/// length, then the links.
pub(crate) const QUIET: usize = 0;

pub(crate) const HEAD: usize = LINE_WORDS;

pub(crate) const LENGTH: usize = 2 * LINE_WORDS;

pub(crate) const LINKS: usize = 3 * LINE_WORDS;

/// Where the link of an element stands: after these cache lines.
pub(crate) fn link_word(element: u32) -> usize
    ensures { result ≡ link_word element }
{
    LINKS + element as usize
}

impl Ground {
    /// Reads the length word: how many elements of the common list nobody has reserved. The only
    /// seat of a pool learns just how many those are (rte_stack_lf_generic.h,
    /// __rte_stack_lf_count).
    pub fn load_length(&self, seat: &mut GroundSeat) -> u64
        requires of { IsOf self.now seat.old }
        ensures step { Steps LoadLength (Value result) seat.old seat.new }
        ensures few { result ≤ self.now.limits.population }
        ensures known { KnowsLength seat.old.known result }
    {
        self.table
            .shared
            .load::<LoadsLength>(&mut seat.seat, LENGTH)
    }

    /// Reserves `n` elements of the common list, 1 to `old`: lowers the length word by `n`, where
    /// it is `old`. Else answers what it is, and nothing has changed (rte_stack_lf_generic.h,
    /// __rte_stack_lf_pop_elems).
    pub fn reserve(&self, seat: &mut GroundSeat, old: u64, n: u64) -> Result<(), u64>
        requires of { IsOf self.now seat.old }
        requires some { 1 ≤ n }
        requires enough { n ≤ old }
        ensures step { Steps (Reserve old n) (outcome_of result) seat.old seat.new }
        ensures lost { IfErr result (λ found. found ≢ old) }
        ensures known { MatchResult result (λ _. KnowsLength seat.old.known old) (λ found. KnowsLength seat.old.known found) }
    {
        let found = self
            .table
            .shared
            .compare_exchange::<Reserves>(&mut seat.seat, LENGTH, old, old - n);
        if found == old { Ok(()) } else { Err(found) }
    }

    /// Raises the length word by `n` of the seat's credit: tells of what was pushed
    /// (rte_stack_lf_generic.h, __rte_stack_lf_push_elems), or gives back what was reserved, which
    /// is our own.
    pub fn add(&self, seat: &mut GroundSeat, n: u64)
        requires of { IsOf self.now seat.old }
        requires some { 1 ≤ n }
        requires credit { n ≤ seat.old.known.view.credit }
        ensures step { Steps (Add n) Done seat.old seat.new }
    {
        self.table
            .shared
            .fetch_add::<Adds>(&mut seat.seat, LENGTH, n);
    }

    /// Reads the head (rte_stack_lf_generic.h, __rte_stack_lf_pop_elems). Its count is never below
    /// one that the seat has seen, nor below the start and the changes of the stack by this seat
    /// and those joined to it; to the only seat of a pool it is just that. Where nobody has done
    /// anything it is the head at the start.
    pub fn load_head(&self, seat: &mut GroundSeat) -> Head
        requires of { IsOf self.now seat.old }
        ensures step { Steps LoadHead (HeadIs result) seat.old seat.new }
        ensures seen { seat.old.known.view.seen ≤ result.count }
        ensures count { result.count ≤ spent }
        ensures top { result.top ≤ self.now.limits.population }
        ensures known { KnowsEnd seat.new.known.limits seat.new.known.view }
        ensures changes { KnowsChanges seat.old.known result.count }
        ensures opening { KnowsOpening seat.old.known result }
    {
        head_of(self.table.shared.load::<LoadsHead>(&mut seat.seat, HEAD))
    }

    /// Reads the link of the element to which the seat's walk goes on: 0 for the end of the list,
    /// and else the next element + 1. Where another seat has changed the stack since the head was
    /// read, the link may lead anywhere; the cut then loses (rte_stack_lf_generic.h,
    /// __rte_stack_lf_pop_elems).
    pub fn load_link(&self, seat: &mut GroundSeat, element: u32) -> u32
        requires of { IsOf self.now seat.old }
        requires next { walks_to seat.old.known.view.look element ≡ true }
        ensures step { Steps (LoadLink element) (Value result) seat.old seat.new }
        ensures link { result ≤ self.now.limits.population }
        ensures known { KnowsEnd seat.new.known.limits seat.new.known.view }
    {
        seat.owned();
        self.table
            .shared
            .load::<LoadsLink>(&mut seat.seat, link_word(element)) as u32
    }

    /// Takes the elements that the seat has walked and reserved: swings the head from the one that
    /// was read to what follows the walk. Else answers what the head is, which has changed since:
    /// its count is greater. The only seat of a pool never loses (rte_stack_lf_generic.h,
    /// __rte_stack_lf_pop_elems).
    pub fn cut(&self, seat: &mut GroundSeat, head: Head, next: u32) -> Result<(), Head>
        requires of { IsOf self.now seat.old }
        requires look { MayCut seat.old.known.view head next }
        ensures step { Steps Cut (cut_outcome result (front_of seat.old.known.view.look)) seat.old seat.new }
        ensures later { IfErr result (λ found. head.count < found.count) }
        ensures alone { seat.old.known.view.part ≡ every_part self.now.limits → IfErr result (λ _. ⊥) }
    {
        seat.owned();
        let old = word_of(head);
        let new = word_of(Head {
            top: next,
            count: head.count + 1,
        });
        let found = self
            .table
            .shared
            .compare_exchange::<Cuts>(&mut seat.seat, HEAD, old, new);
        if found == old {
            Ok(())
        } else {
            Err(head_of(found))
        }
    }

    /// Writes the link of an element of the seat's hand: 0 for the end of a list, and else the
    /// next element + 1 (rte_stack_lf_generic.h, __rte_stack_lf_push_elems).
    pub fn store_link(&self, seat: &mut GroundSeat, element: u32, link: u32)
        requires of { IsOf self.now seat.old }
        requires hand { 0 < bag seat.old.known.view.hand element }
        requires link { link ≤ self.now.limits.population }
        ensures step { Steps (StoreLink element (element_of link)) Done seat.old seat.new }
    {
        seat.owned();
        self.table
            .shared
            .store::<StoresLink>(&mut seat.seat, link_word(element), u64::from(link));
    }

    /// Puts the chain that the seat has linked: swings the head from the one that was read to the
    /// chain's first element, `first` - 1. Else answers what the head is, which has changed since:
    /// its count is greater. The only seat of a pool never loses (rte_stack_lf_generic.h,
    /// __rte_stack_lf_push_elems).
    pub fn push(&self, seat: &mut GroundSeat, head: Head, first: u32) -> Result<(), Head>
        requires of { IsOf self.now seat.old }
        requires look { MayPush seat.old.known.view head first }
        ensures step { Steps Push (push_outcome result) seat.old seat.new }
        ensures later { IfErr result (λ found. head.count < found.count) }
        ensures alone { seat.old.known.view.part ≡ every_part self.now.limits → IfErr result (λ _. ⊥) }
    {
        seat.owned();
        let old = word_of(head);
        let new = word_of(Head {
            top: first,
            count: head.count + 1,
        });
        let found = self
            .table
            .shared
            .compare_exchange::<Pushes>(&mut seat.seat, HEAD, old, new);
        if found == old {
            Ok(())
        } else {
            Err(head_of(found))
        }
    }
}
