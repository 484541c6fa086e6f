//! The five steps on a depot's words, each one atomic operation by one seat, and how seats part and
//! join.

ghost use Rattle.std.specs.Prelude.{◌≡◌, ◌≢◌, ℕ, ◌+◌, ◌<◌, ◌≤◌, List, [], ◌∷◌, Some};
ghost use Rattle.atomic_table.specs.Table.{rest};
ghost use Rattle.commons.specs.Bag.{bag};
ghost use Rattle.depot.specs.declared.view.Look.{Look};
ghost use Rattle.depot.specs.declared.view.Stack.TheVariants.{Partial};
ghost use Rattle.depot.specs.Answers.{looked, linked, take_found, chained, give_found, noting, IsOwned, kept_part, other_part, both_views};
ghost use Rattle.depot.specs.Bags.{Includes};
ghost use Rattle.depot.specs.Heads.{top_of, count_of, spent};
ghost use Rattle.depot.specs.Layout.{head_at, link_at};
ghost use Rattle.depot.specs.Rule.{Suits, rounds_of};
ghost use Rattle.depot.specs.Seats.{IsOf};

use crate::depot::Depot;
use crate::magazine::Magazine;
use crate::plays::{GivesTop, LoadsHead, LoadsLink, Notes, Parts, StoresLink, TakesTop};
use crate::view::{Stack, View};
use atomic_table::Seat;

/// The word that nobody writes.
pub(crate) const QUIET: usize = 0;

/// The links stand behind four cache lines.
pub(crate) const LINKS: usize = 32;

/// The count of a head that can't be changed any more: 2^48 - 1.
pub(crate) const SPENT: u64 = 281474976710655;

fn head_at(stack: Stack) -> usize
    ensures { result ≡ head_at stack }
{
    match stack {
        Stack::Full => 8,
        Stack::Partial => 16,
        Stack::Empty => 24,
    }
}

/// A head's magazine on top + 1, or 0.
pub(crate) fn top_of(head: u64) -> u64
    ensures { result ≡ top_of head }
{
    head % 65536
}

/// How often a head's stack has been changed.
pub(crate) fn count_of(head: u64) -> u64
    ensures { result ≡ count_of head }
{
    head / 65536
}

impl Depot {
    /// Reads the head of a stack.
    #[inline(always)]
    pub(crate) fn load_head(&self, seat: &mut Seat<Magazine, View>, stack: Stack) -> u64
        requires of { IsOf self.now seat.old }
        ensures of { IsOf self.now seat.new }
        ensures me { (link : ℕ)
            × (seat.new.me ≡ (looked seat.old.me.0 stack result link, seat.old.me.1)) }
        ensures top { top_of result ≤ self.now.table.slots }
    {
        self.table.shared.load::<LoadsHead>(seat, head_at(stack))
    }

    /// Reads the link of the top of the head that was read.
    #[inline(always)]
    pub(crate) fn load_link(&self, seat: &mut Seat<Magazine, View>, magazine: usize) -> u64
        requires of { IsOf self.now seat.old }
        requires inside { magazine < self.now.table.slots }
        requires top { (l : Look) → seat.old.me.0.look ≡ Some l → top_of l.head ≡ magazine + 1 }
        ensures of { IsOf self.now seat.new }
        ensures me { seat.new.me ≡ (linked seat.old.me.0 result, seat.old.me.1) }
        ensures link { result ≤ self.now.table.slots }
    {
        self.table.shared.load::<LoadsLink>(seat, LINKS + magazine)
    }

    /// Takes the top of a stack, where its head is still the one that was read.
    #[inline(always)]
    pub(crate) fn take_top(
        &self,
        seat: &mut Seat<Magazine, View>,
        stack: Stack,
        head: u64,
        link: u64,
    ) -> bool
        requires of { IsOf self.now seat.old }
        requires look { seat.old.me.0.look
            ≡ Some (record { stack = stack; head = head; link = link }) }
        requires top { 0 < top_of head }
        requires count { count_of head < spent }
        requires link { link ≤ self.now.table.slots }
        ensures of { IsOf self.now seat.new }
        ensures me { take_found result stack (top_of head) seat.old.me seat.new.me }
    {
        let table = &self.table.shared;
        let new = (count_of(head) + 1) * 65536 + link;
        let found = table.compare_exchange::<TakesTop>(seat, head_at(stack), head, new);
        found == head
    }

    /// Writes the link of a magazine that is out with the seat.
    #[inline(always)]
    pub(crate) fn store_link(&self, seat: &mut Seat<Magazine, View>, magazine: usize, link: u64)
        requires of { IsOf self.now seat.old }
        requires inside { magazine < self.now.table.slots }
        requires out { 0 < bag seat.old.me.0.out magazine }
        requires link { link ≤ self.now.table.slots }
        ensures of { IsOf self.now seat.new }
        ensures me { seat.new.me ≡ (chained seat.old.me.0 magazine link, seat.old.me.1) }
    {
        self.table
            .shared
            .store::<StoresLink>(seat, LINKS + magazine, link);
    }

    /// Puts the magazine that was taken last on a stack, where its head is still the one that was
    /// read.
    #[inline(always)]
    pub(crate) fn give_top(
        &self,
        seat: &mut Seat<Magazine, View>,
        stack: Stack,
        head: u64,
        magazine: usize,
    ) -> bool
        requires of { IsOf self.now seat.old }
        requires inside { magazine < self.now.table.slots }
        requires count { count_of head < spent }
        requires chain { seat.old.me.0.chain
            ≡ Some (record { magazine = magazine; link = top_of head }) }
        requires elements { (xs : List ℕ) × (seat.old.me.1 ≡ (magazine, xs) ∷ rest seat.old.me.1)
            × Includes seat.old.me.0.hand xs × Suits (rounds_of seat.old.me.0) stack xs }
        requires lone { stack ≡ Partial → top_of head ≡ 0 }
        ensures of { IsOf self.now seat.new }
        ensures me { give_found result seat.old.me seat.new.me }
    {
        let table = &self.table.shared;
        let new = (count_of(head) + 1) * 65536 + (magazine as u64 + 1);
        let found = table.compare_exchange::<GivesTop>(seat, head_at(stack), head, new);
        found == head
    }

    /// Notes what is in the seat's magazines, by a load of the word that nobody writes.
    #[inline(always)]
    pub(crate) fn note(&self, seat: &mut Seat<Magazine, View>)
        requires of { IsOf self.now seat.old }
        ensures of { IsOf self.now seat.new }
        ensures me { seat.new.me ≡ (noting seat.old.me.0 seat.old.me.1, seat.old.me.1) }
        ensures owned { IsOwned self.now.table.slots seat.old.me.0 }
    {
        self.table.shared.load::<Notes>(seat, QUIET);
    }
}
