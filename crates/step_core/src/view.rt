//! What the words are, and each worker's view: what it has and knows of them.

ghost use Rattle.std.specs.Prelude.{◌≡◌, ◌==◌, ◌+◌, ◌^◌, suc, Some, None, ◌<◌, ◌≤◌, true, All, IfOk, IfErr, IfSome, OnOk, OnErr, MatchOption, length};
ghost use Rattle.commons.specs.Calls.{spent};
ghost use Rattle.commons.specs.Bounds.{max_population};
ghost use Rattle.step_core.specs.Steps.{chain_after, phase_at};
ghost use Rattle.step_core.specs.Views.{walks_to, walked_on, MayCut, MayNotCut, cut_view, MayPush, MayNotPush, push_view, claimed, freed, hold_ended, opened, seized, was_reset};
ghost use Rattle.step_core.specs.Links.{first_value as first, last_value};

use crate::elems::Elems;
use commons::limits::SPENT;
use commons::packet::Packet;
use std::alloc::{AllocError, Global};

/// The head of the common stack: its top as a link value, 0 for none and else the element + 1, and
/// the number of changes so far.
#[derive(Clone, Copy, Debug, PartialEq, Eq)]
pub struct Head {
    pub top: u32,
    pub count: u64,
}

/// What a worker saw of the common list: the head, the elements walked from its top, and the link
/// value after them.
#[derive(Debug, Drop)]
pub struct Look {
    pub head: Head,
    pub front: Elems,
    pub next: u32,
}

/// Elements of a worker's hand whose links lead each to the next, and the last to the end, a link
/// value.
#[derive(Debug, Drop)]
pub struct Chain {
    pub items: Elems,
    pub end: u32,
}

/// How far a worker is with a desk.
#[derive(Debug, Drop)]
pub enum Phase {
    /// The desk is to be filled.
    ToFill,
    /// This packet is in its slot, and the desk is to be opened.
    Filled(Packet),
    /// The desk was full of this packet, which is to be taken out.
    Seized(Packet),
    /// The packet is out, and the desk is to be cleared.
    TakenOut,
}

/// The desk that a worker works at.
#[derive(Debug, Drop)]
pub struct Work {
    pub desk: u32,
    pub phase: Phase,
}

/// A worker's part of a pool: so great a number that a little of it can be given away, again and
/// again. The parts of 64 workers, the most, are a number of 64 bits.
pub const WORKER_PART: u64 = 1 << 56;

/// What one worker has and has seen.
#[derive(Debug, Drop)]
pub struct View {
    /// The elements of the hand whose count is 1.
    pub hand: Elems,
    /// The elements of the hand whose count is 0 for the moment.
    pub zeros: Elems,
    /// The elements held, each as often as it is held.
    pub holds: Elems,
    /// Those elements held that are the worker's headers.
    pub headers: Elems,
    /// How many elements of the common list are reserved.
    pub credit: u64,
    pub look: Option<Look>,
    /// The head's count when the worker last read or changed it.
    pub seen: u64,
    pub chain: Option<Chain>,
    pub work: Option<Work>,
    /// The worker's part of the pool.
    pub part: u64,
}

/// The link value of an element of a pool.
fn link_of(element: u32) -> u32
    requires { element < max_population }
    ensures { result ≡ suc element }
{
    element + 1
}

/// The link value of the first of these elements, 0 where there is none.
fn first_value(items: &[u32]) -> u32
    requires { All (λ x. x < max_population) items.now }
    ensures { result ≡ first items.now }
{
    match items {
        [] => 0,
        [element, ..] => link_of(*element),
    }
}

/// Whether this is the last of the elements.
fn is_last(items: &[u32], element: u32) -> bool
    ensures { result ≡ (last_value items.now == suc element) }
{
    match items.last() {
        None => false,
        Some(last) => *last == element,
    }
}

impl Chain {
    /// The chain once the link of this element was set to this end.
    fn link(&mut self, alloc: Global, element: u32, end: u32) -> Result<(), AllocError>
        requires items { All (λ x. x < max_population) self.old.items }
        ensures ok { OnOk result (self.new ≡ chain_after (Some self.old) element end) }
        ensures err { OnErr result (self.new ≡ self.old) }
    {
        if is_last(self.items.as_slice(), element) {
            self.end = end;
            return Ok(());
        }
        let known = self.items.find(u64::from(element)).is_some();
        if !known && end == first_value(self.items.as_slice()) {
            return self.items.push_front(element);
        }
        self.items = Elems::single(alloc, element)?;
        self.end = end;
        Ok(())
    }
}

impl View {
    /// Whether the walk's next element is this one.
    pub fn walks_to(&self, element: u64) -> bool
        ensures { result ≡ walks_to self.now.look element }
    {
        match &self.look {
            None => false,
            Some(look) => look.next > 0 && u64::from(look.next - 1) == element,
        }
    }

    /// Puts an element after the walk, which goes on at this link value; or changes nothing.
    pub fn walk_on(&mut self, element: u32, link: u32) -> Result<(), AllocError>
        ensures ok { OnOk result (self.new ≡ record self.old { look = walked_on self.old.look element link }) }
        ensures err { OnErr result (self.new ≡ self.old) }
    {
        let Some(mut look) = self.look.take() else {
            return Ok(());
        };
        let pushed = look.front.push(element);
        if pushed.is_ok() {
            look.next = link;
        }
        self.look = Some(look);
        pushed
    }

    /// The look's head and next, where a cut may be tried.
    pub fn cut_expected(&self) -> Option<(Head, u32)>
        ensures { MatchOption result (MayNotCut self.now) (λ expected. MayCut self.now expected.0 expected.1) }
    {
        let Some(look) = &self.look else {
            return None;
        };
        let front = look.front.len() as u64;
        if front > 0 && front <= self.credit && look.head.count < SPENT {
            Some((look.head, look.next))
        } else {
            None
        }
    }

    /// Takes the walk's elements into the hand, out of the credit; or changes nothing.
    pub fn win_cut(&mut self) -> Result<Elems, AllocError>
        requires { IfSome self.old.look (λ l. (length l.front ≤ self.old.credit) × (l.head.count < spent)) }
        ensures ok { IfOk result (λ front. IfSome self.old.look (λ l. (front ≡ l.front) × (self.new ≡ cut_view self.old l))) }
        ensures err { OnErr result (self.new ≡ self.old) }
    {
        let Some(look) = self.look.take() else {
            return Err(AllocError);
        };
        if self.hand.extend(look.front.as_slice()).is_err() {
            self.look = Some(look);
            return Err(AllocError);
        }
        self.credit -= look.front.len() as u64;
        self.seen = look.head.count + 1;
        let Look { front, .. } = look;
        Ok(front)
    }

    /// How far the worker is with this desk, if it works at that.
    pub fn phase_at(&self, desk: u32) -> Option<&Phase>
        ensures { MatchOption result (phase_at desk self.now.work ≡ None) (λ phase. phase_at desk self.now.work ≡ Some phase.now) }
    {
        match &self.work {
            None => None,
            Some(work) => {
                if work.desk == desk {
                    Some(&work.phase)
                } else {
                    None
                }
            }
        }
    }

    /// Moves an element from the hand to the holds, as a header, and ends a chain with it; or
    /// changes nothing.
    pub fn claim(&mut self, element: u32) -> Result<(), AllocError>
        ensures ok { OnOk result (self.new ≡ claimed self.old element) }
        ensures err { OnErr result (self.new ≡ self.old) }
    {
        let before = self.headers.len();
        self.headers.push(element)?;
        if self.holds.push(element).is_err() {
            self.headers.truncate(before);
            return Err(AllocError);
        }
        self.hand.take_out(element);
        let in_chain = match &self.chain {
            None => false,
            Some(chain) => chain.items.find(u64::from(element)).is_some(),
        };
        if in_chain {
            self.chain = None;
        }
        Ok(())
    }

    /// Moves an element from the holds to the hand, with count 1; or changes nothing.
    pub fn free(&mut self, element: u32) -> Result<(), AllocError>
        ensures ok { OnOk result (self.new ≡ freed self.old element) }
        ensures err { OnErr result (self.new ≡ self.old) }
    {
        self.hand.push(element)?;
        self.holds.take_out(element);
        self.headers.keep_held(&self.holds);
        Ok(())
    }

    /// Ends a hold of an element, which is in the hand with count 0 where that was the last; or
    /// changes nothing.
    pub fn end_hold(&mut self, element: u32, last: bool) -> Result<(), AllocError>
        ensures ok { OnOk result (self.new ≡ hold_ended self.old element last) }
        ensures err { OnErr result (self.new ≡ self.old) }
        ensures last { IfErr result (λ _. last ≡ true) }
    {
        if last {
            self.zeros.push(element)?;
        }
        self.holds.take_out(element);
        self.headers.keep_held(&self.holds);
        Ok(())
    }

    /// Gives away the holds of a packet. Its own elements are no longer headers, nor is what is no
    /// longer held.
    pub fn open(&mut self, packet: &Packet)
        ensures { self.new ≡ opened self.old packet.now }
    {
        self.holds.take_packet_out(packet);
        self.headers.take_own_out(packet);
        self.headers.keep_held(&self.holds);
    }

    /// Takes the holds of a packet, its own elements as headers; or changes nothing.
    pub fn seize(&mut self, packet: &Packet) -> Result<(), AllocError>
        ensures ok { OnOk result (self.new ≡ seized self.old packet.now) }
        ensures err { OnErr result (self.new ≡ self.old) }
    {
        let headers = self.headers.len();
        self.headers.extend_by_own(packet)?;
        if self.holds.extend_by_packet(packet).is_err() {
            self.headers.truncate(headers);
            return Err(AllocError);
        }
        Ok(())
    }

    /// Gives an element of the hand count 1; or changes nothing.
    pub fn reset(&mut self, element: u32) -> Result<(), AllocError>
        ensures ok { OnOk result (self.new ≡ was_reset self.old element) }
        ensures err { OnErr result (self.new ≡ self.old) }
    {
        self.hand.push(element)?;
        self.zeros.take_out(element);
        Ok(())
    }

    /// Notes that the link of an element of the hand was set to this end; or changes nothing.
    pub fn link(&mut self, alloc: Global, element: u32, end: u32) -> Result<(), AllocError>
        requires items { IfSome self.old.chain (λ c. All (λ x. x < max_population) c.items) }
        ensures ok { OnOk result (self.new ≡ record self.old { chain = Some (chain_after self.old.chain element end) }) }
        ensures err { OnErr result (self.new ≡ self.old) }
    {
        let Some(mut chain) = self.chain.take() else {
            let items = Elems::single(alloc, element)?;
            self.chain = Some(Chain { items, end });
            return Ok(());
        };
        let linked = chain.link(alloc, element, end);
        self.chain = Some(chain);
        linked
    }

    /// The look's head and the link value of the chain's first element, where a push may be tried.
    pub fn push_expected(&self) -> Option<(Head, u32)>
        requires items { IfSome self.now.chain (λ c. All (λ x. x < max_population) c.items) }
        ensures { MatchOption result (MayNotPush self.now) (λ expected. MayPush self.now expected.0 expected.1) }
    {
        let Some(look) = &self.look else {
            return None;
        };
        let Some(chain) = &self.chain else {
            return None;
        };
        if chain.end == look.head.top && look.head.count < SPENT {
            Some((look.head, first_value(chain.items.as_slice())))
        } else {
            None
        }
    }

    /// Takes the chain's elements out of the hand, into the credit.
    pub fn win_push(&mut self, count: u64)
        requires credit { IfSome self.old.chain (λ c. self.old.credit + length c.items < 2 ^ 64) }
        ensures { IfSome self.old.chain (λ c. self.new ≡ push_view self.old c count) }
    {
        if let Some(chain) = self.chain.take() {
            self.hand.take_all_out(chain.items.as_slice());
            self.credit += chain.items.len() as u64;
        }
        self.look = None;
        self.seen = count;
    }

    /// Ends the look, as this count was found.
    pub fn lose_look(&mut self, count: u64)
        ensures { self.new ≡ record self.old { look = None; seen = count } }
    {
        self.look = None;
        self.seen = count;
    }

    /// Ends look and chain, as this count was found.
    pub fn lose_push(&mut self, count: u64)
        ensures { self.new ≡ record self.old { look = None; seen = count; chain = None } }
    {
        self.look = None;
        self.chain = None;
        self.seen = count;
    }
}

/// A desk: its word is 0 where it is empty, 1 while it is filled, 2 where it is full and 3 while
/// it is emptied; and its slot.
#[derive(Debug, Drop)]
pub struct Desk {
    pub word: u64,
    pub slot: Option<Packet>,
}
