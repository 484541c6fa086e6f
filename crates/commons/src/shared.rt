//! The trait through which one worker uses what all workers of a pool share, however it is kept.

ghost use Rattle.std.specs.Prelude.{◌≡◌, ◌<◌, ◌≤◌, ℕ, List, length, IfErr};
ghost use Rattle.commons.specs.Bag.{bag, one};
ghost use Rattle.commons.specs.Calls.{Reading, Call, GetList, PutList, Claim, CountOf, Raise, Lower, Offer, Take, CommonCount, with_list, without_packet, Did, Side};
ghost use Rattle.commons.specs.Packets.{holds_of_packet, own_of_packet};

use crate::packet::Packet;
use crate::refusal::{Lowered, Refusal};

/// What a worker of a packet pool shares with others, the common stack, with its own side of it.
/// The worker's hand is the free elements that it took off the stack and has neither claimed nor
/// put back: those of its lcore cache, and those on the way. Its holds are the references that it
/// has to elements, each as often as it has one: each is one count of an mbuf's `refcnt`. Its
/// headers are elements that it holds, each a packet's own mbuf: those that it claimed, or that
/// came as own elements of a packet, until it offers their packet or its last hold of them ends.
///
/// Each answer has its cause in the last that the call read of the kind. Where a call changes a
/// word by an exchange, that is the value which the exchange saw, so that it costs nothing to
/// know.
pub trait Commons {
    /// What the worker has of the pool: its limits, and the worker's hand, holds and headers.
    ghost side: { Self → Side };

    /// A call was made, read this, and led from the first state to the second.
    ghost did: { Self → Call → List Reading → Self → Type 0 };

    /// Moves `out.len()` elements, at least one, from the common stack into the hand: all of them,
    /// or none. `out` lists them; on the lists the top of the stack comes first.
    ///
    /// Refused `NoEntries` where a length below `out.len()` was read, `HeadSpent` where the spent
    /// modification count was read, and `Contended` after `tries` lost tries. Hand, holds and
    /// headers are then as before, and nothing is said of `out`. Of a get that succeeds, the last
    /// modification count that was read is below the spent one.
    ///
    /// After rte_stack_lf_generic.h, `__rte_stack_lf_pop_elems` (DPDK 21.11). `Contended` and
    /// `HeadSpent` are our own.
    fn get_list(&mut self, out: &mut [u32]) -> Result<(), Refusal>
        requires { 0 < length out.old }
        ensures did { Did did side self.old (GetList (length out.old) (with_list result out.new)) self.new };

    /// Moves a list of distinct elements, at least one, from the hand onto the common stack: all of
    /// them, or none. On the lists the last one is on top then.
    ///
    /// Refused `HeadSpent` where the spent modification count was read, and `Contended` after
    /// `tries` lost tries. Hand, holds and headers are then as before. Of a put that succeeds, the
    /// last modification count that was read is below the spent one.
    ///
    /// After rte_stack_lf_generic.h, `__rte_stack_lf_push_elems` (DPDK 21.11), which can't be
    /// refused.
    fn put_list(&mut self, list: &[u32]) -> Result<(), Refusal>
        requires some { 0 < length list.now }
        requires in_hand { (i : ℕ) → bag list.now i ≤ (side self.old).hand i }
        ensures did { Did did side self.old (PutList list.now result) self.new };

    /// Makes an element of the hand a held one, with one hold by this worker, whose header it is.
    ///
    /// After rte_mbuf.h, `rte_mbuf_raw_alloc` (DPDK 21.11), which gives an mbuf of count 1.
    fn claim(&mut self, element: u32)
        requires { 0 < (side self.old).hand element }
        ensures did { Did did side self.old (Claim element) self.new };

    /// The reference count of an element that this worker holds, as read at one moment of the
    /// call: the number of holds of all holders, at least the worker's own and at most the pool's
    /// reference limit. 1 says that there is no other hold.
    ///
    /// After rte_mbuf.h, `rte_mbuf_refcnt_read` (DPDK 21.11).
    fn count(&mut self, element: u32) -> u32
        requires { 0 < (side self.old).holds element }
        ensures did { Did did side self.old (CountOf element result) self.new };

    /// Makes one more hold by this worker of an element that it holds.
    ///
    /// Refused `RefSpent` where the last count of the element that was read is the pool's
    /// reference limit, and `Contended` after `tries` lost tries. Hand, holds and headers are then
    /// as before. Where the raise succeeds, the last count read is below the limit.
    ///
    /// After rte_mbuf.h, `rte_mbuf_refcnt_update` (DPDK 21.11), which knows no limit. `RefSpent`
    /// and `Contended` are our own.
    fn raise(&mut self, element: u32) -> Result<(), Refusal>
        requires { 0 < (side self.old).holds element }
        ensures did { Did did side self.old (Raise element result) self.new };

    /// Ends one hold that this worker has of an element. `Last` where it was the only one: the
    /// element is then in the hand, with count 1. `Still` where another hold was left at that step.
    /// The last count of the element that was read is 1 at `Last`, and above 1 at `Still`. A header
    /// is one until the worker's last hold of it ends.
    ///
    /// After rte_mbuf.h, `rte_pktmbuf_prefree_seg` (DPDK 21.11).
    fn lower(&mut self, element: u32) -> Lowered
        requires { 0 < (side self.old).holds element }
        ensures did { Did did side self.old (Lower element result) self.new };

    /// Leaves a packet on a desk, of which the pool has `desks`, numbered from 0. The worker holds
    /// all that the packet holds, and the packet's own elements are distinct headers of the worker;
    /// both are gone afterwards, and an element of which the worker has no hold left then is no
    /// header of it.
    ///
    /// Refused `NoSuchDesk` exactly where the pool has no such desk, and `DeskTaken` where a desk
    /// word other than 0, that of an empty desk, was read. The packet comes back then, and hand,
    /// holds and headers are as before. Where the offer succeeds, the last word of the desk that
    /// was read is that of an empty one.
    ///
    /// Desks are our own; DPDK passes mbufs between lcores over an `rte_ring`.
    fn offer(&mut self, desk: u32, packet: Packet) -> Result<(), (Refusal, Packet)>
        requires held { (i : ℕ) → bag (holds_of_packet packet) i ≤ (side self.old).holds i }
        requires own { (i : ℕ) → bag (own_of_packet packet) i ≤ (side self.old).headers i }
        ensures did { Did did side self.old (Offer desk packet (without_packet result)) self.new }
        ensures kept { IfErr result (λ refused. refused.1 ≡ packet) };

    /// Takes the packet off a desk, of which the pool has `desks`, numbered from 0. The worker then
    /// holds all that the packet holds; the packet's own elements, which are distinct and were no
    /// headers of the worker, are headers of it.
    ///
    /// Refused `NoSuchDesk` exactly where the pool has no such desk, and `DeskEmpty` where a desk
    /// word other than 2, that of a full desk, was read. Hand, holds and headers are then as
    /// before. Where the take succeeds, the last word of the desk that was read is that of a full
    /// one.
    ///
    /// Desks are our own; DPDK passes mbufs between lcores over an `rte_ring`.
    fn take(&mut self, desk: u32) -> Result<Packet, Refusal>
        ensures did { Did did side self.old (Take desk result) self.new };

    /// The length word of the common stack, as read at one moment of the call. While another
    /// worker is within a call it may lag behind the stack itself; on the lists it is the list's
    /// length.
    ///
    /// After rte_stack_lf_generic.h, `__rte_stack_lf_count` (DPDK 21.11).
    fn common_count(&mut self) -> u32
        ensures did { Did did side self.old (CommonCount result) self.new };

    /// An element is in a hand at most once, and none at or above the population is.
    ghost hand_once: { (c : Self) (i : ℕ) → (side c).hand i ≤ 1 };

    ghost hand_below: { (c : Self) (i : ℕ) → (side c).limits.population ≤ i → (side c).hand i ≡ 0 };

    /// No element at or above the population is held.
    ghost holds_below: { (c : Self) (i : ℕ) → (side c).limits.population ≤ i → (side c).holds i ≡ 0 };

    /// What the worker holds isn't in its hand.
    ghost apart: { (c : Self) (i : ℕ) → 0 < (side c).holds i → (side c).hand i ≡ 0 };

    /// An element is a header at most once, and only one that the worker holds.
    ghost header_once: { (c : Self) (i : ℕ) → (side c).headers i ≤ 1 };

    ghost header_held: { (c : Self) (i : ℕ) → 0 < (side c).headers i → 0 < (side c).holds i };
}
