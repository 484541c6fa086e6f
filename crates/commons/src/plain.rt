//! One worker's side of the shared part that is kept as lists: it names its worker in each call.

ghost use Rattle.std.specs.Prelude.{◌≡◌, ◌<◌, ◌≤◌, ◌+◌, ℕ, List, length};
ghost use Rattle.commons.specs.Bag.{bag, one};
ghost use Rattle.commons.specs.Calls.{Reading, Call, GetList, PutList, Claim, CountOf, Raise, Lower, Offer, Take, CommonCount, with_list, Did, Side};
ghost use Rattle.commons.specs.Lists.{Lists, IsTable, side_of, DidOnLists};

use crate::packet::Packet;
use crate::refusal::{Lowered, Refusal};
use crate::shared::Commons;
use crate::site::PlainSite;

/// A `PlainSite` as one worker sees it.
#[derive(Debug, Drop)]
pub struct PlainCommons<'a> {
    site: &'a mut PlainSite,
    worker: u32,
    pub ghost positive: { 1 ≤ worker },
    pub ghost of_pool: { worker ≤ site.now.limits.workers },
    pub ghost table: { IsTable site.now },
}

impl<'a> PlainCommons<'a> {
    /// The site as this worker sees it, who is of its pool.
    pub fn new(site: &'a mut PlainSite, worker: u32) -> PlainCommons<'a>
        requires low { 1 ≤ worker }
        requires high { worker ≤ site.old.limits.workers }
        ensures same { result.site.ghost_name ≡ site.entry.ghost_name }
        ensures now { result.site.now ≡ site.old }
        ensures worker { result.worker ≡ worker }
    {
        let _known = site.limits();
        PlainCommons { site, worker }
    }
}

impl<'a> Commons for PlainCommons<'a> {
    ghost side = { λ c. side_of c.site.now c.worker };

    ghost did = { λ s call rs t. (t.site.ghost_name ≡ s.site.ghost_name) × (t.worker ≡ s.worker) × DidOnLists s.worker s.site.now call rs t.site.now };

    fn get_list(&mut self, out: &mut [u32]) -> Result<(), Refusal> {
        self.site.get(self.worker, out)
    }

    fn put_list(&mut self, list: &[u32]) -> Result<(), Refusal> {
        self.site.put(self.worker, list)
    }

    fn claim(&mut self, element: u32) {
        self.site.claim(self.worker, element)
    }

    fn count(&mut self, element: u32) -> u32 {
        self.site.count(element)
    }

    fn raise(&mut self, element: u32) -> Result<(), Refusal> {
        self.site.raise(self.worker, element)
    }

    fn lower(&mut self, element: u32) -> Lowered {
        self.site.lower(self.worker, element)
    }

    fn offer(&mut self, desk: u32, packet: Packet) -> Result<(), (Refusal, Packet)> {
        self.site.offer(self.worker, desk, packet)
    }

    fn take(&mut self, desk: u32) -> Result<Packet, Refusal> {
        self.site.take(self.worker, desk)
    }

    fn common_count(&mut self) -> u32 {
        self.site.common_count()
    }

    ghost use Rattle.commons.specs.inside.ListLaws.{hand_once_lem, hand_below_lem, holds_below_lem, apart_lem, header_once_lem, header_held_lem};

    ghost hand_once = { λ c i. hand_once_lem c.site.now c.worker i };

    ghost hand_below = { λ c i h. hand_below_lem c.site.now c.worker i c.table h };

    ghost holds_below = { λ c i h. holds_below_lem c.site.now c.worker i c.table h };

    ghost apart = { λ c i h. apart_lem c.site.now c.worker i c.table h };

    ghost header_once = { λ c i. header_once_lem c.site.now c.worker i };

    ghost header_held = { λ c i h. header_held_lem c.site.now c.worker i c.table c.positive h };
}
