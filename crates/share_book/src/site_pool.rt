//! The pool of all workers on the lists. `site` is what they share, and `members` has the packets
//! and the cache of each, by number: `perform` lets one worker act on both, and writes no other
//! member; `close` ends both. A contract sees of it a pool of the reference model, and each act is
//! the model's.

ghost use Rattle.std.specs.Prelude.{ℕ, ◌≡◌, ◌<◌, ◌≤◌, ◌+◌, List, [], length, map, vec_capacity, vec_len, IfOk, IfErr};
ghost use Rattle.std.specs.List.{range_with_len};
ghost use Rattle.commons.specs.Beside.{KeepsSides};
ghost use Rattle.commons.specs.Bounds.{IsPool};
ghost use Rattle.commons.specs.Lists.{IsMakeCause};
ghost use Rattle.commons.specs.Calls.{Call};
ghost use Rattle.mbuf.specs.Acts.{HasRoom, Performs, as_reply};
ghost use Rattle.commons.specs.PlainCalls.{LeadsPlain};
ghost use Rattle.share_book.specs.inside.Own.{OwnOnLists};
ghost use Rattle.pool_model.specs.Pool.{new_members};

use book::share::{Share, hand_in};
use commons::closed::Closed;
use commons::limits::Limits;
use commons::plain::PlainCommons;
use commons::refusal::Refusal;
use commons::site::PlainSite;
use mbuf::acts;
use mbuf::acts::{Act, Answer, Reply};
use mbuf::packets::Packets;
use pool_model::laws;
use snapshot::closing;
use std::alloc::Global;
use std::marker::Model;

/// A pool as lists, with the packets of all its workers, for one thread. It can't be dropped:
/// `lose` ends it.
pub struct SitePool {
    site: PlainSite,
    members: Vec<Packets>,
}

impl Model for SitePool {
    ghost use Rattle.pool_model.specs.Pool.{Pool};

    ghost Value = { Pool };

    ghost use Rattle.share_book.specs.inside.SitePool.{pool_of, IsSitePool};

    ghost view = { pool_of };

    ghost invariant = { IsSitePool };
}

impl SitePool {
    ghost use Rattle.pool_model.specs.Pool.{held_of, member_at, new_pool};
    ghost use Rattle.pool_model.specs.PacketModel.{after_acts, perform};
    ghost use Rattle.mbuf.specs.declared.acts.Act.{Act};
    ghost use Rattle.mbuf.specs.Fresh.{AreFresh, new_elements};
    ghost use Rattle.mbuf.specs.Refused.{IfRefused};
    ghost use Rattle.pool_model.specs.Sound.{ListsSoundPackets};
    ghost use Rattle.pool_model.specs.Standing.{GaveOnly, PoolAsBefore};
    ghost use Rattle.pool_model.specs.Statements.{statement_of};
    ghost use Rattle.snapshot.specs.Closing.{closed_pool, snapshot_of};
    ghost use Rattle.book.specs.Left.{IsLeftWhole};
    ghost use Rattle.snapshot.specs.Snapshots.{HasSlots, IsLawful, statement_in};

    /// A new pool: all elements in the common list; its workers have nothing, and its desks are
    /// empty.
    ///
    /// Refused `BadPool` where the limits are out of range, and `OutOfMemory` where memory was
    /// refused.
    pub fn make(alloc: Global, limits: &Limits) -> Result<SitePool, Refusal>
        ensures ok { IfOk result (λ p. p ≡ new_pool limits.now) }
        ensures cause { IfErr result (IsMakeCause limits.now) }
    {
        let site = PlainSite::make(alloc, limits)?;
        let members = no_packets(alloc, limits)?;
        Ok(SitePool { site, members })
    }

    /// A law of each pool: its limits are in range, it has as many workers and as many desks as
    /// they say, and the workers are numbered from 1. It does nothing.
    pub fn fits_its_limits(&self)
        ensures range { IsPool self.now.limits }
        ensures workers { length self.now.members ≡ self.now.limits.workers }
        ensures numbers { (n : ℕ) → n < self.now.limits.workers → (member_at self.now n).number ≡ n + 1 }
        ensures desks { length self.now.shared.desks ≡ self.now.limits.desks }
    {
        let _known = &self.members;
    }

    /// A law of each pool: some acts, one after another, made it of a new one. It does nothing.
    pub fn comes_of_acts(&self)
        ensures { (acts : List (ℕ × Act)) × (self.now ≡ after_acts acts (new_pool self.now.limits)) }
    {
        let _known = &self.members;
    }

    /// A law of each pool: each packet that its statement lists has 1 to 32 segments, each with
    /// its data within its buffer, no count is above the reference limit, and a base is direct. It
    /// does nothing.
    pub fn lists_sound_packets(&self)
        ensures { ListsSoundPackets self.now.limits (statement_of self.now) }
    {
        laws::acts_leave_packets_sound();
        let _known = &self.members;
    }

    /// Ends the pool and gives nothing back.
    pub fn lose(self) {
        let SitePool { site: _, members } = self;
        lose_all(members);
    }

    /// Lets a worker, numbered from 1, do this with its packets and its cache, and answers what
    /// came of it. The elements that the answer tells of as new were held by no packet; they, and
    /// no others, have become own elements of packets.
    ///
    /// Refused `StrangerShare` for a worker outside the pool, else as the worker's packets are. A
    /// new packet is refused `PacketsFull` where the worker has too few free slots, else as its
    /// cache's get is: `NoEntries` or `HeadSpent`. An act on a slot that is empty or above 255 is
    /// refused `NoSuchPacket`; else a change of lengths is refused `NoRoom` or `TooShort`, a chain
    /// `SamePacket` or `TooManySegs`, an attach these or `NotDirect`, `InUse` or `RefSpent`, a
    /// detach `TooManySegs` or `NotIndirect`, a clone as a new packet is or `RefSpent`, and an
    /// offer `NoSuchDesk` or `DeskTaken`. A take is refused `NoSuchDesk`, `PacketsFull` or
    /// `DeskEmpty`. Nothing changes then, but that after a refused clone the free elements may
    /// stand in another order, or be shared out differently between cache and stack, and the
    /// modification count may be higher. A push that the stack refuses is not a refusal of a free,
    /// a detach or a flush: `put_off` and `PutOff` tell of it, and the elements stay in the cache.
    /// A flush is never refused.
    ///
    /// After rte_mbuf.h, `rte_pktmbuf_alloc`, `rte_pktmbuf_alloc_bulk`, `rte_pktmbuf_free`,
    /// `rte_pktmbuf_append`, `rte_pktmbuf_prepend`, `rte_pktmbuf_adj`, `rte_pktmbuf_trim`,
    /// `rte_pktmbuf_chain`, `rte_pktmbuf_attach`, `rte_pktmbuf_detach`, `rte_pktmbuf_clone` and
    /// `rte_mbuf_refcnt_read`, `rte_pktmbuf_pkt_len`, the field `nb_segs`, and rte_mempool.h,
    /// `rte_mempool_cache_flush` (DPDK 21.11). Desks are our own.
    pub fn perform(&mut self, worker: u32, act: Act) -> Reply
        ensures done { (result, self.new) ≡ perform self.old worker act }
        ensures fresh { AreFresh self.old.limits.population (held_of self.old.members self.old.shared.desks) (new_elements result) }
        ensures own { GaveOnly (new_elements result) self.old self.new }
        ensures refused { IfRefused result (PoolAsBefore worker act self.old self.new) }
    {
        self.perform_in(worker, act)
    }

    /// Does what `perform` does, and answers with room for a bulk of `ROOM` packets, no fewer than
    /// a bulk asks for where it asks for 256 at most: with none the answer is small.
    pub fn perform_in<const ROOM: usize>(&mut self, worker: u32, act: Act) -> Answer<ROOM>
        requires room { HasRoom ROOM act }
        ensures done { (as_reply result, self.new) ≡ perform self.old worker act }
        ensures fresh { AreFresh self.old.limits.population (held_of self.old.members self.old.shared.desks) (new_elements (as_reply result)) }
        ensures own { GaveOnly (new_elements (as_reply result)) self.old self.new }
        ensures refused { IfRefused (as_reply result) (PoolAsBefore worker act self.old self.new) }
    {
        laws::no_element_is_given_while_it_is_held();
        laws::a_refused_act_changes_nothing();
        if worker == 0 || worker as usize > self.members.len() {
            return Answer::Refused(Refusal::StrangerShare);
        }
        let packets = &mut self.members[worker as usize - 1];
        act_alone(&mut self.site, packets, worker, act)
    }

    /// Ends the pool, and gives its limits, what its shared part leaves, and the share of each
    /// worker, from the first to the last: those of a whole pool at rest. Together they are a lawful
    /// snapshot, with the statement that the pool had.
    ///
    /// Refused `OutOfMemory` where memory was refused. The pool comes back then, as it was.
    pub fn close(self, alloc: Global) -> Result<(Limits, Closed, Vec<Share>), (Refusal, SitePool)>
        ensures limits { IfOk result (λ parts. parts.0 ≡ self.limits) }
        ensures closed { IfOk result (λ parts. parts.1 ≡ closed_pool self) }
        ensures shares { IfOk result (λ parts. parts.2.items ≡ self.members) }
        ensures numbers { IfOk result (λ parts. map (λ share. share.number) parts.2.items ≡ range_with_len 1 self.limits.workers) }
        ensures whole { IfOk result (λ left. IsLeftWhole left.0 left.1 left.2.items) }
        ensures lawful { IfOk result (λ parts. IsLawful (snapshot_of parts.0 parts.1 parts.2.items)) }
        ensures slots { IfOk result (λ parts. HasSlots (snapshot_of parts.0 parts.1 parts.2.items)) }
        ensures statement { IfOk result (λ parts. statement_in (snapshot_of parts.0 parts.1 parts.2.items) ≡ statement_of self) }
        ensures memory { IfErr result (λ refused. refused.0 ≡ Refusal.OutOfMemory) }
        ensures back { IfErr result (λ refused. refused.1 ≡ self) }
    {
        closing::a_closed_pool_is_lawful();
        let Ok(shares) = Vec::with_capacity(alloc, self.members.len()) else {
            return Err((Refusal::OutOfMemory, self));
        };
        let SitePool { site, members } = self;
        let limits = site.limits();
        match site.close(alloc) {
            Ok(closed) => Ok((limits, closed, handed_in(members, shares))),
            Err((cause, site)) => {
                shares.destroy_empty();
                Err((cause, SitePool { site, members }))
            }
        }
    }
}

/// The shares of these workers, in the room that was taken for them.
fn handed_in(mut members: Vec<Packets>, mut shares: Vec<Share>) -> Vec<Share>
    requires empty { shares.items ≡ [] }
    requires room { vec_len members ≤ vec_capacity shares }
    ensures { result.items ≡ members.items }
{
    while let Some(packets) = members.pop() {
        if let Err(failed) = shares.push(hand_in(packets)) {
            failed.value.lose();
            unreachable!()
        }
    }
    members.destroy_empty();
    shares.reverse();
    shares
}

/// Lets one worker act on the lists.
fn act_alone<const ROOM: usize>(
    site: &mut PlainSite,
    packets: &mut Packets,
    worker: u32,
    act: Act,
) -> Answer<ROOM>
    requires room { HasRoom ROOM act }
    requires own { OwnOnLists site.old worker packets.old }
    ensures calls { (calls : List Call) × LeadsPlain worker site.old calls site.new × Performs act packets.old calls (as_reply result) packets.new }
    ensures own { OwnOnLists site.new worker packets.new }
    ensures sides { KeepsSides worker site.old site.new }
{
    let mut c = PlainCommons::new(site, worker);
    acts::perform_in(packets, &mut c, act)
}

/// For each worker of a pool an empty cache and an empty table.
fn no_packets(alloc: Global, limits: &Limits) -> Result<Vec<Packets>, Refusal>
    requires { IsPool limits.now }
    ensures ok { IfOk result (λ v. v.items ≡ new_members limits.now 1 limits.now.workers) }
    ensures memory { IfErr result (λ e. e ≡ Refusal.OutOfMemory) }
{
    let mut members = Vec::new(alloc);
    for number in 1..limits.workers as u32 + 1 {
        match Packets::make(alloc, limits, number) {
            Ok(packets) => {
                if let Err(failed) = members.push(packets) {
                    failed.value.lose();
                    lose_all(members);
                    return Err(Refusal::OutOfMemory);
                }
            }
            Err(cause) => {
                lose_all(members);
                return Err(cause);
            }
        }
    }
    Ok(members)
}

/// Ends each worker.
fn lose_all(mut members: Vec<Packets>) {
    while let Some(packets) = members.pop() {
        packets.lose();
    }
    members.destroy_empty();
}
