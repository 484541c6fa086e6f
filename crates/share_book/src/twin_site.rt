//! Two pools of all workers on the lists. Direct packets are of the first, and foreign clones, whose
//! bases are elements of it, of the second. `first` and `second` are what the workers share, and
//! `members` has the packets, the clones and both caches of each, by number: `perform` lets one
//! worker act on all of these, and writes no other member; `close` ends them. They are two pools of
//! the reference model, and each act is the model's.

ghost use Rattle.std.specs.Prelude.{ℕ, ◌≡◌, ◌<◌, ◌≤◌, ◌+◌, List, [], length, map, vec_capacity, vec_len, IfOk, IfErr};
ghost use Rattle.std.specs.List.{range_with_len};
ghost use Rattle.commons.specs.Beside.{KeepsSides};
ghost use Rattle.commons.specs.Closing.{closed_of};
ghost use Rattle.commons.specs.Lists.{side_of};
ghost use Rattle.mbuf.specs.Acts.{as_reply};
ghost use Rattle.mbuf.specs.Twins.{OwnTwin};
ghost use Rattle.mbuf.specs.declared.acts.Answer.TheVariants.{Refused};
ghost use Rattle.pool_model.specs.TwinModel.{after_twin_acts, first_statement, new_twin_pool, perform_twin, second_statement};
ghost use Rattle.snapshot.specs.Snapshots.{IsLawful, statement_in};
ghost use Rattle.book.specs.Left.{AreLeftWhole, AreOfPackets, IsLawfulByTypes, first_of, second_of};
ghost use Rattle.twin_acts.specs.TwinActs.{HasTwinRoom, KeepsTwin};
ghost use Rattle.twin_acts.specs.declared.acts.TwinAct.{TwinAct};
ghost use Rattle.share_book.specs.AsModel.{pools_of};
ghost use Rattle.share_book.specs.TwinSites.{ActsAlone, ActsOn, AreTwinPools, HasWorker, IsTwinMakeCause, first_snapshot, new_twin, new_twin_lists, second_snapshot, twin_at};

use crate::deskless::left_without_desks;
use crate::looks::{look_at_desks, look_at_members};
use book::closed_twin::ClosedTwin;
use book::twin_share::{TwinShare, hand_in_twin};
use commons::limits::Limits;
use commons::plain::PlainCommons;
use commons::refusal::Refusal;
use commons::site::PlainSite;
use mbuf::acts::{Answer, Reply};
use mbuf::twin::Twin;
use std::alloc::Global;
use std::marker::Model;
use twin_acts::acts::{TwinAct, perform_twin_in};

/// Two pools as lists, with the packets and the foreign clones of all their workers, for one
/// thread. It can't be dropped: `lose` ends it.
pub struct TwinSite {
    first: PlainSite,
    second: PlainSite,
    members: Vec<Twin>,
}

impl Model for TwinSite {
    ghost use Rattle.share_book.specs.TwinSites.{TwinLists};

    ghost Value = { TwinLists };

    ghost use Rattle.share_book.specs.inside.TwinSite.{lists_of, IsTwinSite};

    ghost view = { lists_of };

    ghost invariant = { IsTwinSite };
}

impl TwinSite {
    /// Two new pools: all elements in their common lists; the workers have nothing, and the first
    /// pool's desks are empty.
    ///
    /// Refused `BadPool` where either limits are out of range, where the pools haven't as many
    /// workers, or where the second has desks, and `OutOfMemory` where memory was refused.
    pub fn make(alloc: Global, first: &Limits, second: &Limits) -> Result<TwinSite, Refusal>
        ensures ok { IfOk result (λ t. t ≡ new_twin_lists first.now second.now) }
        ensures model { IfOk result (λ t. pools_of t ≡ new_twin_pool first.now second.now) }
        ensures pools { IfOk result (λ _. AreTwinPools first.now second.now) }
        ensures cause { IfErr result (IsTwinMakeCause first.now second.now) }
    {
        first.check()?;
        second.check()?;
        if second.workers != first.workers {
            return Err(Refusal::BadPool);
        }
        if second.desks != 0 {
            return Err(Refusal::BadPool);
        }
        opened(alloc, first, second)
    }

    /// A law of any two pools, whatever was done with them: their limits are in range, they have as
    /// many workers, who are numbered from 1 in both, and the second has no desks. It does nothing.
    pub fn fits_its_limits(&self)
        ensures pools { AreTwinPools self.now.first.limits self.now.second.limits }
        ensures workers { length self.now.members ≡ self.now.first.limits.workers }
        ensures first_numbers { map (λ m. m.number) (map (λ m. m.first) self.now.members) ≡ range_with_len 1 self.now.first.limits.workers }
        ensures second_numbers { map (λ m. m.number) (map (λ m. m.second) self.now.members) ≡ range_with_len 1 self.now.second.limits.workers }
    {
        let _known = &self.members;
    }

    /// A law of any two pools, whatever was done with them: each is lawful by itself. In either,
    /// each element is in one place, and its count is the number of its holds: a foreign clone's own
    /// elements are held in the second pool, and its bases in the first. What stands in slots and
    /// lies on desks is packets.
    ///
    /// It looks at each packet once, in every slot of every worker and on every desk, and changes
    /// nothing.
    pub fn each_pool_is_lawful(&self)
        ensures first { IsLawfulByTypes (first_snapshot self.now) }
        ensures second { IsLawfulByTypes (second_snapshot self.now) }
        ensures first_packets { AreOfPackets (first_snapshot self.now) }
        ensures second_packets { AreOfPackets (second_snapshot self.now) }
        ensures first_lawful { IsLawful (first_snapshot self.now) }
        ensures second_lawful { IsLawful (second_snapshot self.now) }
    {
        self.is_lawful_by_types();
        look_at_desks(self.first.desks());
        look_at_members(self.members.as_slice());
    }

    /// Each pool is lawful by itself, given what the types of packets keep. It does nothing.
    pub(crate) fn is_lawful_by_types(&self)
        ensures first { IsLawfulByTypes (first_snapshot self.now) }
        ensures second { IsLawfulByTypes (second_snapshot self.now) }
    {
        let _known = &self.members;
    }

    /// A law of any two pools: some acts, one after another, made them of new ones. It does
    /// nothing.
    pub fn comes_of_acts(&self)
        ensures { (acts : List (ℕ × TwinAct)) × (pools_of self.now ≡ after_twin_acts acts (new_twin_pool self.now.first.limits self.now.second.limits)) }
    {
        let _known = &self.members;
    }

    /// A law of any two pools: what they leave has the statements that the model's pools have. It
    /// does nothing.
    pub fn leaves_its_statements(&self)
        ensures first { statement_in (first_snapshot self.now) ≡ first_statement (pools_of self.now) }
        ensures second { statement_in (second_snapshot self.now) ≡ second_statement (pools_of self.now) }
    {
        let _known = &self.members;
    }

    /// Ends both pools and gives nothing back.
    pub fn lose(self) {
        let TwinSite {
            first: _,
            second: _,
            members,
        } = self;
        lose_all(members);
    }

    /// Lets a worker, numbered from 1, do this with its packets, its clones and its caches, and
    /// answers what came of it, as the reference model does. It does so by calls on the lists of
    /// both pools, and leaves the other workers what they have.
    ///
    /// Refused `StrangerShare` for a worker outside the pools, and nothing changes then; else as
    /// the call of `mbuf::twin::Twin` is that the act names.
    pub fn perform(&mut self, worker: u32, act: TwinAct) -> Reply
        ensures modelled { (result, pools_of self.new) ≡ perform_twin (pools_of self.old) worker act }
        ensures done { HasWorker self.old worker → ActsOn worker act self.old result self.new }
        ensures stranger { ¬ (HasWorker self.old worker) → (result ≡ Refused Refusal.StrangerShare) × (self.new ≡ self.old) }
        ensures first_limits { self.new.first.limits ≡ self.old.first.limits }
        ensures second_limits { self.new.second.limits ≡ self.old.second.limits }
    {
        self.perform_in(worker, act)
    }

    /// Does what `perform` does, and answers with room for a bulk of `ROOM` packets, no fewer than
    /// a bulk asks for where it asks for 256 at most: with none the answer is small.
    pub fn perform_in<const ROOM: usize>(&mut self, worker: u32, act: TwinAct) -> Answer<ROOM>
        requires room { HasTwinRoom ROOM act }
        ensures modelled { (as_reply result, pools_of self.new) ≡ perform_twin (pools_of self.old) worker act }
        ensures done { HasWorker self.old worker → ActsOn worker act self.old (as_reply result) self.new }
        ensures stranger { ¬ (HasWorker self.old worker) → (as_reply result ≡ Refused Refusal.StrangerShare) × (self.new ≡ self.old) }
        ensures first_limits { self.new.first.limits ≡ self.old.first.limits }
        ensures second_limits { self.new.second.limits ≡ self.old.second.limits }
    {
        if worker == 0 || worker as usize > self.members.len() {
            return Answer::Refused(Refusal::StrangerShare);
        }
        let twin = &mut self.members[worker as usize - 1];
        act_alone(&mut self.first, &mut self.second, twin, worker, act)
    }

    /// Ends both pools, and gives of each its limits and what its shared part leaves, and the share
    /// of each worker, from the first to the last: those of two whole pools at rest. Together they
    /// are two lawful snapshots, with the statements that the model's pools have.
    ///
    /// Refused `OutOfMemory` where memory was refused. The pools come back then, as they were.
    pub fn close(self, alloc: Global) -> Result<ClosedTwin, (Refusal, TwinSite)>
        ensures first_limits { IfOk result (λ c. c.first_limits ≡ self.first.limits) }
        ensures first { IfOk result (λ c. c.first ≡ closed_of self.first) }
        ensures second_limits { IfOk result (λ c. c.second_limits ≡ self.second.limits) }
        ensures second { IfOk result (λ c. c.second ≡ closed_of self.second) }
        ensures shares { IfOk result (λ c. c.shares.items ≡ self.members) }
        ensures pools { IfOk result (λ c. AreTwinPools c.first_limits c.second_limits) }
        ensures whole { IfOk result (λ c. AreLeftWhole c) }
        ensures first_model { IfOk result (λ c. statement_in (first_of c.first_limits c.first c.shares.items) ≡ first_statement (pools_of self)) }
        ensures second_model { IfOk result (λ c. statement_in (second_of c.second_limits c.second c.shares.items) ≡ second_statement (pools_of self)) }
        ensures memory { IfErr result (λ refused. refused.0 ≡ Refusal.OutOfMemory) }
        ensures back { IfErr result (λ refused. refused.1 ≡ self) }
    {
        let Ok(shares) = Vec::with_capacity(alloc, self.members.len()) else {
            return Err((Refusal::OutOfMemory, self));
        };
        self.fits_its_limits();
        self.is_lawful_by_types();
        self.leaves_its_statements();
        let Ok(left) = left_without_desks(alloc, &self.second) else {
            shares.destroy_empty();
            return Err((Refusal::OutOfMemory, self));
        };
        let TwinSite {
            first,
            second,
            members,
        } = self;
        let first_limits = first.limits();
        match first.close(alloc) {
            Ok(closed) => Ok(ClosedTwin {
                first_limits,
                first: closed,
                second_limits: second.limits(),
                second: left,
                shares: handed_in(members, shares),
            }),
            Err((cause, first)) => {
                shares.destroy_empty();
                Err((
                    cause,
                    TwinSite {
                        first,
                        second,
                        members,
                    },
                ))
            }
        }
    }
}

/// Two pools within these limits, or a refusal of memory.
fn opened(alloc: Global, first: &Limits, second: &Limits) -> Result<TwinSite, Refusal>
    requires { AreTwinPools first.now second.now }
    ensures ok { IfOk result (λ t. t ≡ new_twin_lists first.now second.now) }
    ensures memory { IfErr result (λ e. e ≡ Refusal.OutOfMemory) }
{
    let lists = PlainSite::make(alloc, first)?;
    let others = PlainSite::make(alloc, second)?;
    let members = no_twins(alloc, first, second)?;
    Ok(TwinSite {
        first: lists,
        second: others,
        members,
    })
}

/// The shares of these workers, in the room that was taken for them.
fn handed_in(mut members: Vec<Twin>, mut shares: Vec<TwinShare>) -> Vec<TwinShare>
    requires empty { shares.items ≡ [] }
    requires room { vec_len members ≤ vec_capacity shares }
    ensures { result.items ≡ members.items }
{
    while let Some(twin) = members.pop() {
        if let Err(failed) = shares.push(hand_in_twin(twin)) {
            failed.value.lose();
            unreachable!()
        }
    }
    members.destroy_empty();
    shares.reverse();
    shares
}

/// Lets one worker act on the lists of both pools.
fn act_alone<const ROOM: usize>(
    first: &mut PlainSite,
    second: &mut PlainSite,
    twin: &mut Twin,
    worker: u32,
    act: TwinAct,
) -> Answer<ROOM>
    requires room { HasTwinRoom ROOM act }
    requires positive { 1 ≤ worker }
    requires of_first { worker ≤ first.old.limits.workers }
    requires of_second { worker ≤ second.old.limits.workers }
    requires own { OwnTwin twin.old (side_of first.old worker) (side_of second.old worker) }
    ensures acts { ActsAlone worker act first.old second.old twin.old (as_reply result) first.new second.new twin.new }
    ensures own { OwnTwin twin.new (side_of first.new worker) (side_of second.new worker) }
    ensures first_sides { KeepsSides worker first.old first.new }
    ensures second_sides { KeepsSides worker second.old second.new }
    ensures member { KeepsTwin twin.old twin.new }
{
    let mut c = PlainCommons::new(first, worker);
    let mut d = PlainCommons::new(second, worker);
    perform_twin_in(twin, &mut c, &mut d, act)
}

/// For each worker of both pools two empty caches and two empty tables.
fn no_twins(alloc: Global, first: &Limits, second: &Limits) -> Result<Vec<Twin>, Refusal>
    requires { AreTwinPools first.now second.now }
    ensures ok { IfOk result (λ v. v.items ≡ map (new_twin first.now second.now) (range_with_len 1 first.now.workers)) }
    ensures memory { IfErr result (λ e. e ≡ Refusal.OutOfMemory) }
{
    let mut members = Vec::new(alloc);
    for number in 1..first.workers as u32 + 1 {
        match Twin::make(alloc, first, second, number) {
            Ok(twin) => {
                if let Err(failed) = members.push(twin) {
                    failed.value.lose();
                    lose_all(members);
                    return Err(Refusal::OutOfMemory);
                }
            }
            Err(cause) => {
                lose_all(members);
                return Err(cause);
            }
        }
    }
    Ok(members)
}

/// Ends each worker.
fn lose_all(mut members: Vec<Twin>) {
    while let Some(twin) = members.pop() {
        twin.lose();
    }
    members.destroy_empty();
}
