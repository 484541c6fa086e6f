//! Laws of a worker's packets. Each is a function that does nothing, and its contract is the law.

ghost use Rattle.std.specs.Prelude.{◌≡◌, ℕ, List, [], None, replicate};
ghost use Rattle.commons.specs.Calls.{Call, SameSide, Side};
ghost use Rattle.mbuf.specs.Acts.{Performs, Reply};
ghost use Rattle.mbuf.specs.declared.acts.Act.{Act};
ghost use Rattle.mbuf.specs.Members.{Member, slots};
ghost use Rattle.mbuf.specs.Own.{Own, OwnWith};
ghost use Rattle.mbuf.specs.Parcels.{BringingInLeavesOwn, StandingPacketsAreHad, TakingOutLeavesOwn};
ghost use Rattle.mbuf.specs.Slots.{LeavesOtherSlots};
ghost use Rattle.mbuf.specs.Twins.{OwnTwin, TwinMember};

/// The packets of a new worker are its own where it has nothing of the shared pool, in its hand or
/// held.
pub fn new_packets_are_own()
    ensures { (s : Side) (number : ℕ) → ((i : ℕ) → s.hand i ≡ 0) → ((i : ℕ) → s.holds i ≡ 0) →
        Own (record { limits = s.limits; number = number; cache = []; table = replicate slots None }) s }
{}

/// A worker's packets stay its own, with whatever guests, while what it has of the shared pool
/// stays, whatever others do.
pub fn packets_stay_own()
    ensures { (guests : ℕ → ℕ) (m : Member) (before after : Side) → OwnWith guests m before → SameSide before after →
        OwnWith guests m after }
{}

/// A new worker of two pools is its own in both, where it has nothing of the shared part of either,
/// in its hand or held.
pub fn new_twins_are_own()
    ensures { (s t : Side) (number : ℕ) → ((i : ℕ) → s.hand i ≡ 0) → ((i : ℕ) → s.holds i ≡ 0) →
        ((i : ℕ) → t.hand i ≡ 0) → ((i : ℕ) → t.holds i ≡ 0) → OwnTwin (record {
          first = record { limits = s.limits; number = number; cache = []; table = replicate slots None };
          second = record { limits = t.limits; number = number; cache = []; table = replicate slots None };
        }) s t }
{}

/// A worker of two pools stays its own while what it has of either stays, whatever others do.
pub fn twins_stay_own()
    ensures { (twin : TwinMember) (s t s_after t_after : Side) → OwnTwin twin s t → SameSide s s_after →
        SameSide t t_after → OwnTwin twin s_after t_after }
{}

/// An act leaves the slots that it doesn't name, over any shared pool: a free, a change of
/// lengths, a chain, an attach, a detach and an offer write the slots that they name, and an
/// alloc, a bulk, a clone and a take fill those that the reply tells. All other slots have what
/// they had, and a slot that was filled was free.
pub fn an_act_leaves_the_slots_it_does_not_name()
    ensures { (act : Act) (before after : Member) (calls : List Call) (reply : Reply) →
        Performs act before calls reply after → LeavesOtherSlots act reply before after }
{}

/// A worker has all that the packets hold that stand in its slots, and their own elements are
/// headers of it.
pub fn a_standing_packet_is_its_workers()
    ensures { StandingPacketsAreHad }
{}

/// Where a packet is taken out, with all that it holds, the others are the worker's own, with
/// whatever guests.
pub fn taking_a_packet_out_leaves_the_others_own()
    ensures { TakingOutLeavesOwn }
{}

/// Where a packet is brought in, with all that it holds, it and the others are the worker's own,
/// with whatever guests.
pub fn bringing_a_packet_in_leaves_all_own()
    ensures { BringingInLeavesOwn }
{}
