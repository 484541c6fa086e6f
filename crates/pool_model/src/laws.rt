//! Laws of the reference model: of its caches, of its desks, and of a pool after any acts.

ghost use Rattle.std.specs.Prelude.{◌≡◌, ◌≢◌, ◌<◌, ◌≤◌, ◌+◌, ℕ, ◌⊎◌, All, List, length, slice_index_or, None, Some, Result};
ghost use Rattle.commons.specs.Bounds.{IsPool};
ghost use Rattle.commons.specs.Calls.{Call};
ghost use Rattle.commons.specs.declared.limits.Limits.{Limits};
ghost use Rattle.commons.specs.declared.packet.Seg.{Seg};
ghost use Rattle.commons.specs.declared.refusal.Refusal.{Refusal};
ghost use Rattle.commons.specs.declared.refusal.Refusal.TheVariants.{DeskTaken, PacketsFull};
ghost use Rattle.mempool.specs.Caches.{Gets, Puts, Flushes};
ghost use Rattle.mempool.specs.declared.put.Put.{Put};
ghost use Rattle.mbuf.specs.declared.acts.Act.{Act};
ghost use Rattle.mbuf.specs.declared.acts.Act.TheVariants.{ClonePacket, Offer, Take};
ghost use Rattle.mbuf.specs.declared.acts.Answer.TheVariants.{Offered, Refused};
ghost use Rattle.mbuf.specs.Fresh.{AreFresh, new_elements};
ghost use Rattle.mbuf.specs.PacketRules.{free_slot};
ghost use Rattle.mbuf.specs.Slots.{LeavesOtherSlots};
ghost use Rattle.pool_model.specs.CacheLaw.{Meets};
ghost use Rattle.pool_model.specs.CacheModel.{get as cache_get, put as cache_put, flush as cache_flush};
ghost use Rattle.pool_model.specs.PacketModel.{after_acts, perform};
ghost use Rattle.pool_model.specs.Pool.{Pool, Shared, held_of, member_at, new_pool};
ghost use Rattle.pool_model.specs.Sound.{IsSound, ListsSoundPackets};
ghost use Rattle.pool_model.specs.Standing.{GaveOnly, IsGivenUp, IsInSlot, IsOfAPacket, IsOnDesk, IsWorker, WasGiven, worker_of};
ghost use Rattle.pool_model.specs.Statements.{statement_of, ListsEachOnce, PlacesEachOnce};

/// The reference model's caches keep the rules that a worker's cache keeps over any shared pool:
/// where the model's stack answers the calls of a rule, the rule's reply and cache are the model's.
pub fn the_model_keeps_the_cache_rules()
    ensures get { (l : Limits) (cache : List ℕ) (n : ℕ) (calls : List Call) (answer : Result (List ℕ) Refusal) (left : List ℕ) (s t : Shared) →
        Gets l cache n calls answer left → Meets s calls t → (answer, left, t) ≡ cache_get l n cache s }
    ensures put { (l : Limits) (cache list : List ℕ) (calls : List Call) (answer : Put) (left : List ℕ) (s t : Shared) →
        Puts l cache list calls answer left → Meets s calls t → (answer, left, t) ≡ cache_put l list cache s }
    ensures flush { (cache : List ℕ) (calls : List Call) (answer : Put) (left : List ℕ) (s t : Shared) →
        Flushes cache calls answer left → Meets s calls t → (answer, left, t) ≡ cache_flush cache s }
{}

/// A desk gives what was left on it. An offer of a packet on an empty desk of the pool succeeds.
/// Where an offer succeeds, the packet that stood in the slot lies on the desk, and the slot is
/// free. After any acts of any workers that take nothing off the desk it still lies there. A take
/// off the desk, by any worker of the pool, then succeeds where the worker has a free slot: it
/// gives the very segments that were offered, into the lowest free slot. Right after the offer it
/// leaves the stack and all desks as they were before it. To a worker that has no free slot it is
/// refused `PacketsFull`, and nothing changes.
pub fn a_desk_gives_what_was_left_on_it()
    ensures met { (pool : Pool) (worker slot desk : ℕ) (packet : List Seg) → IsInSlot pool worker slot packet →
        desk < length pool.shared.desks → slice_index_or pool.shared.desks desk None ≡ None → (perform pool worker (Offer slot desk)).0 ≡ Offered }
    ensures left { (pool : Pool) (worker slot desk : ℕ) → let done = perform pool worker (Offer slot desk) in done.0 ≡ Offered →
        (packet : List Seg) × IsInSlot pool worker slot packet × IsOnDesk done.1 desk packet × (slice_index_or (worker_of done.1 worker).table slot None ≡ None) }
    ensures waits { (pool : Pool) (worker slot desk : ℕ) (packet : List Seg) (acts : List (ℕ × Act)) →
        IsInSlot pool worker slot packet → (perform pool worker (Offer slot desk)).0 ≡ Offered → All (λ done. done.1 ≢ Take desk) acts →
        IsOnDesk (after_acts acts (perform pool worker (Offer slot desk)).1) desk packet }
    ensures taken { (pool : Pool) (worker slot desk taker free : ℕ) (packet : List Seg) (acts : List (ℕ × Act)) →
        IsInSlot pool worker slot packet → (perform pool worker (Offer slot desk)).0 ≡ Offered → All (λ done. done.1 ≢ Take desk) acts →
        let later = after_acts acts (perform pool worker (Offer slot desk)).1 in IsWorker later taker → free_slot (worker_of later taker).table ≡ Some free →
        WasGiven taker desk free packet later (perform later taker (Take desk)) }
    ensures back { (pool : Pool) (worker slot desk taker free : ℕ) → let done = perform pool worker (Offer slot desk) in done.0 ≡ Offered →
        IsWorker done.1 taker → free_slot (worker_of done.1 taker).table ≡ Some free → (perform done.1 taker (Take desk)).1.shared ≡ pool.shared }
    ensures full { (pool : Pool) (worker slot desk taker : ℕ) (packet : List Seg) (acts : List (ℕ × Act)) →
        IsInSlot pool worker slot packet → (perform pool worker (Offer slot desk)).0 ≡ Offered → All (λ done. done.1 ≢ Take desk) acts →
        let later = after_acts acts (perform pool worker (Offer slot desk)).1 in IsWorker later taker → free_slot (worker_of later taker).table ≡ None →
        perform later taker (Take desk) ≡ (Refused PacketsFull, later) }
{}

/// A packet stays on its desk, with the segments that it has, whatever any worker does, until it
/// is taken off. An offer of another packet on this desk is refused `DeskTaken`, and nothing
/// changes. A take off it, by a worker that has a free slot, gives the packet, into the lowest
/// free slot, and empties the desk; the stack and the other desks stay as they are, and all else
/// that the worker has.
pub fn a_packet_stays_on_its_desk()
    ensures stays { (pool : Pool) (worker desk : ℕ) (act : Act) (packet : List Seg) → act ≢ Take desk →
        IsOnDesk pool desk packet → IsOnDesk (perform pool worker act).1 desk packet }
    ensures refused { (pool : Pool) (worker slot desk : ℕ) (packet other : List Seg) → IsOnDesk pool desk packet → IsInSlot pool worker slot other →
        perform pool worker (Offer slot desk) ≡ (Refused DeskTaken, pool) }
    ensures taken { (pool : Pool) (taker desk free : ℕ) (packet : List Seg) → IsOnDesk pool desk packet → IsWorker pool taker →
        free_slot (worker_of pool taker).table ≡ Some free → WasGiven taker desk free packet pool (perform pool taker (Take desk)) }
{}

/// An act that is refused changes nothing, unless it is a clone: the pool is as before. A clone
/// that is refused, in a pool that acts made of a new one, leaves the limits, all packets, numbers
/// and desks, and the caches of all other workers; its worker's cache and the common list have
/// each element as often as before, taken together, and the number of changes of the stack doesn't
/// go back.
pub fn a_refused_act_changes_nothing()
    ensures same { (pool : Pool) (worker : ℕ) (act : Act) (cause : Refusal) → ((source : ℕ) → act ≢ ClonePacket source) →
        (perform pool worker act).0 ≡ Refused cause → (perform pool worker act).1 ≡ pool }
    ensures clone { (l : Limits) (acts : List (ℕ × Act)) (worker source : ℕ) (cause : Refusal) → let pool = after_acts acts (new_pool l) in
        (perform pool worker (ClonePacket source)).0 ≡ Refused cause → IsGivenUp worker pool (perform pool worker (ClonePacket source)).1 }
{}

/// An act of one worker leaves all that the others have: cache and packets of every worker of
/// another number, and the packet on every desk but the one that the act names, where it is an
/// offer or a take. The limits stay, and the number of workers. The number of changes of the stack
/// never goes back.
pub fn others_keep_what_they_have()
    ensures members { (pool : Pool) (worker n : ℕ) (act : Act) → worker ≢ n + 1 → member_at (perform pool worker act).1 n ≡ member_at pool n }
    ensures desks { (pool : Pool) (worker desk : ℕ) (act : Act) → ((slot : ℕ) → act ≢ Offer slot desk) → act ≢ Take desk →
        slice_index_or (perform pool worker act).1.shared.desks desk None ≡ slice_index_or pool.shared.desks desk None }
    ensures limits { (pool : Pool) (worker : ℕ) (act : Act) → (perform pool worker act).1.limits ≡ pool.limits }
    ensures workers { (pool : Pool) (worker : ℕ) (act : Act) → length (perform pool worker act).1.members ≡ length pool.members }
    ensures changes { (pool : Pool) (worker : ℕ) (act : Act) → pool.shared.changes ≤ (perform pool worker act).1.shared.changes }
{}

/// An act leaves the slots of its own worker that it doesn't name: those of the packets that a
/// free, a change of lengths, a chain, an attach, a detach or an offer is about, and those that
/// its reply says were filled, by an alloc, a bulk, a clone or a take. All other slots have what
/// they had, and a slot that was filled was free.
pub fn an_act_leaves_the_slots_it_does_not_name()
    ensures { (pool : Pool) (worker : ℕ) (act : Act) → let done = perform pool worker act in LeavesOtherSlots act done.0 (worker_of pool worker) (worker_of done.1 worker) }
{}

/// A base is always direct: in every pool that acts made of a new one, a segment whose own element
/// is the base of a segment, of whatever packets in slots or on desks, has no base itself.
pub fn a_base_is_always_direct()
    ensures { (l : Limits) (acts : List (ℕ × Act)) (seg other : Seg) → let pool = after_acts acts (new_pool l) in
        IsOfAPacket pool seg → IsOfAPacket pool other → seg.base ≡ Some other.elem → other.base ≡ None }
{}

/// In every pool that acts made of a new one all packets are sound: each, in a slot or on a desk,
/// has 1 to 32 segments, each with its data within a buffer of the pool; no element is held more
/// often than the reference limit says; and a base is direct. The pool's statement says the same
/// of what it lists.
pub fn acts_leave_packets_sound()
    ensures sound { (l : Limits) (acts : List (ℕ × Act)) → IsPool l → IsSound (after_acts acts (new_pool l)) }
    ensures stated { (l : Limits) (acts : List (ℕ × Act)) → IsPool l → ListsSoundPackets l (statement_of (after_acts acts (new_pool l))) }
{}

/// For whoever lets workers act on a `SitePool` without a script: after any acts, by workers of
/// any numbers, a new pool's statement lists each element exactly once, each is the own element of
/// at most one segment, and each packet has a place of its own.
pub fn acts_leave_each_element_in_one_place()
    ensures once { (l : Limits) (acts : List (ℕ × Act)) → IsPool l → ListsEachOnce (statement_of (after_acts acts (new_pool l))) }
    ensures places { (l : Limits) (acts : List (ℕ × Act)) → PlacesEachOnce l (statement_of (after_acts acts (new_pool l))) }
{}

/// No element is given again while anything holds it: in every pool that acts made of a new one,
/// the elements that a worker is told of as new, by an alloc, a bulk or a clone, are elements of
/// the pool, each once, and no packet in a slot or on a desk held one of them. After any act, of
/// any pool, they are own elements of segments of its packets, and no other element has become
/// one, or one more often than before.
pub fn no_element_is_given_while_it_is_held()
    ensures fresh { (l : Limits) (acts : List (ℕ × Act)) (worker : ℕ) (act : Act) → let pool = after_acts acts (new_pool l) in
        AreFresh pool.limits.population (held_of pool.members pool.shared.desks) (new_elements (perform pool worker act).0) }
    ensures own { (pool : Pool) (worker : ℕ) (act : Act) → let done = perform pool worker act in GaveOnly (new_elements done.0) pool done.1 }
{}
