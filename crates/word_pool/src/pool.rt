//! The pool of all workers on words.

ghost use Rattle.std.specs.Prelude.{◌≡◌, ◌↔◌, IsTrue, ◌+◌, ◌<◌, ◌≤◌, ◌++◌, ◌∷◌, [], All, List, IfOk, IfErr, length, vec_len, vec_capacity};
ghost use Rattle.book.specs.Left.{IsLeftWhole};
ghost use Rattle.book.specs.Listing.{ListsPackets};
ghost use Rattle.commons.specs.Bounds.{IsPool};
ghost use Rattle.ground.specs.Changing.{IsUnmoved};
ghost use Rattle.ground.specs.Opening.{IsGroundCause};
ghost use Rattle.ground.specs.Own.{AtRest, KnowsDesks};
ghost use Rattle.ground.specs.Rule.{first_known};
ghost use Rattle.ground.specs.Seats.{IsOf};
ghost use Rattle.pool_model.specs.Statements.{ListsEachOnce, PlacesEachOnce};
ghost use Rattle.snapshot.specs.Closing.{snapshot_of};
ghost use Rattle.snapshot.specs.Snapshots.{statement_in};
ghost use Rattle.word_pool.specs.Leaving.{statement_at_start};
ghost use Rattle.word_pool.specs.Shares.{AreSharesOf};
ghost use Rattle.word_pool.specs.inside.Crews.{IsUnused, new_member};
ghost use Rattle.word_pool.specs.Lost.{AreLeft, AreLostOf, left_of};
ghost use Rattle.word_pool.specs.Workers.{AreNew, AreWorkers, HasNotActed, IsAt, IsIdle, IsSeatOf, IsStatementOfWorkers, IsWorker, members_of, parts_of};
ghost use Rattle.step_core.specs.World.{every_part};

use crate::closing::closed_by;
use crate::worker::WordWorker;
use book::ending::{elements_lost, settled_parts};
use book::share::{Share, hand_in, lose_all};
use commons::closed::Closed;
use commons::limits::Limits;
use commons::refusal::Refusal;
use ground::pool::Ground;
use ground::seat::GroundSeat;
use mbuf::packets::Packets;
use pool_statement::statement::Statement;
use std::alloc::Global;

/// The part of a pool that each worker is made with.
const WORKER_PART: u64 = 1 << 56;

/// Makes a pool on words, and its workers, numbered from 1, each with a worker's part of it, and none of
/// whom has anything yet, nor has acted. The words are those of a new ground (`Ground::make`): all
/// elements are in the common list, element 0 on top. Settled as it is, the pool's statement is
/// that of the start (`settled`).
///
/// Refused `BadPool` where the limits are out of range, and `OutOfMemory` where memory was refused.
pub fn make(alloc: Global, limits: &Limits) -> Result<(Ground, Vec<WordWorker>), Refusal>
    ensures limits { IfOk result (λ made. made.0.limits ≡ limits.now) }
    ensures workers { IfOk result (λ made. AreWorkers made.0 made.1.items) }
    ensures parts { IfOk result (λ made. All (IsWorker made.0) made.1.items) }
    ensures new { IfOk result (λ made. AreNew limits.now made.1.items) }
    ensures pool { IfOk result (λ _. IsPool limits.now) }
    ensures cause { IfErr result (IsGroundCause limits.now) }
{
    let (ground, seat) = Ground::make(alloc, limits)?;
    match workers_of(alloc, &ground, seat) {
        Ok(workers) => Ok((ground, workers)),
        Err(_) => Err(Refusal::OutOfMemory),
    }
}

/// A worker for each part of a seat that names nothing, numbered from 1.
fn workers_of(alloc: Global, ground: &Ground, seat: GroundSeat) -> Result<Vec<WordWorker>, Refusal>
    requires of { IsOf ground.now seat }
    requires known { seat.known ≡ first_known ground.now.limits }
    requires slots { seat.slots ≡ [] }
    ensures workers { IfOk result (λ workers. AreWorkers ground.now workers.items) }
    ensures parts { IfOk result (λ workers. All (IsWorker ground.now) workers.items) }
    ensures new { IfOk result (λ workers. AreNew ground.now.limits workers.items) }
    ensures memory { IfErr result (λ e. e ≡ Refusal.OutOfMemory) }
{
    let limits = ground.limits();
    let mut rest = FreeSeat { seat };
    let mut workers = Vec::new(alloc);
    for number in 1..limits.workers as u32 {
        let seat = ground.split(&mut rest.seat);
        add_worker(alloc, &limits, &mut workers, seat, number)?;
    }
    add_worker(
        alloc,
        &limits,
        &mut workers,
        rest.into_seat(),
        limits.workers as u32,
    )?;
    Ok(workers)
}

/// Adds the worker of this number, who has this seat and nothing yet.
fn add_worker(
    alloc: Global,
    limits: &Limits,
    workers: &mut Vec<WordWorker>,
    seat: GroundSeat,
    number: u32,
) -> Result<(), Refusal>
    requires pool { IsPool limits.now }
    requires first { 1 ≤ number }
    requires last { number ≤ limits.now.workers }
    requires unused { IsUnused limits.now 1 seat }
    ensures added { IfOk result (λ _. workers.new.items ≡ workers.old.items ++
        record { seat = seat; member = new_member limits.now number } ∷ []) }
    ensures memory { IfErr result (λ e. e ≡ Refusal.OutOfMemory) }
{
    match Packets::make(alloc, limits, number) {
        Ok(packets) => add(workers, WordWorker::new(seat, packets, WORKER_PART)),
        Err(cause) => {
            seat.lose();
            Err(cause)
        }
    }
}

/// Adds a worker.
fn add(workers: &mut Vec<WordWorker>, worker: WordWorker) -> Result<(), Refusal>
    ensures added { IfOk result (λ _. workers.new.items ≡ workers.old.items ++ worker ∷ []) }
    ensures memory { IfErr result (λ e. e ≡ Refusal.OutOfMemory) }
{
    match workers.push(worker) {
        Ok(()) => Ok(()),
        Err(_) => Err(Refusal::OutOfMemory),
    }
}

/// A seat that no worker has taken yet: where none does, it is lost.
struct FreeSeat {
    seat: GroundSeat,
}

impl Drop for FreeSeat {
    fn drop(self) {
        let FreeSeat { seat } = self;
        seat.lose();
    }
}

impl FreeSeat {
    /// The seat.
    fn into_seat(self) -> GroundSeat
        ensures { result ≡ self.seat }
    {
        let FreeSeat { seat } = self;
        seat
    }
}

/// Whether all of a pool's workers have every part of it together: each parcel that one of them sent
/// was received by one of them. Until then the pool can't be settled.
pub fn all_received(ground: &Ground, workers: &[WordWorker]) -> bool
    ensures { IsTrue result ↔ (parts_of workers.now ≡ every_part ground.now.limits) }
{
    let mut left = ground.limits().workers * WORKER_PART;
    for worker in workers {
        let part = worker.part();
        if part > left {
            return false;
        }
        left -= part;
    }
    left == 0
}

/// Ends a pool whose workers no longer act: their seats become one, their packets are handed in, in
/// the order of the workers' numbers, and the ground is closed. The workers have every part of the
/// pool together: each packet that one of them sent was received (`all_received`). It gives the
/// pool's limits, what the ground left, and the share of each worker, from the first to the last: a
/// whole pool at rest. Its statement is that of what the ground left and of these workers' caches and
/// packets, and no count in it is above the reference limit. Where no worker has acted, all elements
/// are in the common list, element 0 on top, and no packet is on a desk.
///
/// Refused `OutOfMemory` where memory was refused. The pool is ended then too, and nothing is left
/// of it.
pub fn close(
    alloc: Global,
    ground: Ground,
    workers: Vec<WordWorker>,
) -> Result<(Limits, Closed, Vec<Share>), Refusal>
    requires { AreWorkers ground workers.items }
    ensures limits { IfOk result (λ left. left.0 ≡ ground.limits) }
    ensures whole { IfOk result (λ left. IsLeftWhole left.0 left.1 left.2.items) }
    ensures shares { IfOk result (λ left. left.2.items ≡ members_of workers.items) }
    ensures statement { IfOk result (λ left.
        IsStatementOfWorkers ground workers.items (statement_in (snapshot_of left.0 left.1 left.2.items))) }
    ensures fresh { All HasNotActed workers.items → IfOk result (λ left.
        statement_in (snapshot_of left.0 left.1 left.2.items) ≡ statement_at_start ground.limits (members_of workers.items)) }
    ensures counts { IfOk result (λ left.
        All (λ held. held.count ≤ left.0.ref_limit) (statement_in (snapshot_of left.0 left.1 left.2.items)).held) }
    ensures memory { IfErr result (λ e. e ≡ Refusal.OutOfMemory) }
{
    let _ = ground.limits();
    let Ok(shares) = Vec::with_capacity(alloc, workers.len()) else {
        return Err(Refusal::OutOfMemory);
    };
    let (seat, shares) = joined(&ground, workers, shares);
    match closed_by(ground, seat) {
        Ok((limits, closed)) => Ok((limits, closed, shares)),
        Err(cause) => {
            lose_all(shares);
            Err(cause)
        }
    }
}

/// Ends a pool whose workers no longer act, as `close` does, and settles it. So each packet that one
/// worker sent has to be received by one (`all_received`): a parcel that is lost or under way has a
/// part of the pool, and what its packet holds is in no worker's hands. The statement lists
/// each element exactly once, and each packet has a place of its own; it is that of what the ground
/// left and of these workers' caches and packets. Each packet has 1 to 32 segments, each with its
/// data within its buffer, and no count is above the reference limit. Where no worker has acted, all
/// elements are in the common list, element 0 on top, and no packet is on a desk.
///
/// Refused `OutOfMemory` where memory was refused. The pool is ended then too, and nothing is left
/// of it.
pub fn settled(
    alloc: Global,
    ground: Ground,
    workers: Vec<WordWorker>,
) -> Result<Statement, Refusal>
    requires { AreWorkers ground workers.items }
    ensures statement { IfOk result (IsStatementOfWorkers ground workers.items) }
    ensures fresh { All HasNotActed workers.items → IfOk result (λ s. s ≡ statement_at_start ground.limits (members_of workers.items)) }
    ensures once { IfOk result (λ s. ListsEachOnce s) }
    ensures places { IfOk result (λ s. PlacesEachOnce ground.limits s) }
    ensures sound { IfOk result (λ s. ListsPackets ground.limits s) }
    ensures memory { IfErr result (λ e. e ≡ Refusal.OutOfMemory) }
{
    let (limits, closed, shares) = close(alloc, ground, workers)?;
    settled_parts(alloc, &limits, closed, shares)
}

/// Ends the worker of this number, as one who died: its seat, its cache and its packets are lost.
/// An only worker stays, since its seat has to close the ground. The call is given no ground, so it
/// does nothing to one: the dead worker acts no more, and what it had stays where it is. The others
/// are those who are left (law `a_worker_is_lost_and_the_others_are_left`).
pub fn lose(workers: &mut Vec<WordWorker>, number: u32)
    requires first { 1 ≤ number }
    requires last { number ≤ length workers.old.items }
    ensures { workers.new.items ≡ left_of number workers.old.items }
{
    if workers.len() != 1 {
        let _lost = workers.remove(number as usize - 1);
    }
}

/// Ends a pool of which these workers are left, whose others are listed as missing, and tells which
/// elements are lost, ascending: exactly those in the hand of a listed worker or held by listed
/// workers alone, wherever these stopped, in mid-call too: in a lawful world that left these words,
/// since nobody asks the listed workers' threads what they knew. The seats of those who are left
/// become one, which closes the ground, and their packets are handed in. Where a listed worker is
/// among them, as an only one whose seat was kept, its cache and its packets are lost. So is what a
/// parcel holds that nobody received.
///
/// Refused `OutOfMemory` where memory was refused. The pool is ended then too, and nothing is left
/// of it.
pub fn settled_without(
    alloc: Global,
    ground: Ground,
    workers: Vec<WordWorker>,
    missing: &[u32],
) -> Result<Vec<u32>, Refusal>
    requires { AreLeft ground missing.now workers.items }
    ensures lost { IfOk result (λ elems. AreLostOf ground missing.now workers.items elems.items) }
    ensures memory { IfErr result (λ e. e ≡ Refusal.OutOfMemory) }
{
    let Ok(shares) = Vec::with_capacity(alloc, workers.len()) else {
        return Err(Refusal::OutOfMemory);
    };
    let (seat, shares) = joined(&ground, workers, shares);
    match closed_by(ground, seat) {
        Ok((limits, closed)) => elements_lost(alloc, &limits, closed, shares, missing),
        Err(cause) => {
            lose_all(shares);
            Err(cause)
        }
    }
}

/// Makes one seat of the seats of these workers, from the last to the first, and hands in their
/// packets, in the room that was taken for the shares.
fn joined(
    ground: &Ground,
    mut workers: Vec<WordWorker>,
    mut shares: Vec<Share>,
) -> (GroundSeat, Vec<Share>)
    requires some { 0 < length workers.items }
    requires each { All (IsAt ground.now) workers.items }
    requires empty { shares.items ≡ [] }
    requires room { vec_len workers ≤ vec_capacity shares }
    ensures of { IsOf ground.now result.0 }
    ensures rest { AtRest result.0.known.view }
    ensures made { IsSeatOf workers.items result.0.known }
    ensures idle { All IsIdle workers.items }
    ensures members { result.1.items ≡ members_of workers.items }
    ensures shares { AreSharesOf result.1.items result.0.known.view }
    ensures unmoved { All HasNotActed workers.items → IsUnmoved result.0.known }
    ensures desks { KnowsDesks result.0.known }
{
    let Some(last) = workers.pop() else {
        unreachable!()
    };
    let (mut seat, packets) = last.into_parts();
    add_share(&mut shares, packets);
    while let Some(worker) = workers.pop() {
        let (mut first, packets) = worker.into_parts();
        ground.join(&mut first, seat);
        seat = first;
        add_share(&mut shares, packets);
    }
    shares.reverse();
    seat.knows_desks();
    (seat, shares)
}

/// Hands in a worker's packets, where there is room.
fn add_share(shares: &mut Vec<Share>, packets: Packets)
    requires room { vec_len shares.old < vec_capacity shares.old }
    ensures added { shares.new.items ≡ shares.old.items ++ packets ∷ [] }
    ensures len { vec_len shares.new ≡ vec_len shares.old + 1 }
    ensures room { vec_capacity shares.old ≤ vec_capacity shares.new }
{
    if let Err(failed) = shares.push(hand_in(packets)) {
        failed.value.lose();
        unreachable!()
    }
}
