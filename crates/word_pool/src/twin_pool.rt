//! Two pools of all workers on words, each on a ground of its own. Direct packets are of the first,
//! and foreign clones, whose bases are elements of it, of the second.

ghost use Rattle.std.specs.Prelude.{◌≡◌, ◌+◌, ◌<◌, ◌≤◌, ◌++◌, ◌∷◌, [], All, IfOk, IfErr, length, true, vec_len, vec_capacity};
ghost use Rattle.book.specs.Left.{AreLeftWhole, first_of, second_of};
ghost use Rattle.ground.specs.Changing.{IsUnmoved, closed_at_start};
ghost use Rattle.ground.specs.Own.{AtRest, KnowsDesks};
ghost use Rattle.ground.specs.Parting.{IsBoth};
ghost use Rattle.ground.specs.Rule.{first_known};
ghost use Rattle.ground.specs.Seats.{IsOf};
ghost use Rattle.mbuf.specs.Twins.{TwinMember};
ghost use Rattle.pool_model.specs.Guests.{ListsEachOnceWith, guests_listed, local_statement};
ghost use Rattle.pool_model.specs.Sound.{ListsOnlyPackets};
ghost use Rattle.pool_model.specs.Statements.{ListsEachOnce, PlacesEachOnce};
ghost use Rattle.snapshot.specs.Snapshots.{ListsItsElements, statement_in};
ghost use Rattle.word_pool.specs.TwinShares.{AreTwinShares, first_at_start, second_at_start};
ghost use Rattle.word_pool.specs.inside.Crews.{IsUnused, new_member};
ghost use Rattle.word_pool.specs.inside.TwinCrews.{IsWhole};
ghost use Rattle.word_pool.specs.TwinWorkers.{AreNewTwins, AreStatementsOfTwins, AreTwinPools, AreTwinWorkers, HasNotActedTwice, IsTwinIdle, IsTwinMakeCause, IsTwinWorker, first_crew, second_crew, twins_of};

use crate::closing::closed_by;
use crate::twin_worker::{Seats, WordTwin, lose};
use book::closed_twin::ClosedTwin;
use book::twin_ending::settled_twins;
use book::twin_share::{TwinShare, hand_in_twin, lose_all_twins};
use commons::limits::Limits;
use commons::refusal::Refusal;
use ground::pool::Ground;
use mbuf::twin::Twin;
use pool_statement::statement::Statement;
use std::alloc::Global;

/// Makes two pools on words, and their workers, numbered from 1, each with one part of either, and
/// none of whom has anything yet. The words are those of new grounds (`Ground::make`).
///
/// Refused `BadPool` where either limits are out of range, where the pools haven't as many workers,
/// or where the second has desks, and `OutOfMemory` where memory was refused.
pub fn make(
    alloc: Global,
    first: &Limits,
    second: &Limits,
) -> Result<(Ground, Ground, Vec<WordTwin>), Refusal>
    ensures first_limits { IfOk result (λ made. made.0.limits ≡ first.now) }
    ensures second_limits { IfOk result (λ made. made.1.limits ≡ second.now) }
    ensures workers { IfOk result (λ made. AreTwinWorkers made.0 made.1 made.2.items) }
    ensures new { IfOk result (λ made. AreNewTwins first.now second.now made.2.items) }
    ensures cause { IfErr result (IsTwinMakeCause first.now second.now) }
{
    first.check()?;
    second.check()?;
    if second.workers != first.workers {
        return Err(Refusal::BadPool);
    }
    if second.desks != 0 {
        return Err(Refusal::BadPool);
    }
    opened(alloc, first, second)
}

/// Two pools within these limits and their workers, or a refusal of memory.
fn opened(
    alloc: Global,
    first: &Limits,
    second: &Limits,
) -> Result<(Ground, Ground, Vec<WordTwin>), Refusal>
    requires { AreTwinPools first.now second.now }
    ensures first_limits { IfOk result (λ made. made.0.limits ≡ first.now) }
    ensures second_limits { IfOk result (λ made. made.1.limits ≡ second.now) }
    ensures workers { IfOk result (λ made. AreTwinWorkers made.0 made.1 made.2.items) }
    ensures new { IfOk result (λ made. AreNewTwins first.now second.now made.2.items) }
    ensures memory { IfErr result (λ e. e ≡ Refusal.OutOfMemory) }
{
    let (first_ground, first_seat) = match Ground::make(alloc, first) {
        Ok(made) => made,
        Err(_) => return Err(Refusal::OutOfMemory),
    };
    let (second_ground, second_seat) = match Ground::make(alloc, second) {
        Ok(made) => made,
        Err(_) => {
            first_seat.lose();
            return Err(Refusal::OutOfMemory);
        }
    };
    let seats = Seats {
        first: first_seat,
        second: second_seat,
    };
    match twins(alloc, &first_ground, &second_ground, seats) {
        Ok(workers) => Ok((first_ground, second_ground, workers)),
        Err(_) => Err(Refusal::OutOfMemory),
    }
}

/// A worker for each part of two seats that name nothing, numbered from 1.
fn twins(
    alloc: Global,
    first: &Ground,
    second: &Ground,
    seats: Seats,
) -> Result<Vec<WordTwin>, Refusal>
    requires pools { AreTwinPools first.now.limits second.now.limits }
    requires first_of { IsOf first.now seats.first }
    requires second_of { IsOf second.now seats.second }
    requires first_known { seats.first.known ≡ first_known first.now.limits }
    requires second_known { seats.second.known ≡ first_known second.now.limits }
    requires first_slots { seats.first.slots ≡ [] }
    requires second_slots { seats.second.slots ≡ [] }
    ensures workers { IfOk result (λ workers. AreTwinWorkers first.now second.now workers.items) }
    ensures new { IfOk result (λ workers. AreNewTwins first.now.limits second.now.limits workers.items) }
    ensures memory { IfErr result (λ e. e ≡ Refusal.OutOfMemory) }
{
    let first_limits = first.limits();
    let second_limits = second.limits();
    let mut rest = FreeSeats { seats };
    let mut workers = Vec::new(alloc);
    for number in 1..first_limits.workers as u32 {
        let seats = Seats {
            first: first.split(&mut rest.seats.first),
            second: second.split(&mut rest.seats.second),
        };
        add_twin(
            alloc,
            &first_limits,
            &second_limits,
            &mut workers,
            seats,
            number,
        )?;
    }
    add_twin(
        alloc,
        &first_limits,
        &second_limits,
        &mut workers,
        rest.into_seats(),
        first_limits.workers as u32,
    )?;
    Ok(workers)
}

/// Adds the worker of this number, who has these seats and nothing yet.
fn add_twin(
    alloc: Global,
    first: &Limits,
    second: &Limits,
    workers: &mut Vec<WordTwin>,
    seats: Seats,
    number: u32,
) -> Result<(), Refusal>
    requires pools { AreTwinPools first.now second.now }
    requires low { 1 ≤ number }
    requires high { number ≤ first.now.workers }
    requires first_unused { IsUnused first.now 1 seats.first }
    requires second_unused { IsUnused second.now 1 seats.second }
    ensures added { IfOk result (λ _. workers.new.items ≡ workers.old.items ++ record {
      first = seats.first;
      second = seats.second;
      member = record { first = new_member first.now number; second = new_member second.now number };
    } ∷ []) }
    ensures memory { IfErr result (λ e. e ≡ Refusal.OutOfMemory) }
{
    match Twin::make(alloc, first, second, number) {
        Ok(twin) => add(workers, WordTwin::new(seats, twin)),
        Err(cause) => {
            lose(seats);
            Err(cause)
        }
    }
}

/// Adds a worker.
fn add(workers: &mut Vec<WordTwin>, worker: WordTwin) -> Result<(), Refusal>
    ensures added { IfOk result (λ _. workers.new.items ≡ workers.old.items ++ worker ∷ []) }
    ensures memory { IfErr result (λ e. e ≡ Refusal.OutOfMemory) }
{
    match workers.push(worker) {
        Ok(()) => Ok(()),
        Err(_) => Err(Refusal::OutOfMemory),
    }
}

/// Seats that no worker has taken yet: where none does, they are lost.
struct FreeSeats {
    seats: Seats,
}

impl Drop for FreeSeats {
    fn drop(self) {
        let FreeSeats { seats } = self;
        lose(seats);
    }
}

impl FreeSeats {
    /// The seats.
    fn into_seats(self) -> Seats
        ensures { result ≡ self.seats }
    {
        let FreeSeats { seats } = self;
        seats
    }
}

/// Ends two pools whose workers no longer act: their seats become one at either ground, what they
/// have is handed in, in the order of their numbers, and both grounds are closed. It gives of each
/// pool its limits and what its ground left, and the share of each worker, from the first to the
/// last: two whole pools at rest. Their statements, where they list each element of their pool once,
/// are those of what the grounds left and of what these workers have. Where no worker has acted, both
/// grounds left what they began with. No count is above the reference limit of its pool.
///
/// Refused `OutOfMemory` where memory was refused. The pools are ended then too, and nothing is left
/// of them.
pub fn close(
    alloc: Global,
    first: Ground,
    second: Ground,
    workers: Vec<WordTwin>,
) -> Result<ClosedTwin, Refusal>
    requires { AreTwinWorkers first second workers.items }
    ensures first_limits { IfOk result (λ c. c.first_limits ≡ first.limits) }
    ensures second_limits { IfOk result (λ c. c.second_limits ≡ second.limits) }
    ensures whole { IfOk result (λ c. AreLeftWhole c) }
    ensures shares { IfOk result (λ c. c.shares.items ≡ twins_of workers.items) }
    ensures fresh { All HasNotActedTwice workers.items → IfOk result (λ c.
        (c.first ≡ closed_at_start first.limits) × (c.second ≡ closed_at_start second.limits)) }
    ensures counts { IfOk result (λ c.
        All (λ held. held.count ≤ c.first_limits.ref_limit) (statement_in (first_of c.first_limits c.first c.shares.items)).held
        × All (λ held. held.count ≤ c.second_limits.ref_limit) (statement_in (second_of c.second_limits c.second c.shares.items)).held) }
    // The statement of a lawful snapshot lists each element of its pool once.
    ensures statements { IfOk result (λ c.
        ListsItsElements (first_of c.first_limits c.first c.shares.items) (statement_in (first_of c.first_limits c.first c.shares.items)) →
        ListsItsElements (second_of c.second_limits c.second c.shares.items) (statement_in (second_of c.second_limits c.second c.shares.items)) →
        AreStatementsOfTwins first second workers.items
        (statement_in (first_of c.first_limits c.first c.shares.items), statement_in (second_of c.second_limits c.second c.shares.items))) }
    ensures memory { IfErr result (λ e. e ≡ Refusal.OutOfMemory) }
{
    let _ = first.limits();
    let Ok(shares) = Vec::with_capacity(alloc, workers.len()) else {
        return Err(Refusal::OutOfMemory);
    };
    let (seats, shares) = joined(&first, &second, workers, shares);
    let Seats {
        first: first_seat,
        second: second_seat,
    } = seats;
    let (first_limits, first) = match closed_by(first, first_seat) {
        Ok(left) => left,
        Err(cause) => {
            second_seat.lose();
            lose_all_twins(shares);
            return Err(cause);
        }
    };
    match closed_by(second, second_seat) {
        Ok((second_limits, second)) => Ok(ClosedTwin {
            first_limits,
            first,
            second_limits,
            second,
            shares,
        }),
        Err(cause) => {
            lose_all_twins(shares);
            Err(cause)
        }
    }
}

/// Ends two pools whose workers no longer act, as `close` does, and settles them. Neither has a
/// fault. Each statement lists each element of its pool exactly once, and is that of what the ground
/// left and of what these workers have: the bases of foreign clones are elements of the first pool,
/// which their workers hold, and their own elements are of the second. What is available and what is
/// in use are the population of each. Where no worker has acted, they are the statements of the start.
/// No count is above the reference limit of its pool.
///
/// Refused `OutOfMemory` where memory was refused. The pools are ended then too, and nothing is left
/// of them.
pub fn settled(
    alloc: Global,
    first: Ground,
    second: Ground,
    workers: Vec<WordTwin>,
) -> Result<(Statement, Statement), Refusal>
    requires { AreTwinWorkers first second workers.items }
    ensures statements { IfOk result (AreStatementsOfTwins first second workers.items) }
    ensures fresh { All HasNotActedTwice workers.items → IfOk result (λ s.
        (s.0 ≡ first_at_start first.limits (twins_of workers.items)) × (s.1 ≡ second_at_start second.limits (twins_of workers.items))) }
    // That each lists its elements once is read off both statements alone.
    ensures each { IfOk result (λ s. ListsEachOnceWith (guests_listed s.1) s.0 × ListsEachOnce (local_statement true s.1)) }
    ensures places { IfOk result (λ s. PlacesEachOnce first.limits s.0 × PlacesEachOnce second.limits s.1) }
    ensures sound { IfOk result (λ s. ListsOnlyPackets s.0 × ListsOnlyPackets s.1) }
    ensures counts { IfOk result (λ s. All (λ held. held.count ≤ first.limits.ref_limit) s.0.held
        × All (λ held. held.count ≤ second.limits.ref_limit) s.1.held) }
    ensures whole { IfOk result (λ s. (s.0.available + s.0.in_use ≡ first.limits.population)
        × (s.1.available + s.1.in_use ≡ second.limits.population)) }
    ensures memory { IfErr result (λ e. e ≡ Refusal.OutOfMemory) }
{
    let closed = close(alloc, first, second, workers)?;
    settled_twins(alloc, closed)
}

/// Makes one seat at either ground of the seats of these workers, from the last to the first, and
/// hands in what they have, in the room that was taken for the shares.
fn joined(
    first: &Ground,
    second: &Ground,
    mut workers: Vec<WordTwin>,
    mut shares: Vec<TwinShare>,
) -> (Seats, Vec<TwinShare>)
    requires some { 0 < length workers.items }
    requires each { All (IsTwinWorker first.now second.now) workers.items }
    requires empty { shares.items ≡ [] }
    requires room { vec_len workers ≤ vec_capacity shares }
    ensures first { IsWhole first.now (first_crew workers.items) result.0.first }
    ensures second { IsWhole second.now (second_crew workers.items) result.0.second }
    ensures idle { All IsTwinIdle workers.items }
    ensures members { result.1.items ≡ twins_of workers.items }
    ensures shares { AreTwinShares result.1.items result.0.first.known.view result.0.second.known.view }
    ensures unmoved { All HasNotActedTwice workers.items → IsUnmoved result.0.first.known × IsUnmoved result.0.second.known }
    ensures first_desks { KnowsDesks result.0.first.known }
    ensures second_desks { KnowsDesks result.0.second.known }
{
    let Some(last) = workers.pop() else {
        unreachable!()
    };
    let (mut seats, twin) = last.into_parts();
    add_share(&mut shares, twin);
    while let Some(worker) = workers.pop() {
        let (others, twin) = worker.into_parts();
        seats = both(first, second, others, seats);
        add_share(&mut shares, twin);
    }
    shares.reverse();
    seats.first.knows_desks();
    seats.second.knows_desks();
    (seats, shares)
}

/// Makes one seat of two at either ground.
fn both(first: &Ground, second: &Ground, one: Seats, other: Seats) -> Seats
    requires first_of { IsOf first.now one.first }
    requires first_other { IsOf first.now other.first }
    requires second_of { IsOf second.now one.second }
    requires second_other { IsOf second.now other.second }
    requires first_rest { AtRest one.first.known.view }
    requires first_other_rest { AtRest other.first.known.view }
    requires second_rest { AtRest one.second.known.view }
    requires second_other_rest { AtRest other.second.known.view }
    requires first_slots { other.first.slots ≡ [] }
    requires second_slots { other.second.slots ≡ [] }
    ensures first { IsBoth one.first other.first.known result.first }
    ensures second { IsBoth one.second other.second.known result.second }
{
    let Seats {
        first: mut first_seat,
        second: mut second_seat,
    } = one;
    let Seats {
        first: first_other,
        second: second_other,
    } = other;
    first.join(&mut first_seat, first_other);
    second.join(&mut second_seat, second_other);
    Seats {
        first: first_seat,
        second: second_seat,
    }
}

/// Hands in what a worker has, where there is room.
fn add_share(shares: &mut Vec<TwinShare>, twin: Twin)
    requires room { vec_len shares.old < vec_capacity shares.old }
    ensures added { shares.new.items ≡ shares.old.items ++ twin ∷ [] }
    ensures len { vec_len shares.new ≡ vec_len shares.old + 1 }
    ensures room { vec_capacity shares.old ≤ vec_capacity shares.new }
{
    if let Err(failed) = shares.push(hand_in_twin(twin)) {
        failed.value.lose();
        unreachable!()
    }
}
