//! How a guarded pool is made, and workers for it.

ghost use Rattle.std.specs.Prelude.{◌≡◌, ℕ, ◌+◌, ◌-◌, ◌%◌, ◌^◌, ◌<◌, ◌≤◌, [], ◌∷◌, IfOk};
ghost use Rattle.depot.specs.Racks.{Lends};
ghost use Rattle.depot.specs.Rolls.{IsRoll};
ghost use Rattle.depot.specs.Seats.{lent};
ghost use Rattle.guard.specs.Between.{Body};
ghost use Rattle.guard.specs.Guards.{IsGuard, IsGuarded, Gets, Marked, count_of, kept_by, resting_of};

use crate::kept::Kept;
use crate::marks::Marks;
use crate::stale::Stale;
use crate::worker::GuardWorker;
use depot::cause::Refusal;
use depot::depot::Depot;
use depot::opening::Size;
use depot::roll::Roll;
use std::alloc::Global;

/// How workers of a pool keep what they put.
#[derive(Clone, Copy, PartialEq, Eq, Debug)]
pub struct Keeping {
    /// How many elements a worker keeps at most, besides those that wait.
    pub cache: u16,
    /// How many elements that it put last wait at a worker, before they are given again: it gives
    /// others first, as long as there are some.
    pub waiting: u32,
}

impl GuardWorker {
    /// Lets an element that is outside of the magazines be out with this worker.
    fn let_out(&mut self, depot: &Depot, element: u32)
        requires body { Body depot.now self.old }
        requires inside { element < depot.now.population }
        requires some { 0 < lent self.old.rack.seat.me element }
        ensures body { Body depot.now self.new }
        ensures lent { Lends (element ∷ []) self.new.rack.seat.me self.old.rack.seat.me }
        ensures got { Gets (element ∷ []) (resting_of self.old) (resting_of self.new) }
        ensures count { count_of self.new ≡ (count_of self.old + (2 ^ 64 - 1)) % 2 ^ 64 }
    {
        self.rack.rest_out(depot, element, self.number);
        self.marks.set(element as usize, true);
        self.count = self.count.wrapping_sub(1);
    }

    /// Lets all elements of a new pool be out with this worker.
    fn let_all_out(&mut self, depot: &Depot, population: u32)
        requires body { Body depot.now self.old }
        requires population { depot.now.population ≡ population }
        requires all { (i : ℕ) → i < population → lent self.old.rack.seat.me i ≡ 1 }
        requires none { (i : ℕ) → population ≤ i → lent self.old.rack.seat.me i ≡ 0 }
        requires count { count_of self.old ≡ 0 }
        ensures of { IsGuard depot.now self.new }
        ensures out { (i : ℕ) → i < population → Marked self.new i }
        ensures count { (count_of self.new + population) % 2 ^ 64 ≡ 0 }
    {
        for element in 0..population {
            self.let_out(depot, element);
        }
    }
}

/// Makes one more worker, with a number that no other has, and nothing in its list or its magazines.
///
/// Refused `Memory` where there is none, and with a cause as a take of an empty magazine is.
pub fn make_worker(
    alloc: Global,
    depot: &Depot,
    roll: &mut Roll,
    keeping: Keeping,
) -> Result<GuardWorker, Refusal>
    requires guarded { IsGuarded depot.now }
    requires roll { IsRoll depot.now roll.old }
    ensures roll { IsRoll depot.now roll.new }
    ensures of { IfOk result (IsGuard depot.now) }
    ensures count { IfOk result (λ w. count_of w ≡ 0) }
    ensures empty { IfOk result (λ w. kept_by w ≡ 0) }
    ensures room { IfOk result (λ w. w.kept.most ≡ keeping.cache + keeping.waiting + 1) }
{
    let Ok(marks) = Marks::new(alloc, depot.places() as usize) else {
        return Err(Refusal::Memory);
    };
    let Ok(kept) = Kept::new(alloc, keeping.cache, keeping.waiting) else {
        return Err(Refusal::Memory);
    };
    let Ok(stale) = Stale::new(alloc) else {
        return Err(Refusal::Memory);
    };
    match roll.rack(alloc, depot) {
        Ok((rack, number)) => Ok(GuardWorker {
            rack,
            number,
            kept,
            marks,
            stale,
            count: 0,
        }),
        Err(refusal) => Err(refusal),
    }
}

/// Makes a guarded pool of so many elements, laid out as its size says, and its first worker, and
/// the roll of numbers, which makes other workers. All elements are out with that worker: it puts
/// what the pool is to have, or another does.
///
/// Refused `Memory` where there is none, and with a cause as a take of an empty magazine is.
pub fn make_guarded(
    alloc: Global,
    population: u32,
    size: Size,
    keeping: Keeping,
    tries: u32,
) -> Result<(Depot, GuardWorker, Roll), Refusal>
    requires magazines { size.magazines < 65535 }
    requires some_rounds { 0 < size.rounds }
    requires few_rounds { size.rounds ≤ 128 }
    ensures guarded { IfOk result (λ made. IsGuarded made.0) }
    ensures population { IfOk result (λ made. made.0.population ≡ population) }
    ensures magazines { IfOk result (λ made. made.0.table.slots ≡ size.magazines) }
    ensures rounds { IfOk result (λ made. made.0.rounds ≡ size.rounds) }
    ensures tries { IfOk result (λ made. made.0.tries ≡ tries) }
    ensures of { IfOk result (λ made. IsGuard made.0 made.1) }
    ensures out { IfOk result (λ made. (i : ℕ) → i < population → Marked made.1 i) }
    ensures count { IfOk result (λ made. (count_of made.1 + population) % 2 ^ 64 ≡ 0) }
    ensures roll { IfOk result (λ made. IsRoll made.0 made.2) }
{
    let Ok((depot, mut loans, mut roll)) = Depot::make_with_places(alloc, population, size, tries)
    else {
        return Err(Refusal::Memory);
    };
    match make_worker(alloc, &depot, &mut roll, keeping) {
        Ok(mut worker) => {
            worker.rack.take_in(&depot, &mut loans);
            worker.let_all_out(&depot, population);
            Ok((depot, worker, roll))
        }
        Err(refusal) => Err(refusal),
    }
}
