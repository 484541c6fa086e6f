//! How a depot is made, and workers for it.

ghost use Rattle.std.specs.Prelude.{◌≡◌, ◌↔◌, ◌⊎◌, ℕ, ◌+◌, ◌*◌, ◌<◌, ◌≤◌, ◌^◌, ◌++◌, [], true, false, None, IfOk, IfErr, IfSome, replicate, take};
ghost use Rattle.commons.specs.Bag.{bag};
ghost use Rattle.depot.specs.Lending.{AreOf, FillsTo, IsWorker, KeepsAll, SameLoans, cached, count_of, elements, log_of};
ghost use Rattle.std.specs.List.{range_with_len};
ghost use Rattle.depot.specs.Opening.{zeros, opening_words, fair, rounds_for, magazines_for};
ghost use Rattle.depot.specs.Resting.{IsBare};
ghost use Rattle.depot.specs.Rule.{first_view};
ghost use Rattle.depot.specs.Seats.{IsCause, IsOf};

use crate::cause::{Cause, Refusal};
use crate::depot::Depot;
use crate::loans::Loans;
use crate::magazine::Magazine;
use crate::rack::Rack;
use crate::steps::LINKS;
use crate::view::{Shape, View};
use crate::worker::Worker;
use atomic_table::{Seat, Table};
use std::alloc::{AllocError, Global};

/// How a depot is laid out for so many elements and workers.
#[derive(Clone, Copy, PartialEq, Eq, Debug)]
pub struct Size {
    /// How many magazines there are.
    pub magazines: u16,
    /// How many elements a full magazine has.
    pub rounds: u8,
    /// Whether a get and a put leave nothing in a worker's magazines, since all workers' own could
    /// keep more than half of so few elements.
    pub leaves_nothing: bool,
}

/// How a depot for so many elements and workers is laid out, so that what all workers keep in two
/// magazines each is at most half of the elements, if magazines of 8 elements are small enough for
/// that. There are as many magazines as the elements fill, with two for the rest and three for each
/// worker.
///
/// None where there are no workers, or where that would be 65,535 magazines or more.
pub fn size_for(values: u64, workers: u32) -> Option<Size>
    ensures none { (result ≡ None) ↔ ((workers ≡ 0) ⊎ (65535 ≤ magazines_for values workers)) }
    ensures magazines { IfSome result (λ size. size.magazines ≡ magazines_for values workers) }
    ensures rounds { IfSome result (λ size. size.rounds ≡ rounds_for values workers) }
    ensures leaves_nothing { IfSome result (λ size.
        (size.leaves_nothing ≡ true) ↔ (fair values workers < 8)) }
    // What follows of these for whoever makes a depot of that size.
    ensures range { IfSome result (λ size. (8 ≤ size.rounds) × (size.rounds ≤ 128)) }
    ensures few { IfSome result (λ size. size.magazines < 65535) }
    ensures enough { IfSome result (λ size. values ≤ size.magazines * size.rounds) }
    ensures half { IfSome result (λ size.
        size.leaves_nothing ≡ false → 2 * (workers * (2 * size.rounds)) ≤ values) }
{
    if workers == 0 {
        return None;
    }
    let fair = values / (4 * workers as u64);
    let rounds = fair.min(128).max(8);
    let filled = values / rounds;
    if filled >= 65_535 {
        return None;
    }
    let magazines = filled + 2 + 3 * workers as u64;
    if magazines >= 65_535 {
        return None;
    }
    Some(Size {
        magazines: magazines as u16,
        rounds: rounds as u8,
        leaves_nothing: fair < 8,
    })
}

/// Pushes the numbers below this one.
fn push_links(words: &mut Vec<u64>, count: u64) -> Result<(), AllocError>
    ensures { IfOk result (λ _. words.new.items ≡ words.old.items ++ range_with_len 0 count) }
{
    for i in 0..count {
        words.push(i)?;
    }
    Ok(())
}

/// Pushes 0 this many times.
fn push_zeros(words: &mut Vec<u64>, count: u64) -> Result<(), AllocError>
    ensures { IfOk result (λ _. words.new.items ≡ words.old.items ++ zeros count) }
{
    for _ in 0..count {
        words.push(0)?;
    }
    Ok(())
}

/// The words at the start: no magazine has elements, and all are on the stack of the empty ones.
/// Nothing rests at a place.
fn opening_words(alloc: Global, magazines: usize, places: u32) -> Result<Vec<u64>, AllocError>
    requires { magazines < 65535 }
    ensures { IfOk result (λ v. v.items ≡ opening_words magazines places) }
{
    let mut words = Vec::with_capacity(alloc, LINKS + magazines + places as usize)?;
    let top = magazines as u64;
    let header = [
        0, 0, 0, 0, 0, 0, 0, 0, 0, 0, 0, 0, 0, 0, 0, 0, 0, 0, 0, 0, 0, 0, 0, 0, top, 0, 0, 0, 0, 0,
        0, 0,
    ];
    words.extend_from_slice(&header)?;
    push_links(&mut words, magazines as u64)?;
    push_zeros(&mut words, u64::from(places))?;
    Ok(words)
}

/// So many empty magazines.
fn empty_magazines(alloc: Global, count: usize) -> Result<Vec<Magazine>, AllocError>
    ensures { IfOk result (λ v. v.items ≡ replicate count []) }
{
    let mut magazines = Vec::with_capacity(alloc, count)?;
    for _ in 0..count {
        magazines.push(Magazine::new())?;
    }
    Ok(magazines)
}

impl Depot {
    /// Makes a depot of so many elements, of which those below `places` have a place, and its first
    /// seat, which has all elements in its hand, and all numbers.
    pub(crate) fn make_seat(
        alloc: Global,
        population: u64,
        places: u32,
        size: Size,
        tries: u32,
    ) -> Result<(Depot, Seat<Magazine, View>), AllocError>
        requires magazines { size.magazines < 65535 }
        requires some_rounds { 0 < size.rounds }
        requires few_rounds { size.rounds ≤ 128 }
        ensures population { IfOk result (λ made. made.0.population ≡ population) }
        ensures magazines { IfOk result (λ made. made.0.table.slots ≡ size.magazines) }
        ensures rounds { IfOk result (λ made. made.0.rounds ≡ size.rounds) }
        ensures places { IfOk result (λ made. made.0.places ≡ places) }
        ensures tries { IfOk result (λ made. made.0.tries ≡ tries) }
        ensures of { IfOk result (λ made. IsOf made.0 made.1) }
        ensures me { IfOk result (λ made. made.1.me ≡ (
          first_view (record {
            population = population;
            rounds = size.rounds;
            places = places;
          }),
          [],
        )) }
    {
        let magazines = size.magazines as usize;
        let words = opening_words(alloc, magazines, places)?;
        let slots = empty_magazines(alloc, magazines)?;
        let rounds = size.rounds as u64;
        let shape = Shape {
            population,
            rounds,
            places: u64::from(places),
        };
        let Ok((table, seat)) = Table::new(alloc, words.as_slice(), slots, &shape) else {
            return Err(AllocError);
        };
        let depot = Depot {
            table,
            population,
            rounds,
            places,
            tries,
            leaves_nothing: size.leaves_nothing,
        };
        Ok((depot, seat))
    }

    /// Makes a depot of so many elements, laid out as its size says, whose tries end after so many
    /// lost exchanges. All its magazines are empty and at the depot, and all its elements are lent:
    /// who has the loans puts them, by a worker. No element has a place.
    ///
    /// Refused where there is no memory.
    pub fn make(
        alloc: Global,
        population: u64,
        size: Size,
        tries: u32,
    ) -> Result<(Depot, Loans), AllocError>
        requires magazines { size.magazines < 65535 }
        requires some_rounds { 0 < size.rounds }
        requires few_rounds { size.rounds ≤ 128 }
        ensures population { IfOk result (λ made. made.0.population ≡ population) }
        ensures magazines { IfOk result (λ made. made.0.table.slots ≡ size.magazines) }
        ensures rounds { IfOk result (λ made. made.0.rounds ≡ size.rounds) }
        ensures places { IfOk result (λ made. made.0.places ≡ 0) }
        ensures tries { IfOk result (λ made. made.0.tries ≡ tries) }
        ensures loans { IfOk result (λ made. AreOf made.0 made.1) }
        ensures all { IfOk result (λ made. (i : ℕ) → i < population → bag (elements made.1) i ≡ 1) }
        ensures none { IfOk result (λ made. (i : ℕ) → population ≤ i → bag (elements made.1) i ≡ 0) }
    {
        let (depot, seat) = Depot::make_seat(alloc, population, 0, size, tries)?;
        Ok((depot, Loans::of(seat)))
    }

    /// Makes one more seat, which has nothing. The loans stay as they are.
    fn vacant_seat(&self, loans: &mut Loans) -> Seat<Magazine, View>
        requires loans { AreOf self.now loans.old }
        ensures loans { AreOf self.now loans.new }
        ensures same { SameLoans loans.old loans.new }
        ensures of { IsOf self.now result }
        ensures hand { result.me.0.hand ≡ [] }
        ensures out { result.me.0.out ≡ [] }
        ensures magazines { result.me.1 ≡ [] }
        ensures bare { IsBare result.me.0.resting }
    {
        let mut seat = loans.take();
        self.note(&mut seat);
        *loans = Loans::of(self.part(&mut seat));
        seat
    }

    /// Makes loans of nothing, for another thread.
    pub fn no_loans(&self, loans: &mut Loans) -> Loans
        requires loans { AreOf self.now loans.old }
        ensures loans { AreOf self.now loans.new }
        ensures same { SameLoans loans.old loans.new }
        ensures of { AreOf self.now result }
        ensures none { elements result ≡ [] }
    {
        Loans::of(self.vacant_seat(loans))
    }

    /// Makes one more worker, with two empty magazines. The loans stay as they are.
    ///
    /// It takes room for the numbers of all magazines, so that its calls take no memory.
    ///
    /// Refused `Memory` where there is no memory, and as a take of an empty magazine is. Where the
    /// second take is refused, the magazine that had come goes back to the depot; and where that
    /// gift is refused too, the magazine is lost, with none of the elements.
    pub fn worker(&self, alloc: Global, loans: &mut Loans) -> Result<Worker, Refusal>
        requires loans { AreOf self.now loans.old }
        ensures loans { AreOf self.now loans.new }
        ensures same { SameLoans loans.old loans.new }
        ensures of { IfOk result (IsWorker self.now) }
        ensures empty { IfOk result (λ w. cached w ≡ []) }
        ensures count { IfOk result (λ w. count_of w ≡ 0) }
    {
        let Ok(behind) = Rack::places(alloc, self) else {
            return Err(Refusal::Memory);
        };
        let seat = self.vacant_seat(loans);
        match self.rack(seat, behind) {
            Ok(rack) => Ok(Worker::of(rack)),
            Err(cause) => Err(Refusal::Cause(cause)),
        }
    }
}

/// So many numbers from this one on, at most 128.
#[inline(always)]
pub fn run_from(from: u64, n: usize) -> [u64; 128]
    requires few { n ≤ 128 }
    requires small { from + n < 2 ^ 64 }
    ensures { take n result ≡ range_with_len from n }
{
    let mut list = [0; 128];
    for k in 0..n {
        list[k] = from + k as u64;
    }
    list
}

/// Puts all elements of a new depot into its magazines, by one worker. Where a put is refused, what
/// is left is lent still.
pub fn fill(
    depot: &Depot,
    population: u64,
    worker: &mut Worker,
    loans: &mut Loans,
) -> Result<(), Cause>
    requires of { IsWorker depot.now worker.old }
    requires loans { AreOf depot.now loans.old }
    requires all { (i : ℕ) → i < population → 1 ≤ bag (elements loans.old) i }
    ensures of { IsWorker depot.now worker.new }
    ensures loans { AreOf depot.now loans.new }
    ensures put { IfOk result (λ _. (i : ℕ) → i < population →
        bag (elements loans.new) i + 1 ≡ bag (elements loans.old) i) }
    ensures others { (i : ℕ) → population ≤ i →
        bag (elements loans.new) i ≡ bag (elements loans.old) i }
    ensures filled { IfOk result (λ _. FillsTo population worker.old loans.old worker.new loans.new) }
    ensures some { IfErr result (λ _. (n : ℕ) × (n < population) × FillsTo n worker.old loans.old
        worker.new loans.new) }
    ensures cause { IfErr result (λ cause. IsCause depot.now.tries cause (log_of worker.old) (log_of
        worker.new)) }
    ensures kept { KeepsAll (log_of worker.old) loans.old (log_of worker.new) loans.new }
{
    let mut next = 0;
    while next < population {
        let left = population - next;
        let n = left.min(128);
        let list = run_from(next, n as usize);
        if let Err(cause) = worker.put(depot, &list[..n as usize], loans) {
            return Err(cause);
        }
        next += n;
    }
    Ok(())
}
