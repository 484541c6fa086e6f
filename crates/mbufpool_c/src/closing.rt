//! How a pool of packets is closed for C.

ghost use Rattle.std.specs.Prelude.{◌≡◌, ◌≢◌, ◌<◌, ◌≤◌, ◌+◌, ◌++◌, ◌∷◌, [], All, None, Some, IfOk, IfErr, IfSome, IsTrue, length, vec_capacity, vec_len};
ghost use Rattle.commons.specs.Refusals.{number_of};
ghost use Rattle.word_pool.specs.Workers.{AreCrew, AreWorkers, IsAt};
ghost use Rattle.word_pool.specs.Lost.{AreLeft, AreLostOf};
ghost use Rattle.mbufpool_c.specs.Closes.{AreApart, AreEmpty, Closes, HasClosed, HasOneOf, HaveSame, IsEnded, IsRefused, IsSettled, IsStated, RefusesClose, worker_number, numbers_in};
ghost use Rattle.mbufpool_c.specs.Labelled.{Labelled};
ghost use Rattle.mbufpool_c.specs.inside.Shared.{AreAbove, IsGathered};
ghost use Rattle.mbufpool_c.specs.inside.Rooms.{IsRoom};

use crate::ending::Ending;
use crate::ending_handle::EndingHandle;
use crate::shared::{Entry, SharedPool, take_out};
use crate::worker_handle::WorkerHandle;
use commons::refusal::Refusal;
use ground::pool::Ground;
use std::alloc::{AllocError, Global};
use std::sync::Arc;
use word_pool::pool;
use word_pool::worker::WordWorker;

/// The status of a closing while which a handle was used by another thread.
pub const MISUSED: u32 = 25;

/// What a closing takes of memory, all of it before anything is changed.
#[derive(Drop)]
struct Room {
    /// A place for the worker of each handle.
    places: Vec<Box<Option<WordWorker>>>,
    /// Room for the numbers of these workers.
    numbers: Vec<u32>,
    /// Room for the workers in the order of their numbers.
    workers: Vec<WordWorker>,
    /// Room for the numbers of those who are missing.
    missing: Vec<u32>,
    /// The place of what the pool leaves.
    ending: Box<Ending>,
}

/// As many places.
fn places(alloc: Global, count: usize) -> Result<Vec<Box<Option<WordWorker>>>, AllocError>
    ensures { IfOk result (λ places. length places.items ≡ count) }
{
    let mut places = Vec::with_capacity(alloc, count)?;
    for k in 0..count {
        let Ok(place) = Box::new(alloc, None) else {
            return Err(AllocError);
        };
        places.push(place)?;
    }
    Ok(places)
}

/// A place for an ending.
fn ending_place(alloc: Global) -> Result<Box<Ending>, AllocError> {
    let ending = Ending {
        statement: None,
        lost: Vec::new(alloc),
    };
    match Box::new(alloc, ending) {
        Ok(ending) => Ok(ending),
        Err(_) => Err(AllocError),
    }
}

/// Room to close a pool of this many workers by so many handles.
fn make_room(alloc: Global, handles: usize, workers: usize) -> Result<Room, AllocError>
    ensures { IfOk result (IsRoom handles) }
{
    Ok(Room {
        places: places(alloc, handles)?,
        numbers: Vec::with_capacity(alloc, handles)?,
        workers: Vec::with_capacity(alloc, workers)?,
        missing: Vec::with_capacity(alloc, workers)?,
        ending: ending_place(alloc)?,
    })
}

/// What the worker in a handle shares with the others of its pool, where there is one.
fn shared_of(
    alloc: Global,
    handle: &mut WorkerHandle,
) -> Option<Result<Arc<SharedPool>, AllocError>>
    ensures same { handle.new.value ≡ handle.old.value }
    ensures none { handle.old.value ≡ None → result ≡ None }
    ensures of { IfSome result (λ found. IfOk found (λ shared.
        (m : Labelled) × (handle.old.value ≡ Some m) × IsAt shared.value m.worker)) }
{
    match handle.take(alloc) {
        None => None,
        Some(own) => {
            let shared = own.shared();
            handle.put_back(own);
            Some(shared)
        }
    }
}

/// What the first worker in these handles shares with the others, where there is one.
fn first_shared(
    alloc: Global,
    handles: &mut [WorkerHandle],
) -> Option<Result<Arc<SharedPool>, AllocError>>
    ensures same { HaveSame handles.old handles.new }
    ensures none { AreEmpty handles.old → result ≡ None }
    ensures of { IfSome result (λ found. IfOk found (λ shared. HasOneOf shared.value handles.old)) }
{
    for k in 0..handles.len() {
        if let Some(shared) = shared_of(alloc, &mut handles[k]) {
            return Some(shared);
        }
    }
    None
}

/// Whether the worker in a handle is of the marked pool, where there is one.
fn is_marked(alloc: Global, handle: &mut WorkerHandle) -> Option<bool>
    ensures { handle.new.value ≡ handle.old.value }
{
    match handle.take(alloc) {
        None => None,
        Some(own) => {
            let is_marked = own.is_marked();
            handle.put_back(own);
            Some(is_marked)
        }
    }
}

/// How many workers these handles have, where each is of the marked pool.
fn count_marked(alloc: Global, handles: &mut [WorkerHandle]) -> Option<u64>
    ensures { HaveSame handles.old handles.new }
{
    let mut count = 0;
    for k in 0..handles.len() {
        match is_marked(alloc, &mut handles[k]) {
            Some(true) => count += 1,
            Some(false) => return None,
            None => {}
        }
    }
    Some(count)
}

/// The room to close this pool, whose workers are in these handles, each of them, and
/// no other pool's.
///
/// Refused `StrangerShare` where one is of another pool, `InUse` where one of the pool is
/// elsewhere, and `OutOfMemory` where memory was refused.
fn look(alloc: Global, shared: &Arc<SharedPool>, handles: &mut [WorkerHandle]) -> Result<Room, u32>
    ensures same { HaveSame handles.old handles.new }
    ensures room { IfOk result (IsRoom (length handles.old)) }
    ensures refused { IfErr result IsRefused }
{
    shared.mark();
    let count = count_marked(alloc, handles);
    shared.unmark();
    let Some(count) = count else {
        return Err(Refusal::StrangerShare.number());
    };
    // One more owner is the one who looks.
    if Arc::strong_count(shared) as u64 - 1 != count {
        return Err(Refusal::InUse.number());
    }
    match make_room(alloc, handles.len(), shared.size()) {
        Ok(room) => Ok(room),
        Err(_) => Err(Refusal::OutOfMemory.number()),
    }
}

/// Notes a number, where there is room.
fn note(numbers: &mut Vec<u32>, number: u32)
    requires room { vec_len numbers.old < vec_capacity numbers.old }
    ensures items { numbers.new.items ≡ numbers.old.items ++ number ∷ [] }
    ensures len { vec_len numbers.new ≡ vec_len numbers.old + 1 }
    ensures capacity { vec_capacity numbers.old ≤ vec_capacity numbers.new }
{
    if numbers.push(number).is_err() {
        unreachable!()
    }
}

/// Leaves the worker of a handle in its entry, in the last of these places, and notes its number.
fn leave(
    alloc: Global,
    handle: &mut WorkerHandle,
    places: &mut Vec<Box<Option<WordWorker>>>,
    numbers: &mut Vec<u32>,
)
    requires place { 0 < vec_len places.old }
    requires room { vec_len numbers.old < vec_capacity numbers.old }
    ensures left { handle.new.value ≡ None }
    ensures numbers { numbers.new.items ≡ numbers.old.items ++ worker_number handle.old.value }
    ensures places { vec_len places.old ≤ vec_len places.new + 1 }
    ensures len { vec_len numbers.new ≤ vec_len numbers.old + 1 }
    ensures capacity { vec_capacity numbers.old ≤ vec_capacity numbers.new }
{
    let Some(own) = handle.take(alloc) else {
        return;
    };
    let Some(place) = places.pop() else {
        unreachable!()
    };
    note(numbers, Box::into_inner(own).leave(place));
}

/// Leaves the workers of these handles in their entries, each in one of these places, and notes
/// their numbers.
fn leave_all(
    alloc: Global,
    handles: &mut [WorkerHandle],
    mut places: Vec<Box<Option<WordWorker>>>,
    numbers: &mut Vec<u32>,
)
    requires places { length handles.old ≤ vec_len places }
    requires none { numbers.old.items ≡ [] }
    requires room { length handles.old ≤ vec_capacity numbers.old }
    ensures left { AreEmpty handles.new }
    ensures numbers { numbers.new.items ≡ numbers_in handles.old }
{
    for k in 0..handles.len() {
        leave(alloc, &mut handles[k], &mut places, numbers);
    }
}

/// Adds the worker of this number, who is in this entry, or where nobody is its number to those
/// who are missing. Refused where another is there, or there is no room.
fn gather(
    entry: Entry,
    number: u32,
    workers: &mut Vec<WordWorker>,
    missing: &mut Vec<u32>,
) -> Result<(), ()>
    ensures { IfOk result (λ _. IsGathered entry number workers.old.items workers.new.items missing.old.items missing.new.items) }
{
    match take_out(entry, number)? {
        Some(worker) => match workers.push(worker) {
            Ok(()) => Ok(()),
            Err(_) => Err(()),
        },
        None => match missing.push(number) {
            Ok(()) => Ok(()),
            Err(_) => Err(()),
        },
    }
}

/// Takes the workers out of these entries of a pool with these words, in the order of their numbers,
/// and the numbers of those who are missing. Answers `None` where one is in another's entry.
fn gathered(
    ground: &Ground,
    mut entries: Vec<Entry>,
    mut workers: Vec<WordWorker>,
    mut missing: Vec<u32>,
) -> Option<(Vec<WordWorker>, Vec<u32>)>
    requires entries { All (λ tag. tag ≡ ground.now) entries.items }
    requires workers { workers.items ≡ [] }
    requires missing { missing.items ≡ [] }
    ensures { IfSome result (λ found. AreAbove ground.now 0 found.0.items found.1.items) }
{
    let count = ground.limits().workers as u32;
    for k in 0..count {
        let entry = entries.pop()?;
        match gather(entry, count - k, &mut workers, &mut missing) {
            Ok(()) => {}
            Err(()) => return None,
        }
    }
    workers.reverse();
    Some((workers, missing))
}

/// Whether none of these numbers is another's.
fn are_apart(numbers: &[u32], others: &[u32]) -> bool
    ensures { IsTrue result → AreApart numbers.now others.now }
{
    numbers.iter().all(|w| others.iter().all(|v| *v != *w))
}

/// An ending in this place.
fn told(mut place: Box<Ending>, ending: Ending) -> Box<Ending>
    ensures { result.value ≡ ending }
{
    *place = ending;
    place
}

/// Settles the pool of these words, which has all these workers, and tells its statement.
///
/// Refused `OutOfMemory` where memory was refused.
fn settle_all(
    alloc: Global,
    ground: Ground,
    workers: Vec<WordWorker>,
    place: Box<Ending>,
) -> Result<Box<Ending>, u32>
    requires { AreWorkers ground workers.items }
    ensures settled { IfOk result (λ ending. IsStated ground workers.items ending.value) }
    ensures memory { IfErr result (λ status. status ≡ number_of Refusal.OutOfMemory) }
{
    match pool::settled(alloc, ground, workers) {
        Ok(statement) => {
            let ending = Ending {
                statement: Some(statement),
                lost: Vec::new(alloc),
            };
            Ok(told(place, ending))
        }
        Err(cause) => Err(cause.number()),
    }
}

/// Settles the pool of these words, which has these workers, whose others are missing or whose
/// packets under way weren't received, and tells which elements are lost.
///
/// Refused `OutOfMemory` where memory was refused.
fn settle_without(
    alloc: Global,
    ground: Ground,
    workers: Vec<WordWorker>,
    missing: &[u32],
    place: Box<Ending>,
) -> Result<Box<Ending>, u32>
    requires { AreLeft ground missing.now workers.items }
    ensures statement { IfOk result (λ ending. ending.value.statement ≡ None) }
    ensures lost { IfOk result (λ ending. AreLostOf ground missing.now workers.items ending.value.lost.items) }
    ensures memory { IfErr result (λ status. status ≡ number_of Refusal.OutOfMemory) }
{
    match pool::settled_without(alloc, ground, workers, missing) {
        Ok(lost) => {
            let ending = Ending {
                statement: None,
                lost,
            };
            Ok(told(place, ending))
        }
        Err(cause) => Err(cause.number()),
    }
}

/// Settles the pool of these words, of which no worker is missing: tells its statement or, where
/// packets are under way, which elements are lost with them.
///
/// Refused `OutOfMemory` where memory was refused.
fn settle_crew(
    alloc: Global,
    ground: Ground,
    workers: Vec<WordWorker>,
    place: Box<Ending>,
) -> Result<Box<Ending>, u32>
    requires crew { AreCrew ground workers.items }
    requires left { AreLeft ground [] workers.items }
    ensures settled { IfOk result (λ ending. IsSettled ground [] workers.items ending.value) }
    ensures memory { IfErr result (λ status. status ≡ number_of Refusal.OutOfMemory) }
{
    if pool::all_received(&ground, workers.as_slice()) {
        return settle_all(alloc, ground, workers, place);
    }
    settle_without(alloc, ground, workers, &[], place)
}

/// Settles the pool of these words, which has these workers, as many as these numbers, none of
/// which is missing.
///
/// Refused `OutOfMemory` where memory was refused, and `MISUSED` where a worker isn't there.
fn settle(
    alloc: Global,
    ground: Ground,
    numbers: &[u32],
    found: (Vec<WordWorker>, Vec<u32>),
    place: Box<Ending>,
) -> Result<Box<Ending>, u32>
    requires { AreAbove ground 0 found.0.items found.1.items }
    ensures closed { IfOk result (λ ending. HasClosed ground numbers.now ending.value) }
    ensures ended { IfErr result IsEnded }
{
    let (workers, missing) = found;
    if workers.len() == 0 || workers.len() != numbers.len() {
        return Err(MISUSED);
    }
    if !are_apart(numbers, missing.as_slice()) {
        return Err(MISUSED);
    }
    if missing.len() == 0 {
        return settle_crew(alloc, ground, workers, place);
    }
    settle_without(alloc, ground, workers, missing.as_slice(), place)
}

/// Settles a pool, in whose entries its workers are, those with these numbers among
/// them.
///
/// Refused `OutOfMemory` where memory was refused, and `MISUSED` where one isn't there.
fn settle_shared(
    alloc: Global,
    shared: SharedPool,
    numbers: &[u32],
    workers: Vec<WordWorker>,
    missing: Vec<u32>,
    place: Box<Ending>,
) -> Result<Box<Ending>, u32>
    requires workers { workers.items ≡ [] }
    requires missing { missing.items ≡ [] }
    ensures closed { IfOk result (λ ending. HasClosed shared numbers.now ending.value) }
    ensures ended { IfErr result IsEnded }
{
    let (ground, entries) = shared.into_parts();
    match gathered(&ground, entries, workers, missing) {
        Some(found) => settle(alloc, ground, numbers, found, place),
        None => Err(MISUSED),
    }
}

/// Takes the workers out of these handles, and settles their pool, which has no other owner.
///
/// Refused `OutOfMemory` where memory was refused, and `MISUSED` where a worker isn't there, or the
/// pool has another owner.
fn ended(
    alloc: Global,
    shared: Arc<SharedPool>,
    handles: &mut [WorkerHandle],
    room: Room,
) -> Result<Box<Ending>, u32>
    requires { IsRoom (length handles.old) room }
    ensures left { AreEmpty handles.new }
    ensures closed { IfOk result (λ ending. HasClosed shared.value (numbers_in handles.old) ending.value) }
    ensures ended { IfErr result IsEnded }
{
    let Room {
        places,
        mut numbers,
        workers,
        missing,
        ending,
    } = room;
    leave_all(alloc, handles, places, &mut numbers);
    match Arc::into_inner(shared) {
        Some(shared) => settle_shared(alloc, shared, numbers.as_slice(), workers, missing, ending),
        None => Err(MISUSED),
    }
}

/// Ends this pool, with this room, and gives C what it left.
fn end(
    alloc: Global,
    shared: Arc<SharedPool>,
    handles: &mut [WorkerHandle],
    room: Room,
    out: &mut EndingHandle,
) -> u32
    requires room { IsRoom (length handles.old) room }
    requires of { HasOneOf shared.value handles.old }
    ensures closed { result ≡ 0 → Closes handles.old handles.new out.new.value }
    ensures kept { result ≢ 0 → out.new.value ≡ out.old.value }
    ensures ended { result ≢ 0 → AreEmpty handles.new × IsEnded result }
{
    match ended(alloc, shared, handles, room) {
        Ok(ending) => {
            out.put(ending);
            0
        }
        Err(status) => status,
    }
}

/// Closes this pool.
fn close(
    alloc: Global,
    shared: Arc<SharedPool>,
    handles: &mut [WorkerHandle],
    out: &mut EndingHandle,
) -> u32
    requires { HasOneOf shared.value handles.old }
    ensures closed { result ≡ 0 → Closes handles.old handles.new out.new.value }
    ensures kept { result ≢ 0 → out.new.value ≡ out.old.value }
    ensures refused { result ≢ 0 → RefusesClose handles.old result handles.new }
{
    match look(alloc, &shared, handles) {
        Ok(room) => end(alloc, shared, handles, room, out),
        Err(status) => status,
    }
}

/// Closes the pool of the workers in these handles, in any order, and tells what it left: its
/// statement or, where workers were ended before or packets are under way, the elements that are lost
/// with them. The handles have no workers then. An ending that was in `out` is lost.
///
/// Refused, in this order: `StrangerShare` where there is no worker, or one of another pool than
/// the first's; `InUse` where a worker of the pool is in another handle; `OutOfMemory` where there
/// is no memory for what a closing takes. Then each handle keeps its worker.
///
/// Memory may be refused later, too, and `MISUSED` is answered where a handle was used by another
/// thread meanwhile: then the handles have no workers, and nothing is told.
#[unsafe(no_mangle)]
pub extern "C" fn mbufpool_worker_close(
    alloc: Global,
    workers: &mut [WorkerHandle],
    out: &mut EndingHandle,
) -> u32
    // C has what the pool left, or what was there before.
    ensures closed { result ≡ 0 → Closes workers.old workers.new out.new.value }
    ensures kept { result ≢ 0 → out.new.value ≡ out.old.value }
    // A refusal leaves the workers where they are; a pool that is ended leaves none.
    ensures refused { result ≢ 0 → RefusesClose workers.old result workers.new }
    ensures none { AreEmpty workers.old → result ≡ number_of Refusal.StrangerShare }
{
    match first_shared(alloc, workers) {
        Some(Ok(shared)) => close(alloc, shared, workers, out),
        Some(Err(_)) => Refusal::OutOfMemory.number(),
        None => Refusal::StrangerShare.number(),
    }
}
