//! What the workers of a pool share: its words, and an entry for each of them, in which
//! it is left where the pool is closed.

ghost use Rattle.std.specs.Prelude.{◌≡◌, All, IfOk, IfSome};
ghost use Rattle.word_pool.specs.Workers.{IsAt};
ghost use Rattle.mbufpool_c.specs.inside.Shared.{IsReturned};

use crate::loose::Loose;
use counted_slot::{Counted, FREE, Fits, TAKEN};
use ground::pool::Ground;
use std::alloc::{AllocError, Global};
use std::marker::Model;
use std::sync::atomic::AtomicU64;
use std::sync::atomic::Ordering::SeqCst;
use word_pool::worker::WordWorker;

/// A worker that is left in its entry, with its number.
pub(crate) struct Returned {
    left: Loose<Option<WordWorker>, Global>,
    number: u32,
}

impl Fits for Returned {
    type Tag = Ground;

    ghost fits = { IsReturned };
}

impl Drop for Returned {
    fn drop(self) {
        let Returned { left, number: _ } = self;
        drop(left.into_box());
    }
}

impl Returned {
    /// A worker of this number, in the place that is there for it.
    pub(crate) fn new(
        mut place: Box<Option<WordWorker>>,
        worker: WordWorker,
        number: u32,
    ) -> Returned
        ensures worker { result.left.value ≡ Some worker }
        ensures number { result.number ≡ number }
    {
        *place = Some(worker);
        Returned {
            left: Loose::of(place),
            number,
        }
    }

    /// The place with what is left there, and the number.
    fn into_parts(self) -> (Box<Option<WordWorker>>, u32)
        ensures worker { result.0.value ≡ self.left.value }
        ensures number { result.1 ≡ self.number }
    {
        let Returned { left, number } = self;
        (left.into_box(), number)
    }
}

/// The entry of one worker.
pub(crate) type Entry = Counted<Option<Returned>>;

/// The words of a pool, and the entries of its workers. In a contract it is the pool's ground.
#[derive(Drop)]
pub(crate) struct SharedPool {
    ground: Ground,
    entries: Vec<Entry>,
    /// 1 while a closing looks which handles are of this pool, and else 0.
    mark: AtomicU64,
}

impl Model for SharedPool {
    ghost use Rattle.std.specs.Prelude.{◌≡◌, All};
    ghost use Rattle.ground.specs.Seats.{Grounded};

    ghost Value = { Grounded };

    ghost view = { λ h. h.ground };

    ghost invariant = { λ h. All (λ tag. tag ≡ h.ground) h.entries.items };
}

impl SharedPool {
    /// A pool with these words, whose entries are empty.
    pub(crate) fn new(alloc: Global, ground: Ground) -> Result<SharedPool, AllocError>
        ensures { IfOk result (λ shared. shared ≡ ground) }
    {
        let entries = entries_of(alloc, &ground)?;
        Ok(SharedPool {
            ground,
            entries,
            mark: AtomicU64::new(0),
        })
    }

    /// The words of the pool.
    #[inline(always)]
    pub(crate) fn ground(&self) -> &Ground
        ensures { result.now ≡ self.now }
    {
        &self.ground
    }

    /// How many entries there are.
    pub(crate) fn size(&self) -> usize {
        self.entries.len()
    }

    /// Marks the pool as the one that is looked for.
    pub(crate) fn mark(&self) {
        self.mark.store(1, SeqCst);
    }

    /// Takes the mark off.
    pub(crate) fn unmark(&self) {
        self.mark.store(0, SeqCst);
    }

    /// Whether the pool is marked.
    pub(crate) fn is_marked(&self) -> bool {
        self.mark.load(SeqCst) == 1
    }

    /// Leaves a worker of the pool in its entry. One whose entry is taken is ended.
    pub(crate) fn leave(&self, returned: Returned)
        requires { IsReturned self.now returned }
    {
        if let Some(entry) = self.entries.get((returned.number as usize).wrapping_sub(1)) {
            put_in(entry, returned);
        }
    }

    /// The words of the pool, and its entries, that of worker 1 first.
    pub(crate) fn into_parts(self) -> (Ground, Vec<Entry>)
        ensures ground { result.0 ≡ self }
        ensures entries { All (λ tag. tag ≡ self) result.1.items }
    {
        let SharedPool {
            ground,
            entries,
            mark: _,
        } = self;
        (ground, entries)
    }
}

/// An empty entry for each worker of a pool with these words.
fn entries_of(alloc: Global, ground: &Ground) -> Result<Vec<Entry>, AllocError>
    ensures { IfOk result (λ entries. All (λ tag. tag ≡ ground.now) entries.items) }
{
    let count = ground.limits().workers;
    let mut entries = Vec::with_capacity(alloc, count as usize)?;
    for _ in 0..count {
        entries.push(Counted::new(None, ground))?;
    }
    Ok(entries)
}

/// Leaves a worker in an entry of its ground. One whose entry is taken is ended.
fn put_in(entry: &Entry, returned: Returned)
    requires { IsReturned entry.now returned }
{
    let (found, claim) = entry.turn(FREE, TAKEN);
    if found != FREE {
        claim.done();
        return;
    }
    drop(claim.put(Some(returned), FREE));
}

/// Takes the worker of this number out of its entry, or answers `None` where nobody is there.
/// Another's place is refused.
pub(crate) fn take_out(entry: Entry, number: u32) -> Result<Option<WordWorker>, ()>
    ensures { IfOk result (λ found. IfSome found (λ worker.
        IsAt entry worker × (worker.member.number ≡ number))) }
{
    match entry.into_inner() {
        None => Ok(None),
        Some(returned) => taken_out(returned, number),
    }
}

/// Takes the worker of this number out of its place. Another's place is refused.
fn taken_out(returned: Returned, number: u32) -> Result<Option<WordWorker>, ()>
    ensures { IfOk result (λ found. IfSome found (λ worker.
        (returned.left.value ≡ Some worker) × (returned.number ≡ number))) }
{
    let (place, own) = returned.into_parts();
    let worker = Box::into_inner(place);
    if own == number { Ok(worker) } else { Err(()) }
}
