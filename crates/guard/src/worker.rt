//! A guarded worker: what it gets is out until somebody puts it, and what isn't out can't be put.

ghost use Rattle.std.specs.Prelude.{◌≡◌, ◌+◌, ◌-◌, ◌%◌, ◌^◌, ◌<◌, ◌≤◌, ◌++◌, ℕ, true, false, [], ◌∷◌, length, take, IfSome, IfOk, IfErr, IsNone, IsTrue, IsFalse, MatchOption};
ghost use Rattle.commons.specs.Bag.{bag};
ghost use Rattle.depot.specs.Resting.{rest_in};
ghost use Rattle.depot.specs.Seats.{Site};
ghost use Rattle.guard.specs.Between.{Lacks, Holds};
ghost use Rattle.guard.specs.Guards.{IsGuard, Gets, GetsNone, GivesBack, PutsAll, PutsBack, PutsIt, PutsSome, Still, Since, StopsAt, RefusedIn, IsNotPut, count_of, kept_by, most_told, resting_of, view_of};
ghost use Rattle.guard.specs.declared.refusal.NotPut.TheVariants.{Lost};

use crate::kept::Kept;
use crate::marks::Marks;
use crate::refusal::NotPut;
use crate::stale::Stale;
use depot::cause::Cause;
use depot::depot::Depot;
use depot::rack::Rack;

/// What stands at the place of an element that rests nowhere.
const NOBODY: u64 = 0;

/// A worker of a guarded pool. Its number stands at the place of each element that is out with it,
/// or that it keeps in its list; so what it got and puts itself costs no exchange.
///
/// It can't be dropped, since what it keeps would be lost unseen: it ends by `end`, or by `lose`
/// where it has died. What is out with it any other worker may put still.
pub struct GuardWorker {
    pub(crate) rack: Rack,
    pub(crate) number: u64,
    pub(crate) kept: Kept,
    pub(crate) marks: Marks,
    /// The entries of its list that were found stale, until it is asked for them.
    pub(crate) stale: Stale,
    /// What its calls have put less what they got, modulo 2^64.
    pub(crate) count: u64,
}

impl GuardWorker {
    /// Notes that an entry of the list was stale: another worker has put that element, though this
    /// one kept it, and both counted their puts.
    #[inline(always)]
    fn note_stale(&mut self, element: u32)
        ensures rest { self.new ≡ record self.old { stale = self.new.stale; count = self.new.count } }
        ensures stale { self.new.stale ≡ self.old.stale ++ take (most_told - length self.old.stale)
            (element ∷ []) }
        ensures count { self.new.count ≡ (self.old.count + (2 ^ 64 - 1)) % 2 ^ 64 }
    {
        self.stale.note(element);
        self.count = self.count.wrapping_sub(1);
    }

    /// Gets an element that has left the list, and says whether it is out now. It isn't where
    /// another worker has put it in the meantime, though it wasn't out: the entry was stale.
    #[inline(always)]
    fn get_entry(&mut self, depot: &Depot, element: u32) -> bool
        requires of { Lacks depot.now element self.old }
        ensures of { IsGuard depot.now self.new }
        ensures inside { element < depot.now.population }
        ensures kept { self.new.kept ≡ self.old.kept }
        ensures got { IsTrue result → Gets (element ∷ []) (resting_of self.old) (resting_of
            self.new) }
        ensures not { IsFalse result → Still (resting_of self.old) (resting_of self.new) }
        ensures since { Since self.old self.new }
    {
        let found = self.rack.look_to_get(depot, element);
        if found != self.number {
            self.note_stale(element);
            return false;
        }
        if self.marks.is(element as usize) {
            self.note_stale(element);
            return false;
        }
        self.marks.set(element as usize, true);
        self.count = self.count.wrapping_sub(1);
        true
    }

    /// Takes an element of the list that needn't wait, and says whether it is out now.
    #[inline(always)]
    fn get_ready(&mut self, depot: &Depot) -> Option<(u32, bool)>
        requires of { IsGuard depot.now self.old }
        ensures of { IsGuard depot.now self.new }
        ensures less { IfSome result (λ _. length self.new.kept.items + 1 ≡ length
            self.old.kept.items) }
        ensures since { Since self.old self.new }
        ensures none { IsNone result → self.new ≡ self.old }
        ensures inside { IfSome result (λ r. r.0 < depot.now.population) }
        ensures got { IfSome result (λ r. IsTrue r.1 → Gets (r.0 ∷ []) (resting_of self.old)
            (resting_of self.new)) }
        ensures not { IfSome result (λ r. IsFalse r.1 → Still (resting_of self.old) (resting_of
            self.new)) }
    {
        match self.kept.ready() {
            Some(element) => {
                let is_out = self.get_entry(depot, element);
                Some((element, is_out))
            }
            None => None,
        }
    }

    /// Gets the first of the list that is no stale entry, though it waits.
    #[inline(never)]
    fn get_waiting(&mut self, depot: &Depot) -> Option<u32>
        requires of { IsGuard depot.now self.old }
        ensures of { IsGuard depot.now self.new }
        ensures got { IfSome result (λ e. Gets (e ∷ []) (resting_of self.old) (resting_of
            self.new)) }
        ensures inside { IfSome result (λ e. e < depot.now.population) }
        ensures still { IsNone result → Still (resting_of self.old) (resting_of self.new) }
        ensures since { Since self.old self.new }
    {
        for _ in 0..self.kept.len() {
            match self.kept.first() {
                Some(element) => {
                    if self.get_entry(depot, element) {
                        return Some(element);
                    }
                }
                None => return None,
            }
        }
        None
    }

    /// Gets an element from the magazines.
    #[inline(always)]
    fn get_stocked(&mut self, depot: &Depot) -> Result<u32, Cause>
        requires of { IsGuard depot.now self.old }
        ensures of { IsGuard depot.now self.new }
        ensures got { IfOk result (λ e. Gets (e ∷ []) (resting_of self.old) (resting_of self.new)) }
        ensures inside { IfOk result (λ e. e < depot.now.population) }
        ensures still { IfErr result (λ _. Still (resting_of self.old) (resting_of self.new)) }
        ensures cause { IfErr result (λ cause. RefusedIn depot.now.tries cause (view_of self.old)
            (view_of self.new)) }
        ensures since { Since self.old self.new }
    {
        match self.rack.get_one(depot) {
            Ok(value) => {
                self.rack.own(depot);
                let element = value as u32;
                self.rack.rest_out(depot, element, self.number);
                self.marks.set(element as usize, true);
                self.count = self.count.wrapping_sub(1);
                Ok(element)
            }
            Err(cause) => Err(cause),
        }
    }

    /// Gets an element from the magazines, or of what waits in the list.
    #[inline(never)]
    fn get_apart(&mut self, depot: &Depot) -> Result<u32, Cause>
        requires of { IsGuard depot.now self.old }
        ensures of { IsGuard depot.now self.new }
        ensures got { IfOk result (λ e. Gets (e ∷ []) (resting_of self.old) (resting_of self.new)) }
        ensures inside { IfOk result (λ e. e < depot.now.population) }
        ensures still { IfErr result (λ _. Still (resting_of self.old) (resting_of self.new)) }
        ensures cause { IfErr result (λ cause. RefusedIn depot.now.tries cause (view_of self.old)
            (view_of self.new)) }
        ensures since { Since self.old self.new }
    {
        match self.get_stocked(depot) {
            Ok(element) => Ok(element),
            Err(cause) => match self.get_waiting(depot) {
                Some(element) => Ok(element),
                None => Err(cause),
            },
        }
    }

    /// Gets the last element of its list, where it needn't wait and rests here still: it is out then,
    /// until somebody puts it. `None` where there is no such element; or the last is a stale entry,
    /// which has left the list then. `get_one` may find one elsewhere.
    #[inline(always)]
    pub fn get_at_hand(&mut self, depot: &Depot) -> Option<u32>
        requires of { IsGuard depot.now self.old }
        ensures of { IsGuard depot.now self.new }
        ensures got { IfSome result (λ e. Gets (e ∷ []) (resting_of self.old) (resting_of
            self.new)) }
        ensures inside { IfSome result (λ e. e < depot.now.population) }
        ensures still { IsNone result → Still (resting_of self.old) (resting_of self.new) }
        ensures since { Since self.old self.new }
    {
        match self.get_ready(depot) {
            Some((element, is_out)) => {
                if is_out {
                    return Some(element);
                }
                None
            }
            None => None,
        }
    }

    /// A get of one that isn't at hand: of the list, else of the magazines, else of what waits.
    #[inline(never)]
    fn get_after(&mut self, depot: &Depot) -> Result<u32, Cause>
        requires of { IsGuard depot.now self.old }
        ensures of { IsGuard depot.now self.new }
        ensures got { IfOk result (λ e. Gets (e ∷ []) (resting_of self.old) (resting_of self.new)) }
        ensures inside { IfOk result (λ e. e < depot.now.population) }
        ensures still { IfErr result (λ _. Still (resting_of self.old) (resting_of self.new)) }
        ensures cause { IfErr result (λ cause. RefusedIn depot.now.tries cause (view_of self.old)
            (view_of self.new)) }
        ensures since { Since self.old self.new }
    {
        for _ in 0..self.kept.len() {
            match self.get_ready(depot) {
                Some((element, is_out)) => {
                    if is_out {
                        return Ok(element);
                    }
                }
                None => return self.get_apart(depot),
            }
        }
        self.get_apart(depot)
    }

    /// Gets one element: of its list, else of its magazines, else of what waits in its list. It is
    /// out then, until somebody puts it.
    ///
    /// Refused, where it has none, `NoEntries` where no magazine with elements was at the depot,
    /// `HeadSpent` where the count of a stack there was read spent, and `Contended` after as many
    /// lost exchanges as the depot allows. Nothing has come out then.
    #[inline(always)]
    pub fn get_one(&mut self, depot: &Depot) -> Result<u32, Cause>
        requires of { IsGuard depot.now self.old }
        ensures of { IsGuard depot.now self.new }
        ensures got { IfOk result (λ e. Gets (e ∷ []) (resting_of self.old) (resting_of self.new)) }
        ensures inside { IfOk result (λ e. e < depot.now.population) }
        ensures still { IfErr result (λ _. Still (resting_of self.old) (resting_of self.new)) }
        ensures cause { IfErr result (λ cause. RefusedIn depot.now.tries cause (view_of self.old)
            (view_of self.new)) }
        ensures since { Since self.old self.new }
    {
        match self.get_at_hand(depot) {
            Some(element) => Ok(element),
            None => self.get_after(depot),
        }
    }

    /// Keeps an element of the hand in the list.
    #[inline(never)]
    fn keep(&mut self, depot: &Depot, element: u32)
        requires of { Holds depot.now element self.old }
        requires room { length self.old.kept.items < self.old.kept.most }
        ensures of { IsGuard depot.now self.new }
        ensures resting { resting_of self.new ≡ rest_in (resting_of self.old) element }
        ensures more { length self.new.kept.items ≡ length self.old.kept.items + 1 }
        ensures most { self.new.kept.most ≡ self.old.kept.most }
        ensures since { Since self.old self.new }
    {
        let at = element as usize;
        self.rack.rest_in(depot, element, self.number);
        self.marks.set(at, false);
        self.kept.push(element);
    }

    /// Gives an element that has left the list to the magazines, if it rests here still.
    fn give_entry(&mut self, depot: &Depot, element: u32) -> Result<(), Cause>
        requires of { Lacks depot.now element self.old }
        ensures of { IsGuard depot.now self.new }
        ensures gone { IfOk result (λ _. self.new.kept ≡ self.old.kept) }
        ensures more { IfErr result (λ _. length self.new.kept.items ≡ length self.old.kept.items
            + 1) }
        ensures most { self.new.kept.most ≡ self.old.kept.most }
        ensures still { Still (resting_of self.old) (resting_of self.new) }
        ensures cause { IfErr result (λ cause. RefusedIn depot.now.tries cause (view_of self.old)
            (view_of self.new)) }
        ensures since { Since self.old self.new }
    {
        let at = element as usize;
        if self.marks.is(at) {
            self.rack.look_to_get(depot, element);
            self.note_stale(element);
            return Ok(());
        }
        if !self.rack.take_back(depot, element, self.number) {
            self.note_stale(element);
            return Ok(());
        }
        match self.rack.put_one(depot, element as u64) {
            Ok(()) => Ok(()),
            Err(cause) => {
                self.keep(depot, element);
                Err(cause)
            }
        }
    }

    /// Gives the first of the list to the magazines, where there is one. A refused one goes to the
    /// end of the list.
    fn give_first(&mut self, depot: &Depot) -> Result<(), Cause>
        requires of { IsGuard depot.now self.old }
        ensures of { IsGuard depot.now self.new }
        ensures less { IfOk result (λ _. length self.new.kept.items ≤ length self.old.kept.items
            - 1) }
        ensures same { length self.new.kept.items ≤ length self.old.kept.items }
        ensures most { self.new.kept.most ≡ self.old.kept.most }
        ensures room { IfOk result (λ _. length self.new.kept.items < self.new.kept.most) }
        ensures still { Still (resting_of self.old) (resting_of self.new) }
        ensures cause { IfErr result (λ cause. RefusedIn depot.now.tries cause (view_of self.old)
            (view_of self.new)) }
        ensures since { Since self.old self.new }
    {
        match self.kept.first() {
            Some(element) => match self.give_entry(depot, element) {
                Ok(()) => Ok(()),
                Err(cause) => Err(cause),
            },
            None => Ok(()),
        }
    }

    /// Gives what it has too much to the magazines, as far as the depot takes it.
    #[inline(never)]
    fn relieve(&mut self, depot: &Depot)
        requires of { IsGuard depot.now self.old }
        ensures of { IsGuard depot.now self.new }
        ensures same { length self.new.kept.items ≤ length self.old.kept.items }
        ensures most { self.new.kept.most ≡ self.old.kept.most }
        ensures still { Still (resting_of self.old) (resting_of self.new) }
        ensures since { Since self.old self.new }
    {
        for _ in 0..self.kept.surplus() {
            if let Err(_) = self.give_first(depot) {
                return;
            }
        }
    }

    /// Makes room in a full list.
    #[inline(never)]
    fn spill(&mut self, depot: &Depot) -> Result<(), Cause>
        requires of { IsGuard depot.now self.old }
        ensures of { IsGuard depot.now self.new }
        ensures room { IfOk result (λ _. length self.new.kept.items < self.new.kept.most) }
        ensures still { Still (resting_of self.old) (resting_of self.new) }
        ensures cause { IfErr result (λ cause. RefusedIn depot.now.tries cause (view_of self.old)
            (view_of self.new)) }
        ensures since { Since self.old self.new }
    {
        match self.give_first(depot) {
            Ok(()) => {
                self.relieve(depot);
                Ok(())
            }
            Err(cause) => Err(cause),
        }
    }

    /// Sees that the list has room.
    #[inline(always)]
    fn make_room(&mut self, depot: &Depot) -> Result<(), Cause>
        requires of { IsGuard depot.now self.old }
        ensures of { IsGuard depot.now self.new }
        ensures room { IfOk result (λ _. length self.new.kept.items < self.new.kept.most) }
        ensures still { Still (resting_of self.old) (resting_of self.new) }
        ensures cause { IfErr result (λ cause. RefusedIn depot.now.tries cause (view_of self.old)
            (view_of self.new)) }
        ensures since { Since self.old self.new }
    {
        if self.kept.has_room() {
            return Ok(());
        }
        match self.spill(depot) {
            Ok(()) => Ok(()),
            Err(cause) => Err(cause),
        }
    }

    /// Puts an element at whose place another worker's number was found.
    #[inline(never)]
    fn put_other(&mut self, depot: &Depot, element: u32, number: u64) -> Result<(), NotPut>
        requires of { IsGuard depot.now self.old }
        requires inside { element < depot.now.population }
        requires room { length self.old.kept.items < self.old.kept.most }
        requires number { 0 < number }
        ensures of { IsGuard depot.now self.new }
        ensures put { IfOk result (λ _. PutsIt element (resting_of self.old) (resting_of
            self.new)) }
        ensures still { IfErr result (λ _. resting_of self.new ≡ resting_of self.old) }
        ensures not { IfErr result (λ why. (why ≡ Lost) × ((view_of self.old).lost < (view_of
            self.new).lost)) }
        ensures since { Since self.old self.new }
    {
        if !self.rack.claim(depot, element, number) {
            return Err(NotPut::Lost);
        }
        self.count = self.count.wrapping_add(1);
        if self.kept.waits() {
            self.keep(depot, element);
            return Ok(());
        }
        match self.rack.put_one(depot, element as u64) {
            Ok(()) => Ok(()),
            Err(_) => {
                self.keep(depot, element);
                Ok(())
            }
        }
    }

    /// Puts an element of the pool, with room in the list.
    #[inline(always)]
    fn put_here(&mut self, depot: &Depot, element: u32) -> Result<(), NotPut>
        requires of { IsGuard depot.now self.old }
        requires inside { element < depot.now.population }
        requires room { length self.old.kept.items < self.old.kept.most }
        ensures of { IsGuard depot.now self.new }
        ensures put { IfOk result (λ _. PutsIt element (resting_of self.old) (resting_of
            self.new)) }
        ensures still { IfErr result (λ _. Still (resting_of self.old) (resting_of self.new)) }
        ensures not { IfErr result (λ why. IsNotPut depot.now why element self.old self.new) }
        ensures since { Since self.old self.new }
    {
        let found = self.rack.look_to_put(depot, element);
        if found == self.number {
            if !self.marks.is(element as usize) {
                return Err(NotPut::Kept);
            }
            self.marks.set(element as usize, false);
            self.kept.push(element);
            let count = self.count.wrapping_add(1);
            self.count = count;
            return Ok(());
        }
        if found == NOBODY {
            return Err(NotPut::Home);
        }
        match self.put_other(depot, element, found) {
            Ok(()) => Ok(()),
            Err(why) => Err(why),
        }
    }

    /// Puts an element that is out with this worker onto its list, where it needn't wait and is none
    /// too much, and says whether it did. Where it didn't nothing was put, and `put_one` may put it.
    #[inline(always)]
    pub fn put_at_hand(&mut self, depot: &Depot, element: u32) -> bool
        requires of { IsGuard depot.now self.old }
        ensures of { IsGuard depot.now self.new }
        ensures put { IsTrue result → PutsIt element (resting_of self.old) (resting_of self.new) }
        ensures still { IsFalse result → Still (resting_of self.old) (resting_of self.new) }
        ensures since { Since self.old self.new }
    {
        if element as usize >= self.marks.len() {
            return false;
        }
        if !self.kept.is_near() {
            return false;
        }
        let found = self.rack.look_to_put(depot, element);
        if self.number != found {
            return false;
        }
        if !self.marks.is(element as usize) {
            return false;
        }
        self.marks.set(element as usize, false);
        self.kept.push_near(element);
        self.count = self.count.wrapping_add(1);
        true
    }

    /// A put of one that isn't at hand.
    #[inline(never)]
    fn put_after(&mut self, depot: &Depot, element: u32) -> Result<(), NotPut>
        requires of { IsGuard depot.now self.old }
        ensures of { IsGuard depot.now self.new }
        ensures put { IfOk result (λ _. PutsIt element (resting_of self.old) (resting_of
            self.new)) }
        ensures still { IfErr result (λ _. Still (resting_of self.old) (resting_of self.new)) }
        ensures not { IfErr result (λ why. IsNotPut depot.now why element self.old self.new) }
        ensures since { Since self.old self.new }
    {
        if element as usize >= self.marks.len() {
            return Err(NotPut::Stranger);
        }
        if let Err(cause) = self.make_room(depot) {
            return Err(NotPut::Full(cause));
        }
        match self.put_here(depot, element) {
            Ok(()) => {
                if self.kept.surplus() > 0 {
                    self.relieve(depot);
                }
                Ok(())
            }
            Err(why) => Err(why),
        }
    }

    /// Puts an element, whoever got it. It is with this worker then, in its list or its magazines,
    /// or at the depot.
    ///
    /// Refused, for a cause that was found in the call, where it isn't out (`Stranger`, `Home`,
    /// `Kept`, `Lost`), and `Full` where there is no room. Then nothing is out that wasn't, and
    /// nothing was put. An element that another worker keeps can't be told from one that is out with
    /// it: it is taken to this one, and stays in the pool once; the other finds its entry stale.
    #[inline(always)]
    pub fn put_one(&mut self, depot: &Depot, element: u32) -> Result<(), NotPut>
        requires of { IsGuard depot.now self.old }
        ensures of { IsGuard depot.now self.new }
        ensures put { IfOk result (λ _. PutsIt element (resting_of self.old) (resting_of
            self.new)) }
        ensures still { IfErr result (λ _. Still (resting_of self.old) (resting_of self.new)) }
        ensures not { IfErr result (λ why. IsNotPut depot.now why element self.old self.new) }
        ensures since { Since self.old self.new }
    {
        if self.put_at_hand(depot, element) {
            return Ok(());
        }
        self.put_after(depot, element)
    }

    /// Puts back what a refused get had got: whatever of it is out still.
    #[inline(never)]
    fn put_back(&mut self, depot: &Depot, list: &[u32])
        requires of { IsGuard depot.now self.old }
        ensures of { IsGuard depot.now self.new }
        ensures puts { PutsSome list.now (resting_of self.old) (resting_of self.new) }
        ensures back { PutsBack depot.now list.now self.old self.new }
        ensures since { Since self.old self.new }
    {
        for k in 0..list.len() {
            let _ = self.put_one(depot, list[k]);
        }
    }

    /// Gets as many elements as `out` has places: all of them, or none. Each is out then, until
    /// somebody puts it.
    ///
    /// Refused as `get_one` is. What it had got by then is put again, as far as it is out still and
    /// there is room: each of it is put, or its put was refused as `put_one` is. Nothing is said of
    /// `out`.
    #[inline(always)]
    pub fn get(&mut self, depot: &Depot, out: &mut [u32]) -> Result<(), Cause>
        requires of { IsGuard depot.now self.old }
        ensures of { IsGuard depot.now self.new }
        ensures got { IfOk result (λ _. Gets out.new (resting_of self.old) (resting_of self.new)) }
        ensures none { IfErr result (λ _. GetsNone (resting_of self.old) (resting_of self.new)) }
        ensures back { IfErr result (λ _. GivesBack depot.now self.old self.new) }
        ensures cause { IfErr result (λ cause. RefusedIn depot.now.tries cause (view_of self.old)
            (view_of self.new)) }
        ensures since { Since self.old self.new }
    {
        for k in 0..out.len() {
            match self.get_one(depot) {
                Ok(element) => out[k] = element,
                Err(cause) => {
                    self.put_back(depot, &out[..k]);
                    return Err(cause);
                }
            }
        }
        Ok(())
    }

    /// Puts a list of whatever numbers, one after another as `put_one` does, until one is refused,
    /// and says how many were put. The one behind these was refused then, for the cause that the
    /// answer has, and those behind it weren't looked at.
    #[inline(always)]
    pub fn put(&mut self, depot: &Depot, list: &[u32]) -> (usize, Result<(), NotPut>)
        requires of { IsGuard depot.now self.old }
        ensures of { IsGuard depot.now self.new }
        ensures most { result.0 ≤ length list.now }
        ensures puts { PutsAll (take result.0 list.now) (resting_of self.old) (resting_of
            self.new) }
        ensures stops { StopsAt depot.now list.now result.0 result.1 (view_of self.old) (view_of
            self.new) }
        ensures since { Since self.old self.new }
    {
        for k in 0..list.len() {
            if let Err(why) = self.put_one(depot, list[k]) {
                return (k, Err(why));
            }
        }
        (list.len(), Ok(()))
    }

    /// The number of an entry that was found stale and not told yet, the oldest first: another
    /// worker put that element, though this one kept it. `None` where none is in store. As many as
    /// 64 are; what is found beyond these is dropped all the same, and not told.
    pub fn next_stale(&mut self) -> Option<u32>
        ensures of { (g : Site) → IsGuard g self.old → IsGuard g self.new }
        ensures told { MatchOption result ((self.old.stale ≡ []) × (self.new.stale ≡ [])) (λ e.
            self.old.stale ≡ e ∷ self.new.stale) }
        ensures same { (self.new.rack ≡ self.old.rack) × (self.new.number ≡ self.old.number)
            × (self.new.kept ≡ self.old.kept) × (self.new.marks ≡ self.old.marks)
            × (self.new.count ≡ self.old.count) }
    {
        self.stale.next()
    }

    /// What this worker's calls have put less what they got, modulo 2^64. With the population, the
    /// counts of all workers add up to what is in the pool, once all stale entries are found.
    pub fn count(&self) -> u64
        ensures { result ≡ count_of self.now }
    {
        self.count
    }

    /// Gives all that it keeps, and all in its magazines, to the depot, where any worker gets it.
    ///
    /// Refused as `Worker::flush` of a depot is. What has gone to the depot by then is there.
    pub fn flush(&mut self, depot: &Depot) -> Result<(), Cause>
        requires of { IsGuard depot.now self.old }
        ensures of { IsGuard depot.now self.new }
        ensures empty { IfOk result (λ _. kept_by self.new ≡ 0) }
        ensures still { Still (resting_of self.old) (resting_of self.new) }
        ensures cause { IfErr result (λ cause. RefusedIn depot.now.tries cause (view_of self.old)
            (view_of self.new)) }
        ensures since { Since self.old self.new }
    {
        for _ in 0..self.kept.len() {
            if let Err(cause) = self.give_first(depot) {
                return Err(cause);
            }
        }
        match self.rack.flush(depot) {
            Ok(()) => Ok(()),
            Err(cause) => Err(cause),
        }
    }

    /// Ends a worker. What it keeps goes to the depot, as far as that takes it. What is out with it
    /// can be put by others still.
    pub fn end(self, depot: &Depot)
        requires of { IsGuard depot.now self }
    {
        let mut worker = self;
        let _refused = worker.flush(depot);
        let GuardWorker {
            rack,
            number: _,
            kept: _,
            marks: _,
            stale: _,
            count: _,
        } = worker;
        rack.end(depot);
    }

    /// Ends a worker that has died. What is out with it can be put by others still; what it keeps is
    /// lost, with what is in its magazines.
    pub fn lose(self) {
        let GuardWorker {
            rack,
            number: _,
            kept: _,
            marks: _,
            stale: _,
            count: _,
        } = self;
        rack.lose();
    }
}
