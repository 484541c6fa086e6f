//! The shared part of a pool as lists, for one thread. Its calls alone change them:
//! `common` is the common stack, its top last: `get` and `put` change it, and count `changes`.
//! `places` says of each element where it is: `get`, `put`, `claim`, `raise` and `lower` write it.
//! `holds` has a row for each worker, how often it holds each element: `claim`, `raise` and `lower`
//! change one number of it, `offer` and `take` those of a packet.
//! `headers` names the worker whose header an element is: `claim` and `take` set it, `lower` and
//! `offer` clear it.
//! `desks` has the packet on each desk: `offer` puts one there, and `take` takes it off.

ghost use Rattle.std.specs.Prelude.{◌≡◌, ◌+◌, ◌<◌, ◌≤◌, ◌==◌, [], length, take, drop, reverse, replicate, slice_index, slice_index_or, slice_set, All, IfOk, vec_len, vec_capacity, None};
ghost use Rattle.std.specs.List.{range_with_len};
ghost use Rattle.commons.specs.Bounds.{IsPool};
ghost use Rattle.commons.specs.Lists.{placed, place_of, owner_left, held_count, WasLowered, opening, IsTable};

use crate::closed::{Closed, words};
use crate::limits::{Limits, SPENT};
use crate::packet::Packet;
use crate::passing::{add_holds, end_holds, owner_left, set_owner};
use crate::place::Place;
use crate::refusal::{Lowered, Refusal};
use crate::seq::Seq;
use std::alloc::{AllocError, Global};
use std::marker::Model;

/// The shared part of a pool as lists, for one thread. All its room is taken when it is made.
#[derive(Debug, Drop)]
pub struct PlainSite {
    limits: Limits,
    common: Vec<u32>,
    places: Vec<Place>,
    holds: Vec<Seq<u32>>,
    headers: Vec<Option<u32>>,
    desks: Vec<Option<Packet>>,
    changes: u64,
}

impl Model for PlainSite {
    ghost use Rattle.commons.specs.Lists.{Lists};

    ghost Value = { Lists };

    ghost use Rattle.commons.specs.inside.Site.{lists_of, IsKept};

    ghost view = { lists_of };

    ghost invariant = { IsKept };
}

impl PlainSite {
    ghost use Rattle.std.specs.Prelude.{◌≡◌, ◌<◌, ◌≤◌, ℕ, length, reverse, IfOk, IfErr};
    ghost use Rattle.commons.specs.Bag.{bag};
    ghost use Rattle.commons.specs.Calls.{with_list, without_packet};
    ghost use Rattle.commons.specs.Closing.{closed_of};
    ghost use Rattle.commons.specs.Lists.{DidGet, DidPut, DidRaise, DidLower, DidOffer, DidTake, IsTable, KeepsOthers, hand_of, holds_of, header_of, after_claim, opening, IsMakeCause};
    ghost use Rattle.commons.specs.Packets.{holds_of_packet, own_of_packet};

    /// A new pool: all elements in the common list, element 0 on top.
    ///
    /// Refused `BadPool` where the limits are out of range, and `OutOfMemory` where memory was
    /// refused.
    pub fn make(alloc: Global, limits: &Limits) -> Result<PlainSite, Refusal>
        ensures ok { IfOk result (λ s. s ≡ opening limits.now) }
        ensures table { IfOk result IsTable }
        ensures cause { IfErr result (IsMakeCause limits.now) }
    {
        limits.check()?;
        match opened(alloc, limits) {
            Ok(site) => Ok(site),
            Err(_) => Err(Refusal::OutOfMemory),
        }
    }

    /// The pool's limits.
    pub fn limits(&self) -> Limits
        ensures limits { result ≡ self.now.limits }
        ensures table { IsTable self.now }
    {
        self.limits
    }

    /// The common list, its top last.
    pub fn common(&self) -> &[u32]
        ensures common { reverse result.now ≡ self.now.common }
        ensures table { IsTable self.now }
    {
        self.common.as_slice()
    }

    /// The number of elements in the common list.
    pub fn common_count(&self) -> u32
        ensures count { result ≡ length self.now.common }
        ensures table { IsTable self.now }
    {
        self.common.len() as u32
    }

    /// The place of each element.
    pub fn places(&self) -> &[Place]
        ensures places { result.now ≡ self.now.places }
        ensures table { IsTable self.now }
    {
        self.places.as_slice()
    }

    /// How often a worker holds an element.
    pub fn hold(&self, worker: u32, element: u32) -> u32
        requires low { 1 ≤ worker }
        requires high { worker ≤ self.now.limits.workers }
        requires below { element < self.now.limits.population }
        ensures holds { result ≡ holds_of self.now worker element }
        ensures table { IsTable self.now }
    {
        hold(&self.holds, worker as usize - 1, element as usize)
    }

    /// What is on each desk.
    pub fn desks(&self) -> &[Option<Packet>]
        ensures desks { result.now ≡ self.now.desks }
        ensures table { IsTable self.now }
    {
        self.desks.as_slice()
    }

    /// Moves elements from the top of the common list into a worker's hand, the top first.
    ///
    /// Refused `NoEntries` where the list is shorter, else `HeadSpent` where the modification
    /// count is spent. Nothing changes then.
    pub(crate) fn get(&mut self, worker: u32, out: &mut [u32]) -> Result<(), Refusal>
        requires low { 1 ≤ worker }
        requires high { worker ≤ self.old.limits.workers }
        ensures did { DidGet worker self.old (length out.old) (with_list result out.new) self.new }
        ensures table { IsTable self.old }
        ensures kept { IsTable self.new }
        ensures others { KeepsOthers worker self.old self.new }
    {
        if self.common.len() < out.len() {
            return Err(Refusal::NoEntries);
        }
        if self.changes == SPENT {
            return Err(Refusal::HeadSpent);
        }
        take_top(&mut self.common, out);
        place(&mut self.places, out, Place::Hand(worker));
        self.changes += 1;
        Ok(())
    }

    /// Moves elements of a worker's hand onto the common list, the last on top.
    ///
    /// Refused `HeadSpent` where the modification count is spent. Nothing changes then.
    pub(crate) fn put(&mut self, worker: u32, list: &[u32]) -> Result<(), Refusal>
        requires low { 1 ≤ worker }
        requires high { worker ≤ self.old.limits.workers }
        requires in_hand { (i : ℕ) → bag list.now i ≤ hand_of self.old worker i }
        ensures did { DidPut self.old list.now result self.new }
        ensures table { IsTable self.old }
        ensures kept { IsTable self.new }
        ensures others { KeepsOthers worker self.old self.new }
    {
        if self.changes == SPENT {
            return Err(Refusal::HeadSpent);
        }
        self.common.extend_from_slice(list).unwrap();
        place(&mut self.places, list, Place::Common);
        self.changes += 1;
        Ok(())
    }

    /// Makes an element of a worker's hand a held one, with one hold and as the worker's header.
    pub(crate) fn claim(&mut self, worker: u32, element: u32)
        requires low { 1 ≤ worker }
        requires high { worker ≤ self.old.limits.workers }
        requires in_hand { 0 < hand_of self.old worker element }
        ensures did { self.new ≡ after_claim worker element self.old }
        ensures table { IsTable self.old }
        ensures kept { IsTable self.new }
        ensures others { KeepsOthers worker self.old self.new }
    {
        let i = element as usize;
        self.places[i] = Place::Held(1);
        set_hold(&mut self.holds, worker as usize - 1, i, 1);
        self.headers[i] = Some(worker);
    }

    /// The reference count of an element: how often all workers hold it.
    pub(crate) fn count(&self, element: u32) -> u32
        requires { element < self.now.limits.population }
        ensures count { result ≡ held_count (place_of self.now element) }
        ensures table { IsTable self.now }
    {
        count_in(self.places[element as usize])
    }

    /// Makes one more hold of an element by a worker that holds it.
    ///
    /// Refused `RefSpent` exactly where its count is the reference limit. Nothing changes then.
    pub(crate) fn raise(&mut self, worker: u32, element: u32) -> Result<(), Refusal>
        requires low { 1 ≤ worker }
        requires high { worker ≤ self.old.limits.workers }
        requires held { 0 < holds_of self.old worker element }
        ensures did { DidRaise worker self.old element result self.new }
        ensures table { IsTable self.old }
        ensures kept { IsTable self.new }
        ensures others { KeepsOthers worker self.old self.new }
    {
        let i = element as usize;
        let count = count_in(self.places[i]);
        let limits = PlainSite::limits(self);
        if u64::from(count) == limits.ref_limit {
            return Err(Refusal::RefSpent);
        }
        self.places[i] = Place::Held(count + 1);
        let more = hold(&self.holds, worker as usize - 1, i) + 1;
        set_hold(&mut self.holds, worker as usize - 1, i, more);
        Ok(())
    }

    /// Ends one hold of an element: `Last` exactly where its count is 1.
    pub(crate) fn lower(&mut self, worker: u32, element: u32) -> Lowered
        requires low { 1 ≤ worker }
        requires high { worker ≤ self.old.limits.workers }
        requires held { 0 < holds_of self.old worker element }
        ensures did { DidLower worker self.old element result self.new }
        ensures table { IsTable self.old }
        ensures kept { IsTable self.new }
        ensures others { KeepsOthers worker self.old self.new }
    {
        let i = element as usize;
        let (place, answer) = lowered(self.places[i], worker);
        self.places[i] = place;
        let left = hold(&self.holds, worker as usize - 1, i) - 1;
        set_hold(&mut self.holds, worker as usize - 1, i, left);
        self.headers[i] = owner_left(self.headers[i], worker, left);
        answer
    }

    /// Leaves a worker's packet on a desk, with all its holds.
    ///
    /// Refused `NoSuchDesk` where the pool has no such desk, else `DeskTaken` where a packet is
    /// there. Nothing changes then, and the packet comes back.
    pub(crate) fn offer(
        &mut self,
        worker: u32,
        desk: u32,
        packet: Packet,
    ) -> Result<(), (Refusal, Packet)>
        requires low { 1 ≤ worker }
        requires high { worker ≤ self.old.limits.workers }
        requires held { (i : ℕ) → bag (holds_of_packet packet) i ≤ holds_of self.old worker i }
        requires own { (i : ℕ) → bag (own_of_packet packet) i ≤ header_of self.old worker i }
        ensures did { DidOffer worker self.old desk packet (without_packet result) self.new }
        ensures back { IfErr result (λ refused. refused.1 ≡ packet) }
        ensures table { IsTable self.old }
        ensures kept { IsTable self.new }
        ensures others { KeepsOthers worker self.old self.new }
    {
        let desk = desk as usize;
        if desk >= self.desks.len() {
            return Err((Refusal::NoSuchDesk, packet));
        }
        if self.desks[desk].is_some() {
            return Err((Refusal::DeskTaken, packet));
        }
        let packet = self.desks[desk].insert(packet);
        let row = &mut self.holds[worker as usize - 1];
        end_holds(row, &mut self.headers, worker, packet.segs());
        set_owner(&mut self.headers, packet.segs(), None);
        Ok(())
    }

    /// Takes the packet off a desk, with all its holds.
    ///
    /// Refused `NoSuchDesk` where the pool has no such desk, else `DeskEmpty` where no packet is
    /// there. Nothing changes then.
    pub(crate) fn take(&mut self, worker: u32, desk: u32) -> Result<Packet, Refusal>
        requires low { 1 ≤ worker }
        requires high { worker ≤ self.old.limits.workers }
        ensures did { DidTake worker self.old desk result self.new }
        ensures table { IsTable self.old }
        ensures kept { IsTable self.new }
        ensures others { KeepsOthers worker self.old self.new }
    {
        let desk = desk as usize;
        if desk >= self.desks.len() {
            return Err(Refusal::NoSuchDesk);
        }
        let Some(packet) = &self.desks[desk] else {
            return Err(Refusal::DeskEmpty);
        };
        add_holds(&mut self.holds[worker as usize - 1], packet.segs());
        set_owner(&mut self.headers, packet.segs(), Some(worker));
        self.desks[desk].take().ok_or(Refusal::DeskEmpty)
    }

    /// Ends the pool's shared part, and leaves it as plain data.
    ///
    /// Refused `OutOfMemory` where memory was refused. The site comes back then, as it was.
    pub fn close(self, alloc: Global) -> Result<Closed, (Refusal, PlainSite)>
        ensures closed { IfOk result (λ c. c ≡ closed_of self) }
        ensures memory { IfErr result (λ refused. refused.0 ≡ Refusal.OutOfMemory) }
        ensures back { IfErr result (λ refused. refused.1 ≡ self) }
    {
        match words(alloc, &self.common, &self.places) {
            Ok((top, links, counts)) => {
                let PlainSite {
                    limits: _,
                    common,
                    places: _,
                    holds: _,
                    headers: _,
                    desks,
                    changes: _,
                } = self;
                Ok(Closed {
                    top,
                    length: common.len() as u64,
                    links: Seq::new(links),
                    counts: Seq::new(counts),
                    desks: Seq::new(desks),
                })
            }
            Err(_) => Err((Refusal::OutOfMemory, self)),
        }
    }
}

/// A pool within these limits, or a refusal of memory.
fn opened(alloc: Global, limits: &Limits) -> Result<PlainSite, AllocError>
    requires { IsPool limits.now }
    ensures made { IfOk result (λ s. s ≡ opening limits.now) }
    ensures table { IfOk result IsTable }
{
    let population = limits.population as usize;
    let common = downwards(alloc, limits.population as u32)?;
    let places = copies(alloc, Place::Common, population)?;
    let holds = no_holds(alloc, limits.workers as usize, population)?;
    let headers = copies(alloc, None, population)?;
    let desks = no_packets(alloc, limits.desks as usize)?;
    Ok(PlainSite {
        limits: *limits,
        common,
        places,
        holds,
        headers,
        desks,
        changes: limits.start_count,
    })
}

/// The numbers below `count`, the least last.
fn downwards(alloc: Global, count: u32) -> Result<Vec<u32>, AllocError>
    ensures items { IfOk result (λ v. reverse v.items ≡ range_with_len 0 count) }
    ensures len { IfOk result (λ v. vec_len v ≡ count) }
{
    let mut numbers = Vec::with_capacity(alloc, count as usize)?;
    for i in 0..count {
        numbers.push(count - 1 - i)?;
    }
    Ok(numbers)
}

/// This many times the same value.
pub(crate) fn copies<T: Copy + Drop>(
    alloc: Global,
    value: T,
    count: usize,
) -> Result<Vec<T>, AllocError>
    ensures { IfOk result (λ v. v.items ≡ replicate count value) }
{
    let mut values = Vec::with_capacity(alloc, count)?;
    for _ in 0..count {
        values.push(value)?;
    }
    Ok(values)
}

/// For each worker that it holds each element 0 times.
fn no_holds(alloc: Global, workers: usize, population: usize) -> Result<Vec<Seq<u32>>, AllocError>
    ensures { IfOk result (λ rows. rows.items ≡ replicate workers (replicate population 0)) }
{
    let mut rows = Vec::with_capacity(alloc, workers)?;
    for _ in 0..workers {
        rows.push(Seq::new(copies(alloc, 0u32, population)?))?;
    }
    Ok(rows)
}

/// This many desks with no packet.
fn no_packets(alloc: Global, desks: usize) -> Result<Vec<Option<Packet>>, AllocError>
    ensures { IfOk result (λ packets. packets.items ≡ replicate desks None) }
{
    let mut packets = Vec::with_capacity(alloc, desks)?;
    for _ in 0..desks {
        packets.push(None)?;
    }
    Ok(packets)
}

/// Takes the last elements, last first.
fn take_top(common: &mut Vec<u32>, out: &mut [u32])
    requires { length out.old ≤ vec_len common.old }
    ensures out { out.new ≡ take (length out.old) (reverse common.old.items) }
    ensures common { reverse common.new.items ≡ drop (length out.old) (reverse common.old.items) }
    ensures capacity { vec_capacity common.new ≡ vec_capacity common.old }
{
    let rest = common.len() - out.len();
    out.copy_from_slice(&common[rest..]);
    out.reverse();
    common.truncate(rest);
}

/// Notes the new place of each element of a list.
fn place(places: &mut Vec<Place>, list: &[u32], place: Place)
    requires { All (λ x. x < vec_len places.old) list.now }
    ensures items { places.new.items ≡ placed list.now place places.old.items }
    ensures len { vec_len places.new ≡ vec_len places.old }
{
    for x in list {
        places[*x as usize] = place;
    }
}

/// How often a worker holds an element.
fn hold(rows: &Vec<Seq<u32>>, row: usize, element: usize) -> u32
    requires row { row < vec_len rows.now }
    requires element { element < length (slice_index_or rows.now.items row []) }
    ensures { result ≡ slice_index (slice_index_or rows.now.items row []) element }
{
    let counts = &rows[row];
    counts.as_slice()[element]
}

/// Notes how often a worker holds an element.
fn set_hold(rows: &mut Vec<Seq<u32>>, row: usize, element: usize, count: u32)
    requires row { row < vec_len rows.old }
    requires element { element < length (slice_index_or rows.old.items row []) }
    ensures { rows.new.items ≡ slice_set rows.old.items row (slice_set (slice_index_or rows.old.items row []) element count) }
{
    let counts = &mut rows[row];
    counts.set(element, count);
}

/// How often an element with this place is held.
pub(crate) fn count_in(place: Place) -> u32
    ensures { result ≡ held_count place }
{
    match place {
        Place::Held(count) => count,
        Place::Common | Place::Hand(_) => 0,
    }
}

/// The place of an element once a hold of it has ended, and what the one who ended it is answered.
fn lowered(place: Place, worker: u32) -> (Place, Lowered)
    requires { 0 < held_count place }
    ensures { WasLowered worker place result.0 result.1 }
{
    match place {
        Place::Held(count) if count > 1 => (Place::Held(count - 1), Lowered::Still),
        _ => (Place::Hand(worker), Lowered::Last),
    }
}
