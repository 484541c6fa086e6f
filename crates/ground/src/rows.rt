//! The words of a ground as a row of numbers.

ghost use Rattle.std.specs.Prelude.{◌≡◌, ℕ, ◌+◌, ◌<◌, ◌≤◌, ◌++◌, IfOk, replicate, [], take, drop, false, slice_index, slice_index_or, length};
ghost use Rattle.std.specs.Slots.{IsFull, slots_items, slots_len, slots_filled};
ghost use Rattle.std.specs.Vec.{vec_len, vec_capacity};
ghost use Rattle.commons.specs.Bounds.{IsPool, max_population};
ghost use Rattle.step_core.specs.Opening.{links_up};
ghost use Rattle.ground.specs.Closing.{AreOnFullDesks, kept_on};
ghost use Rattle.ground.specs.Opening.{opening_words};

use crate::head::word_of;
use crate::stack::{LINE_WORDS, LINKS};
use atomic_table::Closed as Left;
use commons::limits::Limits;
use commons::packet::Packet;
use std::alloc::{AllocError, Global};
use step_core::view::Head;

/// The words at the start: a cache line that nobody writes, the head and the length on one each,
/// then a link for each element, to the next, and a count of 1, and a word of 0 for each desk.
pub(crate) fn opening_words(alloc: Global, limits: &Limits) -> Result<Vec<u64>, AllocError>
    requires { IsPool limits.now }
    ensures { IfOk result (λ v. v.items ≡ opening_words limits.now) }
{
    let mut words = Vec::with_capacity(
        alloc,
        LINKS + 2 * limits.population as usize + limits.desks as usize,
    )?;
    push_many(&mut words, 0, LINE_WORDS as u64)?;
    words.push(word_of(Head {
        top: 1,
        count: limits.start_count,
    }))?;
    push_many(&mut words, 0, LINE_WORDS as u64 - 1)?;
    words.push(limits.population)?;
    push_many(&mut words, 0, LINE_WORDS as u64 - 1)?;
    push_links(&mut words, limits.population)?;
    push_many(&mut words, 1, limits.population)?;
    push_many(&mut words, 0, limits.desks)?;
    Ok(words)
}

/// Pushes the same word this many times.
fn push_many(words: &mut Vec<u64>, word: u64, count: u64) -> Result<(), AllocError>
    ensures { IfOk result (λ _. words.new.items ≡ words.old.items ++ replicate count word) }
{
    for _ in 0..count {
        words.push(word)?;
    }
    Ok(())
}

/// Pushes links that lead from element 0 through all.
fn push_links(words: &mut Vec<u64>, count: u64) -> Result<(), AllocError>
    requires { count ≤ max_population }
    ensures { IfOk result (λ _. words.new.items ≡ words.old.items ++ links_up 0 count) }
{
    for i in 0..count {
        words.push(link_after(i, count))?;
    }
    Ok(())
}

/// The link of an element at the start: to the next, and of the last to the end.
fn link_after(element: u64, count: u64) -> u64
    requires few { count ≤ max_population }
    requires below { element < count }
    ensures next { element + 1 < count → result ≡ element + 2 }
    ensures last { count ≤ element + 1 → result ≡ 0 }
{
    if element + 1 < count { element + 2 } else { 0 }
}

/// Reads the words from one index on into a list that has room for them.
pub(crate) fn read_row(
    left: &Left<Option<Packet>, Global>,
    from: usize,
    count: usize,
    out: &mut Vec<u32>,
)
    requires full { IsFull left.now.words }
    requires within { from + count ≤ slots_len left.now.words }
    requires small { (i : ℕ) → from ≤ i → slice_index (slots_items left.now.words) i < 4294967296 }
    requires empty { (out.old.items ≡ []) × (vec_len out.old ≡ 0) }
    requires room { count ≤ vec_capacity out.old }
    ensures { out.new.items ≡ take count (drop from (slots_items left.now.words)) }
{
    for i in 0..count {
        out.push_reserved(left.word(from + i) as u32);
    }
}

/// What is left of a desk with this word and this slot.
fn kept_on(word: u64, slot: Option<Packet>) -> Option<Packet>
    ensures { result ≡ kept_on word slot }
{
    if word == 2 { slot } else { None }
}

/// Takes out what is in the slots, and lists it where the desk's word is 2: what is in another's
/// slot belongs to a worker who is busy there, or is nothing.
pub(crate) fn read_desks(
    left: &mut Left<Option<Packet>, Global>,
    from: usize,
    out: &mut Vec<Option<Packet>>,
)
    requires words { IsFull left.old.words }
    requires slots { IsFull left.old.slots }
    requires within { from + slots_len left.old.slots ≤ slots_len left.old.words }
    requires nothing { (out.old.items ≡ []) × (vec_len out.old ≡ 0) }
    requires room { slots_len left.old.slots ≤ vec_capacity out.old }
    ensures count { length out.new.items ≡ slots_len left.old.slots }
    ensures desks { AreOnFullDesks (drop from (slots_items left.old.words)) (slots_items left.old.slots) out.new.items }
    ensures slots { slots_len left.new.slots ≡ slots_len left.old.slots }
    ensures empty { (k : ℕ) → k < slots_len left.new.slots → slice_index_or (slots_filled left.new.slots) k false ≡ false }
{
    for i in 0..left.slot_count() {
        let slot = left.take(i);
        let word = left.word(from + i);
        out.push_reserved(kept_on(word, slot));
    }
}
