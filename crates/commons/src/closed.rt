//! What the shared part of a pool leaves when it is closed: words that anyone can read and check.

ghost use Rattle.std.specs.Prelude.{◌≡◌, ◌<◌, ◌≤◌, All, IfOk, length, map, max, reverse};
ghost use Rattle.std.specs.List.{range_with_len};
ghost use Rattle.commons.specs.Bounds.{max_population};
ghost use Rattle.commons.specs.Closing.{link_in, top_word};
ghost use Rattle.commons.specs.Lists.{held_count};

use crate::packet::Packet;
use crate::place::Place;
use crate::seq::Seq;
use crate::site::{copies, count_in};
use std::alloc::{AllocError, Global};

/// What a pool's shared part leaves as plain data. A word names an element by one more, and none
/// by 0.
#[derive(Debug, Drop)]
pub struct Closed {
    /// The top of the common list.
    pub top: u32,
    /// How many elements the common list has.
    pub length: u64,
    /// The word of what follows each element in the common list.
    pub links: Seq<u32>,
    /// The reference count of each element, 1 for one that nobody holds.
    pub counts: Seq<u32>,
    /// The packet on each desk, where one lies there.
    pub desks: Seq<Option<Packet>>,
}

/// The words of a common list, its top last, and of elements with these places: the top, the link
/// of each element, and its reference count, 1 where nobody holds it. Takes the memory of both
/// vectors; where one is refused the other goes too.
pub fn words(
    alloc: Global,
    common: &[u32],
    places: &[Place],
) -> Result<(u32, Vec<u32>, Vec<u32>), AllocError>
    requires below { All (λ x. x < length places.now) common.now }
    requires few { length places.now ≤ max_population }
    ensures top { IfOk result (λ words. words.0 ≡ top_word (reverse common.now)) }
    ensures links { IfOk result (λ words. words.1.items ≡ map (link_in (reverse common.now)) (range_with_len 0 (length places.now))) }
    ensures counts { IfOk result (λ words. words.2.items ≡ map (λ place. max 1 (held_count place)) places.now) }
{
    let (top, links) = linked(alloc, common, places.len())?;
    let counts = counts(alloc, places)?;
    Ok((top, links, counts))
}

/// The top and the links of a common list, its top last.
fn linked(alloc: Global, common: &[u32], population: usize) -> Result<(u32, Vec<u32>), AllocError>
    requires below { All (λ x. x < population) common.now }
    requires few { population ≤ max_population }
    ensures top { IfOk result (λ words. words.0 ≡ top_word (reverse common.now)) }
    ensures links { IfOk result (λ words. words.1.items ≡ map (link_in (reverse common.now)) (range_with_len 0 population)) }
{
    let mut links = copies(alloc, 0u32, population)?;
    let mut next = 0;
    for element in common {
        links[*element as usize] = next;
        next = *element + 1;
    }
    Ok((next, links))
}

/// The count of each element with these places.
fn counts(alloc: Global, places: &[Place]) -> Result<Vec<u32>, AllocError>
    ensures { IfOk result (λ v. v.items ≡ map (λ place. max 1 (held_count place)) places.now) }
{
    let mut counts = Vec::with_capacity(alloc, places.len())?;
    for place in places {
        counts.push(count_in(*place).max(1))?;
    }
    Ok(counts)
}
