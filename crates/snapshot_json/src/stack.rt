//! The words of a stack, from the list of its elements.

ghost use Rattle.std.specs.Prelude.{◌≡◌, ℕ, ◌<◌, ◌≤◌, ◌↔◌, All, IfOk, IsTrue, length, replicate};
ghost use Rattle.commons.specs.Bag.{bag};
ghost use Rattle.commons.specs.Bounds.{max_population};
ghost use Rattle.snapshot_json.specs.Doubles.{IsLeastOf, lesser_of};
ghost use Rattle.snapshot_json.specs.Reading.{IsOfPool};
ghost use Rattle.snapshot_json.specs.SnapshotData.{links_of, top_of};

use crate::text::Double;
use commons::limits::MAX_POPULATION;
use std::alloc::{AllocError, Global};

/// Whether each of these is an element of the population, which is one that a pool can have.
pub(crate) fn has_words(common: &[u32], population: u64) -> bool
    ensures { IsTrue result ↔ IsOfPool population common.now }
{
    population <= MAX_POPULATION && common.iter().all(|elem| u64::from(*elem) < population)
}

/// The least element that stands twice in the list, if one does.
pub(crate) fn doubled(
    alloc: Global,
    common: &[u32],
    population: usize,
) -> Result<Option<Double>, AllocError>
    requires { All (λ e. e < population) common.now }
    ensures { IfOk result (λ found. IsLeastOf common.now (length common.now) found) }
{
    let mut places = no_places(alloc, population)?;
    let mut least: Option<Double> = None;
    for (index, elem) in common.iter().enumerate() {
        let before = places[*elem as usize];
        if before == 0 {
            places[*elem as usize] = index + 1;
            continue;
        }
        let double = Double {
            elem: *elem,
            first: before - 1,
            second: index,
        };
        least = lesser(least, double);
    }
    Ok(least)
}

/// A 0 for each element of the population.
fn no_places(alloc: Global, population: usize) -> Result<Vec<usize>, AllocError>
    ensures { IfOk result (λ places. places.items ≡ replicate population 0) }
{
    vec![in alloc; 0usize; population]
}

/// The one of the lesser element, or the former of two of one element.
fn lesser(least: Option<Double>, other: Double) -> Option<Double>
    ensures { result ≡ lesser_of least other }
{
    match least {
        None => Some(other),
        Some(double) => {
            if double.elem <= other.elem {
                Some(double)
            } else {
                Some(other)
            }
        }
    }
}

/// The word that names the top of the list.
pub(crate) fn top(common: &[u32]) -> u32
    requires { All (λ e. e < max_population) common.now }
    ensures { result ≡ top_of common.now }
{
    match common.first() {
        Some(elem) => *elem + 1,
        None => 0,
    }
}

/// The links of the list.
pub(crate) fn links(
    alloc: Global,
    common: &[u32],
    population: usize,
) -> Result<Vec<u32>, AllocError>
    requires known { All (λ e. e < population) common.now }
    requires bound { population ≤ max_population }
    ensures { IfOk result (λ links. links.items ≡ links_of population common.now) }
{
    let mut links = vec![in alloc; 0u32; population]?;
    let mut below = 0;
    let mut left = common.len();
    while left > 0 {
        left -= 1;
        let elem = common[left];
        links[elem as usize] = below;
        below = elem + 1;
    }
    Ok(links)
}
