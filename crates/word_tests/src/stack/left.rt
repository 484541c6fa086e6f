//! What a pool leaves: each element once, in the common list or in a hand.

use super::same;
use commons::closed::Closed;
use std::alloc::{AllocError, Global};
use std::fmt::Debug;
use std::process::Abort;
use std::test::Fail;

/// The elements of the common list, its top first. Of a list that doesn't end, one element more
/// than the pool has.
fn common_list(alloc: Global, closed: &Closed) -> Result<Vec<u32>, AllocError> {
    let links = closed.links.as_slice();
    let mut list = Vec::new(alloc);
    let mut word = closed.top;
    for _ in 0..=links.len() {
        if word > 0 {
            let element = word - 1;
            list.push(element)?;
            word = links.get(element as usize).copied().unwrap_or(0);
        }
    }
    Ok(list)
}

/// The common list is as long as its length word says, and it and the hands list each element once.
pub(super) fn assert_each_once<R: Abort, W: Debug>(
    rt: &R,
    alloc: Global,
    closed: &Closed,
    kept: &[u32],
    what: &W,
) -> Result<(), Fail> {
    let mut list = common_list(alloc, closed)?;
    let length = list.len() as u64;
    same(rt, &length, &closed.length, &(what, "the length"));
    list.extend_from_slice(kept)?;
    list.sort_unstable();
    let elements = closed.links.len();
    same(rt, &list.len(), &elements, &(what, "the elements"));
    for (element, place) in list.iter().zip(0u32..) {
        same(rt, element, &place, &(what, "each once"));
    }
    Ok(())
}
