//! What a worker has more or less once a packet passes: the holds of its row, and its headers.

ghost use Rattle.std.specs.Prelude.{◌≡◌, ◌+◌, ◌<◌, ◌≤◌, ℕ, [], ◌∷◌, length, slice_index, All, vec_len};
ghost use Rattle.commons.specs.Bag.{bag, one};
ghost use Rattle.commons.specs.Bounds.{max_refs};
ghost use Rattle.commons.specs.Lists.{owner_left, placed};
ghost use Rattle.commons.specs.Packets.{hold_of, holds_of_seg, holds_of_packet, own_of_packet};
ghost use Rattle.commons.specs.inside.Site.{HasEnded};

use crate::packet::Seg;
use crate::seq::Seq;

/// A header's owner once a worker has this many holds of it left.
pub(crate) fn owner_left(owner: Option<u32>, worker: u32, left: u32) -> Option<u32>
    ensures { result ≡ owner_left worker left owner }
{
    match owner {
        Some(number) if left == 0 && number == worker => None,
        other => other,
    }
}

/// Adds one hold of each element that a packet holds to a worker's row.
pub(crate) fn add_holds(row: &mut Seq<u32>, segs: &[Seg])
    requires below { (i : ℕ) → 0 < bag (holds_of_packet segs.now) i → i < length row.old }
    requires few { (i : ℕ) → slice_index row.old i + bag (holds_of_packet segs.now) i ≤ max_refs }
    ensures holds { (i : ℕ) → slice_index row.new i ≡ slice_index row.old i + bag (holds_of_packet segs.now) i }
    ensures len { length row.new ≡ length row.old }
{
    for seg in segs {
        add_seg(row, *seg);
    }
}

/// Adds the holds of one segment.
fn add_seg(row: &mut Seq<u32>, seg: Seg)
    requires below { (i : ℕ) → 0 < bag (holds_of_seg seg) i → i < length row.old }
    requires few { (i : ℕ) → slice_index row.old i + bag (holds_of_seg seg) i ≤ max_refs }
    ensures holds { (i : ℕ) → slice_index row.new i ≡ slice_index row.old i + bag (holds_of_seg seg) i }
    ensures len { length row.new ≡ length row.old }
{
    add_base(row, seg.base);
    add_hold(row, seg.elem as usize);
}

/// Adds one hold of the base, where there is one.
fn add_base(row: &mut Seq<u32>, base: Option<u32>)
    requires below { (i : ℕ) → 0 < bag (hold_of base) i → i < length row.old }
    requires few { (i : ℕ) → slice_index row.old i + bag (hold_of base) i ≤ max_refs }
    ensures holds { (i : ℕ) → slice_index row.new i ≡ slice_index row.old i + bag (hold_of base) i }
    ensures len { length row.new ≡ length row.old }
{
    match base {
        Some(element) => add_hold(row, element as usize),
        None => {}
    }
}

/// Adds one hold of an element.
fn add_hold(row: &mut Seq<u32>, element: usize)
    requires below { element < length row.old }
    requires few { slice_index row.old element < max_refs }
    ensures holds { (i : ℕ) → slice_index row.new i ≡ slice_index row.old i + one element i }
    ensures len { length row.new ≡ length row.old }
{
    let more = row.as_slice()[element] + 1;
    row.set(element, more);
}

/// Ends one hold by a worker of each element that a packet holds, in the worker's row; what the
/// worker then doesn't hold is no longer its header.
pub(crate) fn end_holds(
    row: &mut Seq<u32>,
    headers: &mut Vec<Option<u32>>,
    worker: u32,
    segs: &[Seg],
)
    requires held { (i : ℕ) → bag (holds_of_packet segs.now) i ≤ slice_index row.old i }
    requires within { length row.old ≤ vec_len headers.old }
    ensures { HasEnded worker (holds_of_packet segs.now) row.old headers.old.items row.new headers.new.items }
{
    for seg in segs {
        end_seg(row, headers, worker, *seg);
    }
}

/// Ends the holds of one segment.
fn end_seg(row: &mut Seq<u32>, headers: &mut Vec<Option<u32>>, worker: u32, seg: Seg)
    requires held { (i : ℕ) → bag (holds_of_seg seg) i ≤ slice_index row.old i }
    requires within { length row.old ≤ vec_len headers.old }
    ensures { HasEnded worker (holds_of_seg seg) row.old headers.old.items row.new headers.new.items }
{
    end_base(row, headers, worker, seg.base);
    end_hold(row, headers, worker, seg.elem as usize);
}

/// Ends one hold of the base, where there is one.
fn end_base(row: &mut Seq<u32>, headers: &mut Vec<Option<u32>>, worker: u32, base: Option<u32>)
    requires held { (i : ℕ) → bag (hold_of base) i ≤ slice_index row.old i }
    requires within { length row.old ≤ vec_len headers.old }
    ensures { HasEnded worker (hold_of base) row.old headers.old.items row.new headers.new.items }
{
    match base {
        Some(element) => end_hold(row, headers, worker, element as usize),
        None => {}
    }
}

/// Ends one hold of an element.
fn end_hold(row: &mut Seq<u32>, headers: &mut Vec<Option<u32>>, worker: u32, element: usize)
    requires held { 0 < slice_index row.old element }
    requires within { length row.old ≤ vec_len headers.old }
    ensures { HasEnded worker (element ∷ []) row.old headers.old.items row.new headers.new.items }
{
    let left = row.as_slice()[element] - 1;
    row.set(element, left);
    headers[element] = owner_left(headers[element], worker, left);
}

/// Notes the owner of the headers that a packet's own elements are.
pub(crate) fn set_owner(headers: &mut Vec<Option<u32>>, segs: &[Seg], owner: Option<u32>)
    requires { All (λ seg. seg.elem < vec_len headers.old) segs.now }
    ensures items { headers.new.items ≡ placed (own_of_packet segs.now) owner headers.old.items }
    ensures len { vec_len headers.new ≡ vec_len headers.old }
{
    for seg in segs {
        headers[seg.elem as usize] = owner;
    }
}
