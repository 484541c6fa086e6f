//! Laws of the lists. Each is a function that does nothing, and its contract is the law.

ghost use Rattle.std.specs.Prelude.{◌≡◌, ◌≤◌, ◌+◌, ℕ, List, Ok};
ghost use Rattle.commons.specs.Beside.{LeavesOthers};
ghost use Rattle.commons.specs.Bag.{bag};
ghost use Rattle.commons.specs.Calls.{Did, Made, Leads, Take};
ghost use Rattle.commons.specs.Lists.{opening, hand_of, holds_of};
ghost use Rattle.commons.specs.Packets.{own_of_packet};
ghost use Rattle.commons.specs.declared.limits.Limits.{Limits};
ghost use Rattle.commons.specs.declared.packet.Seg.{Seg};
ghost use Rattle.commons.specs.declared.plain.PlainCommons.{PlainCommons};

use crate::plain::PlainCommons;
use crate::shared::Commons;

/// In a new pool nothing is in a worker's hand, and no worker holds anything.
pub fn nobody_has_anything()
    ensures hand { (l : Limits) (worker i : ℕ) → hand_of (opening l) worker i ≡ 0 }
    ensures holds { (l : Limits) (worker i : ℕ) → holds_of (opening l) worker i ≡ 0 }
{}

/// The own elements of a packet that was taken are distinct, and none was a header of the worker
/// before.
pub fn a_taken_packet_brings_new_headers<C: Commons>()
    ensures { (before : C) (desk : ℕ) (packet : List Seg) (after : C) → Did C.did C.side before (Take desk (Ok packet)) after →
        (i : ℕ) → (C.side before).headers i + bag (own_of_packet packet) i ≤ 1 }
{}

/// A worker's calls on a `PlainSite` leave every other worker what it has there.
pub fn a_worker_leaves_the_others()
    ensures { (before : PlainCommons) (made : List Made) (after : PlainCommons) →
        Leads ⟦<PlainCommons<'static> as Commons>⟧.did ⟦<PlainCommons<'static> as Commons>⟧.side before made after → LeavesOthers before after }
{}
