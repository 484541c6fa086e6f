//! Laws of what workers have lost. Each is a function that does nothing, and its contract is the
//! law.

ghost use Rattle.std.specs.Prelude.{ℕ, ◌≡◌, List, map};
ghost use Rattle.std.specs.List.{range_with_len};
ghost use Rattle.commons.specs.declared.closed.Closed.{Closed};
ghost use Rattle.commons.specs.declared.limits.Limits.{Limits};
ghost use Rattle.mbuf.specs.Members.{Member};
ghost use Rattle.snapshot.specs.Closing.{snapshot_of};
ghost use Rattle.snapshot.specs.Lost.{AreLost};
ghost use Rattle.snapshot.specs.Snapshots.{IsLawful};
ghost use Rattle.book.specs.Lost.{AreLostWith, AreOrdered, unlisted_of};

/// Where a closed pool is lawful with the shares of all its workers, what stands nowhere without
/// those of the listed ones is exactly what such a worker has in its cache or such workers alone
/// hold.
pub fn what_stands_nowhere_is_lost()
    ensures { (l : Limits) (closed : Closed) (members : List Member) (listed elems : List ℕ) →
        IsLawful (snapshot_of l closed members) → AreLost (snapshot_of l closed (unlisted_of listed members)) elems →
        AreLostWith l listed members closed.desks elems }
{}

/// All workers of a pool, from the first to the last, are in the order of their numbers.
pub fn all_workers_are_in_order()
    ensures { (l : Limits) (members : List Member) (listed : List ℕ) →
        map (λ m. m.number) members ≡ range_with_len 1 l.workers → AreOrdered l listed members }
{}
