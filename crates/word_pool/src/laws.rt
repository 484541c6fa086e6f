//! Laws of the workers of a pool, and of their shares and seats. Each is a function that does
//! nothing, and its contract is the law.

ghost use Rattle.std.specs.Prelude.{List, [], ◌∷◌, ◌++◌, ◌≡◌, ◌≤◌, length, map, ℕ};
ghost use Rattle.std.specs.List.{range_with_len};
ghost use Rattle.book.specs.Books.{shares_in};
ghost use Rattle.book.specs.Left.{AreLeftWhole, IsLawfulByTypes, IsLeftWhole};
ghost use Rattle.book.specs.Lost.{IsOf as IsWorkerOf};
ghost use Rattle.book.specs.Places.{Places};
ghost use Rattle.book.specs.Settling.{snapshot_with};
ghost use Rattle.book.specs.TwinBooks.{AreTwinPools};
ghost use Rattle.book.specs.declared.closed_twin.ClosedTwin.{ClosedTwin};
ghost use Rattle.commons.specs.Bounds.{IsPool};
ghost use Rattle.commons.specs.declared.closed.Closed.{Closed};
ghost use Rattle.commons.specs.declared.limits.Limits.{Limits};
ghost use Rattle.ground.specs.Parting.{both_views};
ghost use Rattle.ground.specs.Seats.{Grounded};
ghost use Rattle.mbuf.specs.Members.{Member};
ghost use Rattle.mbuf.specs.Own.{Own};
ghost use Rattle.mbuf.specs.Twins.{OwnTwin, TwinMember};
ghost use Rattle.snapshot.specs.Closing.{snapshot_of};
ghost use Rattle.snapshot.specs.Lost.{AreLost};
ghost use Rattle.step_core.specs.World.{empty_view, every_part};
ghost use Rattle.step_core.specs.declared.view.View.{View};
ghost use Rattle.word_pool.specs.Leaving.{HasAllShares, IsLeftAtRest};
ghost use Rattle.word_pool.specs.Lost.{AreLeft, left_of};
ghost use Rattle.word_pool.specs.LostViews.{AreLostBy, IsLeftWithout};
ghost use Rattle.word_pool.specs.Shares.{AreSharesOf, side_in};
ghost use Rattle.word_pool.specs.TwinShares.{AreTwinShares};
ghost use Rattle.word_pool.specs.TwinWorkers.{AllTwinsStay, AreTwinWorkers, TwinState};
ghost use Rattle.word_pool.specs.Workers.{AllAreSame, AllStay, AreCrew, AreWorkers, IsSameWorker, Stays, WorkerState, parts_of};

/// Where each of a pool's workers has stayed, whatever it did, they are all its workers, as before.
pub fn workers_who_stay_are_all()
    ensures { (g : Grounded) (old new : List WorkerState) → AreWorkers g old → AllStay old new → AreWorkers g new }
{}

/// Where each of a pool's workers is the same, whatever packets it sent and received, they are all its
/// workers, as before, whatever part of the pool each has now (`AreCrew`). Where they have every part
/// together, which `pool::all_received` tells, they are all workers as `pool::settled` asks. Else they
/// are left as `pool::settled_without` asks, all of them, or without one that is lost.
pub fn workers_who_send_and_receive_are_its_crew()
    ensures crew { (g : Grounded) (ms : List WorkerState) → AreWorkers g ms → AreCrew g ms }
    ensures same { (g : Grounded) (old new : List WorkerState) → AreCrew g old → AllAreSame old new → AreCrew g new }
    ensures all { (g : Grounded) (ms : List WorkerState) → AreCrew g ms → parts_of ms ≡ every_part g.limits → AreWorkers g ms }
    ensures left { (g : Grounded) (ms : List WorkerState) → AreCrew g ms → 1 ≤ g.limits.workers → AreLeft g [] ms }
    ensures lost { (g : Grounded) (ms : List WorkerState) (number : ℕ) → AreCrew g ms → IsWorkerOf g.limits number →
        (number ≤ length ms) × AreLeft g (number ∷ []) (left_of number ms) }
    ensures stays { (m n : WorkerState) → Stays m n → IsSameWorker m n }
    ensures again { (m n o : WorkerState) → IsSameWorker m n → IsSameWorker n o → IsSameWorker m o }
{}

/// The number of each worker of a pool is one that `pool::lose` takes, and where the worker is lost, the
/// others are those who are left, or an only one is.
pub fn a_worker_is_lost_and_the_others_are_left()
    ensures number { (g : Grounded) (ms : List WorkerState) (number : ℕ) → AreWorkers g ms → IsWorkerOf g.limits number →
        (1 ≤ number) × (number ≤ length ms) }
    ensures left { (g : Grounded) (ms : List WorkerState) (number : ℕ) → AreWorkers g ms → IsWorkerOf g.limits number →
        AreLeft g (number ∷ []) (left_of number ms) }
{}

/// Where each of the workers of two pools has stayed, whatever it did, they are all their workers, as
/// before.
pub fn twins_who_stay_are_all()
    ensures { (g h : Grounded) (old new : List TwinState) → AreTwinWorkers g h old → AllTwinsStay old new → AreTwinWorkers g h new }
{}

/// A worker whose packets are its own, over the view of its seat, has a share of what that view
/// has: all of it. A view that has nothing is no worker's share.
pub fn own_packets_are_a_share()
    ensures one { (l : Limits) (v : View) (m : Member) → Own m (side_in l v) → AreSharesOf (m ∷ []) v }
    ensures none { (part : ℕ) → AreSharesOf [] (empty_view part) }
{}

/// Where two seats are joined, the shares of both together are those of the one seat.
pub fn joined_seats_have_the_shares_of_both()
    ensures { (v u : View) (first second : List Member) → AreSharesOf first v → AreSharesOf second u →
        AreSharesOf (first ++ second) (both_views v u) }
{}

/// What a ground left that was closed (`Ground::close`) by a seat at rest with every part settles
/// without a fault, with the shares of all workers, if they are what that seat had: together they are
/// a whole pool at rest, as `book::settled_parts` asks, and so in a book that has them all, which
/// `book::settle` then refuses for memory alone. So do two pools, each closed so, by the shares of their
/// workers of both.
///
/// Where each seat is joined whose worker hands in what is its own, the shares are what the one seat
/// has (laws `own_packets_are_a_share` and `joined_seats_have_the_shares_of_both`).
pub fn what_a_seat_at_rest_left_settles()
    ensures whole { (l : Limits) (c : Closed) (v : View) (members : List Member) → IsPool l → IsLeftAtRest l c v →
        AreSharesOf members v → map (λ m. m.number) members ≡ range_with_len 1 l.workers → IsLeftWhole l c members }
    ensures book { (b : Places) (c : Closed) (v : View) → HasAllShares b → IsLeftAtRest b.limits c v →
        AreSharesOf (shares_in b.places) v → IsLawfulByTypes (snapshot_with b c) }
    ensures twins { (c : ClosedTwin) (v u : View) → AreTwinPools c.first_limits c.second_limits →
        IsLeftAtRest c.first_limits c.first v → IsLeftAtRest c.second_limits c.second u → AreTwinShares c.shares.items v u →
        map (λ m. m.number) (map (λ m. m.first) c.shares.items) ≡ range_with_len 1 c.first_limits.workers →
        map (λ m. m.number) (map (λ m. m.second) c.shares.items) ≡ range_with_len 1 c.second_limits.workers →
        AreLeftWhole c }
{}

/// Of what a lawful world left, where some views are lost and the shares are all the others', what
/// stands nowhere is exactly what is in a lost view's hand or held by lost views alone, wherever
/// their workers stopped.
pub fn what_stands_nowhere_is_lost()
    ensures { (l : Limits) (lost : List View) (members : List Member) (c : Closed) (elems : List ℕ) →
        IsLeftWithout l lost members c → AreLost (snapshot_of l c members) elems → AreLostBy l lost members c elems }
{}

/// A worker of two pools, whose packets and clones are its own over the views of its seats, has a
/// share of what those views have: all of it.
pub fn an_own_twin_is_a_share()
    ensures { (l k : Limits) (v u : View) (t : TwinMember) → OwnTwin t (side_in l v) (side_in k u) → AreTwinShares (t ∷ []) v u }
{}

/// Where two seats are joined at the ground of either pool, the shares of both together are those of
/// the one seat there.
pub fn joined_seats_have_the_twin_shares_of_both()
    ensures { (v w u x : View) (first second : List TwinMember) → AreTwinShares first v u → AreTwinShares second w x →
        AreTwinShares (first ++ second) (both_views v w) (both_views u x) }
{}
