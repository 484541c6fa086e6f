//! Laws of the calls over words. Each is a function that does nothing, and its contract is the law.

ghost use Rattle.stack_lf.specs.Bounds.{AreBounded, AreCauses};
ghost use Rattle.stack_lf.specs.Notes.{GetsCutOnce, LossesAreChanges, PutsPushOnce};

/// The steps of a call that its seat notes are bounded by its list and the pool's tries:
/// `tries * (n + 4) + 1` of a get, `tries * (n + 2) + 1` of a put, `2 * tries` of a raise, three
/// of a lower, and one of a claim, a count and a length. An offer and a take note two, on the
/// desk's word, and at most one where they are refused; the exchange of what is in the desk's slot
/// isn't counted, of which the conditions of `Ground::put_in` and `take_out` allow one.
pub fn steps_are_bounded()
    ensures { AreBounded }
{}

/// What the tries of a call read last, of its kind, is the cause of its answer.
pub fn what_was_read_last()
    ensures { AreCauses }
{}

/// A get that succeeds has one cut that won, of its whole list; one that is refused has none. What
/// a get has reserved it has cut, or given back.
pub fn one_cut()
    ensures { GetsCutOnce }
{}

/// A put that succeeds has one push that won, and raises the length by its list; one that is
/// refused does neither.
pub fn one_push()
    ensures { PutsPushOnce }
{}

/// An exchange that lost found another value than its try had read: another length, or a head of a
/// later count, so that the stack has changed since.
pub fn losses_are_changes()
    ensures { LossesAreChanges }
{}
